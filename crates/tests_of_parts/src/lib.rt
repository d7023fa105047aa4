//! Tests of the lower crates, from long lists to plans and pools: what no clause says and no script
//! shows. It holds nothing but tests, so that the crates themselves are proved once.
#![tactic(auto)]

#[cfg(test)]
mod tests;
