//! Tests of what threads share: a desk's published versions and their readers, workers that place
//! pages by them, and crews. It holds nothing but tests, so that the crates themselves are proved
//! once. `./test storm` has workers beside a thread that submits policies.
#![tactic(auto)]

#[cfg(test)]
mod tests;
