//! Tests of calls that change something, with each growth refused: call by call, what is shown
//! before a refused call is shown after it, and the same call with memory then does what it does
//! without a refusal. It holds nothing but tests.
#![tactic(auto)]

#[cfg(test)]
mod tests;
