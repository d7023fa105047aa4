//! Commands of the program that answer scripts line by line: answers, what is wrong with lines, a
//! comparison with wanted answers, and typed scripts.
#![tactic(auto)]

pub mod check;
pub mod expect;
pub mod run;
mod shell;
pub mod terminal;
