//! Compiling a space to a plan, and keeping a space together with its plan.
#![tactic(auto)]

mod compiler;
mod laws;
mod numbers;
mod planned;
mod reach;
mod recompiler;
mod rows;
mod rules;
mod turns;

pub use compiler::{compile, compile_commands};
pub use laws::every_plan;
pub use planned::PlannedSpace;
pub use recompiler::recompile;
