//! A stress test: workers in threads place pages while policies change, and each placement is
//! compared with the slow resolution of its version.
#![tactic(auto)]

mod compare;
mod crew;
mod gate;
pub mod play;
pub mod report;
mod setting;

pub use play::storm;
pub use report::StormReport;
