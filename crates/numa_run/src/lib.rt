//! Running scripts: from a line to its reply or its answer.
#![tactic(auto)]

pub mod arrived;
pub mod binding;
mod build;
pub mod huge;
pub mod judging;
pub mod listing;
pub mod moved;
mod obeying;
pub mod paging;
pub mod pools;
pub mod questions;
mod running;
mod script;
mod settings;
mod streams;

pub use running::Taken;
pub use script::Script;
pub use streams::run;
