//! Scripts of a host: of processes in control groups.
//!
//! A script is one process's, as `numa_run` says, until a line `host` is accepted behind `machine`.
//! From there on it has lines that make groups and processes, and `in P LINE` hands a line to a
//! process, which answers it as a script would that has accepted the commands of that process
//! (`commands_of` of `numa_host`). Where nodes fill, they do for all processes. A [`RunningHost`]
//! is told the same by calls.
#![tactic(auto)]

mod acting;
pub mod asking;
mod binding;
mod both;
pub mod laws;
mod lending;
mod lines;
mod paging;
mod pooling;
pub mod running;
pub mod script;
pub mod streams;
mod taking;
mod telling;

pub use running::RunningHost;
pub use script::HostScript;
pub use streams::run_by;
pub use taking::HostTaken;
