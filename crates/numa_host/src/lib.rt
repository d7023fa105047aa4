//! A host: a tree of control groups, and processes in them, each with a space of its own.
//!
//! A process is what `numa_space` calls a space: pages, the policies of its ranges and tasks, and
//! the nodes that it is allowed. Those are its group's effective nodes. What a process answers is
//! the meaning of the list of commands that it has accepted, `commands_of`: its own, those of its
//! parent up to the fork, the host's weights, and a change of the allowed nodes whenever those of
//! its group have changed. So each law about spaces is one about every process.
#![tactic(auto)]

pub mod group;
pub mod host;
pub mod laws;
pub mod process;
mod refusal;

pub use group::ControlGroup;
pub use host::Host;
pub use process::Process;
