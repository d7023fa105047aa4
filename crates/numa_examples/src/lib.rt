//! What examples of several crates begin with: sets of nodes, machines, pools, commands, spaces,
//! readers and writers that fail, marks for refused growths. Tests and measurements use it; no
//! other crate does.
#![tactic(auto)]

pub mod commands;
pub mod machines;
pub mod marks;
pub mod pools;
pub mod sets;
pub mod spaces;
pub mod streams;
pub mod tally;

pub use commands::{ShortCommand, command_of, commands_of, spec_of};
pub use machines::{flat_distances, flat_machine, machine_of};
pub use marks::{made, mark};
pub use sets::set_of;
pub use spaces::{flat_space, limits};
pub use streams::{Narrow, Trickle};
pub use tally::tallied;
