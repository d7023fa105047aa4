//! What a change makes of the pages of a space, or of each process of a host, and what a trace of
//! accesses meets there.
//!
//! [`difference_since`] answers about what scripts led to, [`diff_spaces`] and [`replay_space`]
//! about spaces, [`replay_hosts`] about hosts. [`report_of`] tells what a trace met that was
//! replayed over scripts.
#![tactic(auto)]

mod differing;
mod met;
mod replaying;
mod spaces;
mod stage;

pub use differing::{DiffAsked, StatesBefore, difference_since, states_of};
pub use met::{TraceMet, report_of};
pub use replaying::{Replayed, replay_hosts, replay_space};
pub use spaces::diff_spaces;
pub use stage::{Planned, plan_of, state_of};
