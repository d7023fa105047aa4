//! Pools of page frames that threads share without a lock. Each frame of the machine has a bit; a
//! seat takes a frame by setting its bit in one atomic step and gives it up by clearing it, and
//! each thread works with a seat of its own. An [`OwnedSeat`] carries its pools, for threads that
//! share nothing else.
#![tactic(auto)]

pub mod alone;
mod along;
mod close;
pub mod closed;
pub mod laws;
mod marks;
pub mod owned_seat;
pub mod pools;
mod search;
pub mod seat;
mod steps;
pub mod view;

pub use along::take_along;
pub use closed::Closed;
pub use owned_seat::{ExchangeRefusal, OwnedSeat};
pub use pools::Pools;
pub use seat::PoolSeat;
