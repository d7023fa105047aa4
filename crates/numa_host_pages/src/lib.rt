//! Where the pages of a host's processes lie.
//!
//! Each process that has pages has a state of them as `numa_page_state` keeps it for one process.
//! The rooms of the nodes are the host's: while a process acts they are lent to its state, and
//! taken back afterwards, so that all that is said there of one process is said here of each.
//! Where a group's nodes change, the pages of each process follow whose allowed nodes change: group
//! by group from the top down, siblings as they were made, and in each group the processes as they
//! came to it. What the host's last move did is the sum over the processes that went along.
#![tactic(auto)]

mod following;
pub mod laws;
mod member;
pub mod obeying;
mod order;
mod pages;
mod summing;

pub use obeying::obey;
pub use pages::HostPages;
