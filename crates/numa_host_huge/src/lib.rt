//! Pages of 2 MiB of a host's processes, and the pools that all of them share (hugetlb).
//!
//! Each process that has mapped such pages has a state of them as `numa_huge` keeps it for one
//! process. The pools are the host's: while a process acts they are lent to its pages, and taken
//! back afterwards, so that all that is said there of one process is said here of each. Of each
//! node so many pages are used as processes have there, all together, and so many are reserved as
//! their untouched pages say.
//!
//! What a command does to pages is prepared (`mapped`, `unmapped`, `populated`, `sent`,
//! `inherited`) before the host accepts it, and settled afterwards, which can't fail.
#![tactic(auto)]

pub mod shared;
mod sharer;

pub use shared::HostHuge;
