//! Pools of pages of 2 MiB, one on each node with memory, as Linux's hugetlb keeps them: what a
//! mapping reserves, which node gives a page at a first touch, what becomes of pages that are freed
//! or moved, and how pools grow and shrink.
//!
//! All numbers of this crate are of pages of 2 MiB. No call takes memory, and none takes longer for
//! more pages: a resize takes time by the number of nodes.
//!
//! A node has pages in all (total), of which some are free, and some are surplus: a surplus page
//! ends when it becomes free. Reserved pages are free pages that mappings will touch; they are
//! counted for all nodes together. Two marks remember which node is next in turn to grow and to
//! shrink.
#![tactic(auto)]

mod counts;
pub mod laws;
pub mod pools;
pub mod refusal;
mod shares;
mod turns;

pub use pools::Pools;
pub use refusal::PoolRefusal;
