//! Memory policies of a task or of a range of pages, as set_mempolicy(2) and mbind(2) take them.
//!
//! A policy is requested by a mode, at most one of two flags, and a set of nodes: a [`PolicySpec`].
//! Its effective set, which depends on the nodes that the task is allowed, decides what it does: a
//! [`Record`] has both. The record of a range may also have a home node, as set by
//! set_mempolicy_home_node(2).
//!
//! `Default` requests no policy: it removes the current one, so no record has it.
//!
//! `Preferred` has at most one node, the lowest of its set. Without nodes it is `Local`.
//!
//! `Bind` allows no node outside its set.
//!
//! `Interleave` spreads pages over its nodes, one page each in turn.
//!
//! `Local` has no nodes: a page comes from the node of the CPU that first touches it.
//!
//! `PreferredMany` prefers its nodes to all others.
//!
//! `WeightedInterleave` is `Interleave` with as many pages in a node's turn as its weight.
//!
//! With `STATIC_NODES` a policy has those of its nodes that are allowed at any time. With
//! `RELATIVE_NODES` its numbers are ordinals among the allowed nodes, read again at each change of
//! these. With neither it has those of its nodes that are allowed when it is set, and at each
//! change these move to the same ordinals among the new ones; so nodes that a smaller set took away
//! don't come back.
//!
//! No call allocates. The rules are the kernel's: mm/mempolicy.c and "NUMA Memory Policy" of its
//! administration guide.
#![tactic(auto)]

mod effects;
pub mod flags;
pub mod modes;
pub mod records;
pub mod specification;

pub use flags::PolicyFlags;
pub use modes::{Mode, NodeFlag};
pub use records::{NodesNotAllowed, Record};
pub use specification::{PolicySpec, SpecError};
