//! The policy that a mount of tmpfs gives to the files that are made in it: what `mpol=` asks for
//! ("Tmpfs", `mpol`).
//!
//! A mount's policy is judged by the nodes that have memory. What it means for a file depends on
//! who makes the file: the nodes are those that an mbind(2) by the maker would have. Where none is
//! left the file has no policy. The rules are those of mpol_parse_str in the kernel's
//! mm/mempolicy.c.
#![tactic(auto)]

pub mod mount;

pub use mount::{Mount, MountNodes, file_policy};
