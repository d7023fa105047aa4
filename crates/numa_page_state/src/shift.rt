//! What a move of pages came to.

/// How many pages moved, and how many had a node to go to and stayed.
#[derive(Clone, Copy, Debug, PartialEq, Eq)]
pub struct Shift {
    pub moved: u64,
    pub left: u64,
}
