//! What sending pages did.

/// What moving the pages that lay astray did, or touching those that were nowhere.
#[derive(Clone, Copy, Debug, PartialEq, Eq, Drop)]
pub struct Bound {
    /// The number of pages that went to another node, or to a first one.
    pub moved: u64,
    /// The number of pages that found no node with room, and stayed.
    pub left: u64,
}
