//! What a move did.

/// What a move of pages did. Pages are left only where a node fills.
#[derive(Clone, Copy, PartialEq, Eq, Drop)]
pub struct Moved {
    /// The number of pages that went to another node.
    pub moved: u64,
    /// The number of pages that had a node to go to, and stayed.
    pub left: u64,
    /// By node, the number of pages that went from it to another.
    pub from: [u64; 256],
    /// By node, the node to which its pages go: the node itself, if they stay.
    pub to: [u8; 256],
}
