//! The nodes of a row.
use numa_mask::NodeMask;

/// The nodes of a row, the nearest first.
#[derive(Clone, Copy)]
pub(crate) enum Reach {
    /// Only the nodes of the set.
    Only(NodeMask),
    /// The nodes of the set, and after them the other allowed nodes.
    First(NodeMask),
}
