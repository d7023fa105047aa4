//! Why a pool isn't resized.

/// Why a node's pool isn't resized. Nothing has changed then.
#[derive(Clone, Copy, Debug, Drop, PartialEq, Eq)]
pub enum PoolRefusal {
    /// The machine lacks the node.
    NoSuchNode,
    /// Linux subtracts more pages than there are, and takes all the node's memory.
    Unsure,
}
