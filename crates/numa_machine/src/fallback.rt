//! Which fallback orders a machine uses.
use numa_mask::NodeMask;

/// The order in which an allocation falls back to other nodes when a node has no free frame.
#[derive(Clone, Copy, Debug, PartialEq, Eq)]
pub enum Fallback {
    /// The nearest node first; equally distant ones by their number.
    Nearest,
    /// As Linux 6.1 to 6.12 builds its zone lists if these nodes have CPUs: by distance, with one
    /// more for a lower number and one more for a node with CPUs. A tie goes to the node at which
    /// fewer of the lists built so far change to another distance, so that not all nodes fall back
    /// to the same one.
    Kernel(NodeMask),
}
