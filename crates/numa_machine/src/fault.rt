//! Why a machine or a weight is refused.
use std::alloc::AllocError;

/// Why the description of a machine is refused: the first of these that applies.
#[derive(Clone, Copy, Debug, PartialEq, Eq)]
pub enum MachineFault {
    /// The number of nodes is 0 or above 256, the distances aren't nodes times nodes, or the frames
    /// aren't as many as the nodes; or the machine lacks a node that is listed as having CPUs.
    NodeCount,
    /// No node has memory, or the machine lacks a node that is listed as having memory.
    NoMemoryNode,
    /// A node's distance to itself isn't 10, or its distance to another is below 11.
    BadDistance,
    /// A node has more than 4,096 frames, a node without memory has frames, or there are more than
    /// 65,536 frames in total.
    TooManyFrames,
    /// Out of memory for the tables.
    NoMemory,
}

impl From<AllocError> for MachineFault {
    ghost use Rattle.std.specs.Prelude.{◌≡◌};
    ghost use Rattle.numa_machine.specs.declared.fault.MachineFault.TheVariants.{NoMemory};

    ghost from_gives = { λ _ fault. fault ≡ NoMemory };

    fn from(_: AllocError) -> MachineFault {
        MachineFault::NoMemory
    }
}

/// Why the weight of a node is refused: the first of these that applies.
#[derive(Clone, Copy, Debug, PartialEq, Eq)]
pub enum WeightError {
    /// The machine lacks the node.
    NoSuchNode,
    /// The weight is 0 or above 255.
    BadWeight,
}
