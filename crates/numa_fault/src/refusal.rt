//! Why a fault wasn't served, or a page wasn't moved.
use numa_requests::Placement;

/// Why a page wasn't placed: the first of these that applies.
#[derive(Clone, Copy, PartialEq, Eq, Debug, Drop)]
pub enum FaultRefusal {
    /// The reader couldn't enter: the desk has ended, or the entry failed spuriously.
    NoView,
    /// The machine lacks the faulting node.
    BadCpu,
    /// The page isn't mapped in this version.
    Unmapped(u64),
    /// Each frame of each node of the page's list in this version was found taken.
    Exhausted(u64),
}

/// Why a span of pages wasn't placed in full: the first of these that applies.
#[derive(Clone, Copy, PartialEq, Eq, Debug, Drop)]
pub enum SpanRefusal {
    /// The reader couldn't enter: the desk has ended, or the entry failed spuriously.
    NoView,
    /// The machine lacks the faulting node.
    BadCpu,
    /// A page of the span isn't mapped in this version. No frame was taken.
    Unmapped(u64),
    /// In this version the given number of pages was placed, from the first on. For the next one
    /// each frame of each node of its list was found taken.
    Exhausted(u64, usize),
    /// Out of memory for the placements. No frame was taken.
    NoMemory,
}

/// Why a page wasn't moved to another node: the first of these that applies. Each hands back the
/// page's placement, whose frame the worker still has.
#[derive(PartialEq, Eq, Debug, Drop)]
pub enum MigrateRefusal {
    /// The machine lacks the node, or the node has no frames, as one without memory.
    NoSuchNode(Placement),
    /// Each frame of the node was found taken.
    Exhausted(Placement),
}

impl MigrateRefusal {
    ghost use Rattle.std.specs.Prelude.{◌≡◌};
    ghost use Rattle.numa_fault.specs.Migration.{handed_back};

    /// The page's placement, as it was.
    pub fn into_placement(self) -> Placement
        ensures { result ≡ handed_back self }
    {
        match self {
            MigrateRefusal::NoSuchNode(placement) => placement,
            MigrateRefusal::Exhausted(placement) => placement,
        }
    }
}
