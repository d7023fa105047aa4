//! Why a call about pages that are there is refused.
ghost use Rattle.std.specs.Prelude.{◌≡◌};
ghost use Rattle.numa_requests.specs.PageErrors.{huge_errno_of, move_errno_of, page_errno_of};

/// Why a call was refused: the first of these that applies. Nothing has changed.
#[derive(Clone, Copy, Debug, PartialEq, Eq)]
pub enum PlacedRefusal {
    /// The start isn't a multiple of 4,096.
    Unaligned,
    /// The span ends above address 2^47, or the page isn't below 2^35.
    OutOfSpace,
    /// The machine lacks the node, or the node has no memory.
    NoSuchNode,
    /// The page that is to go into a frame lies somewhere.
    Occupied,
    /// No node to which pages should go is allowed.
    NodesNotAllowed,
    /// A page lies on a node that isn't in the list.
    Astray,
    /// The machine has no node by this number, on a CPU of which the task should run.
    BadCpu,
    /// A page of the span isn't mapped.
    Unmapped,
    /// The node has no room for the pages that would come to it.
    NoRoom,
    /// There would be more than 1,048,576 runs of placed pages.
    TooManyRuns,
    /// Out of memory for the runs that the call makes.
    NoMemory,
}

impl PlacedRefusal {
    /// The error number that Linux has for the cause (errno(3)).
    pub fn errno(self) -> u32
        ensures { result ≡ page_errno_of self }
    {
        match self {
            PlacedRefusal::Unaligned => 22,
            PlacedRefusal::OutOfSpace => 12,
            PlacedRefusal::NoSuchNode => 22,
            PlacedRefusal::Occupied => 17,
            PlacedRefusal::NodesNotAllowed => 22,
            PlacedRefusal::Astray => 5,
            PlacedRefusal::BadCpu => 22,
            PlacedRefusal::Unmapped => 12,
            PlacedRefusal::NoRoom => 12,
            PlacedRefusal::TooManyRuns => 12,
            PlacedRefusal::NoMemory => 12,
        }
    }
}

/// Why a page isn't moved to a node (move_pages(2)): the first of these that applies.
#[derive(Clone, Copy, Debug, PartialEq, Eq)]
pub enum MoveRefusal {
    /// The machine lacks the node, or the node has no memory.
    NoSuchNode,
    /// The node isn't allowed.
    NodesNotAllowed,
    /// The page isn't mapped.
    Unmapped,
    /// The page lies nowhere.
    NotPlaced,
    /// The page is in a frame of another node, and stays there.
    NoRoom,
    /// There would be more than 1,048,576 runs of placed pages.
    TooManyRuns,
    /// Out of memory for the runs that the move makes.
    NoMemory,
}

impl MoveRefusal {
    /// The error number that move_pages(2) gives for the cause (errno(3)).
    pub fn errno(self) -> u32
        ensures { result ≡ move_errno_of self }
    {
        match self {
            MoveRefusal::NoSuchNode => 19,
            MoveRefusal::NodesNotAllowed => 13,
            MoveRefusal::Unmapped => 14,
            MoveRefusal::NotPlaced => 2,
            MoveRefusal::NoRoom => 12,
            MoveRefusal::TooManyRuns => 12,
            MoveRefusal::NoMemory => 12,
        }
    }
}

/// Why a call about pages of 2 MiB and their pools is refused, or one about a first touch of a page
/// of either size: the first of these that applies. Nothing has changed, but for free surplus
/// pages, which end where a mapping is refused that had reserved some.
#[derive(Clone, Copy, Debug, PartialEq, Eq)]
pub enum HugeRefusal {
    /// The machine lacks the node.
    NoSuchNode,
    /// The machine has no node by this number, on a CPU of which the task should run.
    BadCpu,
    /// Linux subtracts more pages than there are, and takes all the node's memory.
    Unsure,
    /// There are too few free pages for the mapping, or too few on its nodes.
    NoHugePages,
    /// The page isn't mapped.
    Unmapped,
    /// No node has room for the page.
    Exhausted,
    /// No node gives a page of 2 MiB, and the task gets a signal.
    Killed,
    /// A page of the span has 2 MiB.
    NotSupported,
    /// There would be more than 1,048,576 runs of placed pages.
    TooManyRuns,
    /// Out of memory for the runs that the call makes.
    NoMemory,
}

impl HugeRefusal {
    /// The error number that Linux has for the cause (errno(3)), 0 if it has none.
    pub fn errno(self) -> u32
        ensures { result ≡ huge_errno_of self }
    {
        match self {
            HugeRefusal::NoSuchNode => 2,
            HugeRefusal::BadCpu => 22,
            HugeRefusal::Unsure => 0,
            HugeRefusal::NoHugePages => 12,
            HugeRefusal::Unmapped => 14,
            HugeRefusal::Exhausted => 0,
            HugeRefusal::Killed => 0,
            HugeRefusal::NotSupported => 95,
            HugeRefusal::TooManyRuns => 12,
            HugeRefusal::NoMemory => 12,
        }
    }
}
