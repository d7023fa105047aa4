//! Why a command is refused.
ghost use Rattle.std.specs.Prelude.{◌≡◌};
ghost use Rattle.numa_requests.specs.Errors.{errno_of};

/// Why a command was refused: the first of these that applies.
#[derive(Clone, Copy, Debug, PartialEq, Eq)]
pub enum Refusal {
    /// The limit of accepted commands is reached.
    CommandsSpent,
    /// The start isn't a multiple of 4,096; of a map of pages of 2 MiB, the start or the offset
    /// isn't one of 2 MiB. Or an unmap, mbind or home would change a part of such a page alone.
    Unaligned,
    /// The span ends above address 2^47; by the kernel's rules a map alone, above 2^47 - 4096.
    OutOfSpace,
    /// By the kernel's rules, an unmap that ends above address 2^47 - 4096, or an mbind or a home
    /// that ends above 2^64 - 1.
    BadSpan,
    /// A map of no bytes; by the kernel's rules an unmap too.
    EmptyLength,
    /// The offset of a map is 2^35 pages or more.
    BadOffset,
    /// A page of a map's span is already mapped.
    Overlap,
    /// A page that is to be bound isn't mapped.
    Hole,
    /// The machine lacks a node that is named.
    NoSuchNode,
    /// A weight above 255, or of 0 by the documents' rules.
    BadWeight,
    /// The policy would have no node when it is set, or by the documents' rules the new allowed
    /// nodes have no memory.
    NodesNotAllowed,
    /// By the kernel's rules, an empty set of new allowed nodes.
    NoNodes,
    /// A home for a page whose own policy is neither BIND nor PREFERRED_MANY.
    NotSupported,
    /// By the kernel's rules, a home for a span of which no page has an own policy.
    NoPolicy,
    /// The limit of tasks with a policy is reached.
    TooManyTasks,
    /// There would be more ranges than the limits allow.
    TooManyRanges,
    /// Out of memory for the change.
    NoMemory,
}

/// The name of the error number that Linux returns for a cause (errno(3)).
#[derive(Clone, Copy, Debug, PartialEq, Eq)]
pub enum Errno {
    EInval,
    ENoMem,
    EExist,
    EFault,
    ENoSpc,
    EOpNotSupp,
    ENoEnt,
}

impl Refusal {
    /// The error number of a refusal.
    pub fn errno(self) -> Errno
        ensures { result ≡ errno_of self }
    {
        match self {
            Refusal::CommandsSpent | Refusal::NoNodes => Errno::ENoSpc,
            Refusal::Unaligned
            | Refusal::BadSpan
            | Refusal::EmptyLength
            | Refusal::BadOffset
            | Refusal::NoSuchNode
            | Refusal::BadWeight
            | Refusal::NodesNotAllowed => Errno::EInval,
            Refusal::OutOfSpace
            | Refusal::TooManyTasks
            | Refusal::TooManyRanges
            | Refusal::NoMemory => Errno::ENoMem,
            Refusal::Overlap => Errno::EExist,
            Refusal::Hole => Errno::EFault,
            Refusal::NotSupported => Errno::EOpNotSupp,
            Refusal::NoPolicy => Errno::ENoEnt,
        }
    }
}
