//! Why a call on objects is refused.

/// Why a call was refused: the first of these that applies. Nothing has changed.
#[derive(Clone, Copy, Debug, PartialEq, Eq)]
pub enum ObjectFault {
    /// There is an object of this name.
    ObjectExists,
    /// The number of an inode is 2^35 or more.
    BadInode,
    /// There are 1,024 objects.
    TooManyObjects,
    /// The objects would have more than 65,536 ranges of places with a policy.
    TooManyRanges,
    /// Out of memory for the change.
    NoMemory,
}
