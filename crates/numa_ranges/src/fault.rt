//! Why a call on a range map is refused.

/// Why a call was refused. The map hasn't changed.
#[derive(Clone, Copy, Debug, PartialEq, Eq)]
pub enum RangeError {
    /// A page of the span that was to get another value isn't mapped.
    Hole,
    /// A page of the span that was to be mapped is mapped already.
    Overlap,
    /// There would be more ranges than the map may have.
    TooManyRanges,
    /// Out of memory for the ranges that the call makes.
    NoMemory,
}
