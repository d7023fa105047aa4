//! Why a question about a page is refused.

/// Why a question about a page has no answer: the first of these that applies.
#[derive(Clone, Copy, Debug, PartialEq, Eq)]
pub enum PlaceRefusal {
    /// The machine lacks the faulting node.
    BadCpu,
    /// The page isn't mapped.
    Unmapped,
}
