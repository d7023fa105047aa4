//! Changes of where a page lies.
ghost use Rattle.std.specs.Prelude.{◌≡◌};
ghost use Rattle.numa_placed.specs.Spots.{changed_spot};

use crate::spot::Spot;

/// A change of where a page lies.
#[derive(Clone, Copy)]
pub(crate) enum Change {
    /// They lie on a node.
    State(u8),
    /// They lie nowhere.
    Forget,
}

/// What becomes of the pages of a span.
#[derive(Clone, Copy)]
pub(crate) struct SpanChange {
    pub first: u64,
    pub pages: u64,
    pub change: Change,
}

/// A page after a change.
pub(crate) fn changed(change: Change, _spot: Spot) -> Spot
    ensures { result ≡ changed_spot change _spot }
{
    match change {
        Change::State(node) => Spot::Stated(node),
        Change::Forget => Spot::Nowhere,
    }
}
