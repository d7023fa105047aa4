//! Why a change of a core and its pages is refused.
ghost use Rattle.std.specs.Prelude.{◌≡◌};
ghost use Rattle.numa_pages.specs.Changes.{lack_told};
ghost use Rattle.numa_pages.specs.Sizes.{fault_told, state_told};

use numa_page_state::pooling::fault_cause;
use numa_requests::{HugeRefusal, PlacedRefusal, Refusal};

/// Why a change was refused. Each call says which cause comes first.
#[derive(Clone, Copy, Debug, PartialEq, Eq)]
pub enum ChangeRefusal {
    /// The core refuses the command, for this cause.
    OfSpace(Refusal),
    /// The pages can't be changed, for this cause.
    OfPages(PlacedRefusal),
    /// Those of 2 MiB can't, or their pools have too few, for this cause.
    OfHuge(HugeRefusal),
    /// Out of memory.
    NoMemory,
}

/// Why a policy isn't set whose pages can't go: too many runs are the pages' cause, and lack of
/// memory isn't.
pub(crate) fn lack_told(cause: PlacedRefusal) -> ChangeRefusal
    ensures { result ≡ lack_told cause }
{
    match cause {
        PlacedRefusal::NoMemory => ChangeRefusal::NoMemory,
        _ => ChangeRefusal::OfPages(cause),
    }
}

/// What comes of a statement where pages lie.
pub(crate) fn state_told(done: Result<(), PlacedRefusal>) -> Result<(), ChangeRefusal>
    ensures { result ≡ state_told done }
{
    match done {
        Ok(()) => Ok(()),
        Err(why) => Err(ChangeRefusal::OfPages(why)),
    }
}

/// The node where a page lies that was touched; where no node gives it, this is told.
pub(crate) fn fault_told(
    none: HugeRefusal,
    done: Result<Option<u8>, PlacedRefusal>,
) -> Result<u8, HugeRefusal>
    ensures { result ≡ fault_told none done }
{
    match done {
        Ok(Some(node)) => Ok(node),
        Ok(None) => Err(none),
        Err(why) => Err(fault_cause(why)),
    }
}
