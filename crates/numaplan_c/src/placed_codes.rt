//! The result codes of pages that are there.
ghost use Rattle.std.specs.Prelude.{◌≡◌};
ghost use Rattle.numaplan_c.specs.Placed.{change_code, done_code, huge_code, move_code};
ghost use Rattle.numaplan_c.specs.Placed.{placed_code};

use crate::codes::{Code, code_by_name, refusal_code};
use crate::keeping::or_return;
use numa_pages::ChangeRefusal;
use numa_requests::{HugeRefusal, MoveRefusal, PlacedRefusal, Refusal};

/// The code of what stands against a change of pages.
pub(crate) fn placed_code(cause: PlacedRefusal) -> u32
    ensures { result ≡ placed_code cause }
{
    code_by_name!(cause, PlacedRefusal { Occupied, Astray, TooManyRuns, NoMemory },
        PlacedRefusal::Unaligned => refusal_code(Refusal::Unaligned),
        PlacedRefusal::OutOfSpace => refusal_code(Refusal::OutOfSpace),
        PlacedRefusal::NoSuchNode => refusal_code(Refusal::NoSuchNode),
        PlacedRefusal::NodesNotAllowed => refusal_code(Refusal::NodesNotAllowed),
        PlacedRefusal::BadCpu => Code::NoSuchCpu as u32,
        PlacedRefusal::Unmapped => Code::SpanUnmapped as u32,
        PlacedRefusal::NoRoom => Code::NodeFull as u32)
}

/// The code of the result of a change of pages.
pub(crate) fn set_code<A: Drop>(answer: Result<A, PlacedRefusal>) -> u32
    ensures { result ≡ done_code placed_code answer }
{
    let _ = or_return!(answer, placed_code);
    0
}

/// The code of what stands against moving a page.
pub(crate) fn move_code(cause: MoveRefusal) -> u32
    ensures { result ≡ move_code cause }
{
    code_by_name!(cause, MoveRefusal { NotPlaced, TooManyRuns, NoMemory },
        MoveRefusal::NoSuchNode => Code::NoSuchTarget as u32,
        MoveRefusal::NodesNotAllowed => Code::TargetNotAllowed as u32,
        MoveRefusal::Unmapped => Code::PageUnmapped as u32,
        MoveRefusal::NoRoom => Code::NodeFull as u32)
}

/// The code of the result of moving a page.
pub(crate) fn moved_code(answer: Result<(), MoveRefusal>) -> u32
    ensures { result ≡ done_code move_code answer }
{
    let _ = or_return!(answer, move_code);
    0
}

/// The code of what stands against a change of pages of 2 MiB or their pools.
pub(crate) fn huge_code(cause: HugeRefusal) -> u32
    ensures { result ≡ huge_code cause }
{
    code_by_name!(cause, HugeRefusal { Unsure, NoHugePages, TooManyRuns, NoMemory },
        HugeRefusal::NoSuchNode => Code::NoSuchPool as u32,
        HugeRefusal::BadCpu => Code::NoSuchCpu as u32,
        HugeRefusal::Unmapped => Code::PageUnmapped as u32,
        HugeRefusal::Exhausted => Code::NodesFull as u32,
        HugeRefusal::Killed => Code::NoPageFree as u32,
        HugeRefusal::NotSupported => refusal_code(Refusal::NotSupported))
}

/// The code of the result of a change of pages of 2 MiB or their pools.
pub(crate) fn held_code<A: Drop>(answer: Result<A, HugeRefusal>) -> u32
    ensures { result ≡ done_code huge_code answer }
{
    let _ = or_return!(answer, huge_code);
    0
}

/// The code of what stands against a change of a core and its pages.
pub(crate) fn change_code(cause: ChangeRefusal) -> u32
    ensures { result ≡ change_code cause }
{
    code_by_name!(cause, ChangeRefusal { NoMemory },
        ChangeRefusal::OfSpace(refusal) => refusal_code(refusal),
        ChangeRefusal::OfPages(cause) => placed_code(cause),
        ChangeRefusal::OfHuge(cause) => huge_code(cause))
}

/// The code of the result of a change of a core and its pages.
pub(crate) fn changed_code<A: Drop>(answer: Result<A, ChangeRefusal>) -> u32
    ensures { result ≡ done_code change_code answer }
{
    let _ = or_return!(answer, change_code);
    0
}

/// The same, for a result that is missing if the handle is closed.
macro_rules! changed {
    ($answer:expr) => {
        $crate::keeping::if_open!($answer, answer => $crate::placed_codes::changed_code(answer))
    };
}

pub(crate) use changed;
