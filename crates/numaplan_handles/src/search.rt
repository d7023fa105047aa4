//! Finding a range by an address, in one search.
ghost use Rattle.std.specs.Prelude.{◌≡◌, ◌<◌, ◌≤◌, ◌+◌, Option, length, get_or, true, false};
ghost use Rattle.numa_mode.specs.Policy.{PolicyRecord};
ghost use Rattle.numa_ranges.specs.Runs.{AreApart, end_of};
ghost use Rattle.numa_ranges.specs.declared.run.Run.{Run};
ghost use Rattle.numaplan_handles.specs.Asked.{IsPlaceOf};

use numa_ranges::Run;
use numa_space::{RangeRecord, Space};

/// The range at a place; there is one.
fn range_there(space: &Space, place: usize) -> Run<RangeRecord>
    requires place { place < length space.now.ranges }
    ensures there { (d : Run (Option PolicyRecord)) → get_or space.now.ranges place d ≡ result }
    ensures rising { AreApart 0 space.now.ranges }
{
    let Some(range) = space.range_at(place) else {
        unreachable!()
    };
    range
}

/// Whether a range ends at or before this page.
fn is_before(range: &Run<RangeRecord>, page: u64) -> bool
    ensures before { result ≡ true → end_of range.now ≤ page }
    ensures reaches { result ≡ false → page < end_of range.now }
{
    range.first <= page && range.pages <= page - range.first
}

/// The place of the first range that ends after a page: the one that has it, if it is mapped, else
/// the next; the number of ranges if there is none. The search is binary.
pub(crate) fn place_of(space: &Space, page: u64) -> usize
    ensures { IsPlaceOf space.now.ranges page result }
{
    let mut low = 0;
    let mut high = space.ranges();
    while low < high {
        let middle = low + (high - low) / 2;
        let range = range_there(space, middle);
        if is_before(&range, page) {
            low = middle + 1;
        } else {
            high = middle;
        }
    }
    low
}
