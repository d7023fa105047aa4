//! Pages that go together.
ghost use Rattle.std.specs.Prelude.{◌≡◌, ◌≢◌, ◌+◌, ◌-◌, ◌<◌, ◌≤◌, ◌^◌, ℕ, IfSome, None, Some};
ghost use Rattle.std.specs.Prelude.{true};
ghost use Rattle.numa_maps.specs.Residents.{placed_at};
ghost use Rattle.numa_ranges.specs.Runs.{end_of, in_pages, page_at};
ghost use Rattle.numa_placed.specs.Binds.{nodes_in, wants_of};
ghost use Rattle.numa_placed.specs.Periods.{Repeats};
ghost use Rattle.numa_placed.specs.Standing.{takes_turns, turns};
ghost use Rattle.numa_placed.specs.declared.spot.Spot.TheVariants.{Nowhere};

use crate::period::period_in;
use crate::spans::ranges_up_to;
use crate::spot::Spot;
use crate::wants::Wants;
use numa_maps::Resident;
use numa_mode::{Mode, Record};
use numa_ranges::Run;
use numa_space::{RangeRecord, Space};

/// The most nodes of a cycle: 256 with a weight of 255 each, or 127 pages of 2 MiB, each of whose
/// parts has one.
const MOST_TURNS: u64 = 65_280;

/// Whether a mode takes its nodes in turn, page by page.
fn takes_turns(mode: Mode) -> bool
    ensures { result ≡ takes_turns mode }
{
    match mode {
        Mode::Interleave => true,
        Mode::WeightedInterleave => true,
        Mode::Default => false,
        Mode::Preferred => false,
        Mode::Bind => false,
        Mode::Local => false,
        Mode::PreferredMany => false,
    }
}

/// Whether the lists of a policy's pages differ.
fn turns(policy: Option<Record>) -> bool
    ensures { result ≡ turns policy }
{
    match policy {
        None => false,
        Some(policy) => takes_turns(policy.spec().mode()),
    }
}

/// The range that has a page, if it is found.
pub(crate) fn range_of(space: &Space, page: u64) -> Option<Run<RangeRecord>>
    ensures low { IfSome result (λ range. range.first ≤ page) }
    ensures high { IfSome result (λ range. page < end_of range) }
    ensures end { IfSome result (λ range. end_of range ≤ 2 ^ 35) }
    ensures last { IfSome result (λ range. range.index + range.pages ≤ 2 ^ 48) }
    ensures pages { IfSome result (λ range. (p : ℕ) → range.first ≤ p → p < end_of range
        → page_at space.now.ranges p ≡ Some (range.index + (p - range.first), range.value)) }
{
    let place = ranges_up_to(space, page).saturating_sub(1);
    let Some(range) = space.range_at(place) else {
        return None;
    };
    if range.first > page {
        return None;
    }
    if page - range.first >= range.pages {
        return None;
    }
    Some(range)
}

/// Whether none of the `pages` pages from `first` on keeps a frame. They are counted as those of a
/// range like this one.
pub(crate) fn keeps_none(
    resident: &Resident,
    range: &Run<RangeRecord>,
    first: u64,
    pages: u64,
) -> bool
    requires { first + pages ≤ 2 ^ 35 }
    ensures { result ≡ true → (page : ℕ) → in_pages first pages page ≡ true
        → placed_at resident.now page ≡ None }
{
    let value = range.value;
    let part = Run {
        first,
        pages,
        index: 0,
        value,
    };
    resident.count_in(&part) == 0
}

/// The first of the pages from `first` up to `end` that keeps a frame; else `end`.
fn frame_from(resident: &Resident, range: &Run<RangeRecord>, first: u64, end: u64) -> u64
    requires rises { first ≤ end }
    requires within { end ≤ 2 ^ 35 }
    ensures { result ≤ end }
{
    let value = range.value;
    let part = Run {
        first,
        pages: end - first,
        index: 0,
        value,
    };
    match resident.first_in(&part) {
        Some(page) => end.min(page),
        None => end,
    }
}

/// The end of the pages from one on, at most `to`, that have one list, lie nowhere and are all to
/// go. If none is found, it is the end of the page.
pub(crate) fn stretch_end(
    space: &Space,
    page: u64,
    to: u64,
    spot: Spot,
    wants: &Wants<'_>,
    task: u32,
) -> u64
    requires rises { page < to }
    requires within { to ≤ 2 ^ 35 }
    ensures rises { page < result }
    ensures within { result ≤ to }
    ensures alike { (cpu p : ℕ) → page ≤ p → p < result
        → nodes_in space.now task cpu p ≡ nodes_in space.now task cpu page }
    ensures nowhere { result ≢ page + 1 → spot ≡ Nowhere }
    ensures wanted { result ≢ page + 1 → (p : ℕ) → page ≤ p → p < result
        → wants_of wants.now p spot ≡ true }
{
    let Some(resident) = wants.absent(spot) else {
        return page + 1;
    };
    let Some(range) = range_of(space, page) else {
        return page + 1;
    };
    if turns(space.policy_at(task, page)) {
        return page + 1;
    }
    let end = frame_from(resident, &range, page, to.min(range.first + range.pages));
    if end <= page + 1 || !keeps_none(resident, &range, page, end - page) {
        return page + 1;
    }
    end
}

/// The end of the pages from one on, at most `to`, that lie nowhere and are all to go, and whose
/// lists differ, and after how many pages they repeat. `None` if no two such periods are found.
pub(crate) fn turn_end(
    space: &Space,
    page: u64,
    to: u64,
    spot: Spot,
    wants: &Wants<'_>,
    task: u32,
) -> Option<(u64, u64)>
    requires rises { page < to }
    requires within { to ≤ 2 ^ 35 }
    ensures some { IfSome result (λ at. 0 < at.1) }
    ensures small { IfSome result (λ at. at.1 < 2 ^ 32) }
    ensures long { IfSome result (λ at. page + at.1 ≤ at.0) }
    ensures within { IfSome result (λ at. at.0 ≤ to) }
    ensures repeats { IfSome result (λ at. (cpu : ℕ)
        → Repeats (nodes_in space.now task cpu) page (at.0 - page) at.1) }
    ensures nowhere { IfSome result (λ at. spot ≡ Nowhere) }
    ensures wanted { IfSome result (λ at. (p : ℕ) → page ≤ p → p < at.0
        → wants_of wants.now p spot ≡ true) }
{
    let Some(resident) = wants.absent(spot) else {
        return None;
    };
    let Some(range) = range_of(space, page) else {
        return None;
    };
    let policy = space.policy_at(task, page);
    if !turns(policy) {
        return None;
    }
    let end = frame_from(resident, &range, page, to.min(range.first + range.pages));
    if end < page {
        return None;
    }
    let index = range.index + (page - range.first);
    let count = period_in(space, &policy, index, end - page);
    if count == 0 || count > MOST_TURNS || (end - page) / 2 < count {
        return None;
    }
    if !keeps_none(resident, &range, page, end - page) {
        return None;
    }
    Some((end, count))
}
