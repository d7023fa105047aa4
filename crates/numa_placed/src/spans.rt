//! Stating where the mapped pages of a span lie.
ghost use Rattle.std.specs.Prelude.{◌≡◌, ◌+◌, ◌<◌, ◌≤◌, ◌^◌, ◌&&◌, ℕ, true, is_some, None, Some};
ghost use Rattle.std.specs.Prelude.{IfOk, OnErr, OnOk, MatchResult, if◌then◌else◌};
ghost use Rattle.numa_maps.specs.Residents.{placed_at};
ghost use Rattle.numa_ranges.specs.Maps.{IsSpan};
ghost use Rattle.numa_ranges.specs.Runs.{end_of, in_pages, page_at};
ghost use Rattle.numa_space.specs.History.{page_of, page_count};
ghost use Rattle.numa_placed.specs.Astray.{strict_span_cause};
ghost use Rattle.numa_placed.specs.Binds.{span_below};
ghost use Rattle.numa_placed.specs.Refusals.{span_cause, state_cause};
ghost use Rattle.numa_placed.specs.Spots.{changed_spots, forgotten_spot, passed_over};
ghost use Rattle.numa_placed.specs.Spots.{stated_beside, stated_spot, stated_spots};
ghost use Rattle.numa_placed.specs.Shifts.{AreRooms};
ghost use Rattle.numa_placed.specs.Stored.{IsStored, IsStoredEdit, IsStoredWithin};
ghost use Rattle.numa_placed.specs.Turns.{AreKept, spots_of};

use crate::change::{Change, SpanChange};
use crate::edit::{copy_places, edit_places, let_go_places, put_places};
use crate::fitting::{put_places_within, state_places_within};
use crate::judge::lacks_node;
use crate::places::{Places, change_places};
use crate::rooms::Rooms;
use crate::stretch::{keeps_none, range_of};
use numa_machine::{NoMemory, Rules};
use numa_maps::Resident;
use numa_ranges::Run;
use numa_requests::{PAGE_BYTES, PlacedRefusal};
use numa_space::{RangeRecord, Space};

/// Pages of a span that are stated to lie on a node.
#[derive(Clone, Copy)]
pub(crate) struct StatedSpan {
    pub first: u64,
    pub pages: u64,
    pub node: u8,
}

/// The end of the addresses of a space.
const SPACE_END: u64 = 1 << 47;

/// The page of a start, and the number of pages of a length.
fn pages_of(start: u64, length: u64) -> (u64, u64)
    ensures first { result.0 ≡ page_of start }
    ensures count { result.1 ≡ page_count length }
{
    let pages = length / PAGE_BYTES + u64::from(length % PAGE_BYTES != 0);
    (start / PAGE_BYTES, pages)
}

/// The first page of a span and the number of its pages.
pub(crate) fn span_of(start: u64, length: u64) -> Result<(u64, u64), PlacedRefusal>
    ensures span { MatchResult result (λ span. (span_cause start length ≡ None)
        × (span.0 ≡ page_of start) × (span.1 ≡ page_count length))
        (λ refusal. span_cause start length ≡ Some refusal) }
    ensures within { MatchResult result (λ span. span.0 + span.1 ≤ 2 ^ 35) (λ refusal. Unit {0}) }
{
    if start % PAGE_BYTES != 0 {
        return Err(PlacedRefusal::Unaligned);
    }
    let (first, pages) = pages_of(start, length);
    if start > SPACE_END || pages > (1 << 35) - first {
        return Err(PlacedRefusal::OutOfSpace);
    }
    Ok((first, pages))
}

/// The part of a span below address 2^47, by its start and length: by the kernel's rules a span
/// whose policy is set may end above, where no page is mapped. `(0, 0)` where it has none.
pub fn span_below(start: u64, length: u64) -> (u64, u64)
    ensures start { result.0 ≡ (span_below start length).0 }
    ensures length { result.1 ≡ (span_below start length).1 }
{
    let (_, pages) = pages_of(start, length);
    if start <= SPACE_END && pages <= (SPACE_END - start) / PAGE_BYTES {
        return (start, length);
    }
    if start >= SPACE_END {
        return (0, 0);
    }
    (start, SPACE_END - start)
}

/// The first page of a span and the number of its pages, which for the kernel may end anywhere.
pub(crate) fn span_by(rules: Rules, start: u64, length: u64) -> Result<(u64, u64), PlacedRefusal>
    ensures span { MatchResult result (λ span. (strict_span_cause rules start length ≡ None)
        × (span.0 ≡ page_of start) × (span.1 ≡ page_count length))
        (λ refusal. strict_span_cause rules start length ≡ Some refusal) }
    ensures fits { IfOk result (λ span. span.0 + span.1 < 2 ^ 64) }
{
    match rules {
        Rules::Document => span_of(start, length),
        Rules::Linux => {
            if start % PAGE_BYTES != 0 {
                return Err(PlacedRefusal::Unaligned);
            }
            Ok(pages_of(start, length))
        }
    }
}

/// The pages of a span that are stated to lie on a node.
pub(crate) fn stated_span(
    space: &Space,
    start: u64,
    length: u64,
    node: u32,
) -> Result<StatedSpan, PlacedRefusal>
    ensures span { MatchResult result (λ said.
        (state_cause space.now.machine start length node ≡ None)
        × (said.first ≡ page_of start) × (said.pages ≡ page_count length) × (said.node ≡ node))
        (λ refusal. state_cause space.now.machine start length node ≡ Some refusal) }
    ensures within { IfOk result (λ said. said.first + said.pages ≤ 2 ^ 35) }
{
    let (first, pages) = span_of(start, length)?;
    if lacks_node(space.machine(), node) {
        return Err(PlacedRefusal::NoSuchNode);
    }
    let node = node as u8;
    Ok(StatedSpan { first, pages, node })
}

/// The number of ranges that begin at a page or before it, by a binary search over the 65,536 that
/// there can be. Only speed depends on it.
pub(crate) fn ranges_up_to(space: &Space, first: u64) -> usize {
    let mut low = 0usize;
    let mut high = space.ranges();
    for _ in 0..17 {
        if low >= high {
            return low;
        }
        let middle = low.saturating_add(high.saturating_sub(low) / 2);
        match space.range_at(middle) {
            Some(range) if range.first <= first => low = middle.saturating_add(1),
            _ => high = middle,
        }
    }
    low
}

/// Whether one range of the space has all pages of a span.
pub(crate) fn is_in_one(space: &Space, first: u64, pages: u64) -> bool
    requires span { IsSpan first pages }
    ensures { result ≡ true → (page : ℕ) → in_pages first pages page ≡ true
        → is_some (page_at space.now.ranges page) ≡ true }
{
    let place = ranges_up_to(space, first).saturating_sub(1);
    let Some(range) = space.range_at(place) else {
        return false;
    };
    if range.first > first {
        return false;
    }
    if first + pages - range.first > range.pages {
        return false;
    }
    true
}

/// States where the pages lie that a range and a span share.
fn state_range(
    places: &mut Places,
    range: &Run<RangeRecord>,
    said: StatedSpan,
) -> Result<(), NoMemory>
    requires span { IsSpan said.first said.pages }
    requires range { end_of range.now ≤ 2 ^ 35 }
    requires kept { AreKept places.old }
    ensures kept { OnOk result (AreKept places.new) }
    ensures spots { OnOk result ((page : ℕ) → spots_of places.new page
        ≡ (if in_pages said.first said.pages page && in_pages range.now.first range.now.pages page
        then stated_spot said.node (spots_of places.old page) else spots_of places.old page)) }
    ensures limit { places.new.map.max_ranges ≡ places.old.map.max_ranges }
{
    let from = said.first.max(range.first);
    let to = (said.first + said.pages).min(range.first + range.pages);
    if from >= to {
        return Ok(());
    }
    let change = SpanChange {
        first: from,
        pages: to - from,
        change: Change::State(said.node),
    };
    change_places(places, change)
}

/// States where the mapped pages of a span lie, range by range.
fn state_ranges(places: &mut Places, space: &Space, said: StatedSpan) -> Result<(), NoMemory>
    requires span { IsSpan said.first said.pages }
    requires kept { AreKept places.old }
    ensures kept { OnOk result (AreKept places.new) }
    ensures spots { OnOk result ((page : ℕ) → spots_of places.new page
        ≡ stated_spots (λ p. is_some (page_at space.now.ranges p)) said.first said.pages
        said.node (spots_of places.old) page) }
    ensures limit { places.new.map.max_ranges ≡ places.old.map.max_ranges }
{
    for range in space.range_iter() {
        let Ok(()) = state_range(places, &range, said) else {
            return Err(NoMemory);
        };
    }
    Ok(())
}

/// A copy in which it is stated where the mapped pages of a span lie.
fn stated_copy(places: &Places, space: &Space, said: StatedSpan) -> Result<Places, NoMemory>
    requires span { IsSpan said.first said.pages }
    requires kept { AreKept places.now }
    ensures kept { IfOk result (λ next. AreKept next) }
    ensures spots { IfOk result (λ next. (page : ℕ) → spots_of next page
        ≡ stated_spots (λ p. is_some (page_at space.now.ranges p)) said.first said.pages
        said.node (spots_of places.now) page) }
    ensures limit { IfOk result (λ next. next.map.max_ranges ≡ places.now.map.max_ranges) }
{
    let Ok(mut next) = copy_places(places) else {
        return Err(NoMemory);
    };
    let Ok(()) = state_ranges(&mut next, space, said) else {
        let_go_places(next);
        return Err(NoMemory);
    };
    Ok(next)
}

/// Forgets a page, if it is one of a span.
fn forget_page(places: &mut Places, page: u64, first: u64, pages: u64) -> Result<(), NoMemory>
    requires span { first + pages ≤ 2 ^ 35 }
    requires kept { AreKept places.old }
    ensures kept { OnOk result (AreKept places.new) }
    ensures spots { OnOk result ((other : ℕ) → spots_of places.new other
        ≡ (if in_pages first pages page then changed_spots page 1 forgotten_spot
        (spots_of places.old) other else spots_of places.old other)) }
    ensures limit { places.new.map.max_ranges ≡ places.old.map.max_ranges }
{
    if page < first || page - first >= pages {
        return Ok(());
    }
    let change = SpanChange {
        first: page,
        pages: 1,
        change: Change::Forget,
    };
    change_places(places, change)
}

/// Forgets the pages of a span that keep a frame.
fn pass_over(
    places: &mut Places,
    first: u64,
    pages: u64,
    resident: &Resident,
) -> Result<(), NoMemory>
    requires span { first + pages ≤ 2 ^ 35 }
    requires kept { AreKept places.old }
    ensures kept { OnOk result (AreKept places.new) }
    ensures spots { OnOk result ((page : ℕ) → spots_of places.new page
        ≡ passed_over resident.now first pages (spots_of places.old) page) }
    ensures limit { places.new.map.max_ranges ≡ places.old.map.max_ranges }
{
    for (page, _) in resident.iter() {
        let Ok(()) = forget_page(places, *page, first, pages) else {
            return Err(NoMemory);
        };
    }
    Ok(())
}

/// A copy in which it is stated where the mapped pages of a span lie, but of those that keep a
/// frame.
fn others_copy(
    places: &Places,
    space: &Space,
    said: StatedSpan,
    resident: &Resident,
) -> Result<Places, NoMemory>
    requires span { IsSpan said.first said.pages }
    requires kept { AreKept places.now }
    ensures kept { IfOk result (λ next. AreKept next) }
    ensures spots { IfOk result (λ next. (page : ℕ) → spots_of next page
        ≡ stated_beside (λ p. is_some (page_at space.now.ranges p)) resident.now said.first
        said.pages said.node (spots_of places.now) page) }
    ensures limit { IfOk result (λ next. next.map.max_ranges ≡ places.now.map.max_ranges) }
{
    let Ok(mut next) = stated_copy(places, space, said) else {
        return Err(NoMemory);
    };
    let Ok(()) = pass_over(&mut next, said.first, said.pages, resident) else {
        let_go_places(next);
        return Err(NoMemory);
    };
    Ok(next)
}

/// Whether one range of the space has all pages of a span, and none of them keeps a frame.
fn is_bare(space: &Space, said: StatedSpan, resident: &Resident) -> bool
    requires span { IsSpan said.first said.pages }
    ensures mapped { result ≡ true → (page : ℕ) → in_pages said.first said.pages page ≡ true
        → is_some (page_at space.now.ranges page) ≡ true }
    ensures none { result ≡ true → (page : ℕ) → in_pages said.first said.pages page ≡ true
        → placed_at resident.now page ≡ None }
{
    if !is_in_one(space, said.first, said.pages) {
        return false;
    }
    let Some(range) = range_of(space, said.first) else {
        return false;
    };
    keeps_none(resident, &range, said.first, said.pages)
}

/// States where the mapped pages of a span lie, but of those that keep a frame. If one range has
/// them all, and none keeps a frame, that is one edit; else it is done on a copy.
pub(crate) fn state_others(
    places: &mut Places,
    space: &Space,
    said: StatedSpan,
    resident: &Resident,
) -> Result<(), PlacedRefusal>
    requires span { IsSpan said.first said.pages }
    requires stored { IsStored places.old }
    ensures stored { IsStored places.new }
    ensures edit { IsStoredEdit (stated_beside (λ p. is_some (page_at space.now.ranges p))
        resident.now said.first said.pages said.node (spots_of places.old)) places.old result
        places.new }
{
    if is_bare(space, said, resident) {
        let change = SpanChange {
            first: said.first,
            pages: said.pages,
            change: Change::State(said.node),
        };
        return edit_places(places, change);
    }
    let Ok(next) = others_copy(places, space, said, resident) else {
        return Err(PlacedRefusal::NoMemory);
    };
    put_places(places, next)
}

/// States it, as far as the node has room for the pages that come to it.
pub(crate) fn state_others_within(
    places: &mut Places,
    space: &Space,
    said: StatedSpan,
    resident: &Resident,
    rooms: &mut Rooms,
) -> Result<(), PlacedRefusal>
    requires span { IsSpan said.first said.pages }
    requires stored { IsStored places.old }
    ensures stored { IsStored places.new }
    ensures edit { (room : ℕ → ℕ) → AreRooms rooms.old room → IsStoredWithin (spots_of places.old)
        (stated_beside (λ p. is_some (page_at space.now.ranges p)) resident.now said.first
        said.pages said.node (spots_of places.old)) said.node room result (spots_of places.new)
        rooms.new }
    ensures unchanged { OnErr result (places.new ≡ places.old) }
    ensures kept_rooms { OnErr result (rooms.new ≡ rooms.old) }
{
    if is_bare(space, said, resident) {
        return state_places_within(places, said.first, said.pages, said.node, rooms);
    }
    let Ok(next) = others_copy(places, space, said, resident) else {
        return Err(PlacedRefusal::NoMemory);
    };
    put_places_within(places, next, said.node, rooms)
}

/// States where the mapped pages of a span lie. If one range has them all, that is one edit; else
/// it is done on a copy, so that nothing has changed if memory runs out.
pub(crate) fn state_span(
    places: &mut Places,
    space: &Space,
    said: StatedSpan,
) -> Result<(), PlacedRefusal>
    requires span { IsSpan said.first said.pages }
    requires stored { IsStored places.old }
    ensures stored { IsStored places.new }
    ensures edit { IsStoredEdit (stated_spots (λ p. is_some (page_at space.now.ranges p))
        said.first said.pages said.node (spots_of places.old)) places.old result places.new }
{
    if is_in_one(space, said.first, said.pages) {
        let change = SpanChange {
            first: said.first,
            pages: said.pages,
            change: Change::State(said.node),
        };
        return edit_places(places, change);
    }
    let Ok(next) = stated_copy(places, space, said) else {
        return Err(PlacedRefusal::NoMemory);
    };
    put_places(places, next)
}
