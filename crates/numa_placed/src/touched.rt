//! First touches of the pages of a span, and moves of those that lie astray.
ghost use Rattle.std.specs.Prelude.{◌≡◌, ◌+◌, ◌-◌, ◌<◌, ◌≤◌, ◌^◌, ℕ, IfOk, OnOk, true, IfErr};
ghost use Rattle.std.specs.Prelude.{OnErr};
ghost use Rattle.numa_ranges.specs.Maps.{IsSpan};
ghost use Rattle.numa_placed.specs.Binds.{first_with_room, is_kept, is_sent, nodes_in, room_sent};
ghost use Rattle.numa_placed.specs.Binds.{IsBound, asked_by, sent_spot, wants_of, bound_spots};
ghost use Rattle.numa_placed.specs.Shifts.{AreRooms};
ghost use Rattle.numa_placed.specs.Spots.{changed_spots, pages_if};
ghost use Rattle.numa_placed.specs.Standing.{Sends};
ghost use Rattle.numa_placed.specs.Turns.{AreKept, slot_at, spots_of};
ghost use Rattle.numa_placed.specs.Walks.{IsWalked};
ghost use Rattle.numa_placed.specs.declared.spot.Spot.TheVariants.{Nowhere};
ghost use Rattle.numa_placed.specs.Refusals.{IsLack};
ghost use Rattle.numa_placed.specs.Stored.{IsStored};

use crate::bind::{FaultingTask, Walk, count_sent, node_with_room};
use crate::bound::Bound;
use crate::change::{Change, SpanChange};
use crate::edit::{let_go_places, put_places};
use crate::in_turn::send_turns;
use crate::once::{once_in, send_once};
use crate::places::{Places, change_places, spot_of};
use crate::rooms::Rooms;
use crate::spot::Spot;
use crate::stretch::{stretch_end, turn_end};
use crate::tidy::lean_copy;
use crate::turn::Slot;
use crate::wants::Wants;
use numa_machine::NoMemory;
use numa_requests::PlacedRefusal;
use numa_space::Space;

/// Sends a page to the first node of its list that has room.
fn send_page(
    places: &mut Places,
    space: &Space,
    page: u64,
    spot: Spot,
    touch: FaultingTask,
    walk: &mut Walk,
) -> Result<(), NoMemory>
    requires span { IsSpan page 1 }
    requires kept { AreKept places.old }
    requires few { walk.old.told.moved + walk.old.told.left + 1 < 2 ^ 64 }
    ensures kept { OnOk result (AreKept places.new) }
    ensures spots { (room : ℕ → ℕ) → AreRooms walk.old.rooms room
        → OnOk result ((other : ℕ) → spots_of places.new other ≡ changed_spots page 1
        (sent_spot (first_with_room room (nodes_in space.now touch.task touch.cpu page)))
        (spots_of places.old) other) }
    ensures room { (room : ℕ → ℕ) → AreRooms walk.old.rooms room
        → OnOk result (AreRooms walk.new.rooms (room_sent room
        (first_with_room room (nodes_in space.now touch.task touch.cpu page)) spot)) }
    ensures moved { (room : ℕ → ℕ) → AreRooms walk.old.rooms room
        → OnOk result (walk.new.told.moved ≡ walk.old.told.moved + pages_if (is_sent
        (first_with_room room (nodes_in space.now touch.task touch.cpu page)) spot) 1) }
    ensures left { (room : ℕ → ℕ) → AreRooms walk.old.rooms room
        → OnOk result (walk.new.told.left ≡ walk.old.told.left + pages_if (is_kept
        (first_with_room room (nodes_in space.now touch.task touch.cpu page)) spot) 1) }
    ensures few { OnOk result (walk.new.told.moved + walk.new.told.left
        ≤ walk.old.told.moved + walk.old.told.left + 1) }
    ensures limit { places.new.map.max_ranges ≡ places.old.map.max_ranges }
{
    let goal = node_with_room(space, page, touch.task, touch.cpu, &walk.rooms);
    count_sent(&mut walk.told, spot, goal);
    let Some(node) = goal else {
        return Ok(());
    };
    walk.rooms.pass_one(spot, node);
    let change = SpanChange {
        first: page,
        pages: 1,
        change: Change::State(node),
    };
    change_places(places, change)
}

/// Sends a page that lies here, if it is to go.
fn send_wanted(
    places: &mut Places,
    space: &Space,
    page: u64,
    spot: Spot,
    wants: &Wants<'_>,
    touch: FaultingTask,
    walk: &mut Walk,
) -> Result<(), NoMemory>
    requires span { IsSpan page 1 }
    requires kept { AreKept places.old }
    requires few { walk.old.told.moved + walk.old.told.left + 1 < 2 ^ 64 }
    ensures kept { OnOk result (AreKept places.new) }
    ensures sent { OnOk result (Sends (λ p. wants_of wants.now p spot)
        (nodes_in space.now touch.task touch.cpu) spot page (page + 1) (spots_of places.old)
        (spots_of places.new) walk.old walk.new) }
    ensures few { OnOk result (walk.new.told.moved + walk.new.told.left
        ≤ walk.old.told.moved + walk.old.told.left + 1) }
    ensures limit { places.new.map.max_ranges ≡ places.old.map.max_ranges }
{
    if !wants.takes(page, spot) {
        return Ok(());
    }
    let Ok(()) = send_page(places, space, page, spot, touch, walk) else {
        return Err(NoMemory);
    };
    Ok(())
}

/// Sends the pages from one on that are to go and lie nowhere, up to another, or as many as the
/// first node of their list that has room takes. They have one list. Returns the next page.
fn send_alike(
    places: &mut Places,
    space: &Space,
    page: u64,
    end: u64,
    touch: FaultingTask,
    walk: &mut Walk,
) -> Result<u64, NoMemory>
    requires rises { page < end }
    requires within { end ≤ 2 ^ 35 }
    requires alike { (p : ℕ) → page ≤ p → p < end
        → nodes_in space.now touch.task touch.cpu p ≡ nodes_in space.now touch.task touch.cpu page }
    requires kept { AreKept places.old }
    requires few { walk.old.told.moved + walk.old.told.left + (end - page) < 2 ^ 64 }
    ensures kept { OnOk result (AreKept places.new) }
    ensures next { IfOk result (λ next. page < next) }
    ensures end { IfOk result (λ next. next ≤ end) }
    ensures sent { IfOk result (λ next. Sends (λ p. true)
        (nodes_in space.now touch.task touch.cpu) Nowhere page next (spots_of places.old)
        (spots_of places.new) walk.old walk.new) }
    ensures few { IfOk result (λ next. walk.new.told.moved + walk.new.told.left
        ≤ walk.old.told.moved + walk.old.told.left + (next - page)) }
    ensures limit { places.new.map.max_ranges ≡ places.old.map.max_ranges }
{
    let Some(node) = node_with_room(space, page, touch.task, touch.cpu, &walk.rooms) else {
        walk.told.left += end - page;
        return Ok(end);
    };
    let pages = walk.rooms.fitting(node, end - page);
    walk.rooms.take(node, pages);
    walk.told.moved += pages;
    let change = SpanChange {
        first: page,
        pages,
        change: Change::State(node),
    };
    let Ok(()) = change_places(places, change) else {
        return Err(NoMemory);
    };
    Ok(page + pages)
}

/// Sends the pages from one to another that are to go, one by one. They all lie here.
fn send_pages(
    places: &mut Places,
    space: &Space,
    from: u64,
    to: u64,
    spot: Spot,
    wants: &Wants<'_>,
    touch: FaultingTask,
    walk: &mut Walk,
) -> Result<(), NoMemory>
    requires rises { from < to }
    requires within { to ≤ 2 ^ 35 }
    requires kept { AreKept places.old }
    requires few { walk.old.told.moved + walk.old.told.left + (to - from) < 2 ^ 64 }
    ensures kept { OnOk result (AreKept places.new) }
    ensures sent { OnOk result (Sends (λ page. wants_of wants.now page spot)
        (nodes_in space.now touch.task touch.cpu) spot from to (spots_of places.old)
        (spots_of places.new) walk.old walk.new) }
    ensures few { OnOk result (walk.new.told.moved + walk.new.told.left
        ≤ walk.old.told.moved + walk.old.told.left + (to - from)) }
    ensures limit { places.new.map.max_ranges ≡ places.old.map.max_ranges }
{
    let mut page = from;
    while page < to {
        let Ok(()) = send_wanted(places, space, page, spot, wants, touch, walk) else {
            return Err(NoMemory);
        };
        page += 1;
    }
    Ok(())
}

/// What is kept of a page, and the end of pages from it on, at most `to`, of which the same is.
pub(crate) fn same_until(places: &Places, page: u64, to: u64) -> (Slot, u64)
    requires rises { page < to }
    requires within { to ≤ 2 ^ 35 }
    requires kept { AreKept places.now }
    ensures rises { page < result.1 }
    ensures within { result.1 ≤ to }
    ensures slots { (p : ℕ) → page ≤ p → p < result.1
        → slot_at places.now.map.runs p ≡ result.0 }
{
    for run in places.map.iter_from(page) {
        if run.first <= page && page - run.first < run.pages {
            return (run.value, to.min(run.first.saturating_add(run.pages)));
        }
        if run.first > page {
            return (slot_of(places, page), page + 1);
        }
    }
    (slot_of(places, page), page + 1)
}

/// What is kept of a page.
fn slot_of(places: &Places, page: u64) -> Slot
    ensures { result ≡ slot_at places.now.map.runs page }
{
    match places.map.at(page) {
        Some((_, slot)) => slot,
        None => Slot::Lies(Spot::Nowhere),
    }
}

/// Sends some pages from one on that are to go, and all lie here up to another: those that have one
/// list, or the first alone. Where one policy gives them in turn, as many as find room, or else
/// those of one period. Returns the page after them.
fn touch_alike(
    places: &mut Places,
    space: &Space,
    page: u64,
    to: u64,
    spot: Spot,
    wants: &Wants<'_>,
    touch: FaultingTask,
    walk: &mut Walk,
) -> Result<u64, NoMemory>
    requires rises { page < to }
    requires within { to ≤ 2 ^ 35 }
    requires kept { AreKept places.old }
    requires few { walk.old.told.moved + walk.old.told.left + (to - page) < 2 ^ 64 }
    ensures kept { OnOk result (AreKept places.new) }
    ensures next { IfOk result (λ next. page < next) }
    ensures end { IfOk result (λ next. next ≤ to) }
    ensures sent { IfOk result (λ next. Sends (λ p. wants_of wants.now p spot)
        (nodes_in space.now touch.task touch.cpu) spot page next (spots_of places.old)
        (spots_of places.new) walk.old walk.new) }
    ensures few { IfOk result (λ next. walk.new.told.moved + walk.new.told.left
        ≤ walk.old.told.moved + walk.old.told.left + (next - page)) }
    ensures limit { places.new.map.max_ranges ≡ places.old.map.max_ranges }
{
    let Some((end, count)) = turn_end(space, page, to, spot, wants, touch.task) else {
        let end = stretch_end(space, page, to, spot, wants, touch.task);
        if end == page + 1 {
            let Ok(()) = send_wanted(places, space, page, spot, wants, touch, walk) else {
                return Err(NoMemory);
            };
            return Ok(end);
        }
        let Ok(next) = send_alike(places, space, page, end, touch, walk) else {
            return Err(NoMemory);
        };
        return Ok(next);
    };
    let Ok(next) = send_turns(places, space, page, end, count, touch, walk) else {
        return Err(NoMemory);
    };
    if next > page {
        return Ok(next);
    }
    let period = page + count;
    let Ok(()) = send_pages(places, space, page, period, spot, wants, touch, walk) else {
        return Err(NoMemory);
    };
    Ok(period)
}

/// Sends some pages of a span from one on, up to its end. Returns the page after them.
fn touch_some(
    places: &mut Places,
    space: &Space,
    page: u64,
    to: u64,
    wants: &Wants<'_>,
    touch: FaultingTask,
    walk: &mut Walk,
) -> Result<u64, NoMemory>
    requires rises { page < to }
    requires within { to ≤ 2 ^ 35 }
    requires kept { AreKept places.old }
    requires few { walk.old.told.moved + walk.old.told.left ≤ page }
    ensures kept { OnOk result (AreKept places.new) }
    ensures next { IfOk result (λ next. page < next) }
    ensures end { IfOk result (λ next. next ≤ to) }
    ensures walked { (first : ℕ) (old : ℕ → Spot) (room : ℕ → ℕ) → first ≤ page → IsWalked
        (asked_by space.now wants.now first (to - first) touch.task touch.cpu) old room page
        (spots_of places.old) walk.old → IfOk result (λ next. IsWalked
        (asked_by space.now wants.now first (to - first) touch.task touch.cpu) old room next
        (spots_of places.new) walk.new) }
    ensures few { IfOk result (λ next. walk.new.told.moved + walk.new.told.left ≤ next) }
    ensures limit { places.new.map.max_ranges ≡ places.old.map.max_ranges }
{
    let (slot, end) = same_until(places, page, to);
    match slot {
        Slot::Lies(spot) => {
            if !wants.may_take(spot) {
                return Ok(end);
            }
            touch_alike(places, space, page, end, spot, wants, touch, walk)
        }
        Slot::InTurn(turn) => {
            let next = wants.first_in_turn(&places.nodes, turn, page, end);
            if next > page {
                return Ok(next);
            }
            let spot = spot_of(places, page);
            touch_alike(places, space, page, page + 1, spot, wants, touch, walk)
        }
    }
}

/// Sends the pages of a span that are to go, each to the first node of its list that has room.
pub(crate) fn touch_pages(
    places: &mut Places,
    space: &Space,
    first: u64,
    to: u64,
    wants: &Wants<'_>,
    touch: FaultingTask,
    walk: &mut Walk,
) -> Result<(), NoMemory>
    requires rises { first ≤ to }
    requires within { to ≤ 2 ^ 35 }
    requires kept { AreKept places.old }
    requires moved { walk.old.told.moved ≡ 0 }
    requires left { walk.old.told.left ≡ 0 }
    ensures kept { OnOk result (AreKept places.new) }
    ensures bound { (room : ℕ → ℕ) → AreRooms walk.old.rooms room → OnOk result (IsBound
        (asked_by space.now wants.now first (to - first) touch.task touch.cpu)
        (spots_of places.old) room (spots_of places.new) walk.new.rooms walk.new.told) }
    ensures limit { OnOk result (places.new.map.max_ranges ≡ places.old.map.max_ranges) }
{
    let mut page = first;
    while page < to {
        let Ok(next) = touch_some(places, space, page, to, wants, touch, walk) else {
            return Err(NoMemory);
        };
        page = next;
    }
    Ok(())
}

/// Sends the pages of a span that are to go, each to the first node of its list that has room.
/// If that is one edit, it is done where they lie, and else on a copy, so that nothing has changed
/// if memory runs out.
pub(crate) fn touch_span(
    places: &mut Places,
    space: &Space,
    first: u64,
    pages: u64,
    wants: &Wants<'_>,
    touch: FaultingTask,
    rooms: &mut Rooms,
) -> Result<Bound, PlacedRefusal>
    requires within { first + pages ≤ 2 ^ 35 }
    requires stored { IsStored places.old }
    ensures stored { IsStored places.new }
    ensures bound { (room : ℕ → ℕ) → AreRooms rooms.old room → IfOk result (IsBound
        (asked_by space.now wants.now first pages touch.task touch.cpu) (spots_of places.old) room
        (spots_of places.new) rooms.new) }
    ensures lack { (room : ℕ → ℕ) → AreRooms rooms.old room → IfErr result (IsLack (bound_spots
        (asked_by space.now wants.now first pages touch.task touch.cpu) (spots_of places.old)
        room)) }
    ensures unchanged { OnErr result (places.new ≡ places.old) }
    ensures kept_rooms { OnErr result (rooms.new ≡ rooms.old) }
{
    let end = first + pages;
    if let Some(once) = once_in(places, space, first, end, wants, touch, rooms) {
        return send_once(places, once, rooms);
    }
    let Ok(mut next) = lean_copy(places) else {
        return Err(PlacedRefusal::NoMemory);
    };
    let told = Bound { moved: 0, left: 0 };
    let mut walk = Walk {
        rooms: *rooms,
        told,
    };
    let Ok(()) = touch_pages(&mut next, space, first, end, wants, touch, &mut walk) else {
        let_go_places(next);
        return Err(PlacedRefusal::NoMemory);
    };
    match put_places(places, next) {
        Ok(()) => {
            *rooms = walk.rooms;
            Ok(walk.told)
        }
        Err(lack) => Err(lack),
    }
}
