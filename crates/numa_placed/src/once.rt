//! First touches that one edit does, so that they need no copy.
ghost use Rattle.std.specs.Prelude.{◌≡◌, ◌+◌, ◌-◌, ◌<◌, ◌≤◌, ◌^◌, ℕ, IfErr, IfOk, IfSome, OnErr};
ghost use Rattle.std.specs.Prelude.{false, true};
ghost use Rattle.numa_placed.specs.Binds.{Asked, IsBound, asked_by, bound_spots};
ghost use Rattle.numa_placed.specs.Binds.{first_with_room, nodes_in, wants_of};
ghost use Rattle.numa_placed.specs.Refusals.{IsLack};
ghost use Rattle.numa_placed.specs.Shifts.{AreRooms};
ghost use Rattle.numa_placed.specs.Stored.{IsStored};
ghost use Rattle.numa_placed.specs.Turns.{AreKept, spots_of};
ghost use Rattle.numa_placed.specs.Walks.{Fits, GoOnce};
ghost use Rattle.numa_placed.specs.declared.spot.Spot.TheVariants.{Nowhere};

use crate::bind::{FaultingTask, node_with_room};
use crate::bound::Bound;
use crate::change::{Change, SpanChange};
use crate::edit::edit_places;
use crate::places::Places;
use crate::rooms::Rooms;
use crate::spot::Spot;
use crate::stretch::stretch_end;
use crate::touched::same_until;
use crate::turn::Slot;
use crate::wants::Wants;
use numa_requests::PlacedRefusal;
use numa_space::Space;

/// Pages of a span that are to go, where they are the only ones, all lie nowhere and have one list:
/// `pages` of them, from `page` on. Without any, `page` is the end of the span.
#[derive(Clone, Copy)]
pub(crate) struct Once {
    pub(crate) page: u64,
    pub(crate) pages: u64,
    /// The node that takes them all; `None` if no node of their list has room.
    pub(crate) goal: Option<u8>,
}

/// The end of some pages from one on, at most `end`, that aren't to go: the page itself, if it may
/// be.
fn stay_until(places: &Places, wants: &Wants<'_>, page: u64, end: u64) -> u64
    requires rises { page < end }
    requires within { end ≤ 2 ^ 35 }
    requires kept { AreKept places.now }
    ensures low { page ≤ result }
    ensures high { result ≤ end }
    ensures stay { (p : ℕ) → page ≤ p → p < result
        → wants_of wants.now p (spots_of places.now p) ≡ false }
{
    let (slot, until) = same_until(places, page, end);
    match slot {
        Slot::Lies(spot) => {
            if !wants.may_take(spot) {
                return until;
            }
            if wants.takes(page, spot) {
                return page;
            }
            page + 1
        }
        Slot::InTurn(turn) => wants.first_in_turn(&places.nodes, turn, page, until),
    }
}

/// The first of the pages from one on up to another that may be to go; else that other.
fn first_to_go(places: &Places, wants: &Wants<'_>, page: u64, end: u64) -> u64
    requires rises { page ≤ end }
    requires within { end ≤ 2 ^ 35 }
    requires kept { AreKept places.now }
    ensures low { page ≤ result }
    ensures high { result ≤ end }
    ensures stay { (p : ℕ) → page ≤ p → p < result
        → wants_of wants.now p (spots_of places.now p) ≡ false }
{
    let mut next = page;
    while next < end {
        let until = stay_until(places, wants, next, end);
        if until <= next {
            return next;
        }
        next = until;
    }
    next
}

/// The end of the pages from one on, at most `end`, that are to go, lie nowhere and have one list.
/// `None` if the page isn't to go, or lies somewhere.
fn alike_until(
    places: &Places,
    space: &Space,
    wants: &Wants<'_>,
    page: u64,
    end: u64,
    task: u32,
) -> Option<u64>
    requires rises { page < end }
    requires within { end ≤ 2 ^ 35 }
    requires kept { AreKept places.now }
    ensures rises { IfSome result (λ to. page < to) }
    ensures within { IfSome result (λ to. to ≤ end) }
    ensures nowhere { IfSome result (λ to. (p : ℕ) → page ≤ p → p < to
        → spots_of places.now p ≡ Nowhere) }
    ensures wanted { IfSome result (λ to. (p : ℕ) → page ≤ p → p < to
        → wants_of wants.now p Nowhere ≡ true) }
    ensures alike { IfSome result (λ to. (cpu p : ℕ) → page ≤ p → p < to
        → nodes_in space.now task cpu p ≡ nodes_in space.now task cpu page) }
{
    let (slot, until) = same_until(places, page, end);
    let Slot::Lies(spot) = slot else {
        return None;
    };
    let Spot::Nowhere = spot else {
        return None;
    };
    if !wants.takes(page, Spot::Nowhere) {
        return None;
    }
    Some(stretch_end(space, page, until, Spot::Nowhere, wants, task))
}

/// Where the pages of a span from one on that are to go, which have one list, all go: to the node
/// `Some(Some(..))`, or nowhere, as none of the list has room. `None` if a node takes only some.
fn goal_of(
    space: &Space,
    page: u64,
    pages: u64,
    touch: FaultingTask,
    rooms: &Rooms,
) -> Option<Option<u8>>
    requires some { 0 < pages }
    ensures first { IfSome result (λ goal. (room : ℕ → ℕ) → AreRooms rooms.now room
        → first_with_room room (nodes_in space.now touch.task touch.cpu page) ≡ goal) }
    ensures fits { IfSome result (λ goal. IfSome goal (λ node. Fits rooms.now node pages)) }
{
    let goal = node_with_room(space, page, touch.task, touch.cpu, rooms);
    if let Some(node) = goal {
        if rooms.fitting(node, pages) < pages {
            return None;
        }
    }
    Some(goal)
}

/// The pages of a span that are to go, and where, if one edit does it.
pub(crate) fn once_in(
    places: &Places,
    space: &Space,
    first: u64,
    end: u64,
    wants: &Wants<'_>,
    touch: FaultingTask,
    rooms: &Rooms,
) -> Option<Once>
    requires rises { first ≤ end }
    requires within { end ≤ 2 ^ 35 }
    requires kept { AreKept places.now }
    ensures go { IfSome result (GoOnce
        (asked_by space.now wants.now first (end - first) touch.task touch.cpu)
        (spots_of places.now) rooms.now) }
    ensures some { IfSome result (λ once. IfSome once.goal (λ node. 0 < once.pages)) }
    ensures within { IfSome result (λ once. once.page + once.pages ≤ end) }
    ensures fits { IfSome result (λ once. IfSome once.goal
        (λ node. Fits rooms.now node once.pages)) }
{
    let page = first_to_go(places, wants, first, end);
    if page >= end {
        return Some(Once {
            page,
            pages: 0,
            goal: None,
        });
    }
    let Some(to) = alike_until(places, space, wants, page, end, touch.task) else {
        return None;
    };
    let behind = first_to_go(places, wants, to, end);
    if behind < end {
        return None;
    }
    let pages = to - page;
    let Some(goal) = goal_of(space, page, pages, touch, rooms) else {
        return None;
    };
    Some(Once { page, pages, goal })
}

/// Tells the proof that a node is a byte.
fn look(node: u8)
    ensures { node < 256 }
{
    let _ = node;
}

/// Sends pages of a span that are to go, where one edit does it.
pub(crate) fn send_once(
    places: &mut Places,
    once: Once,
    rooms: &mut Rooms,
) -> Result<Bound, PlacedRefusal>
    requires stored { IsStored places.old }
    requires within { once.page + once.pages ≤ 2 ^ 35 }
    requires some { IfSome once.goal (λ node. 0 < once.pages) }
    requires fits { IfSome once.goal (λ node. Fits rooms.old node once.pages) }
    ensures stored { IsStored places.new }
    ensures bound { (asked : Asked) (room : ℕ → ℕ) → AreRooms rooms.old room
        → asked.first + asked.pages ≤ 2 ^ 35 → GoOnce asked (spots_of places.old) rooms.old once
        → IfOk result (IsBound asked (spots_of places.old) room (spots_of places.new) rooms.new) }
    ensures lack { (asked : Asked) (room : ℕ → ℕ) → AreRooms rooms.old room
        → asked.first + asked.pages ≤ 2 ^ 35 → GoOnce asked (spots_of places.old) rooms.old once
        → IfErr result (IsLack (bound_spots asked (spots_of places.old) room)) }
    ensures unchanged { OnErr result (places.new ≡ places.old) }
    ensures kept_rooms { OnErr result (rooms.new ≡ rooms.old) }
{
    let Some(node) = once.goal else {
        return Ok(Bound {
            moved: 0,
            left: once.pages,
        });
    };
    look(node);
    let change = SpanChange {
        first: once.page,
        pages: once.pages,
        change: Change::State(node),
    };
    let mut left = *rooms;
    left.take(node, once.pages);
    if let Err(lack) = edit_places(places, change) {
        return Err(lack);
    }
    *rooms = left;
    Ok(Bound {
        moved: once.pages,
        left: 0,
    })
}
