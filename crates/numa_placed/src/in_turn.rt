//! Pages that go in turn, by the policy that serves them.
ghost use Rattle.std.specs.Prelude.{◌≡◌, ◌+◌, ◌-◌, ◌<◌, ◌≤◌, ◌^◌, ℕ, IfOk, IfSome, List, OnOk};
ghost use Rattle.std.specs.Prelude.{Some, false, length, slice_index, true};
ghost use Rattle.numa_placed.specs.Binds.{first_with_room, nodes_in};
ghost use Rattle.numa_placed.specs.Periods.{Repeats};
ghost use Rattle.numa_placed.specs.Shifts.{ArePages, AreRooms, endless, less_room, room_of};
ghost use Rattle.numa_placed.specs.Standing.{Sends};
ghost use Rattle.numa_placed.specs.Turns.{AreKept, IsNamed, spots_of, turn_node};
ghost use Rattle.numa_placed.specs.declared.spot.Spot.TheVariants.{Nowhere};

use crate::bind::{FaultingTask, Walk};
use crate::cycle::{all_lack_room, push_cycle};
use crate::places::{Places, turn_places};
use crate::rooms::{Rooms, less_room};
use crate::turn::{Turn, add_turn, look, turn_node};
use numa_machine::NoMemory;
use numa_space::Space;

/// The most nodes of cycles that are kept. Beyond, pages are kept one by one.
pub(crate) const MOST_NODES: usize = 1 << 24;

/// Whether each node has room for so many pages.
fn have_room(rooms: &Rooms, counts: &[u64; 256]) -> bool
    ensures { result ≡ true → (node : ℕ) → node < 256
        → slice_index counts.now node ≤ room_of rooms.now node }
{
    for node in 0..256usize {
        if counts[node] > rooms.pages[node] {
            return false;
        }
    }
    true
}

/// The room of a node.
fn room_at(rooms: &Rooms, node: usize) -> u64
    requires { node < 256 }
    ensures { result ≡ room_of rooms.now node }
{
    rooms.pages[node]
}

/// The rooms once so many pages came to each node, which has room for them.
fn less_rooms(rooms: &Rooms, counts: &[u64; 256]) -> Rooms
    requires { (node : ℕ) → node < 256 → slice_index counts.now node ≤ room_of rooms.now node }
    ensures rooms { (room count : ℕ → ℕ) → AreRooms rooms.now room → ArePages counts.now count
        → AreRooms result (λ node. less_room (room node) (count node)) }
    ensures most { (node : ℕ) → node < 256 → room_of rooms.now node ≤ endless }
{
    let mut pages = [0; 256];
    for node in 0..256usize {
        let room = room_at(rooms, node);
        pages[node] = less_room(room, counts[node]);
    }
    Rooms { pages }
}

/// No page of each node.
fn nothing() -> [u64; 256]
    ensures { ArePages result (λ node. 0) }
{
    [0; 256]
}

/// The number of nodes of a list.
pub(crate) fn length_of(nodes: &Vec<u8>) -> usize
    ensures { result ≡ length nodes.now.items }
{
    nodes.len()
}

/// Keeps the cycle of the pages from one on up to another, whose lists repeat after `count` pages:
/// the first node with room of each. `None` if one has none, or too many nodes are kept.
fn plan_turn(
    places: &mut Places,
    space: &Space,
    page: u64,
    end: u64,
    count: u64,
    touch: FaultingTask,
    rooms: &Rooms,
) -> Result<Option<Turn>, NoMemory>
    requires some { 0 < count }
    requires small { count < 2 ^ 32 }
    requires long { page + count ≤ end }
    requires within { end ≤ 2 ^ 35 }
    requires repeats { Repeats (nodes_in space.now touch.task touch.cpu) page (end - page) count }
    requires kept { AreKept places.old }
    ensures kept { AreKept places.new }
    ensures spots { (p : ℕ) → spots_of places.new p ≡ spots_of places.old p }
    ensures map { places.new.map ≡ places.old.map }
    ensures named { IfOk result (λ turn. IfSome turn (IsNamed places.new.nodes.items)) }
    ensures count { IfOk result (λ turn. IfSome turn (λ turn. turn.count ≡ count)) }
    ensures heads { (room : ℕ → ℕ) → AreRooms rooms.now room → IfOk result (λ turn. IfSome turn
        (λ turn. (p : ℕ) → page ≤ p → p < end → first_with_room room
        (nodes_in space.now touch.task touch.cpu p)
        ≡ Some (turn_node places.new.nodes.items turn p))) }
{
    let from = length_of(&places.nodes);
    if from > MOST_NODES {
        return Ok(None);
    }
    let Ok(all) = push_cycle(&mut places.nodes, space, page, count, touch, rooms) else {
        return Err(NoMemory);
    };
    if !all {
        return Ok(None);
    }
    let from = from as u32;
    let count = count as u32;
    Ok(Some(Turn { from, count }))
}

/// Sends the pages from one on up to another in turn, if each node has room for all that come to
/// it. Returns whether it has.
fn fill_turn(
    places: &mut Places,
    page: u64,
    end: u64,
    turn: Turn,
    walk: &mut Walk,
) -> Result<bool, NoMemory>
    requires rises { page < end }
    requires within { end ≤ 2 ^ 35 }
    requires kept { AreKept places.old }
    requires named { IsNamed places.old.nodes.items turn }
    requires few { walk.old.told.moved + walk.old.told.left + (end - page) < 2 ^ 64 }
    ensures kept { OnOk result (AreKept places.new) }
    ensures sent { (nodes : ℕ → List ℕ) → ((room : ℕ → ℕ) → AreRooms walk.old.rooms room
        → (p : ℕ) → page ≤ p → p < end → first_with_room room (nodes p)
        ≡ Some (turn_node places.old.nodes.items turn p)) → IfOk result (λ all. all ≡ true
        → Sends (λ p. true) nodes Nowhere page end (spots_of places.old) (spots_of places.new)
        walk.old walk.new) }
    ensures still { IfOk result (λ all. all ≡ false → places.new ≡ places.old) }
    ensures walked { IfOk result (λ all. all ≡ false → walk.new ≡ walk.old) }
    ensures few { IfOk result (λ all. walk.new.told.moved + walk.new.told.left
        ≤ walk.old.told.moved + walk.old.told.left + (end - page)) }
    ensures limit { places.new.map.max_ranges ≡ places.old.map.max_ranges }
{
    look(&places.nodes);
    let mut counts = nothing();
    add_turn(&mut counts, &places.nodes, turn, page, end - page);
    if !have_room(&walk.rooms, &counts) {
        return Ok(false);
    }
    let Ok(()) = turn_places(places, page, end - page, turn) else {
        return Err(NoMemory);
    };
    let left = less_rooms(&walk.rooms, &counts);
    walk.rooms = left;
    walk.told.moved += end - page;
    Ok(true)
}

/// How many whole periods of a cycle find room, of at most so many, where so many pages of one
/// period come to each node.
fn fitting_periods(rooms: &Rooms, counts: &[u64; 256], most: u64) -> u64
    ensures { result ≤ most }
{
    let mut periods = most;
    for node in 0..256usize {
        let here = counts[node];
        if here > 0 {
            periods = periods.min(room_at(rooms, node) / here);
        }
    }
    periods
}

/// The rooms that are left after so many periods of a cycle, where so many pages of one period come
/// to each node. Only speed depends on it.
fn left_after(rooms: &Rooms, counts: &[u64; 256], periods: u64) -> [u64; 256] {
    let mut left = [0; 256];
    for node in 0..256usize {
        let taken = counts[node].saturating_mul(periods);
        left[node] = room_at(rooms, node).saturating_sub(taken);
    }
    left
}

/// How many pages from one on, of at most so many, find room on their node of a cycle, where each
/// node has so much. Only speed depends on it.
fn fitting_pages(rooms: [u64; 256], nodes: &[u8], turn: Turn, page: u64, most: u64) -> u64
    requires within { page + most ≤ 2 ^ 35 }
    requires named { IsNamed nodes.now turn }
    ensures { result ≤ most }
{
    let mut left = rooms;
    for passed in 0..most {
        let node = turn_node(nodes, turn, page + passed);
        let room = left[node as usize];
        if room == 0 {
            return passed;
        }
        left[node as usize] = room - 1;
    }
    most
}

/// The end of the pages from one on, at most `end`, that find room on their node of a cycle.
fn fitting_end(rooms: &Rooms, nodes: &[u8], turn: Turn, page: u64, end: u64) -> u64
    requires rises { page < end }
    requires within { end ≤ 2 ^ 35 }
    requires named { IsNamed nodes.now turn }
    requires long { page + turn.count ≤ end }
    ensures low { page ≤ result }
    ensures high { result ≤ end }
{
    let mut counts = nothing();
    add_turn(&mut counts, nodes, turn, page, end - page);
    if have_room(rooms, &counts) {
        return end;
    }
    let count = u64::from(turn.count);
    let mut once = nothing();
    add_turn(&mut once, nodes, turn, page, count);
    let periods = fitting_periods(rooms, &once, (end - page) / count);
    let from = end.min(page.saturating_add(periods.saturating_mul(count)));
    let left = left_after(rooms, &once, periods);
    from + fitting_pages(left, nodes, turn, from, count.min(end - from))
}

/// Sends pages from one on, of those up to another whose lists repeat after `count` pages, in turn:
/// those before the first whose node has filled, or all, where none finds room. Returns the page
/// after them.
pub(crate) fn send_turns(
    places: &mut Places,
    space: &Space,
    page: u64,
    end: u64,
    count: u64,
    touch: FaultingTask,
    walk: &mut Walk,
) -> Result<u64, NoMemory>
    requires some { 0 < count }
    requires small { count < 2 ^ 32 }
    requires long { page + count ≤ end }
    requires within { end ≤ 2 ^ 35 }
    requires repeats { Repeats (nodes_in space.now touch.task touch.cpu) page (end - page) count }
    requires kept { AreKept places.old }
    requires few { walk.old.told.moved + walk.old.told.left + (end - page) < 2 ^ 64 }
    ensures kept { OnOk result (AreKept places.new) }
    ensures low { IfOk result (λ next. page ≤ next) }
    ensures high { IfOk result (λ next. next ≤ end) }
    ensures sent { IfOk result (λ next. page < next → Sends (λ p. true)
        (nodes_in space.now touch.task touch.cpu) Nowhere page next (spots_of places.old)
        (spots_of places.new) walk.old walk.new) }
    ensures still { IfOk result (λ next. next ≤ page
        → (p : ℕ) → spots_of places.new p ≡ spots_of places.old p) }
    ensures walked { IfOk result (λ next. next ≤ page → walk.new ≡ walk.old) }
    ensures few { IfOk result (λ next. walk.new.told.moved + walk.new.told.left
        ≤ walk.old.told.moved + walk.old.told.left + (next - page)) }
    ensures limit { places.new.map.max_ranges ≡ places.old.map.max_ranges }
{
    let Ok(plan) = plan_turn(places, space, page, end, count, touch, &walk.rooms) else {
        return Err(NoMemory);
    };
    let Some(turn) = plan else {
        if all_lack_room(space, page, count, touch, &walk.rooms) {
            walk.told.left += end - page;
            return Ok(end);
        }
        return Ok(page);
    };
    let to = fitting_end(&walk.rooms, &places.nodes, turn, page, end);
    if to <= page {
        return Ok(page);
    }
    let Ok(sent) = fill_turn(places, page, to, turn, walk) else {
        return Err(NoMemory);
    };
    if sent {
        return Ok(to);
    }
    Ok(page)
}
