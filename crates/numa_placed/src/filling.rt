//! Moving the pages of each node as far as there is room.
ghost use Rattle.std.specs.Prelude.{◌≡◌, ◌+◌, ◌-◌, ◌<◌, ◌≤◌, ◌^◌, ℕ, true, OnOk, OnErr, IfOk, ◌*◌};
ghost use Rattle.std.specs.Prelude.{IfErr, IfNone, IfSome, false, slice_index, if◌then◌else◌};
ghost use Rattle.std.specs.Prelude.{length, nat_lt};
ghost use Rattle.numa_ranges.specs.Runs.{page_at};
ghost use Rattle.numa_placed.specs.Moves.{AreTargets, moved_node, moved_spot};
ghost use Rattle.numa_placed.specs.Refusals.{IsLack};
ghost use Rattle.numa_placed.specs.Shifts.{ArePages, AreRooms, IsShift, IsShiftTally, shifted};
ghost use Rattle.numa_placed.specs.Shifts.{stated_on, stay_on, sum_below};
ghost use Rattle.numa_placed.specs.Standing.{is_split, target_from};
ghost use Rattle.numa_placed.specs.declared.spot.Spot.{Spot};
ghost use Rattle.numa_ranges.specs.Maps.{Shows, changed_span};
ghost use Rattle.numa_placed.specs.Cuts.{shifted_slot};
ghost use Rattle.numa_placed.specs.Stored.{IsStored};
ghost use Rattle.numa_placed.specs.Turns.{AreKept, spots_of};

use crate::course::course_of;
use crate::cut::cut_page;
use crate::edit::{let_go_places, put_places};
use crate::in_turn::{MOST_NODES, length_of};
use crate::moved::Moved;
use crate::places::{Places, count_each, send_places};
use crate::rooms::Rooms;
use crate::spot::Spot;
use crate::targets::{gone, targets};
use crate::tidy::lean_copy;
use crate::turn::{Slot, Turn};
use numa_machine::NoMemory;
use numa_mask::NodeMask;
use numa_ranges::RangeMap;
use numa_requests::PlacedRefusal;

/// Whether some pages of a node go, and some stay.
fn is_split(counts: &[u64; 256], gone: &[u64; 256], node: u8) -> bool
    ensures { result ≡ is_split (slice_index counts.now) (slice_index gone.now) node }
{
    0 < gone[node as usize] && gone[node as usize] < counts[node as usize]
}

/// The node of which some pages go and some stay, if there is one.
pub(crate) fn split_node(counts: &[u64; 256], gone: &[u64; 256]) -> Option<u8>
    ensures some { IfSome result (λ node.
        is_split (slice_index counts.now) (slice_index gone.now) node ≡ true) }
    ensures none { IfNone result ((node : ℕ) → node < 256
        → is_split (slice_index counts.now) (slice_index gone.now) node ≡ false) }
{
    for node in 0..256usize {
        let node = node as u8;
        if is_split(counts, gone, node) {
            return Some(node);
        }
    }
    None
}

/// A page of each node.
pub(crate) fn ones() -> [u64; 256]
    ensures { ArePages result (λ node. 1) }
{
    [1; 256]
}

/// The target of a node, if at least so many of its pages go; else the node.
fn target_from(targets: &[u8; 256], least: &[u64; 256], gone: &[u64; 256], node: u8) -> u8
    ensures { result ≡ target_from (slice_index targets.now) (slice_index least.now)
        (slice_index gone.now) node }
{
    if gone[node as usize] < least[node as usize] {
        return node;
    }
    targets[node as usize]
}

/// The targets of the nodes of which at least so many pages go; of the others the nodes themselves.
pub(crate) fn targets_from(targets: &[u8; 256], least: &[u64; 256], gone: &[u64; 256]) -> [u8; 256]
    ensures { AreTargets result (target_from (slice_index targets.now) (slice_index least.now)
        (slice_index gone.now)) }
{
    let mut sent = [0; 256];
    for node in 0..256usize {
        sent[node] = target_from(targets, least, gone, node as u8);
    }
    sent
}

/// The sum of the pages of all nodes.
pub(crate) fn sum(pages: &[u64; 256]) -> u64
    requires { (node : ℕ) → node < 256 → slice_index pages.now node ≤ 2 ^ 35 }
    ensures { result ≡ sum_below 256 (slice_index pages.now) }
{
    let mut total = 0;
    for node in 0..256usize {
        total += pages[node];
    }
    total
}

/// How many stated pages of a node have another to go to, and stay.
fn stay_on(targets: &[u8; 256], counts: &[u64; 256], gone: &[u64; 256], node: u8) -> u64
    ensures { result ≡ stay_on (slice_index targets.now) (slice_index counts.now)
        (slice_index gone.now) node }
{
    if targets[node as usize] == node {
        return 0;
    }
    counts[node as usize].saturating_sub(gone[node as usize])
}

/// How many stated pages of all nodes have another to go to, and stay.
pub(crate) fn stay(targets: &[u8; 256], counts: &[u64; 256], gone: &[u64; 256]) -> u64
    requires { (node : ℕ) → node < 256 → slice_index counts.now node ≤ 2 ^ 35 }
    ensures sum { result ≡ sum_below 256 (stay_on (slice_index targets.now)
        (slice_index counts.now) (slice_index gone.now)) }
    ensures few { result ≤ 256 * 2 ^ 35 }
{
    let mut total = 0;
    for node in 0..256usize {
        total += stay_on(targets, counts, gone, node as u8);
    }
    total
}

/// What is told of a move in which so many pages of each node went.
pub(crate) fn tell(
    targets: [u8; 256],
    counts: &[u64; 256],
    gone: &[u64; 256],
    _old: &NodeMask,
    _new: &NodeMask,
) -> Moved
    requires targets { AreTargets targets (moved_node _old.now _new.now) }
    requires few { (node : ℕ) → node < 256 → slice_index counts.now node ≤ 2 ^ 35 }
    requires fewer { (node : ℕ) → node < 256 → slice_index gone.now node ≤ 2 ^ 35 }
    ensures { (spots : ℕ → Spot) (pages : ℕ → ℕ) → ArePages counts.now (stated_on spots)
        → ArePages gone.now pages → IsShiftTally spots _old.now _new.now pages result }
{
    let moved = sum(gone);
    let left = stay(&targets, counts, gone);
    Moved {
        moved,
        left,
        from: *gone,
        to: targets,
    }
}

/// Adds each node of the cycles once more, sent to its target.
fn push_sent(nodes: &mut Vec<u8>, targets: &[u8; 256]) -> Result<(), NoMemory>
    ensures size { OnOk result (length nodes.new.items
        ≡ length nodes.old.items + length nodes.old.items) }
    ensures before { (place : ℕ) → place < length nodes.old.items
        → slice_index nodes.new.items place ≡ slice_index nodes.old.items place }
    ensures sent { (go : ℕ → ℕ) → AreTargets targets.now go → OnOk result ((place : ℕ)
        → place < length nodes.old.items
        → slice_index nodes.new.items (length nodes.old.items + place)
        ≡ go (slice_index nodes.old.items place)) }
{
    let count = length_of(nodes);
    for place in 0..count {
        let node = nodes[place];
        let Ok(()) = nodes.push(targets[node as usize]) else {
            return Err(NoMemory);
        };
    }
    Ok(())
}

/// Sends the first nodes of the cycles to their targets.
fn send_first(nodes: &mut Vec<u8>, count: usize, targets: &[u8; 256])
    requires few { count ≤ length nodes.old.items }
    ensures sent { (go : ℕ → ℕ) → AreTargets targets.now go → (place : ℕ) → place < count
        → slice_index nodes.new.items place ≡ go (slice_index nodes.old.items place) }
    ensures ahead { (place : ℕ) → count ≤ place
        → slice_index nodes.new.items place ≡ slice_index nodes.old.items place }
    ensures same { length nodes.new.items ≡ length nodes.old.items }
{
    for place in 0..count {
        nodes[place] = targets[nodes[place] as usize];
    }
}

/// What is kept of a page once the pages of each node went to its target: a page in turn goes with
/// the nodes of its cycle, which are so far behind in the list.
fn shifted_slot(slot: Slot, targets: &[u8; 256], behind: u32) -> Slot
    ensures { (go : ℕ → ℕ) → AreTargets targets.now go → result ≡ shifted_slot go behind slot }
{
    match slot {
        Slot::Lies(spot) => Slot::Lies(gone(spot, targets)),
        Slot::InTurn(turn) => Slot::InTurn(Turn {
            from: turn.from.saturating_add(behind),
            count: turn.count,
        }),
    }
}

/// Sends what is kept of the pages of a span, those of each node to its target.
fn send_slots(
    map: &mut RangeMap<Slot>,
    first: u64,
    pages: u64,
    targets: &[u8; 256],
    behind: u32,
) -> Result<(), NoMemory>
    requires span { first + pages ≤ 2 ^ 35 }
    ensures shows { (go : ℕ → ℕ) → AreTargets targets.now go → OnOk result (Shows map.new.runs
        (changed_span first pages (shifted_slot go behind) (page_at map.old.runs))) }
    ensures limit { map.new.max_ranges ≡ map.old.max_ranges }
{
    if pages == 0 {
        return Ok(());
    }
    let targets = *targets;
    let go = |slot: &Slot| -> Slot
        ensures { (go : ℕ → ℕ) → AreTargets targets go → result ≡ shifted_slot go behind slot.now }
    { shifted_slot(*slot, &targets, behind) };
    let Ok(()) = map.update_span(first, pages, go) else {
        return Err(NoMemory);
    };
    Ok(())
}

/// Sends the pages below a page to some targets, the others to others: their cycles are kept twice.
fn send_apart(
    places: &mut Places,
    cut: u64,
    below: &[u8; 256],
    behind: &[u8; 256],
) -> Result<(), NoMemory>
    requires end { cut ≤ 2 ^ 35 }
    requires kept { AreKept places.old }
    ensures kept { OnOk result (AreKept places.new) }
    ensures spots { (go stay : ℕ → ℕ) → AreTargets below.now go → AreTargets behind.now stay
        → OnOk result ((page : ℕ) → spots_of places.new page ≡ (if nat_lt page cut
        then moved_spot go (spots_of places.old page)
        else moved_spot stay (spots_of places.old page))) }
    ensures limit { places.new.map.max_ranges ≡ places.old.map.max_ranges }
{
    // Tells the proof that no page from 2^35 on lies anywhere.
    let _ = places.map.iter();
    let count = length_of(&places.nodes);
    if count > MOST_NODES {
        return Err(NoMemory);
    }
    let Ok(()) = push_sent(&mut places.nodes, behind) else {
        return Err(NoMemory);
    };
    let Ok(()) = send_slots(&mut places.map, 0, cut, below, 0) else {
        return Err(NoMemory);
    };
    let rest = (1 << 35) - cut;
    let Ok(()) = send_slots(&mut places.map, cut, rest, behind, count as u32) else {
        return Err(NoMemory);
    };
    send_first(&mut places.nodes, count, below);
    Ok(())
}

/// Moves the pages of each node to where they go when they leave one set of nodes for another, as
/// far as there is room. Where all find room, or none does, no memory is taken.
pub(crate) fn fill_places(
    places: &mut Places,
    old: &NodeMask,
    new: &NodeMask,
    rooms: &mut Rooms,
) -> Result<Moved, PlacedRefusal>
    requires stored { IsStored places.old }
    ensures stored { IsStored places.new }
    ensures moved { (room : ℕ → ℕ) → AreRooms rooms.old room → IfOk result (IsShift
        (spots_of places.old) old.now new.now room (spots_of places.new) rooms.new) }
    ensures lack { (room : ℕ → ℕ) → AreRooms rooms.old room → IfErr result (IsLack
        (shifted (spots_of places.old) old.now new.now room)) }
    ensures unchanged { OnErr result (places.new ≡ places.old) }
    ensures kept_rooms { OnErr result (rooms.new ≡ rooms.old) }
{
    // Tells the proof that no page from 2^35 on lies anywhere.
    let _ = places.map.iter();
    let targets = targets(old, new);
    let counts = count_each(places);
    let course = course_of(&targets, &counts, old, rooms);
    let told = tell(targets, &counts, &course.gone, old, new);
    if told.moved == 0 {
        *rooms = course.rooms;
        return Ok(told);
    }
    if stay(&targets, &counts, &course.gone) == 0 {
        send_places(places, &targets);
        *rooms = course.rooms;
        return Ok(told);
    }
    let Ok(mut next) = lean_copy(places) else {
        return Err(PlacedRefusal::NoMemory);
    };
    let cut = cut_page(places, &counts, &course.gone);
    let below = targets_from(&targets, &ones(), &course.gone);
    let behind = targets_from(&targets, &counts, &course.gone);
    let Ok(()) = send_apart(&mut next, cut, &below, &behind) else {
        let_go_places(next);
        return Err(PlacedRefusal::NoMemory);
    };
    match put_places(places, next) {
        Ok(()) => {
            *rooms = course.rooms;
            Ok(told)
        }
        Err(lack) => Err(lack),
    }
}
