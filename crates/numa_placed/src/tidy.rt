//! The nodes of cycles kept anew, without those of cycles by which no page lies any more.
ghost use Rattle.std.specs.Prelude.{◌≡◌, ◌+◌, ◌<◌, ◌≤◌, ◌^◌, ℕ, IfOk, IfSome, OnOk, length};
ghost use Rattle.std.specs.Prelude.{slice_index};
ghost use Rattle.numa_ranges.specs.Maps.{IsSpan, Shows, changed_span};
ghost use Rattle.numa_ranges.specs.Runs.{page_at};
ghost use Rattle.numa_placed.specs.Renames.{IsRenamed, IsTidied};
ghost use Rattle.numa_placed.specs.Turns.{AreKept, IsNamed, slot_at, spots_of, turned_slot};
ghost use Rattle.numa_placed.specs.declared.turn.Slot.TheVariants.{InTurn};

use crate::edit::{copy_places, let_go_places};
use crate::in_turn::{MOST_NODES, length_of};
use crate::places::Places;
use crate::touched::same_until;
use crate::turn::{Slot, Turn};
use numa_machine::NoMemory;
use numa_ranges::RangeMap;

/// As many nodes of cycles aren't looked through for those that no page needs.
const FEW_NODES: usize = 1 << 16;

/// Adds the nodes of a cycle to others.
fn push_turn(made: &mut Vec<u8>, nodes: &[u8], turn: Turn) -> Result<Turn, NoMemory>
    requires named { IsNamed nodes.now turn }
    ensures renamed { IfOk result (IsRenamed nodes.now made.new.items turn) }
    ensures before { (place : ℕ) → place < length made.old.items
        → slice_index made.new.items place ≡ slice_index made.old.items place }
    ensures longer { length made.old.items ≤ length made.new.items }
{
    let from = length_of(made);
    if from > MOST_NODES {
        return Err(NoMemory);
    }
    for place in 0..turn.count {
        let node = nodes[turn.from as usize + place as usize];
        let Ok(()) = made.push(node) else {
            return Err(NoMemory);
        };
    }
    let from = from as u32;
    let count = turn.count;
    Ok(Turn { from, count })
}

/// Adds the nodes of a cycle to others, unless it is the last that was added.
fn name_turn(
    made: &mut Vec<u8>,
    nodes: &[u8],
    turn: Turn,
    last: Option<(Turn, Turn)>,
) -> Result<Turn, NoMemory>
    requires named { IsNamed nodes.now turn }
    requires last { IfSome last (λ p. IsRenamed nodes.now made.old.items p.0 p.1) }
    ensures renamed { IfOk result (IsRenamed nodes.now made.new.items turn) }
    ensures before { (place : ℕ) → place < length made.old.items
        → slice_index made.new.items place ≡ slice_index made.old.items place }
    ensures longer { length made.old.items ≤ length made.new.items }
{
    if let Some((old, new)) = last {
        if old == turn {
            return Ok(new);
        }
    }
    push_turn(made, nodes, turn)
}

/// Names the cycle by which the pages of a span lie.
fn name_span(map: &mut RangeMap<Slot>, first: u64, pages: u64, turn: Turn) -> Result<(), NoMemory>
    requires span { IsSpan first pages }
    ensures shows { OnOk result (Shows map.new.runs
        (changed_span first pages (turned_slot turn) (page_at map.old.runs))) }
    ensures limit { map.new.max_ranges ≡ map.old.max_ranges }
{
    let set = |_slot: &Slot| -> Slot
        ensures { result ≡ turned_slot turn _slot.now }
    { Slot::InTurn(turn) };
    let Ok(()) = map.update_span(first, pages, set) else {
        return Err(NoMemory);
    };
    Ok(())
}

/// Keeps the cycle of the pages from one on up to another in other nodes.
fn tidy_turn(
    next: &mut Places,
    places: &Places,
    page: u64,
    end: u64,
    turn: Turn,
    last: &mut Option<(Turn, Turn)>,
) -> Result<(), NoMemory>
    requires rises { page < end }
    requires within { end ≤ 2 ^ 35 }
    requires kept { AreKept places.now }
    requires slots { (p : ℕ) → page ≤ p → p < end → slot_at places.now.map.runs p ≡ InTurn turn }
    requires tidied { IsTidied places.now next.old last.old page }
    ensures tidied { OnOk result (IsTidied places.now next.new last.new end) }
    ensures limit { next.new.map.max_ranges ≡ next.old.map.max_ranges }
{
    let Ok(made) = name_turn(&mut next.nodes, &places.nodes, turn, *last) else {
        return Err(NoMemory);
    };
    let Ok(()) = name_span(&mut next.map, page, end - page, made) else {
        return Err(NoMemory);
    };
    *last = Some((turn, made));
    Ok(())
}

/// Keeps the cycle of some pages from one on in other nodes. Returns the page after them.
fn tidy_some(
    next: &mut Places,
    places: &Places,
    page: u64,
    last: &mut Option<(Turn, Turn)>,
) -> Result<u64, NoMemory>
    requires near { page < 2 ^ 35 }
    requires kept { AreKept places.now }
    requires tidied { IsTidied places.now next.old last.old page }
    ensures rises { IfOk result (λ end. page < end) }
    ensures within { IfOk result (λ end. end ≤ 2 ^ 35) }
    ensures tidied { IfOk result (IsTidied places.now next.new last.new) }
    ensures limit { next.new.map.max_ranges ≡ next.old.map.max_ranges }
{
    let (slot, end) = same_until(places, page, 1 << 35);
    match slot {
        Slot::Lies(spot) => Ok(end),
        Slot::InTurn(turn) => {
            let Ok(()) = tidy_turn(next, places, page, end, turn, last) else {
                return Err(NoMemory);
            };
            Ok(end)
        }
    }
}

/// A copy with the nodes of those cycles alone by which pages lie.
fn tidied_copy(places: &Places) -> Result<Places, NoMemory>
    requires kept { AreKept places.now }
    ensures kept { IfOk result (λ copy. AreKept copy) }
    ensures spots { IfOk result (λ copy. (page : ℕ)
        → spots_of copy page ≡ spots_of places.now page) }
    ensures limit { IfOk result (λ copy. copy.map.max_ranges ≡ places.now.map.max_ranges) }
{
    // Tells the proof that no page from 2^35 on lies anywhere.
    let _ = places.map.iter();
    let Ok(map) = places.map.copy() else {
        return Err(NoMemory);
    };
    let nodes = Vec::new(*places.nodes.allocator());
    let mut next = Places { map, nodes };
    let mut last = None;
    let mut page = 0;
    while page < 1 << 35 {
        let Ok(end) = tidy_some(&mut next, places, page, &mut last) else {
            let_go_places(next);
            return Err(NoMemory);
        };
        page = end;
    }
    Ok(next)
}

/// How many nodes the cycles of all runs have. Only memory depends on it.
fn needed_nodes(places: &Places) -> usize {
    let mut needed = 0usize;
    let mut last = Turn { from: 0, count: 0 };
    for run in places.map.iter() {
        if let Slot::InTurn(turn) = run.value {
            if turn != last {
                needed = needed.saturating_add(turn.count as usize);
            }
            last = turn;
        }
    }
    needed
}

/// A copy. Where most of many nodes are of cycles by which no page lies any more, it is one without
/// them.
pub(crate) fn lean_copy(places: &Places) -> Result<Places, NoMemory>
    requires kept { AreKept places.now }
    ensures kept { IfOk result (λ copy. AreKept copy) }
    ensures spots { IfOk result (λ copy. (page : ℕ)
        → spots_of copy page ≡ spots_of places.now page) }
    ensures limit { IfOk result (λ copy. copy.map.max_ranges ≡ places.now.map.max_ranges) }
{
    let count = length_of(&places.nodes);
    if count > FEW_NODES && needed_nodes(places) < count / 2 {
        return tidied_copy(places);
    }
    copy_places(places)
}
