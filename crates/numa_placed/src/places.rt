//! Where pages lie, as it is kept.
ghost use Rattle.std.specs.Prelude.{◌≡◌, ◌+◌, ◌<◌, ◌≤◌, ◌^◌, ℕ, OnOk, OnErr, length, slice_index};
ghost use Rattle.std.specs.Prelude.{◌-◌};
ghost use Rattle.numa_ranges.specs.Counts.{count_pages};
ghost use Rattle.numa_ranges.specs.Maps.{IsSpan};
ghost use Rattle.numa_ranges.specs.Runs.{end_of};
ghost use Rattle.numa_placed.specs.Moves.{AreTargets, moved_spot};
ghost use Rattle.numa_placed.specs.Shifts.{ArePages, stated_on};
ghost use Rattle.numa_placed.specs.Spots.{changed_spot, changed_spots, is_off, is_on, pages_within};
ghost use Rattle.numa_placed.specs.Standing.{AreOnNodes};
ghost use Rattle.numa_placed.specs.Stored.{kept_count};
ghost use Rattle.numa_placed.specs.Turns.{AreKept, IsNamed, changed_slot, moved_slot, spots_of};
ghost use Rattle.numa_placed.specs.Turns.{HasOwn, part_where, slot_spot, turn_node, turned_slot};
ghost use Rattle.numa_placed.specs.Turns.{turned_spots};
ghost use Rattle.numa_placed.specs.declared.turn.Slot.TheVariants.{InTurn};

use crate::bind::{earlier, later};
use crate::change::{Change, SpanChange, changed};
use crate::spot::Spot;
use crate::targets::gone;
use crate::turn::{Slot, Turn, add_turn, look, turn_node};
use numa_machine::NoMemory;
use numa_ranges::{RangeMap, Run};

/// Where pages lie, as it is kept: runs of pages that lie alike, or by one cycle in turn, and the
/// nodes of all cycles.
#[derive(Drop)]
pub(crate) struct Places {
    /// The runs, which have each page below 2^35 with itself as its index.
    pub(crate) map: RangeMap<Slot>,
    /// The nodes of the cycles.
    pub(crate) nodes: Vec<u8>,
}

/// What a change makes of what is kept of a page.
fn changed_slot(change: Change, slot: Slot) -> Slot
    ensures { result ≡ changed_slot change slot }
{
    match slot {
        Slot::Lies(spot) => Slot::Lies(changed(change, spot)),
        Slot::InTurn(_) => Slot::Lies(changed(change, Spot::Stated(0))),
    }
}

/// Where a page lies.
pub(crate) fn spot_of(places: &Places, page: u64) -> Spot
    requires kept { AreKept places.now }
    ensures { result ≡ spots_of places.now page }
{
    let Some((_, slot)) = places.map.at(page) else {
        return Spot::Nowhere;
    };
    match slot {
        Slot::Lies(spot) => spot,
        Slot::InTurn(turn) => Spot::Stated(turn_node(&places.nodes, turn, page)),
    }
}

/// Changes the pages of a span.
pub(crate) fn change_places(places: &mut Places, span: SpanChange) -> Result<(), NoMemory>
    requires span { IsSpan span.first span.pages }
    requires kept { AreKept places.old }
    ensures kept { OnOk result (AreKept places.new) }
    ensures spots { OnOk result ((page : ℕ) → spots_of places.new page ≡ changed_spots span.first
        span.pages (changed_spot span.change) (spots_of places.old) page) }
    ensures few { OnOk result (length places.new.map.runs ≤ length places.old.map.runs + 2) }
    ensures unchanged { OnErr result (places.new ≡ places.old) }
    ensures limit { places.new.map.max_ranges ≡ places.old.map.max_ranges }
{
    // Tells the proof how many runs there are, before the change and after it.
    let _ = places.map.len();
    let change = span.change;
    let change_one = |slot: &Slot| -> Slot
        ensures { result ≡ changed_slot change slot.now }
    { changed_slot(change, *slot) };
    let Ok(()) = places.map.update_span(span.first, span.pages, change_one) else {
        return Err(NoMemory);
    };
    let _ = places.map.len();
    let _ = places.map.iter();
    Ok(())
}

/// States that the pages of a span lie in turn.
pub(crate) fn turn_places(
    places: &mut Places,
    first: u64,
    pages: u64,
    turn: Turn,
) -> Result<(), NoMemory>
    requires span { IsSpan first pages }
    requires kept { AreKept places.old }
    requires named { IsNamed places.old.nodes.items turn }
    ensures kept { OnOk result (AreKept places.new) }
    ensures spots { OnOk result ((page : ℕ) → spots_of places.new page ≡ turned_spots first pages
        (turn_node places.old.nodes.items turn) (spots_of places.old) page) }
    ensures unchanged { OnErr result (places.new ≡ places.old) }
    ensures limit { places.new.map.max_ranges ≡ places.old.map.max_ranges }
{
    let set = |_slot: &Slot| -> Slot
        ensures { result ≡ turned_slot turn _slot.now }
    { Slot::InTurn(turn) };
    let Ok(()) = places.map.update_span(first, pages, set) else {
        return Err(NoMemory);
    };
    Ok(())
}

/// What is kept of a page once the pages of each node went to its target: a page in turn goes with
/// the nodes of its cycle.
fn moved_slot(slot: Slot, targets: &[u8; 256]) -> Slot
    ensures { (go : ℕ → ℕ) → AreTargets targets.now go → result ≡ moved_slot go slot }
{
    match slot {
        Slot::Lies(spot) => Slot::Lies(gone(spot, targets)),
        Slot::InTurn(turn) => Slot::InTurn(turn),
    }
}

/// Sends each node of the cycles to its target.
fn send_nodes(nodes: &mut Vec<u8>, targets: &[u8; 256])
    ensures sent { (go : ℕ → ℕ) → AreTargets targets.now go → (place : ℕ)
        → place < length nodes.old.items
        → slice_index nodes.new.items place ≡ go (slice_index nodes.old.items place) }
    ensures same { length nodes.new.items ≡ length nodes.old.items }
{
    for place in 0..nodes.len() {
        nodes[place] = targets[nodes[place] as usize];
    }
}

/// Sends all pages of each node to its target. It doesn't allocate.
pub(crate) fn send_places(places: &mut Places, targets: &[u8; 256])
    requires kept { AreKept places.old }
    ensures kept { AreKept places.new }
    ensures spots { (go : ℕ → ℕ) → AreTargets targets.now go → (page : ℕ)
        → spots_of places.new page ≡ moved_spot go (spots_of places.old page) }
    ensures few { kept_count places.new ≤ kept_count places.old }
    ensures limit { places.new.map.max_ranges ≡ places.old.map.max_ranges }
{
    let targets = *targets;
    let go = |slot: &Slot| -> Slot
        ensures { (go : ℕ → ℕ) → AreTargets targets go → result ≡ moved_slot go slot.now }
    { moved_slot(*slot, &targets) };
    places.map.update_all(go);
    send_nodes(&mut places.nodes, &targets);
}

/// Adds the `pages` pages from `first` on, of which all this is kept, to those of their nodes.
fn add_slot(counts: &mut [u64; 256], nodes: &[u8], slot: Slot, first: u64, pages: u64)
    requires within { first + pages ≤ 2 ^ 35 }
    requires named { (turn : Turn) → slot ≡ InTurn turn → IsNamed nodes.now turn }
    requires room { (node : ℕ) → node < 256 → slice_index counts.old node + pages < 2 ^ 64 }
    ensures counts { (node : ℕ) → node < 256 → slice_index counts.new node
        ≡ slice_index counts.old node
        + count_pages (λ page. is_on node (slot_spot nodes.now page slot)) first pages }
    ensures off { count_pages (λ page. is_off (slot_spot nodes.now page slot)) first pages ≡ 0 }
{
    look(nodes);
    match slot {
        Slot::Lies(spot) => {
            if let Some(node) = spot.node() {
                counts[node as usize] += pages;
            }
        }
        Slot::InTurn(turn) => add_turn(counts, nodes, turn, first, pages),
    }
}

/// Adds the pages that a run and the pages from `first` up to `end` share to those of their nodes.
fn add_shared(counts: &mut [u64; 256], nodes: &[u8], run: &Run<Slot>, first: u64, end: u64)
    requires rises { first ≤ end }
    requires within { end ≤ 2 ^ 35 }
    requires run { end_of run.now ≤ 2 ^ 35 }
    requires own { HasOwn nodes.now first run.now }
    requires room { (node : ℕ) → node < 256
        → slice_index counts.old node + (end - first) < 2 ^ 64 }
    ensures counts { (node : ℕ) → node < 256 → slice_index counts.new node
        ≡ slice_index counts.old node
        + part_where (is_on node) nodes.now run.now first (end - first) }
    ensures off { part_where is_off nodes.now run.now first (end - first) ≡ 0 }
{
    let from = later(run.first, first);
    let to = earlier(run.first + run.pages, end);
    if from < to {
        add_slot(counts, nodes, run.value, from, to - from);
    }
}

/// The number of pages that lie on each node, of the `pages` pages from `first` on.
pub(crate) fn count_places(places: &Places, first: u64, pages: u64) -> [u64; 256]
    requires within { first + pages ≤ 2 ^ 35 }
    requires kept { AreKept places.now }
    ensures counts { (node : ℕ) → node < 256
        → slice_index result node ≡ pages_within (is_on node) (spots_of places.now) first pages }
    ensures off { pages_within is_off (spots_of places.now) first pages ≡ 0 }
{
    let mut counts = [0; 256];
    let end = first + pages;
    for run in places.map.iter_from(first) {
        if run.first >= end {
            return counts;
        }
        add_shared(&mut counts, &places.nodes, &run, first, end);
    }
    counts
}

/// The number of pages that lie on each node.
pub(crate) fn count_each(places: &Places) -> [u64; 256]
    requires kept { AreKept places.now }
    ensures pages { ArePages result (stated_on (spots_of places.now)) }
    ensures few { (node : ℕ) → node < 256 → slice_index result node ≤ 2 ^ 35 }
    ensures nodes { AreOnNodes (spots_of places.now) }
{
    // Tells the proof that no page beyond 2^35 lies anywhere.
    let _ = places.map.iter();
    count_places(places, 0, 1 << 35)
}
