//! Maximal runs of pages that lie alike.
ghost use Rattle.std.specs.Prelude.{◌≡◌, ◌≢◌, ◌<◌, ◌≤◌, ◌^◌, ℕ};
ghost use Rattle.numa_placed.specs.Turns.{AreKept, IsNamed, slot_spot, spots_of, turn_node};
ghost use Rattle.numa_placed.specs.declared.turn.Slot.TheVariants.{InTurn};

use crate::places::{Places, spot_of};
use crate::spot::Spot;
use crate::touched::same_until;
use crate::turn::{Slot, Turn, turn_node};

/// The end of the pages from one on, all of one cycle, up to another, that lie on a node: the end
/// of all, if all of the cycle do.
fn turn_until(nodes: &[u8], turn: Turn, page: u64, to: u64, node: u8) -> u64
    requires named { IsNamed nodes.now turn }
    requires rises { page ≤ to }
    requires within { to ≤ 2 ^ 35 }
    ensures rises { page ≤ result }
    ensures within { result ≤ to }
    ensures alike { (p : ℕ) → page ≤ p → p < result → turn_node nodes.now turn p ≡ node }
    ensures ends { result < to → turn_node nodes.now turn result ≢ node }
{
    for passed in 0..u64::from(turn.count) {
        if page + passed >= to {
            return to;
        }
        if turn_node(nodes, turn, page + passed) != node {
            return page + passed;
        }
    }
    to
}

/// The end of the pages from one on up to another, of which all the same is kept, that lie here.
fn slot_until(nodes: &[u8], slot: Slot, page: u64, to: u64, spot: Spot) -> u64
    requires named { (turn : Turn) → slot ≡ InTurn turn → IsNamed nodes.now turn }
    requires rises { page ≤ to }
    requires within { to ≤ 2 ^ 35 }
    ensures rises { page ≤ result }
    ensures within { result ≤ to }
    ensures alike { (p : ℕ) → page ≤ p → p < result → slot_spot nodes.now p slot ≡ spot }
    ensures ends { result < to → slot_spot nodes.now result slot ≢ spot }
{
    match slot {
        Slot::Lies(other) => {
            if other == spot {
                return to;
            }
            page
        }
        Slot::InTurn(turn) => match spot {
            Spot::Nowhere => page,
            Spot::Stated(node) => turn_until(nodes, turn, page, to, node),
        },
    }
}

/// The end of some pages from one on that lie here: the page itself, if it doesn't.
fn alike_until(places: &Places, page: u64, spot: Spot) -> u64
    requires near { page < 2 ^ 35 }
    requires kept { AreKept places.now }
    ensures rises { page ≤ result }
    ensures within { result ≤ 2 ^ 35 }
    ensures alike { (p : ℕ) → page ≤ p → p < result → spots_of places.now p ≡ spot }
    ensures ends { result ≡ page → spots_of places.now page ≢ spot }
{
    let (slot, to) = same_until(places, page, 1 << 35);
    slot_until(&places.nodes, slot, page, to, spot)
}

/// Where a page lies, and the end of the pages from it on that lie there.
#[derive(Clone, Copy, Debug, PartialEq, Eq)]
pub struct Stay {
    /// Where the page lies.
    pub spot: Spot,
    /// The first page behind it that lies elsewhere, or 2^35.
    pub end: u64,
}

/// Where a page lies, and up to where those behind it lie there too.
pub(crate) fn stay_of(places: &Places, page: u64) -> Stay
    requires near { page < 2 ^ 35 }
    requires kept { AreKept places.now }
    ensures spot { result.spot ≡ spots_of places.now page }
    ensures rises { page < result.end }
    ensures within { result.end ≤ 2 ^ 35 }
    ensures alike { (p : ℕ) → page ≤ p → p < result.end → spots_of places.now p ≡ result.spot }
    ensures ends { result.end < 2 ^ 35 → spots_of places.now result.end ≢ result.spot }
{
    let spot = spot_of(places, page);
    let mut end = page;
    while end < 1 << 35 {
        let next = alike_until(places, end, spot);
        if next == end {
            return Stay { spot, end };
        }
        end = next;
    }
    Stay { spot, end }
}

/// The end of the pages from one on up to another that lie alike by two cycles: the page itself, if
/// it doesn't. Where the cycles aren't as long it may be the end of one period of the first.
fn turns_until(nodes: &[u8], turn: Turn, others: &[u8], other: Turn, page: u64, to: u64) -> u64
    requires named { IsNamed nodes.now turn }
    requires other { IsNamed others.now other }
    requires rises { page < to }
    requires within { to ≤ 2 ^ 35 }
    ensures rises { page ≤ result }
    ensures within { result ≤ to }
    ensures alike { (p : ℕ) → page ≤ p → p < result
        → turn_node nodes.now turn p ≡ turn_node others.now other p }
    ensures ends { result ≡ page
        → turn_node nodes.now turn page ≢ turn_node others.now other page }
{
    for passed in 0..u64::from(turn.count) {
        if page + passed >= to {
            return to;
        }
        let here = turn_node(nodes, turn, page + passed);
        let there = turn_node(others, other, page + passed);
        if here != there {
            return page + passed;
        }
    }
    if turn.count == other.count {
        return to;
    }
    page + u64::from(turn.count)
}

/// The end of the pages from one on up to another, of which the same is kept twice, that lie alike:
/// the page itself, if it doesn't.
fn slots_until(nodes: &[u8], slot: Slot, others: &[u8], other: Slot, page: u64, to: u64) -> u64
    requires named { (turn : Turn) → slot ≡ InTurn turn → IsNamed nodes.now turn }
    requires other { (turn : Turn) → other ≡ InTurn turn → IsNamed others.now turn }
    requires rises { page < to }
    requires within { to ≤ 2 ^ 35 }
    ensures rises { page ≤ result }
    ensures within { result ≤ to }
    ensures alike { (p : ℕ) → page ≤ p → p < result
        → slot_spot nodes.now p slot ≡ slot_spot others.now p other }
    ensures ends { result ≡ page
        → slot_spot nodes.now page slot ≢ slot_spot others.now page other }
{
    match slot {
        Slot::Lies(spot) => slot_until(others, other, page, to, spot),
        Slot::InTurn(turn) => match other {
            Slot::Lies(spot) => slot_until(nodes, slot, page, to, spot),
            Slot::InTurn(there) => turns_until(nodes, turn, others, there, page, to),
        },
    }
}

/// The end of some pages from one on that lie alike twice: the page itself, if it doesn't.
pub(crate) fn alike_in(places: &Places, others: &Places, page: u64) -> u64
    requires near { page < 2 ^ 35 }
    requires kept { AreKept places.now }
    requires others { AreKept others.now }
    ensures rises { page ≤ result }
    ensures within { result ≤ 2 ^ 35 }
    ensures alike { (p : ℕ) → page ≤ p → p < result
        → spots_of places.now p ≡ spots_of others.now p }
    ensures ends { result ≡ page → spots_of places.now page ≢ spots_of others.now page }
{
    let (slot, end) = same_until(places, page, 1 << 35);
    let (other, to) = same_until(others, page, end);
    slots_until(&places.nodes, slot, &others.nodes, other, page, to)
}
