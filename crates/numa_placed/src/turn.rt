//! Pages that one policy placed in turn.
ghost use Rattle.std.specs.Prelude.{◌≡◌, ◌+◌, ◌<◌, ◌^◌, ◌≤◌, ℕ, length, slice_index};
ghost use Rattle.numa_placed.specs.Turns.{IsNamed, pages_at_place, pages_in_turn, turn_node};

use crate::spot::Spot;
use numa_ranges::Exact;

/// A cycle of nodes on which pages lie in turn: where it begins in the list that has the nodes of
/// all cycles, and how many nodes it has. A page lies on the node whose place in the cycle is the
/// page's number modulo their number.
#[derive(Clone, Copy, Debug, PartialEq, Eq)]
pub struct Turn {
    /// Where the cycle begins in the list of nodes.
    pub from: u32,
    /// The number of its nodes.
    pub count: u32,
}

/// What is kept of a page.
#[derive(Clone, Copy, Debug, PartialEq, Eq)]
pub enum Slot {
    /// Where it lies.
    Lies(Spot),
    /// The cycle by which it lies.
    InTurn(Turn),
}

impl Exact for Slot {
    ghost use Rattle.numa_placed.specs.Exact.{slot-exact};

    ghost exact = { slot-exact };

    /// Different nodes have different marks, and so have different cycles.
    fn mark(&self) -> u64 {
        match *self {
            Slot::Lies(spot) => spot.mark(),
            Slot::InTurn(turn) => (u64::from(turn.from) << 32) | (u64::from(turn.count) << 9) | 256,
        }
    }
}

/// Tells the proof that nodes are bytes.
pub(crate) fn look(nodes: &[u8])
    ensures { (place : ℕ) → slice_index nodes.now place < 256 }
{
    let _ = nodes;
}

/// The node of a page that lies in turn.
pub(crate) fn turn_node(nodes: &[u8], turn: Turn, page: u64) -> u8
    requires named { IsNamed nodes.now turn }
    ensures { result ≡ turn_node nodes.now turn page }
{
    let place = page % u64::from(turn.count);
    nodes[turn.from as usize + place as usize]
}

/// How many pages below `end` have this place in a cycle of so many nodes.
fn places_below(end: u64, place: u64, count: u64) -> u64
    requires place { place < count }
    requires few { end ≤ 2 ^ 35 }
    ensures { result ≡ pages_at_place count place 0 end }
{
    if place < end % count {
        return end / count + 1;
    }
    end / count
}

/// How many of the `pages` pages from `first` on have this place in a cycle of so many nodes.
fn pages_at_place(first: u64, pages: u64, place: u64, count: u64) -> u64
    requires place { place < count }
    requires few { first + pages ≤ 2 ^ 35 }
    ensures { result ≡ pages_at_place count place first pages }
{
    let below = places_below(first + pages, place, count);
    below - places_below(first, place, count)
}

/// Adds the `pages` pages from `first` on, which lie in turn, to those of their nodes.
pub(crate) fn add_turn(counts: &mut [u64; 256], nodes: &[u8], turn: Turn, first: u64, pages: u64)
    requires within { first + pages ≤ 2 ^ 35 }
    requires named { IsNamed nodes.now turn }
    requires room { (node : ℕ) → node < 256 → slice_index counts.old node + pages < 2 ^ 64 }
    ensures { (node : ℕ) → node < 256 → slice_index counts.new node
        ≡ slice_index counts.old node + pages_in_turn nodes.now turn node first pages }
{
    for place in 0..turn.count {
        let node = nodes[turn.from as usize + place as usize];
        let more = pages_at_place(first, pages, u64::from(place), u64::from(turn.count));
        counts[node as usize] += more;
    }
}
