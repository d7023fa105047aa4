//! The page up to which the lowest pages of a node go.
ghost use Rattle.std.specs.Prelude.{◌≡◌, ◌+◌, ◌-◌, ◌<◌, ◌≤◌, ◌^◌, ℕ, slice_index, true};
ghost use Rattle.numa_placed.specs.Cuts.{IsPart};
ghost use Rattle.numa_placed.specs.Shifts.{ArePages, stated_on};
ghost use Rattle.numa_placed.specs.Spots.{is_on, pages_within};
ghost use Rattle.numa_placed.specs.Standing.{IsAlone, IsCut, is_split};
ghost use Rattle.numa_placed.specs.Turns.{AreKept, spots_of};

use crate::filling::split_node;
use crate::places::{Places, count_places};

/// A part of the pages in which a cut is, and how many pages of a node are in it and below the cut.
#[derive(Clone, Copy)]
pub(crate) struct Part {
    pub(crate) low: u64,
    pub(crate) high: u64,
    pub(crate) left: u64,
}

/// How many of the `pages` pages from `first` on lie on a node.
fn count_on(places: &Places, node: u8, first: u64, pages: u64) -> u64
    requires within { first + pages ≤ 2 ^ 35 }
    requires kept { AreKept places.now }
    ensures { result ≡ pages_within (is_on node) (spots_of places.now) first pages }
{
    let counts = count_places(places, first, pages);
    counts[node as usize]
}

/// A page between two that are apart.
fn middle_of(low: u64, high: u64) -> u64
    requires wide { low + 1 < high }
    ensures above { low < result }
    ensures below { result < high }
{
    low + (high - low) / 2
}

/// The half of a part in which the cut is.
fn half_of(places: &Places, node: u8, part: Part) -> Part
    requires wide { part.low + 1 < part.high }
    requires within { part.high ≤ 2 ^ 35 }
    requires kept { AreKept places.now }
    ensures half { (first end pages : ℕ) → IsPart (spots_of places.now) node first end pages part
        → IsPart (spots_of places.now) node first end pages result }
    ensures less { result.high - result.low < part.high - part.low }
    ensures high { result.high ≤ part.high }
{
    let middle = middle_of(part.low, part.high);
    let here = count_on(places, node, part.low, middle - part.low);
    if here <= part.left {
        return Part {
            low: middle,
            high: part.high,
            left: part.left - here,
        };
    }
    Part {
        low: part.low,
        high: middle,
        left: part.left,
    }
}

/// The page below which so many pages of a node are, of those from `first` up to `end`: by halving.
fn halved_cut(places: &Places, node: u8, first: u64, end: u64, pages: u64) -> u64
    requires rises { first ≤ end }
    requires within { end ≤ 2 ^ 35 }
    requires kept { AreKept places.now }
    requires few { pages ≤ pages_within (is_on node) (spots_of places.now) first (end - first) }
    ensures cut { pages_within (is_on node) (spots_of places.now) first (result - first) ≡ pages }
    ensures low { first ≤ result }
    ensures high { result ≤ end }
{
    let mut part = Part {
        low: first,
        high: end,
        left: pages,
    };
    while part.high - part.low > 1 {
        part = half_of(places, node, part);
    }
    if part.left == 0 {
        return part.low;
    }
    part.high
}

/// The page up to which pages of a node go, if so many of the lowest go: the run in which it is,
/// and then by halving.
fn cut_of(places: &Places, node: u8, pages: u64) -> u64
    requires kept { AreKept places.now }
    requires few { pages ≤ stated_on (spots_of places.now) node }
    ensures cut { IsCut (spots_of places.now) node pages result }
    ensures end { result ≤ 2 ^ 35 }
{
    let mut low = 0;
    let mut left = pages;
    for run in places.map.iter() {
        let end = run.first + run.pages;
        let here = count_on(places, node, low, end - low);
        if left <= here {
            return halved_cut(places, node, low, end, left);
        }
        left -= here;
        low = end;
    }
    halved_cut(places, node, low, 1 << 35, left)
}

/// The page up to which pages go of the one node of which some stay.
pub(crate) fn cut_page(places: &Places, counts: &[u64; 256], gone: &[u64; 256]) -> u64
    requires kept { AreKept places.now }
    requires counts { ArePages counts.now (stated_on (spots_of places.now)) }
    requires alone { IsAlone (slice_index counts.now) (slice_index gone.now) }
    ensures cut { (node : ℕ) → node < 256
        → is_split (slice_index counts.now) (slice_index gone.now) node ≡ true
        → IsCut (spots_of places.now) node (slice_index gone.now node) result }
    ensures end { result ≤ 2 ^ 35 }
{
    match split_node(counts, gone) {
        Some(node) => cut_of(places, node, gone[node as usize]),
        None => 0,
    }
}
