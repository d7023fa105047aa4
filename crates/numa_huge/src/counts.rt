//! How many pages of 2 MiB lie on each node.
ghost use Rattle.std.specs.Prelude.{◌≡◌, ◌+◌, ◌-◌, ◌<◌, ◌≤◌, ◌^◌, ℕ, Some, slice_index};
ghost use Rattle.numa_ranges.specs.Runs.{end_of};
ghost use Rattle.numa_huge.specs.Huge.{has_reserved, huge_at, on_node};
ghost use Rattle.numa_huge.specs.Shared.{pages_if, part_where};
ghost use Rattle.numa_huge.specs.Tallies.{AreCounts};

use crate::spot::HugeSpot;
use numa_ranges::{RangeMap, Run};

/// How many pages lie on each node, and for how many untouched ones a page is reserved.
#[derive(Clone, Copy, Drop)]
pub struct Counts {
    /// By node, the pages that lie there.
    pub on: [u64; 256],
    /// The reserved ones.
    pub reserved: u64,
}

/// Adds so many pages of which this is known.
fn add_spot(counts: &mut Counts, spot: HugeSpot, pages: u64)
    requires room { (node : ℕ) → node < 256 → slice_index counts.old.on node + pages < 2 ^ 64 }
    requires reserved { counts.old.reserved + pages < 2 ^ 64 }
    ensures on { (node : ℕ) → node < 256 → slice_index counts.new.on node
        ≡ slice_index counts.old.on node + pages_if (on_node node (Some spot)) pages }
    ensures reserved { counts.new.reserved
        ≡ counts.old.reserved + pages_if (has_reserved (Some spot)) pages }
{
    match spot {
        HugeSpot::Bare => {}
        HugeSpot::Reserved => {
            counts.reserved += pages;
        }
        HugeSpot::On(node) => {
            counts.on[node as usize] += pages;
        }
    }
}

/// The later of two pages.
fn later(a: u64, b: u64) -> u64
    ensures first { a ≤ result }
    ensures second { b ≤ result }
    ensures least { (page : ℕ) → a ≤ page → b ≤ page → result ≤ page }
{
    a.max(b)
}

/// The earlier of two ends.
fn earlier(a: u64, b: u64) -> u64
    ensures first { result ≤ a }
    ensures second { result ≤ b }
    ensures most { (page : ℕ) → page < a → page < b → page < result }
{
    a.min(b)
}

/// Adds the pages that a run and the pages from `first` up to `end` share.
fn add_shared(counts: &mut Counts, run: &Run<HugeSpot>, first: u64, end: u64)
    requires rises { first ≤ end }
    requires within { end ≤ 2 ^ 35 }
    requires run { end_of run.now ≤ 2 ^ 35 }
    requires room { (node : ℕ) → node < 256
        → slice_index counts.old.on node + (end - first) < 2 ^ 64 }
    requires reserved { counts.old.reserved + (end - first) < 2 ^ 64 }
    ensures on { (node : ℕ) → node < 256 → slice_index counts.new.on node
        ≡ slice_index counts.old.on node
        + part_where (on_node node) run.now first (end - first) }
    ensures reserved { counts.new.reserved
        ≡ counts.old.reserved + part_where has_reserved run.now first (end - first) }
{
    let from = later(run.first, first);
    let to = earlier(run.first + run.pages, end);
    if from < to {
        add_spot(counts, run.value, to - from);
    }
}

/// How many of the `pages` pages from `first` on lie on each node, and are reserved.
pub(crate) fn counts_of(map: &RangeMap<HugeSpot>, first: u64, pages: u64) -> Counts
    requires within { first + pages ≤ 2 ^ 35 }
    ensures { AreCounts result (huge_at map.now.runs) first pages }
{
    let mut counts = Counts {
        on: [0; 256],
        reserved: 0,
    };
    let end = first + pages;
    for run in map.iter_from(first) {
        if run.first >= end {
            return counts;
        }
        add_shared(&mut counts, &run, first, end);
    }
    counts
}
