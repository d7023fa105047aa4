//! Taking free pages for pages that aren't there yet.
ghost use Rattle.std.specs.Prelude.{◌≡◌, ◌+◌, ◌<◌, ◌≤◌, ◌^◌, ℕ, IfErr, IfOk, OnOk, slice_index};
ghost use Rattle.numa_placed.specs.Periods.{Repeats};
ghost use Rattle.numa_plan.specs.Meaning.{RefusesSpan};
ghost use Rattle.numa_reports.specs.Filled.{free_behind};
ghost use Rattle.numa_reports.specs.Lying.{absent_nodes, alike_left, asked_nodes, spots_in};

use crate::filling::fill_periods;
use crate::lying::{Alike, alike_from};
use crate::outlook::PageSpan;
use crate::request::PredictionRequest;
use numa_machine::PlaceRefusal;

/// Takes a free page for each of the first of pages that lie alike, unless they are there. Returns
/// for how many. Their fallback lists repeat as those of [`fill_there`].
fn fill_alike(
    asked: PredictionRequest<'_>,
    first: u64,
    alike: Alike,
    period: u64,
    free: &mut [u64; 256],
) -> Result<u64, PlaceRefusal>
    requires small { first + alike.pages < 2 ^ 64 }
    requires some { 0 < alike.pages }
    ensures some { IfOk result (λ done. 0 < done) }
    ensures few { IfOk result (λ done. done ≤ alike.pages) }
    ensures free { Repeats (asked_nodes asked.entry) first alike.pages period
        → IfOk result (λ done. free.new
        ≡ alike_left alike.node (asked_nodes asked.entry) free.old first done) }
    ensures err { IfErr result
        (RefusesSpan asked.entry.plan.now first alike.pages asked.entry.touch.cpu) }
{
    match alike.node {
        Some(_) => Ok(alike.pages),
        None => {
            let pages = alike.pages;
            fill_periods(asked, PageSpan { first, pages }, period, free)
        }
    }
}

/// Takes a free page for each page of a span that isn't there, in ascending order. The pages'
/// fallback lists repeat after `period` pages, or it is 0. The time depends on the period, on the
/// number of nodes that run out and on that of runs of pages that are there; if the period is 0 or
/// longer than the span, on the pages.
pub(crate) fn fill_there(
    asked: PredictionRequest<'_>,
    first: u64,
    pages: u64,
    period: u64,
    free: &mut [u64; 256],
) -> Result<(), PlaceRefusal>
    requires { first + pages < 2 ^ 64 }
    ensures free { Repeats (asked_nodes asked.entry) first pages period → OnOk result (free.new
        ≡ free_behind (absent_nodes (spots_in asked.entry.placed) (asked_nodes asked.entry))
        free.old first pages) }
    ensures err { IfErr result
        (RefusesSpan asked.entry.plan.now first pages asked.entry.touch.cpu) }
{
    let mut left = pages;
    while left > 0 {
        let page = first + (pages - left);
        let alike = alike_from(asked.placed, page, left);
        left -= fill_alike(asked, page, alike, period, free)?;
    }
    Ok(())
}

/// Adds counts by node to others.
pub(crate) fn add_counts(all: &mut [u64; 256], counts: &[u64; 256])
    ensures { (node : ℕ) → node < 256
        → slice_index all.old node + slice_index counts.now node < 2 ^ 64
        → slice_index all.new node ≡ slice_index all.old node + slice_index counts.now node }
{
    for node in 0..256 {
        all[node] = all[node].saturating_add(counts[node]);
    }
}

/// The sum of counts by node.
pub(crate) fn both_of(ones: &[u64; 256], others: &[u64; 256]) -> [u64; 256]
    ensures { (node : ℕ) → node < 256
        → slice_index ones.now node + slice_index others.now node < 2 ^ 64
        → slice_index result node ≡ slice_index ones.now node + slice_index others.now node }
{
    let mut counts = *ones;
    add_counts(&mut counts, others);
    counts
}
