//! Counting pages where they lie: on the node of those that are there, and of the others on the
//! first of their list.
ghost use Rattle.std.specs.Prelude.{◌≡◌, ◌+◌, ◌<◌, ◌≤◌, ◌^◌, ℕ, IfErr, IfOk, OnOk, slice_index};
ghost use Rattle.numa_plan.specs.Meaning.{RefusesSpan};
ghost use Rattle.numa_plan.specs.Tally.{Adds};
ghost use Rattle.numa_placed.specs.Spots.{node_of};
ghost use Rattle.numa_reports.specs.Lying.{alike_pages, planned_pages, spots_in};
ghost use Rattle.numa_reports.specs.Predicted.{AreNone};

use crate::request::PredictionRequest;
use crate::tally::{count_range, move_counts};
use numa_machine::PlaceRefusal;
use numa_placed::Placed;
use numa_ranges::Run;
use numa_sheets::Touch;
use numa_space::RangeRecord;

/// A number of pages in a row that lie on one node, or of which none is there yet.
#[derive(Clone, Copy)]
pub(crate) struct Alike {
    pub(crate) node: Option<u8>,
    pub(crate) pages: u64,
}

/// The pages from one on that lie alike: at least that one, and at most so many.
pub(crate) fn alike_from(placed: Option<&Placed>, page: u64, most: u64) -> Alike
    requires { 0 < most }
    ensures some { 0 < result.pages }
    ensures few { result.pages ≤ most }
    ensures same { (other : ℕ) → page ≤ other → other < page + result.pages
        → node_of (spots_in placed.entry other) ≡ result.node }
{
    let Some(placed) = placed else {
        return Alike {
            node: None,
            pages: most,
        };
    };
    if page >= 1 << 35 {
        return Alike {
            node: placed.at(page).node(),
            pages: 1,
        };
    }
    let stay = placed.stay_at(page);
    Alike {
        node: stay.spot.node(),
        pages: most.min(stay.end - page),
    }
}

/// Adds pages that lie alike to those of their node, or of the first nodes of their lists.
fn add_alike(
    asked: PredictionRequest<'_>,
    first: u64,
    alike: Alike,
    counts: &mut [u64; 256],
) -> Result<(), PlaceRefusal>
    requires room { (node : ℕ) → node < 256
        → slice_index counts.old node + alike.pages < 2 ^ 64 }
    ensures counts { OnOk result (Adds counts.old counts.new
        (alike_pages asked.entry.plan.now alike.node asked.entry.touch.task first alike.pages
        asked.entry.touch.cpu)) }
    ensures err { IfErr result
        (RefusesSpan asked.entry.plan.now first alike.pages asked.entry.touch.cpu) }
{
    let Some(node) = alike.node else {
        let Touch { task, cpu } = asked.touch;
        let mut part = match asked.plan.counts(task, first, alike.pages, cpu) {
            Ok(part) => part,
            Err(refusal) => return Err(refusal),
        };
        move_counts(&mut part, alike.pages, counts);
        return Ok(());
    };
    counts[node as usize] += alike.pages;
    Ok(())
}

/// The number of pages of a span that lie on each node.
fn count_lying(
    asked: PredictionRequest<'_>,
    first: u64,
    pages: u64,
) -> Result<[u64; 256], PlaceRefusal>
    requires { first + pages < 2 ^ 64 }
    ensures counts { IfOk result (λ counts. (node : ℕ) → node < 256 → slice_index counts node
        ≡ planned_pages asked.entry.plan.now (spots_in asked.entry.placed)
        asked.entry.touch.task first pages asked.entry.touch.cpu node) }
    ensures err { IfErr result
        (RefusesSpan asked.entry.plan.now first pages asked.entry.touch.cpu) }
{
    let mut counts = [0u64; 256];
    let mut left = pages;
    while left > 0 {
        let page = first + (pages - left);
        let alike = alike_from(asked.placed, page, left);
        if let Err(refusal) = add_alike(asked, page, alike, &mut counts) {
            return Err(refusal);
        }
        left -= alike.pages;
    }
    Ok(counts)
}

/// Counts the pages of a range where they lie. (Apart, so that the counts that it makes are zeroed
/// only where pages are there.)
#[inline(never)]
fn count_placed(
    asked: PredictionRequest<'_>,
    range: &Run<RangeRecord>,
    counts: &mut [u64; 256],
) -> Result<(), PlaceRefusal>
    requires { range.now.first + range.now.pages < 2 ^ 64 }
    ensures counts { OnOk result ((node : ℕ) → node < 256 → slice_index counts.new node
        ≡ planned_pages asked.entry.plan.now (spots_in asked.entry.placed)
        asked.entry.touch.task range.now.first range.now.pages asked.entry.touch.cpu node) }
    ensures err { IfErr result (RefusesSpan asked.entry.plan.now range.now.first
        range.now.pages asked.entry.touch.cpu) }
{
    match count_lying(asked, range.first, range.pages) {
        Ok(found) => {
            *counts = found;
            Ok(())
        }
        Err(refusal) => Err(refusal),
    }
}

/// The number of pages of a range that lie on each node.
pub(crate) fn count_there(
    asked: PredictionRequest<'_>,
    range: &Run<RangeRecord>,
    counts: &mut [u64; 256],
) -> Result<(), PlaceRefusal>
    requires none { AreNone counts.old }
    requires small { range.now.first + range.now.pages < 2 ^ 64 }
    ensures counts { OnOk result ((node : ℕ) → node < 256 → slice_index counts.new node
        ≡ planned_pages asked.entry.plan.now (spots_in asked.entry.placed)
        asked.entry.touch.task range.now.first range.now.pages asked.entry.touch.cpu node) }
    ensures err { IfErr result (RefusesSpan asked.entry.plan.now range.now.first
        range.now.pages asked.entry.touch.cpu) }
{
    match asked.placed {
        Some(_) => count_placed(asked, range, counts),
        None => count_range(asked.plan, asked.touch, range, counts),
    }
}
