//! Counts by node.
ghost use Rattle.std.specs.Prelude.{◌≤◌, length, slice_index, sum, IfErr, OnOk};
ghost use Rattle.numa_plan.specs.Meaning.{CountsFirsts, RefusesSpan};
ghost use Rattle.numa_plan.specs.Tally.{Adds, HasRoom};
ghost use Rattle.numa_reports.specs.Predicted.{AreNone};

use numa_lanes::tally;
use numa_machine::PlaceRefusal;
use numa_plan::Plan;
use numa_ranges::Run;
use numa_sheets::Touch;
use numa_space::RangeRecord;

/// The most pages that are looked at one by one; more are counted together.
const FEW: usize = 64;

/// Counts the first pages of a range by node, as many as the list has places.
fn count_filled(
    plan: &Plan,
    touch: Touch,
    range: &Run<RangeRecord>,
    nodes: &mut [u8],
    counts: &mut [u64; 256],
) -> Result<(), PlaceRefusal>
    requires few { length nodes.old ≤ 64 }
    requires none { AreNone counts.old }
    ensures ok { OnOk result (CountsFirsts plan.now touch.task range.now.first
        (length nodes.old) touch.cpu counts.new) }
    ensures err { IfErr result
        (RefusesSpan plan.now range.now.first (length nodes.old) touch.cpu) }
{
    plan.fill(touch.task, range.first, touch.cpu, nodes)?;
    tally(nodes, counts);
    Ok(())
}

/// Counts the pages of a range by node, run by run. (Apart from what counts a few, for which the
/// counts that this makes needn't be zeroed.)
#[inline(never)]
fn count_many(
    plan: &Plan,
    touch: Touch,
    range: &Run<RangeRecord>,
    counts: &mut [u64; 256],
) -> Result<(), PlaceRefusal>
    ensures ok { OnOk result (CountsFirsts plan.now touch.task range.now.first
        range.now.pages touch.cpu counts.new) }
    ensures err { IfErr result
        (RefusesSpan plan.now range.now.first range.now.pages touch.cpu) }
{
    *counts = plan.counts(touch.task, range.first, range.pages, touch.cpu)?;
    Ok(())
}

/// Counts the pages of a range by node.
pub(crate) fn count_range(
    plan: &Plan,
    touch: Touch,
    range: &Run<RangeRecord>,
    counts: &mut [u64; 256],
) -> Result<(), PlaceRefusal>
    requires { AreNone counts.old }
    ensures ok { OnOk result (CountsFirsts plan.now touch.task range.now.first
        range.now.pages touch.cpu counts.new) }
    ensures err { IfErr result
        (RefusesSpan plan.now range.now.first range.now.pages touch.cpu) }
{
    let pages = range.pages;
    if pages <= FEW as u64 {
        let mut nodes = [0u8; FEW];
        return count_filled(plan, touch, range, &mut nodes[..pages as usize], counts);
    }
    count_many(plan, touch, range, counts)
}

/// Moves counts that sum to `pages` to the total, from the lowest node on, so that none remains.
pub(crate) fn move_counts(counts: &mut [u64; 256], pages: u64, all: &mut [u64; 256])
    requires few { sum counts.old ≤ pages }
    requires room { HasRoom all.old (λ node. slice_index counts.old node) }
    ensures moved { Adds all.old all.new (λ node. slice_index counts.old node) }
    ensures none { AreNone counts.new }
{
    let mut left = pages;
    let mut node = 0;
    while left > 0 && node < 256 {
        let count = counts[node];
        all[node] += count;
        counts[node] = 0;
        left -= count;
        node += 1;
    }
}
