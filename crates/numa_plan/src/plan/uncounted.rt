//! Looks at runs whose comparisons nobody asks for. Each is counted here, on a counter that is let
//! go. Of a plan's calls none that promises a bound makes one of them: `choice`,
//! `choice_by_interpolation`, `number_at` and `window` search with the counter of their caller.
ghost use Rattle.std.specs.Prelude.{◌≡◌, ◌≤◌, ◌<◌, ◌∷◌, ◌++◌, length, slice_get, Some, IfOk, IfErr};
ghost use Rattle.std.specs.Prelude.{OnErr, ℕ, ◌+◌, None};
ghost use Rattle.std.specs.Bool.{OnTrue, OnFalse};
ghost use Rattle.std.specs.List.{slice_range, splice};
ghost use Rattle.numa_ranges.specs.Runs.{AreApart, page_at};
ghost use Rattle.numa_ranges.specs.Windows.{IsWindow};
ghost use Rattle.numa_rows.specs.Searches.{IsChunkOf};
ghost use Rattle.numa_plan.specs.Counted.{more_runs};
ghost use Rattle.numa_plan.specs.Found.{IsAt, IsFound, IsMapped, HasHole};
ghost use Rattle.numa_plan.specs.Meaning.{place_refusal, planned_list};

use crate::plan::Plan;
use crate::runs::{Beside, Found, PlanRuns};
use crate::search::{Seen, Walk};
use crate::spread::Spread;
use crate::steps::Steps;
use numa_machine::{NoMemory, PlaceRefusal};
use numa_ranges::Run;
use std::alloc::Global;

impl Plan {
    /// The fallback list of a page, for a task and a fault on node `cpu`: from 1 to 256 nodes, in
    /// the order in which memory is looked for on them. The plan lends it. It is the list of
    /// [`Plan::choice`], without the counter of comparisons.
    ///
    /// # Errors
    /// `BadCpu`: the plan has no node `cpu`; else `Unmapped`: no run has the page.
    ///
    /// # Examples
    /// Prints the first node of each page for task 1 on node 0:
    ///
    /// ```
    /// for page in 0x10..0x14u64 {
    ///     match plan.fallback_list(1, page, 0) {
    ///         Ok(nodes) => println!(rt; "page {page}: node {}", nodes[0])?,
    ///         Err(_) => println!(rt; "page {page}: not mapped")?,
    ///     }
    /// }
    /// ```
    #[inline(always)]
    pub fn fallback_list(&self, task: u32, page: u64, cpu: u32) -> Result<&[u8], PlaceRefusal>
        ensures ok { IfOk result (λ row. (cpu < self.now.nodes)
            × (planned_list self.now task page cpu ≡ Some row.now)) }
        ensures sized { IfOk result (λ row. (0 < length row.now) × (length row.now ≤ 256)) }
        ensures err { IfErr result (λ refusal. place_refusal self.now page cpu ≡ Some refusal) }
    {
        self.choice_by_interpolation(task, page, cpu, &mut Steps::new())
    }
}

/// `PlanRuns::walk_from`.
pub(super) fn walk_from(runs: &PlanRuns, page: u64) -> Seen {
    runs.walk_from(page, &mut Steps::new())
}

/// `PlanRuns::walk`.
#[inline(always)]
pub(super) fn walk_on(runs: &PlanRuns, start: Seen) -> Walk<'_>
    ensures part { IsChunkOf runs.now result.part }
{
    runs.walk(start)
}

/// `PlanRuns::covers`.
pub(super) fn covers(runs: &PlanRuns, first: u64, pages: u64, start: Seen) -> bool
    ensures all { OnTrue result (IsMapped runs.now first pages) }
    ensures hole { OnFalse result (HasHole runs.now first pages) }
{
    runs.covers(first, pages, start, &mut Steps::new())
}

/// `PlanRuns::find_next`.
#[inline(always)]
pub(super) fn found_next<'a>(runs: &'a PlanRuns, page: u64, walk: &mut Walk<'a>) -> Option<Found>
    requires part { IsChunkOf runs.now walk.old.part }
    ensures part { IsChunkOf runs.now walk.new.part }
    ensures found { IsFound runs.now page result }
{
    runs.find_next(page, walk, &mut Steps::new())
}

/// `PlanRuns::spread`.
#[inline(always)]
pub(super) fn spread_of(runs: &PlanRuns) -> Spread {
    runs.spread(&mut Steps::new())
}

/// `PlanRuns::tell`.
#[inline(always)]
pub(super) fn told<'a>(
    runs: &'a PlanRuns,
    page: u64,
    spread: Spread,
    walk: &mut Walk<'a>,
) -> Result<Found, u64>
    requires part { IsChunkOf runs.now walk.old.part }
    ensures part { IsChunkOf runs.now walk.new.part }
    ensures found { IfOk result (λ found. IsAt runs.now page found) }
    ensures some { IfErr result (λ count. 0 < count) }
    ensures hole { IfErr result (λ count. (q : ℕ) → q < count
        → page_at runs.now (page + q) ≡ None) }
{
    runs.tell(page, spread, walk, &mut Steps::new())
}

/// `PlanRuns::find_near`.
pub(super) fn found_near(runs: &PlanRuns, page: u64, place: usize, near: usize) -> Option<Found>
    ensures found { IsFound runs.now page result }
{
    runs.find_near(page, place, near, &mut Steps::new())
}

/// `PlanRuns::window_near`.
pub(super) fn window_near(runs: &PlanRuns, first: u64, end: u64, guess: usize) -> Beside
    ensures { first ≤ end → IsWindow runs.now first end result.from result.to }
{
    runs.window_near(first, end, guess, &mut Steps::new())
}

/// `PlanRuns::at`.
pub(super) fn run_at(runs: &PlanRuns, place: usize) -> Option<Run<Option<u32>>>
    ensures { result ≡ slice_get runs.now place }
{
    runs.at(place, &mut Steps::new())
}

/// `PlanRuns::splice`, which also returns the runs that it replaces; `steps` counts those that it
/// writes.
pub(super) fn spliced(
    runs: &mut PlanRuns,
    alloc: Global,
    window: Beside,
    written: &[Run<Option<u32>>],
    steps: &mut Steps,
) -> Result<Vec<Run<Option<u32>>>, NoMemory>
    requires rises { window.from ≤ window.to }
    requires within { window.to ≤ length runs.old }
    requires apart { AreApart 0 (splice runs.old window.from window.to written.now) }
    ensures ok { IfOk result (λ gone. (gone.items ≡ slice_range runs.old window.from window.to)
        × (runs.new ≡ splice runs.old window.from window.to written.now)
        × (steps.new ≡ more_runs (length written.now) steps.old)) }
    ensures err { OnErr result ((runs.new ≡ runs.old) × (steps.new ≡ steps.old)) }
{
    let gone = runs.gathered(alloc, window, &mut Steps::new())?;
    runs.splice(window, written, steps)?;
    Ok(gone)
}
