//! The runs of a plan, in ascending order. Their chunks are private here: callers get references to
//! runs, whose first pages are read only by calls that count.
ghost use Rattle.std.specs.Prelude.{◌≡◌, ℕ, ◌+◌, ◌/◌, ◌<◌, ◌≤◌, ◌^◌, [], ◌∷◌, ◌++◌, length};
ghost use Rattle.std.specs.Prelude.{slice_index_or, Option, slice_get, IfOk, OnOk, OnErr};
ghost use Rattle.std.specs.List.{slice_range, splice};
ghost use Rattle.numa_ranges.specs.Runs.{AreApart};
ghost use Rattle.numa_ranges.specs.declared.run.Run.{Run};
ghost use Rattle.numa_rows.specs.Searches.{HasRow, IsChunkOf};
ghost use Rattle.numa_plan.specs.Counted.{one_run, more_runs};

use crate::guess::chunk_of;
use crate::looks::RunInPlace;
use crate::steps::Steps;
use numa_machine::NoMemory;
use numa_ranges::Run;
use numa_rows::{Part, SharedRows};
use std::alloc::{AllocError, Global};
use std::marker::Model;

/// What a run says of a page: its index, the number of pages of the run from it on, and the number
/// of its rule (`None`: the task's rule).
#[derive(Clone, Copy)]
pub(crate) struct Found {
    pub(crate) index: u64,
    pub(crate) left: u64,
    pub(crate) rule: Option<u32>,
}

/// A span's window: its first place, the one after its last, and a guess at its chunk.
#[derive(Clone, Copy)]
pub(crate) struct Beside {
    pub(crate) from: usize,
    pub(crate) to: usize,
    pub(crate) near: usize,
}

/// Disjoint runs of pages in ascending order, each with the number of its rule or none, in chunks
/// that copies share.
#[derive(Drop)]
pub(crate) struct PlanRuns {
    items: SharedRows<Run<Option<u32>>>,
}

impl Model for PlanRuns {
    ghost use Rattle.std.specs.Prelude.{List, ℕ, Option};
    ghost use Rattle.numa_ranges.specs.declared.run.Run.{Run};
    ghost use Rattle.numa_ranges.specs.Runs.{AreApart};

    ghost Value = { List (Run (Option ℕ)) };

    ghost view = { λ a. a.items };

    ghost invariant = { λ a. AreApart 0 a.items };
}

impl PlanRuns {
    /// No runs.
    pub(crate) fn new(alloc: Global) -> PlanRuns
        ensures { result ≡ [] }
    {
        PlanRuns {
            items: SharedRows::new(alloc),
        }
    }

    /// Returns a copy, which shares the chunks.
    pub(crate) fn copy(&self) -> Result<PlanRuns, AllocError>
        ensures { IfOk result (λ copy. copy ≡ self.now) }
    {
        let items = self.items.copy()?;
        Ok(PlanRuns { items })
    }

    /// The number of runs and of chunks.
    #[inline(always)]
    pub(crate) fn sizes(&self) -> (usize, usize)
        ensures count { result.0 ≡ length self.now }
        ensures bound { result.0 < 2 ^ 32 }
        ensures chunks { result.1 ≤ 1 + length self.now / 64 }
        ensures apart { AreApart 0 self.now }
    {
        (self.items.len(), self.items.chunk_count())
    }

    /// The number of runs.
    #[inline(always)]
    pub(crate) fn len(&self) -> usize
        ensures count { result ≡ length self.now }
        ensures bound { result < 2 ^ 32 }
        ensures apart { AreApart 0 self.now }
    {
        self.sizes().0
    }

    /// An empty part, where a search begins.
    #[inline(always)]
    pub(crate) fn no_part(&self) -> Part<'_, Run<Option<u32>>>
        ensures { IsChunkOf self.now result }
    {
        self.items.no_part()
    }

    /// The part if it has the run at a place, else the chunk that has it. The search starts at a
    /// guess.
    #[inline(always)]
    pub(crate) fn part_with<'a>(
        &'a self,
        part: Part<'a, Run<Option<u32>>>,
        place: usize,
        guess: usize,
    ) -> Part<'a, Run<Option<u32>>>
        requires place { place < length self.now }
        requires part { IsChunkOf self.now part }
        ensures part { IsChunkOf self.now result }
        ensures has { HasRow result place }
    {
        self.items.part_with(part, place, guess)
    }

    /// The run at a place, which the part has.
    #[inline(always)]
    pub(crate) fn run_in<'a>(
        &'a self,
        part: &Part<'a, Run<Option<u32>>>,
        place: usize,
    ) -> RunInPlace<'a>
        requires part { IsChunkOf self.now part.now }
        requires has { HasRow part.now place }
        ensures { (d : Run (Option ℕ)) → result ≡ slice_index_or self.now place d }
    {
        RunInPlace::of(self.items.row_in(part, place))
    }

    /// The run at a place, in a part of the runs or found from it on.
    #[inline(always)]
    pub(crate) fn run_beside<'a>(
        &'a self,
        part: Part<'a, Run<Option<u32>>>,
        place: usize,
    ) -> RunInPlace<'a>
        requires place { place < length self.now }
        requires part { IsChunkOf self.now part }
        ensures { (d : Run (Option ℕ)) → result ≡ slice_index_or self.now place d }
    {
        let near = part.chunk();
        let part = self.part_with(part, place, near);
        self.run_in(&part, place)
    }

    /// The run at a place. The search starts at `chunk`, which is the run's own afterwards.
    #[inline(always)]
    pub(crate) fn run_near(&self, place: usize, chunk: &mut usize) -> RunInPlace<'_>
        requires { place < length self.now }
        ensures { (d : Run (Option ℕ)) → result ≡ slice_index_or self.now place d }
    {
        RunInPlace::of(self.items.get_near(place, chunk))
    }

    /// The run at a place, whole.
    pub(crate) fn at(&self, place: usize, steps: &mut Steps) -> Option<Run<Option<u32>>>
        ensures { result ≡ slice_get self.now place }
    {
        let (runs, chunks) = self.sizes();
        if place < runs {
            let mut chunk = chunk_of(place, chunks, runs);
            Some(self.run_near(place, &mut chunk).whole(steps))
        } else {
            None
        }
    }

    /// The runs of a window, in a new vector.
    pub(crate) fn gathered(
        &self,
        alloc: Global,
        window: Beside,
        steps: &mut Steps,
    ) -> Result<Vec<Run<Option<u32>>>, AllocError>
        requires rises { window.from ≤ window.to }
        requires within { window.to ≤ length self.now }
        ensures { IfOk result (λ runs.
            runs.items ≡ slice_range self.now window.from window.to) }
    {
        let Beside { from, to, near } = window;
        let mut runs = Vec::with_capacity(alloc, to - from)?;
        let mut part = self.no_part();
        let mut chunk = near;
        for place in from..to {
            part = self.part_with(part, place, chunk);
            chunk = part.chunk();
            runs.push(self.run_in(&part, place).whole(steps))?;
        }
        Ok(runs)
    }

    /// Appends a run.
    pub(crate) fn push(&mut self, run: Run<Option<u32>>, steps: &mut Steps) -> Result<(), NoMemory>
        requires { AreApart 0 (self.old ++ run ∷ []) }
        ensures ok { OnOk result ((self.new ≡ self.old ++ run ∷ [])
            × (steps.new ≡ one_run steps.old)) }
        ensures err { OnErr result ((self.new ≡ self.old) × (steps.new ≡ steps.old)) }
    {
        let Run {
            first,
            pages,
            index,
            value,
        } = run;
        self.items.push(Run {
            first,
            pages,
            index,
            value,
        })?;
        steps.run_written();
        Ok(())
    }

    /// Replaces the runs of a window.
    pub(crate) fn splice(
        &mut self,
        window: Beside,
        runs: &[Run<Option<u32>>],
        steps: &mut Steps,
    ) -> Result<(), NoMemory>
        requires rises { window.from ≤ window.to }
        requires within { window.to ≤ length self.old }
        requires apart { AreApart 0 (splice self.old window.from window.to runs.now) }
        ensures ok { OnOk result ((self.new ≡ splice self.old window.from window.to runs.now)
            × (steps.new ≡ more_runs (length runs.now) steps.old)) }
        ensures err { OnErr result ((self.new ≡ self.old) × (steps.new ≡ steps.old)) }
    {
        let Beside { from, to, near } = window;
        self.items.splice_near(from, to, runs, near)?;
        steps.runs_written(runs.len());
        Ok(())
    }
}
