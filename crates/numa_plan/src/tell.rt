//! What the runs of a plan say of any page, also of one that lies between them.
ghost use Rattle.std.specs.Prelude.{◌≡◌, ℕ, ◌+◌, ◌<◌, ◌≤◌, length, slice_index_or, None, Option};
ghost use Rattle.std.specs.Prelude.{IfOk, IfErr, IfSome};
ghost use Rattle.numa_ranges.specs.Runs.{page_at};
ghost use Rattle.numa_ranges.specs.declared.run.Run.{Run};
ghost use Rattle.numa_rows.specs.Searches.{HasRow, IsChunkOf};
ghost use Rattle.numa_plan.specs.Found.{IsAt, Tells};

use crate::guess::chunk_of;
use crate::runs::{Found, PlanRuns};
use crate::search::Walk;
use crate::spread::Spread;
use crate::steps::Steps;
use std::mem::replace;

impl PlanRuns {
    /// The spread of the runs, from the first to the last.
    pub(crate) fn spread(&self, steps: &mut Steps) -> Spread {
        let (runs, chunks) = self.sizes();
        if runs == 0 {
            return Spread::none();
        }
        let mut chunk = chunks;
        let end = self.run_near(runs - 1, &mut chunk);
        let start = self.run_near(0, &mut 0);
        start.spread_to(&end, runs - 1, steps)
    }

    /// What the runs say of a page that may be anywhere. Where none has it, the answer is `Err`, of
    /// how many pages from it on that is so. A page of the next run of the walk, or between that
    /// and the run before it, costs no search.
    #[inline(always)]
    pub(crate) fn tell<'a>(
        &'a self,
        page: u64,
        spread: Spread,
        walk: &mut Walk<'a>,
        steps: &mut Steps,
    ) -> Result<Found, u64>
        requires part { IsChunkOf self.now walk.old.part }
        ensures part { IsChunkOf self.now walk.new.part }
        ensures found { IfOk result (λ found. IsAt self.now page found) }
        ensures some { IfErr result (λ count. 0 < count) }
        ensures hole { IfErr result (λ count. (q : ℕ) → q < count
            → page_at self.now (page + q) ≡ None) }
    {
        if let Some(told) = self.told_ahead(page, walk, steps) {
            return told;
        }
        self.told_apart(page, spread, walk, steps)
    }

    /// The same, if the next run of the walk has the page, or the page lies before that run and not
    /// before the one before it.
    #[inline(always)]
    fn told_ahead<'a>(
        &'a self,
        page: u64,
        walk: &mut Walk<'a>,
        steps: &mut Steps,
    ) -> Option<Result<Found, u64>>
        requires part { IsChunkOf self.now walk.old.part }
        ensures part { IsChunkOf self.now walk.new.part }
        ensures told { IfSome result (Tells self.now page) }
    {
        let place = walk.place;
        if place >= self.len() {
            return None;
        }
        self.hold(place, walk);
        let run = self.run_in(&walk.part, place);
        let Some(far) = run.far_behind(page, steps) else {
            let ahead = run.far_before(page, steps);
            return self.told_before(page, place, ahead, walk, steps);
        };
        let found = run.found(far)?;
        walk.place = place + 1;
        Some(Ok(found))
    }

    /// The same of a page that lies so many pages ahead of the run at a place, if it doesn't lie
    /// before the one before that.
    #[inline(always)]
    fn told_before<'a>(
        &'a self,
        page: u64,
        place: usize,
        ahead: u64,
        walk: &mut Walk<'a>,
        steps: &mut Steps,
    ) -> Option<Result<Found, u64>>
        requires place { place < length self.now }
        requires some { 0 < ahead }
        requires ahead { (d : Run (Option ℕ))
            → page + ahead ≡ (slice_index_or self.now place d).first }
        requires part { IsChunkOf self.now walk.old.part }
        ensures part { IsChunkOf self.now walk.new.part }
        ensures told { IfSome result (Tells self.now page) }
    {
        // Tells the proof that runs are apart.
        let _ = self.len();
        if place == 0 {
            return Some(Err(ahead));
        }
        self.hold(place - 1, walk);
        let run = self.run_in(&walk.part, place - 1);
        let far = run.far_behind(page, steps)?;
        match run.found(far) {
            Some(found) => Some(Ok(found)),
            None => Some(Err(ahead)),
        }
    }

    /// The same of any page, by a search that begins with guesses.
    #[inline]
    fn told_apart<'a>(
        &'a self,
        page: u64,
        spread: Spread,
        walk: &mut Walk<'a>,
        steps: &mut Steps,
    ) -> Result<Found, u64>
        requires part { IsChunkOf self.now walk.old.part }
        ensures part { IsChunkOf self.now walk.new.part }
        ensures told { Tells self.now page result }
    {
        let mut spread = spread;
        let mut low = 0usize;
        let mut high = self.len();
        let mut ahead = u64::MAX;
        while low < high {
            let middle = spread.middle(low, high, page);
            self.hold_apart(middle, walk);
            let run = self.run_in(&walk.part, middle);
            match run.far_behind(page, steps) {
                Some(far) => {
                    if let Some(found) = run.found(far) {
                        walk.place = middle + 1;
                        return Ok(found);
                    }
                    low = middle + 1;
                    spread = run.narrow(spread, middle, page, steps);
                }
                None => {
                    high = middle;
                    ahead = run.far_before(page, steps);
                    spread = run.narrow(spread, middle, page, steps);
                }
            }
        }
        walk.place = low;
        Err(ahead)
    }

    /// Has a walk hold the run at a place, which may be far from those that it holds.
    #[inline(always)]
    fn hold_apart<'a>(&'a self, place: usize, walk: &mut Walk<'a>)
        requires place { place < length self.now }
        requires part { IsChunkOf self.now walk.old.part }
        ensures part { IsChunkOf self.now walk.new.part }
        ensures has { HasRow walk.new.part place }
    {
        let (runs, chunks) = self.sizes();
        let part = replace(&mut walk.part, self.no_part());
        walk.part = self.part_with(part, place, chunk_of(place, chunks, runs));
    }
}
