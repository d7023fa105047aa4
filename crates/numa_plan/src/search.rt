//! Searches among the runs of a plan, and looks that can save one. Each counts its comparisons on
//! the given counter.
ghost use Rattle.std.specs.Prelude.{◌≡◌, ℕ, ◌+◌, ◌-◌, ◌/◌, ◌<◌, ◌≤◌, length, slice_index_or};
ghost use Rattle.std.specs.Prelude.{MatchOption, Option, IfSome};
ghost use Rattle.std.specs.Bool.{OnTrue, OnFalse};
ghost use Rattle.std.specs.List.{AllWithin};
ghost use Rattle.numa_ranges.specs.Runs.{AreApart, end_of};
ghost use Rattle.numa_ranges.specs.Windows.{IsWindow};
ghost use Rattle.numa_ranges.specs.declared.run.Run.{Run};
ghost use Rattle.numa_rows.specs.Searches.{HasRow, IsChunkOf};
ghost use Rattle.numa_plan.specs.Counted.{FindsByInterpolation, FindsQuickly, FindsTwice};
ghost use Rattle.numa_plan.specs.Counted.{LooksAtMost};
ghost use Rattle.numa_plan.specs.Found.{IsAt, IsFound, IsPartOf, IsMapped, IsSplit, HasHole};

use crate::guess::{LOOKED_AT, chunk_of, start_before};
use crate::runs::{Beside, Found, PlanRuns};
use crate::steps::Steps;
use numa_ranges::Run;
use numa_rows::Part;
use std::mem::replace;

/// Where a walk along the pages begins: the place of its first run, and a guess at the run's chunk.
/// Only speed depends on it.
#[derive(Clone, Copy)]
pub(crate) struct Seen {
    place: usize,
    chunk: usize,
}

/// A walk along the pages: the place of the next run, and the runs that were read last, so that the
/// next is mostly among them. Only speed depends on it.
#[derive(Drop)]
pub(crate) struct Walk<'a> {
    pub(crate) place: usize,
    pub(crate) part: Part<'a, Run<Option<u32>>>,
}

/// The middle of the places where a search goes on: at most half of them are on each side.
#[inline(always)]
pub(crate) fn middle_of(low: usize, high: usize) -> usize
    requires { low < high }
    ensures low { low ≤ result }
    ensures high { result < high }
    ensures left { result - low ≤ (high - low) / 2 }
    ensures right { high - (result + 1) ≤ (high - low) / 2 }
{
    low + (high - low) / 2
}

/// The window found from a place on, if a run before it was seen or there is none.
#[inline]
fn seen_window(start: usize, from: usize, to: usize, near: usize) -> Option<Beside>
    ensures from { IfSome result (λ found. found.from ≡ from) }
    ensures to { IfSome result (λ found. found.to ≡ to) }
    ensures seen { IfSome result (λ found. from ≡ start → start ≡ 0) }
{
    if from == start && start > 0 {
        return None;
    }
    Some(Beside { from, to, near })
}

impl PlanRuns {
    /// The place after the last run that begins at a page or before it, the page's distance from
    /// the first page of that run, and the runs among which the search ended.
    #[inline]
    fn split(&self, page: u64, steps: &mut Steps) -> (usize, u64, Part<'_, Run<Option<u32>>>)
        ensures split { IsSplit self.now page result.0 result.1 }
        ensures part { IsChunkOf self.now result.2 }
        ensures apart { AreApart 0 self.now }
        ensures quick { FindsQuickly steps.old steps.new (length self.now) }
    {
        let (runs, chunks) = self.sizes();
        let mut part = self.no_part();
        let mut low = 0usize;
        let mut high = runs;
        let mut far = 0u64;
        let mut below = 0usize;
        let mut above = chunks;
        while low < high {
            let middle = middle_of(low, high);
            part = self.part_with(part, middle, below.wrapping_add(above) / 2);
            let run = self.run_in(&part, middle);
            let chunk = part.chunk();
            match run.far_behind(page, steps) {
                Some(distance) => {
                    far = distance;
                    low = middle + 1;
                    below = chunk;
                }
                None => {
                    high = middle;
                    above = chunk;
                }
            }
        }
        (low, far, part)
    }

    /// What the run at a place says of the page at a distance from its first page. The search for
    /// the run starts at a part of the runs.
    #[inline]
    fn found_at<'a>(
        &'a self,
        place: usize,
        far: u64,
        part: Part<'a, Run<Option<u32>>>,
    ) -> Option<Found>
        requires apart { AreApart 0 self.now }
        requires place { place < length self.now }
        requires part { IsChunkOf self.now part }
        ensures { (d : Run (Option ℕ)) →
            MatchOption result ((slice_index_or self.now place d).pages ≤ far)
            (λ found. IsPartOf (slice_index_or self.now place d) far found) }
    {
        self.run_beside(part, place).found(far)
    }

    /// What the runs say of a page.
    pub(crate) fn find(&self, page: u64, steps: &mut Steps) -> Option<Found>
        ensures found { IsFound self.now page result }
        ensures quick { FindsQuickly steps.old steps.new (length self.now) }
    {
        self.find_first(page, steps).0
    }

    /// What the runs say of a page, with a look at the run that has it if all runs are spread
    /// evenly, before a search.
    #[inline(always)]
    pub(crate) fn find_by_interpolation(&self, page: u64, steps: &mut Steps) -> Option<Found>
        ensures found { IsFound self.now page result }
        ensures quick { FindsByInterpolation steps.old steps.new (length self.now) }
    {
        let start = self.interpolated(page, steps);
        let mut walk = self.walk(start);
        if let Some(found) = self.found_ahead(page, &mut walk, steps) {
            return Some(found);
        }
        self.find(page, steps)
    }

    /// The beginning of a walk at the run that has a page if all runs are spread evenly.
    #[inline(always)]
    fn interpolated(&self, page: u64, steps: &mut Steps) -> Seen
        ensures few { LooksAtMost 2 steps.old steps.new }
    {
        let (runs, chunks) = self.sizes();
        if runs == 0 {
            return PlanRuns::seen();
        }
        let mut chunk = chunks;
        let end = self.run_near(runs - 1, &mut chunk);
        let start = self.run_near(0, &mut 0);
        let place = start.place_before(&end, runs - 1, page, steps);
        Seen {
            place,
            chunk: chunk_of(place, chunks, runs),
        }
    }

    /// The beginning of a walk along the pages.
    pub(crate) fn seen() -> Seen {
        Seen {
            place: usize::MAX,
            chunk: 0,
        }
    }

    /// The beginning of a walk that finds the run of this page, if there is one, without a search.
    pub(crate) fn walk_from(&self, page: u64, steps: &mut Steps) -> Seen {
        let at = self.split(page, steps);
        Seen {
            place: at.0.saturating_sub(1),
            chunk: at.2.chunk(),
        }
    }

    /// A walk that begins there.
    #[inline(always)]
    pub(crate) fn walk(&self, start: Seen) -> Walk<'_>
        ensures part { IsChunkOf self.now result.part }
    {
        let Seen { place, chunk } = start;
        let none = self.no_part();
        if place >= self.len() {
            return Walk { place, part: none };
        }
        let part = self.part_with(none, place, chunk);
        Walk { place, part }
    }

    /// Has a walk hold the run at a place.
    #[inline(always)]
    pub(crate) fn hold<'a>(&'a self, place: usize, walk: &mut Walk<'a>)
        requires place { place < length self.now }
        requires part { IsChunkOf self.now walk.old.part }
        ensures part { IsChunkOf self.now walk.new.part }
        ensures has { HasRow walk.new.part place }
    {
        let part = replace(&mut walk.part, self.no_part());
        let near = part.chunk();
        walk.part = self.part_with(part, place, near);
    }

    /// What the runs say of a page on a walk. It looks at the next run first, and searches if that
    /// doesn't have the page.
    #[inline(always)]
    pub(crate) fn find_next<'a>(
        &'a self,
        page: u64,
        walk: &mut Walk<'a>,
        steps: &mut Steps,
    ) -> Option<Found>
        requires part { IsChunkOf self.now walk.old.part }
        ensures part { IsChunkOf self.now walk.new.part }
        ensures found { IsFound self.now page result }
    {
        if let Some(found) = self.found_ahead(page, walk, steps) {
            return Some(found);
        }
        let at = self.find_first(page, steps);
        *walk = at.1;
        at.0
    }

    /// What the next run says of a page; `None` if it doesn't have the page.
    #[inline(always)]
    fn found_ahead<'a>(&'a self, page: u64, walk: &mut Walk<'a>, steps: &mut Steps) -> Option<Found>
        requires part { IsChunkOf self.now walk.old.part }
        ensures part { IsChunkOf self.now walk.new.part }
        ensures found { IfSome result (λ found. IsAt self.now page found) }
        ensures few { LooksAtMost 1 steps.old steps.new }
    {
        let place = walk.place;
        if place >= self.len() {
            return None;
        }
        self.hold(place, walk);
        let run = self.run_in(&walk.part, place);
        let far = run.far_behind(page, steps)?;
        let found = run.found(far)?;
        walk.place = place + 1;
        Some(found)
    }

    /// What the runs say of a page, by a search, and a walk on from there.
    fn find_first(&self, page: u64, steps: &mut Steps) -> (Option<Found>, Walk<'_>)
        ensures found { IsFound self.now page result.0 }
        ensures part { IsChunkOf self.now result.1.part }
        ensures quick { FindsQuickly steps.old steps.new (length self.now) }
    {
        let at = self.split(page, steps);
        let mut walk = Walk {
            place: at.0,
            part: at.2,
        };
        if at.0 == 0 {
            return (None, walk);
        }
        let found = self.found_on(at.0 - 1, at.1, &mut walk);
        (found, walk)
    }

    /// What the run at a place says of the page at a distance from its first page. The walk then
    /// holds that run.
    #[inline]
    pub(crate) fn found_on<'a>(
        &'a self,
        place: usize,
        far: u64,
        walk: &mut Walk<'a>,
    ) -> Option<Found>
        requires apart { AreApart 0 self.now }
        requires place { place < length self.now }
        requires part { IsChunkOf self.now walk.old.part }
        ensures part { IsChunkOf self.now walk.new.part }
        ensures found { (d : Run (Option ℕ)) →
            MatchOption result ((slice_index_or self.now place d).pages ≤ far)
            (λ found. IsPartOf (slice_index_or self.now place d) far found) }
    {
        self.hold(place, walk);
        self.run_in(&walk.part, place).found(far)
    }

    /// The number of runs that begin at a page or before it.
    fn count_begun(&self, page: u64, steps: &mut Steps) -> usize
        ensures within { result ≤ length self.now }
        ensures begun { AllWithin (λ run. run.first ≤ page) self.now 0 result }
        ensures behind { AllWithin (λ run. page < run.first) self.now result (length self.now) }
        ensures quick { FindsQuickly steps.old steps.new (length self.now) }
    {
        self.split(page, steps).0
    }

    /// The number of runs that end before a page.
    fn count_ended(&self, page: u64, steps: &mut Steps) -> usize
        ensures within { result ≤ length self.now }
        ensures ended { AllWithin (λ run. end_of run < page) self.now 0 result }
        ensures reach { AllWithin (λ run. page ≤ end_of run) self.now result (length self.now) }
        ensures quick { FindsQuickly steps.old steps.new (length self.now) }
    {
        if page == 0 {
            return 0;
        }
        let at = self.split(page - 1, steps);
        if at.0 == 0 {
            return 0;
        }
        match self.found_at(at.0 - 1, at.1, at.2) {
            Some(_) => at.0 - 1,
            None => at.0,
        }
    }

    /// The places of the runs that end at `first` or later and begin at `end` or earlier: the first
    /// place, and the one after the last.
    pub(crate) fn window(&self, first: u64, end: u64, steps: &mut Steps) -> (usize, usize)
        ensures window { first ≤ end → IsWindow self.now first end result.0 result.1 }
        ensures quick { FindsTwice steps.old steps.new (length self.now) }
    {
        let from = self.count_ended(first, steps);
        let to = self.count_begun(end, steps);
        (from, to)
    }

    /// The same places, with a look near a guess at the first of them before a search.
    pub(crate) fn window_near(
        &self,
        first: u64,
        end: u64,
        guess: usize,
        steps: &mut Steps,
    ) -> Beside
        ensures { first ≤ end → IsWindow self.now first end result.from result.to }
    {
        let (runs, chunks) = self.sizes();
        let start = start_before(guess, runs);
        let chunk = chunk_of(start, chunks, runs);
        if let Some(found) = self.window_from(first, end, start, chunk, steps) {
            return found;
        }
        let (from, to) = self.window(first, end, steps);
        Beside {
            from,
            to,
            near: chunk,
        }
    }

    /// The window of a span, looked for from a place in or near a chunk; `None` if it begins before
    /// that place, or ends many runs after it.
    fn window_from(
        &self,
        first: u64,
        end: u64,
        start: usize,
        guess: usize,
        steps: &mut Steps,
    ) -> Option<Beside>
        requires { start ≤ length self.now }
        ensures { first ≤ end → IfSome result (λ found. IsWindow self.now first end found.from
            found.to) }
    {
        let mut part = self.no_part();
        let mut chunk = guess;
        let mut from = start;
        let mut to = start;
        while to < self.len() {
            part = self.part_with(part, to, chunk);
            chunk = part.chunk();
            let run = self.run_in(&part, to);
            if run.begins_behind(end, steps) {
                return seen_window(start, from, to, chunk);
            }
            to += 1;
            if to - start > LOOKED_AT {
                return None;
            }
            from = run.behind_ended(first, from, to, steps);
        }
        seen_window(start, from, to, chunk)
    }

    /// What the runs say of a page, with a look at the run at a place, in or near a chunk, before a
    /// search.
    pub(crate) fn find_near(
        &self,
        page: u64,
        place: usize,
        near: usize,
        steps: &mut Steps,
    ) -> Option<Found>
        ensures found { IsFound self.now page result }
    {
        let mut walk = self.walk(Seen { place, chunk: near });
        self.find_next(page, &mut walk, steps)
    }

    /// Whether each page of the span is mapped, by a walk that begins at `start`.
    pub(crate) fn covers(&self, first: u64, pages: u64, start: Seen, steps: &mut Steps) -> bool
        ensures all { OnTrue result (IsMapped self.now first pages) }
        ensures hole { OnFalse result (HasHole self.now first pages) }
    {
        let mut walk = self.walk(start);
        let mut page = first;
        let mut todo = pages;
        while todo > 0 {
            let Some(found) = self.find_next(page, &mut walk, steps) else {
                return false;
            };
            if todo <= found.left {
                return true;
            }
            page += found.left;
            todo -= found.left;
        }
        true
    }
}
