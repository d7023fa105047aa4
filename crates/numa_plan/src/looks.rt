//! A reference to a run of a plan. Its first page is private here, and each call that reads it
//! counts a comparison.
ghost use Rattle.std.specs.Prelude.{◌≡◌, ◌+◌, ◌<◌, ◌≤◌, ◌^◌, MatchOption, true, false};
ghost use Rattle.numa_ranges.specs.Runs.{end_of};
ghost use Rattle.numa_plan.specs.Counted.{one_comparison};
ghost use Rattle.numa_plan.specs.Found.{IsPartOf};

use crate::guess::interpolated_place;
use crate::runs::Found;
use crate::spread::Spread;
use crate::steps::Steps;
use numa_ranges::Run;
use std::marker::Model;

/// A reference to a run, with no public fields: its first page can only be read by a call that
/// counts.
#[derive(Drop)]
pub(crate) struct RunInPlace<'a> {
    run: &'a Run<Option<u32>>,
}

impl<'a> Model for RunInPlace<'a> {
    ghost use Rattle.std.specs.Prelude.{ℕ, Option};
    ghost use Rattle.numa_ranges.specs.declared.run.Run.{Run};

    ghost Value = { Run (Option ℕ) };

    ghost view = { λ a. a.run.now };
}

impl<'a> RunInPlace<'a> {
    /// The reference to this run.
    #[inline(always)]
    pub(crate) fn of(run: &'a Run<Option<u32>>) -> RunInPlace<'a>
        ensures { result ≡ run.now }
    {
        RunInPlace { run }
    }

    /// The first page of the run. Nothing else reads it.
    #[inline(always)]
    fn first(&self, steps: &mut Steps) -> u64
        ensures counted { steps.new ≡ one_comparison steps.old }
        ensures first { result ≡ self.now.first }
    {
        steps.compared();
        self.run.first
    }

    /// The distance in pages from the first page of the run to a page; `None` if the page is before
    /// it.
    #[inline(always)]
    pub(crate) fn far_behind(&self, page: u64, steps: &mut Steps) -> Option<u64>
        ensures counted { steps.new ≡ one_comparison steps.old }
        ensures far { MatchOption result (page < self.now.first)
            (λ far. self.now.first + far ≡ page) }
    {
        let first = self.first(steps);
        if page < first {
            None
        } else {
            Some(page - first)
        }
    }

    /// The distance in pages from a page to the first page of the run, behind it.
    #[inline(always)]
    pub(crate) fn far_before(&self, page: u64, steps: &mut Steps) -> u64
        requires { page < self.now.first }
        ensures { page + result ≡ self.now.first }
    {
        self.first(steps) - page
    }

    /// A guess at the place of the run that has a page: this run is at place 0, and `end` at place
    /// `last`. Only speed depends on it.
    #[inline(always)]
    pub(crate) fn place_before(
        &self,
        end: &RunInPlace<'_>,
        last: usize,
        page: u64,
        steps: &mut Steps,
    ) -> usize
        ensures { steps.new ≡ one_comparison (one_comparison steps.old) }
    {
        let low = self.first(steps);
        let top = end.first(steps);
        interpolated_place(page, low, top, last)
    }

    /// The spread from this run, at place 0, to `end` at place `last`.
    pub(crate) fn spread_to(&self, end: &RunInPlace<'_>, last: usize, steps: &mut Steps) -> Spread {
        let from = self.first(steps);
        let to = end.first(steps);
        Spread::whole(last, from, to)
    }

    /// The spread after a look at this run, which is at a place and doesn't have the page.
    #[inline(always)]
    pub(crate) fn narrow(
        &self,
        spread: Spread,
        place: usize,
        page: u64,
        steps: &mut Steps,
    ) -> Spread {
        let first = self.first(steps);
        if page < first {
            spread.below(place, first)
        } else {
            spread.above(place, first)
        }
    }

    /// A copy of the run, which counts as a comparison.
    #[inline(always)]
    pub(crate) fn whole(&self, steps: &mut Steps) -> Run<Option<u32>>
        ensures counted { steps.new ≡ one_comparison steps.old }
        ensures run { result ≡ self.now }
    {
        let first = self.first(steps);
        Run {
            first,
            pages: self.run.pages,
            index: self.run.index,
            value: self.run.value,
        }
    }

    /// What the run says of the page at this distance from its first page; `None` if the run is
    /// shorter.
    #[inline(always)]
    pub(crate) fn found(&self, far: u64) -> Option<Found>
        requires { self.now.index + self.now.pages ≤ 2 ^ 48 }
        ensures { MatchOption result (self.now.pages ≤ far)
            (λ found. IsPartOf self.now far found) }
    {
        if far < self.run.pages {
            Some(Found {
                index: self.run.index + far,
                left: self.run.pages - far,
                rule: self.run.value,
            })
        } else {
            None
        }
    }

    /// Whether the run begins after a page.
    #[inline]
    pub(crate) fn begins_behind(&self, page: u64, steps: &mut Steps) -> bool
        ensures counted { steps.new ≡ one_comparison steps.old }
        ensures behind { result ≡ true → page < self.now.first }
        ensures begun { result ≡ false → self.now.first ≤ page }
    {
        self.far_behind(page, steps).is_none()
    }

    /// The place after the run if it ends before a page, else the given place.
    #[inline]
    pub(crate) fn behind_ended(
        &self,
        page: u64,
        from: usize,
        place: usize,
        steps: &mut Steps,
    ) -> usize
        requires { end_of self.now ≤ 2 ^ 35 }
        ensures counted { steps.new ≡ one_comparison steps.old }
        ensures ended { end_of self.now < page → result ≡ place }
        ensures reaches { page ≤ end_of self.now → result ≡ from }
    {
        match self.far_behind(page, steps) {
            Some(far) if self.run.pages < far => place,
            _ => from,
        }
    }
}
