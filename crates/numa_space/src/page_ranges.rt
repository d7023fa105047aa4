//! The pages of a space: a range map, with a space's refusals.
ghost use Rattle.std.specs.Prelude.{◌≡◌, ◌≢◌, ◌+◌, ◌<◌, ◌≤◌, ◌^◌, ℕ, Some, None, Option, Ok, Err};
ghost use Rattle.std.specs.Prelude.{IfOk, MatchResult, is_some, not, false, [], length, Contains};
ghost use Rattle.std.specs.Prelude.{◌↔◌, nat_lt};
ghost use Rattle.std.specs.Prelude.{slice_get};
ghost use Rattle.numa_mode.specs.Policy.{PolicyRecord};
ghost use Rattle.numa_ranges.specs.Runs.{AreApart, AreMaximal, page_at};
ghost use Rattle.numa_ranges.specs.declared.run.Run.{Run};
ghost use Rattle.numa_ranges.specs.Counts.{IsRange, range_count};
ghost use Rattle.numa_ranges.specs.Maps.{any_page, IsSpan};
ghost use Rattle.numa_ranges.specs.Numbered.{AreRowsOf};
ghost use Rattle.numa_ranges.specs.Maps.{with_span, without_span, changed_span, changed_page};
ghost use Rattle.numa_space.specs.Edits.{IsEdit, too_many, overlap_cause, hole_cause, refusal_from};
ghost use Rattle.numa_space.specs.Edits.{AreMappable, passes, reaches};
ghost use Rattle.numa_space.specs.Refusals.{first_of, inside_of, lacks_pages};
ghost use Rattle.numa_space.specs.Same.{same_record};
ghost use Rattle.numa_space.specs.Steps.{policy_with_home, policy_after};

use crate::change::ChangedPages;
use crate::range_record::RangeRecord;
use crate::range_rows::RangeRows;
use numa_machine::{Rules, is_inside};
use numa_mask::NodeMask;
use numa_mode::Record;
use numa_ranges::{RangeError, RangeIter, RangeMap, Run};
use numa_requests::Refusal;
use std::alloc::{AllocError, Global};
use std::marker::Model;

/// The end of the pages that can be mapped.
const PAGES_END: u64 = 1 << 35;

/// A test of the pages of a span.
#[derive(Clone, Copy)]
pub(crate) enum PageTest {
    /// Whether it is mapped.
    IsMapped,
    /// Whether its range has an own policy.
    HasPolicy,
    /// Whether its range has an own policy that takes no home node.
    TakesNoHome,
}

/// The mapped pages, each with its index and the policy of its range.
#[derive(Drop)]
pub(crate) struct Pages {
    map: RangeMap<RangeRecord>,
}

impl Model for Pages {
    ghost use Rattle.numa_space.specs.Edits.{PageRanges};

    ghost Value = { PageRanges };

    ghost view = { λ a. record { runs = a.map.runs; limit = a.map.max_ranges } };
}

impl Pages {
    /// No pages, for at most `max_ranges` ranges; it doesn't allocate.
    pub(crate) fn new(alloc: Global, max_ranges: u32) -> Pages
        ensures { result ≡ record { runs = []; limit = max_ranges } }
    {
        Pages {
            map: RangeMap::new(alloc, max_ranges),
        }
    }

    /// Returns a copy.
    pub(crate) fn copy(&self) -> Result<Pages, AllocError>
        ensures { IfOk result (λ copy. copy ≡ self.now) }
    {
        let map = self.map.copy()?;
        Ok(Pages { map })
    }

    /// The number of ranges.
    pub(crate) fn len(&self) -> usize
        ensures runs { result ≡ length self.now.runs }
        ensures count { result ≡ range_count same_record (page_at self.now.runs) }
        ensures limit { result ≤ self.now.limit }
    {
        self.map.len()
    }

    /// The ranges in ascending order.
    pub(crate) fn iter(&self) -> RangeIter<'_, RangeRecord>
        ensures runs { result ≡ self.now.runs }
        ensures rising { AreApart 0 self.now.runs }
        ensures maximal { AreMaximal self.now.runs }
        ensures ranges { (run : Run (Option PolicyRecord)) → Contains self.now.runs run
            ↔ IsRange same_record (page_at self.now.runs) run }
    {
        self.map.iter()
    }

    /// The ranges in ascending order, with the numbers of their records, and the records.
    pub(crate) fn rows(&self) -> (RangeRows<'_>, &[RangeRecord])
        ensures { AreRowsOf result.1.now result.0 self.now.runs }
    {
        let (rows, records) = self.map.rows();
        (RangeRows::new(rows), records)
    }

    /// The range at a place, in ascending order; `None` from `len` on.
    pub(crate) fn range_at(&self, place: usize) -> Option<Run<RangeRecord>>
        ensures { result ≡ slice_get self.now.runs place }
    {
        self.map.range_at(place)
    }

    /// The pages of a span that was edited last, with the place of that edit as a guess.
    pub(crate) fn changed(&self, first: u64, pages: u64) -> ChangedPages
        requires fits { first + pages < 2 ^ 64 }
        ensures first { result.first ≡ first }
        ensures end { result.end ≡ first + pages }
    {
        ChangedPages {
            first,
            end: first + pages,
            place: self.map.edited_place(),
        }
    }

    /// The index of a page and its range's policy, if it is mapped.
    pub(crate) fn at(&self, page: u64) -> Option<(u64, Option<Record>)>
        ensures { result ≡ page_at self.now.runs page }
    {
        let (index, value) = self.map.at(page)?;
        Some((index, value.policy()))
    }

    /// The own policy of the page of 2 MiB inside which the border before a page lies, if it lies
    /// inside one.
    pub(crate) fn inside_of(&self, page: u64) -> Option<RangeRecord>
        ensures { result ≡ inside_of (page_at self.now.runs page) }
    {
        let (index, value) = self.map.at(page)?;
        if is_inside(index) { Some(value) } else { None }
    }

    /// Maps a span without an own policy.
    pub(crate) fn map_span(&mut self, first: u64, pages: u64, index: u64) -> Result<(), Refusal>
        requires span { IsSpan first pages }
        requires index { index < 2 ^ 47 }
        ensures edit { IsEdit (first_of (overlap_cause (page_at self.old.runs) first pages)
            (too_many self.old.limit (with_span first pages index None (page_at self.old.runs))))
            (with_span first pages index None (page_at self.old.runs)) self.old result self.new }
        ensures limit { self.new.limit ≡ self.old.limit }
    {
        let none = RangeRecord::of(None);
        answered(self.map.map_span(first, pages, index, none))
    }

    /// Unmaps a span.
    pub(crate) fn unmap_span(&mut self, first: u64, pages: u64) -> Result<(), Refusal>
        requires span { IsSpan first pages }
        ensures edit { IsEdit (too_many self.old.limit
            (without_span first pages (page_at self.old.runs)))
            (without_span first pages (page_at self.old.runs)) self.old result self.new }
        ensures limit { self.new.limit ≡ self.old.limit }
    {
        answered(self.map.unmap_span(first, pages))
    }

    /// Sets or removes the policy of a span's pages; with `passes_holes`, of those that are mapped.
    pub(crate) fn bind_span(
        &mut self,
        first: u64,
        pages: u64,
        to: &RangeRecord,
        passes_holes: bool,
    ) -> Result<(), Refusal>
        requires some { 0 < pages }
        requires fits { first + pages < 2 ^ 64 }
        ensures edit { IsEdit (first_of
            (hole_cause passes_holes (page_at self.old.runs) first pages)
            (too_many self.old.limit (changed_span first pages (λ old. to.now)
            (page_at self.old.runs)))) (changed_span first pages (λ old. to.now)
            (page_at self.old.runs)) self.old result self.new }
        ensures limit { self.new.limit ≡ self.old.limit }
    {
        if !passes_holes {
            return self.bind_whole(first, pages, to);
        }
        if !self.has_page(PageTest::IsMapped, first, pages) {
            return Err(Refusal::Hole);
        }
        self.bind_mapped(first, pages, to)
    }

    /// Sets the policy of a span's pages, all of which have to be mapped.
    fn bind_whole(&mut self, first: u64, pages: u64, to: &RangeRecord) -> Result<(), Refusal>
        requires some { 0 < pages }
        requires fits { first + pages < 2 ^ 64 }
        ensures edit { IsEdit (first_of (hole_cause false (page_at self.old.runs) first pages)
            (too_many self.old.limit (changed_span first pages (λ old. to.now)
            (page_at self.old.runs)))) (changed_span first pages (λ old. to.now)
            (page_at self.old.runs)) self.old result self.new }
        ensures limit { self.new.limit ≡ self.old.limit }
    {
        if first + pages > PAGES_END {
            // Tells the proof that no page is mapped there.
            let _ = self.map.iter();
            return Err(Refusal::Hole);
        }
        answered(self.map.set_span(first, pages, *to))
    }

    /// How many of a span's pages lie below page 2^35, from which on no page is ever mapped.
    fn mappable_pages(&self, first: u64, pages: u64) -> u64
        ensures there { AreMappable first pages result }
        ensures rising { AreApart 0 self.now.runs }
        ensures few { nat_lt self.now.limit (range_count same_record (page_at self.now.runs))
            ≡ false }
    {
        let _ = self.map.iter();
        let _ = self.len();
        pages.min(PAGES_END.saturating_sub(first))
    }

    /// Sets the policy of the mapped pages of a span.
    fn bind_mapped(&mut self, first: u64, pages: u64, to: &RangeRecord) -> Result<(), Refusal>
        ensures edit { IsEdit (too_many self.old.limit (changed_span first pages (λ old. to.now)
            (page_at self.old.runs))) (changed_span first pages (λ old. to.now)
            (page_at self.old.runs)) self.old result self.new }
        ensures limit { self.new.limit ≡ self.old.limit }
    {
        let made = *to;
        let bound = |old: &RangeRecord| -> RangeRecord
            ensures { result ≡ made }
        { made };
        let pages = self.mappable_pages(first, pages);
        if pages == 0 {
            return Ok(());
        }
        answered(self.map.update_span(first, pages, bound))
    }

    /// Whether some page of a span isn't mapped.
    pub(crate) fn has_hole(&self, first: u64, pages: u64) -> bool
        requires span { first + pages ≤ 2 ^ 35 }
        ensures { result ≡ any_page (λ page. not (is_some (page_at self.now.runs page))) first
            pages }
    {
        self.map.has_hole(first, pages)
    }

    /// Whether a page of a span that has to be mapped isn't: with `passes_holes`, if none is.
    pub(crate) fn lacks_pages(&self, passes_holes: bool, first: u64, pages: u64) -> bool
        requires some { 0 < pages }
        requires fits { first + pages < 2 ^ 64 }
        ensures { result ≡ lacks_pages passes_holes (page_at self.now.runs) first pages }
    {
        if passes_holes {
            return !self.has_page(PageTest::IsMapped, first, pages);
        }
        if first + pages > PAGES_END {
            // Tells the proof that no page is mapped there.
            let _ = self.map.iter();
            return true;
        }
        self.has_hole(first, pages)
    }

    /// Sets the home node of the policies of a span's pages, where they have one.
    pub(crate) fn home_span(&mut self, first: u64, pages: u64, node: u8) -> Result<(), Refusal>
        ensures edit { IsEdit (too_many self.old.limit
            (changed_span first pages (policy_with_home node) (page_at self.old.runs)))
            (changed_span first pages (policy_with_home node) (page_at self.old.runs)) self.old
            result
            self.new }
        ensures limit { self.new.limit ≡ self.old.limit }
    {
        let at_home = |value: &RangeRecord| -> RangeRecord
            ensures { result ≡ policy_with_home node value.now }
        { value.homed(node) };
        let pages = self.mappable_pages(first, pages);
        if pages == 0 {
            return Ok(());
        }
        answered(self.map.update_span(first, pages, at_home))
    }

    /// Updates every policy for a change of the allowed nodes; it doesn't allocate.
    pub(crate) fn rebind(&mut self, rules: Rules, old: &NodeMask, new: &NodeMask)
        requires some { new.now ≢ 0 }
        ensures pages { (page : ℕ) → page_at self.new.runs page
            ≡ changed_page (policy_after rules old.now new.now) (page_at self.old.runs page) }
        ensures limit { self.new.limit ≡ self.old.limit }
    {
        let (from, to) = (*old, *new);
        let moved = |value: &RangeRecord| -> RangeRecord
            requires { to ≢ 0 }
            ensures { result ≡ policy_after rules from to value.now }
        { value.rebound(rules, &from, &to) };
        self.map.update_all(moved);
    }

    /// Whether some page of a span passes a test.
    pub(crate) fn has_page(&self, test: PageTest, first: u64, pages: u64) -> bool
        requires some { 0 < pages }
        requires fits { first + pages < 2 ^ 64 }
        ensures { result ≡ any_page (λ page. passes test (page_at self.now.runs page)) first
            pages }
    {
        let end = first + pages;
        for run in self.map.iter_from(first) {
            if run.first >= end {
                return false;
            }
            if reaches(test, &run, first, end) {
                return true;
            }
        }
        false
    }
}

/// Whether a mapped page whose range has this record passes a test.
fn passes(test: PageTest, value: &RangeRecord) -> bool
    ensures { result ≡ passes test (Some (0, value.now)) }
{
    match test {
        PageTest::IsMapped => true,
        PageTest::HasPolicy => value.policy().is_some(),
        PageTest::TakesNoHome => value.takes_no_home(),
    }
}

/// Whether a run reaches into the pages from `first` up to `end`, and they pass a test.
fn reaches(test: PageTest, run: &Run<RangeRecord>, first: u64, end: u64) -> bool
    ensures { result ≡ reaches test first end run.now }
{
    let passed = first.saturating_sub(run.first);
    let passes = passes(test, &run.value);
    run.first < end && passed < run.pages && passes
}

/// A range map's result as a space's.
fn answered(outcome: Result<(), RangeError>) -> Result<(), Refusal>
    ensures { MatchResult outcome (λ done. result ≡ Ok done)
        (λ fault. result ≡ Err (refusal_from fault)) }
{
    match outcome {
        Ok(()) => Ok(()),
        Err(RangeError::Hole) => Err(Refusal::Hole),
        Err(RangeError::Overlap) => Err(Refusal::Overlap),
        Err(RangeError::TooManyRanges) => Err(Refusal::TooManyRanges),
        Err(RangeError::NoMemory) => Err(Refusal::NoMemory),
    }
}
