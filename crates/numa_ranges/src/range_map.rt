//! The map from pages to an index and a value.
ghost use Rattle.std.specs.Prelude.{true, ◌↔◌, Contains, IfOk, OnOk, OnErr, IfErr, MatchOption};
ghost use Rattle.std.specs.Prelude.{◌≡◌, ◌+◌, ◌-◌, ◌<◌, ◌≤◌, ◌^◌, ℕ, Option, List, length, [], not};
ghost use Rattle.std.specs.Prelude.{is_some, IsSomeAnd, IfNone, IfSome, OnSome, false, slice_get};
ghost use Rattle.std.specs.Fn.{FnReturnsAt};
ghost use Rattle.numa_ranges.specs.Runs.{page_at, AreApart, AreMaximal};
ghost use Rattle.numa_ranges.specs.Counts.{range_count, IsRange};
ghost use Rattle.numa_rows.specs.Changes.{Makes};
ghost use Rattle.numa_ranges.specs.Maps.{Shows, IsRefusal, any_page, with_span, without_span};
ghost use Rattle.numa_ranges.specs.Maps.{changed_page, changed_span, count_refusal, map_refusal};
ghost use Rattle.numa_ranges.specs.Maps.{set_refusal, IsSpan};
ghost use Rattle.numa_ranges.specs.Edits.{StartsAround, IsAround, HoldsPage, HasRoom};
ghost use Rattle.numa_ranges.specs.Edits.{Becomes, edited_span};
ghost use Rattle.numa_ranges.specs.Numbered.{AreRowsOf};

use crate::edit::gather_with;
use crate::exact::Exact;
use crate::fault::RangeError;
use crate::pieces::Pieces;
use crate::range_iter::RangeIter;
use crate::row::Row;
use crate::run::Run;
use crate::runs::Runs;
use crate::walk::{first_place, lacks_page, last_place, starts_on, whole_window};
use numa_rows::{Iter, Owned};
use std::alloc::{AllocError, Global};
use std::marker::Model;

/// A finite map from pages to an index and a value, kept as its ranges.
///
/// A range is a maximal run of mapped pages with consecutive indexes and equal values. Page numbers
/// are below 2^35, indexes below 2^48. The index of a page is its offset, in pages, in what is
/// mapped there, as the offset of mmap(2): it belongs to its page, whatever happens to adjacent
/// pages. Ranges split and join as Linux splits and merges the areas of an address space under
/// mbind(2).
///
/// The ranges are in one sorted list of chunks, and their values in a separate list, so that an
/// edit moves few bytes. A call over a span finds its first range by one search, works on the
/// ranges that it touches and one or two more on each side, checks their number, and edits one
/// chunk or a few. The place of the last edit is kept, since the next one is often near it: only
/// speed depends on it.
#[derive(Drop)]
pub struct RangeMap<T: Exact> {
    runs: Runs<T>,
    alloc: Global,
    max_ranges: u32,
    near: usize,
    edited: usize,
}

impl<T: Exact> Model for RangeMap<T> {
    ghost use Rattle.std.specs.Prelude.{List, ℕ, length, ◌≤◌};
    ghost use Rattle.numa_ranges.specs.declared.run.Run.{Run};
    ghost use Rattle.numa_ranges.specs.Ranges.{Ranges};
    ghost use Rattle.numa_ranges.specs.Runs.{AreApart, AreMaximal};

    ghost Value = { Ranges T };

    ghost view = { λ a. record { runs = a.runs; max_ranges = a.max_ranges } };

    ghost invariant = { λ a. AreApart 0 a.runs × AreMaximal a.runs
        × (length a.runs ≤ a.max_ranges) };
}

impl<T: Exact> RangeMap<T> {
    /// An empty map for at most `max_ranges` ranges. It keeps the allocator and doesn't allocate.
    pub fn new(alloc: Global, max_ranges: u32) -> RangeMap<T>
        ensures { result ≡ record { runs = []; max_ranges = max_ranges } }
    {
        RangeMap {
            runs: Runs::new(alloc),
            alloc,
            max_ranges,
            near: 0,
            edited: 0,
        }
    }

    /// Returns a copy. Later changes of one of the two don't affect the other.
    ///
    /// # Errors
    /// `AllocError`: there is no memory for the copy's ranges.
    pub fn copy(&self) -> Result<RangeMap<T>, AllocError>
        ensures { IfOk result (λ copy. copy ≡ self.now) }
    {
        Ok(RangeMap {
            runs: self.runs.copy()?,
            alloc: self.alloc,
            max_ranges: self.max_ranges,
            near: self.near,
            edited: self.edited,
        })
    }

    /// The number of ranges: that of mapped pages whose predecessor isn't mapped, has another
    /// value, or an index that isn't one less.
    pub fn len(&self) -> usize
        ensures runs { result ≡ length self.now.runs }
        ensures count { result ≡ range_count T.eq (page_at self.now.runs) }
        ensures max_ranges { result ≤ self.now.max_ranges }
        ensures few { result < 2 ^ 32 }
    {
        self.runs.len()
    }

    /// The ranges in ascending order, each with its first page, its number of pages, its first
    /// index and its value.
    pub fn iter(&self) -> RangeIter<'_, T>
        ensures runs { result ≡ self.now.runs }
        ensures rising { AreApart 0 self.now.runs }
        ensures maximal { AreMaximal self.now.runs }
        ensures ranges { (run : Run T) → Contains self.now.runs run
            ↔ IsRange T.eq (page_at self.now.runs) run }
        ensures alone { (others : List (Run T)) → AreApart 0 others → AreMaximal others
            → Shows others (page_at self.now.runs)
            → others ≡ self.now.runs }
    {
        self.runs.iter()
    }

    /// The ranges in ascending order from the last that starts at page `first` or before it, which
    /// is found by one search. They have every mapped page from `first` on.
    pub fn iter_from(&self, first: u64) -> RangeIter<'_, T>
        ensures pages { (page : ℕ) → first ≤ page
            → page_at result page ≡ page_at self.now.runs page }
        ensures rising { AreApart 0 result }
    {
        let mut near = self.near;
        let place = self.starts_near(first, &mut near);
        self.runs.iter_near(place.saturating_sub(1), near)
    }

    /// The ranges in ascending order, each with the number of its value, and the values by number:
    /// so a caller can derive something once for all ranges with one number. Equal numbers mean
    /// equal values; equal values can have several numbers, and some values may belong to no range.
    pub fn rows(&self) -> (Iter<'_, Row, Owned<Row>>, &[T])
        ensures { AreRowsOf result.1.now result.0 self.now.runs }
    {
        self.runs.rows()
    }

    /// The range at `place`, counted from 0 in ascending order as by `iter`; `None` from `len` on.
    pub fn range_at(&self, place: usize) -> Option<Run<T>>
        ensures range { result ≡ slice_get self.now.runs place }
    {
        if place >= self.runs.len() {
            return None;
        }
        Some(self.runs.get_near(place, self.near))
    }

    /// The place of the last edit: a guess at the ranges that it changed. Only speed depends on it.
    pub fn edited_place(&self) -> usize {
        self.edited
    }

    /// The index and the value of a page, if it is mapped, by a binary search.
    pub fn at(&self, page: u64) -> Option<(u64, T)>
        ensures page { result ≡ page_at self.now.runs page }
        ensures bound { IfSome result (λ found. (page < 2 ^ 35) × (found.0 < 2 ^ 48)) }
    {
        let run = self.run_at(page)?;
        Some((run.index + (page - run.first), run.value))
    }

    /// Whether one of the `pages` pages from `first` on isn't mapped, for which mbind(2) returns
    /// EFAULT. `set_span` is then refused.
    pub fn has_hole(&self, first: u64, pages: u64) -> bool
        requires span { first + pages ≤ 2 ^ 35 }
        ensures { result ≡ any_page (λ page. not (is_some (page_at self.now.runs page))) first
            pages }
    {
        let mut near = self.near;
        let place = self.starts_near(first, &mut near);
        lacks_page(&self.runs, place, first, pages, near)
    }

    /// Maps the `pages` pages from page `first` on, with the indexes from `index` on and one value.
    ///
    /// # Errors
    /// The first of these that applies; the map hasn\'t changed:
    /// - `Overlap`: a page of the span is already mapped.
    /// - `TooManyRanges`: there would be more than `max_ranges` ranges.
    /// - `NoMemory`: there is no memory for the ranges that the call makes.
    pub fn map_span(
        &mut self,
        first: u64,
        pages: u64,
        index: u64,
        value: T,
    ) -> Result<(), RangeError>
        requires span { IsSpan first pages }
        requires index { index < 2 ^ 47 }
        ensures ok { OnOk result (Shows self.new.runs
            (with_span first pages index value (page_at self.old.runs))) }
        ensures accepted { OnOk result (map_refusal T.eq self.old.max_ranges
            (page_at self.old.runs) first pages index value ≡ None) }
        ensures err { IfErr result (IsRefusal (map_refusal T.eq self.old.max_ranges
            (page_at self.old.runs) first pages index value)) }
        ensures unchanged { OnErr result (self.new ≡ self.old) }
        ensures max_ranges { self.new.max_ranges ≡ self.old.max_ranges }
    {
        let mut near = self.near;
        let Some(place) = self.place_between(first, pages, &mut near) else {
            return Err(RangeError::Overlap);
        };
        let run = Run {
            first,
            pages,
            index,
            value,
        };
        self.insert_run(place, run, near)
    }

    /// Inserts a run at its place among the runs, joined to its neighbours if they continue each
    /// other. `near` is a guess at the chunk of the place, kept for the next edit.
    fn insert_run(&mut self, place: usize, run: Run<T>, near: usize) -> Result<(), RangeError>
        requires span { IsSpan run.first run.pages }
        requires room { HasRoom self.old.runs place run.first (run.first + (run.pages - 1)) }
        requires index { run.index < 2 ^ 47 }
        ensures ok { OnOk result (Becomes T.eq self.old self.new
            (with_span run.first run.pages run.index run.value (page_at self.old.runs))) }
        ensures err { IfErr result (IsRefusal (count_refusal T.eq self.old.max_ranges
            (with_span run.first run.pages run.index run.value (page_at self.old.runs)))) }
        ensures unchanged { OnErr result (self.new ≡ self.old) }
        ensures max_ranges { self.new.max_ranges ≡ self.old.max_ranges }
    {
        let from = place.saturating_sub(1);
        let to = self.runs.len().min(place + 1);
        let pieces = gather_with(self.alloc, &self.runs, from, place, to, run, near);
        if let Err(refused) = pieces.put(&mut self.runs, from, to, self.max_ranges, near) {
            return Err(refused);
        }
        self.near = near;
        self.edited = place;
        Ok(())
    }

    /// The place of a span among the runs, if none of its pages is mapped. The search starts at
    /// chunk `near`, which afterwards is where it ended.
    fn place_between(&self, first: u64, pages: u64, near: &mut usize) -> Option<usize>
        requires span { IsSpan first pages }
        ensures none { IfNone result (any_page
            (λ page. is_some (page_at self.now.runs page)) first pages ≡ true) }
        ensures room { IfSome result (λ place. HasRoom self.now.runs place first
            (first + (pages - 1))) }
        ensures free { OnSome result (any_page
            (λ page. is_some (page_at self.now.runs page)) first pages ≡ false) }
    {
        let place = self.starts_near(first + (pages - 1), near);
        if place == 0 {
            return Some(0);
        }
        let run = self.runs.get(place - 1);
        if run.first + run.pages > first {
            None
        } else {
            Some(place)
        }
    }

    /// Sets the value of the `pages` pages from page `first` on. Each keeps its index.
    ///
    /// # Errors
    /// The first of these that applies; the map hasn\'t changed:
    /// - `Hole`: a page of the span isn't mapped, for which mbind(2) returns EFAULT.
    /// - `TooManyRanges`: there would be more than `max_ranges` ranges.
    /// - `NoMemory`: there is no memory for the ranges that the call makes.
    pub fn set_span(&mut self, first: u64, pages: u64, value: T) -> Result<(), RangeError>
        requires span { IsSpan first pages }
        ensures ok { OnOk result (Shows self.new.runs
            (changed_span first pages (λ old. value) (page_at self.old.runs))) }
        ensures accepted { OnOk result (set_refusal T.eq self.old.max_ranges
            (page_at self.old.runs) first pages value ≡ None) }
        ensures err { IfErr result (IsRefusal (set_refusal T.eq self.old.max_ranges
            (page_at self.old.runs) first pages value)) }
        ensures unchanged { OnErr result (self.new ≡ self.old) }
        ensures max_ranges { self.new.max_ranges ≡ self.old.max_ranges }
    {
        let mut near = self.near;
        let place = self.starts_near(first, &mut near);
        let Some(window) = whole_window(&self.runs, place, first, pages, near) else {
            return Err(RangeError::Hole);
        };
        self.edit_span(place, window, first, pages, &|_: &T| Some(value), near)
    }

    /// Unmaps the `pages` pages from page `first` on, as munmap(2) does: pages of the span that
    /// aren't mapped are skipped, and pages outside it keep their indexes.
    ///
    /// # Errors
    /// The first of these that applies; the map hasn\'t changed:
    /// - `TooManyRanges`: splitting a range would make more than `max_ranges` ranges.
    /// - `NoMemory`: there is no memory for the parts that stay, even if the map shrinks.
    pub fn unmap_span(&mut self, first: u64, pages: u64) -> Result<(), RangeError>
        requires span { IsSpan first pages }
        ensures ok { OnOk result (Shows self.new.runs
            (without_span first pages (page_at self.old.runs))) }
        ensures accepted { OnOk result (count_refusal T.eq self.old.max_ranges
            (without_span first pages (page_at self.old.runs)) ≡ None) }
        ensures err { IfErr result (IsRefusal (count_refusal T.eq self.old.max_ranges
            (without_span first pages (page_at self.old.runs)))) }
        ensures unchanged { OnErr result (self.new ≡ self.old) }
        ensures max_ranges { self.new.max_ranges ≡ self.old.max_ranges }
    {
        let mut near = self.near;
        let place = self.starts_near(first, &mut near);
        let window = self.window(place, first, first + pages, near);
        self.edit_span(place, window, first, pages, &|_: &T| None, near)
    }

    /// Replaces the value of each mapped page among the `pages` pages from page `first` on by what
    /// `f` returns for it. Each keeps its index, and pages that aren't mapped are skipped. `f`
    /// returns equal values for equal values.
    ///
    /// # Errors
    /// The first of these that applies; the map hasn\'t changed:
    /// - `TooManyRanges`: there would be more than `max_ranges` ranges.
    /// - `NoMemory`: there is no memory for the ranges that the call makes.
    pub fn update_span<F: Fn(&T) -> T>(
        &mut self,
        first: u64,
        pages: u64,
        f: F,
    ) -> Result<(), RangeError>
        requires span { IsSpan first pages }
        requires callable { F.IsAlwaysCallable f }
        requires function { (change : T → T) × Makes F.Fn f change }
        ensures ok { (change : T → T) → Makes F.Fn f change
            → OnOk result (Shows self.new.runs
            (changed_span first pages change (page_at self.old.runs))) }
        ensures accepted { (change : T → T) → Makes F.Fn f change
            → OnOk result (count_refusal T.eq self.old.max_ranges
            (changed_span first pages change (page_at self.old.runs)) ≡ None) }
        ensures err { (change : T → T) → Makes F.Fn f change
            → IfErr result (IsRefusal (count_refusal T.eq self.old.max_ranges
            (changed_span first pages change (page_at self.old.runs)))) }
        ensures unchanged { OnErr result (self.new ≡ self.old) }
        ensures max_ranges { self.new.max_ranges ≡ self.old.max_ranges }
    {
        let edit = |value: &T| -> Option<T>
            requires { F.IsAlwaysCallable f }
            ensures { IsSomeAnd result (λ made. FnReturnsAt F.Fn f value.now made) }
        { Some(f(value)) };
        let mut near = self.near;
        let place = self.starts_near(first, &mut near);
        let window = self.window(place, first, first + pages, near);
        self.edit_span(place, window, first, pages, &edit, near)
    }

    /// Replaces the value of each mapped page by what `f` returns for it. Each keeps its index, and
    /// adjacent ranges that become equal join. `f` returns equal values for equal values. It
    /// doesn't allocate and can't fail.
    pub fn update_all<F: Fn(&T) -> T>(&mut self, f: F)
        requires callable { F.IsAlwaysCallable f }
        requires function { (change : T → T) × Makes F.Fn f change }
        ensures pages { (change : T → T) → Makes F.Fn f change
            → (page : ℕ) → page_at self.new.runs page
            ≡ changed_page change (page_at self.old.runs page) }
        ensures max_ranges { self.new.max_ranges ≡ self.old.max_ranges }
    {
        self.runs.update_all(&f);
    }

    /// Replaces the value of each mapped page of a span by what `edit` returns for it, or unmaps
    /// the page. `window` has the places of the runs that this can change or join; `near` is a
    /// guess at their chunk, kept for the next edit.
    fn edit_span<F: Fn(&T) -> Option<T>>(
        &mut self,
        place: usize,
        window: (usize, usize),
        first: u64,
        pages: u64,
        edit: &F,
        near: usize,
    ) -> Result<(), RangeError>
        requires within { place ≤ length self.old.runs }
        requires parts { StartsAround self.old.runs place first }
        requires window { IsAround self.old.runs place first (first + pages) window.0 window.1 }
        requires span { first + pages ≤ 2 ^ 35 }
        requires callable { F.IsAlwaysCallable edit.now }
        requires function { (change : T → Option T) × Makes F.Fn edit.now change }
        ensures ok { (change : T → Option T) → Makes F.Fn edit.now change
            → OnOk result (Becomes T.eq self.old self.new
            (edited_span first pages change (page_at self.old.runs))) }
        ensures err { (change : T → Option T) → Makes F.Fn edit.now change
            → IfErr result (IsRefusal (count_refusal T.eq self.old.max_ranges
            (edited_span first pages change (page_at self.old.runs)))) }
        ensures unchanged { OnErr result (self.new ≡ self.old) }
        ensures max_ranges { self.new.max_ranges ≡ self.old.max_ranges }
    {
        let end = first + pages;
        let (from, to) = window;
        let limit = self.max_ranges;
        self.runs.tidy();
        let edited = self.runs.edit_near(from, to, near, first, end, edit, limit);
        if let Err(refused) = edited {
            return Err(refused);
        }
        self.near = near;
        self.edited = place;
        Ok(())
    }

    /// The places of the runs that an edit of a span can change or join.
    fn window(&self, place: usize, first: u64, end: u64, near: usize) -> (usize, usize)
        requires rises { first ≤ end }
        requires within { place ≤ length self.now.runs }
        requires parts { StartsAround self.now.runs place first }
        ensures { IsAround self.now.runs place first end result.0 result.1 }
    {
        let count = starts_on(&self.runs, place, first, end, near);
        let from = first_place(&self.runs, place, first, near);
        let to = last_place(&self.runs, count, end, near);
        (from, to)
    }

    /// The run that has a page, if it is mapped.
    fn run_at(&self, page: u64) -> Option<Run<T>>
        ensures { MatchOption result (page_at self.now.runs page ≡ None)
            (λ run. HoldsPage self.now.runs run page) }
    {
        let count = self.starts_up_to(page);
        if count == 0 {
            return None;
        }
        let run = self.runs.get(count - 1);
        if page - run.first < run.pages {
            Some(run)
        } else {
            None
        }
    }

    /// The number of runs that start at the page or before it. The search starts at chunk `near`,
    /// which afterwards is where it ended.
    fn starts_near(&self, page: u64, near: &mut usize) -> usize
        ensures within { result ≤ length self.now.runs }
        ensures apart { AreApart 0 self.now.runs }
        ensures maximal { AreMaximal self.now.runs }
        ensures parts { StartsAround self.now.runs result page }
    {
        self.runs.starts_near(page, near)
    }

    /// The number of runs that start at the page or before it.
    fn starts_up_to(&self, page: u64) -> usize
        ensures within { result ≤ length self.now.runs }
        ensures apart { AreApart 0 self.now.runs }
        ensures maximal { AreMaximal self.now.runs }
        ensures parts { StartsAround self.now.runs result page }
    {
        self.runs.starts_up_to(page)
    }
}
