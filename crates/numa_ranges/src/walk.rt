//! Walks along runs, from a place that a search found.
ghost use Rattle.std.specs.Prelude.{◌≡◌, ◌+◌, ◌<◌, ◌≤◌, ◌^◌, length, min, not, is_some};
ghost use Rattle.std.specs.Prelude.{true, false, IfNone, IfSome, OnSome, Some, None};
ghost use Rattle.numa_ranges.specs.Runs.{page_at, AreApart};
ghost use Rattle.numa_ranges.specs.Maps.{any_page};
ghost use Rattle.numa_ranges.specs.Edits.{StartsAround, MayBegin, MayEnd, IsAround};

use crate::exact::Exact;
use crate::runs::Runs;

/// Whether one of the pages of a span isn't mapped; `place` runs start at its first page or before
/// it. `near` is a guess at their chunk.
pub(crate) fn lacks_page<T: Exact>(
    runs: &Runs<T>,
    place: usize,
    first: u64,
    pages: u64,
    near: usize,
) -> bool
    requires apart { AreApart 0 runs.now }
    requires within { place ≤ length runs.now }
    requires parts { StartsAround runs.now place first }
    requires span { first + pages ≤ 2 ^ 35 }
    ensures { result ≡ any_page (λ page. not (is_some (page_at runs.now page))) first pages }
{
    let end = first + pages;
    let mut page = first;
    for run in runs.iter_near(place.saturating_sub(1), near) {
        if page >= end {
            return false;
        }
        if page < run.first {
            return true;
        }
        page = page.max(run.first + run.pages);
    }
    page < end
}

/// The places of the runs that an edit of a span can change or join, by one walk, if each page of
/// the span is mapped; `place` runs start at its first page or before it. `near` is a guess at
/// their chunk.
pub(crate) fn whole_window<T: Exact>(
    runs: &Runs<T>,
    place: usize,
    first: u64,
    pages: u64,
    near: usize,
) -> Option<(usize, usize)>
    requires apart { AreApart 0 runs.now }
    requires within { place ≤ length runs.now }
    requires parts { StartsAround runs.now place first }
    requires span { first + pages ≤ 2 ^ 35 }
    ensures none { IfNone result
        (any_page (λ page. not (is_some (page_at runs.now page))) first pages ≡ true) }
    ensures whole { OnSome result
        (any_page (λ page. not (is_some (page_at runs.now page))) first pages ≡ false) }
    ensures window { IfSome result (λ window. IsAround runs.now place first (first + pages)
        window.0 window.1) }
{
    let len = runs.len();
    let end = first + pages;
    let from = first_place(runs, place, first, near);
    let mut page = first;
    let mut last_end = 0;
    let mut count = place.saturating_sub(1);
    for run in runs.iter_near(count, near) {
        if end < run.first {
            return window_if_whole(from, len, count, last_end, page, end);
        }
        if page < run.first {
            return None;
        }
        last_end = run.first + run.pages;
        page = page.max(last_end);
        count += 1;
    }
    window_if_whole(from, len, count, last_end, page, end)
}

/// The window of an edit up to page `end`, if every page before that is known to be mapped: those
/// before `page` are. `count` runs start at `end` or before it, and the last of them ends at
/// `last_end`.
#[inline]
fn window_if_whole(
    from: usize,
    len: usize,
    count: usize,
    last_end: u64,
    page: u64,
    end: u64,
) -> Option<(usize, usize)>
    requires small { len < 2 ^ 32 }
    requires within { count ≤ len }
    ensures none { page < end → result ≡ None }
    ensures ends_behind { end ≤ page → end < last_end → result ≡ Some (from, count) }
    ensures ends_before { end ≤ page → last_end ≤ end → result ≡ Some (from, min len (count + 1)) }
{
    if page < end {
        return None;
    }
    if end < last_end {
        return Some((from, count));
    }
    Some((from, len.min(count + 1)))
}

/// The number of runs that start at a page or before it, given that number for an earlier page.
/// `near` is a guess at their chunk.
pub(crate) fn starts_on<T: Exact>(
    runs: &Runs<T>,
    place: usize,
    _first: u64,
    page: u64,
    near: usize,
) -> usize
    requires rises { _first ≤ page }
    requires apart { AreApart 0 runs.now }
    requires within { place ≤ length runs.now }
    requires parts { StartsAround runs.now place _first }
    ensures within { result ≤ length runs.now }
    ensures parts { StartsAround runs.now result page }
{
    // Tells the proof that the count fits.
    let _ = runs.len();
    let mut count = place;
    for run in runs.iter_near(place, near) {
        if run.first > page {
            return count;
        }
        count += 1;
    }
    count
}

/// The place of the first run that an edit from page `first` on can change or join; `place` runs
/// start at that page or before it. A run that starts before the page stays in front of the edit.
#[inline]
pub(crate) fn first_place<T: Exact>(runs: &Runs<T>, place: usize, first: u64, near: usize) -> usize
    requires within { place ≤ length runs.now }
    ensures { MayBegin runs.now place first result }
{
    if place > 0 && runs.get_near(place - 1, near).first < first {
        return place - 1;
    }
    place.saturating_sub(2)
}

/// The place behind the last run that an edit up to page `end` can change or join; `count` runs
/// start at that page or before it. A run that ends after the page stays behind the edit.
#[inline]
pub(crate) fn last_place<T: Exact>(runs: &Runs<T>, count: usize, end: u64, near: usize) -> usize
    requires apart { AreApart 0 runs.now }
    requires within { count ≤ length runs.now }
    ensures { MayEnd runs.now count end result }
{
    if count > 0 {
        let last = runs.get_near(count - 1, near);
        if end < last.first + last.pages {
            return count;
        }
    }
    runs.len().min(count + 1)
}
