//! Changing where the pages of a span lie.
ghost use Rattle.std.specs.Prelude.{◌≡◌, ◌-◌, ◌≤◌, ◌^◌, ℕ, true, false, IfOk, length};
ghost use Rattle.numa_ranges.specs.Maps.{IsSpan};
ghost use Rattle.numa_placed.specs.Spots.{changed_spot, changed_spots, most_runs, too_many};
ghost use Rattle.numa_placed.specs.Stored.{IsStored, IsStoredEdit, begins, kept_count};
ghost use Rattle.numa_placed.specs.Turns.{AreKept, spots_of};

use crate::change::SpanChange;
use crate::places::{Places, change_places, spot_of};
use numa_machine::NoMemory;
use numa_requests::PlacedRefusal;
use std::mem::replace;

/// The most runs that are kept of placed pages.
pub(crate) const MOST_RUNS: usize = 1 << 20;

/// Whether a run of pages that lie somewhere, all alike, begins at a page.
fn begins(places: &Places, page: u64) -> bool
    requires kept { AreKept places.now }
    ensures { result ≡ begins (spots_of places.now) page }
{
    let spot = spot_of(places, page);
    if spot.node().is_none() {
        return false;
    }
    if page == 0 {
        return true;
    }
    spot_of(places, page - 1) != spot
}

/// The number of runs that are kept of pages that lie somewhere: one counts where its first page
/// doesn't lie as the page before it.
fn counted_runs(places: &Places) -> usize
    requires kept { AreKept places.now }
    requires limit { places.now.map.max_ranges ≡ 2 ^ 32 - 1 }
    ensures { result ≡ kept_count places.now }
{
    // Tells the proof that the count fits.
    let _ = places.map.len();
    let mut count = 0;
    for run in places.map.iter() {
        if begins(places, run.first) {
            count += 1;
        }
    }
    count
}

/// Whether more runs are kept than may be. They are counted only where there are so many.
fn has_too_many(places: &Places) -> bool
    requires kept { AreKept places.now }
    requires limit { places.now.map.max_ranges ≡ 2 ^ 32 - 1 }
    ensures many { result ≡ true → too_many (spots_of places.now) ≡ true }
    ensures few { result ≡ false → kept_count places.now ≤ most_runs }
{
    // Tells the proof that the runs are apart.
    let _ = places.map.iter();
    if places.map.len() <= MOST_RUNS {
        return false;
    }
    if counted_runs(places) > MOST_RUNS {
        return true;
    }
    false
}

/// Drops what is kept, which takes many steps.
pub(crate) fn let_go_places(places: Places) {
    drop(places);
}

/// A copy.
pub(crate) fn copy_places(places: &Places) -> Result<Places, NoMemory>
    requires kept { AreKept places.now }
    ensures kept { IfOk result (λ copy. AreKept copy) }
    ensures spots { IfOk result (λ copy. (page : ℕ)
        → spots_of copy page ≡ spots_of places.now page) }
    ensures map { IfOk result (λ copy. copy.map.runs ≡ places.now.map.runs) }
    ensures nodes { IfOk result (λ copy. copy.nodes.items ≡ places.now.nodes.items) }
    ensures limit { IfOk result (λ copy. copy.map.max_ranges ≡ places.now.map.max_ranges) }
{
    let Ok(map) = places.map.copy() else {
        return Err(NoMemory);
    };
    let Ok(nodes) = places.nodes.clone() else {
        return Err(NoMemory);
    };
    Ok(Places { map, nodes })
}

/// Puts other places where these are, unless they have too many runs.
pub(crate) fn put_places(places: &mut Places, next: Places) -> Result<(), PlacedRefusal>
    requires kept { AreKept next }
    requires stored { IsStored places.old }
    requires limit { next.map.max_ranges ≡ places.old.map.max_ranges }
    ensures stored { IsStored places.new }
    ensures edit { IsStoredEdit (spots_of next) places.old result places.new }
{
    if has_too_many(&next) {
        let_go_places(next);
        return Err(PlacedRefusal::TooManyRuns);
    }
    let_go_places(replace(places, next));
    Ok(())
}

/// A copy in which the pages of a span are changed.
fn changed_places(places: &Places, span: SpanChange) -> Result<Places, NoMemory>
    requires span { IsSpan span.first span.pages }
    requires kept { AreKept places.now }
    ensures kept { IfOk result (λ next. AreKept next) }
    ensures spots { IfOk result (λ next. (page : ℕ) → spots_of next page
        ≡ changed_spots span.first span.pages (changed_spot span.change) (spots_of places.now)
        page) }
    ensures limit { IfOk result (λ next. next.map.max_ranges ≡ places.now.map.max_ranges) }
{
    let Ok(mut next) = copy_places(places) else {
        return Err(NoMemory);
    };
    match change_places(&mut next, span) {
        Ok(()) => Ok(next),
        Err(lack) => {
            let_go_places(next);
            Err(lack)
        }
    }
}

/// Changes the pages of a span, unless that makes too many runs. Each of the span's ends can make
/// one: so far from the limit they aren't counted, and else it is done on a copy.
pub(crate) fn edit_places(places: &mut Places, span: SpanChange) -> Result<(), PlacedRefusal>
    requires span { IsSpan span.first span.pages }
    requires stored { IsStored places.old }
    ensures stored { IsStored places.new }
    ensures edit { IsStoredEdit (changed_spots span.first span.pages (changed_spot span.change)
        (spots_of places.old)) places.old result places.new }
{
    if places.map.len() > MOST_RUNS - 2 {
        let Ok(next) = changed_places(places, span) else {
            return Err(PlacedRefusal::NoMemory);
        };
        return put_places(places, next);
    }
    let Ok(()) = change_places(places, span) else {
        return Err(PlacedRefusal::NoMemory);
    };
    // Tells the proof that the runs are apart.
    let _ = places.map.iter();
    Ok(())
}
