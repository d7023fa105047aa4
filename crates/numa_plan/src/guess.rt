//! Guesses at the place of a window of runs. Only speed depends on them.
ghost use Rattle.std.specs.Prelude.{◌≤◌};

/// The number of places before a guess at which the look for a window starts.
const BEFORE: usize = 3;

/// The number of runs near a guess that are looked at before a search.
pub(crate) const LOOKED_AT: usize = 16;

/// The place at which the look for a window starts: some places before the guess.
pub(crate) fn start_before(guess: usize, runs: usize) -> usize
    ensures { result ≤ runs }
{
    guess.min(runs).saturating_sub(BEFORE)
}

/// The place of the run that has a page, if the runs were spread evenly from one that begins at
/// page `low`, at place 0, to one that begins at page `top`, at place `last`.
#[inline(always)]
pub(crate) fn interpolated_place(page: u64, low: u64, top: u64, last: usize) -> usize {
    let far = page.saturating_sub(low).saturating_mul(last as u64);
    (far / top.saturating_sub(low).max(1)) as usize
}

/// A guess at the chunk of a place, as if all chunks had equally many runs.
pub(crate) fn chunk_of(place: usize, chunks: usize, runs: usize) -> usize {
    place.saturating_mul(chunks) / runs.max(1)
}
