//! Guesses at the place of the run that a page is in or behind. Only speed depends on them.
ghost use Rattle.std.specs.Prelude.{◌≤◌, ◌<◌};

use crate::search::middle_of;

/// The number of guesses after which a search goes on by halves.
const GUESSES: usize = 6;

/// Two runs, and how many guesses were made: a guess takes the runs between the two as spread
/// evenly.
#[derive(Clone, Copy)]
pub(crate) struct Spread {
    low: usize,
    high: usize,
    from: u64,
    to: u64,
    guesses: usize,
}

impl Spread {
    /// The runs at place 0 and at place `last`, which begin at these pages.
    pub(crate) fn whole(last: usize, from: u64, to: u64) -> Spread {
        Spread {
            low: 0,
            high: last,
            from,
            to,
            guesses: 0,
        }
    }

    /// No runs.
    pub(crate) fn none() -> Spread {
        Spread {
            low: 0,
            high: 0,
            from: 0,
            to: 0,
            guesses: GUESSES,
        }
    }

    /// A guess at the place of a page, from place `low` on and below place `high`.
    #[inline(always)]
    pub(crate) fn middle(&self, low: usize, high: usize, page: u64) -> usize
        requires { low < high }
        ensures low { low ≤ result }
        ensures high { result < high }
    {
        if self.guesses >= GUESSES {
            return middle_of(low, high);
        }
        let places = self.high.saturating_sub(self.low) as u64;
        let pages = self.to.saturating_sub(self.from).max(1);
        let far = page.saturating_sub(self.from).saturating_mul(places) / pages;
        let place = self.low.saturating_add(far as usize);
        place.min(high - 1).max(low)
    }

    /// What is left after a look at the run at a place, which begins at this page, and not behind
    /// the page that is sought.
    #[inline(always)]
    pub(crate) fn above(self, place: usize, first: u64) -> Spread {
        Spread {
            low: place,
            from: first,
            guesses: self.guesses.saturating_add(1),
            ..self
        }
    }

    /// What is left after a look at the run at a place, which begins at this page, behind the page
    /// that is sought.
    #[inline(always)]
    pub(crate) fn below(self, place: usize, first: u64) -> Spread {
        Spread {
            high: place,
            to: first,
            guesses: self.guesses.saturating_add(1),
            ..self
        }
    }
}
