//! Pages that are unmapped: nothing is stated any more of them.
ghost use Rattle.std.specs.Prelude.{◌≡◌, ℕ, IfErr, IfOk, Some, true};
ghost use Rattle.numa_placed.specs.Spots.{spot_at};
ghost use Rattle.numa_page_state.specs.Outcomes.{forgotten, has_stated, lack_of, lack_told};
ghost use Rattle.numa_placed.specs.declared.spot.Spot.{Spot};
ghost use Rattle.numa_page_state.specs.Lying.{Lying, with_spots};
ghost use Rattle.numa_page_state.specs.Standing.{Forgets, HaveRoom, Replaces};

use crate::binding::stated_astray;
use crate::state::PageState;
use numa_mask::NodeMask;
use numa_placed::{Placed, Rooms};
use numa_requests::PlacedRefusal;
use std::mem;

/// Whether pages of a span were stated to lie somewhere: then they lie astray of no nodes at all.
fn has_stated(placed: &Placed, start: u64, length: u64) -> bool
    ensures { result ≡ has_stated (spot_at placed.now) start length }
{
    stated_astray(placed, start, length, &NodeMask::empty())
}

/// The pages, with nothing stated of those of a span.
///
/// # Errors
/// `TooManyRuns`, `NoMemory`: as [`Placed::forget`] says.
fn forgotten(placed: &Placed, start: u64, length: u64) -> Result<Placed, PlacedRefusal>
    requires { has_stated (spot_at placed.now) start length ≡ true }
    ensures ok { IfOk result (λ after. (page : ℕ)
        → spot_at after page ≡ forgotten start length (spot_at placed.now) page) }
    ensures err { IfErr result (λ why. lack_of (lack_told why)
        (forgotten start length (spot_at placed.now)) ≡ Some why) }
{
    let Ok(mut after) = placed.copy() else {
        return Err(PlacedRefusal::NoMemory);
    };
    match after.forget(start, length) {
        Ok(()) => Ok(after),
        Err(refusal) => Err(refusal),
    }
}

/// The rooms once pages lie otherwise, where a line said one.
fn rooms_between(rooms: &Option<Rooms>, before: &Placed, after: &Placed) -> Option<Rooms>
    ensures { (lying : Lying) (spots : ℕ → Spot) → HaveRoom rooms.now lying.room
        → ((page : ℕ) → spot_at before.now page ≡ lying.spots page)
        → ((page : ℕ) → spot_at after.now page ≡ spots page)
        → HaveRoom result (with_spots spots lying).room }
{
    match rooms {
        Some(have) => {
            let lay = before.stated_counts();
            let lie = after.stated_counts();
            Some(have.between(&lay, &lie))
        }
        None => None,
    }
}

impl PageState {
    /// The pages without those of a span, if some of the span were stated to lie somewhere.
    ///
    /// # Errors
    /// `TooManyRuns`, `NoMemory`: as [`Placed::forget`] says.
    pub fn without_span(&self, start: u64, length: u64) -> Result<Option<Placed>, PlacedRefusal>
        ensures { Forgets (Some self.now) start length result }
    {
        if !has_stated(&self.placed, start, length) {
            return Ok(None);
        }
        match forgotten(&self.placed, start, length) {
            Ok(after) => Ok(Some(after)),
            Err(refusal) => Err(refusal),
        }
    }

    /// Pages lie so from now on; one that left a node gave its room back, and one that came took
    /// some.
    pub fn replace(&mut self, after: Placed)
        ensures { Replaces (Some self.old) after (Some self.new) }
    {
        let rooms = rooms_between(&self.rooms, &self.placed, &after);
        drop(mem::replace(&mut self.placed, after));
        self.rooms = rooms;
    }
}

/// The pages without those of a span, if some of the span were stated to lie somewhere.
///
/// # Errors
/// `TooManyRuns`, `NoMemory`: as [`Placed::forget`] says.
pub fn without_span(
    state: &Option<PageState>,
    start: u64,
    length: u64,
) -> Result<Option<Placed>, PlacedRefusal>
    ensures { Forgets state.now start length result }
{
    match state {
        None => Ok(None),
        Some(kept) => kept.without_span(start, length),
    }
}

/// Pages lie so from now on, where any are kept; one that left a node gave its room back.
pub fn replace(state: &mut Option<PageState>, after: Placed)
    ensures { Replaces state.old after state.new }
{
    if let Some(kept) = state {
        kept.replace(after);
    }
}
