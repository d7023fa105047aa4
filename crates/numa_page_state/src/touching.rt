//! First touches: pages of a span that are nowhere go where a fault of the task puts them.
ghost use Rattle.std.specs.Prelude.{◌≡◌, ◌+◌, ◌<◌, ◌≤◌, ◌^◌, ℕ, Err, OnErr, true};
ghost use Rattle.numa_ranges.specs.Runs.{in_pages};
ghost use Rattle.numa_space.specs.History.{page_count, page_of};
ghost use Rattle.numa_page_state.specs.Lying.{Lying, ground_in};
ghost use Rattle.numa_page_state.specs.Standing.{ArrivedAs, DoesAs, LiesAs, Touches};
ghost use Rattle.numa_page_state.specs.Touching.{populate_outcome};

use crate::arrived::{Arrived, more};
use crate::binding::page_count;
use crate::sending::rooms_if;
use crate::state::{PageState, rooms_of};
use numa_maps::Resident;
use numa_placed::{Placed, Rooms};
use numa_requests::{PAGE_BYTES, PlacedRefusal};
use numa_space::Space;

/// The end of the pages that can lie anywhere.
const LAST_PAGE: u64 = 1 << 35;

/// The pages of a span that can lie anywhere: the first, and how many they are.
fn pages_below(start: u64, length: u64) -> (u64, u64)
    ensures within { result.0 + result.1 ≤ 2 ^ 35 }
    ensures low { (page : ℕ) → page < 2 ^ 35
        → in_pages (page_of start) (page_count length) page ≡ true → result.0 ≤ page }
    ensures high { (page : ℕ) → page < 2 ^ 35
        → in_pages (page_of start) (page_count length) page ≡ true → page < result.0 + result.1 }
{
    let first = (start / PAGE_BYTES).min(LAST_PAGE);
    let pages = page_count(length).min(LAST_PAGE - first);
    (first, pages)
}

/// Touches each page of a span for the first time, as far as there is room.
///
/// # Errors
/// As [`Placed::populate`].
pub(crate) fn touch(
    placed: &mut Placed,
    rooms: &mut Option<Rooms>,
    space: &Space,
    resident: &Resident,
    start: u64,
    length: u64,
    task: u32,
    cpu: u32,
) -> Result<Arrived, PlacedRefusal>
    ensures { Touches placed.old rooms.old (ground_in space.now resident.now) start length task cpu
        result placed.new rooms.new }
{
    let (first, pages) = pages_below(start, length);
    let before = placed.counts_in(first, pages);
    let mut left = rooms_of(rooms);
    let bound = placed.populate(space, start, length, task, cpu, resident, &mut left)?;
    let after = placed.counts_in(first, pages);
    let on = more(&before, after);
    *rooms = rooms_if(rooms, left);
    Ok(Arrived {
        placed: bound.moved,
        exhausted: bound.left,
        on,
    })
}

impl PageState {
    /// Touches each page of a span for the first time, as a task on a CPU of node `cpu` does that
    /// writes to it (madvise(2), MADV_POPULATE_WRITE): the lowest page first, each that is nowhere
    /// goes to the first node of its fallback list that has room by then, and takes one. Pages that
    /// are there already, in a frame or without, are passed over; a page that finds no room stays
    /// nowhere, and the next go on. Start and length are in bytes. [`PageState::arrived`] tells
    /// what it did.
    ///
    /// # Errors
    /// As [`Placed::populate`].
    pub fn populate(
        &mut self,
        space: &Space,
        resident: &Resident,
        start: u64,
        length: u64,
        task: u32,
        cpu: u32,
    ) -> Result<(), PlacedRefusal>
        ensures does { DoesAs self.old result self.new (Err PlacedRefusal.NoMemory) (λ lack at.
            populate_outcome lack (ground_in space.now resident.now) start length task cpu at) }
        ensures unchanged { OnErr result (self.new ≡ self.old) }
    {
        let done = touch(
            &mut self.placed,
            &mut self.rooms,
            space,
            resident,
            start,
            length,
            task,
            cpu,
        )?;
        self.arrived = done;
        Ok(())
    }

    /// What the last first touches of a span did.
    pub fn arrived(&self) -> &Arrived
        ensures { (lying : Lying) → LiesAs self.now lying → ArrivedAs result.now lying.arrived }
    {
        &self.arrived
    }
}
