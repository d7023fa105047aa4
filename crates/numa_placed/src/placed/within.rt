//! Pages that come to nodes as far as these have room.
ghost use Rattle.std.specs.Prelude.{◌≡◌, ℕ, IfErr, IfOk, None, OnErr, OnOk, false, is_some};
ghost use Rattle.numa_ranges.specs.Runs.{page_at};
ghost use Rattle.numa_space.specs.History.{page_of, page_count};
ghost use Rattle.numa_placed.specs.Binds.{IsBound, bound_spots, touched_of};
ghost use Rattle.numa_placed.specs.Refusals.{IsRefusal, IsRefusalWithin, LacksForBytes};
ghost use Rattle.numa_placed.specs.Refusals.{populate_cause, state_cause};
ghost use Rattle.numa_placed.specs.Shifts.{ArePages, AreRooms, is_short, rooms_between, stated_on};
ghost use Rattle.numa_placed.specs.Spots.{spot_at, stated_beside};

use crate::bind::FaultingTask;
use crate::bound::Bound;
use crate::fitting::keep_all_rooms;
use crate::judge::judge_touch;
use crate::placed::Placed;
use crate::places::count_each;
use crate::rooms::Rooms;
use crate::spans::{span_of, state_others_within, stated_span};
use crate::touched::touch_span;
use crate::wants::Wants;
use numa_maps::Resident;
use numa_requests::PlacedRefusal;
use numa_space::Space;

impl Placed {
    /// By node, the number of pages that lie there without a frame.
    pub fn stated_counts(&self) -> [u64; 256]
        ensures { ArePages result (stated_on (spot_at self.now)) }
    {
        count_each(&self.places)
    }

    /// States that the mapped pages of a span lie on a node, as `state_beside` does, as far as the
    /// node has room for those that come to it. They take its room, and give back that of the nodes
    /// which they leave. Start and length are in bytes.
    ///
    /// # Errors
    /// The first of these that applies; nothing has changed: `Unaligned`, `OutOfSpace`,
    /// `NoSuchNode`, `NoRoom`, `TooManyRuns`, `NoMemory`, as [`PlacedRefusal`] says. `NoMemory` can
    /// come before `NoRoom` and `TooManyRuns`, but never to a span of 0 bytes.
    pub fn state_within(
        &mut self,
        space: &Space,
        start: u64,
        length: u64,
        node: u32,
        resident: &Resident,
        rooms: &mut Rooms,
    ) -> Result<(), PlacedRefusal>
        ensures accepted { OnOk result
            (state_cause space.now.machine start length node ≡ None) }
        ensures ok { OnOk result ((page : ℕ) → spot_at self.new page
            ≡ stated_beside (λ p. is_some (page_at space.now.ranges p)) resident.now
            (page_of start) (page_count length) node (spot_at self.old) page) }
        ensures fits { (room : ℕ → ℕ) → AreRooms rooms.old room → OnOk result
            (is_short room (spot_at self.old) (spot_at self.new) node ≡ false) }
        ensures taken { (room : ℕ → ℕ) → AreRooms rooms.old room → OnOk result
            (AreRooms rooms.new (rooms_between room (spot_at self.old) (spot_at self.new))) }
        ensures err { (room : ℕ → ℕ) → AreRooms rooms.old room → IfErr result (IsRefusalWithin
            (state_cause space.now.machine start length node) (is_short room (spot_at self.old)
            (stated_beside (λ p. is_some (page_at space.now.ranges p)) resident.now
            (page_of start) (page_count length) node (spot_at self.old)) node)
            (stated_beside (λ p. is_some (page_at space.now.ranges p)) resident.now
            (page_of start) (page_count length) node (spot_at self.old))) }
        ensures room { IfErr result (LacksForBytes length) }
        ensures unchanged { OnErr result (self.new ≡ self.old) }
        ensures rooms { OnErr result (rooms.new ≡ rooms.old) }
    {
        let said = stated_span(space, start, length, node)?;
        if said.pages == 0 {
            keep_all_rooms(&self.places, rooms);
            return Ok(());
        }
        state_others_within(&mut self.places, space, said, resident, rooms)
    }

    /// Touches each page of a span for the first time, as a task on a CPU of node `cpu` does that
    /// writes to it (madvise(2), MADV_POPULATE_WRITE): the lowest page first, each that is nowhere
    /// goes to the first node of its fallback list that has room by then. Pages that are there
    /// already, in a frame or without, are passed over, and a page that finds no room stays
    /// nowhere. Start and length are in bytes.
    ///
    /// # Errors
    /// The first of these that applies; nothing has changed: `Unaligned`, `OutOfSpace`, `BadCpu`,
    /// `Unmapped`, `TooManyRuns`, `NoMemory`, as [`PlacedRefusal`] says. `NoMemory` can come before
    /// `TooManyRuns`.
    pub fn populate(
        &mut self,
        space: &Space,
        start: u64,
        length: u64,
        task: u32,
        cpu: u32,
        resident: &Resident,
        rooms: &mut Rooms,
    ) -> Result<Bound, PlacedRefusal>
        ensures accepted { OnOk result (populate_cause space.now.machine
            (λ p. is_some (page_at space.now.ranges p)) start length cpu ≡ None) }
        ensures ok { (room : ℕ → ℕ) → AreRooms rooms.old room → IfOk result (IsBound
            (touched_of space.now resident.now start length task cpu) (spot_at self.old) room
            (spot_at self.new) rooms.new) }
        ensures err { (room : ℕ → ℕ) → AreRooms rooms.old room → IfErr result (IsRefusal
            (populate_cause space.now.machine (λ p. is_some (page_at space.now.ranges p)) start
            length cpu) (bound_spots (touched_of space.now resident.now start length task cpu)
            (spot_at self.old) room)) }
        ensures unchanged { OnErr result (self.new ≡ self.old) }
        ensures rooms { OnErr result (rooms.new ≡ rooms.old) }
    {
        let (first, pages) = span_of(start, length)?;
        judge_touch(space, first, pages, cpu)?;
        let touch = FaultingTask { task, cpu };
        touch_span(
            &mut self.places,
            space,
            first,
            pages,
            &Wants::Absent(resident),
            touch,
            rooms,
        )
    }
}
