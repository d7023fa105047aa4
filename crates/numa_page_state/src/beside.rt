//! First touches of pages of 4 KiB beside pages of 2 MiB, whose parts they pass over.
ghost use Rattle.std.specs.Prelude.{◌≡◌, ◌+◌, ◌<◌, ◌≤◌, ℕ, Err, OnErr, OnOk};
ghost use Rattle.numa_placed.specs.Spots.{spot_at};
ghost use Rattle.numa_huge.specs.Huge.{huge_at, most_pages, places_of};
ghost use Rattle.numa_huge.specs.Moves.{HugeMemory};
ghost use Rattle.numa_page_state.specs.Huge.{TouchesBeside, small_populated, with_parts};
ghost use Rattle.numa_page_state.specs.Lying.{ground_in};
ghost use Rattle.numa_page_state.specs.Standing.{DoesAs};

use crate::arrived::Arrived;
use crate::binding::page_count;
use crate::huge::{HUGE_BYTES, HugeSpan, PARTS, huge_span};
use crate::state::PageState;
use crate::touching::touch;
use numa_huge::HugePlaces;
use numa_machine::NoMemory;
use numa_maps::Resident;
use numa_placed::{Placed, Rooms, Spot};
use numa_requests::{PAGE_BYTES, PlacedRefusal};
use numa_space::Space;
use std::mem;

/// States that the parts of pages of which the same is known lie somewhere, if they are mapped as
/// ones of 2 MiB.
fn mark_run(placed: &mut Placed, huge: &HugePlaces, first: u64, pages: u64) -> Result<(), NoMemory>
    requires some { 0 < pages }
    requires within { first + pages ≤ most_pages }
    requires alike { (page : ℕ) → first ≤ page → page < first + pages
        → huge_at huge.now.runs page ≡ huge_at huge.now.runs first }
    ensures { OnOk result ((part : ℕ) → spot_at placed.new part
        ≡ with_parts (Spot.Stated 0) (huge_at huge.now.runs) first pages
        (spot_at placed.old) part) }
{
    let Some(_) = huge.at(first) else {
        return Ok(());
    };
    match placed.set(first * PARTS, pages * PARTS, 0) {
        Ok(()) => Ok(()),
        Err(_) => Err(NoMemory),
    }
}

/// Takes that back.
fn clear_run(placed: &mut Placed, huge: &HugePlaces, first: u64, pages: u64) -> Result<(), NoMemory>
    requires some { 0 < pages }
    requires within { first + pages ≤ most_pages }
    requires alike { (page : ℕ) → first ≤ page → page < first + pages
        → huge_at huge.now.runs page ≡ huge_at huge.now.runs first }
    ensures { OnOk result ((part : ℕ) → spot_at placed.new part
        ≡ with_parts Spot.Nowhere (huge_at huge.now.runs) first pages
        (spot_at placed.old) part) }
{
    let Some(_) = huge.at(first) else {
        return Ok(());
    };
    match placed.forget(first * HUGE_BYTES, pages * HUGE_BYTES) {
        Ok(()) => Ok(()),
        Err(_) => Err(NoMemory),
    }
}

/// States that the parts of the pages of 2 MiB of a span lie somewhere, so that they aren't
/// touched as pages of 4 KiB.
fn mark_parts(placed: &mut Placed, huge: &HugePlaces, span: HugeSpan) -> Result<(), NoMemory>
    requires { span.first + span.pages ≤ most_pages }
    ensures { OnOk result ((part : ℕ) → spot_at placed.new part
        ≡ with_parts (Spot.Stated 0) (huge_at huge.now.runs) span.first span.pages
        (spot_at placed.old) part) }
{
    let end = span.first + span.pages;
    let mut page = span.first;
    while page < end {
        let next = huge.alike_end(page, end);
        let Ok(()) = mark_run(placed, huge, page, next - page) else {
            return Err(NoMemory);
        };
        page = next;
    }
    Ok(())
}

/// Takes that back.
fn clear_parts(placed: &mut Placed, huge: &HugePlaces, span: HugeSpan) -> Result<(), NoMemory>
    requires { span.first + span.pages ≤ most_pages }
    ensures { OnOk result ((part : ℕ) → spot_at placed.new part
        ≡ with_parts Spot.Nowhere (huge_at huge.now.runs) span.first span.pages
        (spot_at placed.old) part) }
{
    let end = span.first + span.pages;
    let mut page = span.first;
    while page < end {
        let next = huge.alike_end(page, end);
        let Ok(()) = clear_run(placed, huge, page, next - page) else {
            return Err(NoMemory);
        };
        page = next;
    }
    Ok(())
}

/// Touches each page of 4 KiB of a span for the first time, as far as there is room.
fn touch_beside(
    placed: &mut Placed,
    rooms: &mut Option<Rooms>,
    space: &Space,
    resident: &Resident,
    huge: &HugePlaces,
    start: u64,
    length: u64,
    task: u32,
    cpu: u32,
) -> Result<Arrived, PlacedRefusal>
    ensures { TouchesBeside placed.old rooms.old (ground_in space.now resident.now)
        (huge_at huge.now.runs) start length task cpu result placed.new rooms.new }
{
    let span = huge_span(start / PAGE_BYTES, page_count(length));
    let Ok(()) = mark_parts(placed, huge, span) else {
        return Err(PlacedRefusal::NoMemory);
    };
    let arrived = match touch(placed, rooms, space, resident, start, length, task, cpu) {
        Ok(arrived) => arrived,
        Err(why) => return Err(why),
    };
    let Ok(()) = clear_parts(placed, huge, span) else {
        return Err(PlacedRefusal::NoMemory);
    };
    Ok(arrived)
}

impl PageState {
    /// Touches each page of 4 KiB of a span for the first time, as `populate` does, where some of
    /// the span have 2 MiB: their parts are passed over.
    ///
    /// # Errors
    /// As those of `populate`. Nothing has changed.
    pub fn populate_beside(
        &mut self,
        space: &Space,
        resident: &Resident,
        huge: &HugePlaces,
        start: u64,
        length: u64,
        task: u32,
        cpu: u32,
    ) -> Result<(), PlacedRefusal>
        ensures does { (memory : HugeMemory) → places_of huge.now ≡ memory.pages
            → DoesAs self.old result self.new (Err PlacedRefusal.NoMemory) (λ lack at.
            small_populated lack (ground_in space.now resident.now) start length task cpu memory
            at) }
        ensures unchanged { OnErr result (self.new ≡ self.old) }
    {
        let Ok(mut placed) = self.placed.copy() else {
            return Err(PlacedRefusal::NoMemory);
        };
        let mut rooms = self.rooms;
        match touch_beside(
            &mut placed,
            &mut rooms,
            space,
            resident,
            huge,
            start,
            length,
            task,
            cpu,
        ) {
            Ok(arrived) => {
                drop(mem::replace(&mut self.placed, placed));
                self.rooms = rooms;
                self.arrived = arrived;
                Ok(())
            }
            Err(why) => Err(why),
        }
    }
}
