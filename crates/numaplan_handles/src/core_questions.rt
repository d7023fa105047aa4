//! Questions to a handle of a core: a copy of the core, its ranges, and their listing.
ghost use Rattle.std.specs.Prelude.{◌≡◌, ◌≤◌, ◌^◌, Some, None, true, IfSome, List};
ghost use Rattle.std.specs.Prelude.{IfOk, length, slice_get};
ghost use Rattle.numa_maps.specs.Listing.{AreRangesOf, IsListing, listing_in};
ghost use Rattle.numa_ranges.specs.Runs.{end_of};
ghost use Rattle.numa_space.specs.Refusals.{range_count_of};
ghost use Rattle.numa_space.specs.Standing.{StandsFor};
ghost use Rattle.numa_requests.specs.declared.command.Command.{Command};
ghost use Rattle.numaplan_handles.specs.Handles.{core_in};
ghost use Rattle.numaplan_handles.specs.Asked.{HasRanges, HasRangeAt, HasListing, HasPlaceOf};
ghost use Rattle.numaplan_handles.specs.Asked.{HasRules, HasTaskPolicy};
ghost use Rattle.numaplan_handles.specs.Calls.{Asks, IsShared};
ghost use Rattle.numaplan_handles.specs.Kinds.{core_of, is_core};
ghost use Rattle.numaplan_handles.specs.Steps.{Publishes};

use crate::core_handle::CoreHandle;
use crate::handle::of_kept;
use crate::kept::{Kept, kept_as};
use crate::search::place_of;
use numa_core::Core;
use numa_lines::Watched;
use numa_machine::{NoMemory, Rules};
use numa_maps::{Resident, write_maps};
use numa_mode::Record;
use numa_plan::Plan;
use numa_ranges::Run;
use numa_space::{RangeRecord, Space};
use std::alloc::{AllocError, Global};

/// The core that is kept.
pub fn core_kept(kept: &Kept) -> &Core
    requires core { is_core (Some kept.now) ≡ true }
    ensures core { core_of (Some kept.now) ≡ Some result.now }
{
    kept_as!(kept, Core)
}

/// The number of ranges.
fn count_of(space: &Space) -> usize
    ensures ranges { result ≡ length space.now.ranges }
    ensures meaning { (history : List Command) → StandsFor space.now history
        → result ≡ range_count_of space.now.machine history }
{
    space.ranges()
}

/// The range at a place, counted from 0 in ascending order.
pub(crate) fn range_of(space: &Space, place: usize) -> Option<Run<RangeRecord>>
    ensures range { result ≡ slice_get space.now.ranges place }
    ensures end { IfSome result (λ range. end_of range ≤ 2 ^ 35) }
    ensures meaning { (history : List Command) → StandsFor space.now history
        → AreRangesOf space.now.machine history space.now.ranges }
{
    // Tells the proof what the ranges are.
    let _ = space.range_iter();
    space.range_at(place)
}

/// The ranges as a text.
fn listing_of(
    alloc: Global,
    space: &Space,
    task: u32,
    placed: &Resident,
) -> Result<Vec<u8>, AllocError>
    ensures text { IfOk result (λ text.
        text.items ≡ listing_in space.now task placed.now) }
    ensures meaning { (history : List Command) → StandsFor space.now history
        → IsListing space.now.machine history task placed.now
        (listing_in space.now task placed.now) }
{
    let mut output = Watched::new(Vec::new(alloc));
    let Ok(()) = write_maps(space, task, placed, &mut output) else {
        return Err(AllocError);
    };
    Ok(output.inner)
}

impl CoreHandle {
    /// Puts a copy of the core into another, closed handle. Later events of one of the two don't
    /// affect the other. `None` if this handle is closed.
    ///
    /// # Errors
    /// `AllocError`: out of memory.
    pub fn copy(&mut self, alloc: Global, other: &mut CoreHandle) -> Option<Result<(), AllocError>>
        requires closed { core_in other.old ≡ None }
        ensures same { core_in self.new ≡ core_in self.old }
        ensures copied { IsShared (core_in self.old) result (core_in other.new) }
    {
        self.handle.share(alloc, &mut other.handle)
    }

    /// A copy of the plan of the published commands, which shares its runs and rules, so that
    /// nothing is compiled. `None` if the handle is closed.
    ///
    /// # Errors
    /// `NoMemory`: out of memory.
    pub fn published_plan(&mut self, alloc: Global) -> Option<Result<Plan, NoMemory>>
        ensures { Asks (λ answer. IfOk answer (Publishes (core_in self.old))) (core_in self.old)
            result (core_in self.new) }
    {
        of_kept!(self.handle, alloc, kept => core_kept(&kept).plan().copy(alloc))
    }

    /// The number of ranges by all accepted commands. `None` if the handle is closed.
    pub fn ranges(&mut self, alloc: Global) -> Option<usize>
        ensures { Asks (HasRanges (core_in self.old)) (core_in self.old) result (core_in self.new) }
    {
        of_kept!(self.handle, alloc, kept => count_of(core_kept(&kept).space()))
    }

    /// The range at a place, counted from 0 in ascending order, or no range. `None` if the handle
    /// is closed.
    pub fn range(&mut self, alloc: Global, place: usize) -> Option<Option<Run<RangeRecord>>>
        ensures range { Asks (HasRangeAt (core_in self.old) place) (core_in self.old) result
            (core_in self.new) }
        ensures end { IfSome result (λ found. IfSome found (λ range. end_of range ≤ 2 ^ 35)) }
    {
        of_kept!(self.handle, alloc, kept => range_of(core_kept(&kept).space(), place))
    }

    /// The place of the range that has a page, or else of the next one; the number of ranges if
    /// there is none. `None` if the handle is closed.
    pub fn place_of(&mut self, alloc: Global, page: u64) -> Option<usize>
        ensures { Asks (HasPlaceOf (core_in self.old) page) (core_in self.old) result
            (core_in self.new) }
    {
        of_kept!(self.handle, alloc, kept => place_of(core_kept(&kept).space(), page))
    }

    /// The rules by which the core goes. `None` if the handle is closed.
    pub fn rules(&mut self, alloc: Global) -> Option<Rules>
        ensures { Asks (HasRules (core_in self.old)) (core_in self.old) result (core_in self.new) }
    {
        of_kept!(self.handle, alloc, kept => core_kept(&kept).space().machine().rules())
    }

    /// The policy of a task, or no policy. `None` if the handle is closed.
    pub fn task_policy(&mut self, alloc: Global, task: u32) -> Option<Option<Record>>
        ensures { Asks (HasTaskPolicy (core_in self.old) task) (core_in self.old) result
            (core_in self.new) }
    {
        of_kept!(self.handle, alloc, kept => core_kept(&kept).space().task_policy(task))
    }

    /// The listing of the ranges for a task, with the placed pages, as [`write_maps`] writes it.
    /// `None` if the handle is closed.
    ///
    /// # Errors
    /// `AllocError`: out of memory.
    pub fn listing(
        &mut self,
        alloc: Global,
        task: u32,
        placed: &Resident,
    ) -> Option<Result<Vec<u8>, AllocError>>
        ensures { Asks (λ answer. IfOk answer (λ text.
            HasListing (core_in self.old) task placed.now text.items)) (core_in self.old) result
            (core_in self.new) }
    {
        of_kept!(self.handle, alloc, kept => {
            listing_of(alloc, core_kept(&kept).space(), task, placed)
        })
    }
}
