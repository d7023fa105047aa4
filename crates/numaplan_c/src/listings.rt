//! Listings of a core's ranges.
ghost use Rattle.std.specs.Prelude.{◌≡◌, ◌≢◌, Some, None, is_some, true, Result, List, ℕ};
ghost use Rattle.std.specs.Prelude.{IfOk, IfErr, OnOk, IsSome};
ghost use Rattle.numaplan_handles.specs.Handles.{core_in};
ghost use Rattle.numa_maps.specs.Residents.{IsRising, placed_at};
ghost use Rattle.numaplan_c.specs.Ranges.{ArePlaced, Lists, RefusesPlaced, TellsListing};
ghost use Rattle.numaplan_c.specs.Border.{AskedInto};
ghost use Rattle.numaplan_c.specs.Ranges.{placement_of};

use crate::codes::Code;
use crate::events::NpPlacement;
use crate::keeping::ensure_open;
use crate::texts::write;
use numa_machine::Frame;
use numa_maps::{RecordRefusal, Resident};
use numa_requests::Placement;
use numaplan_handles::CoreHandle;
use std::alloc::Global;

/// Why a listing is refused.
#[derive(Clone, Copy)]
pub enum MapsRefusal {
    /// Two placements are of the same page.
    Twice,
    /// Out of memory.
    NoMemory,
}

/// The placement of a C struct.
fn placement_of(placed: &NpPlacement) -> Placement
    ensures { result ≡ placement_of placed.now }
{
    Placement {
        version: placed.version,
        task: placed.task,
        page: placed.page,
        node: placed.node,
        frame: Frame {
            node: placed.node,
            number: placed.frame,
        },
        rank: placed.rank,
    }
}

/// Records a placement.
fn keep(kept: &mut Resident, placed: &NpPlacement) -> Result<(), MapsRefusal>
    ensures free { OnOk result (placed_at kept.old placed.now.page ≡ None) }
    ensures kept { OnOk result
        (placed_at kept.new placed.now.page ≡ Some (placement_of placed.now)) }
    ensures others { OnOk result ((page : ℕ) → page ≢ placed.now.page
        → placed_at kept.new page ≡ placed_at kept.old page) }
    ensures rising { IsRising kept.new }
    ensures twice { IfErr result (λ refusal. refusal ≡ MapsRefusal.Twice
        → IsSome (placed_at kept.old placed.now.page)) }
{
    match kept.record(placement_of(placed)) {
        Ok(()) => Ok(()),
        Err(RecordRefusal::Taken(_)) => Err(MapsRefusal::Twice),
        Err(RecordRefusal::NoMemory(_)) => Err(MapsRefusal::NoMemory),
    }
}

/// Records the placements by page.
fn keep_all(alloc: Global, placements: &[NpPlacement]) -> Result<Resident, MapsRefusal>
    ensures placed { IfOk result (λ kept. ArePlaced placements.now kept) }
    ensures refused { IfErr result (λ refusal. RefusesPlaced placements.now refusal) }
{
    let mut kept = Resident::new(alloc);
    for placed in placements {
        if let Err(refusal) = keep(&mut kept, placed) {
            return Err(refusal);
        }
    }
    Ok(kept)
}

/// Writes the listing of an open core.
fn list(
    alloc: Global,
    core: &mut CoreHandle,
    task: u32,
    placements: &[NpPlacement],
) -> Result<Vec<u8>, MapsRefusal>
    requires open { is_some (core_in core.old) ≡ true }
    ensures same { core_in core.new ≡ core_in core.old }
    ensures listed { IfOk result (λ text.
        Lists (core_in core.old) task placements.now (Result.Ok text.items)) }
    ensures refused { IfErr result (λ refusal. RefusesPlaced placements.now refusal) }
{
    let placed = match keep_all(alloc, placements) {
        Ok(placed) => placed,
        Err(refusal) => return Err(refusal),
    };
    let listed = core.listing(alloc, task, &placed);
    drop(placed);
    match listed {
        None => unreachable!(),
        Some(Ok(text)) => Ok(text),
        Some(Err(_)) => Err(MapsRefusal::NoMemory),
    }
}

/// Writes the ranges as numa_maps shows them for a task, with the placed pages.
#[unsafe(no_mangle)]
pub extern "C" fn np_core_maps(
    alloc: Global,
    core: &mut CoreHandle,
    task: u32,
    placements: &[NpPlacement],
    text: &mut [u8],
    length: &mut usize,
) -> u32
    ensures { AskedInto (core_in core.old) (core_in core.new) result text.old text.new length.old
        length.new (λ kept. (answer : Result (List ℕ) MapsRefusal)
        × Lists (core_in core.old) task placements.now answer
        × TellsListing answer result text.old text.new length.old length.new) }
{
    ensure_open!(core);
    match list(alloc, core, task, placements) {
        Ok(found) => write(found.as_slice(), text, length),
        Err(MapsRefusal::Twice) => Code::PlacedTwice as u32,
        Err(MapsRefusal::NoMemory) => Code::NoMemory as u32,
    }
}
