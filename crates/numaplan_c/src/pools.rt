//! Seats at pools of frames.
ghost use Rattle.std.specs.Prelude.{◌≡◌, ◌≢◌, ℕ, Bool, Some, None, Option, true, is_some};
ghost use Rattle.std.specs.Prelude.{IfOk, IfErr, IfSome, MatchOption};
ghost use Rattle.numa_machine.specs.declared.fallback.Fallback.{Fallback};
ghost use Rattle.numa_machine.specs.declared.frame.Frame.{Frame};
ghost use Rattle.numa_mask.specs.Lists.{list_of};
ghost use Rattle.numa_pool.specs.Seated.{Seated, at_first};
ghost use Rattle.numaplan_handles.specs.Handles.{seat_in};
ghost use Rattle.numaplan_handles.specs.Seats.{Takes, Returns, Splits, Stays, Joins};
ghost use Rattle.numaplan_handles.specs.Seats.{AreTogether};
ghost use Rattle.numaplan_c.specs.Border.{AnswersKeeping, Opens, described_cause};
ghost use Rattle.numaplan_c.specs.Pools.{found_code, returned_code, Tells};

use crate::codes::Code;
use crate::keeping::{ensure_closed, if_open, memory_code, open_from};
use crate::machines::machine_of;
use crate::options::documents;
use numa_machine::Frame;
use numa_pool::OwnedSeat;
use numaplan_handles::SeatHandle;
use std::alloc::Global;

/// A frame of a node.
#[repr(C)]
#[derive(Clone, Copy)]
pub struct NpFrame {
    pub node: u8,
    pub number: u16,
}

const _: () = prove!(size_of::<NpFrame>() == 4);

/// The C struct of a frame.
pub(crate) fn frame_told(found: Frame) -> NpFrame
    ensures { result ≡ record { node = found.node; number = found.number } }
{
    NpFrame {
        node: found.node,
        number: found.number,
    }
}

/// The first seat at new pools of the frames of a described machine, or the code of what is wrong
/// with the description.
fn make(alloc: Global, memory: &[u8], frames: &[u32], distances: &[u8]) -> Result<OwnedSeat, u32>
    ensures first { IfOk result (λ seat. seat ≡ at_first frames.now seat.seat.table) }
    ensures cause { IfErr result (λ code. MatchOption (described_cause (list_of memory.now)
        frames.now distances.now None Fallback.Nearest) (code ≡ 3) (λ first. code ≡ first)) }
    ensures none { IfOk result (λ seat. described_cause (list_of memory.now) frames.now
        distances.now None Fallback.Nearest ≡ None) }
    ensures refused { IfErr result (λ code. code ≢ 0) }
{
    let machine = match machine_of(alloc, memory, frames, distances, None, documents()) {
        Ok(machine) => machine,
        Err(code) => return Err(code),
    };
    let opened = OwnedSeat::open(alloc, &machine);
    drop(machine);
    match opened {
        Ok(seat) => Ok(seat),
        Err(_) => Err(Code::NoMemory as u32),
    }
}

/// Opens pools of a machine's frames.
#[unsafe(no_mangle)]
pub extern "C" fn np_seat_open(
    alloc: Global,
    seat: &mut SeatHandle,
    memory: &[u8],
    frames: &[u32],
    distances: &[u8],
) -> u32
    ensures opens { Opens (seat_in seat.old) result (seat_in seat.new) }
    ensures first { seat_in seat.old ≡ None → IfSome (seat_in seat.new) (λ made.
        made ≡ at_first frames.now made.seat.table) }
    ensures cause { seat_in seat.old ≡ None → result ≢ 0 →
        MatchOption (described_cause (list_of memory.now) frames.now distances.now None
        Fallback.Nearest) (result ≡ 3) (λ first. result ≡ first) }
    ensures none { result ≡ 0 →
        described_cause (list_of memory.now) frames.now distances.now None Fallback.Nearest
        ≡ None }
    ensures open { is_some (seat_in seat.old) ≡ true → result ≡ 2 }
{
    ensure_closed!(seat);
    match make(alloc, memory, frames, distances) {
        Ok(made) => memory_code(seat.open(alloc, made)),
        Err(code) => code,
    }
}

/// Opens another handle with a new seat at the same pools.
#[unsafe(no_mangle)]
pub extern "C" fn np_seat_split(alloc: Global, seat: &mut SeatHandle, other: &mut SeatHandle) -> u32
    ensures code { AnswersKeeping (seat_in seat.old) (seat_in other.old) result }
    ensures split { result ≡ 0 → Splits (seat_in seat.old) (seat_in seat.new) (seat_in other.new)
        × (is_some (seat_in seat.old) ≡ true) }
    ensures unchanged { result ≢ 0 → Stays (seat_in seat.old) (seat_in seat.new)
        × (seat_in other.new ≡ seat_in other.old) }
    ensures open { is_some (seat_in other.old) ≡ true → seat_in seat.new ≡ seat_in seat.old }
    ensures closed { seat_in seat.old ≡ None → seat_in seat.new ≡ None }
{
    open_from!(other, seat.split(alloc, other))
}

/// Takes a frame of the first node of a list that has one.
#[unsafe(no_mangle)]
pub extern "C" fn np_seat_take(
    alloc: Global,
    seat: &mut SeatHandle,
    nodes: &[u8],
    frame: &mut NpFrame,
    rank: &mut usize,
) -> u32
    ensures closed { seat_in seat.old ≡ None → (result ≡ 1) × (seat_in seat.new ≡ None)
        × (frame.new ≡ frame.old) × (rank.new ≡ rank.old) }
    ensures takes { (kept : Seated) → seat_in seat.old ≡ Some kept →
        (found : Option (ℕ × Frame)) × (result ≡ found_code found)
        × Takes nodes.now (seat_in seat.old) (seat_in seat.new) found
        × Tells found frame.old frame.new rank.old rank.new }
{
    if_open!(seat.take(alloc, nodes), Code::AllTaken, found => {
        *frame = frame_told(found.1);
        *rank = found.0;
        0
    })
}

/// Gives back a frame.
#[unsafe(no_mangle)]
pub extern "C" fn np_seat_give(alloc: Global, seat: &mut SeatHandle, node: u8, number: u16) -> u32
    ensures closed { seat_in seat.old ≡ None → (result ≡ 1) × (seat_in seat.new ≡ None) }
    ensures returns { (kept : Seated) → seat_in seat.old ≡ Some kept →
        (held : Bool) × (result ≡ returned_code held)
        × Returns (record { node = node; number = number }) (seat_in seat.old) (seat_in seat.new)
        held }
{
    match seat.give(alloc, Frame { node, number }) {
        None => Code::Closed as u32,
        Some(true) => 0,
        Some(false) => Code::NotOwned as u32,
    }
}

/// Moves the frames of a seat to another one at the same pools.
#[unsafe(no_mangle)]
pub extern "C" fn np_seat_join(alloc: Global, seat: &mut SeatHandle, other: &mut SeatHandle) -> u32
    requires together { AreTogether (seat_in seat.old) (seat_in other.old) }
    ensures joins { result ≡ 0 → Joins (seat_in seat.old) (seat_in other.old) (seat_in seat.new)
        × (seat_in other.new ≡ None) }
    ensures unchanged { result ≢ 0 → (result ≡ 1) × (seat_in seat.new ≡ seat_in seat.old)
        × (seat_in other.new ≡ seat_in other.old) }
    ensures seat { seat_in seat.old ≡ None → result ≡ 1 }
    ensures other { seat_in other.old ≡ None → result ≡ 1 }
    ensures done { is_some (seat_in seat.old) ≡ true → is_some (seat_in other.old) ≡ true →
        result ≡ 0 }
{
    if seat.join(alloc, other) {
        return 0;
    }
    Code::Closed as u32
}

/// Closes a handle of a seat. Frames that it holds stay taken.
#[unsafe(no_mangle)]
pub extern "C" fn np_seat_close(alloc: Global, seat: &mut SeatHandle)
    ensures { seat_in seat.new ≡ None }
{
    seat.handle.close(alloc)
}
