//! Handles of seats at pools of frames.
ghost use Rattle.std.specs.Prelude.{◌≡◌, ◌&&◌, Some, None, MatchOption, IfOk, OnOk, OnErr, is_some};
ghost use Rattle.std.specs.Prelude.{true, false};
ghost use Rattle.numaplan_handles.specs.Calls.{Calls, Keeps};
ghost use Rattle.numaplan_handles.specs.Kinds.{CallsKept, seat_of, is_seat};
ghost use Rattle.numaplan_handles.specs.Seats.{Takes, Returns, Migrates, Splits, Stays, Joins};
ghost use Rattle.numaplan_handles.specs.Seats.{AreTogether};

use crate::handle::{Handle, of_kept};
use crate::kept::Kept;
use numa_machine::{Frame, NoMemory};
use numa_pool::{ExchangeRefusal, OwnedSeat};
use std::alloc::{AllocError, Global};

/// Handles of seats at pools of frames.
#[repr(C)]
pub struct SeatHandle {
    pub handle: Handle,
    ghost kind: { is_seat handle.held.kept ≡ true },
}

/// Exchanges a frame that the seat holds for one of the node.
fn migrate_kept(kept: &mut Kept, frame: Frame, node: u8) -> Result<Frame, ExchangeRefusal>
    requires seat { is_seat (Some kept.old) ≡ true }
    ensures { CallsKept is_seat seat_of (Migrates frame node) kept.old result kept.new }
{
    match kept {
        Kept::Seat(seat) => seat.exchange(frame, node),
        _ => unreachable!(),
    }
}

/// Moves the frames of another seat to this one.
fn join_kept(kept: &mut Kept, other: Kept)
    requires seat { is_seat (Some kept.old) ≡ true }
    requires other { is_seat (Some other) ≡ true }
    requires together { AreTogether (seat_of (Some kept.old)) (seat_of (Some other)) }
    ensures seat { is_seat (Some kept.new) ≡ true }
    ensures joins { Joins (seat_of (Some kept.old)) (seat_of (Some other))
        (seat_of (Some kept.new)) }
{
    let Kept::Seat(other) = other else {
        unreachable!()
    };
    match kept {
        Kept::Seat(seat) => seat.join(other),
        _ => unreachable!(),
    }
}

/// Splits a seat off.
fn split_kept(kept: &mut Kept, alloc: Global) -> Result<Box<Kept>, NoMemory>
    requires seat { is_seat (Some kept.old) ≡ true }
    ensures seat { is_seat (Some kept.new) ≡ true }
    ensures other { IfOk result (λ other. is_seat (Some other.value) ≡ true) }
    ensures ok { IfOk result (λ other. Splits (seat_of (Some kept.old))
        (seat_of (Some kept.new)) (seat_of (Some other.value))) }
    ensures err { OnErr result (Stays (seat_of (Some kept.old)) (seat_of (Some kept.new))) }
{
    let made = match kept {
        Kept::Seat(seat) => seat.split(alloc),
        _ => unreachable!(),
    };
    let Ok(made) = made else {
        return Err(NoMemory);
    };
    Kept::Seat(made).on_heap(alloc).ok_or(NoMemory)
}

impl SeatHandle {
    ghost use Rattle.numaplan_handles.specs.Handles.{seat_in};

    /// Puts a seat into a closed handle.
    ///
    /// # Errors
    /// `AllocError`: out of memory; the seat is dropped.
    pub fn open(&mut self, alloc: Global, seat: OwnedSeat) -> Result<(), AllocError>
        requires closed { seat_in self.old ≡ None }
        ensures { Keeps seat result (seat_in self.new) }
    {
        self.handle.keep(alloc, Kept::Seat(seat))
    }

    /// Takes a frame of the first listed node that has one, as [`OwnedSeat::take`]. `None` if the
    /// handle is closed.
    pub fn take(&mut self, alloc: Global, nodes: &[u8]) -> Option<Option<(usize, Frame)>>
        ensures { Calls (Takes nodes.now) (seat_in self.old) result (seat_in self.new) }
    {
        of_kept!(self.handle, alloc, Kept::Seat(seat) => seat.take(nodes))
    }

    /// Exchanges a frame that the seat holds for one of a node, as [`OwnedSeat::exchange`]. `None`
    /// if the handle is closed.
    ///
    /// # Errors
    /// As there: `NotOwned`, `Exhausted`.
    pub fn migrate(
        &mut self,
        alloc: Global,
        frame: Frame,
        node: u8,
    ) -> Option<Result<Frame, ExchangeRefusal>>
        ensures moved { Calls (Migrates frame node) (seat_in self.old) result (seat_in self.new) }
    {
        of_kept!(self.handle, alloc, mut kept => migrate_kept(&mut kept, frame, node))
    }

    /// Gives back a frame, as [`OwnedSeat::give`], and returns whether the seat held it. `None` if
    /// the handle is closed.
    pub fn give(&mut self, alloc: Global, frame: Frame) -> Option<bool>
        ensures { Calls (Returns frame) (seat_in self.old) result (seat_in self.new) }
    {
        of_kept!(self.handle, alloc, Kept::Seat(seat) => seat.give(frame))
    }

    /// Puts a new seat at the same pools into another, closed handle. `None` if this one is closed.
    ///
    /// # Errors
    /// `NoMemory`: out of memory, or the pools have as many seats as they can.
    pub fn split(&mut self, alloc: Global, other: &mut SeatHandle) -> Option<Result<(), NoMemory>>
        requires closed { seat_in other.old ≡ None }
        ensures closed { seat_in self.old ≡ None →
            (result ≡ None) × (seat_in self.new ≡ None) }
        ensures open { MatchOption result (seat_in self.old ≡ None)
            (λ answer. is_some (seat_in self.old) ≡ true) }
        ensures split { MatchOption result (seat_in other.new ≡ None) (λ answer.
            (OnOk answer (Splits (seat_in self.old) (seat_in self.new) (seat_in other.new)))
            × (OnErr answer (Stays (seat_in self.old) (seat_in self.new)
            × (seat_in other.new ≡ None)))) }
    {
        let mut kept = self.handle.take(alloc)?;
        let made = split_kept(&mut kept, alloc);
        self.handle.put(kept);
        Some(other.handle.put_made(made))
    }

    /// Takes over the frames of another handle's seat, and closes that handle. Returns false, and
    /// does nothing, if either handle is closed. Both seats are of the same pools.
    pub fn join(&mut self, alloc: Global, other: &mut SeatHandle) -> bool
        requires together { AreTogether (seat_in self.old) (seat_in other.old) }
        ensures told { result ≡ (is_some (seat_in self.old) && is_some (seat_in other.old)) }
        ensures joins { result ≡ true →
            Joins (seat_in self.old) (seat_in other.old) (seat_in self.new)
            × (seat_in other.new ≡ None) }
        ensures same { result ≡ false → (seat_in self.new ≡ seat_in self.old)
            × (seat_in other.new ≡ seat_in other.old) }
    {
        if !self.handle.is_open() || !other.handle.is_open() {
            return false;
        }
        let Some(mut kept) = self.handle.take(alloc) else {
            unreachable!()
        };
        let Some(spent) = other.handle.take(alloc) else {
            unreachable!()
        };
        join_kept(&mut kept, Box::into_inner(spent));
        self.handle.put(kept);
        true
    }
}
