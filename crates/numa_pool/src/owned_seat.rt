//! Seats that carry their pools.
ghost use Rattle.std.specs.Prelude.{◌≡◌, IfOk, OnOk, OnErr};
ghost use Rattle.numa_pool.specs.Seated.{at_first, newcomer, seat_after_split, seat_after_join};
ghost use Rattle.numa_pool.specs.Seated.{Exchanges, Gives, TakesAlong};

use crate::along::take_along;
use crate::{PoolSeat, Pools};
use numa_machine::{Frame, Machine, NoMemory};
use std::alloc::Global;
use std::marker::Model;
use std::sync::Arc;

/// Why a frame wasn't exchanged: the first of these that applies.
#[derive(Clone, Copy, PartialEq, Eq, Debug, Drop)]
pub enum ExchangeRefusal {
    /// The seat doesn't hold the frame.
    NotOwned,
    /// Each frame of the node was found taken.
    Exhausted,
}

/// Shared ownership of some pools of frames, and a seat at them: what one thread needs to take
/// frames and give them back. Contracts see the number of frames of each node, and the seat. The
/// frames of a dropped seat stay taken; the pools are freed with their last seat.
#[derive(Drop)]
pub struct OwnedSeat {
    pools: Arc<Pools, Global>,
    seat: PoolSeat,
}

impl Model for OwnedSeat {
    ghost use Rattle.std.specs.Prelude.{◌≡◌};
    ghost use Rattle.std.specs.Arc.{arc_value};
    ghost use Rattle.numa_pool.specs.Seated.{Seated};

    ghost Value = { Seated };

    ghost view = { λ s. record { frames = (arc_value s.pools).frames; seat = s.seat } };

    ghost invariant = { λ s. s.seat.table ≡ (arc_value s.pools).table };
}

impl OwnedSeat {
    /// The first seat at new pools of a machine's frames, all free.
    ///
    /// # Errors
    /// `NoMemory`: out of memory for the pools or for the seat.
    pub fn open(alloc: Global, machine: &Machine) -> Result<OwnedSeat, NoMemory>
        ensures { IfOk result (λ opened. opened ≡ at_first machine.now.frames opened.seat.table) }
    {
        let (pools, seat) = Pools::open(alloc, machine)?;
        match Arc::new(alloc, pools) {
            Ok(pools) => Ok(OwnedSeat { pools, seat }),
            Err(_) => Err(NoMemory),
        }
    }

    /// A new seat at the same pools that holds nothing, for another thread.
    ///
    /// # Errors
    /// `NoMemory`: out of memory for the seat, or the pools have as many seats as they can.
    pub fn split(&mut self, alloc: Global) -> Result<OwnedSeat, NoMemory>
        ensures other { IfOk result (λ other. other ≡ newcomer self.old) }
        ensures ok { OnOk result (self.new ≡ seat_after_split self.old) }
        ensures err { OnErr result (self.new ≡ self.old) }
    {
        let Ok(pools) = Arc::try_clone(&self.pools) else {
            return Err(NoMemory);
        };
        let seat = self.pools.split(alloc, &mut self.seat)?;
        Ok(OwnedSeat { pools, seat })
    }

    /// Takes a free frame of the first node of the list that has one, and returns it with the
    /// node's place in the list, from 0. `None` only if each frame of each listed node was found
    /// taken at a step of this call. It doesn't allocate.
    pub fn take(&mut self, nodes: &[u8]) -> Option<(usize, Frame)>
        ensures { TakesAlong nodes.now result self.old self.new }
    {
        take_along(&self.pools, &mut self.seat, nodes)
    }

    /// Gives back a frame if the seat holds it, and returns whether it did.
    pub fn give(&mut self, frame: Frame) -> bool
        ensures { Gives frame result self.old self.new }
    {
        if self.seat.holds(&frame) {
            self.pools.give(&mut self.seat, frame);
            return true;
        }
        false
    }

    /// Exchanges a frame that the seat holds for one of a node, as for a page that moves there:
    /// takes a free frame of the node, and then gives the old one back. A frame of the node itself
    /// is exchanged for another one. It doesn't allocate.
    ///
    /// # Errors
    /// The first that applies; the seat holds what it held: `NotOwned`, it doesn't hold the frame,
    /// and has made no step; `Exhausted`, each frame of the node was found taken at a step of this
    /// call, also where it has none.
    pub fn exchange(&mut self, old: Frame, node: u8) -> Result<Frame, ExchangeRefusal>
        ensures exchanges { Exchanges old node self.old self.new result }
    {
        if !self.seat.holds(&old) {
            return Err(ExchangeRefusal::NotOwned);
        }
        let Some(found) = self.pools.take(&mut self.seat, node) else {
            return Err(ExchangeRefusal::Exhausted);
        };
        self.pools.give(&mut self.seat, old);
        Ok(found)
    }

    /// Takes over the frames of another seat at the same pools, which is consumed. It doesn't
    /// allocate.
    pub fn join(&mut self, other: OwnedSeat)
        requires { other.seat.table ≡ self.old.seat.table }
        ensures { self.new ≡ seat_after_join self.old other }
    {
        let OwnedSeat { pools: _, seat } = other;
        self.pools.join(&mut self.seat, seat);
    }
}
