//! Seats: one thread's access to the pools.
ghost use Rattle.std.specs.Prelude.{◌≡◌, ◌*◌, ◌+◌, ◌<◌, ◌≤◌, IsTrue, ◌↔◌};
ghost use Rattle.numa_pool.specs.Frames.{Holds};

use crate::marks::is_marked;
use crate::steps::Token;
use numa_machine::Frame;
use std::marker::Model;

/// The frames of some pools that one thread holds, and the right to take more and give them up.
/// Contracts see the pools of the seat, the frames that it holds, and its own steps: loads, tries
/// and returns are in its log, splits and joins are counted. A seat takes 64 words for each node of
/// the machine, a bit for each frame. The frames of a dropped seat stay taken.
#[derive(Drop)]
pub struct PoolSeat {
    pub(crate) token: Token,
    pub(crate) bits: Vec<u64>,
}

impl Model for PoolSeat {
    ghost use Rattle.numa_pool.specs.Seats.{SeatView, Marks};

    ghost Value = { SeatView };

    ghost view = { λ s. record {
      table = s.token.table;
      held = s.token.view.held;
      log = s.token.view.log;
      unlogged = s.token.view.unlogged;
    } };

    ghost invariant = { λ s. Marks s.token.table.words s.bits.items s.token.view.held };
}

impl PoolSeat {
    /// Whether the seat holds the frame.
    pub fn holds(&self, frame: &Frame) -> bool
        ensures { IsTrue result ↔ Holds self.now.held frame.now }
    {
        let bits = self.bits.as_slice();
        if frame.number >= 4096 {
            return false;
        }
        if 64 * frame.node as usize + frame.number as usize / 64 >= bits.len() {
            return false;
        }
        is_marked(bits, *frame)
    }
}
