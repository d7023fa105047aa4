//! Taking a frame from the first node of a list that has one.
ghost use Rattle.std.specs.Prelude.{◌≡◌, ◌++◌, List, Some, IfSome, slice_get};
ghost use Rattle.numa_pool.specs.Frames.{with_found, times};
ghost use Rattle.numa_pool.specs.Walk.{WalksInOrder};
ghost use Rattle.numa_pool.specs.declared.view.Entry.{Entry};
ghost use Rattle.numa_pool.specs.Seated.{frame_in};

use crate::{PoolSeat, Pools};
use numa_machine::Frame;

/// Takes a frame of the first node of the list that has one, and returns it with the node's place
/// in the list, from 0. `None` if no node has one. If the list has a node twice, its words are
/// loaded twice.
pub fn take_along(pools: &Pools, seat: &mut PoolSeat, nodes: &[u8]) -> Option<(usize, Frame)>
    requires { seat.old.table ≡ pools.now.table }
    ensures table { seat.new.table ≡ seat.old.table }
    ensures walks { (es : List Entry) × (seat.new.log ≡ es ++ seat.old.log)
        × WalksInOrder pools.now.frames nodes.now (frame_in result) es }
    ensures no_other { seat.new.unlogged ≡ seat.old.unlogged }
    ensures held { seat.new.held ≡ with_found (frame_in result) seat.old.held }
    ensures rank { IfSome result (λ found. slice_get nodes.now found.0 ≡ Some found.1.node) }
    ensures fresh { IfSome result (λ found. times found.1.node found.1.number seat.old.held ≡ 0) }
{
    for (rank, node) in nodes.iter().enumerate() {
        if let Some(frame) = pools.take(seat, *node) {
            return Some((rank, frame));
        }
    }
    None
}
