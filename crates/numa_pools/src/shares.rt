//! What nodes take in turn.
ghost use Rattle.std.specs.Prelude.{◌≡◌, ◌<◌, ◌^◌, sum};
ghost use Rattle.numa_pools.specs.Turns.{in_turn};

use crate::counts::{NODES, on, take_each};
use crate::turns::take_turns;
use numa_mask::NodeMask;

/// How many pages each node took, and the node that is next in turn.
#[derive(Drop)]
pub(crate) struct Shares {
    pub(crate) taken: [u64; NODES],
    pub(crate) mark: u32,
}

/// Lets the nodes of a set take so many pages in turn from the mark on, as far as they have room.
pub(crate) fn in_turn(times: u64, nodes: &NodeMask, mark: u32, room: &[u64; NODES]) -> Shares
    requires mark { mark < 256 }
    requires fits { sum room.now < 2 ^ 64 }
    ensures shares { result ≡ in_turn times nodes.now mark room.now }
    ensures within { result.mark < 256 }
{
    let room = on(nodes, room);
    let mut left = room;
    let mark = take_turns(&mut left, nodes, mark, times);
    let mut taken = room;
    take_each(&mut taken, &left);
    Shares { taken, mark }
}
