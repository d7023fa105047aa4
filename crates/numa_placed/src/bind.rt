//! The node to which a page goes that is sent, and what is told of it.
ghost use Rattle.std.specs.Prelude.{◌≡◌, ◌+◌, ◌<◌, ◌≤◌, ◌^◌, ℕ, IfSome};
ghost use Rattle.numa_placed.specs.Binds.{first_with_room, is_kept, is_sent, nodes_in};
ghost use Rattle.numa_placed.specs.Shifts.{AreRooms, room_of};
ghost use Rattle.numa_placed.specs.Spots.{pages_if};

use crate::bound::Bound;
use crate::rooms::Rooms;
use crate::spot::Spot;
use numa_space::Space;

/// A task, and the node on which it runs.
#[derive(Clone, Copy)]
pub(crate) struct FaultingTask {
    pub(crate) task: u32,
    pub(crate) cpu: u32,
}

/// How far a walk over pages is that are sent: how many more pages each node takes, and what is
/// told so far.
#[derive(Clone, Copy)]
pub(crate) struct Walk {
    pub(crate) rooms: Rooms,
    pub(crate) told: Bound,
}

/// The first node of a list that has room.
fn first_with_room(nodes: &[u8], rooms: &Rooms) -> Option<u8>
    ensures first { (room : ℕ → ℕ) → AreRooms rooms.now room
        → result ≡ first_with_room room nodes.now }
    ensures room { IfSome result (λ node. 0 < room_of rooms.now node) }
{
    for node in nodes {
        if !rooms.is_full(*node) {
            return Some(*node);
        }
    }
    None
}

/// The first node of a page's list that has room: where a fault of the task on node `cpu` would put
/// the page. `None` if none has, the page isn't mapped, or the machine has no node `cpu`.
pub fn node_with_room(space: &Space, page: u64, task: u32, cpu: u32, rooms: &Rooms) -> Option<u8>
    ensures first { (room : ℕ → ℕ) → AreRooms rooms.now room
        → result ≡ first_with_room room (nodes_in space.now task cpu page) }
    ensures room { IfSome result (λ node. 0 < room_of rooms.now node) }
{
    let Ok(nodes) = space.list_at(task, page, cpu) else {
        return None;
    };
    first_with_room(nodes.as_slice(), rooms)
}

/// Counts a page that goes to a node, if there is one.
pub(crate) fn count_sent(told: &mut Bound, spot: Spot, goal: Option<u8>)
    requires { told.old.moved + told.old.left + 1 < 2 ^ 64 }
    ensures moved { told.new.moved ≡ told.old.moved + pages_if (is_sent goal spot) 1 }
    ensures left { told.new.left ≡ told.old.left + pages_if (is_kept goal spot) 1 }
    ensures few { told.new.moved + told.new.left ≤ told.old.moved + told.old.left + 1 }
{
    let Some(node) = goal else {
        told.left += 1;
        return;
    };
    match spot {
        Spot::Nowhere => told.moved += 1,
        Spot::Stated(from) => {
            if from != node {
                told.moved += 1;
            }
        }
    }
}

/// The later of two pages.
pub(crate) fn later(a: u64, b: u64) -> u64
    ensures first { a ≤ result }
    ensures second { b ≤ result }
    ensures least { (page : ℕ) → a ≤ page → b ≤ page → result ≤ page }
{
    a.max(b)
}

/// The earlier of two ends.
pub(crate) fn earlier(a: u64, b: u64) -> u64
    ensures first { result ≤ a }
    ensures second { result ≤ b }
    ensures most { (page : ℕ) → page < a → page < b → page < result }
{
    a.min(b)
}
