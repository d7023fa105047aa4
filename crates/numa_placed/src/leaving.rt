//! How many pages of each node go, where it is known only how many there are.
ghost use Rattle.std.specs.Prelude.{◌≡◌, ◌<◌, ◌≤◌, ◌^◌, ℕ, slice_index};
ghost use Rattle.numa_placed.specs.Moves.{AreTargets, moved_node};
ghost use Rattle.numa_placed.specs.Shifts.{ArePages, AreRooms, counted_shift, sum_below};
ghost use Rattle.numa_placed.specs.Tallies.{leave_on};

use crate::course::course_of;
use crate::filling::sum;
use crate::moved::Moved;
use crate::rooms::Rooms;
use crate::tally::leaving;
use crate::targets::targets;
use numa_mask::NodeMask;

/// How many pages of each node go, and where.
#[derive(Clone, Copy, Drop)]
pub struct Leaving {
    /// By node, the number of pages that go from it to another.
    pub gone: [u64; 256],
    /// By node, the node to which its pages go: the node itself, if they stay.
    pub to: [u8; 256],
}

/// How many of so many pages on each node go when pages leave one set of nodes for another, as
/// [`Placed::follow_within`](crate::Placed::follow_within) moves them: node by node, each time the
/// lowest whose target isn't still to go, else the highest, as far as there is room. The rooms are
/// those behind the move. It doesn't allocate.
pub fn departures(there: &[u64; 256], old: &NodeMask, new: &NodeMask, rooms: &mut Rooms) -> Leaving
    ensures gone { (count room : ℕ → ℕ) → ArePages there.now count → AreRooms rooms.old room
        → ArePages result.gone (counted_shift count old.now new.now room).gone }
    ensures rooms { (count room : ℕ → ℕ) → ArePages there.now count → AreRooms rooms.old room
        → AreRooms rooms.new (counted_shift count old.now new.now room).room }
    ensures to { AreTargets result.to (moved_node old.now new.now) }
{
    let to = targets(old, new);
    let course = course_of(&to, there, old, rooms);
    *rooms = course.rooms;
    let gone = course.gone;
    Leaving { gone, to }
}

/// What a move of pages from one set of nodes to another does that never lacks room, where so many
/// lie on each node.
pub fn all_departures(there: &[u64; 256], old: &NodeMask, new: &NodeMask) -> Moved
    requires { (node : ℕ) → node < 256 → slice_index there.now node ≤ 2 ^ 35 }
    ensures to { AreTargets result.to (moved_node old.now new.now) }
    ensures from { ArePages result.from
        (leave_on (slice_index result.to) (slice_index there.now)) }
    ensures moved { result.moved ≡ sum_below 256 (slice_index result.from) }
    ensures left { result.left ≡ 0 }
{
    let to = targets(old, new);
    let from = leaving(&to, there);
    Moved {
        moved: sum(&from),
        left: 0,
        from,
        to,
    }
}
