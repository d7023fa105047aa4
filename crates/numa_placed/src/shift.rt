//! Moving the pages of each node.
ghost use Rattle.std.specs.Prelude.{◌≡◌, ℕ};
ghost use Rattle.numa_placed.specs.Moves.{IsMove, moved_node};
ghost use Rattle.numa_placed.specs.Stored.{IsStored};
ghost use Rattle.numa_placed.specs.Turns.{spots_of};

use crate::moved::Moved;
use crate::places::{Places, count_each, send_places};
use crate::tally::tally_counts;
use crate::targets::targets;
use numa_mask::NodeMask;

/// Moves the pages of each node to where they go when they leave one set of nodes for another. It
/// doesn't allocate. Where no page lies on a node that they leave, nothing is looked at but counts.
pub(crate) fn shift_places(places: &mut Places, old: &NodeMask, new: &NodeMask) -> Moved
    requires stored { IsStored places.old }
    ensures stored { IsStored places.new }
    ensures moved { IsMove (spots_of places.old) (moved_node old.now new.now) (spots_of places.new)
        result }
{
    // Tells the proof that no page from 2^35 on lies anywhere.
    let _ = places.map.iter();
    let targets = targets(old, new);
    let counts = count_each(places);
    let told = tally_counts(&counts, targets, old, new);
    if told.moved == 0 {
        return told;
    }
    send_places(places, &targets);
    told
}
