//! Putting pages elsewhere as far as nodes have room for them.
ghost use Rattle.std.specs.Prelude.{◌≡◌, ◌<◌, ◌==◌, ℕ, OnErr, if◌then◌else◌, slice_index};
ghost use Rattle.numa_ranges.specs.Maps.{IsSpan};
ghost use Rattle.numa_placed.specs.Shifts.{AreRooms, rooms_between};
ghost use Rattle.numa_placed.specs.Spots.{changed_spots, stated_spot};
ghost use Rattle.numa_placed.specs.Stored.{IsStored, IsStoredWithin};
ghost use Rattle.numa_placed.specs.Turns.{AreKept, spots_of};

use crate::change::{Change, SpanChange};
use crate::edit::{edit_places, let_go_places, put_places};
use crate::places::{Places, count_each, count_places};
use crate::rooms::Rooms;
use numa_requests::PlacedRefusal;

/// The rooms where no page goes elsewhere.
pub(crate) fn keep_all_rooms(places: &Places, rooms: &mut Rooms)
    requires kept { AreKept places.now }
    ensures { (room : ℕ → ℕ) → AreRooms rooms.old room → AreRooms rooms.new
        (rooms_between room (spots_of places.now) (spots_of places.now)) }
{
    let counts = count_each(places);
    let left = rooms.between(&counts, &counts);
    *rooms = left;
}

/// Puts other places where these are, unless more pages come to the node than have room or there
/// are too many runs.
pub(crate) fn put_places_within(
    places: &mut Places,
    next: Places,
    node: u8,
    rooms: &mut Rooms,
) -> Result<(), PlacedRefusal>
    requires kept { AreKept next }
    requires stored { IsStored places.old }
    requires limit { next.map.max_ranges ≡ places.old.map.max_ranges }
    ensures stored { IsStored places.new }
    ensures edit { (room : ℕ → ℕ) → AreRooms rooms.old room → IsStoredWithin (spots_of places.old)
        (spots_of next) node room result (spots_of places.new) rooms.new }
    ensures unchanged { OnErr result (places.new ≡ places.old) }
    ensures kept_rooms { OnErr result (rooms.new ≡ rooms.old) }
{
    let before = count_each(places);
    let after = count_each(&next);
    if rooms.is_short(&before, &after, node) {
        let_go_places(next);
        return Err(PlacedRefusal::NoRoom);
    }
    let left = rooms.between(&before, &after);
    match put_places(places, next) {
        Ok(()) => {
            *rooms = left;
            Ok(())
        }
        Err(lack) => Err(lack),
    }
}

/// So many pages on one node, and none on others.
fn all_on(node: u8, pages: u64) -> [u64; 256]
    ensures { (other : ℕ) → other < 256
        → slice_index result other ≡ (if node == other then pages else 0) }
{
    let mut counts = [0; 256];
    counts[node as usize] = pages;
    counts
}

/// States that the pages of a span lie on a node, unless more of them come to it than find room or
/// that makes too many runs.
pub(crate) fn state_places_within(
    places: &mut Places,
    first: u64,
    pages: u64,
    node: u8,
    rooms: &mut Rooms,
) -> Result<(), PlacedRefusal>
    requires span { IsSpan first pages }
    requires stored { IsStored places.old }
    ensures stored { IsStored places.new }
    ensures edit { (room : ℕ → ℕ) → AreRooms rooms.old room → IsStoredWithin (spots_of places.old)
        (changed_spots first pages (stated_spot node) (spots_of places.old)) node room result
        (spots_of places.new) rooms.new }
    ensures unchanged { OnErr result (places.new ≡ places.old) }
    ensures kept_rooms { OnErr result (rooms.new ≡ rooms.old) }
{
    let before = count_places(places, first, pages);
    let after = all_on(node, pages);
    if rooms.is_short(&before, &after, node) {
        return Err(PlacedRefusal::NoRoom);
    }
    let left = rooms.between(&before, &after);
    let change = SpanChange {
        first,
        pages,
        change: Change::State(node),
    };
    if let Err(lack) = edit_places(places, change) {
        return Err(lack);
    }
    *rooms = left;
    Ok(())
}
