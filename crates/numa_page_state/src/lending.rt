//! Rooms that the pages of several processes share: they are lent to those of one while it acts,
//! and taken back afterwards.
ghost use Rattle.std.specs.Prelude.{◌≡◌, ℕ, Option, OnErr, Some};
ghost use Rattle.numa_placed.specs.declared.spot.Spot.TheVariants.{Nowhere};
ghost use Rattle.numa_page_state.specs.Lying.{Lying, with_spots};
ghost use Rattle.numa_page_state.specs.Outcomes.{room_outcome};
ghost use Rattle.numa_page_state.specs.Standing.{HaveRoom, LiesAs};

use crate::state::{PageState, limited};
use numa_machine::Machine;
use numa_placed::{Rooms, lacks_node};
use numa_requests::PlacedRefusal;

/// Says how many more pages a node takes from now on; 2^64 - 1 if it never fills.
///
/// # Errors
/// `NoSuchNode`: the machine lacks the node, or it has no memory.
pub fn limit_rooms(
    rooms: &mut Option<Rooms>,
    machine: &Machine,
    node: u32,
    pages: u64,
) -> Result<(), PlacedRefusal>
    ensures said { (at : Lying) → HaveRoom rooms.old at.room
        → (result ≡ (room_outcome machine.now node pages at).0)
        × HaveRoom rooms.new (room_outcome machine.now node pages at).1.room }
    ensures unchanged { OnErr result (rooms.new ≡ rooms.old) }
{
    if lacks_node(machine, node) {
        return Err(PlacedRefusal::NoSuchNode);
    }
    let said = limited(rooms, node as u8, pages);
    *rooms = Some(said);
    Ok(())
}

impl PageState {
    /// Pages find these rooms from now on, and follow the allowed nodes or don't.
    pub fn lend(&mut self, rooms: &Option<Rooms>, follows: bool)
        ensures { (lying : Lying) (room : Option (ℕ → ℕ)) → LiesAs self.old lying
            → HaveRoom rooms.now room
            → LiesAs self.new (record lying { room = room; follows = follows }) }
    {
        self.rooms = *rooms;
        self.follows = follows;
    }

    /// How many more pages each node takes now, once that was said of one.
    pub fn rooms_left(&self) -> Option<Rooms>
        ensures { (lying : Lying) → LiesAs self.now lying → HaveRoom result lying.room }
    {
        self.rooms
    }

    /// How many more pages each node takes once these pages are gone.
    pub fn rooms_without(&self) -> Option<Rooms>
        ensures { (lying : Lying) → LiesAs self.now lying
            → HaveRoom result (with_spots (λ page. Nowhere) lying).room }
    {
        match &self.rooms {
            Some(have) => {
                let lay = self.placed.stated_counts();
                Some(have.between(&lay, &[0; 256]))
            }
            None => None,
        }
    }
}
