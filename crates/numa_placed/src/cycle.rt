//! The cycle of nodes to which the pages of a stretch go that one policy serves.
ghost use Rattle.std.specs.Prelude.{◌≡◌, ◌+◌, ◌<◌, ◌≤◌, ◌^◌, ℕ, IfOk, None, Some, length};
ghost use Rattle.std.specs.Prelude.{slice_index, true};
ghost use Rattle.numa_placed.specs.Binds.{first_with_room, nodes_in};
ghost use Rattle.numa_placed.specs.Periods.{page_with};
ghost use Rattle.numa_placed.specs.Shifts.{AreRooms};

use crate::bind::{FaultingTask, node_with_room};
use crate::rooms::Rooms;
use numa_machine::NoMemory;
use numa_space::Space;

/// The first page from one on that has this place in a cycle of so many nodes.
fn page_with(count: u64, page: u64, place: u64) -> u64
    requires place { place < count }
    requires few { page + count ≤ 2 ^ 35 }
    ensures page { result ≡ page_with count page place }
{
    page + (place + count - page % count) % count
}

/// Adds the node of each place of a cycle to the nodes: the first with room of the list of a page
/// that has the place. Returns whether each such page finds room.
pub(crate) fn push_cycle(
    nodes: &mut Vec<u8>,
    space: &Space,
    page: u64,
    count: u64,
    touch: FaultingTask,
    rooms: &Rooms,
) -> Result<bool, NoMemory>
    requires few { page + count ≤ 2 ^ 35 }
    ensures size { IfOk result (λ all. all ≡ true
        → length nodes.new.items ≡ length nodes.old.items + count) }
    ensures before { (place : ℕ) → place < length nodes.old.items
        → slice_index nodes.new.items place ≡ slice_index nodes.old.items place }
    ensures longer { length nodes.old.items ≤ length nodes.new.items }
    ensures heads { (room : ℕ → ℕ) → AreRooms rooms.now room → IfOk result (λ all. all ≡ true
        → (place : ℕ) → place < count → first_with_room room
        (nodes_in space.now touch.task touch.cpu (page_with count page place))
        ≡ Some (slice_index nodes.new.items (length nodes.old.items + place))) }
{
    for place in 0..count {
        let here = page_with(count, page, place);
        let Some(node) = node_with_room(space, here, touch.task, touch.cpu, rooms) else {
            return Ok(false);
        };
        let Ok(()) = nodes.push(node) else {
            return Err(NoMemory);
        };
    }
    Ok(true)
}

/// Whether a page finds no room.
fn lacks_room(space: &Space, page: u64, touch: FaultingTask, rooms: &Rooms) -> bool
    ensures { result ≡ true → (room : ℕ → ℕ) → AreRooms rooms.now room
        → first_with_room room (nodes_in space.now touch.task touch.cpu page) ≡ None }
{
    let Some(_node) = node_with_room(space, page, touch.task, touch.cpu, rooms) else {
        return true;
    };
    false
}

/// Whether none of the first `count` pages from one on finds room.
pub(crate) fn all_lack_room(
    space: &Space,
    page: u64,
    count: u64,
    touch: FaultingTask,
    rooms: &Rooms,
) -> bool
    requires few { page + count ≤ 2 ^ 35 }
    ensures { result ≡ true → (room : ℕ → ℕ) → AreRooms rooms.now room
        → (p : ℕ) → page ≤ p → p < page + count
        → first_with_room room (nodes_in space.now touch.task touch.cpu p) ≡ None }
{
    for passed in 0..count {
        if !lacks_room(space, page + passed, touch, rooms) {
            return false;
        }
    }
    true
}
