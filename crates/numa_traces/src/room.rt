//! How much room nodes have before a trace.
ghost use Rattle.std.specs.Prelude.{◌≡◌, ◌<◌, ℕ, IfOk, slice_index, false, true};
ghost use Rattle.std.specs.Option.{option_map};
ghost use Rattle.numa_machine.specs.Machine.{frames_of};
ghost use Rattle.numa_placed.specs.Shifts.{room_of};
ghost use Rattle.numa_traces.specs.Rooms.{given, room_before, room_by};

use numa_machine::Machine;
use numa_placed::Rooms;
use numa_sheets::FreePages;
use std::alloc::{AllocError, Global};

/// The free pages that are named for a node, if some are.
fn given(free: &[FreePages], node: u8) -> Option<u64>
    ensures { result ≡ given free.now node }
{
    for one in free {
        if one.node == node {
            return Some(one.pages);
        }
    }
    None
}

/// For how many more pages a node has room, as lines say; for 2^64 - 1 it never fills.
fn room_on(rooms: &Rooms, node: u8) -> u64
    ensures { result ≡ room_of rooms.now node }
{
    match rooms.at(node) {
        Some(room) => room,
        None => u64::MAX,
    }
}

/// The same, where lines say something of a node.
fn room_by(rooms: Option<&Rooms>, node: u8) -> u64
    ensures { result ≡ room_by (option_map (λ rooms. rooms.now) rooms.entry) node }
{
    match rooms {
        Some(rooms) => room_on(rooms, node),
        None => u64::MAX,
    }
}

/// For how many pages a node has room before a trace.
fn room_at(rooms: Option<&Rooms>, free: &[FreePages], node: u8) -> u64
    ensures { result ≡ room_before (option_map (λ rooms. rooms.now) rooms.entry) free.now node }
{
    if free.is_empty() {
        return room_by(rooms, node);
    }
    match given(free, node) {
        Some(pages) => pages,
        None => u64::MAX,
    }
}

/// For how many pages each node of a machine has room before a trace, if pages take room: as many
/// as are named for it, where any are named, and else as many as lines say, if they do. Other nodes
/// never fill, and have 2^64 - 1.
///
/// # Errors
/// `AllocError`: out of memory.
pub fn room_before(
    alloc: Global,
    machine: &Machine,
    rooms: Option<&Rooms>,
    free: &[FreePages],
) -> Result<Vec<u64>, AllocError>
    ensures { IfOk result (λ room. (node : ℕ) → node < machine.now.nodes
        → slice_index room.items node
        ≡ room_before (option_map (λ rooms. rooms.now) rooms.entry) free.now node) }
{
    let mut room = Vec::new(alloc);
    for node in 0..machine.nodes() {
        if let Err(_) = room.push(room_at(rooms, free, node as u8)) {
            return Err(AllocError);
        }
    }
    Ok(room)
}

/// Whether a node of a machine has frames.
pub fn has_frames(machine: &Machine) -> bool
    ensures none { result ≡ false → (node : ℕ) → node < machine.now.nodes
        → frames_of machine.now node ≡ 0 }
    ensures some { result ≡ true → (node : ℕ) × (node < machine.now.nodes)
        × (0 < frames_of machine.now node) }
{
    for node in 0..machine.nodes() {
        if machine.frames(node) > 0 {
            return true;
        }
    }
    false
}
