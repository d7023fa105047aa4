//! Pages that keep frames, where a policy has other pages go: they stay, and those that had to go
//! are counted.
ghost use Rattle.std.specs.Prelude.{◌≡◌, ◌+◌, ◌<◌, ◌≤◌, ◌^◌, ◌&&◌, ℕ, OnOk, IfOk};
ghost use Rattle.std.specs.Prelude.{if◌then◌else◌, nat_lt, not};
ghost use Rattle.numa_mask.specs.NodeSet.{has};
ghost use Rattle.numa_placed.specs.Binds.{goals, room_before};
ghost use Rattle.numa_placed.specs.Shifts.{AreRooms};
ghost use Rattle.numa_placed.specs.Spots.{pages_if, spot_at};
ghost use Rattle.numa_page_state.specs.Sending.{had_to_go, held_kept, is_held};
ghost use Rattle.numa_page_state.specs.Standing.{IsFront, asked_for};
ghost use Rattle.numa_ranges.specs.Runs.{in_pages};
ghost use Rattle.numa_space.specs.History.{page_count, page_of};

use crate::binding::{is_in, page_count};
use crate::sending::{Rebinding, Toucher};
use numa_machine::NoMemory;
use numa_maps::Resident;
use numa_placed::{Placed, Rooms, node_with_room};
use numa_requests::PAGE_BYTES;
use numa_space::Space;

/// How many more pages each node takes, once the pages below one went.
#[derive(Clone, Copy)]
pub(crate) struct Front {
    pub(crate) page: u64,
    pub(crate) rooms: Rooms,
}

/// Whether a page that keeps a frame of a node finds no room, or has another node to go to.
fn is_held(goal: Option<u8>, node: u8) -> bool
    ensures { result ≡ is_held goal node }
{
    match goal {
        Some(other) => node != other,
        None => true,
    }
}

/// 1 if something holds, else 0.
fn one_if(holds: bool) -> u64
    ensures one { result ≡ pages_if holds 1 }
    ensures few { result ≤ 1 }
{
    if holds {
        return 1;
    }
    0
}

/// How many more pages each node takes once the pages below another one went too, tried on a copy.
///
/// # Errors
/// `NoMemory`: there is no memory to try it.
fn reach(
    front: Front,
    placed: &Placed,
    space: &Space,
    said: &Rebinding,
    toucher: Toucher,
    page: u64,
) -> Result<Rooms, NoMemory>
    requires rises { front.page ≤ page }
    requires first { page_of said.now.start ≤ front.page }
    requires inside { page ≤ page_of said.now.start + page_count said.now.length }
    requires within { page_of said.now.start + page_count said.now.length ≤ 2 ^ 35 }
    ensures { (room : ℕ → ℕ) → AreRooms front.rooms (room_before
        (asked_for space.now said.now toucher) (spot_at placed.now) room front.page)
        → IfOk result (λ rooms. AreRooms rooms (room_before
        (asked_for space.now said.now toucher) (spot_at placed.now) room page)) }
{
    let Ok(mut copy) = placed.copy() else {
        return Err(NoMemory);
    };
    let mut rooms = front.rooms;
    let start = front.page * PAGE_BYTES;
    let length = (page - front.page) * PAGE_BYTES;
    let list = said.spec.mask();
    let Ok(_) = copy.bind_astray(
        space,
        start,
        length,
        &list,
        toucher.task,
        toucher.cpu,
        &mut rooms,
    ) else {
        return Err(NoMemory);
    };
    Ok(rooms)
}

/// The front from which to go on to a page: the start of the span, where the front is past it.
fn front_for(front: &Front, given: &Rooms, first: u64, page: u64) -> Front
    ensures { result ≡ (if nat_lt page front.now.page then (record {
      page = first;
      rooms = given.now;
    }) else front.now) }
{
    if page < front.page {
        return Front {
            page: first,
            rooms: *given,
        };
    }
    *front
}

/// Whether a page that keeps a frame of a node is one of the span, and lies astray.
fn strays(said: &Rebinding, page: u64, node: u8) -> bool
    ensures { result ≡ (in_pages (page_of said.now.start) (page_count said.now.length) page
        && not (has said.now.spec.mask node)) }
{
    let first = said.start / PAGE_BYTES;
    let pages = page_count(said.length);
    let list = said.spec.mask();
    is_in(first, pages, page) && !list.has(node)
}

/// 1 if a page that keeps a frame of a node is one of the span and had to go, else 0.
///
/// # Errors
/// `NoMemory`: as `reach`.
fn one_kept(
    front: &mut Front,
    given: &Rooms,
    placed: &Placed,
    space: &Space,
    said: &Rebinding,
    toucher: Toucher,
    page: u64,
    node: u8,
) -> Result<u64, NoMemory>
    requires first { page_of said.now.start ≤ front.old.page }
    requires within { page_of said.now.start + page_count said.now.length ≤ 2 ^ 35 }
    ensures rooms { (room : ℕ → ℕ) → AreRooms given.now room
        → IsFront (asked_for space.now said.now toucher) (spot_at placed.now) room front.old
        → OnOk result (IsFront (asked_for space.now said.now toucher) (spot_at placed.now) room
        front.new) }
    ensures first { OnOk result (page_of said.now.start ≤ front.new.page) }
    ensures one { (room : ℕ → ℕ) → AreRooms given.now room
        → IsFront (asked_for space.now said.now toucher) (spot_at placed.now) room front.old
        → IfOk result (λ one. one ≡ pages_if (had_to_go (asked_for space.now said.now toucher)
        (goals (asked_for space.now said.now toucher) (spot_at placed.now) room) page node) 1) }
    ensures few { IfOk result (λ one. one ≤ 1) }
{
    if !strays(said, page, node) {
        return Ok(0);
    }
    let from = front_for(front, given, said.start / PAGE_BYTES, page);
    let Ok(rooms) = reach(from, placed, space, said, toucher, page) else {
        return Err(NoMemory);
    };
    let goal = node_with_room(space, page, toucher.task, toucher.cpu, &rooms);
    *front = Front { page, rooms };
    Ok(one_if(is_held(goal, node)))
}

/// How many pages that keep a frame had to go.
///
/// # Errors
/// `NoMemory`: there is no memory to find how far nodes were filled by then.
pub(crate) fn held_kept(
    resident: &Resident,
    given: &Rooms,
    placed: &Placed,
    space: &Space,
    said: &Rebinding,
    toucher: Toucher,
) -> Result<u64, NoMemory>
    requires within { page_of said.now.start + page_count said.now.length ≤ 2 ^ 35 }
    ensures kept { (room : ℕ → ℕ) → AreRooms given.now room → IfOk result (λ left. left
        ≡ held_kept resident.now (asked_for space.now said.now toucher)
        (goals (asked_for space.now said.now toucher) (spot_at placed.now) room)) }
    ensures few { IfOk result (λ left. left < 2 ^ 63) }
{
    let mut front = Front {
        page: said.start / PAGE_BYTES,
        rooms: *given,
    };
    let mut left = 0;
    for (page, placement) in resident.iter() {
        let Ok(one) = one_kept(
            &mut front,
            given,
            placed,
            space,
            said,
            toucher,
            *page,
            placement.node,
        ) else {
            return Err(NoMemory);
        };
        left += one;
    }
    Ok(left)
}
