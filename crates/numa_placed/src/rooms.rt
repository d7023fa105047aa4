//! How many more pages each node takes.
ghost use Rattle.std.specs.Prelude.{◌≡◌, ◌<◌, ◌≤◌, ◌==◌, ℕ, None, Some, if◌then◌else◌};
ghost use Rattle.std.specs.Prelude.{◌+◌, false, nat_lt};
ghost use Rattle.numa_placed.specs.Shifts.{ArePages, AreRooms, HasRoom, endless, is_short};
ghost use Rattle.numa_placed.specs.Shifts.{less_room, more_room, room_after, room_moved, room_of};
ghost use Rattle.numa_placed.specs.Shifts.{room_between, rooms_between, stated_on};
ghost use Rattle.numa_placed.specs.declared.spot.Spot.{Spot};

use crate::spot::Spot;

/// How many more pages each node takes. A page that leaves a node gives its room back.
#[derive(Clone, Copy, Drop)]
pub struct Rooms {
    pub(crate) pages: [u64; 256],
}

/// A room that pages take.
pub(crate) fn less_room(room: u64, pages: u64) -> u64
    requires { pages ≤ room }
    ensures { result ≡ less_room room pages }
{
    if room == u64::MAX {
        return room;
    }
    room - pages
}

/// A room that pages leave.
fn more_room(room: u64, pages: u64) -> u64
    ensures { result ≡ more_room room pages }
{
    room.saturating_add(pages)
}

/// A room once another number of pages lies there than before.
fn room_between(room: u64, before: u64, after: u64) -> u64
    ensures { result ≡ room_between room before after }
{
    if room == u64::MAX {
        return room;
    }
    if after <= before {
        return room.saturating_add(before - after);
    }
    room.saturating_sub(after - before)
}

/// Whether more pages come to a node than find room.
fn lacks_room(room: u64, before: u64, after: u64) -> bool
    ensures { result ≡ nat_lt (room + before) after }
{
    if after <= before {
        return false;
    }
    room < after - before
}

impl Rooms {
    /// No node ever fills.
    pub fn endless() -> Rooms
        ensures { AreRooms result (λ node. endless) }
    {
        let pages = [u64::MAX; 256];
        Rooms { pages }
    }

    /// How many more pages a node takes, if it fills at all.
    pub fn at(&self, node: u8) -> Option<u64>
        ensures { result ≡ (if room_of self.now node == endless then None
            else Some (room_of self.now node)) }
    {
        let pages = self.pages[node as usize];
        if pages == u64::MAX {
            return None;
        }
        Some(pages)
    }

    /// Whether a node takes no more pages.
    pub(crate) fn is_full(&self, node: u8) -> bool
        ensures { (room : ℕ → ℕ) → AreRooms self.now room → result ≡ (room node == 0) }
    {
        self.pages[node as usize] == 0
    }

    /// Says how many more pages a node takes; 2^64 - 1 if it never fills.
    pub fn limit(&mut self, node: u8, pages: u64)
        ensures { (room : ℕ → ℕ) → AreRooms self.old room
            → AreRooms self.new (λ other. if other == node then pages else room other) }
    {
        self.pages[node as usize] = pages;
    }

    /// What is left once pages lie otherwise, by how many lay on each node before and lie there
    /// now: one that came to a node took one of its room, and one that left gave it back.
    pub fn between(&self, before: &[u64; 256], after: &[u64; 256]) -> Rooms
        ensures { (room : ℕ → ℕ) (old new : ℕ → Spot) → AreRooms self.now room
            → ArePages before.now (stated_on old) → ArePages after.now (stated_on new)
            → AreRooms result (rooms_between room old new) }
    {
        let mut pages = [0; 256];
        for node in 0..256usize {
            pages[node] = room_between(self.pages[node], before[node], after[node]);
        }
        Rooms { pages }
    }

    /// Whether more pages come to a node than find room, by how many lay there before and lie there
    /// now.
    pub(crate) fn is_short(&self, before: &[u64; 256], after: &[u64; 256], node: u8) -> bool
        ensures { (room : ℕ → ℕ) (old new : ℕ → Spot) → AreRooms self.now room
            → ArePages before.now (stated_on old) → ArePages after.now (stated_on new)
            → result ≡ is_short room old new node }
    {
        let node = node as usize;
        lacks_room(self.pages[node], before[node], after[node])
    }

    /// As many of so many pages as a node that isn't full has room for.
    pub(crate) fn fitting(&self, node: u8, pages: u64) -> u64
        requires some { 0 < room_of self.now node }
        requires many { 0 < pages }
        ensures some { 0 < result }
        ensures many { result ≤ pages }
        ensures room { result ≤ room_of self.now node }
        ensures most { room_of self.now node ≤ endless }
    {
        let room = self.pages[node as usize];
        pages.min(room)
    }

    /// Pages come to a node, which has room for them.
    pub(crate) fn take(&mut self, node: u8, pages: u64)
        requires { pages ≤ room_of self.old node }
        ensures { (room : ℕ → ℕ) → AreRooms self.old room → AreRooms self.new
            (λ other. if other == node then less_room (room other) pages else room other) }
    {
        self.pages[node as usize] = less_room(self.pages[node as usize], pages);
    }

    /// Pages go from a node to another, which has room for them.
    pub(crate) fn pass(&mut self, from: u8, to: u8, pages: u64)
        requires { pages ≤ room_of self.old to }
        ensures { (room : ℕ → ℕ) → AreRooms self.old room
            → AreRooms self.new (room_after room from to pages) }
    {
        let given = more_room(self.pages[from as usize], pages);
        let taken = less_room(self.pages[to as usize], pages);
        self.pages[from as usize] = given;
        self.pages[to as usize] = taken;
    }

    /// A page that lies here moved to a node.
    pub(crate) fn pass_one(&mut self, spot: Spot, node: u8)
        requires { HasRoom (room_of self.old) node spot }
        ensures { (room : ℕ → ℕ) → AreRooms self.old room
            → AreRooms self.new (room_moved room node spot) }
    {
        match spot {
            Spot::Nowhere => self.take(node, 1),
            Spot::Stated(from) => {
                if from == node {
                    return;
                }
                self.pass(from, node, 1);
            }
        }
    }
}
