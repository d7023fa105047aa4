//! How many pages of each node go, node by node, as far as there is room.
ghost use Rattle.std.specs.Prelude.{◌≡◌, ◌<◌, ◌≤◌, ◌^◌, ℕ, Bool, None, if◌then◌else◌};
ghost use Rattle.numa_mask.specs.NodeSet.{has};
ghost use Rattle.numa_placed.specs.Moves.{AreTargets};
ghost use Rattle.numa_placed.specs.Shifts.{ArePages, Going, going_from, is_clear, later_of, may_go};
ghost use Rattle.numa_placed.specs.Shifts.{AreRooms, source_from, step, steps};
ghost use Rattle.numa_placed.specs.Standing.{AreWaiting, GoesAs};

use crate::rooms::Rooms;
use numa_mask::NodeMask;

/// How far a move is.
#[derive(Clone, Copy, Drop)]
pub(crate) struct Course {
    /// By node, 1 if it is still to go.
    pub(crate) waits: [u8; 256],
    /// The rooms.
    pub(crate) rooms: Rooms,
    /// By node, how many of its pages went.
    pub(crate) gone: [u64; 256],
    /// Whether some pages found no room.
    pub(crate) full: bool,
}

/// 1 if it is so, else 0.
fn flag(so: bool) -> u8
    ensures { result ≡ (if so then 1 else 0) }
{
    if so { 1 } else { 0 }
}

/// 1 for each node of a set.
pub fn waiting(set: &NodeMask) -> [u8; 256]
    ensures { AreWaiting result (has set.now) }
{
    let mut waits = [0; 256];
    for node in 0..256usize {
        waits[node] = flag(set.has(node as u8));
    }
    waits
}

/// Whether a node is still to go, and its pages go to another.
fn may_go(targets: &[u8; 256], waits: &[u8; 256], node: u8) -> bool
    ensures { (go : ℕ → ℕ) (still : ℕ → Bool) → AreTargets targets.now go
        → AreWaiting waits.now still → result ≡ may_go go still node }
{
    waits[node as usize] == 1 && targets[node as usize] != node
}

/// Whether that one isn't still to go.
fn is_clear(targets: &[u8; 256], waits: &[u8; 256], node: u8) -> bool
    ensures { (go : ℕ → ℕ) (still : ℕ → Bool) → AreTargets targets.now go
        → AreWaiting waits.now still → result ≡ is_clear go still node }
{
    let target = targets[node as usize];
    may_go(targets, waits, node) && waits[target as usize] != 1
}

/// A node if it passes, else the one before it that did.
fn later_of(passes: bool, node: u8, last: Option<u8>) -> Option<u8>
    ensures { result ≡ later_of passes node last }
{
    if passes {
        return Some(node);
    }
    last
}

/// The node whose pages go next: the first whose target isn't still to go, else the last.
pub fn next_source(targets: &[u8; 256], waits: &[u8; 256]) -> Option<u8>
    ensures { (go : ℕ → ℕ) (still : ℕ → Bool) → AreTargets targets.now go
        → AreWaiting waits.now still → result ≡ source_from go still None 0 256 }
{
    let mut last = None;
    for node in 0..256usize {
        let node = node as u8;
        if is_clear(targets, waits, node) {
            return Some(node);
        }
        last = later_of(may_go(targets, waits, node), node, last);
    }
    last
}

impl Course {
    /// Before the first node goes.
    fn begin(from: &NodeMask, rooms: &Rooms) -> Course
        ensures { (room : ℕ → ℕ) → AreRooms rooms.now room
            → GoesAs result (going_from from.now room) }
    {
        let waits = waiting(from);
        Course {
            waits,
            rooms: *rooms,
            gone: [0; 256],
            full: false,
        }
    }

    /// The pages of a node go, as far as there is room.
    fn step(&mut self, source: u8, target: u8, pages: u64)
        ensures { (going : Going) → GoesAs self.old going
            → GoesAs self.new (step pages source target going) }
    {
        let room = self.rooms.pages[target as usize];
        let passing = pages.min(room);
        self.rooms.pass(source, target, passing);
        self.waits[source as usize] = 0;
        self.gone[source as usize] = passing;
        self.full = room < pages;
    }
}

/// How many pages of each node go when pages leave a set of nodes, each for its target.
pub(crate) fn course_of(
    targets: &[u8; 256],
    counts: &[u64; 256],
    from: &NodeMask,
    rooms: &Rooms,
) -> Course
    ensures { (go count room : ℕ → ℕ) → AreTargets targets.now go → ArePages counts.now count
        → AreRooms rooms.now room → GoesAs result (steps 256 go count (going_from from.now room)) }
{
    let mut course = Course::begin(from, rooms);
    for turn in 0..256usize {
        if course.full {
            return course;
        }
        let Some(source) = next_source(targets, &course.waits) else {
            return course;
        };
        course.step(source, targets[source as usize], counts[source as usize]);
    }
    course
}
