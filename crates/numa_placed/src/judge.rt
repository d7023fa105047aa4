//! Why a call is refused, judged.
ghost use Rattle.std.specs.Prelude.{◌≡◌, ◌+◌, ◌<◌, ◌≤◌, ◌^◌, ℕ, true, false, is_some, Some, None};
ghost use Rattle.std.specs.Prelude.{MatchResult, IsErrAnd, Ok, OnOk};
ghost use Rattle.numa_ranges.specs.Maps.{IsSpan};
ghost use Rattle.numa_ranges.specs.Runs.{page_at};
ghost use Rattle.numa_placed.specs.Refusals.{IsLack, IsMoveLack, lacks_node};
ghost use Rattle.numa_placed.specs.Refusals.{move_cause, spot_cause, touch_cause};
ghost use Rattle.numa_placed.specs.Shifts.{AreRooms, HasRoom, room_cause, room_of};
ghost use Rattle.numa_placed.specs.declared.spot.Spot.{Spot};

use crate::rooms::Rooms;
use crate::spot::Spot;
use numa_machine::Machine;
use numa_requests::{MoveRefusal, PlacedRefusal};
use numa_space::Space;

/// Whether the machine lacks a node, or the node has no memory.
pub fn lacks_node(machine: &Machine, node: u32) -> bool
    ensures lacks { result ≡ lacks_node machine.now node }
    ensures byte { result ≡ false → node < 256 }
{
    node >= machine.nodes() || !machine.memory().has(node as u8)
}

/// Whether a page has a node list: those that are mapped have one.
fn has_list(space: &Space, page: u64) -> bool
    ensures { result ≡ is_some (page_at space.now.ranges page) }
{
    // Tells the proof that the machine has node 0.
    let _ = space.machine().nodes();
    space.list_at(0, page, 0).is_ok()
}

/// Whether a page is mapped.
fn is_mapped(space: &Space, page: u64) -> bool
    ensures mapped { result ≡ is_some (page_at space.now.ranges page) }
    ensures below { result ≡ true → page < 2 ^ 35 }
{
    // Tells the proof that all mapped pages are below 2^35.
    let _ = space.range_iter();
    has_list(space, page)
}

/// Refuses to touch pages, unless the machine has the node of the task's CPU and all are mapped.
pub(crate) fn judge_touch(
    space: &Space,
    first: u64,
    pages: u64,
    cpu: u32,
) -> Result<(), PlacedRefusal>
    requires { first + pages ≤ 2 ^ 35 }
    ensures { MatchResult result
        (λ done. touch_cause space.now.machine (λ p. is_some (page_at space.now.ranges p)) first
        pages cpu ≡ None)
        (λ refusal. touch_cause space.now.machine (λ p. is_some (page_at space.now.ranges p)) first
        pages cpu ≡ Some refusal) }
{
    if cpu >= space.machine().nodes() {
        return Err(PlacedRefusal::BadCpu);
    }
    if space.has_hole(first, pages) {
        return Err(PlacedRefusal::Unmapped);
    }
    Ok(())
}

/// Refuses to move a page that lies here to a node, unless it may go there.
fn judge_spot(node: u32, spot: Spot) -> Result<(), MoveRefusal>
    ensures { MatchResult result (λ done. spot_cause node spot ≡ None)
        (λ refusal. spot_cause node spot ≡ Some refusal) }
{
    match spot {
        Spot::Nowhere => Err(MoveRefusal::NotPlaced),
        Spot::Stated(_) => Ok(()),
    }
}

/// Refuses to move a page that lies here to a node, as
/// [`Placed::move_page`](crate::Placed::move_page) does where memory serves.
///
/// # Errors
/// The first of these that applies: `NoSuchNode`, `NodesNotAllowed`, `Unmapped`, `NotPlaced`,
/// `NoRoom`, as [`MoveRefusal`] says.
pub fn judge_move(space: &Space, page: u64, node: u32, spot: Spot) -> Result<(), MoveRefusal>
    ensures cause { MatchResult result (λ done. move_cause space.now.machine space.now.allowed node
        (is_some (page_at space.now.ranges page)) spot ≡ None)
        (λ refusal. move_cause space.now.machine space.now.allowed node
        (is_some (page_at space.now.ranges page)) spot ≡ Some refusal) }
    ensures byte { OnOk result (node < 256) }
    ensures span { OnOk result (IsSpan page 1) }
{
    if lacks_node(space.machine(), node) {
        return Err(MoveRefusal::NoSuchNode);
    }
    if !space.allowed().has(node as u8) {
        return Err(MoveRefusal::NodesNotAllowed);
    }
    if !is_mapped(space, page) {
        return Err(MoveRefusal::Unmapped);
    }
    judge_spot(node, spot)
}

/// Refuses to move a page that lies here to a node, unless the node has room for it.
pub(crate) fn judge_room(rooms: &Rooms, node: u8, spot: Spot) -> Result<(), MoveRefusal>
    ensures cause { (room : ℕ → ℕ) → AreRooms rooms.now room → MatchResult result
        (λ done. room_cause room node spot ≡ None)
        (λ refusal. room_cause room node spot ≡ Some refusal) }
    ensures room { OnOk result (HasRoom (room_of rooms.now) node spot) }
{
    match spot {
        Spot::Nowhere => {
            if rooms.pages[node as usize] > 0 {
                return Ok(());
            }
            Err(MoveRefusal::NoRoom)
        }
        Spot::Stated(from) => {
            if from == node || rooms.pages[node as usize] > 0 {
                return Ok(());
            }
            Err(MoveRefusal::NoRoom)
        }
    }
}

/// What a move answers after an edit.
pub(crate) fn move_outcome(outcome: Result<(), PlacedRefusal>) -> Result<(), MoveRefusal>
    ensures { MatchResult outcome (λ done. result ≡ Ok done) (λ lack. IsErrAnd result
        (λ refusal. (after : ℕ → Spot) → IsLack after lack → IsMoveLack after refusal)) }
{
    match outcome {
        Ok(()) => Ok(()),
        Err(PlacedRefusal::TooManyRuns) => Err(MoveRefusal::TooManyRuns),
        Err(_) => Err(MoveRefusal::NoMemory),
    }
}
