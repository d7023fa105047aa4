//! Pages that keep frames, where other pages move: they stay.
ghost use Rattle.std.specs.Prelude.{◌≡◌, ◌<◌, ◌≤◌, ◌^◌, ◌==◌, ℕ, [], MatchOption, MatchResult};
ghost use Rattle.std.specs.Prelude.{◌+◌, None, Some, not};
ghost use Rattle.numa_maps.specs.Residents.{Kept};
ghost use Rattle.numa_placed.specs.Spots.{pages_if};
ghost use Rattle.numa_page_state.specs.Lying.{OfNodes, Told, ground_in, held_left, with_held};
ghost use Rattle.numa_page_state.specs.Outcomes.{frame_cause, held_cause};
ghost use Rattle.numa_page_state.specs.Standing.{AreGone, Followed, LastAs, TellsOf};

use crate::last::{Last, keep};
use crate::state::still;
use numa_maps::Resident;
use numa_mask::NodeMask;
use numa_placed::{Moved, Placed, Rooms, Spot, judge_move};
use numa_requests::MoveRefusal;
use numa_space::Space;

/// 1 if the pages of a node go to another, else 0.
fn goes(to: &[u8; 256], node: u8) -> u64
    ensures goes { (go : ℕ → ℕ) → AreGone to.now go
        → result ≡ pages_if (not (go node == node)) 1 }
    ensures one { result ≤ 1 }
{
    if to[node as usize] == node {
        return 0;
    }
    1
}

/// How many pages keep a frame of a node whose pages go to another.
fn held_left(resident: &Resident, to: &[u8; 256]) -> u64
    ensures left { (go : ℕ → ℕ) → AreGone to.now go → result ≡ held_left resident.now go }
    ensures few { result < 2 ^ 63 }
{
    let mut left = 0;
    for (_, placement) in resident.iter() {
        let one = goes(to, placement.node);
        left += one;
    }
    left
}

/// How many pages keep a frame of a node whose pages go to another; none, where none keeps a frame.
fn held_where(resident: Option<&Resident>, to: &[u8; 256]) -> u64
    ensures left { (go : ℕ → ℕ) (kept : Kept) → AreGone to.now go → MatchOption resident.entry
        (kept ≡ []) (λ held. held.now ≡ kept) → result ≡ held_left kept go }
    ensures few { result < 2 ^ 63 }
{
    match resident {
        None => 0,
        Some(resident) => held_left(resident, to),
    }
}

/// Writes what a move did in the place of another, with the pages that stayed in their frames.
fn write_moved(told: &mut Moved, moved: &Moved, held: u64)
    requires { moved.now.left + held < 2 ^ 64 }
    ensures { (telling : Told) (kept : Kept) → TellsOf moved.now telling
        → held ≡ held_left kept telling.to → TellsOf told.new (with_held kept telling) }
{
    told.moved = moved.moved;
    told.left = moved.left + held;
    told.from = moved.from;
    told.to = moved.to;
}

/// Keeps what a move did, with the pages that stayed in their frames, in the place of the one
/// before.
fn keep_whole(last: &mut Last, moved: &Moved, held: u64)
    requires { moved.now.left + held < 2 ^ 64 }
    ensures { (told : Told) (kept : Kept) → TellsOf moved.now told → held ≡ held_left kept told.to
        → LastAs last.new (OfNodes (with_held kept told)) }
{
    *last = Last::Nodes(Moved {
        moved: moved.moved,
        left: moved.left + held,
        from: moved.from,
        to: moved.to,
    });
}

/// The same, written where the one before is, if that went by nodes too.
fn keep_with_held(last: &mut Last, moved: &Moved, resident: Option<&Resident>)
    requires { moved.now.left < 2 ^ 62 }
    ensures { (told : Told) (kept : Kept) → TellsOf moved.now told → MatchOption resident.entry
        (kept ≡ []) (λ held. held.now ≡ kept)
        → LastAs last.new (OfNodes (with_held kept told)) }
{
    let held = held_where(resident, &moved.to);
    match last {
        Last::Nodes(told) => write_moved(told, moved, held),
        Last::Pages(_) => keep_whole(last, moved, held),
    }
}

/// Pages follow the allowed nodes where no node fills, and what that did is kept.
fn follow_freely(
    placed: &mut Placed,
    last: &mut Last,
    old: &NodeMask,
    new: &NodeMask,
    resident: Option<&Resident>,
)
    ensures { Followed placed.old None old.now new.now placed.new None (λ kept. MatchOption
        resident.entry (kept ≡ []) (λ held. held.now ≡ kept)) last.new }
{
    let moved = placed.follow(old, new);
    keep_with_held(last, &moved, resident);
}

/// The same as far as there is room; where they lack runs or memory, they stay.
fn follow_filling(
    placed: &mut Placed,
    have: &mut Rooms,
    last: &mut Last,
    old: &NodeMask,
    new: &NodeMask,
    resident: Option<&Resident>,
)
    ensures { Followed placed.old (Some have.old) old.now new.now placed.new (Some have.new)
        (λ kept. MatchOption resident.entry (kept ≡ []) (λ held. held.now ≡ kept)) last.new }
{
    match placed.follow_within(old, new, have) {
        Ok(moved) => keep_with_held(last, &moved, resident),
        Err(_refusal) => keep(last, Last::Nodes(still())),
    }
}

/// Pages follow the allowed nodes, as far as there is room, and what that did is kept, with the
/// pages that stayed in their frames; where they lack runs or memory, they stay.
pub(crate) fn follow_telling(
    placed: &mut Placed,
    rooms: &mut Option<Rooms>,
    last: &mut Last,
    old: &NodeMask,
    new: &NodeMask,
    resident: Option<&Resident>,
)
    ensures { Followed placed.old rooms.old old.now new.now placed.new rooms.new (λ kept.
        MatchOption resident.entry (kept ≡ []) (λ held. held.now ≡ kept)) last.new }
{
    match rooms {
        None => follow_freely(placed, last, old, new, resident),
        Some(have) => follow_filling(placed, have, last, old, new, resident),
    }
}

/// What a move did, with the pages that stayed in their frames.
pub(crate) fn with_held(moved: Moved, resident: Option<&Resident>) -> Moved
    requires { moved.left < 2 ^ 62 }
    ensures { (told : Told) (kept : Kept) → TellsOf moved told → MatchOption resident.entry
        (kept ≡ []) (λ held. held.now ≡ kept)
        → TellsOf result (with_held kept told) }
{
    let Some(resident) = resident else {
        return moved;
    };
    let held = held_left(resident, &moved.to);
    let Moved {
        moved,
        left,
        from,
        to,
    } = moved;
    Moved {
        moved,
        left: left + held,
        from,
        to,
    }
}

/// Refuses to move a page in a frame of a node to another.
fn judge_frame(node: u32, from: u8) -> Result<(), MoveRefusal>
    ensures { MatchResult result (λ done. frame_cause node from ≡ None)
        (λ refusal. frame_cause node from ≡ Some refusal) }
{
    if u32::from(from) == node {
        return Ok(());
    }
    Err(MoveRefusal::NoRoom)
}

/// Refuses to move a page that keeps a frame of a node, unless that is the node where it is to go.
pub(crate) fn judge_held(space: &Space, page: u64, node: u32, from: u8) -> Result<(), MoveRefusal>
    ensures { MatchResult result
        (λ done. held_cause (ground_in space.now []) page node from ≡ None)
        (λ refusal. held_cause (ground_in space.now []) page node from ≡ Some refusal) }
{
    match judge_move(space, page, node, Spot::Stated(from)) {
        Ok(()) => judge_frame(node, from),
        Err(refusal) => Err(refusal),
    }
}
