//! What becomes of pages when those of each node go to another.
ghost use Rattle.std.specs.Prelude.{◌≡◌, ◌+◌, ◌-◌, ◌<◌, ◌^◌, ◌==◌, ◌++◌, ℕ, IfOk, OnErr, OnOk};
ghost use Rattle.std.specs.Prelude.{min, slice_index, if◌then◌else◌};
ghost use Rattle.numa_placed.specs.Moves.{AreTargets};
ghost use Rattle.numa_placed.specs.Shifts.{ArePages, AreRooms};
ghost use Rattle.numa_moves.specs.Moving.{moves_by, moves_of, shares_behind, shift_by};
ghost use Rattle.numa_moves.specs.Shares.{pages_on, share_by};

use crate::share::{Share, push_share};
use numa_mask::NodeMask;
use numa_placed::{Rooms, departures};
use std::alloc::{AllocError, Global};

/// What becomes of a share.
#[derive(Clone, Copy)]
pub struct ShareMove {
    /// The pages, as they lay before.
    pub share: Share,
    /// The node to which they go: their own, if they need not go.
    pub to: u8,
    /// The number of them that go there. The others stay: as none need go, or without room.
    pub moved: u64,
}

/// Adds a share's pages to those of its node.
fn add_share(counts: &mut [u64; 256], share: &Share)
    ensures { (node : ℕ) → node < 256 → slice_index counts.old node
        + (if share.now.node == node then share.now.there else 0) < 2 ^ 64
        → slice_index counts.new node ≡ slice_index counts.old node
        + (if share.now.node == node then share.now.there else 0) }
{
    let node = share.node as usize;
    counts[node] = counts[node].saturating_add(share.there);
}

/// The number of pages of all shares on each node, of 2^64 - 1 at most.
pub fn pages_by_node(shares: &[Share]) -> [u64; 256]
    ensures { (node : ℕ) → node < 256 → pages_on shares.now node < 2 ^ 64
        → slice_index result node ≡ pages_on shares.now node }
{
    let mut counts = [0; 256];
    for share in shares {
        add_share(&mut counts, share);
    }
    counts
}

/// Takes as many of so many pages as are still to go from a node.
fn take_pages(left: &mut [u64; 256], node: u8, there: u64) -> u64
    ensures taken { result ≡ min there (slice_index left.old node) }
    ensures left { (other : ℕ) → other < 256 → slice_index left.new other
        ≡ (if node == other then slice_index left.old other - there
        else slice_index left.old other) }
    ensures small { node < 256 }
{
    let taken = there.min(left[node as usize]);
    left[node as usize] -= taken;
    taken
}

/// What becomes of shares, where so many pages of each node are to go: of the first shares as many
/// as are still to.
fn moves_by(
    alloc: Global,
    shares: &[Share],
    to: &[u8; 256],
    gone: &[u64; 256],
) -> Result<Vec<ShareMove>, AllocError>
    ensures { (go pages : ℕ → ℕ) → AreTargets to.now go → ArePages gone.now pages
        → IfOk result (λ moves. moves.items ≡ moves_by go pages shares.now) }
{
    let mut left = *gone;
    let mut moves = Vec::new(alloc);
    for share in shares {
        let moved = take_pages(&mut left, share.node, share.there);
        moves.push(ShareMove {
            share: *share,
            to: to[share.node as usize],
            moved,
        })?;
    }
    Ok(moves)
}

/// What becomes of shares when their pages leave one set of nodes for another, as Linux moves them:
/// those of each node go to its [`numa_placed::moved_node`], node by node, as far as there is room;
/// of each node those of the first shares. The rooms are those behind the move.
///
/// # Errors
/// `AllocError`: out of memory; the rooms are as they were.
pub fn moves_within(
    alloc: Global,
    shares: &[Share],
    old: &NodeMask,
    new: &NodeMask,
    rooms: &mut Rooms,
) -> Result<Vec<ShareMove>, AllocError>
    ensures moves { (room : ℕ → ℕ) → AreRooms rooms.old room
        → ((node : ℕ) → pages_on shares.now node < 2 ^ 64)
        → IfOk result (λ moves. moves.items ≡ moves_of shares.now old.now new.now room) }
    ensures rooms { (room : ℕ → ℕ) → AreRooms rooms.old room
        → ((node : ℕ) → pages_on shares.now node < 2 ^ 64)
        → OnOk result (AreRooms rooms.new (shift_by shares.now old.now new.now room).room) }
    ensures unchanged { OnErr result (rooms.new ≡ rooms.old) }
{
    let there = pages_by_node(shares);
    let mut behind = *rooms;
    let leaving = departures(&there, old, new, &mut behind);
    let moves = moves_by(alloc, shares, &leaving.to, &leaving.gone)?;
    *rooms = behind;
    Ok(moves)
}

/// Appends what stayed of a share, and what came of it.
fn push_behind(shares: &mut Vec<Share>, moved: &ShareMove) -> Result<(), AllocError>
    ensures { OnOk result (shares.new.items ≡ shares.old.items
        ++ (share_by moved.now.share.span moved.now.share.node
        (moved.now.share.there - moved.now.moved)
        ++ share_by moved.now.share.span moved.now.to moved.now.moved)) }
{
    let share = moved.share;
    let stayed = share.there.saturating_sub(moved.moved);
    push_share(shares, share.span, share.node, stayed)?;
    push_share(shares, share.span, moved.to, moved.moved)?;
    Ok(())
}

/// The shares behind moves: what stayed of each, and what came of it.
///
/// # Errors
/// `AllocError`: out of memory.
pub fn shares_behind(alloc: Global, moves: &[ShareMove]) -> Result<Vec<Share>, AllocError>
    ensures { IfOk result (λ shares. shares.items ≡ shares_behind moves.now) }
{
    let mut shares = Vec::new(alloc);
    for moved in moves {
        push_behind(&mut shares, moved)?;
    }
    Ok(shares)
}
