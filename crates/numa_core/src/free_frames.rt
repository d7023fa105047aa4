//! Finding free frames. The frames that a touch would try in vain all have owners, so its end is
//! found directly: the lowest frame without an owner of the first listed node that has one, or the
//! end of the list.
ghost use Rattle.std.specs.Prelude.{◌≡◌, ℕ, ◌+◌, ◌*◌, ◌<◌, ◌≤◌, true, Option, None, Some, is_some};
ghost use Rattle.std.specs.Prelude.{List, IfOk, IfSome, length, vec_len, slice_index, slice_set};
ghost use Rattle.numa_core.specs.World.{Setup, World};
ghost use Rattle.numa_core.specs.Standing.{frames_before, owner_at, place_in};
ghost use Rattle.numa_core.specs.Hints.{AreMarked, AreTaken, IsLow, OwnsFrom};
ghost use Rattle.numa_core.specs.Seats.{HasRoom};
ghost use Rattle.numa_core.specs.Touching.{lowest_free, first_free, Shows};

use crate::places::Places;
use crate::tables::{clear, forget, marked_from, meet, none_met};
use numa_machine::Frame;
use std::alloc::{AllocError, Global};

/// What is known of the owners, so that a look for a free frame passes many owned ones at once: for
/// each node a number below which all its frames are owned, and a bit for each frame, which is set
/// only if the frame is owned.
#[derive(Drop)]
pub(crate) struct Known {
    pub lowest: Vec<u32>,
    pub marks: Vec<u64>,
}

/// A frame without an owner, and the place of its node in a list, from 0.
#[derive(Clone, Copy)]
pub(crate) struct FreeFrame {
    pub frame: Frame,
    pub rank: u32,
}

/// No frame is known to be owned.
pub(crate) fn none_taken(alloc: Global, places: &Places) -> Result<Known, AllocError>
    ensures { IfOk result (λ taken. (owners : List (Option ℕ)) → AreTaken places.now owners taken) }
{
    let lowest = vec![in alloc; 0; places.nodes()]?;
    let mut marks = none_met(alloc, places.total())?;
    clear(&mut marks);
    Ok(Known { lowest, marks })
}

/// A copy of what is known.
pub(crate) fn known_copy(alloc: Global, known: &Known) -> Result<Known, AllocError>
    ensures { IfOk result (λ copy. (copy.lowest.items ≡ known.now.lowest.items)
        × (copy.marks.items ≡ known.now.marks.items)
        × (vec_len copy.marks ≡ vec_len known.now.marks)) }
{
    let lowest = Vec::from_slice(alloc, &known.lowest)?;
    let marks = Vec::from_slice(alloc, &known.marks)?;
    Ok(Known { lowest, marks })
}

/// The number of a node's lowest frames that are known to be owned.
fn lowest_known(taken: &Vec<u32>, node: u8) -> u32
    ensures { result ≡ slice_index taken.now.items node }
{
    taken.get(node as usize).copied().unwrap_or(0)
}

impl Known {
    /// A frame at a place was given back.
    pub(crate) fn lower(&mut self, frame: Frame, place: u32)
        requires node { frame.node < vec_len self.old.lowest }
        requires place { place < 64 * vec_len self.old.marks }
        ensures { (frames : List ℕ) (owners : List (Option ℕ)) → AreTaken frames owners self.old
            → place_in frames frame.node frame.number ≡ Some place → place < length owners
            → AreTaken frames (slice_set owners place None) self.new }
    {
        let node = frame.node as usize;
        self.lowest[node] = self.lowest[node].min(frame.number as u32);
        forget(&mut self.marks, place);
    }

    /// A frame at a place was taken. Each lower one of its node has an owner.
    pub(crate) fn raise(&mut self, frame: Frame, place: u32)
        requires node { frame.node < vec_len self.old.lowest }
        requires place { place < 64 * vec_len self.old.marks }
        ensures { (frames : List ℕ) (owners : List (Option ℕ)) (worker : ℕ)
            → AreTaken frames owners self.old → IsLow frames owners frame
            → place_in frames frame.node frame.number ≡ Some place → place < length owners
            → AreTaken frames (slice_set owners place (Some worker)) self.new }
    {
        self.lowest[frame.node as usize] = frame.number as u32 + 1;
        meet(&mut self.marks, place);
    }
}

/// How many frames from a place on are owned, as far as one look tells; 0 if the first isn't.
fn owned_from(owners: &Vec<Option<u8>>, marks: &Vec<u64>, place: u32) -> u32
    requires owners { place < vec_len owners.now }
    requires room { place < 64 * vec_len marks.now }
    requires marked { AreMarked owners.now.items marks.now.items }
    ensures owned { (p : ℕ) → place ≤ p → p < place + result →
        is_some (owner_at owners.now.items (Some p)) ≡ true }
    ensures free { result ≡ 0 → owner_at owners.now.items (Some place) ≡ None }
    ensures few { result ≤ 64 }
{
    let marked = marked_from(marks, place);
    if marked > 0 {
        return marked;
    }
    if owners[place as usize].is_none() {
        return 0;
    }
    1
}

/// The number of the lowest frame of a node without an owner, from `from` on.
fn free_number(
    places: &Places,
    owners: &Vec<Option<u8>>,
    marks: &Vec<u64>,
    node: u8,
    from: u32,
) -> Option<u32>
    requires owners { vec_len owners.now ≡ frames_before places.now (length places.now) }
    requires room { HasRoom places.now (vec_len marks.now) }
    requires marked { AreMarked owners.now.items marks.now.items }
    ensures free { IfSome result (λ number. (number < slice_index places.now node)
        × (owner_at owners.now.items (Some (frames_before places.now node + number)) ≡ None)) }
    ensures small { IfSome result (λ number. number < 4096) }
    ensures below { IfSome result (λ number.
        OwnsFrom places.now owners.now.items node from number) }
    ensures none { result ≡ None →
        OwnsFrom places.now owners.now.items node from (slice_index places.now node) }
{
    let frames = places.frames(node);
    if from >= frames {
        return None;
    }
    let first = places.first(node);
    let mut number = from;
    while number < frames {
        let owned = owned_from(owners, marks, first + number);
        if owned == 0 {
            return Some(number);
        }
        number += owned;
    }
    None
}

/// The lowest frame of a node without an owner.
fn lowest_free(places: &Places, owners: &Vec<Option<u8>>, taken: &Known, node: u8) -> Option<Frame>
    requires owners { vec_len owners.now ≡ frames_before places.now (length places.now) }
    requires taken { AreTaken places.now owners.now.items taken.now }
    ensures lowest { (s : Setup) (world : World) → Shows s places.now owners.now.items world →
        result ≡ lowest_free s world node }
    ensures low { IfSome result (IsLow places.now owners.now.items) }
{
    let from = lowest_known(&taken.lowest, node);
    let number = free_number(places, owners, &taken.marks, node, from)?;
    Some(Frame {
        node,
        number: number as u16,
    })
}

/// The lowest frame without an owner of the first listed node that has one.
pub(crate) fn first_free(
    places: &Places,
    owners: &Vec<Option<u8>>,
    taken: &Known,
    nodes: &[u8],
) -> Option<FreeFrame>
    requires owners { vec_len owners.now ≡ frames_before places.now (length places.now) }
    requires taken { AreTaken places.now owners.now.items taken.now }
    requires few { length nodes.now ≤ 256 }
    ensures first { (s : Setup) (world : World) → Shows s places.now owners.now.items world →
        result ≡ first_free s world nodes.now }
    ensures low { IfSome result (λ spot. IsLow places.now owners.now.items spot.frame) }
{
    for rank in 0..nodes.len() {
        let node = nodes[rank];
        if let Some(frame) = lowest_free(places, owners, taken, node) {
            return Some(FreeFrame {
                frame,
                rank: rank as u32,
            });
        }
    }
    None
}
