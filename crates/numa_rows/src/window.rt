//! The chunks that an edit changes.
ghost use Rattle.std.specs.Prelude.{◌≡◌, true, false, ◌+◌, ◌-◌, ◌<◌, ◌≤◌, ◌^◌, length, take};
ghost use Rattle.std.specs.Prelude.{IfSome};
ghost use Rattle.numa_rows.specs.Parts.{IsTable, HasRank, IsWindow, StaysPart, flat};

use crate::chunk::{Chunk, LEAST, Place};
use crate::keep::Keep;
use crate::table::place_of;

/// The chunks that an edit changes: the one at `place`, which `stays` of a valid size, or else
/// those from there to `high`, which are made anew.
#[derive(Clone, Copy)]
pub(crate) struct Window {
    pub(crate) place: Place,
    pub(crate) high: usize,
    pub(crate) stays: bool,
}

/// The chunks that an edit changes. The search for the first starts at a guess.
#[inline]
pub(crate) fn changed<T, K: Keep<T>>(
    chunks: &[Chunk<T, K>],
    starts: &[u32],
    len: usize,
    from: usize,
    to: usize,
    added: usize,
    guess: usize,
) -> Window
    requires table { IsTable 6144 chunks.now starts.now len }
    requires rises { from ≤ to }
    requires within { to ≤ len }
    requires few { len - (to - from) + added < 2 ^ 32 }
    ensures stays { result.stays ≡ true
        → StaysPart 6144 chunks.now result.place.chunk result.place.start from to added }
    ensures window { result.stays ≡ false
        → IsWindow chunks.now result.place.chunk result.high from to added }
    ensures start { result.stays ≡ false
        → result.place.start ≡ length (flat (take result.place.chunk chunks.now)) }
{
    if len == 0 {
        return Window {
            place: Place { chunk: 0, start: 0 },
            high: 0,
            stays: false,
        };
    }
    let rank = from.min(len - 1);
    let first = place_of(chunks, starts, len, rank, guess);
    if let Some(window) = within_one(chunks, first, rank, len, from, to, added) {
        return window;
    }
    around(chunks, starts, len, first, rank, from, to, added)
}

/// The chunk at `place`, if it has all rows from one rank to another, and either stays of a valid
/// size with the new number in their place or grows too long, so that it alone is made anew.
#[inline]
fn within_one<T, K: Keep<T>>(
    chunks: &[Chunk<T, K>],
    place: Place,
    _rank: usize,
    _len: usize,
    from: usize,
    to: usize,
    added: usize,
) -> Option<Window>
    requires has { HasRank chunks.now place.chunk place.start _rank }
    requires from { _rank ≤ from }
    requires rises { from ≤ to }
    requires count { _len ≡ length (flat chunks.now) }
    requires small { _len < 2 ^ 32 }
    requires few { _len - (to - from) + added < 2 ^ 32 }
    ensures stays { IfSome result (λ window. window.stays ≡ true
        → StaysPart 6144 chunks.now window.place.chunk window.place.start from to added) }
    ensures window { IfSome result (λ window. window.stays ≡ false
        → IsWindow chunks.now window.place.chunk window.high from to added) }
    ensures start { IfSome result (λ window. window.stays ≡ false
        → window.place.start ≡ length (flat (take window.place.chunk chunks.now))) }
{
    let size = chunks[place.chunk].len();
    if to > place.start + size {
        return None;
    }
    let left = size - (to - from) + added;
    let next = place.chunk + 1;
    if left > K::most() {
        return Some(Window {
            place,
            high: next,
            stays: false,
        });
    }
    if left == 0 || (left < LEAST && next != chunks.len()) {
        return None;
    }
    Some(Window {
        place,
        high: next,
        stays: true,
    })
}

/// The chunks around both ends of an edit, which are made anew where the one at `place` doesn't
/// take it in.
fn around<T, K: Keep<T>>(
    chunks: &[Chunk<T, K>],
    starts: &[u32],
    len: usize,
    place: Place,
    _rank: usize,
    _from: usize,
    to: usize,
    _added: usize,
) -> Window
    requires table { IsTable 6144 chunks.now starts.now len }
    requires has { HasRank chunks.now place.chunk place.start _rank }
    requires rank { _rank < len }
    requires from { _rank ≤ _from }
    requires rises { _from ≤ to }
    requires within { to ≤ len }
    ensures anew { result.stays ≡ false }
    ensures window { IsWindow chunks.now result.place.chunk result.high _from to _added }
    ensures start { result.place.start ≡ length (flat (take result.place.chunk chunks.now)) }
{
    let end = to.min(len - 1);
    let last = place_of(chunks, starts, len, end, place.chunk);
    let low = place.chunk.saturating_sub(1);
    Window {
        place: Place {
            chunk: low,
            start: starts[low] as usize,
        },
        high: chunks.len().min(last.chunk + 2),
        stays: false,
    }
}
