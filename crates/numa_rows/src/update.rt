//! Changes of owned rows that don't allocate.
ghost use Rattle.std.specs.Prelude.{◌≡◌, ◌+◌, ◌<◌, slice_set, take};
ghost use Rattle.numa_rows.specs.Parts.{HasRank, IsTable, flat};

use crate::chunk::{Chunk, Place};
use crate::owned::Owned;
use crate::starts::guess_at;
use crate::table::place_of;

/// Replaces the row at a rank. The search for its chunk starts at a guess; returns the chunk.
pub(crate) fn put_row<T: Copy + Drop>(
    chunks: &mut Vec<Chunk<T, Owned<T>>>,
    starts: &[u32],
    len: usize,
    rank: usize,
    row: T,
    guess: usize,
) -> usize
    requires table { IsTable 6144 chunks.old.items starts.now len }
    requires rank { rank < len }
    ensures row { flat chunks.new.items ≡ slice_set (flat chunks.old.items) rank row }
    ensures table { IsTable 6144 chunks.new.items starts.now len }
{
    let place = place_of(chunks, starts, len, rank, guess);
    chunks[place.chunk].put(rank - place.start, row);
    place.chunk
}

/// Keeps the first `left` rows.
pub(crate) fn cut_to<T: Copy + Drop>(
    chunks: &mut Vec<Chunk<T, Owned<T>>>,
    starts: &mut Vec<u32>,
    len: usize,
    left: usize,
)
    requires table { IsTable 6144 chunks.old.items starts.old.items len }
    requires less { left < len }
    ensures rows { flat chunks.new.items ≡ take left (flat chunks.old.items) }
    ensures table { IsTable 6144 chunks.new.items starts.new.items left }
{
    if left == 0 {
        chunks.clear();
        starts.clear();
        return;
    }
    let rank = left - 1;
    let place = place_of(chunks, starts, len, rank, guess_at(starts, rank));
    cut_behind(chunks, starts, len, place, rank);
}

/// Removes the rows after one, which a chunk has.
fn cut_behind<T: Copy + Drop>(
    chunks: &mut Vec<Chunk<T, Owned<T>>>,
    starts: &mut Vec<u32>,
    _len: usize,
    place: Place,
    rank: usize,
)
    requires table { IsTable 6144 chunks.old.items starts.old.items _len }
    requires has { HasRank chunks.old.items place.chunk place.start rank }
    ensures rows { flat chunks.new.items ≡ take (rank + 1) (flat chunks.old.items) }
    ensures table { IsTable 6144 chunks.new.items starts.new.items (rank + 1) }
{
    let kept = rank - place.start + 1;
    chunks.truncate(place.chunk + 1);
    starts.truncate(place.chunk + 1);
    let chunk = &mut chunks[place.chunk];
    chunk.truncate(kept);
}
