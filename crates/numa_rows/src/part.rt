//! A part of a list, for hand-written searches.
ghost use Rattle.std.specs.Prelude.{◌≡◌, ℕ, ◌+◌, ◌-◌, ◌<◌, ◌^◌, List, drop, length};
ghost use Rattle.std.specs.Prelude.{slice_index_or};
ghost use Rattle.std.specs.Bool.{OnTrue};
ghost use Rattle.numa_rows.specs.Parts.{flat, HasRank, IsTable};
ghost use Rattle.numa_rows.specs.Searches.{IsChunkOf, HasRow, PartData};

use crate::chunk::{Chunk, Place};
use crate::keep::Keep;
use crate::table::place_of;
use std::marker::Model;

/// Consecutive rows of one chunk of a list, or no rows, and the rank of the first.
#[derive(Drop)]
pub struct Part<'a, T> {
    chunk: usize,
    start: usize,
    rows: &'a [T],
}

impl<'a, T> Model for Part<'a, T> {
    ghost use Rattle.numa_rows.specs.Searches.{PartData};

    ghost Value = { PartData T };

    ghost view = { λ a. record { start = a.start; rows = a.rows.now } };
}

impl<'a, T> Part<'a, T> {
    /// No rows.
    #[inline]
    pub(crate) fn empty() -> Part<'a, T>
        ensures { (list : List T) → IsChunkOf list result }
    {
        Part {
            chunk: 0,
            start: 0,
            rows: &[],
        }
    }

    /// All rows of a slice.
    #[inline]
    pub(crate) fn whole(rows: &'a [T]) -> Part<'a, T>
        ensures part { IsChunkOf rows.now result }
        ensures has { (rank : ℕ) → rank < length rows.now → HasRow result rank }
    {
        Part {
            chunk: 0,
            start: 0,
            rows,
        }
    }

    /// Rows of the chunk at `place`, the row at `rank` among them.
    #[inline]
    pub(crate) fn at<K: Keep<T>>(
        chunks: &'a [Chunk<T, K>],
        place: Place,
        rank: usize,
    ) -> Part<'a, T>
        requires { HasRank chunks.now place.chunk place.start rank }
        ensures part { IsChunkOf (flat chunks.now) result }
        ensures has { HasRow result rank }
    {
        let part = chunks[place.chunk].part_at(rank - place.start);
        Part {
            chunk: place.chunk,
            start: place.start + part.start,
            rows: part.rows,
        }
    }

    /// Whether it has the row at a rank.
    #[inline]
    pub(crate) fn has(&self, rank: usize) -> bool
        ensures { OnTrue result (HasRow self.now rank) }
    {
        self.start <= rank && rank - self.start < self.rows.len()
    }

    /// The row at a rank, which it has.
    #[inline]
    pub(crate) fn row(&self, rank: usize) -> &'a T
        requires { HasRow self.now rank }
        ensures { (d : T) → result.now
            ≡ slice_index_or self.now.rows (rank - self.now.start) d }
    {
        &self.rows[rank - self.start]
    }

    /// Its rows from a rank on, which it has.
    #[inline]
    pub(crate) fn rows_from(&self, rank: usize) -> &'a [T]
        requires { HasRow self.now rank }
        ensures { result.now ≡ drop (rank - self.now.start) self.now.rows }
    {
        &self.rows[rank - self.start..]
    }

    /// The rank of its last row, if it has the row at a rank.
    #[inline]
    pub(crate) fn last_rank(&self, _rank: usize) -> usize
        requires has { HasRow self.now _rank }
        requires small { self.now.start + length self.now.rows < 2 ^ 32 }
        ensures { HasRow self.now result }
    {
        self.start + (self.rows.len() - 1)
    }

    /// The number of its chunk, for the next guess.
    #[inline]
    pub fn chunk(&self) -> usize {
        self.chunk
    }
}

/// The part itself if it has the row at a rank, else the part that has it. The search starts at a
/// guess at its chunk.
#[inline]
pub(crate) fn part_of<'a, T, K: Keep<T>>(
    chunks: &'a [Chunk<T, K>],
    starts: &[u32],
    len: usize,
    part: Part<'a, T>,
    rank: usize,
    guess: usize,
) -> Part<'a, T>
    requires table { IsTable 6144 chunks.now starts.now len }
    requires rank { rank < len }
    requires part { IsChunkOf (flat chunks.now) part }
    ensures part { IsChunkOf (flat chunks.now) result }
    ensures has { HasRow result rank }
{
    if part.has(rank) {
        return part;
    }
    let place = place_of(chunks, starts, len, rank, guess);
    Part::at(chunks, place, rank)
}
