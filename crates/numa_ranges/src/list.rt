//! The list of rows in chunks. What it is asked for is asked here: a proof that calls one of these
//! sees a list of rows, and not how the chunks are kept.
ghost use Rattle.std.specs.Prelude.{◌≡◌, ◌+◌, ◌/◌, ◌<◌, ◌≤◌, ◌^◌, length};
ghost use Rattle.std.specs.Prelude.{slice_index_or, OnOk, OnErr};
ghost use Rattle.std.specs.List.{splice};
ghost use Rattle.numa_rows.specs.Searches.{HasRow, IsChunkOf};

use crate::row::Row;
use numa_rows::{Owned, Part, Rows};
use std::alloc::AllocError;
use std::ops::Range;

/// The rows of a map, each chunk with rows of its own.
pub(crate) type RowList = Rows<Row, Owned<Row>>;

/// The number of rows.
#[inline(always)]
pub(crate) fn row_count(rows: &RowList) -> usize
    ensures len { result ≡ length rows.now }
    ensures bound { result < 2 ^ 32 }
{
    rows.len()
}

/// The number of chunks.
#[inline(always)]
pub(crate) fn chunk_count(rows: &RowList) -> usize
    ensures { result ≤ 1 + length rows.now / 64 }
{
    rows.chunk_count()
}

/// The row at a rank; the search for it starts at chunk number `chunk`, and it is the row's own
/// afterwards.
#[inline(always)]
pub(crate) fn row_near(rows: &RowList, rank: usize, chunk: &mut usize) -> Row
    requires { rank < length rows.now }
    ensures { (d : Row) → result ≡ slice_index_or rows.now rank d }
{
    *rows.get_near(rank, chunk)
}

/// No rows of the list: where a search by hand begins.
#[inline(always)]
pub(crate) fn no_part(rows: &RowList) -> Part<'_, Row>
    ensures { IsChunkOf rows.now result }
{
    rows.no_part()
}

/// The part itself if it has the row at `rank`, else the part that has it. The search starts at a
/// guess.
#[inline(always)]
pub(crate) fn part_with<'a>(
    rows: &'a RowList,
    part: Part<'a, Row>,
    rank: usize,
    guess: usize,
) -> Part<'a, Row>
    requires rank { rank < length rows.now }
    requires part { IsChunkOf rows.now part }
    ensures part { IsChunkOf rows.now result }
    ensures has { HasRow result rank }
{
    rows.part_with(part, rank, guess)
}

/// The row at `rank`, which the part has.
#[inline(always)]
pub(crate) fn row_in(rows: &RowList, part: &Part<'_, Row>, rank: usize) -> Row
    requires part { IsChunkOf rows.now part.now }
    requires has { HasRow part.now rank }
    ensures { (d : Row) → result ≡ slice_index_or rows.now rank d }
{
    *rows.row_in(part, rank)
}

/// Replaces the rows from one rank to another. The search for the first starts at a guess at its
/// chunk.
///
/// # Errors
/// `AllocError`: out of memory. Then nothing has changed.
#[inline(always)]
pub(crate) fn splice_rows(
    rows: &mut RowList,
    ranks: Range<usize>,
    others: &[Row],
    guess: usize,
) -> Result<(), AllocError>
    requires rises { ranks.start ≤ ranks.end }
    requires within { ranks.end ≤ length rows.old }
    ensures ok { OnOk result (rows.new ≡ splice rows.old ranks.start ranks.end others.now) }
    ensures unchanged { OnErr result (rows.new ≡ rows.old) }
{
    rows.splice_near(ranks.start, ranks.end, others, guess)
}
