//! Guessing a row's place from its page, as if rows were spread evenly.
ghost use Rattle.std.specs.Prelude.{◌≡◌, ◌-◌, ◌<◌, ◌≤◌, length, slice_index_or, IfSome};

use crate::list::{RowList, chunk_count, no_part, part_with, row_count, row_in, row_near};

/// The number of rows that are looked at around a guess.
const LOOKED_AT: usize = 4;

/// The rank of a row that starts at a page, if all rows were spread evenly from the first to the
/// last. Only speed depends on it.
fn even_rank(rows: &RowList, page: u64) -> Option<usize> {
    let last = row_count(rows).checked_sub(1)?;
    let mut chunk = chunk_count(rows);
    let top = row_near(rows, last, &mut chunk).first;
    let low = row_near(rows, 0, &mut 0).first;
    rank_between(page, low, top, last)
}

/// The rank of a page between the first page of the first row and that of the last.
#[inline]
fn rank_between(page: u64, low: u64, top: u64, last: usize) -> Option<usize> {
    let whole = top.saturating_sub(low).max(1);
    let product = page.checked_sub(low)?.checked_mul(last as u64)?;
    Some((product / whole) as usize)
}

/// The number of rows that start at a page or before it, if a few rows around the guessed rank
/// decide it; `chunk` is then their chunk.
pub(crate) fn starts_beside(rows: &RowList, page: u64, chunk: &mut usize) -> Option<usize>
    ensures some { IfSome result (λ count. 0 < count) }
    ensures within { IfSome result (λ count. count < length rows.now) }
    ensures before { IfSome result (λ count. (d : _)
        → (slice_index_or rows.now (count - 1) d).first ≤ page) }
    ensures behind { IfSome result (λ count. (d : _)
        → page < (slice_index_or rows.now count d).first) }
{
    let start = even_rank(rows, page)?.saturating_sub(1);
    let near = start.saturating_mul(chunk_count(rows)) / row_count(rows).max(1);
    let mut part = no_part(rows);
    for place in start..row_count(rows).min(start.saturating_add(LOOKED_AT)) {
        part = part_with(rows, part, place, near);
        let row = row_in(rows, &part, place);
        if page < row.first {
            if place == start {
                return None;
            }
            *chunk = part.chunk();
            return Some(place);
        }
    }
    None
}

/// The number of rows, if all of them start at a page or before it, as where ranges are made in
/// ascending order; `chunk` is then their last chunk.
pub(crate) fn all_starts(rows: &RowList, page: u64, chunk: &mut usize) -> Option<usize>
    ensures some { IfSome result (λ count. 0 < count) }
    ensures all { IfSome result (λ count. count ≡ length rows.now) }
    ensures before { IfSome result (λ count. (d : _)
        → (slice_index_or rows.now (count - 1) d).first ≤ page) }
{
    let count = row_count(rows);
    if count == 0 {
        return None;
    }
    let mut last = chunk_count(rows);
    let row = row_near(rows, count - 1, &mut last);
    if page < row.first {
        return None;
    }
    *chunk = last;
    Some(count)
}
