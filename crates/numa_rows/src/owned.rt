//! Rows that belong to one chunk alone.
ghost use Rattle.std.specs.Prelude.{◌≡◌, ◌<◌, length, slice_set, take};

use crate::keep::Keep;
use crate::part::Part;
use crate::put::{put_in, with_room};
use std::alloc::{AllocError, Global};
use std::marker::Model;
use std::ops::Range;

/// The most rows that an edit leaves in an owned chunk.
const MOST_OWNED: usize = 128;

/// Rows that belong to one chunk alone.
#[derive(Drop)]
pub struct Owned<T> {
    rows: Vec<T>,
}

impl<T> Model for Owned<T> {
    ghost use Rattle.std.specs.Prelude.{List};

    ghost Value = { List T };

    ghost view = { λ a. a.rows.items };
}

impl<T: Copy + Drop> Keep<T> for Owned<T> {
    ghost rows_of = { λ rows. rows };

    /// Few, since an edit moves half of them.
    #[inline]
    fn most() -> usize {
        MOST_OWNED
    }

    fn keep(alloc: Global, rows: &[T]) -> Result<Owned<T>, AllocError> {
        Ok(Owned {
            rows: with_room(alloc, MOST_OWNED, rows)?,
        })
    }

    #[inline]
    fn size(&self) -> usize {
        self.rows.len()
    }

    #[inline]
    fn part_at(&self, _place: usize) -> Part<'_, T> {
        Part::whole(&self.rows)
    }

    fn append_to(&self, others: &mut Vec<T>) -> Result<(), AllocError> {
        others.extend_from_slice(&self.rows)
    }

    fn copied(&self, alloc: Global) -> Result<Owned<T>, AllocError> {
        Owned::keep(alloc, &self.rows)
    }

    fn replace(
        &mut self,
        _alloc: Global,
        span: Range<usize>,
        rows: &[T],
    ) -> Result<(), AllocError> {
        put_in(&mut self.rows, span.start, span.end, rows)
    }
}

impl<T: Copy + Drop> Owned<T> {
    /// Replaces a row.
    pub(crate) fn put(&mut self, place: usize, row: T)
        requires { place < length self.old }
        ensures { self.new ≡ slice_set self.old place row }
    {
        self.rows[place] = row;
    }

    /// Removes the rows after the first `len`.
    pub(crate) fn truncate(&mut self, len: usize)
        ensures { self.new ≡ take len self.old }
    {
        self.rows.truncate(len);
    }
}
