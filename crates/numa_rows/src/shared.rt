//! Rows that copies of a chunk share.
ghost use Rattle.std.specs.Prelude.{◌≡◌, IfOk};
ghost use Rattle.std.specs.Borrow.{sem};
ghost use Rattle.numa_rows.specs.Lending.{LendsBlock};

use crate::keep::Keep;
use crate::part::Part;
use crate::put::{put_in, with_room};
use std::alloc::{AllocError, Allocator, Global};
use std::ops::Range;
use std::sync::Arc;

/// The most rows that an edit leaves in a shared chunk: the first edit after a copy copies them.
const MOST_SHARED: usize = 768;

/// Rows in a vector that copies of a chunk share. The first edit after a copy copies the rows; rows
/// that aren't shared are edited in place.
#[derive(Drop)]
pub struct Shared<T> {
    rows: Arc<Vec<T>>,
}

impl<T: Copy + Drop> Keep<T> for Shared<T> {
    ghost rows_of = { λ a. a.rows.value.items };

    #[inline]
    fn most() -> usize {
        MOST_SHARED
    }

    fn keep(alloc: Global, rows: &[T]) -> Result<Shared<T>, AllocError> {
        let rows = with_room(alloc, MOST_SHARED, rows)?;
        let rows = Arc::new(alloc, rows)?;
        Ok(Shared { rows })
    }

    #[inline]
    fn size(&self) -> usize {
        self.rows.len()
    }

    #[inline]
    fn part_at(&self, _place: usize) -> Part<'_, T> {
        let items: &Vec<T> = &self.rows;
        Part::whole(items)
    }

    fn append_to(&self, others: &mut Vec<T>) -> Result<(), AllocError> {
        let items: &Vec<T> = &self.rows;
        others.extend_from_slice(items)
    }

    fn copied(&self, _alloc: Global) -> Result<Shared<T>, AllocError> {
        Ok(Shared {
            rows: Arc::try_clone(&self.rows)?,
        })
    }

    fn replace(&mut self, alloc: Global, span: Range<usize>, rows: &[T]) -> Result<(), AllocError> {
        if Arc::strong_count(&self.rows) != 1 {
            let items: &Vec<T> = &self.rows;
            let Ok(own) = Shared::keep(alloc, items) else {
                return Err(AllocError);
            };
            *self = own;
        }
        let Ok(items) = sole(&mut self.rows) else {
            return Err(AllocError);
        };
        put_in(items, span.start, span.end, rows)
    }
}

/// The contents of an Arc that isn't shared, for writing.
#[inline]
pub(crate) fn sole<B, A: Allocator>(block: &mut Arc<B, A>) -> Result<&mut B, AllocError>
    ensures* lends { sem 𝓛 (LendsBlock B.row A.row A.Allocator block.entry result) }
    ensures value { IfOk result (λ items. items.now ≡ block.old.value) }
{
    match Arc::get_mut(block) {
        Some(items) => Ok(items),
        None => Err(AllocError),
    }
}
