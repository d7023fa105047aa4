//! Groups of chunks that copies share.
ghost use Rattle.std.specs.Prelude.{◌≡◌, IfOk};

use crate::chunk::MOST;
use crate::keep::Keep;
use crate::part::Part;
use crate::rows::Rows;
use crate::shared::{Shared, sole};
use std::alloc::{AllocError, Global};
use std::ops::Range;
use std::sync::Arc;

/// A list of shared chunks that copies of it share. A copy takes one step; the first edit after it
/// makes a new list with the same chunks but for the one that it copies.
#[derive(Drop)]
pub struct Group<T: Copy + Drop> {
    list: Arc<Rows<T, Shared<T>>>,
}

impl<T: Copy + Drop> Group<T> {
    /// The group of a list that isn't shared yet.
    fn of(alloc: Global, list: Rows<T, Shared<T>>) -> Result<Group<T>, AllocError>
        ensures { IfOk result (λ group. group.list.value ≡ list) }
    {
        let list = Arc::new(alloc, list)?;
        Ok(Group { list })
    }
}

impl<T: Copy + Drop> Keep<T> for Group<T> {
    ghost rows_of = { λ a. a.list.value };

    #[inline]
    fn most() -> usize {
        MOST
    }

    fn keep(alloc: Global, rows: &[T]) -> Result<Group<T>, AllocError> {
        let mut list = Rows::new(alloc);
        if let Err(refused) = list.splice(0, 0, rows) {
            return Err(refused);
        }
        Group::of(alloc, list)
    }

    #[inline]
    fn size(&self) -> usize {
        self.list.len()
    }

    #[inline]
    fn part_at(&self, place: usize) -> Part<'_, T> {
        self.list
            .part_with(Part::empty(), place, place / Shared::<T>::most())
    }

    fn append_to(&self, others: &mut Vec<T>) -> Result<(), AllocError> {
        self.list.append_to(others)
    }

    fn copied(&self, _alloc: Global) -> Result<Group<T>, AllocError> {
        Ok(Group {
            list: Arc::try_clone(&self.list)?,
        })
    }

    fn replace(&mut self, alloc: Global, span: Range<usize>, rows: &[T]) -> Result<(), AllocError> {
        if Arc::strong_count(&self.list) != 1 {
            let Ok(list) = self.list.copy() else {
                return Err(AllocError);
            };
            let Ok(own) = Group::of(alloc, list) else {
                return Err(AllocError);
            };
            *self = own;
        }
        let near = span.start / Shared::<T>::most();
        let Ok(list) = sole(&mut self.list) else {
            return Err(AllocError);
        };
        list.splice_near(span.start, span.end, rows, near)
    }
}
