//! Values on the heap by their pointers.
ghost use Rattle.std.specs.Prelude.{◌≡◌};
ghost use Rattle.numaplan_handles.specs.Ownership.{owns_at};

use std::alloc::Global;
use std::marker::Model;

/// The pointer to a value on the heap, with the right to free it.
pub(crate) struct RawBox<T> {
    pub(crate) at: *mut T,
    pub(crate) ghost value: { T },
}

impl<T> Model for RawBox<T> {
    ghost also_owns = { λ p. owns_at T.row p.at p.value };
}

impl<T: Drop> RawBox<T> {
    /// The pointer of a boxed value.
    pub(crate) fn of(value: Box<T>) -> RawBox<T>
        ensures { result.value ≡ value.value }
    {
        let at = Box::into_raw(value);
        RawBox { at }
    }

    /// The boxed value again.
    pub(crate) fn into_box(self, alloc: Global) -> Box<T>
        ensures { result.value ≡ self.value }
    {
        let RawBox { at } = self;
        unsafe { Box::from_raw(alloc, at) }
    }
}
