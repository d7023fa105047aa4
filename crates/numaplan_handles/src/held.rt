//! The pointer in a handle: a value on the heap, or nothing.
ghost use Rattle.std.specs.Prelude.{◌≡◌, Option, Some, None, is_some, true};
ghost use Rattle.std.specs.Coded.{coded_option};
ghost use Rattle.numaplan_handles.specs.declared.kept.Kept.{Kept};
ghost use Rattle.numaplan_handles.specs.contracts.kept.Kept.{the_row};
ghost use Rattle.numaplan_handles.specs.Held.{held_owns};

use crate::kept::Kept;
use crate::place::RawBox;
use std::marker::Model;
use std::ptr::null_mut;

/// A value on the heap, or nothing: one pointer, of which only is known that C keeps it. It isn't
/// `Drop`, so a body that forgets a value without freeing it is refused.
#[repr(C)]
pub struct HeapSlot {
    at: *mut u8,
    ghost kept: { Option Kept } by { coded_option the_row.coded },
}

impl Model for HeapSlot {
    ghost also_owns = { λ h. held_owns h.at h.kept };
}

impl HeapSlot {
    /// Nothing.
    pub(crate) fn none() -> HeapSlot
        ensures { result.kept ≡ None }
    {
        HeapSlot { at: null_mut() }
    }

    /// The value at this pointer.
    pub(crate) fn of(place: RawBox<Kept>) -> HeapSlot
        ensures { result.kept ≡ Some place.value }
    {
        let RawBox { at } = place;
        HeapSlot { at: at as *mut u8 }
    }

    /// Consumes an empty slot.
    pub(crate) fn spent(self)
        requires { self.kept ≡ None }
    {
        let HeapSlot { at: _ } = self;
    }

    /// The pointer to the value.
    pub(crate) fn into_place(self) -> RawBox<Kept>
        requires { is_some self.kept ≡ true }
        ensures { self.kept ≡ Some result.value }
    {
        let HeapSlot { at } = self;
        RawBox {
            at: at as *mut Kept,
        }
    }
}

unsafe impl Send for HeapSlot {}
