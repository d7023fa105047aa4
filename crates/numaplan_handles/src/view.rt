//! What a handle keeps, as threads look at it.
ghost use Rattle.std.specs.Prelude.{◌≡◌, ℕ, Option, Some, None, is_some, true, MatchOption};
ghost use Rattle.std.specs.Coded.{coded_option};
ghost use Rattle.numaplan_handles.specs.declared.kept.Kept.{Kept};
ghost use Rattle.numaplan_handles.specs.contracts.kept.Kept.{the_row};
ghost use Rattle.numaplan_handles.specs.Held.{view_owns};
ghost use Rattle.numaplan_handles.specs.Kinds.{SharesKept, is_plan, plan_of};

use crate::handle::Handle;
use crate::kept::Kept;
use std::alloc::{AllocError, Global};
use std::marker::Model;

/// A value on the heap, or nothing, that C lends: one pointer. Threads may have the same value lent
/// at once; whoever lends it keeps it until all are done.
#[repr(C)]
pub struct LentSlot {
    at: *const u8,
    ghost lifetime: { ℕ },
    ghost kept: { Option Kept } by { coded_option the_row.coded },
}

impl Model for LentSlot {
    ghost also_owns = { λ s. view_owns s.at s.lifetime s.kept };
}

impl LentSlot {
    /// The value.
    fn value(&self) -> &Kept
        requires { is_some self.now.kept ≡ true }
        ensures { self.now.kept ≡ Some result.now }
    {
        let at = self.at as *const Kept;
        unsafe { &*at }
    }
}

/// A handle that is only looked at: the bytes are those of a [`Handle`].
#[repr(C)]
pub struct View {
    is_open: bool,
    held: LentSlot,
    ghost told: { is_some held.kept ≡ is_open },
}

impl View {
    /// The value, if the handle is open.
    pub(crate) fn lent(&self) -> Option<&Kept>
        ensures { MatchOption result (self.now.held.kept ≡ None)
            (λ kept. self.now.held.kept ≡ Some kept.now) }
    {
        if self.is_open {
            return Some(self.held.value());
        }
        None
    }

    /// Puts the same plan into a closed handle. `None` if this one is closed.
    ///
    /// # Errors
    /// `AllocError`: out of memory.
    pub(crate) fn share(&self, alloc: Global, other: &mut Handle) -> Option<Result<(), AllocError>>
        requires closed { other.old.held.kept ≡ None }
        ensures plan { SharesKept is_plan plan_of self.now.held.kept result other.new.held.kept }
    {
        let again = self.lent()?.again(alloc);
        Some(other.put_made(again.ok_or(AllocError)))
    }
}

const _: () = prove!(size_of::<View>() == 16);
