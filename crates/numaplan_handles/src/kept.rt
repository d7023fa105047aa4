//! The values that a handle can keep.
ghost use Rattle.std.specs.Prelude.{◌≡◌, Some, IfSome, true};

use crate::dialog::Dialog;
use numa_core::Core;
use numa_host_script::RunningHost;
use numa_pages::Pages;
use numa_plan::Plan;
use numa_pool::OwnedSeat;
use numa_publish::{Desk, PlanView};
use std::alloc::Global;
use std::sync::Arc;

/// The value of a handle.
#[derive(Drop)]
pub enum Kept {
    /// A core, which belongs to the handle alone.
    Core(Core),
    /// A plan, which handles of several threads share.
    Plan(Arc<Plan, Global>),
    /// A seat at pools of frames, which seats of other handles share.
    Seat(OwnedSeat),
    /// A script, with the answer to its last line.
    Script(Dialog),
    /// A host with the pages of its processes, which belong to the handle alone.
    Host(RunningHost),
    /// A core with its pages, which belong to the handle alone.
    Pages(Pages),
    /// A desk, which belongs to the handle alone.
    Desk(Desk),
    /// A reader of a desk, with the version at which it looks.
    Reader(PlanView),
}

/// The value, of a kind that is known.
macro_rules! kept_as {
    ($kept:expr, $kind:ident) => {
        match $kept {
            $crate::kept::Kept::$kind(it) => it,
            _ => unreachable!(),
        }
    };
}

pub(crate) use kept_as;

impl Kept {
    ghost use Rattle.numaplan_handles.specs.Kinds.{IsCopied, core_of, is_core, is_plan, plan_of};
    ghost use Rattle.numaplan_handles.specs.Kinds.{is_pages, pages_of};

    /// Moves the value to the heap, if there is memory for it; else it is dropped.
    pub(crate) fn on_heap(self, alloc: Global) -> Option<Box<Kept>>
        ensures { IfSome result (λ kept. kept.value ≡ self) }
    {
        Box::new(alloc, self).ok()
    }

    /// A copy of the core or the pages, or the same plan shared, if there is memory for it.
    pub(crate) fn again(&self, alloc: Global) -> Option<Box<Kept>>
        ensures core { IfSome result (λ other. IsCopied is_core core_of self.now other.value) }
        ensures plan { IfSome result (λ other. IsCopied is_plan plan_of self.now other.value) }
        ensures pages { IfSome result (λ other. IsCopied is_pages pages_of self.now other.value) }
    {
        match self {
            Kept::Core(core) => {
                let Ok(other) = core.copy() else {
                    return None;
                };
                Kept::Core(other).on_heap(alloc)
            }
            Kept::Plan(plan) => {
                let Ok(other) = Arc::try_clone(plan) else {
                    return None;
                };
                Kept::Plan(other).on_heap(alloc)
            }
            Kept::Pages(pages) => {
                let Ok(other) = pages.copy(alloc) else {
                    return None;
                };
                Kept::Pages(other).on_heap(alloc)
            }
            _ => None,
        }
    }
}
