//! Handles of plans.
ghost use Rattle.std.specs.Prelude.{◌≡◌, None, true};
ghost use Rattle.numaplan_handles.specs.Calls.{Keeps};
ghost use Rattle.numaplan_handles.specs.Kinds.{is_plan};

use crate::handle::Handle;
use crate::kept::Kept;
use numa_plan::Plan;
use std::alloc::{AllocError, Global};
use std::sync::Arc;

/// Handles of plans, which can share one. A plan is asked by a [`PlanView`](crate::PlanView).
#[repr(C)]
pub struct PlanHandle {
    pub handle: Handle,
    ghost kind: { is_plan handle.held.kept ≡ true },
}

impl PlanHandle {
    ghost use Rattle.numaplan_handles.specs.Handles.{plan_in};

    /// Puts a plan into a closed handle.
    ///
    /// # Errors
    /// `AllocError`: out of memory; the plan is freed.
    pub fn open(&mut self, alloc: Global, plan: Plan) -> Result<(), AllocError>
        requires closed { plan_in self.old ≡ None }
        ensures { Keeps plan result (plan_in self.new) }
    {
        let Some(plan) = Arc::new(alloc, plan).ok() else {
            return Err(AllocError);
        };
        self.handle.keep(alloc, Kept::Plan(plan))
    }
}
