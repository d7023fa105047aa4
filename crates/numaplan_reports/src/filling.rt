//! Where all mapped pages of a core would go, with limited free pages on each node.
ghost use Rattle.std.specs.Prelude.{◌≡◌, List, Some, true};
ghost use Rattle.numa_compile.specs.Standing.{PlanStandsFor};
ghost use Rattle.numa_space.specs.Standing.{StandsFor};
ghost use Rattle.numa_requests.specs.declared.command.Command.{Command};
ghost use Rattle.numaplan_handles.specs.Calls.{Asks};
ghost use Rattle.numaplan_handles.specs.Handles.{core_in};
ghost use Rattle.numaplan_handles.specs.Kinds.{core_of, is_core};
ghost use Rattle.numaplan_handles.specs.Steps.{Compiles};
ghost use Rattle.numaplan_reports.specs.Asked.{Fills, IsFilled};

use numa_plan::{Plan, Tally};
use numa_reports::{ReportError, fill_all};
use numa_sheets::Touch;
use numa_space::Space;
use numaplan_handles::{CoreHandle, Kept, compile_kept, core_kept, of_kept};
use std::alloc::Global;

/// The pages of each node that remain free once all pages of a space are placed by its plan.
fn fill_space(space: &Space, plan: &Plan, touch: Touch, free: &Tally) -> Result<Tally, ReportError>
    requires plan { (history : List Command) → StandsFor space.now history
        → PlanStandsFor space.now.machine plan.now history }
    ensures { IsFilled space.now touch.task touch.cpu free.now result }
{
    let mut left = *free;
    match fill_all(space, plan, touch.task, touch.cpu, &mut left, &mut ()) {
        Ok(()) => Ok(left),
        Err(why) => Err(why),
    }
}

/// The same for a core, by the plan of its accepted commands.
fn fill_planned(kept: &Kept, plan: &Plan, touch: Touch, free: &Tally) -> Result<Tally, ReportError>
    requires core { is_core (Some kept.now) ≡ true }
    requires plan { Compiles (core_of (Some kept.now)) plan.now }
    ensures { Fills (core_of (Some kept.now)) touch.task touch.cpu free.now result }
{
    fill_space(core_kept(kept).space(), plan, touch, free)
}

/// The same for a core.
fn fill_kept(
    kept: &mut Kept,
    alloc: Global,
    touch: Touch,
    free: &Tally,
) -> Result<Tally, ReportError>
    requires core { is_core (Some kept.old) ≡ true }
    ensures same { kept.new ≡ kept.old }
    ensures fills { Fills (core_of (Some kept.old)) touch.task touch.cpu free.now result }
{
    let Ok(plan) = compile_kept(kept, alloc) else {
        return Err(ReportError::Memory);
    };
    let answer = fill_planned(kept, &plan, touch, free);
    drop(plan);
    answer
}

/// The pages of each node that remain free, if the task touched all mapped pages now on a CPU of
/// node `cpu`, in ascending order, by all accepted commands: a page takes a free page of the first
/// node of its list that has one, or goes nowhere. `None` if the handle is closed.
///
/// # Errors
/// In the `Some`: `Refused(BadCpu)`, the machine has no node `cpu`; `Memory`, there is no memory
/// for the plan.
pub fn fill_core(
    alloc: Global,
    core: &mut CoreHandle,
    touch: Touch,
    free: &[u64; 256],
) -> Option<Result<[u64; 256], ReportError>>
    ensures { Asks (λ answer. Fills (core_in core.old) touch.task touch.cpu free.now answer)
        (core_in core.old) result (core_in core.new) }
{
    of_kept!(core.handle, alloc, mut kept => fill_kept(&mut kept, alloc, touch, free))
}
