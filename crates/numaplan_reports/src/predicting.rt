//! Where all mapped pages of a core would go.
ghost use Rattle.std.specs.Prelude.{◌≡◌, List, Some, true};
ghost use Rattle.numa_compile.specs.Standing.{PlanStandsFor};
ghost use Rattle.numa_space.specs.Standing.{StandsFor};
ghost use Rattle.numa_requests.specs.declared.command.Command.{Command};
ghost use Rattle.numaplan_handles.specs.Calls.{Asks};
ghost use Rattle.numaplan_handles.specs.Handles.{core_in};
ghost use Rattle.numaplan_handles.specs.Kinds.{core_of, is_core};
ghost use Rattle.numaplan_handles.specs.Steps.{Compiles};
ghost use Rattle.numaplan_reports.specs.Asked.{IsPredicted, Predicts};

use numa_plan::Plan;
use numa_reports::{ReportError, predict_all};
use numa_sheets::Touch;
use numa_space::Space;
use numaplan_handles::{CoreHandle, Kept, compile_kept, core_kept, of_kept};
use std::alloc::Global;

/// The number of pages of a space that would go to each node, by its plan.
fn predict_space(space: &Space, plan: &Plan, touch: Touch) -> Result<[u64; 256], ReportError>
    requires plan { (history : List Command) → StandsFor space.now history
        → PlanStandsFor space.now.machine plan.now history }
    ensures { IsPredicted space.now touch.task touch.cpu result }
{
    predict_all(space, plan, touch.task, touch.cpu, &mut ())
}

/// The number of pages of a core that would go to each node, by the plan of its accepted commands.
fn predict_planned(kept: &Kept, plan: &Plan, touch: Touch) -> Result<[u64; 256], ReportError>
    requires core { is_core (Some kept.now) ≡ true }
    requires plan { Compiles (core_of (Some kept.now)) plan.now }
    ensures { Predicts (core_of (Some kept.now)) touch.task touch.cpu result }
{
    predict_space(core_kept(kept).space(), plan, touch)
}

/// The number of pages of a core that would go to each node.
fn predict_kept(kept: &mut Kept, alloc: Global, touch: Touch) -> Result<[u64; 256], ReportError>
    requires core { is_core (Some kept.old) ≡ true }
    ensures same { kept.new ≡ kept.old }
    ensures predicts { Predicts (core_of (Some kept.old)) touch.task touch.cpu result }
{
    let Ok(plan) = compile_kept(kept, alloc) else {
        return Err(ReportError::Memory);
    };
    let answer = predict_planned(kept, &plan, touch);
    drop(plan);
    answer
}

/// The number of mapped pages that would go to each node, if the task touched each of them now on a
/// CPU of node `cpu`, by all accepted commands. `None` if the handle is closed.
///
/// # Errors
/// In the `Some`: `Refused(BadCpu)`, the machine has no node `cpu`; `Memory`, there is no memory
/// for the plan.
pub fn predict_core(
    alloc: Global,
    core: &mut CoreHandle,
    touch: Touch,
) -> Option<Result<[u64; 256], ReportError>>
    ensures { Asks (λ answer. Predicts (core_in core.old) touch.task touch.cpu answer)
        (core_in core.old) result (core_in core.new) }
{
    of_kept!(core.handle, alloc, mut kept => predict_kept(&mut kept, alloc, touch))
}
