//! Recompiling for a task's policy.
ghost use Rattle.std.specs.Prelude.{◌≡◌, OnOk, OnErr};
ghost use Rattle.numa_requests.specs.declared.command.Command.{Command};
ghost use Rattle.numa_space.specs.Standing.{record_of};
ghost use Rattle.numa_compile.specs.Follows.{Follows, IsBehind};
ghost use Rattle.numa_compile.specs.Recompiling.{GivesTask, KeepsRuns, WritesRules};

use crate::compiler::survey;
use crate::recompiler::added::number_or_add;
use crate::recompiler::unused::{drop_unused, take_back};
use numa_machine::NoMemory;
use numa_mode::Record;
use numa_plan::{Plan, Steps};
use numa_space::Space;
use std::alloc::Global;

/// Gives a task the rule of its new policy, which is this one. Writes no run, and at most one rule.
///
/// # Errors
/// `NoMemory`: there is no memory for the rule or for the task. Then the plan hasn't changed.
pub(crate) fn recompile_task(
    alloc: Global,
    plan: &mut Plan,
    space: &Space,
    task: u32,
    policy: Option<Record>,
    steps: &mut Steps,
) -> Result<(), NoMemory>
    requires set { policy ≡ record_of space.now.tasks task }
    requires behind { (command : Command) × GivesTask task command
        × IsBehind space.now command plan.old }
    ensures follows { OnOk result (Follows space.now plan.new) }
    ensures unchanged { OnErr result (plan.new ≡ plan.old) }
    ensures few { WritesRules 1 steps.old steps.new }
    ensures others { KeepsRuns task plan.old plan.new }
{
    survey(space);
    let had = plan.task_number(task);
    let (number, added) = number_or_add(alloc, space, policy, plan, steps)?;
    let Ok(()) = plan.set_task(task, number) else {
        take_back(plan, added);
        return Err(NoMemory);
    };
    plan.set_version(space.version());
    drop_unused(plan, had);
    Ok(())
}
