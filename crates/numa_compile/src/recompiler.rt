//! Recompiling: editing a plan in place after each command that its space has accepted.
ghost use Rattle.std.specs.Prelude.{◌≡◌, ℕ, ◌<◌, OnOk, OnErr, List};
ghost use Rattle.std.specs.Option.{ForSome};
ghost use Rattle.numa_ranges.specs.Runs.{AreApart, AreMaximal};
ghost use Rattle.numa_requests.specs.declared.command.Command.{Command};
ghost use Rattle.numa_space.specs.Standing.{StandsFor, IsNodeList};
ghost use Rattle.numa_plan.specs.Meaning.{planned_list};
ghost use Rattle.numa_compile.specs.Follows.{Follows, LacksChange};
ghost use Rattle.numa_compile.specs.Recompiling.{KeepsOthers, WritesFew};
ghost use Rattle.numa_compile.specs.Rules.{IsReady};
ghost use Rattle.numa_compile.specs.Standing.{PlanStandsFor};
ghost use Rattle.numa_compile.specs.Windows.{IsBehindNone};

mod added;
mod gather;
mod home;
mod map;
mod mbind;
mod mems;
mod put;
mod rewrite;
mod task;
mod unused;
mod weight;
mod window;

use crate::compiler::survey;
use crate::recompiler::home::rewrite_homes;
use crate::recompiler::map::mapped_window;
use crate::recompiler::mbind::rewrite_bound;
use crate::recompiler::mems::recompile_mems;
use crate::recompiler::rewrite::rewrite_window;
use crate::recompiler::task::recompile_task;
use crate::recompiler::weight::recompile_weight;
use crate::recompiler::window::open_window;
use numa_machine::NoMemory;
use numa_plan::{Plan, Steps};
use numa_space::{Change, Space};
use std::alloc::Global;

/// Has a plan follow its space after a command that changed nothing but the version.
fn take_version(plan: &mut Plan, space: &Space)
    requires behind { IsBehindNone space.now plan.old }
    requires rising { AreApart 0 space.now.ranges }
    requires maximal { AreMaximal space.now.ranges }
    ensures follows { Follows space.now plan.new }
    ensures others { plan.new ≡ record plan.old { version = plan.new.version } }
{
    plan.set_version(space.version());
}

/// Edits a plan for its space's last change. Where pages were mapped or unmapped, no range that
/// begins there has a policy; after a home node each has its own.
///
/// # Errors
/// `NoMemory`: there is no memory for the edit. Then the plan hasn't changed.
fn edit(
    alloc: Global,
    plan: &mut Plan,
    space: &Space,
    change: Change,
    steps: &mut Steps,
) -> Result<(), NoMemory>
    requires lacks { LacksChange space.now change plan.old }
    requires ready { IsReady space.now }
    requires rising { AreApart 0 space.now.ranges }
    requires maximal { AreMaximal space.now.ranges }
    ensures follows { OnOk result (Follows space.now plan.new) }
    ensures unchanged { OnErr result (plan.new ≡ plan.old) }
    ensures few { WritesFew change plan.old steps.old steps.new }
    ensures others { KeepsOthers change plan.old plan.new }
{
    match change {
        Change::Nothing => {
            take_version(plan, space);
            Ok(())
        }
        Change::Mapped { pages } => {
            let window = mapped_window(plan, space, &pages);
            rewrite_window(alloc, plan, space, &window, None, steps)
        }
        Change::Unmapped { pages } => {
            let window = open_window(plan, space, &pages);
            rewrite_window(alloc, plan, space, &window, None, steps)
        }
        Change::Bound { pages, policy } => {
            let window = open_window(plan, space, &pages);
            rewrite_bound(alloc, plan, space, &window, policy, steps)
        }
        Change::Homed { pages, .. } => {
            let window = open_window(plan, space, &pages);
            rewrite_homes(alloc, plan, space, &window, steps)
        }
        Change::TaskSet { task, policy } => {
            recompile_task(alloc, plan, space, task, policy, steps)
        }
        Change::Weighed { .. } => recompile_weight(alloc, plan, space, steps),
        Change::Allowed { .. } => recompile_mems(alloc, plan, space, steps),
    }
}

/// Edits a plan in place, so that it follows its space again after one more accepted command, whose
/// change is what [`Space::apply`] returned. It writes only the runs and rules that the change
/// affects.
///
/// A change of pages writes at most one run for each run that has one of them and two more; of
/// their policy at most one rule, of their home node one for each of these runs. A task's policy
/// takes one rule, a weight the rules of weighted interleave. A change of the allowed nodes
/// compiles the plan again. `steps` counts the written runs and rules, for contracts only; no count
/// decreases.
///
/// # Errors
/// `NoMemory`: out of memory, or the plan's runs and tasks, or its slots, would be 2^32 or more.
/// Then the plan hasn't changed.
pub fn recompile(
    alloc: Global,
    plan: &mut Plan,
    space: &Space,
    change: &Change,
    steps: &mut Steps,
) -> Result<(), NoMemory>
    requires lacks { LacksChange space.now change.now plan.old }
    ensures follows { OnOk result (Follows space.now plan.new) }
    ensures stands { (history : List Command) → StandsFor space.now history
        → OnOk result (PlanStandsFor space.now.machine plan.new history) }
    ensures sound { OnOk result ((task page cpu : ℕ) → cpu < plan.new.nodes
        → ForSome (planned_list plan.new task page cpu) (IsNodeList space.now.allowed)) }
    ensures unchanged { OnErr result (plan.new ≡ plan.old) }
    ensures few { WritesFew change.now plan.old steps.old steps.new }
    ensures others { KeepsOthers change.now plan.old plan.new }
{
    survey(space);
    edit(alloc, plan, space, *change, steps)
}
