//! Recompiling for a span with a home node.
ghost use Rattle.std.specs.Prelude.{◌≡◌, ◌-◌, ℕ, Some, false, [], if◌then◌else◌, IfOk, OnOk};
ghost use Rattle.std.specs.Prelude.{OnErr};
ghost use Rattle.std.specs.List.{slice_range};
ghost use Rattle.std.specs.Option.{ForSome};
ghost use Rattle.numa_ranges.specs.Windows.{begins_in, starts_in};
ghost use Rattle.numa_space.specs.Policies.{where_live};
ghost use Rattle.numa_space.specs.Standing.{IsInForce, SpaceState};
ghost use Rattle.numa_plan.specs.Meaning.{PlanData};
ghost use Rattle.numa_plan.specs.Rows.{Kept};
ghost use Rattle.numa_plan.specs.Slots.{kept_in, policy_in};
ghost use Rattle.numa_compile.specs.Copies.{AreCopies, IsNumber};
ghost use Rattle.numa_compile.specs.Follows.{Follows};
ghost use Rattle.numa_compile.specs.Recompiling.{WritesBoth, WritesRules};
ghost use Rattle.numa_compile.specs.Rules.{IsReady};
ghost use Rattle.numa_compile.specs.Windows.{IsNumbered, IsOpen, WereAdded};
ghost use Rattle.numa_compile.specs.declared.recompiler.window.Window.{Window};

use crate::recompiler::added::number_or_add;
use crate::recompiler::gather::{number_before, push_run};
use crate::recompiler::put::put_runs;
use crate::recompiler::unused::take_back;
use crate::recompiler::window::{Window, begins_inside, range_there};
use numa_machine::NoMemory;
use numa_plan::{Plan, Steps};
use numa_ranges::Run;
use numa_space::{RangeRecord, Space};
use std::alloc::Global;

/// Removes the rules that were added, the newest first, which restores the plan.
fn take_all_back(plan: &mut Plan, added: &mut Vec<Option<u32>>)
    requires { (space : SpaceState) × ((before : PlanData)
        × WereAdded space before added.old.items plan.old) }
    ensures { (space : SpaceState) (before : PlanData)
        → WereAdded space before added.old.items plan.old → plan.new ≡ before }
{
    while let Some(number) = added.pop() {
        take_back(plan, number);
    }
}

/// The rule number of a range of the window: its previous one if it begins outside the span, else
/// that of its policy's rule, which is added if there is none. Notes what was added.
fn number_of_home(
    alloc: Global,
    plan: &mut Plan,
    space: &Space,
    window: &Window,
    range: &Run<RangeRecord>,
    added: &mut Vec<Option<u32>>,
    steps: &mut Steps,
) -> Result<Option<u32>, NoMemory>
    requires ready { IsReady space.now }
    requires in_force { ForSome range.now.value (IsInForce space.now.machine space.now.allowed) }
    requires nodes { plan.old.nodes ≡ space.now.machine.nodes }
    requires outside { begins_in window.now.first window.now.end range.now ≡ false
        → IsNumbered plan.old range.now }
    ensures number { IfOk result (λ number.
        IsNumber (policy_in plan.new.slots) (where_live range.now.value) number) }
    ensures kept { (number : ℕ) (kept : Kept) → kept_in plan.old.slots number ≡ Some kept
        → kept_in plan.new.slots number ≡ Some kept }
    ensures added { (start : PlanData) → WereAdded space.now start added.old.items plan.old
        → WereAdded space.now start added.new.items plan.new }
    ensures few { WritesRules (if begins_in window.now.first window.now.end range.now then 1 else 0)
        steps.old steps.new }
{
    if !begins_inside(range, window) {
        return Ok(number_before(plan, window, range));
    }
    let (number, new) = number_or_add(alloc, space, range.value.policy(), plan, steps)?;
    let Ok(()) = added.push(new) else {
        take_back(plan, new);
        return Err(NoMemory);
    };
    Ok(number)
}

/// Appends a run for each range of the window, and notes the rules that were added, at most one for
/// each that begins in its span.
///
/// # Errors
/// `NoMemory`: there is no memory for a rule or for the runs.
fn gather_homes(
    alloc: Global,
    plan: &mut Plan,
    space: &Space,
    window: &Window,
    runs: &mut Vec<Run<Option<u32>>>,
    added: &mut Vec<Option<u32>>,
    steps: &mut Steps,
) -> Result<(), NoMemory>
    requires no_run { runs.old.items ≡ [] }
    requires none_added { added.old.items ≡ [] }
    requires ready { IsReady space.now }
    requires of { IsOpen space.now plan.old window.now }
    ensures copies { OnOk result (AreCopies (policy_in plan.new.slots)
        (slice_range space.now.ranges window.now.from window.now.to_now) runs.new.items) }
    ensures added { WereAdded space.now plan.old added.new.items plan.new }
    ensures few { WritesRules (starts_in window.now.first window.now.end space.now.ranges)
        steps.old steps.new }
{
    for k in window.from..window.to_now {
        let range = range_there(space, k);
        let value = number_of_home(alloc, plan, space, window, &range, added, steps)?;
        push_run(runs, &range, value)?;
    }
    Ok(())
}

/// Rewrites the runs of the window, and adds the rules that they need. Notes which were added.
///
/// # Errors
/// `NoMemory`: there is no memory for a rule or for the runs. Then the plan hasn't changed but for
/// the added rules.
fn write_homes(
    alloc: Global,
    plan: &mut Plan,
    space: &Space,
    window: &Window,
    added: &mut Vec<Option<u32>>,
    steps: &mut Steps,
) -> Result<(), NoMemory>
    requires ready { IsReady space.now }
    requires of { IsOpen space.now plan.old window.now }
    requires none_added { added.old.items ≡ [] }
    ensures follows { OnOk result (Follows space.now plan.new) }
    ensures tasks { plan.new.tasks ≡ plan.old.tasks }
    ensures added { OnErr result (WereAdded space.now plan.old added.new.items plan.new) }
    ensures few { WritesBoth (window.now.to_now - window.now.from)
        (starts_in window.now.first window.now.end space.now.ranges) steps.old steps.new }
{
    let mut runs = Vec::new(alloc);
    gather_homes(alloc, plan, space, window, &mut runs, added, steps)?;
    put_runs(plan, space, window, &runs, steps)
}

/// Gives each range that begins in the window's span the rule of its policy. Rewrites the window's
/// runs, and writes at most one rule for each of these ranges.
///
/// # Errors
/// `NoMemory`: there is no memory for a rule or for the runs. Then the plan hasn't changed.
pub(crate) fn rewrite_homes(
    alloc: Global,
    plan: &mut Plan,
    space: &Space,
    window: &Window,
    steps: &mut Steps,
) -> Result<(), NoMemory>
    requires ready { IsReady space.now }
    requires of { IsOpen space.now plan.old window.now }
    ensures follows { OnOk result (Follows space.now plan.new) }
    ensures tasks { plan.new.tasks ≡ plan.old.tasks }
    ensures few { WritesBoth (window.now.to_now - window.now.from)
        (starts_in window.now.first window.now.end space.now.ranges) steps.old steps.new }
    ensures unchanged { OnErr result (plan.new ≡ plan.old) }
{
    let mut added = Vec::new(alloc);
    let Ok(()) = write_homes(alloc, plan, space, window, &mut added, steps) else {
        take_all_back(plan, &mut added);
        return Err(NoMemory);
    };
    Ok(())
}
