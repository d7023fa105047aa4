//! Recompiling for a span with an own policy.
ghost use Rattle.std.specs.Prelude.{◌≡◌, ◌-◌, ◌<◌, ◌≤◌, true, length, OnOk, OnErr};
ghost use Rattle.std.specs.Option.{ForSome};
ghost use Rattle.numa_ranges.specs.Runs.{end_of};
ghost use Rattle.numa_space.specs.Standing.{IsInForce};
ghost use Rattle.numa_compile.specs.Follows.{Follows};
ghost use Rattle.numa_compile.specs.Recompiling.{WritesBoth};
ghost use Rattle.numa_compile.specs.Rules.{IsReady};
ghost use Rattle.numa_compile.specs.Windows.{HavePolicy, IsOpen};
ghost use Rattle.numa_compile.specs.declared.recompiler.window.Window.{Window};

use crate::recompiler::added::number_or_add;
use crate::recompiler::rewrite::rewrite_window;
use crate::recompiler::unused::take_back;
use crate::recompiler::window::{Window, range_there};
use numa_machine::NoMemory;
use numa_mode::Record;
use numa_plan::{Plan, Steps};
use numa_ranges::Run;
use numa_space::{RangeRecord, Space};
use std::alloc::Global;

/// Whether a range has the window's whole span and the page before it.
fn reaches_over(range: &Run<RangeRecord>, window: &Window) -> bool
    ensures first { result ≡ true → range.now.first < window.now.first }
    ensures end { result ≡ true → window.now.end ≤ end_of range.now }
{
    range.first < window.first && window.end.saturating_sub(range.first) <= range.pages
}

/// The policy of the ranges that begin in the window's span: this one, or none if no range begins
/// there, because the bound pages were joined to the range before them.
fn policy_begun(space: &Space, window: &Window, policy: Option<Record>) -> Option<Record>
    requires within { window.now.to_now ≤ length space.now.ranges }
    requires in_force { ForSome policy (IsInForce space.now.machine space.now.allowed) }
    requires inside { HavePolicy space.now window.now policy }
    ensures in_force { ForSome result (IsInForce space.now.machine space.now.allowed) }
    ensures inside { HavePolicy space.now window.now result }
{
    if window.from < window.to_now && reaches_over(&range_there(space, window.from), window) {
        return None;
    }
    policy
}

/// Gives the ranges that begin in the window's span the rule of this policy, which each of them
/// has. Rewrites the window's runs, and writes at most one rule.
///
/// # Errors
/// `NoMemory`: there is no memory for the rule or for the runs. Then the plan hasn't changed.
pub(crate) fn rewrite_bound(
    alloc: Global,
    plan: &mut Plan,
    space: &Space,
    window: &Window,
    policy: Option<Record>,
    steps: &mut Steps,
) -> Result<(), NoMemory>
    requires ready { IsReady space.now }
    requires of { IsOpen space.now plan.old window.now }
    requires in_force { ForSome policy (IsInForce space.now.machine space.now.allowed) }
    requires inside { HavePolicy space.now window.now policy }
    ensures follows { OnOk result (Follows space.now plan.new) }
    ensures tasks { plan.new.tasks ≡ plan.old.tasks }
    ensures few { WritesBoth (window.now.to_now - window.now.from) 1 steps.old steps.new }
    ensures unchanged { OnErr result (plan.new ≡ plan.old) }
{
    let policy = policy_begun(space, window, policy);
    let (number, added) = number_or_add(alloc, space, policy, plan, steps)?;
    let Ok(()) = rewrite_window(alloc, plan, space, window, number, steps) else {
        take_back(plan, added);
        return Err(NoMemory);
    };
    Ok(())
}
