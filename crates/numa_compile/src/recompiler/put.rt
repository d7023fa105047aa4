//! Replacing runs of a plan, and dropping the rules of the old ones.
ghost use Rattle.std.specs.Prelude.{◌≡◌, ◌-◌, OnOk, OnErr};
ghost use Rattle.std.specs.List.{slice_range};
ghost use Rattle.numa_plan.specs.Slots.{policy_in};
ghost use Rattle.numa_compile.specs.Copies.{AreCopies};
ghost use Rattle.numa_compile.specs.Follows.{Follows};
ghost use Rattle.numa_compile.specs.Recompiling.{KeepsNamed, WritesBoth};
ghost use Rattle.numa_compile.specs.Windows.{IsOpen};
ghost use Rattle.numa_compile.specs.declared.recompiler.window.Window.{Window};

use crate::compiler::survey;
use crate::recompiler::unused::drop_unused;
use crate::recompiler::window::Window;
use numa_machine::NoMemory;
use numa_plan::{Plan, Steps};
use numa_ranges::Run;
use numa_space::Space;

/// Drops the rules of these runs that no run and no task uses any more.
fn drop_all(plan: &mut Plan, runs: &[Run<Option<u32>>])
    ensures rest { plan.new ≡ record plan.old { slots = plan.new.slots } }
    ensures slots { KeepsNamed plan.old plan.new }
{
    for run in runs {
        drop_unused(plan, run.value);
    }
}

/// Puts copies of the window's ranges in the place of its runs, with which the plan follows the
/// space, and drops the rules that nothing uses any more. Writes no rule.
///
/// # Errors
/// `NoMemory`: there is no memory for the runs. Then the plan hasn't changed.
pub(crate) fn put_runs(
    plan: &mut Plan,
    space: &Space,
    window: &Window,
    runs: &[Run<Option<u32>>],
    steps: &mut Steps,
) -> Result<(), NoMemory>
    requires of { IsOpen space.now plan.old window.now }
    requires copies { AreCopies (policy_in plan.old.slots)
        (slice_range space.now.ranges window.now.from window.now.to_now) runs.now }
    ensures follows { OnOk result (Follows space.now plan.new) }
    ensures tasks { plan.new.tasks ≡ plan.old.tasks }
    ensures few { WritesBoth (window.now.to_now - window.now.from) 0 steps.old steps.new }
    ensures unchanged { OnErr result (plan.new ≡ plan.old) }
{
    survey(space);
    let gone = plan.replace_runs(window.from, window.to, runs, window.near, steps)?;
    plan.set_version(space.version());
    drop_all(plan, &gone);
    Ok(())
}
