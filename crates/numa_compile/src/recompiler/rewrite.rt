//! Rewriting the runs of a window.
ghost use Rattle.std.specs.Prelude.{◌≡◌, ◌-◌, OnOk, OnErr};
ghost use Rattle.numa_compile.specs.Follows.{Follows};
ghost use Rattle.numa_compile.specs.Recompiling.{WritesBoth};
ghost use Rattle.numa_compile.specs.Windows.{IsOpen, NumbersInside};
ghost use Rattle.numa_compile.specs.declared.recompiler.window.Window.{Window};

use crate::compiler::survey;
use crate::recompiler::gather::gather_runs;
use crate::recompiler::put::put_runs;
use crate::recompiler::window::Window;
use numa_machine::NoMemory;
use numa_plan::{Plan, Steps};
use numa_space::Space;
use std::alloc::Global;

/// Rewrites the runs of the window, with the given rule number for the ranges that begin in its
/// span. Writes no rule.
///
/// # Errors
/// `NoMemory`: there is no memory for the runs. Then the plan hasn't changed.
pub(crate) fn rewrite_window(
    alloc: Global,
    plan: &mut Plan,
    space: &Space,
    window: &Window,
    given: Option<u32>,
    steps: &mut Steps,
) -> Result<(), NoMemory>
    requires of { IsOpen space.now plan.old window.now }
    requires inside { NumbersInside space.now plan.old window.now given }
    ensures follows { OnOk result (Follows space.now plan.new) }
    ensures tasks { plan.new.tasks ≡ plan.old.tasks }
    ensures few { WritesBoth (window.now.to_now - window.now.from) 0 steps.old steps.new }
    ensures unchanged { OnErr result (plan.new ≡ plan.old) }
{
    survey(space);
    let mut runs = Vec::with_capacity(alloc, window.to_now.saturating_sub(window.from))?;
    gather_runs(plan, space, window, given, &mut runs)?;
    put_runs(plan, space, window, &runs, steps)
}
