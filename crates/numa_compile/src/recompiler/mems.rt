//! Recompiling for a change of the allowed nodes.
ghost use Rattle.std.specs.Prelude.{◌≡◌, OnOk, OnErr};
ghost use Rattle.numa_compile.specs.Follows.{Follows};
ghost use Rattle.numa_compile.specs.Recompiling.{Rises};

use crate::compiler::compile_counted;
use numa_machine::NoMemory;
use numa_plan::{Plan, Steps};
use numa_space::Space;
use std::alloc::Global;
use std::mem::replace;

/// Replaces a plan.
fn put_plan(plan: &mut Plan, fresh: Plan)
    ensures { plan.new ≡ fresh }
{
    drop(replace(plan, fresh));
}

/// Compiles the plan again, since every policy's nodes, every row, and the ranges themselves may
/// have changed. Takes the time of [`crate::compile`].
///
/// # Errors
/// `NoMemory`: there is no memory for a second plan. Then the plan hasn't changed.
pub(crate) fn recompile_mems(
    alloc: Global,
    plan: &mut Plan,
    space: &Space,
    steps: &mut Steps,
) -> Result<(), NoMemory>
    ensures follows { OnOk result (Follows space.now plan.new) }
    ensures rises { Rises steps.old steps.new }
    ensures unchanged { OnErr result (plan.new ≡ plan.old) }
{
    let fresh = compile_counted(alloc, space, steps)?;
    put_plan(plan, fresh);
    Ok(())
}
