//! The rule of a policy: an existing one, or a new one.
ghost use Rattle.std.specs.Prelude.{◌≡◌, IfOk, OnOk, OnErr};
ghost use Rattle.std.specs.Option.{ForSome};
ghost use Rattle.numa_space.specs.Policies.{where_live};
ghost use Rattle.numa_space.specs.Standing.{IsInForce};
ghost use Rattle.numa_plan.specs.Slots.{policy_in};
ghost use Rattle.numa_compile.specs.Copies.{IsNumber};
ghost use Rattle.numa_compile.specs.Recompiling.{WasAdded, WritesRules};
ghost use Rattle.numa_compile.specs.Rules.{IsReady};

use crate::numbers::{add_rule_of, has_rule};
use numa_machine::NoMemory;
use numa_mode::Record;
use numa_plan::{Plan, Steps};
use numa_space::Space;
use std::alloc::Global;

/// The number of the rule of a live policy, and the number of the rule that was added for it, if
/// the plan had none. Both are `None` for no policy, or one that isn't live.
///
/// # Errors
/// `NoMemory`: there is no memory for the rule. Then the plan hasn't changed.
pub(crate) fn number_or_add(
    alloc: Global,
    space: &Space,
    policy: Option<Record>,
    plan: &mut Plan,
    steps: &mut Steps,
) -> Result<(Option<u32>, Option<u32>), NoMemory>
    requires ready { IsReady space.now }
    requires in_force { ForSome policy (IsInForce space.now.machine space.now.allowed) }
    requires nodes { plan.old.nodes ≡ space.now.machine.nodes }
    ensures number { IfOk result (λ found.
        IsNumber (policy_in plan.new.slots) (where_live policy) found.0) }
    ensures added { IfOk result (λ found. WasAdded space.now plan.old found.1 plan.new) }
    ensures few { WritesRules 1 steps.old steps.new }
    ensures err { OnErr result (plan.new ≡ plan.old) }
{
    let Some(policy) = policy else {
        return Ok((None, None));
    };
    if !has_rule(&policy) {
        return Ok((None, None));
    }
    if let Some(number) = plan.number_for_policy(&policy) {
        return Ok((Some(number), None));
    }
    let number = add_rule_of(alloc, space, policy, plan, steps)?;
    Ok((Some(number), Some(number)))
}
