//! Recompiling for a node's weight.
ghost use Rattle.std.specs.Prelude.{◌≡◌, ◌≢◌, ℕ, ◌≤◌, ◌^◌, true, Some, IfOk, OnOk, OnErr, length};
ghost use Rattle.std.specs.Prelude.{count_by, MatchOption};
ghost use Rattle.std.specs.Option.{ForSome};
ghost use Rattle.numa_mode.specs.Policy.{is_live};
ghost use Rattle.numa_requests.specs.declared.command.Command.{Command};
ghost use Rattle.numa_space.specs.Standing.{IsInForce};
ghost use Rattle.numa_plan.specs.Rows.{HasRows, Kept};
ghost use Rattle.numa_plan.specs.Slots.{kept_in, policy_in};
ghost use Rattle.numa_compile.specs.Follows.{Follows, IsBehind};
ghost use Rattle.numa_compile.specs.Recompiling.{is_weighted, holds_weighted, one_if_some};
ghost use Rattle.numa_compile.specs.Recompiling.{IsRenewed, AreRenewed, KeepsUnweighted};
ghost use Rattle.numa_compile.specs.Recompiling.{WritesRules};
ghost use Rattle.numa_compile.specs.Rules.{IsReady};

use crate::compiler::survey;
use crate::rules::rule_of;
use numa_machine::NoMemory;
use numa_mode::{Mode, Record};
use numa_plan::{Plan, SharedRule, Steps};
use numa_space::Space;
use std::alloc::Global;

/// Whether the lists of a policy depend on the nodes' weights.
fn depends_on_weights(policy: &Record) -> bool
    ensures { result ≡ is_weighted policy.now }
{
    policy.spec().mode() == Mode::WeightedInterleave
}

/// The new rule of the policy in a slot, if it is weighted interleave; others stay.
///
/// # Errors
/// `NoMemory`: there is no memory for the rule.
fn renewed(
    alloc: Global,
    space: &Space,
    policy: Option<Record>,
) -> Result<Option<SharedRule>, NoMemory>
    requires ready { IsReady space.now }
    requires standing { ForSome policy (λ r. (is_live r ≡ true)
        × IsInForce space.now.machine space.now.allowed r) }
    ensures { IfOk result (λ rule. IsRenewed space.now policy rule) }
{
    let Some(policy) = policy else {
        return Ok(None);
    };
    if !depends_on_weights(&policy) {
        return Ok(None);
    }
    let rule = rule_of(alloc, space, &policy)?;
    let shared = SharedRule::new(alloc, policy, rule)?;
    Ok(Some(shared))
}

/// The new rules, a place for each slot.
///
/// # Errors
/// `NoMemory`: there is no memory for the rules, or there are more than 2^32 slots.
fn all_renewed(
    alloc: Global,
    space: &Space,
    plan: &Plan,
) -> Result<Vec<Option<SharedRule>>, NoMemory>
    requires ready { IsReady space.now }
    requires standing { (number : ℕ) → ForSome (policy_in plan.now.slots number) (λ r.
        (is_live r ≡ true) × IsInForce space.now.machine space.now.allowed r) }
    ensures all { IfOk result (λ rules. length rules.items ≡ length plan.now.slots) }
    ensures few { IfOk result (λ rules. length rules.items ≤ 2 ^ 32) }
    ensures renewed { IfOk result (λ rules. AreRenewed space.now plan.now.slots rules.items) }
{
    let mut rules = Vec::new(alloc);
    for place in 0..plan.slot_count() {
        let Ok(number) = u32::try_from(place) else {
            return Err(NoMemory);
        };
        let rule = renewed(alloc, space, plan.policy_of(number))?;
        rules.push(rule)?;
    }
    Ok(rules)
}

/// Writes the new rule of a slot, if there is one.
fn write_renewed(plan: &mut Plan, number: u32, rule: Option<SharedRule>, steps: &mut Steps)
    requires there { ForSome rule (λ kept. policy_in plan.old.slots number ≡ Some kept.policy) }
    requires rows { ForSome rule (λ kept. HasRows plan.old.nodes kept.rule) }
    ensures rest { plan.new ≡ record plan.old { slots = plan.new.slots } }
    ensures here { MatchOption rule (kept_in plan.new.slots number ≡ kept_in plan.old.slots number)
        (λ kept. kept_in plan.new.slots number ≡ Some kept) }
    ensures others { (other : ℕ) → other ≢ number
        → kept_in plan.new.slots other ≡ kept_in plan.old.slots other }
    ensures few { WritesRules (one_if_some rule) steps.old steps.new }
{
    if let Some(shared) = rule {
        plan.write_rule(number, shared, steps);
    }
}

/// Rewrites the rules of weighted interleave. All new rules are made before the first is written.
/// No run, task, or rule of another mode changes.
///
/// # Errors
/// `NoMemory`: there is no memory for the new rules. Then the plan hasn't changed.
pub(crate) fn recompile_weight(
    alloc: Global,
    plan: &mut Plan,
    space: &Space,
    steps: &mut Steps,
) -> Result<(), NoMemory>
    requires behind { (node : ℕ) × ((weight : ℕ)
        × IsBehind space.now (Command.SetWeight node weight) plan.old) }
    ensures follows { OnOk result (Follows space.now plan.new) }
    ensures unchanged { OnErr result (plan.new ≡ plan.old) }
    ensures few { WritesRules (count_by holds_weighted plan.old.slots) steps.old steps.new }
    ensures others { KeepsUnweighted plan.old plan.new }
{
    survey(space);
    let mut rules = all_renewed(alloc, space, plan)?;
    while let Some(rule) = rules.pop() {
        let number = rules.len() as u32;
        write_renewed(plan, number, rule, steps);
    }
    plan.set_version(space.version());
    Ok(())
}
