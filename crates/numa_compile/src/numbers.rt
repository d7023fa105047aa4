//! The numbers of rules.
ghost use Rattle.std.specs.Prelude.{◌≡◌, ◌^◌, ◌<◌, Some, None, IfOk, OnOk, length, slice_get};
ghost use Rattle.std.specs.Prelude.{true, false, slice_index_or, slice_set, OnErr, [], ◌∷◌, ◌++◌};
ghost use Rattle.std.specs.Option.{ForSome};
ghost use Rattle.numa_mode.specs.Policy.{is_live};
ghost use Rattle.numa_space.specs.Policies.{where_live};
ghost use Rattle.numa_space.specs.Standing.{IsInForce};
ghost use Rattle.numa_plan.specs.Slots.{policy_in};
ghost use Rattle.numa_compile.specs.Copies.{AreKnown, Grows, IsNumber, Serves};
ghost use Rattle.numa_compile.specs.Recompiling.{IsAdded, Rises, WritesRules};
ghost use Rattle.numa_compile.specs.Rules.{IsReady};

use crate::rules::rule_of;
use indexmap::IndexSet;
use numa_machine::NoMemory;
use numa_mode::Record;
use numa_plan::{Plan, Steps};
use numa_space::{RangeRecord, Space};
use std::alloc::Global;

/// Adds the rule of a live policy to a plan, and returns its number.
///
/// # Errors
/// `NoMemory`: there is no memory for the rule. Then the plan hasn't changed.
pub(crate) fn add_rule_of(
    alloc: Global,
    space: &Space,
    policy: Record,
    plan: &mut Plan,
    steps: &mut Steps,
) -> Result<u32, NoMemory>
    requires nodes { plan.old.nodes ≡ space.now.machine.nodes }
    requires ready { IsReady space.now }
    requires in_force { IsInForce space.now.machine space.now.allowed policy }
    requires live { is_live policy ≡ true }
    ensures here { IfOk result (λ number. policy_in plan.new.slots number ≡ Some policy) }
    ensures added { IfOk result (λ number. (added : IsAdded space.now plan.old number plan.new)
        × (added.kept.policy ≡ policy)) }
    ensures few { WritesRules 1 steps.old steps.new }
    ensures unchanged { OnErr result (plan.new ≡ plan.old) }
{
    let rule = rule_of(alloc, space, &policy)?;
    let number = plan.add_rule(policy, rule, steps)?;
    Ok(number)
}

/// The place of a policy among the records, and whether it is new there.
fn place_of(records: &mut IndexSet<Record>, policy: Record) -> Result<(u32, bool), NoMemory>
    requires { length records.old.keys < 2 ^ 32 }
    ensures stored { IfOk result (λ found. slice_get records.new.keys found.0 ≡ Some policy) }
    ensures added { IfOk result (λ found. found.1 ≡ true
        → records.new.keys ≡ records.old.keys ++ policy ∷ []) }
    ensures known { IfOk result (λ found. found.1 ≡ false
        → records.new.keys ≡ records.old.keys) }
{
    let (place, is_new) = records.insert_full(policy)?;
    let Ok(number) = u32::try_from(place) else {
        unreachable!()
    };
    Ok((number, is_new))
}

/// The number of the rule of a live policy: its place among the records. The rule is written if the
/// record is new.
fn number_of(
    alloc: Global,
    space: &Space,
    policy: Record,
    plan: &mut Plan,
    records: &mut IndexSet<Record>,
    steps: &mut Steps,
) -> Result<u32, NoMemory>
    requires ready { IsReady space.now }
    requires in_force { IsInForce space.now.machine space.now.allowed policy }
    requires live { is_live policy ≡ true }
    requires nodes { plan.old.nodes ≡ space.now.machine.nodes }
    requires serves { Serves space.now plan.old records.old.keys }
    requires room { length records.old.keys < 2 ^ 32 }
    ensures number { IfOk result (λ number. slice_get records.new.keys number ≡ Some policy) }
    ensures serves { OnOk result (Serves space.now plan.new records.new.keys) }
    ensures grows { OnOk result (Grows records.old.keys (Some policy) records.new.keys) }
    ensures rest { OnOk result (plan.new ≡ record plan.old { slots = plan.new.slots }) }
    ensures rises { Rises steps.old steps.new }
{
    let (number, is_new) = place_of(records, policy)?;
    if is_new {
        add_rule_of(alloc, space, policy, plan, steps)?;
    }
    Ok(number)
}

/// Whether a policy has a rule: it is live.
pub(crate) fn has_rule(policy: &Record) -> bool
    ensures { result ≡ is_live policy.now }
{
    policy.is_live()
}

/// The number of a policy's rule; `None` for no policy, or one that isn't live.
pub(crate) fn number_for(
    alloc: Global,
    space: &Space,
    policy: Option<Record>,
    plan: &mut Plan,
    records: &mut IndexSet<Record>,
    steps: &mut Steps,
) -> Result<Option<u32>, NoMemory>
    requires ready { IsReady space.now }
    requires in_force { ForSome policy (IsInForce space.now.machine space.now.allowed) }
    requires nodes { plan.old.nodes ≡ space.now.machine.nodes }
    requires serves { Serves space.now plan.old records.old.keys }
    requires room { length records.old.keys < 2 ^ 32 }
    ensures number { IfOk result (λ number.
        IsNumber (slice_get records.new.keys) (where_live policy) number) }
    ensures serves { OnOk result (Serves space.now plan.new records.new.keys) }
    ensures grows { OnOk result (Grows records.old.keys policy records.new.keys) }
    ensures rest { OnOk result (plan.new ≡ record plan.old { slots = plan.new.slots }) }
    ensures rises { Rises steps.old steps.new }
{
    let Some(policy) = policy else {
        return Ok(None);
    };
    if !has_rule(&policy) {
        return Ok(None);
    }
    let number = number_of(alloc, space, policy, plan, records, steps)?;
    Ok(Some(number))
}

/// Notes the number that was found for a value.
fn note(known: &mut Vec<Option<Option<u32>>>, value: u32, number: Option<u32>)
    requires { value < length known.old.items }
    ensures { known.new.items ≡ slice_set known.old.items value (Some number) }
{
    known[value as usize] = Some(number);
}

/// The number of the rule of a policy by its number among the space's records; `None` for no
/// policy, or one that isn't live. A result is remembered by that number.
pub(crate) fn number_for_range(
    alloc: Global,
    space: &Space,
    values: &[RangeRecord],
    value: u32,
    plan: &mut Plan,
    records: &mut IndexSet<Record>,
    known: &mut Vec<Option<Option<u32>>>,
    steps: &mut Steps,
) -> Result<Option<u32>, NoMemory>
    requires ready { IsReady space.now }
    requires within { value < length values.now }
    requires size { length known.old.items ≡ length values.now }
    requires in_force { ForSome (slice_index_or values.now value None)
        (IsInForce space.now.machine space.now.allowed) }
    requires nodes { plan.old.nodes ≡ space.now.machine.nodes }
    requires serves { Serves space.now plan.old records.old.keys }
    requires room { length records.old.keys < 2 ^ 32 }
    requires known { AreKnown (slice_get records.old.keys) values.now known.old.items }
    ensures number { IfOk result (λ number. IsNumber (slice_get records.new.keys)
        (where_live (slice_index_or values.now value None)) number) }
    ensures serves { OnOk result (Serves space.now plan.new records.new.keys) }
    ensures grows { OnOk result (Grows records.old.keys (slice_index_or values.now value None)
        records.new.keys) }
    ensures rest { OnOk result (plan.new ≡ record plan.old { slots = plan.new.slots }) }
    ensures rises { Rises steps.old steps.new }
    ensures size { length known.new.items ≡ length values.now }
    ensures known { OnOk result
        (AreKnown (slice_get records.new.keys) values.now known.new.items) }
{
    if let Some(number) = known[value as usize] {
        return Ok(number);
    }
    let policy = values[value as usize].policy();
    let number = number_for(alloc, space, policy, plan, records, steps)?;
    note(known, value, number);
    Ok(number)
}
