//! Policies and their rules in numbered slots, which count the runs and tasks that use them. Free
//! slots are reused.
ghost use Rattle.std.specs.Prelude.{◌≡◌, ℕ, ◌+◌, ◌-◌, ◌<◌, ◌≤◌, ◌^◌, length, All, count_by};
ghost use Rattle.std.specs.Prelude.{Some, IsSome, is_some, IfOk, OnOk, OnErr, slice_set, take, not};
ghost use Rattle.std.specs.Option.{ForSome};
ghost use Rattle.numa_plan.specs.Slots.{rule_in, rule_of_slot, uses_in, AreTaken, IsLowestFree};
ghost use Rattle.numa_plan.specs.Slots.{policy_in, put_slot, slot_at, with_use, with_use_less};
ghost use Rattle.numa_plan.specs.Editing.{with_uses, with_uses_less, up_to_last_taken, with_other};
ghost use Rattle.numa_plan.specs.Meaning.{is_number};
ghost use Rattle.numa_plan.specs.declared.slots.Slot.TheVariants.{Free, Taken};

use crate::rule::Rule;
use crate::shared_rule::SharedRule;
use numa_machine::NoMemory;
use numa_mode::Record;
use numa_ranges::Run;
use std::alloc::Global;

/// A place for a rule.
#[derive(Drop)]
pub(crate) enum Slot {
    /// There is no rule.
    Free,
    /// A policy and its rule, and the number of runs and tasks that use it.
    Taken { uses: u32, kept: SharedRule },
}

/// A copy of the slot, which shares the rule.
fn slot_copy(slot: &Slot) -> Result<Slot, NoMemory>
    ensures { IfOk result (λ copy. copy ≡ slot.now) }
{
    match slot {
        Slot::Free => Ok(Slot::Free),
        Slot::Taken { uses, kept } => {
            let kept = kept.share()?;
            Ok(Slot::Taken { uses: *uses, kept })
        }
    }
}

/// Copies of the slots, which share the rules.
pub(crate) fn copies(alloc: Global, slots: &[Slot]) -> Result<Vec<Slot>, NoMemory>
    ensures { IfOk result (λ others. others.items ≡ slots.now) }
{
    let mut others = Vec::with_capacity(alloc, slots.len())?;
    for slot in slots {
        others.push_reserved(slot_copy(slot)?);
    }
    Ok(others)
}

/// The number of the lowest free slot, or of the one after the last; below `from` none is free.
fn lowest_free(slots: &Vec<Slot>, from: usize) -> usize
    requires within { from ≤ length slots.now.items }
    requires taken { AreTaken slots.now.items from }
    ensures { IsLowestFree slots.now.items result }
{
    for number in from..slots.len() {
        if let Slot::Free = &slots[number] {
            return number;
        }
    }
    slots.len()
}

/// Writes a rule that nothing uses yet.
fn put_rule(slots: &mut Vec<Slot>, number: usize, kept: SharedRule) -> Result<(), NoMemory>
    requires { number ≤ length slots.old.items }
    ensures ok { OnOk result (slots.new.items ≡ put_slot slots.old.items number (Taken 0 kept)) }
    ensures err { OnErr result (slots.new.items ≡ slots.old.items) }
{
    let slot = Slot::Taken { uses: 0, kept };
    if number < slots.len() {
        slots[number] = slot;
    } else {
        slots.push(slot)?;
    }
    Ok(())
}

/// Puts a policy's rule, which nothing uses yet, into the lowest free slot or, if none is free, a
/// new one, and returns the slot's number. Below `from` none is free.
///
/// # Errors
/// `NoMemory`: out of memory, or there are already 2^32 slots. Then nothing has changed.
pub(crate) fn put_lowest(
    alloc: Global,
    slots: &mut Vec<Slot>,
    from: usize,
    policy: Record,
    rule: Rule,
) -> Result<u32, NoMemory>
    requires within { from ≤ length slots.old.items }
    requires taken { AreTaken slots.old.items from }
    ensures lowest { IfOk result (λ number. IsLowestFree slots.old.items number) }
    ensures put { IfOk result (λ number. slots.new.items ≡ put_slot slots.old.items number
        (Taken 0 (record { policy = policy; rule = rule }))) }
    ensures err { OnErr result (slots.new.items ≡ slots.old.items) }
{
    let place = lowest_free(slots, from);
    let Ok(number) = u32::try_from(place) else {
        return Err(NoMemory);
    };
    let Ok(shared) = SharedRule::new(alloc, policy, rule) else {
        return Err(NoMemory);
    };
    let Ok(()) = put_rule(slots, place, shared) else {
        return Err(NoMemory);
    };
    Ok(number)
}

/// Adds one use of a rule.
pub(crate) fn use_rule(slots: &mut Vec<Slot>, number: u32)
    requires there { IsSome (rule_in slots.old.items number) }
    requires few { uses_in slots.old.items number < 2 ^ 32 - 1 }
    ensures { slots.new.items ≡ with_use slots.old.items (Some number) }
{
    let slot = &mut slots[number as usize];
    if let Slot::Taken { uses, .. } = slot {
        *uses += 1;
    }
}

/// Removes one use of a rule.
fn leave_rule(slots: &mut Vec<Slot>, number: u32)
    requires { 0 < uses_in slots.old.items number }
    ensures { slots.new.items ≡ with_use_less slots.old.items (Some number) }
{
    let slot = &mut slots[number as usize];
    if let Slot::Taken { uses, .. } = slot {
        *uses -= 1;
    }
}

/// Adds one use of a rule, if one is named.
pub(crate) fn use_named(slots: &mut Vec<Slot>, named: Option<u32>)
    requires there { ForSome named (λ number. IsSome (rule_in slots.old.items number)) }
    requires few { ForSome named (λ number. uses_in slots.old.items number < 2 ^ 32 - 1) }
    ensures { slots.new.items ≡ with_use slots.old.items named }
{
    if let Some(number) = named {
        use_rule(slots, number);
    }
}

/// Removes one use of a rule, if one is named.
pub(crate) fn leave_named(slots: &mut Vec<Slot>, named: Option<u32>)
    requires { ForSome named (λ number. 0 < uses_in slots.old.items number) }
    ensures { slots.new.items ≡ with_use_less slots.old.items named }
{
    if let Some(number) = named {
        leave_rule(slots, number);
    }
}

/// Adds one use of a rule for each run that names it.
pub(crate) fn use_all(slots: &mut Vec<Slot>, runs: &[Run<Option<u32>>])
    requires there { All (λ run. ForSome run.value (λ number.
        IsSome (rule_in slots.old.items number))) runs.now }
    requires few { (number : ℕ) → uses_in slots.old.items number + length runs.now < 2 ^ 32 }
    ensures { slots.new.items ≡ with_uses slots.old.items runs.now }
{
    for run in runs {
        use_named(slots, run.value);
    }
}

/// Removes one use of a rule for each run that names it.
pub(crate) fn leave_all(slots: &mut Vec<Slot>, runs: &[Run<Option<u32>>])
    requires { (number : ℕ) →
        count_by (λ run. is_number number run.value) runs.now ≤ uses_in slots.old.items number }
    ensures { slots.new.items ≡ with_uses_less slots.old.items runs.now }
{
    for run in runs {
        leave_named(slots, run.value);
    }
}

/// Replaces a rule, and keeps its uses.
pub(crate) fn write_other(slots: &mut Vec<Slot>, number: u32, other: SharedRule)
    requires { IsSome (rule_in slots.old.items number) }
    ensures { slots.new.items
        ≡ slice_set slots.old.items number (with_other (slot_at slots.old.items number) other) }
{
    let slot = &mut slots[number as usize];
    if let Slot::Taken { kept, .. } = slot {
        *kept = other;
    }
}

/// Whether a slot is free.
fn is_free(slot: &Slot) -> bool
    ensures { result ≡ not (is_some (rule_of_slot slot.now)) }
{
    match slot {
        Slot::Free => true,
        Slot::Taken { .. } => false,
    }
}

/// The policy whose rule is in a slot.
pub(crate) fn policy_at(slots: &[Slot], number: u32) -> Option<Record>
    ensures { result ≡ policy_in slots.now number }
{
    if number as usize >= slots.len() {
        return None;
    }
    match &slots[number as usize] {
        Slot::Taken { kept, .. } => Some(kept.policy()),
        Slot::Free => None,
    }
}

/// The number of uses of a slot.
pub(crate) fn uses_at(slots: &[Slot], number: u32) -> u32
    ensures { result ≡ uses_in slots.now number }
{
    if number as usize >= slots.len() {
        return 0;
    }
    match &slots[number as usize] {
        Slot::Taken { uses, .. } => *uses,
        Slot::Free => 0,
    }
}

/// The number of taken slots.
pub(crate) fn taken_count(slots: &[Slot]) -> usize
    ensures { result ≡ count_by (λ slot. is_some (rule_of_slot slot)) slots.now }
{
    let mut count = 0usize;
    for slot in slots {
        if !is_free(slot) {
            count += 1;
        }
    }
    count
}

/// The number of slots up to the last taken one.
fn taken_length(slots: &[Slot]) -> usize
    ensures within { result ≤ length slots.now }
    ensures kept { take result slots.now ≡ up_to_last_taken slots.now }
{
    let mut kept = slots.len();
    while kept > 0 {
        if !is_free(&slots[kept - 1]) {
            return kept;
        }
        kept -= 1;
    }
    0
}

/// Frees a slot, and removes the free slots after the last taken one.
pub(crate) fn free_slot(slots: &mut Vec<Slot>, number: usize)
    requires { number < length slots.old.items }
    ensures { slots.new.items ≡ up_to_last_taken (slice_set slots.old.items number Free) }
{
    slots[number] = Slot::Free;
    let kept = taken_length(slots.as_slice());
    slots.truncate(kept);
}
