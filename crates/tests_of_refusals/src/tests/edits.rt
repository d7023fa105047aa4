//! A plan's own calls: rules, runs and tasks put into a plan, also into one that shares what it has
//! with a copy. Calls that want no memory are tested with all growths refused.
ghost use Rattle.std.specs.Prelude.{◌≡◌, ◌<◌, ℕ, [], IfOk};
ghost use Rattle.numa_plan.specs.Rows.{HasRows};

use crate::tests::same::{mark, same};
use crate::tests::shown::{mixed, with_policy};
use numa_examples::{set_of, spec_of};
use numa_machine::NoMemory;
use numa_mode::Record;
use numa_plan::{Plan, Rule, SharedRule, Steps};
use numa_ranges::Run;
use std::alloc::Global;
use std::process::Abort;

/// The nodes of each rule's policy.
static SETS: [&[u8]; 12] = [
    &[0],
    &[1],
    &[2],
    &[3],
    &[0, 1],
    &[0, 2],
    &[0, 3],
    &[1, 2],
    &[1, 3],
    &[2, 3],
    &[0, 1, 2],
    &[0, 1, 3],
];

/// How often each call is made.
const PLACES: u32 = 12;

/// The sum with a number, or with none, which no number equals.
fn with_number(sum: u64, number: Option<u32>) -> u64 {
    match number {
        Some(number) => mixed(sum, u64::from(number)),
        None => mixed(sum, 1 << 32),
    }
}

/// The runs, each with its pages, its index and the number of its rule.
fn runs_of(plan: &Plan) -> u64 {
    let mut sum = 0u64;
    for place in 0..plan.run_count() {
        if let Some(run) = plan.run_at(place) {
            sum = mixed(mixed(mixed(sum, run.first), run.pages), run.index);
            sum = with_number(sum, run.value);
        }
    }
    sum
}

/// The slots, each with its policy and its uses, and the numbers of the tasks' rules.
fn slots_of(plan: &Plan) -> u64 {
    let mut sum = 0u64;
    for number in 0..64u32 {
        sum = with_policy(sum, &plan.policy_of(number));
        sum = mixed(sum, u64::from(plan.uses(number)));
        sum = with_number(sum, plan.task_number(number));
    }
    sum
}

/// The first node of each page's list, for a task.
fn nodes_of(plan: &Plan, task: u32) -> u64 {
    let mut sum = 0u64;
    for page in 0..0x200u64 {
        if let Ok(nodes) = plan.choice(task, page, 0, &mut Steps::new()) {
            sum = mixed(sum, u64::from(nodes[0]));
        }
    }
    sum
}

/// What a plan shows: its version, how many runs and slots it has, and a sum of what they hold and
/// of what it answers.
fn all_shown(plan: &Plan) -> (u64, usize, usize, u64) {
    let sum = mixed(runs_of(plan), slots_of(plan));
    let sum = mixed(sum, nodes_of(plan, 1));
    (plan.version(), plan.run_count(), plan.slot_count(), sum)
}

/// The policy of a place: binding to its nodes.
fn policy_for(place: u32) -> Option<Record> {
    let nodes = SETS.get(place as usize)?;
    let spec = spec_of(2, nodes)?;
    let allowed = set_of(&[0, 1, 2, 3]);
    if spec.is_default() || allowed.is_empty() {
        return None;
    }
    Record::set(spec, &allowed).ok()
}

/// A rule with one row of one node.
fn fixed_on(alloc: Global, node: u8) -> Result<Rule, NoMemory>
    ensures { IfOk result (λ rule. (nodes : ℕ) → HasRows nodes rule) }
{
    let mut row = Vec::new(alloc);
    row.push(node)?;
    Ok(Rule::fixed(row))
}

/// A rule of which one row of one node serves at each turn.
fn turns_on(alloc: Global, node: u8) -> Result<Rule, NoMemory>
    ensures { IfOk result (λ rule. (nodes : ℕ) → HasRows nodes rule) }
{
    let mut row = Vec::new(alloc);
    row.push(node)?;
    let mut cycle = Vec::new(alloc);
    cycle.push(0u8)?;
    Rule::turns(alloc, 1, row, cycle)
}

/// The rule of a place: each second one has turns.
fn rule_for(alloc: Global, place: u32) -> Result<Rule, NoMemory>
    ensures { IfOk result (λ rule. (nodes : ℕ) → HasRows nodes rule) }
{
    let node = (place % 4) as u8;
    if place % 2 == 0 {
        return fixed_on(alloc, node);
    }
    turns_on(alloc, node)
}

/// Adds the rule of a place; whether there was memory, as for each call below.
fn add_rule(alloc: Global, plan: &mut Plan, place: u32) -> bool
    ensures { plan.new.tasks ≡ plan.old.tasks }
{
    let Some(policy) = policy_for(place) else {
        return false;
    };
    let Ok(rule) = rule_for(alloc, place) else {
        return false;
    };
    plan.add_rule(policy, rule, &mut Steps::new()).is_ok()
}

/// Adds a run after the others, with the rule of a place.
fn push_run(plan: &mut Plan, place: u32) -> bool
    requires few { place < 12 }
    requires none { plan.old.tasks ≡ [] }
    ensures { plan.new.tasks ≡ plan.old.tasks }
{
    let Some(_) = plan.policy_of(place) else {
        return false;
    };
    let first = u64::from(place) * 16;
    let mut steps = Steps::new();
    let (from, _) = plan.window(first, first + 8, &mut steps);
    let runs = plan.run_count();
    if from < runs || runs > 1000 {
        return false;
    }
    let run = Run {
        first,
        pages: 8,
        index: 3,
        value: Some(place),
    };
    plan.push_run(run, &mut steps).is_ok()
}

/// A call that builds a plan: a rule for each of the first places, then a run for each.
fn build(alloc: Global, plan: &mut Plan, step: u32) -> bool
    requires few { step < 24 }
    requires none { plan.old.tasks ≡ [] }
    ensures { plan.new.tasks ≡ [] }
{
    if step < PLACES {
        add_rule(alloc, plan, step)
    } else {
        push_run(plan, step - PLACES)
    }
}

/// The call, and once more where a growth was refused, which changed nothing.
fn build_twice(rt: &impl Abort, alloc: Global, plan: &mut Plan, step: u32)
    requires few { step < 24 }
    requires none { plan.old.tasks ≡ [] }
    ensures { plan.new.tasks ≡ [] }
{
    let before = all_shown(plan);
    if build(alloc, plan, step) {
        return;
    }
    same(rt, &all_shown(plan), &before);
    assert!(rt; build(alloc, plan, step));
}

/// All calls that build a plan.
fn build_all(rt: &impl Abort, alloc: Global, plan: &mut Plan)
    requires { plan.old.tasks ≡ [] }
{
    for step in 0..24u32 {
        build_twice(rt, alloc, plan, step);
    }
}

/// A plan of four nodes with nothing in it.
fn empty_plan(rt: &impl Abort, alloc: Global) -> Plan
    ensures { result.tasks ≡ [] }
{
    let Ok(local) = fixed_on(alloc, 0) else {
        panic!(rt; "no memory");
    };
    Plan::new(alloc, 4, local)
}

/// A plan that is built: between the marks where `marked`.
fn built(rt: &impl Abort, alloc: Global, marked: bool) -> Plan {
    let mut plan = empty_plan(rt, alloc);
    mark_if(rt, alloc, marked);
    build_all(rt, alloc, &mut plan);
    mark_if(rt, alloc, marked);
    plan
}

/// A mark where `marked`.
fn mark_if(rt: &impl Abort, alloc: Global, marked: bool) {
    if marked {
        mark(rt, alloc);
    }
}

#[test]
fn building(rt: HostRuntime) {
    let plan = built(&rt, rt.alloc(), true);
    let other = built(&rt, rt.alloc(), false);
    same(&rt, &all_shown(&plan), &all_shown(&other));
    drop(other);
    drop(plan);
}

/// A call that edits a plan.
#[derive(Clone, Copy)]
enum Edit {
    AddRule,
    WriteRule,
    SetTask,
    SpliceRuns,
    ReplaceRuns,
    Reserve,
    NumberForPolicy,
}

/// The calls, in the order in which they are made.
static EDITS: [Edit; 7] = [
    Edit::NumberForPolicy,
    Edit::Reserve,
    Edit::AddRule,
    Edit::WriteRule,
    Edit::SetTask,
    Edit::SpliceRuns,
    Edit::ReplaceRuns,
];

/// Puts a run with the rule of a place where others meet its pages or stand beside them.
fn splice(plan: &mut Plan, place: u32) -> bool
    requires { place < 12 }
{
    let Some(_) = plan.policy_of(place) else {
        return false;
    };
    let first = u64::from(place) * 8 + 4;
    let mut steps = Steps::new();
    let (from, to) = plan.window(first, first + 4, &mut steps);
    // Tells the proof that the runs are apart.
    let _ = plan.run_count();
    let run = Run {
        first,
        pages: 4,
        index: 5,
        value: Some(place),
    };
    plan.splice_runs(from, to, &[run], &mut steps).is_ok()
}

/// Puts a run there that names no rule, looked for beside a guess, and has the others handed back.
fn replace(plan: &mut Plan, place: u32) -> bool
    requires { place < 12 }
{
    let first = u64::from(place) * 8 + 4;
    let (from, to, near) = plan.window_near(first, first + 4, place as usize);
    // Tells the proof that the runs are apart.
    let _ = plan.run_count();
    let run = Run {
        first,
        pages: 4,
        index: 6,
        value: None,
    };
    let mut steps = Steps::new();
    plan.replace_runs(from, to, &[run], near, &mut steps)
        .is_ok()
}

/// Gives a task the rule of a place.
fn set_task(plan: &mut Plan, place: u32) -> bool
    requires { place < 12 }
{
    let Some(_) = plan.policy_of(place) else {
        return false;
    };
    plan.set_task(place + 20, Some(place)).is_ok()
}

/// Writes another rule for the policy of a place.
fn write_rule(alloc: Global, plan: &mut Plan, place: u32) -> bool
    requires { place < 12 }
{
    let Some(policy) = plan.policy_of(place) else {
        return false;
    };
    let Ok(rule) = rule_for(alloc, place + 1) else {
        return false;
    };
    let Ok(shared) = SharedRule::new(alloc, policy, rule) else {
        return false;
    };
    plan.write_rule(place, shared, &mut Steps::new());
    true
}

/// Looks a policy up. For want of memory it may not be found, but nothing is refused.
fn look_up(plan: &mut Plan, place: u32) -> bool {
    if let Some(policy) = policy_for(place) {
        let _ = plan.number_for_policy(&policy);
    }
    true
}

/// A call, for a place; whether there was memory.
fn take(alloc: Global, plan: &mut Plan, edit: Edit, place: u32) -> bool
    requires { place < 12 }
{
    match edit {
        Edit::AddRule => add_rule(alloc, plan, place),
        Edit::WriteRule => write_rule(alloc, plan, place),
        Edit::SetTask => set_task(plan, place),
        Edit::SpliceRuns => splice(plan, place),
        Edit::ReplaceRuns => replace(plan, place),
        Edit::Reserve => plan.reserve(place as usize * 8).is_ok(),
        Edit::NumberForPolicy => look_up(plan, place),
    }
}

/// The same, and once more where a growth was refused, which changed nothing.
fn take_twice(rt: &impl Abort, alloc: Global, plan: &mut Plan, edit: Edit, place: u32)
    requires { place < 12 }
{
    let before = all_shown(plan);
    if take(alloc, plan, edit, place) {
        return;
    }
    same(rt, &(edit as u32, all_shown(plan)), &(edit as u32, before));
    assert!(rt; take(alloc, plan, edit, place));
}

/// A call for each place.
fn take_all(rt: &impl Abort, alloc: Global, plan: &mut Plan, edit: Edit) {
    for place in 0..PLACES {
        take_twice(rt, alloc, plan, edit, place);
    }
}

/// All calls: between the marks where `marked`. A copy stays as it was.
fn edit_all(rt: &impl Abort, alloc: Global, plan: &mut Plan, copy: &Plan, marked: bool) {
    let before = all_shown(copy);
    mark_if(rt, alloc, marked);
    for edit in EDITS {
        take_all(rt, alloc, plan, edit);
    }
    mark_if(rt, alloc, marked);
    same(rt, &all_shown(copy), &before);
}

/// What a plan shows that shared all it has with a copy before it was edited.
fn edited(rt: &impl Abort, alloc: Global, marked: bool) -> (u64, usize, usize, u64) {
    let mut plan = built(rt, alloc, false);
    let copy = plan.copy(alloc).expect(rt, "a copy");
    edit_all(rt, alloc, &mut plan, &copy, marked);
    let found = all_shown(&plan);
    drop(copy);
    drop(plan);
    found
}

#[test]
fn editing(rt: HostRuntime) {
    let found = edited(&rt, rt.alloc(), true);
    same(&rt, &found, &edited(&rt, rt.alloc(), false));
}

/// Takes a rule out that no run and no task uses.
fn drop_unused(plan: &mut Plan, number: u32) {
    let Some(_) = plan.policy_of(number) else {
        return;
    };
    if plan.uses(number) == 0 {
        plan.drop_rule(number);
    }
}

/// Takes away the rule of a place's task, and a rule that was added after the others.
fn take_out(rt: &impl Abort, plan: &mut Plan, place: u32)
    requires { place < 12 }
{
    assert!(rt; plan.set_task(place + 20, None).is_ok());
    drop_unused(plan, place + PLACES);
}

/// Takes out what each place's task and each place's second rule put in.
fn take_each_out(rt: &impl Abort, plan: &mut Plan) {
    for place in 0..PLACES {
        take_out(rt, plan, place);
    }
}

/// Makes the calls that want no memory between the marks.
fn take_all_out(rt: &impl Abort, alloc: Global, plan: &mut Plan) {
    let Some(policy) = plan.policy_of(0) else {
        panic!(rt; "no policy");
    };
    let Ok(rule) = rule_for(alloc, 3) else {
        panic!(rt; "no memory");
    };
    let Ok(shared) = SharedRule::new(alloc, policy, rule) else {
        panic!(rt; "no memory");
    };
    mark(rt, alloc);
    plan.write_rule(0, shared, &mut Steps::new());
    take_each_out(rt, plan);
    plan.set_version(7);
    mark(rt, alloc);
}

#[test]
fn without_memory(rt: HostRuntime) {
    let mut plan = built(&rt, rt.alloc(), false);
    take_all(&rt, rt.alloc(), &mut plan, Edit::AddRule);
    take_all(&rt, rt.alloc(), &mut plan, Edit::SetTask);
    take_all_out(&rt, rt.alloc(), &mut plan);
    let found = (plan.version(), plan.rule_count(), plan.slot_count());
    drop(plan);
    same(&rt, &found, &(7, 12, 12));
}
