//! Compiling spaces to plans.
ghost use Rattle.std.specs.Prelude.{◌≡◌, ℕ, ◌+◌, ◌-◌, ◌^◌, ◌<◌, ◌≤◌, IfOk, OnOk, List, [], length};
ghost use Rattle.std.specs.Prelude.{slice_get, All, IsSome, Some, None, ◌∷◌, ◌++◌};
ghost use Rattle.std.specs.Option.{ForSome};
ghost use Rattle.numa_ranges.specs.Runs.{AreApart, AreMaximal};
ghost use Rattle.numa_plan.specs.Building.{empty_plan};
ghost use Rattle.numa_plan.specs.Meaning.{planned_list};
ghost use Rattle.numa_plan.specs.Slots.{rule_in};
ghost use Rattle.numa_requests.specs.declared.command.Command.{Command};
ghost use Rattle.numa_space.specs.Policies.{allowed_nodes};
ghost use Rattle.numa_space.specs.Standing.{StandsFor, IsNodeList, accepted_of, record_of};
ghost use Rattle.numa_space.specs.Standing.{setting_in};
ghost use Rattle.numa_compile.specs.Copies.{AreCopies, HasTasks, HasRunsMore, IsUnderWay};
ghost use Rattle.numa_compile.specs.Copies.{SharesRules};
ghost use Rattle.numa_compile.specs.Follows.{Follows};
ghost use Rattle.numa_compile.specs.Recompiling.{Rises};
ghost use Rattle.numa_compile.specs.Rules.{IsReady, IsRuleOf};
ghost use Rattle.numa_compile.specs.Standing.{IsPlanOf, PlanStandsFor};

use crate::numbers::{number_for, number_for_range};
use crate::rules::local_rule;
use indexmap::IndexSet;
use numa_machine::{Machine, NoMemory};
use numa_mode::Record;
use numa_plan::{Plan, Steps};
use numa_ranges::Run;
use numa_requests::{Command, Limits};
use numa_space::Space;
use std::alloc::Global;

/// Tells the proof the facts of every space and its machine.
pub(crate) fn survey(space: &Space)
    ensures ready { IsReady space.now }
    ensures rising { AreApart 0 space.now.ranges }
    ensures maximal { AreMaximal space.now.ranges }
    ensures ranges { length space.now.ranges ≤ 65536 }
    ensures tasks { length space.now.tasks ≤ 1024 }
{
    // Tells the proof that the space and its machine are sound, that its ranges are maximal, and
    // the limits of ranges and tasks.
    let machine = space.machine();
    let _ = machine.nodes();
    let _ = machine.memory().weight();
    let _ = space.allowed();
    let _ = space.ranges();
    let _ = space.range_iter();
    let _ = space.task_count();
}

/// The number of runs that wait before they are added to the plan.
const BLOCK: usize = 256;

/// Appends the waiting runs to the plan's. None waits any more.
fn put_waiting(
    plan: &mut Plan,
    waiting: &mut Vec<Run<Option<u32>>>,
    steps: &mut Steps,
) -> Result<(), NoMemory>
    requires apart { AreApart 0 (plan.old.runs ++ waiting.old.items) }
    requires named { All (λ run. ForSome run.value (λ number.
        IsSome (rule_in plan.old.slots number))) (plan.old.runs ++ waiting.old.items) }
    ensures more { OnOk result (HasRunsMore plan.old plan.new) }
    ensures runs { OnOk result (plan.new.runs ≡ plan.old.runs ++ waiting.old.items) }
    ensures none { OnOk result (waiting.new.items ≡ []) }
    ensures rises { Rises steps.old steps.new }
{
    let end = plan.run_count();
    plan.splice_runs(end, end, waiting, steps)?;
    waiting.clear();
    Ok(())
}

/// Adds a run to those that wait, and appends them to the plan once they are enough.
fn add_run(
    plan: &mut Plan,
    waiting: &mut Vec<Run<Option<u32>>>,
    run: Run<Option<u32>>,
    steps: &mut Steps,
) -> Result<(), NoMemory>
    requires apart { AreApart 0 (plan.old.runs ++ (waiting.old.items ++ run ∷ [])) }
    requires named { All (λ run. ForSome run.value (λ number.
        IsSome (rule_in plan.old.slots number)))
        (plan.old.runs ++ (waiting.old.items ++ run ∷ [])) }
    ensures more { OnOk result (HasRunsMore plan.old plan.new) }
    ensures runs { OnOk result (plan.new.runs ++ waiting.new.items
        ≡ plan.old.runs ++ (waiting.old.items ++ run ∷ [])) }
    ensures rises { Rises steps.old steps.new }
{
    waiting.push(run)?;
    if waiting.len() < BLOCK {
        return Ok(());
    }
    put_waiting(plan, waiting, steps)
}

/// Only drops: an exit that calls this has no drop of its own.
fn let_go(
    records: IndexSet<Record>,
    known: Vec<Option<Option<u32>>>,
    waiting: Vec<Run<Option<u32>>>,
) {
    drop(records);
    drop(known);
    drop(waiting);
}

/// Adds a run for each range of the space, in order, and returns the policies that then have a
/// rule, each at the place that is the number of its rule.
fn add_runs(
    alloc: Global,
    space: &Space,
    plan: &mut Plan,
    steps: &mut Steps,
) -> Result<IndexSet<Record>, NoMemory>
    requires under_way { IsUnderWay space.now plan.old [] }
    requires runs { plan.old.runs ≡ [] }
    requires tasks { plan.old.tasks ≡ [] }
    ensures under_way { IfOk result (λ records. IsUnderWay space.now plan.new records.keys) }
    ensures copies { IfOk result (λ records.
        AreCopies (slice_get records.keys) space.now.ranges plan.new.runs) }
    ensures tasks { OnOk result (plan.new.tasks ≡ []) }
    ensures room { IfOk result (λ records. length records.keys ≤ length space.now.ranges) }
    ensures rises { Rises steps.old steps.new }
{
    survey(space);
    let mut waiting = Vec::with_capacity(alloc, BLOCK)?;
    let mut records = IndexSet::new(alloc);
    let (rows, values) = space.range_rows();
    let mut known = Vec::new(alloc);
    let Ok(()) = known.resize(values.len(), None) else {
        let_go(records, known, waiting);
        return Err(NoMemory);
    };
    for row in rows {
        let Ok(value) = number_for_range(
            alloc,
            space,
            values,
            row.number,
            plan,
            &mut records,
            &mut known,
            steps,
        ) else {
            let_go(records, known, waiting);
            return Err(NoMemory);
        };
        let run = Run {
            first: row.first,
            pages: row.pages,
            index: row.index,
            value,
        };
        let Ok(()) = add_run(plan, &mut waiting, run, steps) else {
            let_go(records, known, waiting);
            return Err(NoMemory);
        };
    }
    let Ok(()) = put_waiting(plan, &mut waiting, steps) else {
        let_go(records, known, waiting);
        return Err(NoMemory);
    };
    Ok(records)
}

/// The task at a place, which exists, and its policy.
fn task_there(space: &Space, place: usize) -> (u32, Record)
    requires { place < length space.now.tasks }
    ensures task { slice_get space.now.tasks place ≡ Some result }
    ensures policy { record_of space.now.tasks result.0 ≡ Some result.1 }
{
    let Some(held) = space.task_at(place) else {
        unreachable!()
    };
    held
}

/// Gives each task that has a live policy its rule.
fn set_tasks(
    alloc: Global,
    space: &Space,
    plan: &mut Plan,
    records: &mut IndexSet<Record>,
    steps: &mut Steps,
) -> Result<(), NoMemory>
    requires ready { IsReady space.now }
    requires few { length plan.old.runs + length space.now.tasks < 2 ^ 32 - 1 }
    requires room { length records.old.keys + length space.now.tasks < 2 ^ 32 }
    requires under_way { IsUnderWay space.now plan.old records.old.keys }
    requires copies { AreCopies (slice_get records.old.keys) space.now.ranges plan.old.runs }
    requires tasks { plan.old.tasks ≡ [] }
    ensures under_way { OnOk result (IsUnderWay space.now plan.new records.new.keys) }
    ensures copies { OnOk result
        (AreCopies (slice_get records.new.keys) space.now.ranges plan.new.runs) }
    ensures tasks { OnOk result (HasTasks (slice_get records.new.keys) space.now.tasks plan.new) }
    ensures rises { Rises steps.old steps.new }
{
    for k in 0..space.task_count() {
        let held = task_there(space, k);
        let number = number_for(alloc, space, Some(held.1), plan, records, steps)?;
        plan.set_task(held.0, number)?;
    }
    Ok(())
}

/// Copies a space into a plan that has only its local rule.
///
/// # Errors
/// `NoMemory`: there is no memory for the runs, the rules or the tasks.
fn copy_space(
    alloc: Global,
    space: &Space,
    plan: &mut Plan,
    steps: &mut Steps,
) -> Result<(), NoMemory>
    requires empty { plan.old ≡ empty_plan space.now.machine.nodes plan.old.local }
    requires local { IsRuleOf (setting_in space.now) plan.old.local None }
    ensures follows { OnOk result (Follows space.now plan.new) }
    ensures rules { OnOk result (SharesRules space.now plan.new) }
    ensures rises { Rises steps.old steps.new }
{
    survey(space);
    let mut records = add_runs(alloc, space, plan, steps)?;
    let Ok(()) = set_tasks(alloc, space, plan, &mut records, steps) else {
        drop(records);
        return Err(NoMemory);
    };
    plan.set_version(space.version());
    // Tells the proof that no record is in it twice.
    let _ = records.len();
    drop(records);
    Ok(())
}

/// The plan of a space, as by [`compile`]. `steps` counts the written runs and rules.
///
/// # Errors
/// `NoMemory`: there is no memory for the plan.
pub(crate) fn compile_counted(
    alloc: Global,
    space: &Space,
    steps: &mut Steps,
) -> Result<Plan, NoMemory>
    ensures follows { IfOk result (λ plan. Follows space.now plan) }
    ensures rules { IfOk result (λ plan. SharesRules space.now plan) }
    ensures rises { Rises steps.old steps.new }
{
    survey(space);
    let local = local_rule(alloc, space)?;
    let mut plan = Plan::new(alloc, space.machine().nodes(), local);
    let Ok(()) = copy_space(alloc, space, &mut plan, steps) else {
        drop(plan);
        return Err(NoMemory);
    };
    Ok(plan)
}

/// The plan of a space: one run for each of its ranges, and one rule for each live policy, which
/// all ranges and tasks with equal records share. A policy that isn't live has no rule, so that the
/// next scope applies ("NUMA Memory Policy", scopes). The plan's version is the number of commands
/// that the space has accepted.
///
/// # Errors
/// `NoMemory`: there is no memory for the plan.
pub fn compile(alloc: Global, space: &Space) -> Result<Plan, NoMemory>
    ensures stands { (history : List Command) → StandsFor space.now history
        → IfOk result (λ plan. PlanStandsFor space.now.machine plan history) }
    ensures plan { IfOk result (λ plan. IsPlanOf space.now plan) }
    ensures follows { IfOk result (λ plan. Follows space.now plan) }
    ensures rules { IfOk result (λ plan. SharesRules space.now plan) }
    ensures sound { IfOk result (λ plan. (task page cpu : ℕ) → cpu < plan.nodes
        → ForSome (planned_list plan task page cpu) (IsNodeList space.now.allowed)) }
{
    survey(space);
    compile_counted(alloc, space, &mut Steps::new())
}

/// The plan of a new space of the machine after these commands, in order; refused ones are skipped.
///
/// # Errors
/// `NoMemory`: there is no memory for a command or for the plan.
///
/// # Examples
/// Four pages at 0x10000, which task 1 interleaves:
///
/// ```
/// let (start, length, offset) = (0x10000, 0x4000, 0x10);
/// let commands = [
///     Command::Map {
///         start,
///         length,
///         offset,
///         size: PageSize::Small,
///     },
///     Command::SetTask { task: 1, spec },
/// ];
/// compile_commands(alloc, machine, limits, &commands).ok()
/// ```
pub fn compile_commands(
    alloc: Global,
    machine: Machine,
    limits: Limits,
    commands: &[Command],
) -> Result<Plan, NoMemory>
    ensures stands { IfOk result (λ plan. PlanStandsFor machine plan
        (accepted_of machine limits commands.now [])) }
    ensures sound { IfOk result (λ plan. (task page cpu : ℕ) → cpu < plan.nodes
        → ForSome (planned_list plan task page cpu)
        (IsNodeList (allowed_nodes machine (accepted_of machine limits commands.now [])))) }
{
    let mut space = Space::new(alloc, machine, limits);
    let Ok(()) = space.apply_all(commands) else {
        drop(space);
        return Err(NoMemory);
    };
    let plan = compile(alloc, &space);
    drop(space);
    plan
}
