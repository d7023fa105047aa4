//! Where all mapped pages would go.
ghost use Rattle.std.specs.Prelude.{◌≡◌, ◌+◌, ◌≤◌, ◌<◌, ◌^◌, ⊤, List, Option, Err};
ghost use Rattle.std.specs.Prelude.{IfOk, IfErr, OnOk, OnErr, option_and_then};
ghost use Rattle.numa_compile.specs.Spans.{SpanIsRefused};
ghost use Rattle.numa_compile.specs.Standing.{PlanStandsFor};
ghost use Rattle.numa_plan.specs.Meaning.{RefusesSpan};
ghost use Rattle.numa_plan.specs.Tally.{Adds, HasRoom};
ghost use Rattle.numa_ranges.specs.Runs.{page_at};
ghost use Rattle.numa_ranges.specs.declared.run.Run.{Run};
ghost use Rattle.numa_space.specs.Pages.{resolved_policy};
ghost use Rattle.numa_space.specs.Standing.{StandsFor};
ghost use Rattle.numa_requests.specs.declared.command.Command.{Command};
ghost use Rattle.numa_machine.specs.declared.refusal.PlaceRefusal.TheVariants.{BadCpu};
ghost use Rattle.numa_reports.specs.declared.fault.ReportError.TheVariants.{Memory, Refused};
ghost use Rattle.numa_reports.specs.Failing.{FailsBy, FailsForNode};
ghost use Rattle.numa_reports.specs.Lying.{AreLying, planned_pages, spots_in};
ghost use Rattle.numa_reports.specs.Predicted.{AreFirsts, AreNone, IsLying, IsPrediction};
ghost use Rattle.numa_reports.specs.Told.{LacksOne, ToldEach, ToldOne};
ghost use Rattle.numa_reports.specs.Turns.{HasPages};

use crate::fault::ReportError;
use crate::lying::count_there;
use crate::request::PredictionRequest;
use crate::tally::move_counts;
use crate::touch::has_node;
use numa_machine::PlaceRefusal;
use numa_mode::Record;
use numa_plan::Plan;
use numa_ranges::Run;
use numa_sheets::Touch;
use numa_space::{RangeRecord, Space};
use std::alloc::AllocError;

/// Where the pages of a range would go, if a task touched each of them now.
#[derive(Clone, Copy)]
pub struct RangePrediction {
    /// The policy that serves the task there: the range's if it is live, else the task's if it is
    /// live. `None` is local allocation.
    pub policy: Option<Record>,
    /// For each node, the number of pages of the range whose fallback list begins with it.
    pub counts: [u64; 256],
}

/// Where the pages of a range would go, if the task touched each of them now on a CPU of node
/// `cpu`. The plan is one of the space. The time depends on the cycle of the range's policy, not on
/// the number of its pages.
///
/// # Errors
/// `BadCpu`: the machine has no node `cpu`; else `Unmapped`: a page of the range isn't mapped.
pub fn predict_range(
    space: &Space,
    plan: &Plan,
    task: u32,
    range: &Run<RangeRecord>,
    cpu: u32,
) -> Result<RangePrediction, PlaceRefusal>
    ensures ok { (history : List Command) → StandsFor space.now history
        → PlanStandsFor space.now.machine plan.now history
        → IfOk result (IsPrediction space.now.machine history task cpu range.now) }
    ensures err { (history : List Command) → PlanStandsFor space.now.machine plan.now history
        → IfErr result
        (SpanIsRefused space.now.machine history range.now.first range.now.pages cpu) }
    ensures bad_cpu { plan.now.nodes ≤ cpu → result ≡ Err BadCpu }
{
    let counts = match plan.counts(task, range.first, range.pages, cpu) {
        Ok(counts) => counts,
        Err(refusal) => return Err(refusal),
    };
    Ok(RangePrediction {
        policy: space.policy_at(task, range.first),
        counts,
    })
}

/// Receives the prediction of each range.
pub trait TakeRange {
    ghost use Rattle.numa_reports.specs.Told.{Lacking, Telling};

    /// That a taker in one state took a range, which left it in another. By default nothing is
    /// promised of what it takes.
    ghost told: { Telling Self } = { λ _ _ _ _. ⊤ };

    /// That a taker in one state had no memory for a range. By default that may happen at any time.
    ghost lacks: { Lacking Self } = { λ _ _. ⊤ };

    /// Takes a range and its prediction: the policy that serves there, and the number of its pages
    /// that go to each node. Ranges come in ascending order.
    fn take(&mut self, range: &Run<RangeRecord>, said: &RangePrediction) -> Result<(), AllocError>
        ensures tells { OnOk result (told self.old range.now said.now self.new) }
        ensures lack { OnErr result (lacks self.old range.now) };
}

impl TakeRange for () {
    ghost lacks = { λ _ _. ⊥ };

    fn take(&mut self, _: &Run<RangeRecord>, _: &RangePrediction) -> Result<(), AllocError> {
        Ok(())
    }
}

/// The policy that serves a task in a range of the space. The range's own is at hand, so the task's
/// is looked up only if that isn't live.
pub(crate) fn policy_of(space: &Space, task: u32, range: &Run<RangeRecord>) -> Option<Record>
    requires { option_and_then (λ at. at.1) (page_at space.now.ranges range.now.first)
        ≡ range.now.value }
    ensures { (history : List Command) → StandsFor space.now history
        → result ≡ resolved_policy space.now.machine history task range.now.first }
{
    match range.value.policy() {
        Some(policy) if policy.is_live() => Some(policy),
        _ => space.policy_at(task, range.first),
    }
}

/// Passes a range to the taker, and adds its pages to the total. The range's counts are zero before
/// and afterwards.
fn predict_next<T: TakeRange>(
    asked: PredictionRequest<'_>,
    range: &Run<RangeRecord>,
    taker: &mut T,
    said: &mut RangePrediction,
    all: &mut [u64; 256],
) -> Result<(), ReportError>
    requires own { option_and_then (λ at. at.1) (page_at asked.space.now.ranges range.now.first)
        ≡ range.now.value }
    requires pages { HasPages asked.space.now.ranges range.now }
    requires small { range.now.first + range.now.pages < 2 ^ 64 }
    requires known { asked.touch.cpu < asked.space.now.machine.nodes }
    requires none { AreNone said.old.counts }
    requires room { HasRoom all.old (planned_pages asked.plan.now (spots_in asked.placed)
        asked.touch.task range.now.first range.now.pages asked.touch.cpu) }
    ensures none { OnOk result (AreNone said.new.counts) }
    ensures all { OnOk result (Adds all.old all.new (planned_pages asked.entry.plan.now
        (spots_in asked.entry.placed) asked.entry.touch.task range.now.first range.now.pages
        asked.entry.touch.cpu)) }
    ensures told { (history : List Command) → StandsFor asked.entry.space.now history
        → PlanStandsFor asked.entry.space.now.machine asked.entry.plan.now history → OnOk result
        (ToldOne T.told (IsLying asked.entry.space.now.machine history
        (spots_in asked.entry.placed) asked.entry.touch.task asked.entry.touch.cpu)
        range.now taker.old taker.new) }
    ensures err { IfErr result (FailsBy (RefusesSpan asked.entry.plan.now range.now.first
        range.now.pages asked.entry.touch.cpu)) }
    ensures lack { IfErr result (λ why. why ≡ Memory → T.lacks taker.old range.now) }
{
    count_there(asked, range, &mut said.counts)?;
    said.policy = policy_of(asked.space, asked.touch.task, range);
    taker.take(range, said)?;
    move_counts(&mut said.counts, range.pages, all);
    Ok(())
}

/// The number of mapped pages that lie on each node once they are touched, as by [`predict_all`],
/// but those that are there stay where they lie. The machine has the faulting node.
///
/// # Errors
/// `Refused`: the plan isn't one of the space. `Memory`: the taker had none.
pub(crate) fn predict_ranges<T: TakeRange>(
    asked: PredictionRequest<'_>,
    taker: &mut T,
) -> Result<[u64; 256], ReportError>
    requires known { asked.touch.cpu < asked.space.now.machine.nodes }
    ensures ok { (history : List Command) → StandsFor asked.entry.space.now history
        → PlanStandsFor asked.entry.space.now.machine asked.entry.plan.now history
        → IfOk result (AreLying asked.entry.space.now.machine history
        (spots_in asked.entry.placed) asked.entry.touch.task 0 (2 ^ 35)
        asked.entry.touch.cpu) }
    ensures told { (history : List Command) → StandsFor asked.entry.space.now history
        → PlanStandsFor asked.entry.space.now.machine asked.entry.plan.now history → OnOk result
        (ToldEach T.told (IsLying asked.entry.space.now.machine history
        (spots_in asked.entry.placed) asked.entry.touch.task asked.entry.touch.cpu)
        asked.entry.space.now.ranges taker.old taker.new) }
    ensures err { FailsForNode asked.entry.space.now asked.entry.plan.now
        asked.entry.touch.cpu result }
    ensures lack { IfErr result (λ why. why ≡ Memory
        → LacksOne T.lacks asked.entry.space.now.ranges) }
{
    let mut said = RangePrediction {
        policy: None,
        counts: [0; 256],
    };
    let mut all = [0u64; 256];
    for range in asked.space.range_iter() {
        predict_next(asked, &range, taker, &mut said, &mut all)?;
    }
    Ok(all)
}

/// The number of mapped pages that would go to each node, if the task touched each of them now on a
/// CPU of node `cpu`. The prediction of each range, as by [`predict_range`], is passed to the
/// taker, once, in ascending order (`&mut ()` ignores it and doesn't allocate). The plan is one of
/// the space.
///
/// # Errors
/// `Refused(BadCpu)`: the machine has no node `cpu`. `Refused(Unmapped)`: the plan isn't one of the
/// space. `Memory`: the taker ran out of memory.
pub fn predict_all<'a, T: TakeRange>(
    space: &'a Space,
    plan: &'a Plan,
    task: u32,
    cpu: u32,
    taker: &mut T,
) -> Result<[u64; 256], ReportError>
    ensures ok { (history : List Command) → StandsFor space.now history
        → PlanStandsFor space.now.machine plan.now history
        → IfOk result (AreFirsts space.now.machine history task 0 (2 ^ 35) cpu) }
    ensures told { (history : List Command) → StandsFor space.now history
        → PlanStandsFor space.now.machine plan.now history → OnOk result (ToldEach T.told
        (IsPrediction space.now.machine history task cpu) space.now.ranges taker.old taker.new) }
    ensures err { FailsForNode space.now plan.now cpu result }
    ensures lack { IfErr result (λ why. why ≡ Memory → LacksOne T.lacks space.now.ranges) }
    ensures bad_cpu { space.now.machine.nodes ≤ cpu → result ≡ Err (Refused BadCpu) }
{
    if !has_node(space, cpu) {
        return Err(ReportError::Refused(PlaceRefusal::BadCpu));
    }
    predict_ranges(
        PredictionRequest {
            space,
            plan,
            placed: None,
            touch: Touch { task, cpu },
            free: &[],
        },
        taker,
    )
}
