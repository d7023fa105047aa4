//! Where all mapped pages would go, with limited free pages on each node.
ghost use Rattle.std.specs.Prelude.{◌≡◌, ◌⊎◌, ◌+◌, ◌-◌, ◌<◌, ◌≤◌, ◌^◌, ℕ, List, Err};
ghost use Rattle.std.specs.Prelude.{IfErr, IfOk, OnOk, length, option_and_then, replicate};
ghost use Rattle.std.specs.Prelude.{slice_index};
ghost use Rattle.numa_compile.specs.Standing.{PlanStandsFor};
ghost use Rattle.numa_placed.specs.Periods.{Repeats};
ghost use Rattle.numa_plan.specs.Meaning.{RefusesSpan, place_refusal};
ghost use Rattle.numa_ranges.specs.Runs.{end_of, page_at};
ghost use Rattle.numa_space.specs.Standing.{StandsFor};
ghost use Rattle.numa_requests.specs.declared.command.Command.{Command};
ghost use Rattle.numa_machine.specs.declared.refusal.PlaceRefusal.TheVariants.{BadCpu};
ghost use Rattle.numa_reports.specs.declared.fault.ReportError.TheVariants.{Memory, Refused};
ghost use Rattle.numa_reports.specs.Failing.{FailsBy, FailsForNode};
ghost use Rattle.numa_reports.specs.Filled.{first_free, free_behind, nodes_of, one_less};
ghost use Rattle.numa_reports.specs.Filled.{with_named};
ghost use Rattle.numa_reports.specs.Lying.{LeavesFree, absent_nodes, asked_nodes, spots_in};
ghost use Rattle.numa_reports.specs.Lying.{there_on};
ghost use Rattle.numa_reports.specs.Told.{IsFilling, IsFillingBeside, IsTakenBeside, LacksOne};
ghost use Rattle.numa_reports.specs.Told.{ToldEach, ToldOne};
ghost use Rattle.numa_reports.specs.Turns.{HasPages};

use crate::absent::{both_of, fill_there};
use crate::fault::ReportError;
use crate::outlook::PageSpan;
use crate::prediction::{RangePrediction, TakeRange, policy_of};
use crate::request::PredictionRequest;
use crate::touch::has_node;
use crate::turns::{all_left_behind, all_times_left};
use numa_machine::PlaceRefusal;
use numa_placed::{Placed, period_in};
use numa_plan::Plan;
use numa_ranges::Run;
use numa_sheets::{FreePages, Touch};
use numa_space::{RangeRecord, Space};

/// The number of free pages of each node: for named nodes the given one (the last counts), for
/// others `others`.
pub(crate) fn free_from(others: u64, named: &[FreePages]) -> [u64; 256]
    ensures { result ≡ with_named (replicate 256 others) named.now }
{
    let mut free = [others; 256];
    let mut rest = named;
    while let Some((one, behind)) = rest.split_first() {
        free[usize::from(one.node)] = one.pages;
        rest = behind;
    }
    free
}

/// Takes a free page of the first node of a list that has one, and returns the node; `None` if no
/// node has one.
fn take_first(nodes: &[u8], free: &mut [u64; 256]) -> Option<u8>
    ensures node { result ≡ first_free free.old nodes.now }
    ensures taken { free.new ≡ one_less free.old result }
{
    let mut rest = nodes;
    while let Some((node, behind)) = rest.split_first() {
        let place = usize::from(*node);
        if free[place] > 0 {
            free[place] -= 1;
            return Some(*node);
        }
        rest = behind;
    }
    None
}

/// Takes a free page for a page, and returns its node; `None` if no node of its list has one.
fn fill_page(
    asked: PredictionRequest<'_>,
    page: u64,
    free: &mut [u64; 256],
) -> Result<Option<u8>, PlaceRefusal>
    ensures free { OnOk result (free.new ≡ one_less free.old
        (first_free free.old (asked_nodes asked.entry page))) }
    ensures err { IfErr result (λ refusal.
        place_refusal asked.entry.plan.now page asked.entry.touch.cpu ≡ Some refusal) }
{
    let Touch { task, cpu } = asked.touch;
    match asked.plan.fallback_list(task, page, cpu) {
        Ok(nodes) => Ok(take_first(nodes, free)),
        Err(refusal) => Err(refusal),
    }
}

/// Takes a free page for each page of a span, in ascending order, one by one.
fn fill_pages(
    asked: PredictionRequest<'_>,
    span: PageSpan,
    free: &mut [u64; 256],
) -> Result<(), PlaceRefusal>
    requires { span.first + span.pages < 2 ^ 64 }
    ensures free { OnOk result
        (free.new ≡ free_behind (asked_nodes asked.entry) free.old span.first span.pages) }
    ensures err { IfErr result
        (RefusesSpan asked.entry.plan.now span.first span.pages asked.entry.touch.cpu) }
{
    let PageSpan { first, pages } = span;
    for page in first..first + pages {
        fill_page(asked, page, free)?;
    }
    Ok(())
}

/// The period, or `left` if that is less or the period is 0, which means unknown.
fn period_within(period: u64, left: u64) -> u64
    requires { 0 < left }
    ensures some { 0 < result }
    ensures few { result ≤ left }
    ensures is { (result ≡ period) ⊎ (result ≡ left) }
{
    if period == 0 || left < period {
        return left;
    }
    period
}

/// Takes a free page for each page of the first period of a span, one by one, and all at once for
/// those of the following periods that take the same. Returns for how many pages. A period of 0, or
/// one that is longer than the span, is as long as the span.
pub(crate) fn fill_periods(
    asked: PredictionRequest<'_>,
    span: PageSpan,
    period: u64,
    free: &mut [u64; 256],
) -> Result<u64, PlaceRefusal>
    requires small { span.first + span.pages < 2 ^ 64 }
    requires some { 0 < span.pages }
    ensures some { IfOk result (λ done. 0 < done) }
    ensures few { IfOk result (λ done. done ≤ span.pages) }
    ensures free { Repeats (asked_nodes asked.entry) span.first span.pages period
        → IfOk result (λ done. free.new
        ≡ free_behind (asked_nodes asked.entry) free.old span.first done) }
    ensures err { IfErr result
        (RefusesSpan asked.entry.plan.now span.first span.pages asked.entry.touch.cpu) }
{
    let PageSpan { first, pages } = span;
    let part = period_within(period, pages);
    let before = *free;
    fill_pages(asked, PageSpan { first, pages: part }, free)?;
    let times = all_times_left(&before, free, (pages - part) / part);
    *free = all_left_behind(&before, free, times);
    Ok(part + times * part)
}

/// The node of a page: where it lies, if it is there; else it takes a free page, and 0 stands for a
/// page for which no node has one.
fn fill_one(
    asked: PredictionRequest<'_>,
    page: u64,
    free: &mut [u64; 256],
) -> Result<u8, PlaceRefusal>
    ensures err { IfErr result (λ refusal.
        place_refusal asked.entry.plan.now page asked.entry.touch.cpu ≡ Some refusal) }
{
    if let Some(placed) = asked.placed {
        if let Some(node) = placed.at(page).node() {
            return Ok(node);
        }
    }
    match fill_page(asked, page, free) {
        Ok(node) => Ok(node.unwrap_or(0)),
        Err(refusal) => Err(refusal),
    }
}

/// Takes a free page for each page of a short span that isn't there, and writes the node of each
/// page, as [`fill_one`] tells it.
pub(crate) fn fill_few(
    asked: PredictionRequest<'_>,
    first: u64,
    nodes: &mut [u8],
    free: &mut [u64; 256],
) -> Result<(), PlaceRefusal>
    requires { first + length nodes.old < 2 ^ 64 }
    ensures err { IfErr result
        (RefusesSpan asked.entry.plan.now first (length nodes.old) asked.entry.touch.cpu) }
{
    for k in 0..nodes.len() {
        nodes[k] = fill_one(asked, first + k as u64, free)?;
    }
    Ok(())
}

/// The number of pages of each node that were taken.
fn taken(before: &[u64; 256], after: &[u64; 256]) -> [u64; 256]
    ensures { (node : ℕ) → node < 256 → slice_index result node
        ≡ slice_index before.now node - slice_index after.now node }
{
    let mut counts = [0u64; 256];
    for node in 0..256 {
        counts[node] = before[node].saturating_sub(after[node]);
    }
    counts
}

/// The number of pages of a range that each node has: those that are there, and those that were
/// taken.
fn counts_behind(
    placed: Option<&Placed>,
    range: &Run<RangeRecord>,
    before: &[u64; 256],
    after: &[u64; 256],
) -> [u64; 256]
    requires { end_of range.now ≤ 2 ^ 35 }
    ensures { (node : ℕ) → node < 256
        → there_on placed.entry range.now.first range.now.pages node
        + (slice_index before.now node - slice_index after.now node) < 2 ^ 64
        → slice_index result node ≡ there_on placed.entry range.now.first range.now.pages node
        + (slice_index before.now node - slice_index after.now node) }
{
    let counts = taken(before, after);
    match placed {
        None => counts,
        Some(placed) => both_of(&placed.counts_in(range.first, range.pages), &counts),
    }
}

/// Takes a free page for each page of a range that isn't there, in ascending order, and passes the
/// counts to the taker.
fn fill_next<T: TakeRange>(
    asked: PredictionRequest<'_>,
    range: &Run<RangeRecord>,
    free: &mut [u64; 256],
    taker: &mut T,
) -> Result<(), ReportError>
    requires known { asked.touch.cpu < asked.space.now.machine.nodes }
    requires own { option_and_then (λ at. at.1) (page_at asked.space.now.ranges range.now.first)
        ≡ range.now.value }
    requires pages { HasPages asked.space.now.ranges range.now }
    requires small { end_of range.now ≤ 2 ^ 35 }
    ensures free { (history : List Command) → StandsFor asked.entry.space.now history
        → PlanStandsFor asked.entry.space.now.machine asked.entry.plan.now history
        → OnOk result (free.new
        ≡ free_behind (absent_nodes (spots_in asked.entry.placed) (asked_nodes asked.entry))
        free.old range.now.first range.now.pages) }
    ensures told { (history : List Command) → StandsFor asked.entry.space.now history
        → PlanStandsFor asked.entry.space.now.machine asked.entry.plan.now history → OnOk result
        (ToldOne T.told (IsTakenBeside asked.entry.space.now.machine history asked.entry.placed
        asked.entry.touch.task free.old free.new) range.now taker.old taker.new) }
    ensures err { IfErr result (FailsBy (RefusesSpan asked.entry.plan.now range.now.first
        range.now.pages asked.entry.touch.cpu)) }
    ensures lack { IfErr result (λ why. why ≡ Memory → T.lacks taker.old range.now) }
{
    let before = *free;
    let policy = policy_of(asked.space, asked.touch.task, range);
    let period = period_in(asked.space, &policy, range.index, range.pages);
    fill_there(asked, range.first, range.pages, period, free)?;
    let said = RangePrediction {
        policy,
        counts: counts_behind(asked.placed, range, &before, free),
    };
    taker.take(range, &said)?;
    Ok(())
}

/// The pages of each node that remain free, as by [`fill_all`], but pages that are there take none.
/// The machine has the faulting node.
///
/// # Errors
/// `Refused`: the plan isn't one of the space. `Memory`: the taker had none.
pub(crate) fn fill_ranges<T: TakeRange>(
    asked: PredictionRequest<'_>,
    free: &mut [u64; 256],
    taker: &mut T,
) -> Result<(), ReportError>
    requires known { asked.touch.cpu < asked.space.now.machine.nodes }
    ensures ok { LeavesFree asked.entry free.old free.new result }
    ensures told { (history : List Command) → StandsFor asked.entry.space.now history
        → PlanStandsFor asked.entry.space.now.machine asked.entry.plan.now history → OnOk result
        (ToldEach T.told (IsFillingBeside asked.entry.space.now.machine history
        asked.entry.placed asked.entry.touch.task asked.entry.touch.cpu free.old)
        asked.entry.space.now.ranges taker.old taker.new) }
    ensures err { FailsForNode asked.entry.space.now asked.entry.plan.now
        asked.entry.touch.cpu result }
    ensures lack { IfErr result (λ why. why ≡ Memory
        → LacksOne T.lacks asked.entry.space.now.ranges) }
{
    for range in asked.space.range_iter() {
        fill_next(asked, &range, free, taker)?;
    }
    Ok(())
}

/// The pages of each node that remain free, if the task touched all mapped pages now on a CPU of
/// node `cpu`, in ascending order: a page takes a free page of the first node of its list that has
/// one, or goes nowhere. The number of pages of each range that each node gets is passed to the
/// taker, once for each range, in ascending order. The plan is one of the space. The time depends
/// on the cycles of the ranges' policies and the number of nodes that run out, not on the number of
/// pages.
///
/// # Errors
/// `Refused(BadCpu)`: the machine has no node `cpu`. `Refused(Unmapped)`: the plan isn't one of the
/// space. `Memory`: the taker ran out of memory.
pub fn fill_all<'a, T: TakeRange>(
    space: &'a Space,
    plan: &'a Plan,
    task: u32,
    cpu: u32,
    free: &mut [u64; 256],
    taker: &mut T,
) -> Result<(), ReportError>
    ensures ok { (history : List Command) → StandsFor space.now history
        → PlanStandsFor space.now.machine plan.now history → OnOk result (free.new
        ≡ free_behind (nodes_of space.now.machine history task cpu) free.old 0 (2 ^ 35)) }
    ensures told { (history : List Command) → StandsFor space.now history
        → PlanStandsFor space.now.machine plan.now history → OnOk result (ToldEach T.told
        (IsFilling space.now.machine history task cpu free.old) space.now.ranges
        taker.old taker.new) }
    ensures err { FailsForNode space.now plan.now cpu result }
    ensures lack { IfErr result (λ why. why ≡ Memory → LacksOne T.lacks space.now.ranges) }
    ensures bad_cpu { space.now.machine.nodes ≤ cpu → result ≡ Err (Refused BadCpu) }
{
    if !has_node(space, cpu) {
        return Err(ReportError::Refused(PlaceRefusal::BadCpu));
    }
    let asked = PredictionRequest {
        touch: Touch { task, cpu },
        space,
        plan,
        placed: None,
        free: &[],
    };
    fill_ranges(asked, free, taker)
}
