//! The pages of a space, by its ranges and by the nodes that they lie on.
ghost use Rattle.std.specs.Prelude.{◌≡◌, ◌+◌, ◌<◌, ◌≤◌, ◌^◌, ◌++◌, List, map, IfErr, IfOk, OnOk};
ghost use Rattle.numa_compile.specs.Standing.{PlanStandsFor};
ghost use Rattle.numa_space.specs.Standing.{StandsFor};
ghost use Rattle.numa_requests.specs.declared.command.Command.{Command};
ghost use Rattle.numa_placed.specs.Spots.{spot_at};
ghost use Rattle.numa_compile.specs.Spans.{SpanIsRefused};
ghost use Rattle.numa_reports.specs.Failing.{FailsBy, MayFail};
ghost use Rattle.numa_reports.specs.Mapped.{span_of};
ghost use Rattle.numa_moves.specs.Shares.{shares_over, shares_within, stated_in, touched_spot};

use crate::counting::count_in;
use crate::share::{Share, push_within};
use numa_placed::Placed;
use numa_plan::Plan;
use numa_ranges::Run;
use numa_reports::{PageSpan, ReportError, predict_range};
use numa_sheets::Touch;
use numa_space::{RangeRecord, Space};
use std::alloc::{AllocError, Global};

/// Appends the pages of a span that are stated to lie on each of so many nodes.
fn push_stated(
    shares: &mut Vec<Share>,
    placed: &Placed,
    span: PageSpan,
    nodes: u32,
) -> Result<(), AllocError>
    requires few { nodes ≤ 256 }
    requires within { span.first + span.pages ≤ 2 ^ 35 }
    ensures { OnOk result (shares.new.items ≡ shares.old.items
        ++ shares_within (stated_in (spot_at placed.now) span) span nodes) }
{
    let counts = count_in(placed, span);
    push_within(shares, span, &counts, nodes)
}

/// The number of nodes of a space's machine.
fn nodes_of(space: &Space) -> u32
    ensures same { result ≡ space.now.machine.nodes }
    ensures few { result ≤ 256 }
{
    space.machine().nodes()
}

/// The pages of a range.
fn span_by(range: &Run<RangeRecord>) -> PageSpan
    ensures { result ≡ span_of range.now }
{
    PageSpan {
        first: range.first,
        pages: range.pages,
    }
}

/// The pages of each range of a space that are stated to lie somewhere: those on each node of the
/// machine, in ascending order.
///
/// # Errors
/// `AllocError`: out of memory.
pub fn stated_shares(
    alloc: Global,
    space: &Space,
    placed: &Placed,
) -> Result<Vec<Share>, AllocError>
    ensures { IfOk result (λ shares. shares.items ≡ shares_over (stated_in (spot_at placed.now))
        space.now.machine.nodes (map span_of space.now.ranges)) }
{
    let nodes = nodes_of(space);
    let mut shares = Vec::new(alloc);
    for range in space.range_iter() {
        push_stated(&mut shares, placed, span_by(&range), nodes)?;
    }
    Ok(shares)
}

/// Appends the pages of a range by the first nodes of their lists.
fn push_touched(
    shares: &mut Vec<Share>,
    space: &Space,
    plan: &Plan,
    touch: Touch,
    range: &Run<RangeRecord>,
    nodes: u32,
) -> Result<(), ReportError>
    requires few { nodes ≤ 256 }
    ensures ok { (history : List Command) → StandsFor space.now history
        → PlanStandsFor space.now.machine plan.now history → OnOk result (shares.new.items
        ≡ shares.old.items ++ shares_within
        (stated_in (touched_spot space.now.machine history touch.task touch.cpu)
        (span_of range.now)) (span_of range.now) nodes) }
    ensures err { (history : List Command) → PlanStandsFor space.now.machine plan.now history
        → IfErr result (FailsBy (SpanIsRefused space.now.machine history range.now.first
        range.now.pages touch.cpu)) }
{
    let said = match predict_range(space, plan, touch.task, range, touch.cpu) {
        Ok(said) => said,
        Err(refusal) => return Err(ReportError::Refused(refusal)),
    };
    match push_within(shares, span_by(range), &said.counts, nodes) {
        Ok(()) => Ok(()),
        Err(_) => Err(ReportError::Memory),
    }
}

/// The pages of each range of a space, where a task has touched them all on a CPU of node `cpu`
/// while every node had room: those on each node of the machine, in ascending order. The plan is
/// one of the space. The time depends on the cycles of the policies, and not on the number of
/// pages.
///
/// # Errors
/// `Refused(BadCpu)`: the machine has no node `cpu`. `Memory`: out of memory.
pub fn touched_shares(
    alloc: Global,
    space: &Space,
    plan: &Plan,
    touch: Touch,
) -> Result<Vec<Share>, ReportError>
    ensures ok { (history : List Command) → StandsFor space.now history
        → PlanStandsFor space.now.machine plan.now history → IfOk result (λ shares. shares.items
        ≡ shares_over (stated_in (touched_spot space.now.machine history touch.task touch.cpu))
        space.now.machine.nodes (map span_of space.now.ranges)) }
    ensures err { (history : List Command) → StandsFor space.now history
        → PlanStandsFor space.now.machine plan.now history
        → IfErr result (MayFail space.now.machine.nodes touch.cpu) }
{
    let nodes = nodes_of(space);
    let mut shares = Vec::new(alloc);
    for range in space.range_iter() {
        if let Err(fault) = push_touched(&mut shares, space, plan, touch, &range, nodes) {
            return Err(fault);
        }
    }
    Ok(shares)
}
