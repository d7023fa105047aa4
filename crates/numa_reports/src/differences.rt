//! Which pages go to another node between two states, as values.
ghost use Rattle.std.specs.Prelude.{◌≡◌, ◌<◌, ◌≤◌, ◌++◌, List, Err, IfErr, IfOk, OnOk, length, map};
ghost use Rattle.numa_compile.specs.Standing.{PlanStandsFor};
ghost use Rattle.numa_space.specs.Standing.{StandsFor};
ghost use Rattle.numa_requests.specs.declared.command.Command.{Command};
ghost use Rattle.numa_machine.specs.declared.refusal.PlaceRefusal.TheVariants.{BadCpu};
ghost use Rattle.numa_reports.specs.declared.fault.ReportError.TheVariants.{Refused};
ghost use Rattle.numa_reports.specs.Differences.{AreAllMoves, EitherLacks, HasNone, RefusesSome};
ghost use Rattle.numa_reports.specs.Differences.{move_if, moves_from, moves_over, moves_within};
ghost use Rattle.numa_reports.specs.Failing.{FailsBy, RefusesEither};
ghost use Rattle.numa_reports.specs.Mapped.{span_of};
ghost use Rattle.numa_reports.specs.Moved.{moves_in, planned_moves};

use crate::fault::ReportError;
use crate::moves::{self, Change, ENTRIES, add_moves, empty_table};
use crate::outlook::{PageSpan, common_spans, spans_of};
use crate::touch::has_node;
use numa_machine::PlaceRefusal;
use numa_plan::Plan;
use numa_sheets::Touch;
use numa_space::Space;
use std::alloc::{AllocError, Global};

/// The pages of a span that go from one node to another.
#[repr(C)]
#[derive(Clone, Copy)]
pub struct SpanMove {
    /// The first page of the span.
    pub first: u64,
    /// The number of pages of the span.
    pub pages: u64,
    /// The number of them that go from the one node to the other.
    pub moved: u64,
    /// The node to which they would have gone before.
    pub from: u8,
    /// The node to which they go now.
    pub to: u8,
}

const _: () = prove!(size_of::<SpanMove>() == 32);

/// The number of pages that go from a node to another one.
fn moved_in(table: &[u64], from: u8, to: u8) -> u64
    requires { length table.now ≡ 65536 }
    ensures { result ≡ moves_in table.now from to }
{
    table[usize::from(from) * 256 + usize::from(to)]
}

/// Appends pages of a span, unless they stay, or there are none.
fn push_move(said: SpanMove, moves: &mut Vec<SpanMove>) -> Result<(), AllocError>
    ensures { OnOk result (moves.new.items ≡ moves.old.items ++ move_if said) }
{
    if said.from == said.to {
        return Ok(());
    }
    if said.moved == 0 {
        return Ok(());
    }
    moves.push(said)?;
    Ok(())
}

/// Appends the pages of a span that go from a node to each of so many others.
fn push_from(
    table: &[u64],
    span: PageSpan,
    from: u8,
    nodes: u32,
    moves: &mut Vec<SpanMove>,
) -> Result<(), AllocError>
    requires entries { length table.now ≡ 65536 }
    requires few { nodes ≤ 256 }
    ensures { OnOk result (moves.new.items
        ≡ moves.old.items ++ moves_from (moves_in table.now) span from nodes) }
{
    let PageSpan { first, pages } = span;
    for node in 0..nodes {
        let to = node as u8;
        let moved = moved_in(table, from, to);
        let said = SpanMove {
            first,
            pages,
            moved,
            from,
            to,
        };
        push_move(said, moves)?;
    }
    Ok(())
}

/// Appends the pages of a span that go from each of so many nodes to each of so many others.
fn push_all(
    table: &[u64],
    span: PageSpan,
    nodes: (u32, u32),
    moves: &mut Vec<SpanMove>,
) -> Result<(), AllocError>
    requires entries { length table.now ≡ 65536 }
    requires few { (nodes.0 ≤ 256) × (nodes.1 ≤ 256) }
    ensures { OnOk result (moves.new.items
        ≡ moves.old.items ++ moves_within (moves_in table.now) span nodes.0 nodes.1) }
{
    for from in 0..nodes.0 {
        push_from(table, span, from as u8, nodes.1, moves)?;
    }
    Ok(())
}

/// Empties a table.
fn clear(table: &mut Vec<u64>)
    requires entries { length table.old.items ≡ 65536 }
    ensures { HasNone table.new.items }
{
    for place in 0..ENTRIES {
        table[place] = 0;
    }
}

/// Appends the pages of a span that go to another node by the other plan. The table is empty before
/// and afterwards.
fn push_span(
    change: Change<'_>,
    nodes: (u32, u32),
    span: PageSpan,
    table: &mut Vec<u64>,
    moves: &mut Vec<SpanMove>,
) -> Result<(), ReportError>
    requires known { change.touch.cpu < change.before.now.nodes }
    requires few { (nodes.0 ≤ 256) × (nodes.1 ≤ 256) }
    requires none { HasNone table.old.items }
    ensures moves { OnOk result (moves.new.items ≡ moves.old.items ++ moves_within
        (planned_moves change.entry.before.now change.entry.after.now change.entry.touch.task
        span.first span.pages change.entry.touch.cpu) span nodes.0 nodes.1) }
    ensures none { OnOk result (HasNone table.new.items) }
    ensures err { IfErr result (FailsBy (RefusesEither change.entry.before.now
        change.entry.after.now span.first span.pages change.entry.touch.cpu)) }
{
    add_moves(change, span, table, &mut ())?;
    push_all(table, span, nodes, moves)?;
    clear(table);
    Ok(())
}

/// The pages of spans that go to another node by the other plan.
fn moves_of(
    alloc: Global,
    change: Change<'_>,
    nodes: (u32, u32),
    spans: &[PageSpan],
) -> Result<Vec<SpanMove>, ReportError>
    requires known { change.touch.cpu < change.before.now.nodes }
    requires few { (nodes.0 ≤ 256) × (nodes.1 ≤ 256) }
    ensures moves { IfOk result (λ moves. moves.items ≡ moves_over (λ span.
        planned_moves change.entry.before.now change.entry.after.now change.entry.touch.task
        span.first span.pages change.entry.touch.cpu) nodes.0 nodes.1 spans.now) }
    ensures err { IfErr result (FailsBy (RefusesSome change.entry.before.now
        change.entry.after.now spans.now change.entry.touch.cpu)) }
{
    let mut table = empty_table(alloc, ENTRIES)?;
    let mut moves = Vec::new(alloc);
    for span in spans {
        push_span(change, nodes, *span, &mut table, &mut moves)?;
    }
    Ok(moves)
}

/// The pages that would go to another node after a change than before it, if the task touched each
/// of them on a CPU of node `cpu`: for each span of pages that are mapped before and after, in
/// ascending order, how many go from which node to which other. Each space comes with its plan. The
/// time grows with the pages.
///
/// # Errors
/// `Refused(BadCpu)`: a machine has no node `cpu`. `Memory`: out of memory.
pub fn all_moves<'a>(
    alloc: Global,
    before: &Space,
    old: &'a Plan,
    after: &Space,
    new: &'a Plan,
    touch: Touch,
) -> Result<Vec<SpanMove>, ReportError>
    ensures ok { (history later : List Command) → StandsFor before.now history
        → PlanStandsFor before.now.machine old.now history → StandsFor after.now later
        → PlanStandsFor after.now.machine new.now later → IfOk result (λ moves.
        AreAllMoves before.now.machine history after.now.machine later touch.task touch.cpu
        (map span_of before.now.ranges) (map span_of after.now.ranges) moves.items) }
    ensures err { (history later : List Command) → StandsFor before.now history
        → PlanStandsFor before.now.machine old.now history → StandsFor after.now later
        → PlanStandsFor after.now.machine new.now later → IfErr result (FailsBy
        (EitherLacks before.now.machine.nodes after.now.machine.nodes touch.cpu)) }
    ensures bad_cpu { before.now.machine.nodes ≤ touch.cpu → result ≡ Err (Refused BadCpu) }
    ensures bad_other { after.now.machine.nodes ≤ touch.cpu → result ≡ Err (Refused BadCpu) }
{
    if !has_node(before, touch.cpu) {
        return Err(ReportError::Refused(PlaceRefusal::BadCpu));
    }
    if !has_node(after, touch.cpu) {
        return Err(ReportError::Refused(PlaceRefusal::BadCpu));
    }
    if !moves::has_node(old, touch.cpu) {
        return Err(ReportError::Refused(PlaceRefusal::BadCpu));
    }
    let nodes = (before.machine().nodes(), after.machine().nodes());
    let ones = spans_of(alloc, before)?;
    let others = spans_of(alloc, after)?;
    let spans = common_spans(alloc, ones.as_slice(), others.as_slice())?;
    let change = Change {
        before: old,
        after: new,
        touch,
    };
    moves_of(alloc, change, nodes, spans.as_slice())
}
