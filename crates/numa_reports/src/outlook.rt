//! The state at one time: a plan, and which pages are mapped.
ghost use Rattle.std.specs.Prelude.{◌≡◌, ◌<◌, ◌^◌, ◌++◌, List, map, IfErr, IfOk};
ghost use Rattle.numa_compile.specs.Standing.{PlanStandsFor};
ghost use Rattle.numa_space.specs.Standing.{StandsFor};
ghost use Rattle.numa_requests.specs.declared.command.Command.{Command};
ghost use Rattle.numa_reports.specs.Common.{AreCommon, AreRising, common_of, span_end};
ghost use Rattle.numa_reports.specs.Mapped.{IsOutlook, span_of};
ghost use Rattle.numa_reports.specs.declared.fault.ReportError.TheVariants as fault;

use crate::fault::ReportError;
use numa_compile::compile;
use numa_plan::Plan;
use numa_space::Space;
use std::alloc::{AllocError, Global};

/// Consecutive pages: the first, and their number.
#[derive(Clone, Copy)]
pub struct PageSpan {
    pub first: u64,
    pub pages: u64,
}

/// The state at one time: the plan of the commands so far, and the pages of each range, in
/// ascending order.
pub struct Outlook {
    pub plan: Plan,
    pub spans: Vec<PageSpan>,
}

// (By hand, so that it is proved here alone: a derived one is proved in each crate that drops.)
impl Drop for Outlook {
    fn drop(self) {
        let Outlook { plan, spans } = self;
        drop(plan);
        drop(spans);
    }
}

/// The pages of each range of a space, in ascending order.
pub(crate) fn spans_of(alloc: Global, space: &Space) -> Result<Vec<PageSpan>, AllocError>
    ensures spans { IfOk result (λ spans. spans.items ≡ map span_of space.now.ranges) }
    ensures rising { IfOk result (λ spans. AreRising 0 spans.items) }
{
    let mut spans = Vec::new(alloc);
    for range in space.range_iter() {
        spans.push(PageSpan {
            first: range.first,
            pages: range.pages,
        })?;
    }
    Ok(spans)
}

/// The present state of a space.
///
/// # Errors
/// `Memory`: out of memory.
pub fn outlook_of(alloc: Global, space: &Space) -> Result<Outlook, ReportError>
    ensures plan { (history : List Command) → StandsFor space.now history
        → IfOk result (λ outlook. PlanStandsFor space.now.machine outlook.plan history) }
    ensures spans { IfOk result (λ outlook.
        outlook.spans.items ≡ map span_of space.now.ranges) }
    ensures rising { IfOk result (λ outlook. AreRising 0 outlook.spans.items) }
    ensures outlook { (history : List Command) → StandsFor space.now history
        → IfOk result (IsOutlook space.now.machine history) }
    ensures err { IfErr result (λ why. why ≡ fault.Memory) }
{
    let spans = spans_of(alloc, space)?;
    let plan = compile(alloc, space)?;
    Ok(Outlook { plan, spans })
}

/// The page after the last.
fn end_of(span: PageSpan) -> u64
    ensures { span_end span < 2 ^ 64 → result ≡ span_end span }
{
    span.first.saturating_add(span.pages)
}

/// Appends the intersection of two spans to the spans found so far.
fn add_common(found: &mut Vec<PageSpan>, one: PageSpan, other: PageSpan) -> Result<(), AllocError>
    ensures { span_end one < 2 ^ 64 → span_end other < 2 ^ 64
        → IfOk result (λ _. found.new.items ≡ found.old.items ++ common_of one other) }
{
    let first = one.first.max(other.first);
    let end = end_of(one).min(end_of(other));
    if first >= end {
        return Ok(());
    }
    let pages = end - first;
    found.push(PageSpan { first, pages })?;
    Ok(())
}

/// The intersection of two ascending lists of spans, as spans each of which is inside one span of
/// either list.
///
/// # Errors
/// `AllocError`: out of memory.
pub fn common_spans(
    alloc: Global,
    ones: &[PageSpan],
    others: &[PageSpan],
) -> Result<Vec<PageSpan>, AllocError>
    ensures common { AreRising 0 ones.now → AreRising 0 others.now
        → IfOk result (λ spans. AreCommon ones.now others.now spans.items) }
{
    let mut found = Vec::new(alloc);
    let mut i = 0;
    let mut j = 0;
    while i < ones.len() && j < others.len() {
        let one = ones[i];
        let other = others[j];
        add_common(&mut found, one, other)?;
        if end_of(one) <= end_of(other) {
            i += 1;
        } else {
            j += 1;
        }
    }
    Ok(found)
}
