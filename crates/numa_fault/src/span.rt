//! Placing spans of pages by the plan that is published now.
ghost use Rattle.std.specs.Prelude.{◌≡◌, ℕ, ◌+◌, ◌<◌, ◌≤◌, ◌++◌, List, length, slice_index};
ghost use Rattle.std.specs.Prelude.{vec_len, vec_capacity};
ghost use Rattle.numa_requests.specs.declared.placement.Placement.{Placement};
ghost use Rattle.numa_pool.specs.Seats.{SeatView};
ghost use Rattle.numa_space.specs.Policies.{allowed_nodes};
ghost use Rattle.numa_space.specs.Standing.{IsNodeList};
ghost use Rattle.numa_fault.specs.Fault.{list_of};
ghost use Rattle.numa_fault.specs.Span.{request_at, FaultsOnSpan, PlacesEach, SpanIsServed, Stands};
ghost use Rattle.numa_fault.specs.Span.{StopsAt};

use crate::page::place_page;
use crate::refusal::SpanRefusal;
use numa_machine::PlaceRefusal;
use numa_pool::{PoolSeat, Pools};
use numa_publish::{PlanReader, PlanView};
use numa_requests::{Placement, Request};
use std::alloc::Global;

/// A span of pages that a task touches from CPUs of one node: the first page, and their number.
#[derive(Clone, Copy, Drop)]
pub struct Span {
    pub task: u32,
    pub first: u64,
    pub pages: usize,
    pub cpu: u32,
}

/// Places the pages of a span, whose lists begin with these nodes, up to the first one for which no
/// frame is found. Returns how many were placed, and appends their placements.
fn place_each(
    view: &PlanView,
    pools: &Pools,
    seat: &mut PoolSeat,
    span: Span,
    choices: &[u8],
    out: &mut Vec<Placement>,
) -> usize
    requires table { seat.old.table ≡ pools.now.table }
    requires stands { Stands view.now.desk.machine view.now.history span }
    requires all { length choices.now ≡ span.pages }
    requires sound { (k : ℕ) → k < length choices.now
        → IsNodeList (allowed_nodes view.now.desk.machine view.now.history)
        (list_of view.now.desk.machine view.now.history (request_at span k)) }
    requires choices { (k : ℕ) → k < length choices.now → slice_index choices.now k
        ≡ slice_index (list_of view.now.desk.machine view.now.history (request_at span k)) 0 }
    requires room { vec_len out.old + length choices.now ≤ vec_capacity out.old }
    ensures table { seat.new.table ≡ seat.old.table }
    ensures placed { (ps : List Placement) × (middle : SeatView)
        × (out.new.items ≡ out.old.items ++ ps) × (length ps ≡ result) × (result ≤ span.pages)
        × PlacesEach pools.now.frames view.now.desk.machine view.now.history span 0
        seat.old middle ps
        × (result < span.pages → StopsAt pools.now.frames view.now.desk.machine view.now.history
        span result middle seat.new)
        × (result ≡ span.pages → seat.new ≡ middle) }
{
    for (k, choice) in choices.iter().enumerate() {
        let request = Request {
            task: span.task,
            page: span.first + k as u64,
            cpu: span.cpu,
        };
        let Some(placement) = place_page(view, pools, seat, request, *choice) else {
            return k;
        };
        let Ok(()) = out.push(placement) else {
            unreachable!()
        };
    }
    choices.len()
}

/// Places the pages of a span. All allocation comes before the first frame is taken.
fn place_span(
    view: &PlanView,
    alloc: Global,
    pools: &Pools,
    seat: &mut PoolSeat,
    span: Span,
    out: &mut Vec<Placement>,
) -> Result<u64, SpanRefusal>
    requires { seat.old.table ≡ pools.now.table }
    ensures table { seat.new.table ≡ seat.old.table }
    ensures served { SpanIsServed pools.now.frames view.now.desk.machine view.now.history span
        seat.old seat.new out.old.items out.new.items result }
{
    let version = view.version();
    match view.counts(span.task, span.first, span.pages as u64, span.cpu) {
        Ok(_counts) => {}
        Err(PlaceRefusal::BadCpu) => return Err(SpanRefusal::BadCpu),
        Err(PlaceRefusal::Unmapped) => return Err(SpanRefusal::Unmapped(version)),
    }
    let Ok(()) = out.reserve(span.pages) else {
        return Err(SpanRefusal::NoMemory);
    };
    let Ok(mut choices) = Vec::from_elem(alloc, 0u8, span.pages) else {
        return Err(SpanRefusal::NoMemory);
    };
    let Ok(()) = view.fill(span.task, span.first, span.cpu, choices.as_mut_slice()) else {
        unreachable!()
    };
    let done = place_each(view, pools, seat, span, choices.as_slice(), out);
    if done < span.pages {
        return Err(SpanRefusal::Exhausted(version, done));
    }
    Ok(version)
}

/// A fault on a span: enters, and serves the span by the plan that is published now.
pub(crate) fn fault_span_by(
    reader: PlanReader,
    alloc: Global,
    pools: &Pools,
    seat: &mut PoolSeat,
    span: Span,
    out: &mut Vec<Placement>,
) -> (PlanReader, Result<u64, SpanRefusal>)
    requires { seat.old.table ≡ pools.now.table }
    ensures fault { FaultsOnSpan pools.now.frames span
        (record { reader = reader; seat = seat.old })
        (record { reader = result.0; seat = seat.new }) out.old.items out.new.items result.1 }
    ensures table { seat.new.table ≡ seat.old.table }
{
    let view = match reader.enter() {
        Ok(view) => view,
        Err(reader) => return (reader, Err(SpanRefusal::NoView)),
    };
    let answer = place_span(&view, alloc, pools, seat, span, out);
    (view.leave(), answer)
}
