//! The report of a replay as CSV: a record for each route of each phase, or of each range. Accesses
//! to pages that found no frame have no node.
use crate::moments::{Moment, TakeRoute, moment_before, take_between};
use crate::range_parts::{PageSpan, RangePart, RangesMet, busiest, routes_in};
use crate::report::place_of;
use crate::tallies::{AccessCounts, Route};
use itoa::Buffer;
use numa_machine::Machine;
use numa_sheets::{Records, Written};
use std::alloc::{AllocError, Global};

/// The header record, and that of records by range.
const HEAD: &[u8] = b"phase,task,cpu,node,distance,accesses,placed,exhausted\n";

const RANGE_HEAD: &[u8] = b"start,end,cpu,node,distance,accesses,placed,exhausted\n";

/// What records are of, which their first two fields say: of a phase and the route's task, or of a
/// range.
#[derive(Clone, Copy)]
enum Front<'a> {
    Phase(&'a [u8]),
    Range(PageSpan),
}

/// Records of a phase or a range.
#[derive(Drop)]
struct RouteRecords<'a> {
    machine: &'a Machine,
    front: Front<'a>,
    records: Records,
}

impl<'a> RouteRecords<'a> {
    /// No records.
    fn new(alloc: Global, machine: &'a Machine, front: Front<'a>) -> RouteRecords<'a> {
        RouteRecords {
            machine,
            front,
            records: Records::new(alloc),
        }
    }

    /// Writes the record of a route with the two fields that it begins with, the texts of its node
    /// and its distance, and the numbers of its faults.
    fn put_fields<'b>(
        &mut self,
        first: &'b [u8],
        second: &'b [u8],
        cpu: u32,
        place: [&str; 2],
        accesses: u64,
        faults: [u64; 2],
    ) {
        let mut number = Buffer::new();
        let mut count = Buffer::new();
        let mut placed = Buffer::new();
        let mut exhausted = Buffer::new();
        self.records.put(&[
            first,
            second,
            number.format(cpu).as_bytes(),
            place[0].as_bytes(),
            place[1].as_bytes(),
            count.format(accesses).as_bytes(),
            placed.format(faults[0]).as_bytes(),
            exhausted.format(faults[1]).as_bytes(),
        ]);
    }

    /// Writes the record of a route with the texts of its node and its distance, and the numbers of
    /// its faults.
    fn put(&mut self, route: &Route, place: [&str; 2], accesses: u64, faults: [u64; 2]) {
        let mut one = Buffer::new();
        let mut other = Buffer::new();
        let (cpu, task) = (route.1, route.0);
        match self.front {
            Front::Phase(phase) => {
                let task = one.format(task).as_bytes();
                self.put_fields(phase, task, cpu, place, accesses, faults);
            }
            Front::Range(span) => {
                let (start, end) = span.addresses();
                let start = one.format(start).as_bytes();
                let end = other.format(end).as_bytes();
                self.put_fields(start, end, cpu, place, accesses, faults);
            }
        }
    }
}

impl TakeRoute for RouteRecords<'_> {
    fn take_route(&mut self, route: &Route, counts: &AccessCounts) {
        let Some((node, distance)) = place_of(self.machine, route.1, route.2) else {
            self.put(route, ["", ""], counts.accesses, [0, counts.faults]);
            return;
        };
        let mut first = Buffer::new();
        let mut second = Buffer::new();
        let place = [first.format(node), second.format(distance)];
        self.put(route, place, counts.accesses, [counts.faults, 0]);
    }
}

/// Writes the records of what was counted between two moments.
fn put_between(
    text: &mut Written,
    machine: &Machine,
    before: Option<&Moment<'_>>,
    after: &Moment<'_>,
) {
    let phase = match after.text {
        Some(phase) => phase,
        None => b"".as_slice(),
    };
    let mut of_phase = RouteRecords::new(text.alloc(), machine, Front::Phase(phase));
    take_between(&mut of_phase, before, after);
    of_phase.records.end(text);
}

/// The records of each phase behind a header. Of that which no mark closes the text is empty.
pub(crate) fn records_text(
    alloc: Global,
    machine: &Machine,
    moments: &[Moment<'_>],
) -> Result<Vec<u8>, AllocError> {
    let mut text = Written::new(alloc);
    text.put(HEAD);
    for number in 0..moments.len() {
        let before = moment_before(moments, number);
        put_between(&mut text, machine, before, &moments[number]);
    }
    text.take()
}

/// Writes the records of a range.
fn put_part(
    text: &mut Written,
    machine: &Machine,
    span: PageSpan,
    routes: &[(Route, AccessCounts)],
) {
    let mut of_range = RouteRecords::new(text.alloc(), machine, Front::Range(span));
    for (route, counts) in routes {
        of_range.take_route(route, counts);
    }
    of_range.records.end(text);
}

/// The records of each range behind a header, the busiest first.
pub(crate) fn range_records_text(
    alloc: Global,
    machine: &Machine,
    met: RangesMet<'_>,
) -> Result<Vec<u8>, AllocError> {
    let mut text = Written::new(alloc);
    text.put(RANGE_HEAD);
    let routes = routes_in(alloc, met.tallies)?;
    let parts: Vec<RangePart> = busiest(alloc, routes.as_slice())?;
    for part in &parts {
        let of_part = routes.as_slice().get(part.begin..part.behind);
        if let (Some(span), Some(of_part)) = (part.span(met.spans), of_part) {
            put_part(&mut text, machine, span, of_part);
        }
    }
    text.take()
}
