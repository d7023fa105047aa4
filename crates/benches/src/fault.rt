//! Page faults compared with their parts, and frames taken and given up compared with bare steps.
mod placing;
mod setting;

use crate::fault::placing::{AtPools, placing_at};
use crate::fault::setting::{desk_of, request_of};
use crate::figures::{Figure, Subject, Timed, print as print_figures};
use numa_plan::Steps;
use numa_publish::{Desk, PlanReader};
use std::alloc::Global;
use std::hint::black_box;
use std::io;
use std::rt::Clock;
use std::sync::atomic::{AtomicU64, Ordering};

/// How many faults are timed at once.
const FAULTS: u64 = 20_000;

/// How many pages a span has.
const PAGES: u64 = 4_096;

/// A worker and a seat at pools, a reader, and a word of no pools.
#[derive(Drop)]
struct Faulting {
    word: AtomicU64,
    reader: Option<PlanReader>,
    placing: AtPools,
}

/// What is timed.
enum Call {
    /// Faults, each frame given up again.
    Fault,
    /// As many choices, takes and gives.
    Parts,
    /// A fault on a span.
    Span,
    /// As many faults.
    Pages,
    /// Frames taken and given up.
    Take,
    /// As many bits of a word set and cleared.
    Bits,
}

static FIGURES: [Figure<Call>; 3] = [
    (Call::Fault, Call::Parts),
    (Call::Span, Call::Pages),
    (Call::Take, Call::Bits),
];

impl<R: Print> Subject<R> for Faulting {
    type Call = Call;

    fn checksums(&mut self, rt: &R) -> io::Result<()> {
        let placed = self.placing.faults(10_000);
        println!(rt; "placed by one worker: {placed}")
    }

    fn make(&mut self, _rt: &R, call: &Call) -> u64 {
        match call {
            Call::Fault => self.placing.faults(FAULTS),
            Call::Parts => ask(&mut self.reader).wrapping_add(self.placing.takes(FAULTS)),
            Call::Span => self.placing.fault_span(PAGES as usize),
            Call::Pages => self.placing.fault_each(PAGES),
            Call::Take => self.placing.takes(FAULTS),
            Call::Bits => bits(&self.word),
        }
    }

    fn settle(&mut self) {
        self.placing.release_all();
    }
}

impl Timed for Call {
    fn told(&self) -> (&'static str, u64) {
        match self {
            Call::Fault => ("fault and release", FAULTS),
            Call::Parts => ("enter, choice, leave, take and give", FAULTS),
            Call::Span => ("fault_span of 4,096 pages", PAGES),
            Call::Pages => ("as many faults, for each page", PAGES),
            Call::Take => ("take and give", FAULTS),
            Call::Bits => ("a bare fetch_or and fetch_and", FAULTS),
        }
    }
}

/// `FAULTS` looks, each with the choice of a page; the sum of the first nodes.
fn choices(mut reader: PlanReader) -> (PlanReader, u64) {
    let mut sum = 0u64;
    for place in 0..FAULTS {
        let request = black_box(request_of(place));
        reader = match reader.enter() {
            Ok(view) => {
                if let Ok(nodes) = view.choice(request, &mut Steps::new()) {
                    sum = sum.wrapping_add(u64::from(nodes[0]));
                }
                view.leave()
            }
            Err(reader) => reader,
        };
    }
    (reader, sum)
}

/// The same by the reader, which stays.
fn ask(place: &mut Option<PlanReader>) -> u64 {
    let Some(reader) = place.take() else {
        return 0;
    };
    let (reader, sum) = choices(reader);
    *place = Some(reader);
    sum
}

/// Sets a bit of the word and clears it, `FAULTS` times.
fn bits(word: &AtomicU64) -> u64 {
    let mut sum = 0u64;
    for _ in 0..FAULTS {
        let found = word.fetch_or(1, Ordering::SeqCst);
        let left = word.fetch_and(!1, Ordering::SeqCst);
        sum = sum.wrapping_add(found ^ left);
    }
    sum
}

/// What is timed at this desk.
fn faulting_at(alloc: Global, desk: &mut Desk) -> Option<Faulting> {
    let placing = placing_at(alloc, desk)?;
    Some(Faulting {
        word: AtomicU64::new(0),
        reader: desk.reader().ok(),
        placing,
    })
}

/// Prints what a worker places, or how long faults take.
pub fn print<R: Print + Clock>(rt: &R, alloc: Global, measures: bool) -> io::Result<()> {
    let Some(mut desk) = desk_of(alloc) else {
        return println!(rt; "no memory");
    };
    let made = faulting_at(alloc, &mut desk);
    let done = print_figures(rt, made, measures, &FIGURES);
    desk.end();
    done
}
