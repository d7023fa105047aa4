//! What a plan answers: a page's nodes, a span's nodes and their counts.
mod checks;
mod plans;

use crate::figures::{Figure, Subject, Timed, print as print_figures};
use crate::many::{FlatRow, ROUND, lists_of, places_in, rows_of};
use crate::plan::checks::{print_spread, print_whole};
use crate::plan::plans::{spread, whole};
use numa_plan::Plan;
use std::alloc::{AllocError, Global};
use std::hint::black_box;
use std::io;
use std::rt::Clock;

/// How many pages are filled: 1 MiB of nodes.
const FILLED: usize = 1_048_576;

/// How often counts are asked for at once.
const COUNTS: u64 = 1_000;

/// A plan of many runs, one of a single run of all pages, as many rows as large as runs, and as
/// many bytes as are filled, twice.
#[derive(Drop)]
struct TwoPlans {
    rows: Vec<FlatRow>,
    out: Vec<u8>,
    other: Vec<u8>,
    spread: Plan,
    whole: Plan,
}

/// What is timed.
enum Call {
    /// The lists that `choice` lends, of pages that jump over all runs and holes.
    Choice,
    /// The places that std's partition point finds among the rows.
    Place,
    /// `fill` for the task of this number.
    Fill(u32),
    /// std's fill of as many bytes.
    Set,
    /// A copy of as many bytes.
    Copy,
    /// `counts` of this many pages.
    Counts(u64),
}

static FIGURES: [Figure<Call>; 4] = [
    (Call::Choice, Call::Place),
    (Call::Fill(2), Call::Set),
    (Call::Fill(1), Call::Copy),
    (Call::Counts(17_179_869_184), Call::Counts(8)),
];

impl<R: Print> Subject<R> for TwoPlans {
    type Call = Call;

    fn checksums(&mut self, rt: &R) -> io::Result<()> {
        print_spread(rt, &self.spread)?;
        print_whole(rt, &self.whole)
    }

    fn make(&mut self, _rt: &R, call: &Call) -> u64 {
        match call {
            Call::Choice => lists_of(&self.spread, ROUND),
            Call::Place => places_in(&self.rows),
            Call::Fill(task) => u64::from(self.whole.fill(*task, 4_099, 2, &mut self.out).is_ok()),
            Call::Set => set(&mut self.out),
            Call::Copy => copy(&mut self.out, &self.other),
            Call::Counts(pages) => counts_of(&self.whole, *pages),
        }
    }

    fn settle(&mut self) {}
}

impl Timed for Call {
    fn told(&self) -> (&'static str, u64) {
        match self {
            Call::Choice => ("choice", ROUND),
            Call::Place => ("partition_point of rows as large as runs", ROUND),
            Call::Fill(2) => ("fill of 1 MiB of pages on one node", 1),
            Call::Fill(_) => ("fill of 1 MiB of pages in turn", 1),
            Call::Set => ("std's fill", 1),
            Call::Copy => ("a copy", 1),
            Call::Counts(8) => ("counts of 8 pages", COUNTS),
            Call::Counts(_) => ("counts of 2^34 pages in turn", COUNTS),
        }
    }
}

/// One of the bytes.
fn one_of(bytes: &[u8]) -> u64 {
    match bytes.first() {
        Some(byte) => u64::from(*byte),
        None => 0,
    }
}

/// Fills all bytes; one of them.
#[inline(never)]
fn set(out: &mut [u8]) -> u64 {
    out.fill(black_box(2));
    one_of(out)
}

/// Copies all bytes; one of them.
#[inline(never)]
fn copy(out: &mut [u8], other: &[u8]) -> u64 {
    if out.len() == other.len() {
        out.copy_from_slice(other);
    }
    one_of(out)
}

/// Asks for the counts of `pages` pages, from another page on each time. Returns how many of all
/// these pages are on node 0.
fn counts_of(plan: &Plan, pages: u64) -> u64 {
    let mut sum = 0u64;
    for place in 0..COUNTS {
        if let Ok(counts) = plan.counts(1, black_box(4_099 + place), pages, 2) {
            sum = sum.wrapping_add(counts[0]);
        }
    }
    sum
}

/// A vector of zeros.
fn zeros(alloc: Global) -> Result<Vec<u8>, AllocError> {
    vec![in alloc; 0u8; FILLED]
}

/// Both plans.
fn pair_of(alloc: Global) -> Option<(Plan, Plan)> {
    let spread = spread(alloc)?;
    let Some(whole) = whole(alloc) else {
        drop(spread);
        return None;
    };
    Some((spread, whole))
}

fn two_plans(alloc: Global) -> Option<TwoPlans> {
    let rows = rows_of(alloc, 1).ok()?;
    let out = zeros(alloc).ok()?;
    let other = zeros(alloc).ok()?;
    let (spread, whole) = pair_of(alloc)?;
    Some(TwoPlans {
        rows,
        out,
        other,
        spread,
        whole,
    })
}

/// Prints what the plans answer, or how long that takes.
pub fn print<R: Print + Clock>(rt: &R, alloc: Global, measures: bool) -> io::Result<()> {
    print_figures(rt, two_plans(alloc), measures, &FIGURES)
}
