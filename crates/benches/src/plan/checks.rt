//! Checksums of what the plans answer.
use crate::many::{choices, mixed};
use numa_plan::Plan;
use std::io;

/// What `fill` answers for a span of 10,000 pages.
fn fills(plan: &Plan, task: u32, first: u64) -> u64 {
    let mut out = [9u8; 10_000];
    let mut sum = match plan.fill(task, first, 2, &mut out) {
        Ok(()) => 1,
        Err(_) => 2,
    };
    for node in out {
        sum = mixed(sum, u64::from(node));
    }
    sum
}

/// What `counts` answers for a span.
fn counts(plan: &Plan, task: u32, first: u64, pages: u64) -> u64 {
    match plan.counts(task, first, pages, 2) {
        Ok(counts) => mixed_counts(&counts),
        Err(_) => 2,
    }
}

/// A number in which all counts have part.
fn mixed_counts(counts: &[u64]) -> u64 {
    let mut sum = 1u64;
    for count in counts {
        sum = mixed(sum, *count);
    }
    sum
}

fn print_choices(rt: &impl Print, spread: &Plan) -> io::Result<()> {
    let runs = spread.run_count();
    let sum = choices(spread, 2);
    println!(rt; "choice of each page, {runs} runs: {sum}")
}

/// Prints the checksums of the plan of many runs.
pub fn print_spread(rt: &impl Print, spread: &Plan) -> io::Result<()> {
    print_choices(rt, spread)?;
    let hole = counts(spread, 1, 0, 4);
    let run = counts(spread, 1, 4, 3);
    println!(rt; "counts of a span with a hole {hole}, of a run {run}")
}

/// Prints two checksums of a call.
fn print_both(rt: &impl Print, call: &str, turns: u64, own: u64) -> io::Result<()> {
    println!(rt; "{call} in turn {turns}, of the local node {own}")
}

/// Prints those of the plan of one run.
pub fn print_whole(rt: &impl Print, whole: &Plan) -> io::Result<()> {
    let turns = fills(whole, 1, 1_000_003);
    let own = fills(whole, 2, 1_000_003);
    print_both(rt, "fill", turns, own)?;
    let turns = counts(whole, 1, 5, 17_179_869_184);
    let own = counts(whole, 2, 5, 17_179_869_184);
    print_both(rt, "counts", turns, own)
}
