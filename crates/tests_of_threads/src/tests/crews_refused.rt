//! A crew of which one growth is refused, as in `refused`; and once more, by a gate that counts its
//! calls.
use crate::tests::crew_setting::{Workers, desk, placed, requests};
use crate::tests::crews::Counting;
use crate::tests::refused::mark;
use crate::tests::setting::same;
use numa_fault::{Answer, CrewRefusal, Gate};
use numa_requests::Request;
use std::alloc::Global;
use std::process::Abort;
use std::thread::Threads;

/// A gate that does nothing.
#[derive(Drop)]
struct Open;

impl Gate for Open {
    fn before(&self, _request: usize) {}

    fn after(&self, _request: usize) {}
}

/// How many of the answers are placements.
fn placements(answers: &[Answer]) -> usize {
    answers
        .iter()
        .filter(|answer| placed(Some(*answer)).is_some())
        .count()
}

/// How a run went: its placements.
type Run = Result<usize, CrewRefusal>;

/// A run after a mark.
fn run_once<R: Threads + Abort + Sync, G: Gate + Sync>(
    rt: &R,
    alloc: Global,
    workers: &mut Workers,
    wanted: &[Request],
    gate: &G,
) -> Run {
    mark(rt, alloc);
    match workers.run(rt, alloc, wanted, gate) {
        Ok(answers) => Ok(placements(&answers)),
        Err(refusal) => Err(refusal),
    }
}

/// There are two frames, and none is given up: only one of the runs can have placed the pages.
fn judge(rt: &impl Abort, first: Run, second: Run) {
    let wanted = if first.is_ok() {
        (Ok(2), Ok(0))
    } else {
        (Err(CrewRefusal::NoMemory), Ok(2))
    };
    same(rt, &(first, second), &wanted);
}

#[test]
fn run(rt: HostRuntime) {
    let mut desk = desk(&rt, rt.alloc(), 1, 2);
    let mut workers = Workers::open(&rt, rt.alloc(), &mut desk, 1, 2);
    let wanted = requests(&rt, rt.alloc(), 2);
    let gate = Counting::new(&rt, rt.alloc(), 2);
    let first = run_once(&rt, rt.alloc(), &mut workers, &wanted, &Open);
    let second = run_once(&rt, rt.alloc(), &mut workers, &wanted, &gate);
    drop(workers);
    desk.end();
    judge(&rt, first, second);
    assert!(rt; gate.is_even());
}
