//! Crews of fault workers.
use crate::tests::crew_setting::{Workers, desk, placed, requests};
use crate::tests::setting::same;
use numa_fault::{Answer, CrewRefusal, Gate};
use numa_requests::Request;
use std::alloc::Global;
use std::process::Abort;
use std::sync::Wait;
use std::sync::atomic::{AtomicU64, Ordering};
use std::thread;
use std::thread::Threads;

/// Lets request 0 begin first and end last. It counts its calls, and the waits that ran out.
#[derive(Drop)]
struct Crossed {
    before: [AtomicU64; 2],
    after: [AtomicU64; 2],
    late: AtomicU64,
}

impl Crossed {
    /// One of which no call was made.
    fn new() -> Crossed {
        Crossed {
            before: [AtomicU64::new(0), AtomicU64::new(0)],
            after: [AtomicU64::new(0), AtomicU64::new(0)],
            late: AtomicU64::new(0),
        }
    }

    /// Waits until the call was made.
    fn wait_for(&self, calls: &AtomicU64) {
        for _ in 0..10_000_000u64 {
            if calls.load(Ordering::SeqCst) > 0 {
                return;
            }
            thread::yield_now();
        }
        self.late.fetch_add(1, Ordering::SeqCst);
    }
}

impl Gate for Crossed {
    fn before(&self, request: usize) {
        if request == 0 {
            self.before[0].fetch_add(1, Ordering::SeqCst);
            self.wait_for(&self.after[1]);
        } else {
            self.before[1].fetch_add(1, Ordering::SeqCst);
            self.wait_for(&self.before[0]);
        }
    }

    fn after(&self, request: usize) {
        if request == 0 {
            self.after[0].fetch_add(1, Ordering::SeqCst);
        } else {
            self.after[1].fetch_add(1, Ordering::SeqCst);
        }
    }
}

/// `count` workers serve the requests, on a machine of two nodes of `frames` frames, with `pages`
/// pages mapped.
fn run_crew<R: Threads + Wait + Abort + Sync, G: Gate + Sync>(
    rt: &R,
    alloc: Global,
    frames: u32,
    pages: u64,
    count: usize,
    wanted: &[Request],
    gate: &G,
) -> Result<Vec<Answer>, CrewRefusal> {
    let mut desk = desk(rt, alloc, frames, pages);
    let mut workers = Workers::open(rt, alloc, &mut desk, frames, count);
    let answers = workers.run(rt, alloc, wanted, gate);
    drop(workers);
    desk.end();
    answers
}

/// Each of the gate's calls was made once, and no wait ran out.
fn judge(rt: &impl Abort, gate: &Crossed) {
    let Crossed {
        before,
        after,
        late,
    } = gate;
    let calls = [
        before[0].load(Ordering::SeqCst),
        before[1].load(Ordering::SeqCst),
        after[0].load(Ordering::SeqCst),
        after[1].load(Ordering::SeqCst),
    ];
    same(rt, &(calls, late.load(Ordering::SeqCst)), &([1; 4], 0));
}

/// Page 16 was placed on node 1, and page 17 on node 0.
fn expect_crossed(rt: &impl Abort, answers: &[Answer]) {
    let pages = (placed(answers.first()), placed(answers.get(1)));
    let wanted = (Some((16, 1)), Some((17, 0)));
    same(rt, &(answers.len(), pages), &(2, wanted));
}

#[test]
fn crew_crossed(rt: HostRuntime) {
    let gate = Crossed::new();
    let wanted = requests(&rt, rt.alloc(), 2);
    let answers = run_crew(&rt, rt.alloc(), 1, 3, 2, &wanted, &gate).expect(&rt, "answers");
    expect_crossed(&rt, &answers);
    judge(&rt, &gate);
}

/// Counts for each request its calls of `before`, and 256 for each call of `after`.
#[derive(Drop)]
pub struct Counting {
    calls: Vec<AtomicU64>,
}

impl Counting {
    /// A gate for `requests` requests.
    pub fn new(rt: &impl Abort, alloc: Global, requests: u64) -> Counting {
        let mut calls = Vec::new(alloc);
        for _ in 0..requests {
            calls.push(AtomicU64::new(0)).expect(rt, "memory");
        }
        Counting { calls }
    }

    /// Whether each of its two calls was made once for each request.
    pub fn is_even(&self) -> bool {
        self.calls
            .iter()
            .all(|calls| calls.load(Ordering::SeqCst) == 0x101)
    }
}

impl Gate for Counting {
    fn before(&self, request: usize) {
        if let Some(calls) = self.calls.get(request) {
            calls.fetch_add(1, Ordering::SeqCst);
        }
    }

    fn after(&self, request: usize) {
        if let Some(calls) = self.calls.get(request) {
            calls.fetch_add(0x100, Ordering::SeqCst);
        }
    }
}

/// How many of the answers are a placement of the page of the request at their place.
fn in_place(wanted: &[Request], answers: &[Answer]) -> usize {
    let mut right = 0usize;
    for (request, answer) in wanted.iter().zip(answers) {
        if placed(Some(answer)).map(|(page, _)| page) == Some(request.page) {
            right = right.saturating_add(1);
        }
    }
    right
}

/// `count` workers serve requests for `pages` pages, with a frame for each: how many answers there
/// are, how many of them are in their place, and whether the gate was called as it must be.
fn serve_all<R: Threads + Wait + Abort + Sync>(
    rt: &R,
    alloc: Global,
    count: usize,
    pages: u64,
) -> (usize, usize, bool) {
    let wanted = requests(rt, alloc, pages);
    let gate = Counting::new(rt, alloc, pages);
    let answers = run_crew(rt, alloc, 256, 300, count, &wanted, &gate).expect(rt, "answers");
    (answers.len(), in_place(&wanted, &answers), gate.is_even())
}

#[test]
fn answers_in_place(rt: HostRuntime) {
    for (count, pages) in [(3, 5u16), (16, 3), (1, 300), (1, 0)] {
        let all = usize::from(pages);
        let found = serve_all(&rt, rt.alloc(), count, u64::from(pages));
        same(&rt, &(count, found), &(count, (all, all, true)));
    }
}
