//! Workers that move their pages between two nodes: alone, and beside each other.
ghost use Rattle.std.specs.Prelude.{◌≡◌};
ghost use Rattle.std.specs.List.{All};
ghost use Rattle.numa_fault.specs.declared.worker.FaultWorker.{FaultWorker};

use crate::tests::crew_setting::{Workers, desk as crew_desk, requests};
use crate::tests::crews::Counting;
use crate::tests::one_frame::{desk, on, placed};
use crate::tests::placing::Placing;
use crate::tests::setting::same;
use numa_fault::{Answer, FaultRefusal, FaultWorker, MigrateRefusal};
use numa_machine::Frame;
use numa_pool::Pools;
use numa_requests::{Placement, Request};
use std::alloc::Global;
use std::process::Abort;
use std::sync::Wait;
use std::sync::atomic::{AtomicU64, Ordering};
use std::thread;
use std::thread::Threads;

/// The placement of a page that a fault put on node 0, once it went to node 1.
fn moved(page: u64) -> Placement {
    Placement {
        node: 1,
        frame: Frame { node: 1, number: 0 },
        ..placed(page, 0, 0)
    }
}

#[test]
fn to_the_other_node_and_no_further(rt: HostRuntime) {
    let mut desk = desk(&rt, rt.alloc());
    let mut placing = Placing::open(&rt, rt.alloc(), &mut desk);
    placing.serve(&rt, on(16), Ok(placed(16, 0, 0)));
    placing.migrate_as(&rt, placed(16, 0, 0), 1, Ok(moved(16)));
    placing.serve(&rt, on(17), Ok(placed(17, 0, 0)));
    let full = Err(MigrateRefusal::Exhausted(placed(17, 0, 0)));
    placing.migrate_as(&rt, placed(17, 0, 0), 1, full);
    let none = Err(MigrateRefusal::NoSuchNode(placed(17, 0, 0)));
    placing.migrate_as(&rt, placed(17, 0, 0), 2, none);
    desk.end();
    same(&rt, &placing.close(), &(1, 1, true));
}

/// How many pages each worker places, moves twice and gives up.
const TURNS: u64 = 300;

/// What came of the moves of all workers.
#[derive(Drop)]
pub struct Moves {
    wrong: AtomicU64,
    moved: AtomicU64,
    left: AtomicU64,
    unplaced: AtomicU64,
}

impl Moves {
    /// No moves.
    fn new() -> Moves {
        Moves {
            wrong: AtomicU64::new(0),
            moved: AtomicU64::new(0),
            left: AtomicU64::new(0),
            unplaced: AtomicU64::new(0),
        }
    }

    /// One more that came to this, which is wrong unless the test holds.
    fn note(&self, moves: &AtomicU64, is_right: bool) {
        moves.fetch_add(1, Ordering::SeqCst);
        if !is_right {
            self.wrong.fetch_add(1, Ordering::SeqCst);
        }
    }

    /// How many there were, whether some moved, and how many were wrong.
    fn judge(&self) -> (u64, bool, u64) {
        let moved = self.moved.load(Ordering::SeqCst);
        let others = self
            .left
            .load(Ordering::SeqCst)
            .wrapping_add(self.unplaced.load(Ordering::SeqCst));
        let wrong = self.wrong.load(Ordering::SeqCst);
        (moved.wrapping_add(others), moved > 0, wrong)
    }
}

/// Whether a page went to the node, and its placement kept the rest.
fn is_moved(placement: &Placement, page: u64, rank: u32, node: u8) -> bool {
    (placement.version, placement.page, placement.rank) == (1, page, rank)
        && (placement.node, placement.frame.node) == (node, node)
}

/// Moves a page to a node, if that has a frame, and notes what came of it.
fn move_to(
    worker: &mut FaultWorker,
    pools: &Pools,
    placement: Placement,
    node: u8,
    moves: &Moves,
) -> Placement
    requires { worker.old.seat.table ≡ pools.now.table }
    ensures { worker.new.seat.table ≡ worker.old.seat.table }
{
    let page = placement.page;
    let (from, rank) = (placement.node, placement.rank);
    if !worker.owns(&placement) {
        moves.note(&moves.left, false);
        return placement;
    }
    match worker.migrate(pools, placement, node) {
        Ok(there) => {
            moves.note(&moves.moved, is_moved(&there, page, rank, node));
            there
        }
        Err(refusal) => {
            let here = refusal.into_placement();
            moves.note(&moves.left, here.page == page && here.node == from);
            here
        }
    }
}

/// Places a page, moves it to node 1 and to node 0, and gives it up.
fn take_turn(worker: &mut FaultWorker, pools: &Pools, request: Request, moves: &Moves)
    requires { worker.old.seat.table ≡ pools.now.table }
    ensures { worker.new.seat.table ≡ worker.old.seat.table }
{
    let Ok(placement) = worker.fault(pools, request) else {
        moves.note(&moves.unplaced, true);
        moves.note(&moves.unplaced, true);
        return;
    };
    let placement = move_to(worker, pools, placement, 1, moves);
    let placement = move_to(worker, pools, placement, 0, moves);
    if worker.owns(&placement) {
        worker.release(pools, placement);
    }
}

/// Takes all turns of a worker.
fn take_turns(worker: &mut FaultWorker, pools: &Pools, request: Request, moves: &Moves)
    requires { worker.old.seat.table ≡ pools.now.table }
    ensures { worker.new.seat.table ≡ worker.old.seat.table }
{
    for _ in 0..TURNS {
        take_turn(worker, pools, request, moves);
    }
}

/// Takes all turns of all workers, each in a thread of its own.
pub fn take_all_turns<R: Threads + Sync>(
    rt: &R,
    workers: &mut [FaultWorker],
    pools: &Pools,
    moves: &Moves,
)
    requires { All (λ (w : FaultWorker). w.seat.table ≡ pools.now.table) workers.old }
    ensures { All (λ (w : FaultWorker). w.seat.table ≡ pools.now.table) workers.new }
{
    thread::for_each_mut(
        rt,
        workers,
        16,
        &|w, worker: &mut FaultWorker|
            requires { worker.old.seat.table ≡ pools.now.table }
            ensures { worker.new.seat.table ≡ pools.entry.now.table }
        {
            let page = 16u64.wrapping_add(w as u64);
            take_turns(worker, pools, on(page), moves);
        },
    );
}

/// How many of the answers are placements, and how many say that no frame was found.
fn outcomes(answers: &[Answer]) -> (usize, usize) {
    let is_placed = |answer: &&Answer| matches!(answer, Answer::Placed(_));
    let is_exhausted = |answer: &&Answer| matches!(
        answer,
        Answer::Refused(FaultRefusal::Exhausted(_))
    );
    let placed = answers.iter().filter(is_placed).count();
    (placed, answers.iter().filter(is_exhausted).count())
}

/// Three workers move pages at pools of two nodes with three frames each. What the moves came to,
/// and what a crew finds then that wants a frame more than there are.
fn move_beside(
    rt: &(impl Threads + Wait + Abort + Sync),
    alloc: Global,
) -> ((u64, bool, u64), (usize, usize)) {
    let mut desk = crew_desk(rt, alloc, 3, 7);
    let mut workers = Workers::open(rt, alloc, &mut desk, 3, 3);
    let moves = Moves::new();
    workers.migrate(rt, &moves);
    let gate = Counting::new(rt, alloc, 7);
    let answers = workers.run(rt, alloc, &requests(rt, alloc, 7), &gate);
    desk.end();
    (moves.judge(), outcomes(&answers.expect(rt, "answers")))
}

#[test]
fn beside_each_other(rt: HostRuntime) {
    let found = move_beside(&rt, rt.alloc());
    same(&rt, &found, &((3 * 2 * TURNS, true, 0), (6, 1)));
}
