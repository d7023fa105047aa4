//! Desks and workers of the tests of crews.
ghost use Rattle.std.specs.Prelude.{◌≡◌};
ghost use Rattle.std.specs.List.{All};
ghost use Rattle.numa_fault.specs.declared.worker.FaultWorker.{FaultWorker};

use crate::tests::migrating::{Moves, take_all_turns};
use crate::tests::setting::{desk_of, machine_of, new_reader, publish_as, publish_map};
use numa_fault::{Answer, Crew, CrewRefusal, FaultWorker, Gate};
use numa_pool::{PoolSeat, Pools};
use numa_publish::{Desk, PlanReader};
use numa_requests::Request;
use std::alloc::Global;
use std::process::Abort;
use std::sync::Wait;
use std::thread::Threads;

/// A desk of two nodes of `frames` frames, with places for 17 readers. Version 1 maps `pages`
/// pages from page 16 on.
pub fn desk(rt: &(impl Wait + Abort), alloc: Global, frames: u32, pages: u64) -> Desk {
    let mut desk = desk_of(rt, alloc, frames, 17);
    publish_map(rt, &mut desk, pages);
    desk
}

/// A reader that has learnt what is published.
fn reader(rt: &(impl Wait + Abort), desk: &mut Desk) -> PlanReader {
    let receipt = publish_as(rt, desk, 1);
    new_reader(rt, desk).learn(&receipt)
}

/// A worker whose reader has learnt what is published, with a seat that is split off.
fn worker(
    rt: &(impl Wait + Abort),
    alloc: Global,
    desk: &mut Desk,
    pools: &Pools,
    seat: &mut PoolSeat,
) -> FaultWorker
    requires { seat.old.table ≡ pools.now.table }
    ensures table { seat.new.table ≡ pools.now.table }
    ensures worker { result.seat.table ≡ pools.now.table }
{
    let other = pools.split(alloc, seat).expect(rt, "memory");
    FaultWorker::new(reader(rt, desk), other)
}

/// `count` workers.
fn workers_of(
    rt: &(impl Wait + Abort),
    alloc: Global,
    desk: &mut Desk,
    pools: &Pools,
    seat: &mut PoolSeat,
    count: usize,
) -> Vec<FaultWorker>
    requires { seat.old.table ≡ pools.now.table }
    ensures { All (λ (w : FaultWorker). w.seat.table ≡ pools.now.table) result.items }
{
    let mut workers = Vec::new(alloc);
    for _ in 0..count {
        let worker = worker(rt, alloc, desk, pools, seat);
        workers.push(worker).expect(rt, "memory");
    }
    workers
}

/// Pools of their own, and workers at them.
#[derive(Drop)]
pub struct Workers {
    pools: Pools,
    workers: Vec<FaultWorker>,
    ghost same: { All (λ (w : FaultWorker). w.seat.table ≡ pools.table) workers.items },
}

impl Workers {
    /// Workers at pools with free frames on each of two nodes.
    pub fn open(
        rt: &(impl Wait + Abort),
        alloc: Global,
        desk: &mut Desk,
        frames: u32,
        count: usize,
    ) -> Workers {
        let machine = machine_of(rt, alloc, frames);
        let (pools, mut seat) = Pools::open(alloc, &machine).expect(rt, "memory");
        let workers = workers_of(rt, alloc, desk, &pools, &mut seat, count);
        Workers { pools, workers }
    }

    /// Each worker moves pages, beside the others.
    pub fn migrate<R: Threads + Sync>(&mut self, rt: &R, moves: &Moves) {
        take_all_turns(rt, &mut self.workers, &self.pools, moves);
    }

    /// Serves the requests as a crew.
    pub fn run<R: Threads + Sync, G: Gate + Sync>(
        &mut self,
        rt: &R,
        alloc: Global,
        wanted: &[Request],
        gate: &G,
    ) -> Result<Vec<Answer>, CrewRefusal> {
        Crew::run(rt, alloc, &mut self.workers, &self.pools, wanted, gate)
    }
}

/// A request of task 1 on node 0 for each page from page 16 on.
pub fn requests(rt: &impl Abort, alloc: Global, pages: u64) -> Vec<Request> {
    let mut requests = Vec::new(alloc);
    for place in 0..pages {
        let request = Request {
            task: 1,
            page: place.wrapping_add(16),
            cpu: 0,
        };
        requests.push(request).expect(rt, "memory");
    }
    requests
}

/// The page that was placed and the node that it got, by version 1.
pub fn placed(answer: Option<&Answer>) -> Option<(u64, u8)> {
    match answer {
        Some(Answer::Placed(placement)) if placement.version == 1 => {
            Some((placement.page, placement.node))
        }
        _ => None,
    }
}
