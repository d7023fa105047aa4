//! The workers of a storm.
ghost use Rattle.std.specs.Prelude.{◌≡◌, ◌<◌, IfSome, length};
ghost use Rattle.std.specs.List.{All};
ghost use Rattle.numa_fault.specs.declared.worker.FaultWorker.{FaultWorker};

use crate::gate::Together;
use numa_fault::{Answer, Crew, FaultWorker};
use numa_pool::{PoolSeat, Pools};
use numa_publish::{DeskName, Receipt, SharedDesk};
use numa_requests::Request;
use std::alloc::Global;
use std::sync::Wait;
use std::thread::Threads;

/// A worker with this seat, whose reader has learnt the receipt.
fn worker<K: DeskName, R: Wait>(
    rt: &R,
    desk: &SharedDesk<K>,
    receipt: &Receipt,
    seat: PoolSeat,
) -> Option<FaultWorker>
    requires { receipt.now.desk ≡ K.desk }
    ensures { IfSome result (λ w. w.seat ≡ seat) }
{
    let reader = desk.reader(rt).ok()?;
    Some(FaultWorker::new(reader.learn(receipt), seat))
}

/// Adds `count` workers, each with a seat that is split off.
fn add_workers<K: DeskName, R: Wait>(
    rt: &R,
    alloc: Global,
    desk: &SharedDesk<K>,
    receipt: &Receipt,
    pools: &Pools,
    seat: &mut PoolSeat,
    workers: &mut Vec<FaultWorker>,
    count: u32,
) -> Option<()>
    requires desk { receipt.now.desk ≡ K.desk }
    requires seat { seat.old.table ≡ pools.now.table }
    requires seats { All (λ (w : FaultWorker). w.seat.table ≡ pools.now.table) workers.old.items }
    ensures seat { seat.new.table ≡ pools.now.table }
    ensures seats { All (λ (w : FaultWorker). w.seat.table ≡ pools.now.table) workers.new.items }
{
    for _ in 0..count {
        let other = pools.split(alloc, seat).ok()?;
        workers.push(worker(rt, desk, receipt, other)?).ok()?;
    }
    Some(())
}

/// `count` workers, at least one, the last of them with this seat. `None` if a call is refused.
pub fn workers<K: DeskName, R: Wait>(
    rt: &R,
    alloc: Global,
    desk: &SharedDesk<K>,
    receipt: &Receipt,
    pools: &Pools,
    seat: PoolSeat,
    count: u32,
) -> Option<Vec<FaultWorker>>
    requires desk { receipt.now.desk ≡ K.desk }
    requires seat { seat.table ≡ pools.now.table }
    ensures { IfSome result (λ ws.
        All (λ (w : FaultWorker). w.seat.table ≡ pools.now.table) ws.items) }
{
    let mut first = seat;
    let mut workers = Vec::new(alloc);
    let others = count.saturating_sub(1);
    add_workers(
        rt,
        alloc,
        desk,
        receipt,
        pools,
        &mut first,
        &mut workers,
        others,
    )?;
    workers.push(worker(rt, desk, receipt, first)?).ok()?;
    Some(workers)
}

/// Lets the crew serve the requests, and returns the workers and the answers. `None` if the crew is
/// refused.
pub fn serve<R: Threads + Sync>(
    rt: &R,
    alloc: Global,
    workers: Vec<FaultWorker>,
    pools: &Pools,
    requests: &[Request],
    gate: &Together,
) -> (Vec<FaultWorker>, Option<Vec<Answer>>)
    requires { All (λ (w : FaultWorker). w.seat.table ≡ pools.now.table) workers.items }
    ensures { All (λ (w : FaultWorker). w.seat.table ≡ pools.now.table) result.0.items }
{
    let mut workers = workers;
    let answers = Crew::run(rt, alloc, &mut workers, pools, requests, gate);
    gate.end();
    (workers, answers.ok())
}

/// Joins the seats of all workers. `None` without workers.
pub fn joined(pools: &Pools, workers: Vec<FaultWorker>) -> Option<PoolSeat>
    requires { All (λ (w : FaultWorker). w.seat.table ≡ pools.now.table) workers.items }
    ensures { IfSome result (λ seat. seat.table ≡ pools.now.table) }
{
    let mut workers = workers;
    let (_, mut seat) = workers.pop()?.into_parts();
    while let Some(worker) = workers.pop() {
        let (_, other) = worker.into_parts();
        pools.join(&mut seat, other);
    }
    Some(seat)
}
