//! Pools with a worker and one more seat.
ghost use Rattle.std.specs.Prelude.{◌≡◌, IfSome};

use crate::fault::setting::{FIRST, machine_of, request_of};
use numa_fault::FaultWorker;
use numa_pool::{PoolSeat, Pools};
use numa_publish::Desk;
use numa_requests::{Placement, Request};
use std::alloc::Global;
use std::hint::black_box;

/// Pools of their own, a worker and a seat at them, and what the worker has placed and keeps.
#[derive(Drop)]
pub struct AtPools {
    alloc: Global,
    kept: Vec<Placement>,
    pools: Pools,
    seat: PoolSeat,
    worker: FaultWorker,
    ghost worker_same: { worker.seat.table ≡ pools.table },
    ghost seat_same: { seat.table ≡ pools.table },
}

/// Places a page and gives its frame up again; 1 if it was placed.
fn fault_and_release(worker: &mut FaultWorker, pools: &Pools, request: Request) -> u64
    requires { worker.old.seat.table ≡ pools.now.table }
    ensures { worker.new.seat.table ≡ pools.now.table }
{
    let Ok(placement) = worker.fault(pools, request) else {
        return 0;
    };
    worker.release(pools, placement);
    1
}

/// Takes a frame of the node and gives it up again: its number.
fn take_and_give(pools: &Pools, seat: &mut PoolSeat, node: u8) -> u64
    requires { seat.old.table ≡ pools.now.table }
    ensures { seat.new.table ≡ pools.now.table }
{
    let Some(frame) = pools.take(seat, node) else {
        return 0;
    };
    pools.give(seat, frame);
    u64::from(frame.number)
}

/// Pools in which each frame is free, and two seats at them.
fn seats(alloc: Global) -> Option<(Pools, PoolSeat, PoolSeat)>
    ensures { IfSome result (λ made.
        (made.1.table ≡ made.0.table) × (made.2.table ≡ made.0.table)) }
{
    let machine = machine_of(alloc)?;
    let (pools, mut seat) = Pools::open(alloc, &machine).ok()?;
    let other = pools.split(alloc, &mut seat).ok()?;
    Some((pools, seat, other))
}

/// A worker of this desk and a seat, at pools in which each frame is free.
pub fn placing_at(alloc: Global, desk: &mut Desk) -> Option<AtPools> {
    let reader = desk.reader().ok()?;
    let (pools, seat, other) = seats(alloc)?;
    let worker = FaultWorker::new(reader, other);
    Some(AtPools {
        alloc,
        kept: Vec::new(alloc),
        pools,
        seat,
        worker,
    })
}

impl AtPools {
    /// `count` faults, each frame given up again; how many were placed.
    pub fn faults(&mut self, count: u64) -> u64 {
        let mut placed = 0u64;
        for place in 0..count {
            let request = black_box(request_of(place));
            let one = fault_and_release(&mut self.worker, &self.pools, request);
            placed = placed.wrapping_add(one);
        }
        placed
    }

    /// `count` frames of nodes 0 to 3 in turn, taken and given up again.
    pub fn takes(&mut self, count: u64) -> u64 {
        let mut sum = 0u64;
        for place in 0..count {
            let node = black_box((place % 4) as u8);
            sum = sum.wrapping_add(take_and_give(&self.pools, &mut self.seat, node));
        }
        sum
    }

    /// Places a page.
    fn fault(&mut self, request: Request) -> Option<Placement> {
        self.worker.fault(&self.pools, request).ok()
    }

    /// Places `pages` pages one by one; how many are kept then.
    pub fn fault_each(&mut self, pages: u64) -> u64 {
        for place in 0..pages {
            if let Some(placement) = self.fault(black_box(request_of(place))) {
                let _ = self.kept.push(placement);
            }
        }
        self.kept.len() as u64
    }

    /// Places `pages` pages by one call; how many are kept then.
    pub fn fault_span(&mut self, pages: usize) -> u64 {
        let first = black_box(FIRST);
        let _ = self.worker.fault_span(self.alloc, &self.pools, 1, first, pages, 0, &mut self.kept);
        self.kept.len() as u64
    }

    /// Gives a frame up again.
    fn release(&mut self, placement: Placement) {
        if self.worker.owns(&placement) {
            self.worker.release(&self.pools, placement);
        }
    }

    /// Gives up all that is kept.
    pub fn release_all(&mut self) {
        for _ in 0..self.kept.len() {
            if let Some(placement) = self.kept.pop() {
                self.release(placement);
            }
        }
    }
}
