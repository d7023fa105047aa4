//! Pools of two nodes with one frame each, and a worker at them.
ghost use Rattle.std.specs.Prelude.{◌≡◌};

use crate::tests::setting::{machine_of, new_reader, same};
use numa_fault::{FaultRefusal, FaultWorker, MigrateRefusal, SpanRefusal};
use numa_pool::Pools;
use numa_publish::Desk;
use numa_requests::{Placement, Request};
use std::alloc::Global;
use std::process::Abort;

/// What a fault is answered.
pub type Answered = Result<Placement, FaultRefusal>;

/// Pools of their own, and a worker at them.
#[derive(Drop)]
pub struct Placing {
    pools: Pools,
    worker: FaultWorker,
    ghost same: { worker.seat.table ≡ pools.table },
}

impl Placing {
    /// Pools in which each frame is free, and a worker with a new reader.
    pub fn open(rt: &impl Abort, alloc: Global, desk: &mut Desk) -> Placing {
        let machine = machine_of(rt, alloc, 1);
        let (pools, seat) = Pools::open(alloc, &machine).expect(rt, "memory");
        let worker = FaultWorker::new(new_reader(rt, desk), seat);
        Placing { pools, worker }
    }

    /// Serves a request.
    pub fn fault(&mut self, request: Request) -> Answered {
        self.worker.fault(&self.pools, request)
    }

    /// Serves a request, which must be answered so.
    pub fn serve(&mut self, rt: &impl Abort, request: Request, want: Answered) {
        same(rt, &self.fault(request), &want);
    }

    /// Moves the page of a placement to a node, which must be answered so.
    pub fn migrate_as(
        &mut self,
        rt: &impl Abort,
        placement: Placement,
        node: u8,
        want: Result<Placement, MigrateRefusal>,
    ) {
        assert!(rt; self.worker.owns(&placement));
        same(
            rt,
            &self.worker.migrate(&self.pools, placement, node),
            &want,
        );
    }

    /// Serves a span of task 1 for faults on this node.
    pub fn span(
        &mut self,
        alloc: Global,
        cpu: u32,
        first: u64,
        pages: usize,
        out: &mut Vec<Placement>,
    ) -> Result<u64, SpanRefusal> {
        self.worker
            .fault_span(alloc, &self.pools, 1, first, pages, cpu, out)
    }

    /// Whether the worker has the placement's frame.
    pub fn owns(&self, placement: &Placement) -> bool {
        self.worker.owns(placement)
    }

    /// Gives up the placement's frame, if the worker has it.
    pub fn release(&mut self, placement: Placement) {
        if self.worker.owns(&placement) {
            self.worker.release(&self.pools, placement);
        }
    }

    /// The end of the pools: how many frames of the two nodes are taken, and whether the worker has
    /// them all.
    pub fn close(self) -> (u32, u32, bool) {
        let Placing { pools, worker } = self;
        let (_, seat) = worker.into_parts();
        let closed = pools.close(seat);
        (closed.taken[0], closed.taken[1], closed.alone)
    }
}
