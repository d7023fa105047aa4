//! Serving the requests of one worker of a crew.
ghost use Rattle.std.specs.Prelude.{◌≡◌, ◌+◌, ◌/◌, ◌<◌, ◌≤◌, [], length, reverse};
ghost use Rattle.numa_fault.specs.Crew.{column, result_of, Serves};
ghost use Rattle.numa_fault.specs.Fault.{Faults};
ghost use Rattle.numa_fault.specs.Worker.{parts_of};

use crate::answer::Answer;
use crate::crew::Gate;
use crate::worker::FaultWorker;
use numa_pool::Pools;
use numa_requests::Request;

/// Serves one request.
fn answer(worker: &mut FaultWorker, pools: &Pools, request: Request) -> Answer
    requires { worker.old.seat.table ≡ pools.now.table }
    ensures answer { Faults pools.now.frames request
        (parts_of worker.old) (parts_of worker.new) (result_of result) }
    ensures table { worker.new.seat.table ≡ worker.old.seat.table }
    ensures kept { (worker.new.kept ≡ worker.old.kept) × (worker.new.room ≡ worker.old.room) }
{
    match worker.fault(pools, request) {
        Ok(placement) => Answer::Placed(placement),
        Err(refusal) => Answer::Refused(refusal),
    }
}

/// Serves the requests `first`, `first + step`, `first + 2 step`, .., in this order, and keeps
/// their answers, the last one first.
pub(crate) fn serve<G: Gate>(
    worker: &mut FaultWorker,
    pools: &Pools,
    requests: &[Request],
    gate: &G,
    first: usize,
    step: usize,
)
    requires table { worker.old.seat.table ≡ pools.now.table }
    requires step { (0 < step) × (step ≤ 16) }
    requires room { (worker.old.kept ≡ [])
        × (length requests.now / step + 1 ≤ worker.old.room) }
    ensures table { worker.new.seat.table ≡ worker.old.seat.table }
    ensures served { Serves pools.now.frames (column step first requests.now)
        (parts_of worker.old) (parts_of worker.new) (reverse worker.new.kept) }
{
    let mut request = first;
    while request < requests.len() {
        gate.before(request);
        let answer = answer(worker, pools, requests[request]);
        gate.after(request);
        worker.note(answer);
        request += step;
    }
    worker.turn_round();
}
