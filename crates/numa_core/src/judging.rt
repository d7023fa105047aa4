//! Judging a Begin.
ghost use Rattle.std.specs.Prelude.{◌≡◌, ◌<◌, ◌≤◌, None, Some, IfOk, IfErr, OnOk, length, vec_len};
ghost use Rattle.numa_core.specs.Judging.{Judges, Lists, cause_at};

use crate::seat::WorkerSeat;
use numa_machine::PlaceRefusal;
use numa_plan::Plan;
use numa_requests::{CoreRefusal, Request};

/// Refuses a worker that has no seat.
pub(crate) fn seated(seats: &Vec<WorkerSeat>, worker: u32) -> Result<(), CoreRefusal>
    ensures ok { OnOk result (worker < vec_len seats.now) }
    ensures err { IfErr result (λ refusal. (refusal ≡ CoreRefusal.NoSuchWorker)
        × (vec_len seats.now ≤ worker)) }
{
    if worker as usize >= seats.len() {
        return Err(CoreRefusal::NoSuchWorker);
    }
    Ok(())
}

/// The refusal of a Begin at this version, from the refusal of its request there.
pub fn cause_at(version: u64, refusal: PlaceRefusal) -> CoreRefusal
    ensures { result ≡ cause_at version refusal }
{
    match refusal {
        PlaceRefusal::BadCpu => CoreRefusal::BadCpu,
        PlaceRefusal::Unmapped => CoreRefusal::Unmapped(version),
    }
}

/// The fallback list for a worker's request in the plan of the newest published version, lent by
/// the plan; or the refusal of the worker's Begin.
pub(crate) fn row_for<'a>(
    plan: &'a Plan,
    seats: &Vec<WorkerSeat>,
    worker: u32,
    request: Request,
) -> Result<&'a [u8], CoreRefusal>
    ensures allowed { OnOk result (Judges plan.now seats.now.items worker request None) }
    ensures listed { IfOk result (λ row. Lists plan.now seats.now.items request row.now) }
    ensures seated { OnOk result (worker < vec_len seats.now) }
    ensures sized { IfOk result (λ row. length row.now ≤ 256) }
    ensures refused { IfErr result (λ refusal.
        Judges plan.now seats.now.items worker request (Some refusal)) }
{
    seated(seats, worker)?;
    if seats[worker as usize].job.is_some() {
        return Err(CoreRefusal::Busy);
    }
    match plan.fallback_list(request.task, request.page, request.cpu) {
        Ok(row) => Ok(row),
        Err(refusal) => Err(cause_at(plan.version(), refusal)),
    }
}
