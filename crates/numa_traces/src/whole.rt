//! Replaying the accesses of a trace that is at hand.
ghost use Rattle.std.specs.Prelude.{IfErr, IfOk, reverse};
ghost use Rattle.numa_traces.specs.Replaying.{IsReplay};
ghost use Rattle.numa_traces.specs.Whole.{EndsTrace};

use crate::access::Access;
use crate::fault::ReplayError;
use crate::replay::Replay;
use numa_machine::Machine;
use numa_plan::Plan;
use std::alloc::Global;

/// Replays accesses in order, on a machine where no page is placed. The plan is for the machine.
///
/// # Errors
/// The place of the first access that can't be replayed, from 0, and why.
pub fn replay_all(
    alloc: Global,
    machine: &Machine,
    plan: &Plan,
    trace: &[Access],
) -> Result<Replay, (usize, ReplayError)>
    ensures ok { IfOk result (IsReplay machine.now plan.now (reverse trace.now)) }
    ensures err { IfErr result (λ ended.
        EndsTrace machine.now plan.now trace.now ended.0 ended.1) }
{
    let Ok(mut replay) = Replay::new(alloc, machine) else {
        return Err((0, ReplayError::NoMemory));
    };
    for place in 0..trace.len() {
        if let Err(why) = replay.take(plan, trace[place]) {
            drop(replay);
            return Err((place, why));
        }
    }
    Ok(replay)
}
