//! What a trace meets on a core.
ghost use Rattle.std.specs.Prelude.{◌≡◌, MatchResult, Some, map, true};
ghost use Rattle.numa_traces.specs.Routes.{route_told};
ghost use Rattle.numa_traces.specs.declared.fault.ReplayError.TheVariants as fault;
ghost use Rattle.numaplan_handles.specs.Calls.{Asks};
ghost use Rattle.numaplan_handles.specs.Handles.{core_in};
ghost use Rattle.numaplan_handles.specs.Kinds.{core_of, is_core};
ghost use Rattle.numaplan_handles.specs.Steps.{Compiles};
ghost use Rattle.numaplan_reports.specs.Compared.{IsPlanFor, IsReplayed, Replays};

use numa_plan::Plan;
use numa_space::Space;
use numa_traces::{Access, Replay, ReplayError, RouteCounts, replay_all, routes_of};
use numaplan_handles::{CoreHandle, Kept, compile_kept, core_kept, of_kept};
use std::alloc::Global;

/// The routes of a replay, if there is memory for them.
fn told_routes(alloc: Global, replay: &Replay) -> Result<Vec<RouteCounts>, (usize, ReplayError)>
    ensures { MatchResult result (λ routes. routes.items ≡ map route_told replay.now.tallies)
        (λ ended. ended.1 ≡ fault.NoMemory) }
{
    match routes_of(alloc, replay) {
        Ok(routes) => Ok(routes),
        Err(_) => Err((0, ReplayError::NoMemory)),
    }
}

/// The routes of a trace by the plan of a space, or the place of the first access that can't be
/// replayed.
fn replay_planned(
    alloc: Global,
    space: &Space,
    plan: &Plan,
    trace: &[Access],
) -> Result<Vec<RouteCounts>, (usize, ReplayError)>
    requires plan { IsPlanFor space.now plan.now }
    ensures { IsReplayed (λ routes. routes.items) space.now trace.now result }
{
    let replay = match replay_all(alloc, space.machine(), plan, trace) {
        Ok(replay) => replay,
        Err(ended) => return Err(ended),
    };
    let routes = told_routes(alloc, &replay);
    drop(replay);
    routes
}

/// The same for a core, by the plan of its accepted commands.
fn replay_by(
    kept: &Kept,
    alloc: Global,
    plan: &Plan,
    trace: &[Access],
) -> Result<Vec<RouteCounts>, (usize, ReplayError)>
    requires core { is_core (Some kept.now) ≡ true }
    requires plan { Compiles (core_of (Some kept.now)) plan.now }
    ensures { Replays (λ routes. routes.items) (core_of (Some kept.now)) trace.now result }
{
    replay_planned(alloc, core_kept(kept).space(), plan, trace)
}

/// The same for a core.
fn replay_kept(
    kept: &mut Kept,
    alloc: Global,
    trace: &[Access],
) -> Result<Vec<RouteCounts>, (usize, ReplayError)>
    requires core { is_core (Some kept.old) ≡ true }
    ensures same { kept.new ≡ kept.old }
    ensures replays { Replays (λ routes. routes.items) (core_of (Some kept.old)) trace.now result }
{
    let Ok(plan) = compile_kept(kept, alloc) else {
        return Err((0, ReplayError::NoMemory));
    };
    let answer = replay_by(kept, alloc, &plan, trace);
    drop(plan);
    answer
}

/// The routes of the accesses of a trace, if no page was placed before them, by the plan of all
/// accepted commands: in order of task, then of the CPU's node, then of the pages' node. `None` if
/// the handle is closed.
///
/// # Errors
/// In the `Some`: the place of the first access that can't be replayed, from 0, and why; or
/// `NoMemory`: out of memory.
pub fn replay_core(
    alloc: Global,
    core: &mut CoreHandle,
    trace: &[Access],
) -> Option<Result<Vec<RouteCounts>, (usize, ReplayError)>>
    ensures { Asks (Replays (λ routes. routes.items) (core_in core.old) trace.now)
        (core_in core.old) result (core_in core.new) }
{
    of_kept!(core.handle, alloc, mut kept => replay_kept(&mut kept, alloc, trace))
}
