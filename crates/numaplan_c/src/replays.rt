//! What a trace meets on a core.
ghost use Rattle.std.specs.Prelude.{◌≡◌, ℕ, List, Result};
ghost use Rattle.numa_traces.specs.declared.fault.ReplayError.{ReplayError};
ghost use Rattle.numa_traces.specs.declared.routes.RouteCounts.{RouteCounts};
ghost use Rattle.numaplan_c.specs.Border.{AskedInto};
ghost use Rattle.numaplan_c.specs.Compared.{TellsRoutes, ended_code, place_told};
ghost use Rattle.numaplan_handles.specs.Handles.{core_in};
ghost use Rattle.numaplan_reports.specs.Compared.{Replays};

use crate::codes::Code;
use crate::differences::write_items;
use numa_traces::{Access, ReplayError, RouteCounts};
use numaplan_handles::CoreHandle;
use numaplan_reports::replay_core;
use std::alloc::Global;

/// The code of a trace that can't be replayed.
fn ended_code(why: ReplayError) -> u32
    ensures { result ≡ ended_code why }
{
    match why {
        ReplayError::NoMemory => Code::NoMemory as u32,
        _ => Code::BadAccess as u32,
    }
}

/// The place of the access that can't be replayed, or what stood there before.
fn place_told(why: ReplayError, place: usize, before: usize) -> usize
    ensures { result ≡ place_told why place before }
{
    match why {
        ReplayError::NoMemory => before,
        _ => place,
    }
}

/// Lists the routes of a trace's accesses, with how many took each.
#[unsafe(no_mangle)]
pub extern "C" fn np_core_replay(
    alloc: Global,
    core: &mut CoreHandle,
    trace: &[Access],
    room: &mut [RouteCounts],
    count: &mut usize,
) -> u32
    ensures { AskedInto (core_in core.old) (core_in core.new) result room.old room.new count.old
        count.new (λ kept. (answer : Result (List RouteCounts) (ℕ × ReplayError))
        × Replays (λ routes. routes) (core_in core.old) trace.now answer
        × TellsRoutes answer result room.old room.new count.old count.new) }
{
    match replay_core(alloc, core, trace) {
        None => Code::Closed as u32,
        Some(Ok(routes)) => {
            let code = write_items(routes.as_slice(), room, count);
            drop(routes);
            code
        }
        Some(Err(ended)) => {
            *count = place_told(ended.1, ended.0, *count);
            ended_code(ended.1)
        }
    }
}
