//! The routes of a replay, as values.
ghost use Rattle.std.specs.Prelude.{◌≡◌, IfOk, map, unwrap_or};
ghost use Rattle.numa_traces.specs.Routes.{route_told};

use crate::replay::Replay;
use crate::tallies::{AccessCounts, Route};
use std::alloc::{AllocError, Global};

/// How many accesses took a route, and how many of them were faults: the task, the node of its CPU,
/// and the node of the pages, 256 if they found no frame.
#[repr(C)]
#[derive(Clone, Copy)]
pub struct RouteCounts {
    pub accesses: u64,
    pub faults: u64,
    pub task: u32,
    pub cpu: u32,
    pub node: u32,
}

const _: () = prove!(size_of::<RouteCounts>() == 32);

/// The number of a node, or 256.
fn node_number(node: Option<u8>) -> u32
    ensures { result ≡ unwrap_or node 256 }
{
    match node {
        Some(node) => u32::from(node),
        None => 256,
    }
}

/// A route with its counts.
fn route_of(route: &Route, counts: &AccessCounts) -> RouteCounts
    ensures { result ≡ route_told (route.now, counts.now) }
{
    let (task, cpu, node) = *route;
    RouteCounts {
        accesses: counts.accesses,
        faults: counts.faults,
        task,
        cpu,
        node: node_number(node),
    }
}

/// The routes of a replay with their counts: ordered by task, then by the CPU's node, then by the
/// pages'.
///
/// # Errors
/// `AllocError`: out of memory.
pub fn routes_of(alloc: Global, replay: &Replay) -> Result<Vec<RouteCounts>, AllocError>
    ensures { IfOk result (λ routes. routes.items ≡ map route_told replay.now.tallies) }
{
    let mut routes = Vec::new(alloc);
    for (route, counts) in replay.tallies().iter() {
        routes.push(route_of(route, counts))?;
    }
    Ok(routes)
}
