//! Machines.
ghost use Rattle.std.specs.Prelude.{◌≡◌, IfSome};

use crate::sets::{first_nodes, set_of};
use numa_machine::Machine;
use std::alloc::{AllocError, Global};

/// Adds the distances from a node to each of `nodes` nodes.
fn push_row(distances: &mut Vec<u8>, nodes: u32, from: u32) -> Result<(), AllocError> {
    for to in 0..nodes {
        distances.push(if from == to { 10 } else { 20 })?;
    }
    Ok(())
}

/// The distances of `nodes` nodes, all at distance 20, row by row.
///
/// # Errors
/// `AllocError`: out of memory.
pub fn flat_distances(alloc: Global, nodes: u32) -> Result<Vec<u8>, AllocError> {
    let mut distances = Vec::new(alloc);
    for from in 0..nodes {
        push_row(&mut distances, nodes, from)?;
    }
    Ok(distances)
}

/// A machine with these frames on its nodes. All nodes have memory and are at distance 20.
pub fn flat_machine(alloc: Global, frames: &[u32]) -> Option<Machine>
    ensures frames { IfSome result (λ machine. machine.frames ≡ frames.now) }
{
    let nodes = u32::try_from(frames.len()).ok()?;
    let distances = flat_distances(alloc, nodes).ok()?;
    Machine::new(alloc, nodes, first_nodes(nodes), &distances, frames).ok()
}

/// A machine with these distances: 8 frames on each of the nodes with memory, and none elsewhere.
pub fn machine_of(alloc: Global, nodes: u32, memory: &[u8], distances: &[u8]) -> Option<Machine> {
    let mut frames = Vec::new(alloc);
    for node in 0..nodes {
        let has = memory.iter().any(|other| u32::from(*other) == node);
        frames.push(if has { 8 } else { 0 }).ok()?;
    }
    Machine::new(alloc, nodes, set_of(memory), distances, &frames).ok()
}
