//! Whether the description of a machine is consistent.
ghost use Rattle.std.specs.Prelude.{◌≡◌, ◌+◌, ◌*◌, ◌≤◌, ◌<◌, ℕ, length, sum, slice_index};
ghost use Rattle.numa_machine.specs.Faults.{some_node, has_bad_count, has_bad_memory};
ghost use Rattle.numa_machine.specs.Faults.{is_bad_distance, has_bad_distance, are_bad_frames};
ghost use Rattle.numa_machine.specs.Faults.{has_bad_frames, machine_fault, has_other_node};
ghost use Rattle.numa_machine.specs.Faults.{fallback_fault};
ghost use Rattle.numa_machine.specs.Machine.{table_entry};

use crate::fallback::Fallback;
use crate::fault::MachineFault;
use crate::orders::entry;
use numa_mask::NodeMask;

/// The most nodes of a machine.
const MOST_NODES: u32 = 256;

/// The distance of a node from itself.
const OWN_DISTANCE: u8 = 10;

/// The most frames of a node.
const MOST_FRAMES: u32 = 4096;

/// The most frames of all nodes in total.
const MOST_FRAMES_IN_ALL: u64 = 65536;

/// Whether a number of nodes isn't 1 to 256, or doesn't fit the table of distances or the list of
/// frames.
fn has_bad_count(nodes: u32, distances: &[u8], frames: &[u32]) -> bool
    ensures { result ≡ has_bad_count nodes distances.now frames.now }
{
    let nodes_wide = nodes as usize;
    nodes == 0
        || nodes > MOST_NODES
        || distances.len() != nodes_wide * nodes_wide
        || frames.len() != nodes_wide
}

/// Whether a set has a node that the machine lacks.
fn has_other_node(nodes: u32, set: &NodeMask) -> bool
    ensures { result ≡ has_other_node nodes set.now }
{
    set.iter().any(|node| nodes <= u32::from(node.number()))
}

/// Whether no node has memory, or the machine lacks a node that is listed as having some.
#[tactic(auto, unfolding(crate::specs::Faults::has_bad_memory))]
fn has_bad_memory(nodes: u32, memory: &NodeMask) -> bool
    ensures { result ≡ has_bad_memory nodes memory.now }
{
    memory.is_empty() || has_other_node(nodes, memory)
}

/// Whether an entry of the table isn't 10 for a node itself, or is below 11 for another.
fn is_bad_distance(from: usize, to: usize, far: u8) -> bool
    ensures { result ≡ is_bad_distance from to far }
{
    if from == to {
        far != OWN_DISTANCE
    } else {
        far <= OWN_DISTANCE
    }
}

/// Whether the row of a node has a bad distance.
fn has_bad_row(nodes: usize, distances: &[u8], from: usize) -> bool
    requires nodes { nodes ≤ 256 }
    requires from { from < nodes }
    ensures { result ≡ some_node nodes (λ to.
        is_bad_distance from to (table_entry nodes distances.now from to)) }
{
    for to in 0..nodes {
        if is_bad_distance(from, to, entry(distances, from * nodes + to)) {
            return true;
        }
    }
    false
}

/// Whether a distance of the table is bad.
fn has_bad_distance(nodes: u32, distances: &[u8]) -> bool
    requires { nodes ≤ 256 }
    ensures { result ≡ has_bad_distance nodes distances.now }
{
    let nodes = nodes as usize;
    for from in 0..nodes {
        if has_bad_row(nodes, distances, from) {
            return true;
        }
    }
    false
}

/// Whether a node has more than 4,096 frames, or has frames without memory.
fn are_bad_frames(memory: &NodeMask, node: u8, count: u32) -> bool
    ensures { result ≡ are_bad_frames memory.now node count }
{
    count > MOST_FRAMES || (!memory.has(node) && count != 0)
}

/// Whether some node has too many frames.
fn has_bad_node(memory: &NodeMask, frames: &[u32]) -> bool
    requires { length frames.now ≤ 256 }
    ensures { result ≡ some_node (length frames.now) (λ node.
        are_bad_frames memory.now node (slice_index frames.now node)) }
{
    for (node, count) in frames.iter().enumerate() {
        if are_bad_frames(memory, node as u8, *count) {
            return true;
        }
    }
    false
}

/// The total frames of all nodes.
fn frames_in_all(frames: &[u32]) -> u64
    requires { length frames.now ≤ 256 }
    ensures { result ≡ sum frames.now }
{
    frames.iter().map(|count| u64::from(*count)).sum()
}

/// Whether some node, or all nodes in total, have too many frames.
#[tactic(auto, unfolding(crate::specs::Faults::has_bad_frames))]
fn has_bad_frames(nodes: u32, memory: &NodeMask, frames: &[u32]) -> bool
    requires nodes { nodes ≤ 256 }
    requires frames { length frames.now ≡ nodes }
    ensures { result ≡ has_bad_frames nodes memory.now frames.now }
{
    has_bad_node(memory, frames) || frames_in_all(frames) > MOST_FRAMES_IN_ALL
}

/// The first thing wrong with the description of a machine, apart from lack of memory.
#[tactic(auto, unfolding(crate::specs::Faults::machine_fault))]
pub(crate) fn fault_of(
    nodes: u32,
    memory: &NodeMask,
    distances: &[u8],
    frames: &[u32],
) -> Option<MachineFault>
    ensures { result ≡ machine_fault nodes memory.now distances.now frames.now }
{
    if has_bad_count(nodes, distances, frames) {
        Some(MachineFault::NodeCount)
    } else if has_bad_memory(nodes, memory) {
        Some(MachineFault::NoMemoryNode)
    } else if has_bad_distance(nodes, distances) {
        Some(MachineFault::BadDistance)
    } else if has_bad_frames(nodes, memory, frames) {
        Some(MachineFault::TooManyFrames)
    } else {
        None
    }
}

/// What is wrong with the fallback orders asked of a machine with this many nodes.
pub(crate) fn fault_of_fallback(nodes: u32, fallback: &Fallback) -> Option<MachineFault>
    ensures { result ≡ fallback_fault nodes fallback.now }
{
    match fallback {
        Fallback::Nearest => None,
        Fallback::Kernel(cpus) => {
            if has_other_node(nodes, cpus) {
                Some(MachineFault::NodeCount)
            } else {
                None
            }
        }
    }
}
