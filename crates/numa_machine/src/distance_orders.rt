//! Fallback orders by distance.
ghost use Rattle.std.specs.Prelude.{◌≡◌, ℕ, ◌+◌, ◌*◌, ◌<◌, ◌≤◌, All, IfOk, slice_index};
ghost use Rattle.numa_mask.specs.NodeSet.{members};
ghost use Rattle.numa_machine.specs.Machine.{orders_by_table};
ghost use Rattle.numa_machine.specs.declared.fallback.Fallback.TheVariants.{Nearest};

use crate::orders::{NODES, append_order, entry};
use numa_mask::NodeMask;
use std::alloc::{AllocError, Global};

/// Writes the distance of each node from one.
fn fill_distances(costs: &mut [u32; NODES], table: &[u8], nodes: usize, from: usize)
    requires nodes { nodes ≤ 256 }
    requires from { from < nodes }
    ensures { (to : ℕ) → to < nodes
        → slice_index costs.new to ≡ slice_index table.now (from * nodes + to) }
{
    for to in 0..nodes {
        costs[to] = u32::from(entry(table, from * nodes + to));
    }
}

/// The orders of all nodes, concatenated, each with the nearest node first.
pub(crate) fn distance_orders(
    alloc: Global,
    nodes: u32,
    memory: &NodeMask,
    table: &[u8],
) -> Result<Vec<u8>, AllocError>
    requires nodes { nodes ≤ 256 }
    requires memory { All (λ node. node < nodes) (members memory.now) }
    ensures { IfOk result (λ orders. orders.items
        ≡ orders_by_table nodes memory.now table.now Nearest) }
{
    let nodes = nodes as usize;
    let mut orders = Vec::with_capacity(alloc, nodes * memory.weight() as usize)?;
    let mut costs = [0; NODES];
    for from in 0..nodes {
        fill_distances(&mut costs, table, nodes, from);
        append_order(&mut orders, &costs, memory)?;
    }
    Ok(orders)
}
