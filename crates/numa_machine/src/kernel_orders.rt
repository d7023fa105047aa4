//! Fallback orders as a kernel builds them.
ghost use Rattle.std.specs.Prelude.{◌≡◌, ℕ, ◌+◌, ◌*◌, ◌<◌, ◌≤◌, All, IfOk, nat_lt, ◌==◌};
ghost use Rattle.std.specs.Prelude.{if◌then◌else◌, fold, length, slice_index};
ghost use Rattle.numa_mask.specs.NodeSet.{has, members};
ghost use Rattle.numa_machine.specs.Machine.{one_if, one_more_at, turns, orders_by_table};
ghost use Rattle.numa_machine.specs.declared.fallback.Fallback.TheVariants.{Kernel};

use crate::orders::{NODES, append_order, entry};
use numa_mask::NodeMask;
use std::alloc::{AllocError, Global};

/// The distance of a node from itself.
const OWN_DISTANCE: u8 = 10;

/// The cost of falling back to a node at distance `far` that has this load.
fn cost_of_going(far: u8, load: u32, from: usize, to: usize, cpus: &NodeMask) -> u32
    requires load { load ≤ 65536 }
    requires to { to < 256 }
    ensures { result ≡ (if to == from then 0
        else (far + one_if (nat_lt to from) + one_if (has cpus.now to)) * 1024 + load) }
{
    if to == from {
        return 0;
    }
    let far = u32::from(far) + u32::from(to < from) + u32::from(cpus.has(to as u8));
    far * 1024 + load
}

/// Writes the cost of falling back from one node to each.
fn fill_costs(
    costs: &mut [u32; NODES],
    table: &[u8],
    nodes: usize,
    from: usize,
    cpus: &NodeMask,
    loads: &[u32; NODES],
)
    requires nodes { nodes ≤ 256 }
    requires from { from < nodes }
    requires loads { (to : ℕ) → slice_index loads.now to ≤ 65536 }
    ensures { (to : ℕ) → to < nodes → slice_index costs.new to ≡ (if to == from then 0
        else (slice_index table.now (from * nodes + to) + one_if (nat_lt to from)
        + one_if (has cpus.now to)) * 1024 + slice_index loads.now to) }
{
    for to in 0..nodes {
        costs[to] = cost_of_going(entry(table, from * nodes + to), loads[to], from, to, cpus);
    }
}

/// Adds 1 to the load of a node of an order, if its distance differs from that of the node before.
fn count_turn(loads: &mut [u32; NODES], node: u8, far: u8, before: u8)
    requires { slice_index loads.old node ≤ 65536 }
    ensures { loads.new ≡ (if far == before then loads.old else one_more_at loads.old node) }
{
    if far != before {
        loads[usize::from(node)] += 1;
    }
}

/// Adds the turns of an order to the loads; its node's row of the table begins at `start`.
fn count_turns(loads: &mut [u32; NODES], order: &[u8], table: &[u8], start: usize)
    requires start { start < 65536 }
    requires loads { (node : ℕ) → slice_index loads.old node + length order.now ≤ 65536 }
    ensures { loads.new ≡ fold one_more_at loads.old
        (turns (λ to. slice_index table.now (start + to)) 10 order.now) }
{
    let mut before = OWN_DISTANCE;
    for node in order {
        let far = entry(table, start + usize::from(*node));
        count_turn(loads, *node, far, before);
        before = far;
    }
}

/// The orders of all nodes, concatenated, as a kernel builds them if these nodes have CPUs.
pub(crate) fn kernel_orders(
    alloc: Global,
    nodes: u32,
    memory: &NodeMask,
    table: &[u8],
    cpus: &NodeMask,
) -> Result<Vec<u8>, AllocError>
    requires nodes { nodes ≤ 256 }
    requires memory { All (λ node. node < nodes) (members memory.now) }
    ensures { IfOk result (λ orders. orders.items
        ≡ orders_by_table nodes memory.now table.now (Kernel cpus.now)) }
{
    let nodes = nodes as usize;
    let mut orders = Vec::with_capacity(alloc, nodes * memory.weight() as usize)?;
    let mut costs = [0; NODES];
    let mut loads = [0; NODES];
    for from in 0..nodes {
        fill_costs(&mut costs, table, nodes, from, cpus, &loads);
        let base = orders.len();
        append_order(&mut orders, &costs, memory)?;
        count_turns(&mut loads, &orders[base..], table, from * nodes);
    }
    Ok(orders)
}
