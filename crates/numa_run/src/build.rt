//! Building the machine that a line describes.
ghost use Rattle.std.specs.Prelude.{◌≡◌, ◌≤◌, Bool, None, Some, IfOk, IfErr, MatchOption, true};
ghost use Rattle.std.specs.Prelude.{false};
ghost use Rattle.std.specs.List.{range_with_len};
ghost use Rattle.numa_machine.specs.Faults.{has_other_node};
ghost use Rattle.numa_mask.specs.NodeSet.{set_of, with_node};
ghost use Rattle.numa_page_state.specs.Outcomes.{Enough, Lack};
ghost use Rattle.numa_run.specs.Machines.{fallback_by, first_fault, hardware_of, has_bad_nodes};
ghost use Rattle.numa_run.specs.Machines.{nodes_with_cpus};

use numa_machine::{Fallback, Machine, MachineFault, Rules};
use numa_mask::{NodeId, NodeMask};
use numa_script::MachineLine;
use std::alloc::Global;

/// The most nodes that a machine has.
const MOST_NODES: u32 = 256;

/// Adds a node to a set.
fn add_node(set: &mut NodeMask, number: u8)
    ensures { set.new ≡ with_node set.old number }
{
    if let Some(node) = NodeId::new(number) {
        set.insert(node);
    }
}

/// The set of all nodes below `nodes`.
#[tactic(auto, using(crate::proofs::Cpus::all_nodes_more))]
fn all_nodes(nodes: u32) -> NodeMask
    requires { nodes ≤ 256 }
    ensures { result ≡ set_of (range_with_len 0 nodes) }
{
    let mut set = NodeMask::empty();
    for number in 0..nodes {
        add_node(&mut set, number as u8);
    }
    set
}

/// Whether a set has a node that a machine with `nodes` nodes lacks.
fn has_other_node(nodes: u32, set: &NodeMask) -> bool
    ensures { result ≡ has_other_node nodes set.now }
{
    set.iter().any(|node| nodes <= u32::from(node.number()))
}

/// The nodes with CPUs of a machine with `nodes` nodes: those that were named, or else all. `None`
/// if the number of nodes is 0 or too high, or the machine lacks a named one.
fn cpus_among(nodes: u32, named: Option<NodeMask>) -> Option<NodeMask>
    ensures { MatchOption result (has_bad_nodes nodes (nodes_with_cpus nodes named) ≡ true)
        (λ cpus. (cpus ≡ nodes_with_cpus nodes named) × (has_bad_nodes nodes cpus ≡ false)) }
{
    if nodes == 0 || nodes > MOST_NODES {
        return None;
    }
    let cpus = match named {
        Some(cpus) => cpus,
        None => all_nodes(nodes),
    };
    if has_other_node(nodes, &cpus) {
        return None;
    }
    Some(cpus)
}

/// The fallback orders: a kernel's, or by distance alone.
fn fallback_by(kernel_orders: bool, cpus: NodeMask) -> Fallback
    ensures { result ≡ fallback_by kernel_orders cpus }
{
    if kernel_orders {
        Fallback::Kernel(cpus)
    } else {
        Fallback::Nearest
    }
}

/// The machine that a line describes, with these nodes with memory, these rules, and these nodes
/// with CPUs, or else all. The nodes are checked first; then the tables are made, for which there
/// may be no memory; then everything is checked.
pub(crate) fn build(
    alloc: Global,
    said: &MachineLine<'_>,
    memory: NodeMask,
    rules: Rules,
    cpus: Option<NodeMask>,
) -> Result<Machine, MachineFault>
    ensures ok { IfOk result (λ machine.
        (machine ≡ hardware_of said.now memory rules (nodes_with_cpus said.now.nodes cpus))
        × (first_fault Enough (nodes_with_cpus said.now.nodes cpus) machine ≡ None)) }
    ensures err { IfErr result (λ fault. (lack : Lack)
        × (first_fault lack (nodes_with_cpus said.now.nodes cpus)
        (hardware_of said.now memory rules (nodes_with_cpus said.now.nodes cpus)) ≡ Some fault)) }
{
    let MachineLine {
        nodes,
        memory: _,
        frames,
        kernel_orders,
        distances,
    } = said;
    let Some(cpus) = cpus_among(*nodes, cpus) else {
        return Err(MachineFault::NodeCount);
    };
    let frames = frames.for_nodes(alloc, *nodes, &memory)?;
    let distances = distances.for_nodes(alloc, *nodes)?;
    let machine = Machine::new(alloc, *nodes, memory, &distances, &frames)?;
    let fallback = fallback_by(*kernel_orders, cpus);
    machine.with_rules(rules).with_fallback(alloc, fallback)
}
