//! Machines from their descriptions.
ghost use Rattle.std.specs.Prelude.{◌≡◌, ◌≢◌, None};
ghost use Rattle.std.specs.Prelude.{IfOk, IfErr, IfSome, OnOk, MatchOption};
ghost use Rattle.numa_mask.specs.Lists.{list_of};
ghost use Rattle.numa_machine.specs.Faults.{fallback_fault, has_other_node};
ghost use Rattle.numaplan_c.specs.Border.{IsMachineOf, described_cause};

use crate::codes::{Code, list_code, machine_code};
use crate::options::Options;
use numa_machine::{Fallback, Machine, MachineFault};
use numa_mask::{NodeMask, read_list};
use std::alloc::Global;

/// Whether a set has a node that a machine with `nodes` nodes lacks.
fn has_other_node(nodes: u32, set: &NodeMask) -> bool
    ensures { result ≡ has_other_node nodes set.now }
{
    set.iter().any(|node| nodes <= u32::from(node.number()))
}

/// What is wrong with the fallback orders of a machine with `nodes` nodes.
fn fallback_fault(nodes: u32, fallback: Fallback) -> Option<MachineFault>
    ensures { result ≡ fallback_fault nodes fallback }
{
    match fallback {
        Fallback::Nearest => None,
        Fallback::Kernel(cpus) => {
            if has_other_node(nodes, &cpus) {
                return Some(MachineFault::NodeCount);
            }
            None
        }
    }
}

/// The machine of a description with these options, or the code of the first cause against it.
/// `others`, another cause, comes before those of the orders and the machine.
pub(crate) fn machine_of(
    alloc: Global,
    memory: &[u8],
    frames: &[u32],
    distances: &[u8],
    others: Option<u32>,
    options: Options,
) -> Result<Machine, u32>
    requires refused { IfSome others (λ code. code ≢ 0) }
    ensures machine { IfOk result
        (IsMachineOf (list_of memory.now) frames.now distances.now options) }
    ensures none { IfOk result (λ machine. described_cause (list_of memory.now) frames.now
        distances.now others options.fallback ≡ None) }
    ensures others { OnOk result (others ≡ None) }
    ensures cause { IfErr result (λ code. MatchOption (described_cause (list_of memory.now)
        frames.now distances.now others options.fallback) (code ≡ 3) (λ first. code ≡ first)) }
    ensures refused { IfErr result (λ code. code ≢ 0) }
{
    let memory = match read_list(memory) {
        Ok(memory) => memory,
        Err(fault) => return Err(list_code(fault)),
    };
    if frames.len() > 256 {
        return Err(Code::BadNodeCount as u32);
    }
    if let Some(code) = others {
        return Err(code);
    }
    let nodes = frames.len() as u32;
    if let Some(fault) = fallback_fault(nodes, options.fallback) {
        return Err(machine_code(fault));
    }
    let machine = match Machine::new(alloc, nodes, memory, distances, frames) {
        Ok(machine) => machine.with_rules(options.rules),
        Err(fault) => return Err(machine_code(fault)),
    };
    match machine.with_fallback(alloc, options.fallback) {
        Ok(machine) => Ok(machine),
        Err(fault) => Err(machine_code(fault)),
    }
}
