//! How a page comes to a node: from which nodes, and with which nodes full.
ghost use Rattle.std.specs.Prelude.{◌≡◌, ◌<◌, ◌++◌, IfOk, List, OnOk};
ghost use Rattle.numa_space.specs.Standing.{StandsFor};
ghost use Rattle.numa_requests.specs.declared.command.Command.{Command};
ghost use Rattle.numa_reports.specs.Comings.{coming_if, coming_on, comings_from, full_before};
ghost use Rattle.numa_reports.specs.Comings.{runs_on, set_before};

use numa_machine::Fallback;
use numa_mask::{NodeId, NodeMask};
use numa_space::Space;
use std::alloc::{AllocError, Global};

/// How a page comes to a node when a task faults on it on a CPU of a node.
#[derive(Clone, Copy)]
pub struct Coming {
    /// The node of the CPU.
    pub cpu: u8,
    /// The nodes that have to be full, since the page's list has them before; `None` where the
    /// page's list lacks the node.
    pub full: Option<NodeMask>,
}

/// The nodes of a list before a node, if the list has it.
fn set_before(nodes: &[u8], node: u8) -> Option<NodeMask>
    ensures { result ≡ set_before node nodes.now 0 }
{
    let mut full = NodeMask::empty();
    let mut rest = nodes;
    while let Some((other, behind)) = rest.split_first() {
        if *other == node {
            return Some(full);
        }
        let Some(other) = NodeId::new(*other) else {
            unreachable!()
        };
        full.insert(other);
        rest = behind;
    }
    None
}

/// The nodes that a fault of a task on a page on node `cpu` finds before a node.
fn full_before(space: &Space, task: u32, page: u64, node: u8, cpu: u32) -> Option<NodeMask>
    ensures { (history : List Command) → StandsFor space.now history
        → result ≡ full_before space.now.machine history task page node cpu }
{
    match space.list_at(task, page, cpu) {
        Ok(nodes) => set_before(nodes.as_slice(), node),
        Err(_) => None,
    }
}

/// Whether tasks run on a node, as far as the machine says which nodes have CPUs.
fn runs_on(fallback: Fallback, node: u32) -> bool
    requires { node < 256 }
    ensures { result ≡ runs_on fallback node }
{
    match fallback {
        Fallback::Kernel(cpus) => cpus.has(node as u8),
        Fallback::Nearest => true,
    }
}

/// Appends how a page comes to a node from another, if tasks run there.
fn push_coming(
    comings: &mut Vec<Coming>,
    space: &Space,
    task: u32,
    page: u64,
    node: u8,
    cpu: u32,
) -> Result<(), AllocError>
    requires { cpu < 256 }
    ensures { (history : List Command) → StandsFor space.now history
        → OnOk result (comings.new.items ≡ comings.old.items
        ++ coming_if (runs_on space.now.machine.fallback cpu)
        (coming_on space.now.machine history task page node cpu)) }
{
    if !runs_on(space.machine().fallback(), cpu) {
        return Ok(());
    }
    let full = full_before(space, task, page, node, cpu);
    let cpu = cpu as u8;
    comings.push(Coming { cpu, full })?;
    Ok(())
}

/// How a page comes to a node when a task faults on it: from each node of the machine on which
/// tasks run, as far as it says which do, which nodes have to be full.
///
/// # Errors
/// `AllocError`: out of memory.
pub fn comings(
    alloc: Global,
    space: &Space,
    task: u32,
    page: u64,
    node: u8,
) -> Result<Vec<Coming>, AllocError>
    ensures { (history : List Command) → StandsFor space.now history
        → IfOk result (λ comings. comings.items ≡ comings_from space.now.machine history task page
        node space.now.machine.nodes) }
{
    let mut comings = Vec::new(alloc);
    for cpu in 0..space.machine().nodes() {
        push_coming(&mut comings, space, task, page, node, cpu)?;
    }
    Ok(comings)
}
