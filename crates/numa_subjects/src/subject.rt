//! What an answer is about.
ghost use Rattle.std.specs.Prelude.{◌≡◌, ◌≤◌, ◌<◌, IfErr, IfOk};
ghost use Rattle.numa_subjects.specs.declared.halt.Halt.TheVariants as halt;

use crate::halt::Halt;
use numa_host::{Host, Process};
use numa_space::Space;

/// A process of a host and its group, by their numbers.
#[derive(Clone, Copy)]
pub struct InGroup {
    pub process: u32,
    pub group: u32,
}

/// What an answer is about.
#[derive(Clone, Copy)]
pub enum Subject<'a> {
    /// The space of the script, or of the chosen process of a host, which this is.
    One(&'a Space, Option<InGroup>),
    /// All processes of a host.
    Each(&'a Host),
}

/// The one space of what an answer is about, if it is one.
pub fn space_in(subject: Option<Subject<'_>>) -> Option<&Space> {
    match subject {
        Some(Subject::One(space, _)) => Some(space),
        _ => None,
    }
}

/// The host of what an answer is about, if it is all processes.
pub fn host_in(subject: Option<Subject<'_>>) -> Option<&Host> {
    match subject {
        Some(Subject::Each(host)) => Some(host),
        _ => None,
    }
}

/// The process of this number, with its group.
pub fn member(host: &Host, process: u32) -> Option<&Process> {
    host.processes().iter().find(|one| one.id == process)
}

/// The number of nodes, if the node of a touch is one of them.
///
/// # Errors
/// `NoNode`: it isn't.
pub fn nodes_with(nodes: u32, node: u32) -> Result<u32, Halt>
    ensures same { IfOk result (λ same. (same ≡ nodes) × (node < nodes)) }
    ensures lacks { IfErr result (λ why. (why ≡ halt.NoNode nodes) × (nodes ≤ node)) }
{
    if node >= nodes {
        return Err(Halt::NoNode(nodes));
    }
    Ok(nodes)
}

/// Whether an answer by the other rules is another one; no, if memory lacked for it.
pub fn differ(own: Result<Vec<u8>, Halt>, other: Result<Vec<u8>, Halt>) -> bool {
    let differ = match (&own, &other) {
        (Ok(own), Ok(other)) => own.as_slice() != other.as_slice(),
        (Ok(_), Err(Halt::Stopped(_))) => false,
        (Ok(_), Err(_)) => true,
        (Err(_), _) => false,
    };
    drop(own);
    drop(other);
    differ
}
