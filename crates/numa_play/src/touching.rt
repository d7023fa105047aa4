//! Which touches and which page are asked for, by the state that scripts lead to.
ghost use Rattle.std.specs.Prelude.{◌≡◌, ◌/◌, is_some};
ghost use Rattle.numa_rules.specs.Reasons.{run_with};
ghost use Rattle.numa_play.specs.Named.{address_meant, has_cpus};

use crate::findings::Findings;
use crate::question::subject_of;
use numa_host::Process;
use numa_host_script::HostScript;
use numa_lines::RunFault;
use numa_machine::{Fallback, Machine};
use numa_mask::NodeMask;
use numa_requests::PAGE_BYTES;
use numa_rules::range_of;
use numa_sheets::{AddressAsked, CpuAsked, Touch, TouchAsked};
use numa_space::Space;
use numa_subjects::{Halt, Subject};
use std::alloc::{AllocError, Global};
use std::io::Write;

/// Whether a node of a machine has CPUs; those that lines name count if the machine says nothing.
fn has_cpus(machine: &Machine, named: &Option<NodeMask>, node: u8) -> bool
    ensures { result ≡ has_cpus machine.now named.now node }
{
    match (machine.fallback(), named) {
        (Fallback::Kernel(cpus), _) => cpus.has(node),
        (Fallback::Nearest, Some(cpus)) => cpus.has(node),
        (Fallback::Nearest, None) => true,
    }
}

/// A touch of the task on each node with CPUs.
fn touch_each(
    alloc: Global,
    machine: &Machine,
    named: Option<NodeMask>,
    task: u32,
) -> Result<Vec<Touch>, AllocError> {
    let mut touches = Vec::new(alloc);
    for cpu in 0..machine.nodes() {
        if has_cpus(machine, &named, cpu as u8) {
            touches.push(Touch { task, cpu })?;
        }
    }
    Ok(touches)
}

/// The machine of what an answer is about.
fn machine_of<'a>(subject: &Subject<'a>) -> &'a Machine {
    match subject {
        Subject::One(space, _) => space.machine(),
        Subject::Each(host) => host.machine(),
    }
}

/// The touches that are asked for: of the given task, or of the one that lines name, on a CPU of
/// the node, or of each node with CPUs.
///
/// # Errors
/// The first of these: `NoMachine`, `NoHost` or `NoProcess`; `ManyTasks`: no task is given, and
/// lines name several; `Stopped`: out of memory.
pub fn touches<T: Write>(
    alloc: Global,
    findings: &Findings<T>,
    process: Option<u32>,
    asked: TouchAsked,
) -> Result<Vec<Touch>, Halt> {
    let subject = match subject_of(findings.script(), process) {
        Ok(subject) => subject,
        Err(halt) => return Err(halt),
    };
    let named = findings.named();
    let task = match named.task() {
        Ok(task) => task,
        Err((first, second)) => return Err(Halt::ManyTasks(first, second)),
    };
    let touches = match asked.cpu {
        CpuAsked::Node(cpu) => Vec::from_slice(alloc, &[Touch { task, cpu }]),
        CpuAsked::Each => touch_each(alloc, machine_of(&subject), named.cpus(), task),
    };
    match touches {
        Ok(touches) => Ok(touches),
        Err(_) => Err(Halt::Stopped(RunFault::Memory)),
    }
}

/// Whether the page of an address is mapped.
fn is_mapped(space: &Space, address: u64) -> bool
    ensures { result ≡ is_some (run_with space.now.ranges (address / 4096)) }
{
    range_of(space, address / PAGE_BYTES).is_some()
}

/// Whether a process has mapped the page of an address.
fn has_mapped(processes: &[Process], address: u64) -> bool {
    processes
        .iter()
        .any(|process| is_mapped(&process.space, address))
}

/// Whether the page of an address is mapped, in a host by some process.
fn is_mapped_in(subject: &Subject<'_>, address: u64) -> bool {
    match subject {
        Subject::One(space, _) => is_mapped(space, address),
        Subject::Each(host) => has_mapped(host.processes(), address),
    }
}

/// The address that is meant, by whether the page of each reading is mapped; `None` if both are.
fn address_meant(asked: AddressAsked, is_mapped: bool, is_other_mapped: bool) -> Option<u64>
    ensures { result ≡ address_meant asked is_mapped is_other_mapped }
{
    let first = asked.value;
    let Some(other) = asked.hexadecimal else {
        return Some(first);
    };
    match (is_mapped, is_other_mapped) {
        (true, true) if first / PAGE_BYTES != other / PAGE_BYTES => None,
        (false, true) => Some(other),
        _ => Some(first),
    }
}

/// The page of the address that is meant.
///
/// # Errors
/// The first of these: `NoMachine`, `NoHost` or `NoProcess`; `TwoPages`: its digits may be decimal
/// or hexadecimal, and both pages are mapped.
pub fn page_meant(
    script: &HostScript,
    process: Option<u32>,
    asked: AddressAsked,
) -> Result<u64, Halt> {
    let subject = match subject_of(script, process) {
        Ok(subject) => subject,
        Err(halt) => return Err(halt),
    };
    let is_mapped = is_mapped_in(&subject, asked.value);
    let is_other_mapped = match asked.hexadecimal {
        Some(other) => is_mapped_in(&subject, other),
        None => false,
    };
    match address_meant(asked, is_mapped, is_other_mapped) {
        Some(address) => Ok(address / PAGE_BYTES),
        None => Err(Halt::TwoPages),
    }
}
