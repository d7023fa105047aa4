//! What a running kernel would do differently with a line.
ghost use Rattle.std.specs.Prelude.{◌≡◌};
ghost use Rattle.numa_diagnose.specs.Hints.{hint_for};

use numa_host::{Host, Process};
use numa_machine::NoMemory;
use numa_requests::{Command, HostCommand};
use numa_rules::{Otherwise, otherwise_of, otherwise_of_empty_bind};
use numa_script::{Line, ScriptLine};
use numa_space::Space;

/// What a running kernel would do differently with a line of a process: one of a host's, or that of
/// the script.
#[derive(Clone, Copy)]
pub struct HostHint {
    pub process: Option<u32>,
    pub otherwise: Otherwise,
}

/// What a running kernel would do differently with a line in a space that follows the documents'
/// rules. `Some` only if the line is a command, or is one by the kernel's rules.
pub fn hint_of(space: &Space, said: &Line<'_>) -> Option<Otherwise>
    ensures { result ≡ hint_for space.now said.now }
{
    match said {
        Line::Command(Ok(command)) => otherwise_of(space, command),
        Line::EmptyBind { start, .. } => otherwise_of_empty_bind(space, *start),
        _ => None,
    }
}

/// The hint of a process, if there is one.
fn of_process(process: u32, otherwise: Option<Otherwise>) -> Option<HostHint> {
    match otherwise {
        Some(otherwise) => Some(HostHint {
            process: Some(process),
            otherwise,
        }),
        None => None,
    }
}

/// What a running kernel would do differently with a line of a process.
fn hint_of_process(host: &Host, process: u32, said: &Line<'_>) -> Option<HostHint> {
    if let Line::Command(Ok(Command::SetMems { .. } | Command::SetWeight { .. })) = said {
        return None;
    }
    match host.process(process) {
        Some(space) => of_process(process, hint_of(space, said)),
        None => None,
    }
}

/// What a running kernel would do differently with the weight of a node.
fn hint_of_weight(host: &Host, node: u32, weight: u32) -> Option<HostHint> {
    let machine = host.machine();
    if machine.rules().is_linux() || weight != 0 || node >= machine.nodes() {
        return None;
    }
    Some(HostHint {
        process: None,
        otherwise: Otherwise::PutsBackWeight,
    })
}

/// What a running kernel would do differently where a process's allowed nodes come to those that it
/// has in another host.
fn hint_of_change(process: &Process, after: &Host) -> Option<HostHint> {
    let Some(space) = after.process(process.id) else {
        return None;
    };
    let mask = space.allowed();
    if mask == process.space.allowed() {
        return None;
    }
    of_process(
        process.id,
        otherwise_of(&process.space, &Command::SetMems { mask }),
    )
}

/// The first process to whose policies a kernel would give other nodes, where its allowed nodes
/// come to those of another host.
fn hint_of_changes(host: &Host, after: &Host) -> Option<HostHint> {
    for process in host.processes() {
        let hint = hint_of_change(process, after);
        if hint.is_some() {
            return hint;
        }
    }
    None
}

/// What a running kernel would do differently with a command that changes allowed nodes.
fn hint_of_nodes(host: &Host, command: &HostCommand) -> Result<Option<HostHint>, NoMemory> {
    let mut after = match host.copy() {
        Ok(after) => after,
        Err(fault) => return Err(fault),
    };
    let hint = match after.apply(command) {
        Ok(()) => hint_of_changes(host, &after),
        Err(_) => None,
    };
    drop(after);
    Ok(hint)
}

/// What a running kernel would do differently with a command of a host.
fn hint_of_command(host: &Host, command: &HostCommand) -> Result<Option<HostHint>, NoMemory> {
    match command {
        HostCommand::SetGroupMems { .. } | HostCommand::Attach { .. } => {
            hint_of_nodes(host, command)
        }
        _ => Ok(None),
    }
}

/// What a running kernel would do differently with a line of a host; of a change of the allowed
/// nodes the first process to whose policies it would give other nodes.
///
/// # Errors
/// `NoMemory`: there is no memory to try the line on a copy of the host.
pub fn hint_in(host: &Host, said: &ScriptLine<'_>) -> Result<Option<HostHint>, NoMemory> {
    if let Some(process) = said.process {
        return Ok(hint_of_process(host, process, &said.line));
    }
    match &said.line {
        Line::Command(Ok(Command::SetWeight { node, weight })) => {
            Ok(hint_of_weight(host, *node, *weight))
        }
        Line::HostCommand(Ok(command)) => hint_of_command(host, command),
        _ => Ok(None),
    }
}
