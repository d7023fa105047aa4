//! Details of an error or a refusal in a host's script.
use crate::bad_words::host_words;
use crate::details::{
    all_nodes, huge_detail, is_decimal_start, last_of, list_detail, move_detail, placed_detail,
    refusal_detail,
};
use crate::finding::Detail;
use numa_host::Host;
use numa_mask::parts::first_place;
use numa_requests::{
    CoreRefusal, HostCommand, HostRefusal, HugeRefusal, MoveRefusal, PlacedRefusal, Refusal,
};
use numa_script::{Line, Reply, ScriptLine, WordError};

/// The details of a line that has no place where it stands.
fn state_detail(said: &ScriptLine<'_>) -> Detail {
    if said.process.is_some() {
        return Detail::NoWorkers;
    }
    match said.line {
        Line::Host => Detail::HostReady,
        Line::Limits { .. } | Line::Rules(_) | Line::Cpus(_) | Line::Machine(_) => {
            Detail::MachineReady
        }
        Line::Work(_) => Detail::NoWorkers,
        _ => Detail::NeedsProcess,
    }
}

/// The words behind `in P`, with the space before them.
fn inner_of(line: &[u8]) -> &[u8] {
    let Some(first) = first_place(line, b' ') else {
        return &[];
    };
    let rest = &line[first + 1..];
    match first_place(rest, b' ') {
        Some(second) => &rest[second..],
        None => &[],
    }
}

/// What a process's space tells of a refusal, or else that the process is a host's.
fn in_host(detail: Detail) -> Detail {
    match detail {
        Detail::None => Detail::OfHost,
        detail => detail,
    }
}

/// The details of a question's or a command's refusal by the space of a process.
fn in_detail(host: &Host, line: &[u8], said: &ScriptLine<'_>, cause: CoreRefusal) -> Detail {
    let Some(process) = said.process else {
        return Detail::None;
    };
    let is_unaligned = cause == CoreRefusal::Command(Refusal::Unaligned);
    if is_unaligned && is_decimal_start(inner_of(line).strip_prefix(b" ").unwrap_or(&[])) {
        return Detail::DecimalStart;
    }
    match host.process(process) {
        Some(space) => in_host(refusal_detail(space, &said.line, cause)),
        None => Detail::None,
    }
}

/// The details of why a line about pages is refused.
fn pages_detail(host: &Host, line: &[u8], said: &ScriptLine<'_>, refusal: PlacedRefusal) -> Detail {
    let Some(process) = said.process else {
        return last_of(host.machine());
    };
    let inner = inner_of(line).strip_prefix(b" ").unwrap_or(&[]);
    match host.process(process) {
        Some(space) => in_host(placed_detail(space, inner, &said.line, refusal)),
        None => Detail::None,
    }
}

/// The details of why a page of a process isn't moved.
fn moved_detail(host: &Host, said: &ScriptLine<'_>, refusal: MoveRefusal) -> Detail {
    let Some(process) = said.process else {
        return Detail::None;
    };
    match host.process(process) {
        Some(space) => in_host(move_detail(space, &said.line, refusal)),
        None => Detail::None,
    }
}

/// The details of why a line about pages of 2 MiB, or about a first touch, is refused.
fn huge_detail_in(host: &Host, said: &ScriptLine<'_>, refusal: HugeRefusal) -> Detail {
    if let Some(process) = said.process {
        return match host.process(process) {
            Some(space) => huge_detail(space, &said.line, refusal),
            None => Detail::None,
        };
    }
    match refusal {
        HugeRefusal::NoSuchNode => last_of(host.machine()),
        _ => Detail::None,
    }
}

/// The number of the process that a command names: the one that it makes, or else the one that it
/// is about.
fn made_or_named(command: &HostCommand, is_made: bool) -> Detail {
    match *command {
        HostCommand::NewProcess { process, .. }
        | HostCommand::Exit { process }
        | HostCommand::Attach { process, .. }
        | HostCommand::In { process, .. } => Detail::Number(process),
        HostCommand::Fork { child, .. } if is_made => Detail::Number(child),
        HostCommand::Fork { parent, .. } => Detail::Number(parent),
        _ => Detail::None,
    }
}

/// The number of the group that a command names: the one that it makes, or else the one that it is
/// about.
fn group_named(command: &HostCommand, is_made: bool) -> Detail {
    match *command {
        HostCommand::NewGroup { group, .. } if is_made => Detail::Number(group),
        HostCommand::NewGroup { parent, .. } => Detail::Number(parent),
        HostCommand::SetGroupMems { group, .. }
        | HostCommand::NewProcess { group, .. }
        | HostCommand::Attach { group, .. } => Detail::Number(group),
        _ => Detail::None,
    }
}

/// The number of tasks with a policy of a process that forks.
fn fork_detail(host: &Host, command: &HostCommand) -> Detail {
    let HostCommand::Fork { parent, .. } = *command else {
        return Detail::None;
    };
    match host.process(parent) {
        Some(space) => Detail::Count(space.task_count() as u64),
        None => Detail::None,
    }
}

/// The details of a refusal of a command of the host.
fn command_detail(host: &Host, command: &HostCommand, refusal: HostRefusal) -> Detail {
    match refusal {
        HostRefusal::GroupExists => group_named(command, true),
        HostRefusal::NoSuchGroup => group_named(command, false),
        HostRefusal::ProcessExists => made_or_named(command, true),
        HostRefusal::NoSuchProcess => made_or_named(command, false),
        HostRefusal::OfSpace(Refusal::TooManyTasks) => fork_detail(host, command),
        _ => Detail::None,
    }
}

/// The details of the refusal of a command of the host that a line says.
fn own_detail(host: &Host, said: &Line<'_>, refusal: HostRefusal) -> Detail {
    match said {
        Line::HostCommand(Ok(command)) => command_detail(host, command, refusal),
        _ => Detail::None,
    }
}

/// The details of a refusal.
fn refused_detail(host: &Host, line: &[u8], said: &ScriptLine<'_>, refusal: HostRefusal) -> Detail {
    match (refusal, said.process) {
        (HostRefusal::CommandsSpent, _) => Detail::Count(host.version()),
        (HostRefusal::NoSuchNode, _) => last_of(host.machine()),
        (HostRefusal::NoSuchProcess, Some(process)) => Detail::Number(process),
        (HostRefusal::OfSpace(refusal), Some(_)) => {
            in_detail(host, line, said, CoreRefusal::Command(refusal))
        }
        (_, Some(_)) => Detail::None,
        (HostRefusal::OfSpace(Refusal::NoSuchNode), None) => last_of(host.machine()),
        (refusal, None) => own_detail(host, &said.line, refusal),
    }
}

/// The details of an error in a list or a policy.
fn word_detail(host: &Host, line: &[u8], fault: WordError) -> Detail {
    list_detail(line, all_nodes(host.machine().nodes()), fault)
}

/// The details of a line's error or refusal, by the host after it.
pub(crate) fn host_detail(host: &Host, line: &[u8], said: &ScriptLine<'_>, fault: Reply) -> Detail {
    match fault {
        Reply::HostRefused(refusal) => refused_detail(host, line, said, refusal),
        Reply::BadWords => host_words(line),
        Reply::BadState => state_detail(said),
        Reply::BadWord(fault) => word_detail(host, line, fault),
        Reply::Refused(cause) => in_detail(host, line, said, cause),
        Reply::PlacedRefused(refusal) => pages_detail(host, line, said, refusal),
        Reply::MoveRefused(refusal) => moved_detail(host, said, refusal),
        Reply::HugeRefused(refusal) => huge_detail_in(host, said, refusal),
        _ => Detail::None,
    }
}
