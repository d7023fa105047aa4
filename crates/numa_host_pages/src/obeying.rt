//! Commands of a host, and what they do to the pages of its processes.
ghost use Rattle.std.specs.Prelude.{◌≡◌, List, MatchOption, unwrap_or};
ghost use Rattle.numa_host.specs.Causes.{host_refusal_of};
ghost use Rattle.numa_host.specs.Groups.{effective_mems};
ghost use Rattle.numa_host.specs.Processes.{group_in, members_of, nodes_of};
ghost use Rattle.numa_host.specs.Standing.{HostStandsFor};
ghost use Rattle.numa_requests.specs.declared.host_command.HostCommand.{HostCommand};
ghost use Rattle.numa_host_pages.specs.Standing.{Obeys};

use crate::pages::HostPages;
use numa_host::Host;
use numa_host::group::effective;
use numa_host::process::find;
use numa_mask::NodeMask;
use numa_requests::{HostCommand, HostRefusal};

/// The group of a process, and the nodes that it is allowed: the root and all with memory where it
/// isn't there.
fn place_of(host: &Host, process: u32) -> (u32, NodeMask)
    ensures { (history : List HostCommand) → HostStandsFor host.now history
        → (result.0 ≡ unwrap_or (group_in (members_of history) process) 0)
        × (result.1 ≡ nodes_of host.now.blank.machine history process) }
{
    match find(host.processes(), process) {
        Some(found) => (found.group, found.space.allowed()),
        None => (0, host.machine().memory()),
    }
}

/// The nodes that a group allows.
fn nodes_of(host: &Host, group: u32) -> NodeMask
    ensures { result ≡ effective_mems host.now.blank.machine.memory host.now.groups group }
{
    let memory = host.machine().memory();
    effective(memory, host.groups(), group)
}

/// A process comes to a group.
fn begin(
    host: &mut Host,
    pages: &mut HostPages,
    process: u32,
    group: u32,
) -> Result<(), HostRefusal>
    ensures { Obeys host.old pages.old (HostCommand.NewProcess process group) result host.new
        pages.new }
{
    let nodes = nodes_of(host, group);
    match host.apply(&HostCommand::NewProcess { process, group }) {
        Ok(()) => {
            pages.born(process, group, &nodes);
            Ok(())
        }
        Err(refusal) => Err(refusal),
    }
}

/// Why a process makes no child: what stands against it, or there is no memory for its pages of
/// 2 MiB.
fn no_child(host: &Host, parent: u32, child: u32, from: u32, task: u32) -> HostRefusal
    ensures { (history : List HostCommand) → HostStandsFor host.now history → MatchOption
        (host_refusal_of host.now.blank.machine host.now.blank.bounds history
        (HostCommand.Fork parent child from task)) (result ≡ HostRefusal.NoMemory)
        (λ first. result ≡ first) }
{
    match host.fork_refusal(parent, child, from, task) {
        Some(refusal) => refusal,
        None => HostRefusal::NoMemory,
    }
}

/// A process makes a child, which has no page; but it has mapped the pages of 2 MiB that its parent
/// has mapped.
fn fork(
    host: &mut Host,
    pages: &mut HostPages,
    parent: u32,
    child: u32,
    from: u32,
    task: u32,
) -> Result<(), HostRefusal>
    ensures { Obeys host.old pages.old (HostCommand.Fork parent child from task) result host.new
        pages.new }
{
    let (group, nodes) = place_of(host, parent);
    let command = HostCommand::Fork {
        parent,
        child,
        from,
        task,
    };
    let Ok(made) = pages.huge.inherited(host.machine(), parent) else {
        return Err(no_child(host, parent, child, from, task));
    };
    match host.apply(&command) {
        Ok(()) => {
            pages.forked(child, group, &nodes, made);
            Ok(())
        }
        Err(refusal) => {
            drop(made);
            Err(refusal)
        }
    }
}

/// A process ends, and its pages give their room back.
fn end(host: &mut Host, pages: &mut HostPages, process: u32) -> Result<(), HostRefusal>
    ensures { Obeys host.old pages.old (HostCommand.Exit process) result host.new pages.new }
{
    match host.apply(&HostCommand::Exit { process }) {
        Ok(()) => {
            pages.ended(process);
            Ok(())
        }
        Err(refusal) => Err(refusal),
    }
}

/// A process comes to another group, and its pages follow.
fn attach(
    host: &mut Host,
    pages: &mut HostPages,
    process: u32,
    group: u32,
) -> Result<(), HostRefusal>
    ensures { Obeys host.old pages.old (HostCommand.Attach process group) result host.new
        pages.new }
{
    // Tells the proof that the host has a history, so few processes, and each of them once.
    let _ = host.version();
    let _ = host.processes();
    let (_, old) = place_of(host, process);
    let nodes = nodes_of(host, group);
    match host.apply(&HostCommand::Attach { process, group }) {
        Ok(()) => {
            pages.attached(process, group, &old, &nodes);
            Ok(())
        }
        Err(refusal) => Err(refusal),
    }
}

/// A group gets a list of nodes or loses it, and the pages of each process follow whose nodes
/// change.
fn set_mems(
    host: &mut Host,
    pages: &mut HostPages,
    group: u32,
    mems: &Option<NodeMask>,
) -> Result<(), HostRefusal>
    ensures { Obeys host.old pages.old (HostCommand.SetGroupMems group mems.now) result host.new
        pages.new }
{
    match host.apply(&HostCommand::SetGroupMems { group, mems: *mems }) {
        Ok(()) => {
            let memory = host.machine().memory();
            pages.follow(memory, host.groups());
            Ok(())
        }
        Err(refusal) => Err(refusal),
    }
}

/// Carries out a command of a host, and what it does to the pages of its processes.
///
/// # Errors
/// As [`Host::apply`]; then neither the host nor its pages have changed.
pub fn obey(
    host: &mut Host,
    pages: &mut HostPages,
    command: &HostCommand,
) -> Result<(), HostRefusal>
    ensures { Obeys host.old pages.old command.now result host.new pages.new }
{
    match command {
        HostCommand::NewProcess { process, group } => begin(host, pages, *process, *group),
        HostCommand::Fork {
            parent,
            child,
            from,
            task,
        } => fork(host, pages, *parent, *child, *from, *task),
        HostCommand::Exit { process } => end(host, pages, *process),
        HostCommand::Attach { process, group } => attach(host, pages, *process, *group),
        HostCommand::SetGroupMems { group, mems } => set_mems(host, pages, *group, mems),
        HostCommand::NewGroup { .. } => host.apply(command),
        HostCommand::In { .. } => host.apply(command),
        HostCommand::SetWeight { .. } => host.apply(command),
    }
}
