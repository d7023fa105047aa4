//! A process, and what the host tells it.
ghost use Rattle.std.specs.Prelude.{length, ◌≡◌, ◌≢◌, ◌<◌, ◌==◌, ◌&&◌, not, is_some, nat_le, ℕ};
ghost use Rattle.std.specs.Prelude.{Some, None, List, ◌∷◌, filter, MatchOption, IfOk, All};
ghost use Rattle.std.specs.Prelude.{slice_index_or};
ghost use Rattle.std.specs.List.{find, list_any, position};
ghost use Rattle.numa_host.specs.Causes.{is_the_host_s};
ghost use Rattle.numa_host.specs.declared.process.Process.{Process};
ghost use Rattle.numa_mask.specs.NodeSet.{both};
ghost use Rattle.numa_requests.specs.declared.command.Command.{Command};
ghost use Rattle.numa_space.specs.Refusals.{refusal_in};
ghost use Rattle.numa_space.specs.Standing.{StandsFor};
ghost use Rattle.numa_space.specs.Steps.{scene_in};
ghost use Rattle.numa_host.specs.Processes.{when_moved};
ghost use Rattle.numa_host.specs.Groups.{effective_mems, has_own_mems, is_within};
ghost use Rattle.numa_host.specs.Following.{AreFollowed, HasMore, IsBorn, IsChildOf, IsHeirOf};
ghost use Rattle.numa_host.specs.Following.{IsMoved, IsTold, lacks_place};

use crate::group::{ControlGroup, effective, has_own_mems, is_within};
use numa_machine::NoMemory;
use numa_mask::NodeMask;
use numa_requests::{Command, Refusal};
use numa_space::Space;
use std::alloc::Global;

/// A process: its number, its group, and its space.
#[derive(Drop)]
pub struct Process {
    pub id: u32,
    pub group: u32,
    pub space: Space,
}

/// The process of a number.
pub fn find(processes: &[Process], id: u32) -> Option<&Process>
    ensures { MatchOption result (find (λ (p : Process). id == p.id) processes.now ≡ None)
        (λ found. find (λ (p : Process). id == p.id) processes.now ≡ Some found.now) }
{
    let (first, rest) = processes.split_first()?;
    if id == first.id {
        return Some(first);
    }
    find(rest, id)
}

/// Gives a space the nodes that it is allowed; nothing where it has them already. Never refused.
pub(crate) fn allow(space: &mut Space, nodes: &NodeMask)
    requires room { space.old.version < space.old.bounds.max_commands }
    requires some { nodes.now ≢ 0 }
    requires inside { both nodes.now space.old.machine.memory ≡ nodes.now }
    ensures stands { (history : List Command) → StandsFor space.old history
        → StandsFor space.new (when_moved space.old.allowed nodes.now history) }
    ensures allowed { space.new.allowed ≡ nodes.now }
    ensures machine { space.new.machine ≡ space.old.machine }
    ensures bounds { space.new.bounds ≡ space.old.bounds }
{
    // Tells the proof that the space has a history, and that the nodes with memory are the
    // machine's.
    let _ = space.version();
    let memory = space.machine().memory();
    let _ = memory.weight();
    if space.allowed() == *nodes {
        return;
    }
    let Ok(_) = space.apply(&Command::SetMems { mask: *nodes }) else {
        unreachable!()
    };
}

/// Gives a space a weight, where nothing stands against it. Never refused.
pub(crate) fn weigh(space: &mut Space, node: u32, weight: u32)
    requires free { refusal_in (scene_in space.old (Command.SetWeight node weight))
        (Command.SetWeight node weight) ≡ None }
    ensures stands { (history : List Command) → StandsFor space.old history
        → StandsFor space.new (Command.SetWeight node weight ∷ history) }
    ensures allowed { space.new.allowed ≡ space.old.allowed }
    ensures machine { space.new.machine ≡ space.old.machine }
    ensures bounds { space.new.bounds ≡ space.old.bounds }
{
    // Tells the proof that the space has a history.
    let _ = space.version();
    let Ok(_) = space.apply(&Command::SetWeight { node, weight }) else {
        unreachable!()
    };
}

/// Gives every process a weight, where nothing stands against it in any. Never refused.
pub(crate) fn weigh_all(processes: &mut [Process], node: u32, weight: u32)
    requires free { All (λ (p : Process). refusal_in
        (scene_in p.space (Command.SetWeight node weight)) (Command.SetWeight node weight) ≡ None)
        processes.old }
    ensures { AreFollowed (λ (p q : Process). HasMore (λ history. Command.SetWeight node weight
        ∷ history) p.space.allowed p q) processes.old processes.new }
{
    for process in processes.iter_mut() {
        weigh(&mut process.space, node, weight);
    }
}

/// Gives every process the nodes of its group. Never refused.
pub(crate) fn allow_all(processes: &mut [Process], memory: NodeMask, groups: &[ControlGroup])
    requires some { memory ≢ 0 }
    requires room { All (λ (p : Process). (p.space.version < p.space.bounds.max_commands)
        × (p.space.machine.memory ≡ memory)) processes.old }
    ensures { AreFollowed (λ (p q : Process). HasMore (when_moved p.space.allowed
        (effective_mems memory groups.now p.group)) (effective_mems memory groups.now p.group)
        p q) processes.old processes.new }
{
    for process in processes.iter_mut() {
        let nodes = effective(memory, groups, process.group);
        allow(&mut process.space, &nodes);
    }
}

/// Whether a process is in a group or below it.
pub(crate) fn has_process(processes: &[Process], groups: &[ControlGroup], name: u32) -> bool
    ensures { result ≡ list_any (λ (p : Process). is_within groups.now p.group name) processes.now }
{
    processes
        .iter()
        .any(|process| is_within(groups, process.group, name))
}

/// Whether no list is to take the place of a group's own while a process is in the group or below.
pub(crate) fn unsets_populated(
    mems: &Option<NodeMask>,
    processes: &[Process],
    groups: &[ControlGroup],
    name: u32,
) -> bool
    ensures { result ≡ (not (is_some mems.now) && (has_own_mems groups.now name
        && list_any (λ (p : Process). is_within groups.now p.group name) processes.now)) }
{
    mems.is_none() && has_own_mems(groups, name) && has_process(processes, groups, name)
}

/// Where in a list the process of a number is.
pub(crate) fn place_of(processes: &[Process], id: u32) -> Option<usize>
    ensures { result ≡ position (λ (p : Process). id == p.id) processes.now }
{
    processes.iter().position(|process| id == process.id)
}

/// Hands a command to the space of the process at a place; the others stay as they are.
pub(crate) fn tell(
    processes: &mut Vec<Process>,
    place: usize,
    command: &Command,
) -> Result<(), Refusal>
    requires { place < length processes.old.items }
    ensures { IsTold place command.now result processes.old.items processes.new.items }
{
    let process = &mut processes[place];
    let answer = process.space.apply(command);
    match answer {
        Ok(_) => Ok(()),
        Err(refusal) => Err(refusal),
    }
}

/// Whether a process can't give the command: the allowed nodes are the groups', the weights the
/// host's.
pub(crate) fn is_the_host_s(command: &Command) -> bool
    ensures { result ≡ is_the_host_s command.now }
{
    matches!(command, Command::SetMems { .. } | Command::SetWeight { .. })
}

/// Whether there is a process of a number.
pub(crate) fn is_there(processes: &[Process], id: u32) -> bool
    ensures { result ≡ list_any (λ (p : Process). id == p.id) processes.now }
{
    processes.iter().any(|process| id == process.id)
}

/// Takes away the process of a number.
pub(crate) fn remove(processes: &mut Vec<Process>, id: u32)
    ensures { processes.new.items ≡ filter (λ (p : Process). not (p.id == id))
        processes.old.items }
{
    processes.retain(|process| process.id != id);
}

/// Gives the process at a place another group, and the nodes of that. Never refused.
pub(crate) fn move_to(
    processes: &mut Vec<Process>,
    place: usize,
    memory: NodeMask,
    groups: &[ControlGroup],
    group: u32,
)
    requires place { place < length processes.old.items }
    requires some { memory ≢ 0 }
    requires room { All (λ (p : Process). (p.space.version < p.space.bounds.max_commands)
        × (p.space.machine.memory ≡ memory)) processes.old.items }
    ensures { IsMoved place group (effective_mems memory groups.now group) processes.old.items
        processes.new.items }
{
    let nodes = effective(memory, groups, group);
    let process = &mut processes[place];
    allow(&mut process.space, &nodes);
    process.group = group;
}

/// An empty process in a group: a copy of the space with which processes begin, with the nodes of
/// the group.
pub(crate) fn born(
    alloc: Global,
    blank: &Space,
    groups: &[ControlGroup],
    id: u32,
    group: u32,
) -> Result<Process, NoMemory>
    requires { blank.now.version < blank.now.bounds.max_commands }
    ensures { IfOk result (IsBorn blank.now id group
        (effective_mems blank.now.machine.memory groups.now group)) }
{
    let memory = blank.machine().memory();
    let nodes = effective(memory, groups, group);
    let mut space = blank.copy(alloc)?;
    allow(&mut space, &nodes);
    Ok(Process { id, group, space })
}

/// Whether the space of the process at a place has no place for the policy that a task would
/// inherit: it is told before anything is copied, since want of memory is the last cause.
pub(crate) fn has_no_place(
    processes: &[Process],
    place: usize,
    from: u32,
    task: u32,
    most: u32,
) -> bool
    requires { place < length processes.now }
    ensures { (d : Process) → result ≡ lacks_place (slice_index_or processes.now place d).space
        from task most }
{
    let space = &processes[place].space;
    let is_full = most as usize <= space.task_count();
    space.task_policy(from).is_some() && space.task_policy(task).is_none() && is_full
}

/// A copy of a space, in which a task has the policy that `from` has.
fn heir_of(alloc: Global, parent: &Space, from: u32, task: u32) -> Result<Space, NoMemory>
    ensures { IfOk result (IsHeirOf parent.now from task) }
{
    let mut space = parent.copy(alloc)?;
    let Ok(_) = space.apply(&Command::Inherit { task, from }) else {
        drop(space);
        return Err(NoMemory);
    };
    Ok(space)
}

/// A copy of the process at a place, in which a task has the policy that `from` has in the parent.
pub(crate) fn child_of(
    alloc: Global,
    processes: &[Process],
    place: usize,
    child: u32,
    from: u32,
    task: u32,
) -> Result<Process, NoMemory>
    requires { place < length processes.now }
    ensures { IfOk result (λ made. (d : Process)
        → IsChildOf (slice_index_or processes.now place d) child from task made) }
{
    let parent = &processes[place];
    let space = heir_of(alloc, &parent.space, from, task)?;
    Ok(Process {
        id: child,
        group: parent.group,
        space,
    })
}

/// A copy of a process.
fn copy_of(alloc: Global, process: &Process) -> Result<Process, NoMemory>
    ensures { IfOk result (λ copy. copy ≡ process.now) }
{
    let space = process.space.copy(alloc)?;
    Ok(Process {
        id: process.id,
        group: process.group,
        space,
    })
}

/// Copies of processes.
pub(crate) fn copies_of(alloc: Global, processes: &[Process]) -> Result<Vec<Process>, NoMemory>
    ensures { IfOk result (λ copies. copies.items ≡ processes.now) }
{
    let mut copies = Vec::with_capacity(alloc, processes.len())?;
    for process in processes {
        copies.push_reserved(copy_of(alloc, process)?);
    }
    Ok(copies)
}
