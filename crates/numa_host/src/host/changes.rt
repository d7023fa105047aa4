//! What each command does.
ghost use Rattle.std.specs.Prelude.{◌≡◌, ◌<◌, List};
ghost use Rattle.numa_host.specs.Causes.{host_refusal_of};
ghost use Rattle.numa_requests.specs.declared.host_command.HostCommand.{HostCommand};
ghost use Rattle.numa_host.specs.Standing.{HostStandsFor, IsHostApplied};

use crate::group::{ControlGroup, is_group, names_beyond, set_mems};
use crate::host::Host;
use crate::process::{
    allow_all, born, child_of, has_no_place, is_the_host_s, is_there, move_to, place_of, remove,
    tell, unsets_populated, weigh_all,
};
use crate::refusal::of_space;
use numa_mask::NodeMask;
use numa_requests::{Command, HostCommand, HostRefusal, Refusal};

/// The most groups below the root.
const MAX_GROUPS: usize = 1_024;

/// The most processes.
const MAX_PROCESSES: usize = 4_096;

impl Host {
    /// Carries out a command, or refuses it, where the limit of commands isn't reached.
    pub(super) fn answer(&mut self, command: &HostCommand) -> Result<(), HostRefusal>
        requires { self.old.version < self.old.blank.bounds.max_commands }
        ensures { IsHostApplied self.old command.now result self.new }
    {
        match command {
            HostCommand::NewGroup { group, parent } => self.new_group(*group, *parent),
            HostCommand::SetGroupMems { group, mems } => self.set_group_mems(*group, mems),
            HostCommand::NewProcess { process, group } => self.new_process(*process, *group),
            HostCommand::Exit { process } => self.exit(*process),
            HostCommand::Attach { process, group } => self.attach(*process, *group),
            HostCommand::Fork {
                parent,
                child,
                from,
                task,
            } => self.fork(*parent, *child, *from, *task),
            HostCommand::In { process, command } => self.in_process(*process, command),
            HostCommand::SetWeight { node, weight } => self.set_weight(*node, *weight),
        }
    }

    /// Makes a group below another, without a list of its own: no process is allowed other nodes.
    fn new_group(&mut self, name: u32, parent: u32) -> Result<(), HostRefusal>
        requires { self.old.version < self.old.blank.bounds.max_commands }
        ensures { IsHostApplied self.old (HostCommand.NewGroup name parent) result self.new }
    {
        if is_group(&self.groups, name) {
            return Err(HostRefusal::GroupExists);
        }
        if !is_group(&self.groups, parent) {
            return Err(HostRefusal::NoSuchGroup);
        }
        if self.groups.len() >= MAX_GROUPS {
            return Err(HostRefusal::TooManyGroups);
        }
        let group = ControlGroup {
            name,
            parent,
            mems: None,
        };
        let Ok(()) = self.groups.insert(0, group) else {
            return Err(HostRefusal::NoMemory);
        };
        // Tells the proof that the version is no large number.
        let _ = self.limits.max_commands();
        self.version += 1;
        Ok(())
    }

    /// Gives a group its own list of nodes, or takes it away. Each process whose group's effective
    /// nodes change is allowed the new ones, and its policies follow.
    fn set_group_mems(&mut self, name: u32, mems: &Option<NodeMask>) -> Result<(), HostRefusal>
        requires { self.old.version < self.old.blank.bounds.max_commands }
        ensures { IsHostApplied self.old (HostCommand.SetGroupMems name mems.now) result
            self.new }
    {
        if !is_group(&self.groups, name) {
            return Err(HostRefusal::NoSuchGroup);
        }
        if name == 0 {
            return Err(HostRefusal::RootGroup);
        }
        if names_beyond(mems, self.blank.machine().nodes()) {
            return Err(HostRefusal::NoSuchNode);
        }
        if unsets_populated(mems, &self.processes, &self.groups, name) {
            return Err(HostRefusal::Populated);
        }
        let memory = self.blank.machine().memory();
        set_mems(&mut self.groups, name, mems);
        allow_all(&mut self.processes, memory, &self.groups);
        // Tells the proof that the version is no large number.
        let _ = self.limits.max_commands();
        self.version += 1;
        Ok(())
    }

    /// An empty process in a group.
    fn new_process(&mut self, process: u32, group: u32) -> Result<(), HostRefusal>
        requires { self.old.version < self.old.blank.bounds.max_commands }
        ensures { IsHostApplied self.old (HostCommand.NewProcess process group) result self.new }
    {
        if is_there(&self.processes, process) {
            return Err(HostRefusal::ProcessExists);
        }
        if !is_group(&self.groups, group) {
            return Err(HostRefusal::NoSuchGroup);
        }
        if self.processes.len() >= MAX_PROCESSES {
            return Err(HostRefusal::TooManyProcesses);
        }
        let Ok(()) = self.processes.reserve(1) else {
            return Err(HostRefusal::NoMemory);
        };
        let Ok(made) = born(self.alloc, &self.blank, &self.groups, process, group) else {
            return Err(HostRefusal::NoMemory);
        };
        self.processes.push_reserved(made);
        // Tells the proof that the version is no large number.
        let _ = self.limits.max_commands();
        self.version += 1;
        Ok(())
    }

    /// Ends a process.
    fn exit(&mut self, process: u32) -> Result<(), HostRefusal>
        requires { self.old.version < self.old.blank.bounds.max_commands }
        ensures { IsHostApplied self.old (HostCommand.Exit process) result self.new }
    {
        if !is_there(&self.processes, process) {
            return Err(HostRefusal::NoSuchProcess);
        }
        remove(&mut self.processes, process);
        // Tells the proof that the version is no large number.
        let _ = self.limits.max_commands();
        self.version += 1;
        Ok(())
    }

    /// Moves a process to another group; it is allowed the nodes of that one, and its policies
    /// follow.
    fn attach(&mut self, process: u32, group: u32) -> Result<(), HostRefusal>
        requires { self.old.version < self.old.blank.bounds.max_commands }
        ensures { IsHostApplied self.old (HostCommand.Attach process group) result self.new }
    {
        let Some(place) = place_of(&self.processes, process) else {
            return Err(HostRefusal::NoSuchProcess);
        };
        if !is_group(&self.groups, group) {
            return Err(HostRefusal::NoSuchGroup);
        }
        let memory = self.blank.machine().memory();
        move_to(&mut self.processes, place, memory, &self.groups, group);
        // Tells the proof that the version is no large number.
        let _ = self.limits.max_commands();
        self.version += 1;
        Ok(())
    }

    /// Why a process can't make a child, apart from want of memory: the first cause that stands
    /// against the command. `None` if none does.
    pub fn fork_refusal(&self, parent: u32, child: u32, from: u32, task: u32) -> Option<HostRefusal>
        ensures { (history : List HostCommand) → HostStandsFor self.now history → result
            ≡ host_refusal_of self.now.blank.machine self.now.blank.bounds history
            (HostCommand.Fork parent child from task) }
    {
        if self.version >= u64::from(self.limits.max_commands()) {
            return Some(HostRefusal::CommandsSpent);
        }
        self.fork_cause(parent, child, from, task)
    }

    /// The same while there are commands left.
    fn fork_cause(&self, parent: u32, child: u32, from: u32, task: u32) -> Option<HostRefusal>
        requires { self.now.version < self.now.blank.bounds.max_commands }
        ensures { (history : List HostCommand) → HostStandsFor self.now history → result
            ≡ host_refusal_of self.now.blank.machine self.now.blank.bounds history
            (HostCommand.Fork parent child from task) }
    {
        if is_there(&self.processes, child) {
            return Some(HostRefusal::ProcessExists);
        }
        let Some(place) = place_of(&self.processes, parent) else {
            return Some(HostRefusal::NoSuchProcess);
        };
        if self.processes.len() >= MAX_PROCESSES {
            return Some(HostRefusal::TooManyProcesses);
        }
        let most = self.limits.max_tasks();
        if has_no_place(&self.processes, place, from, task, most) {
            return Some(HostRefusal::OfSpace(Refusal::TooManyTasks));
        }
        None
    }

    /// A copy of a process in the same group, whose task `task` begins with the policy that `from`
    /// has in the parent.
    fn fork(&mut self, parent: u32, child: u32, from: u32, task: u32) -> Result<(), HostRefusal>
        requires { self.old.version < self.old.blank.bounds.max_commands }
        ensures { IsHostApplied self.old (HostCommand.Fork parent child from task) result
            self.new }
    {
        if is_there(&self.processes, child) {
            return Err(HostRefusal::ProcessExists);
        }
        let Some(place) = place_of(&self.processes, parent) else {
            return Err(HostRefusal::NoSuchProcess);
        };
        if self.processes.len() >= MAX_PROCESSES {
            return Err(HostRefusal::TooManyProcesses);
        }
        let most = self.limits.max_tasks();
        if has_no_place(&self.processes, place, from, task, most) {
            return Err(HostRefusal::OfSpace(Refusal::TooManyTasks));
        }
        let Ok(()) = self.processes.reserve(1) else {
            return Err(HostRefusal::NoMemory);
        };
        let Ok(made) = child_of(self.alloc, &self.processes, place, child, from, task) else {
            return Err(HostRefusal::NoMemory);
        };
        self.processes.push_reserved(made);
        // Tells the proof that the version is no large number.
        let _ = self.limits.max_commands();
        self.version += 1;
        Ok(())
    }

    /// A command of one process.
    fn in_process(&mut self, process: u32, command: &Command) -> Result<(), HostRefusal>
        requires { self.old.version < self.old.blank.bounds.max_commands }
        ensures { IsHostApplied self.old (HostCommand.In process command.now) result self.new }
    {
        let Some(place) = place_of(&self.processes, process) else {
            return Err(HostRefusal::NoSuchProcess);
        };
        if is_the_host_s(command) {
            return Err(HostRefusal::GroupMems);
        }
        if let Err(refusal) = tell(&mut self.processes, place, command) {
            return Err(of_space(refusal));
        }
        // Tells the proof that the version is no large number.
        let _ = self.limits.max_commands();
        self.version += 1;
        Ok(())
    }

    /// Gives a node its weight, for every process.
    fn set_weight(&mut self, node: u32, weight: u32) -> Result<(), HostRefusal>
        requires { self.old.version < self.old.blank.bounds.max_commands }
        ensures { IsHostApplied self.old (HostCommand.SetWeight node weight) result self.new }
    {
        if let Err(refusal) = self.blank.apply(&Command::SetWeight { node, weight }) {
            return Err(of_space(refusal));
        }
        weigh_all(&mut self.processes, node, weight);
        // Tells the proof that the version is no large number.
        let _ = self.limits.max_commands();
        self.version += 1;
        Ok(())
    }
}
