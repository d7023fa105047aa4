//! A host of processes in control groups.
ghost use Rattle.std.specs.Prelude.{◌≡◌, ◌≢◌, ◌<◌, ℕ, Option, List, [], map, MatchOption};
ghost use Rattle.std.specs.Prelude.{IfOk, MatchResult, None, Some, false, true, All, AllPairs};
ghost use Rattle.std.specs.Prelude.{length};
ghost use Rattle.numa_space.specs.Lists.{node_list};
ghost use Rattle.numa_space.specs.Standing.{StandsFor, place_refusal_of};
ghost use Rattle.numa_requests.specs.declared.host_command.HostCommand.{HostCommand};
ghost use Rattle.numa_host.specs.declared.process.Process.{Process};
ghost use Rattle.numa_host.specs.Groups.{effective_mems, groups_of, is_group};
ghost use Rattle.numa_host.specs.Processes.{commands_of, is_there, members_of};
ghost use Rattle.numa_host.specs.Standing.{HasHostHistory, HostState, HostStandsFor, IsHostApplied};
ghost use Rattle.numa_host.specs.Standing.{IsHostSound, IsSpaceOf, member_of};

use crate::group::{ControlGroup, effective, is_group};
use crate::process::{Process, copies_of, find};
use arrayvec::ArrayVec;
use numa_machine::{Machine, NoMemory, PlaceRefusal};
use numa_mask::NodeMask;
use numa_requests::{HostCommand, HostRefusal, Limits};
use numa_space::Space;
use std::alloc::Global;
use std::marker::Model;

mod changes;

/// Processes in a tree of control groups, on one machine.
pub struct Host {
    alloc: Global,
    blank: Space,
    limits: Limits,
    version: u64,
    groups: Vec<ControlGroup>,
    processes: Vec<Process>,
}

// (By hand, so that it is proved here alone: a derived one is proved in each crate that drops.)
impl Drop for Host {
    fn drop(self) {
        let Host {
            alloc: _,
            blank,
            limits: _,
            version: _,
            groups,
            processes,
        } = self;
        drop(blank);
        drop(groups);
        drop(processes);
    }
}

impl Model for Host {
    ghost use Rattle.numa_host.specs.Standing.{HostState};
    ghost use Rattle.numa_host.specs.Inside.{shown_of, IsKept};

    ghost Value = { HostState };

    ghost view = { shown_of };

    ghost invariant = { IsKept };
}

impl Host {
    /// A host without groups below the root and without processes. It doesn't allocate; the
    /// allocator is kept for later commands.
    pub fn new(alloc: Global, machine: Machine, limits: Limits) -> Host
        ensures stands { HostStandsFor result [] }
        ensures machine { result.blank.machine ≡ machine }
        ensures bounds { result.blank.bounds ≡ limits }
    {
        Host {
            alloc,
            blank: Space::new(alloc, machine, limits),
            limits,
            version: 0,
            groups: Vec::new(alloc),
            processes: Vec::new(alloc),
        }
    }

    /// Returns a copy, which stands for the same histories. A command to one of the two doesn't
    /// affect the other, so a caller can try commands on a copy.
    ///
    /// # Errors
    /// `NoMemory`: there is no memory for the copy's groups and processes.
    pub fn copy(&self) -> Result<Host, NoMemory>
        ensures { IfOk result (λ copy. copy ≡ self.now) }
    {
        let groups = Vec::from_slice(self.alloc, &self.groups)?;
        let processes = copies_of(self.alloc, &self.processes)?;
        let Ok(blank) = self.blank.copy(self.alloc) else {
            drop(processes);
            return Err(NoMemory);
        };
        Ok(Host {
            alloc: self.alloc,
            blank,
            limits: self.limits,
            version: self.version,
            groups,
            processes,
        })
    }

    /// Carries out a command, or refuses it. A change that concerns several processes happens in
    /// all of them or in none.
    ///
    /// # Errors
    /// The first cause that applies: `CommandsSpent`, then those of the command in the order of
    /// `cause_of`, and out of memory last. Then the host hasn't changed.
    pub fn apply(&mut self, command: &HostCommand) -> Result<(), HostRefusal>
        ensures { IsHostApplied self.old command.now result self.new }
    {
        if self.version >= u64::from(self.limits.max_commands()) {
            return Err(HostRefusal::CommandsSpent);
        }
        self.answer(command)
    }

    /// The number of accepted commands. Every host stands for the history of these.
    pub fn version(&self) -> u64
        ensures version { result ≡ self.now.version }
        ensures meaning { (history : List HostCommand) → HostStandsFor self.now history
            → result ≡ length history }
        ensures history { HasHostHistory self.now }
    {
        self.version
    }

    /// The machine.
    pub fn machine(&self) -> &Machine
        ensures { result.now ≡ self.now.blank.machine }
    {
        self.blank.machine()
    }

    /// The limits of the host's commands, and of the ranges and tasks of each process.
    pub fn limits(&self) -> Limits
        ensures { result ≡ self.now.blank.bounds }
    {
        self.limits
    }

    /// The groups below the root, the newest first; so the parent of each is the root or comes
    /// later.
    pub fn groups(&self) -> &[ControlGroup]
        ensures groups { result.now ≡ self.now.groups }
        ensures meaning { (history : List HostCommand) → HostStandsFor self.now history
            → result.now ≡ groups_of history }
    {
        &self.groups
    }

    /// The nodes that a group allows (`cpuset.mems.effective`); None where there is no such group.
    pub fn group_nodes(&self, name: u32) -> Option<NodeMask>
        ensures { (history : List HostCommand) → HostStandsFor self.now history
            → MatchOption result (is_group (groups_of history) name ≡ false)
            (λ nodes. (is_group (groups_of history) name ≡ true)
            × (nodes ≡ effective_mems self.now.blank.machine.memory (groups_of history) name)) }
    {
        if !is_group(&self.groups, name) {
            return None;
        }
        let memory = self.blank.machine().memory();
        Some(effective(memory, &self.groups, name))
    }

    /// The processes, the first born first, each with its group and its space.
    pub fn processes(&self) -> &[Process]
        ensures processes { result.now ≡ self.now.processes }
        ensures members { (history : List HostCommand) → HostStandsFor self.now history
            → map member_of result.now ≡ members_of history }
        ensures spaces { (history : List HostCommand) → HostStandsFor self.now history
            → All (λ (p : Process). IsSpaceOf self.now.blank.machine self.now.blank.bounds
            (commands_of self.now.blank.machine history p.id) p.space) result.now }
        ensures each_once { AllPairs (λ (a b : Process). a.id ≢ b.id) result.now }
        ensures sound { IsHostSound self.now }
    {
        &self.processes
    }

    /// The space of a process, if it is there: it stands for the commands that the process has
    /// accepted, so that all that is said of a space's answers is said of these.
    pub fn process(&self, process: u32) -> Option<&Space>
        ensures { (history : List HostCommand) → HostStandsFor self.now history
            → MatchOption result (is_there (members_of history) process ≡ false)
            (λ space. (is_there (members_of history) process ≡ true)
            × (space.now.machine ≡ self.now.blank.machine)
            × StandsFor space.now (commands_of self.now.blank.machine history process)) }
    {
        let found = find(&self.processes, process)?;
        Some(&found.space)
    }

    /// The nodes on which memory for a page of a process is looked for, in this order; None where
    /// the process isn't there.
    ///
    /// # Errors
    /// Those of its space, as [`Space::list_at`].
    pub fn list_at(
        &self,
        process: u32,
        task: u32,
        page: u64,
        cpu: u32,
    ) -> Option<Result<ArrayVec<u8, 256>, PlaceRefusal>>
        ensures { (history : List HostCommand) → HostStandsFor self.now history
            → MatchOption result (is_there (members_of history) process ≡ false)
            (λ answer. (is_there (members_of history) process ≡ true) × MatchResult answer
            (λ list. (place_refusal_of self.now.blank.machine
            (commands_of self.now.blank.machine history process) page cpu ≡ None)
            × (list.items ≡ node_list self.now.blank.machine
            (commands_of self.now.blank.machine history process) task page cpu))
            (λ refusal. place_refusal_of self.now.blank.machine
            (commands_of self.now.blank.machine history process) page cpu ≡ Some refusal)) }
    {
        match self.process(process) {
            Some(space) => Some(space.list_at(task, page, cpu)),
            None => None,
        }
    }
}
