//! Replaying a trace of the processes of a host: each goes by its own plan, and all take the same
//! frames.
ghost use Rattle.std.specs.Prelude.{◌≡◌, ◌∷◌, ℕ, [], List, MatchOption, IfErr, OnOk};
ghost use Rattle.numa_plan.specs.Meaning.{PlanData};
ghost use Rattle.numa_traces.specs.Hosting.{Accepts, AreSameProcesses, EndsHostReplay};
ghost use Rattle.numa_traces.specs.Hosting.{HasProcess, IsHostReplay, process_of};
ghost use Rattle.numa_traces.specs.declared.access.Access.{Access};

use crate::access::Access;
use crate::fault::ReplayError;
use crate::process::{ProcessReplay, take_shared};
use crate::replay::Replay;
use numa_plan::Plan;
use std::alloc::{AllocError, Global};
use std::collections::BTreeMap;
use std::collections::btree_map::Iter;
use std::marker::Model;

/// The replays of a host's processes, by their numbers, on frames that all share: where a page of
/// one process lies no page of another does.
pub struct HostReplay {
    processes: BTreeMap<u32, ProcessReplay>,
    // The number of frames that each node has left, or of pages for which it has room.
    free: Vec<u64>,
}

// (By hand, so that it is proved here alone: a derived one is proved in each crate that drops.)
impl Drop for HostReplay {
    fn drop(self) {
        let HostReplay { processes, free } = self;
        drop(processes);
        drop(free);
    }
}

impl Model for HostReplay {
    ghost use Rattle.numa_traces.specs.Hosting.{HostReplayed};

    ghost Value = { HostReplayed };

    ghost view = { λ a. record { processes = a.processes.entries; free = a.free.items } };
}

impl HostReplay {
    /// The state before the first access where nodes have so many frames, or so much room: no page
    /// is placed, and there are no processes. It doesn't allocate.
    pub fn new(alloc: Global, room: Vec<u64>) -> HostReplay
        ensures replay { (plans : ℕ → PlanData) → IsHostReplay room.items plans [] result }
        ensures processes { result.processes ≡ [] }
    {
        HostReplay {
            processes: BTreeMap::new(alloc),
            free: room,
        }
    }

    /// Adds a process with its plan, which is for the machine, before the first access.
    ///
    /// # Errors
    /// `AllocError`: out of memory.
    pub fn add(&mut self, alloc: Global, process: u32, plan: Plan) -> Result<(), AllocError>
        ensures replay { (room : List ℕ) (plans : ℕ → PlanData)
            → IsHostReplay room plans [] self.old → plans process ≡ plan
            → OnOk result (IsHostReplay room plans [] self.new) }
        ensures processes { OnOk result
            (HasProcess process self.old.processes self.new.processes) }
    {
        let replay = Replay::shared(alloc);
        match self
            .processes
            .insert(process, ProcessReplay { plan, replay })
        {
            Ok(replaced) => {
                drop(replaced);
                Ok(())
            }
            Err(_) => Err(AllocError),
        }
    }

    /// What a process met, if there is such a process.
    pub fn process(&self, process: u32) -> Option<&ProcessReplay>
        ensures { MatchOption result (process_of self.now.processes process ≡ None)
            (λ one. process_of self.now.processes process ≡ Some one.now) }
    {
        self.processes.get(&process)
    }

    /// The processes, the lowest number first, and what each met.
    pub fn iter(&self) -> Iter<'_, u32, ProcessReplay>
        ensures { result ≡ self.now.processes }
    {
        self.processes.iter()
    }

    /// Replays an access of a process: if its page isn't placed, its first touch places it by the
    /// process's plan, on a frame that no page of any process has.
    ///
    /// # Errors
    /// The first that applies: `NoProcess`, there is no such process; those of [`Replay::take`].
    /// Then the replay has ended.
    pub fn take(&mut self, process: u32, access: Access) -> Result<(), ReplayError>
        ensures ok { (room : List ℕ) (plans : ℕ → PlanData) (trace : List (ℕ × Access))
            → IsHostReplay room plans trace self.old
            → OnOk result (IsHostReplay room plans ((process, access) ∷ trace) self.new) }
        ensures accepted { OnOk result (Accepts self.old process access) }
        ensures processes { OnOk result
            (AreSameProcesses self.old.processes self.new.processes) }
        ensures err { IfErr result (EndsHostReplay self.old process access) }
    {
        let Some(one) = self.processes.get_mut(&process) else {
            return Err(ReplayError::NoProcess);
        };
        take_shared(one, &mut self.free, access)
    }
}
