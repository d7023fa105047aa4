//! Replaying a trace, access by access.
ghost use Rattle.std.specs.Prelude.{◌≡◌, ◌<◌, ◌∷◌, [], List, None, Some, IfOk, IfErr, OnOk};
ghost use Rattle.numa_machine.specs.Machine.{Hardware};
ghost use Rattle.numa_plan.specs.Meaning.{PlanData, place_refusal, planned_list};
ghost use Rattle.numa_traces.specs.Hosting.{with_free};
ghost use Rattle.numa_traces.specs.Replaying.{EndsReplay, IsNext, IsReplay};
ghost use Rattle.numa_traces.specs.Placing.{node_of};
ghost use Rattle.numa_traces.specs.Resting.{laid_by};
ghost use Rattle.numa_traces.specs.Tallies.{Counts, IsRoomFault};
ghost use Rattle.numa_traces.specs.declared.access.Access.{Access};
ghost use Rattle.numa_traces.specs.declared.fault.ReplayError.TheVariants as fault;

use crate::access::Access;
use crate::fault::ReplayError;
use crate::memory::Memory;
use crate::tallies::Tallies;
use numa_machine::{Machine, PlaceRefusal};
use numa_plan::Plan;
use std::alloc::{AllocError, Global};
use std::marker::Model;

/// A trace being replayed.
#[derive(Drop)]
pub struct Replay {
    memory: Memory,
    tallies: Tallies,
}

impl Model for Replay {
    ghost use Rattle.numa_traces.specs.Replaying.{Replayed};

    ghost Value = { Replayed };

    ghost view = { λ a. record { frames = a.memory; tallies = a.tallies } };
}

/// The nodes on which the first touch of an access looks for a frame.
fn nodes_for(plan: &Plan, access: Access) -> Result<&[u8], PlaceRefusal>
    ensures ok { IfOk result (λ row. (access.cpu < plan.now.nodes)
        × (planned_list plan.now access.task access.page access.cpu ≡ Some row.now)) }
    ensures err { IfErr result (λ refusal. place_refusal plan.now access.page access.cpu
        ≡ Some refusal) }
{
    plan.fallback_list(access.task, access.page, access.cpu)
}

impl Replay {
    /// The state before the first access: no page is placed.
    ///
    /// # Errors
    /// `AllocError`: out of memory.
    pub fn new(alloc: Global, machine: &Machine) -> Result<Replay, AllocError>
        ensures { (plan : PlanData) → IfOk result (IsReplay machine.now plan []) }
    {
        let memory = Memory::new(alloc, machine)?;
        Ok(Replay {
            memory,
            tallies: Tallies::new(alloc),
        })
    }

    /// The state before the first access where nodes have so much room: of 2^64 - 1 a node never
    /// fills. It doesn't allocate.
    pub(crate) fn with_room(alloc: Global, room: Vec<u64>) -> Replay
        ensures { result ≡ record {
          frames = record { pages = []; free = room.items };
          tallies = [];
        } }
    {
        Replay {
            memory: Memory::with_room(alloc, room),
            tallies: Tallies::new(alloc),
        }
    }

    /// The state before the first access of a process that has no frames of its own. It doesn't
    /// allocate.
    pub(crate) fn shared(alloc: Global) -> Replay
        ensures { result ≡ record { frames = record { pages = []; free = [] }; tallies = [] } }
    {
        Replay {
            memory: Memory::shared(alloc),
            tallies: Tallies::new(alloc),
        }
    }

    /// Exchanges the numbers of frames left for others.
    pub(crate) fn exchange(&mut self, free: &mut Vec<u64>)
        ensures own { self.new ≡ with_free self.old free.old.items }
        ensures given { free.new.items ≡ self.old.frames.free }
    {
        self.memory.exchange(free);
    }

    /// The frames, and the pages in them.
    pub fn memory(&self) -> &Memory
        ensures { result.now ≡ self.now.frames }
    {
        &self.memory
    }

    /// The numbers of accesses by their routes.
    pub fn tallies(&self) -> &Tallies
        ensures { result.now ≡ self.now.tallies }
    {
        &self.tallies
    }

    /// Counts accesses to a page that lies on a node, or found none. The first is a fault or not.
    ///
    /// # Errors
    /// As [`Tallies::add`]. Then nothing has changed.
    pub(crate) fn count(
        &mut self,
        access: Access,
        node: Option<u8>,
        is_fault: bool,
    ) -> Result<(), ReplayError>
        ensures frames { self.new.frames ≡ self.old.frames }
        ensures counts { OnOk result (Counts self.old.tallies (access.task, access.cpu, node)
            access.count is_fault self.new.tallies) }
        ensures err { IfErr result IsRoomFault }
    {
        self.tallies
            .add((access.task, access.cpu, node), access.count, is_fault)
    }

    /// A page lies on a node and takes nothing of its room, unless an access placed it.
    ///
    /// # Errors
    /// `NoMemory`: out of memory. Then nothing has changed.
    pub(crate) fn lay(&mut self, page: u64, node: u8) -> Result<(), ReplayError>
        ensures laid { OnOk result (self.new ≡ record {
          frames = laid_by (node_of self.old.frames.pages page) self.old.frames page (Some node);
          tallies = self.old.tallies;
        }) }
        ensures err { IfErr result (λ why. why ≡ fault.NoMemory) }
    {
        match self.memory.lay(page, node) {
            Ok(()) => Ok(()),
            Err(_) => Err(ReplayError::NoMemory),
        }
    }

    /// Replays an access: if its page isn't placed, its first touch places it by the plan.
    ///
    /// # Errors
    /// The first that applies: `Refused`, the plan has no such node or the page isn't mapped;
    /// `TooMany`, a count would exceed 2^64 - 1; `NoMemory`, out of memory. Then the replay has
    /// ended.
    pub fn take(&mut self, plan: &Plan, access: Access) -> Result<(), ReplayError>
        ensures accepted { OnOk result
            (place_refusal plan.now access.page access.cpu ≡ None) }
        ensures next { OnOk result (IsNext plan.now access self.old self.new) }
        ensures ok { (machine : Hardware) (trace : List Access)
            → IsReplay machine plan.now trace self.old
            → OnOk result (IsReplay machine plan.now (access ∷ trace) self.new) }
        ensures err { IfErr result (EndsReplay plan.now self.old access) }
    {
        let (task, page, cpu) = (access.task, access.page, access.cpu);
        let list = match nodes_for(plan, access) {
            Ok(list) => list,
            Err(refusal) => return Err(ReplayError::Refused(refusal)),
        };
        if let Some(node) = self.memory.node_of(page) {
            return self
                .tallies
                .add((task, cpu, Some(node)), access.count, false);
        }
        let Ok(node) = self.memory.place(page, list) else {
            return Err(ReplayError::NoMemory);
        };
        self.tallies.add((task, cpu, node), access.count, true)
    }
}
