//! The policies of tasks.
ghost use Rattle.std.specs.Prelude.{◌≡◌, ◌≢◌, ◌+◌, ◌++◌, ◌∷◌, ◌==◌, ◌<◌, ℕ, Some, None, IfOk};
ghost use Rattle.std.specs.Prelude.{IsOk, OnOk, OnErr, [], length, is_some, slice_get, AllPairs};
ghost use Rattle.std.specs.Prelude.{if◌then◌else◌, IfSome};
ghost use Rattle.numa_space.specs.Standing.{record_of};
ghost use Rattle.numa_space.specs.Steps.{policy_after};

use crate::task_records::TaskRecords;
use indexmap::IndexMap;
use numa_machine::Rules;
use numa_mask::NodeMask;
use numa_mode::Record;
use std::alloc::{AllocError, Global};
use std::marker::Model;

/// The number of tasks more for which two records each can be kept before they are renumbered.
const SPARE: usize = 32;

/// The policy of each task that has one.
///
/// The threads of a process mostly have one policy. So a task has a number, and tasks with equal
/// records mostly share one; a change of the allowed nodes changes each record once, however many
/// tasks have it.
#[derive(Drop)]
pub(crate) struct Tasks {
    numbers: IndexMap<u32, u32>,
    records: TaskRecords,
    alloc: Global,
}

impl Model for Tasks {
    ghost use Rattle.std.specs.Prelude.{List, ℕ, length};
    ghost use Rattle.numa_mode.specs.Policy.{PolicyRecord};
    ghost use Rattle.numa_space.specs.Shared.{with_records, HaveRecords};

    ghost Value = { List (ℕ × PolicyRecord) };

    ghost view = { λ a. with_records a.records a.numbers.entries };

    ghost invariant = { λ a. HaveRecords (length a.records) a.numbers.entries };
}

impl Tasks {
    /// No task has a policy; it doesn't allocate.
    pub(crate) fn new(alloc: Global) -> Tasks
        ensures { result ≡ [] }
    {
        Tasks {
            numbers: IndexMap::new(alloc),
            records: TaskRecords::new(alloc),
            alloc,
        }
    }

    /// Returns a copy.
    pub(crate) fn copy(&self) -> Result<Tasks, AllocError>
        ensures { IfOk result (λ copy. copy ≡ self.now) }
    {
        let numbers = self.numbers.clone()?;
        let records = self.records.copy(self.alloc)?;
        Ok(Tasks {
            numbers,
            records,
            alloc: self.alloc,
        })
    }

    /// The number of tasks that have a policy.
    pub(crate) fn len(&self) -> usize
        ensures len { result ≡ length self.now }
        ensures each_once { AllPairs (λ earlier later. earlier.0 ≢ later.0) self.now }
    {
        self.numbers.len()
    }

    /// The policy of a task.
    pub(crate) fn get(&self, task: u32) -> Option<Record>
        ensures { result ≡ record_of self.now task }
    {
        match self.numbers.get(&task) {
            None => None,
            Some(number) => Some(self.records.get(*number)),
        }
    }

    /// The k-th task that has a policy, and the policy.
    pub(crate) fn at(&self, k: usize) -> Option<(u32, Record)>
        ensures at { result ≡ slice_get self.now k }
        ensures record { IfSome result (λ held. record_of self.now held.0 ≡ Some held.1) }
    {
        match self.numbers.get_index(k) {
            None => None,
            Some((task, number)) => Some((*task, self.records.get(*number))),
        }
    }

    /// Sets the policy of a task.
    pub(crate) fn set(&mut self, task: u32, policy: Record) -> Result<(), AllocError>
        ensures records { OnOk result ((other : ℕ)
            → record_of self.new other ≡ if task == other then Some policy
            else record_of self.old other) }
        ensures count { OnOk result (length self.new
            ≡ length self.old + (if is_some (record_of self.old task) then 0 else 1)) }
        ensures err { OnErr result (self.new ≡ self.old) }
    {
        self.put(task, policy)?;
        self.tidy();
        Ok(())
    }

    /// Sets the policy of a task; records that no task has any more stay until `tidy`.
    fn put(&mut self, task: u32, policy: Record) -> Result<(), AllocError>
        ensures records { OnOk result ((other : ℕ)
            → record_of self.new other ≡ if task == other then Some policy
            else record_of self.old other) }
        ensures count { OnOk result (length self.new
            ≡ length self.old + (if is_some (record_of self.old task) then 0 else 1)) }
        ensures last { OnOk result (record_of self.old task ≡ None
            → self.new ≡ self.old ++ (task, policy) ∷ []) }
        ensures err { OnErr result (self.new ≡ self.old) }
    {
        let number = self.records.add(policy)?;
        let Ok(_) = self.numbers.insert(task, number) else {
            return Err(AllocError);
        };
        Ok(())
    }

    /// Renumbers the records if there are far more of them than tasks. Without memory for that
    /// nothing changes.
    fn tidy(&mut self)
        ensures { self.new ≡ self.old }
    {
        if self.records.len() / 2 > self.numbers.len() + SPARE {
            self.renumber();
        }
    }

    /// Renumbers the records, if there is memory for it.
    #[inline(never)]
    fn renumber(&mut self)
        ensures { self.new ≡ self.old }
    {
        if let Some(fresh) = self.renumbered() {
            *self = fresh;
        }
    }

    /// The same policies without records that no task has; `None` on out-of-memory.
    fn renumbered(&self) -> Option<Tasks>
        ensures { IfSome result (λ fresh. fresh ≡ self.now) }
    {
        let mut fresh = Tasks::new(self.alloc);
        for k in 0..self.len() {
            let Some(held) = self.at(k) else {
                return None;
            };
            let Ok(()) = fresh.put(held.0, held.1) else {
                return None;
            };
        }
        Some(fresh)
    }

    /// Removes a task's policy, if it has one.
    pub(crate) fn clear(&mut self, task: u32)
        ensures records { (other : ℕ) → record_of self.new other ≡ if task == other then None
            else record_of self.old other }
        ensures count { length self.new + (if is_some (record_of self.old task) then 1 else 0)
            ≡ length self.old }
    {
        let _ = self.numbers.shift_remove(&task);
    }

    /// Updates every policy for a change of the allowed nodes; it doesn't allocate.
    pub(crate) fn rebind(&mut self, rules: Rules, old: &NodeMask, new: &NodeMask)
        requires some { new.now ≢ 0 }
        ensures records { (task : ℕ) → record_of self.new task
            ≡ policy_after rules old.now new.now (record_of self.old task) }
        ensures count { length self.new ≡ length self.old }
    {
        self.records.rebind(rules, old, new);
    }
}
