//! The numbers of tasks' rules.
ghost use Rattle.std.specs.Prelude.{◌≡◌, ℕ, ◌<◌, ◌≤◌, length, Some, None, [], IfOk, IfSome, OnErr};
ghost use Rattle.std.specs.Prelude.{slice_get, OnOk, ◌≢◌, ◌+◌};
ghost use Rattle.std.specs.BTreeMap.{insert_entry, is_at};
ghost use Rattle.std.specs.Map.{remove_entry};
ghost use Rattle.std.specs.Ordering.{nat_cmp};
ghost use Rattle.numa_plan.specs.Meaning.{number_of};
ghost use Rattle.numa_plan.specs.TaskTable.{AreSorted, IsPlaceOf};

use std::alloc::{AllocError, Global};
use std::marker::Model;

/// The number of the rule of each task that has one, in ascending order of the tasks. A copy costs
/// one copy of memory, however many tasks there are.
#[derive(Drop)]
pub(crate) struct TaskNumbers {
    entries: Vec<(u32, u32)>,
}

impl Model for TaskNumbers {
    ghost use Rattle.std.specs.Prelude.{List, ℕ};
    ghost use Rattle.numa_plan.specs.TaskTable.{AreSorted};

    ghost Value = { List (ℕ × ℕ) };

    ghost view = { λ a. a.entries.items };

    ghost invariant = { λ a. AreSorted a.entries.items };
}

/// The place of a task's entry, or the one at which it would be inserted.
#[inline]
fn place_of(entries: &[(u32, u32)], task: u32) -> usize
    requires { AreSorted entries.now }
    ensures place { IsPlaceOf task entries.now result }
    ensures within { result ≤ length entries.now }
{
    entries.partition_point(|entry| entry.0 < task)
}

/// The number at a task's place, if the task has an entry.
#[inline]
fn number_at(entries: &[(u32, u32)], place: usize, task: u32) -> Option<u32>
    requires sorted { AreSorted entries.now }
    requires place { IsPlaceOf task entries.now place }
    ensures number { result ≡ number_of entries.now task }
    ensures there { IfSome result (λ number. slice_get entries.now place ≡ Some (task, number)) }
{
    if place >= entries.len() {
        return None;
    }
    let entry = entries[place];
    if entry.0 == task { Some(entry.1) } else { None }
}

impl TaskNumbers {
    /// No task has a number; it doesn't allocate.
    pub(crate) fn new(alloc: Global) -> TaskNumbers
        ensures { result ≡ [] }
    {
        TaskNumbers {
            entries: Vec::new(alloc),
        }
    }

    /// Returns a copy.
    pub(crate) fn copy(&self, alloc: Global) -> Result<TaskNumbers, AllocError>
        ensures { IfOk result (λ copy. copy ≡ self.now) }
    {
        let entries = Vec::from_slice(alloc, &self.entries)?;
        Ok(TaskNumbers { entries })
    }

    /// The number of tasks that have a number.
    pub(crate) fn len(&self) -> usize
        ensures count { result ≡ length self.now }
        ensures sorted { AreSorted self.now }
    {
        self.entries.len()
    }

    /// The number of a task.
    #[inline]
    pub(crate) fn get(&self, task: u32) -> Option<u32>
        ensures { result ≡ number_of self.now task }
    {
        let place = place_of(&self.entries, task);
        number_at(&self.entries, place, task)
    }

    /// Sets the number of a task, and returns the one that it had.
    ///
    /// # Errors
    /// `AllocError`: there is no memory for another task. Then nothing has changed.
    pub(crate) fn insert(&mut self, task: u32, number: u32) -> Result<Option<u32>, AllocError>
        ensures old { IfOk result (λ had. had ≡ number_of self.old task) }
        ensures entries { OnOk result (self.new ≡ insert_entry nat_cmp self.old task number) }
        ensures given { OnOk result (number_of self.new task ≡ Some number) }
        ensures others { OnOk result ((other : ℕ) → other ≢ task
            → number_of self.new other ≡ number_of self.old other) }
        ensures sized { OnOk result (length self.new ≤ length self.old + 1) }
        ensures was_sorted { AreSorted self.old }
        ensures err { OnErr result (self.new ≡ self.old) }
    {
        let place = place_of(&self.entries, task);
        let Some(had) = number_at(&self.entries, place, task) else {
            let Ok(()) = self.entries.insert(place, (task, number)) else {
                return Err(AllocError);
            };
            return Ok(None);
        };
        self.entries[place] = (task, number);
        Ok(Some(had))
    }

    /// Removes the number of a task, and returns it.
    pub(crate) fn remove(&mut self, task: u32) -> Option<u32>
        ensures value { result ≡ number_of self.old task }
        ensures entries { self.new ≡ remove_entry (is_at (nat_cmp task)) self.old }
        ensures given { number_of self.new task ≡ None }
        ensures others { (other : ℕ) → other ≢ task
            → number_of self.new other ≡ number_of self.old other }
        ensures sized { length self.new ≤ length self.old + 1 }
    {
        let place = place_of(&self.entries, task);
        let Some(had) = number_at(&self.entries, place, task) else {
            return None;
        };
        let _ = self.entries.remove(place);
        Some(had)
    }
}
