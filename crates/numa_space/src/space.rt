//! Spaces of pages and their policies.
ghost use Rattle.std.specs.Prelude.{◌≡◌, ◌≢◌, ◌≤◌, ◌<◌, ℕ, IfOk, OnOk, IfErr, IfSome, None};
ghost use Rattle.std.specs.Prelude.{Option, Some, List, [], length, slice_get};
ghost use Rattle.std.specs.Prelude.{take, AllPairs, Contains, ◌↔◌, ◌+◌, ◌^◌, is_some, not};
ghost use Rattle.numa_machine.specs.Machine.{Hardware};
ghost use Rattle.numa_machine.specs.Weights.{weight_at};
ghost use Rattle.numa_mode.specs.Policy.{PolicyRecord};
ghost use Rattle.numa_ranges.specs.Counts.{IsRange, range_count};
ghost use Rattle.numa_ranges.specs.Maps.{any_page};
ghost use Rattle.numa_ranges.specs.Numbered.{AreRowsOf};
ghost use Rattle.numa_ranges.specs.Runs.{AreApart, AreMaximal, page_at};
ghost use Rattle.numa_ranges.specs.declared.run.Run.{Run};
ghost use Rattle.numa_space.specs.Changed.{IsChange};
ghost use Rattle.numa_requests.specs.declared.command.Command.{Command};
ghost use Rattle.numa_space.specs.Policies.{allowed_nodes, node_weight, task_record, tasks_of};
ghost use Rattle.numa_space.specs.Pages.{page_in};
ghost use Rattle.numa_space.specs.Refusals.{range_count_of};
ghost use Rattle.numa_space.specs.Same.{same_record};
ghost use Rattle.numa_space.specs.Standing.{HasHistory, IsSound, SpaceState, StandsFor};
ghost use Rattle.numa_space.specs.Standing.{accepted_of, record_of};
ghost use Rattle.numa_space.specs.Steps.{IsApplied, MayStopAt};

use crate::change::Change;
use crate::page_ranges::Pages;
use crate::range_record::RangeRecord;
use crate::range_rows::RangeRows;
use crate::task_policies::Tasks;
use numa_machine::{Machine, NoMemory, Weights};
use numa_mask::NodeMask;
use numa_mode::Record;
use numa_ranges::{RangeIter, Run};
use numa_requests::{Command, Limits, Refusal};
use std::alloc::Global;
use std::marker::Model;

mod changes;
mod parts;
mod place;
mod spans;

/// The pages, policies, weights and allowed nodes of one machine, as the accepted commands left
/// them.
pub struct Space {
    machine: Machine,
    limits: Limits,
    version: u64,
    allowed: NodeMask,
    pages: Pages,
    tasks: Tasks,
    weights: Weights,
    // Whether pages of 2 MiB may be mapped; where none are, nothing looks for them.
    has_huge: bool,
}

// (By hand, so that it is proved here alone: a derived one is proved in each crate that drops.)
impl Drop for Space {
    fn drop(self) {
        let Space {
            machine,
            limits: _,
            version: _,
            allowed: _,
            pages,
            tasks,
            weights,
            has_huge: _,
        } = self;
        drop(machine);
        drop(pages);
        drop(tasks);
        drop(weights);
    }
}

impl Model for Space {
    ghost use Rattle.numa_space.specs.Standing.{SpaceState};

    ghost Value = { SpaceState };

    ghost use Rattle.numa_space.specs.Inside.{shown_of, IsKept};

    ghost view = { shown_of };

    ghost invariant = { IsKept };
}

impl Space {
    /// A space in which nothing is mapped, no task has a policy, every weight is 1 and all nodes
    /// with memory are allowed. It doesn't allocate; the allocator is kept for later commands.
    pub fn new(alloc: Global, machine: Machine, limits: Limits) -> Space
        ensures stands { StandsFor result [] }
        ensures machine { result.machine ≡ machine }
        ensures bounds { result.bounds ≡ limits }
    {
        let allowed = machine.memory();
        let width = allowed.weight();
        prove!(width > 0);
        let weights = Weights::new(machine.nodes());
        Space {
            machine,
            limits,
            version: 0,
            allowed,
            pages: Pages::new(alloc, limits.max_ranges()),
            tasks: Tasks::new(alloc),
            weights,
            has_huge: false,
        }
    }

    /// Returns a copy, which stands for the same histories. A command to one of the two doesn't
    /// affect the other, so a caller can try commands on a copy.
    ///
    /// # Errors
    /// `NoMemory`: there is no memory for the copy's machine, ranges and task policies.
    pub fn copy(&self, alloc: Global) -> Result<Space, NoMemory>
        ensures same { IfOk result (λ copy. copy ≡ self.now) }
        ensures stands { (history : List Command) → StandsFor self.now history
            → IfOk result (λ copy. StandsFor copy history) }
    {
        let machine = self.machine.copy(alloc)?;
        let pages = self.pages.copy()?;
        let tasks = self.tasks.copy()?;
        Ok(Space {
            machine,
            limits: self.limits,
            version: self.version,
            allowed: self.allowed,
            pages,
            tasks,
            weights: self.weights,
            has_huge: self.has_huge,
        })
    }

    /// Carries out a command, or refuses it. Returns what it changed.
    ///
    /// # Errors
    /// The first cause that applies, as [`Refusal`] lists them; `NoMemory` is the last. Then the
    /// space hasn't changed.
    ///
    /// # Examples
    /// A space after some commands:
    ///
    /// ```
    /// let mut space = Space::new(alloc, machine(alloc)?, limits()?);
    /// for place in 0..version {
    ///     space.apply(&command(place)?).ok()?;
    /// }
    /// ```
    pub fn apply(&mut self, command: &Command) -> Result<Change, Refusal>
        ensures applied { IsApplied self.old command.now result self.new }
        ensures change { IfOk result (IsChange self.old command.now) }
    {
        // Tell the proof that the ranges are maximal, and the limits of ranges and tasks.
        let _ = self.range_iter();
        let _ = self.ranges();
        let _ = self.task_count();
        self.answer(command)
    }

    /// Carries out commands in order, and skips those that are refused for a cause other than
    /// memory.
    ///
    /// # Errors
    /// Out of memory for a command: the number of commands before it. Those were carried out or
    /// skipped, and this one was not.
    pub fn apply_all(&mut self, commands: &[Command]) -> Result<(), usize>
        ensures ok { (history : List Command) → StandsFor self.old history → OnOk result
            (StandsFor self.new (accepted_of self.old.machine self.old.bounds commands.now
            history)) }
        ensures err { (history : List Command) → StandsFor self.old history
            → IfErr result (λ done. StandsFor self.new
            (accepted_of self.old.machine self.old.bounds (take done commands.now) history)) }
        ensures stop { (history : List Command) → StandsFor self.old history → IfErr result
            (MayStopAt self.old.machine self.old.bounds commands.now history) }
        ensures machine { self.new.machine ≡ self.old.machine }
        ensures bounds { self.new.bounds ≡ self.old.bounds }
    {
        for (done, command) in commands.iter().enumerate() {
            if let Err(Refusal::NoMemory) = self.apply(command) {
                return Err(done);
            }
        }
        Ok(())
    }

    /// The number of accepted commands. Every space stands for the history of these.
    pub fn version(&self) -> u64
        ensures version { result ≡ self.now.version }
        ensures meaning { (history : List Command) → StandsFor self.now history
            → result ≡ length history }
        ensures limit { result ≤ self.now.bounds.max_commands }
        ensures history { HasHistory self.now }
    {
        self.version
    }

    /// The machine.
    pub fn machine(&self) -> &Machine
        ensures { result.now ≡ self.now.machine }
    {
        &self.machine
    }

    /// The nodes on which memory may be placed. All have memory.
    pub fn allowed(&self) -> NodeMask
        ensures allowed { result ≡ self.now.allowed }
        ensures meaning { (history : List Command) → StandsFor self.now history
            → result ≡ allowed_nodes self.now.machine history }
        ensures some { result ≢ 0 }
        ensures sound { IsSound self.now }
    {
        self.allowed
    }

    /// The weights of the nodes.
    pub fn weights(&self) -> &Weights
        ensures weights { result.now ≡ self.now.weights }
        ensures meaning { (history : List Command) → StandsFor self.now history
            → (node : ℕ) → weight_at result.now node ≡ node_weight history node }
    {
        &self.weights
    }

    /// The number of ranges: of mapped pages whose predecessor isn't mapped, has another own
    /// policy, or an index that isn't one less. Linux can keep more areas, since it doesn't always
    /// merge equal neighbours, or fewer (docs/KERNEL.md).
    pub fn ranges(&self) -> usize
        ensures ranges { result ≡ length self.now.ranges }
        ensures count { result ≡ range_count same_record (page_at self.now.ranges) }
        ensures meaning { (history : List Command) → StandsFor self.now history
            → result ≡ range_count_of self.now.machine history }
        ensures limit { result ≤ self.now.bounds.max_ranges }
        ensures at_most { result ≤ 65536 }
    {
        // Tells the proof that the limit is at most 65,536.
        let _ = self.limits.max_ranges();
        self.pages.len()
    }

    /// Whether some of the `pages` pages from page `first` on isn't mapped.
    pub fn has_hole(&self, first: u64, pages: u64) -> bool
        requires { first + pages ≤ 2 ^ 35 }
        ensures { result ≡ any_page (λ page. not (is_some (page_at self.now.ranges page))) first
            pages }
    {
        self.pages.has_hole(first, pages)
    }

    /// The ranges in ascending order, each with its first page, its number of pages, its first
    /// index and, by `value.policy()`, its own policy, if it has one. No two of them could be
    /// joined.
    pub fn range_iter(&self) -> RangeIter<'_, RangeRecord>
        ensures runs { result ≡ self.now.ranges }
        ensures rising { AreApart 0 self.now.ranges }
        ensures maximal { AreMaximal self.now.ranges }
        ensures ranges { (run : Run (Option PolicyRecord)) → Contains self.now.ranges run
            ↔ IsRange same_record (page_at self.now.ranges) run }
        ensures meaning { (history : List Command) → StandsFor self.now history
            → (run : Run (Option PolicyRecord)) → Contains self.now.ranges run
            ↔ IsRange same_record (page_in self.now.machine history) run }
    {
        self.pages.iter()
    }

    /// The range at `place`, counted from 0 in ascending order as by `range_iter`; `None` from
    /// `ranges` on.
    pub fn range_at(&self, place: usize) -> Option<Run<RangeRecord>>
        ensures range { result ≡ slice_get self.now.ranges place }
        ensures rising { AreApart 0 self.now.ranges }
        ensures maximal { AreMaximal self.now.ranges }
    {
        // Tells the proof that the ranges are in ascending order and maximal.
        let _ = self.pages.iter();
        self.pages.range_at(place)
    }

    /// The ranges in ascending order, each with the number of its record, and the records by
    /// number: so a caller can derive something once for all ranges with one number. Equal records
    /// can have several numbers, and some records may belong to no range.
    pub fn range_rows(&self) -> (RangeRows<'_>, &[RangeRecord])
        ensures { AreRowsOf result.1.now result.0 self.now.ranges }
    {
        self.pages.rows()
    }

    /// The number of tasks that have a policy.
    pub fn task_count(&self) -> usize
        ensures tasks { result ≡ length self.now.tasks }
        ensures meaning { (history : List Command) → StandsFor self.now history
            → result ≡ length (tasks_of history) }
        ensures limit { result ≤ self.now.bounds.max_tasks }
        ensures at_most { result ≤ 1024 }
        ensures each_once { AllPairs (λ earlier later. earlier.0 ≢ later.0) self.now.tasks }
    {
        // Tells the proof that the limit is at most 1,024.
        let _ = self.limits.max_tasks();
        self.tasks.len()
    }

    /// The k-th task that has a policy, and the policy; `None` from `task_count` on. Each such task
    /// is at one place.
    pub fn task_at(&self, k: usize) -> Option<(u32, Record)>
        ensures task { result ≡ slice_get self.now.tasks k }
        ensures every { (task : ℕ) (policy : PolicyRecord)
            → record_of self.now.tasks task ≡ Some policy
            → (place : ℕ) × (slice_get self.now.tasks place ≡ Some (task, policy)) }
        ensures policy { IfSome result (λ held. record_of self.now.tasks held.0 ≡ Some held.1) }
        ensures meaning { (history : List Command) → StandsFor self.now history
            → IfSome result (λ held. task_record self.now.machine history held.0 ≡ Some held.1) }
    {
        self.tasks.at(k)
    }

    /// The policy of a task, if it has one.
    pub fn task_policy(&self, task: u32) -> Option<Record>
        ensures policy { result ≡ record_of self.now.tasks task }
        ensures meaning { (history : List Command) → StandsFor self.now history
            → result ≡ task_record self.now.machine history task }
    {
        self.tasks.get(task)
    }
}
