//! Building plans, for the compiler.
ghost use Rattle.std.specs.Prelude.{◌≡◌, ◌≢◌, ℕ, ◌+◌, ◌<◌, ◌≤◌, ◌^◌, ◌-◌, length, None};
ghost use Rattle.std.specs.Prelude.{Some, IsSome, IfOk, OnOk, OnErr, [], ◌∷◌, ◌++◌};
ghost use Rattle.std.specs.Option.{ForSome};
ghost use Rattle.numa_ranges.specs.Runs.{AreApart};
ghost use Rattle.numa_plan.specs.Counted.{one_rule, one_run};
ghost use Rattle.numa_plan.specs.Rows.{HasRows};
ghost use Rattle.numa_plan.specs.Meaning.{number_of, planned_list};
ghost use Rattle.numa_plan.specs.Slots.{kept_in, rule_in, IsLowestFree, EndsTaken};
ghost use Rattle.numa_plan.specs.Building.{empty_plan, with_rule, with_run, with_task};

use crate::numbers::Numbers;
use crate::plan::Plan;
use crate::rule::Rule;
use crate::runs::PlanRuns;
use crate::slots::{leave_named, put_lowest, use_named, use_rule, uses_at};
use crate::steps::Steps;
use crate::task_numbers::TaskNumbers;
use numa_machine::NoMemory;
use numa_mode::Record;
use numa_ranges::Run;
use std::alloc::Global;

impl Plan {
    /// A plan of version 0 for a machine with `nodes` nodes, without runs, rules in slots and
    /// tasks. The local rule has a row for each node. It doesn't allocate.
    pub fn new(alloc: Global, nodes: u32, local: Rule) -> Plan
        requires { HasRows nodes local }
        ensures { result ≡ empty_plan nodes local }
    {
        Plan {
            alloc,
            version: 0,
            nodes,
            runs: PlanRuns::new(alloc),
            slots: Vec::new(alloc),
            lowest_free: 0,
            tasks: TaskNumbers::new(alloc),
            local,
            numbers: Numbers::new(alloc),
        }
    }

    /// Writes the rule of a policy, with a row for each of the plan's nodes at each index, into the
    /// lowest free slot or, if none is free, a new one, and returns the slot's number. No run and
    /// no task uses the rule yet, so no list changes; an immediate `drop_rule` of that number
    /// restores the plan.
    ///
    /// # Errors
    /// `NoMemory`: there is no memory for the rule or the slot, or there are already 2^32 slots.
    /// Then the plan hasn't changed.
    pub fn add_rule(
        &mut self,
        policy: Record,
        rule: Rule,
        steps: &mut Steps,
    ) -> Result<u32, NoMemory>
        requires rows { HasRows self.old.nodes rule }
        ensures ok { IfOk result (λ number. IsLowestFree self.old.slots number
            × (self.new ≡ with_rule self.old number (record { policy = policy; rule = rule }))
            × (steps.new ≡ one_rule steps.old)) }
        ensures here { IfOk result (λ number. kept_in self.new.slots number
            ≡ Some (record { policy = policy; rule = rule })) }
        ensures others { IfOk result (λ number. (other : ℕ) → other ≢ number
            → kept_in self.new.slots other ≡ kept_in self.old.slots other) }
        ensures ends { IfOk result (λ number. (number < length self.new.slots)
            × (kept_in self.old.slots number ≡ None) × EndsTaken self.old.slots) }
        ensures sized { OnOk result (length self.new.slots ≤ length self.old.slots + 1) }
        ensures lists { OnOk result ((task page cpu : ℕ)
            → planned_list self.new task page cpu ≡ planned_list self.old task page cpu) }
        ensures err { OnErr result ((self.new ≡ self.old) × (steps.new ≡ steps.old)) }
    {
        let number = put_lowest(self.alloc, &mut self.slots, self.lowest_free, policy, rule)?;
        self.lowest_free = number as usize + 1;
        self.numbers.enter(policy, number);
        steps.rule_written();
        Ok(number)
    }

    /// Appends a run. It begins where the others end or later, isn't empty, ends by page 2^35 and
    /// has indexes below 2^36, and its rule, if it names one, exists.
    ///
    /// # Errors
    /// `NoMemory`: there is no memory for another run. Then the plan hasn't changed.
    pub fn push_run(&mut self, run: Run<Option<u32>>, steps: &mut Steps) -> Result<(), NoMemory>
        requires apart { AreApart 0 (self.old.runs ++ run ∷ []) }
        requires named { ForSome run.value (λ number. IsSome (rule_in self.old.slots number)) }
        requires few { length self.old.runs + length self.old.tasks < 2 ^ 32 - 1 }
        ensures ok { OnOk result ((self.new ≡ with_run self.old run)
            × (steps.new ≡ one_run steps.old)) }
        ensures err { OnErr result ((self.new ≡ self.old) × (steps.new ≡ steps.old)) }
    {
        let named = run.value;
        self.runs.push(run, steps)?;
        use_named(&mut self.slots, named);
        Ok(())
    }

    /// Sets the rule of a task, by its number; with `None` the task has no rule any more. It writes
    /// no run and no rule.
    ///
    /// # Errors
    /// `NoMemory`: there is no memory for another task, or the rule already has 2^32 - 1 uses;
    /// never with `None`. Then the plan hasn't changed.
    pub fn set_task(&mut self, task: u32, number: Option<u32>) -> Result<(), NoMemory>
        requires named { ForSome number (λ number. IsSome (rule_in self.old.slots number)) }
        ensures ok { OnOk result (self.new ≡ with_task self.old task number) }
        ensures given { OnOk result (number_of self.new.tasks task ≡ number) }
        ensures others { OnOk result ((other : ℕ) → other ≢ task
            → number_of self.new.tasks other ≡ number_of self.old.tasks other) }
        ensures sized { OnOk result (length self.new.tasks ≤ length self.old.tasks + 1) }
        ensures slots { OnOk result (length self.new.slots ≡ length self.old.slots) }
        ensures kept { OnOk result ((number : ℕ)
            → kept_in self.new.slots number ≡ kept_in self.old.slots number) }
        ensures err { OnErr result (self.new ≡ self.old) }
        ensures room { OnErr result (number ≢ None) }
    {
        match number {
            Some(number) => self.give_rule(task, number),
            None => {
                self.take_rule(task);
                Ok(())
            }
        }
    }

    /// Sets the rule of a task.
    fn give_rule(&mut self, task: u32, number: u32) -> Result<(), NoMemory>
        requires named { IsSome (rule_in self.old.slots number) }
        ensures ok { OnOk result (self.new ≡ with_task self.old task (Some number)) }
        ensures given { OnOk result (number_of self.new.tasks task ≡ Some number) }
        ensures others { OnOk result ((other : ℕ) → other ≢ task
            → number_of self.new.tasks other ≡ number_of self.old.tasks other) }
        ensures sized { OnOk result (length self.new.tasks ≤ length self.old.tasks + 1) }
        ensures err { OnErr result (self.new ≡ self.old) }
    {
        if uses_at(&self.slots, number) == u32::MAX {
            return Err(NoMemory);
        }
        let had = self.tasks.insert(task, number)?;
        use_rule(&mut self.slots, number);
        leave_named(&mut self.slots, had);
        Ok(())
    }

    /// Removes a task's rule, if it has one.
    fn take_rule(&mut self, task: u32)
        ensures ok { self.new ≡ with_task self.old task None }
        ensures given { number_of self.new.tasks task ≡ None }
        ensures others { (other : ℕ) → other ≢ task
            → number_of self.new.tasks other ≡ number_of self.old.tasks other }
        ensures sized { length self.new.tasks ≤ length self.old.tasks + 1 }
    {
        let had = self.tasks.remove(task);
        leave_named(&mut self.slots, had);
    }

    /// Sets the version.
    pub fn set_version(&mut self, version: u64)
        ensures { self.new ≡ record self.old { version = version } }
    {
        self.version = version;
    }
}
