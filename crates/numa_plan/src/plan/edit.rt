//! Editing plans in place.
ghost use Rattle.std.specs.Prelude.{◌≡◌, ◌≢◌, ℕ, ◌+◌, ◌<◌, ◌≤◌, ◌^◌, length, All};
ghost use Rattle.std.specs.Prelude.{IsSome, IfSome, Some, None, IfOk, OnOk, OnErr};
ghost use Rattle.std.specs.Bool.{OnTrue};
ghost use Rattle.std.specs.Option.{ForSome};
ghost use Rattle.std.specs.List.{slice_range, splice};
ghost use Rattle.numa_ranges.specs.Runs.{AreApart};
ghost use Rattle.numa_plan.specs.Counted.{more_runs, one_rule};
ghost use Rattle.numa_plan.specs.Rows.{HasRows, Kept};
ghost use Rattle.numa_plan.specs.Meaning.{PlanData, planned_list};
ghost use Rattle.numa_plan.specs.Slots.{kept_in, policy_in, rule_in, uses_in, IsLowestFree};
ghost use Rattle.numa_plan.specs.Slots.{EndsTaken};
ghost use Rattle.numa_plan.specs.Building.{with_rule};
ghost use Rattle.numa_plan.specs.Editing.{with_runs, with_written, without_rule};

use crate::plan::Plan;
use crate::plan::uncounted::spliced;
use crate::runs::Beside;
use crate::shared_rule::SharedRule;
use crate::slots::{free_slot, leave_all, policy_at, use_all, write_other};
use crate::steps::Steps;
use numa_machine::NoMemory;
use numa_mode::Record;
use numa_ranges::Run;

/// Whether the uses of a rule by this many runs and tasks, and `more` runs, can be counted.
fn can_count(runs: usize, tasks: usize, more: usize) -> bool
    ensures { OnTrue result (runs + tasks + more < 2 ^ 32) }
{
    let limit = u32::MAX as usize;
    runs.saturating_add(tasks).saturating_add(more) <= limit
}

impl Plan {
    /// Replaces the runs from place `from` to `to`, which is excluded. Runs stay disjoint, and each
    /// rule that is named exists. `steps` counts each new run.
    ///
    /// # Errors
    /// `NoMemory`: there is no memory for the runs, or the plan's runs and tasks and these runs are
    /// 2^32 or more. Then the plan hasn't changed.
    pub fn splice_runs(
        &mut self,
        from: usize,
        to: usize,
        runs: &[Run<Option<u32>>],
        steps: &mut Steps,
    ) -> Result<(), NoMemory>
        requires rises { from ≤ to }
        requires within { to ≤ length self.old.runs }
        requires apart { AreApart 0 (splice self.old.runs from to runs.now) }
        requires named { All (λ run. ForSome run.value (λ number.
            IsSome (rule_in self.old.slots number))) runs.now }
        ensures ok { OnOk result ((self.new ≡ with_runs self.old from to runs.now)
            × (steps.new ≡ more_runs (length runs.now) steps.old)) }
        ensures kept { OnOk result ((number : ℕ)
            → kept_in self.new.slots number ≡ kept_in self.old.slots number) }
        ensures err { OnErr result ((self.new ≡ self.old) × (steps.new ≡ steps.old)) }
    {
        self.replace_runs(from, to, runs, 0, steps)?;
        Ok(())
    }

    /// As [`Plan::splice_runs`], and returns the replaced runs. `near` is a guess at their chunk,
    /// as from [`Plan::window_near`]; only speed depends on it.
    ///
    /// # Errors
    /// As for `splice_runs`.
    pub fn replace_runs(
        &mut self,
        from: usize,
        to: usize,
        runs: &[Run<Option<u32>>],
        near: usize,
        steps: &mut Steps,
    ) -> Result<Vec<Run<Option<u32>>>, NoMemory>
        requires rises { from ≤ to }
        requires within { to ≤ length self.old.runs }
        requires apart { AreApart 0 (splice self.old.runs from to runs.now) }
        requires named { All (λ run. ForSome run.value (λ number.
            IsSome (rule_in self.old.slots number))) runs.now }
        ensures gone { IfOk result (λ gone. gone.items ≡ slice_range self.old.runs from to) }
        ensures ok { OnOk result ((self.new ≡ with_runs self.old from to runs.now)
            × (steps.new ≡ more_runs (length runs.now) steps.old)) }
        ensures kept { OnOk result ((number : ℕ)
            → kept_in self.new.slots number ≡ kept_in self.old.slots number) }
        ensures err { OnErr result ((self.new ≡ self.old) × (steps.new ≡ steps.old)) }
    {
        if !can_count(self.runs.len(), self.tasks.len(), runs.len()) {
            return Err(NoMemory);
        }
        let window = Beside { from, to, near };
        let gone = spliced(&mut self.runs, self.alloc, window, runs, steps)?;
        use_all(&mut self.slots, runs);
        leave_all(&mut self.slots, &gone);
        Ok(gone)
    }

    /// Replaces the rule in a slot by one for the same policy, with a row for each of the plan's
    /// nodes at each index. Its runs and tasks use the new rule from now on. It doesn't allocate.
    pub fn write_rule(&mut self, number: u32, shared: SharedRule, steps: &mut Steps)
        requires there { policy_in self.old.slots number ≡ Some shared.policy }
        requires rows { HasRows self.old.nodes shared.rule }
        ensures ok { self.new ≡ with_written self.old number shared }
        ensures here { kept_in self.new.slots number ≡ Some shared }
        ensures others { (other : ℕ) → other ≢ number
            → kept_in self.new.slots other ≡ kept_in self.old.slots other }
        ensures slots { length self.new.slots ≡ length self.old.slots }
        ensures written { steps.new ≡ one_rule steps.old }
    {
        write_other(&mut self.slots, number, shared);
        steps.rule_written();
    }

    /// Removes a rule that no run and no task uses. Its slot becomes free; free slots at the end
    /// are removed. No list changes. Dropping a rule that was added last restores the plan.
    pub fn drop_rule(&mut self, number: u32)
        requires there { IsSome (rule_in self.old.slots number) }
        requires unused { uses_in self.old.slots number ≡ 0 }
        ensures ok { self.new ≡ without_rule self.old number }
        ensures lists { (task page cpu : ℕ)
            → planned_list self.new task page cpu ≡ planned_list self.old task page cpu }
        ensures gone { kept_in self.new.slots number ≡ None }
        ensures others { (other : ℕ) → other ≢ number
            → kept_in self.new.slots other ≡ kept_in self.old.slots other }
        ensures undone { (plan : PlanData) (kept : Kept) → IsLowestFree plan.slots number
            → EndsTaken plan.slots → self.old ≡ with_rule plan number kept → self.new ≡ plan }
    {
        let place = number as usize;
        self.numbers.forget(policy_at(&self.slots, number));
        free_slot(&mut self.slots, place);
        self.lowest_free = self.lowest_free.min(place);
    }

    /// Reserves memory for `rules` more rules, so that it isn't allocated one by one. The plan
    /// doesn't change.
    ///
    /// # Errors
    /// `NoMemory`: out of memory.
    pub fn reserve(&mut self, rules: usize) -> Result<(), NoMemory>
        ensures same { self.new ≡ self.old }
    {
        self.slots.reserve(rules).ok().ok_or(NoMemory)
    }

    /// The number of a slot that holds the rule of this policy, if it is known from a private
    /// table, which a copied plan fills first. A rule that was added without memory for its entry
    /// isn't found. The plan doesn't change.
    pub fn number_for_policy(&mut self, policy: &Record) -> Option<u32>
        ensures number { IfSome result (λ number.
            policy_in self.new.slots number ≡ Some policy.now) }
        ensures same { self.new ≡ self.old }
    {
        self.numbers.number_for(&self.slots, policy)
    }
}
