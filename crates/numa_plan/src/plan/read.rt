//! What an editor reads of a plan.
ghost use Rattle.std.specs.Prelude.{◌≡◌, ◌≢◌, ◌↔◌, ℕ, ◌<◌, ◌≤◌, length, All, Some, slice_get};
ghost use Rattle.std.specs.Prelude.{count_by, is_some};
ghost use Rattle.std.specs.Option.{option_map};
ghost use Rattle.numa_ranges.specs.Runs.{page_at};
ghost use Rattle.numa_ranges.specs.Windows.{IsWindow};
ghost use Rattle.numa_plan.specs.Counted.{FindsQuickly, FindsTwice};
ghost use Rattle.numa_plan.specs.Editing.{IsUnnamed};
ghost use Rattle.numa_plan.specs.Meaning.{number_of};
ghost use Rattle.numa_plan.specs.Slots.{policy_in, rule_of_slot, uses_in};

use crate::plan::Plan;
use crate::plan::uncounted::{found_near, run_at, window_near};
use crate::slots::{policy_at, taken_count, uses_at};
use crate::steps::Steps;
use numa_mode::Record;
use numa_ranges::Run;

impl Plan {
    /// The policy whose rule is in a slot.
    pub fn policy_of(&self, number: u32) -> Option<Record>
        ensures { result ≡ policy_in self.now.slots number }
    {
        policy_at(&self.slots, number)
    }

    /// The number of rules in slots.
    pub fn rule_count(&self) -> usize
        ensures { result ≡ count_by (λ slot. is_some (rule_of_slot slot)) self.now.slots }
    {
        taken_count(&self.slots)
    }

    /// The number of slots, free or taken: one more than the highest number of a rule.
    pub fn slot_count(&self) -> usize
        ensures { result ≡ length self.now.slots }
    {
        self.slots.len()
    }

    /// The number of runs and tasks that use the rule in a slot.
    pub fn uses(&self, number: u32) -> u32
        ensures uses { result ≡ uses_in self.now.slots number }
        ensures named { (result ≡ 0) ↔ IsUnnamed self.now number }
    {
        // Tells the proof that no task is in it twice.
        let _ = self.tasks.len();
        uses_at(&self.slots, number)
    }

    /// The number of a task's rule, if it has one.
    pub fn task_number(&self, task: u32) -> Option<u32>
        ensures { result ≡ number_of self.now.tasks task }
    {
        self.tasks.get(task)
    }

    /// The run at a place, in ascending order.
    pub fn run_at(&self, place: usize) -> Option<Run<Option<u32>>>
        ensures { result ≡ slice_get self.now.runs place }
    {
        run_at(&self.runs, place)
    }

    /// The number of the rule of the run that has a page; the outer `None` if no run has it. The
    /// page is compared as by [`Plan::choice`].
    pub fn number_at(&self, page: u64, steps: &mut Steps) -> Option<Option<u32>>
        ensures number { result ≡ option_map (λ at. at.1) (page_at self.now.runs page) }
        ensures quick { FindsQuickly steps.old steps.new (length self.now.runs) }
    {
        match self.runs.find(page, steps) {
            Some(found) => Some(found.rule),
            None => None,
        }
    }

    /// The places of the runs that have a page from `first` to `end`, which is excluded, or are
    /// adjacent to them: the first place, and the one after the last. Earlier runs end before
    /// `first`, later ones begin after `end`. If `first` is above `end` the places mean nothing.
    ///
    /// Two searches find them; `steps` counts their comparisons, for contracts only.
    pub fn window(&self, first: u64, end: u64, steps: &mut Steps) -> (usize, usize)
        ensures window { first ≤ end → IsWindow self.now.runs first end result.0 result.1 }
        ensures quick { FindsTwice steps.old steps.new (length self.now.runs) }
    {
        self.runs.window(first, end, steps)
    }

    /// The window of a span, as [`Plan::window`] finds it, and a guess at the chunk of its runs. It
    /// looks near a guess at its place before it searches: only speed depends on the guess.
    pub fn window_near(&self, first: u64, end: u64, guess: usize) -> (usize, usize, usize)
        ensures { first ≤ end → IsWindow self.now.runs first end result.0 result.1 }
    {
        let found = window_near(&self.runs, first, end, guess);
        (found.from, found.to, found.near)
    }

    /// The number of the rule of the run that has a page, as [`Plan::number_at`] finds it. The run
    /// at a place is looked at before it is sought; `near` is a guess at its chunk, as
    /// [`Plan::window_near`] gives one. Nothing depends on the two but time.
    pub fn number_near(&self, page: u64, place: usize, near: usize) -> Option<Option<u32>>
        ensures { result ≡ option_map (λ at. at.1) (page_at self.now.runs page) }
    {
        match found_near(&self.runs, page, place, near) {
            Some(found) => Some(found.rule),
            None => None,
        }
    }
}
