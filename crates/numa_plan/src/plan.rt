//! Plans, and the questions of readers.
ghost use Rattle.std.specs.Prelude.{◌≡◌, ℕ, ◌+◌, ◌<◌, ◌≤◌, length, Some, None, IfOk, IfErr, OnOk};
ghost use Rattle.std.specs.Prelude.{OnErr, IfSome, MatchOption, EachIndex, slice_index};
ghost use Rattle.numa_plan.specs.Counted.{FindsByInterpolation, FindsQuickly};
ghost use Rattle.numa_ranges.specs.Runs.{AreApart};
ghost use Rattle.numa_plan.specs.Found.{IsFound, IsMapped};
ghost use Rattle.numa_plan.specs.Rows.{HasRows};
ghost use Rattle.numa_plan.specs.Slots.{rule_in};
ghost use Rattle.numa_plan.specs.Meaning.{PlanData, IsListFor, place_refusal, rule_for};
ghost use Rattle.numa_plan.specs.Meaning.{number_for, planned_first, CountsFirsts, RefusesSpan};

mod build;
mod edit;
mod many;
mod read;
mod turns;
mod uncounted;

use crate::numbers::Numbers;
pub use crate::plan::turns::PageTurns;
use crate::plan::uncounted::{covers, found_next, walk_from, walk_on};
use crate::rule::Rule;
use crate::runs::{Found, PlanRuns};
use crate::slots::{Slot, copies};
use crate::steps::Steps;
use crate::tally::Tally;
use crate::task_numbers::TaskNumbers;
use numa_machine::{NoMemory, PlaceRefusal};
use std::alloc::Global;
use std::marker::Model;

/// What is answered to the question for a page's fallback list, which the plan lends.
pub type ListAnswer<'a> = Result<&'a [u8], PlaceRefusal>;

/// The fallback lists of a space's pages: runs of pages, each with the number of its rule or none,
/// rules in numbered slots, each with its policy, the number of a rule for some tasks, and a local
/// rule.
///
/// The list of a page, for a task and a faulting node, is the row that the key of a rule picks by
/// the node and the page's index. The rule is that of the run that has the page, or else the
/// task's, or else the local one. A page without a run has no list.
pub struct Plan {
    alloc: Global,
    version: u64,
    nodes: u32,
    runs: PlanRuns,
    slots: Vec<Slot>,
    lowest_free: usize,
    tasks: TaskNumbers,
    local: Rule,
    numbers: Numbers,
}

// (By hand, so that it is proved here alone: a derived one is proved in each crate that drops.)
impl Drop for Plan {
    fn drop(self) {
        let Plan {
            alloc: _,
            version: _,
            nodes: _,
            runs,
            slots,
            lowest_free: _,
            tasks,
            local,
            numbers,
        } = self;
        drop(runs);
        drop(slots);
        drop(tasks);
        drop(local);
        drop(numbers);
    }
}

impl Model for Plan {
    ghost use Rattle.numa_plan.specs.Meaning.{PlanData};

    ghost Value = { PlanData };

    ghost view = { λ a. record {
      version = a.version;
      nodes = a.nodes;
      runs = a.runs;
      slots = a.slots.items;
      tasks = a.tasks;
      local = a.local;
    } };

    ghost use Rattle.numa_plan.specs.Sound.{IsPlan};

    ghost invariant = { λ a.
        IsPlan a.nodes a.runs a.slots.items a.lowest_free a.tasks a.local };
}

/// Copies of the tasks and the local rule.
fn copied(alloc: Global, tasks: &TaskNumbers, local: &Rule) -> Result<(TaskNumbers, Rule), NoMemory>
    ensures tasks { IfOk result (λ copy. copy.0 ≡ tasks.now) }
    ensures local { IfOk result (λ copy. copy.1 ≡ local.now) }
{
    let tasks = tasks.copy(alloc)?;
    let Ok(local) = local.copy(alloc) else {
        drop(tasks);
        return Err(NoMemory);
    };
    Ok((tasks, local))
}

impl Plan {
    /// Returns a copy. The two plans share the chunks of their runs and the rules in slots, until
    /// one of them is edited.
    ///
    /// # Errors
    /// `NoMemory`: there is no memory for the copy's table of chunks, slots, tasks and local rule.
    pub fn copy(&self, alloc: Global) -> Result<Plan, NoMemory>
        ensures { IfOk result (λ copy. copy ≡ self.now) }
    {
        let slots = copies(alloc, &self.slots)?;
        let Ok((tasks, local)) = copied(alloc, &self.tasks, &self.local) else {
            drop(slots);
            return Err(NoMemory);
        };
        let Ok(runs) = self.runs.copy() else {
            drop(local);
            drop(tasks);
            drop(slots);
            return Err(NoMemory);
        };
        Ok(Plan {
            alloc,
            version: self.version,
            nodes: self.nodes,
            runs,
            slots,
            lowest_free: self.lowest_free,
            tasks,
            local,
            numbers: Numbers::new(alloc),
        })
    }

    /// The version of the space from which the plan was made: the number of commands that it had
    /// accepted.
    pub fn version(&self) -> u64
        ensures { result ≡ self.now.version }
    {
        self.version
    }

    /// The number of runs. They are in ascending order and disjoint, and the last ends by page
    /// 2^35.
    pub fn run_count(&self) -> usize
        ensures count { result ≡ length self.now.runs }
        ensures apart { AreApart 0 self.now.runs }
    {
        self.runs.len()
    }

    /// The fallback list of a page, for a task and a fault on node `cpu`: from 1 to 256 nodes, in
    /// the order in which memory is looked for on them. The plan lends it.
    ///
    /// The page is compared with the first pages of at most log2(runs + 1) runs, rounded up.
    /// `steps` counts these comparisons, for contracts only.
    ///
    /// # Errors
    /// `BadCpu`: the plan has no node `cpu`; else `Unmapped`: no run has the page.
    #[inline(always)]
    pub fn choice(&self, task: u32, page: u64, cpu: u32, steps: &mut Steps) -> ListAnswer<'_>
        ensures ok { IfOk result (λ row. IsListFor self.now task page cpu row.now) }
        ensures sized { IfOk result (λ row. (0 < length row.now) × (length row.now ≤ 256)) }
        ensures err { IfErr result (λ refusal. place_refusal self.now page cpu ≡ Some refusal) }
        ensures quick { FindsQuickly steps.old steps.new (length self.now.runs) }
    {
        self.list_of(task, page, cpu, self.runs.find(page, steps))
    }

    /// The list of [`Plan::choice`], found faster where the runs are evenly spread: it first looks
    /// at the run that would have the page then, and searches if that hasn't. The page is compared
    /// with the first pages of at most three runs more than by `choice`: the first, the last and
    /// the one that is looked at. `steps` counts these comparisons, for contracts only.
    ///
    /// # Errors
    /// As for `choice`.
    #[inline(always)]
    pub fn choice_by_interpolation(
        &self,
        task: u32,
        page: u64,
        cpu: u32,
        steps: &mut Steps,
    ) -> ListAnswer<'_>
        ensures ok { IfOk result (λ row. IsListFor self.now task page cpu row.now) }
        ensures sized { IfOk result (λ row. (0 < length row.now) × (length row.now ≤ 256)) }
        ensures err { IfErr result (λ refusal. place_refusal self.now page cpu ≡ Some refusal) }
        ensures quick { FindsByInterpolation steps.old steps.new (length self.now.runs) }
    {
        let found = self.runs.find_by_interpolation(page, steps);
        self.list_of(task, page, cpu, found)
    }

    /// The fallback list of a page, of which the runs say this.
    #[inline(always)]
    fn list_of(&self, task: u32, _page: u64, cpu: u32, found: Option<Found>) -> ListAnswer<'_>
        requires { IsFound self.now.runs _page found }
        ensures ok { IfOk result (λ row. IsListFor self.now task _page cpu row.now) }
        ensures sized { IfOk result (λ row. (0 < length row.now) × (length row.now ≤ 256)) }
        ensures err { IfErr result (λ refusal. place_refusal self.now _page cpu ≡ Some refusal) }
    {
        if cpu >= self.nodes {
            return Err(PlaceRefusal::BadCpu);
        }
        let Some(found) = found else {
            return Err(PlaceRefusal::Unmapped);
        };
        Ok(self.rule_for(task, found.rule).row(cpu, found.index))
    }

    /// Writes the first node of each page's list, for the `out.len()` pages from page `first` on.
    ///
    /// # Errors
    /// `BadCpu`: the plan has no node `cpu`, even if the span has no pages; else `Unmapped`: a page
    /// of the span has no run. Then nothing has been written.
    pub fn fill(&self, task: u32, first: u64, cpu: u32, out: &mut [u8]) -> Result<(), PlaceRefusal>
        ensures ok { OnOk result ((cpu < self.now.nodes)
            × EachIndex out.new (λ k. planned_first self.now task (first + k) cpu
            ≡ Some (slice_index out.new k))) }
        ensures err { IfErr result (λ refusal.
            RefusesSpan self.now first (length out.old) cpu refusal) }
        ensures unchanged { OnErr result (out.new ≡ out.old) }
    {
        if cpu >= self.nodes {
            return Err(PlaceRefusal::BadCpu);
        }
        let start = walk_from(&self.runs, first);
        if !covers(&self.runs, first, out.len() as u64, start) {
            return Err(PlaceRefusal::Unmapped);
        }
        let mut walk = walk_on(&self.runs, start);
        let mut page = first;
        let mut done = 0usize;
        while done < out.len() {
            let Some(found) = found_next(&self.runs, page, &mut walk) else {
                unreachable!()
            };
            let count = found.left.min((out.len() - done) as u64);
            let end = done + count as usize;
            self.rule_for(task, found.rule)
                .fill(cpu, found.index, &mut out[done..end]);
            page += count;
            done = end;
        }
        Ok(())
    }

    /// For each node, the number of the `pages` pages from page `first` on whose list begins with
    /// it. The time depends on the runs of the span and the cycles of their rules, not on the
    /// number of pages.
    ///
    /// # Errors
    /// `BadCpu`: the plan has no node `cpu`, even if the span has no pages; else `Unmapped`: a page
    /// of the span has no run.
    pub fn counts(&self, task: u32, first: u64, pages: u64, cpu: u32) -> Result<Tally, PlaceRefusal>
        ensures ok { IfOk result (λ counts. (cpu < self.now.nodes)
            × IsMapped self.now.runs first pages
            × CountsFirsts self.now task first pages cpu counts) }
        ensures err { IfErr result (λ refusal. RefusesSpan self.now first pages cpu refusal) }
    {
        if cpu >= self.nodes {
            return Err(PlaceRefusal::BadCpu);
        }
        let mut counts = [0u64; 256];
        let mut walk = walk_on(&self.runs, PlanRuns::seen());
        let mut page = first;
        let mut todo = pages;
        while todo > 0 {
            let Some(found) = found_next(&self.runs, page, &mut walk) else {
                return Err(PlaceRefusal::Unmapped);
            };
            let part = found.left.min(todo);
            self.rule_for(task, found.rule)
                .count(cpu, found.index, part, &mut counts);
            page += part;
            todo -= part;
        }
        Ok(counts)
    }

    /// The rule in a slot.
    #[inline]
    fn rule_in(&self, number: u32) -> Option<&Rule>
        ensures is { MatchOption result (rule_in self.now.slots number ≡ None)
            (λ rule. rule_in self.now.slots number ≡ Some rule.now) }
        ensures rows { IfSome result (λ rule. HasRows self.now.nodes rule.now) }
    {
        if number as usize >= self.slots.len() {
            return None;
        }
        match &self.slots[number as usize] {
            Slot::Taken { kept, .. } => Some(kept.rule()),
            Slot::Free => None,
        }
    }

    /// The number of a run's rule, or else of the task's.
    #[inline]
    fn number_for(&self, task: u32, number: Option<u32>) -> Option<u32>
        ensures { result ≡ number_for self.now.tasks task number }
    {
        match number {
            Some(number) => Some(number),
            None => self.tasks.get(task),
        }
    }

    /// The rule that applies.
    #[inline]
    fn rule_for(&self, task: u32, number: Option<u32>) -> &Rule
        ensures is { result.now ≡ rule_for self.now task number }
        ensures rows { HasRows self.now.nodes result.now }
    {
        let Some(number) = self.number_for(task, number) else {
            return &self.local;
        };
        match self.rule_in(number) {
            Some(rule) => rule,
            None => &self.local,
        }
    }
}

const _: () = prove!(size_of::<numa_ranges::Run<Option<u32>>>() == 32);

const _: () = prove!(size_of::<Steps>() == 0);

const _: () = prove!(size_of::<Slot>() == 16);
