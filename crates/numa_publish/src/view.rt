//! Views: readers that are looking at a plan.
ghost use Rattle.std.specs.Prelude.{◌≡◌, ◌+◌, ◌<◌, ◌≤◌, ℕ, true, length, slice_get, slice_index};
ghost use Rattle.std.specs.Prelude.{Some, IfOk, IfErr, OnOk, OnErr, EachIndex, MatchResult};
ghost use Rattle.std.specs.Arc.{arc_value};
ghost use Rattle.numa_plan.specs.Counted.{FindsQuickly};
ghost use Rattle.numa_space.specs.Lists.{node_list};
ghost use Rattle.numa_space.specs.Pages.{is_mapped};
ghost use Rattle.numa_space.specs.Policies.{allowed_nodes};
ghost use Rattle.numa_space.specs.Refusals.{range_count_of};
ghost use Rattle.numa_space.specs.Standing.{IsNodeList, place_refusal_of};
ghost use Rattle.numa_compile.specs.Spans.{first_node, meant_count, SpanIsRefused};
ghost use Rattle.numa_publish.specs.Batches.{Extends};
ghost use Rattle.numa_publish.specs.Kept.{IsViewKept, view_shown};
ghost use Rattle.numa_publish.specs.Spans.{SpanStands};

use crate::issue::Issue;
use crate::past::Past;
use crate::reader::{PlanReader, look};
use crate::receipt::Receipt;
use crate::taker::{LookRefusal, Taker};
use numa_compile::every_plan;
use numa_machine::PlaceRefusal;
use numa_plan::{Steps, Tally};
use numa_requests::Request;
use std::marker::Model;

/// A reader with the plan that it took, which doesn't change until it is asked to `renew`. It holds
/// up nobody. `leave` returns the reader; a view that is dropped gives its place back.
///
/// Contracts see its desk, the history for which the plan stands, the versions published up to it,
/// and the reader's numbers of enters and of refused ones.
#[derive(Drop)]
pub struct PlanView {
    taker: Taker,
    past: Past,
}

impl Model for PlanView {
    ghost use Rattle.numa_publish.specs.Kept.{IsViewKept, view_shown};
    ghost use Rattle.numa_publish.specs.Shown.{ViewState};

    ghost Value = { ViewState };

    ghost view = { λ r. view_shown r.past r.taker.shown };

    ghost invariant = { λ r. IsViewKept r.past r.taker.shown };
}

impl PlanView {
    /// A view of the version that a reader took last and has seen.
    pub(crate) fn new(taker: Taker, past: Past) -> PlanView
        requires { IsViewKept past taker.shown }
        ensures { result ≡ view_shown past taker.shown }
    {
        PlanView { taker, past }
    }

    /// Looks again: the view is of the newest version from now on. It takes no memory and waits for
    /// nobody.
    ///
    /// # Errors
    /// `Ended`: the desk has ended; else `NotYet`: the newest version that could be taken is older
    /// than `least`. The view stays as it was.
    pub fn renew(&mut self, least: u64) -> Result<(), LookRefusal>
        ensures desk { self.new.desk ≡ self.old.desk }
        ensures seen { Extends self.old.history self.new.history }
        ensures versions { Extends self.old.versions self.new.versions }
        ensures published { slice_get self.new.versions 0 ≡ Some (length self.new.history) }
        ensures least { OnOk result (least ≤ length self.new.history) }
        ensures unchanged { OnErr result (self.new.history ≡ self.old.history) }
        ensures enters { self.new.enters ≡ self.old.enters + 1 }
        ensures refused { MatchResult result (λ _. self.new.refused ≡ self.old.refused)
            (λ _. self.new.refused ≡ self.old.refused + 1) }
    {
        look(&mut self.taker, &mut self.past, least)
    }

    /// The version: the number of commands accepted up to it.
    pub fn version(&self) -> u64
        ensures { result ≡ length self.now.history }
    {
        self.past.version
    }

    /// The fallback list for a fault: from 1 to 256 allowed nodes, each once, in the order in which
    /// memory is looked for on them. The view lends it.
    ///
    /// The page is compared with the first pages of at most log2(ranges + 1) ranges, rounded up.
    /// `steps` counts these comparisons, for contracts only.
    ///
    /// # Errors
    /// `BadCpu`: the machine has no node `cpu`; else `Unmapped`: the page isn't mapped in this
    /// version.
    #[inline(always)]
    pub fn choice(&self, request: Request, steps: &mut Steps) -> Result<&[u8], PlaceRefusal>
        ensures mapped { OnOk result ((request.cpu < self.now.desk.machine.nodes)
            × (is_mapped self.now.history request.page ≡ true)) }
        ensures ok { IfOk result (λ row. row.now ≡ node_list self.now.desk.machine
            self.now.history request.task request.page request.cpu) }
        ensures sized { IfOk result (λ row. (0 < length row.now) × (length row.now ≤ 256)) }
        ensures list { IfOk result (λ row.
            IsNodeList (allowed_nodes self.now.desk.machine self.now.history) row.now) }
        ensures err { IfErr result (λ refusal. place_refusal_of self.now.desk.machine
            self.now.history request.page request.cpu ≡ Some refusal) }
        ensures quick { FindsQuickly steps.old steps.new
            (range_count_of self.now.desk.machine self.now.history) }
    {
        every_plan();
        let issue: &Issue = &self.taker.shown.issue;
        let Request { task, page, cpu } = request;
        issue.plan.choice(task, page, cpu, steps)
    }

    /// The fallback list of a page, for a task and a fault on node `cpu`: from 1 to 256 allowed
    /// nodes, each once, in the order in which memory is looked for on them. The view lends it. It
    /// is the list of [`PlanView::choice`], without the counter of comparisons.
    ///
    /// # Errors
    /// `BadCpu`: the machine has no node `cpu`; else `Unmapped`: the page isn't mapped in this
    /// version.
    #[inline(always)]
    pub fn fallback_list(&self, task: u32, page: u64, cpu: u32) -> Result<&[u8], PlaceRefusal>
        ensures mapped { OnOk result ((cpu < self.now.desk.machine.nodes)
            × (is_mapped self.now.history page ≡ true)) }
        ensures ok { IfOk result (λ row. row.now
            ≡ node_list self.now.desk.machine self.now.history task page cpu) }
        ensures sized { IfOk result (λ row. (0 < length row.now) × (length row.now ≤ 256)) }
        ensures list { IfOk result (λ row.
            IsNodeList (allowed_nodes self.now.desk.machine self.now.history) row.now) }
        ensures err { IfErr result (λ refusal. place_refusal_of self.now.desk.machine
            self.now.history page cpu ≡ Some refusal) }
    {
        self.choice(Request { task, page, cpu }, &mut Steps::new())
    }

    /// Writes the first node of each page's list, for the `out.len()` pages from page `first` on.
    ///
    /// # Errors
    /// `BadCpu`: the machine has no node `cpu`, even if the span has no pages; else `Unmapped`: a
    /// page of the span isn't mapped in this version. Then nothing has been written.
    pub fn fill(&self, task: u32, first: u64, cpu: u32, out: &mut [u8]) -> Result<(), PlaceRefusal>
        ensures ok { OnOk result (EachIndex out.new (λ k. slice_index out.new k
            ≡ first_node self.now.desk.machine self.now.history task (first + k) cpu)) }
        ensures stands { OnOk result
            (SpanStands self.now.desk.machine self.now.history first (length out.new) cpu) }
        ensures lists { OnOk result (EachIndex out.new (λ k.
            IsNodeList (allowed_nodes self.now.desk.machine self.now.history)
            (node_list self.now.desk.machine self.now.history task (first + k) cpu))) }
        ensures err { IfErr result (λ refusal. SpanIsRefused
            self.now.desk.machine self.now.history first (length out.old) cpu refusal) }
        ensures unchanged { OnErr result (out.new ≡ out.old) }
    {
        every_plan();
        let issue: &Issue = &self.taker.shown.issue;
        // Tells the proof that the plan's runs are disjoint and end by page 2^35.
        let _ = issue.plan.run_count();
        issue.plan.fill(task, first, cpu, out)?;
        Ok(())
    }

    /// For each node, the number of the `pages` pages from page `first` on whose list begins with
    /// it. The time depends on the ranges of the span, not on the number of pages.
    ///
    /// # Errors
    /// `BadCpu`: the machine has no node `cpu`, even if the span has no pages; else `Unmapped`: a
    /// page of the span isn't mapped in this version.
    pub fn counts(&self, task: u32, first: u64, pages: u64, cpu: u32) -> Result<Tally, PlaceRefusal>
        ensures ok { IfOk result (λ counts. (node : ℕ) → node < 256 → slice_index counts node
            ≡ meant_count self.now.desk.machine self.now.history task first pages cpu node) }
        ensures stands { OnOk result
            (SpanStands self.now.desk.machine self.now.history first pages cpu) }
        ensures err { IfErr result (λ refusal. SpanIsRefused
            self.now.desk.machine self.now.history first pages cpu refusal) }
    {
        every_plan();
        let issue: &Issue = &self.taker.shown.issue;
        // Tells the proof that the plan's runs are disjoint and end by page 2^35.
        let _ = issue.plan.run_count();
        let counts = issue.plan.counts(task, first, pages, cpu)?;
        Ok(counts)
    }

    /// A receipt of this version. It doesn't block or allocate.
    pub fn receipt(&self) -> Receipt
        ensures { (result.desk ≡ self.now.desk) × (result.history ≡ self.now.history)
            × (result.versions ≡ self.now.versions) }
    {
        let issue: &Issue = &self.taker.shown.issue;
        Receipt::new(&self.past.front, issue.machine.again(), self.past.version)
    }

    /// Returns the reader, which has seen this version.
    pub fn leave(self) -> PlanReader
        ensures desk { result.desk ≡ self.desk }
        ensures history { result.history ≡ self.history }
        ensures versions { result.versions ≡ self.versions }
        ensures counts { (result.enters ≡ self.enters) × (result.refused ≡ self.refused) }
    {
        let PlanView { taker, past } = self;
        PlanReader::back(taker, past)
    }
}
