//! Plans as threads look at them.
ghost use Rattle.std.specs.Prelude.{◌≡◌, Some, None, IfSome, MatchOption, true};
ghost use Rattle.numaplan_handles.specs.Calls.{IsShared, Reads};
ghost use Rattle.numaplan_handles.specs.Kinds.{plan_of, is_plan};
ghost use Rattle.numaplan_handles.specs.Plans.{Chooses, Counts, Fills, FillsMarked};
ghost use Rattle.numaplan_handles.specs.Plans.{ListsTurns, Marks};

use crate::kept::Kept;
use crate::plan_handle::PlanHandle;
use crate::room::copy_items;
use crate::view::View;
use numa_machine::PlaceRefusal;
use numa_page_state::Toucher;
use numa_plan::{PageTurns, Plan};
use numa_requests::Request;
use std::alloc::{AllocError, Global};

/// Handles of plans that are only looked at. Threads can share one.
#[repr(C)]
pub struct PlanView {
    view: View,
    ghost kind: { is_plan view.held.kept ≡ true },
}

/// The pages of a span.
#[derive(Clone, Copy, Debug, PartialEq, Eq)]
pub struct PageSpan {
    /// The first page.
    pub first: u64,
    /// How many there are.
    pub pages: u64,
}

/// Why the list of a page wasn't copied.
#[derive(Clone, Copy, Debug, PartialEq, Eq)]
pub enum ChoiceRefusal {
    /// There is no list.
    Place(PlaceRefusal),
    /// The list has this many nodes, more than there is room for.
    TooShort(usize),
}

/// The plan that is kept.
fn plan_kept(kept: &Kept) -> &Plan
    requires plan { is_plan (Some kept.now) ≡ true }
    ensures plan { plan_of (Some kept.now) ≡ Some result.now }
{
    let Kept::Plan(plan) = kept else {
        unreachable!()
    };
    plan
}

/// Copies the list of a page.
fn choose(plan: &Plan, asked: Request, nodes: &mut [u8]) -> Result<usize, ChoiceRefusal>
    ensures { Chooses (Some plan.now) asked.task asked.page asked.cpu result nodes.old nodes.new }
{
    let list = match plan.fallback_list(asked.task, asked.page, asked.cpu) {
        Ok(list) => list,
        Err(refusal) => return Err(ChoiceRefusal::Place(refusal)),
    };
    copy_items(list, nodes).map_err(ChoiceRefusal::TooShort)
}

/// Writes the first node of the list of each of these pages, or the mark, for a task on a CPU.
fn mark(
    plan: &Plan,
    by: Toucher,
    pages: &[u64],
    unmapped: u8,
    nodes: &mut [u8],
) -> Result<usize, ChoiceRefusal>
    ensures { Marks (Some plan.now) by.task pages.now by.cpu unmapped result nodes.old nodes.new }
{
    if pages.len() != nodes.len() {
        return Err(ChoiceRefusal::TooShort(pages.len()));
    }
    match plan.nodes_of(by.task, pages, by.cpu, unmapped, nodes) {
        Ok(()) => Ok(pages.len()),
        Err(refusal) => Err(ChoiceRefusal::Place(refusal)),
    }
}

/// Writes what is said of each run of a plan at the start of `room`, for a task; returns how many
/// runs there are.
fn list_turns(plan: &Plan, task: u32, room: &mut [PageTurns]) -> Result<usize, usize>
    ensures { ListsTurns (Some plan.now) task result room.old room.new }
{
    let count = plan.run_count();
    if room.len() < count {
        return Err(count);
    }
    for place in 0..count {
        let Some(turns) = plan.turns_at(task, place) else {
            unreachable!()
        };
        room[place] = turns;
    }
    Ok(count)
}

impl PlanView {
    ghost use Rattle.numaplan_handles.specs.Handles.{plan_in, plan_seen};

    /// Puts the same plan into a closed handle. `None` if this one is closed.
    ///
    /// # Errors
    /// `AllocError`: out of memory, or the plan has as many handles as it can.
    pub fn share(&self, alloc: Global, other: &mut PlanHandle) -> Option<Result<(), AllocError>>
        requires closed { plan_in other.old ≡ None }
        ensures shared { IsShared (plan_seen self.now) result (plan_in other.new) }
    {
        self.view.share(alloc, &mut other.handle)
    }

    /// The plan, if the handle is open.
    fn plan(&self) -> Option<&Plan>
        ensures { MatchOption result (plan_seen self.now ≡ None)
            (λ plan. plan_seen self.now ≡ Some plan.now) }
    {
        Some(plan_kept(self.view.lent()?))
    }

    /// The version of the plan. `None` if the handle is closed.
    pub fn version(&self) -> Option<u64>
        ensures { Reads (λ version. IfSome (plan_seen self.now) (λ plan. version ≡ plan.version))
            (plan_seen self.now) result }
    {
        let plan = self.plan()?;
        Some(plan.version())
    }

    /// Copies the fallback list of a page, and returns the number of nodes. `None` if the handle is
    /// closed.
    ///
    /// # Errors
    /// As [`Plan::fallback_list`], and `TooShort`: there is no room for the list.
    pub fn choose(&self, asked: Request, nodes: &mut [u8]) -> Option<Result<usize, ChoiceRefusal>>
        ensures chooses { Reads (λ answer. Chooses (plan_seen self.now) asked.task asked.page
            asked.cpu answer nodes.old nodes.new) (plan_seen self.now) result }
        ensures closed { plan_seen self.now ≡ None → nodes.new ≡ nodes.old }
    {
        let plan = self.plan()?;
        Some(choose(plan, asked, nodes))
    }

    /// Writes the first node of each page's list, for as many pages from page `page` on as there
    /// are places. `None` if the handle is closed.
    ///
    /// # Errors
    /// As [`Plan::fill`].
    pub fn fill(&self, by: Toucher, page: u64, nodes: &mut [u8]) -> Option<Result<(), PlaceRefusal>>
        ensures fills { Reads (λ answer.
            Fills (plan_seen self.now) by.task page by.cpu answer nodes.old nodes.new)
            (plan_seen self.now) result }
        ensures closed { plan_seen self.now ≡ None → nodes.new ≡ nodes.old }
    {
        let plan = self.plan()?;
        Some(plan.fill(by.task, page, by.cpu, nodes))
    }

    /// The same, with the mark `unmapped` for pages that aren't mapped. `None` if the handle is
    /// closed.
    ///
    /// # Errors
    /// As [`Plan::fill_marked`].
    pub fn fill_marked(
        &self,
        by: Toucher,
        first: u64,
        unmapped: u8,
        nodes: &mut [u8],
    ) -> Option<Result<(), PlaceRefusal>>
        ensures fills { Reads (λ answer. FillsMarked (plan_seen self.now) by.task first by.cpu
            unmapped answer nodes.old nodes.new) (plan_seen self.now) result }
        ensures closed { plan_seen self.now ≡ None → nodes.new ≡ nodes.old }
    {
        let plan = self.plan()?;
        Some(plan.fill_marked(by.task, first, by.cpu, unmapped, nodes))
    }

    /// Writes the first node of the list of each of these pages, and the mark `unmapped` for those
    /// that aren't mapped; returns how many they are. `None` if the handle is closed.
    ///
    /// # Errors
    /// `TooShort`: there aren't as many places as pages; else as [`Plan::nodes_of`].
    pub fn nodes_of(
        &self,
        by: Toucher,
        pages: &[u64],
        unmapped: u8,
        nodes: &mut [u8],
    ) -> Option<Result<usize, ChoiceRefusal>>
        ensures told { Reads (λ answer. Marks (plan_seen self.now) by.task pages.now by.cpu
            unmapped answer nodes.old nodes.new) (plan_seen self.now) result }
        ensures closed { plan_seen self.now ≡ None → nodes.new ≡ nodes.old }
    {
        let plan = self.plan()?;
        Some(mark(plan, by, pages, unmapped, nodes))
    }

    /// Writes what is said of each run of the plan at the start of `room`, in ascending order;
    /// returns how many there are. `None` if the handle is closed.
    ///
    /// # Errors
    /// In the `Some`, how many there are: there is less room. Then nothing was written.
    pub fn runs(&self, task: u32, room: &mut [PageTurns]) -> Option<Result<usize, usize>>
        ensures told { Reads (λ answer. ListsTurns (plan_seen self.now) task answer room.old
            room.new) (plan_seen self.now) result }
        ensures closed { plan_seen self.now ≡ None → room.new ≡ room.old }
    {
        let plan = self.plan()?;
        Some(list_turns(plan, task, room))
    }

    /// Counts, for each node, the pages of a span whose list begins with it. `None` if the handle
    /// is closed.
    ///
    /// # Errors
    /// As [`Plan::counts`].
    pub fn counts(&self, by: Toucher, span: PageSpan) -> Option<Result<[u64; 256], PlaceRefusal>>
        ensures { Reads (Counts (plan_seen self.now) by.task span.first span.pages by.cpu)
            (plan_seen self.now) result }
    {
        let plan = self.plan()?;
        Some(plan.counts(by.task, span.first, span.pages, by.cpu))
    }
}
