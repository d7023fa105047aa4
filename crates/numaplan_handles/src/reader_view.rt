//! Readers as threads ask them.
ghost use Rattle.std.specs.Prelude.{◌≡◌, Some, None, MatchOption, true};
ghost use Rattle.numaplan_handles.specs.Calls.{Reads};
ghost use Rattle.numaplan_handles.specs.Kinds.{is_reader, reader_of};
ghost use Rattle.numaplan_handles.specs.Readers.{ChoosesSeen, CountsSeen, FillsSeen, IsSeenVersion};

use crate::kept::{Kept, kept_as};
use crate::plan_view::{ChoiceRefusal, PageSpan};
use crate::room::copy_items;
use crate::view::View;
use numa_machine::PlaceRefusal;
use numa_page_state::Toucher;
use numa_publish::PlanView;
use numa_requests::Request;

/// Handles of readers that are only asked. Threads can share one.
#[repr(C)]
pub struct ReaderView {
    view: View,
    ghost kind: { is_reader view.held.kept ≡ true },
}

/// The reader that is kept.
fn reader_kept(kept: &Kept) -> &PlanView
    requires reader { is_reader (Some kept.now) ≡ true }
    ensures reader { reader_of (Some kept.now) ≡ Some result.now }
{
    kept_as!(kept, Reader)
}

/// Copies the list of a page.
fn choose(view: &PlanView, asked: Request, nodes: &mut [u8]) -> Result<usize, ChoiceRefusal>
    ensures { ChoosesSeen (Some view.now) asked.task asked.page asked.cpu nodes.old nodes.new
        result }
{
    let list = match view.fallback_list(asked.task, asked.page, asked.cpu) {
        Ok(list) => list,
        Err(refusal) => return Err(ChoiceRefusal::Place(refusal)),
    };
    copy_items(list, nodes).map_err(ChoiceRefusal::TooShort)
}

impl ReaderView {
    ghost use Rattle.numaplan_handles.specs.Handles.{reader_seen};

    /// The reader, if the handle is open.
    fn reader(&self) -> Option<&PlanView>
        ensures { MatchOption result (reader_seen self.now ≡ None)
            (λ view. reader_seen self.now ≡ Some view.now) }
    {
        Some(reader_kept(self.view.lent()?))
    }

    /// The version at which it looks. `None` if the handle is closed.
    pub fn version(&self) -> Option<u64>
        ensures { Reads (IsSeenVersion (reader_seen self.now)) (reader_seen self.now) result }
    {
        let view = self.reader()?;
        Some(view.version())
    }

    /// Copies the fallback list of a page, and returns the number of nodes. `None` if the handle is
    /// closed.
    ///
    /// # Errors
    /// As [`PlanView::fallback_list`], and `TooShort`: there is no room for the list.
    pub fn choose(&self, asked: Request, nodes: &mut [u8]) -> Option<Result<usize, ChoiceRefusal>>
        ensures chooses { Reads (ChoosesSeen (reader_seen self.now) asked.task asked.page asked.cpu
            nodes.old nodes.new) (reader_seen self.now) result }
        ensures closed { reader_seen self.now ≡ None → nodes.new ≡ nodes.old }
    {
        let view = self.reader()?;
        Some(choose(view, asked, nodes))
    }

    /// Writes the first node of each page's list, for as many pages from page `page` on as there
    /// are places. `None` if the handle is closed.
    ///
    /// # Errors
    /// As [`PlanView::fill`].
    pub fn fill(&self, by: Toucher, page: u64, nodes: &mut [u8]) -> Option<Result<(), PlaceRefusal>>
        ensures fills { Reads (λ answer. FillsSeen (reader_seen self.now) by.task page by.cpu answer
            nodes.old nodes.new) (reader_seen self.now) result }
        ensures closed { reader_seen self.now ≡ None → nodes.new ≡ nodes.old }
    {
        let view = self.reader()?;
        Some(view.fill(by.task, page, by.cpu, nodes))
    }

    /// Counts, for each node, the pages of a span whose list begins with it. `None` if the handle
    /// is closed.
    ///
    /// # Errors
    /// As [`PlanView::counts`].
    pub fn counts(&self, by: Toucher, span: PageSpan) -> Option<Result<[u64; 256], PlaceRefusal>>
        ensures { Reads (CountsSeen (reader_seen self.now) by.task span.first span.pages by.cpu)
            (reader_seen self.now) result }
    {
        let view = self.reader()?;
        Some(view.counts(by.task, span.first, span.pages, by.cpu))
    }
}
