//! The runs of a plan, as pages whose lists come in turns.
ghost use Rattle.std.specs.Prelude.{slice_get};
ghost use Rattle.numa_plan.specs.Turns.{TellsTurns};

use crate::plan::Plan;

/// Pages in a row whose lists come in turns: from page `cycle` of them on, each has the list of the
/// page that is `cycle` before it.
#[repr(C)]
#[derive(Clone, Copy)]
pub struct PageTurns {
    /// The first page.
    pub first: u64,
    /// The number of pages.
    pub pages: u64,
    /// After how many pages the lists come again, at most `pages`.
    pub cycle: u64,
}

impl Plan {
    /// The pages of the run at a place, in ascending order, and after how many of them their lists
    /// come again for a task; `None` if there are no more runs. The nodes of a cycle are those of
    /// [`Plan::fill`] from the first page on.
    pub fn turns_at(&self, task: u32, place: usize) -> Option<PageTurns>
        ensures { TellsTurns self.now task (slice_get self.now.runs place) result }
    {
        // Tells the proof that runs are apart.
        let _ = self.run_count();
        let run = self.run_at(place)?;
        let rule = self.rule_for(task, run.value);
        Some(PageTurns {
            first: run.first,
            pages: run.pages,
            cycle: rule.cycle_len(run.index, run.pages).min(run.pages),
        })
    }
}
