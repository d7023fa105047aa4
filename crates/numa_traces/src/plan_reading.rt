//! Reading traces of one space, or of one process of a host.
ghost use Rattle.numa_traces.specs.PlanReading.{IsReading};

use crate::before::Before;
use crate::fault::ReplayError;
use crate::ranges::RangeTallies;
use crate::reading::ReplayLine;
use crate::trace_state::TraceState;
use numa_plan::Plan;
use std::alloc::Global;

/// The replay of a trace by a plan.
#[derive(Drop)]
pub struct PlanReplay<'a> {
    plan: &'a Plan,
    // Where pages lie before the first line, if any may.
    before: Option<Before<'a>>,
    /// What its lines so far have met.
    pub state: TraceState,
}

impl<'a> PlanReplay<'a> {
    /// The state before the first line where nodes have so much room, or so many frames. The plan
    /// is for the machine; pages that lie somewhere before stay there. Lines that name another
    /// process than this one are left out; without one no line may name any. With ranges accesses
    /// are counted by these too. It doesn't allocate.
    pub fn new(
        alloc: Global,
        plan: &'a Plan,
        before: Option<Before<'a>>,
        process: Option<u32>,
        room: Vec<u64>,
        ranges: Option<RangeTallies>,
    ) -> PlanReplay<'a>
        ensures { IsReading plan.now before.entry process room.items ranges result }
    {
        PlanReplay {
            plan,
            before,
            state: TraceState::new(alloc, process, room, ranges),
        }
    }
}

impl ReplayLine for PlanReplay<'_> {
    ghost use Rattle.numa_traces.specs.PlanReading.{EndsAtLine, ReplaysLine, step_of};

    ghost replays = { λ line old new. ReplaysLine (step_of old.state.process line) old new };

    ghost ends = { λ line old. EndsAtLine (step_of old.state.process line) old };

    fn replay_line(&mut self, line: &[u8]) -> Result<(), ReplayError> {
        self.state.replay_line(self.plan, &self.before, line)
    }
}
