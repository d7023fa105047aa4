//! What the lines of a trace of one space, or of one process of a host, have met so far.
ghost use Rattle.std.specs.Prelude.{◌≡◌, ℕ, IfErr, Ok, OnOk, Option, Some};
ghost use Rattle.numa_plan.specs.Meaning.{PlanData};
ghost use Rattle.numa_traces.specs.Accesses.{access_of};
ghost use Rattle.numa_traces.specs.Phases.{Closes, Touches};
ghost use Rattle.numa_traces.specs.PlanReading.{ClosesPhase, CountsAccess, EndsAtStep, IsBegun};
ghost use Rattle.numa_traces.specs.PlanReading.{ReplaysStep, access_for, said_for, step_of};
ghost use Rattle.numa_traces.specs.PlanReading.{step_told};
ghost use Rattle.numa_traces.specs.Resting.{found, lies_where};
ghost use Rattle.numa_traces.specs.Tallies.{IsRoomFault};
ghost use Rattle.numa_traces.specs.declared.fault.ReplayError.TheVariants as fault;

use crate::access::{Access, TraceLine, mark_in, read_access};
use crate::before::{Before, lies_where};
use crate::fault::ReplayError;
use crate::mark::{Mark, close};
use crate::ranges::{RangeTallies, take_counted};
use crate::replay::Replay;
use numa_plan::Plan;
use std::alloc::Global;

/// The access that a line has for the replay of one space, or of the process of a host that has
/// this number: what other processes do is left out.
fn access_for(own: Option<u32>, line: TraceLine) -> Result<Option<Access>, ReplayError>
    ensures { result ≡ access_for own line.process line.access }
{
    let Some(process) = line.process else {
        return Ok(Some(line.access));
    };
    let Some(own) = own else {
        return Err(ReplayError::Named);
    };
    if own == process {
        return Ok(Some(line.access));
    }
    Ok(None)
}

/// The same of a line that isn't read yet.
fn said_for(own: Option<u32>, line: &[u8]) -> Result<Option<Access>, ReplayError>
    ensures { result ≡ said_for own (access_of line.now) }
{
    match read_access(line) {
        Err(fault) => Err(ReplayError::Malformed(fault)),
        Ok(None) => Ok(None),
        Ok(Some(said)) => access_for(own, said),
    }
}

/// A step of a trace: an access, or a mark with its text.
#[derive(Clone, Copy)]
pub enum TraceStep<'a> {
    Touches(Access),
    Closes(&'a [u8]),
}

/// What the lines of a trace of one space, or of one process of a host, have met so far.
#[derive(Drop)]
pub struct TraceState {
    alloc: Global,
    // The process of a host whose lines are taken; none where there is one space.
    process: Option<u32>,
    /// What the accesses so far met.
    pub replay: Replay,
    /// The marks so far, in order.
    pub marks: Vec<Mark>,
    /// What they met by range, if that is counted.
    pub ranges: Option<RangeTallies>,
}

/// A page lies where it lay before the trace, if it lay anywhere and no access touched it yet.
///
/// # Errors
/// `NoMemory`: out of memory.
fn find(replay: &mut Replay, before: &Option<Before<'_>>, page: u64) -> Result<(), ReplayError>
    ensures found { OnOk result (replay.new ≡ found (lies_where before.now) replay.old page) }
    ensures err { IfErr result (λ why. why ≡ fault.NoMemory) }
{
    match lies_where(before, page) {
        Some(node) => replay.lay(page, node),
        None => Ok(()),
    }
}

impl TraceState {
    /// The state before the first line where nodes have so much room, or so many frames. Lines that
    /// name another process than this one are left out; without one no line may name any. With
    /// ranges accesses are counted by these too. It doesn't allocate.
    pub fn new(
        alloc: Global,
        process: Option<u32>,
        room: Vec<u64>,
        ranges: Option<RangeTallies>,
    ) -> TraceState
        ensures { IsBegun process room.items ranges result }
    {
        TraceState {
            alloc,
            process,
            replay: Replay::with_room(alloc, room),
            marks: Vec::new(alloc),
            ranges,
        }
    }

    /// Replays an access by a plan, over pages that lie somewhere before the trace.
    ///
    /// # Errors
    /// As [`Replay::take`]; `NoMemory` before, for a page that lies somewhere before the trace; or
    /// what counting by ranges ends with. Then the replay has ended.
    fn touch(
        &mut self,
        plan: &Plan,
        before: &Option<Before<'_>>,
        access: Access,
    ) -> Result<(), ReplayError>
        ensures ok { OnOk result (ReplaysStep plan.now (lies_where before.now)
            (Ok (Some (Touches access))) self.old self.new) }
        ensures err { IfErr result (EndsAtStep plan.now (lies_where before.now)
            (Ok (Some (Touches access))) self.old) }
    {
        if let Err(why) = find(&mut self.replay, before, access.page) {
            return Err(why);
        }
        take_counted(&mut self.replay, plan, &mut self.ranges, access)
    }

    /// Counts accesses that were carried out elsewhere: to a page that lies on a node, or found
    /// none. The first is a fault or not.
    ///
    /// # Errors
    /// As [`Tallies::add`]. Then nothing has changed.
    pub fn count(
        &mut self,
        access: Access,
        node: Option<u8>,
        is_fault: bool,
    ) -> Result<(), ReplayError>
        ensures counts { OnOk result (CountsAccess access node is_fault self.old self.new) }
        ensures err { IfErr result IsRoomFault }
    {
        self.replay.count(access, node, is_fault)
    }

    /// Closes a phase.
    ///
    /// # Errors
    /// `NoMemory`: out of memory.
    pub fn close(&mut self, text: &[u8]) -> Result<(), ReplayError>
        ensures ok { (plan : PlanData) (there : ℕ → Option ℕ) → OnOk result
            (ReplaysStep plan there (Ok (Some (Closes text.now))) self.old self.new) }
        ensures closes { OnOk result (ClosesPhase text.now self.old self.new) }
        ensures memory { IfErr result (λ why. why ≡ fault.NoMemory) }
        ensures err { (plan : PlanData) (there : ℕ → Option ℕ) → IfErr result
            (EndsAtStep plan there (Ok (Some (Closes text.now))) self.old) }
    {
        let mark = Mark::new(self.alloc, text, self.replay.tallies());
        close(&mut self.marks, mark)
    }

    /// The step that a line is; nothing where it is empty or a comment, or another process's.
    ///
    /// # Errors
    /// Why it is none.
    pub fn step<'a>(&self, line: &'a [u8]) -> Result<Option<TraceStep<'a>>, ReplayError>
        ensures { step_told result ≡ step_of self.now.process line.now }
    {
        if let Some(text) = mark_in(line) {
            return Ok(Some(TraceStep::Closes(text)));
        }
        match said_for(self.process, line) {
            Err(fault) => Err(fault),
            Ok(None) => Ok(None),
            Ok(Some(access)) => Ok(Some(TraceStep::Touches(access))),
        }
    }

    /// Replays a line by a plan, over pages that lie somewhere before the trace. The plan and these
    /// pages have to be the same at each line.
    ///
    /// # Errors
    /// Why it can't be replayed. Then the replay has ended.
    pub fn replay_line(
        &mut self,
        plan: &Plan,
        before: &Option<Before<'_>>,
        line: &[u8],
    ) -> Result<(), ReplayError>
        ensures ok { OnOk result (ReplaysStep plan.now (lies_where before.now)
            (step_of self.old.process line.now) self.old self.new) }
        ensures err { IfErr result (EndsAtStep plan.now (lies_where before.now)
            (step_of self.old.process line.now) self.old) }
    {
        match self.step(line) {
            Err(fault) => Err(fault),
            Ok(None) => Ok(()),
            Ok(Some(TraceStep::Closes(text))) => self.close(text),
            Ok(Some(TraceStep::Touches(access))) => self.touch(plan, before, access),
        }
    }
}
