//! Traces that are replayed over scripts that still run.
ghost use Rattle.std.specs.Prelude.{◌≡◌, IfErr, OnOk};
ghost use Rattle.numa_host_script.specs.Sessions.{Session};
ghost use Rattle.numa_host_script.specs.Taking.{SessionStandsFor};
ghost use Rattle.numa_play.specs.Deeds.{BeginsDoing, CarriesLine, CarriesOut, EndsAccess};
ghost use Rattle.numa_play.specs.Deeds.{EndsStep, TakesStep};
ghost use Rattle.numa_script.specs.Lines.{line_of};
ghost use Rattle.numa_traces.specs.PlanReading.{step_said};

use crate::findings::Findings;
use crate::handing::{say_rooms, state_pages};
use crate::landing::touch;
use numa_host_script::HostScript;
use numa_lines::RunFault;
use numa_traces::{Access, ReplayError, TraceState, TraceStep};
use std::alloc::Global;
use std::io::Write;

/// An access is carried out by a running script, and counted.
///
/// # Errors
/// Why it can't be. Then the trace has ended.
fn carry_out(
    alloc: Global,
    script: &mut HostScript,
    process: Option<u32>,
    access: Access,
    state: &mut TraceState,
) -> Result<(), ReplayError>
    ensures ok { (session : Session) → SessionStandsFor script.old session
        → OnOk result (CarriesOut process access session script.new state.old state.new) }
    ensures err { (session : Session) → SessionStandsFor script.old session
        → IfErr result (EndsAccess process access session) }
{
    let landed = match touch(alloc, script, process, access) {
        Ok(landed) => landed,
        Err(why) => return Err(why),
    };
    state.count(access, landed.node, landed.is_fault)
}

/// What accesses have placed so far is stated to a running script: first the room that nodes had
/// before them, if it isn't that of the script.
///
/// # Errors
/// `TooManyRuns` or `NoMemory`. Then the trace has ended.
fn hand_over(
    alloc: Global,
    script: &mut HostScript,
    process: Option<u32>,
    room: &[u64],
    state: &TraceState,
) -> Result<(), ReplayError>
    ensures { (session : Session) → SessionStandsFor script.old session → OnOk result
        (BeginsDoing process room.now state.now.replay.frames.pages session script.new) }
{
    match say_rooms(alloc, script, room) {
        Ok(()) => state_pages(alloc, script, process, state.replay.memory()),
        Err(why) => Err(why),
    }
}

/// A step of a trace is carried out by a running script, and counted.
///
/// # Errors
/// Why an access can't be; `NoMemory`: out of memory. Then the trace has ended.
fn take_step(
    alloc: Global,
    script: &mut HostScript,
    process: Option<u32>,
    step: TraceStep<'_>,
    state: &mut TraceState,
) -> Result<(), ReplayError>
    ensures ok { (session : Session) → SessionStandsFor script.old session → OnOk result
        (TakesStep process (step_said step.entry) session script.new state.old state.new) }
    ensures err { (session : Session) → SessionStandsFor script.old session
        → IfErr result (EndsStep process (step_said step.entry) session) }
{
    match step {
        TraceStep::Touches(access) => carry_out(alloc, script, process, access, state),
        TraceStep::Closes(text) => state.close(text),
    }
}

/// The same where the lines of scripts are played by the other rules too.
fn take_step_by(
    alloc: Global,
    script: &mut Option<HostScript>,
    process: Option<u32>,
    step: TraceStep<'_>,
    state: &mut TraceState,
) -> Result<(), ReplayError> {
    match script {
        Some(script) => take_step(alloc, script, process, step, state),
        None => Ok(()),
    }
}

/// The same where the lines of scripts are played by the other rules too.
fn hand_over_by(
    alloc: Global,
    script: &mut Option<HostScript>,
    process: Option<u32>,
    room: &[u64],
    state: &TraceState,
) -> Result<(), ReplayError> {
    match script {
        Some(script) => hand_over(alloc, script, process, room, state),
        None => Ok(()),
    }
}

impl<W: Write> Findings<W> {
    /// A line of the language that stands behind so many bytes of a line of a trace is carried out,
    /// by the other rules too if lines are played by those, and what is wrong with it is written.
    ///
    /// # Errors
    /// `Memory`: out of memory.
    pub fn carry_line(
        &mut self,
        name: &str,
        place: u64,
        line: &[u8],
        before: usize,
    ) -> Result<(), RunFault>
        ensures { (session : Session) → SessionStandsFor self.old.script session → OnOk result
            (CarriesLine (line_of line.now) session self.new.script) }
    {
        self.play_line(name, place, line, before)
    }

    /// A step of a trace is carried out by the script, and counted: of the one process, or of the
    /// process of a host that has this number.
    ///
    /// # Errors
    /// Why it can't be. Then the trace has ended.
    pub fn take_step(
        &mut self,
        process: Option<u32>,
        step: TraceStep<'_>,
        state: &mut TraceState,
    ) -> Result<(), ReplayError>
        ensures ok { (session : Session) → SessionStandsFor self.old.script session → OnOk result
            (TakesStep process (step_said step.entry) session self.new.script state.old
            state.new) }
        ensures err { (session : Session) → SessionStandsFor self.old.script session
            → IfErr result (EndsStep process (step_said step.entry) session) }
    {
        take_step(self.alloc, &mut self.script, process, step, state)
    }

    /// The same by the script by the other rules, if lines are played by those.
    ///
    /// # Errors
    /// Why it can't be. Then the trace has ended by those.
    pub fn take_step_by_other(
        &mut self,
        process: Option<u32>,
        step: TraceStep<'_>,
        state: &mut TraceState,
    ) -> Result<(), ReplayError>
        ensures { self.new.script ≡ self.old.script }
    {
        take_step_by(self.alloc, &mut self.other.script, process, step, state)
    }

    /// What accesses have placed so far is stated to the script, and before it for how many more
    /// pages nodes had room before them.
    ///
    /// # Errors
    /// `TooManyRuns` or `NoMemory`. Then the trace has ended.
    pub fn hand_over_placed(
        &mut self,
        process: Option<u32>,
        room: &[u64],
        state: &TraceState,
    ) -> Result<(), ReplayError>
        ensures { (session : Session) → SessionStandsFor self.old.script session → OnOk result
            (BeginsDoing process room.now state.now.replay.frames.pages session self.new.script) }
    {
        hand_over(self.alloc, &mut self.script, process, room, state)
    }

    /// The same to the script by the other rules, if lines are played by those.
    ///
    /// # Errors
    /// `TooManyRuns` or `NoMemory`. Then the trace has ended by those.
    pub fn hand_over_to_other(
        &mut self,
        process: Option<u32>,
        room: &[u64],
        state: &TraceState,
    ) -> Result<(), ReplayError>
        ensures { self.new.script ≡ self.old.script }
    {
        hand_over_by(self.alloc, &mut self.other.script, process, room, state)
    }
}
