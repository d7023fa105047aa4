//! Replaying a trace of one space, or of one process of a host, whose lines may change what it goes
//! by.
use numa_host_script::HostScript;
use numa_lines::{RunFault, TakeLine};
use numa_plan::Plan;
use numa_play::{Findings, HugeCount, remark_on};
use numa_script::Line;
use numa_script::line::{LIMIT, parse};
use numa_traces::{Before, ReplayError, TraceState, TraceStep, do_in};
use std::io::Write;

/// The bytes of a trace's line before the line of the language that it carries out.
const BEFORE: usize = 3;

/// A replay of a trace, up to the first line that can't be replayed.
#[derive(Drop)]
pub(crate) struct Tracing {
    // The plan of the commands that were accepted before the trace.
    pub(crate) plan: Plan,
    // For how many more pages each node has room before the trace, where that isn't what lines of
    // the scripts say.
    pub(crate) room: Vec<u64>,
    pub(crate) state: TraceState,
    // The first line that can't be replayed, and why.
    pub(crate) fault: Option<(u64, ReplayError)>,
}

impl Tracing {
    /// Notes why a line can't be replayed, if it can't.
    fn note(&mut self, place: u64, done: Result<(), ReplayError>) -> Result<(), RunFault> {
        match done {
            Ok(()) => Ok(()),
            Err(ReplayError::NoMemory) => Err(RunFault::Memory),
            Err(fault) => {
                self.fault = Some((place, fault));
                Ok(())
            }
        }
    }

    /// Takes a line before the first `do`.
    fn take(
        &mut self,
        before: &Option<Before<'_>>,
        place: u64,
        line: &[u8],
    ) -> Result<(), RunFault> {
        if let Some(_) = self.fault {
            return Ok(());
        }
        let replayed = self.state.replay_line(&self.plan, before, line);
        self.note(place, replayed)
    }
}

/// Whether a line of the language is about pages of 2 MiB.
fn is_about_huge(said: &[u8]) -> bool {
    match parse(said).line {
        Line::Huge(_) => true,
        _ => false,
    }
}

/// Whether scripts map pages of 2 MiB, by these rules or the others.
fn maps_huge<T: Write>(findings: &Findings<T>) -> bool {
    if remark_on(findings.script(), HugeCount::Parts).is_some() {
        return true;
    }
    match findings.other() {
        Some(other) => remark_on(other, HugeCount::Parts).is_some(),
        None => false,
    }
}

/// Where pages lie after the script of one process, if a machine is ready.
fn before_of(script: &HostScript) -> Option<Before<'_>> {
    let script = script.script()?;
    let resident = script.resident()?;
    let placed = match script.pages() {
        Some(pages) => Some(pages.placed()),
        None => None,
    };
    Some(Before { resident, placed })
}

/// Where pages lie before a trace, after a script, if there is one; nowhere where they take frames.
fn before_in(script: Option<&HostScript>, takes_frames: bool) -> Option<Before<'_>> {
    match takes_frames {
        true => None,
        false => before_of(script?),
    }
}

/// A trace that is replayed over scripts that still run: by what was accepted before it up to its
/// first line `do`, and from there on by the scripts, of which each such line is one more.
#[derive(Drop)]
pub(crate) struct Deeds<'a, T> {
    pub(crate) findings: &'a mut Findings<T>,
    pub(crate) process: Option<u32>,
    pub(crate) own: Tracing,
    /// The same by the other rules, if lines are played by those.
    pub(crate) other: Option<Tracing>,
    /// Whether pages take frames, and no line may be `do`.
    pub(crate) takes_frames: bool,
    /// Whether a page shows where pages lie, and no line may be `do` either.
    pub(crate) is_drawn: bool,
    pub(crate) has_done: bool,
}

impl<T: Write> Deeds<'_, T> {
    /// Takes a line before the first `do`.
    fn take_before(&mut self, place: u64, line: &[u8]) -> Result<(), RunFault> {
        let before = before_in(Some(self.findings.script()), self.takes_frames);
        if let Err(why) = self.own.take(&before, place, line) {
            return Err(why);
        }
        let Some(other) = &mut self.other else {
            return Ok(());
        };
        let before = before_in(self.findings.other(), self.takes_frames);
        other.take(&before, place, line)
    }

    /// States to the scripts where pages lie, at the first `do`.
    fn begin(&mut self, place: u64) -> Result<(), RunFault> {
        self.has_done = true;
        let room = self.own.room.as_slice();
        let handed = self
            .findings
            .hand_over_placed(self.process, room, &self.own.state);
        if let Err(why) = self.own.note(place, handed) {
            return Err(why);
        }
        let Some(other) = &mut self.other else {
            return Ok(());
        };
        let room = other.room.as_slice();
        let handed = self
            .findings
            .hand_over_to_other(self.process, room, &other.state);
        other.note(place, handed)
    }

    /// Why a line of the language may not be carried out, if it may not.
    fn refusal(&self, said: &[u8]) -> Option<ReplayError> {
        if self.takes_frames {
            return Some(ReplayError::WantsRoom);
        }
        if let Some(_) = &self.own.state.ranges {
            return Some(ReplayError::ByRange);
        }
        if self.is_drawn {
            return Some(ReplayError::Drawn);
        }
        if is_about_huge(said) || (!self.has_done && maps_huge(self.findings)) {
            return Some(ReplayError::Huge);
        }
        None
    }

    /// Carries out a line of the language, which stands behind so many bytes.
    fn carry_out(
        &mut self,
        name: &str,
        place: u64,
        said: &[u8],
        before: usize,
    ) -> Result<(), RunFault> {
        if let Some(_) = self.own.fault {
            return Ok(());
        }
        if let Some(fault) = self.refusal(said) {
            self.own.fault = Some((place, fault));
            return Ok(());
        }
        if !self.has_done {
            if let Err(why) = self.begin(place) {
                return Err(why);
            }
        }
        match self.own.fault {
            Some(_) => Ok(()),
            None => self.findings.carry_line(name, place, said, before),
        }
    }

    /// Takes a step after the first `do`.
    fn take_step(&mut self, place: u64, step: TraceStep<'_>) -> Result<(), RunFault> {
        let done = self
            .findings
            .take_step(self.process, step, &mut self.own.state);
        if let Err(why) = self.own.note(place, done) {
            return Err(why);
        }
        let Some(other) = &mut self.other else {
            return Ok(());
        };
        if let Some(_) = other.fault {
            return Ok(());
        }
        let done = self
            .findings
            .take_step_by_other(self.process, step, &mut other.state);
        other.note(place, done)
    }

    /// Takes a line after the first `do` that isn't one.
    fn take_after(&mut self, place: u64, line: &[u8]) -> Result<(), RunFault> {
        if let Some(_) = self.own.fault {
            return Ok(());
        }
        match self.own.state.step(line) {
            Err(why) => self.own.note(place, Err(why)),
            Ok(None) => Ok(()),
            Ok(Some(step)) => self.take_step(place, step),
        }
    }
}

impl<T: Write> TakeLine<()> for Deeds<'_, T> {
    fn take(&mut self, name: &str, place: u64, line: &[u8], _: &mut ()) -> Result<(), RunFault> {
        if let Some(said) = do_in(line) {
            return match line.len() > LIMIT {
                // It may be cut off, and then says something else.
                true => self.carry_out(name, place, line, 0),
                false => self.carry_out(name, place, said, BEFORE),
            };
        }
        if self.has_done {
            return self.take_after(place, line);
        }
        self.take_before(place, line)
    }

    fn hand_over(&mut self, _output: &mut ()) -> Result<(), RunFault> {
        Ok(())
    }
}
