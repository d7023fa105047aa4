//! Reading traces of a host, line by line.
ghost use Rattle.std.specs.Prelude.{◌≡◌, ℕ, [], IfErr, List, Ok, OnOk, Some};
ghost use Rattle.numa_plan.specs.Meaning.{PlanData};
ghost use Rattle.numa_traces.specs.Accesses.{access_of};
ghost use Rattle.numa_traces.specs.HostReading.{EndsAtHostLine, HasMet, ReplaysHostLine};
ghost use Rattle.numa_traces.specs.HostReading.{access_in, said_in};
ghost use Rattle.numa_traces.specs.Hosting.{IsHostReplay};
ghost use Rattle.numa_traces.specs.Phases.{Closes};

use crate::access::{Access, TraceLine, mark_in, read_access};
use crate::fault::ReplayError;
use crate::host::HostReplay;
use crate::host_mark::HostMark;
use crate::mark::close;
use crate::reading::ReplayLine;
use std::alloc::Global;

/// The access that a line has, with its process, which has to be named.
fn access_in(line: TraceLine) -> Result<Option<(u32, Access)>, ReplayError>
    ensures { result ≡ access_in line.process line.access }
{
    match line.process {
        Some(process) => Ok(Some((process, line.access))),
        None => Err(ReplayError::Unnamed),
    }
}

/// The same of a line that isn't read yet.
fn said_in(line: &[u8]) -> Result<Option<(u32, Access)>, ReplayError>
    ensures { result ≡ said_in (access_of line.now) }
{
    match read_access(line) {
        Err(fault) => Err(ReplayError::Malformed(fault)),
        Ok(None) => Ok(None),
        Ok(Some(said)) => access_in(said),
    }
}

/// The replay of a trace of a host's processes, and its marks.
#[derive(Drop)]
pub struct HostTrace {
    alloc: Global,
    /// What the accesses so far met.
    pub replay: HostReplay,
    /// The marks so far, in order.
    pub marks: Vec<HostMark>,
}

impl HostTrace {
    /// The state before the first line, from this replay on, before its first access. It doesn't
    /// allocate.
    pub fn new(alloc: Global, replay: HostReplay) -> HostTrace
        ensures replay { result.replay ≡ replay }
        ensures met { (room : List ℕ) (plans : ℕ → PlanData) → IsHostReplay room plans [] replay
            → HasMet room plans [] result }
    {
        HostTrace {
            alloc,
            replay,
            marks: Vec::new(alloc),
        }
    }

    /// Closes a phase.
    ///
    /// # Errors
    /// `NoMemory`: out of memory.
    fn close(&mut self, text: &[u8]) -> Result<(), ReplayError>
        ensures ok { OnOk result (ReplaysHostLine (Ok (Some (Closes text.now))) self.old self.new) }
        ensures err { IfErr result (EndsAtHostLine (Ok (Some (Closes text.now))) self.old) }
    {
        let mark = HostMark::new(self.alloc, text, &self.replay);
        close(&mut self.marks, mark)
    }
}

impl ReplayLine for HostTrace {
    ghost use Rattle.numa_traces.specs.HostReading.{EndsAtHostLine, ReplaysHostLine, step_in};

    ghost replays = { λ line. ReplaysHostLine (step_in line) };

    ghost ends = { λ line. EndsAtHostLine (step_in line) };

    fn replay_line(&mut self, line: &[u8]) -> Result<(), ReplayError> {
        if let Some(text) = mark_in(line) {
            return self.close(text);
        }
        match said_in(line) {
            Err(fault) => Err(fault),
            Ok(None) => Ok(()),
            Ok(Some((process, access))) => self.replay.take(process, access),
        }
    }
}
