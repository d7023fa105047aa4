//! Scripts that are given line by line.
ghost use Rattle.std.specs.Prelude.{◌≡◌, [], Ok, Err, Bool, MatchOption};
ghost use Rattle.numa_host_script.specs.Sessions.{HostLack, Session, session_after_bytes};
ghost use Rattle.numa_host_script.specs.Sessions.{session_answer_to};
ghost use Rattle.numa_host_script.specs.Standing.{StandsIn, unboxed};
ghost use Rattle.numaplan_handles.specs.Dialogs.{IsFresh, Serves};
ghost use Rattle.numaplan_handles.specs.Room.{Copies};

use crate::room::copy_items;
use numa_host_script::HostScript;
use numa_lines::{Serve, Watched};
use numa_machine::Rules;
use std::alloc::Global;

/// The bytes of an answer for which memory is reserved before its line is served: enough for any
/// answer but those to a question, `maps` and `moved`, which change nothing.
const ROOM: usize = 4096;

/// Why a line has no answer.
#[derive(Clone, Copy, Debug, PartialEq, Eq)]
pub enum LineRefusal {
    /// Out of memory; the line was not served.
    NoMemory,
    /// The line was served, but there was no memory for its whole answer.
    AnswerLost,
}

/// A script, and the answer to its last line.
#[derive(Drop)]
pub struct Dialog {
    pub(crate) script: HostScript,
    pub(crate) answer: Vec<u8>,
}

/// Serves a line, and returns its answer, if there is memory for it.
fn serve(script: &mut HostScript, alloc: Global, line: &[u8], room: Vec<u8>) -> Option<Vec<u8>>
    requires empty { room.items ≡ [] }
    ensures { (session : Session) → StandsIn script.old.script script.old.limits
        (unboxed script.old.host) session → (lack : HostLack)
        × StandsIn script.new.script script.new.limits (unboxed script.new.host)
        (session_after_bytes lack session line.now)
        × MatchOption result (Unit {0})
        (λ answer. answer.items ≡ session_answer_to lack session line.now) }
{
    let mut output = Watched::new(room);
    script.serve(alloc, line, &mut output);
    match output.hand_over() {
        Ok(()) => Some(output.inner),
        Err(_) => None,
    }
}

impl Dialog {
    /// The state before the first line, with these rules unless a line says otherwise.
    pub(crate) fn new(alloc: Global, rules: Rules) -> Dialog
        ensures { IsFresh rules result }
    {
        Dialog {
            script: HostScript::by(rules),
            answer: Vec::new(alloc),
        }
    }

    /// Serves a line, keeps its answer, and returns the answer's length in bytes.
    ///
    /// # Errors
    /// `NoMemory`: out of memory, and nothing has changed. `AnswerLost`: the line was served.
    pub(crate) fn line(&mut self, alloc: Global, line: &[u8]) -> Result<usize, LineRefusal>
        ensures { Serves self.old line.now result self.new }
    {
        let Ok(room) = Vec::with_capacity(alloc, ROOM) else {
            return Err(LineRefusal::NoMemory);
        };
        match serve(&mut self.script, alloc, line, room) {
            Some(answer) => {
                let length = answer.len();
                self.answer = answer;
                Ok(length)
            }
            None => {
                self.answer.clear();
                Err(LineRefusal::AnswerLost)
            }
        }
    }

    /// Copies the answer to the last line into `room`, and returns its length in bytes.
    ///
    /// # Errors
    /// The answer's length, if it is longer than `room`.
    pub(crate) fn copy(&self, room: &mut [u8]) -> Result<usize, usize>
        ensures { Copies self.now.answer.items result room.old room.new }
    {
        copy_items(&self.answer, room)
    }
}
