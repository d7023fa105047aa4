//! Playing scripts to their end.
use crate::findings::{Findings, Look, PLAIN};
use numa_machine::Rules;
use numa_sheets::Format;
use numa_subjects::{Ended, Halt, Twin};
use numa_traces::read_by;
use std::alloc::Global;
use std::io::{Read, Write};

/// Scripts that are read in order, as one: texts with their names, the rules that apply unless a
/// line says otherwise, and the process that is asked for, if they are a host's and not all are.
#[derive(Drop)]
pub struct Scripts<R> {
    pub texts: Vec<(String, R)>,
    pub rules: Rules,
    pub process: Option<u32>,
}

/// A look at errors and refusals alone, as text, where lines are also played by this twin.
pub fn plain_by(other: Twin) -> Look {
    Look { other, ..PLAIN }
}

/// Plays scripts as one, and reports what is wrong with their lines, by this look: the text's name,
/// the line, for bad words the column, the answer, and its cause. `Findings::end` reports how many
/// lines weren't judged.
///
/// # Errors
/// `Stopped`: a read or a write failed, or out of memory.
pub fn play<R: Read + Drop, W: Write + Drop>(
    alloc: Global,
    scripts: Scripts<R>,
    look: Look,
    output: W,
) -> Result<Findings<W>, Halt> {
    let Scripts { texts, rules, .. } = scripts;
    match read_by(alloc, texts, Findings::new(alloc, rules, look, output)) {
        Ok(findings) => Ok(findings),
        Err(why) => Err(Halt::Stopped(why)),
    }
}

/// Finishes the messages, and returns which lines were accepted. If a process is asked for, the
/// scripts have to be a host's.
fn end<W: Write>(findings: &mut Findings<W>, process: Option<u32>) -> Result<Ended, Halt> {
    match findings.end() {
        Ok(()) if process.is_some() && findings.script().host().is_none() => Err(Halt::NoHost),
        Ok(()) => Ok(findings.ended()),
        Err(why) => Err(Halt::Stopped(why)),
    }
}

/// Reads the scripts, and writes what is wrong with their lines, and what a running kernel would do
/// differently with a line, as text or as lines of JSON. If a process is asked for, of its lines
/// alone. `Clean` if nothing is wrong.
///
/// # Errors
/// `Stopped`: a read or a write failed, or out of memory. `NoHost`: a process is asked for, and the
/// scripts are of one process.
pub fn check<R: Read + Drop, W: Write + Drop>(
    alloc: Global,
    scripts: Scripts<R>,
    format: Format,
    output: W,
) -> Result<Ended, Halt> {
    let process = scripts.process;
    let look = Look {
        hints: true,
        other: Twin::None,
        waits: false,
        process,
        tells_at: true,
        format,
    };
    let mut findings = play(alloc, scripts, look, output)?;
    let ended = end(&mut findings, process);
    drop(findings);
    ended
}
