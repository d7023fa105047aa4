//! The state that scripts lead to, and answers about it.
ghost use Rattle.std.specs.Prelude.{◌≡◌, IfOk};
ghost use Rattle.numa_subjects.specs.Faults.{ended_by, has_faults};

use crate::findings::Findings;
use numa_host::Process;
use numa_host_script::HostScript;
use numa_lines::RunFault;
use numa_subjects::{Ended, Halt, InGroup, Subject, member};
use std::io::Write;

/// What an answer about a process of a host is about.
fn subject_in(one: &Process) -> Subject<'_> {
    let member = InGroup {
        process: one.id,
        group: one.group,
    };
    Subject::One(&one.space, Some(member))
}

/// What an answer is about after a script, if this process is asked for.
pub fn subject_of(script: &HostScript, process: Option<u32>) -> Result<Subject<'_>, Halt> {
    if let Some(host) = script.host() {
        let Some(process) = process else {
            return Ok(Subject::Each(host));
        };
        return match member(host, process) {
            Some(one) => Ok(subject_in(one)),
            None => Err(Halt::NoProcess(process)),
        };
    }
    let Some(script) = script.script() else {
        return Err(Halt::NoMachine);
    };
    match script.core() {
        None => Err(Halt::NoMachine),
        Some(_) if process.is_some() => Err(Halt::NoHost),
        Some(core) => Ok(Subject::One(core.space(), None)),
    }
}

/// Writes an answer, if there is one, based on lines that ended so.
fn write<W: Write>(text: Result<Vec<u8>, Halt>, ended: Ended, output: &mut W) -> Result<Ended, Halt>
    ensures { IfOk result (λ by. by ≡ ended) }
{
    let text = match text {
        Ok(text) => text,
        Err(halt) => return Err(halt),
    };
    let written = output.write_all(text.as_slice());
    drop(text);
    match written {
        Ok(()) => Ok(ended),
        Err(_) => Err(Halt::Stopped(RunFault::Write)),
    }
}

/// Writes an answer after scripts, if there is one, and returns on which of their lines it is
/// based.
pub fn answer<T: Write + Drop, W: Write>(
    findings: Findings<T>,
    text: Result<Vec<u8>, Halt>,
    output: &mut W,
) -> Result<Ended, Halt>
    ensures { IfOk result (λ by. by
        ≡ ended_by (has_faults findings.told findings.unjudged)) }
{
    let ended = findings.ended();
    drop(findings);
    write(text, ended, output)
}

/// The same after the other script, if there is one and there is something.
pub fn other_subject(other: Option<&HostScript>, process: Option<u32>) -> Option<Subject<'_>> {
    subject_of(other?, process).ok()
}
