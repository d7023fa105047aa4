//! Differences after scripts.
use crate::there::LineFaults;
use numa_host_script::HostScript;
use numa_lines::{RunFault, TakeLine};
use numa_play::{Findings, subject_of};
use numa_sheets::Watch;
use numa_subjects::{Added, Halt};
use numa_what_if::{DiffAsked, StatesBefore, difference_since, states_of};
use std::alloc::Global;
use std::io::Write;

/// The name of the added lines in messages.
const ADDED: &str = "--then";

/// Plays an added line, whose messages have the name `--then`, and notes what is wrong with it.
///
/// # Errors
/// `Write` or `Memory`, as [`Findings`] takes lines.
pub(crate) fn play_one<T: Write>(
    findings: &mut Findings<T>,
    place: u64,
    line: &[u8],
    faults: &mut LineFaults,
) -> Result<(), RunFault> {
    let told = findings.told();
    if let Err(why) = findings.take(ADDED, place, line, &mut ()) {
        return Err(why);
    }
    faults.note(findings.fault_behind(told))
}

/// Plays added lines, whose messages have the name `--then` and numbers from 1 on, and notes what
/// is wrong with each.
///
/// # Errors
/// `Write` or `Memory`, as [`Findings`] takes lines.
pub fn play_added<T: Write>(
    findings: &mut Findings<T>,
    lines: &[String],
    faults: &mut LineFaults,
) -> Result<(), RunFault> {
    let mut place = 1u64;
    for line in lines {
        if let Err(why) = play_one(findings, place, line.as_str().as_bytes(), faults) {
            return Err(why);
        }
        place = place.saturating_add(1);
    }
    Ok(())
}

/// Plays the added lines, and finishes the messages.
fn play_lines<T: Write>(
    findings: &mut Findings<T>,
    lines: &[String],
    faults: &mut LineFaults,
) -> Result<(), RunFault> {
    if let Err(why) = play_added(findings, lines, faults) {
        return Err(why);
    }
    findings.end()
}

/// The states to which a script led.
fn states_in(
    alloc: Global,
    script: &HostScript,
    process: Option<u32>,
    asked: DiffAsked<'_>,
) -> Result<StatesBefore, Halt> {
    match subject_of(script, process) {
        Ok(subject) => states_of(alloc, subject, asked),
        Err(halt) => Err(halt),
    }
}

/// The states to which the script led. If they can't be had, what is wrong with the script is
/// written first.
fn states_before<T: Write>(
    alloc: Global,
    findings: &mut Findings<T>,
    process: Option<u32>,
    asked: DiffAsked<'_>,
) -> Result<StatesBefore, Halt> {
    match states_in(alloc, findings.script(), process, asked) {
        Ok(before) => Ok(before),
        Err(halt) => match findings.end() {
            Ok(()) => Err(halt),
            Err(why) => Err(Halt::Stopped(why)),
        },
    }
}

/// Plays the lines, and returns which pages go elsewhere after them, as a text.
fn difference_by<T: Write, P: Watch>(
    alloc: Global,
    before: &StatesBefore,
    findings: &mut Findings<T>,
    process: Option<u32>,
    asked: DiffAsked<'_>,
    faults: &mut LineFaults,
    watch: &mut P,
) -> Result<Vec<u8>, Halt> {
    let lines = asked.added.lines;
    if let Err(why) = play_lines(findings, lines, faults) {
        return Err(Halt::Stopped(why));
    }
    let asked = DiffAsked {
        added: Added {
            lines,
            faults: faults.of_lines(),
        },
        ..asked
    };
    match subject_of(findings.script(), process) {
        Ok(subject) => difference_since(alloc, before, subject, asked, watch),
        Err(halt) => Err(halt),
    }
}

/// Which pages go elsewhere after the lines, which are played, as a text.
pub(crate) fn difference<T: Write, P: Watch>(
    alloc: Global,
    findings: &mut Findings<T>,
    process: Option<u32>,
    asked: DiffAsked<'_>,
    watch: &mut P,
) -> Result<Vec<u8>, Halt> {
    let before = match states_before(alloc, findings, process, asked) {
        Ok(before) => before,
        Err(halt) => return Err(halt),
    };
    let mut faults = LineFaults::new(alloc);
    let text = difference_by(alloc, &before, findings, process, asked, &mut faults, watch);
    drop(faults);
    drop(before);
    text
}
