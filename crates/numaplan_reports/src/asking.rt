//! The words of the program, over texts in memory.

use crate::lines::lines_of;
use crate::report::{Report, report_of};
use crate::sources::{ScriptText, first_of, named, scripts_of};
use numa_play::Scripts;
use numa_questions::{AskedPages, EachAsked};
use numa_sheets::{Format, FreePages, Touch, Written};
use numa_subjects::{Added, Ended, Halt, NOTHING_SERVED, Twin};
use numa_traces::ReplayError;
use numa_what_if::DiffAsked;
use numa_words::{ExplainAsked, Question, Traced, answer_after};
use std::alloc::{AllocError, Global};

/// The report of the answer to a question after scripts.
fn report_after(
    alloc: Global,
    scripts: Scripts<&[u8]>,
    question: Question<'_>,
) -> Result<Report, AllocError> {
    let mut answer = Vec::new(alloc);
    let mut told = Vec::new(alloc);
    let ended = answer_after(alloc, scripts, question, &mut answer, &mut told, &mut ());
    report_of(answer, told, ended)
}

/// What is wrong with the lines of a script, and what a running kernel would do differently with
/// one, as [`numa_play::check`] writes it: the answer, without messages.
///
/// # Errors
/// `AllocError`: out of memory.
pub fn check(alloc: Global, script: ScriptText<'_>, format: Format) -> Result<Report, AllocError> {
    let scripts = scripts_of(alloc, script)?;
    let mut answer = Vec::new(alloc);
    let ended = numa_play::check(alloc, scripts, format, &mut answer);
    report_of(answer, Vec::new(alloc), ended)
}

/// A prediction that is asked for.
pub(crate) fn predict_asked(touch: Touch, format: Format, free: &[FreePages]) -> EachAsked<'_> {
    EachAsked {
        touch,
        format,
        free,
        there: &[],
        beside: &[],
    }
}

/// Where all mapped pages would go after a script, as [`numa_words::answer_after`] writes it.
///
/// # Errors
/// `AllocError`: out of memory.
pub fn predict(
    alloc: Global,
    script: ScriptText<'_>,
    touch: Touch,
    format: Format,
    free: &[FreePages],
) -> Result<Report, AllocError> {
    let asked = predict_asked(touch, format, free);
    report_after(alloc, scripts_of(alloc, script)?, Question::Predict(asked))
}

/// The difference that lines make, after a script without them.
fn diff_by(
    alloc: Global,
    script: ScriptText<'_>,
    asked: DiffAsked<'_>,
) -> Result<Report, AllocError> {
    report_after(alloc, first_of(alloc, script)?, Question::Diff(asked))
}

/// Which pages would go to another node after the lines behind a script than before them, as
/// [`numa_words::answer_after`] writes it.
///
/// # Errors
/// `AllocError`: out of memory.
pub fn diff(
    alloc: Global,
    script: ScriptText<'_>,
    touch: Touch,
    format: Format,
) -> Result<Report, AllocError> {
    let lines = lines_of(alloc, script.then)?;
    let asked = DiffAsked {
        touch,
        format,
        added: Added::fine(lines.as_slice()),
    };
    let report = diff_by(alloc, script, asked);
    drop(lines);
    report
}

/// An explanation of one page that is asked for.
pub(crate) fn explain_asked(touch: Touch, page: u64, format: Format) -> ExplainAsked {
    let pages = AskedPages { page, pages: None };
    ExplainAsked {
        touch,
        pages,
        format,
    }
}

/// Why a page would go where it goes after a script, as [`numa_words::answer_after`] writes it.
///
/// # Errors
/// `AllocError`: out of memory.
pub fn explain(
    alloc: Global,
    script: ScriptText<'_>,
    asked: Touch,
    page: u64,
    format: Format,
) -> Result<Report, AllocError> {
    let asked = explain_asked(asked, page, format);
    report_after(alloc, scripts_of(alloc, script)?, Question::Explain(asked))
}

/// The message about a trace whose pages find no place.
fn message_of_all(alloc: Global) -> Result<Vec<u8>, AllocError> {
    let mut line = Written::new(alloc);
    line.put(b"trace: ");
    line.put(NOTHING_SERVED.as_bytes());
    line.put(b"\n");
    line.take()
}

/// The message about a line of a trace that can't be replayed.
fn message_of(alloc: Global, place: u64, why: ReplayError) -> Result<Vec<u8>, AllocError> {
    let mut line = Written::new(alloc);
    line.put_form(b"trace:$: ", &[place]);
    line.put(why.text().as_bytes());
    line.put(b"\n");
    line.take()
}

/// Appends the message about the line of a trace that ended a replay, if one did, or about all.
fn tell_access(
    alloc: Global,
    told: &mut Vec<u8>,
    ended: &Result<Ended, Halt>,
) -> Result<(), AllocError> {
    let message = match ended {
        Err(Halt::BadAccess(place, why)) => message_of(alloc, *place, *why)?,
        Err(Halt::NothingServed) => message_of_all(alloc)?,
        _ => return Ok(()),
    };
    told.extend_from_slice(message.as_slice())
}

/// A replay's report, with a message about the line that ended it, if one did.
pub(crate) fn replay_of(
    alloc: Global,
    answer: Vec<u8>,
    told: Vec<u8>,
    ended: Result<Ended, Halt>,
) -> Result<Report, AllocError> {
    let mut told = told;
    match tell_access(alloc, &mut told, &ended) {
        Ok(()) => report_of(answer, told, ended),
        Err(fault) => {
            drop(answer);
            drop(told);
            Err(fault)
        }
    }
}

/// What a trace meets after a script, as [`numa_words::replay`] writes it. Messages call the
/// trace `trace`; the last is about the line that can't be replayed, if there is one.
///
/// # Errors
/// `AllocError`: out of memory.
pub fn replay(
    alloc: Global,
    script: ScriptText<'_>,
    trace: &[u8],
    format: Format,
) -> Result<Report, AllocError> {
    let traces = named(alloc, "trace", trace)?;
    let Ok(scripts) = scripts_of(alloc, script) else {
        drop(traces);
        return Err(AllocError);
    };
    let mut answer = Vec::new(alloc);
    let mut told = Vec::new(alloc);
    let traced = Traced {
        texts: traces,
        free: &[],
        format,
        has_mean: false,
        by_range: false,
    };
    let ended = numa_words::replay(alloc, scripts, traced, Twin::None, &mut answer, &mut told);
    replay_of(alloc, answer, told, ended)
}
