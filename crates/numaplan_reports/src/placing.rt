//! The words of the program about pages that are there, over texts in memory.

use crate::asking::{explain_asked, predict_asked};
use crate::lines::lines_of;
use crate::report::{Report, report_of};
use crate::sources::{ScriptText, first_of, named, scripts_of};
use numa_play::Scripts;
use numa_sheets::{Format, FreePages, Touch};
use numa_words::{MovesAsked, QuestionThere, answer_there};
use std::alloc::{AllocError, Global};

/// The report of the answer to a question after scripts, and where the text `at` states that pages
/// lie, under that name.
fn report_there(
    alloc: Global,
    scripts: Scripts<&[u8]>,
    at: &[u8],
    question: QuestionThere<'_>,
) -> Result<Report, AllocError> {
    let Ok(at) = named(alloc, "at", at) else {
        drop(scripts);
        return Err(AllocError);
    };
    let mut answer = Vec::new(alloc);
    let mut told = Vec::new(alloc);
    let ended = answer_there(
        alloc,
        scripts,
        at,
        question,
        &mut answer,
        &mut told,
        &mut (),
    );
    report_of(answer, told, ended)
}

/// Where all mapped pages would go after a script, but that those stay that lie where lines `at` of
/// the script, of the lines behind it or of the text `at` say, as [`numa_words::answer_there`]
/// writes it. Messages call that text `at`.
///
/// # Errors
/// `AllocError`: out of memory.
pub fn predict_at(
    alloc: Global,
    script: ScriptText<'_>,
    at: &[u8],
    touch: Touch,
    format: Format,
    free: &[FreePages],
) -> Result<Report, AllocError> {
    let scripts = scripts_of(alloc, script)?;
    let asked = predict_asked(touch, format, free);
    report_there(alloc, scripts, at, QuestionThere::Predict(asked))
}

/// Why a page would go where it goes after a script, and how it came where it lies by the script,
/// the lines behind it and lines `at` of the text `at`, as [`numa_words::answer_there`] writes it.
/// Messages call that text `at`.
///
/// # Errors
/// `AllocError`: out of memory.
pub fn explain_at(
    alloc: Global,
    script: ScriptText<'_>,
    at: &[u8],
    touch: Touch,
    page: u64,
    format: Format,
) -> Result<Report, AllocError> {
    let scripts = scripts_of(alloc, script)?;
    let asked = explain_asked(touch, page, format);
    report_there(alloc, scripts, at, QuestionThere::Explain(asked))
}

/// How pages came to lie where they do.
#[derive(Clone, Copy)]
pub enum Origin<'a> {
    /// Lines `at` of the script or of this text state it.
    Stated(&'a [u8]),
    /// A task touched each, while every node had room.
    Touched(Touch),
}

impl<'a> Origin<'a> {
    /// The text, empty where there is none.
    fn text(&self) -> &'a [u8] {
        match self {
            Origin::Stated(at) => at,
            Origin::Touched(_) => &[],
        }
    }

    /// The touch, if pages were touched.
    fn touch(&self) -> Option<Touch> {
        match self {
            Origin::Stated(_) => None,
            Origin::Touched(touch) => Some(*touch),
        }
    }
}

/// What becomes of pages by lines after a script without them.
fn moves_by(
    alloc: Global,
    script: ScriptText<'_>,
    at: &[u8],
    asked: MovesAsked<'_>,
) -> Result<Report, AllocError> {
    let scripts = first_of(alloc, script)?;
    report_there(alloc, scripts, at, QuestionThere::Moves(asked))
}

/// The lines of a text, of which the last ends with or without a line feed.
fn steps_of(alloc: Global, text: &[u8]) -> Result<Vec<String>, AllocError> {
    if text.is_empty() {
        return Ok(Vec::new(alloc));
    }
    lines_of(alloc, text.strip_suffix(b"\n").unwrap_or(text))
}

/// What becomes of pages that are there by the lines behind a script, as
/// [`numa_words::answer_there`] writes it. Messages call the text that states where pages lie `at`.
///
/// # Errors
/// `AllocError`: out of memory.
pub fn moves(
    alloc: Global,
    script: ScriptText<'_>,
    origin: Origin<'_>,
    format: Format,
    free: &[FreePages],
) -> Result<Report, AllocError> {
    let lines = steps_of(alloc, script.then)?;
    let asked = MovesAsked {
        lines: lines.as_slice(),
        touch: origin.touch(),
        format,
        free,
    };
    let report = moves_by(alloc, script, origin.text(), asked);
    drop(lines);
    report
}
