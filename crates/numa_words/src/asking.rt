//! Questions about the state that scripts lead to.
use crate::differing::difference;
use crate::explaining::{ExplainAsked, explanation_after};
use crate::first_touches::from_pools;
use numa_host_script::HostScript;
use numa_placed::Placed;
use numa_play::{Findings, HugeCount, Look, PLAIN, Scripts, answer, plain_by, play, subject_of};
use numa_questions::{EachAsked, prediction_beside};
use numa_sheets::{Format, FreePages, Touch, Watch};
use numa_subjects::{Ended, Halt, Twin};
use numa_what_if::DiffAsked;
use std::alloc::Global;
use std::io::{Read, Write};

/// A question about the state that scripts lead to. Of a host without a process it is answered by
/// process, one after the other.
#[derive(Clone, Copy)]
pub enum Question<'a> {
    /// Where all mapped pages would go, if they were touched now and none were there. Nodes in
    /// `free` have that many free pages, and the text says how many are left; counting them is
    /// watched. Of a host the answer is of all together too, from one account of the free pages.
    Predict(EachAsked<'a>),
    /// Which pages would go to another node after these lines than before, if they were touched;
    /// comparing is watched. Of a host the answer is of the processes that are there before and
    /// after, and of all together. The lines have the name `--then` in messages, and numbers from 1
    /// on.
    Diff(DiffAsked<'a>),
    /// Why a page would go where it goes, if it were touched now, and by which rules, if by the
    /// others it would go elsewhere; of a span, which policy and which rule serve each stretch. Of
    /// a host the answer is of the processes that have mapped the page. Of a page that is there it
    /// says too where it lies, and how it comes there.
    Explain(ExplainAsked),
}

/// Where all mapped pages would go after a script, as a text, if there is something of which it is
/// asked. If it matters what nodes have, or what is there, pages of 2 MiB lie where their pools
/// give them, which is said too, if there are some.
pub(crate) fn prediction<P: Watch>(
    alloc: Global,
    script: &HostScript,
    process: Option<u32>,
    asked: EachAsked<'_>,
    watch: &mut P,
) -> Result<Vec<u8>, Halt> {
    let subject = subject_of(script, process)?;
    let touched = if asked.free.is_empty() && asked.there.is_empty() {
        None
    } else {
        from_pools(alloc, script, process, asked.touch, asked.there)?
    };
    let Some(touched) = touched else {
        return prediction_beside(alloc, subject, asked, None, watch);
    };
    let asked = EachAsked {
        beside: touched.lying.as_slice(),
        ..asked
    };
    let text = prediction_beside(alloc, subject, asked, Some(&touched.said), watch);
    drop(touched);
    text
}

/// Where all mapped pages would go after the lines so far, if they were touched now, but that those
/// that are there stay where they lie, as a text. `there` is where they lie in the one space, or in
/// each process of a host if none is named, in the order in which they were made; nothing if none
/// is there, as in a page.
///
/// # Errors
/// Why there is no answer.
pub fn prediction_there<P: Watch>(
    alloc: Global,
    script: &HostScript,
    process: Option<u32>,
    touch: Touch,
    format: Format,
    free: &[FreePages],
    there: &[Placed],
    watch: &mut P,
) -> Result<Vec<u8>, Halt> {
    let asked = EachAsked {
        touch,
        format,
        free,
        there,
        beside: &[],
    };
    prediction(alloc, script, process, asked, watch)
}

/// An answer, once the remarks on it are written.
///
/// # Errors
/// `Stopped(Write)`: writing failed.
pub(crate) fn remarked<T: Write>(
    findings: &mut Findings<T>,
    text: Vec<u8>,
) -> Result<Vec<u8>, Halt> {
    match findings.end_remarks() {
        Ok(()) => Ok(text),
        Err(why) => {
            drop(text);
            Err(Halt::Stopped(why))
        }
    }
}

/// How an answer counts pages of 2 MiB, if it counts pages: one that explains where they go
/// doesn't.
fn counts_huge(question: &Question<'_>) -> Option<HugeCount> {
    match question {
        Question::Predict(asked) => Some(HugeCount::predicted(asked.free, false)),
        Question::Diff(_) => Some(HugeCount::Parts),
        Question::Explain(_) => None,
    }
}

/// An answer, with a remark on how it counts pages of 2 MiB, if it counts pages, and there are
/// such.
fn counted<T: Write>(
    findings: &mut Findings<T>,
    counts_huge: Option<HugeCount>,
    text: Result<Vec<u8>, Halt>,
) -> Result<Vec<u8>, Halt> {
    let text = text?;
    if let Some(counts) = counts_huge {
        findings.tell_huge(counts);
    }
    remarked(findings, text)
}

/// How scripts are played for a question: for an explanation by both sets of rules.
fn look_for(question: &Question<'_>) -> Look {
    match question {
        Question::Explain(_) => plain_by(Twin::Always),
        _ => PLAIN,
    }
}

/// Plays the scripts, and writes the answer to a question about the state that they lead to. What
/// is wrong with a line is written to `told`, and the line is skipped, which the result says too;
/// behind it stands how the answer counts pages of 2 MiB, if there are some. The answer is complete
/// before its first byte is written.
///
/// # Errors
/// Why there is no answer. Text already written to `told` stays.
pub fn answer_after<R: Read + Drop, W: Write, T: Write + Drop, P: Watch>(
    alloc: Global,
    scripts: Scripts<R>,
    question: Question<'_>,
    output: &mut W,
    told: T,
    watch: &mut P,
) -> Result<Ended, Halt> {
    let process = scripts.process;
    let mut findings = play(alloc, scripts, look_for(&question), told)?;
    let counts = counts_huge(&question);
    let text = match question {
        Question::Predict(asked) => match findings.end() {
            Ok(()) => prediction(alloc, findings.script(), process, asked, watch),
            Err(why) => Err(Halt::Stopped(why)),
        },
        Question::Diff(asked) => difference(alloc, &mut findings, process, asked, watch),
        Question::Explain(asked) => explanation_after(alloc, &mut findings, process, asked),
    };
    let text = counted(&mut findings, counts, text);
    answer(findings, text, output)
}
