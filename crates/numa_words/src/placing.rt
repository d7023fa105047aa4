//! Questions about pages that are there, after scripts: where others would go, why a page goes
//! where it goes, and what becomes of those that are there.
use crate::asking::prediction;
use crate::explaining::{ExplainAsked, explanation_in};
use crate::moving::{MovesAsked, moves_told};
use crate::there::{Played, Reading, play_there};
use numa_play::{Findings, HugeCount, Scripts};
use numa_questions::EachAsked;
use numa_sheets::{Format, Watch};
use numa_subjects::{Ended, Halt, Twin};
use std::alloc::Global;
use std::io::{Read, Write};

/// It matters where pages lie, and by the other rules nothing is played.
const KEEPING: Reading = Reading {
    task: None,
    other: Twin::None,
    waits: false,
    heeds_at: true,
};

/// A question about the state that scripts lead to, in which pages are there.
#[derive(Clone, Copy)]
pub enum QuestionThere<'a> {
    /// Where all mapped pages would go, as [`crate::Question`] says; those that are there stay, and
    /// take no free page. Lines say which these are, and not the question.
    Predict(EachAsked<'a>),
    /// Why a page would go where it goes, as [`crate::Question`] says, and how it came where it
    /// lies.
    Explain(ExplainAsked),
    /// What becomes of pages that are there by lines. Nodes in `free` take that many more pages,
    /// and the text says how many are left. The lines have the name `--then` in messages, and
    /// numbers from 1 on.
    Moves(MovesAsked<'a>),
}

/// How scripts are played for a question: an explanation tells the rules.
fn reading_for(question: &QuestionThere<'_>) -> Reading {
    match question {
        QuestionThere::Explain(_) => Reading {
            other: Twin::Always,
            ..KEEPING
        },
        _ => KEEPING,
    }
}

/// How an answer counts pages of 2 MiB: that about pages that are there leaves them out, unless
/// they are touched. One that explains where pages go counts none.
fn counts_huge(question: &QuestionThere<'_>) -> Option<HugeCount> {
    match question {
        QuestionThere::Predict(_) => Some(HugeCount::Pooled),
        QuestionThere::Explain(_) => None,
        QuestionThere::Moves(asked) => Some(match asked.touch {
            Some(_) => HugeCount::Parts,
            None => HugeCount::LeftOut,
        }),
    }
}

/// Remarks how an answer counts pages of 2 MiB, if there are some, and there is an answer.
fn remark<T: Write>(
    findings: &mut Findings<T>,
    counts_huge: Option<HugeCount>,
    text: &Result<Vec<u8>, Halt>,
) {
    if let (Some(counts), Ok(_)) = (counts_huge, text) {
        findings.tell_huge(counts);
    }
}

/// The format of a prediction where pages are there, of which there is no page for a browser.
fn format_beside(format: Format) -> Format {
    match format {
        Format::Html(_) => Format::Text,
        format => format,
    }
}

/// Where all mapped pages would go; those that are there stay.
fn prediction_told<T: Write, P: Watch>(
    alloc: Global,
    played: &Played<T>,
    asked: EachAsked<'_>,
    watch: &mut P,
) -> Result<Vec<u8>, Halt> {
    let there = played.there(alloc)?;
    let asked = EachAsked {
        format: format_beside(asked.format),
        there: there.as_slice(),
        ..asked
    };
    let script = played.findings.script();
    let text = prediction(alloc, script, played.process, asked, watch);
    drop(there);
    text
}

/// Plays the scripts, and writes the answer to a question about the state that they lead to, in
/// which pages are there: they lie as the scripts left them, and then as lines `at` of further
/// texts state it, of which no others are played. What is wrong with a line is written to `told`,
/// and the line is skipped, which the result says too; behind it stands how the answer counts
/// pages of 2 MiB, if there are some. The answer is complete before its first byte is written.
///
/// # Errors
/// Why there is no answer. Text already written to `told` stays.
pub fn answer_there<R: Read + Drop, A: Read + Drop, W: Write, T: Write + Drop, P: Watch>(
    alloc: Global,
    scripts: Scripts<R>,
    texts_at: Vec<(String, A)>,
    question: QuestionThere<'_>,
    output: &mut W,
    told: T,
    watch: &mut P,
) -> Result<Ended, Halt> {
    let mut played = play_there(alloc, scripts, texts_at, reading_for(&question), told)?;
    let counts_huge = counts_huge(&question);
    let text = match question {
        QuestionThere::Predict(asked) => prediction_told(alloc, &played, asked, watch),
        QuestionThere::Explain(asked) => {
            explanation_in(alloc, &played.findings, played.process, asked)
        }
        QuestionThere::Moves(asked) => moves_told(alloc, &mut played, asked),
    };
    remark(&mut played.findings, counts_huge, &text);
    played.write(text, output)
}
