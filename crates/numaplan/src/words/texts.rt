//! The answers to questions about the state that scripts lead to, as texts.
use crate::words::by_node::joined;
use crate::words::meant::{
    Meant, add, difference_in, differs_elsewhere, goes_elsewhere, play, prediction_in, states_in,
};
use crate::words::report::report;
use numa_beside::{Areas, barred, named};
use numa_console::{Asking, Question};
use numa_lines::RunFault;
use numa_moves::Origin;
use numa_play::{Findings, HugeCount, page_meant, page_places, touches};
use numa_questions::AskedPages;
use numa_sheets::{AddressAsked, Format, FreePages, Touch, Watch};
use numa_subjects::{Added, Halt, PagePlace};
use numa_what_if::StatesBefore;
use numa_words::{
    Answer, ExplainAsked, LineFaults, Played, Playing, Reading, explanation, moves_of,
};
use std::alloc::Global;
use std::io::Write;

/// Where pages would go.
fn prediction<T: Write, P: Watch>(
    alloc: Global,
    findings: &Findings<T>,
    meant: Meant<'_>,
    free: &[FreePages],
    watch: &mut P,
) -> Result<Answer, Halt> {
    let script = findings.script();
    let text = prediction_in(alloc, script, meant, free, watch)?;
    let is_other = match findings.other() {
        Some(other) => goes_elsewhere(alloc, script, other, meant, free),
        None => false,
    };
    Ok(Answer { text, is_other })
}

/// Plays the added lines; with a file that states where pages lie, returns what becomes of these.
fn play_lines<T: Write>(
    alloc: Global,
    findings: &mut Findings<T>,
    meant: Meant<'_>,
    lines: &[String],
    faults: &mut LineFaults,
) -> Result<Option<Answer>, Halt> {
    let asked = if meant.asking.at.is_empty() {
        None
    } else {
        Some((Origin::Left, meant.asking.format))
    };
    play(alloc, findings, meant.process, lines, asked, faults)
}

/// A difference, with what became of the pages that are there behind it, if that is told.
fn with_moves(
    alloc: Global,
    difference: Answer,
    moves: Option<Answer>,
    format: Format,
) -> Result<Answer, Halt> {
    let Some(moves) = moves else {
        return Ok(difference);
    };
    let is_other = difference.is_other || moves.is_other;
    let text = joined(
        alloc,
        difference.text.as_slice(),
        moves.text.as_slice(),
        format,
    );
    drop(difference);
    drop(moves);
    match text {
        Ok(text) => Ok(Answer { text, is_other }),
        Err(_) => Err(Halt::Stopped(RunFault::Memory)),
    }
}

/// Plays the added lines, and returns which pages go elsewhere since these states.
fn difference_by<T: Write, P: Watch>(
    alloc: Global,
    findings: &mut Findings<T>,
    meant: Meant<'_>,
    lines: &[String],
    states: (&StatesBefore, Option<&StatesBefore>),
    faults: &mut LineFaults,
    watch: &mut P,
) -> Result<Answer, Halt> {
    let moves = play_lines(alloc, findings, meant, lines, faults)?;
    let script = findings.script();
    let added = Added {
        lines,
        faults: faults.of_lines(),
    };
    let text = difference_in(alloc, states.0, script, meant, added, watch)?;
    let is_other = match (states.1, findings.other()) {
        (Some(before), Some(other)) => {
            differs_elsewhere(alloc, (states.0, script), (before, other), meant)
        }
        _ => false,
    };
    with_moves(alloc, Answer { text, is_other }, moves, meant.asking.format)
}

/// Which pages go elsewhere after the added lines.
fn difference<T: Write, P: Watch>(
    alloc: Global,
    findings: &mut Findings<T>,
    meant: Meant<'_>,
    lines: &[String],
    faults: &mut LineFaults,
    watch: &mut P,
) -> Result<Answer, Halt> {
    let before = states_in(alloc, findings.script(), meant)?;
    let other = match findings.other() {
        Some(other) => states_in(alloc, other, meant).ok(),
        None => None,
    };
    let states = (&before, other.as_ref());
    let answer = difference_by(alloc, findings, meant, lines, states, faults, watch);
    drop(before);
    drop(other);
    answer
}

/// Why pages go where they go, and by which rules, if that matters, where the first lies so.
fn reasons_beside<T: Write>(
    alloc: Global,
    findings: &Findings<T>,
    there: &[Option<PagePlace>],
    meant: Meant<'_>,
    pages: AskedPages,
) -> Result<Answer, Halt> {
    let (script, process) = (findings.script(), meant.process);
    let (other, format) = (findings.other(), meant.asking.format);
    let mut texts = Vec::new(alloc);
    for touch in meant.touches {
        let touch = *touch;
        let asked = ExplainAsked {
            touch,
            pages,
            format,
        };
        let text = explanation(alloc, script, other, process, asked, there)?;
        add(&mut texts, text)?;
    }
    let text = meant.whole(alloc, texts)?;
    Ok(Answer {
        text,
        is_other: false,
    })
}

/// Why pages go where they go, and where the first lies, if it is there.
fn reasons<T: Write>(
    alloc: Global,
    findings: &Findings<T>,
    meant: Meant<'_>,
    address: AddressAsked,
    pages: Option<u32>,
) -> Result<Answer, Halt> {
    let script = findings.script();
    let page = page_meant(script, meant.process, address)?;
    let pages = AskedPages { page, pages };
    let Ok(there) = page_places(alloc, script, meant.process, page) else {
        return Err(Halt::Stopped(RunFault::Memory));
    };
    let answer = reasons_beside(alloc, findings, there.as_slice(), meant, pages);
    drop(there);
    answer
}

/// What becomes of pages that are there.
fn moves<T: Write>(
    alloc: Global,
    findings: &mut Findings<T>,
    meant: Meant<'_>,
    lines: &[String],
    free: &[FreePages],
    faults: &mut LineFaults,
) -> Result<Answer, Halt> {
    let origin = match meant.touches.first() {
        Some(touch) => Origin::Touched(*touch),
        None => Origin::Left,
    };
    let playing = Playing {
        lines,
        plays_all: false,
        process: meant.process,
        free,
        format: meant.asking.format,
    };
    moves_of(alloc, findings, origin, playing, faults)
}

/// The answer.
fn answer_of<T: Write, P: Watch>(
    alloc: Global,
    findings: &mut Findings<T>,
    areas: &Areas,
    meant: Meant<'_>,
    faults: &mut LineFaults,
    watch: &mut P,
) -> Result<Answer, Halt> {
    match meant.asking.question {
        Question::Predict(free) => prediction(alloc, findings, meant, free, watch),
        Question::Diff(lines) => difference(alloc, findings, meant, lines, faults, watch),
        Question::Explain(address, pages) => reasons(alloc, findings, meant, address, pages),
        Question::Moves(lines, free) => moves(alloc, findings, meant, lines, free, faults),
        Question::Report(lines) => report(alloc, findings, areas, meant, lines, faults, watch),
    }
}

/// How an answer counts pages of 2 MiB: that about pages that are there leaves them out, unless
/// they are touched. One that explains where pages go counts none.
fn counts_huge(meant: Meant<'_>) -> Option<HugeCount> {
    let asking = meant.asking;
    match asking.question {
        Question::Predict(free) => Some(HugeCount::predicted(free, !asking.at.is_empty())),
        Question::Explain(..) => None,
        Question::Moves(..) if meant.touches.is_empty() => Some(HugeCount::LeftOut),
        _ => Some(HugeCount::Parts),
    }
}

/// An answer, with remarks on it: how it counts pages of 2 MiB; that no line names the task; and
/// that by the other rules it would be another.
fn remarked<T: Write>(
    findings: &mut Findings<T>,
    counts_huge: Option<HugeCount>,
    answer: Answer,
) -> Result<Vec<u8>, Halt> {
    let Answer { text, is_other } = answer;
    if let Some(counts) = counts_huge {
        findings.tell_huge(counts);
    }
    if findings.tell_unnamed().is_err() {
        drop(text);
        return Err(Halt::Stopped(RunFault::Memory));
    }
    if is_other {
        findings.tell_other();
    }
    Ok(text)
}

/// The touches that are meant; none where pages lie as lines state it.
fn touches_in<T: Write>(
    alloc: Global,
    findings: &Findings<T>,
    process: Option<u32>,
    asking: Asking<'_>,
) -> Result<Vec<Touch>, Halt> {
    match asking.touch {
        Some(touch) => touches(alloc, findings, process, touch),
        None => Ok(Vec::new(alloc)),
    }
}

/// How scripts are played for a question: where pages lie matters to those about pages that are
/// there. Where no lines are added, the other rules matter only once they do something else.
pub fn reading_of(asking: Asking<'_>) -> Reading {
    let tells_places = matches!(
        asking.question,
        Question::Moves(..) | Question::Explain(..) | Question::Report(..)
    );
    Reading {
        task: asking.task(),
        other: asking.twin(),
        waits: matches!(
            asking.question,
            Question::Predict(..) | Question::Explain(..)
        ),
        heeds_at: tells_places || !asking.at.is_empty(),
    }
}

/// An answer as it is shown: with the names of areas, and at a terminal with bars.
fn shown(
    alloc: Global,
    areas: &Areas,
    process: Option<u32>,
    asking: Asking<'_>,
    text: Vec<u8>,
) -> Result<Vec<u8>, Halt> {
    if asking.is_lines() {
        return Ok(text);
    }
    let text = named(alloc, areas, process, asking.format, asking.names, text)?;
    match asking.bars() {
        Some(paint) => Ok(barred(alloc, paint, text)?),
        None => Ok(text),
    }
}

/// The answer after scripts, as a text. What is wrong with added lines is told, and so is what is
/// to be remarked on the answer.
///
/// # Errors
/// Why there is no answer.
pub fn text_of<'a, T: Write, P: Watch>(
    alloc: Global,
    played: &'a mut Played<T>,
    process: Option<u32>,
    asking: Asking<'a>,
    watch: &mut P,
) -> Result<Vec<u8>, Halt> {
    played.findings.note_all(asking.lines());
    let touches = touches_in(alloc, &played.findings, process, asking)?;
    let meant = Meant {
        asking,
        touches: touches.as_slice(),
        process,
    };
    let findings = &mut played.findings;
    let (areas, faults) = (&played.areas, &mut played.faults);
    let answer = answer_of(alloc, findings, areas, meant, faults, watch);
    let counts_huge = counts_huge(meant);
    drop(touches);
    match answer {
        Ok(answer) => {
            let text = remarked(&mut played.findings, counts_huge, answer)?;
            shown(alloc, &played.areas, process, asking, text)
        }
        Err(halt) => Err(halt),
    }
}
