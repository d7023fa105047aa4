//! A page for a ticket: where pages would go and why, and what added lines change.
use crate::words::meant::{
    Meant, difference_in, differs_elsewhere, goes_elsewhere, play, prediction_in, states_in,
};
use crate::words::report_page::ReportPage;
use crate::words::report_rules::{RangeOf, by_rules, largest_of, ranges_of};
use numa_answers::About;
use numa_beside::{Areas, named};
use numa_host::Host;
use numa_host_script::HostScript;
use numa_moves::{MoveLine, Origin, read_move};
use numa_placed::Placed;
use numa_play::{Findings, page_places, subject_of};
use numa_questions::AskedPages;
use numa_sheets::{Format, Touch, Watch};
use numa_subjects::{Added, Halt, Subject};
use numa_what_if::StatesBefore;
use numa_words::{Answer, ExplainAsked, LineFaults, explanation};
use std::alloc::Global;
use std::io::Write;

/// Of how many ranges, the largest, the first page is explained.
const EXPLAINED: u32 = 4;

/// Why a page of a range goes where it goes, as a picture.
fn reason_of(
    alloc: Global,
    script: &HostScript,
    other: Option<&HostScript>,
    asked: (Touch, Format),
    range: RangeOf,
) -> Result<Vec<u8>, Halt> {
    let pages = AskedPages {
        page: range.first,
        pages: None,
    };
    let (touch, format) = asked;
    let asked = ExplainAsked {
        touch,
        pages,
        format,
    };
    let there = page_places(alloc, script, range.process, range.first)?;
    let picture = explanation(alloc, script, other, range.process, asked, there.as_slice());
    drop(there);
    picture
}

/// Draws why the first pages of the largest ranges go where they go.
fn put_reasons(
    alloc: Global,
    page: &mut ReportPage,
    script: &HostScript,
    other: Option<&HostScript>,
    asked: (Touch, Format),
    ranges: &[RangeOf],
) -> Result<(), Halt> {
    let mut largest = largest_of(alloc, ranges, EXPLAINED)?;
    for range in ranges {
        if largest.takes(range.pages) {
            let picture = reason_of(alloc, script, other, asked, *range)?;
            if let Some(process) = range.process {
                page.put_process(process);
            }
            page.put_picture(picture.as_slice());
            drop(picture);
        }
    }
    Ok(())
}

/// What is asked of a script, whose ranges these are, and the lines that are added to it.
#[derive(Clone, Copy)]
struct Told<'a> {
    meant: Meant<'a>,
    touch: Touch,
    areas: &'a Areas,
    ranges: &'a [RangeOf],
    lines: &'a [String],
}

/// Writes which range goes by which rule, and where its pages would go.
fn put_policies(
    alloc: Global,
    page: &mut ReportPage,
    script: &HostScript,
    told: Told<'_>,
) -> Result<(), Halt> {
    let Told {
        meant,
        touch,
        areas,
        ranges,
        ..
    } = told;
    let text = prediction_in(alloc, script, meant.as_text(), &[], &mut ());
    let text = named(alloc, areas, meant.process, Format::Text, true, text?)?;
    let tells_process = meant.process.is_none();
    let listed = by_rules(alloc, script, touch, ranges, tells_process, text.as_slice());
    drop(text);
    let listed = listed?;
    page.put_heading(
        "policies",
        "Which range goes by which rule, and where its pages would go",
    );
    page.put_lines(listed.as_slice());
    drop(listed);
    Ok(())
}

/// Draws where pages would go.
fn put_prediction<P: Watch>(
    alloc: Global,
    page: &mut ReportPage,
    script: &HostScript,
    meant: Meant<'_>,
    watch: &mut P,
) -> Result<(), Halt> {
    let picture = prediction_in(alloc, script, meant, &[], watch)?;
    page.put_heading("predict", "Where pages would go");
    page.put_picture(picture.as_slice());
    drop(picture);
    Ok(())
}

/// What lines do to pages that are there.
#[derive(Clone, Copy)]
enum Effect {
    /// They move some.
    Moves,
    /// They take some away, and it isn't told which others move.
    TakesAway,
    /// Nothing.
    Nothing,
}

/// The effect of one more line.
fn effect_with(before: Effect, line: &[u8]) -> Effect {
    match (before, read_move(line)) {
        (Effect::TakesAway, _) | (_, MoveLine::Away) => Effect::TakesAway,
        (_, MoveLine::Nodes | MoveLine::Migrate { .. }) => Effect::Moves,
        _ => before,
    }
}

/// What lines do to pages that are there.
fn effect_of(lines: &[String]) -> Effect {
    let mut effect = Effect::Nothing;
    for line in lines {
        effect = effect_with(effect, line.as_str().as_bytes());
    }
    effect
}

/// Whether some pages lie somewhere.
fn some_lie(placed: &Placed) -> bool {
    let counts = placed.counts();
    counts.iter().any(|count| *count > 0)
}

/// Whether a script says where pages of some process of a host lie.
fn has_places_in(script: &HostScript, host: &Host) -> bool {
    for process in host.processes() {
        if let Some(pages) = script.pages_of(process.id) {
            if some_lie(pages.placed()) {
                return true;
            }
        }
    }
    false
}

/// Whether a script says where pages lie.
fn has_places(script: &HostScript) -> bool {
    if let Some(host) = script.host() {
        return has_places_in(script, host);
    }
    let Some(script) = script.script() else {
        return false;
    };
    match script.pages() {
        Some(pages) => some_lie(pages.placed()),
        None => false,
    }
}

/// How pages came to lie where they do: as lines say, or else as the task would touch them.
fn origin_of(script: &HostScript, touch: Touch) -> Origin {
    if has_places(script) {
        return Origin::Left;
    }
    Origin::Touched(touch)
}

/// How moves are told: drawn if they are of one process.
fn moves_format(script: &HostScript, meant: Meant<'_>) -> Format {
    match (script.host(), meant.process) {
        (Some(_), None) => Format::Text,
        _ => meant.asking.format,
    }
}

/// What is told of pages that are there: what lines do to them, how they came to lie where they do,
/// and in which format.
#[derive(Clone, Copy)]
struct Moving {
    effect: Effect,
    origin: Origin,
    format: Format,
}

/// What is told of pages that are there after a script.
fn moving_of(script: &HostScript, told: Told<'_>) -> Moving {
    Moving {
        effect: effect_of(told.lines),
        origin: origin_of(script, told.touch),
        format: moves_format(script, told.meant),
    }
}

/// Plays the added lines, and returns what becomes of pages that are there, if they move some.
fn play_lines<T: Write>(
    alloc: Global,
    findings: &mut Findings<T>,
    told: Told<'_>,
    moving: Moving,
    faults: &mut LineFaults,
) -> Result<Option<Answer>, Halt> {
    let asked = match moving.effect {
        Effect::Moves => Some((moving.origin, moving.format)),
        _ => None,
    };
    play(
        alloc,
        findings,
        told.meant.process,
        told.lines,
        asked,
        faults,
    )
}

/// Writes moves: a picture, or a text with the names of areas.
fn put_moved(
    alloc: Global,
    page: &mut ReportPage,
    areas: &Areas,
    format: Format,
    text: Vec<u8>,
) -> Result<(), Halt> {
    if let Format::Text = format {
        let text = named(alloc, areas, None, format, true, text)?;
        page.put_lines(text.as_slice());
        drop(text);
        return Ok(());
    }
    page.put_picture(text.as_slice());
    drop(text);
    Ok(())
}

/// Tells what becomes of pages that are there; returns whether it is another by the other rules.
fn put_moves(
    alloc: Global,
    page: &mut ReportPage,
    areas: &Areas,
    moving: Moving,
    moves: Option<Answer>,
) -> Result<bool, Halt> {
    page.put_heading("moves", "What becomes of pages that are there");
    let Some(Answer { text, is_other }) = moves else {
        page.put_words(match moving.effect {
            Effect::TakesAway => "An added line takes pages away: it isn't told which others move.",
            _ => "None of the added lines moves pages that are there.",
        });
        return Ok(false);
    };
    page.put_words(match moving.origin {
        Origin::Touched(_) => "Pages lie where the task would touch them.",
        Origin::Left => "Pages lie where lines of the scripts leave them.",
    });
    put_moved(alloc, page, areas, moving.format, text)?;
    Ok(is_other)
}

/// The states before the added lines, by the rules and by the other ones.
#[derive(Clone, Copy)]
struct Before<'a> {
    own: &'a StatesBefore,
    other: Option<&'a StatesBefore>,
}

/// Draws what the added lines changed. Returns whether it is another by the other rules.
fn put_difference<T: Write, P: Watch>(
    alloc: Global,
    page: &mut ReportPage,
    findings: &Findings<T>,
    meant: Meant<'_>,
    added: Added<'_>,
    before: Before<'_>,
    watch: &mut P,
) -> Result<bool, Halt> {
    let script = findings.script();
    let picture = difference_in(alloc, before.own, script, meant, added, watch)?;
    page.put_heading(
        "diff",
        "Which pages would go elsewhere after the added lines",
    );
    page.put_picture(picture.as_slice());
    drop(picture);
    Ok(match (before.other, findings.other()) {
        (Some(other), Some(by)) => {
            differs_elsewhere(alloc, (before.own, script), (other, by), meant)
        }
        _ => false,
    })
}

/// Plays the added lines, and tells what they change. Returns whether it is another by the other
/// rules.
fn put_change<T: Write, P: Watch>(
    alloc: Global,
    page: &mut ReportPage,
    findings: &mut Findings<T>,
    told: Told<'_>,
    before: Before<'_>,
    faults: &mut LineFaults,
    watch: &mut P,
) -> Result<bool, Halt> {
    let (meant, areas) = (told.meant, told.areas);
    let moving = moving_of(findings.script(), told);
    let moves = play_lines(alloc, findings, told, moving, faults)?;
    let added = Added {
        lines: told.lines,
        faults: faults.of_lines(),
    };
    let is_other = put_difference(alloc, page, findings, meant, added, before, watch)?;
    let moves_other = put_moves(alloc, page, areas, moving, moves)?;
    Ok(is_other || moves_other)
}

/// The same, if there are added lines.
fn put_changes<T: Write, P: Watch>(
    alloc: Global,
    page: &mut ReportPage,
    findings: &mut Findings<T>,
    told: Told<'_>,
    faults: &mut LineFaults,
    watch: &mut P,
) -> Result<bool, Halt> {
    if told.lines.is_empty() {
        return Ok(false);
    }
    let own = states_in(alloc, findings.script(), told.meant)?;
    let other = match findings.other() {
        Some(other) => states_in(alloc, other, told.meant).ok(),
        None => None,
    };
    let before = Before {
        own: &own,
        other: other.as_ref(),
    };
    let put = put_change(alloc, page, findings, told, before, faults, watch);
    drop(own);
    drop(other);
    put
}

/// Whether by the other rules pages would go elsewhere.
fn is_other<T: Write>(alloc: Global, findings: &Findings<T>, meant: Meant<'_>) -> bool {
    match findings.other() {
        Some(other) => goes_elsewhere(alloc, findings.script(), other, meant, &[]),
        None => false,
    }
}

/// Writes what is told of the pages as the scripts leave them, and `reasons`, why they go there.
fn put_state<T: Write, P: Watch>(
    alloc: Global,
    page: &mut ReportPage,
    reasons: &mut ReportPage,
    findings: &Findings<T>,
    told: Told<'_>,
    watch: &mut P,
) -> Result<bool, Halt> {
    let (script, other) = (findings.script(), findings.other());
    put_policies(alloc, page, script, told)?;
    put_prediction(alloc, page, script, told.meant, watch)?;
    reasons.put_heading(
        "explain",
        "Why the first pages of the largest ranges go there",
    );
    if told.ranges.is_empty() {
        reasons.put_words("No pages are mapped.");
    }
    let asked = (told.touch, told.meant.asking.format);
    put_reasons(alloc, reasons, script, other, asked, told.ranges)?;
    Ok(is_other(alloc, findings, told.meant))
}

/// Ends the page, which says what it is about.
fn ended(
    alloc: Global,
    page: &mut ReportPage,
    subject: Subject<'_>,
    touch: Touch,
    added: Added<'_>,
) -> Result<Vec<u8>, Halt> {
    let about = About::of(subject, Some(touch), added).counting(subject);
    page.end(alloc, &about)
}

/// Writes the parts in their order, and returns the page.
fn written<T: Write, P: Watch>(
    alloc: Global,
    findings: &mut Findings<T>,
    page: &mut ReportPage,
    reasons: &mut ReportPage,
    told: Told<'_>,
    faults: &mut LineFaults,
    watch: &mut P,
) -> Result<Answer, Halt> {
    let state_other = put_state(alloc, page, reasons, findings, told, watch)?;
    let lines_other = put_changes(alloc, page, findings, told, faults, watch)?;
    page.take_parts(reasons)?;
    let subject = subject_of(findings.script(), told.meant.process)?;
    let added = Added {
        lines: told.lines,
        faults: faults.of_lines(),
    };
    let text = ended(alloc, page, subject, told.touch, added)?;
    let is_other = state_other || lines_other;
    Ok(Answer { text, is_other })
}

/// A page about these ranges.
fn page_of<T: Write, P: Watch>(
    alloc: Global,
    findings: &mut Findings<T>,
    told: Told<'_>,
    faults: &mut LineFaults,
    watch: &mut P,
) -> Result<Answer, Halt> {
    let mut page = ReportPage::new(alloc);
    let mut reasons = ReportPage::new(alloc);
    let answer = written(
        alloc,
        findings,
        &mut page,
        &mut reasons,
        told,
        faults,
        watch,
    );
    drop(page);
    drop(reasons);
    answer
}

/// A page with all that the other words tell about pages, before and after added lines.
///
/// # Errors
/// Why there is no answer.
pub fn report<T: Write, P: Watch>(
    alloc: Global,
    findings: &mut Findings<T>,
    areas: &Areas,
    meant: Meant<'_>,
    lines: &[String],
    faults: &mut LineFaults,
    watch: &mut P,
) -> Result<Answer, Halt> {
    let Some(touch) = meant.touches.first() else {
        return Err(Halt::NoMachine);
    };
    let touch = *touch;
    let subject = subject_of(findings.script(), meant.process)?;
    let ranges = ranges_of(alloc, subject, meant.process)?;
    let told = Told {
        meant,
        touch,
        areas,
        ranges: ranges.as_slice(),
        lines,
    };
    let page = page_of(alloc, findings, told, faults, watch);
    drop(ranges);
    page
}
