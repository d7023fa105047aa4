//! Differences as text, JSON and SVG.
ghost use Rattle.std.specs.Prelude.{◌≡◌, ◌≤◌, List, Err, IfErr, IfOk, OnOk};
ghost use Rattle.numa_compile.specs.Standing.{PlanStandsFor};
ghost use Rattle.numa_machine.specs.Machine.{Hardware};
ghost use Rattle.numa_requests.specs.declared.command.Command.{Command};
ghost use Rattle.numa_machine.specs.declared.refusal.PlaceRefusal.TheVariants.{BadCpu};
ghost use Rattle.numa_reports.specs.declared.fault.ReportError.TheVariants.{Refused};
ghost use Rattle.numa_reports.specs.Failing.{MovesMayFail};
ghost use Rattle.numa_reports.specs.Mapped.{FailsForChange};
ghost use Rattle.numa_reports.specs.Moved.{HasRoomFor};

use crate::fault::ReportError;
use crate::moves::{BLOCK, Change, ENTRIES, add_moves, empty_table, has_node};
use crate::outlook::{PageSpan, common_spans};
use crate::request::DifferenceRequest;
use crate::sheet::by_process::MoveSum;
use crate::sheet::fields::bytes;
use crate::sheet::moved_parts::SpanTexts;
use crate::sheet::node_moves::NodeMoves;
use crate::sheet::scale::scale_of_spans;
use crate::sheet::{moved_objects, moved_pictures};
use numa_machine::PlaceRefusal;
use numa_sheets::{Format, Scale, Touch, Watch, Written};
use std::alloc::{AllocError, Global};

/// Writes the number of pages that go from a node to each other node, where it isn't 0.
fn put_from(text: &mut Written, counts: NodeMoves<'_>, from: u32) {
    for to in 0..counts.nodes {
        let pages = counts.between(from, to);
        if from != to && pages > 0 {
            text.put_form(b" N$->N$=$", &[from as u64, to as u64, pages]);
        }
    }
}

/// Writes the end of a line: the number of pages that go to another node, and from each node to
/// each other, where it isn't 0.
pub(crate) fn put_moves(text: &mut Written, counts: NodeMoves<'_>) {
    text.put_form(b" differs=$", &[counts.moved()]);
    for from in 0..counts.nodes {
        put_from(text, counts, from);
    }
    text.put(b"\n");
}

/// Writes the line of a span.
fn put_line(text: &mut Written, span: PageSpan, counts: NodeMoves<'_>) {
    let end = span.first.saturating_add(span.pages);
    text.put_addresses(bytes(span.first), bytes(end));
    put_moves(text, counts);
}

/// Notes that the pages that go from a node to others are reported.
fn note_from(told: &mut Vec<u64>, counts: NodeMoves<'_>, from: u32) {
    for to in 0..counts.nodes {
        let place = from as usize * 256 + to as usize;
        if let Some(note) = told.get_mut(place) {
            *note = counts.between(from, to);
        }
    }
}

/// Notes that the pages that go from each node to others are reported.
fn note_all(told: &mut Vec<u64>, counts: NodeMoves<'_>) {
    for from in 0..counts.nodes {
        note_from(told, counts, from);
    }
}

/// The text so far, the number of its spans, the number of pages of all spans that go from each
/// node to each, and the number of those already reported.
#[derive(Drop)]
struct Difference {
    format: Format,
    touch: Touch,
    scale: Scale,
    text: Written,
    spans: u64,
    // The spans of a picture or a page.
    texts: SpanTexts,
    total: Vec<u64>,
    told: Vec<u64>,
    left: u64,
}

impl Difference {
    /// Before the first span.
    fn new(
        alloc: Global,
        format: Format,
        touch: Touch,
        scale: Scale,
    ) -> Result<Difference, AllocError>
        ensures room { IfOk result (λ difference.
            HasRoomFor difference.total.items difference.left) }
    {
        let total = empty_table(alloc, ENTRIES)?;
        let told = empty_table(alloc, ENTRIES)?;
        let mut text = Written::new(alloc);
        if let Format::Json = format {
            moved_objects::put_head(&mut text, touch);
        }
        let texts = SpanTexts::new(alloc);
        Ok(Difference {
            format,
            touch,
            scale,
            text,
            spans: 0,
            texts,
            total,
            told,
            left: u64::MAX,
        })
    }

    /// Adds a span whose pages are counted, if one of them goes to another node.
    fn add(&mut self, span: PageSpan, nodes: u32) -> Result<(), AllocError>
        ensures total { self.new.total ≡ self.old.total }
        ensures left { self.new.left ≡ self.old.left }
    {
        let table = self.total.as_slice();
        let counts = NodeMoves::new(table, self.told.as_slice(), nodes);
        let pages = counts.moved();
        if pages > 0 {
            let text = &mut self.text;
            match self.format {
                Format::Json => {
                    moved_objects::begin_span(text, self.spans == 0);
                    moved_objects::put_span(text, span, counts);
                }
                Format::Html(_) => moved_objects::put_span(text, span, counts),
                Format::Svg(_) => moved_pictures::put_span(text, span, counts, &self.scale),
                _ => put_line(text, span, counts),
            }
            self.spans = self.spans.saturating_add(1);
            self.texts.add(pages, self.text.len())?;
        }
        note_all(&mut self.told, NodeMoves::all(table, nodes));
        self.text.checked()
    }

    /// Writes a picture of the spans, of which the largest `number` are drawn.
    fn end_picture(&mut self, nodes: u32, number: u32) -> Result<(), AllocError> {
        let spans = self.text.take()?;
        let text = &mut self.text;
        moved_pictures::put_head(text, self.touch, self.texts.rows(number), &self.scale);
        let shown = self.texts.put_largest(text, &spans, number, true);
        moved_pictures::put_total(text, shown, NodeMoves::all(&self.total, nodes));
        Ok(())
    }

    /// Writes the object of a page: the largest `number` of the spans, and the total.
    fn end_page(&mut self, nodes: u32, number: u32) -> Result<(), AllocError> {
        let spans = self.text.take()?;
        let text = &mut self.text;
        moved_objects::put_head(text, self.touch);
        let shown = self.texts.put_largest(text, &spans, number, false);
        moved_objects::end_spans(text);
        moved_objects::put_others(text, shown);
        moved_objects::put_total(text, NodeMoves::all(&self.total, nodes));
        Ok(())
    }

    /// Writes the total, and returns the text.
    fn end(&mut self, nodes: u32) -> Result<Vec<u8>, AllocError> {
        match self.format {
            Format::Json => {
                moved_objects::end_spans(&mut self.text);
                let counts = NodeMoves::all(self.total.as_slice(), nodes);
                moved_objects::put_total(&mut self.text, counts);
            }
            Format::Svg(number) => self.end_picture(nodes, number)?,
            Format::Html(number) => self.end_page(nodes, number)?,
            _ => {
                self.text.put(b"total");
                put_moves(&mut self.text, NodeMoves::all(self.total.as_slice(), nodes));
            }
        }
        self.text.take()
    }
}

/// Whether each page of a block that fits both lists goes to the same node by both plans. False if
/// a plan lacks one.
fn block_stays(change: Change<'_>, first: u64, old: &mut [u8], new: &mut [u8]) -> bool {
    let Touch { task, cpu } = change.touch;
    if change.before.fill(task, first, cpu, old).is_err() {
        return false;
    }
    if change.after.fill(task, first, cpu, new).is_err() {
        return false;
    }
    *old == *new
}

/// Whether each page of a span goes to the same node by both plans. False if a plan lacks one.
fn stays<W: Watch>(change: Change<'_>, span: PageSpan, watch: &mut W) -> bool {
    let mut old = [0u8; BLOCK];
    let mut new = [0u8; BLOCK];
    let mut left = span.pages;
    while left > 0 {
        let page = span.first.saturating_add(span.pages - left);
        let part = left.min(BLOCK as u64) as usize;
        if !block_stays(change, page, &mut old[..part], &mut new[..part]) {
            return false;
        }
        left -= part as u64;
        watch.pass(part as u64);
    }
    true
}

/// Adds a span, and its pages to the total; nothing if all of them stay. At most twice its pages
/// are passed.
fn push_span<W: Watch>(
    change: Change<'_>,
    nodes: u32,
    span: PageSpan,
    difference: &mut Difference,
    watch: &mut W,
) -> Result<(), ReportError>
    requires { HasRoomFor difference.old.total.items difference.old.left }
    ensures room { OnOk result (HasRoomFor difference.new.total.items difference.new.left) }
    ensures err { (machine : Hardware) (old new : List Command)
        → PlanStandsFor machine change.entry.before.now old
        → PlanStandsFor machine change.entry.after.now new
        → IfErr result
        (MovesMayFail machine old new span.first span.pages change.entry.touch.cpu) }
{
    if stays(change, span, watch) {
        watch.pass(span.pages);
        return Ok(());
    }
    if !has_node(change.before, change.touch.cpu) {
        return Err(ReportError::Refused(PlaceRefusal::BadCpu));
    }
    let Some(left) = difference.left.checked_sub(span.pages) else {
        return Err(ReportError::Memory);
    };
    add_moves(change, span, &mut difference.total, watch)?;
    difference.left = left;
    difference.add(span, nodes)?;
    Ok(())
}

/// The pages of all spans.
fn pages_of(spans: &[PageSpan]) -> u64 {
    let mut sum = 0u64;
    for span in spans {
        sum = sum.saturating_add(span.pages);
    }
    sum
}

/// As [`difference_text`] of one of several processes: its pages are added to those of all.
///
/// # Errors
/// As [`difference_text`].
pub fn difference_more<W: Watch>(
    alloc: Global,
    asked: DifferenceRequest<'_>,
    all: &mut MoveSum,
    watch: &mut W,
) -> Result<Vec<u8>, ReportError>
    ensures err { FailsForChange asked.entry result }
    ensures bad_cpu { asked.entry.nodes ≤ asked.entry.touch.cpu → result ≡ Err (Refused BadCpu) }
{
    let before = asked.before;
    let after = asked.after;
    if asked.touch.cpu >= asked.nodes {
        return Err(ReportError::Refused(PlaceRefusal::BadCpu));
    }
    let spans = common_spans(alloc, before.spans.as_slice(), after.spans.as_slice())?;
    watch.begin(pages_of(&spans).saturating_mul(2));
    let scale = scale_of_spans(&spans);
    let mut difference = Difference::new(alloc, asked.format, asked.touch, scale)?;
    let change = Change {
        before: &before.plan,
        after: &after.plan,
        touch: asked.touch,
    };
    for span in &spans {
        push_span(change, asked.nodes, *span, &mut difference, watch)?;
    }
    watch.end();
    all.add(difference.total.as_slice());
    Ok(difference.end(asked.nodes)?)
}

/// The pages that go to another node, if the task touched each of them on a CPU of node `cpu` after
/// the change instead of before it: a line, or an object, for each span with such pages, with the
/// number that go from which node to which, and a last one with the total. The time grows with the
/// pages, and is watched.
///
/// # Errors
/// `Refused(BadCpu)`: the machine has no node `cpu`. `Refused(Unmapped)`: an outlook has a page
/// that its plan lacks. `Memory`: there is no memory for the text.
pub fn difference_text<W: Watch>(
    alloc: Global,
    asked: DifferenceRequest<'_>,
    watch: &mut W,
) -> Result<Vec<u8>, ReportError>
    ensures err { FailsForChange asked.entry result }
    ensures bad_cpu { asked.entry.nodes ≤ asked.entry.touch.cpu → result ≡ Err (Refused BadCpu) }
{
    difference_more(alloc, asked, &mut MoveSum::none(alloc), watch)
}
