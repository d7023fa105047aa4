//! What becomes of pages, as a picture: SVG 1.1, which browsers show.
//!
//! Each line has its words, the pages in all, how many lie on which node before and after, as a
//! table and as a flow, and then its spans. A span is a line of text and two bars, where its pages
//! lie before the line above where they lie after it. Pages that move have a thick frame, and those
//! that find no room are hatched. Parts of bars have the colour and the number of their node, so
//! nothing depends on colours.
ghost use Rattle.numa_moves.specs.Sums.{IsSumOf};

use crate::moving::ShareMove;
use crate::sheet::bars::put_bars;
use crate::sheet::ends::Ends;
use crate::sheet::flow::put_flow;
use crate::sheet::lines::{put_addresses, sum_of};
use crate::sheet::table::put_table;
use crate::sums::MoveSum;
use numa_placed::Rooms;
use numa_reports::{Largest, PageSpan, scale_of};
use numa_sheets::{FreePages, Rectangle, Scale, Written, put_frame, put_hatched};
use std::alloc::{AllocError, Global};

/// The first row of pixels of the lines, the rows of a span, and those of a line of text.
const TOP: u64 = 64;

const SPAN_ROWS: u64 = 68;

const TEXT_ROWS: u64 = 20;

/// The most nodes whose room is told.
const ROOMS: usize = 8;

/// A picture that is drawn span by span.
#[derive(Drop)]
pub(crate) struct Drawing {
    // The row of pixels up to which it is drawn.
    row: u64,
    // The pages of each span of the step, of which the largest are drawn.
    sizes: Vec<u64>,
    largest: Largest,
    scale: Scale,
    // The spans that aren't drawn by themselves, and their pages.
    others: u64,
    rest: MoveSum,
    lacks_memory: bool,
}

/// Adds a share's pages to those of the span that is open, or opens the next.
fn add_size(sizes: &mut Vec<u64>, pages: u64, is_open: bool) -> bool {
    if is_open {
        if let Some(last) = sizes.last_mut() {
            *last = last.saturating_add(pages);
        }
        return true;
    }
    sizes.push(pages).is_ok()
}

/// What becomes of all pages.
fn sum_of_all(moves: &[ShareMove]) -> MoveSum
    ensures { IsSumOf moves.now result }
{
    let mut sum = MoveSum::new();
    for moved in moves {
        sum.add(moved);
    }
    sum
}

/// Writes how many pages go, need not go, and find no room.
fn put_fates(text: &mut Written, sum: &MoveSum, nodes: u32) {
    text.put(b": ");
    text.put_grouped(sum.moved);
    text.put(b" move, ");
    text.put_grouped(sum_of(&sum.stays, nodes));
    text.put(b" stay");
    let lacking = sum_of(&sum.lacking, nodes);
    if lacking > 0 {
        text.put(b", ");
        text.put_grouped(lacking);
        text.put(b" find no room");
    }
}

/// Writes how many more pages named nodes take.
fn put_rooms(text: &mut Written, free: &[FreePages], rooms: &Rooms) {
    text.put(b"Room left: ");
    let mut between = b"".as_slice();
    for one in free.get(..free.len().min(ROOMS)).unwrap_or(&[]) {
        let pages = rooms.at(one.node).unwrap_or(u64::MAX);
        text.put(between);
        text.put_form(b"node $: ", &[u64::from(one.node)]);
        text.put_amount(pages);
        between = b", ".as_slice();
    }
    if free.len() > ROOMS {
        text.put(b" ..");
    }
}

impl Drawing {
    /// Before the first step.
    pub(crate) fn new(alloc: Global) -> Drawing {
        Drawing {
            row: TOP,
            sizes: Vec::new(alloc),
            largest: Largest::of(&[], 0),
            scale: Scale::none(),
            others: 0,
            rest: MoveSum::new(),
            lacks_memory: false,
        }
    }

    /// Begins a line of text, of a class.
    fn begin_text(&mut self, text: &mut Written, class: &[u8]) {
        self.row = self.row.saturating_add(TEXT_ROWS);
        text.put(b"<text class=\"");
        text.put(class);
        text.put_form(b"\" x=\"16\" y=\"$\">", &[self.row.saturating_sub(6)]);
    }

    /// Begins a step: its line and, if something is wrong with that, what.
    pub(crate) fn begin_line(&mut self, text: &mut Written, line: &str, fault: &[u8]) {
        self.row = self.row.saturating_add(8);
        self.begin_text(text, b"step");
        text.put(b"<tspan font-size=\"14\" font-weight=\"bold\">");
        text.put(if fault.is_empty() {
            b"After: ".as_slice()
        } else {
            b"Refused: "
        });
        text.put_escaped(line.as_bytes());
        text.put(b"</tspan></text>\n");
        if !fault.is_empty() {
            self.begin_text(text, b"fault");
            text.put_escaped(fault.strip_prefix(b"refused ").unwrap_or(fault));
            text.put(b"</text>\n");
        }
    }

    /// Writes how many more pages named nodes take behind a step, if some are named.
    pub(crate) fn put_left(&mut self, text: &mut Written, free: &[FreePages], rooms: &Rooms) {
        if !free.is_empty() {
            self.begin_text(text, b"left");
            put_rooms(text, free, rooms);
            text.put(b"</text>\n");
        }
    }

    /// Notes the sizes of the spans of these moves, of which the largest `number` are drawn.
    fn measure(&mut self, moves: &[ShareMove], number: u32) {
        self.sizes.clear();
        self.others = 0;
        self.rest = MoveSum::new();
        let mut open = None;
        for moved in moves {
            let first = moved.share.span.first;
            if !add_size(&mut self.sizes, moved.share.there, open == Some(first)) {
                self.lacks_memory = true;
            }
            open = Some(first);
        }
        self.largest = Largest::of(self.sizes.as_slice(), number);
        self.scale = scale_of(self.sizes.as_slice(), self.largest);
    }

    /// Draws how many pages lie on which node before and after.
    fn put_ends(&mut self, text: &mut Written, sum: &MoveSum, nodes: u32) {
        let ends = Ends::of(sum, nodes);
        let top = self.row.saturating_add(8);
        let rows = put_table(text, sum, &ends, top);
        let rows = rows.max(put_flow(text, sum, &ends, top));
        self.row = top.saturating_add(rows);
    }

    /// Draws what becomes of all pages, and begins the spans, of which the largest `number` are
    /// drawn.
    pub(crate) fn begin(
        &mut self,
        text: &mut Written,
        moves: &[ShareMove],
        number: u32,
        nodes: u32,
    ) {
        self.measure(moves, number);
        let sum = sum_of_all(moves);
        self.begin_text(text, b"total");
        text.put_amount(sum.placed);
        text.put_either(sum.placed, b" is there", b" are there");
        put_fates(text, &sum, nodes);
        text.put(b"</text>\n");
        if sum.placed > 0 {
            self.put_ends(text, &sum, nodes);
            self.row = self.row.saturating_add(TEXT_ROWS);
            self.scale.put_line(text, self.row);
            self.row = self.row.saturating_add(10);
        }
    }

    /// Begins the group of a span, and the line of text in it.
    fn begin_row(&mut self, text: &mut Written, class: &[u8]) {
        text.put(b"<g class=\"");
        text.put(class);
        text.put_form(
            b"\" transform=\"translate(16,$)\"><text y=\"11\">",
            &[self.row],
        );
        self.row = self.row.saturating_add(SPAN_ROWS);
    }

    /// Draws a span, or adds it to those that aren't drawn by themselves.
    pub(crate) fn put_span(
        &mut self,
        text: &mut Written,
        span: PageSpan,
        sum: &MoveSum,
        nodes: u32,
    ) {
        if !self.largest.takes(sum.placed) {
            self.others = self.others.saturating_add(1);
            self.rest.merge(sum, nodes);
            return;
        }
        self.begin_row(text, b"span");
        put_addresses(text, span);
        text.put(b" ");
        put_bars_under(text, sum, nodes, self.scale);
    }

    /// Ends a step: draws the sum of the spans that aren't drawn by themselves, if there are any.
    pub(crate) fn put_sum(&mut self, text: &mut Written, nodes: u32) {
        if self.others == 0 {
            return;
        }
        self.begin_row(text, b"rest");
        text.put_number(self.others);
        text.put_either(self.others, b" other range, ", b" other ranges, ");
        put_bars_under(text, &self.rest, nodes, self.scale);
    }

    /// Takes the whole picture, of which the text has all but the head.
    ///
    /// # Errors
    /// `AllocError`: out of memory, now or before.
    pub(crate) fn end(&mut self, text: &mut Written) -> Result<Vec<u8>, AllocError> {
        if self.lacks_memory {
            text.lack();
        }
        let body = text.take()?;
        text.begin_picture(self.row.saturating_add(16));
        put_head(text);
        text.put(body.as_slice());
        drop(body);
        text.put(b"</svg>\n");
        text.take()
    }
}

/// Ends the line of text of a span with its pages, and draws its bars.
fn put_bars_under(text: &mut Written, sum: &MoveSum, nodes: u32, scale: Scale) {
    text.put_amount(sum.placed);
    put_fates(text, sum, nodes);
    text.put(b"</text>");
    put_bars(text, sum, nodes, scale.width(sum.placed));
    text.put(b"</g>\n");
}

/// The title of the picture, and what its marks mean.
const TITLE: &[u8] = b"<text x=\"16\" y=\"24\" font-size=\"14\">Where pages that are there lie \
before a line (upper bars) and after it (lower bars)</text>\n\
<g class=\"legend\"><text x=\"48\" y=\"48\">go to another node</text>\
<text x=\"240\" y=\"48\">are to go, and find no room</text>";

/// Writes the title, and the legend.
fn put_head(text: &mut Written) {
    text.put(TITLE);
    let mark = Rectangle {
        left: 18,
        top: 38,
        width: 22,
        height: 12,
    };
    put_frame(text, mark, b"mark");
    put_hatched(text, Rectangle { left: 208, ..mark });
    text.put(b"</g>\n");
}
