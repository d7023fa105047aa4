//! Differences as a picture: SVG 1.1, which browsers show.
//!
//! A span is a line of text and two bars, the pages before the change above those after it. A part
//! of a bar is the pages that go from one node to one other, in the same place of both; those that
//! differ have a thick frame.

use crate::outlook::PageSpan;
use crate::sheet::bars::put_part;
use crate::sheet::fields::bytes;
use crate::sheet::moved_parts::ShownSpans;
use crate::sheet::node_moves::NodeMoves;
use numa_sheets::{Rectangle, Scale, Touch, Written, mark_at, put_frame, put_node, share};

/// The first row of pixels of the spans, and the rows of a span.
const TOP: u64 = 60;

const SPAN_ROWS: u64 = 60;

/// The most nodes of a legend. (Those whose numbers differ by a multiple of 16 share a colour.)
const MARKS: u32 = 32;

/// The row of pixels at which this many spans end.
fn below(spans: u64) -> u64 {
    spans.saturating_mul(SPAN_ROWS).saturating_add(TOP)
}

/// Begins the picture of this many spans.
pub(crate) fn put_head(text: &mut Written, touch: Touch, spans: u64, scale: &Scale) {
    text.begin_picture(below(spans).saturating_add(76));
    text.put_form(
        b"<text x=\"16\" y=\"24\" font-size=\"14\">Pages that would go elsewhere, if task $ \
        touched them on node $: before, and below it after</text>\n",
        &[touch.task as u64, touch.cpu as u64],
    );
    scale.put_line(text, 44);
}

/// Draws the pages that go from a node to another, in a bar.
fn put_pages(text: &mut Written, place: Rectangle, from: u64, to: u64, node: u64, pages: u64) {
    text.put_form(b"<g><title>node $ to node $: ", &[from, to]);
    text.put_amount(pages);
    text.put(b"</title>");
    put_part(text, place, node);
    if from == to {
        return;
    }
    put_frame(text, place, b"differs");
}

/// Draws the pages that go from a node to each node in both bars of a width, of which `before` of
/// `all` pages are drawn; returns how many are then.
fn put_from(
    text: &mut Written,
    counts: NodeMoves<'_>,
    from: u32,
    width: u64,
    before: u64,
    all: u64,
) -> u64 {
    let mut done = before;
    for to in 0..counts.nodes {
        let pages = counts.between(from, to);
        if pages > 0 {
            let left = share(width, done, all);
            done = done.saturating_add(pages);
            let upper = Rectangle {
                left,
                top: 16,
                width: share(width, done, all).saturating_sub(left),
                height: 16,
            };
            let (one, other) = (u64::from(from), u64::from(to));
            put_pages(text, upper, one, other, one, pages);
            put_pages(
                text,
                Rectangle { top: 35, ..upper },
                one,
                other,
                other,
                pages,
            );
        }
    }
    done
}

/// Begins a span, with `before` spans before it.
pub(crate) fn begin_span(text: &mut Written, before: u64) {
    text.put_form(
        b"<g class=\"span\" transform=\"translate(16,$)\">",
        &[below(before)],
    );
}

/// Draws a span that was begun.
pub(crate) fn put_span(text: &mut Written, span: PageSpan, counts: NodeMoves<'_>, scale: &Scale) {
    text.put(b"<text y=\"11\">");
    let end = span.first.saturating_add(span.pages);
    text.put_addresses(bytes(span.first), bytes(end));
    text.put(b" differs=");
    text.put_grouped(counts.moved());
    text.put(b" of ");
    text.put_amount(span.pages);
    text.put(b"</text>");
    let width = scale.width(span.pages);
    let mut done = 0u64;
    for from in 0..counts.nodes {
        done = put_from(text, counts, from, width, done, span.pages);
    }
    text.put(b"</g>\n");
}

/// Draws what a thick frame means, and the nodes in their colours, from a row of pixels on.
fn put_legend(text: &mut Written, nodes: u32, top: u64) {
    let mut place = mark_at(16, top);
    text.put_form(
        b"<g class=\"legend\"><text x=\"48\" y=\"$\">would go to another node</text>",
        &[top.saturating_add(12)],
    );
    put_frame(text, place, b"mark");
    place.top = place.top.saturating_add(22);
    for node in 0..nodes.min(MARKS) {
        put_node(text, place, u64::from(node));
        place.left = place.left.saturating_add(28);
    }
    text.put(b"</g>\n");
}

/// Ends the picture, behind these spans, with all pages.
pub(crate) fn put_total(text: &mut Written, shown: ShownSpans, counts: NodeMoves<'_>) {
    text.put_form(
        b"<text class=\"total\" x=\"16\" y=\"$\">total differs=",
        &[below(shown.rows).saturating_add(20)],
    );
    text.put_amount(counts.moved());
    text.put_undrawn(b"span", shown.others, shown.moved);
    text.put(b"</text>\n");
    put_legend(text, counts.nodes, below(shown.rows).saturating_add(32));
    text.put(b"</svg>\n");
}
