//! Predictions as a picture: SVG 1.1, which browsers show.
//!
//! A range is a line of text and a bar; below the ranges are the nodes with their pages, each with
//! a bar. Parts of bars have the colour and the number of their node, so nothing depends on
//! colours.

use crate::sheet::bars::{put_nodes as put_bar, put_pages, put_part};
use crate::sheet::fields::{PlacedPages, RangeRow};
use crate::sheet::nodes::{NodePages, put_nodes};
use numa_sheets::{CELL, Rectangle, Scale, Touch, Written, fill_of, mark_at, put_rectangle, share};

/// The most nodes that are named in the line of a range, and the most letters of one, so that it
/// ends within the picture, also with a name beside its addresses.
const NAMED: usize = 4;

const LETTERS: usize = 106;

/// The first row of pixels of the ranges, and the rows of a range and of a node.
const TOP: u64 = 60;

const RANGE_ROWS: u64 = 40;

const NODE_ROWS: u64 = 20;

/// The first column of a node's bar, and the pixels of the longest one.
const NODE_BAR: u64 = 32;

const NODE_WIDTH: u64 = 400;

/// The height of a picture in pixels, with this many ranges or less.
fn height(ranges: u64, nodes: usize) -> u64 {
    let ranges = ranges.saturating_mul(RANGE_ROWS);
    let nodes = (nodes as u64).saturating_mul(NODE_ROWS);
    TOP.saturating_add(ranges)
        .saturating_add(nodes)
        .saturating_add(60)
}

/// Begins the picture of this many ranges, drawn or summed.
pub(crate) fn put_head(
    text: &mut Written,
    version: u64,
    touch: Touch,
    rows: u64,
    nodes: usize,
    scale: &Scale,
) {
    text.begin_picture(height(rows, nodes));
    text.put_form(
        b"<text x=\"16\" y=\"24\" font-size=\"14\">Where pages would go that \
        task $ touched on node $ (version $)</text>\n",
        &[touch.task as u64, touch.cpu as u64, version],
    );
    scale.put_line(text, 44);
}

/// Writes the number of pages that find no free page, if there are any.
fn put_lacking(text: &mut Written, placed: PlacedPages<'_>) {
    if let Some(pages) = placed.lacking() {
        text.put(b" exhausted=");
        text.put_grouped(pages);
    }
}

/// Writes the nodes that get pages, each with its pages, and those that find no free page.
fn put_named(text: &mut Written, placed: PlacedPages<'_>) {
    put_nodes(text, placed.nodes);
    put_lacking(text, placed);
}

/// Writes how many nodes get pages, and those that find no free page.
fn put_number(text: &mut Written, placed: PlacedPages<'_>) {
    let nodes = placed.nodes.len() as u64;
    text.put_form(b" on $ node", &[nodes]);
    text.put_either(nodes, b"", b"s");
    put_lacking(text, placed);
}

/// Writes the nodes that get pages, in a line of which so many letters are taken; or how many there
/// are, if they are many, or find no room.
fn put_counts(text: &mut Written, placed: PlacedPages<'_>, taken: usize) {
    if placed.nodes.len() > NAMED {
        return put_number(text, placed);
    }
    let mut named = Written::new(text.alloc());
    put_named(&mut named, placed);
    if taken.saturating_add(named.len()) > LETTERS {
        return put_number(text, placed);
    }
    match named.take() {
        Ok(words) => text.put(words.as_slice()),
        Err(_) => text.lack(),
    }
}

/// Writes a policy in a line of which so many letters are taken; `..` stands for what lacks room.
fn put_policy(text: &mut Written, policy: &[u8], taken: usize) {
    let room = LETTERS.saturating_sub(taken);
    if policy.len() <= room {
        text.put(policy);
        return;
    }
    text.put(policy.get(..room.saturating_sub(2)).unwrap_or(&[]));
    text.put(b"..");
}

/// The row of pixels at which this many rows of ranges end.
fn below(rows: u64) -> u64 {
    rows.saturating_mul(RANGE_ROWS).saturating_add(TOP)
}

/// Begins the group of a row of ranges, with `before` rows before it, and the line of text in it.
fn begin_row(text: &mut Written, class: &[u8], before: u64) {
    text.put(b"<g class=\"");
    text.put(class);
    text.put_form(
        b"\" transform=\"translate(16,$)\"><text y=\"11\">",
        &[below(before)],
    );
}

/// The letters of a line that begins at a byte of the text.
fn letters_since(text: &Written, begun: usize) -> usize {
    text.len().saturating_sub(begun)
}

/// Writes the words of a range's line.
fn put_words(text: &mut Written, row: RangeRow<'_>) {
    let begun = text.len();
    let policy = row.policy.as_bytes();
    text.put_addresses(row.start, row.end);
    text.put(b" ");
    text.put_amount(row.placed.pages);
    let behind = policy.len().saturating_add(1);
    let taken = letters_since(text, begun).saturating_add(behind);
    put_counts(text, row.placed, taken);
    text.put(b" ");
    let taken = letters_since(text, begun);
    put_policy(text, policy, taken);
}

/// Writes a range, with `before` rows before it: its line and its bar. A page has a cell where all
/// pages of the range are in `cells` and find room.
pub(crate) fn put_range(
    text: &mut Written,
    before: u64,
    row: RangeRow<'_>,
    cells: &[u8],
    width: u64,
) {
    begin_row(text, b"range", before);
    put_words(text, row);
    text.put(b"</text>");
    let count = cells.len() as u64;
    let place = Rectangle {
        left: 0,
        top: 16,
        width,
        height: 16,
    };
    let is_whole = count == row.placed.pages && row.placed.lacking().is_none();
    if is_whole && width >= count.saturating_mul(CELL) {
        put_pages(text, place, row.start, cells);
    } else {
        put_bar(text, place, row.placed);
    }
    text.put(b"</g>\n");
}

/// Writes the ranges that aren't drawn, with `before` rows before them.
pub(crate) fn put_rest(
    text: &mut Written,
    before: u64,
    ranges: u64,
    placed: PlacedPages<'_>,
    width: u64,
) {
    begin_row(text, b"rest", before);
    let begun = text.len();
    text.put_number(ranges);
    text.put_either(ranges, b" other range, ", b" other ranges, ");
    text.put_amount(placed.pages);
    let taken = letters_since(text, begun);
    put_counts(text, placed, taken);
    text.put(b"</text>");
    let place = Rectangle {
        left: 0,
        top: 16,
        width,
        height: 16,
    };
    put_bar(text, place, placed);
    text.put(b"</g>\n");
}

/// Writes the free pages left on a node, if it is named; where others are, that it never fills.
fn put_left(text: &mut Written, node: usize, left: &[NodePages]) {
    let mut is_named = left.is_empty();
    for one in left {
        if one.node == node as u64 {
            text.put(b", ");
            text.put_amount(one.pages);
            text.put(b" left");
            is_named = true;
        }
    }
    if !is_named {
        text.put(b", never fills");
    }
}

/// Draws the number of a node in its colour and, if it gets pages, a bar behind it.
fn put_node_bar(text: &mut Written, node: u64, bar: u64, top: u64) {
    let mark = mark_at(0, top);
    text.put_form(b"<g><title>node $</title>", &[node]);
    put_part(text, mark, node);
    if bar > 0 {
        let place = Rectangle {
            left: NODE_BAR,
            width: bar,
            ..mark
        };
        put_rectangle(text, place, fill_of(node));
    }
}

/// Writes the total pages of a node, of at most `most`.
fn put_node(text: &mut Written, node: usize, pages: u64, most: u64, top: u64, left: &[NodePages]) {
    let number = node as u64;
    let bar = match pages {
        0 => 0,
        pages => share(NODE_WIDTH, pages, most).max(1),
    };
    put_node_bar(text, number, bar, top);
    let column = bar.saturating_add(NODE_BAR).saturating_add(8);
    text.put_form(
        b"<text x=\"$\" y=\"$\">N$=",
        &[column, top.saturating_add(12), number],
    );
    text.put_amount(pages);
    put_left(text, node, left);
    text.put(b"</text>\n");
}

/// The largest count.
fn most_of(counts: &[u64]) -> u64 {
    let mut most = 1u64;
    for pages in counts {
        most = most.max(*pages);
    }
    most
}

/// The rows of pixels of the total pages of so many nodes.
pub(crate) fn total_rows(nodes: usize) -> u64 {
    let nodes = (nodes as u64).saturating_mul(NODE_ROWS);
    nodes.saturating_add(24)
}

/// Writes the total pages of each node, from a row of pixels on.
pub(crate) fn put_totals(
    text: &mut Written,
    placed: PlacedPages<'_>,
    counts: &[u64],
    left: &[NodePages],
    first: u64,
) {
    text.put_form(
        b"<g class=\"total\" transform=\"translate(16,$)\"><text y=\"16\">total anon=",
        &[first],
    );
    text.put_amount(placed.pages);
    put_lacking(text, placed);
    text.put(b"</text>\n");
    let most = most_of(counts);
    let mut top = 24u64;
    for node in 0..counts.len() {
        put_node(text, node, counts[node], most, top, left);
        top = top.saturating_add(NODE_ROWS);
    }
    text.put(b"</g>\n");
}

/// Ends the picture, behind this many rows of ranges, with the total pages of each node.
pub(crate) fn put_total(
    text: &mut Written,
    placed: PlacedPages<'_>,
    counts: &[u64],
    left: &[NodePages],
    rows: u64,
) {
    put_totals(text, placed, counts, left, below(rows));
    text.put(b"</svg>\n");
}
