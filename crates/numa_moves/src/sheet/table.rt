//! What becomes of pages, node by node, as a part of a picture: a matrix or, of many nodes, a list.

use crate::sheet::bars::{Fate, fates_of};
use crate::sheet::ends::{Ends, nodes_with};
use crate::sums::MoveSum;
use numa_sheets::{
    MARK, Rectangle, Written, mark_at, put_frame, put_hatched, put_node, put_rectangle,
};

/// The most nodes of a matrix after the line, and before it.
const COLUMNS: u64 = 4;

const ROWS: u64 = 8;

/// The pixels of a matrix: of its first column and of the others, and of its first row and of the
/// others.
const LABEL: u64 = 56;

const WIDE: u64 = 96;

const HEAD: u64 = 20;

const HIGH: u64 = 48;

/// The most lines of a list, and the rows of pixels of a line.
const LINES: u64 = 40;

const LINE: u64 = 20;

/// Whether there is a matrix.
fn is_small(ends: &Ends) -> bool {
    nodes_with(&ends.after) <= COLUMNS && nodes_with(&ends.before) <= ROWS
}

/// Writes a word in a place.
fn put_word(text: &mut Written, left: u64, top: u64, word: &[u8]) {
    text.put_form(b"<text x=\"$\" y=\"$\">", &[left, top]);
    text.put(word);
    text.put(b"</text>");
}

/// Writes a number of pages and their size in a cell.
fn put_pages(text: &mut Written, place: Rectangle, pages: u64) {
    let middle = place.left.saturating_add(place.width / 2);
    text.put_form(
        b"<text x=\"$\" y=\"$\" text-anchor=\"middle\">",
        &[middle, place.top.saturating_add(14)],
    );
    text.put_grouped(pages);
    text.put_form(
        b"</text><text x=\"$\" y=\"$\" text-anchor=\"middle\" fill=\"#555555\">",
        &[middle, place.top.saturating_add(28)],
    );
    text.put_size(pages);
    text.put(b"</text>");
}

/// Marks so many pages of a cell as without room.
fn put_lacking(text: &mut Written, place: Rectangle, pages: u64) {
    let (left, top) = (place.left.saturating_add(4), place.top.saturating_add(34));
    put_hatched(
        text,
        Rectangle {
            left,
            top,
            width: 12,
            height: 10,
        },
    );
    text.put_form(
        b"<text x=\"$\" y=\"$\" font-size=\"9\">",
        &[left.saturating_add(15), top.saturating_add(8)],
    );
    text.put_grouped(pages);
    text.put(b"</text>");
}

/// Draws the cell of the pages that lie on a node before, and on one after.
fn put_cell(text: &mut Written, sum: &MoveSum, from: u8, to: u8, place: Rectangle) {
    let is_own = from == to;
    put_rectangle(text, place, if is_own { "#eeeeee" } else { "#ffffff" });
    let pages = sum.between(from, to);
    if pages == 0 {
        return;
    }
    put_pages(text, place, pages);
    if !is_own {
        let inner = Rectangle {
            left: place.left.saturating_add(2),
            top: place.top.saturating_add(2),
            width: place.width.saturating_sub(4),
            height: place.height.saturating_sub(4),
        };
        return put_frame(text, inner, b"moved");
    }
    let lacking = sum.lacking[from as usize];
    if lacking > 0 {
        put_lacking(text, place, lacking);
    }
}

/// The place of a row's first cell.
fn first_cell(top: u64) -> Rectangle {
    Rectangle {
        left: LABEL,
        top,
        width: WIDE,
        height: HIGH,
    }
}

/// Draws the row of the pages that lie on a node before.
fn put_row(text: &mut Written, sum: &MoveSum, ends: &Ends, from: u8, top: u64) {
    put_node(text, mark_at(0, top.saturating_add(16)), u64::from(from));
    let mut place = first_cell(top);
    for to in 0..ends.nodes.min(256) {
        if ends.after[to as usize] > 0 {
            put_cell(text, sum, from, to as u8, place);
            place.left = place.left.saturating_add(WIDE);
        }
    }
    put_pages(text, place, ends.before[from as usize]);
    text.put(b"\n");
}

/// Draws the nodes above their columns.
fn put_heads(text: &mut Written, ends: &Ends) {
    put_word(text, 0, 12, b"from\\to");
    let mut left = LABEL;
    for to in 0..ends.nodes.min(256) {
        if ends.after[to as usize] > 0 {
            let mark = mark_at(left.saturating_add((WIDE - MARK) / 2), 0);
            put_node(text, mark, u64::from(to));
            left = left.saturating_add(WIDE);
        }
    }
    put_word(text, left.saturating_add(24), 12, b"before");
    text.put(b"\n");
}

/// Draws the pages of each node after, in the last row.
fn put_foot(text: &mut Written, sum: &MoveSum, ends: &Ends, top: u64) {
    put_word(text, 0, top.saturating_add(14), b"after");
    let mut place = first_cell(top);
    for to in 0..ends.nodes.min(256) {
        let pages = ends.after[to as usize];
        if pages > 0 {
            put_pages(text, place, pages);
            place.left = place.left.saturating_add(WIDE);
        }
    }
    put_pages(text, place, sum.placed);
    text.put(b"\n");
}

/// Draws a matrix, and returns its rows of pixels.
fn put_matrix(text: &mut Written, sum: &MoveSum, ends: &Ends) -> u64 {
    put_heads(text, ends);
    let mut top = HEAD;
    for from in 0..ends.nodes.min(256) {
        if ends.before[from as usize] > 0 {
            put_row(text, sum, ends, from as u8, top);
            top = top.saturating_add(HIGH);
        }
    }
    put_foot(text, sum, ends, top);
    top.saturating_add(HIGH)
}

/// A list so far: the row of pixels at which it ends, and the lines and pages that aren't in it.
#[derive(Clone, Copy)]
struct List {
    row: u64,
    others: u64,
    pages: u64,
}

impl List {
    /// Writes what becomes of some pages of a node.
    fn put_fate(&mut self, text: &mut Written, from: u8, fate: Fate, pages: u64) {
        if self.row >= LINES * LINE {
            self.others = self.others.saturating_add(1);
            self.pages = self.pages.saturating_add(pages);
            return;
        }
        put_node(text, mark_at(0, self.row), u64::from(from));
        let line = self.row.saturating_add(12);
        match fate {
            Fate::Moves(to) => {
                put_word(text, 32, line, b"to");
                let place = mark_at(56, self.row);
                put_node(text, place, u64::from(to));
                put_frame(text, place, b"moved");
            }
            Fate::Stays => put_word(text, 32, line, b"stays"),
            Fate::LacksRoom => put_hatched(text, mark_at(56, self.row)),
        }
        text.put_form(b"<text x=\"96\" y=\"$\">", &[line]);
        text.put_amount(pages);
        text.put(b"</text>\n");
        self.row = self.row.saturating_add(LINE);
    }

    /// Writes what becomes of the pages of a node: of those that need not go, or of the others.
    fn put_from(&mut self, text: &mut Written, sum: &MoveSum, from: u8, stays: bool) {
        for fate in fates_of(sum, from) {
            let pages = fate.pages(sum, from);
            if pages > 0 && stays == matches!(fate, Fate::Stays) {
                self.put_fate(text, from, fate, pages);
            }
        }
    }

    /// Writes what becomes of pages that need not go, or of the others.
    fn put_all(&mut self, text: &mut Written, sum: &MoveSum, ends: &Ends, stays: bool) {
        for from in 0..ends.nodes.min(256) {
            self.put_from(text, sum, from as u8, stays);
        }
    }
}

/// Draws a list, and returns its rows of pixels. Pages that need not go come last.
fn put_list(text: &mut Written, sum: &MoveSum, ends: &Ends) -> u64 {
    let mut list = List {
        row: 0,
        others: 0,
        pages: 0,
    };
    list.put_all(text, sum, ends, false);
    list.put_all(text, sum, ends, true);
    if list.others == 0 {
        return list.row;
    }
    let line = list.row.saturating_add(12);
    text.put_form(
        b"<text x=\"0\" y=\"$\">and $ more, with ",
        &[line, list.others],
    );
    text.put_amount(list.pages);
    text.put(b"</text>\n");
    list.row.saturating_add(LINE)
}

/// Draws what becomes of pages node by node, from a row of pixels on, and returns how many rows
/// that takes.
pub(crate) fn put_table(text: &mut Written, sum: &MoveSum, ends: &Ends, top: u64) -> u64 {
    text.put_form(
        b"<g class=\"nodes\" transform=\"translate(16,$)\">\n",
        &[top],
    );
    let rows = if is_small(ends) {
        put_matrix(text, sum, ends)
    } else {
        put_list(text, sum, ends)
    };
    text.put(b"</g>\n");
    rows
}
