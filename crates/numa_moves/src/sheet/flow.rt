//! What becomes of pages as a flow from the nodes before a line to those after it, as a part of a
//! picture.

use crate::sheet::bars::{Fate, fates_of, put_title};
use crate::sheet::ends::Ends;
use crate::sums::MoveSum;
use numa_sheets::{MARK, Rectangle, Written, fill_of, put_node, share};

/// The first columns of pixels of the nodes before and after.
const BEFORE: u64 = 580;

const AFTER: u64 = 880;

/// The rows of pixels of all pages, the least of a node, those between two, and of the headings.
const HIGH: u64 = 240;

const LEAST: u64 = 14;

const GAP: u64 = 6;

const HEAD: u64 = 20;

/// Where the nodes of a side lie: the first row of pixels of each that has pages, and its rows.
#[derive(Clone, Copy)]
struct Side {
    tops: [u64; 256],
    heights: [u64; 256],
    // The row at which the last ends.
    end: u64,
}

/// Where nodes with so many pages, of `all`, lie.
fn side_of(counts: &[u64; 256], all: u64) -> Side {
    let mut side = Side {
        tops: [0; 256],
        heights: [0; 256],
        end: HEAD,
    };
    for node in 0..256usize {
        let pages = counts[node];
        if pages > 0 {
            let height = share(HIGH, pages, all).max(LEAST);
            side.tops[node] = side.end;
            side.heights[node] = height;
            side.end = side.end.saturating_add(height).saturating_add(GAP);
        }
    }
    side
}

impl Side {
    /// The row of pixels behind so many pages of a node's.
    fn row(&self, node: u8, pages: u64, all: u64) -> u64 {
        let place = node as usize;
        self.tops[place].saturating_add(share(self.heights[place], pages, all))
    }

    /// Draws the nodes, from a column of pixels on.
    fn put(&self, text: &mut Written, left: u64) {
        for node in 0..256usize {
            let height = self.heights[node];
            if height > 0 {
                let place = Rectangle {
                    left,
                    top: self.tops[node],
                    width: MARK,
                    height,
                };
                put_node(text, place, node as u64);
            }
        }
    }
}

/// The flow, of which a part is drawn.
#[derive(Clone, Copy)]
struct Flow {
    ends: Ends,
    before: Side,
    after: Side,
    // The pages that are drawn, by the nodes before and after.
    gone: [u64; 256],
    come: [u64; 256],
}

/// Draws a band between two rows of pixels on the left, and two on the right.
fn put_band(text: &mut Written, rows: [u64; 4], fill: &str, stroke: &[u8]) {
    let [upper, lower, upper_right, lower_right] = rows;
    text.put_form(
        b"<path d=\"M604,$ C742,$ 742,$ 880,$ L880,$ C742,$ 742,$ 604,$ Z\" fill=\"",
        &[
            upper,
            upper,
            upper_right,
            upper_right,
            lower_right,
            lower_right,
            lower,
            lower,
        ],
    );
    text.put(fill.as_bytes());
    text.put(b"\" ");
    text.put(stroke);
    text.put(b"/>");
}

impl Flow {
    /// Where so many more pages of a node's lie on both sides: the rows of their band.
    fn rows_of(&mut self, from: u8, to: u8, pages: u64) -> [u64; 4] {
        let (left, right) = (from as usize, to as usize);
        let gone = self.gone[left].saturating_add(pages);
        let come = self.come[right].saturating_add(pages);
        let (all_gone, all_come) = (self.ends.before[left], self.ends.after[right]);
        let rows = [
            self.before.row(from, self.gone[left], all_gone),
            self.before.row(from, gone, all_gone),
            self.after.row(to, self.come[right], all_come),
            self.after.row(to, come, all_come),
        ];
        self.gone[left] = gone;
        self.come[right] = come;
        rows
    }

    /// Draws the band of some pages of a node.
    fn put_fate(&mut self, text: &mut Written, from: u8, fate: Fate, pages: u64) {
        let rows = self.rows_of(from, fate.node(from), pages);
        let fill = fill_of(u64::from(from));
        text.put(b"<g>");
        put_title(text, from, fate, pages);
        match fate {
            Fate::Moves(_) => put_band(
                text,
                rows,
                fill,
                b"stroke=\"#000000\" stroke-width=\"1.5\"",
            ),
            _ => put_band(text, rows, fill, b"stroke=\"#333333\" stroke-width=\"0.5\""),
        }
        if let Fate::LacksRoom = fate {
            put_band(text, rows, "url(#hatching)", b"");
        }
        text.put(b"</g>\n");
    }

    /// Draws the bands of a node's pages.
    fn put_from(&mut self, text: &mut Written, sum: &MoveSum, from: u8) {
        for fate in fates_of(sum, from) {
            let pages = fate.pages(sum, from);
            if pages > 0 {
                self.put_fate(text, from, fate, pages);
            }
        }
    }
}

/// The heads of both sides.
const HEADS: &[u8] = b"<text x=\"580\" y=\"12\">before</text>\
<text x=\"904\" y=\"12\" text-anchor=\"end\">after</text>\n";

/// Draws the flow from a row of pixels on, and returns how many rows that takes.
pub(crate) fn put_flow(text: &mut Written, sum: &MoveSum, ends: &Ends, top: u64) -> u64 {
    let mut flow = Flow {
        ends: *ends,
        before: side_of(&ends.before, sum.placed),
        after: side_of(&ends.after, sum.placed),
        gone: [0; 256],
        come: [0; 256],
    };
    text.put_form(b"<g class=\"flow\" transform=\"translate(0,$)\">", &[top]);
    text.put(HEADS);
    for from in 0..ends.nodes.min(256) {
        flow.put_from(text, sum, from as u8);
    }
    flow.before.put(text, BEFORE);
    flow.after.put(text, AFTER);
    text.put(b"</g>\n");
    flow.before.end.max(flow.after.end)
}
