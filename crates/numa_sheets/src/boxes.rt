//! Rectangles of pictures, with the colours and the numbers of nodes.

use crate::colours::{fill_of, ink_of};
use crate::written::Written;

/// The least pixels of a cell with a number.
pub const CELL: u64 = 12;

/// The columns of pixels of a node's mark.
pub const MARK: u64 = 24;

/// Where something is drawn, in pixels.
#[derive(Clone, Copy)]
pub struct Rectangle {
    /// Its first column.
    pub left: u64,
    /// Its first row.
    pub top: u64,
    /// How many columns it has.
    pub width: u64,
    /// How many rows it has.
    pub height: u64,
}

/// The place of a node's mark.
pub fn mark_at(left: u64, top: u64) -> Rectangle {
    Rectangle {
        left,
        top,
        width: MARK,
        height: 16,
    }
}

/// Draws a rectangle.
pub fn put_rectangle(text: &mut Written, place: Rectangle, fill: &str) {
    let numbers = [place.left, place.top, place.width, place.height];
    text.put_form(
        b"<rect x=\"$\" y=\"$\" width=\"$\" height=\"$\" stroke=\"#333333\" \
        stroke-width=\"0.5\" fill=\"",
        &numbers,
    );
    text.put(fill.as_bytes());
    text.put(b"\"/>");
}

/// Writes the number of a node in the middle of a place, if there is room for it.
fn put_number(text: &mut Written, place: Rectangle, node: u64) {
    if place.width < CELL {
        return;
    }
    let size = if node < 100 || place.width >= 20 {
        9
    } else {
        6
    };
    let middle = place.left.saturating_add(place.width / 2);
    let line = place.top.saturating_add(place.height / 2).saturating_add(3);
    text.put_form(
        b"<text x=\"$\" y=\"$\" font-size=\"$\" text-anchor=\"middle\" fill=\"",
        &[middle, line, size],
    );
    text.put(ink_of(node).as_bytes());
    text.put(b"\">");
    text.put_number(node);
    text.put(b"</text>");
}

/// Draws a box in the colour of a node, with its number.
pub fn put_node(text: &mut Written, place: Rectangle, node: u64) {
    put_rectangle(text, place, fill_of(node));
    put_number(text, place, node);
}

/// Draws a thick frame, which marks pages that go to another node.
pub fn put_frame(text: &mut Written, place: Rectangle, class: &[u8]) {
    text.put(b"<rect class=\"");
    text.put(class);
    text.put_form(
        b"\" x=\"$\" y=\"$\" width=\"$\" height=\"$\" fill=\"none\" stroke=\"#000000\" \
        stroke-width=\"3\"/>",
        &[place.left, place.top, place.width, place.height],
    );
}

/// Defines the hatching.
pub(crate) fn put_hatching(text: &mut Written) {
    text.put(
        b"<defs><pattern id=\"hatching\" width=\"6\" height=\"6\" \
        patternUnits=\"userSpaceOnUse\"><path d=\"M0,6 L6,0 M-1,1 L1,-1 M5,7 L7,5\" \
        stroke=\"#ffffff\" stroke-width=\"3.5\"/><path d=\"M0,6 L6,0 M-1,1 L1,-1 M5,7 L7,5\" \
        stroke=\"#000000\" stroke-width=\"1.5\"/></pattern></defs>\n",
    );
}

/// Draws the hatching, which marks pages that find no room, over a place.
pub fn put_hatched(text: &mut Written, place: Rectangle) {
    put_rectangle(text, place, "url(#hatching)");
}
