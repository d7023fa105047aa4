//! Pictures of several processes as one, SVG 1.1 too: a section for each, under its heading, and
//! what all have together last.

use crate::sheet::fields::PlacedPages;
use crate::sheet::nodes::NodePages;
use crate::sheet::pictures;
use numa_mask::parts::first_place;
use numa_sheets::{Written, height_of};

/// Where in a picture of several processes a section begins, and of which process it is.
#[derive(Clone, Copy)]
pub(crate) struct Section {
    pub(crate) top: u64,
    pub(crate) process: u32,
    pub(crate) group: u32,
}

/// The rows of pixels of a heading, and behind the last section.
const HEADING: u64 = 40;

const MARGIN: u64 = 16;

/// The rows of pixels of the total of pages that move.
const MOVED_ROWS: u64 = 24;

/// A picture without its first line, which says that it is XML.
fn without_prolog(picture: &[u8]) -> &[u8] {
    match first_place(picture, b'\n') {
        Some(end) => picture.get(end.saturating_add(1)..).unwrap_or(&[]),
        None => picture,
    }
}

/// Begins a heading at a row of pixels.
fn begin_heading(text: &mut Written, top: u64) {
    text.put_form(
        b"<text class=\"heading\" x=\"16\" y=\"$\" font-size=\"16\" font-weight=\"bold\">",
        &[top.saturating_add(28)],
    );
}

/// Draws the picture of a process under its heading, and returns at which row of pixels it ends.
pub(crate) fn put_section(text: &mut Written, section: Section, picture: &[u8]) -> u64 {
    let Section {
        top,
        process,
        group,
    } = section;
    begin_heading(text, top);
    text.put_form(
        b"process $, group $</text>\n",
        &[u64::from(process), u64::from(group)],
    );
    let below = top.saturating_add(HEADING);
    text.put_form(
        b"<g class=\"process\" transform=\"translate(0,$)\">\n",
        &[below],
    );
    text.put(without_prolog(picture));
    text.put(b"</g>\n");
    below.saturating_add(height_of(picture))
}

/// Begins a picture with its sections, which end at a row of pixels, and the heading of all;
/// returns at which row that ends. Behind it are `rows` more.
fn put_sections(text: &mut Written, sections: &[u8], end: u64, rows: u64) -> u64 {
    let below = end.saturating_add(HEADING);
    text.begin_picture(below.saturating_add(rows).saturating_add(MARGIN));
    text.put(sections);
    begin_heading(text, end);
    text.put(b"all processes</text>\n");
    below
}

/// Writes a whole picture: the sections alone, which end at a row of pixels.
pub(crate) fn put_alone(text: &mut Written, sections: &[u8], end: u64) {
    text.begin_picture(end.saturating_add(MARGIN));
    text.put(sections);
    text.put(b"</svg>\n");
}

/// Writes a whole picture: the sections, and the pages of all processes by node.
pub(crate) fn put_placed(
    text: &mut Written,
    sections: &[u8],
    end: u64,
    placed: PlacedPages<'_>,
    counts: &[u64],
    left: &[NodePages],
) {
    let rows = pictures::total_rows(counts.len());
    let top = put_sections(text, sections, end, rows);
    pictures::put_totals(text, placed, counts, left, top);
    text.put(b"</svg>\n");
}

/// Writes a whole picture: the sections, and how many pages of all processes differ.
pub(crate) fn put_moved(text: &mut Written, sections: &[u8], end: u64, moved: u64) {
    let top = put_sections(text, sections, end, MOVED_ROWS);
    text.put_form(
        b"<text class=\"total\" x=\"16\" y=\"$\">total differs=",
        &[top.saturating_add(16)],
    );
    text.put_amount(moved);
    text.put(b"</text>\n</svg>\n");
}
