//! A bar before each line of pages by node, for a terminal.

use crate::counts::{Counts, counts_in};
use crate::paint::{Paint, begin_node, end_node};
use numa_mask::Parts;
use numa_sheets::{Scale, Written, share};
use std::alloc::{AllocError, Global};

/// The columns of the longest bar.
const COLUMNS: u64 = 24;

/// What stands for pages of a node, by its number, and for those without room.
static LETTERS: &[u8; 36] = b"0123456789abcdefghijklmnopqrstuvwxyz";

const LACKING: u8 = b'!';

/// Whether a line is a sum, of others or of pages of 2 MiB.
fn is_total(line: &[u8]) -> bool {
    line.starts_with(b"total ") || line.starts_with(b"pools ")
}

/// How long bars are: as those of pictures, of which the longest has so many pixels.
#[derive(Clone, Copy)]
struct Lengths {
    scale: Scale,
    pixels: u64,
}

/// How long the bars of a text are.
fn lengths_of(text: &[u8]) -> Lengths {
    let mut least = u64::MAX;
    let mut most = 0u64;
    for line in Parts::new(text, b'\n') {
        if let (false, Some(counts)) = (is_total(line), counts_in(line)) {
            least = least.min(counts.pages.max(1));
            most = most.max(counts.pages);
        }
    }
    let scale = Scale::between(least.min(most), most);
    Lengths {
        scale,
        pixels: scale.width(most),
    }
}

/// The columns of a bar: none without pages, else at least one.
fn columns_of(lengths: &Lengths, pages: u64) -> u64 {
    if pages == 0 {
        return 0;
    }
    share(COLUMNS, lengths.scale.width(pages), lengths.pixels).max(1)
}

/// Writes the same letters.
fn put_letters(text: &mut Written, letter: u8, count: u64) {
    for _ in 0..count {
        text.put(&[letter]);
    }
}

/// A bar that is drawn: its columns, its pages, and how many of these are drawn.
#[derive(Clone, Copy)]
struct Bar {
    columns: u64,
    pages: u64,
    done: u64,
}

impl Bar {
    /// The columns of the next pages.
    fn take(&mut self, pages: u64) -> u64 {
        let before = share(self.columns, self.done, self.pages);
        self.done = self.done.saturating_add(pages);
        share(self.columns, self.done, self.pages).saturating_sub(before)
    }

    /// Draws the pages of a node.
    fn put_node(&mut self, text: &mut Written, paint: Paint, node: usize, pages: u64) {
        let columns = self.take(pages);
        if columns > 0 {
            begin_node(text, paint, node as u64);
            put_letters(text, LETTERS[node % 36], columns);
            end_node(text, paint);
        }
    }
}

/// Draws the bar of a line.
fn put_bar(text: &mut Written, paint: Paint, counts: &Counts, columns: u64) {
    let mut bar = Bar {
        columns,
        pages: counts.pages,
        done: 0,
    };
    for node in 0..256usize {
        bar.put_node(text, paint, node, counts.nodes[node]);
    }
    let lacking = bar.take(counts.lacking);
    put_letters(text, LACKING, lacking);
    put_letters(text, b' ', COLUMNS.saturating_sub(columns));
    text.put(b" ");
}

/// Writes a line, with its bar if it counts pages.
fn put_line(text: &mut Written, paint: Paint, lengths: &Lengths, line: &[u8]) {
    if let Some(counts) = counts_in(line) {
        let columns = if is_total(line) && counts.pages > 0 {
            COLUMNS
        } else {
            columns_of(lengths, counts.pages)
        };
        put_bar(text, paint, &counts, columns);
    }
    text.put(line);
    text.put(b"\n");
}

/// An answer of `predict` or `moves` as text, with a bar before each line of pages by node: how
/// many columns a node has of it is in proportion to its pages, and how long it is as the bars of
/// pictures are.
///
/// # Errors
/// `AllocError`: out of memory.
pub fn barred(alloc: Global, paint: Paint, answer: Vec<u8>) -> Result<Vec<u8>, AllocError> {
    let lines = answer.strip_suffix(b"\n").unwrap_or(answer.as_slice());
    let lengths = lengths_of(lines);
    let mut text = Written::new(alloc);
    for line in Parts::new(lines, b'\n') {
        put_line(&mut text, paint, &lengths, line);
    }
    drop(answer);
    text.take()
}
