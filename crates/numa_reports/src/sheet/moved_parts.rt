//! The spans of a picture or a page of moves: those with the most pages that move, and the sum of
//! the others.

use crate::sheet::largest::Largest;
use crate::sheet::{moved_objects, moved_pictures};
use numa_sheets::Written;
use std::alloc::{AllocError, Global};

/// The spans so far: how many pages of each move, and where its text ends.
#[derive(Drop)]
pub(crate) struct SpanTexts {
    moved: Vec<u64>,
    ends: Vec<usize>,
}

/// Spans that were written, and those that weren't, with their pages that move.
#[derive(Clone, Copy)]
pub(crate) struct ShownSpans {
    pub(crate) rows: u64,
    pub(crate) others: u64,
    pub(crate) moved: u64,
}

impl SpanTexts {
    /// Before the first span.
    pub(crate) fn new(alloc: Global) -> SpanTexts {
        SpanTexts {
            moved: Vec::new(alloc),
            ends: Vec::new(alloc),
        }
    }

    /// Notes a span, so many pages of which move, and whose text ends there.
    pub(crate) fn add(&mut self, moved: u64, end: usize) -> Result<(), AllocError> {
        self.moved.push(moved)?;
        self.ends.push(end)?;
        Ok(())
    }

    /// How many spans a picture has, of which the largest `number` are drawn.
    pub(crate) fn rows(&self, number: u32) -> u64 {
        let spans = self.moved.len() as u64;
        spans.min(u64::from(number))
    }

    /// Writes those of the spans' texts `whole` that are among the largest `number`, in a picture,
    /// or else as objects.
    pub(crate) fn put_largest(
        &self,
        text: &mut Written,
        whole: &[u8],
        number: u32,
        is_picture: bool,
    ) -> ShownSpans {
        let mut largest = Largest::of(self.moved.as_slice(), number);
        let mut shown = ShownSpans {
            rows: 0,
            others: 0,
            moved: 0,
        };
        let mut begin = 0usize;
        for place in 0..self.moved.len() {
            let moved = self.moved[place];
            let end = self.ends.get(place).copied().unwrap_or(begin);
            if largest.takes(moved) {
                put_begin(text, shown.rows, is_picture);
                text.put(whole.get(begin..end).unwrap_or(&[]));
                shown.rows = shown.rows.saturating_add(1);
            } else {
                shown.others = shown.others.saturating_add(1);
                shown.moved = shown.moved.saturating_add(moved);
            }
            begin = end;
        }
        shown
    }
}

/// Begins a span, with `before` spans before it.
fn put_begin(text: &mut Written, before: u64, is_picture: bool) {
    if is_picture {
        moved_pictures::begin_span(text, before);
    } else {
        moved_objects::begin_span(text, before == 0);
    }
}
