//! What becomes of pages, as lines of text.

use crate::sums::{AllMoves, MoveSum};
use numa_placed::Rooms;
use numa_reports::PageSpan;
use numa_sheets::{FreePages, Written};

/// The bytes of a page.
const PAGE_BYTES: u64 = 4096;

/// The sum of the pages of so many nodes.
pub(crate) fn sum_of(counts: &[u64; 256], nodes: u32) -> u64 {
    let mut sum = 0u64;
    for node in 0..nodes.min(256) {
        sum = sum.saturating_add(counts[node as usize]);
    }
    sum
}

/// The addresses of a span's first byte, and of that behind its last.
pub(crate) fn addresses(span: PageSpan) -> (u64, u64) {
    let start = span.first.saturating_mul(PAGE_BYTES);
    (
        start,
        start.saturating_add(span.pages.saturating_mul(PAGE_BYTES)),
    )
}

/// The hexadecimal digits.
static DIGITS: [u8; 16] = *b"0123456789abcdef";

/// Writes a number in at least eight hexadecimal digits.
fn put_address(text: &mut Written, number: u64) {
    let digits = (16 - number.leading_zeros() / 4).clamp(8, 16);
    for place in 0..digits {
        let shift = (digits - 1 - place) * 4;
        text.put(&[DIGITS[((number >> shift) & 15) as usize]]);
    }
}

/// Writes the addresses of a span's first byte, and of that behind its last.
pub(crate) fn put_addresses(text: &mut Written, span: PageSpan) {
    let (start, end) = addresses(span);
    put_address(text, start);
    text.put(b"-");
    put_address(text, end);
}

/// Writes the pages of each node that has some, behind a word and their number.
fn put_nodes(text: &mut Written, word: &[u8], counts: &[u64; 256], nodes: u32) {
    let sum = sum_of(counts, nodes);
    if sum == 0 {
        return;
    }
    text.put(word);
    text.put_number(sum);
    for node in 0..nodes.min(256) {
        let pages = counts[node as usize];
        if pages > 0 {
            text.put_form(b" N$=$", &[u64::from(node), pages]);
        }
    }
}

/// Writes those that stay: as they need not go, or find no room.
fn put_stays(text: &mut Written, stays: &[u64; 256], lacking: &[u64; 256], nodes: u32) {
    put_nodes(text, b" stays=", stays, nodes);
    put_nodes(text, b" noroom=", lacking, nodes);
    text.put(b"\n");
}

/// Writes what becomes of pages of a process.
fn put_fields(text: &mut Written, sum: &MoveSum, nodes: u32) {
    text.put_form(b" placed=$ moved=$", &[sum.placed, sum.moved]);
    for node in 0..nodes.min(256) {
        let pages = sum.gone[node as usize];
        if pages > 0 {
            let to = u64::from(sum.to[node as usize]);
            text.put_form(b" N$->N$=$", &[u64::from(node), to, pages]);
        }
    }
    put_stays(text, &sum.stays, &sum.lacking, nodes);
}

/// Begins a step of several.
pub(crate) fn begin_step(text: &mut Written, line: &str) {
    text.put(b"then ");
    text.put(line.as_bytes());
    text.put(b"\n");
}

/// Writes the line of a span.
pub(crate) fn put_span(text: &mut Written, span: PageSpan, sum: &MoveSum, nodes: u32) {
    put_addresses(text, span);
    put_fields(text, sum, nodes);
}

/// Writes the line of all spans of a process.
pub(crate) fn put_sum(text: &mut Written, sum: &MoveSum, nodes: u32) {
    text.put(b"total");
    put_fields(text, sum, nodes);
}

/// Writes the pages that go from a node to each.
fn put_from(text: &mut Written, all: &AllMoves, nodes: u32, from: u32) {
    for to in 0..nodes {
        let pages = all.between(from, to);
        if pages > 0 {
            text.put_form(b" N$->N$=$", &[u64::from(from), u64::from(to), pages]);
        }
    }
}

/// Writes the lines of all processes.
pub(crate) fn put_all(text: &mut Written, all: &AllMoves, nodes: u32) {
    text.put_form(
        b"all processes\ntotal placed=$ moved=$",
        &[all.placed, all.moved],
    );
    for from in 0..nodes {
        put_from(text, all, nodes, from);
    }
    put_stays(text, &all.stays, &all.lacking, nodes);
}

/// Writes how many more pages the named nodes take, if some are named.
pub(crate) fn put_left(text: &mut Written, free: &[FreePages], rooms: &Rooms) {
    if free.is_empty() {
        return;
    }
    text.put(b"left");
    for one in free {
        let pages = rooms.at(one.node).unwrap_or(u64::MAX);
        text.put_form(b" N$=$", &[u64::from(one.node), pages]);
    }
    text.put(b"\n");
}
