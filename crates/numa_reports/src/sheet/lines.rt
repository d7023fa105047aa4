//! Reports as lines in the form of numa_maps.

use crate::sheet::fields::{PlacedPages, RangeRow, kilobytes};
use crate::sheet::nodes::{NodePages, put_nodes};
use numa_sheets::Written;

/// Writes the number of pages that find no free page, if there are any.
fn put_lacking(text: &mut Written, placed: PlacedPages<'_>) {
    if let Some(pages) = placed.lacking() {
        text.put_form(b" exhausted=$", &[pages]);
    }
}

/// Writes the number of pages, each node that has some, and their size.
fn put_pages(text: &mut Written, placed: PlacedPages<'_>, is_huge: bool) {
    text.put(b" anon=");
    text.put_number(placed.pages);
    put_nodes(text, placed.nodes);
    put_lacking(text, placed);
    text.put(b" kernelpagesize_kB=");
    text.put(kilobytes(is_huge).as_bytes());
    text.put(b"\n");
}

/// Writes the line of a range: its first address and the one after its last, the policy, and its
/// pages by node.
pub(crate) fn put_range(text: &mut Written, row: RangeRow<'_>) {
    text.put_addresses(row.start, row.end);
    text.put(b" ");
    text.put(row.policy.as_bytes());
    if row.is_huge {
        text.put(b" huge");
    }
    put_pages(text, row.placed, row.is_huge);
}

/// Writes the last line, if nodes are named: the free pages left on each of them.
fn put_left(text: &mut Written, left: &[NodePages]) {
    if left.is_empty() {
        return;
    }
    text.put(b"left");
    put_nodes(text, left);
    text.put(b"\n");
}

/// Writes the line of all pages by node, and that of the free pages left.
pub(crate) fn put_total(text: &mut Written, placed: PlacedPages<'_>, left: &[NodePages]) {
    text.put(b"total");
    put_pages(text, placed, false);
    put_left(text, left);
}
