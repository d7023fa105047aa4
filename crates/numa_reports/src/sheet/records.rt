//! Reports as CSV: one record for each node of each range, and one for each node's total. Pages
//! that find no free page have a record without a node.

use crate::sheet::fields::{PlacedPages, RangeRow, placed_of};
use crate::sheet::nodes::NodePages;
use itoa::Buffer;
use numa_sheets::{Records, Written};

/// Writes the header record.
pub(crate) fn put_head(text: &mut Written) {
    text.put(b"start,end,policy,anon,node,pages\n");
}

/// The common beginning of the records of a range.
#[derive(Clone, Copy)]
struct RowPrefix<'a> {
    start: &'a str,
    end: &'a str,
    policy: &'a str,
    all: &'a str,
}

/// Writes the record of a node.
fn put_node(records: &mut Records, front: &RowPrefix<'_>, node: &str, pages: u64) {
    let mut count = Buffer::new();
    records.put(&[
        front.start.as_bytes(),
        front.end.as_bytes(),
        front.policy.as_bytes(),
        front.all.as_bytes(),
        node.as_bytes(),
        count.format(pages).as_bytes(),
    ]);
}

/// Writes the records of nodes.
fn put_nodes(records: &mut Records, front: &RowPrefix<'_>, nodes: &[NodePages]) {
    for one in nodes {
        let mut number = Buffer::new();
        put_node(records, front, number.format(one.node), one.pages);
    }
}

/// Writes the records of pages.
fn put_placed(records: &mut Records, front: &RowPrefix<'_>, placed: PlacedPages<'_>) {
    put_nodes(records, front, placed.nodes);
    if let Some(pages) = placed.lacking() {
        put_node(records, front, "", pages);
    }
}

/// Writes the records of pages.
fn put_all(text: &mut Written, front: &RowPrefix<'_>, placed: PlacedPages<'_>) {
    let mut records = Records::new(text.alloc());
    put_placed(&mut records, front, placed);
    records.end(text);
}

/// The records of a range.
pub(crate) fn put_range(text: &mut Written, row: RangeRow<'_>) {
    let mut first = Buffer::new();
    let mut last = Buffer::new();
    let mut all = Buffer::new();
    let front = RowPrefix {
        start: first.format(row.start),
        end: last.format(row.end),
        policy: row.policy,
        all: all.format(row.placed.pages),
    };
    put_all(text, &front, row.placed);
}

/// Writes records that belong to no range: a word instead of their policy, and no addresses.
fn put_apart(text: &mut Written, policy: &str, placed: PlacedPages<'_>) {
    let mut all = Buffer::new();
    let front = RowPrefix {
        start: "",
        end: "",
        policy,
        all: all.format(placed.pages),
    };
    put_all(text, &front, placed);
}

/// Writes the records of all pages, `total`, and after them those of the free pages left, `left`,
/// if nodes are named.
pub(crate) fn put_total(text: &mut Written, placed: PlacedPages<'_>, left: &[NodePages]) {
    put_apart(text, "total", placed);
    for one in left {
        put_apart(text, "left", placed_of(&[*one], one.pages, false));
    }
}
