//! Reports as JSON. Objects are serde_json's, with their members in the order of their names; the
//! number of pages that find no free page comes after them.

use crate::sheet::fields::{PlacedPages, RangeRow};
use crate::sheet::nodes::NodePages;
use numa_sheets::{Object, Touch, Written};
use serde_json::{ToValue, Value};
use std::alloc::{AllocError, Global};

/// Begins the object, and its list of ranges.
pub(crate) fn put_head(text: &mut Written, version: u64, touch: Touch) {
    let asked = [version, touch.task as u64, touch.cpu as u64];
    text.put_form(b"{\"version\":$,\"task\":$,\"cpu\":$,", &asked);
    text.put(b"\"kernelpagesize_kB\":4,\"ranges\":[");
}

/// A node and its pages.
fn node_pages(alloc: Global, one: NodePages) -> Result<Value, AllocError> {
    let mut object = Object::new(alloc);
    object.put_number("node", one.node);
    object.put_number("pages", one.pages);
    object.made()
}

/// Nodes, each with its pages.
fn list(alloc: Global, nodes: &[NodePages]) -> Result<Value, AllocError> {
    let mut items = Vec::new(alloc);
    for one in nodes {
        items.push(node_pages(alloc, *one)?)?;
    }
    Ok(Value::from(items))
}

/// Adds the number of pages, and each node that has some.
fn put_placed(object: &mut Object, placed: PlacedPages<'_>) {
    object.put_number("anon", placed.pages);
    object.put("nodes", list(object.alloc(), placed.nodes));
}

/// Writes a value, with the number of pages that find no free page as its last member, if they are
/// counted.
fn put_item(text: &mut Written, item: &[u8], exhausted: Option<u64>) {
    let (Some(pages), Some((_, open))) = (exhausted, item.split_last()) else {
        text.put(item);
        return;
    };
    text.put(open);
    text.put_form(b",\"exhausted\":$}", &[pages]);
}

/// The same for an object, unless it is an error.
fn put_made(text: &mut Written, made: Result<Value, AllocError>, exhausted: Option<u64>) {
    let Ok(value) = made else {
        text.lack();
        return;
    };
    match value.to_vec(text.alloc()) {
        Ok(item) => put_item(text, item.as_slice(), exhausted),
        Err(_) => text.lack(),
    }
}

/// The object of a range, without the number of pages that find no free page.
fn range_object(alloc: Global, row: RangeRow<'_>) -> Result<Value, AllocError> {
    let mut object = Object::new(alloc);
    put_placed(&mut object, row.placed);
    object.put("policy", row.policy.to_value(alloc));
    object.put_number("start", row.start);
    object.put_number("end", row.end);
    if row.is_huge {
        object.put_number("kernelpagesize_kB", 2_048);
    }
    object.made()
}

/// The object of all pages by node, without the number of those that find no free page.
fn total_object(alloc: Global, placed: PlacedPages<'_>) -> Result<Value, AllocError> {
    let mut object = Object::new(alloc);
    put_placed(&mut object, placed);
    object.made()
}

/// The object of a range.
pub(crate) fn put_range(text: &mut Written, row: RangeRow<'_>, is_first: bool) {
    let before = if is_first { "\n" } else { ",\n" };
    text.put(before.as_bytes());
    put_made(text, range_object(text.alloc(), row), row.placed.exhausted);
}

/// Writes the free pages left on each node, if nodes are named.
fn put_left(text: &mut Written, left: &[NodePages]) {
    if !left.is_empty() {
        text.put(b",\"left\":");
        put_made(text, list(text.alloc(), left), None);
    }
}

/// Ends the list of ranges.
pub(crate) fn end_ranges(text: &mut Written) {
    text.put(b"\n]");
}

/// Writes the number of ranges that aren't in the list, and their pages by node.
pub(crate) fn put_others(text: &mut Written, ranges: u64, placed: PlacedPages<'_>) {
    text.put(b",\"others\":");
    let mut object = Object::new(text.alloc());
    object.put_number("ranges", ranges);
    put_placed(&mut object, placed);
    put_made(text, object.made(), placed.exhausted);
}

/// Ends the object, with all pages by node and, if nodes are named, the free pages left.
pub(crate) fn put_total(text: &mut Written, placed: PlacedPages<'_>, left: &[NodePages]) {
    text.put(b",\"total\":");
    put_made(text, total_object(text.alloc(), placed), placed.exhausted);
    put_left(text, left);
    text.put(b"}\n");
}
