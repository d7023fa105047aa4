//! Differences as JSON.

use crate::outlook::PageSpan;
use crate::sheet::fields::bytes;
use crate::sheet::moved_parts::ShownSpans;
use crate::sheet::node_moves::NodeMoves;
use numa_sheets::{Items, Object, Touch, Written};

/// Begins the object, and its list of spans.
pub(crate) fn put_head(text: &mut Written, touch: Touch) {
    let asked = [touch.task as u64, touch.cpu as u64];
    text.put_form(
        b"{\"task\":$,\"cpu\":$,\"kernelpagesize_kB\":4,\"spans\":[",
        &asked,
    );
}

/// Pages that go from a node to another.
fn put_move(items: &mut Items, from: u32, to: u32, pages: u64) {
    let mut object = Object::new(items.alloc());
    object.put_number("from", from as u64);
    object.put_number("to", to as u64);
    object.put_number("pages", pages);
    items.push_object(object);
}

/// Adds the pages that go from a node to each other node, where there are some.
fn put_from(items: &mut Items, counts: NodeMoves<'_>, from: u32) {
    for to in 0..counts.nodes {
        let pages = counts.between(from, to);
        if from != to && pages > 0 {
            put_move(items, from, to, pages);
        }
    }
}

/// Adds the number of pages that go to another node, and the list from which to which.
fn put_moves(object: &mut Object, counts: NodeMoves<'_>) {
    let mut items = Items::new(object.alloc());
    for from in 0..counts.nodes {
        put_from(&mut items, counts, from);
    }
    object.put_number("differs", counts.moved());
    object.put_items("differences", items);
}

/// Begins a span in the list.
pub(crate) fn begin_span(text: &mut Written, is_first: bool) {
    let before = if is_first { "\n" } else { ",\n" };
    text.put(before.as_bytes());
}

/// The object of a span.
pub(crate) fn put_span(text: &mut Written, span: PageSpan, counts: NodeMoves<'_>) {
    let mut object = Object::new(text.alloc());
    object.put_number("start", bytes(span.first));
    object.put_number("end", bytes(span.first.saturating_add(span.pages)));
    put_moves(&mut object, counts);
    text.put_object(object);
}

/// Ends the list of spans.
pub(crate) fn end_spans(text: &mut Written) {
    text.put(b"\n]");
}

/// Writes how many spans aren't in the list, with their pages that move, if there are such spans.
pub(crate) fn put_others(text: &mut Written, shown: ShownSpans) {
    if shown.others > 0 {
        text.put_form(
            b",\"others\":{\"spans\":$,\"differs\":$}",
            &[shown.others, shown.moved],
        );
    }
}

/// Ends the object, with all pages.
pub(crate) fn put_total(text: &mut Written, counts: NodeMoves<'_>) {
    text.put(b",\"total\":");
    let mut object = Object::new(text.alloc());
    put_moves(&mut object, counts);
    text.put_object(object);
    text.put(b"}\n");
}
