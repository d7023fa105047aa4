//! What becomes of pages, as JSON.

use crate::sheet::lines::addresses;
use crate::sums::{AllMoves, MoveSum};
use numa_placed::Rooms;
use numa_reports::PageSpan;
use numa_sheets::{FreePages, Items, Object, Written};

/// Adds pages on a node to a list.
fn push_node(items: &mut Items, node: u64, pages: u64) {
    let mut object = Object::new(items.alloc());
    object.put_number("node", node);
    object.put_number("pages", pages);
    items.push_object(object);
}

/// Adds pages that go from a node to another to a list.
fn push_move(items: &mut Items, from: u64, to: u64, pages: u64) {
    let mut object = Object::new(items.alloc());
    object.put_number("from", from);
    object.put_number("to", to);
    object.put_number("pages", pages);
    items.push_object(object);
}

/// Adds the list of nodes that have pages.
fn put_nodes(object: &mut Object, name: &str, counts: &[u64; 256], nodes: u32) {
    let mut items = Items::new(object.alloc());
    for node in 0..nodes.min(256) {
        let pages = counts[node as usize];
        if pages > 0 {
            push_node(&mut items, u64::from(node), pages);
        }
    }
    object.put_items(name, items);
}

/// Adds what becomes of pages of a process.
fn put_fields(object: &mut Object, sum: &MoveSum, nodes: u32) {
    let mut items = Items::new(object.alloc());
    for node in 0..nodes.min(256) {
        let pages = sum.gone[node as usize];
        if pages > 0 {
            push_move(
                &mut items,
                u64::from(node),
                u64::from(sum.to[node as usize]),
                pages,
            );
        }
    }
    object.put_number("placed", sum.placed);
    object.put_number("moved", sum.moved);
    object.put_items("moves", items);
    put_nodes(object, "stays", &sum.stays, nodes);
    put_nodes(object, "noroom", &sum.lacking, nodes);
}

/// Writes the object of a span in its list, which begins with the first.
pub(crate) fn put_span(
    text: &mut Written,
    is_first: bool,
    span: PageSpan,
    sum: &MoveSum,
    nodes: u32,
) {
    let (start, end) = addresses(span);
    let mut object = Object::new(text.alloc());
    object.put_number("start", start);
    object.put_number("end", end);
    put_fields(&mut object, sum, nodes);
    text.put(if is_first { b"\n".as_slice() } else { b",\n" });
    text.put_object(object);
}

/// Ends the list of spans, with all pages of the process; then its object, if it has one.
pub(crate) fn put_sum(text: &mut Written, sum: &MoveSum, nodes: u32, is_last: bool) {
    let mut object = Object::new(text.alloc());
    put_fields(&mut object, sum, nodes);
    text.put(b"\n],\"total\":");
    text.put_object(object);
    if is_last {
        text.put(b"}");
    }
}

/// Begins the object of a process, and its list of spans.
pub(crate) fn begin_process(text: &mut Written, process: u32, is_first: bool) {
    text.put(if is_first { b"\n".as_slice() } else { b",\n" });
    text.put_form(b"{\"process\":$,\"ranges\":[", &[u64::from(process)]);
}

/// Adds the pages that go from a node to each to a list.
fn push_from(items: &mut Items, all: &AllMoves, nodes: u32, from: u32) {
    for to in 0..nodes {
        let pages = all.between(from, to);
        if pages > 0 {
            push_move(items, u64::from(from), u64::from(to), pages);
        }
    }
}

/// Ends the list of processes, with the pages of all.
pub(crate) fn put_all(text: &mut Written, all: &AllMoves, nodes: u32) {
    let mut items = Items::new(text.alloc());
    for from in 0..nodes {
        push_from(&mut items, all, nodes, from);
    }
    let mut object = Object::new(text.alloc());
    object.put_number("placed", all.placed);
    object.put_number("moved", all.moved);
    object.put_items("moves", items);
    put_nodes(&mut object, "stays", &all.stays, nodes);
    put_nodes(&mut object, "noroom", &all.lacking, nodes);
    text.put(b"\n],\"total\":");
    text.put_object(object);
}

/// Begins the object of a step, with its line, and its list of spans or of processes.
pub(crate) fn begin_step(text: &mut Written, line: &str, is_each: bool, is_first: bool) {
    text.put(if is_first { b"\n".as_slice() } else { b",\n" });
    let mut object = Object::new(text.alloc());
    object.put_text("then", line);
    let mut said = Vec::new(text.alloc());
    match object.say_line(&mut said) {
        Ok(()) => text.put(said.strip_suffix(b"}\n").unwrap_or(&[])),
        Err(_) => text.lack(),
    }
    drop(said);
    text.put(if is_each {
        b",\"processes\":[".as_slice()
    } else {
        b",\"ranges\":["
    });
}

/// Ends the object of a step, with how many more pages the named nodes take, if some are named.
pub(crate) fn end_step(text: &mut Written, free: &[FreePages], rooms: &Rooms) {
    if !free.is_empty() {
        let mut object = Object::new(text.alloc());
        let mut items = Items::new(text.alloc());
        for one in free {
            let pages = rooms.at(one.node).unwrap_or(u64::MAX);
            push_node(&mut items, u64::from(one.node), pages);
        }
        object.put_items("left", items);
        let mut said = Vec::new(text.alloc());
        match object.say_line(&mut said) {
            Ok(()) => {
                text.put(b",");
                let said = said.strip_prefix(b"{").unwrap_or(&[]);
                text.put(said.strip_suffix(b"\n").unwrap_or(&[]));
            }
            Err(_) => text.lack(),
        }
        drop(said);
    } else {
        text.put(b"}");
    }
}
