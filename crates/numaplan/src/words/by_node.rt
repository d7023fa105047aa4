//! Answers that are put together: those on each node, and a difference with moves behind it.
use numa_sheets::{Format, Touch, Written};
use numa_subjects::Halt;
use std::alloc::{AllocError, Global};

/// A text without its last line feed.
fn without_end(text: &[u8]) -> &[u8] {
    text.strip_suffix(b"\n").unwrap_or(text)
}

/// The answers on each node: each after a line with the node, or as the members of a list.
fn put_nodes(
    alloc: Global,
    touches: &[Touch],
    texts: &[Vec<u8>],
    format: Format,
) -> Result<Vec<u8>, AllocError> {
    let mut whole = Written::new(alloc);
    let is_list = matches!(format, Format::Json);
    let mut head: &[u8] = b"{\"by_node\":[";
    for (touch, text) in touches.iter().zip(texts.iter()) {
        if is_list {
            whole.put(head);
            whole.put(without_end(text.as_slice()));
            head = b",\n";
        } else {
            whole.put_form(b"node $\n", &[u64::from(touch.cpu)]);
            whole.put(text.as_slice());
        }
    }
    if is_list {
        whole.put(b"]}\n");
    }
    whole.take()
}

/// The answers, one after the other.
fn put_all(alloc: Global, texts: &[Vec<u8>]) -> Result<Vec<u8>, AllocError> {
    let mut whole = Written::new(alloc);
    for text in texts {
        whole.put(text.as_slice());
    }
    whole.take()
}

/// The answer on one node, or, if each is asked for, those on each: as text each after a line with
/// the node, as JSON in a list; or, of `lines` of JSON, one after the other.
///
/// # Errors
/// `Stopped`: out of memory.
pub fn of_nodes(
    alloc: Global,
    is_each: bool,
    touches: &[Touch],
    texts: Vec<Vec<u8>>,
    format: Format,
    is_lines: bool,
) -> Result<Vec<u8>, Halt> {
    let whole = if !is_each || is_lines && matches!(format, Format::Json) {
        put_all(alloc, texts.as_slice())
    } else {
        put_nodes(alloc, touches, texts.as_slice(), format)
    };
    drop(texts);
    Ok(whole?)
}

/// A difference with what becomes of the pages that are there behind it: after a heading, or as a
/// member of the object.
///
/// # Errors
/// `AllocError`: out of memory.
pub fn joined(
    alloc: Global,
    difference: &[u8],
    moves: &[u8],
    format: Format,
) -> Result<Vec<u8>, AllocError> {
    let mut text = Written::new(alloc);
    if let Format::Json = format {
        text.put(difference.strip_suffix(b"}\n").unwrap_or(difference));
        text.put(b",\"there\":");
        text.put(without_end(moves));
        text.put(b"}\n");
        return text.take();
    }
    text.put(difference);
    text.put(b"pages that are there\n");
    text.put(moves);
    text.take()
}
