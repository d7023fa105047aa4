//! The names of areas in an answer as JSON, and in the data of a page.

use crate::areas::{Area, Areas};
use crate::naming::Unnamed;
use numa_sheets::{Items, Object, Written};
use std::alloc::{AllocError, Global};

/// What the data of a page begin with.
const DATA: &[u8] = b"<script type='application/json' id='data'>\n{";

/// The most areas that a page names.
const AREAS: usize = 4096;

/// The object of an area.
fn object_of(alloc: Global, areas: &Areas, area: &Area) -> Object {
    let mut object = Object::new(alloc);
    if let Some(process) = area.span.process {
        object.put_number("process", u64::from(process));
    }
    object.put_number("start", area.span.start);
    object.put_number("end", area.span.end);
    object.put_bytes("name", areas.name(area));
    object
}

/// Whether an area is of the process that is asked about, if one is.
fn is_of(area: &Area, process: Option<u32>) -> bool {
    process.is_none() || area.span.process == process
}

/// The object that has only the list of the areas with names, at most so many, as a line.
fn names_of(alloc: Global, unnamed: Unnamed<'_>, most: usize) -> Result<Vec<u8>, AllocError> {
    let mut items = Items::new(alloc);
    let mut count = 0usize;
    for area in unnamed.areas.all() {
        if is_of(area, unnamed.process) && count < most {
            items.push_object(object_of(alloc, unnamed.areas, area));
            count = count.saturating_add(1);
        }
    }
    let mut object = Object::new(alloc);
    object.put_items("names", items);
    let mut line = Vec::new(alloc);
    match object.say_line(&mut line) {
        Ok(()) => Ok(line),
        Err(fault) => Err(fault),
    }
}

/// An object with the areas that have names as its last member; what is no object stays.
pub(crate) fn object_with(alloc: Global, unnamed: Unnamed<'_>) -> Result<Vec<u8>, AllocError> {
    let mut text = Written::new(alloc);
    let Some(members) = unnamed.answer.strip_suffix(b"}\n") else {
        text.put(unnamed.answer);
        return text.take();
    };
    let names = names_of(alloc, unnamed, usize::MAX)?;
    text.put(members);
    text.put(b",");
    text.put(names.strip_prefix(b"{").unwrap_or(&[]));
    drop(names);
    text.take()
}

/// Writes the members of an object, so that no name ends the script in which they stand.
fn put_members(text: &mut Written, members: &[u8]) {
    for byte in members {
        if *byte == b'<' {
            text.put(b"\\u003c");
        } else {
            text.put(&[*byte]);
        }
    }
}

/// Where the members of a page's data begin.
fn data_in(page: &[u8]) -> Option<usize> {
    for place in 0..page.len() {
        if page[place..].starts_with(DATA) {
            return Some(place.saturating_add(DATA.len()));
        }
    }
    None
}

/// A page with the areas that have names as the first member of its data; what is no page stays.
pub(crate) fn page_with(alloc: Global, unnamed: Unnamed<'_>) -> Result<Vec<u8>, AllocError> {
    let mut text = Written::new(alloc);
    let answer = unnamed.answer;
    let Some(begin) = data_in(answer) else {
        text.put(answer);
        return text.take();
    };
    let names = names_of(alloc, unnamed, AREAS)?;
    text.put(answer.get(..begin).unwrap_or(&[]));
    let members = names.strip_prefix(b"{").unwrap_or(&[]);
    put_members(&mut text, members.strip_suffix(b"}\n").unwrap_or(&[]));
    drop(names);
    text.put(b",");
    text.put(answer.get(begin..).unwrap_or(&[]));
    text.take()
}
