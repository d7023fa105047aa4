//! Why a page goes where it goes, as text, JSON or a picture.
use crate::pooled::{Pooled, put_pooled, put_pooled_object};
use crate::reason_picture::picture_of;
use crate::residence::{Residence, put_comings, put_lies, put_residence};
use numa_rules::{Explanation, TakeField, Text, give_fields, say_explanation};
use numa_sheets::{Format, Items, Object};
use numa_space::Space;
use std::alloc::{AllocError, Global};
use std::mem::replace;

/// An object that takes the fields of an explanation.
#[derive(Drop)]
struct Fields {
    alloc: Global,
    object: Object,
}

impl TakeField for Fields {
    fn take_number(&mut self, name: &str, number: u64) {
        self.object.put_number(name, number);
    }

    fn take_text(&mut self, name: &str, text: Option<&str>) {
        self.object.put_if_text(name, text);
    }

    fn take_nodes(&mut self, name: &str, nodes: &[u8]) {
        let mut items = Items::new(self.alloc);
        for node in nodes {
            items.push_number(*node as u64);
        }
        self.object.put_items(name, items);
    }
}

/// Adds the fields of an explanation, and the lines of a text that says it.
pub fn put_fields(alloc: Global, object: &mut Object, said: &Explanation, text: &[u8]) {
    let whole = replace(object, Object::new(alloc));
    let mut fields = Fields {
        alloc,
        object: whole,
    };
    give_fields(&mut fields, said);
    let mut lines = Items::new(alloc);
    lines.push_lines(text);
    fields.object.put_items("words", lines);
    *object = fields.object;
}

/// What is known of a page beside where it would go.
#[derive(Clone, Copy)]
pub enum Whereabouts<'a> {
    /// Nothing.
    Unknown,
    /// It is there.
    Resident(Residence<'a>),
    /// It has 2 MiB, and lies nowhere yet.
    Waiting(Pooled<'a>),
}

/// Writes where a page lies, if it is there.
fn say_lies(text: &mut Vec<u8>, page: u64, residence: Residence<'_>) -> Result<(), AllocError> {
    let mut written = Text::of(text);
    put_lies(&mut written, page, residence.place);
    written.end(text)
}

/// Writes how a page comes where it lies.
fn say_comings(text: &mut Vec<u8>, residence: Residence<'_>) -> Result<(), AllocError> {
    let mut written = Text::of(text);
    put_comings(&mut written, residence.place.node, residence.comings);
    written.end(text)
}

/// Writes what pools have for a page.
fn say_pooled(text: &mut Vec<u8>, pooled: Pooled<'_>) -> Result<(), AllocError> {
    let mut written = Text::of(text);
    put_pooled(&mut written, pooled);
    written.end(text)
}

/// Appends the lines of an explanation.
fn say_all(
    text: &mut Vec<u8>,
    space: &Space,
    said: &Explanation,
    known: &Whereabouts<'_>,
) -> Result<(), AllocError> {
    if let Whereabouts::Resident(residence) = known {
        say_lies(text, said.page, *residence)?;
    }
    say_explanation(text, space.machine(), said)?;
    match known {
        Whereabouts::Unknown => Ok(()),
        Whereabouts::Resident(residence) => say_comings(text, *residence),
        Whereabouts::Waiting(pooled) => say_pooled(text, *pooled),
    }
}

/// The lines of an explanation: of a page that is there the first says where it lies, and the last
/// how it comes to that node; of one of 2 MiB that lies nowhere the last says what the pools have.
///
/// # Errors
/// `AllocError`: out of memory.
pub fn text_of(
    alloc: Global,
    space: &Space,
    said: &Explanation,
    known: &Whereabouts<'_>,
) -> Result<Vec<u8>, AllocError> {
    let mut text = Vec::new(alloc);
    match say_all(&mut text, space, said, known) {
        Ok(()) => Ok(text),
        Err(fault) => {
            drop(text);
            Err(fault)
        }
    }
}

/// An explanation as an object with the lines of its text.
fn told(
    alloc: Global,
    said: &Explanation,
    known: &Whereabouts<'_>,
    text: Vec<u8>,
) -> Result<Vec<u8>, AllocError> {
    let mut object = Object::new(alloc);
    object.put_text("kind", "explanation");
    put_fields(alloc, &mut object, said, text.as_slice());
    match known {
        Whereabouts::Unknown => {}
        Whereabouts::Resident(residence) => put_residence(alloc, &mut object, *residence),
        Whereabouts::Waiting(pooled) => put_pooled_object(alloc, &mut object, *pooled),
    }
    let mut line = text;
    line.clear();
    match object.say_line(&mut line) {
        Ok(()) => Ok(line),
        Err(fault) => Err(fault),
    }
}

/// The picture of an explanation with its text.
fn drawn(
    alloc: Global,
    space: &Space,
    said: &Explanation,
    known: &Whereabouts<'_>,
    text: Vec<u8>,
) -> Result<Vec<u8>, AllocError> {
    let lies = match known {
        Whereabouts::Resident(residence) => Some(residence.place.node),
        _ => None,
    };
    let picture = picture_of(alloc, space, said, lies, text.as_slice());
    drop(text);
    picture
}

/// An explanation as text, as an object with the lines of the text, or as a picture with them. The
/// space is the one that is explained.
///
/// # Errors
/// `AllocError`: out of memory.
pub fn shown(
    alloc: Global,
    space: &Space,
    said: &Explanation,
    known: &Whereabouts<'_>,
    text: Vec<u8>,
    format: Format,
) -> Result<Vec<u8>, AllocError> {
    match format {
        Format::Svg(_) => drawn(alloc, space, said, known, text),
        Format::Json => told(alloc, said, known, text),
        _ => Ok(text),
    }
}
