//! The names of areas in an answer.

use crate::areas::{Area, Areas};
use crate::objects::{object_with, page_with};
use crate::pictures::Bold;
use crate::texts::Behind;
use numa_mask::Parts;
use numa_sheets::{Format, Written};
use std::alloc::{AllocError, Global};

/// The most names of a range that are told, and the most areas that are looked at for them.
const NAMES: usize = 8;

const LOOKED: usize = 256;

/// Whether some of these areas have a name.
fn has_name(areas: &Areas, some: &[Area], name: &[u8]) -> bool {
    some.iter().any(|area| areas.name(area) == name)
}

/// An answer without names, the areas that have some, and the process of a host that is asked
/// about, if not all are.
#[derive(Clone, Copy)]
pub(crate) struct Unnamed<'a> {
    pub(crate) areas: &'a Areas,
    pub(crate) process: Option<u32>,
    pub(crate) answer: &'a [u8],
}

/// An answer that gets names line by line: what is written of it, the areas that have names, and
/// the process of which the next lines tell.
#[derive(Drop)]
pub(crate) struct Naming<'a> {
    pub(crate) text: Written,
    areas: &'a Areas,
    pub(crate) process: Option<u32>,
}

/// How a line gets names.
pub(crate) trait PutLine {
    /// Writes a line with its names, without a line feed.
    fn put_line(&self, naming: &mut Naming<'_>, line: &[u8]);
}

/// How a name is written.
pub(crate) trait PutName {
    /// Writes what stands before the first name of a range, or else between two.
    fn put_before(&self, text: &mut Written, is_first: bool);

    /// Writes a name; if it finds no room, `..` in its place, and returns false: it is the last.
    fn put_name(&self, text: &mut Written, name: &[u8]) -> bool;

    /// Writes what stands behind the last name of a range.
    fn put_end(&self, text: &mut Written);
}

/// Writes the names of areas, each once; of many names the first.
fn put_all<F: PutName>(text: &mut Written, areas: &Areas, some: &[Area], form: &F) {
    let some = some.get(..some.len().min(LOOKED)).unwrap_or(&[]);
    let mut count = 0usize;
    for place in 0..some.len() {
        let name = areas.name(&some[place]);
        if count < NAMES && !has_name(areas, &some[..place], name) {
            form.put_before(text, count == 0);
            let goes_on = form.put_name(text, name);
            count = if goes_on {
                count.saturating_add(1)
            } else {
                NAMES
            };
        }
    }
    if count > 0 {
        form.put_end(text);
    }
}

/// Writes the names of the areas between two addresses.
pub(crate) fn put_names<F: PutName>(naming: &mut Naming<'_>, start: u64, end: u64, form: &F) {
    let areas = naming.areas;
    let some = areas.between(naming.process, start, end);
    put_all(&mut naming.text, areas, some, form);
}

/// An answer whose lines have names; what doesn't end with a line feed stays.
fn lines_with<F: PutLine>(
    alloc: Global,
    unnamed: Unnamed<'_>,
    form: &F,
) -> Result<Vec<u8>, AllocError> {
    let mut naming = Naming {
        text: Written::new(alloc),
        areas: unnamed.areas,
        process: unnamed.process,
    };
    let Some(lines) = unnamed.answer.strip_suffix(b"\n") else {
        naming.text.put(unnamed.answer);
        return naming.text.take();
    };
    for line in Parts::new(lines, b'\n') {
        form.put_line(&mut naming, line);
        naming.text.put(b"\n");
    }
    naming.text.take()
}

/// An answer with the names of the areas that its ranges have; as text only if `is_asked`. The
/// areas are in order. `process` is the one of a host that is asked about, if not all are.
///
/// # Errors
/// `AllocError`: out of memory.
pub fn named(
    alloc: Global,
    areas: &Areas,
    process: Option<u32>,
    format: Format,
    is_asked: bool,
    answer: Vec<u8>,
) -> Result<Vec<u8>, AllocError> {
    if areas.is_empty() {
        return Ok(answer);
    }
    let unnamed = Unnamed {
        areas,
        process,
        answer: answer.as_slice(),
    };
    let text = match format {
        Format::Text if is_asked => lines_with(alloc, unnamed, &Behind),
        Format::Json => object_with(alloc, unnamed),
        Format::Svg(_) => lines_with(alloc, unnamed, &Bold),
        Format::Html(_) => page_with(alloc, unnamed),
        _ => return Ok(answer),
    };
    drop(answer);
    text
}
