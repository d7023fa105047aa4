//! The names of areas in a picture: behind the addresses of each range.

use crate::naming::{Naming, PutLine, PutName, put_names};
use crate::ranges::{Range, process_in, range_in};
use numa_sheets::Written;

/// What the text of a range begins with, in the line of its group, and where at the latest.
const LABEL: &[u8] = b"<text y=\"11\">";

const FIRST: usize = 100;

/// What the heading of a process begins with, and what stands before its text.
const HEADING: &[u8] = b"<text class=\"heading\" ";

const BOLD: &[u8] = b"font-weight=\"bold\">";

/// What stands before the first name.
const OPEN: &[u8] = b" <tspan class=\"name\" font-weight=\"bold\">";

/// The most letters of a name, and those for which there is room in any line; of a longer name the
/// end is shown.
const WIDE: usize = 28;

const NARROW: usize = 12;

/// The most letters of a line with its names, so that it ends within the picture.
const LETTERS: usize = 119;

/// Where some bytes end that begin among the first of a line; nothing if they don't.
fn end_of(line: &[u8], part: &[u8]) -> Option<usize> {
    for place in 0..line.len().min(FIRST) {
        if line[place..].starts_with(part) {
            return Some(place.saturating_add(part.len()));
        }
    }
    None
}

/// The range whose addresses a line has, if it has some, and the bytes up to behind these.
fn label_in(line: &[u8]) -> Option<(Range, usize)> {
    if !line.starts_with(b"<g class=\"") {
        return None;
    }
    let begin = end_of(line, LABEL)?;
    let range = range_in(line.get(begin..)?)?;
    Some((range, begin.saturating_add(range.length)))
}

/// The letters of a text up to its next tag.
fn letters_in(text: &[u8]) -> usize {
    let mut letters = 0usize;
    for byte in text {
        if *byte == b'<' {
            return letters;
        }
        letters = letters.saturating_add(1);
    }
    letters
}

/// The process of a heading, if a line is one.
fn heading_in(line: &[u8]) -> Option<u32> {
    if !line.starts_with(HEADING) {
        return None;
    }
    process_in(line.get(end_of(line, BOLD)?..)?)
}

/// Writes a name of at most so many letters; of a longer one the end.
fn put_clipped(text: &mut Written, name: &[u8], room: usize) {
    if name.len() <= room {
        return text.put_escaped(name);
    }
    text.put(b"..");
    let hidden = name.len().saturating_add(2).saturating_sub(room);
    text.put_escaped(name.get(hidden..).unwrap_or(&[]));
}

/// Names behind addresses, in bold letters.
pub(crate) struct Bold;

impl PutLine for Bold {
    fn put_line(&self, naming: &mut Naming<'_>, line: &[u8]) {
        let Some((range, length)) = label_in(line) else {
            naming.text.put(line);
            naming.process = heading_in(line).or(naming.process);
            return;
        };
        let rest = line.get(length..).unwrap_or(&[]);
        let letters = letters_in(rest)
            .saturating_add(range.length)
            .saturating_add(1);
        naming.text.put(line.get(..length).unwrap_or(&[]));
        let names = Names {
            begun: naming.text.len().saturating_add(OPEN.len()),
            room: LETTERS.saturating_sub(letters).max(NARROW),
        };
        put_names(naming, range.start, range.end, &names);
        naming.text.put(rest);
    }
}

/// The names of a line, which begin at a byte of the text, and the letters for which there is room.
#[derive(Clone, Copy)]
struct Names {
    begun: usize,
    room: usize,
}

impl PutName for Names {
    fn put_before(&self, text: &mut Written, is_first: bool) {
        text.put(if is_first { OPEN } else { b", " });
    }

    fn put_name(&self, text: &mut Written, name: &[u8]) -> bool {
        let used = text.len().saturating_sub(self.begun);
        let room = self.room.saturating_sub(used).min(WIDE);
        if used > 0 && room < name.len().min(WIDE) {
            text.put(b"..");
            return false;
        }
        put_clipped(text, name, room);
        true
    }

    fn put_end(&self, text: &mut Written) {
        text.put(b"</tspan>");
    }
}
