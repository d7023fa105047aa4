//! Compared answers, as tests of the Test Anything Protocol, as lines of JSON, and as changes of
//! their files.
use crate::compared::{Worked, behind_line, line_count, line_end};
use numa_lines::{Counts, Watched};
use numa_sheets::{Format, Items, Object};
use std::alloc::{AllocError, Global};
use std::io::Write;

/// Writes bytes; a number sign, which begins a directive, behind a backslash.
fn say_words<W: Write>(told: &mut Watched<W>, words: &[u8]) {
    for byte in words {
        if *byte == b'#' {
            told.say(b"\\");
        }
        told.say(&[*byte]);
    }
}

/// Writes the lines of an answer under a name.
fn say_block<W: Write>(told: &mut Watched<W>, name: &[u8], answer: &[u8]) {
    told.say(b"  ");
    told.say(name);
    told.say(b": |\n");
    let mut rest = answer;
    for _ in 0..answer.len() {
        if rest.is_empty() {
            break;
        }
        told.say(b"    ");
        told.say(&rest[..line_end(rest)]);
        told.say(b"\n");
        rest = behind_line(rest);
    }
}

/// Writes the verdict of a test, and where it stands.
fn say_verdict<W: Write>(told: &mut Watched<W>, number: u64, is_same: bool, name: &str) {
    told.say(if is_same {
        b"ok ".as_slice()
    } else {
        b"not ok "
    });
    told.say_number(number);
    told.say(b" - ");
    say_words(told, name.as_bytes());
}

/// Writes a test: whether the answer is as wanted.
pub(crate) fn say_test<W: Write>(
    told: &mut Watched<W>,
    number: u64,
    is_same: bool,
    name: &str,
    worked: &Worked,
) {
    say_verdict(told, number, is_same, name);
    told.say(b":");
    told.say_number(worked.place);
    told.say(b" ");
    say_words(told, worked.script.as_slice());
    told.say(b"\n");
    if is_same {
        return;
    }
    told.say(b"  ---\n");
    say_block(told, b"wanted", worked.wanted.as_slice());
    say_block(told, b"got", worked.given.as_slice());
    told.say(b"  ...\n");
}

/// Writes a test that fails since a text expects no answer.
pub(crate) fn say_idle_test<W: Write>(told: &mut Watched<W>, number: u64, name: &str) {
    say_verdict(told, number, false, name);
    told.say(b": nothing is compared: no answer stands behind ' => '\n");
}

/// Writes an object as a line.
fn say_object<W: Write>(
    alloc: Global,
    told: &mut Watched<W>,
    object: Object,
) -> Result<(), AllocError> {
    let mut line = Vec::new(alloc);
    object.say_line(&mut line)?;
    told.say(line.as_slice());
    Ok(())
}

/// Writes the object of an answer: whether it is as wanted.
pub(crate) fn say_compared<W: Write>(
    alloc: Global,
    told: &mut Watched<W>,
    is_same: bool,
    name: &str,
    worked: &Worked,
) -> Result<(), AllocError> {
    let mut wanted = Items::new(alloc);
    wanted.push_lines(worked.wanted.as_slice());
    let mut given = Items::new(alloc);
    given.push_lines(worked.given.as_slice());
    let mut object = Object::new(alloc);
    object.put_text("kind", "compared");
    object.put_text("file", name);
    object.put_number("line", worked.place);
    object.put_bytes("script", worked.script.as_slice());
    object.put_items("wanted", wanted);
    object.put_items("got", given);
    object.put_flag("same", is_same);
    say_object(alloc, told, object)
}

/// Writes the object of a text that expects no answer.
pub(crate) fn say_idle_object<W: Write>(
    alloc: Global,
    told: &mut Watched<W>,
    name: &str,
) -> Result<(), AllocError> {
    let mut object = Object::new(alloc);
    object.put_text("kind", "idle");
    object.put_text("file", name);
    say_object(alloc, told, object)
}

/// Reports a text that expects no answer.
pub(crate) fn say_idle<W: Write>(told: &mut Watched<W>, name: &str) {
    told.say(name.as_bytes());
    told.say(b": nothing is compared: no answer stands behind ' => '\n");
}

/// The object of the counts; `written` lines of answers were written anew.
fn counts_object(alloc: Global, counts: Counts, written: Option<u64>) -> Object {
    let mut object = Object::new(alloc);
    object.put_text("kind", "counts");
    object.put_number("same", counts.same);
    object.put_number("different", counts.different);
    object.put_number("uncompared", counts.uncompared);
    object.put_number("idle", counts.idle);
    if let Some(written) = written {
        object.put_number("written", written);
    }
    object
}

/// Writes the line of the counts.
fn say_counts_line<W: Write>(told: &mut Watched<W>, counts: Counts, written: Option<u64>) {
    told.say_number(counts.same);
    told.say(b" as wanted, ");
    if let Some(written) = written {
        told.say_number(written);
        told.say(b" written anew, ");
    }
    told.say_number(counts.different);
    told.say(b" not, ");
    told.say_number(counts.uncompared);
    told.say(b" not compared\n");
}

/// Writes the counts; `written` lines of answers were written anew. Of tests that is their number.
pub(crate) fn say_counts<W: Write>(
    alloc: Global,
    told: &mut Watched<W>,
    format: Format,
    counts: Counts,
    tests: u64,
    written: Option<u64>,
) -> Result<(), AllocError> {
    match format {
        Format::Tap => {
            told.say(b"1..");
            told.say_number(tests);
            told.say(b"\n");
        }
        Format::Json => return say_object(alloc, told, counts_object(alloc, counts, written)),
        _ => say_counts_line(told, counts, written),
    }
    Ok(())
}

/// Writes lines, each behind a mark.
fn say_marked<W: Write>(told: &mut Watched<W>, mark: &[u8], lines: &[u8]) {
    let mut rest = lines;
    for _ in 0..lines.len() {
        if rest.is_empty() {
            break;
        }
        told.say(mark);
        told.say(&rest[..line_end(rest)]);
        told.say(b"\n");
        rest = behind_line(rest);
    }
}

/// Writes a number of lines, behind the number of the first.
fn say_span<W: Write>(told: &mut Watched<W>, mark: &[u8], place: u64, lines: &[u8]) {
    told.say(mark);
    told.say_number(place);
    told.say(b",");
    told.say_number(line_count(lines));
}

/// Writes a change of a file in the unified form: which lines stand in place of which others, each
/// with the number of its first.
pub(crate) fn say_change<W: Write>(
    told: &mut Watched<W>,
    old_place: u64,
    old: &[u8],
    new_place: u64,
    new: &[u8],
) {
    say_span(told, b"@@ -", old_place, old);
    say_span(told, b" +", new_place, new);
    told.say(b" @@\n");
    say_marked(told, b"-", old);
    say_marked(told, b"+", new);
}

/// Writes the name of a file before its changes.
pub(crate) fn say_changed<W: Write>(told: &mut Watched<W>, name: &str) {
    told.say(b"--- ");
    told.say(name.as_bytes());
    told.say(b"\n+++ ");
    told.say(name.as_bytes());
    told.say(b"\n");
}
