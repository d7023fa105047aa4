//! Messages about lines, as text or as lines of JSON.
ghost use Rattle.std.specs.Prelude.{◌≤◌, length};

use crate::named::TasksNamed;
use numa_diagnose::{
    BINARY, Finding, HostHint, LineAt, say_binary, say_finding, say_hint_line, say_line,
};
use numa_rules::{Text, say_otherwise};
use numa_sheets::Object;
use std::alloc::{AllocError, Global};

/// What a message says of a line, or of the text that begins with it.
#[derive(Clone, Copy)]
pub(crate) enum Said<'a> {
    /// What is wrong with the line.
    Fault(&'a Finding),
    /// That the text is binary, at this column.
    Binary(u64),
    /// What a running kernel would do differently with the line.
    Hint(&'a HostHint),
}

/// A message about a line.
#[derive(Clone, Copy)]
pub(crate) struct Message<'a> {
    pub(crate) at: LineAt<'a>,
    pub(crate) said: Said<'a>,
}

/// Appends a message as text.
///
/// # Errors
/// `AllocError`: out of memory. A part may have been appended.
pub(crate) fn say_message(text: &mut Vec<u8>, message: Message<'_>) -> Result<(), AllocError> {
    match message.said {
        Said::Fault(finding) => say_line(text, message.at, finding),
        Said::Binary(column) => say_binary(text, message.at, column),
        Said::Hint(hint) => say_hint_line(text, message.at, hint),
    }
}

/// What a message says of a line, behind where that stands.
pub(crate) fn words_of(message: &[u8]) -> &[u8] {
    for place in 0..message.len() {
        if let Some(words) = message[place..].strip_prefix(b": ") {
            return words.strip_suffix(b"\n").unwrap_or(words);
        }
    }
    message
}

/// The number of bytes before the first `: `, or all.
fn answer_end(text: &[u8]) -> usize
    ensures { result ≤ length text.now }
{
    for place in 0..text.len() {
        if text[place..].starts_with(b": ") {
            return place;
        }
    }
    text.len()
}

/// The kind of the object of a message.
fn kind_of(said: Said<'_>) -> &'static str {
    match said {
        Said::Hint(_) => "hint",
        _ => "fault",
    }
}

/// Adds the process of a host, if there is one.
fn put_process(object: &mut Object, process: Option<u32>) {
    if let Some(process) = process {
        object.put_number("process", u64::from(process));
    }
}

/// Adds an answer, and its cause, which follows behind `: `.
fn put_parts(object: &mut Object, said: &[u8]) {
    let end = answer_end(said);
    object.put_bytes("answer", &said[..end]);
    object.put_bytes("cause", said[end..].strip_prefix(b": ").unwrap_or(&[]));
}

/// Adds what is wrong with a line, as [`say_line`] says it.
fn put_finding(alloc: Global, object: &mut Object, finding: &Finding) -> Result<(), AllocError> {
    let mut said = Vec::new(alloc);
    if let Err(fault) = say_finding(&mut said, finding) {
        return Err(fault);
    }
    if let Some(column) = finding.detail.column() {
        object.put_number("column", column as u64);
    }
    put_process(object, finding.process);
    put_parts(object, said.as_slice());
    Ok(())
}

/// Adds that a text is binary, as [`say_binary`] says it.
fn put_binary(object: &mut Object, column: u64) {
    object.put_number("column", column);
    object.put_text("answer", "bad words");
    object.put_text("cause", BINARY);
}

/// Adds what a running kernel would do differently with a line, as [`say_hint_line`] says it.
fn put_hint(alloc: Global, object: &mut Object, hint: &HostHint) -> Result<(), AllocError> {
    let mut said = Vec::new(alloc);
    if let Err(fault) = say_otherwise(&mut said, &hint.otherwise) {
        return Err(fault);
    }
    put_process(object, hint.process);
    object.put_bytes("cause", said.as_slice());
    Ok(())
}

/// Adds what a message says.
fn put_said(alloc: Global, object: &mut Object, said: Said<'_>) -> Result<(), AllocError> {
    match said {
        Said::Fault(finding) => put_finding(alloc, object, finding),
        Said::Binary(column) => {
            put_binary(object, column);
            Ok(())
        }
        Said::Hint(hint) => put_hint(alloc, object, hint),
    }
}

/// Appends a message as an object.
///
/// # Errors
/// `AllocError`: out of memory. A part may have been appended.
pub(crate) fn put_message(
    alloc: Global,
    text: &mut Vec<u8>,
    message: Message<'_>,
) -> Result<(), AllocError> {
    let mut object = Object::new(alloc);
    object.put_text("kind", kind_of(message.said));
    object.put_text("file", message.at.name);
    object.put_number("line", message.at.place);
    match put_said(alloc, &mut object, message.said) {
        Ok(()) => object.say_line(text),
        Err(fault) => {
            drop(object);
            Err(fault)
        }
    }
}

/// Appends an object with the number of lines that weren't judged.
///
/// # Errors
/// `AllocError`: out of memory. A part may have been appended.
pub(crate) fn put_unjudged(
    alloc: Global,
    text: &mut Vec<u8>,
    count: u64,
) -> Result<(), AllocError> {
    let mut object = Object::new(alloc);
    object.put_text("kind", "unjudged");
    object.put_number("lines", count);
    object.say_line(text)
}

/// Appends that lines name these tasks, and not this one.
pub(crate) fn say_unnamed(
    text: &mut Vec<u8>,
    task: u32,
    tasks: TasksNamed,
) -> Result<(), AllocError> {
    let mut written = Text::of(text);
    written.put_number("task ", u64::from(task));
    written.put(" has no policy: no line names it");
    match tasks {
        TasksNamed::Nobody => {}
        TasksNamed::One(first) => written.put_number("; lines name task ", u64::from(first)),
        TasksNamed::Several(first, second) => {
            written.put_number("; lines name tasks, as ", u64::from(first));
            written.put_number(" and ", u64::from(second));
        }
    }
    written.put("\n");
    written.end(text)
}
