//! Lines of a text in memory, as strings.
use std::alloc::{AllocError, Global};

/// A line whose bytes above 127 are replaced by question marks.
fn ascii_of(alloc: Global, line: &[u8]) -> Result<String, AllocError> {
    let mut text = String::new(alloc);
    for byte in line {
        let letter = if *byte < 128 { *byte as char } else { '?' };
        text.push(letter)?;
    }
    Ok(text)
}

/// A line as a string. Bytes above 127 of a line that isn't UTF-8 become question marks: no word of
/// the language has them.
fn string_of(alloc: Global, line: &[u8]) -> Result<String, AllocError> {
    match str::from_utf8(line) {
        Ok(text) => String::from_str(alloc, text),
        Err(_) => ascii_of(alloc, line),
    }
}

/// Appends a line.
fn push_line(alloc: Global, lines: &mut Vec<String>, line: &[u8]) -> Result<(), AllocError> {
    let text = string_of(alloc, line)?;
    match lines.push(text) {
        Ok(()) => Ok(()),
        Err(_) => Err(AllocError),
    }
}

/// Appends the lines of a text.
fn push_lines(alloc: Global, lines: &mut Vec<String>, text: &[u8]) -> Result<(), AllocError> {
    for line in text.split(|byte| *byte == b'\n') {
        push_line(alloc, lines, line)?;
    }
    Ok(())
}

/// The lines of a text; the last may be empty.
pub(crate) fn lines_of(alloc: Global, text: &[u8]) -> Result<Vec<String>, AllocError> {
    let mut lines = Vec::new(alloc);
    match push_lines(alloc, &mut lines, text) {
        Ok(()) => Ok(lines),
        Err(fault) => {
            drop(lines);
            Err(fault)
        }
    }
}
