//! Bytes as text.

use std::alloc::{AllocError, Global};

/// Appends each byte as a character, and U+FFFD for one that isn't ASCII.
fn put_ascii(text: &mut String, bytes: &[u8]) -> Result<(), AllocError> {
    for byte in bytes {
        let letter = if byte.is_ascii() {
            char::from(*byte)
        } else {
            '\u{FFFD}'
        };
        text.push(letter)?;
    }
    Ok(())
}

/// Bytes as a text. If they aren't UTF-8, U+FFFD stands for each that isn't ASCII.
pub(crate) fn text_of(alloc: Global, bytes: &[u8]) -> Result<String, AllocError> {
    if let Ok(text) = str::from_utf8(bytes) {
        return String::from_str(alloc, text);
    }
    let mut text = String::new(alloc);
    match put_ascii(&mut text, bytes) {
        Ok(()) => Ok(text),
        Err(fault) => Err(fault),
    }
}
