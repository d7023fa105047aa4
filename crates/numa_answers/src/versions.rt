//! Answers without the numbers of versions.
use std::alloc::AllocError;

/// Whether a text begins with an answer whose number is a version: `ok 1`, `published 1`.
fn counts(text: &[u8]) -> bool {
    text.starts_with(b"ok ") || text.starts_with(b"published ")
}

/// Appends answers, which are whole lines, without the numbers of versions: without the digits
/// behind a `v` that begins a word, and behind `ok ` and `published ` at the beginning of a line.
///
/// # Errors
/// `AllocError`: out of memory; a part may have been appended.
pub(crate) fn put_without_versions(text: &mut Vec<u8>, answers: &[u8]) -> Result<(), AllocError> {
    let mut before = b'\n';
    let mut is_count = false;
    let mut drops = false;
    for place in 0..answers.len() {
        let byte = answers[place];
        if before == b'\n' {
            is_count = counts(&answers[place..]);
        }
        if !drops || !byte.is_ascii_digit() {
            let begins = before == b' ' || before == b'\n';
            drops = (begins && byte == b'v') || (is_count && byte == b' ');
            text.push(byte)?;
        }
        before = byte;
    }
    Ok(())
}
