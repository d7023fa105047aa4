//! Scripts and traces in memory, as texts with names.

use numa_machine::Rules;
use numa_play::Scripts;
use std::alloc::{AllocError, Global};

/// A script in memory: its text, lines that stand behind it, and the rules that apply unless a line
/// says otherwise. Messages call the text `-` and the lines `--then`, as the program does.
#[derive(Clone, Copy)]
pub struct ScriptText<'a> {
    pub text: &'a [u8],
    pub then: &'a [u8],
    pub rules: Rules,
}

/// Appends a text with its name.
fn push_text<'a>(
    alloc: Global,
    texts: &mut Vec<(String, &'a [u8])>,
    name: &str,
    text: &'a [u8],
) -> Result<(), AllocError> {
    let name = String::from_str(alloc, name)?;
    match texts.push((name, text)) {
        Ok(()) => Ok(()),
        Err(_) => Err(AllocError),
    }
}

/// A text under its name.
pub(crate) fn named<'a>(
    alloc: Global,
    name: &str,
    text: &'a [u8],
) -> Result<Vec<(String, &'a [u8])>, AllocError> {
    let mut texts = Vec::new(alloc);
    match push_text(alloc, &mut texts, name, text) {
        Ok(()) => Ok(texts),
        Err(fault) => {
            drop(texts);
            Err(fault)
        }
    }
}

/// A script's text, and behind it its lines.
fn texts_of<'a>(
    alloc: Global,
    script: ScriptText<'a>,
) -> Result<Vec<(String, &'a [u8])>, AllocError> {
    let mut texts = named(alloc, "-", script.text)?;
    match push_text(alloc, &mut texts, "--then", script.then) {
        Ok(()) => Ok(texts),
        Err(fault) => {
            drop(texts);
            Err(fault)
        }
    }
}

/// A script with its lines, to be read in order.
pub(crate) fn scripts_of<'a>(
    alloc: Global,
    script: ScriptText<'a>,
) -> Result<Scripts<&'a [u8]>, AllocError> {
    match texts_of(alloc, script) {
        Ok(texts) => Ok(Scripts {
            texts,
            rules: script.rules,
            process: None,
        }),
        Err(fault) => Err(fault),
    }
}

/// The text alone, to be read before its lines are added.
pub(crate) fn first_of<'a>(
    alloc: Global,
    script: ScriptText<'a>,
) -> Result<Scripts<&'a [u8]>, AllocError> {
    match named(alloc, "-", script.text) {
        Ok(texts) => Ok(Scripts {
            texts,
            rules: script.rules,
            process: None,
        }),
        Err(fault) => Err(fault),
    }
}
