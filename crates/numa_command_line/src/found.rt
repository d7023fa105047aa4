//! The values of arguments in a parse.
ghost use Rattle.std.specs.Prelude.{◌≡◌, ◌++◌, IfOk, OnOk, map, option_map};
ghost use Rattle.std.specs.String.{string_bytes};
ghost use Rattle.clap.specs.Words.{first_of, found_of, rows_of};
ghost use Rattle.numa_command_line.specs.Values.{is_on, small_at, texts_at};

use clap::ArgMatches;
use std::alloc::{AllocError, Global};

/// Appends copies of texts.
fn add_texts(alloc: Global, said: &[&str], texts: &mut Vec<String>) -> Result<(), AllocError>
    ensures { OnOk result (map string_bytes texts.new.items
        ≡ map string_bytes texts.old.items ++ map (λ text. text.now) said.now) }
{
    for text in said {
        texts.push(String::from_str(alloc, text)?)?;
    }
    Ok(())
}

/// Copies of texts.
fn copies(alloc: Global, said: &[&str]) -> Result<Vec<String>, AllocError>
    ensures { IfOk result (λ texts. map string_bytes texts.items
        ≡ map (λ text. text.now) said.now) }
{
    let mut texts = Vec::new(alloc);
    match add_texts(alloc, said, &mut texts) {
        Ok(()) => Ok(texts),
        Err(error) => Err(error),
    }
}

/// The values of an argument, as given.
///
/// # Errors
/// `AllocError`: out of memory.
pub fn texts_at(
    alloc: Global,
    matches: &ArgMatches<'_>,
    id: &str,
) -> Result<Vec<String>, AllocError>
    ensures { IfOk result (λ texts. map string_bytes texts.items
        ≡ texts_at id.now (rows_of (found_of matches.now))) }
{
    match matches.get_strs(id) {
        Some(said) => copies(alloc, said),
        None => Ok(Vec::new(alloc)),
    }
}

/// The first value of an argument, as given.
pub fn text_at<'a>(matches: &ArgMatches<'a>, id: &str) -> Option<&'a str>
    ensures { option_map (λ text. text.now) result
        ≡ first_of id.now (rows_of (found_of matches.now)) }
{
    matches.get_str(id)
}

/// Whether a flag is given.
pub fn is_on(matches: &ArgMatches<'_>, id: &str) -> bool
    ensures { result ≡ is_on id.now (rows_of (found_of matches.now)) }
{
    match text_at(matches, id) {
        Some(text) => text == "true",
        None => false,
    }
}

/// The value of an argument, if it is a number below 2^32.
pub fn small_at(matches: &ArgMatches<'_>, id: &str) -> Option<u32>
    ensures { result ≡ small_at id.now (rows_of (found_of matches.now)) }
{
    matches.get_one(id)
}
