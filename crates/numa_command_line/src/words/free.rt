//! The number of free pages of nodes: `--free NODE=PAGES,..`.
ghost use Rattle.std.specs.Prelude.{◌≡◌, ◌==◌, [], IfOk, option_map};
ghost use Rattle.std.specs.List.{list_any};
ghost use Rattle.clap.specs.Words.{found_of, rows_of};
ghost use Rattle.numa_command_line.specs.Jobs.{IsMade};
ghost use Rattle.numa_command_line.specs.Values.{free_in, frees_in, frees_from};
ghost use Rattle.numa_mask.specs.Parts.{parts_of};

use crate::found::text_at;
use crate::jobs::JobFault;
use crate::sizes::pages_of;
use crate::usage::{Argument, Takes};
use clap::ArgMatches;
use numa_mask::Parts;
use numa_script::number::node;
use numa_script::parts::items;
use numa_sheets::FreePages;
use std::alloc::{AllocError, Global};

/// The message for an invalid value.
const BAD: &str =
    "error: '--free <NODE=PAGES,..>': nodes from 0 to 255, each once, with numbers of pages, or of \
bytes in K, M, G or T that make whole pages, as in 0=1000,1=4G\n";

/// The option `--free NODE=PAGES,..`.
pub const FREE: Argument = Argument {
    name: "free",
    value: "NODE=PAGES,..",
    help: "How many pages are free on these nodes; with K, M, G or T after it a number is in \
bytes",
    is_required: false,
    takes: Takes::Text,
};

/// One node with its free pages.
fn one(text: &[u8]) -> Option<FreePages>
    ensures { result ≡ free_in text.now }
{
    let mut parts = Parts::new(text, b'=');
    let (Some(name), Some(size)) = (parts.next(), parts.next()) else {
        return None;
    };
    if parts.next().is_some() {
        return None;
    }
    let Some(node) = node(name) else {
        return None;
    };
    let Some(pages) = pages_of(size) else {
        return None;
    };
    Some(FreePages { node, pages })
}

/// Whether the node is named.
fn has(named: &[FreePages], node: u8) -> bool
    ensures { result ≡ list_any (λ one. one.node == node) named.now }
{
    named.iter().any(|one| one.node == node)
}

/// The nodes that a text names; `None` if it is invalid.
fn read(alloc: Global, text: &str) -> Result<Option<Vec<FreePages>>, AllocError>
    ensures { IfOk result (λ read. option_map (λ named. named.items) read
        ≡ frees_from [] (parts_of 44 text.now)) }
{
    let mut named = Vec::new(alloc);
    for part in items(text.as_bytes()) {
        let Some(one) = one(part) else {
            return Ok(None);
        };
        if has(&named, one.node) {
            return Ok(None);
        }
        named.push(one)?;
    }
    Ok(Some(named))
}

/// The named nodes and their free pages; none without the option.
///
/// # Errors
/// `Usage`: the option is invalid. `NoMemory`: out of memory.
pub fn named(alloc: Global, matches: &ArgMatches<'_>) -> Result<Vec<FreePages>, JobFault>
    ensures { IsMade (λ named. named.items) (frees_in (rows_of (found_of matches.now))) result }
{
    let Some(text) = text_at(matches, "free") else {
        return Ok(Vec::new(alloc));
    };
    match read(alloc, text)? {
        Some(named) => Ok(named),
        None => Err(JobFault::usage(alloc, BAD)),
    }
}
