//! Which process of a host is asked for: `--process P`, or `--process all`.
ghost use Rattle.std.specs.Prelude.{◌≡◌};
ghost use Rattle.clap.specs.Words.{found_of, rows_of};
ghost use Rattle.numa_command_line.specs.Jobs.{IsMade};
ghost use Rattle.numa_command_line.specs.Values.{process_in, process_named};

use crate::found::text_at;
use crate::jobs::JobFault;
use crate::usage::{Argument, Takes};
use clap::ArgMatches;
use numa_script::number::small;
use std::alloc::Global;

/// The message for an invalid process.
const BAD_PROCESS: &str =
    "error: '--process <P>' takes a number below 2^32, decimal or 0x and hexadecimal, or all\n\n\
For more information, try '--help'.\n";

/// The option `--process P` of a subcommand that asks about the state after scripts.
pub const PROCESS: Argument = Argument {
    name: "process",
    value: "P",
    help: "Asks about process P of a host only; without it, or with all, about each process",
    is_required: false,
    takes: Takes::Text,
};

/// The process with this name, or none for `all`; `None` if it is invalid.
fn process_named(name: &str) -> Option<Option<u32>>
    ensures { result ≡ process_named name.now }
{
    if name == "all" {
        return Some(None);
    }
    match small(name.as_bytes()) {
        Some(process) => Some(Some(process)),
        None => None,
    }
}

/// The process that is asked for, if one is named.
///
/// # Errors
/// `Usage`: it is invalid. `NoMemory`: out of memory.
pub fn process_in(alloc: Global, matches: &ArgMatches<'_>) -> Result<Option<u32>, JobFault>
    ensures { IsMade (λ process. process) (process_in (rows_of (found_of matches.now))) result }
{
    let Some(name) = text_at(matches, "process") else {
        return Ok(None);
    };
    match process_named(name) {
        Some(process) => Ok(process),
        None => Err(JobFault::usage(alloc, BAD_PROCESS)),
    }
}
