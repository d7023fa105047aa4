//! The file that states where pages lie: `--at FILE`.
ghost use Rattle.std.specs.Prelude.{codes, map};
ghost use Rattle.std.specs.String.{string_bytes};
ghost use Rattle.clap.specs.Words.{found_of, rows_of};
ghost use Rattle.numa_command_line.specs.Asked.{stated_unless};
ghost use Rattle.numa_command_line.specs.Jobs.{IsMade};
ghost use Rattle.numa_command_line.specs.Values.{texts_at};

use crate::found::texts_at;
use crate::jobs::JobFault;
use crate::usage::{Argument, Takes};
use clap::ArgMatches;
use std::alloc::Global;

/// The option `--at FILE`.
pub const AT: Argument = Argument {
    name: "at",
    value: "FILE",
    help: "A file with further lines at START LENGTH NODE; - is standard input",
    is_required: false,
    takes: Takes::Text,
};

/// The files that state where pages lie; none may be named where the answer has no place for these.
///
/// # Errors
/// `Usage`, with this message: a file is named, and none may be. `NoMemory`: out of memory.
pub fn stated_unless(
    alloc: Global,
    matches: &ArgMatches<'_>,
    is_barred: bool,
    message: &str,
) -> Result<Vec<String>, JobFault>
    ensures { IsMade (λ at. map string_bytes at.items) (stated_unless is_barred
        (texts_at (codes "at") (rows_of (found_of matches.now)))) result }
{
    let at = texts_at(alloc, matches, "at")?;
    if !at.is_empty() && is_barred {
        drop(at);
        return Err(JobFault::usage(alloc, message));
    }
    Ok(at)
}
