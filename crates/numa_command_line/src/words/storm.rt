//! `numaplan storm --workers K`: workers place pages while policies change.
ghost use Rattle.std.specs.Prelude.{IfOk, codes, false, option_map};
ghost use Rattle.numa_command_line.specs.Grammar.{IsWord, storm_arguments};
ghost use Rattle.numa_command_line.specs.Jobs.{CanBeDone, IsMade, doings_of, storm};
ghost use Rattle.clap.specs.Words.{found_of, rows_of};
ghost use Rattle.numa_command_line.specs.Values.{workers_in};

use crate::found::small_at;
use crate::jobs::{Job, JobFault};
use crate::usage::{Argument, SubcommandHelp, Takes};
use clap::ArgMatches;
use std::alloc::Global;

/// The message for an invalid number of workers.
const BAD_WORKERS: &str =
    "error: '--workers <K>' takes a number from 1 to 16\n\nFor more information, try \
'--help'.\n";

/// The option `--workers K`.
const WORKERS: Argument = Argument {
    name: "workers",
    value: "K",
    help: "How many workers there are, from 1 to 16",
    is_required: true,
    takes: Takes::Text,
};

/// The help of the subcommand.
static WORD: SubcommandHelp = SubcommandHelp {
    name: "storm",
    reads_lines: false,
    line: "Lets workers place pages while policies change, and compares each placement",
    about: "Lets workers place pages while policies change, and compares each \
placement\n\nExample, from the top of the repository:\n  ./numaplan storm --workers 4",
    more: "K workers, each in a thread of its own, place 320 pages on a machine of 4 nodes \
with 64 frames each, while one more thread changes the policy of their task eight times. Then \
each placement is compared with the list of nodes that the space of its version gives. Five \
lines on standard output give the number of workers, of the pages that were placed, and of \
those for which no frame was free, whether all placements match, and how many frames are held \
at the end. The status is 0 if all is as it must be in whatever order the threads ran, else \
1.",
    arguments: &[WORKERS],
};

/// The subcommand.
pub fn word() -> &'static SubcommandHelp
    ensures { IsWord (codes "storm") storm_arguments false result.now }
{
    &WORD
}

/// The job of a command line with this subcommand.
///
/// # Errors
/// `Usage`: the number of workers is invalid. `NoMemory`: out of memory.
pub fn job(alloc: Global, matches: &ArgMatches<'_>) -> Result<Job, JobFault>
    ensures can { IfOk result CanBeDone }
    ensures asked { IsMade doings_of
        (option_map storm (workers_in (rows_of (found_of matches.now)))) result }
{
    match small_at(matches, "workers") {
        Some(count) if 1 <= count && count <= 16 => Ok(Job::Storm(count)),
        _ => Err(JobFault::usage(alloc, BAD_WORKERS)),
    }
}
