//! `numaplan predict --task T --node N [--free NODE=PAGES,..] [FILE]..`: reports where pages would
//! go after scripts.
ghost use Rattle.std.specs.Prelude.{codes};
ghost use Rattle.numa_command_line.specs.Grammar.{IsReader, predict_arguments};
ghost use Rattle.numa_command_line.specs.Grammar.{predict_formats};
ghost use Rattle.clap.specs.Words.{found_of, rows_of};
ghost use Rattle.numa_command_line.specs.Asked.{work_asked};
ghost use Rattle.numa_command_line.specs.Jobs.{IsMade, work_of};
ghost use Rattle.numa_command_line.specs.declared.command.Subcommand.TheVariants as word;

use crate::jobs::{JobFault, PageQuestion, ScriptJob};
use crate::usage::{FILES, SubcommandHelp};
use crate::words::asked;
use crate::words::asked::{NODE, TASK};
use crate::words::at::{AT, stated_unless};
use crate::words::format::{LARGEST, PREDICTED, format_in, is_page};
use crate::words::free::{FREE, named};
use crate::words::lenient::LENIENT;
use crate::words::names::NAMES;
use crate::words::process::PROCESS;
use clap::ArgMatches;
use std::alloc::Global;

/// The message for pages that are there in a page.
const NO_PAGE: &str = "error: '--at <FILE>' doesn't go with '--format html'\n";

/// The job of a command line with this subcommand.
///
/// # Errors
/// `Usage`: `--node` or `--free` is invalid, or `--at` or `--node` doesn't go with another option.
/// `NoMemory`: out of memory.
pub fn work(alloc: Global, matches: &ArgMatches<'_>) -> Result<ScriptJob, JobFault>
    ensures { IsMade work_of (work_asked word.Predict (rows_of (found_of matches.now))) result }
{
    let format = format_in(matches);
    let free = named(alloc, matches)?;
    let at = stated_unless(alloc, matches, is_page(format), NO_PAGE)?;
    asked::work(alloc, matches, PageQuestion::Predict { at, format, free })
}

/// The help of the subcommand.
static WORD: SubcommandHelp = SubcommandHelp {
    name: "predict",
    reads_lines: true,
    line: "Shows where pages would go after scripts, if a task touched them",
    about: "Shows where pages would go after scripts, if a task touched them\n\nExamples, \
from the top of the repository:\n  ./numaplan predict --node 0 \
examples/interleaved-range.numaplan\n  ./numaplan predict --task 1 --node all --free 0=2,1=0 \
examples/interleaved-range.numaplan",
    more: "All mapped pages are counted by the first node of each page's list, for each \
range and in total, as if the task touched each of them now on a CPU of the node.\n\nWith \
--at pages that are there stay: they are counted where the scripts leave them and lines `at \
START LENGTH NODE` of that file state, and take no free page; without it such lines are \
passed over.\n\nWith --free the named nodes have so many free pages, and the others never \
fill: each page, the lowest first, goes to the first node of its list that has one left; the \
answer says how many pages find none (exhausted=) and what is left on the named nodes.\n\nOf \
a host each process is answered for, in the order in which they were made, and then all \
together: the free pages are those of the whole host, and each process takes from what those \
before it left. With --process only process P is.\n\nLines that are faulty or refused are \
reported on standard error as by `check`, and skipped. The status is 3 if there are some, \
unless --lenient is given, and if no machine is ready after the scripts. If neither --rules \
nor a line says whose rules count, and a kernel's would give another answer, a line on \
standard error says so.",
    arguments: &[
        TASK, NODE, AT, PROCESS, PREDICTED, LARGEST, FREE, NAMES, LENIENT, FILES,
    ],
};

/// The subcommand.
pub fn word() -> &'static SubcommandHelp
    ensures { IsReader (codes "predict") predict_arguments predict_formats result.now }
{
    &WORD
}
