//! `numaplan report --node N [--then LINE].. [FILE]..`: tells on one page all that the other words
//! tell about pages.
ghost use Rattle.std.specs.Prelude.{◌≡◌, codes};
ghost use Rattle.numa_command_line.specs.Grammar.{IsWord, report_arguments};
ghost use Rattle.clap.specs.Words.{found_of, rows_of};
ghost use Rattle.numa_command_line.specs.Asked.{work_asked};
ghost use Rattle.numa_command_line.specs.Jobs.{IsMade, work_of};
ghost use Rattle.numa_command_line.specs.declared.command.Subcommand.TheVariants as word;
ghost use Rattle.std.specs.Prelude.{true};

use crate::found::texts_at;
use crate::jobs::{JobFault, PageQuestion, ScriptJob};
use crate::usage::{Argument, FILES, SubcommandHelp, Takes};
use crate::words::asked;
use crate::words::asked::TASK;
use crate::words::lenient::LENIENT;
use crate::words::process::PROCESS;
use clap::ArgMatches;
use std::alloc::Global;

/// The option `--node N`, or `--cpu N`: a page is about one node.
const NODE: Argument = Argument {
    name: "node",
    value: "N",
    help: "The node of the CPU on which the task runs",
    is_required: true,
    takes: Takes::TextOr("cpu"),
};

/// The option `--then LINE`.
const THEN: Argument = Argument {
    name: "then",
    value: "LINE",
    help: "A script line to add, of which it is told what it changes; several are added in turn",
    is_required: false,
    takes: Takes::Texts,
};

/// The help of the subcommand.
static WORD: SubcommandHelp = SubcommandHelp {
    name: "report",
    reads_lines: true,
    line: "Writes one page for a ticket: where pages would go, why, and what lines change",
    about: "Writes one page for a ticket: where pages would go, why, and what lines change\n\n\
Example, from the top of the repository:\n  ./numaplan report --node 3 --then 'mems 0-1' \
examples/interleaved-range.numaplan > report.html",
    more: "The page is HTML that asks no network and runs no script. It says first what it is of: \
the added lines, the machine, and whose rules count. A text has the ranges, with the names of \
areas, below the rule by which each goes (of many ranges the 400 largest). Pictures show what \
`predict` answers; with --then what `diff` and `moves` answer; and, as `explain` draws it, why the \
first page of each of the four largest ranges goes where it goes. For `moves` pages lie where \
lines of the scripts leave them or, if none says where, where the task would touch them; of all \
processes of a host it is a text. Nothing is told to move where a line takes pages away.\n\n\
Lines that are faulty or refused are reported on standard \
error as by `check`, and skipped. The status is 3 if there are some, unless --lenient is given, \
and if no machine is ready after the scripts. If neither --rules nor a line says whose rules \
count, and a kernel's would give another answer, a line on standard error says so.",
    arguments: &[TASK, NODE, THEN, PROCESS, LENIENT, FILES],
};

/// The subcommand.
pub fn word() -> &'static SubcommandHelp
    ensures { IsWord (codes "report") report_arguments true result.now }
{
    &WORD
}

/// The job of a command line with this subcommand.
///
/// # Errors
/// `Usage`: `--node` is invalid, or is `all`. `NoMemory`: out of memory.
pub fn work(alloc: Global, matches: &ArgMatches<'_>) -> Result<ScriptJob, JobFault>
    ensures { IsMade work_of (work_asked word.Report (rows_of (found_of matches.now))) result }
{
    let lines = texts_at(alloc, matches, "then")?;
    asked::work(alloc, matches, PageQuestion::Report { lines })
}
