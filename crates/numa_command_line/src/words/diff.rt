//! `numaplan diff --task T --node N --then LINE [FILE]..`: reports which pages would go elsewhere.
ghost use Rattle.std.specs.Prelude.{codes};
ghost use Rattle.numa_command_line.specs.Grammar.{IsReader, diff_arguments, diff_formats};
ghost use Rattle.clap.specs.Words.{found_of, rows_of};
ghost use Rattle.numa_command_line.specs.Asked.{work_asked};
ghost use Rattle.numa_command_line.specs.Jobs.{IsMade, work_of};
ghost use Rattle.numa_command_line.specs.declared.command.Subcommand.TheVariants as word;

use crate::found::texts_at;
use crate::jobs::{JobFault, PageQuestion, ScriptJob};
use crate::usage::{Argument, FILES, SubcommandHelp, Takes};
use crate::words::asked;
use crate::words::asked::{NODE, TASK};
use crate::words::at::{AT, stated_unless};
use crate::words::format::{COMPARED, LARGEST, format_in, is_drawn};
use crate::words::lenient::LENIENT;
use crate::words::names::NAMES;
use crate::words::process::PROCESS;
use clap::ArgMatches;
use std::alloc::Global;

/// The message for pages that are there in a picture or a page.
const NOT_DRAWN: &str = "error: '--at <FILE>' wants '--format text' or '--format json'\n";

/// The job of a command line with this subcommand.
///
/// # Errors
/// `Usage`: `--node` is invalid, or `--at` or `--node` wants another format. `NoMemory`: out of
/// memory.
pub fn work(alloc: Global, matches: &ArgMatches<'_>) -> Result<ScriptJob, JobFault>
    ensures { IsMade work_of (work_asked word.Diff (rows_of (found_of matches.now))) result }
{
    let format = format_in(matches);
    let at = stated_unless(alloc, matches, is_drawn(format), NOT_DRAWN)?;
    let lines = texts_at(alloc, matches, "then")?;
    asked::work(alloc, matches, PageQuestion::Diff { at, lines, format })
}

/// The option `--then LINE`.
const THEN: Argument = Argument {
    name: "then",
    value: "LINE",
    help: "A script line to add; several are added in turn",
    is_required: true,
    takes: Takes::Texts,
};

/// The help of the subcommand.
static WORD: SubcommandHelp = SubcommandHelp {
    name: "diff",
    reads_lines: true,
    line: "Shows which pages would go elsewhere if lines were added to scripts",
    about: "Shows which pages would go elsewhere if lines were added to scripts\n\nExamples, \
from the top of the repository:\n  ./numaplan diff --node 0 --then 'mems 0' \
examples/interleaved-range.numaplan\n  ./numaplan diff --task 1 --node all --then 'task 1 \
bind:2' examples/before-a-node-goes.numaplan",
    more: "Pages that are there don't move by it: it compares first touches after the lines \
with those before them, and `moves` shows what becomes of pages that are there. For each \
span of pages, and in total, it counts those that would go to another node (differs=), by \
node, if the task touched each page on a CPU of the node. Pages that are mapped only before \
or only after are left out.\n\nWith --at it then shows what becomes of pages that are there, \
as `moves` does: they lie as the scripts leave them and lines `at START LENGTH NODE` of that \
file state, and lines `migrate FROM TO` move them too; without it such lines of the scripts \
are passed over. Of a host each process is answered for, in the order in which they were \
made, and then all together; with --process only process P is.\n\nLines that are faulty or \
refused are reported on standard error as by `check`, and skipped. The status is 3 if there \
are some, unless --lenient is given, and if no machine is ready after the scripts. If \
neither --rules nor a line says whose rules count, and a kernel's would give another answer, \
a line on standard error says so.",
    arguments: &[
        TASK, NODE, THEN, AT, PROCESS, COMPARED, LARGEST, NAMES, LENIENT, FILES,
    ],
};

/// The subcommand.
pub fn word() -> &'static SubcommandHelp
    ensures { IsReader (codes "diff") diff_arguments diff_formats result.now }
{
    &WORD
}
