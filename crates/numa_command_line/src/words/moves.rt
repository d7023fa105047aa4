//! `numaplan moves --then LINE [FILE]..`: reports what becomes of pages that are there.
ghost use Rattle.std.specs.Prelude.{codes};
ghost use Rattle.numa_command_line.specs.Grammar.{IsReader, drawn_formats, moves_arguments};
ghost use Rattle.clap.specs.Words.{found_of, rows_of};
ghost use Rattle.numa_command_line.specs.Asked.{work_asked};
ghost use Rattle.numa_command_line.specs.Jobs.{IsMade, work_of};
ghost use Rattle.numa_command_line.specs.declared.command.Subcommand.TheVariants as word;

use crate::found::{is_on, texts_at};
use crate::jobs::{JobFault, ScriptJob};
use crate::usage::{Argument, FILES, SubcommandHelp, Takes};
use crate::words::asked::one_touch_in;
use crate::words::at::AT;
use crate::words::format::{DRAWN_TOO, LARGEST, format_in};
use crate::words::free::named;
use crate::words::lenient::LENIENT;
use crate::words::names::NAMES;
use crate::words::process::PROCESS;
use clap::ArgMatches;
use std::alloc::Global;

/// The job of a command line with this subcommand.
///
/// # Errors
/// `Usage`: `--free` is invalid. `NoMemory`: out of memory.
pub fn work(alloc: Global, matches: &ArgMatches<'_>) -> Result<ScriptJob, JobFault>
    ensures { IsMade work_of (work_asked word.Moves (rows_of (found_of matches.now))) result }
{
    let free = named(alloc, matches)?;
    let at = texts_at(alloc, matches, "at")?;
    let lines = texts_at(alloc, matches, "then")?;
    Ok(ScriptJob::Moves {
        at,
        lines,
        asked: one_touch_in(matches),
        free,
        format: format_in(matches),
        lenient: is_on(matches, "lenient"),
        names: is_on(matches, "names"),
    })
}

/// The option `--task T`.
const TASK: Argument = Argument {
    name: "task",
    value: "T",
    help: "The task that would touch the pages; it may be left out where scripts name one \
task or none",
    is_required: false,
    takes: Takes::Number,
};

/// The option `--node N`, or `--cpu N`.
const NODE: Argument = Argument {
    name: "node",
    value: "N",
    help: "Pages lie where the task would touch them on a CPU of this node, and not where \
lines at put them",
    is_required: false,
    takes: Takes::NumberOr("cpu"),
};

/// The option `--then LINE`.
const THEN: Argument = Argument {
    name: "then",
    value: "LINE",
    help: "A line that moves pages: mems, migrate FROM TO, cgroup-mems or attach; several in \
turn",
    is_required: true,
    takes: Takes::Texts,
};

/// The option `--free NODE=PAGES,..`.
const FREE: Argument = Argument {
    name: "free",
    value: "NODE=PAGES,..",
    help: "How many more pages these nodes take; with K, M, G or T after it a number is in \
bytes",
    is_required: false,
    takes: Takes::Text,
};

/// The help of the subcommand.
static WORD: SubcommandHelp = SubcommandHelp {
    name: "moves",
    reads_lines: true,
    line: "Shows what becomes of pages that are there when lines move them",
    about: "Shows what becomes of pages that are there when lines move them\n\nExamples, from \
the top of the repository:\n  ./numaplan moves --node 0 --then 'mems 0-1' \
examples/interleaved-range.numaplan\n  ./numaplan moves --at examples/interleaved-range.at \
--free 0=3 --then 'mems 0-1' examples/interleaved-range.numaplan",
    more: "Pages move when the nodes change on which they may lie, or when someone migrates \
them. For each range, and in total, it counts those that go from one node to another \
(N2->N0=), that need not go (stays=), and that find no room (noroom=). A line of --then is \
`mems LIST`, which moves pages as a control group of version 2 does; `migrate FROM TO`, two \
lists of nodes, as migrate_pages(2) does; or in a host `cgroup-mems`, `attach`, or `in P \
migrate ..`.\n\nPages lie where the scripts leave them (at, populate, moves), and then where \
lines `at START LENGTH NODE` of the file of --at state, in a host `in P at ..`; with --node \
where the task would touch them on a CPU of node N, while every node had room. Nodes take as \
many more pages as the scripts leave (room), and with --free the named ones so many; the \
others never fill. Nodes are emptied one by one, the lowest pages first, and a node that fills \
ends the move. Of a host each process is answered for, in the order in which they were made, \
and then all together; with --process only process P is.\n\nLines that are faulty or refused \
are reported on standard error as by `check`, and skipped. The status is 3 if there are some, \
unless --lenient is given, and if no machine is ready after the scripts. If neither --rules \
nor a line says whose rules count, and a kernel's would give another answer, a line on standard \
error says so.",
    arguments: &[
        AT, TASK, NODE, THEN, FREE, PROCESS, DRAWN_TOO, LARGEST, NAMES, LENIENT, FILES,
    ],
};

/// The subcommand.
pub fn word() -> &'static SubcommandHelp
    ensures { IsReader (codes "moves") moves_arguments drawn_formats result.now }
{
    &WORD
}
