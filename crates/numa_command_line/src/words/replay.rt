//! `numaplan replay --trace TRACE [--free NODE=PAGES,..] [--mean] [--ranges] [FILE]..`: replays
//! a trace of accesses.
ghost use Rattle.std.specs.Prelude.{codes};
ghost use Rattle.numa_command_line.specs.Grammar.{IsReader, replay_arguments};
ghost use Rattle.numa_command_line.specs.Grammar.{replay_formats};
ghost use Rattle.clap.specs.Words.{found_of, rows_of};
ghost use Rattle.numa_command_line.specs.Asked.{work_asked};
ghost use Rattle.numa_command_line.specs.Jobs.{IsMade, work_of};
ghost use Rattle.numa_command_line.specs.declared.command.Subcommand.TheVariants as word;

use crate::found::{is_on, texts_at};
use crate::jobs::{JobFault, ScriptJob};
use crate::usage::{Argument, FILES, SubcommandHelp, Takes};
use crate::words::format::{LARGEST, REPLAYED, format_in};
use crate::words::free::named;
use crate::words::lenient::LENIENT;
use crate::words::process::PROCESS;
use clap::ArgMatches;
use std::alloc::Global;

/// The job of a command line with this subcommand.
///
/// # Errors
/// `Usage`: `--free` is invalid. `NoMemory`: out of memory.
pub fn work(alloc: Global, matches: &ArgMatches<'_>) -> Result<ScriptJob, JobFault>
    ensures { IsMade work_of (work_asked word.Replay (rows_of (found_of matches.now))) result }
{
    let free = named(alloc, matches)?;
    let trace = texts_at(alloc, matches, "trace")?;
    Ok(ScriptJob::Replay {
        trace,
        free,
        format: format_in(matches),
        mean: is_on(matches, "mean"),
        ranges: is_on(matches, "ranges"),
        lenient: is_on(matches, "lenient"),
    })
}

/// The option `--trace TRACE`.
const TRACE: Argument = Argument {
    name: "trace",
    value: "TRACE",
    help: "The file of the trace; - is standard input",
    is_required: true,
    takes: Takes::Text,
};

/// The option `--free NODE=PAGES,..`.
const FREE: Argument = Argument {
    name: "free",
    value: "NODE=PAGES,..",
    help: "Pages take room, not frames: these nodes have so much; with K, M, G or T after it a \
number is in bytes",
    is_required: false,
    takes: Takes::Text,
};

/// The option `--mean`.
const MEAN: Argument = Argument {
    name: "mean",
    value: "",
    help: "Tells the mean distance of accesses too",
    is_required: false,
    takes: Takes::Nothing,
};

/// The option `--ranges`.
const RANGES: Argument = Argument {
    name: "ranges",
    value: "",
    help: "Tells by range too, the busiest first",
    is_required: false,
    takes: Takes::Nothing,
};

/// The help of the subcommand.
static WORD: SubcommandHelp = SubcommandHelp {
    name: "replay",
    reads_lines: true,
    line: "Shows where the accesses of a trace go after scripts",
    about: "Shows where the accesses of a trace go after scripts\n\nExamples, from the top of \
the repository:\n  ./numaplan replay --trace examples/replayed.trace \
examples/interleaved-range.numaplan\n  ./numaplan replay --format json --trace \
examples/replayed.trace examples/interleaved-range.numaplan\n  ./numaplan replay --free \
0=8K,2=1G --trace examples/phases.trace examples/interleaved-range.numaplan",
    more: "The trace is replayed after the scripts, on the frames of their machine, where no \
page is placed yet: the first touch of a page places it on the first node of its list that \
has a frame left, and later accesses go to where it lies. By task, and in total, it counts \
the accesses by node (N0=) and by distance (D10=), the faults that placed a page (placed=) or \
found no frame (exhausted=), and the accesses that these left unserved (unserved=). With \
--mean it tells the mean distance of accesses that went to a page (mean=), to a \
thousandth, and with --ranges the same by range, the busiest first.\n\nWith --free, and where \
no node has a frame (FRAMES 0), pages take room instead, as those of `populate` do: the named \
nodes have so much and the others never fill, or nodes have what lines `room` of the scripts \
left. Pages that lie somewhere after the \
scripts stay there.\n\nA \
line of the trace is TASK ADDRESS CPU [COUNT], in decimal or 0x; empty lines and those that \
begin with # are skipped. A line mark TEXT closes a phase: totals are given by phase and in \
all. Where pages take room, a line do LINE carries out a line of scripts: what it changes \
counts from there on, and pages that it moves are counted where they lie then. Of a host a \
line is in P TASK ADDRESS CPU [COUNT]: each process is answered for, and then all together, and \
all take the same frames or the same room; or with --process process P alone, whose lines need \
not name it.\n\nScript lines that are faulty or refused are \
reported on standard error as by `check`, and skipped. The status is 3 if there are some, \
unless --lenient is given, if no machine is ready after the scripts, if a line of the trace \
can't be replayed, and if pages take room and none finds any. If neither --rules nor a line \
says whose rules count, and a kernel's would give another answer, a line on standard error \
says so.",
    arguments: &[
        TRACE, FREE, MEAN, RANGES, PROCESS, REPLAYED, LARGEST, LENIENT, FILES,
    ],
};

/// The subcommand.
pub fn word() -> &'static SubcommandHelp
    ensures { IsReader (codes "replay") replay_arguments replay_formats result.now }
{
    &WORD
}
