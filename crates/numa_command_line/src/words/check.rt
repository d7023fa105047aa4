//! `numaplan check [FILE]..`: reports what is wrong with scripts.
ghost use Rattle.std.specs.Prelude.{codes};
ghost use Rattle.numa_command_line.specs.Grammar.{IsReader, check_arguments, plain_formats};

use crate::usage::{FILES, SubcommandHelp};
use crate::words::format::PLAIN;
use crate::words::process::PROCESS;

/// The help of the subcommand.
static WORD: SubcommandHelp = SubcommandHelp {
    name: "check",
    reads_lines: true,
    line: "Reports what is wrong with scripts, and what to do about it",
    about: "Reports what is wrong with scripts, and what to do about it\n\nExamples, from the \
top of the repository:\n  ./numaplan check examples/why-refused.numaplan\n  ./numaplan check \
--format json examples/why-refused.numaplan",
    more: "No answers are written. For each line that `run` answers by a fault or a refusal, \
standard output gets one line: the file, the line, for bad words the column in bytes, the \
answer, and its cause with what to do. Lines that need a machine while none is ready are \
counted at the end. A binary file is reported once.\n\nOf a host's script the process of a \
line is named too; with --process only what is wrong with the lines of process P is reported. \
The status is 3 if anything was reported, else 0.",
    arguments: &[PLAIN, PROCESS, FILES],
};

/// The subcommand.
pub fn word() -> &'static SubcommandHelp
    ensures { IsReader (codes "check") check_arguments plain_formats result.now }
{
    &WORD
}
