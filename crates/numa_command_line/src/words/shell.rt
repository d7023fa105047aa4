//! `numaplan shell [FILE]..`: answers the lines that are typed.
ghost use Rattle.std.specs.Prelude.{codes, true};
ghost use Rattle.numa_command_line.specs.Grammar.{IsWord, shell_arguments};

use crate::usage::{FILES, SubcommandHelp};
use crate::words::process::PROCESS;

/// The help of the subcommand.
static WORD: SubcommandHelp = SubcommandHelp {
    name: "shell",
    reads_lines: true,
    line: "Answers lines as they are typed, after scripts",
    about: "Answers lines as they are typed, after scripts\n\nExample, from the top of the \
repository:\n  ./numaplan shell examples/interleaved-range.numaplan",
    more: "It plays the scripts of the files, and then answers the lines of standard input, \
with a prompt for each. What is wrong with a line is reported on standard error as by \
`check`. Besides the lines of scripts it takes `predict TASK NODE`, `explain TASK ADDR NODE`, \
`help` and `quit`; it ends with its input, too. Of a host the first two ask about all \
processes, or after `in P` or with --process P about process P alone. The status is 0.",
    arguments: &[PROCESS, FILES],
};

/// The subcommand.
pub fn word() -> &'static SubcommandHelp
    ensures { IsWord (codes "shell") shell_arguments true result.now }
{
    &WORD
}
