//! `numaplan run [FILE]..`: answers scripts.
ghost use Rattle.std.specs.Prelude.{codes};
ghost use Rattle.numa_command_line.specs.Grammar.{IsReader, plain_formats, run_arguments};

use crate::usage::{Argument, FILES, SubcommandHelp, Takes};
use crate::words::format::PLAIN;

/// The option `--echo`.
const ECHO: Argument = Argument {
    name: "echo",
    value: "",
    help: "Writes each line of the script, and its answer after `=> `",
    is_required: false,
    takes: Takes::Nothing,
};

/// The help of the subcommand.
static WORD: SubcommandHelp = SubcommandHelp {
    name: "run",
    reads_lines: true,
    line: "Answers the scripts of files, or of standard input",
    about: "Answers the scripts of files, or of standard input\n\nExamples, from the top of \
the repository:\n  ./numaplan run examples/first-run.numaplan\n  ./numaplan run --echo \
examples/first-run.numaplan",
    more: "The script is read from the files in turn, or from standard input, and its answers \
are written to standard output: one line for each line of the script, but none for an empty \
line or a comment, and for `maps` one for each range. With --format json there is a line of \
JSON for each answer.\n\nAt a terminal, where no file is named, there is a prompt, standard \
error says what is wrong with a line, and a line `help` lists the lines. If answers stand \
after `=>` in a script, a line on standard error says so at the end: `expect` compares \
them.\n\ndocs/SCRIPT.md of the repository describes the language of scripts.",
    arguments: &[ECHO, PLAIN, FILES],
};

/// The subcommand.
pub fn word() -> &'static SubcommandHelp
    ensures { IsReader (codes "run") run_arguments plain_formats result.now }
{
    &WORD
}
