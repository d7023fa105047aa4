//! `numaplan expect FILE..`: compares worked scripts with the answers to their lines.
ghost use Rattle.std.specs.Prelude.{codes};
ghost use Rattle.numa_command_line.specs.Grammar.{IsReader, expect_arguments, test_formats};

use crate::usage::{Argument, SubcommandHelp, Takes};
use crate::words::format::TESTED;

/// The argument `FILE..`.
const WORKED: Argument = Argument {
    name: "FILE",
    value: "",
    help: "Worked scripts, and folders of them; - is standard input",
    is_required: true,
    takes: Takes::Files,
};

/// The option `--ignore-versions`.
const ANY_VERSION: Argument = Argument {
    name: "ignore-versions",
    value: "",
    help: "Compares answers without the numbers of their versions, as in v2: and ok 2",
    is_required: false,
    takes: Takes::Nothing,
};

/// The option `--update`.
const UPDATE: Argument = Argument {
    name: "update",
    value: "",
    help: "Writes the answers that the lines get into the files, and shows the changes",
    is_required: false,
    takes: Takes::Nothing,
};

/// The help of the subcommand.
static WORD: SubcommandHelp = SubcommandHelp {
    name: "expect",
    reads_lines: true,
    line: "Compares the answers that scripts hold with those that they get",
    about: "Compares the answers that scripts hold with those that they get\n\nExamples, from \
the top of the repository:\n  ./numaplan expect examples/*.answers\n  ./numaplan expect \
--format tap examples",
    more: "Worked scripts hold the wanted answers as `run --echo` writes them; each answer \
that differs is reported. Each file is a script of its own. A line holds a script line and \
its answer, as LINE => ANSWER; or a script line alone; or, after `=> `, the next line of the \
answer to the script line above. A script line without an answer is carried out and not \
compared, but a fault or a refusal there is reported. The last line on standard output counts \
the lines of answers: as wanted, not so, and not compared. In a folder the files *.answers \
are taken, and those *.numaplan that hold an answer.\n\nWith --format tap each answer is a \
test of the Test Anything Protocol, and with --format json a line of JSON. With --update the \
files get the answers that their lines get, in place of those that differ: each is written \
beside itself and then replaced, and standard output shows the lines that change.\n\nThe \
status is 0 if each file holds answers and all are as wanted, or are written anew, else 3.",
    arguments: &[TESTED, ANY_VERSION, UPDATE, WORKED],
};

/// The subcommand.
pub fn word() -> &'static SubcommandHelp
    ensures { IsReader (codes "expect") expect_arguments test_formats result.now }
{
    &WORD
}
