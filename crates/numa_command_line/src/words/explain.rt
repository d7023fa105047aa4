//! `numaplan explain --task T --node N ADDRESS [FILE]..`: says why a page goes where it goes.
ghost use Rattle.std.specs.Prelude.{codes, map};
ghost use Rattle.std.specs.String.{string_bytes};
ghost use Rattle.numa_command_line.specs.Grammar.{IsReader, drawn_formats, explain_arguments};
ghost use Rattle.clap.specs.Words.{found_of, rows_of};
ghost use Rattle.numa_command_line.specs.Asked.{explain_by, work_asked};
ghost use Rattle.numa_command_line.specs.Jobs.{IsMade, question_of, work_of};
ghost use Rattle.numa_command_line.specs.Values.{address_in};
ghost use Rattle.numa_command_line.specs.declared.command.Subcommand.TheVariants as word;

use crate::found::{small_at, text_at, texts_at};
use crate::jobs::{JobFault, PageQuestion, ScriptJob};
use crate::usage::{Argument, FILES, SubcommandHelp, Takes};
use crate::words::address::address;
use crate::words::asked;
use crate::words::asked::{NODE, TASK};
use crate::words::at::AT;
use crate::words::format::{DRAWN_TOO, format_in, is_drawn};
use crate::words::lenient::LENIENT;
use crate::words::names::NAMES;
use crate::words::process::PROCESS;
use clap::ArgMatches;
use numa_sheets::{AddressAsked, Format};
use std::alloc::Global;

/// The message for an invalid address.
const BAD_ADDRESS: &str =
    "error: '<ADDRESS>' takes a number below 2^64, in decimal or hexadecimal digits\n\nFor more \
information, try '--help'.\n";

/// The message for pages that are there in a span.
const NO_SPAN: &str = "error: '--at <FILE>' doesn't go with '--pages <N>'\n";

/// The message for a picture of several pages.
const NOT_DRAWN: &str = "error: '--pages <N>' doesn't go with '--format svg'\n";

/// The argument `ADDRESS`.
const ADDRESS: Argument = Argument {
    name: "ADDRESS",
    value: "",
    help: "An address of the page, in bytes",
    is_required: true,
    takes: Takes::Bare,
};

/// The option `--pages N`.
const PAGES: Argument = Argument {
    name: "pages",
    value: "N",
    help: "Explains N pages, from that of ADDRESS on, by stretches with one rule",
    is_required: false,
    takes: Takes::Number,
};

/// The help of the subcommand.
static WORD: SubcommandHelp = SubcommandHelp {
    name: "explain",
    reads_lines: true,
    line: "Explains why a page goes where it goes",
    about: "Explains why a page goes where it goes\n\nExamples, from the top of the \
repository:\n  ./numaplan explain --node 3 0x32000 examples/interleaved-range.numaplan\n  \
./numaplan explain --task 1 --node all 00032000 examples/interleaved-range.numaplan",
    more: "It explains why memory for the page is looked for on its nodes, if the task \
touched it now on a CPU of the node. Six lines give the nodes in order; the range, with the \
page's index; which policy counts, and why the other doesn't; the sets of nodes; the rule \
that chose the first node, with its arithmetic; and the order of the others, with their \
distances. Of a page that is there, by at, populate, touch or a move, a line before says \
where it lies, and one behind from which nodes, or with which nodes full, it would come \
there. With --at it lies where lines `at START LENGTH NODE` of that file state, too, in a \
host lines `in P at ..`.\n\nADDRESS is hexadecimal after 0x, \
with a letter, or as eight digits or more of which the first is 0, as answers print it. \
Other digits are decimal, or hexadecimal if only that page is mapped; if both pages are, \
write the one that is meant with 0x.\n\nWith --pages it names, for each stretch of so many \
pages from there on, the policy that counts and its rule. Of a host it answers for each \
process that has mapped the page, or with --process for process P alone.\n\n--format svg \
draws the nodes in order, with their distances, whose turn it is, and a table of which of the \
machine's nodes are allowed and which the policy has.\n\nLines that are \
faulty or refused are reported on standard error as by `check`, and skipped. The status is 3 \
if there are some, unless --lenient is given, and if no machine is ready after the scripts.",
    arguments: &[
        TASK, NODE, AT, PAGES, PROCESS, DRAWN_TOO, NAMES, LENIENT, ADDRESS, FILES,
    ],
};

/// The subcommand.
pub fn word() -> &'static SubcommandHelp
    ensures { IsReader (codes "explain") explain_arguments drawn_formats result.now }
{
    &WORD
}

/// The value of `ADDRESS`.
fn address_in(alloc: Global, matches: &ArgMatches<'_>) -> Result<AddressAsked, JobFault>
    ensures { IsMade (λ address. address) (address_in (rows_of (found_of matches.now))) result }
{
    let word = text_at(matches, "ADDRESS").unwrap_or("");
    match address(alloc, word.as_bytes()) {
        Ok(Some(address)) => Ok(address),
        Ok(None) => Err(JobFault::usage(alloc, BAD_ADDRESS)),
        Err(_) => Err(JobFault::NoMemory),
    }
}

/// The question by these options.
fn question(
    alloc: Global,
    at: Vec<String>,
    address: AddressAsked,
    pages: Option<u32>,
    format: Format,
) -> Result<PageQuestion, JobFault>
    ensures { IsMade question_of
        (explain_by (map string_bytes at.items) pages format address) result }
{
    if !at.is_empty() && pages.is_some() {
        drop(at);
        return Err(JobFault::usage(alloc, NO_SPAN));
    }
    if pages.is_some() && is_drawn(format) {
        drop(at);
        return Err(JobFault::usage(alloc, NOT_DRAWN));
    }
    Ok(PageQuestion::Explain {
        at,
        address,
        pages,
        format,
    })
}

/// The job of a command line with this subcommand.
///
/// # Errors
/// `Usage`: the address or the node is invalid, or `--pages` doesn't go with another
/// option. `NoMemory`: out of memory.
pub fn work(alloc: Global, matches: &ArgMatches<'_>) -> Result<ScriptJob, JobFault>
    ensures { IsMade work_of (work_asked word.Explain (rows_of (found_of matches.now))) result }
{
    let at = texts_at(alloc, matches, "at")?;
    let address = match address_in(alloc, matches) {
        Ok(address) => address,
        Err(fault) => {
            drop(at);
            return Err(fault);
        }
    };
    let (pages, format) = (small_at(matches, "pages"), format_in(matches));
    match question(alloc, at, address, pages, format) {
        Ok(question) => asked::work(alloc, matches, question),
        Err(fault) => Err(fault),
    }
}
