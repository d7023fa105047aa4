//! Subcommands that ask about pages that a task would touch, by `[--task T] --node N`.
ghost use Rattle.std.specs.Prelude.{◌≡◌, Some, codes};
ghost use Rattle.numa_command_line.specs.Asked.{asked_in, can_ask, is_plain, is_plainly_asked};
ghost use Rattle.numa_command_line.specs.Jobs.{IsMade, question_of, work_of};
ghost use Rattle.numa_command_line.specs.Values.{cpu_in, cpu_named, one_touch_in, touch_in};
ghost use Rattle.clap.specs.Words.{found_of, rows_of};

use crate::found::{is_on, small_at, text_at};
use crate::jobs::{JobFault, PageQuestion, ScriptJob};
use crate::usage::{Argument, Takes};
use clap::ArgMatches;
use numa_script::number::small;
use numa_sheets::{CpuAsked, Format, TouchAsked};
use std::alloc::Global;

/// The message for an invalid node.
const BAD_NODE: &str =
    "error: '--node <N>' takes a number below 2^32, decimal or 0x and hexadecimal, or all\n\n\
For more information, try '--help'.\n";

/// The message for each node in a picture, a page or records.
const NOT_EACH: &str = "error: '--node all' wants an answer as text or JSON\n";

/// The option `--task T`.
pub const TASK: Argument = Argument {
    name: "task",
    value: "T",
    help: "The task that touches the pages; it may be left out where scripts name one task or \
none",
    is_required: false,
    takes: Takes::Number,
};

/// The option `--node N`, or `--cpu N`.
pub const NODE: Argument = Argument {
    name: "node",
    value: "N",
    help: "The node of the CPU on which the task runs, or all: each node with CPUs in turn",
    is_required: true,
    takes: Takes::TextOr("cpu"),
};

/// The nodes of this name.
fn cpu_named(name: &str) -> Option<CpuAsked>
    ensures { result ≡ cpu_named name.now }
{
    if name == "all" {
        return Some(CpuAsked::Each);
    }
    match small(name.as_bytes()) {
        Some(node) => Some(CpuAsked::Node(node)),
        None => None,
    }
}

/// The value of `--node`, if it has one.
fn cpu_in(matches: &ArgMatches<'_>) -> Option<CpuAsked>
    ensures { result ≡ cpu_in (rows_of (found_of matches.now)) }
{
    match text_at(matches, "node") {
        Some(name) => cpu_named(name),
        None => None,
    }
}

/// The values of the options, if the node has one.
fn touch_in(matches: &ArgMatches<'_>) -> Option<TouchAsked>
    ensures { result ≡ touch_in (rows_of (found_of matches.now)) }
{
    match cpu_in(matches) {
        Some(cpu) => Some(TouchAsked {
            task: small_at(matches, "task"),
            cpu,
        }),
        None => None,
    }
}

/// The values of the options where the node is a number, if it has one.
pub fn one_touch_in(matches: &ArgMatches<'_>) -> Option<TouchAsked>
    ensures { result ≡ one_touch_in (rows_of (found_of matches.now)) }
{
    match small_at(matches, "node") {
        Some(node) => Some(TouchAsked {
            task: small_at(matches, "task"),
            cpu: CpuAsked::Node(node),
        }),
        None => None,
    }
}

/// Whether a format is text or JSON.
fn is_plain(format: Format) -> bool
    ensures { result ≡ is_plain format }
{
    match format {
        Format::Text => true,
        Format::Json => true,
        _ => false,
    }
}

/// Whether a question is answered as text or JSON.
fn is_plainly_asked(question: &PageQuestion) -> bool
    ensures { result ≡ is_plainly_asked (question_of question.now) }
{
    match question {
        PageQuestion::Predict { format, .. } => is_plain(*format),
        PageQuestion::Diff { format, .. } => is_plain(*format),
        PageQuestion::Explain { format, .. } => is_plain(*format),
        PageQuestion::Report { .. } => false,
    }
}

/// Whether a question can be asked of these touches: those on each node are told as text or JSON.
fn can_ask(asked: TouchAsked, question: &PageQuestion) -> bool
    ensures { result ≡ can_ask asked (question_of question.now) }
{
    match asked.cpu {
        CpuAsked::Node(_) => true,
        CpuAsked::Each => is_plainly_asked(question),
    }
}

/// The job of asking a question by the options.
///
/// # Errors
/// `Usage`: `--node` is invalid, or is `all` where the answer is neither text nor JSON. `NoMemory`:
/// out of memory.
pub fn work(
    alloc: Global,
    matches: &ArgMatches<'_>,
    question: PageQuestion,
) -> Result<ScriptJob, JobFault>
    ensures { IsMade work_of
        (asked_in (rows_of (found_of matches.now)) (Some (question_of question))) result }
{
    let Some(asked) = touch_in(matches) else {
        drop(question);
        return Err(JobFault::usage(alloc, BAD_NODE));
    };
    if !can_ask(asked, &question) {
        drop(question);
        return Err(JobFault::usage(alloc, NOT_EACH));
    }
    Ok(ScriptJob::Ask {
        asked,
        question,
        lenient: is_on(matches, "lenient"),
        names: is_on(matches, "names"),
    })
}
