//! Findings as texts.
use crate::bad_words::keyword_of;
use crate::finding::{Detail, Finding};
use crate::hint::HostHint;
use crate::host_text::put_host_refused;
use crate::page_text::{PLACED, put_huge_refused, put_move_refused, put_placed_refused};
use crate::words::{list_words, machine_words, policy_words, told_words, worker_words};
use numa_requests::{CoreRefusal, Refusal};
use numa_rules::{Text, say_hint, say_otherwise};
use numa_script::keyword::Keyword;
use numa_script::names::Named;
use numa_script::parameter::parameters;
use numa_script::{Cause, Form, Misfit, Parameter, Reply, WordError};
use std::alloc::AllocError;

/// What RULES isn't.
const RULES_FORM: &str = " is neither document nor linux";

/// What FRAMES isn't.
const FRAMES_FORM: &str = " are no decimal numbers below 2^32 with commas between them";

/// What DIST isn't.
const DISTANCES_FORM: &str = " is neither flat nor decimal numbers of at most 255 with commas \
and semicolons; either may follow kernel:";

/// The message for a carriage return.
const RETURN: &str =
    "a carriage return; lines end with a line feed alone: take it out, as tr -d '\\r' does";

/// The message for a tab.
const TAB: &str =
    "a tab; words stand between single spaces: write one, or nothing at the end of a line";

/// The message for a decimal START that looks like another.
const DECIMAL_START: &str = "START begins with 0 and has no 0x, so it is decimal, and no multiple \
of 4096; write 0x before hexadecimal digits";

/// The message for a binary text.
pub const BINARY: &str =
    "a byte 0, as in a binary file; scripts are text, so nothing after it is read";

/// The text after a page that is mapped but not published.
const UNPUBLISHED: &str = " is mapped, but not published yet; publish first";

/// Appends the syntax of a keyword's lines, after a semicolon.
fn put_usage(text: &mut Text, keyword: Keyword) {
    text.put("; ");
    text.put(keyword.name());
    let wanted = parameters(keyword);
    text.put(if wanted.is_empty() {
        " stands alone"
    } else {
        " wants"
    });
    for parameter in wanted {
        text.put(" ");
        text.put(parameter.name());
    }
    match keyword {
        Keyword::GroupMems => text.put(", or - for no list"),
        Keyword::Room => text.put(", or stands alone"),
        Keyword::Pool => text.put(", NODE COUNT or COUNT alone, or stands alone"),
        _ => {}
    }
}

/// Appends the syntax of an `mbind` with words after its policy, or of a `map` with some after its
/// offset, after a semicolon.
fn put_more_usage(text: &mut Text, keyword: Keyword) {
    put_usage(text, keyword);
    text.put(match keyword {
        Keyword::Map => ", then huge TASK, and perhaps noreserve",
        _ => ", then strict, move TASK CPU, or both",
    });
}

/// Appends the form that a word must have.
fn put_form(text: &mut Text, parameter: Parameter) {
    if let Form::Switch = parameter.form() {
        text.put("a word is neither on nor off");
        return;
    }
    text.put(parameter.name());
    match parameter.form() {
        Form::Number(greatest) => {
            text.put_number(" is no number from 0 to ", greatest);
            text.put(", decimal, or hexadecimal after 0x");
        }
        Form::Rules => text.put(RULES_FORM),
        Form::Frames => text.put(FRAMES_FORM),
        Form::Distances => text.put(DISTANCES_FORM),
        Form::Switch | Form::Word | Form::Any => {}
    }
}

/// Appends what is wrong with a word.
fn put_misfit(text: &mut Text, parameter: Parameter, misfit: Misfit) {
    match (misfit, parameter.form()) {
        (Misfit::TooGreat, Form::Number(greatest)) => {
            text.put(parameter.name());
            text.put_number(" is above ", greatest);
        }
        _ => put_form(text, parameter),
    }
}

/// Appends a byte that no word has.
fn put_byte(text: &mut Text, byte: u8) {
    match byte {
        b'\r' => text.put(RETURN),
        b'\t' => text.put(TAB),
        _ => {
            text.put_hex("the byte ", byte as u64);
            text.put(", which no word has");
        }
    }
}

/// What is wrong with a malformed line; if more words follow, those before them.
fn cause_words(cause: Cause) -> &'static str {
    match cause {
        Cause::TooLong => "the line has more than 4096 bytes",
        Cause::LeadingSpace => "a space at the beginning of the line; take it out",
        Cause::TrailingSpace => "a space at the end of the line; take it out",
        Cause::TwoSpaces => "two spaces in a row; write one",
        Cause::UnknownWord => "no line begins with this word",
        Cause::NotTold(_) => {
            "in P is followed by a command, a question, maps, populate, fault, at, migrate, move, \
             moved or pool with a count"
        }
        Cause::TooFewWords(_) => "too few words",
        Cause::TooManyWords(_) => "too many words",
        Cause::StrayByte(_) | Cause::BadWord(..) => "",
    }
}

/// Appends what is wrong with a malformed line, without what it wants.
fn put_fault_of(text: &mut Text, cause: Cause) {
    text.put(cause_words(cause));
    match cause {
        Cause::StrayByte(byte) => put_byte(text, byte),
        Cause::BadWord(_, parameter, misfit) => put_misfit(text, parameter, misfit),
        _ => {}
    }
}

/// Appends why a line is malformed.
fn put_cause(text: &mut Text, cause: Cause) {
    put_fault_of(text, cause);
    if let Some(keyword) = keyword_of(cause) {
        put_usage(text, keyword);
    }
}

/// Appends why an `mbind` with words after its policy, or a `map` with some after its offset, is
/// malformed.
fn put_more_cause(text: &mut Text, cause: Cause) {
    put_fault_of(text, cause);
    if let Some(keyword) = keyword_of(cause) {
        put_more_usage(text, keyword);
    }
}

/// Appends an error: its head, its name and its cause.
fn put_fault(text: &mut Text, head: &str, fault: Named, words: &str) {
    text.put(head);
    text.put_bytes(fault.name());
    text.put(": ");
    text.put(words);
}

/// Appends an error in a node list or a policy: its name and its cause.
fn put_word_fault(text: &mut Text, fault: WordError) {
    match fault {
        WordError::List(fault) => {
            put_fault(text, "bad list ", Named::List(fault), list_words(fault));
        }
        WordError::Policy(fault) => {
            let named = Named::Policy(fault);
            put_fault(text, "bad policy ", named, policy_words(fault));
        }
    }
}

/// The name of a refusal; that of a command is followed by its error number.
fn name_of(cause: CoreRefusal) -> &'static [u8] {
    match cause {
        CoreRefusal::Command(refusal) => Named::Refusal(refusal).name(),
        CoreRefusal::NoSuchWorker => b"NoSuchWorker",
        CoreRefusal::Busy => b"Busy",
        CoreRefusal::Idle => b"Idle",
        CoreRefusal::BadTry => b"BadTry",
        CoreRefusal::NotOwned => b"NotOwned",
        CoreRefusal::BadCpu => b"BadCpu",
        CoreRefusal::Unmapped(_) => b"Unmapped",
        CoreRefusal::NoSuchNode => b"NoSuchNode",
        CoreRefusal::NoMemory => b"NoMemory",
    }
}

/// Appends the name of a refusal.
fn put_refusal_name(text: &mut Text, cause: CoreRefusal) {
    text.put("refused ");
    text.put_bytes(name_of(cause));
    if let CoreRefusal::Command(refusal) = cause {
        text.put(" ");
        text.put_bytes(Named::Errno(refusal.errno()).name());
    }
}

/// The text after the address of a page in the way.
fn page_words(cause: CoreRefusal) -> &'static str {
    match cause {
        CoreRefusal::Command(refusal) => match refusal {
            Refusal::Overlap => " is mapped already; unmap it first",
            Refusal::NotSupported => " has a policy that takes no home; leave it out",
            Refusal::Unaligned => " begins lower than START; round START down, and LENGTH up",
            _ => " isn't mapped; map it first, or bind each mapped part by itself",
        },
        _ => " isn't mapped; map it, or look at the address, which is in bytes",
    }
}

/// Appends why a line is refused for a page, with the text after the page's address.
fn put_page(text: &mut Text, page: u64, words: &str) {
    text.put_hex("page ", page.saturating_mul(4096));
    text.put(words);
}

/// Appends why a line is refused, and a number with words before and after it.
fn put_counted(text: &mut Text, cause: CoreRefusal, words: &str, number: u64, behind: &str) {
    text.put(worker_words(cause));
    text.put_number(words, number);
    text.put(behind);
}

/// Why a line is refused that a host's process is told or asked, without naming a page or a count.
fn words_in_host(cause: CoreRefusal) -> &'static str {
    match cause {
        CoreRefusal::Command(refusal) => told_words(refusal),
        cause => worker_words(cause),
    }
}

/// Appends why a line is refused.
pub(crate) fn put_refusal(text: &mut Text, cause: CoreRefusal, detail: Detail) {
    match detail {
        Detail::Page(page) => put_page(text, page, page_words(cause)),
        Detail::Unpublished(page) => put_page(text, page, UNPUBLISHED),
        Detail::LastNode(node) => {
            put_counted(text, cause, "; its nodes are 0 to ", node as u64, "");
        }
        Detail::Count(count) => put_counted(text, cause, " (now ", count, ")"),
        Detail::Mems => text.put("none of these nodes has memory; name one that has"),
        Detail::DecimalStart => text.put(DECIMAL_START),
        Detail::HugeStart => {
            text.put("START is no multiple of 2 MiB; round it down, and LENGTH up");
        }
        Detail::HugeOffset => text.put("OFFSET is no multiple of 512, which a page of 2 MiB takes"),
        Detail::HugeBorder => {
            text.put("a border of the span is inside a page of 2 MiB; take in the whole page");
        }
        Detail::OfHost => text.put(words_in_host(cause)),
        _ => text.put(worker_words(cause)),
    }
}

/// Appends a refusal: its name and its cause.
fn put_refused(text: &mut Text, cause: CoreRefusal, detail: Detail) {
    put_refusal_name(text, cause);
    text.put(": ");
    put_refusal(text, cause, detail);
}

/// Appends a line's error or refusal, and its cause.
fn put_answer(text: &mut Text, fault: Reply, detail: Detail) {
    match fault {
        Reply::BadWords => text.put("bad words"),
        Reply::BadState => text.put("bad state"),
        Reply::BadLimits => text.put("bad limits: R is above 65536 or T above 1024; use less"),
        Reply::BadMachine(fault) => {
            let named = Named::Machine(fault);
            put_fault(text, "bad machine ", named, machine_words(fault));
        }
        Reply::BadWord(fault) => put_word_fault(text, fault),
        Reply::Refused(cause) => put_refused(text, cause, detail),
        Reply::HostRefused(refusal) => put_host_refused(text, refusal, detail),
        Reply::PlacedRefused(refusal) => put_placed_refused(text, refusal, detail),
        Reply::MoveRefused(refusal) => put_move_refused(text, refusal, detail),
        Reply::HugeRefused(refusal) => put_huge_refused(text, refusal, detail),
        Reply::Placed => text.put(PLACED),
        _ => {}
    }
}

/// The text of a detail of bad words or a bad state.
fn detail_words(detail: Detail) -> &'static str {
    match detail {
        Detail::Malformed(_) | Detail::MalformedMore(_) => ": ",
        Detail::NoHost => ": only a host's script has this line; write host after machine",
        Detail::LateHost => {
            ": host comes after machine, before the first command and the first pool COUNT"
        }
        Detail::HostReady => ": the script is a host's already; take the line out",
        Detail::NeedsProcess => ": in a host a line of one process follows in P; write that",
        Detail::NoWorkers => ": a host has no workers; they are for scripts of one process",
        Detail::NoMachine => ": no machine is ready; limits and machine come first",
        Detail::MachineReady => {
            ": a machine is ready already; limits, rules, cpus and machine come before it"
        }
        Detail::CarriageReturn => "; the line ends with ",
        Detail::Tab => "; the line has ",
        _ => "",
    }
}

/// Appends what to write instead of `all`, on a machine with this highest node.
fn put_all(text: &mut Text, last: u32) {
    text.put("; in place of all write 0");
    if last > 0 {
        text.put_number("-", last as u64);
    }
}

/// Appends the detail of bad words or a bad state.
fn put_detail(text: &mut Text, detail: Detail) {
    text.put(detail_words(detail));
    match detail {
        Detail::Malformed(malformed) => put_cause(text, malformed.cause),
        Detail::MalformedMore(malformed) => put_more_cause(text, malformed.cause),
        Detail::CarriageReturn => text.put(RETURN),
        Detail::Tab => text.put(TAB),
        Detail::AllNodes(last) => put_all(text, last),
        _ => {}
    }
}

/// Appends what is wrong with a line.
fn put_finding(text: &mut Text, finding: &Finding) {
    put_answer(text, finding.fault, finding.detail);
    put_detail(text, finding.detail);
}

/// Appends what is wrong with a line: its answer and its cause, with what to do, if anything.
///
/// # Errors
/// `AllocError`: out of memory. A part may have been appended.
pub fn say_finding(text: &mut Vec<u8>, finding: &Finding) -> Result<(), AllocError> {
    let mut written = Text::of(text);
    put_finding(&mut written, finding);
    written.end(text)
}

/// Where a line stands: the name of its text, and its number there, from 1.
#[derive(Clone, Copy)]
pub struct LineAt<'a> {
    pub name: &'a str,
    pub place: u64,
}

/// Appends where a line stands.
fn put_line(text: &mut Text, at: LineAt<'_>) {
    text.put(at.name);
    text.put_number(":", at.place);
}

/// Appends the position of a finding: the name of the text, the line, for bad words the column, and
/// the process of a host, if one was told or asked the line.
fn put_place(text: &mut Text, at: LineAt<'_>, finding: &Finding) {
    put_line(text, at);
    if let Some(column) = finding.detail.column() {
        text.put_number(":", column as u64);
    }
    text.put(": ");
    if let Some(process) = finding.process {
        text.put_number("process ", process as u64);
        text.put(": ");
    }
}

/// Appends a message about a line: its position, and what is wrong with it.
///
/// # Errors
/// `AllocError`: out of memory. A part may have been appended.
pub fn say_line(text: &mut Vec<u8>, at: LineAt<'_>, finding: &Finding) -> Result<(), AllocError> {
    let mut written = Text::of(text);
    put_place(&mut written, at, finding);
    put_finding(&mut written, finding);
    written.put("\n");
    written.end(text)
}

/// Appends a message about a line: its position, the process of a host, if there is one, and what a
/// running kernel would do differently with the line.
///
/// # Errors
/// `AllocError`: out of memory. A part may have been appended.
pub fn say_hint_line(
    text: &mut Vec<u8>,
    at: LineAt<'_>,
    hint: &HostHint,
) -> Result<(), AllocError> {
    let Some(process) = hint.process else {
        return say_hint(text, at.name, at.place, &hint.otherwise);
    };
    let mut written = Text::of(text);
    put_line(&mut written, at);
    written.put_number(": process ", process as u64);
    written.put(": ");
    written.end(text)?;
    say_otherwise(text, &hint.otherwise)?;
    text.push(b'\n')?;
    Ok(())
}

/// Appends a message about a text that is binary, at the line and the column, in bytes from 1, of
/// the byte 0 that shows it.
///
/// # Errors
/// `AllocError`: out of memory. A part may have been appended.
pub fn say_binary(text: &mut Vec<u8>, at: LineAt<'_>, column: u64) -> Result<(), AllocError> {
    let mut written = Text::of(text);
    put_line(&mut written, at);
    written.put_number(":", column);
    written.put(": bad words: ");
    written.put(BINARY);
    written.put("\n");
    written.end(text)
}

/// Appends a message about `count` lines that weren't judged.
///
/// # Errors
/// `AllocError`: out of memory. A part may have been appended.
pub fn say_unjudged(text: &mut Vec<u8>, count: u64) -> Result<(), AllocError> {
    let mut written = Text::of(text);
    written.put_number("not judged, since no machine was ready: ", count);
    written.put("\n");
    written.end(text)
}
