//! Questions of a shell, beside those of scripts.
use numa_command_line::address;
use numa_host_script::HostScript;
use numa_lines::RunFault;
use numa_mask::parts::first_place;
use numa_play::{page_meant, page_places, subject_of};
use numa_questions::{AskedPages, EachAsked, prediction_of};
use numa_script::number::{number, small};
use numa_script::parts::words;
use numa_sheets::{AddressAsked, Format, Touch};
use numa_subjects::Halt;
use numa_words::{ExplainAsked, explanation};
use std::alloc::{AllocError, Global};

/// The help on the lines of a shell.
pub const SHELL_LINES: &str = "\
predict TASK NODE              where all mapped pages would go
explain TASK ADDR NODE         why a page goes where it goes
in P predict TASK NODE         the same of one process of a host
in P explain TASK ADDR NODE    the same of one process of a host
help, quit                     this help; the end
";

/// The message for other words behind `predict`.
const PREDICT: &str = "predict wants TASK NODE, in decimal or 0x and hexadecimal";

/// The message for other words behind `explain`.
const EXPLAIN: &str = "explain wants TASK ADDR NODE, in decimal or hexadecimal digits";

/// A question of a shell.
#[derive(Clone, Copy)]
pub enum ShellQuestion {
    /// Where all mapped pages would go.
    Predict(Touch),
    /// Why the page of this address goes where it goes.
    Explain(Touch, AddressAsked),
    /// None: the words behind the first aren't as this message says.
    Malformed(&'static str),
}

/// A task that touches pages on a CPU of a node.
fn touch_of(task: Option<u64>, node: Option<u64>) -> Option<Touch> {
    let task = u32::try_from(task?).ok()?;
    let cpu = u32::try_from(node?).ok()?;
    Some(Touch { task, cpu })
}

/// A number of a line, if there is a word left.
fn number_of(word: Option<&[u8]>) -> Option<u64> {
    match word {
        Some(word) => number(word),
        None => None,
    }
}

/// A question, and the process of a host that is asked, if one is named.
#[derive(Clone, Copy)]
pub struct AskedProcess {
    pub process: Option<u32>,
    pub question: ShellQuestion,
}

/// The line behind `in P `, and P; `None` if the line begins otherwise.
fn handed(line: &[u8]) -> Option<(u32, &[u8])> {
    let rest = line.strip_prefix(b"in ")?;
    let end = first_place(rest, b' ')?;
    match small(&rest[..end]) {
        Some(process) => Some((process, &rest[end + 1..])),
        None => None,
    }
}

/// The question of a line, which may stand behind `in P`; `None` if it begins with another word.
/// Else this process is asked, if one is given.
///
/// # Errors
/// `AllocError`: out of memory.
pub fn asked_of(
    alloc: Global,
    line: &[u8],
    process: Option<u32>,
) -> Result<Option<AskedProcess>, AllocError> {
    let (process, line) = match handed(line) {
        Some((process, line)) => (Some(process), line),
        None => (process, line),
    };
    match question_of(alloc, line)? {
        Some(question) => Ok(Some(AskedProcess { process, question })),
        None => Ok(None),
    }
}

/// The address of a line, if there is a word left.
fn address_of(alloc: Global, word: Option<&[u8]>) -> Result<Option<AddressAsked>, AllocError> {
    match word {
        Some(word) => address(alloc, word),
        None => Ok(None),
    }
}

/// The question of a line; `None` if it begins with another word.
fn question_of(alloc: Global, line: &[u8]) -> Result<Option<ShellQuestion>, AllocError> {
    let mut words = words(line);
    let Some(first) = words.next() else {
        return Ok(None);
    };
    let is_explain = first == b"explain".as_slice();
    if !is_explain && first != b"predict".as_slice() {
        return Ok(None);
    }
    let task = number_of(words.next());
    let address = if is_explain {
        address_of(alloc, words.next())?
    } else {
        None
    };
    let touch = touch_of(task, number_of(words.next()));
    let is_over = words.next().is_none();
    Ok(Some(match (touch, address) {
        (Some(touch), None) if is_over && !is_explain => ShellQuestion::Predict(touch),
        (Some(touch), Some(address)) if is_over => ShellQuestion::Explain(touch, address),
        _ => ShellQuestion::Malformed(if is_explain { EXPLAIN } else { PREDICT }),
    }))
}

/// Where all mapped pages would go now, if they were touched, as lines: of a process, or of all of
/// a host's if none is named.
///
/// # Errors
/// `NoMachine`, `NoNode`, `NoHost`, `NoProcess`, or `Stopped`: out of memory.
fn predicted(
    alloc: Global,
    script: &HostScript,
    process: Option<u32>,
    touch: Touch,
) -> Result<Vec<u8>, Halt> {
    let asked = EachAsked {
        touch,
        format: Format::Text,
        free: &[],
        there: &[],
        beside: &[],
    };
    match subject_of(script, process) {
        Ok(subject) => prediction_of(alloc, subject, asked, &mut ()),
        Err(halt) => Err(halt),
    }
}

/// Why a page goes where it goes now, as lines: of a process, or of each of a host's that has
/// mapped it, if none is named.
///
/// # Errors
/// `NoMachine`, `NoNode`, `NoHost`, `NoProcess`, `Unmapped`, or `Stopped`: out of memory.
fn explained(
    alloc: Global,
    script: &HostScript,
    process: Option<u32>,
    touch: Touch,
    page: u64,
) -> Result<Vec<u8>, Halt> {
    let Ok(there) = page_places(alloc, script, process, page) else {
        return Err(Halt::Stopped(RunFault::Memory));
    };
    let asked = ExplainAsked {
        touch,
        pages: AskedPages { page, pages: None },
        format: Format::Text,
    };
    let text = explanation(alloc, script, None, process, asked, there.as_slice());
    drop(there);
    text
}

/// Why the page of an address goes where it goes.
fn explained_at(
    alloc: Global,
    script: &HostScript,
    process: Option<u32>,
    touch: Touch,
    address: AddressAsked,
) -> Result<Vec<u8>, Halt> {
    match page_meant(script, process, address) {
        Ok(page) => explained(alloc, script, process, touch, page),
        Err(halt) => Err(halt),
    }
}

/// The answer to a question about a script.
///
/// # Errors
/// The message why there is none; `None` if memory ran out.
pub fn answer_to(
    alloc: Global,
    script: &HostScript,
    asked: AskedProcess,
) -> Result<Vec<u8>, Option<&'static str>> {
    let AskedProcess { process, question } = asked;
    let answer = match question {
        ShellQuestion::Predict(touch) => predicted(alloc, script, process, touch),
        ShellQuestion::Explain(touch, address) => {
            explained_at(alloc, script, process, touch, address)
        }
        ShellQuestion::Malformed(message) => return Err(Some(message)),
    };
    match answer {
        Ok(text) => Ok(text),
        Err(Halt::NoMachine) => Err(Some("no machine is ready; limits and machine come first")),
        Err(Halt::NoNode(_)) => Err(Some("the machine lacks the node")),
        Err(Halt::Unmapped) => Err(Some("the page of ADDR isn't mapped")),
        Err(Halt::TwoPages) => {
            Err(Some("ADDR is mapped in decimal and in hexadecimal digits; write 0x"))
        }
        Err(Halt::NoHost) => Err(Some("no process can be named before a line host")),
        Err(Halt::NoProcess(_)) => Err(Some("the host has no such process")),
        Err(_) => Err(None),
    }
}
