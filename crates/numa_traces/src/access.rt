//! The lines of a trace.
ghost use Rattle.std.specs.Prelude.{◌≡◌};
ghost use Rattle.std.specs.Option.{option_map};
ghost use Rattle.numa_script.specs.Lines.{is_silent};
ghost use Rattle.numa_traces.specs.Accesses.{access_by, access_of, any_text, behind_in, do_of};
ghost use Rattle.numa_traces.specs.Accesses.{line_by, mark_of, named_by, with_task};

use crate::fault::AccessError;
use numa_mask::Parts;
use numa_script::number::{page, small};
use numa_script::parts::words;

/// Consecutive accesses of a task to a page, from a CPU of a node.
#[repr(C)]
#[derive(Clone, Copy)]
pub struct Access {
    pub task: u32,
    /// The page: its address divided by 4,096.
    pub page: u64,
    /// The node of the CPU.
    pub cpu: u32,
    /// The number of accesses.
    pub count: u32,
}

const _: () = prove!(size_of::<Access>() == 24);

/// What a line of a trace says: accesses, and the process that makes them, if it names one.
#[derive(Clone, Copy)]
pub struct TraceLine {
    pub process: Option<u32>,
    pub access: Access,
}

/// The access of four words.
///
/// # Errors
/// The first word that isn't a valid number.
fn access_with(
    task: Option<u32>,
    page: Option<u64>,
    cpu: Option<u32>,
    count: Option<u32>,
) -> Result<Access, AccessError>
    ensures { result ≡ with_task task page cpu count }
{
    let Some(task) = task else {
        return Err(AccessError::BadTask);
    };
    let Some(page) = page else {
        return Err(AccessError::BadAddress);
    };
    let Some(cpu) = cpu else {
        return Err(AccessError::BadCpu);
    };
    let Some(count) = count else {
        return Err(AccessError::BadCount);
    };
    Ok(Access {
        task,
        page,
        cpu,
        count,
    })
}

/// The access of three or four words.
fn read_words(mut words: Parts<'_>) -> Result<Access, AccessError>
    ensures { result ≡ access_by words.entry }
{
    let Some(task) = words.next() else {
        return Err(AccessError::WordCount);
    };
    let Some(address) = words.next() else {
        return Err(AccessError::WordCount);
    };
    let Some(cpu) = words.next() else {
        return Err(AccessError::WordCount);
    };
    let Some(count) = words.next() else {
        return access_with(small(task), page(address), small(cpu), Some(1));
    };
    let None = words.next() else {
        return Err(AccessError::WordCount);
    };
    access_with(small(task), page(address), small(cpu), small(count))
}

/// What the words behind `in` say: a process, and its access.
fn read_named(mut words: Parts<'_>) -> Result<TraceLine, AccessError>
    ensures { result ≡ named_by words.entry }
{
    let Some(word) = words.next() else {
        return Err(AccessError::WordCount);
    };
    let Some(process) = small(word) else {
        return Err(AccessError::BadProcess);
    };
    match read_words(words) {
        Ok(access) => Ok(TraceLine {
            process: Some(process),
            access,
        }),
        Err(fault) => Err(fault),
    }
}

/// What stands behind `in `, if a line begins so.
fn behind_in(line: &[u8]) -> Option<&[u8]>
    ensures { option_map (λ rest. rest.now) result ≡ behind_in line.now }
{
    line.strip_prefix(b"in ")
}

/// A text, if it has a byte.
fn any_text(rest: &[u8]) -> Option<&[u8]>
    ensures { option_map (λ text. text.now) result ≡ any_text rest.now }
{
    if rest.is_empty() {
        return None;
    }
    Some(rest)
}

/// The text of a mark, if a line is one: it begins with `mark `, and something follows.
pub fn mark_in(line: &[u8]) -> Option<&[u8]>
    ensures { option_map (λ text. text.now) result ≡ mark_of line.now }
{
    match line.strip_prefix(b"mark ") {
        Some(rest) => any_text(rest),
        None => None,
    }
}

/// The line of the language that a line of a trace carries out, if it does: it begins with `do `,
/// and something follows.
pub fn do_in(line: &[u8]) -> Option<&[u8]>
    ensures { option_map (λ said. said.now) result ≡ do_of line.now }
{
    match line.strip_prefix(b"do ") {
        Some(rest) => any_text(rest),
        None => None,
    }
}

/// What a line says that isn't silent.
fn read_line(line: &[u8]) -> Result<TraceLine, AccessError>
    ensures { result ≡ line_by line.now }
{
    if let Some(_) = do_in(line) {
        return Err(AccessError::Does);
    }
    if let Some(rest) = behind_in(line) {
        return read_named(words(rest));
    }
    match read_words(words(line)) {
        Ok(access) => Ok(TraceLine {
            process: None,
            access,
        }),
        Err(fault) => Err(fault),
    }
}

/// Whether a line is empty, or begins with `#`.
fn is_silent(line: &[u8]) -> bool
    ensures { result ≡ is_silent line.now }
{
    match line {
        [] => true,
        [first, ..] => *first == b'#',
    }
}

/// Parses a line `TASK ADDRESS CPU [COUNT]`, or the same behind `in P`, the process that makes the
/// accesses: numbers, decimal or hexadecimal with `0x`, separated by single spaces; the address is
/// in bytes, and COUNT is 1 if it is missing. `None` for an empty line, and one that begins with
/// `#`.
///
/// # Errors
/// `Does`: it is a line `do`. Behind `in`, `BadProcess`: P isn't a number below 2^32. Then the
/// first that applies: `WordCount`, there aren't three or four words of an access; `BadTask`,
/// `BadAddress`, `BadCpu`, `BadCount`: that word isn't a valid number.
pub fn read_access(line: &[u8]) -> Result<Option<TraceLine>, AccessError>
    ensures { result ≡ access_of line.now }
{
    if is_silent(line) {
        return Ok(None);
    }
    match read_line(line) {
        Ok(said) => Ok(Some(said)),
        Err(fault) => Err(fault),
    }
}
