//! Lines about pages of 2 MiB, and the pools that they come from.
ghost use Rattle.std.specs.Prelude.{◌≡◌, ◌∷◌, [], ◌<◌, ◌^◌, IfSome};
ghost use Rattle.numa_script.specs.HugeLines.{count_of, fault_line, huge_cause, huge_said};
ghost use Rattle.numa_script.specs.HugeLines.{huge_words, map_line, mapped_line, pool_line};
ghost use Rattle.numa_script.specs.HugeLines.{words_for};
ghost use Rattle.numa_script.specs.Numbers.{small_of};
ghost use Rattle.std.specs.Option.{option_map};

use crate::line::Line;
use crate::number::{number, small};
use crate::reading::three;
use crate::words::Words;
use numa_machine::PageSize;
use numa_requests::{Command, HugeRefusal};

/// A line about pages of 2 MiB, or about a first touch of a page of any size.
#[derive(Clone, Copy, Drop)]
pub enum HugeLine {
    /// How many pages the pools have.
    Pools,
    /// The pools of all nodes with memory have so many pages.
    Resize(u64),
    /// The pool of a node has so many pages.
    ResizeNode {
        node: u32,
        pages: u64,
    },
    /// The pools of the nodes of a task's policy, for a CPU of node `cpu`, make it so many pages.
    ResizeFor {
        pages: u64,
        task: u32,
        cpu: u32,
    },
    /// A task maps a span as pages of 2 MiB, which it reserves or doesn't; start and length are in
    /// bytes, and the offset is in pages of 4 KiB.
    Map {
        start: u64,
        length: u64,
        offset: u64,
        task: u32,
        reserves: bool,
    },
    /// A task on a CPU of node `cpu` writes to the page of an address, in bytes.
    Fault {
        task: u32,
        address: u64,
        cpu: u32,
    },
}

/// What follows the offset of a mapping of pages of 2 MiB: whose it is, and whether it reserves its
/// pages.
#[derive(Clone, Copy, Drop)]
pub struct HugeWords {
    pub task: u32,
    pub reserves: bool,
}

/// The names of the refusals, with their error numbers (errno(3)), in their order.
static HUGE_CAUSES: [&[u8]; 10] = [
    b"NoSuchNode ENOENT",
    b"BadCpu EINVAL",
    b"Unsure",
    b"NoHugePages ENOMEM",
    b"Unmapped EFAULT",
    b"Exhausted",
    b"Exhausted SIGBUS",
    b"NotSupported EOPNOTSUPP",
    b"TooManyRuns ENOMEM",
    b"NoMemory ENOMEM",
];

/// The name of a refusal, with its error number.
pub fn huge_cause(refusal: HugeRefusal) -> &'static [u8]
    ensures { result.now ≡ huge_cause refusal }
{
    HUGE_CAUSES[refusal as usize]
}

/// A number of pages, below 2^63.
fn count(word: &[u8]) -> Option<u64>
    ensures count { result ≡ count_of word.now }
    ensures bound { IfSome result (λ pages. pages < 2 ^ 63) }
{
    let pages = number(word)?;
    if pages >= 1 << 63 {
        return None;
    }
    Some(pages)
}

/// `pool COUNT`
fn resize<'a>(pages: &[u8]) -> Option<Line<'a>>
    ensures { result ≡ pool_line (pages.now ∷ []) }
{
    let pages = count(pages)?;
    Some(Line::Huge(HugeLine::Resize(pages)))
}

/// `pool NODE COUNT`
fn resize_node<'a>(node: &[u8], pages: &[u8]) -> Option<Line<'a>>
    ensures { result ≡ pool_line (node.now ∷ pages.now ∷ []) }
{
    let node = small(node)?;
    let pages = count(pages)?;
    Some(Line::Huge(HugeLine::ResizeNode { node, pages }))
}

/// `pool COUNT TASK CPU`, of which the first three words are given.
fn resize_for<'a>(pages: &[u8], task: &[u8], cpu: &[u8], mut words: Words) -> Option<Line<'a>>
    ensures { result ≡ pool_line (pages.now ∷ task.now ∷ cpu.now ∷ words.entry) }
{
    if let Some(_) = words.next() {
        return None;
    }
    let pages = count(pages)?;
    let task = small(task)?;
    let cpu = small(cpu)?;
    Some(Line::Huge(HugeLine::ResizeFor { pages, task, cpu }))
}

/// `pool`, `pool COUNT`, `pool NODE COUNT` or `pool COUNT TASK CPU`
pub(crate) fn pool<'a>(mut words: Words<'a>) -> Option<Line<'a>>
    ensures { result ≡ pool_line words.entry }
{
    let Some(first) = words.next() else {
        return Some(Line::Huge(HugeLine::Pools));
    };
    let Some(second) = words.next() else {
        return resize(first);
    };
    let Some(third) = words.next() else {
        return resize_node(first, second);
    };
    resize_for(first, second, third, words)
}

/// `fault TASK ADDR CPU`
pub(crate) fn fault<'a>(words: Words<'a>) -> Option<Line<'a>>
    ensures { result ≡ fault_line words.entry }
{
    let (task, address, cpu) = three(words)?;
    Some(Line::Huge(HugeLine::Fault { task, address, cpu }))
}

/// Whose mapping it is, and whether it reserves its pages.
fn words_for(reserves: bool, task: &[u8]) -> Option<HugeWords>
    ensures { result ≡ option_map (words_for reserves) (small_of task.now) }
{
    let task = small(task)?;
    Some(HugeWords { task, reserves })
}

/// `huge TASK` or `huge TASK noreserve`, whose first word is given.
fn huge_words(first: &[u8], mut words: Words) -> Option<HugeWords>
    ensures { result ≡ huge_words (first.now ∷ words.entry) }
{
    let task = words.next()?;
    if first != b"huge".as_slice() {
        return None;
    }
    let Some(last) = words.next() else {
        return words_for(true, task);
    };
    if last != b"noreserve".as_slice() {
        return None;
    }
    if let Some(_) = words.next() {
        return None;
    }
    words_for(false, task)
}

/// What follows the offset of a mapping, if anything does; `None` if it is malformed.
fn huge_said(mut words: Words) -> Option<Option<HugeWords>>
    ensures { result ≡ huge_said words.entry }
{
    let Some(first) = words.next() else {
        return Some(None);
    };
    match huge_words(first, words) {
        None => None,
        Some(said) => Some(Some(said)),
    }
}

/// What a mapping says, of pages of either size.
fn mapped_line<'a>(start: u64, length: u64, offset: u64, said: Option<HugeWords>) -> Line<'a>
    ensures { result ≡ mapped_line start length offset said }
{
    match said {
        None => Line::Command(Ok(Command::Map {
            start,
            length,
            offset,
            size: PageSize::Small,
        })),
        Some(HugeWords { task, reserves }) => Line::Huge(HugeLine::Map {
            start,
            length,
            offset,
            task,
            reserves,
        }),
    }
}

/// `map START LENGTH OFFSET`, and perhaps `huge TASK` or `huge TASK noreserve` behind that
pub(crate) fn map<'a>(mut words: Words<'a>) -> Option<Line<'a>>
    ensures { result ≡ map_line words.entry }
{
    let start = words.next()?;
    let length = words.next()?;
    let offset = words.next()?;
    let start = number(start)?;
    let length = number(length)?;
    let offset = number(offset)?;
    let said = huge_said(words)?;
    Some(mapped_line(start, length, offset, said))
}
