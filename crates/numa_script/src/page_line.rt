//! Lines about pages that are there.
ghost use Rattle.std.specs.Prelude.{◌≡◌, ◌∷◌};
ghost use Rattle.numa_mask.specs.Lists.{list_of};
ghost use Rattle.numa_script.specs.Lines.{bound_pages, move_pages, pages_behind_strict, pages_said};
ghost use Rattle.numa_script.specs.PageLines.{at_line, between, memory_migrate_line, migrate_line};
ghost use Rattle.numa_script.specs.PageLines.{move_line, moved_line, populate_line, room_line};
ghost use Rattle.numa_script.specs.PageLines.{switch_of};

use crate::line::Line;
use crate::number::{number, small};
use crate::reading::{four, three, two, two_words};
use crate::words::Words;
use numa_mask::{NodeMask, read_list};

/// A line about pages that are there.
#[derive(Clone, Copy, Drop)]
pub enum PageLine {
    /// The mapped pages of a span lie on a node; start and length are in bytes.
    At {
        start: u64,
        length: u64,
        node: u32,
    },
    /// How many more pages a node takes.
    Room {
        node: u32,
        pages: u64,
    },
    /// How many more pages each node takes, of those that fill.
    Rooms,
    /// Whether pages follow the allowed nodes.
    MemoryMigrate(bool),
    /// Pages leave the nodes of one list for the allowed nodes of another.
    Migrate {
        from: NodeMask,
        to: NodeMask,
    },
    /// The page of an address, in bytes, goes to a node.
    Move {
        address: u64,
        node: u32,
    },
    /// What was moved last.
    Moved,
    /// A task on a CPU of node `cpu` writes to each page of a span (madvise(2),
    /// MADV_POPULATE_WRITE); start and length are in bytes.
    Populate {
        start: u64,
        length: u64,
        task: u32,
        cpu: u32,
    },
}

/// What follows the policy of an `mbind` that moves pages: whether `strict` does, and for which
/// task on the node `cpu` pages are placed.
#[derive(Clone, Copy, Drop)]
pub struct MoveWords {
    pub strict: bool,
    pub task: u32,
    pub cpu: u32,
}

/// What an `mbind` does with the pages of its span that lie on other nodes than those of its list.
#[derive(Clone, Copy, Drop)]
pub enum BoundPages {
    /// It is refused for them (mbind(2), MPOL_MF_STRICT).
    Strict,
    /// It moves them (MPOL_MF_MOVE).
    Move(MoveWords),
}

/// `at START LENGTH NODE`
pub(crate) fn at<'a>(words: Words<'a>) -> Option<Line<'a>>
    ensures { result ≡ at_line words.entry }
{
    let (start, length, node) = three(words)?;
    Some(Line::Pages(Ok(PageLine::At {
        start,
        length,
        node,
    })))
}

/// The pages that a node takes, whose number is the first word.
fn room_of<'a>(first: &[u8], words: Words<'a>) -> Option<Line<'a>>
    ensures { result ≡ room_line (first.now ∷ words.entry) }
{
    let pages = words.only()?;
    let node = small(first)?;
    let pages = number(pages)?;
    Some(Line::Pages(Ok(PageLine::Room { node, pages })))
}

/// `room NODE PAGES`, or `room`
pub(crate) fn room<'a>(mut words: Words<'a>) -> Option<Line<'a>>
    ensures { result ≡ room_line words.entry }
{
    match words.next() {
        None => Some(Line::Pages(Ok(PageLine::Rooms))),
        Some(first) => room_of(first, words),
    }
}

/// `on` or `off`
pub(crate) fn read_switch(word: &[u8]) -> Option<bool>
    ensures { result ≡ switch_of word.now }
{
    if word == b"on".as_slice() {
        return Some(true);
    }
    if word == b"off".as_slice() {
        return Some(false);
    }
    None
}

/// `memory-migrate on|off`
pub(crate) fn memory_migrate<'a>(words: Words<'a>) -> Option<Line<'a>>
    ensures { result ≡ memory_migrate_line words.entry }
{
    let follows = read_switch(words.only()?)?;
    Some(Line::Pages(Ok(PageLine::MemoryMigrate(follows))))
}

/// The line of two lists.
fn between<'a>(from: &[u8], to: &[u8]) -> Line<'a>
    ensures { result ≡ between (list_of from.now) (list_of to.now) }
{
    let from = match read_list(from) {
        Ok(mask) => mask,
        Err(fault) => return Line::Pages(Err(fault)),
    };
    match read_list(to) {
        Ok(to) => Line::Pages(Ok(PageLine::Migrate { from, to })),
        Err(fault) => Line::Pages(Err(fault)),
    }
}

/// `migrate FROM TO`
pub(crate) fn migrate<'a>(words: Words<'a>) -> Option<Line<'a>>
    ensures { result ≡ migrate_line words.entry }
{
    let (from, to) = two_words(words)?;
    Some(between(from, to))
}

/// `move ADDR NODE`
pub(crate) fn move_page<'a>(words: Words<'a>) -> Option<Line<'a>>
    ensures { result ≡ move_line words.entry }
{
    let (address, node) = two(words)?;
    Some(Line::Pages(Ok(PageLine::Move { address, node })))
}

/// `populate START LENGTH TASK CPU`
pub(crate) fn populate<'a>(words: Words<'a>) -> Option<Line<'a>>
    ensures { result ≡ populate_line words.entry }
{
    let (start, length, task, cpu) = four(words)?;
    Some(Line::Pages(Ok(PageLine::Populate {
        start,
        length,
        task,
        cpu,
    })))
}

/// `moved`
pub(crate) fn moved<'a>(mut words: Words<'a>) -> Option<Line<'a>>
    ensures { result ≡ moved_line words.entry }
{
    match words.next() {
        None => Some(Line::Pages(Ok(PageLine::Moved))),
        Some(_) => None,
    }
}

/// `move TASK CPU`, whose first word is given.
fn move_words(strict: bool, first: &[u8], words: Words) -> Option<BoundPages>
    ensures { result ≡ move_pages strict (first.now ∷ words.entry) }
{
    if first != b"move".as_slice() {
        return None;
    }
    let (task, cpu) = two(words)?;
    Some(BoundPages::Move(MoveWords { strict, task, cpu }))
}

/// What follows `strict`.
fn behind_strict(mut words: Words) -> Option<BoundPages>
    ensures { result ≡ pages_behind_strict words.entry }
{
    match words.next() {
        None => Some(BoundPages::Strict),
        Some(first) => move_words(true, first, words),
    }
}

/// What follows the policy of an `mbind`, whose first word is given.
fn bound_pages(first: &[u8], words: Words) -> Option<BoundPages>
    ensures { result ≡ bound_pages (first.now ∷ words.entry) }
{
    if first == b"strict".as_slice() {
        return behind_strict(words);
    }
    move_words(false, first, words)
}

/// What follows the policy of an `mbind`, if anything does; `None` if it is malformed.
#[inline(always)]
pub(crate) fn pages_said(mut words: Words) -> Option<Option<BoundPages>>
    ensures { result ≡ pages_said words.entry }
{
    let Some(first) = words.next() else {
        return Some(None);
    };
    match bound_pages(first, words) {
        None => None,
        Some(pages) => Some(Some(pages)),
    }
}
