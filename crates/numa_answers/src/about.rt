//! What a picture or a page is of, as its last part: the machine, by whose rules, how pages are
//! touched, the lines that were added, and which program answered.
ghost use Rattle.std.specs.Prelude.{◌<◌};

use crate::about_forms::{page_with, picture_with};
use numa_lines::RunFault;
use numa_machine::{Fallback, Machine};
use numa_mask::{NodeMask, list_text};
use numa_sheets::{Format, Touch, VERSION, Written};
use numa_subjects::{Added, Halt, InGroup, Subject, maps_huge};
use std::alloc::{AllocError, Global};

/// The most nodes whose distances are told one by one.
const NODES: u32 = 16;

/// The most lines that are told, and the most letters of a row, with those before a line's rows.
const LINES: usize = 12;

const WIDE: usize = 122;

/// What an answer is of.
#[derive(Clone, Copy)]
pub struct About<'a> {
    /// The machine.
    pub machine: &'a Machine,
    /// The one process of a host, if it is about one.
    pub member: Option<InGroup>,
    /// The nodes that the one process is allowed, behind added lines.
    pub allowed: Option<NodeMask>,
    /// How pages are touched, if they are.
    pub touch: Option<Touch>,
    /// Whether pages that are there stay where they lie.
    pub stay: bool,
    /// Whether it tells how pages of 2 MiB count.
    pub tells_huge: bool,
    /// Whether they come from their pools.
    pub from_pools: bool,
    /// The lines that were added.
    pub added: Added<'a>,
}

impl<'a> About<'a> {
    /// What an answer about a space, or about all processes of a host, is of.
    pub fn of(subject: Subject<'a>, touch: Option<Touch>, added: Added<'a>) -> About<'a> {
        let (machine, member, allowed) = match subject {
            Subject::One(space, member) => (space.machine(), member, Some(space.allowed())),
            Subject::Each(host) => (host.machine(), None, None),
        };
        About {
            machine,
            member,
            allowed,
            touch,
            stay: false,
            tells_huge: false,
            from_pools: false,
            added,
        }
    }

    /// The same where pages that are there stay where they lie, or else are touched as others.
    pub fn staying(self, stay: bool) -> About<'a> {
        About { stay, ..self }
    }

    /// The same where the pages of what the answer is about are counted: it tells how those of
    /// 2 MiB count, if there are some.
    pub fn counting(self, subject: Subject<'_>) -> About<'a> {
        About {
            tells_huge: maps_huge(subject),
            ..self
        }
    }

    /// The same where pages of 2 MiB come from their pools, or else go as if these never emptied.
    pub fn pooling(self, from_pools: bool) -> About<'a> {
        About { from_pools, ..self }
    }
}

/// Writes the nodes of a set, as `0-1,3`.
fn put_nodes(text: &mut Written, nodes: &NodeMask) {
    let list = list_text(nodes);
    text.put(list.as_bytes());
}

/// Writes the number of nodes, the rules, and how allocations fall back.
fn put_machine(text: &mut Written, machine: &Machine) {
    let nodes = u64::from(machine.nodes());
    text.put_form(b"Machine: $ node", &[nodes]);
    text.put_either(nodes, b"", b"s");
    text.put(b" with memory on ");
    put_nodes(text, &machine.memory());
    text.put(if machine.rules().is_linux() {
        b"; rules of a running kernel (linux)".as_slice()
    } else {
        b"; rules of Linux's documents (document)"
    });
    match machine.fallback() {
        Fallback::Nearest => text.put(b"; the nearest node with room is next\n"),
        Fallback::Kernel(cpus) => {
            text.put(b"; CPUs on ");
            put_nodes(text, &cpus);
            text.put(b", next is as kernels order nodes\n");
        }
    }
}

/// Writes a number in so many columns of letters.
fn put_column(text: &mut Written, number: u64, columns: u64) {
    let digits = match number {
        0..=9 => 1,
        10..=99 => 2,
        _ => 3,
    };
    for _ in digits..columns {
        text.put(b" ");
    }
    text.put_number(number);
}

/// Writes the head of the table of distances.
fn put_head(text: &mut Written, nodes: u32) {
    text.put(b"node distances to");
    for to in 0..nodes {
        put_column(text, u64::from(to), 4);
    }
    text.put(b"  frames\n");
}

/// Writes a node's row: its distances, and its memory.
fn put_row(text: &mut Written, machine: &Machine, from: u32)
    requires { from < machine.now.nodes }
{
    put_column(text, u64::from(from), 4);
    text.put(b"             ");
    for to in 0..machine.nodes() {
        put_column(text, u64::from(machine.distance(from, to)), 4);
    }
    let frames = u64::from(machine.frames(from));
    text.put(b"  ");
    if frames > 0 {
        text.put_amount(frames);
    } else {
        text.put(if machine.memory().has(from as u8) {
            b"not told".as_slice()
        } else {
            b"no memory"
        });
    }
    text.put(b"\n");
}

/// Writes the table of distances, if it is small.
fn put_distances(text: &mut Written, machine: &Machine) {
    let nodes = machine.nodes();
    if nodes > NODES {
        return;
    }
    put_head(text, nodes);
    for from in 0..nodes {
        put_row(text, machine, from);
    }
}

/// Writes of which process of a host it is.
fn put_member(text: &mut Written, member: InGroup) {
    let numbers = [u64::from(member.process), u64::from(member.group)];
    text.put_form(b"Process $, group $\n", &numbers);
}

/// Writes how pages are touched, and the nodes that the process is allowed.
fn put_touch(text: &mut Written, about: &About<'_>) {
    if let Some(touch) = about.touch {
        text.put_form(
            b"Task $ touches pages on a CPU of node $",
            &[u64::from(touch.task), u64::from(touch.cpu)],
        );
        if about.stay {
            text.put(b"; those that are there stay where they lie");
        }
        text.put(b"\n");
    }
    if let Some(allowed) = about.allowed {
        text.put(if about.added.lines.is_empty() {
            b"Allowed nodes: ".as_slice()
        } else {
            b"Allowed nodes after the added lines: "
        });
        put_nodes(text, &allowed);
        text.put(b"\n");
    }
}

/// Writes how pages of 2 MiB count: as others if they are touched, and else not.
fn put_huge(text: &mut Written, about: &About<'_>) {
    if !about.tells_huge {
        return;
    }
    if about.touch.is_none() {
        text.put(b"Pages of 2 MiB don't count\n");
        return;
    }
    text.put(b"Each page of 2 MiB counts as 512 of 4 KiB, ");
    text.put(if about.from_pools {
        b"and comes from its pool\n".as_slice()
    } else {
        b"whatever pools have\n"
    });
}

/// The bytes of a line up to its first space, which counts too.
fn word_length(line: &[u8]) -> usize {
    let mut length = 0usize;
    for byte in line {
        length = length.saturating_add(1);
        if *byte == b' ' {
            return length;
        }
    }
    length
}

/// Whether a row with so many bytes ends before the rest of its line: it has no room, or a word
/// begins that fits in a row, and not in this one.
fn ends_before(column: usize, rest: &[u8], begins_word: bool, wide: usize) -> bool {
    if column >= wide {
        return true;
    }
    if !begins_word {
        return false;
    }
    let length = word_length(rest);
    length <= wide && column.saturating_add(length) > wide
}

/// Writes a line as rows of text, which end behind a space where words fit; its first stands behind
/// so many letters, the others begin with `next`.
pub(crate) fn put_wrapped(text: &mut Written, before: usize, line: &[u8], next: &[u8]) {
    let mut wide = WIDE.saturating_sub(before);
    let mut column = 0usize;
    let mut begins_word = false;
    for place in 0..line.len() {
        if ends_before(column, &line[place..], begins_word, wide) {
            text.put(b"\n");
            text.put(next);
            wide = WIDE.saturating_sub(next.len());
            column = 0;
        }
        let byte = line[place];
        begins_word = byte == b' ';
        text.put_escaped(&[byte]);
        column = column.saturating_add(1);
    }
    text.put(b"\n");
}

/// Writes a line that was refused, and why, in rows of text.
fn put_refused(text: &mut Written, line: &[u8], fault: &[u8]) {
    let mut row = Written::new(text.alloc());
    row.put(line);
    row.put(b" (");
    row.put(fault.strip_prefix(b"refused ").unwrap_or(fault));
    row.put(b")");
    let next = b"                     ".as_slice();
    text.put(b"Added line, refused: ");
    match row.take() {
        Ok(row) => put_wrapped(text, next.len(), row.as_slice(), next),
        Err(_) => text.lack(),
    }
}

/// Writes an added line, in rows of text; and why it was refused, if it was.
fn put_line(text: &mut Written, line: &[u8], fault: &[u8]) {
    if !fault.is_empty() {
        return put_refused(text, line, fault);
    }
    let next = b"            ".as_slice();
    text.put(b"Added line: ");
    put_wrapped(text, next.len(), line, next);
}

/// Writes the added lines.
fn put_lines(text: &mut Written, added: Added<'_>) {
    let lines = added.lines;
    for place in 0..lines.len().min(LINES) {
        put_line(text, lines[place].as_bytes(), added.fault(place));
    }
    let others = lines.len().saturating_sub(LINES);
    if others > 0 {
        text.put_form(b"and $ more added lines\n", &[others as u64]);
    }
}

/// What an answer is of, in rows of text that stand as they are in a picture and in a page.
fn rows_of(alloc: Global, about: &About<'_>) -> Result<Vec<u8>, AllocError> {
    let mut text = Written::new(alloc);
    put_lines(&mut text, about.added);
    if let Some(member) = about.member {
        put_member(&mut text, member);
    }
    put_touch(&mut text, about);
    put_huge(&mut text, about);
    put_machine(&mut text, about.machine);
    put_distances(&mut text, about.machine);
    text.put(b"numaplan ");
    text.put(VERSION.as_bytes());
    text.put(b"\n");
    text.take()
}

/// A picture, or else a page, that ends with what it is of.
fn ended_with(
    alloc: Global,
    is_picture: bool,
    about: &About<'_>,
    text: Vec<u8>,
) -> Result<Vec<u8>, Halt> {
    let Ok(rows) = rows_of(alloc, about) else {
        drop(text);
        return Err(Halt::Stopped(RunFault::Memory));
    };
    let whole = if is_picture {
        picture_with(alloc, text.as_slice(), rows.as_slice())
    } else {
        page_with(alloc, text.as_slice(), rows.as_slice())
    };
    drop(rows);
    drop(text);
    Ok(whole?)
}

/// An answer, which says what it is of if it is a picture or a page; other answers are as they are.
///
/// # Errors
/// `Stopped`: out of memory.
pub fn told_of(
    alloc: Global,
    format: Format,
    about: &About<'_>,
    text: Vec<u8>,
) -> Result<Vec<u8>, Halt> {
    match format {
        Format::Svg(_) => ended_with(alloc, true, about, text),
        Format::Html(_) => ended_with(alloc, false, about, text),
        _ => Ok(text),
    }
}
