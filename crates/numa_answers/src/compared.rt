//! Worked lines, compared with the answers that they get.
ghost use Rattle.std.specs.Prelude.{◌≤◌, length};

use crate::versions::put_without_versions;
use numa_lines::Watched;
use std::alloc::{AllocError, Global};
use std::io::Write;
use std::mem::replace;

/// A script line of a worked script, with the answers that are wanted and given.
#[derive(Drop)]
pub(crate) struct Worked {
    /// The script line, and its number in its text, from 1.
    pub(crate) script: Vec<u8>,
    pub(crate) place: u64,
    /// The lines that hold it and the wanted answer, as they were read.
    pub(crate) whole: Vec<u8>,
    /// The wanted answer and the given one: whole lines. Nothing is wanted if the first is empty.
    pub(crate) wanted: Vec<u8>,
    pub(crate) given: Vec<u8>,
    /// The given answer with its versions.
    pub(crate) answer: Vec<u8>,
    /// The number of the first line that holds a part of the wanted answer.
    pub(crate) first: u64,
}

/// The number of bytes before the first line feed, or all.
pub(crate) fn line_end(text: &[u8]) -> usize
    ensures { result ≤ length text.now }
{
    for place in 0..text.len() {
        if text[place] == b'\n' {
            return place;
        }
    }
    text.len()
}

/// The text behind the first line.
pub(crate) fn behind_line(text: &[u8]) -> &[u8] {
    let end = line_end(text);
    text.get(end..).unwrap_or(&[]).get(1..).unwrap_or(&[])
}

/// The number of lines of a text.
pub(crate) fn line_count(text: &[u8]) -> u64 {
    let mut count = 0u64;
    for byte in text {
        if *byte == b'\n' {
            count = count.saturating_add(1);
        }
    }
    count
}

impl Worked {
    /// Before the first script line.
    pub(crate) fn new(alloc: Global) -> Worked {
        Worked {
            script: Vec::new(alloc),
            place: 1,
            whole: Vec::new(alloc),
            wanted: Vec::new(alloc),
            given: Vec::new(alloc),
            answer: Vec::new(alloc),
            first: 1,
        }
    }

    /// Begins the script line of this number.
    pub(crate) fn begin(&mut self, place: u64) {
        self.script.clear();
        self.whole.clear();
        self.wanted.clear();
        self.given.clear();
        self.answer.clear();
        self.place = place;
    }

    /// Appends a line of those that hold it.
    pub(crate) fn add_line(&mut self, line: &[u8]) -> Result<(), AllocError> {
        self.whole.extend_from_slice(line)?;
        self.whole.extend_from_slice(b"\n")
    }

    /// Appends a line of the wanted answer, in the line of this number.
    pub(crate) fn want(&mut self, place: u64, line: &[u8]) -> Result<(), AllocError> {
        if self.wanted.is_empty() {
            self.first = place;
        }
        self.wanted.extend_from_slice(line)?;
        self.wanted.extend_from_slice(b"\n")
    }

    /// Makes the answers comparable: as they are, or without the numbers of versions.
    pub(crate) fn settle(&mut self, alloc: Global, any_version: bool) -> Result<(), AllocError> {
        if !any_version {
            return self.given.extend_from_slice(self.answer.as_slice());
        }
        let wanted = replace(&mut self.wanted, Vec::new(alloc));
        put_without_versions(&mut self.wanted, wanted.as_slice())?;
        put_without_versions(&mut self.given, self.answer.as_slice())
    }
}

/// How many lines of an answer are as wanted, and how many aren't.
#[derive(Clone, Copy)]
pub(crate) struct LineCounts {
    pub(crate) same: u64,
    pub(crate) different: u64,
}

/// Reports a line of an answer that isn't as wanted.
pub(crate) fn tell_line<W: Write>(
    told: &mut Watched<W>,
    name: &str,
    place: u64,
    wanted: &[u8],
    given: &[u8],
) {
    told.say(name.as_bytes());
    told.say(b":");
    told.say_number(place);
    told.say(b": wanted ");
    told.say(wanted);
    if given.is_empty() {
        return told.say(b", got nothing\n");
    }
    told.say(b", got ");
    told.say(&given[..line_end(given)]);
    told.say(b"\n");
}

/// Compares a wanted answer with the given one, line by line, and reports each line that isn't as
/// wanted, if `tells`.
pub(crate) fn compare_lines<W: Write>(
    told: &mut Watched<W>,
    name: &str,
    worked: &Worked,
    tells: bool,
) -> LineCounts {
    let mut counts = LineCounts {
        same: 0,
        different: 0,
    };
    let mut place = worked.first;
    let mut wanted = worked.wanted.as_slice();
    let mut given = worked.given.as_slice();
    for _ in 0..worked.wanted.len() {
        if wanted.is_empty() {
            break;
        }
        let line = &wanted[..line_end(wanted)];
        if !given.is_empty() && line == &given[..line_end(given)] {
            counts.same = counts.same.saturating_add(1);
        } else {
            counts.different = counts.different.saturating_add(1);
            if tells {
                tell_line(told, name, place, line, given);
            }
        }
        place = place.saturating_add(1);
        wanted = behind_line(wanted);
        given = behind_line(given);
    }
    if !given.is_empty() {
        counts.different = counts.different.saturating_add(1);
        if tells {
            tell_line(told, name, place.saturating_sub(1), b"no more", given);
        }
    }
    counts
}
