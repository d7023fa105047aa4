//! The latest answer, with which the expected lines are compared.
ghost use Rattle.std.specs.Prelude.{◌≡◌, ◌≤◌, length};
ghost use Rattle.numa_lines.specs.Counts.{is_over};

use memchr::memchr;
use std::alloc::Global;

/// The answer to the latest script line.
#[derive(Drop)]
pub(crate) struct LatestAnswer {
    /// Whole lines with their line feeds, or nothing.
    pub(crate) text: Vec<u8>,
    // The byte at which its next line begins, and the byte up to which the expected line matches.
    line: usize,
    at: usize,
}

impl LatestAnswer {
    /// No answer.
    pub(crate) fn new(alloc: Global) -> LatestAnswer {
        LatestAnswer {
            text: Vec::new(alloc),
            line: 0,
            at: 0,
        }
    }

    /// Clears it.
    pub(crate) fn clear(&mut self) {
        self.text.clear();
        self.line = 0;
        self.at = 0;
    }

    /// Whether all its lines were compared.
    pub(crate) fn is_over(&self) -> bool
        ensures { result ≡ is_over self.now }
    {
        self.line >= self.text.len()
    }

    /// Its next line, without the line feed.
    pub(crate) fn line(&self) -> &[u8] {
        let Some(rest) = self.text.get(self.line..) else {
            return &[];
        };
        match memchr(b'\n', rest) {
            Some(end) => &rest[..end],
            None => rest,
        }
    }

    /// The part of that line which the expected line matches so far.
    pub(crate) fn taken(&self) -> &[u8] {
        self.text.get(self.line..self.at).unwrap_or(&[])
    }

    /// Moves to the next line.
    pub(crate) fn go_on(&mut self) {
        self.line = self
            .line
            .saturating_add(self.line().len())
            .saturating_add(1);
        self.at = self.line;
    }

    /// Matches the next bytes of an expected line, and returns whether they match.
    pub(crate) fn take(&mut self, bytes: &[u8]) -> bool {
        let goes_on = match self.text.get(self.at..) {
            Some(rest) => rest.starts_with(bytes),
            None => false,
        };
        if goes_on {
            self.at = self.at.saturating_add(bytes.len());
        }
        goes_on
    }

    /// Matches the next bytes of an expected line up to the first that differs, and returns how
    /// many match.
    pub(crate) fn take_some(&mut self, bytes: &[u8]) -> usize
        ensures { result ≤ length bytes.now }
    {
        for count in 0..bytes.len() {
            if !self.take(&bytes[count..count + 1]) {
                return count;
            }
        }
        bytes.len()
    }

    /// Moves to the next line if the expected line matches all of this one, and returns whether it
    /// does.
    pub(crate) fn end_line(&mut self) -> bool {
        let ends = self.take(b"\n");
        if ends {
            self.line = self.at;
        }
        ends
    }
}
