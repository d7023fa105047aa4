//! Noticing that a script which is run holds answers: then people mean `expect`.
use memchr::{memchr, memchr_iter};
use std::alloc::{AllocError, Global};
use std::io;
use std::io::Read;
use std::sync::atomic::{AtomicU64, Ordering};

/// The bytes at the beginning of a text that are looked at.
const HEAD: u64 = 16_384;

/// The mark of an answer, behind a script line or at the beginning of a line.
const MARK: [u8; 4] = *b" => ";

/// Where an answer was noticed first.
#[derive(Drop)]
pub struct Notice {
    // The text, counted from 1; 0 while there is none. And the line there, from 1.
    text: AtomicU64,
    line: AtomicU64,
}

impl Notice {
    /// Before the first text.
    pub fn new() -> Notice {
        Notice {
            text: AtomicU64::new(0),
            line: AtomicU64::new(0),
        }
    }

    /// The place of the text, from 0, and the line, from 1, of the first answer.
    pub fn place(&self) -> Option<(usize, u64)> {
        let text = self.text.load(Ordering::SeqCst);
        let place = usize::try_from(text.checked_sub(1)?).ok()?;
        Some((place, self.line.load(Ordering::SeqCst)))
    }
}

/// A text, and where it is noted that it holds an answer.
#[derive(Drop)]
pub struct Noticing<'a, S> {
    source: S,
    notice: &'a Notice,
    text: u64,
    line: u64,
    // The bytes that were looked at, how much of the mark the latest are, and whether the line
    // is a comment.
    bytes: u64,
    matched: usize,
    is_comment: bool,
    is_begin: bool,
}

impl<S> Noticing<'_, S> {
    /// Looks at a byte.
    fn look_at(&mut self, byte: u8) {
        if byte == b'\n' {
            self.line = self.line.saturating_add(1);
            (self.matched, self.is_comment, self.is_begin) = (1, false, true);
            return;
        }
        self.is_comment = self.is_comment || self.is_begin && byte == b'#';
        self.is_begin = false;
        if MARK.get(self.matched) == Some(&byte) {
            self.matched = self.matched.saturating_add(1);
        } else {
            self.matched = usize::from(byte == b' ');
        }
        if self.matched == MARK.len() && !self.is_comment {
            self.note();
        }
    }

    /// Notes an answer, and looks no further.
    fn note(&mut self) {
        self.bytes = HEAD;
        if self.notice.text.load(Ordering::SeqCst) == 0 {
            self.notice.text.store(self.text, Ordering::SeqCst);
            self.notice.line.store(self.line, Ordering::SeqCst);
        }
    }

    /// Looks at bytes in which no mark ends: all but the last line are counted alone.
    fn pass(&mut self, bytes: &[u8]) {
        let mut begin = 0usize;
        for end in memchr_iter(b'\n', bytes) {
            self.line = self.line.saturating_add(1);
            begin = end.saturating_add(1);
        }
        if begin > 0 {
            (self.matched, self.is_comment, self.is_begin) = (1, false, true);
        }
        for byte in bytes.get(begin..).unwrap_or(&[]) {
            self.look_at(*byte);
        }
    }

    /// Looks at each of the bytes, until an answer is noted.
    fn look_at_each(&mut self, bytes: &[u8]) {
        for byte in bytes {
            if self.bytes >= HEAD {
                return;
            }
            self.look_at(*byte);
        }
    }

    /// Whether a mark may end within the bytes.
    fn may_end_in(&self, bytes: &[u8]) -> bool {
        self.matched > 2 || memchr(b'>', bytes).is_some()
    }

    /// Looks at the next bytes, as far as they are among the first.
    fn look(&mut self, bytes: &[u8]) {
        let left = HEAD.saturating_sub(self.bytes) as usize;
        let first = bytes.get(..left).unwrap_or(bytes);
        if self.may_end_in(first) {
            self.look_at_each(first);
        } else {
            self.pass(first);
        }
        self.bytes = self.bytes.saturating_add(first.len() as u64);
    }
}

impl<S: Read> Read for Noticing<'_, S> {
    fn read(&mut self, buffer: &mut [u8]) -> io::Result<usize> {
        let count = self.source.read(buffer)?;
        if self.bytes < HEAD {
            self.look(buffer.get(..count).unwrap_or(&[]));
        }
        Ok(count)
    }
}

/// Texts that are looked at as they are read, each with its name.
///
/// # Errors
/// `AllocError`: out of memory.
pub fn noticed_by<S: Drop>(
    alloc: Global,
    texts: Vec<(String, S)>,
    notice: &Notice,
) -> Result<Vec<(String, Noticing<'_, S>)>, AllocError> {
    let mut all = Vec::new(alloc);
    let mut text = 0u64;
    for (name, source) in texts {
        text = text.saturating_add(1);
        let noticing = Noticing {
            source,
            notice,
            text,
            line: 1,
            bytes: 0,
            matched: 1,
            is_comment: false,
            is_begin: true,
        };
        all.push((name, noticing))?;
    }
    Ok(all)
}
