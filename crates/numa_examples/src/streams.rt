//! Readers and writers that fail.
use std::alloc::Global;
use std::io;
use std::io::{Read, Write};

/// Gives one byte a call, and fails after `fails_at` calls.
#[derive(Drop)]
pub struct Trickle<'a> {
    rest: &'a [u8],
    calls: usize,
    fails_at: usize,
}

impl Trickle<'_> {
    /// A reader of these bytes.
    pub fn new(bytes: &[u8], fails_at: usize) -> Trickle<'_> {
        Trickle {
            rest: bytes,
            calls: 0,
            fails_at,
        }
    }
}

impl Read for Trickle<'_> {
    fn read(&mut self, buf: &mut [u8]) -> io::Result<usize> {
        if self.calls >= self.fails_at {
            return Err(io::Error::other("refused"));
        }
        self.calls += 1;
        if buf.is_empty() {
            return Ok(0);
        }
        match self.rest.split_first() {
            None => Ok(0),
            Some((first, rest)) => {
                buf[0] = *first;
                self.rest = rest;
                Ok(1)
            }
        }
    }
}

/// Takes one byte a call, and once it is full takes none, or fails.
#[derive(Drop)]
pub struct Narrow {
    taken: Vec<u8>,
    room: usize,
    fails: bool,
    failed: usize,
}

impl Narrow {
    /// A writer with room for `room` bytes.
    pub fn new(alloc: Global, room: usize, fails: bool) -> Narrow {
        Narrow {
            taken: Vec::new(alloc),
            room,
            fails,
            failed: 0,
        }
    }

    /// What it has taken.
    pub fn taken(&self) -> &[u8] {
        self.taken.as_slice()
    }

    /// At how many calls it has failed.
    pub fn failed(&self) -> usize {
        self.failed
    }
}

impl Write for Narrow {
    fn write(&mut self, buf: &[u8]) -> io::Result<usize> {
        if self.taken.len() >= self.room {
            if self.fails {
                self.failed = self.failed.saturating_add(1);
                return Err(io::Error::other("refused"));
            }
            return Ok(0);
        }
        match buf.first() {
            None => Ok(0),
            Some(byte) => {
                self.taken.push(*byte)?;
                Ok(1)
            }
        }
    }

    fn flush(&mut self) -> io::Result<()> {
        Ok(())
    }
}
