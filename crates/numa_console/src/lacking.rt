//! What is left unwritten where memory runs out: an answer may then be cut short, and a difference
//! between it and what was wanted would be none.
use crate::answering::Answering;
use numa_lines::Respond;
use std::alloc::AllocError;
use std::io;
use std::io::Write;
use std::sync::atomic::{AtomicU64, Ordering};

/// Whether memory ran out while a line was answered.
#[derive(Drop)]
pub struct Lack {
    // 1 once it did.
    is_met: AtomicU64,
}

impl Lack {
    /// Before the first line.
    pub fn new() -> Lack {
        Lack {
            is_met: AtomicU64::new(0),
        }
    }

    /// A script whose lines note here if memory runs out.
    pub fn noted_by(&self, answering: Answering) -> Noting<'_> {
        Noting {
            answering,
            lack: self,
        }
    }

    /// A writer to which nothing more is written once memory ran out.
    pub fn heeded_by<W>(&self, writer: W) -> Heeding<'_, W> {
        Heeding { writer, lack: self }
    }
}

/// A script being answered, and where it notes that memory ran out.
#[derive(Drop)]
pub struct Noting<'a> {
    answering: Answering,
    lack: &'a Lack,
}

impl Respond for Noting<'_> {
    ghost use Rattle.numa_subjects.specs.Faults.{tells_fault as says_fault};

    ghost is_fault = { says_fault };

    fn begin(&mut self) {
        self.answering.begin();
    }

    fn respond(&mut self, line: &[u8], answer: &mut Vec<u8>) -> Result<(), AllocError> {
        match self.answering.respond(line, answer) {
            Ok(()) => Ok(()),
            Err(fault) => {
                self.lack.is_met.store(1, Ordering::SeqCst);
                Err(fault)
            }
        }
    }

    fn tells_fault(&self, answer: &[u8]) -> bool {
        self.answering.tells_fault(answer)
    }
}

/// A writer to which nothing more is written once memory ran out.
#[derive(Drop)]
pub struct Heeding<'a, W> {
    writer: W,
    lack: &'a Lack,
}

impl<W: Write> Write for Heeding<'_, W> {
    fn write(&mut self, bytes: &[u8]) -> io::Result<usize> {
        if self.lack.is_met.load(Ordering::SeqCst) == 1 {
            return Ok(bytes.len());
        }
        self.writer.write(bytes)
    }

    fn flush(&mut self) -> io::Result<()> {
        self.writer.flush()
    }
}
