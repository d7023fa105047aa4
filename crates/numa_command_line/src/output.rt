//! Standard output, whose reader may go away.
use std::io;
use std::io::{ErrorKind, Write};
use std::sync::atomic::{AtomicU64, Ordering};

/// Where answers are written, which may be a pipe whose reader goes away.
#[derive(Drop)]
pub struct Outlet {
    // 1 once a write has found that nobody reads any more.
    is_shut: AtomicU64,
}

impl Outlet {
    /// The state before the first write.
    pub fn new() -> Outlet {
        Outlet {
            is_shut: AtomicU64::new(0),
        }
    }

    /// Whether a write has found that nobody reads any more.
    pub fn is_shut(&self) -> bool {
        self.is_shut.load(Ordering::SeqCst) == 1
    }

    /// A writer that notes here if its reader has gone.
    pub fn writer<W>(&self, writer: W) -> Output<'_, W> {
        Output {
            writer,
            outlet: self,
        }
    }
}

/// A writer, and where it notes that its reader has gone.
#[derive(Drop)]
pub struct Output<'a, W> {
    writer: W,
    outlet: &'a Outlet,
}

impl<W: Write> Write for Output<'_, W> {
    fn write(&mut self, bytes: &[u8]) -> io::Result<usize> {
        match self.writer.write(bytes) {
            Ok(count) => Ok(count),
            Err(error) => {
                if error.kind() == ErrorKind::BrokenPipe {
                    self.outlet.is_shut.store(1, Ordering::SeqCst);
                }
                Err(error)
            }
        }
    }

    fn flush(&mut self) -> io::Result<()> {
        self.writer.flush()
    }
}
