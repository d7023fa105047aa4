//! Messages that stand before others.
use crate::findings::Findings;
use numa_lines::RunFault;
use std::alloc::AllocError;
use std::io::Write;

impl<W: Write> Findings<W> {
    /// Gathers messages from now on, so that others may stand before them.
    ///
    /// # Errors
    /// `AllocError`: out of memory.
    pub fn gather(&mut self) -> Result<(), AllocError> {
        self.output.gather(self.alloc)
    }

    /// Writes messages about lines that others judge, before those that are gathered still.
    ///
    /// # Errors
    /// `Write`: writing failed.
    pub fn tell_first(&mut self, messages: &[u8]) -> Result<(), RunFault> {
        match self.output.inner.write_all(messages) {
            Ok(()) => Ok(()),
            Err(_) => Err(RunFault::Write),
        }
    }
}
