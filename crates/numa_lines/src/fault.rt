//! Why reading, answering or writing ended early.
ghost use Rattle.std.specs.Prelude.{◌≡◌};
ghost use Rattle.numa_lines.specs.declared.fault.RunFault.TheVariants as fault;

use std::alloc::{AllocError, AllocFailed};
use thiserror::Error;

/// Why a run ended early.
#[derive(Clone, Copy, Debug, PartialEq, Eq, Error)]
pub enum RunFault {
    /// A read failed, or more than 4,294,967,295 reads were needed.
    #[error("read fault")]
    Read,
    /// A write failed, or took no byte.
    #[error("write fault")]
    Write,
    /// Out of memory.
    #[error("out of memory")]
    Memory,
}

impl From<AllocError> for RunFault {
    fn from(_error: AllocError) -> RunFault
        ensures { result ≡ fault.Memory }
    {
        RunFault::Memory
    }
}

impl<T: Drop> From<AllocFailed<T>> for RunFault {
    fn from(_failed: AllocFailed<T>) -> RunFault
        ensures { result ≡ fault.Memory }
    {
        RunFault::Memory
    }
}
