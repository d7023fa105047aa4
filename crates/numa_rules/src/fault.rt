//! Why an explanation is refused.
ghost use Rattle.std.specs.Prelude.{◌≡◌};
ghost use Rattle.numa_rules.specs.declared.fault.ReasonError.TheVariants as fault;

use numa_machine::PlaceRefusal;
use std::alloc::AllocError;

/// Why an explanation is refused.
#[derive(Clone, Copy, Debug)]
pub enum ReasonError {
    /// The question was refused: the machine lacks the node, or the page isn't mapped.
    Refused(PlaceRefusal),
    /// Out of memory.
    NoMemory,
}

impl From<AllocError> for ReasonError {
    fn from(_error: AllocError) -> ReasonError
        ensures { result ≡ fault.NoMemory }
    {
        ReasonError::NoMemory
    }
}
