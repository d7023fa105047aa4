//! Why a report is refused.
ghost use Rattle.std.specs.Prelude.{◌≡◌};
ghost use Rattle.numa_reports.specs.declared.fault.ReportError.TheVariants as fault;

use numa_machine::{NoMemory, PlaceRefusal};
use std::alloc::AllocError;

/// Why a report is refused.
#[derive(Clone, Copy)]
pub enum ReportError {
    /// The question was refused: the machine lacks the node.
    Refused(PlaceRefusal),
    /// Out of memory for the report.
    Memory,
}

impl From<AllocError> for ReportError {
    ghost from_gives = { λ _ given. given ≡ fault.Memory };

    fn from(_error: AllocError) -> ReportError {
        ReportError::Memory
    }
}

impl From<PlaceRefusal> for ReportError {
    ghost from_gives = { λ refusal given. given ≡ fault.Refused refusal };

    fn from(refusal: PlaceRefusal) -> ReportError {
        ReportError::Refused(refusal)
    }
}

impl From<NoMemory> for ReportError {
    ghost from_gives = { λ _ given. given ≡ fault.Memory };

    fn from(_error: NoMemory) -> ReportError {
        ReportError::Memory
    }
}
