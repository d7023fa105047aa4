//! The answers of a crew.
use crate::refusal::FaultRefusal;
use numa_requests::Placement;

/// The answer to one request.
#[derive(PartialEq, Eq, Debug, Drop)]
pub enum Answer {
    /// The page was placed.
    Placed(Placement),
    /// The page wasn't placed.
    Refused(FaultRefusal),
}
