//! What becomes of an accepted command.
use numa_space::Change;

/// An accepted command: the version after it, which is the number of accepted commands, and what it
/// changed.
#[derive(Clone, Copy)]
pub struct Acceptance {
    pub version: u64,
    pub change: Change,
}
