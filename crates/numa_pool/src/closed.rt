//! The state of the pools at their end.

/// The number of frames of each node that were taken at the end, and whether one seat held them
/// all.
#[derive(Clone, Copy, PartialEq, Eq, Debug, Drop)]
pub struct Closed {
    pub taken: [u32; 256],
    pub alone: bool,
}
