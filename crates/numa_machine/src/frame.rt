//! Page frames.

/// A page frame: its node, and its number among the frames of that node, from 0.
#[derive(Clone, Copy, PartialEq, Eq, Debug, Drop)]
pub struct Frame {
    pub node: u8,
    pub number: u16,
}
