//! Lines that are added behind scripts.

/// Lines that are added behind scripts, and what is wrong with them.
#[derive(Clone, Copy)]
pub struct Added<'a> {
    /// The lines.
    pub lines: &'a [String],
    /// What is wrong with each that was played: nothing where it was accepted.
    pub faults: &'a [Vec<u8>],
}

impl<'a> Added<'a> {
    /// Lines with which nothing is wrong, or that weren't played yet.
    pub fn fine(lines: &'a [String]) -> Added<'a> {
        Added { lines, faults: &[] }
    }

    /// What is wrong with the line at a place; nothing where it was accepted.
    pub fn fault(&self, place: usize) -> &'a [u8] {
        match self.faults.get(place) {
            Some(fault) => fault.as_slice(),
            None => &[],
        }
    }
}
