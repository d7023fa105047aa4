//! Work that takes long, watched.

/// Is told how far work is.
pub trait Watch {
    /// Work over this many pages begins.
    fn begin(&mut self, pages: u64);

    /// So many more of the pages are done.
    fn pass(&mut self, pages: u64);

    /// The work has ended.
    fn end(&mut self);
}

impl Watch for () {
    fn begin(&mut self, _pages: u64) {}

    fn pass(&mut self, _pages: u64) {}

    fn end(&mut self) {}
}
