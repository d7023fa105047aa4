//! Runs of pages.
ghost use Rattle.std.specs.Prelude.{IsTrue, ◌↔◌, ◌+◌, ◌≤◌, ◌^◌};
ghost use Rattle.numa_ranges.specs.Runs.{Continues, end_of};

use crate::exact::Exact;

/// Consecutive pages with consecutive indexes and one value: an item of a range map.
#[derive(Clone, Copy, Debug, PartialEq, Eq)]
pub struct Run<T> {
    /// The first page.
    pub first: u64,
    /// The number of pages, at least one.
    pub pages: u64,
    /// The index of the first page.
    pub index: u64,
    /// The value of every page.
    pub value: T,
}

/// Whether the second run continues the first.
pub(crate) fn continues<T: Exact>(run: &Run<T>, next: &Run<T>) -> bool
    requires end { end_of run.now ≤ 2 ^ 36 }
    requires index { run.now.index + run.now.pages ≤ 2 ^ 48 }
    ensures { IsTrue result ↔ Continues run.now next.now }
{
    next.first == run.first + run.pages
        && next.index == run.index + run.pages
        && run.value == next.value
}
