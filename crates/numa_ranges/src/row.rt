//! Runs with the numbers of their values.
ghost use Rattle.std.specs.Prelude.{◌≡◌, ◌<◌, ◌∷◌, [], length};
ghost use Rattle.numa_ranges.specs.Numbered.{run_of};

use crate::exact::Exact;
use crate::run::Run;

/// A range with the number of its value instead of the value, as
/// [`RangeMap::rows`](crate::RangeMap::rows) lends it.
#[derive(Clone, Copy, Debug, PartialEq, Eq)]
pub struct Row {
    /// The first page.
    pub first: u64,
    /// The number of pages, at least one.
    pub pages: u64,
    /// The index of the first page.
    pub index: u64,
    /// The number of the value: its index in the list of values.
    pub number: u32,
}

/// The run of a row, with its value.
#[inline]
pub(crate) fn with_value<T: Exact>(values: &[T], row: Row) -> Run<T>
    requires { row.number < length values.now }
    ensures { run_of values.now row ≡ result ∷ [] }
{
    Run {
        first: row.first,
        pages: row.pages,
        index: row.index,
        value: values[row.number as usize],
    }
}
