//! The ways to keep rows.
ghost use Rattle.std.specs.Prelude.{◌≡◌, ◌++◌, ◌<◌, ◌≤◌, length, List, IfOk};
ghost use Rattle.std.specs.Prelude.{OnOk, OnErr};
ghost use Rattle.std.specs.List.{splice};
ghost use Rattle.numa_rows.specs.Searches.{HasRow, IsChunkOf};

use crate::part::Part;
use std::alloc::{AllocError, Global};
use std::ops::Range;

/// A way to keep the rows of a chunk: owned by it alone ([`Owned`](crate::Owned)), or shared by its
/// copies, in a vector ([`Shared`](crate::Shared)) or in chunks ([`Group`](crate::Group)).
///
/// Each `AllocError` means out of memory; then nothing has changed.
pub trait Keep<T>: Drop {
    /// The rows of the chunk.
    ghost rows_of: { Self → List T };

    /// The most rows that an edit leaves in a chunk; else it is re-cut.
    fn most() -> usize
        ensures low { 128 ≤ result }
        ensures high { result ≤ 6144 };

    /// Keeps these rows.
    fn keep(alloc: Global, rows: &[T]) -> Result<Self, AllocError>
        ensures { IfOk result (λ chunk. rows_of chunk ≡ rows.now) };

    /// The number of rows.
    fn size(&self) -> usize
        ensures { result ≡ length (rows_of self.now) };

    /// Rows that are contiguous in memory, the row at `place` among them.
    fn part_at(&self, place: usize) -> Part<'_, T>
        requires { place < length (rows_of self.now) }
        ensures part { IsChunkOf (rows_of self.now) result }
        ensures has { HasRow result place };

    /// Appends the rows to `others`.
    fn append_to(&self, others: &mut Vec<T>) -> Result<(), AllocError>
        ensures { OnOk result (others.new.items ≡ others.old.items ++ rows_of self.now) };

    /// Returns a copy.
    fn copied(&self, alloc: Global) -> Result<Self, AllocError>
        ensures { IfOk result (λ chunk. rows_of chunk ≡ rows_of self.now) };

    /// Replaces the rows from one place to another.
    fn replace(&mut self, alloc: Global, span: Range<usize>, rows: &[T]) -> Result<(), AllocError>
        requires rises { span.start ≤ span.end }
        requires within { span.end ≤ length (rows_of self.old) }
        ensures ok { OnOk result (rows_of self.new
            ≡ splice (rows_of self.old) span.start span.end rows.now) }
        ensures unchanged { OnErr result (rows_of self.new ≡ rows_of self.old) };
}
