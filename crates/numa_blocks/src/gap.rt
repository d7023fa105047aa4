//! Gaps: pages in a row that nobody touched.
ghost use Rattle.std.specs.Prelude.{◌≡◌, ◌≤◌, ◌<◌, ◌^◌, ℕ};
ghost use Rattle.numa_blocks.specs.Blocks.{lies_within};

use crate::units::{block_of, unit};

/// The pages around a page that nobody touched.
#[derive(Clone, Copy, Debug, PartialEq, Eq)]
pub struct Gap {
    /// The first page.
    pub first: u64,
    /// The page after the last.
    pub end: u64,
}

/// Whether the block of a page lies from one page on and before another.
pub(crate) fn lies_within(first: u64, end: u64, order: u32, page: u64) -> bool
    requires order { order ≤ 9 }
    requires page { page < 2 ^ 35 }
    ensures { result ≡ lies_within first end order page }
{
    let block = block_of(page, order);
    first <= block && block + unit(order) <= end
}
