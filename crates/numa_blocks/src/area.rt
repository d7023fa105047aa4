//! Areas: pages in a row with consecutive indexes, one policy and one advice.
ghost use Rattle.std.specs.Prelude.{◌≡◌, ◌+◌, ◌*◌, ◌/◌, ◌^◌, ◌≤◌, ℕ};
ghost use Rattle.numa_ranges.specs.Runs.{end_of};
ghost use Rattle.numa_blocks.specs.Areas.{common_area};
ghost use Rattle.numa_blocks.specs.Blocks.{HasPage, block_index, is_own, lies_in};

use crate::gap::lies_within;
use crate::settings::Advice;
use crate::units::{block_of, blocks};
use numa_ranges::Run;

/// Pages in a row with consecutive indexes, one policy and one advice, as many as there are: a
/// virtual memory area.
#[derive(Clone, Copy, Debug, PartialEq, Eq)]
pub struct Area {
    /// The first page.
    pub first: u64,
    /// The number of pages.
    pub pages: u64,
    /// The index of the first page.
    pub index: u64,
    /// The advice about all of them.
    pub advice: Advice,
}

/// Pages in a row with one advice, as many as there are.
#[derive(Clone, Copy, Debug, PartialEq, Eq)]
pub struct Advised {
    /// The first page.
    pub first: u64,
    /// The page after the last.
    pub end: u64,
    /// The advice about all of them.
    pub advice: Advice,
}

impl Area {
    /// The area with a page, which a range of a space and a row of pages with one advice both have:
    /// what they have in common.
    pub fn common<T>(run: &Run<T>, row: &Advised) -> Area
        requires pages { end_of run.now ≤ 2 ^ 35 }
        requires index { run.now.index + run.now.pages ≤ 2 ^ 48 }
        requires before { row.now.first ≤ end_of run.now }
        requires behind { run.now.first ≤ row.now.end }
        requires row { row.now.first ≤ row.now.end }
        ensures { result ≡ common_area run.now row.now }
    {
        let first = run.first.max(row.first);
        let end = (run.first + run.pages).min(row.end);
        Area {
            first,
            pages: end - first,
            index: run.index + (first - run.first),
            advice: row.advice,
        }
    }

    /// Whether the pages are a task's own: none of a pool of pages of 2 MiB, and none of a shared
    /// object. Others take no blocks.
    pub fn is_own(&self) -> bool
        ensures { result ≡ is_own self.now }
    {
        self.index < 1 << 36
    }

    /// Whether the block of a page lies in the area.
    pub fn has_block(&self, order: u32, page: u64) -> bool
        requires order { order ≤ 9 }
        requires page { HasPage self.now page }
        ensures { result ≡ lies_in self.now order page }
    {
        lies_within(self.first, self.first + self.pages, order, page)
    }

    /// The index of the block of a page, where nodes take turns: it counts blocks from the area's
    /// beginning, so that an area which begins elsewhere has other ones.
    ///
    /// Of an area of 0xc00 pages from page 0x300005 on, whose index is the same, the block of order
    /// 9 of page 0x300400 is the second, and has the index 0x1801.
    pub fn block_index(&self, order: u32, page: u64) -> u64
        requires order { order ≤ 9 }
        requires page { HasPage self.now page }
        ensures { result ≡ block_index self.now order page }
    {
        let before = block_of(page, order).saturating_sub(self.first);
        blocks(self.index, order) + blocks(before, order)
    }
}
