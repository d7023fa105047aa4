//! Free pages that the predictions of several processes share.
ghost use Rattle.std.specs.Prelude.{◌≡◌, ◌^◌, replicate};
ghost use Rattle.numa_reports.specs.Filled.{with_named};

use crate::absent::add_counts;
use crate::filling::free_from;
use numa_sheets::FreePages;

/// The most pages that the spaces of a host can map together.
const ALL_PAGES: u64 = 1 << 47;

/// Free pages of nodes, of which one space after the other takes some.
#[derive(Clone, Copy)]
pub struct Account {
    /// The number of free pages of each node.
    pub free: [u64; 256],
    /// The number of pages of each node that were taken.
    pub taken: [u64; 256],
    /// The number of mapped pages that were to take one.
    pub pages: u64,
}

impl Account {
    /// Before the first space: named nodes have the given number of free pages (the last counts),
    /// others as many as 4,096 spaces can map, so that they never run out.
    pub fn new(named: &[FreePages]) -> Account
        ensures { result.free ≡ with_named (replicate 256 (2 ^ 47)) named.now }
    {
        Account {
            free: free_from(ALL_PAGES, named),
            taken: [0; 256],
            pages: 0,
        }
    }

    /// Counts pages that were taken, of so many mapped ones.
    pub(crate) fn count(&mut self, taken: &[u64; 256], pages: u64)
        ensures { self.new.free ≡ self.old.free }
    {
        add_counts(&mut self.taken, taken);
        self.pages = self.pages.saturating_add(pages);
    }
}
