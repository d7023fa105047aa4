//! What a space holds of a page.
ghost use Rattle.std.specs.Prelude.{◌≡◌, ◌+◌, ◌≤◌, ◌^◌, IfSome};
ghost use Rattle.numa_ranges.specs.Counts.{IsRange};
ghost use Rattle.numa_ranges.specs.Runs.{in_pages, page_at};
ghost use Rattle.numa_space.specs.Same.{same_record};
ghost use Rattle.numa_rules.specs.Reasons.{run_with};

use numa_ranges::Run;
use numa_space::{RangeRecord, Space};

/// Whether a run has a page.
fn has_page(run: &Run<RangeRecord>, page: u64) -> bool
    ensures { result ≡ in_pages run.now.first run.now.pages page }
{
    run.first <= page && page - run.first < run.pages
}

/// The range of a space that has a page, if it is mapped.
pub fn range_of(space: &Space, page: u64) -> Option<Run<RangeRecord>>
    ensures run { result ≡ run_with space.now.ranges page }
    ensures range { IfSome result (λ run. IsRange same_record (page_at space.now.ranges) run) }
    ensures small { IfSome result (λ run. run.index + run.pages ≤ 2 ^ 48) }
{
    for range in space.range_iter() {
        if has_page(&range, page) {
            return Some(range);
        }
    }
    None
}
