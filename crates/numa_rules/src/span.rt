//! Tests of the pages of a span.
ghost use Rattle.std.specs.Prelude.{◌≡◌, ◌+◌, ◌<◌, ◌≤◌, ◌^◌, Some, None, MatchOption};
ghost use Rattle.std.specs.Prelude.{is_some, true};
ghost use Rattle.numa_machine.specs.Sizes.{whole};
ghost use Rattle.numa_ranges.specs.Maps.{any_page};
ghost use Rattle.numa_ranges.specs.Runs.{page_at};
ghost use Rattle.numa_space.specs.History.{page_count, page_of};
ghost use Rattle.numa_space.specs.Refusals.{bad_span, ends_above, takes_no_home};
ghost use Rattle.numa_rules.specs.Pages.{passes, reaches};

use numa_machine::PageSize;
use numa_ranges::Run;
use numa_requests::PAGE_BYTES;
use numa_space::{RangeRecord, Space};

/// A test of the pages of a span.
#[derive(Clone, Copy)]
pub(crate) enum SpanTest {
    /// Whether it is mapped.
    IsMapped,
    /// Whether its range has an own policy.
    HasPolicy,
    /// Whether its range has an own policy that takes no home node.
    TakesNoHome,
}

/// The end of the addresses of a space.
pub(crate) const SPACE_END: u64 = 1 << 47;

/// The first page of a span, and the number of its pages; its length is rounded up to whole pages
/// of this size.
pub(crate) fn pages_of(size: PageSize, start: u64, length: u64) -> (u64, u64)
    ensures first { result.0 ≡ page_of start }
    ensures count { result.1 ≡ page_count (whole size length) }
{
    (start / PAGE_BYTES, size.parts_in(length))
}

/// Whether a span ends above an address.
pub(crate) fn ends_above(address: u64, size: PageSize, start: u64, length: u64) -> bool
    ensures { result ≡ ends_above address start (whole size length) }
{
    let (_, pages) = pages_of(size, start, length);
    start > address || pages > (address - start) / PAGE_BYTES
}

/// The first page of a span, and the number of its pages; `None` if the span is invalid by the
/// documents' rules.
pub(crate) fn span_of(size: PageSize, start: u64, length: u64) -> Option<(u64, u64)>
    ensures span { MatchOption result (is_some (bad_span size start (whole size length)) ≡ true)
        (λ span. (bad_span size start (whole size length) ≡ None) × (span.0 ≡ page_of start)
        × (span.1 ≡ page_count (whole size length))) }
    ensures within { MatchOption result (Unit {0}) (λ span. span.0 + span.1 ≤ 2 ^ 35) }
{
    if !size.begins_at(start) {
        return None;
    }
    if ends_above(SPACE_END, size, start, length) {
        return None;
    }
    Some(pages_of(size, start, length))
}

/// Whether a range has an own policy that takes no home node.
fn takes_no_home(value: &RangeRecord) -> bool
    ensures { result ≡ takes_no_home (Some (0, value.now)) }
{
    match value.policy() {
        None => false,
        Some(policy) => policy.with_home(0).is_none(),
    }
}

/// Whether a mapped page whose range has this record passes a test.
fn passes(test: SpanTest, value: &RangeRecord) -> bool
    ensures { result ≡ passes test (Some (0, value.now)) }
{
    match test {
        SpanTest::IsMapped => true,
        SpanTest::HasPolicy => value.policy().is_some(),
        SpanTest::TakesNoHome => takes_no_home(value),
    }
}

/// Whether a run reaches into the pages from `first` up to `end`, and they pass a test.
fn reaches(test: SpanTest, run: &Run<RangeRecord>, first: u64, end: u64) -> bool
    ensures { result ≡ reaches test first end run.now }
{
    let passed = first.saturating_sub(run.first);
    let passes = passes(test, &run.value);
    run.first < end && passed < run.pages && passes
}

/// Whether some page of a span passes a test.
pub(crate) fn has_page(space: &Space, test: SpanTest, first: u64, pages: u64) -> bool
    requires some { 0 < pages }
    requires fits { first + pages < 2 ^ 64 }
    ensures { result ≡ any_page (λ page. passes test (page_at space.now.ranges page)) first
        pages }
{
    let end = first + pages;
    for run in space.range_iter() {
        if reaches(test, &run, first, end) {
            return true;
        }
    }
    false
}
