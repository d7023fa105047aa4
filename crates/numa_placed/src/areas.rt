//! Which pages of a span are judged where it has a hole.
ghost use Rattle.std.specs.Prelude.{◌≡◌, ◌+◌, ◌-◌, ◌≤◌, ◌<◌, ◌^◌, ◌==◌, if◌then◌else◌};
ghost use Rattle.numa_ranges.specs.Runs.{page_at};
ghost use Rattle.numa_placed.specs.Astray.{judged_end, judged_pages};

use numa_machine::Rules;
use numa_space::Space;

/// Where the area begins that has a page, if a range begins here and one before it did there.
fn area_of(begins: u64, page: u64, area: u64) -> u64
    ensures { result ≡ (if begins == page then page else area) }
{
    if begins == page {
        return page;
    }
    area
}

/// The page up to which the kernel judges the pages from `first` up to `end`.
fn judged_end(space: &Space, first: u64, end: u64) -> u64
    requires { first ≤ end }
    ensures { result ≡ judged_end (page_at space.now.ranges) first first (end - first) }
{
    let mut area = first;
    let mut page = first;
    for range in space.range_iter() {
        if page == end {
            return end;
        }
        if range.first > page {
            return area;
        }
        area = area_of(range.first, page, area);
        page = page.max(end.min(range.first + range.pages));
    }
    if page == end {
        return end;
    }
    area
}

/// How many pages of a span, from its first on, are judged where they have to lie by a policy's
/// list (mbind(2), MPOL_MF_STRICT). By the documents' rules these are all, once it is known that
/// none of them is a hole. The kernel looks for a hole behind each range of mapped pages before it
/// looks at the range's pages: so it judges the pages before the range that ends at the first hole,
/// and tells the hole only then.
pub fn judged_pages(space: &Space, first: u64, pages: u64) -> u64
    requires { first + pages < 2 ^ 64 }
    ensures judged { result ≡ judged_pages space.now.machine.rules (page_at space.now.ranges) first
        pages }
    ensures at_most { result ≤ pages }
{
    match space.machine().rules() {
        Rules::Document => pages,
        Rules::Linux => judged_end(space, first, first + pages) - first,
    }
}
