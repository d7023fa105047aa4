//! Mapped and unmapped pages of a span.
use numa_mode::Mode;
use numa_space::Space;

/// The first page from `first` up to `end` that isn't mapped.
pub(crate) fn first_unmapped(space: &Space, first: u64, end: u64) -> Option<u64> {
    let mut page = first;
    for range in space.range_iter() {
        let behind = range.first.saturating_add(range.pages);
        if range.first > page {
            break;
        }
        if behind > page {
            page = behind;
        }
    }
    if page < end { Some(page) } else { None }
}

/// The first page from `first` up to `end` that is mapped.
pub(crate) fn first_mapped(space: &Space, first: u64, end: u64) -> Option<u64> {
    for range in space.range_iter() {
        let behind = range.first.saturating_add(range.pages);
        if behind > first {
            let page = range.first.max(first);
            return if page < end { Some(page) } else { None };
        }
    }
    None
}

/// The first page from `first` up to `end` whose range has a policy that takes no home node.
pub(crate) fn first_without_home(space: &Space, first: u64, end: u64) -> Option<u64> {
    for range in space.range_iter() {
        let behind = range.first.saturating_add(range.pages);
        let page = range.first.max(first);
        let Some(policy) = range.value.policy() else {
            continue;
        };
        let takes_home = matches!(policy.spec().mode(), Mode::Bind | Mode::PreferredMany);
        if behind > first && page < end && !takes_home {
            return Some(page);
        }
    }
    None
}

/// Whether a page is mapped.
pub(crate) fn is_mapped(space: &Space, page: u64) -> bool {
    space.list_at(0, page, 0).is_ok()
}
