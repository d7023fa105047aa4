//! Pages of 2 MiB: at which offsets they begin, and whether a span would part one.
ghost use Rattle.std.specs.Prelude.{◌≡◌, ◌+◌, ◌<◌, ◌^◌, ◌&&◌, ◌||◌, not, false, is_some};
ghost use Rattle.std.specs.Option.{option_map_or};
ghost use Rattle.numa_machine.specs.Sizes.{is_huge};
ghost use Rattle.numa_ranges.specs.Maps.{any_page};
ghost use Rattle.numa_ranges.specs.Runs.{page_at};
ghost use Rattle.numa_space.specs.Refusals.{inside_of, keeps_home, lacks_pages, parts_pages};
ghost use Rattle.numa_space.specs.Refusals.{unaligned_offset};
ghost use Rattle.numa_space.specs.Same.{same_record};

use crate::page_ranges::PageTest;
use crate::range_record::RangeRecord;
use crate::space::Space;
use numa_machine::PageSize;

/// Whether there is a policy other than this.
fn is_other(policy: &RangeRecord, inside: Option<RangeRecord>) -> bool
    ensures { result ≡ option_map_or (λ old. not (same_record policy.now old)) inside false }
{
    match inside {
        Some(old) => *policy != old,
        None => false,
    }
}

/// Whether there is a policy that would get another home.
fn moves_home(node: u8, inside: Option<RangeRecord>) -> bool
    ensures { result ≡ option_map_or (λ old. not (keeps_home node old)) inside false }
{
    match inside {
        Some(old) => old != old.homed(node),
        None => false,
    }
}

/// Whether no page of this size begins at an offset.
fn is_unaligned(size: PageSize, offset: u64) -> bool
    ensures { result ≡ is_some (unaligned_offset size offset) }
{
    match size {
        PageSize::Small => false,
        PageSize::Huge => offset % 512 != 0,
    }
}

/// Whether pages of 2 MiB may be mapped, once some of this size are.
pub(super) fn marked(had: bool, size: PageSize) -> bool
    ensures { result ≡ (had || is_huge size) }
{
    had || size.is_huge()
}

impl Space {
    /// Whether no page of this size begins at the offset at which a free span is to be mapped.
    pub(super) fn lacks_offset(&self, size: PageSize, offset: u64, first: u64, pages: u64) -> bool
        requires some { 0 < pages }
        requires fits { first + pages < 2 ^ 64 }
        ensures { result ≡ (is_some (unaligned_offset size offset)
            && not (any_page (λ page. is_some (page_at self.now.ranges page)) first pages)) }
    {
        is_unaligned(size, offset) && !self.pages.has_page(PageTest::IsMapped, first, pages)
    }

    /// The own policy of the page of 2 MiB inside which the border before a page lies, if it lies
    /// inside one.
    fn inside_of(&self, page: u64) -> Option<RangeRecord>
        ensures { result ≡ inside_of (page_at self.now.ranges page) }
    {
        if !self.has_huge {
            return None;
        }
        if page % 512 == 0 {
            return None;
        }
        self.pages.inside_of(page)
    }

    /// Whether a span that is to be unmapped parts a page of 2 MiB.
    #[tactic(auto, unfolding(crate::specs::Refusals::parts_pages))]
    pub(super) fn parts_mapped(&self, first: u64, pages: u64) -> bool
        requires { first + pages < 2 ^ 64 }
        ensures { result ≡ parts_pages (λ policy. false) (page_at self.now.ranges) first pages }
    {
        self.inside_of(first).is_some() || self.inside_of(first + pages).is_some()
    }

    /// Whether a span that is to have this policy parts a page of 2 MiB.
    #[tactic(auto, unfolding(crate::specs::Refusals::parts_pages))]
    fn parts_other(&self, first: u64, pages: u64, policy: &RangeRecord) -> bool
        requires { first + pages < 2 ^ 64 }
        ensures { result ≡ parts_pages (same_record policy.now) (page_at self.now.ranges) first
            pages }
    {
        is_other(policy, self.inside_of(first)) || is_other(policy, self.inside_of(first + pages))
    }

    /// Whether it does, and none of its pages is missing, or with `passes_holes` not all are.
    pub(super) fn parts_bound(
        &self,
        first: u64,
        pages: u64,
        policy: &RangeRecord,
        passes_holes: bool,
    ) -> bool
        requires some { 0 < pages }
        requires fits { first + pages < 2 ^ 64 }
        ensures { result ≡ (parts_pages (same_record policy.now) (page_at self.now.ranges) first
            pages && not (lacks_pages passes_holes (page_at self.now.ranges) first pages)) }
    {
        self.parts_other(first, pages, policy)
            && !self.pages.lacks_pages(passes_holes, first, pages)
    }

    /// Whether a span whose policies are to have this home parts a page of 2 MiB.
    #[tactic(auto, unfolding(crate::specs::Refusals::parts_pages))]
    pub(super) fn parts_homed(&self, first: u64, pages: u64, node: u8) -> bool
        requires { first + pages < 2 ^ 64 }
        ensures { result ≡ parts_pages (keeps_home node) (page_at self.now.ranges) first pages }
    {
        moves_home(node, self.inside_of(first)) || moves_home(node, self.inside_of(first + pages))
    }
}
