//! The sizes of pages, and what the index of a page tells of its size.
//!
//! Pages and their indexes are counted in 4 KiB whatever the size of a page. Those of pages of 4
//! KiB have the indexes below 2^36, from the offset of their mapping on. A page of 2 MiB is 512
//! parts of 4 KiB in a row, which have the indexes from 2^36 on; so pages of two sizes never have
//! consecutive indexes. From 2^37 on are the indexes of pages of shared objects, 2^36 for each:
//! which object, and the number of its inode plus the page's place in it.
ghost use Rattle.std.specs.Prelude.{◌≡◌, ◌+◌, ◌%◌, ◌==◌, ◌<◌, ◌≤◌, ◌^◌, ℕ};
ghost use Rattle.numa_machine.specs.Sizes.{bytes_of, index_in, is_huge, is_inside, is_part};
ghost use Rattle.numa_machine.specs.Sizes.{is_shared, parts_in, parts_left, round_of, shared_turn};
ghost use Rattle.numa_machine.specs.Sizes.{turn_at, turns_left, whole};

/// The index of the first part of the first page of 2 MiB of a mapping whose offset is 0.
const FIRST_HUGE: u64 = 1 << 36;

/// The first index of the pages of shared objects.
const FIRST_SHARED: u64 = 1 << 37;

/// The number of indexes of a shared object.
const SHARED: u64 = 1 << 36;

/// The bytes of a page of 4 KiB.
const SMALL_BYTES: u64 = 4_096;

/// The bytes of a page of 2 MiB.
const HUGE_BYTES: u64 = 2_097_152;

/// The number of parts of a page of 2 MiB.
const PARTS: u64 = HUGE_BYTES / SMALL_BYTES;

/// A size of pages.
#[derive(Clone, Copy, Debug, PartialEq, Eq)]
pub enum PageSize {
    /// 4 KiB.
    Small,
    /// 2 MiB, from a pool (hugetlb).
    Huge,
}

impl PageSize {
    /// Whether it is 2 MiB.
    pub fn is_huge(self) -> bool
        ensures { result ≡ is_huge self }
    {
        match self {
            PageSize::Small => false,
            PageSize::Huge => true,
        }
    }

    /// The bytes of a page.
    pub fn bytes(self) -> u64
        ensures { result ≡ bytes_of self }
    {
        match self {
            PageSize::Small => SMALL_BYTES,
            PageSize::Huge => HUGE_BYTES,
        }
    }

    /// Whether a page may begin at an address: whether it is a multiple of the bytes of a page.
    pub fn begins_at(self, address: u64) -> bool
        ensures { result ≡ (address % bytes_of self == 0) }
    {
        match self {
            PageSize::Small => address % SMALL_BYTES == 0,
            PageSize::Huge => address % HUGE_BYTES == 0,
        }
    }

    /// How many pages of 4 KiB so many bytes take, up to the end of the last page.
    pub fn parts_in(self, bytes: u64) -> u64
        ensures { result ≡ parts_in self bytes }
    {
        match self {
            PageSize::Small => bytes / SMALL_BYTES + u64::from(bytes % SMALL_BYTES != 0),
            PageSize::Huge => (bytes / HUGE_BYTES + u64::from(bytes % HUGE_BYTES != 0)) * PARTS,
        }
    }

    /// Whether so many bytes take no page.
    pub fn takes_no_page(self, bytes: u64) -> bool
        ensures { result ≡ (whole self bytes == 0) }
    {
        match self {
            PageSize::Small => bytes == 0,
            PageSize::Huge => bytes == 0,
        }
    }

    /// The index of what stands `place` pages of 4 KiB behind the beginning of what is mapped.
    pub fn index(self, place: u64) -> u64
        requires { place < 2 ^ 36 }
        ensures { result ≡ index_in self place }
    {
        match self {
            PageSize::Small => place,
            PageSize::Huge => FIRST_HUGE + place,
        }
    }
}

/// Whether an index is that of a part of a page of 2 MiB.
#[tactic(auto, unfolding(crate::specs::Sizes::is_part))]
#[inline(always)]
pub fn is_part(index: u64) -> bool
    ensures { result ≡ is_part index }
{
    FIRST_HUGE <= index && index < FIRST_SHARED
}

/// Whether an index is that of a page of a shared object.
#[tactic(auto, unfolding(crate::specs::Sizes::is_shared))]
#[inline(always)]
pub fn is_shared(index: u64) -> bool
    ensures { result ≡ is_shared index }
{
    FIRST_SHARED <= index
}

/// The turn of a page of a shared object: the number of the object's inode plus the page's place.
#[tactic(auto, unfolding(crate::specs::Sizes::shared_turn))]
#[inline(always)]
pub fn shared_turn(index: u64) -> u64
    ensures turn { result ≡ shared_turn index }
    ensures few { result < 2 ^ 36 }
{
    index.saturating_sub(FIRST_SHARED) % SHARED
}

/// Whether the border before the page with this index lies inside a page of 2 MiB.
#[tactic(auto, unfolding(crate::specs::Sizes::is_inside))]
pub fn is_inside(index: u64) -> bool
    ensures { result ≡ is_inside index }
{
    is_part(index) && index % PARTS != 0
}

/// The turn of an index, where nodes take turns: the index itself; of a part of a page of 2 MiB the
/// number of such pages before it, so that all parts of a page have one turn; of a page of a shared
/// object the number of the inode plus the page's place.
#[tactic(auto, unfolding(crate::specs::Sizes::turn_at))]
#[inline(always)]
pub fn turn_at(index: u64) -> u64
    ensures { result ≡ turn_at index }
{
    if is_part(index) {
        return index.saturating_sub(FIRST_HUGE) / PARTS;
    }
    if is_shared(index) {
        return shared_turn(index);
    }
    index
}

/// How many indexes from this one on have turns that go on by one, from page to page or from 512
/// parts to 512.
#[tactic(auto, unfolding(crate::specs::Sizes::turns_left))]
fn turns_left(index: u64) -> u64
    ensures { result ≡ turns_left index }
{
    if is_part(index) {
        return FIRST_SHARED.saturating_sub(index);
    }
    if is_shared(index) {
        return SHARED - shared_turn(index);
    }
    FIRST_HUGE.saturating_sub(index)
}

/// Of `pages` pages with the indexes from `index` on, after how many their turns come again, if
/// turns come again after `turns`; all of them, if not before.
#[tactic(auto, unfolding(crate::specs::Sizes::round_of))]
pub fn round_of(turns: u64, index: u64, pages: u64) -> u64
    ensures { result ≡ round_of turns index pages }
{
    if pages > turns_left(index) {
        return pages;
    }
    if is_part(index) {
        return turns.saturating_mul(PARTS).min(pages);
    }
    turns.min(pages)
}

/// How many pages with the indexes from this one on have one turn: of a page of 2 MiB the parts
/// that are left.
#[tactic(auto, unfolding(crate::specs::Sizes::parts_left))]
pub fn parts_left(index: u64) -> u64
    ensures count { result ≡ parts_left index }
    ensures some { 0 < result }
    ensures few { result ≤ 512 }
    ensures same { (q : ℕ) → q < result → turn_at (index + q) ≡ turn_at index }
{
    if is_part(index) {
        PARTS - index % PARTS
    } else {
        1
    }
}
