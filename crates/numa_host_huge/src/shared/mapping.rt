//! Pages of 2 MiB of a host's processes that are mapped, and unmapped.
ghost use Rattle.std.specs.Prelude.{◌≡◌, ◌≤◌, ◌<◌, ◌⊎◌, IfErr, IfOk, IsErrOf, IsOkAnd, None, Some};
ghost use Rattle.std.specs.Prelude.{length, slice_index_or, true};
ghost use Rattle.numa_pools.specs.Pools.{unreserved};
ghost use Rattle.numa_space.specs.History.{page_count, page_of};
ghost use Rattle.numa_huge.specs.Huge.{fits, fresh_spot, has_huge, mapping, places_of};
ghost use Rattle.numa_huge.specs.Huge.{unmapping, with_span};
ghost use Rattle.numa_huge.specs.Kept.{Keeps};
ghost use Rattle.numa_huge.specs.Moves.{stayed};
ghost use Rattle.numa_huge.specs.Tallies.{IsLackFor, IsMemory};
ghost use Rattle.numa_page_state.specs.Huge.{huge_count, huge_first};
ghost use Rattle.numa_host_huge.specs.Kept.{lying_of, spots_in, spots_of};
ghost use Rattle.numa_host_huge.specs.Sharing.{Sharing, begun_in};
ghost use Rattle.numa_host_huge.specs.Standing.{IsSame};
ghost use Rattle.numa_host_huge.specs.Standing.{Becomes, CanBe, CanBegin, Changes, HugeLies};

use crate::shared::HostHuge;
use crate::sharer::{Sharer, add, boxed, has_place, lend_at, place_of, places_out, settle_at};
use numa_huge::{HugePages, HugePlaces};
use numa_page_state::huge::huge_without;
use numa_requests::PlacedRefusal;
use std::alloc::Global;

/// The number of pages of 2 MiB below address 2^47.
const MOST_PAGES: u64 = 1 << 26;

/// Whether pages of a span can be mapped where none is mapped as one of 2 MiB yet.
fn fits_none(first: u64, pages: u64) -> bool
    ensures { result ≡ fits (λ page. None) first pages }
{
    if pages == 0 {
        return false;
    }
    if first > MOST_PAGES {
        return false;
    }
    if pages > MOST_PAGES - first {
        return false;
    }
    true
}

/// The pages of the process at a place once a span is mapped.
fn mapped_at(
    sharers: &[Sharer],
    place: usize,
    first: u64,
    pages: u64,
    reserves: bool,
) -> Result<HugePlaces, PlacedRefusal>
    requires place { place < length sharers.now }
    requires fits { (d : Sharer)
        → fits (spots_of (slice_index_or sharers.now place d)) first pages ≡ true }
    requires room { (d : Sharer) → reserves ≡ true → pages
        ≤ unreserved (slice_index_or sharers.now place d).pages.value.places.pools }
    ensures ok { (d : Sharer) → IfOk result (λ after. places_of after ≡ mapping first pages
        reserves (places_of (slice_index_or sharers.now place d).pages.value.places)) }
    ensures keeps { (d : Sharer) → IfOk result (λ after. Keeps
        (places_of (slice_index_or sharers.now place d).pages.value.places) (places_of after)) }
    ensures err { (d : Sharer) → IfErr result (IsLackFor (with_span first pages
        (Some (fresh_spot reserves)) (spots_of (slice_index_or sharers.now place d)))) }
{
    let sharer = &sharers[place];
    sharer.pages.places.mapped(first, pages, reserves)
}

/// The pages of the process at a place once a span was unmapped.
fn unmapped_at(
    sharers: &[Sharer],
    place: usize,
    start: u64,
    bytes: u64,
) -> Result<HugePlaces, PlacedRefusal>
    requires place { place < length sharers.now }
    requires some { (d : Sharer) → has_huge (spots_of (slice_index_or sharers.now place d))
        (huge_first (page_of start)) (huge_count (page_of start) (page_count bytes)) ≡ true }
    ensures ok { (d : Sharer) → IfOk result (λ after. places_of after ≡ unmapping
        (huge_first (page_of start)) (huge_count (page_of start) (page_count bytes))
        (places_of (slice_index_or sharers.now place d).pages.value.places)) }
    ensures keeps { (d : Sharer) → IfOk result (λ after. Keeps
        (places_of (slice_index_or sharers.now place d).pages.value.places) (places_of after)) }
    ensures err { (d : Sharer) → IfErr result (IsLackFor (with_span
        (huge_first (page_of start)) (huge_count (page_of start) (page_count bytes)) None
        (spots_of (slice_index_or sharers.now place d)))) }
{
    let sharer = &sharers[place];
    huge_without(&sharer.pages.places, start, bytes)
}

/// Pages of a process, on the heap, if they could be mapped.
fn boxed_if(
    alloc: Global,
    mapped: Result<HugePlaces, PlacedRefusal>,
) -> Result<Box<HugePages>, PlacedRefusal>
    ensures ok { IfOk result (λ after. IsOkAnd mapped (λ places. after.value.places ≡ places)) }
    ensures err { IfErr result (λ why. (why ≡ PlacedRefusal.NoMemory) ⊎ IsErrOf mapped why) }
    ensures begins { IfOk result (λ after. IsMemory after.value
        (record { pages = places_of after.value.places; told = stayed; arrived = None })) }
{
    let places = match mapped {
        Ok(places) => places,
        Err(why) => return Err(why),
    };
    match boxed(alloc, HugePages::of(places)) {
        Ok(made) => Ok(made),
        Err(_) => Err(PlacedRefusal::NoMemory),
    }
}

impl HostHuge {
    /// Whether a process can map pages of a span: it has some, they are below address 2^47, and
    /// none is mapped as one of 2 MiB yet.
    pub fn fits(&self, process: u32, first: u64, pages: u64) -> bool
        ensures kept { result ≡ fits (spots_in process self.now.sharers) first pages }
        ensures fits { (at : Sharing) → HugeLies self.now at
            → result ≡ fits (begun_in process at).pages.spots first pages }
    {
        match self.pages_of(process) {
            Some(kept) => kept.places.fits(first, pages),
            None => fits_none(first, pages),
        }
    }

    /// The pages of a process once a span is mapped, whose pages are reserved or aren't.
    ///
    /// # Errors
    /// `TooManyRuns`, `NoMemory`, as [`PlacedRefusal`] says. `NoMemory` can come first.
    pub fn mapped(
        &mut self,
        process: u32,
        first: u64,
        pages: u64,
        reserves: bool,
    ) -> Result<Box<HugePages>, PlacedRefusal>
        requires fits { fits (spots_in process self.old.sharers) first pages ≡ true }
        requires room { reserves ≡ true → pages ≤ unreserved self.old.pools }
        ensures ok { IfOk result (λ after. places_of after.value.places
            ≡ mapping first pages reserves (lying_of process self.old)) }
        ensures can { IfOk result (λ after. CanBegin process self.new after.value) }
        ensures err { IfErr result (IsLackFor (with_span first pages (Some (fresh_spot reserves))
            (spots_in process self.old.sharers))) }
        ensures same { IsSame self.old self.new }
        ensures pools { self.new.pools ≡ self.old.pools }
    {
        if !has_place(&self.sharers, process) {
            return Err(PlacedRefusal::NoMemory);
        }
        let Some(place) = place_of(&self.sharers, process) else {
            let places = HugePlaces::lent(self.alloc, &self.pools);
            return boxed_if(self.alloc, places.mapped(first, pages, reserves));
        };
        lend_at(&self.pools, &mut self.sharers, place);
        boxed_if(
            self.alloc,
            mapped_at(&self.sharers, place, first, pages, reserves),
        )
    }

    /// A process has mapped pages (`mapped`).
    pub fn settle_mapped(&mut self, process: u32, after: Box<HugePages>)
        requires { CanBegin process self.old after.value }
        ensures { Becomes process self.old self.new
            (λ memory. record memory { pages = places_of after.value.places }) }
    {
        let pools = *after.places.pools();
        let Some(place) = place_of(&self.sharers, process) else {
            add(&mut self.sharers, process, after);
            self.pools = pools;
            return;
        };
        settle_at(&mut self.sharers, place, places_out(after));
        self.pools = pools;
    }

    /// The pages of a process once a span was unmapped.
    ///
    /// # Errors
    /// `TooManyRuns`, `NoMemory`, as [`PlacedRefusal`] says. `NoMemory` can come first.
    pub fn unmapped(
        &mut self,
        process: u32,
        start: u64,
        length: u64,
    ) -> Result<HugePlaces, PlacedRefusal>
        requires { has_huge (spots_in process self.old.sharers) (huge_first (page_of start))
            (huge_count (page_of start) (page_count length)) ≡ true }
        ensures ok { IfOk result (λ after. places_of after ≡ unmapping (huge_first (page_of start))
            (huge_count (page_of start) (page_count length)) (lying_of process self.old)) }
        ensures can { IfOk result (CanBe process self.new) }
        ensures err { IfErr result (IsLackFor (with_span (huge_first (page_of start))
            (huge_count (page_of start) (page_count length)) None
            (spots_in process self.old.sharers))) }
        ensures same { IsSame self.old self.new }
    {
        let Some(place) = place_of(&self.sharers, process) else {
            unreachable!()
        };
        lend_at(&self.pools, &mut self.sharers, place);
        unmapped_at(&self.sharers, place, start, length)
    }

    /// The pages of a process lie so from now on (`unmapped`).
    pub fn settle(&mut self, process: u32, after: HugePlaces)
        requires { CanBe process self.old after }
        ensures { Changes process self.old self.new
            (λ memory. record memory { pages = places_of after }) }
    {
        let Some(place) = place_of(&self.sharers, process) else {
            drop(after);
            return;
        };
        let pools = *after.pools();
        settle_at(&mut self.sharers, place, after);
        self.pools = pools;
    }
}
