//! Pages of 2 MiB that are mapped, and unmapped.
ghost use Rattle.std.specs.Prelude.{◌≡◌, ◌≢◌, ◌+◌, ◌≤◌, ◌<◌, ℕ, IfOk, IfErr, None, Some, true};
ghost use Rattle.std.specs.Prelude.{if◌then◌else◌, false, slice_index};
ghost use Rattle.numa_pools.specs.Pools.{free_at, reserving, total_at, unreserved};
ghost use Rattle.numa_huge.specs.Huge.{fits, freeing_below, fresh_spot, huge_at, mapped_by};
ghost use Rattle.numa_huge.specs.Huge.{mapping, most_pages, places_of, too_many, unmapping};
ghost use Rattle.numa_huge.specs.Huge.{with_span};
ghost use Rattle.numa_huge.specs.Kept.{Keeps, MayMapBy};
ghost use Rattle.numa_huge.specs.Tallies.{IsLackFor, lack_of};

use crate::counts::counts_of;
use crate::places::HugePlaces;
use crate::spot::HugeSpot;
use numa_pools::Pools;
use numa_ranges::{RangeError, RangeMap};
use numa_requests::PlacedRefusal;

/// Why a change of runs is refused, for their number or for memory.
pub(crate) fn lack_of(refusal: RangeError) -> PlacedRefusal
    ensures { result ≡ lack_of refusal }
{
    match refusal {
        RangeError::TooManyRanges => PlacedRefusal::TooManyRuns,
        _ => PlacedRefusal::NoMemory,
    }
}

/// Reserves pages, if they are to be.
fn reserve_if(pools: &mut Pools, reserves: bool, pages: u64)
    requires { reserves ≡ true → pages ≤ unreserved pools.old }
    ensures { pools.new ≡ (if reserves then reserving pools.old pages else pools.old) }
{
    if reserves {
        pools.reserve(pages);
    }
}

/// So many pages of each node become free, which processes had.
pub(crate) fn free_all(pools: &mut Pools, on: &[u64; 256])
    requires { (node : ℕ) → node < 256
        → free_at pools.old node + slice_index on.now node ≤ total_at pools.old node }
    ensures { pools.new ≡ freeing_below 256 (slice_index on.now) pools.old }
{
    pools.keep();
    for node in 0..256usize {
        pools.free_pages(node as u8, on[node]);
    }
}

impl HugePlaces {
    /// The runs of the pages once a span is mapped, whose pages are reserved or aren't: `map_by`
    /// maps it.
    ///
    /// # Errors
    /// `TooManyRuns`, `NoMemory`, as [`PlacedRefusal`] says. `NoMemory` can come first.
    pub fn mapped_runs(
        &self,
        first: u64,
        pages: u64,
        reserves: bool,
    ) -> Result<RangeMap<HugeSpot>, PlacedRefusal>
        requires fits { fits (huge_at self.now.runs) first pages ≡ true }
        ensures ok { IfOk result (λ map. places_of (mapped_by pages reserves map.runs self.now)
            ≡ mapping first pages reserves (places_of self.now)) }
        ensures may { IfOk result (λ map. MayMapBy self.now pages reserves map) }
        ensures few { IfOk result (λ map. too_many (huge_at map.runs) ≡ false) }
        ensures err { IfErr result (IsLackFor (with_span first pages (Some (fresh_spot reserves))
            (huge_at self.now.runs))) }
    {
        let Ok(mut map) = self.map.copy() else {
            return Err(PlacedRefusal::NoMemory);
        };
        if let Err(refusal) = map.map_span(first, pages, first, HugeSpot::fresh(reserves)) {
            return Err(lack_of(refusal));
        }
        // Tells the proof that the runs are few.
        let _ = map.len();
        Ok(map)
    }

    /// Maps a span by the runs that [`HugePlaces::mapped_runs`] gave, and reserves so many pages,
    /// if they are to be.
    pub fn map_by(&mut self, map: RangeMap<HugeSpot>, pages: u64, reserves: bool)
        requires room { reserves ≡ true → pages ≤ unreserved self.old.pools }
        requires may { MayMapBy self.old pages reserves map }
        ensures is { self.new ≡ mapped_by pages reserves map.runs self.old }
        ensures keeps { Keeps (places_of self.old) (places_of self.new) }
    {
        reserve_if(&mut self.pools, reserves, pages);
        drop(std::mem::replace(&mut self.map, map));
    }

    /// The pages once a span is mapped, whose pages are reserved or aren't.
    ///
    /// # Errors
    /// `TooManyRuns`, `NoMemory`, as [`PlacedRefusal`] says. `NoMemory` can come first.
    pub fn mapped(
        &self,
        first: u64,
        pages: u64,
        reserves: bool,
    ) -> Result<HugePlaces, PlacedRefusal>
        requires fits { fits (huge_at self.now.runs) first pages ≡ true }
        requires room { reserves ≡ true → pages ≤ unreserved self.now.pools }
        ensures ok { IfOk result (λ after.
            places_of after ≡ mapping first pages reserves (places_of self.now)) }
        ensures keeps { IfOk result (λ after. Keeps (places_of self.now) (places_of after)) }
        ensures err { IfErr result (IsLackFor (with_span first pages (Some (fresh_spot reserves))
            (huge_at self.now.runs))) }
    {
        let map = match self.mapped_runs(first, pages, reserves) {
            Ok(map) => map,
            Err(why) => return Err(why),
        };
        let mut pools = self.pools;
        reserve_if(&mut pools, reserves, pages);
        Ok(HugePlaces { pools, map })
    }

    /// The pages once a span is unmapped: those that lie somewhere become free, and the
    /// reservations of others are given back.
    ///
    /// # Errors
    /// `TooManyRuns`, `NoMemory`, as [`PlacedRefusal`] says. `NoMemory` can come first.
    pub fn unmapped(&self, first: u64, pages: u64) -> Result<HugePlaces, PlacedRefusal>
        requires some { pages ≢ 0 }
        requires within { first + pages ≤ most_pages }
        ensures ok { IfOk result (λ after.
            places_of after ≡ unmapping first pages (places_of self.now)) }
        ensures keeps { IfOk result (λ after. Keeps (places_of self.now) (places_of after)) }
        ensures err { IfErr result (IsLackFor
            (with_span first pages None (huge_at self.now.runs))) }
    {
        let Ok(mut map) = self.map.copy() else {
            return Err(PlacedRefusal::NoMemory);
        };
        let counts = counts_of(&map, first, pages);
        if let Err(refusal) = map.unmap_span(first, pages) {
            return Err(lack_of(refusal));
        }
        let mut pools = self.pools;
        pools.keep();
        free_all(&mut pools, &counts.on);
        pools.give_back(counts.reserved);
        pools.keep();
        Ok(HugePlaces { pools, map })
    }
}
