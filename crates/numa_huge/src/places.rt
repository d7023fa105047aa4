//! Where the pages of 2 MiB of a process lie, and the pools that they come from.
ghost use Rattle.std.specs.Prelude.{◌≡◌, ◌+◌, ◌≤◌, ◌<◌, ◌^◌, ℕ, IfOk, None, false};
ghost use Rattle.numa_ranges.specs.Counts.{range_count};
ghost use Rattle.numa_huge.specs.Huge.{fits, has_huge, huge_at, kept_page, no_huge, places_of};
ghost use Rattle.numa_huge.specs.Huge.{same_huge, too_many};
ghost use Rattle.numa_huge.specs.Tallies.{AreCounts};

mod binding;
mod mapping;
mod moving;
mod sharing;
mod sizing;
mod touching;

use crate::counts::{Counts, counts_of};
use crate::spot::HugeSpot;
use numa_machine::{Machine, NoMemory};
use numa_pools::Pools;
use numa_ranges::RangeMap;
use std::alloc::Global;
use std::marker::Model;

/// The most runs that are kept of pages of which the same is known.
pub(crate) const MOST_RUNS: u32 = 1 << 20;

/// The number of pages of 2 MiB below address 2^47.
pub(crate) const MOST_PAGES: u64 = 1 << 26;

/// The pages of 2 MiB of a process, and the pools that they come from.
#[derive(Drop)]
pub struct HugePlaces {
    pools: Pools,
    map: RangeMap<HugeSpot>,
}

impl Model for HugePlaces {
    ghost use Rattle.std.specs.Prelude.{◌≡◌};
    ghost use Rattle.numa_placed.specs.Spots.{most_runs};
    ghost use Rattle.numa_huge.specs.Huge.{HugePlaced};
    ghost use Rattle.numa_huge.specs.Kept.{AreKept, Others};

    ghost Value = { HugePlaced };

    ghost view = { λ a. record { pools = a.pools; runs = a.map.runs } };

    ghost invariant = { λ a. (others : Others) × AreKept others a.pools a.map.runs
        × (a.map.max_ranges ≡ most_runs) };
}

impl HugePlaces {
    /// No page of 2 MiB is mapped, and the pools of the machine have none.
    pub fn new(alloc: Global, machine: &Machine) -> HugePlaces
        ensures { places_of result ≡ no_huge machine.now.memory }
    {
        HugePlaces {
            pools: Pools::new(machine),
            map: RangeMap::new(alloc, MOST_RUNS),
        }
    }

    /// The pools.
    pub fn pools(&self) -> &Pools
        ensures { result.now ≡ self.now.pools }
    {
        &self.pools
    }

    /// What is known of a page, if it is mapped as one of 2 MiB, by a binary search.
    pub fn at(&self, page: u64) -> Option<HugeSpot>
        ensures { result ≡ huge_at self.now.runs page }
    {
        let (_, spot) = self.map.at(page)?;
        Some(spot)
    }

    /// Whether one of the `pages` pages from `first` on is mapped as one of 2 MiB.
    pub fn has_huge(&self, first: u64, pages: u64) -> bool
        requires { first + pages ≤ 2 ^ 35 }
        ensures { result ≡ has_huge (huge_at self.now.runs) first pages }
    {
        if pages == 0 {
            return false;
        }
        let end = first + pages;
        for run in self.map.iter_from(first) {
            if run.first >= end {
                return false;
            }
            let behind = run.first + run.pages;
            if behind > first {
                return true;
            }
        }
        false
    }

    /// The first page from `page` on and below `end` that is mapped as one of 2 MiB; `end`, if none
    /// is.
    pub fn next_mapped(&self, page: u64, end: u64) -> u64
        requires { page ≤ end }
        ensures rises { page ≤ result }
        ensures within { result ≤ end }
        ensures passed { (other : ℕ) → page ≤ other → other < result
            → huge_at self.now.runs other ≡ None }
    {
        for run in self.map.iter_from(page) {
            let behind = run.first + run.pages;
            if behind > page {
                return run.first.max(page).min(end);
            }
        }
        end
    }

    /// The end of some pages from `page` on, at most `end`, of which the same is known as of that
    /// one: the rest of its run, or up to the next one.
    pub fn alike_end(&self, page: u64, end: u64) -> u64
        requires { page < end }
        ensures rises { page < result }
        ensures within { result ≤ end }
        ensures alike { (other : ℕ) → page ≤ other → other < result
            → huge_at self.now.runs other ≡ huge_at self.now.runs page }
    {
        for run in self.map.iter_from(page) {
            let behind = run.first + run.pages;
            if behind > page {
                if run.first > page {
                    return run.first.min(end);
                }
                return behind.min(end);
            }
        }
        end
    }

    /// How many runs of pages are kept, in each of which the same is known of all: at most
    /// 1,048,576.
    pub fn runs(&self) -> usize
        ensures count { result ≡ range_count same_huge (kept_page (huge_at self.now.runs)) }
        ensures few { too_many (huge_at self.now.runs) ≡ false }
    {
        self.map.len()
    }

    /// A copy. Later changes of one of the two don't affect the other.
    ///
    /// # Errors
    /// `NoMemory`: there is no memory for its runs.
    pub fn copy(&self) -> Result<HugePlaces, NoMemory>
        ensures { IfOk result (λ copy. copy ≡ self.now) }
    {
        let Ok(map) = self.map.copy() else {
            return Err(NoMemory);
        };
        Ok(HugePlaces {
            pools: self.pools,
            map,
        })
    }

    /// Whether pages of a span can be mapped: it has some, they are below address 2^47, and none is
    /// mapped as one of 2 MiB yet.
    pub fn fits(&self, first: u64, pages: u64) -> bool
        ensures { result ≡ fits (huge_at self.now.runs) first pages }
    {
        if pages == 0 {
            return false;
        }
        if first > MOST_PAGES {
            return false;
        }
        if pages > MOST_PAGES - first {
            return false;
        }
        !self.has_huge(first, pages)
    }

    /// How many of the `pages` pages from `first` on lie on each node, and for how many untouched
    /// ones a page is reserved.
    pub fn counts_in(&self, first: u64, pages: u64) -> Counts
        requires { first + pages ≤ 2 ^ 35 }
        ensures { AreCounts result (huge_at self.now.runs) first pages }
    {
        counts_of(&self.map, first, pages)
    }
}
