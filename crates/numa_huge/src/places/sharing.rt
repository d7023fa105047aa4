//! Pools that several processes share: they are lent to one while it acts, and taken back
//! afterwards.
ghost use Rattle.std.specs.Prelude.{◌≡◌, ℕ, IfOk, None};
ghost use Rattle.numa_huge.specs.Huge.{all_gone, bare_spot, huge_at, lent_none, most_pages};
ghost use Rattle.numa_huge.specs.Huge.{places_of, with_span};
ghost use Rattle.numa_huge.specs.Kept.{HavePages, Keeps};
ghost use Rattle.numa_pools.specs.Pools.{no_pages};

use crate::counts::counts_of;
use crate::places::mapping::free_all;
use crate::places::{HugePlaces, MOST_PAGES, MOST_RUNS};
use crate::spot::HugeSpot;
use numa_machine::{Machine, NoMemory};
use numa_pools::Pools;
use numa_ranges::RangeMap;
use std::alloc::Global;

impl HugePlaces {
    /// A process without pages, to which pools are lent.
    pub fn lent(alloc: Global, pools: &Pools) -> HugePlaces
        requires { HavePages pools.now (λ page. None) }
        ensures { places_of result ≡ lent_none pools.now }
    {
        HugePlaces {
            pools: *pools,
            map: RangeMap::new(alloc, MOST_RUNS),
        }
    }

    /// Pages come from these pools from now on, which have those that the process has.
    pub fn lend(&mut self, pools: &Pools)
        requires { HavePages pools.now (huge_at self.old.runs) }
        ensures pools { self.new.pools ≡ pools.now }
        ensures runs { self.new.runs ≡ self.old.runs }
    {
        self.pools = *pools;
    }

    /// The pools once all pages are gone, as when their process ends. It doesn't allocate.
    pub fn pools_without(&self) -> Pools
        ensures pools { result ≡ all_gone (places_of self.now) }
        ensures keeps { Keeps (places_of self.now) (record {
          pools = result;
          spots = with_span 0 most_pages None (huge_at self.now.runs);
        }) }
    {
        let counts = counts_of(&self.map, 0, MOST_PAGES);
        let mut pools = self.pools;
        pools.keep();
        free_all(&mut pools, &counts.on);
        pools.give_back(counts.reserved);
        pools.keep();
        pools
    }

    /// The pages of a child of the process (fork(2)): mapped as its own, untouched, and without
    /// reservations. Pools are still to be lent to it.
    ///
    /// # Errors
    /// `NoMemory`: there is no memory for its runs.
    pub fn inherited(&self, machine: &Machine) -> Result<HugePlaces, NoMemory>
        ensures pools { IfOk result (λ child. child.pools ≡ no_pages machine.now.memory) }
        ensures spots { IfOk result (λ child. (page : ℕ)
            → huge_at child.runs page ≡ bare_spot (huge_at self.now.runs page)) }
    {
        let Ok(mut map) = self.map.copy() else {
            return Err(NoMemory);
        };
        let bare = |_spot: &HugeSpot| -> HugeSpot
            ensures { result ≡ HugeSpot.Bare }
        { HugeSpot::Bare };
        map.update_all(bare);
        Ok(HugePlaces {
            pools: Pools::new(machine),
            map,
        })
    }
}
