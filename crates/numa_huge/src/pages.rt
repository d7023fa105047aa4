//! Pages of 2 MiB of a process, and what the last move and the last first touches did to them.
ghost use Rattle.std.specs.Prelude.{◌≡◌, ◌≤◌, IfOk, Option, None, true};
ghost use Rattle.numa_pools.specs.Pools.{unreserved};
ghost use Rattle.numa_huge.specs.Huge.{mapped_by, places_of};
ghost use Rattle.numa_huge.specs.Kept.{MayMapBy};
ghost use Rattle.numa_huge.specs.Moves.{HugeMemory, memory_or, stayed};
ghost use Rattle.numa_huge.specs.Tallies.{IsMemory};

use crate::arrived::HugeArrived;
use crate::last::{HugeLast, still};
use crate::places::HugePlaces;
use crate::spot::HugeSpot;
use numa_machine::{Machine, NoMemory};
use numa_ranges::RangeMap;
use std::alloc::Global;

/// The pages of 2 MiB of a process with the pools that they come from; what the last move did to
/// them; and what the last first touches of a span did, if it had some.
#[derive(Drop)]
pub struct HugePages {
    pub places: HugePlaces,
    pub last: HugeLast,
    pub arrived: Option<HugeArrived>,
}

impl HugePages {
    /// No page of 2 MiB is mapped, and the pools of the machine have none.
    pub fn new(alloc: Global, machine: &Machine) -> HugePages
        ensures { IsMemory result (memory_or machine.now.memory None) }
    {
        HugePages {
            places: HugePlaces::new(alloc, machine),
            last: HugeLast::Nodes(still()),
            arrived: None,
        }
    }

    /// Pages that neither moved nor were touched yet.
    pub fn of(places: HugePlaces) -> HugePages
        ensures places { result.places ≡ places }
        ensures memory { IsMemory result
            (record { pages = places_of places; told = stayed; arrived = None }) }
    {
        HugePages {
            places,
            last: HugeLast::Nodes(still()),
            arrived: None,
        }
    }

    /// A copy. Later changes of one of the two don't affect the other.
    ///
    /// # Errors
    /// `NoMemory`: there is no memory for it.
    pub fn copy(&self, alloc: Global) -> Result<HugePages, NoMemory>
        ensures places { IfOk result (λ copy. copy.places ≡ self.now.places) }
        ensures memory { (memory : HugeMemory) → IsMemory self.now memory
            → IfOk result (λ copy. IsMemory copy memory) }
    {
        let Ok(places) = self.places.copy() else {
            return Err(NoMemory);
        };
        let Ok(last) = self.last.copy(alloc) else {
            drop(places);
            return Err(NoMemory);
        };
        Ok(HugePages {
            places,
            last,
            arrived: self.arrived,
        })
    }

    /// The last move moved no page of 2 MiB.
    pub fn rest(&mut self)
        ensures memory { (memory : HugeMemory) → IsMemory self.old memory
            → IsMemory self.new (record memory { told = stayed }) }
        ensures places { self.new.places ≡ self.old.places }
    {
        self.last = HugeLast::Nodes(still());
    }

    /// The pages lie so from now on.
    pub fn settle(&mut self, after: HugePlaces)
        ensures { (memory : HugeMemory) → IsMemory self.old memory
            → IsMemory self.new (record memory { pages = places_of after }) }
    {
        drop(std::mem::replace(&mut self.places, after));
    }

    /// A span is mapped from now on ([`HugePlaces::map_by`]).
    pub fn map_by(&mut self, map: RangeMap<HugeSpot>, pages: u64, reserves: bool)
        requires room { reserves ≡ true → pages ≤ unreserved self.old.places.pools }
        requires may { MayMapBy self.old.places pages reserves map }
        ensures { (memory : HugeMemory) → IsMemory self.old memory → IsMemory self.new (record
            memory { pages = places_of (mapped_by pages reserves map.runs self.old.places) }) }
    {
        self.places.map_by(map, pages, reserves);
    }
}
