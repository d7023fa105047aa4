//! First touches of pages of 2 MiB of a host's processes.
ghost use Rattle.std.specs.Prelude.{◌≡◌, ◌<◌, [], IfOk, None, Some, is_some, length, true};
ghost use Rattle.std.specs.Prelude.{slice_index_or, vec_capacity};
ghost use Rattle.numa_huge.specs.Huge.{has_huge, places_of};
ghost use Rattle.numa_huge.specs.Kept.{Keeps};
ghost use Rattle.numa_huge.specs.Moves.{HugeArrival, HugeMemory};
ghost use Rattle.numa_huge.specs.Tallies.{HasArrived, IsTouch};
ghost use Rattle.numa_page_state.specs.Huge.{HugeFaults, huge_count, huge_first, huge_page};
ghost use Rattle.numa_page_state.specs.Huge.{touch_walk};
ghost use Rattle.numa_space.specs.History.{page_count, page_of};
ghost use Rattle.numa_page_state.specs.Lying.{ground_in};
ghost use Rattle.numa_host_huge.specs.Kept.{IsChanged, IsChangedAt, lying_of, spots_in};
ghost use Rattle.numa_host_huge.specs.Kept.{spots_of};
ghost use Rattle.numa_host_huge.specs.Standing.{CanBe, Changes, FaultsIn, IsSame};

use crate::shared::HostHuge;
use crate::sharer::{Sharer, lend_at, place_of, pools_at, settle_at};
use numa_huge::{HugeArrived, HugePlaces};
use numa_machine::NoMemory;
use numa_page_state::huge::{huge_fault, huge_populated};
use numa_requests::PlacedRefusal;
use numa_space::Space;

/// Touches the page of an address of the process at a place.
fn fault_at(
    sharers: &mut Vec<Sharer>,
    place: usize,
    address: u64,
    nodes: &[u8],
) -> Result<Option<u8>, PlacedRefusal>
    requires place { place < length sharers.old.items }
    requires mapped { (d : Sharer) → is_some (spots_of (slice_index_or sharers.old.items place d)
        (huge_page address)) ≡ true }
    ensures faults { (d : Sharer)
        → HugeFaults (slice_index_or sharers.old.items place d).pages.value.places result
        (slice_index_or sharers.new.items place d).pages.value.places (huge_page address)
        nodes.now }
    ensures keeps { (d : Sharer) → Keeps
        (places_of (slice_index_or sharers.old.items place d).pages.value.places)
        (places_of (slice_index_or sharers.new.items place d).pages.value.places) }
    ensures same { (d : Sharer) → (slice_index_or sharers.new.items place d).pages.value
        ≡ record ((slice_index_or sharers.old.items place d).pages.value) {
          places = (slice_index_or sharers.new.items place d).pages.value.places;
        } }
    ensures others { IsChangedAt place sharers.old.items sharers.new.items }
    ensures room { vec_capacity sharers.new ≡ vec_capacity sharers.old }
{
    let sharer = &mut sharers[place];
    huge_fault(&mut sharer.pages.places, address, nodes)
}

/// The pages of the process at a place, of which those of a span were touched; and what that did.
fn populated_at(
    space: &Space,
    sharers: &[Sharer],
    place: usize,
    start: u64,
    bytes: u64,
    task: u32,
    cpu: u32,
) -> Result<(HugePlaces, HugeArrived), NoMemory>
    requires { place < length sharers.now }
    ensures touched { (d : Sharer) (memory : HugeMemory)
        → places_of (slice_index_or sharers.now place d).pages.value.places ≡ memory.pages
        → IfOk result (λ done. IsTouch
        (touch_walk (ground_in space.now []) start bytes task cpu memory) done.0 done.1) }
    ensures keeps { (d : Sharer) → IfOk result (λ done. Keeps
        (places_of (slice_index_or sharers.now place d).pages.value.places) (places_of done.0)) }
{
    let sharer = &sharers[place];
    huge_populated(space, &sharer.pages.places, start, bytes, task, cpu)
}

/// What first touches did is told of the process at a place.
fn tell_arrived(sharers: &mut Vec<Sharer>, place: usize, arrived: Option<HugeArrived>)
    requires { place < length sharers.old.items }
    ensures told { IsChanged place sharers.old.items sharers.new.items
        (λ old. record old { arrived = arrived }) }
    ensures room { vec_capacity sharers.new ≡ vec_capacity sharers.old }
{
    let sharer = &mut sharers[place];
    sharer.pages.arrived = arrived;
}

impl HostHuge {
    /// Touches the page of an address of a process, which has 2 MiB, for which these nodes are
    /// asked, and returns the node where it lies then; `None` if none gives it.
    ///
    /// # Errors
    /// As [`HugePlaces::fault`].
    pub fn fault(
        &mut self,
        process: u32,
        address: u64,
        nodes: &[u8],
    ) -> Result<Option<u8>, PlacedRefusal>
        requires { is_some (spots_in process self.old.sharers (huge_page address)) ≡ true }
        ensures { FaultsIn process self.old result self.new (huge_page address) nodes.now }
    {
        let Some(place) = place_of(&self.sharers, process) else {
            unreachable!()
        };
        lend_at(&self.pools, &mut self.sharers, place);
        let given = fault_at(&mut self.sharers, place, address, nodes);
        self.pools = pools_at(&self.sharers, place);
        given
    }

    /// The pages of a process, of which those of a span that lie nowhere were touched; and what
    /// that did.
    ///
    /// # Errors
    /// `NoMemory`: out of memory, or there would be too many runs.
    pub fn populated(
        &mut self,
        process: u32,
        space: &Space,
        start: u64,
        length: u64,
        task: u32,
        cpu: u32,
    ) -> Result<(HugePlaces, HugeArrived), NoMemory>
        requires { has_huge (spots_in process self.old.sharers) (huge_first (page_of start))
            (huge_count (page_of start) (page_count length)) ≡ true }
        ensures touched { (memory : HugeMemory) → lying_of process self.old ≡ memory.pages
            → IfOk result (λ done. IsTouch
            (touch_walk (ground_in space.now []) start length task cpu memory) done.0 done.1) }
        ensures can { IfOk result (λ done. CanBe process self.new done.0) }
        ensures same { IsSame self.old self.new }
    {
        let Some(place) = place_of(&self.sharers, process) else {
            unreachable!()
        };
        lend_at(&self.pools, &mut self.sharers, place);
        populated_at(space, &self.sharers, place, start, length, task, cpu)
    }

    /// Pages of a process were touched so (`populated`).
    pub fn settle_touched(&mut self, process: u32, after: HugePlaces, arrived: HugeArrived)
        requires { CanBe process self.old after }
        ensures { (told : HugeArrival) → HasArrived arrived told → Changes process self.old self.new
            (λ memory. record memory { pages = places_of after; arrived = Some told }) }
    {
        let Some(place) = place_of(&self.sharers, process) else {
            drop(after);
            return;
        };
        let pools = *after.pools();
        settle_at(&mut self.sharers, place, after);
        tell_arrived(&mut self.sharers, place, Some(arrived));
        self.pools = pools;
    }

    /// Nothing is told of first touches of pages of 2 MiB of a process.
    pub fn forget_arrived(&mut self, process: u32)
        ensures { Changes process self.old self.new (λ memory. record memory { arrived = None }) }
    {
        let Some(place) = place_of(&self.sharers, process) else {
            return;
        };
        tell_arrived(&mut self.sharers, place, None);
    }
}
