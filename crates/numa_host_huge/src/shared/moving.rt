//! Pages of 2 MiB of a host's processes that go to other nodes.
ghost use Rattle.std.specs.Prelude.{◌≡◌, ◌<◌, [], IfOk, IfSome, IsSomeAnd, List, None, is_some};
ghost use Rattle.std.specs.Prelude.{length, slice_index_or, true, vec_capacity};
ghost use Rattle.numa_requests.specs.declared.command.Command.{Command};
ghost use Rattle.numa_space.specs.Refusals.{refusal_of};
ghost use Rattle.numa_space.specs.Standing.{StandsFor};
ghost use Rattle.numa_maps.specs.Residents.{Kept};
ghost use Rattle.numa_huge.specs.Huge.{places_of};
ghost use Rattle.numa_huge.specs.Kept.{Keeps};
ghost use Rattle.numa_huge.specs.Moves.{HugeMemory, HugeWalk};
ghost use Rattle.numa_huge.specs.Tallies.{IsMemory, IsWalk};
ghost use Rattle.numa_page_state.specs.Huge.{HugeMoves, huge_followed, huge_page, huge_rested};
ghost use Rattle.numa_page_state.specs.Huge.{huge_walk};
ghost use Rattle.numa_page_state.specs.Lying.{ground_in, process_in};
ghost use Rattle.numa_page_state.specs.Sending.{command_of};
ghost use Rattle.numa_host_huge.specs.Kept.{IsChanged, IsChangedAt, lying_of, place_in};
ghost use Rattle.numa_host_huge.specs.Kept.{spots_in};
ghost use Rattle.numa_host_huge.specs.Sharing.{Sharing, astray_in, memory_in, moved_along};
ghost use Rattle.numa_host_huge.specs.Standing.{CanBe, Changes, HugeLies, IsSame, MovesIn};

use crate::shared::HostHuge;
use crate::sharer::{Sharer, lend_at, place_of, pools_at, settle_at};
use numa_huge::{Flows, HugeLast, HugePlaces};
use numa_machine::NoMemory;
use numa_mask::NodeMask;
use numa_page_state::huge::{follow_huge, huge_astray, huge_move, huge_sent_from};
use numa_page_state::{Binding, Rebinding, Toucher};
use numa_requests::MoveRefusal;
use numa_space::Space;
use std::alloc::Global;

/// Pages of the process at a place leave one set of nodes for another, if they are to.
fn follow_at(sharers: &mut Vec<Sharer>, place: usize, follows: bool, old: &NodeMask, new: &NodeMask)
    requires { place < length sharers.old.items }
    ensures follows { (d : Sharer) (memory : HugeMemory)
        → IsMemory (slice_index_or sharers.old.items place d).pages.value memory
        → IsMemory (slice_index_or sharers.new.items place d).pages.value
        (huge_followed follows old.now new.now memory) }
    ensures keeps { (d : Sharer) → Keeps
        (places_of (slice_index_or sharers.old.items place d).pages.value.places)
        (places_of (slice_index_or sharers.new.items place d).pages.value.places) }
    ensures others { IsChangedAt place sharers.old.items sharers.new.items }
    ensures room { vec_capacity sharers.new ≡ vec_capacity sharers.old }
{
    let sharer = &mut sharers[place];
    follow_huge(&mut sharer.pages, follows, old, new);
}

/// The last move moved no page of 2 MiB of the process at a place.
fn rest_at(sharers: &mut Vec<Sharer>, place: usize)
    requires { place < length sharers.old.items }
    ensures rests { (d : Sharer) (memory : HugeMemory)
        → IsMemory (slice_index_or sharers.old.items place d).pages.value memory
        → IsMemory (slice_index_or sharers.new.items place d).pages.value
        (huge_rested memory) }
    ensures places { (d : Sharer) → (slice_index_or sharers.new.items place d).pages.value.places
        ≡ (slice_index_or sharers.old.items place d).pages.value.places }
    ensures others { IsChangedAt place sharers.old.items sharers.new.items }
    ensures room { vec_capacity sharers.new ≡ vec_capacity sharers.old }
{
    let sharer = &mut sharers[place];
    sharer.pages.rest();
}

/// Moves the page of an address of the process at a place to a node.
fn move_at(
    sharers: &mut Vec<Sharer>,
    place: usize,
    space: &Space,
    address: u64,
    node: u32,
) -> Result<(), MoveRefusal>
    requires { place < length sharers.old.items }
    ensures moves { (d : Sharer) (memory : HugeMemory)
        → IsMemory (slice_index_or sharers.old.items place d).pages.value memory
        → HugeMoves memory result (slice_index_or sharers.new.items place d).pages.value
        (ground_in space.now []) (huge_page address) node }
    ensures keeps { (d : Sharer) → Keeps
        (places_of (slice_index_or sharers.old.items place d).pages.value.places)
        (places_of (slice_index_or sharers.new.items place d).pages.value.places) }
    ensures others { IsChangedAt place sharers.old.items sharers.new.items }
    ensures room { vec_capacity sharers.new ≡ vec_capacity sharers.old }
{
    let sharer = &mut sharers[place];
    huge_move(&mut sharer.pages, space, address, node)
}

/// The pages of the process at a place, of which those of a span went; and what that did.
fn sent_at(
    alloc: Global,
    space: &Space,
    sharers: &[Sharer],
    place: usize,
    said: &Rebinding,
    toucher: Toucher,
) -> Result<Option<(HugePlaces, Flows)>, NoMemory>
    requires { place < length sharers.now }
    ensures keeps { (d : Sharer) → IfOk result (λ done. IfSome done (λ done. Keeps
        (places_of (slice_index_or sharers.now place d).pages.value.places) (places_of done.0))) }
    ensures sent { (d : Sharer) (memory : HugeMemory) (history : List Command) (kept : Kept)
        → places_of (slice_index_or sharers.now place d).pages.value.places ≡ memory.pages
        → StandsFor space.now history
        → refusal_of space.now.machine space.now.bounds history (command_of said.now) ≡ None
        → IfOk result (λ done. IsSomeAnd done (λ done. IsWalk
        (huge_walk (process_in space.now history kept) said.now toucher memory) done.0 done.1)) }
{
    let sharer = &sharers[place];
    huge_sent_from(alloc, space, &sharer.pages.places, said, toucher)
}

/// What a move did is told of the process at a place.
fn tell_sent(sharers: &mut Vec<Sharer>, place: usize, last: HugeLast)
    requires { place < length sharers.old.items }
    ensures told { IsChanged place sharers.old.items sharers.new.items
        (λ old. record old { last = last }) }
    ensures room { vec_capacity sharers.new ≡ vec_capacity sharers.old }
{
    let sharer = &mut sharers[place];
    drop(std::mem::replace(&mut sharer.pages.last, last));
}

impl HostHuge {
    /// Pages of a process leave one set of nodes for another, if they are to.
    pub fn follow(&mut self, process: u32, follows: bool, old: &NodeMask, new: &NodeMask)
        ensures { Changes process self.old self.new (huge_followed follows old.now new.now) }
    {
        let Some(place) = place_of(&self.sharers, process) else {
            return;
        };
        lend_at(&self.pools, &mut self.sharers, place);
        follow_at(&mut self.sharers, place, follows, old, new);
        self.pools = pools_at(&self.sharers, place);
    }

    /// How many pages the last move of a process took along: none where it has none.
    pub fn moved(&self, process: u32) -> u64
        ensures { (at : Sharing) → HugeLies self.now at
            → result ≡ moved_along (memory_in process at) }
    {
        match self.pages_of(process) {
            Some(kept) => kept.last.moved(),
            None => 0,
        }
    }

    /// The last move moved no page of 2 MiB of a process.
    pub fn rest(&mut self, process: u32)
        ensures { Changes process self.old self.new huge_rested }
    {
        let Some(place) = place_of(&self.sharers, process) else {
            return;
        };
        rest_at(&mut self.sharers, place);
    }

    /// Moves the page of an address of a process, in bytes, which has 2 MiB, to a node, as
    /// move_pages(2) does.
    ///
    /// # Errors
    /// As [`huge_move`]; nothing has changed.
    pub fn move_page(
        &mut self,
        process: u32,
        space: &Space,
        address: u64,
        node: u32,
    ) -> Result<(), MoveRefusal>
        requires { is_some (spots_in process self.old.sharers (huge_page address)) ≡ true }
        ensures { MovesIn process self.old result self.new space.now address node }
    {
        let Some(place) = place_of(&self.sharers, process) else {
            unreachable!()
        };
        lend_at(&self.pools, &mut self.sharers, place);
        let done = move_at(&mut self.sharers, place, space, address, node);
        self.pools = pools_at(&self.sharers, place);
        done
    }

    /// Whether a page of 2 MiB of a process, of a span that is judged, lies on another node than
    /// those of a list.
    pub fn has_astray(&self, process: u32, space: &Space, said: &Binding) -> bool
        ensures { (at : Sharing) (history : List Command) → HugeLies self.now at
            → StandsFor space.now history → result ≡ astray_in (memory_in process at)
            (process_in space.now history []) said.now }
    {
        match self.pages_of(process) {
            Some(kept) => huge_astray(space, &kept.places, said),
            None => false,
        }
    }

    /// The pages of a process, of which those of a span that lie astray went where a policy has
    /// them go, before the space has it; and what that did. None if something refuses the policy.
    ///
    /// # Errors
    /// `NoMemory`: out of memory, or there would be too many runs.
    pub fn sent(
        &mut self,
        process: u32,
        space: &Space,
        said: &Rebinding,
        toucher: Toucher,
    ) -> Result<Option<(HugePlaces, Flows)>, NoMemory>
        requires { is_some (place_in process self.old.sharers) ≡ true }
        ensures sent { (memory : HugeMemory) (history : List Command) (kept : Kept)
            → lying_of process self.old ≡ memory.pages → StandsFor space.now history
            → refusal_of space.now.machine space.now.bounds history (command_of said.now) ≡ None
            → IfOk result (λ done. IsSomeAnd done (λ done. IsWalk
            (huge_walk (process_in space.now history kept) said.now toucher memory) done.0
            done.1)) }
        ensures can { IfOk result (λ done. IfSome done (λ done. CanBe process self.new done.0)) }
        ensures same { IsSame self.old self.new }
    {
        let Some(place) = place_of(&self.sharers, process) else {
            unreachable!()
        };
        lend_at(&self.pools, &mut self.sharers, place);
        sent_at(self.alloc, space, &self.sharers, place, said, toucher)
    }

    /// Pages of a process went so (`sent`).
    pub fn settle_sent(&mut self, process: u32, after: HugePlaces, flows: Flows)
        requires { CanBe process self.old after }
        ensures { (walk : HugeWalk) → IsWalk walk after flows → Changes process self.old self.new
            (λ memory. record memory { pages = walk.huge; told = walk.told }) }
    {
        let Some(place) = place_of(&self.sharers, process) else {
            drop(after);
            drop(flows);
            return;
        };
        let pools = *after.pools();
        settle_at(&mut self.sharers, place, after);
        tell_sent(&mut self.sharers, place, HugeLast::Pages(flows));
        self.pools = pools;
    }
}
