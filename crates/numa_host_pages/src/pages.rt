//! Where the pages of a host's processes lie.
ghost use Rattle.std.specs.Prelude.{◌≡◌, ◌<◌, ℕ, Bool, IfOk, MatchOption, None, OnErr, Some};
ghost use Rattle.std.specs.Prelude.{length, slice_index};
ghost use Rattle.numa_host.specs.Groups.{effective_mems};
ghost use Rattle.numa_placed.specs.Shifts.{AreRooms};
ghost use Rattle.numa_page_state.specs.Lying.{Lying, nothing};
ghost use Rattle.numa_page_state.specs.Outcomes.{Lack};
ghost use Rattle.numa_page_state.specs.Standing.{LiesAs};
ghost use Rattle.numa_host_pages.specs.Homes.{FollowEach, HostLying, all_still, empty_host};
ghost use Rattle.numa_host_pages.specs.Homes.{given_back, lent, other_homes, pages_in};
ghost use Rattle.numa_host_pages.specs.Homes.{still_pages, taken_along, with_attached, with_born};
ghost use Rattle.numa_host_pages.specs.Homes.{with_child, with_ended, with_pages, with_room};
ghost use Rattle.numa_host_huge.specs.Kept.{IsMade};
ghost use Rattle.numa_host_huge.specs.Standing.{HasChild};
ghost use Rattle.numa_host_pages.specs.Standing.{HostLies, IsLent, LiesApart};
ghost use Rattle.numa_host_pages.specs.Summed.{sum_in};
ghost use Rattle.numa_host_pages.specs.TopDown.{top_down};

use crate::following::{follow_below, follow_home, follow_huge};
use crate::member::{
    Member, add, add_again, boxed, pages_of, put_pages, remove, rooms_without, still_all,
    take_along, take_pages,
};
use crate::summing::{add_flows, add_row, both, huge_flows, huge_sum, sum_of};
use numa_host::ControlGroup;
use numa_host_huge::HostHuge;
use numa_huge::HugePages;
use numa_machine::{Machine, NoMemory};
use numa_mask::NodeMask;
use numa_page_state::lending::limit_rooms;
use numa_page_state::{PageState, Shift};
use numa_placed::Rooms;
use numa_requests::PlacedRefusal;
use std::alloc::Global;

/// The most processes of a host.
const MAX_PROCESSES: usize = 4_096;

/// Where the pages of a host's processes lie, how many more pages each node takes, and whether
/// pages follow the allowed nodes.
pub struct HostPages {
    pub(crate) rooms: Option<Rooms>,
    pub(crate) follows: bool,
    pub(crate) members: Vec<Member>,
    /// Pages of 2 MiB, and the pools that they come from.
    pub huge: HostHuge,
}

// (By hand, so that it is proved here alone: a derived one is proved in each crate that drops.)
impl Drop for HostPages {
    fn drop(self) {
        let HostPages {
            rooms: _,
            follows: _,
            members,
            huge,
        } = self;
        drop(members);
        drop(huge);
    }
}

impl HostPages {
    /// A host without processes, whose pages follow. Room is kept for as many processes as a host
    /// may have, so that none that comes or moves wants memory for its place.
    ///
    /// # Errors
    /// `NoMemory`: there is no memory for it.
    pub fn new(alloc: Global, machine: &Machine) -> Result<HostPages, NoMemory>
        ensures { IfOk result (λ pages. HostLies pages (empty_host machine.now.memory)) }
    {
        let Ok(huge) = HostHuge::new(alloc, machine) else {
            return Err(NoMemory);
        };
        let Ok(members) = Vec::with_capacity(alloc, MAX_PROCESSES) else {
            drop(huge);
            return Err(NoMemory);
        };
        Ok(HostPages {
            rooms: None,
            follows: true,
            members,
            huge,
        })
    }

    /// Returns a copy. Later changes of one of the two don't affect the other.
    ///
    /// # Errors
    /// `NoMemory`: there is no memory for it.
    pub fn copy(&self, alloc: Global) -> Result<HostPages, NoMemory>
        ensures { IfOk result (λ copy. (at : HostLying) → HostLies self.now at
            → HostLies copy at) }
    {
        let Ok(mut members) = Vec::with_capacity(alloc, MAX_PROCESSES) else {
            return Err(NoMemory);
        };
        let Ok(()) = add_again(alloc, &self.members, &mut members) else {
            drop(members);
            return Err(NoMemory);
        };
        let Ok(huge) = self.huge.copy() else {
            drop(members);
            return Err(NoMemory);
        };
        Ok(HostPages {
            rooms: self.rooms,
            follows: self.follows,
            members,
            huge,
        })
    }

    /// How many more pages each node takes, once that was said of one.
    pub fn rooms(&self) -> Option<&Rooms>
        ensures { (at : HostLying) → HostLies self.now at → MatchOption result (at.room ≡ None)
            (λ rooms. (room : ℕ → ℕ) × (at.room ≡ Some room) × AreRooms rooms.now room) }
    {
        self.rooms.as_ref()
    }

    /// Says how many more pages a node takes from now on, whichever process they are of; 2^64 - 1
    /// if it never fills.
    ///
    /// # Errors
    /// `NoSuchNode`: the machine lacks the node, or it has no memory.
    pub fn limit(&mut self, machine: &Machine, node: u32, pages: u64) -> Result<(), PlacedRefusal>
        ensures said { (at : HostLying) → HostLies self.old at
            → (result ≡ (with_room machine.now node pages at).0)
            × HostLies self.new (with_room machine.now node pages at).1 }
        ensures unchanged { OnErr result (self.new ≡ self.old) }
    {
        limit_rooms(&mut self.rooms, machine, node, pages)
    }

    /// Says whether pages follow the nodes that their process is allowed: `false` is cgroup v1's
    /// memory_migrate of 0.
    pub fn set_follows(&mut self, follows: bool)
        ensures { (at : HostLying) → HostLies self.old at
            → HostLies self.new (record at { follows = follows }) }
    {
        self.follows = follows;
    }

    /// The pages of a process, if it has any.
    pub fn pages_of(&self, process: u32) -> Option<&PageState>
        ensures { (at : HostLying) → HostLies self.now at → MatchOption result
            (pages_in process at.homes ≡ None) (λ state. (lying : Lying)
            × (pages_in process at.homes ≡ Some lying) × LiesApart state.now lying) }
    {
        pages_of(&self.members, process)
    }

    /// Takes the pages of a process out, if it has any, and lends them the host's rooms until they
    /// are given back ([`HostPages::give_back`]).
    pub fn lend(&mut self, process: u32) -> Option<Box<PageState>>
        ensures { (at : HostLying) → HostLies self.old at → IsLent result
            (pages_in process at.homes) at × HostLies self.new (record at {
              homes = with_pages process None at.homes;
            }) }
    {
        let mut state = take_pages(&mut self.members, process)?;
        state.lend(&self.rooms, self.follows);
        Some(state)
    }

    /// The first pages of a process that has none yet, with the host's rooms lent to them.
    ///
    /// # Errors
    /// `NoMemory`: there is no memory for them.
    pub fn begin(&self, alloc: Global) -> Result<Box<PageState>, NoMemory>
        ensures { (at : HostLying) → HostLies self.now at → IfOk result (λ state.
            LiesAs state.value (lent at.room at.follows nothing)) }
    {
        let Ok(mut state) = PageState::new(alloc) else {
            return Err(NoMemory);
        };
        state.lend(&self.rooms, self.follows);
        boxed(alloc, state)
    }

    /// The pages of a process lie so now; the rooms that they leave are the host's again.
    pub fn give_back(&mut self, process: u32, state: Box<PageState>)
        ensures { (at : HostLying) (done : Lying) → HostLies self.old (record at {
          homes = with_pages process None at.homes;
        }) → LiesAs state.value done → HostLies self.new (given_back process done at) }
    {
        self.rooms = state.rooms_left();
        put_pages(&mut self.members, process, Some(state));
    }

    /// A process comes to a group that allows these nodes; it has no pages.
    pub fn born(&mut self, process: u32, group: u32, nodes: &NodeMask)
        ensures { (at : HostLying) → HostLies self.old at → length at.homes < 4096
            → HostLies self.new (with_born process group nodes.now at) }
    {
        let member = Member {
            id: process,
            group,
            allowed: *nodes,
            pages: None,
            along: false,
        };
        add(&mut self.members, member);
    }

    /// A child comes to the group of its parent, with pages of 2 MiB that were made for it
    /// ([`HostHuge::inherited`]); it has no other pages.
    pub fn forked(&mut self, child: u32, group: u32, nodes: &NodeMask, made: Option<Box<HugePages>>)
        requires { IsMade made self.old.huge.sharers }
        ensures { (at : HostLying) (parent : ℕ) → HostLies self.old at → length at.homes < 4096
            → HasChild self.old.huge parent child made
            → HostLies self.new (with_child parent child group nodes.now at) }
    {
        self.huge.born(child, made);
        self.born(child, group, nodes);
    }

    /// A process ends; its pages give their room back, those of 2 MiB to the pools.
    pub fn ended(&mut self, process: u32)
        ensures { (at : HostLying) → HostLies self.old at
            → HostLies self.new (with_ended process at) }
    {
        let pages = take_pages(&mut self.members, process);
        let rooms = rooms_without(pages, &self.rooms);
        self.rooms = rooms;
        remove(&mut self.members, process);
        self.huge.ended(process);
    }

    /// A process that was allowed some nodes comes to a group that allows others, behind all that
    /// are there, and its pages follow: this is the host's last move.
    pub fn attached(&mut self, process: u32, group: u32, old: &NodeMask, nodes: &NodeMask)
        ensures { (at : HostLying) → HostLies self.old at
            → length (other_homes process at.homes) < 4096 → (lack : Lack)
            × HostLies self.new (with_attached lack process group old.now nodes.now at) }
    {
        let pages = take_pages(&mut self.members, process);
        let mut member = Member {
            id: process,
            group,
            allowed: *old,
            pages,
            along: false,
        };
        follow_home(&mut member, &mut self.rooms, self.follows, nodes);
        follow_huge(&mut self.huge, process, self.follows, old, nodes);
        remove(&mut self.members, process);
        still_all(&mut self.members);
        add(&mut self.members, member);
    }

    /// Groups allow what they allow from now on, by their lists and those above: the pages of each
    /// process follow whose group allows others than before: this is the host's last move. `groups`
    /// has the newest first.
    pub fn follow(&mut self, memory: NodeMask, groups: &[ControlGroup])
        ensures { (at : HostLying) → HostLies self.old at → (after : HostLying)
            × FollowEach (effective_mems memory groups.now) (top_down groups.now) (all_still at)
            after × HostLies self.new after }
    {
        still_all(&mut self.members);
        follow_below(
            groups,
            0,
            memory,
            groups,
            &mut self.members,
            &mut self.rooms,
            &mut self.huge,
            self.follows,
        );
    }

    /// No page of 4 KiB of a process moved, if it has some.
    pub fn rest(&mut self, process: u32)
        ensures { (at : HostLying) → HostLies self.old at
            → HostLies self.new (still_pages process at) }
    {
        let Some(mut state) = take_pages(&mut self.members, process) else {
            return;
        };
        state.rest();
        put_pages(&mut self.members, process, Some(state));
    }

    /// The last move of a process is the host's: `migrate`, `move` or `mbind .. move`.
    pub fn take_along(&mut self, process: u32)
        ensures { (at : HostLying) → HostLies self.old at
            → HostLies self.new (taken_along process at) }
    {
        take_along(&mut self.members, process);
    }

    /// How many pages the host's last move took along, of all processes that are there, and how
    /// many had a node to go to and stayed; at most 2^64 - 1 each.
    pub fn last(&self) -> Shift
        ensures { (at : HostLying) → HostLies self.now at
            → (result.moved ≡ (sum_in at).moved) × (result.left ≡ (sum_in at).left) }
    {
        let small = sum_of(&self.members);
        if self.huge.is_empty() {
            return small;
        }
        both(small, huge_sum(&self.members, &self.huge))
    }

    /// How many pages the host's last move took from a node to each; at most 2^64 - 1 each.
    pub fn flow_from(&self, from: u8) -> [u64; 256]
        ensures { (at : HostLying) → HostLies self.now at → (to : ℕ) → to < 256
            → slice_index result to ≡ (sum_in at).flow from to }
    {
        let mut flow = [0; 256];
        add_flows(&self.members, from, &mut flow);
        if self.huge.is_empty() {
            return flow;
        }
        let huge = huge_flows(&self.members, &self.huge, from);
        add_row(&mut flow, &huge);
        flow
    }
}
