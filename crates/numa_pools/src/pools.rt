//! The pools of a machine.
ghost use Rattle.std.specs.Prelude.{◌≡◌, ◌+◌, ◌-◌, ◌≤◌, ◌^◌, ◌<◌, if◌then◌else◌, IfSome, false};
ghost use Rattle.std.specs.Prelude.{true, nat_lt, slice_index, sum};
ghost use Rattle.numa_pools.specs.Kept.{AreKept};
ghost use Rattle.numa_pools.specs.Pools.{giver, giving_back, lacks_pages, no_pages};
ghost use Rattle.numa_pools.specs.Pools.{refusing, reserving, surplus_at, taken_from, total_at};
ghost use Rattle.numa_pools.specs.Pools.{end_surplus, first_free, free_at, lasting, may_give, most};
ghost use Rattle.numa_pools.specs.Pools.{taking, unreserved, used};

mod moving;
mod resizing;

use crate::counts::{NODES, are_fewer, are_fewer_on, least_of, sum_of, take_each};
use crate::shares::in_turn;
use numa_machine::Machine;
use numa_mask::NodeMask;
use std::marker::Model;

/// The pools of pages of 2 MiB of a machine, which all its processes share: of each node how many
/// pages there are, how many are free and how many surplus; how many are reserved; and which node
/// is next to grow and to shrink.
#[derive(Clone, Copy, Debug)]
pub struct Pools {
    memory: NodeMask,
    total: [u64; NODES],
    free: [u64; NODES],
    surplus: [u64; NODES],
    reserved: u64,
    grow: u32,
    shrink: u32,
}

impl Model for Pools {
    ghost use Rattle.numa_pools.specs.Pools.{PoolCounts};

    ghost Value = { PoolCounts };

    ghost use Rattle.numa_pools.specs.Shown.{shown};
    ghost use Rattle.numa_pools.specs.Kept.{AreKept};

    ghost view = { shown };

    ghost invariant = { λ p. AreKept (shown p) };

    ghost inverse = { λ p. record {
      memory = p.memory;
      total = p.total;
      free = p.free;
      surplus = p.surplus;
      reserved = p.reserved;
      grow = p.grow;
      shrink = p.shrink;
    } };
}

/// The first node of a list with a free page.
fn first_free(free: &[u64; NODES], nodes: &[u8]) -> Option<u8>
    ensures node { result ≡ first_free free.now nodes.now }
    ensures free { IfSome result (λ node. 0 < slice_index free.now node) }
{
    for node in nodes {
        if free[*node as usize] > 0 {
            return Some(*node);
        }
    }
    None
}

/// How many pages are reserved after one was taken, by a reservation or without one.
fn reserved_after(reserved: u64, by_reservation: bool) -> u64
    ensures { result ≡ (if by_reservation then reserved - 1 else reserved) }
{
    if by_reservation {
        reserved.saturating_sub(1)
    } else {
        reserved
    }
}

impl Pools {
    /// The pools of a machine on which no page of 2 MiB was asked for yet.
    pub fn new(machine: &Machine) -> Pools
        ensures { result ≡ no_pages machine.now.memory }
    {
        let memory = machine.memory();
        let Some(first) = memory.first() else {
            unreachable!();
        };
        let first = u32::from(first.number());
        Pools {
            memory,
            total: [0; NODES],
            free: [0; NODES],
            surplus: [0; NODES],
            reserved: 0,
            grow: first,
            shrink: first,
        }
    }

    /// The nodes with memory.
    pub fn memory(&self) -> NodeMask
        ensures { result ≡ self.now.memory }
    {
        self.memory
    }

    /// How many pages a node has, used, free and surplus ones.
    pub fn total(&self, node: u8) -> u64
        ensures total { result ≡ total_at self.now node }
        ensures at_most { result ≤ most }
    {
        self.total[node as usize]
    }

    /// How many pages of a node are free, reserved ones among them.
    pub fn free(&self, node: u8) -> u64
        ensures free { result ≡ free_at self.now node }
        ensures at_most { result ≤ total_at self.now node }
    {
        self.free[node as usize]
    }

    /// How many pages of a node are surplus: as many pages end when they become free. Sometimes
    /// there are more than the node has pages.
    pub fn surplus(&self, node: u8) -> u64
        ensures { result ≡ surplus_at self.now node }
    {
        self.surplus[node as usize]
    }

    /// How many pages each node has, used, free and surplus ones.
    pub fn totals(&self) -> [u64; NODES]
        ensures { result ≡ self.now.total }
    {
        self.total
    }

    /// How many pages of each node are free, reserved ones among them.
    pub fn all_free(&self) -> [u64; NODES]
        ensures { result ≡ self.now.free }
    {
        self.free
    }

    /// How many pages of each node are surplus.
    pub fn surpluses(&self) -> [u64; NODES]
        ensures { result ≡ self.now.surplus }
    {
        self.surplus
    }

    /// How many free pages are reserved, on all nodes together.
    pub fn reserved(&self) -> u64
        ensures { result ≡ self.now.reserved }
    {
        self.reserved
    }

    /// How many pages last when they become free, on all nodes together.
    fn lasting(&self) -> u64
        ensures lasting { result ≡ lasting self.now }
        ensures at_most { result ≤ 2 ^ 48 }
    {
        sum_of(&self.total) - sum_of(&self.surplus)
    }

    /// How many pages are used or reserved, on all nodes together.
    fn kept(&self) -> u64
        ensures kept { result ≡ used self.now + self.now.reserved }
        ensures at_most { result ≤ 2 ^ 48 }
    {
        sum_of(&self.total) - sum_of(&self.free) + self.reserved
    }

    /// How many free pages are not reserved, on all nodes together.
    fn unreserved(&self) -> u64
        ensures { result ≡ unreserved self.now }
    {
        sum_of(&self.free) - self.reserved
    }

    /// How many pages are surplus, on all nodes together.
    fn all_surplus(&self) -> u64
        ensures { result ≡ sum self.now.surplus }
    {
        sum_of(&self.surplus)
    }

    /// What pools keep, whatever was done. The call does nothing.
    pub fn keep(&self)
        ensures { AreKept self.now }
    {
        let _total = &self.total;
    }

    /// Whether there are fewer unreserved pages than so many.
    fn lacks_unreserved(&self, pages: u64) -> bool
        ensures { result ≡ nat_lt (unreserved self.now) pages }
    {
        let asked = pages.saturating_add(self.reserved);
        are_fewer(&self.free, asked)
    }

    /// Whether there are too few pages for a mapping of so many, whose pages may come from these
    /// nodes: those that its process is allowed, and if its task is bound, bound nodes among them.
    pub fn lacks(&self, pages: u64, nodes: &NodeMask) -> bool
        ensures lacks { result ≡ lacks_pages self.now pages nodes.now }
        ensures enough { result ≡ false → pages ≤ unreserved self.now }
    {
        self.lacks_unreserved(pages) || are_fewer_on(nodes, &self.free, pages)
    }

    /// Reserves the pages of a mapping, which are there (`lacks`).
    pub fn reserve(&mut self, pages: u64)
        requires { pages ≤ unreserved self.old }
        ensures { self.new ≡ reserving self.old pages }
    {
        self.reserved += pages;
    }

    /// So many free surplus pages end, in turn on all nodes with memory, as far as there are.
    fn end_surplus(&mut self, pages: u64)
        requires { self.old.reserved + pages ≤ sum self.old.free }
        ensures { self.new ≡ end_surplus self.old pages }
    {
        let times = pages.min(self.all_surplus());
        let room = least_of(&self.surplus, &self.free);
        let shares = in_turn(times, &self.memory, self.shrink, &room);
        take_each(&mut self.total, &shares.taken);
        take_each(&mut self.free, &shares.taken);
        take_each(&mut self.surplus, &shares.taken);
        self.shrink = shares.mark;
    }

    /// Gives reservations back, of pages that were never touched: as many free surplus pages end.
    pub fn give_back(&mut self, pages: u64)
        requires { pages ≤ self.old.reserved }
        ensures { self.new ≡ giving_back self.old pages }
    {
        self.reserved -= pages;
        self.end_surplus(pages);
    }

    /// What a mapping leaves that is refused for lack of pages: where there are enough, but not on
    /// its nodes, it has reserved its pages, and gives them back.
    pub fn refuse(&mut self, pages: u64)
        ensures { self.new ≡ refusing self.old pages }
    {
        self.keep();
        if self.unreserved() < pages {
            return;
        }
        self.end_surplus(pages);
    }

    /// Whether a page may be taken at all, by a reservation or without one: free pages are left
    /// that are not reserved for others.
    fn may_give(&self, by_reservation: bool) -> bool
        ensures { result ≡ may_give self.now by_reservation }
    {
        by_reservation || self.reserved < sum_of(&self.free)
    }

    /// Takes a page of a node, which has a free one that is not reserved for others; a reservation,
    /// if it comes by one, is used up.
    fn take_from(&mut self, node: u8, by_reservation: bool)
        requires free { 0 < free_at self.old node }
        requires may { may_give self.old by_reservation ≡ true }
        ensures { self.new ≡ taking self.old node by_reservation }
    {
        let reserved = reserved_after(self.reserved, by_reservation);
        self.free[node as usize] -= 1;
        self.reserved = reserved;
    }

    /// Which node gives a page at a first touch: the first of these nodes that has a free one, by a
    /// reservation or without one. `None` if none has any, or all free pages are reserved for
    /// others.
    pub fn giver(&self, nodes: &[u8], by_reservation: bool) -> Option<u8>
        ensures node { result ≡ giver self.now nodes.now by_reservation }
        ensures free { IfSome result (λ node. 0 < free_at self.now node) }
        ensures may { IfSome result (λ _node. may_give self.now by_reservation ≡ true) }
    {
        if !self.may_give(by_reservation) {
            return None;
        }
        first_free(&self.free, nodes)
    }

    /// Takes a page at a first touch, from the node that gives it (`giver`); a reservation, if it
    /// comes by one, is used up. Where no node gives one, nothing has changed.
    pub fn take(&mut self, nodes: &[u8], by_reservation: bool) -> Option<u8>
        ensures node { result ≡ giver self.old nodes.now by_reservation }
        ensures pools { self.new ≡ taken_from self.old result by_reservation }
    {
        let Some(node) = self.giver(nodes, by_reservation) else {
            return None;
        };
        self.take_from(node, by_reservation);
        Some(node)
    }
}
