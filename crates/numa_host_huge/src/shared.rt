//! The pools of a host, and the processes that have pages of them.
ghost use Rattle.std.specs.Prelude.{◌≡◌, ◌==◌, ◌<◌, ◌≤◌, ◌^◌, ℕ, IfOk, MatchOption, None};
ghost use Rattle.std.specs.Prelude.{OnErr, OnOk, Some, is_some, length};
ghost use Rattle.std.specs.Result.{result_err};
ghost use Rattle.numa_pools.specs.Pools.{refusing};
ghost use Rattle.numa_pools.specs.Resize.{node_refusal, resized, resized_node};
ghost use Rattle.numa_page_state.specs.Huge.{has_huge_in, huge_at_address, huge_count};
ghost use Rattle.numa_page_state.specs.Huge.{huge_first, huge_page};
ghost use Rattle.numa_huge.specs.Huge.{has_huge, huge_at};
ghost use Rattle.numa_host_huge.specs.Sharing.{HugeHome, Sharing, ended, forked, home_of};
ghost use Rattle.numa_host_huge.specs.Sharing.{memory_in, no_sharing, with_pools};
ghost use Rattle.numa_host_huge.specs.Kept.{IsMade, place_in, spots_in};
ghost use Rattle.numa_host_huge.specs.Standing.{HasChild, HugeLies, LiesApart};

mod mapping;
mod moving;
mod touching;

use crate::sharer::{
    Sharer, add, add_again, at_place, child_pages, lend_at, place_of, pools_without,
};
use numa_huge::HugePages;
use numa_machine::{Machine, NoMemory};
use numa_mask::{NodeId, NodeMask};
use numa_page_state::huge_span;
use numa_pools::{PoolRefusal, Pools};
use std::alloc::Global;
use std::marker::Model;

/// The most processes of a host.
pub(crate) const MAX_PROCESSES: usize = 4_096;

/// The bytes of a page of 2 MiB.
pub(crate) const HUGE_BYTES: u64 = 1 << 21;

/// The pools of a host, and the processes that have pages of 2 MiB.
pub struct HostHuge {
    pub(crate) alloc: Global,
    pub(crate) pools: Pools,
    pub(crate) sharers: Vec<Sharer>,
}

impl Model for HostHuge {
    ghost use Rattle.std.specs.Prelude.{◌≤◌, vec_capacity};
    ghost use Rattle.numa_host_huge.specs.Kept.{AreShared, HugeKept};

    ghost Value = { HugeKept };

    ghost view = { λ a. record { pools = a.pools; sharers = a.sharers.items } };

    ghost invariant = { λ a. AreShared a.pools a.sharers.items
        × (4096 ≤ vec_capacity a.sharers) };
}

// (By hand, so that it is proved here alone: a derived one is proved in each crate that drops.)
impl Drop for HostHuge {
    fn drop(self) {
        let HostHuge {
            alloc: _,
            pools: _,
            sharers,
        } = self;
        drop(sharers);
    }
}

impl HostHuge {
    /// No process has a page of 2 MiB, and the pools of the machine have none. Room is kept for as
    /// many processes as a host may have, so that none wants memory for its place.
    ///
    /// # Errors
    /// `NoMemory`: there is no memory for it.
    pub fn new(alloc: Global, machine: &Machine) -> Result<HostHuge, NoMemory>
        ensures { IfOk result (λ kept. HugeLies kept (no_sharing machine.now.memory)) }
    {
        let Ok(sharers) = Vec::with_capacity(alloc, MAX_PROCESSES) else {
            return Err(NoMemory);
        };
        Ok(HostHuge {
            alloc,
            pools: Pools::new(machine),
            sharers,
        })
    }

    /// Returns a copy. Later changes of one of the two don't affect the other.
    ///
    /// # Errors
    /// `NoMemory`: there is no memory for it.
    pub fn copy(&self) -> Result<HostHuge, NoMemory>
        ensures { IfOk result (λ copy. (at : Sharing) → HugeLies self.now at → HugeLies copy at) }
    {
        let Ok(mut sharers) = Vec::with_capacity(self.alloc, MAX_PROCESSES) else {
            return Err(NoMemory);
        };
        let Ok(()) = add_again(self.alloc, &self.sharers, &mut sharers) else {
            drop(sharers);
            return Err(NoMemory);
        };
        Ok(HostHuge {
            alloc: self.alloc,
            pools: self.pools,
            sharers,
        })
    }

    /// The pools.
    pub fn pools(&self) -> &Pools
        ensures { result.now ≡ self.now.pools }
    {
        &self.pools
    }

    /// Whether no process has mapped such pages.
    pub fn is_empty(&self) -> bool
        ensures { (at : Sharing) → HugeLies self.now at → result ≡ (length at.homes == 0) }
    {
        self.sharers.len() == 0
    }

    /// The pages of a process, if it has mapped some; with the pools that they were lent last.
    pub fn pages_of(&self, process: u32) -> Option<&HugePages>
        ensures spots { MatchOption result (spots_in process self.now.sharers ≡ (λ page. None))
            (λ kept. spots_in process self.now.sharers ≡ huge_at kept.now.places.runs) }
        ensures home { (at : Sharing) → HugeLies self.now at → MatchOption result
            (home_of process at.homes ≡ None) (λ kept. (home : HugeHome)
            × (home_of process at.homes ≡ Some home) × LiesApart kept.now home) }
    {
        let at = place_of(&self.sharers, process)?;
        Some(at_place(&self.sharers, at))
    }

    /// Whether a process has mapped some.
    pub fn is_sharer(&self, process: u32) -> bool
        ensures kept { result ≡ is_some (place_in process self.now.sharers) }
        ensures sharer { (at : Sharing) → HugeLies self.now at
            → result ≡ is_some (memory_in process at) }
    {
        place_of(&self.sharers, process).is_some()
    }

    /// Whether the page of an address of a process, in bytes, has 2 MiB.
    pub fn is_huge_at(&self, process: u32, address: u64) -> bool
        ensures kept { result ≡ is_some (spots_in process self.now.sharers (huge_page address)) }
        ensures huge { (at : Sharing) → HugeLies self.now at
            → result ≡ is_some (huge_at_address (memory_in process at) address) }
    {
        match self.pages_of(process) {
            Some(kept) => kept.places.at(address / HUGE_BYTES).is_some(),
            None => false,
        }
    }

    /// Whether one of the pages of 4 KiB of a process is a part of one of 2 MiB.
    pub fn has_huge_in(&self, process: u32, first: u64, pages: u64) -> bool
        requires first { first ≤ 2 ^ 52 }
        requires pages { pages ≤ 2 ^ 52 }
        ensures kept { result ≡ has_huge (spots_in process self.now.sharers) (huge_first first)
            (huge_count first pages) }
        ensures huge { (at : Sharing) → HugeLies self.now at
            → result ≡ has_huge_in (memory_in process at) first pages }
    {
        let Some(kept) = self.pages_of(process) else {
            return false;
        };
        let span = huge_span(first, pages);
        kept.places.has_huge(span.first, span.pages)
    }

    // ---- pools

    /// Makes the pools have `count` lasting pages in all, as [`Pools::resize`](numa_pools::Pools).
    pub fn resize(&mut self, nodes: &NodeMask, allowed: &NodeMask, count: u64)
        ensures { (at : Sharing) → HugeLies self.old at → HugeLies self.new
            (with_pools (resized nodes.now allowed.now count at.pools) at) }
    {
        self.pools.keep();
        self.pools.resize(nodes, allowed, count);
    }

    /// What a mapping of so many pages leaves that is refused for lack of them.
    pub fn refuse(&mut self, pages: u64)
        ensures { (at : Sharing) → HugeLies self.old at
            → HugeLies self.new (with_pools (refusing at.pools pages) at) }
    {
        self.pools.keep();
        self.pools.refuse(pages);
        self.pools.keep();
    }

    /// Makes a node have `count` lasting pages; the host's machine has `nodes` nodes.
    ///
    /// # Errors
    /// As [`Pools::resize_node`](numa_pools::Pools::resize_node). Then nothing has changed.
    pub fn resize_node(
        &mut self,
        nodes: u32,
        node: NodeId,
        allowed: &NodeMask,
        count: u64,
    ) -> Result<(), PoolRefusal>
        requires { count < 2 ^ 63 }
        ensures resized { (at : Sharing) → HugeLies self.old at → OnOk result (HugeLies self.new
            (with_pools (resized_node node allowed.now count at.pools) at)) }
        ensures refusal { result_err result ≡ node_refusal nodes self.old.pools node count }
        ensures unchanged { OnErr result (self.new ≡ self.old) }
    {
        self.pools.keep();
        self.pools.resize_node(nodes, node, allowed, count)
    }

    // ---- processes come and go

    /// The pages of a child of a process, if that has any.
    ///
    /// # Errors
    /// `NoMemory`: there is no memory for them.
    pub fn inherited(
        &self,
        machine: &Machine,
        parent: u32,
    ) -> Result<Option<Box<HugePages>>, NoMemory>
        ensures child { (child : ℕ) → IfOk result (HasChild self.now parent child) }
        ensures made { IfOk result (λ made. IsMade made self.now.sharers) }
    {
        let Some(at) = place_of(&self.sharers, parent) else {
            return Ok(None);
        };
        if self.sharers.len() >= MAX_PROCESSES {
            return Err(NoMemory);
        }
        match child_pages(self.alloc, machine, at_place(&self.sharers, at)) {
            Ok(made) => Ok(Some(made)),
            Err(lack) => Err(lack),
        }
    }

    /// A child begins with pages that were made for it (`inherited`).
    pub fn born(&mut self, child: u32, made: Option<Box<HugePages>>)
        requires { IsMade made self.old.sharers }
        ensures { (at : Sharing) (parent : ℕ) → HugeLies self.old at → HasChild self.old parent
            child made → HugeLies self.new (forked parent child at) }
    {
        let Some(pages) = made else {
            return;
        };
        add(&mut self.sharers, child, pages);
    }

    /// A process ends: its pages become free, and its reservations are given back.
    pub fn ended(&mut self, process: u32)
        ensures { (at : Sharing) → HugeLies self.old at → HugeLies self.new (ended process at) }
    {
        let Some(at) = place_of(&self.sharers, process) else {
            return;
        };
        lend_at(&self.pools, &mut self.sharers, at);
        self.pools = pools_without(&self.sharers, at);
        let gone = self.sharers.remove(at);
        drop(gone);
    }
}
