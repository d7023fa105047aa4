//! Policies that pages of 2 MiB go to, or that are refused for them: mbind(2) with MPOL_MF_STRICT
//! and MPOL_MF_MOVE.
ghost use Rattle.std.specs.Prelude.{◌≡◌, ◌+◌, ◌-◌, ◌*◌, ◌^◌, ◌<◌, ◌≤◌, IfOk, OnOk};
ghost use Rattle.std.specs.Prelude.{Some, if◌then◌else◌, length};
ghost use Rattle.numa_ranges.specs.Maps.{any_page};
ghost use Rattle.numa_space.specs.Lists.{within};
ghost use Rattle.numa_pools.specs.Pools.{renewing};
ghost use Rattle.numa_huge.specs.Huge.{huge_at, places_of, most_pages};
ghost use Rattle.numa_huge.specs.Moves.{goal, is_astray, is_many, named_by, named_in, replacing};
ghost use Rattle.numa_huge.specs.Moves.{sent_page, sent_pages, walk_from};
ghost use Rattle.numa_huge.specs.Kept.{Keeps};
ghost use Rattle.numa_huge.specs.Moves.{HugeTold};
ghost use Rattle.numa_huge.specs.Tallies.{HasTold, IsWalk};
ghost use Rattle.numa_huge.specs.declared.spot.HugeSpot.TheVariants.{On};

use crate::counts::counts_of;
use crate::last::{Flows, HugeLast};
use crate::places::HugePlaces;
use crate::places::touching::{PARTS, nodes_of};
use crate::spot::HugeSpot;
use arrayvec::ArrayVec;
use numa_machine::NoMemory;
use numa_mask::NodeMask;
use numa_mode::{Mode, Record};
use numa_placed::other_node;
use numa_pools::Pools;
use numa_requests::PlacedRefusal;
use numa_space::Space;
use std::alloc::Global;

/// Whether a policy of this mode prefers many nodes.
fn is_many(mode: Mode) -> bool
    ensures { result ≡ is_many mode }
{
    matches!(mode, Mode::PreferredMany)
}

/// The nodes of a list that are in a set.
fn within(nodes: &[u8], set: &NodeMask) -> ArrayVec<u8, 256>
    requires { length nodes.now ≤ 256 }
    ensures { result.items ≡ within set.now nodes.now }
{
    let mut found = ArrayVec::new();
    for node in nodes {
        if set.has(*node) {
            found.push(*node);
        }
    }
    found
}

/// The nodes of a page's list to which it may go by a policy: of many preferred ones those alone.
fn named_by(policy: Option<Record>, list: ArrayVec<u8, 256>) -> ArrayVec<u8, 256>
    ensures { result.items ≡ named_by policy list.items }
{
    let Some(policy) = policy else {
        return list;
    };
    if !is_many(policy.spec().mode()) {
        return list;
    }
    within(&list, &policy.effective())
}

/// The nodes to which a page may go, for a fault of a task on a CPU of node `cpu`.
fn named(space: &Space, page: u64, task: u32, cpu: u32) -> ArrayVec<u8, 256>
    requires { page ≤ most_pages }
    ensures { result.items ≡ named_in space.now task cpu (page * 512) }
{
    let list = nodes_of(space, page, task, cpu);
    named_by(space.policy_at(task, page * PARTS), list)
}

/// Where a page goes that may go to these nodes: to the first that has a free page which isn't
/// reserved, else to the first.
fn goal(pools: &Pools, nodes: &[u8]) -> Option<u8>
    ensures { result ≡ goal pools.now nodes.now }
{
    match pools.giver(nodes, false) {
        Some(node) => Some(node),
        None => nodes.first().copied(),
    }
}

/// Up to which page those of a run go that has the pages from one up to another: all, if they lie
/// astray of a list, else none.
fn part_end(spot: HugeSpot, list: &NodeMask, from: u64, to: u64) -> u64
    ensures { result ≡ (if is_astray list.now (Some spot) then to else from) }
{
    match spot {
        HugeSpot::Bare => from,
        HugeSpot::Reserved => from,
        HugeSpot::On(node) => {
            if list.has(node) {
                return from;
            }
            to
        }
    }
}

impl HugePlaces {
    /// Whether one of the `pages` pages from `first` on lies on another node than those of a list.
    pub fn has_astray(&self, first: u64, pages: u64, list: &NodeMask) -> bool
        requires { first + pages ≤ most_pages }
        ensures { result ≡ any_page (λ page. is_astray list.now (huge_at self.now.runs page)) first
            pages }
    {
        let counts = counts_of(&self.map, first, pages);
        match other_node(list, &counts.on) {
            Some(_node) => true,
            None => false,
        }
    }

    /// A page that lies on a node goes to another; or stays, and a free page of its own node takes
    /// its place, where one serves.
    ///
    /// # Errors
    /// `TooManyRuns`, `NoMemory`, as [`PlacedRefusal`] says.
    fn replace(&mut self, page: u64, from: u8, node: u8) -> Result<(), PlacedRefusal>
        requires { huge_at self.old.runs page ≡ Some (On from) }
        ensures pages { OnOk result
            (places_of self.new ≡ replacing page from node (places_of self.old)) }
        ensures keeps { Keeps (places_of self.old) (places_of self.new) }
    {
        if from == node {
            self.renew(from);
            return Ok(());
        }
        self.pass(page, from, node)
    }

    /// A free page of a node takes the place of a page that lies there, where one serves.
    fn renew(&mut self, node: u8)
        ensures pages { places_of self.new ≡ (record {
          pools = renewing self.old.pools node;
          spots = huge_at self.old.runs;
        }) }
        ensures keeps { Keeps (places_of self.old) (places_of self.new) }
    {
        self.pools.keep();
        self.pools.renew_page(node);
        self.pools.keep();
    }

    /// A page that lies astray goes to its goal.
    fn send_page(
        &mut self,
        flows: &mut Flows,
        space: &Space,
        said: &NodeMask,
        page: u64,
        task: u32,
        cpu: u32,
    ) -> Result<(), NoMemory>
        requires page { page ≤ most_pages }
        requires left { flows.old.left < 2 ^ 63 }
        ensures left { flows.new.left ≤ flows.old.left + 1 }
        ensures keeps { Keeps (places_of self.old) (places_of self.new) }
        ensures sent { (told : HugeTold) → HasTold (HugeLast.Pages flows.old) told → OnOk result
            (IsWalk (sent_page said.now (λ page. named_in space.now task cpu (page * 512)) page
            (record { huge = places_of self.old; told = told })) self.new flows.new) }
    {
        let Some(from) = self.node_at(page) else {
            return Ok(());
        };
        if said.has(from) {
            return Ok(());
        }
        let nodes = named(space, page, task, cpu);
        let Some(to) = goal(self.pools(), &nodes) else {
            flows.stay();
            return Ok(());
        };
        let Ok(()) = self.replace(page, from, to) else {
            return Err(NoMemory);
        };
        flows.pass(from, to)
    }

    /// The pages from one up to another go, those of them that lie astray, the lowest first.
    fn send_part(
        &mut self,
        flows: &mut Flows,
        space: &Space,
        said: &NodeMask,
        from: u64,
        to: u64,
        task: u32,
        cpu: u32,
    ) -> Result<(), NoMemory>
        requires rises { from ≤ to }
        requires within { to ≤ most_pages }
        requires left { flows.old.left ≤ from }
        ensures left { flows.new.left ≤ flows.old.left + (to - from) }
        ensures keeps { Keeps (places_of self.old) (places_of self.new) }
        ensures sent { (told : HugeTold) → HasTold (HugeLast.Pages flows.old) told → OnOk result
            (IsWalk (sent_pages said.now (λ page. named_in space.now task cpu (page * 512)) from
            (to - from) (record { huge = places_of self.old; told = told })) self.new flows.new) }
    {
        for page in from..to {
            let Ok(()) = self.send_page(flows, space, said, page, task, cpu) else {
                return Err(NoMemory);
            };
        }
        Ok(())
    }

    /// The pages, of which those among the `pages` pages from `first` on that lie on other nodes
    /// than those of a list went to nodes of their own in the space, as mbind(2) moves them
    /// once its policy is set; and what that did. Pages of runs that don't lie astray are passed
    /// over together.
    ///
    /// # Errors
    /// `NoMemory`: there is no memory for the copy or its runs, or these are too many.
    pub fn sent(
        &self,
        alloc: Global,
        space: &Space,
        first: u64,
        pages: u64,
        list: &NodeMask,
        task: u32,
        cpu: u32,
    ) -> Result<(HugePlaces, Flows), NoMemory>
        requires { first + pages ≤ most_pages }
        ensures sent { IfOk result (λ done. IsWalk (sent_pages list.now
            (λ page. named_in space.now task cpu (page * 512)) first pages
            (walk_from (places_of self.now))) done.0 done.1) }
        ensures keeps { IfOk result (λ done. Keeps (places_of self.now) (places_of done.0)) }
    {
        let Ok(mut sent) = self.copy() else {
            return Err(NoMemory);
        };
        let mut flows = Flows::new(alloc);
        let end = first + pages;
        let mut page = first;
        for run in self.map.iter_from(first) {
            if run.first >= end {
                return Ok((sent, flows));
            }
            let from = run.first.max(page);
            let behind = run.first + run.pages;
            let last = behind.min(end);
            let to = last.max(from);
            let part = part_end(run.value, list, from, to);
            let Ok(()) = sent.send_part(&mut flows, space, list, from, part, task, cpu) else {
                return Err(NoMemory);
            };
            page = to;
        }
        Ok((sent, flows))
    }
}
