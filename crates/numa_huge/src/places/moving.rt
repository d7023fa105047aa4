//! Pages of 2 MiB that go to other nodes.
ghost use Rattle.std.specs.Prelude.{◌≡◌, ◌≢◌, ◌<◌, ◌≤◌, ℕ, IfErr, IfOk, OnErr, OnOk};
ghost use Rattle.std.specs.Prelude.{Option, Some, slice_index};
ghost use Rattle.numa_mask.specs.NodeSet.{has};
ghost use Rattle.numa_placed.specs.Moves.{AreTargets};
ghost use Rattle.numa_placed.specs.Shifts.{ArePages};
ghost use Rattle.numa_pools.specs.Kept.{AreKept};
ghost use Rattle.numa_pools.specs.Moves.{moving};
ghost use Rattle.numa_pools.specs.Pools.{used_at};
ghost use Rattle.numa_huge.specs.Huge.{huge_at, node_of, places_of, with_span};
ghost use Rattle.numa_huge.specs.Kept.{AreLeaving, AreOwn, ArePooled, Keeps, Others};
ghost use Rattle.numa_huge.specs.Moves.{following, gone_spot, leave_from, leaving, moved_to};
ghost use Rattle.numa_huge.specs.Moves.{passing, told_following, told_moving};
ghost use Rattle.numa_huge.specs.Tallies.{HasTold, IsLackFor};
ghost use Rattle.numa_huge.specs.declared.spot.HugeSpot.{HugeSpot};
ghost use Rattle.numa_huge.specs.declared.spot.HugeSpot.TheVariants.{On};

use crate::counts::counts_of;
use crate::last::{HugeLast, one_moved, still};
use crate::places::touching::put;
use crate::places::{HugePlaces, MOST_PAGES};
use crate::spot::HugeSpot;
use numa_mask::NodeMask;
use numa_placed::{Moved, all_departures, next_source, waiting};
use numa_pools::Pools;
use numa_ranges::RangeMap;
use numa_requests::PlacedRefusal;

/// So many pages of a node, which processes have, go to another.
fn go_over(pools: &mut Pools, from: u8, to: u8, pages: u64)
    requires other { from ≢ to }
    requires used { pages ≤ used_at pools.old from }
    ensures pools { pools.new ≡ moving pools.old from to pages }
    ensures others { (node : ℕ) → node ≢ from
        → used_at pools.old node ≤ used_at pools.new node }
    ensures kept { AreKept pools.new }
    ensures near { to < 256 }
{
    pools.keep();
    let _ = pools.move_pages(from, to, pages);
    pools.keep();
}

/// The pages of the nodes of a set leave for their targets, in the order of all moves.
fn leave(pools: &mut Pools, targets: &[u8; 256], counts: &[u64; 256], from: &NodeMask)
    requires { (node : ℕ) → node < 256
        → slice_index counts.now node ≤ used_at pools.old node }
    ensures pools { (go count : ℕ → ℕ) → AreTargets targets.now go → ArePages counts.now count
        → pools.new ≡ leaving 256 go count (has from.now) pools.old }
    ensures pooled { (others : Others) (go : ℕ → ℕ) (spots : ℕ → Option HugeSpot)
        → AreTargets targets.now go → AreLeaving others from.now go counts.now pools.old spots
        → ArePooled others pools.new (λ page. gone_spot go (spots page)) }
{
    pools.keep();
    let mut waits = waiting(from);
    for turn in 0..256usize {
        let Some(source) = next_source(targets, &waits) else {
            return;
        };
        let target = targets[source as usize];
        go_over(pools, source, target, counts[source as usize]);
        waits[source as usize] = 0;
    }
}

/// A page once the pages of each node went to its target.
fn gone(spot: HugeSpot, targets: &[u8; 256]) -> HugeSpot
    ensures { (go : ℕ → ℕ) → AreTargets targets.now go
        → Some result ≡ gone_spot go (Some spot) }
{
    match spot {
        HugeSpot::Bare => HugeSpot::Bare,
        HugeSpot::Reserved => HugeSpot::Reserved,
        HugeSpot::On(node) => HugeSpot::On(targets[node as usize]),
    }
}

/// Tells the proof that nodes are bytes.
fn look(nodes: &[u8])
    ensures { (place : ℕ) → slice_index nodes.now place < 256 }
{
    let _ = nodes;
}

/// Sends the pages of each node to its target. It doesn't allocate.
fn send(map: &mut RangeMap<HugeSpot>, targets: &[u8; 256])
    ensures spots { (go : ℕ → ℕ) → AreTargets targets.now go → (page : ℕ)
        → huge_at map.new.runs page ≡ gone_spot go (huge_at map.old.runs page) }
    ensures own { AreOwn map.old.runs → AreOwn map.new.runs }
    ensures max_ranges { map.new.max_ranges ≡ map.old.max_ranges }
{
    look(targets);
    let targets = *targets;
    let go = |spot: &HugeSpot| -> HugeSpot
        ensures { (go : ℕ → ℕ) → AreTargets targets go
            → Some result ≡ gone_spot go (Some spot.now) }
    { gone(*spot, &targets) };
    map.update_all(go);
}

impl HugePlaces {
    /// Moves pages as Linux does when the allowed nodes change from one set to another and their
    /// memory is to migrate, or by migrate_pages(2): those of each node to its
    /// [`moved_node`](numa_placed::moved_node). None lacks room. It doesn't allocate.
    pub fn follow(&mut self, old: &NodeMask, new: &NodeMask) -> Moved
        ensures pages { places_of self.new ≡ following old.now new.now (places_of self.old) }
        ensures told { HasTold (HugeLast.Nodes result)
            (told_following old.now new.now (huge_at self.old.runs)) }
        ensures keeps { Keeps (places_of self.old) (places_of self.new) }
        ensures from { (node : ℕ) → node < 256 → slice_index result.from node
            ≡ leave_from old.now new.now (huge_at self.old.runs) node }
    {
        let counts = counts_of(&self.map, 0, MOST_PAGES);
        let told = all_departures(&counts.on, old, new);
        self.pools.keep();
        leave(&mut self.pools, &told.to, &counts.on, old);
        self.pools.keep();
        send(&mut self.map, &told.to);
        told
    }

    /// Moves a page to a node, as move_pages(2) does, and tells what moved. A page that lies
    /// there or nowhere stays.
    ///
    /// # Errors
    /// Nothing has changed: `TooManyRuns`, `NoMemory`, as [`PlacedRefusal`] says.
    pub fn move_page(&mut self, page: u64, node: u8) -> Result<Moved, PlacedRefusal>
        ensures pages { OnOk result
            (places_of self.new ≡ moved_to (huge_at self.old.runs page) page node
            (places_of self.old)) }
        ensures told { IfOk result (λ told. HasTold (HugeLast.Nodes told)
            (told_moving (huge_at self.old.runs page) node)) }
        ensures err { IfErr result
            (IsLackFor (with_span page 1 (Some (On node)) (huge_at self.old.runs))) }
        ensures other { OnErr result (node_of (huge_at self.old.runs page) ≢ Some node) }
        ensures unchanged { OnErr result (self.new ≡ self.old) }
        ensures keeps { Keeps (places_of self.old) (places_of self.new) }
    {
        let Some(from) = self.node_at(page) else {
            return Ok(still());
        };
        if let Err(why) = self.pass(page, from, node) {
            return Err(why);
        }
        Ok(one_moved(from, node))
    }

    /// The node that a page lies on, if it lies on one.
    pub(crate) fn node_at(&self, page: u64) -> Option<u8>
        ensures { result ≡ node_of (huge_at self.now.runs page) }
    {
        match self.at(page) {
            Some(spot) => spot.node(),
            None => None,
        }
    }

    /// A page that lies on a node goes to another.
    pub(crate) fn pass(&mut self, page: u64, from: u8, node: u8) -> Result<(), PlacedRefusal>
        requires { huge_at self.old.runs page ≡ Some (On from) }
        ensures pages { OnOk result
            (places_of self.new ≡ passing page from node (places_of self.old)) }
        ensures err { IfErr result
            (IsLackFor (with_span page 1 (Some (On node)) (huge_at self.old.runs))) }
        ensures other { OnErr result (from ≢ node) }
        ensures unchanged { OnErr result (self.new ≡ self.old) }
        ensures keeps { Keeps (places_of self.old) (places_of self.new) }
    {
        if from == node {
            return Ok(());
        }
        if let Err(why) = put(&mut self.map, page, node) {
            return Err(why);
        }
        self.pools.keep();
        self.pools.move_page(from, node);
        self.pools.keep();
        Ok(())
    }
}
