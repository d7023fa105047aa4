//! What becomes of pages, in sums: of each span, of a process, of all processes.
ghost use Rattle.std.specs.Prelude.{◌≡◌, ◌≢◌, ◌*◌, ◌+◌, ◌<◌, ◌==◌, ℕ, IfOk, if◌then◌else◌};
ghost use Rattle.std.specs.Prelude.{length, set, slice_index};
ghost use Rattle.numa_host_pages.specs.Summed.{both_pages};
ghost use Rattle.numa_moves.specs.Sums.{AddsMove, AddsNodes, AddsSum, HasNone, HasNoneAt};
ghost use Rattle.numa_moves.specs.Sums.{IsNone, IsWhole, MergesAt, StaysAt, added_at, between_in};
ghost use Rattle.numa_moves.specs.Sums.{flow_of, idle_of, lacking_of};

use crate::moving::ShareMove;
use std::alloc::{AllocError, Global};

/// The entries of a table of pages from each node to each.
const ENTRIES: usize = 65_536;

/// What becomes of pages of a process, by the nodes that they lie on.
#[derive(Clone, Copy)]
pub(crate) struct MoveSum {
    /// The number of pages.
    pub(crate) placed: u64,
    /// The number of them that go to another node.
    pub(crate) moved: u64,
    /// By node, the number that go from it to another.
    pub(crate) gone: [u64; 256],
    /// By node, the node to which its pages go.
    pub(crate) to: [u8; 256],
    /// By node, the number that need not go.
    pub(crate) stays: [u64; 256],
    /// By node, the number that find no room where they are to go.
    pub(crate) lacking: [u64; 256],
}

/// Adds pages to those of a node.
pub(crate) fn add(counts: &mut [u64; 256], node: u8, pages: u64)
    ensures { (other : ℕ) → other < 256 → slice_index counts.new other
        ≡ added_at node pages (slice_index counts.old) other }
{
    let place = node as usize;
    let sum = counts[place].saturating_add(pages);
    counts[place] = sum;
}

/// Takes the pages of a node out.
fn clear_node(counts: &mut [u64; 256], node: u8)
    ensures { (other : ℕ) → other < 256 → slice_index counts.new other
        ≡ (if node == other then 0 else slice_index counts.old other) }
{
    counts[node as usize] = 0;
}

/// The pages of a share that need not go, and those that find no room.
fn stayed_of(moved: &ShareMove) -> (u64, u64)
    ensures { (result.0 ≡ idle_of moved.now) × (result.1 ≡ lacking_of moved.now) }
{
    let stayed = moved.share.there.saturating_sub(moved.moved);
    if moved.to == moved.share.node {
        return (stayed, 0);
    }
    (0, stayed)
}

impl MoveSum {
    /// No pages.
    pub(crate) fn new() -> MoveSum
        ensures none { HasNone 256 result }
        ensures to { (node : ℕ) → node < 256 → slice_index result.to node ≡ 0 }
    {
        MoveSum {
            placed: 0,
            moved: 0,
            gone: [0; 256],
            to: [0; 256],
            stays: [0; 256],
            lacking: [0; 256],
        }
    }

    /// Takes the pages of a node out, but not of the sums of all nodes.
    fn clear_at(&mut self, node: u8)
        ensures none { HasNoneAt node self.new }
        ensures apart { (other : ℕ) → other ≢ node → other < 256
            → StaysAt self.old other self.new }
        ensures sums { (self.new.placed ≡ self.old.placed) × (self.new.moved ≡ self.old.moved) }
    {
        clear_node(&mut self.gone, node);
        clear_node(&mut self.stays, node);
        clear_node(&mut self.lacking, node);
    }

    /// Takes all pages out; the machine has so many nodes.
    pub(crate) fn clear(&mut self, nodes: u32)
        ensures { HasNone nodes self.new }
    {
        self.placed = 0;
        self.moved = 0;
        for node in 0..nodes.min(256) {
            self.clear_at(node as u8);
        }
    }

    /// The number of a node's pages that stay on it: as they need not go, or find no room.
    pub(crate) fn stayed(&self, node: u8) -> u64
        ensures { result ≡ both_pages (slice_index self.now.stays node)
            (slice_index self.now.lacking node) }
    {
        let place = node as usize;
        self.stays[place].saturating_add(self.lacking[place])
    }

    /// The number of pages that lie on a node before, and on another, or the same, after.
    pub(crate) fn between(&self, from: u8, to: u8) -> u64
        ensures { result ≡ between_in self.now from to }
    {
        if from == to {
            return self.stayed(from);
        }
        if self.to[from as usize] == to {
            self.gone[from as usize]
        } else {
            0
        }
    }

    /// The node to which pages of a node go once those of another sum are added.
    fn target(&self, other: &MoveSum, node: u8) -> u8
        ensures { result ≡ (if slice_index other.now.gone node == 0
            then slice_index self.now.to node else slice_index other.now.to node) }
    {
        let place = node as usize;
        if other.gone[place] == 0 {
            return self.to[place];
        }
        other.to[place]
    }

    /// Adds a node's pages of another sum.
    fn add_node(&mut self, other: &MoveSum, node: u8)
        ensures merged { MergesAt self.old other.now node self.new }
        ensures apart { (another : ℕ) → another ≢ node → another < 256
            → StaysAt self.old another self.new }
        ensures sums { (self.new.placed ≡ self.old.placed) × (self.new.moved ≡ self.old.moved) }
    {
        let place = node as usize;
        self.to[place] = self.target(other, node);
        add(&mut self.gone, node, other.gone[place]);
        add(&mut self.stays, node, other.stays[place]);
        add(&mut self.lacking, node, other.lacking[place]);
    }

    /// Adds the pages of another sum of the same process, on a machine with so many nodes.
    pub(crate) fn merge(&mut self, other: &MoveSum, nodes: u32)
        ensures { AddsNodes self.old other.now nodes self.new }
    {
        self.placed = self.placed.saturating_add(other.placed);
        self.moved = self.moved.saturating_add(other.moved);
        for node in 0..nodes.min(256) {
            self.add_node(other, node as u8);
        }
    }

    /// Adds a share.
    pub(crate) fn add(&mut self, moved: &ShareMove)
        ensures { AddsMove self.old moved.now self.new }
    {
        let node = moved.share.node;
        let (idle, lacking) = stayed_of(moved);
        self.placed = self.placed.saturating_add(moved.share.there);
        self.moved = self.moved.saturating_add(moved.moved);
        self.to[node as usize] = moved.to;
        add(&mut self.gone, node, moved.moved);
        add(&mut self.stays, node, idle);
        add(&mut self.lacking, node, lacking);
    }
}

/// The pages of several processes.
#[derive(Drop)]
pub(crate) struct AllMoves {
    pub(crate) placed: u64,
    pub(crate) moved: u64,
    // The pages from each node to each.
    table: Vec<u64>,
    pub(crate) stays: [u64; 256],
    pub(crate) lacking: [u64; 256],
}

/// A table of so many entries, without pages.
fn empty_table(alloc: Global, entries: usize) -> Result<Vec<u64>, AllocError>
    ensures { IfOk result (λ table. (length table.items ≡ entries)
        × ((place : ℕ) → place < entries → slice_index table.items place ≡ 0)) }
{
    let mut table = Vec::new(alloc);
    table.resize(entries, 0)?;
    Ok(table)
}

/// Adds pages to an entry of a table.
fn add_entry(table: &mut Vec<u64>, place: usize, pages: u64)
    requires inside { place < length table.old.items }
    ensures { table.new.items ≡ set table.old.items place
        (both_pages (slice_index table.old.items place) pages) }
{
    let sum = table[place].saturating_add(pages);
    table[place] = sum;
}

impl AllMoves {
    /// No pages.
    ///
    /// # Errors
    /// `AllocError`: out of memory.
    pub(crate) fn new(alloc: Global) -> Result<AllMoves, AllocError>
        ensures { IfOk result IsNone }
    {
        let table = empty_table(alloc, ENTRIES)?;
        Ok(AllMoves {
            placed: 0,
            moved: 0,
            table,
            stays: [0; 256],
            lacking: [0; 256],
        })
    }

    /// The pages that go from a node to another.
    pub(crate) fn between(&self, from: u32, to: u32) -> u64
        ensures { from < 256 → to < 256 → result ≡ flow_of self.now from to }
    {
        let place = from as usize * 256 + to as usize;
        self.table.get(place).copied().unwrap_or(0)
    }

    /// Adds pages that go from a node to another.
    fn add_between(&mut self, from: u8, to: u8, pages: u64)
        requires whole { IsWhole self.old }
        ensures whole { IsWhole self.new }
        ensures flows { (node other : ℕ) → node < 256 → other < 256 → flow_of self.new node other
            ≡ (if from == node then added_at to pages (flow_of self.old node) other
            else flow_of self.old node other) }
        ensures others { (self.new.stays ≡ self.old.stays) × (self.new.lacking ≡ self.old.lacking)
            × (self.new.placed ≡ self.old.placed) × (self.new.moved ≡ self.old.moved) }
    {
        add_entry(&mut self.table, from as usize * 256 + to as usize, pages);
    }

    /// Adds the pages of a process.
    pub(crate) fn add(&mut self, sum: &MoveSum)
        requires whole { IsWhole self.old }
        ensures { AddsSum self.old sum.now self.new }
    {
        self.placed = self.placed.saturating_add(sum.placed);
        self.moved = self.moved.saturating_add(sum.moved);
        for place in 0..256usize {
            self.add_between(place as u8, sum.to[place], sum.gone[place]);
            add(&mut self.stays, place as u8, sum.stays[place]);
            add(&mut self.lacking, place as u8, sum.lacking[place]);
        }
    }
}
