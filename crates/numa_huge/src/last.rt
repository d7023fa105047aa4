//! What the last move did to pages of 2 MiB.
ghost use Rattle.std.specs.Prelude.{◌≡◌, ◌+◌, ◌<◌, ◌^◌, ℕ, IfOk, OnOk, if◌then◌else◌, length};
ghost use Rattle.std.specs.Prelude.{slice_index};
ghost use Rattle.numa_huge.specs.Moves.{HugeTold, stayed, with_left, with_moved};
ghost use Rattle.numa_huge.specs.Tallies.{HasTold, flow_by_nodes, flow_in, flow_of, is_flow};
ghost use Rattle.numa_huge.specs.Tallies.{left_of, moved_of};

use numa_machine::NoMemory;
use numa_placed::Moved;
use std::alloc::Global;

/// A page that went from a node to another.
#[derive(Clone, Copy, Drop)]
pub struct HugeMove {
    pub from: u8,
    pub to: u8,
}

/// What a policy did that pages went to: each page that moved, and how many had to and stayed.
#[derive(Drop)]
pub struct Flows {
    pub(crate) moves: Vec<HugeMove>,
    pub left: u64,
}

/// The last move: of pages that go by their node, or each by its own policy.
#[derive(Drop)]
pub enum HugeLast {
    Nodes(Moved),
    Pages(Flows),
}

/// No page moved.
pub(crate) fn still() -> Moved
    ensures { HasTold (HugeLast.Nodes result) stayed }
{
    Moved {
        moved: 0,
        left: 0,
        from: [0; 256],
        to: [0; 256],
    }
}

/// A page went from a node to another, if it is another.
pub(crate) fn one_moved(from: u8, to: u8) -> Moved
    ensures { HasTold (HugeLast.Nodes result) (with_moved from to stayed) }
{
    let mut told = still();
    if from == to {
        return told;
    }
    told.moved = 1;
    told.from[from as usize] = 1;
    told.to[from as usize] = to;
    told
}

impl Flows {
    /// Nothing moved yet.
    pub(crate) fn new(alloc: Global) -> Flows
        ensures told { HasTold (HugeLast.Pages result) stayed }
        ensures left { result.left ≡ 0 }
    {
        Flows {
            moves: Vec::new(alloc),
            left: 0,
        }
    }

    /// A copy.
    ///
    /// # Errors
    /// `NoMemory`: there is no memory for it.
    pub(crate) fn copy(&self, alloc: Global) -> Result<Flows, NoMemory>
        ensures { (told : HugeTold) → HasTold (HugeLast.Pages self.now) told
            → IfOk result (λ copy. HasTold (HugeLast.Pages copy) told) }
    {
        let Ok(moves) = Vec::from_slice(alloc, &self.moves) else {
            return Err(NoMemory);
        };
        Ok(Flows {
            moves,
            left: self.left,
        })
    }

    /// How many pages moved.
    pub fn moved(&self) -> u64
        ensures { result ≡ length self.now.moves.items }
    {
        self.moves.len() as u64
    }

    /// One more page stayed.
    pub(crate) fn stay(&mut self)
        requires { self.old.left < 2 ^ 63 }
        ensures told { (told : HugeTold) → HasTold (HugeLast.Pages self.old) told
            → HasTold (HugeLast.Pages self.new) (with_left told) }
        ensures left { self.new.left ≡ self.old.left + 1 }
    {
        self.left += 1;
    }

    /// One more page went from a node to another, if it is another.
    ///
    /// # Errors
    /// `NoMemory`: there is no memory to tell it; then nothing has changed.
    pub(crate) fn pass(&mut self, from: u8, to: u8) -> Result<(), NoMemory>
        ensures told { (told : HugeTold) → HasTold (HugeLast.Pages self.old) told
            → OnOk result (HasTold (HugeLast.Pages self.new) (with_moved from to told)) }
        ensures left { self.new.left ≡ self.old.left }
    {
        if from == to {
            return Ok(());
        }
        match self.moves.push(HugeMove { from, to }) {
            Ok(()) => Ok(()),
            Err(_) => Err(NoMemory),
        }
    }
}

/// How many pages went from a node to each, if those of each node went to one.
fn flow_by_nodes(told: &Moved, from: u8) -> [u64; 256]
    ensures { (to : ℕ) → to < 256 → slice_index result to ≡ flow_by_nodes told.now from to }
{
    let mut flow = [0; 256];
    let target = told.to[from as usize];
    flow[target as usize] = told.from[from as usize];
    flow
}

/// Adds a page that went, if it went from a node.
fn add_move(flow: &mut [u64; 256], gone: &HugeMove, from: u8)
    requires { (to : ℕ) → to < 256 → slice_index flow.old to + 1 < 2 ^ 64 }
    ensures { (to : ℕ) → to < 256 → slice_index flow.new to
        ≡ slice_index flow.old to + (if is_flow from to gone.now then 1 else 0) }
{
    if gone.from == from {
        flow[gone.to as usize] += 1;
    }
}

/// How many pages went from a node to each, by each page that moved.
fn flow_in(moves: &[HugeMove], from: u8) -> [u64; 256]
    ensures { (to : ℕ) → to < 256 → slice_index result to ≡ flow_in moves.now from to }
{
    let mut flow = [0; 256];
    for gone in moves {
        add_move(&mut flow, gone, from);
    }
    flow
}

impl HugeLast {
    /// A copy. Later changes of one of the two don't affect the other.
    ///
    /// # Errors
    /// `NoMemory`: there is no memory for it.
    pub fn copy(&self, alloc: Global) -> Result<HugeLast, NoMemory>
        ensures { (told : HugeTold) → HasTold self.now told
            → IfOk result (λ copy. HasTold copy told) }
    {
        match self {
            HugeLast::Nodes(told) => Ok(HugeLast::Nodes(*told)),
            HugeLast::Pages(flows) => match flows.copy(alloc) {
                Ok(copy) => Ok(HugeLast::Pages(copy)),
                Err(lack) => Err(lack),
            },
        }
    }

    /// How many pages moved.
    pub fn moved(&self) -> u64
        ensures { result ≡ moved_of self.now }
    {
        match self {
            HugeLast::Nodes(told) => told.moved,
            HugeLast::Pages(flows) => flows.moved(),
        }
    }

    /// How many pages had a node to go to, and stayed.
    pub fn left(&self) -> u64
        ensures { result ≡ left_of self.now }
    {
        match self {
            HugeLast::Nodes(told) => told.left,
            HugeLast::Pages(flows) => flows.left,
        }
    }

    /// How many pages went from a node to each.
    pub fn flow_from(&self, from: u8) -> [u64; 256]
        ensures { (to : ℕ) → to < 256 → slice_index result to ≡ flow_of self.now from to }
    {
        match self {
            HugeLast::Nodes(told) => flow_by_nodes(told, from),
            HugeLast::Pages(flows) => flow_in(&flows.moves, from),
        }
    }
}
