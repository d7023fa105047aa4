//! The frames of a machine, or the room on its nodes, and the pages that lie there.
ghost use Rattle.std.specs.Prelude.{◌≡◌, ◌<◌, ℕ, IfOk, OnOk, OnErr, None, Some, [], slice_index};
ghost use Rattle.std.specs.Prelude.{slice_set};
ghost use Rattle.numa_machine.specs.Machine.{frames_of};
ghost use Rattle.numa_traces.specs.Placing.{first_free, less_one, node_of, frames_with_page};
ghost use Rattle.numa_traces.specs.Resting.{laid_by};

use numa_machine::Machine;
use std::alloc::{AllocError, Global};
use std::collections::BTreeMap;
use std::collections::btree_map::Iter;
use std::marker::Model;
use std::mem;

/// The number of frames that each node has left, or of pages for which it has room, and the node of
/// each placed page. A node with room for 2^64 - 1 never fills.
#[derive(Drop)]
pub struct Memory {
    free: Vec<u64>,
    nodes: BTreeMap<u64, u8>,
}

impl Model for Memory {
    ghost use Rattle.numa_traces.specs.Placing.{Frames};

    ghost Value = { Frames };

    ghost view = { λ a. record { pages = a.nodes.entries; free = a.free.items } };
}

/// The number of frames of each node of a machine.
///
/// # Errors
/// `AllocError`: out of memory.
pub fn all_frames(alloc: Global, machine: &Machine) -> Result<Vec<u64>, AllocError>
    ensures { IfOk result (λ frames. (node : ℕ) → node < machine.now.nodes
        → slice_index frames.items node ≡ frames_of machine.now node) }
{
    let mut frames = Vec::new(alloc);
    for node in 0..machine.nodes() {
        if let Err(_) = frames.push(u64::from(machine.frames(node))) {
            return Err(AllocError);
        }
    }
    Ok(frames)
}

/// What is left of a node's room once a page took one.
fn less_one(room: u64) -> u64
    requires { 0 < room }
    ensures { result ≡ less_one room }
{
    if room == u64::MAX {
        return room;
    }
    room - 1
}

/// A page takes room of a node.
fn take_room(free: &mut Vec<u64>, node: u8)
    requires { 0 < slice_index free.old.items node }
    ensures { free.new.items
        ≡ slice_set free.old.items node (less_one (slice_index free.old.items node)) }
{
    let place = usize::from(node);
    free[place] = less_one(free[place]);
}

impl Memory {
    /// The memory of a machine, with no page placed.
    ///
    /// # Errors
    /// `AllocError`: out of memory.
    pub fn new(alloc: Global, machine: &Machine) -> Result<Memory, AllocError>
        ensures pages { IfOk result (λ memory. memory.pages ≡ []) }
        ensures free { IfOk result (λ memory. (node : ℕ) → node < machine.now.nodes
            → slice_index memory.free node ≡ frames_of machine.now node) }
    {
        let free = all_frames(alloc, machine)?;
        Ok(Memory {
            free,
            nodes: BTreeMap::new(alloc),
        })
    }

    /// Memory whose nodes have so much room, with no page placed. It doesn't allocate.
    pub(crate) fn with_room(alloc: Global, room: Vec<u64>) -> Memory
        ensures { result ≡ record { pages = []; free = room.items } }
    {
        Memory {
            free: room,
            nodes: BTreeMap::new(alloc),
        }
    }

    /// The memory of a process that has no frames of its own, with no page placed. It doesn't
    /// allocate.
    pub(crate) fn shared(alloc: Global) -> Memory
        ensures { result ≡ record { pages = []; free = [] } }
    {
        Memory::with_room(alloc, Vec::new(alloc))
    }

    /// Exchanges the numbers of frames left for others.
    pub(crate) fn exchange(&mut self, free: &mut Vec<u64>)
        ensures own { self.new ≡ record { pages = self.old.pages; free = free.old.items } }
        ensures given { free.new.items ≡ self.old.free }
    {
        mem::swap(&mut self.free, free);
    }

    /// The node of a page, if it is placed.
    pub fn node_of(&self, page: u64) -> Option<u8>
        ensures { result ≡ node_of self.now.pages page }
    {
        self.nodes.get(&page).copied()
    }

    /// The placed pages in ascending order, each with its node.
    pub fn pages(&self) -> Iter<'_, u64, u8>
        ensures { result ≡ self.now.pages }
    {
        self.nodes.iter()
    }

    /// The number of frames that a node has left.
    fn frames_left(&self, node: u8) -> u64
        ensures { result ≡ slice_index self.now.free node }
    {
        self.free.get(usize::from(node)).copied().unwrap_or(0)
    }

    /// The first node of a list that has a frame left.
    fn first_free(&self, nodes: &[u8]) -> Option<u8>
        ensures { result ≡ first_free self.now.free nodes.now }
    {
        for node in nodes {
            if self.frames_left(*node) > 0 {
                return Some(*node);
            }
        }
        None
    }

    /// Places a page that isn't placed yet on the first node of its list that has a frame left, and
    /// returns the node. `None` if no node has one; then nothing has changed.
    ///
    /// # Errors
    /// `AllocError`: out of memory. Then nothing has changed.
    pub fn place(&mut self, page: u64, nodes: &[u8]) -> Result<Option<u8>, AllocError>
        requires { node_of self.old.pages page ≡ None }
        ensures node { IfOk result (λ node. node ≡ first_free self.old.free nodes.now) }
        ensures lies { IfOk result (λ node. node_of self.new.pages page ≡ node) }
        ensures placed { OnOk result (self.new ≡ frames_with_page self.old page nodes.now) }
        ensures unchanged { OnErr result (self.new ≡ self.old) }
    {
        let Some(node) = self.first_free(nodes) else {
            return Ok(None);
        };
        if let Err(_) = self.nodes.insert(page, node) {
            return Err(AllocError);
        }
        take_room(&mut self.free, node);
        Ok(Some(node))
    }

    /// A page lies on a node and takes nothing of its room, unless it is placed.
    ///
    /// # Errors
    /// `AllocError`: out of memory. Then nothing has changed.
    pub(crate) fn lay(&mut self, page: u64, node: u8) -> Result<(), AllocError>
        ensures laid { OnOk result
            (self.new ≡ laid_by (node_of self.old.pages page) self.old page (Some node)) }
        ensures unchanged { OnErr result (self.new ≡ self.old) }
    {
        if let Some(_) = self.node_of(page) {
            return Ok(());
        }
        match self.nodes.insert(page, node) {
            Ok(_) => Ok(()),
            Err(_) => Err(AllocError),
        }
    }
}
