//! A machine: its nodes, those with memory, the distances between them and their frames.
ghost use Rattle.std.specs.Prelude.{◌≡◌, ◌≢◌, ◌<◌, ◌≤◌, ℕ, All, IfErr, IfOk};
ghost use Rattle.std.specs.Prelude.{MatchOption, None, false, length};
ghost use Rattle.numa_mask.specs.NodeSet.{has, members};
ghost use Rattle.numa_machine.specs.Machine.{distance, frames_of, IsDistanceOrder};
ghost use Rattle.numa_machine.specs.Machine.{fallback_order, IsFallbackOrder, all_orders};
ghost use Rattle.numa_machine.specs.Faults.{machine_fault, hardware_fault, fallback_fault};

use crate::description::{fault_of, fault_of_fallback};
use crate::distance_orders::distance_orders;
use crate::fallback::Fallback;
use crate::fault::MachineFault;
use crate::kernel_orders::kernel_orders;
use crate::no_memory::NoMemory;
use crate::orders::entry;
use crate::rules::Rules;
use numa_mask::NodeMask;
use std::alloc::{AllocError, Global};
use std::marker::Model;

/// A machine of 1 to 256 nodes, some of which have memory. The distances between nodes are those of
/// ACPI's System Locality Information Table, which `numactl --hardware` prints: 10 from a node to
/// itself and more to another, and not always the same both ways. 255 is a distance like any other.
#[derive(Debug, Drop)]
pub struct Machine {
    nodes: u32,
    memory: NodeMask,
    distances: Vec<u8>,
    frames: Vec<u32>,
    /// The orders of nodes 0, 1, .., concatenated; each has every node with memory.
    orders: Vec<u8>,
    rules: Rules,
    fallback: Fallback,
}

impl Model for Machine {
    ghost use Rattle.numa_machine.specs.Machine.{Hardware, described};
    ghost use Rattle.numa_machine.specs.Sound.{IsSound};

    ghost Value = { Hardware };

    ghost view = { λ m.
        described m.nodes m.memory m.distances.items m.frames.items m.rules m.fallback };

    ghost invariant = { λ m.
        IsSound (described m.nodes m.memory m.distances.items m.frames.items m.rules m.fallback)
        m.orders.items };
}

impl Machine {
    /// A machine with `nodes` nodes. `memory` has the nodes with memory, `distances` the distance
    /// from each node to each, row by row, and `frames` each node's number of page frames of 4,096
    /// bytes. The machine follows the rules of the documents, and each node falls back to the
    /// nearest first.
    ///
    /// # Errors
    /// The first of these that applies: `NodeCount`, `NoMemoryNode`, `BadDistance`,
    /// `TooManyFrames`, as [`MachineFault`] says; `NoMemory`, there is no memory for the tables.
    ///
    /// # Examples
    /// Two nodes with memory, without frames, at distance 20:
    ///
    /// ```
    /// let both = read_list(b"0-1").ok()?;
    /// let machine = Machine::new(alloc, 2, both, &[10, 20, 20, 10], &[0, 0]).ok()?;
    /// ```
    pub fn new(
        alloc: Global,
        nodes: u32,
        memory: NodeMask,
        distances: &[u8],
        frames: &[u32],
    ) -> Result<Machine, MachineFault>
        ensures ok { IfOk result (λ machine.
            (machine_fault nodes memory distances.now frames.now ≡ None)
            × (machine ≡ record {
              nodes = nodes;
              memory = memory;
              distances = distances.now;
              frames = frames.now;
              rules = Rules.Document;
              fallback = Fallback.Nearest;
            })) }
        ensures err { IfErr result (λ fault.
            MatchOption (machine_fault nodes memory distances.now frames.now)
            (fault ≡ MachineFault.NoMemory) (λ first. fault ≡ first)) }
    {
        if let Some(fault) = fault_of(nodes, &memory, distances, frames) {
            return Err(fault);
        }
        let orders = distance_orders(alloc, nodes, &memory, distances)?;
        let distances = Vec::from_slice(alloc, distances)?;
        let frames = Vec::from_slice(alloc, frames)?;
        Ok(Machine {
            nodes,
            memory,
            distances,
            frames,
            orders,
            rules: Rules::Document,
            fallback: Fallback::Nearest,
        })
    }

    /// The machine with these rules instead of its own.
    pub fn with_rules(self, rules: Rules) -> Machine
        ensures { result ≡ record self { rules = rules } }
    {
        Machine {
            nodes: self.nodes,
            memory: self.memory,
            distances: self.distances,
            frames: self.frames,
            orders: self.orders,
            rules,
            fallback: self.fallback,
        }
    }

    /// The orders of nodes 0, 1, .., concatenated, where they fall back in this way.
    fn orders_by(&self, alloc: Global, fallback: &Fallback) -> Result<Vec<u8>, AllocError>
        ensures { IfOk result (λ orders. orders.items
            ≡ all_orders (record self.now { fallback = fallback.now })) }
    {
        let table = self.distances.as_slice();
        match fallback {
            Fallback::Nearest => distance_orders(alloc, self.nodes, &self.memory, table),
            Fallback::Kernel(cpus) => kernel_orders(alloc, self.nodes, &self.memory, table, cpus),
        }
    }

    /// The machine with these fallback orders instead of its own.
    ///
    /// # Errors
    /// `NodeCount`: the machine lacks a node that is listed as having CPUs; else `NoMemory`: there
    /// is no memory for the orders.
    pub fn with_fallback(self, alloc: Global, fallback: Fallback) -> Result<Machine, MachineFault>
        ensures ok { IfOk result (λ machine. (fallback_fault self.nodes fallback ≡ None)
            × (machine ≡ record self { fallback = fallback })) }
        ensures err { IfErr result (λ fault. MatchOption (fallback_fault self.nodes fallback)
            (fault ≡ MachineFault.NoMemory) (λ first. fault ≡ first)) }
    {
        if let Some(fault) = fault_of_fallback(self.nodes, &fallback) {
            return Err(fault);
        }
        let orders = self.orders_by(alloc, &fallback)?;
        Ok(Machine {
            nodes: self.nodes,
            memory: self.memory,
            distances: self.distances,
            frames: self.frames,
            orders,
            rules: self.rules,
            fallback,
        })
    }

    /// Returns a copy.
    ///
    /// # Errors
    /// `NoMemory`: there is no memory for the copy's distances, frames and orders.
    pub fn copy(&self, alloc: Global) -> Result<Machine, NoMemory>
        ensures { IfOk result (λ copy. copy ≡ self.now) }
    {
        let distances = Vec::from_slice(alloc, &self.distances)?;
        let frames = Vec::from_slice(alloc, &self.frames)?;
        let orders = Vec::from_slice(alloc, &self.orders)?;
        Ok(Machine {
            nodes: self.nodes,
            memory: self.memory,
            distances,
            frames,
            orders,
            rules: self.rules,
            fallback: self.fallback,
        })
    }

    /// Whose rules the machine follows: those of the documents, unless `with_rules` chose others.
    pub fn rules(&self) -> Rules
        ensures { result ≡ self.now.rules }
    {
        self.rules
    }

    /// Which fallback orders the machine uses: the nearest first, unless `with_fallback` chose
    /// others.
    pub fn fallback(&self) -> Fallback
        ensures fallback { result ≡ self.now.fallback }
        ensures no_fault { fallback_fault self.now.nodes result ≡ None }
    {
        self.fallback
    }

    /// The number of nodes, which are numbered from 0.
    pub fn nodes(&self) -> u32
        ensures nodes { result ≡ self.now.nodes }
        ensures at_least { 1 ≤ result }
        ensures at_most { result ≤ 256 }
        ensures no_fault { hardware_fault self.now ≡ None }
    {
        self.nodes
    }

    /// The nodes with memory.
    pub fn memory(&self) -> NodeMask
        ensures memory { result ≡ self.now.memory }
        ensures some { result ≢ 0 }
        ensures of_the_machine { All (λ node. node < self.now.nodes) (members result) }
    {
        self.memory
    }

    /// The distance from one node to another, as in the table: 10 for a node itself.
    pub fn distance(&self, from: u32, to: u32) -> u8
        requires from { from < self.now.nodes }
        requires to { to < self.now.nodes }
        ensures { result ≡ distance self.now from to }
    {
        entry(
            &self.distances,
            from as usize * self.nodes as usize + to as usize,
        )
    }

    /// The number of page frames of a node, of 4,096 bytes each: 0 for a node without memory, and
    /// past the last node.
    pub fn frames(&self, node: u32) -> u32
        ensures frames { result ≡ frames_of self.now node }
        ensures at_most { result ≤ 4096 }
        ensures without_memory { has self.now.memory node ≡ false → result ≡ 0 }
    {
        self.frames.get(node as usize).copied().unwrap_or(0)
    }

    /// All nodes with memory in the order in which an allocation on a node falls back to them: the
    /// nearest first, equally distant ones by their number, or as a kernel orders them
    /// (`with_fallback`). "NUMA Memory Policy" says that the kernel searches other nodes in order
    /// of increasing distance.
    pub fn order(&self, node: u32) -> &[u8]
        requires { node < self.now.nodes }
        ensures order { result.now ≡ fallback_order self.now node }
        ensures nearest { self.now.fallback ≡ Fallback.Nearest
            → IsDistanceOrder self.now node result.now }
        ensures cheapest_first { IsFallbackOrder self.now node result.now }
        ensures some { 0 < length result.now }
        ensures of_the_machine { All (λ near. near < self.now.nodes) result.now }
    {
        let width = self.memory.weight() as usize;
        let start = node as usize * width;
        &self.orders[start..start + width]
    }
}
