//! Numbering the frames of all nodes: the place of each frame among all, node by node.
ghost use Rattle.std.specs.Prelude.{◌≡◌, ℕ, ◌+◌, ◌<◌, ◌≤◌, true, false, None, IfOk, IfSome, length};
ghost use Rattle.std.specs.Prelude.{slice_index};
ghost use Rattle.numa_core.specs.Standing.{frames_before, place_in};

use numa_machine::Machine;
use std::alloc::{AllocError, Global};
use std::marker::Model;

/// The number of frames of each node, and of all nodes below it, so that a place is found directly.
#[derive(Drop)]
pub(crate) struct Places {
    frames: Vec<u32>,
    before: Vec<u32>,
    total: u32,
}

impl Model for Places {
    ghost use Rattle.std.specs.Prelude.{ℕ, List};
    ghost use Rattle.numa_core.specs.Places.{IsTable};

    ghost Value = { List ℕ };

    ghost view = { λ a. a.frames.items };

    ghost invariant = { λ a. IsTable a.frames.items a.before.items a.total };
}

impl Places {
    /// The places of a machine's frames.
    pub(crate) fn new(alloc: Global, machine: &Machine) -> Result<Places, AllocError>
        ensures { IfOk result (λ places. places ≡ machine.now.frames) }
    {
        let nodes = machine.nodes();
        let mut frames = Vec::new(alloc);
        let mut before = Vec::new(alloc);
        let mut total = 0u32;
        for node in 0..nodes {
            let count = machine.frames(node);
            frames.push(count)?;
            before.push(total)?;
            total += count;
        }
        Ok(Places {
            frames,
            before,
            total,
        })
    }

    /// The number of nodes.
    pub(crate) fn nodes(&self) -> usize
        ensures { result ≡ length self.now }
    {
        self.frames.len()
    }

    /// The number of frames.
    pub(crate) fn total(&self) -> u32
        ensures total { result ≡ frames_before self.now (length self.now) }
        ensures at_most { result ≤ 1048576 }
    {
        self.total
    }

    /// The number of frames of a node: 0 past the last node.
    pub(crate) fn frames(&self, node: u8) -> u32
        ensures frames { result ≡ slice_index self.now node }
        ensures at_most { result ≤ 4096 }
    {
        self.frames.get(node as usize).copied().unwrap_or(0)
    }

    /// The place of a node's first frame.
    pub(crate) fn first(&self, node: u8) -> u32
        requires { node < length self.now }
        ensures first { result ≡ frames_before self.now node }
        ensures within { result + slice_index self.now node
            ≤ frames_before self.now (length self.now) }
        ensures at_most { result ≤ 1048576 }
    {
        self.before[node as usize]
    }

    /// The lowest frame number of a node, from `from` on, whose place passes the test.
    pub(crate) fn lowest<F: Fn(u32) -> bool>(&self, node: u8, from: u32, test: F) -> Option<u32>
        requires { (place : ℕ) → place < frames_before self.now (length self.now)
            → F.pre test place }
        ensures found { IfSome result (λ number. (from ≤ number)
            × (number < slice_index self.now node)
            × F.post test (frames_before self.now node + number) true) }
        ensures small { IfSome result (λ number. number < 4096) }
        ensures below { IfSome result (λ number. (k : ℕ) → from ≤ k → k < number
            → F.post test (frames_before self.now node + k) false) }
        ensures none { result ≡ None → (k : ℕ) → from ≤ k → k < slice_index self.now node
            → F.post test (frames_before self.now node + k) false }
    {
        let frames = self.frames(node);
        if from >= frames {
            return None;
        }
        let first = self.first(node);
        for number in from..frames {
            if test(first + number) {
                return Some(number);
            }
        }
        None
    }

    /// The place of a frame, if the node has it.
    pub(crate) fn place(&self, node: u8, number: u16) -> Option<u32>
        ensures place { result ≡ place_in self.now node number }
        ensures within { IfSome result (λ place. place < frames_before self.now (length self.now)) }
    {
        if number as u32 >= self.frames(node) {
            return None;
        }
        Some(self.first(node) + number as u32)
    }
}
