//! A set whose n-th member is found by one look-up.
ghost use Rattle.std.specs.Prelude.{◌≡◌, ◌≢◌, ◌==◌, ◌<◌, ℕ};
ghost use Rattle.numa_mask.specs.NodeSet.{weight_of, nth_member};

use crate::mask::NodeMask;
use crate::node::NodeId;
use arrayvec::ArrayVec;
use std::marker::Model;

/// A set with the numbers of its members in an ascending array, so that `nth` is a look-up.
/// Contracts see the set, as of a `NodeMask`.
#[derive(Drop)]
pub(crate) struct Ranked {
    nodes: ArrayVec<u8, 256>,
}

impl Model for Ranked {
    ghost use Rattle.std.specs.Prelude.{◌≡◌, ℕ};
    ghost use Rattle.numa_mask.specs.NodeSet.{members, set_of};

    ghost Value = { ℕ };

    ghost view = { λ a. set_of a.nodes.items };

    ghost invariant = { λ a. a.nodes.items ≡ members (set_of a.nodes.items) };
}

impl Ranked {
    /// The same set.
    pub(crate) fn of(set: &NodeMask) -> Ranked
        ensures { result ≡ set.now }
    {
        let mut nodes = ArrayVec::new();
        for node in set.iter() {
            nodes.push(node.number());
        }
        Ranked { nodes }
    }

    /// Whether there is no member.
    pub(crate) fn is_empty(&self) -> bool
        ensures { result ≡ (self.now == 0) }
    {
        self.nodes.is_empty()
    }

    /// The number of members.
    pub(crate) fn weight(&self) -> u32
        ensures weight { result ≡ weight_of self.now }
        ensures some { self.now ≢ 0 → 0 < result }
    {
        self.nodes.len() as u32
    }

    /// The member with k smaller members.
    pub(crate) fn nth(&self, k: u32) -> Option<NodeId>
        ensures { result ≡ nth_member self.now k }
    {
        match self.nodes.get(k as usize) {
            Some(number) => Some(NodeId::of(*number)),
            None => None,
        }
    }
}
