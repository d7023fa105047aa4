//! Iteration over the members of a set.
ghost use Rattle.std.specs.Prelude.{◌≡◌, ℕ};
ghost use Rattle.numa_mask.specs.NodeSet.{members};
ghost use Rattle.std.specs.Iterator.{YieldsFirst, item_count};

use crate::mask::NodeMask;
use crate::node::NodeId;
use std::marker::Model;

/// An iterator over the members of a set, in ascending order.
#[derive(Drop)]
pub struct Nodes {
    rest: NodeMask,
}

impl Model for Nodes {
    ghost Value = { ℕ };

    ghost view = { λ a. a.rest };
}

impl Nodes {
    /// All members of a set.
    pub(crate) fn of(rest: NodeMask) -> Nodes
        ensures { result ≡ rest }
    {
        Nodes { rest }
    }
}

impl Iterator for Nodes {
    type Item = NodeId;

    ghost next_gives = { YieldsFirst members };

    ghost remaining = { item_count members };

    fn next(&mut self) -> Option<NodeId> {
        let node = self.rest.first()?;
        self.rest.remove(node);
        Some(node)
    }
}
