//! Sets of nodes.
ghost use Rattle.std.specs.Prelude.{◌≡◌};
ghost use Rattle.numa_mask.specs.NodeSet.{set_of};

use numa_mask::{NodeId, NodeMask};

/// The set of these nodes.
pub fn set_of(nodes: &[u8]) -> NodeMask
    ensures { result ≡ set_of nodes.now }
{
    let mut set = NodeMask::empty();
    for number in nodes {
        let Some(node) = NodeId::new(*number) else {
            unreachable!();
        };
        set.insert(node);
    }
    set
}

/// The set of the nodes below this number, of 256 at most.
pub fn first_nodes(count: u32) -> NodeMask {
    let mut set = NodeMask::empty();
    for number in 0..=255u8 {
        if u32::from(number) < count
            && let Some(node) = NodeId::new(number)
        {
            set.insert(node);
        }
    }
    set
}
