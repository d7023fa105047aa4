//! The nodes to which pages go.
ghost use Rattle.std.specs.Prelude.{◌≡◌, ◌<◌, ℕ};
ghost use Rattle.numa_mask.specs.NodeSet.{node_after};
ghost use Rattle.numa_placed.specs.Moves.{moved_node, moved_spot, AreTargets};
ghost use Rattle.numa_placed.specs.declared.spot.Spot.TheVariants.{Stated};

use crate::spot::Spot;
use numa_mask::{NodeId, NodeMask};

/// The node to which the pages of a node go when they leave one set of nodes for another, as Linux
/// moves them when the nodes of a control group change from `old` to `new`, or by migrate_pages(2):
/// the node itself, if the two sets don't have as many nodes and the new one has it; else the node
/// of the new set whose ordinal is that of the node in the old set, modulo the new weight. A node
/// outside the old set keeps its pages, and so does each if the new set is empty.
pub fn moved_node(old: &NodeMask, new: &NodeMask, node: u8) -> u8
    ensures { result ≡ moved_node old.now new.now node }
{
    if old.weight() != new.weight() && new.has(node) {
        return node;
    }
    remapped_node(old, new, node)
}

/// The node to which the kernel's bitmap_remap takes a node.
fn remapped_node(old: &NodeMask, new: &NodeMask, node: u8) -> u8
    ensures { result ≡ node_after old.now new.now node }
{
    let Some(number) = NodeId::new(node) else {
        unreachable!()
    };
    let Some(place) = old.ordinal(number) else {
        return node;
    };
    if new.is_empty() {
        return node;
    }
    let Some(target) = new.nth(place % new.weight()) else {
        unreachable!()
    };
    target.number()
}

/// Each node itself.
fn own() -> [u8; 256]
    ensures { AreTargets result (λ node. node) }
{
    let mut nodes = [0; 256];
    for node in 0..256usize {
        nodes[node] = node as u8;
    }
    nodes
}

/// The node to which the pages of each node go: of a node outside the old set the node itself.
pub(crate) fn targets(old: &NodeMask, new: &NodeMask) -> [u8; 256]
    ensures { AreTargets result (moved_node old.now new.now) }
{
    let mut targets = own();
    for node in old.iter() {
        let number = node.number();
        targets[number as usize] = moved_node(old, new, number);
    }
    targets
}

/// A page once the pages of each node went to its target.
pub(crate) fn gone(spot: Spot, targets: &[u8; 256]) -> Spot
    ensures moved { (go : ℕ → ℕ) → AreTargets targets.now go → result ≡ moved_spot go spot }
    ensures node { (node : ℕ) → spot ≡ Stated node → node < 256 }
{
    match spot {
        Spot::Nowhere => Spot::Nowhere,
        Spot::Stated(node) => Spot::Stated(targets[node as usize]),
    }
}
