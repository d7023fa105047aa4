//! Choosing a node by its turn, and restricting an order to a set.
ghost use Rattle.std.specs.Prelude.{◌≡◌, ◌≢◌, ◌<◌, ◌≤◌, ◌+◌, ◌++◌, ◌&&◌, not, true, length, filter};
ghost use Rattle.std.specs.Prelude.{slice_index};
ghost use Rattle.numa_mask.specs.NodeSet.{has, members};
ghost use Rattle.numa_machine.specs.Weights.{interleave_node, total_weight, weight_at};
ghost use Rattle.numa_machine.specs.Weights.{weighted_node};
ghost use Rattle.numa_space.specs.Lists.{within};

use arrayvec::ArrayVec;
use numa_machine::Weights;
use numa_mask::NodeMask;

/// Appends the nodes of an order that are in a set.
pub(crate) fn push_within(list: &mut ArrayVec<u8, 256>, order: &[u8], set: &NodeMask)
    requires { length list.old.items + length (within set.now order.now) ≤ 256 }
    ensures { list.new.items ≡ list.old.items ++ within set.now order.now }
{
    for node in order {
        if set.has(*node) {
            list.push(*node);
        }
    }
}

/// Appends the nodes of an order that are allowed and not in a set.
pub(crate) fn push_others(
    list: &mut ArrayVec<u8, 256>,
    order: &[u8],
    allowed: &NodeMask,
    set: &NodeMask,
)
    requires { length list.old.items + length (filter
        (λ node. has allowed.now node && not (has set.now node)) order.now) ≤ 256 }
    ensures { list.new.items ≡ list.old.items ++ filter
        (λ node. has allowed.now node && not (has set.now node)) order.now }
{
    for node in order {
        if allowed.has(*node) && !set.has(*node) {
            list.push(*node);
        }
    }
}

/// The lowest node of a set.
pub(crate) fn first_node(set: &NodeMask) -> u8
    requires { set.now ≢ 0 }
    ensures node { result ≡ slice_index (members set.now) 0 }
    ensures member { has set.now result ≡ true }
{
    set.first().map_or(0, |node| node.number())
}

/// The node of a set that interleave chooses for a turn.
pub(crate) fn interleave_node(set: &NodeMask, turn: u64) -> u8
    requires { set.now ≢ 0 }
    ensures node { result ≡ interleave_node set.now turn }
    ensures member { has set.now result ≡ true }
{
    let place = turn % u64::from(set.weight());
    let Some(node) = set.nth(place as u32) else {
        return 0;
    };
    node.number()
}

/// The total weight of the nodes of a set.
fn total_weight(weights: &Weights, set: &NodeMask) -> u64
    requires { set.now ≢ 0 }
    ensures total { result ≡ total_weight (weight_at weights.now) set.now }
    ensures some { 0 < result }
{
    let mut total = 0u64;
    for node in set.iter() {
        total += u64::from(weights.get(u32::from(node.number())));
    }
    total
}

/// The node of a set that weighted interleave chooses for a turn.
pub(crate) fn weighted_node(weights: &Weights, set: &NodeMask, turn: u64) -> u8
    requires { set.now ≢ 0 }
    ensures node { result ≡ weighted_node (weight_at weights.now) set.now turn }
    ensures member { has set.now result ≡ true }
{
    let mut place = turn % total_weight(weights, set);
    for node in set.iter() {
        let weight = u64::from(weights.get(u32::from(node.number())));
        if place < weight {
            return node.number();
        }
        place -= weight;
    }
    0
}
