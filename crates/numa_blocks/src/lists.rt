//! On which nodes a first touch looks for a block.
ghost use Rattle.std.specs.Prelude.{◌≡◌, ◌<◌, ◌≤◌, IfSome, slice_index, true, ℕ};
ghost use Rattle.numa_mask.specs.NodeSet.{members};
ghost use Rattle.numa_mode.specs.Policy.{is_live};
ghost use Rattle.numa_space.specs.Standing.{IsInForce, setting_in};
ghost use Rattle.numa_blocks.specs.Blocks.{HasPage};
ghost use Rattle.numa_blocks.specs.Tries.{asked_nodes, if_in, is_alone};
ghost use Rattle.numa_blocks.specs.Tries.{lone_node, node_by_mode, only_node};

use crate::area::Area;
use crate::settings::BlockSettings;
use arrayvec::ArrayVec;
use numa_mask::NodeMask;
use numa_mode::{Mode, Record};
use numa_space::Space;

/// The order of 2 MiB.
const HUGE: u32 = 9;

/// The lowest node of a set; 0 if it has none.
fn lowest(set: &NodeMask) -> u8
    ensures { result ≡ slice_index (members set.now) 0 }
{
    match set.first() {
        Some(node) => node.number(),
        None => 0,
    }
}

/// A node, if the set has it.
fn if_in(set: &NodeMask, node: u8) -> Option<u8>
    ensures { result ≡ if_in set.now node }
{
    if set.has(node) {
        return Some(node);
    }
    None
}

/// The node that a policy asks first for 2 MiB, for a fault that counts as one on node `from`.
fn node_by_mode(policy: &Record, from: u8) -> Option<u8>
    ensures { result ≡ node_by_mode policy.now.spec.mode policy.now.effective from }
{
    let set = policy.effective();
    match policy.spec().mode() {
        Mode::Default | Mode::Local => Some(from),
        Mode::Preferred => Some(lowest(&set)),
        Mode::Bind => if_in(&set, from),
        Mode::PreferredMany | Mode::Interleave | Mode::WeightedInterleave => None,
    }
}

/// The node that is asked first for 2 MiB by a task with this policy, for a fault on a CPU of node
/// `cpu`, if one is asked before the others: the CPU's, if there is no policy or it is local; the
/// preferred one; that of a home or of the CPU, if the policy binds to it.
pub fn lone_node(policy: &Option<Record>, cpu: u8) -> Option<u8>
    ensures { result ≡ lone_node policy.now cpu }
{
    let Some(policy) = policy else {
        return Some(cpu);
    };
    let from = policy.home().unwrap_or(cpu);
    node_by_mode(policy, from)
}

/// Whether one node alone is asked for an order, and no other: where the order is 9 and other nodes
/// aren't asked in this area.
pub fn is_alone(
    settings: &BlockSettings,
    area: &Area,
    policy: &Option<Record>,
    cpu: u8,
    order: u32,
) -> bool
    ensures { result ≡ is_alone settings.now area.now policy.now cpu order }
{
    if order != HUGE || settings.asks_others(area.advice) {
        return false;
    }
    lone_node(policy, cpu).is_some()
}

/// A node alone, if it is allowed.
fn only_node(allowed: &NodeMask, node: Option<u8>) -> ArrayVec<u8, 256>
    ensures { result.items ≡ only_node allowed.now node }
{
    let mut list = ArrayVec::new();
    if let Some(node) = node {
        if allowed.has(node) {
            list.push(node);
        }
    }
    list
}

/// The nodes that are asked in turn for the block of a page, of an order, by a task with this
/// policy, for a fault on a CPU of node `cpu`. None, where one node alone is asked that isn't
/// allowed: then the order isn't tried. It doesn't allocate.
pub fn asked_nodes(
    space: &Space,
    settings: &BlockSettings,
    area: &Area,
    policy: &Option<Record>,
    page: u64,
    cpu: u8,
    order: u32,
) -> ArrayVec<u8, 256>
    requires cpu { cpu < space.now.machine.nodes }
    requires order { order ≤ 9 }
    requires page { HasPage area.now page }
    requires in_force { IfSome policy.now (λ r. IsInForce space.now.machine space.now.allowed r
        × (is_live r ≡ true)) }
    ensures { result.items
        ≡ asked_nodes (setting_in space.now) settings.now area.now policy.now page cpu order }
{
    if is_alone(settings, area, policy, cpu, order) {
        let node = lone_node(policy, cpu);
        let allowed = space.allowed();
        return only_node(&allowed, node);
    }
    space.list_of(*policy, u32::from(cpu), area.block_index(order, page))
}
