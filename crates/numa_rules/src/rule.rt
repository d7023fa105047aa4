//! The rule that orders the nodes of a page.
ghost use Rattle.std.specs.Prelude.{◌≡◌, ◌≢◌, true, IfOk, IfSome, slice_index};
ghost use Rattle.numa_mask.specs.NodeSet.{members};
ghost use Rattle.numa_machine.specs.Weights.{weight_at, weight_below};
ghost use Rattle.numa_mode.specs.Policy.{is_live};
ghost use Rattle.numa_rules.specs.Reasons.{block_of, rule_by_mode, rule_for, turn_of};

use numa_machine::{Weights, turn_at};
use numa_mask::NodeMask;
use numa_mode::{Mode, Record};
use std::alloc::{AllocError, Global};

/// A turn of interleave: the members of the set, in ascending order, have the places 0, 1, .. in
/// each round.
#[derive(Clone, Copy)]
pub struct Turn {
    /// The page's turn modulo the number of members.
    pub place: u64,
    /// The number of members.
    pub members: u64,
    /// The member at that place.
    pub node: u8,
}

/// A turn of weighted interleave: in each round the members, in ascending order, have as many
/// places as their weights.
#[derive(Clone, Copy)]
pub struct WeightedTurn {
    /// The page's turn modulo the total weight.
    pub place: u64,
    /// The total weight of the members.
    pub total: u64,
    /// The member that has that place.
    pub node: u8,
    /// Its first place: the total weight of the members below it.
    pub before: u64,
    /// The number of its places: its weight.
    pub weight: u64,
}

/// The rule that orders the nodes of a page ("NUMA Memory Policy", components of memory policies).
/// The order of a node is the machine's fallback order: the nearest first, or a kernel's.
#[derive(Clone, Copy)]
pub enum OrderRule {
    /// The allowed nodes in the order of this node, which is the faulting one.
    Local(u32),
    /// The allowed nodes in the order of this node, which is the lowest of the effective set.
    Preferred(u8),
    /// Only the effective nodes, in the order of this node, which is the home or the faulting node.
    Bind(u32),
    /// The effective nodes that are allowed, in the order of this node, which is the home or the
    /// faulting node, and after them the other allowed ones in the same order.
    PreferredMany(u32),
    /// The allowed nodes in the order of the node whose turn it is.
    Interleave(Turn),
    /// The allowed nodes in the order of the node whose turn it is by weight.
    WeightedInterleave(WeightedTurn),
}

/// The place of a turn among the members of a set.
fn turn_of(set: &NodeMask, turn: u64) -> Turn
    requires { set.now ≢ 0 }
    ensures { result ≡ turn_of set.now turn }
{
    let members = u64::from(set.weight());
    let place = turn % members;
    let Some(node) = set.nth(place as u32) else {
        unreachable!()
    };
    Turn {
        place,
        members,
        node: node.number(),
    }
}

/// The total weight of the members below a node.
fn weight_below(weights: &Weights, set: &NodeMask, node: u8) -> u64
    ensures { result ≡ weight_below (weight_at weights.now) set.now node }
{
    let mut sum = 0u64;
    for member in set.iter() {
        let number = member.number();
        if number < node {
            sum += u64::from(weights.get(u32::from(number)));
        }
    }
    sum
}

/// The place of a turn among the members of a set by their weights.
fn block_of(
    alloc: Global,
    weights: &Weights,
    set: &NodeMask,
    turn: u64,
) -> Result<WeightedTurn, AllocError>
    requires { set.now ≢ 0 }
    ensures { IfOk result (λ block. block
        ≡ block_of (weight_at weights.now) set.now turn) }
{
    let turns = match weights.cycle_of(alloc, set) {
        Ok(turns) => turns,
        Err(fault) => return Err(fault),
    };
    let total = turns.len() as u64;
    let place = turn % total;
    let node = turns[place as usize];
    let before = weight_below(weights, set, node);
    let weight = u64::from(weights.get(u32::from(node)));
    Ok(WeightedTurn {
        place,
        total,
        node,
        before,
        weight,
    })
}

/// The lowest node of a set.
fn lowest(set: &NodeMask) -> u8
    requires { set.now ≢ 0 }
    ensures { result ≡ slice_index (members set.now) 0 }
{
    let Some(node) = set.first() else {
        unreachable!()
    };
    node.number()
}

/// The rule of a live policy, for a fault that counts as one on the node `from`, at a page that has
/// this turn.
fn rule_by_mode(
    alloc: Global,
    weights: &Weights,
    policy: &Record,
    from: u32,
    turn: u64,
) -> Result<OrderRule, AllocError>
    requires { is_live policy.now ≡ true }
    ensures { IfOk result (λ rule. rule
        ≡ rule_by_mode (weight_at weights.now) policy.now.spec.mode policy.now.effective from
        turn) }
{
    let set = policy.effective();
    match policy.spec().mode() {
        Mode::Default | Mode::Local => Ok(OrderRule::Local(from)),
        Mode::Preferred => Ok(OrderRule::Preferred(lowest(&set))),
        Mode::Bind => Ok(OrderRule::Bind(from)),
        Mode::PreferredMany => Ok(OrderRule::PreferredMany(from)),
        Mode::Interleave => Ok(OrderRule::Interleave(turn_of(&set, turn))),
        Mode::WeightedInterleave => {
            match block_of(alloc, weights, &set, turn) {
                Ok(block) => Ok(OrderRule::WeightedInterleave(block)),
                Err(fault) => Err(fault),
            }
        }
    }
}

/// The rule of a policy that is live, or of none, for a fault on the node `cpu` at a page of this
/// index.
pub(crate) fn rule_for(
    alloc: Global,
    weights: &Weights,
    policy: &Option<Record>,
    cpu: u32,
    index: u64,
) -> Result<OrderRule, AllocError>
    requires { IfSome policy.now (λ r. is_live r ≡ true) }
    ensures { IfOk result (λ rule. rule
        ≡ rule_for (weight_at weights.now) policy.now cpu index) }
{
    let Some(policy) = policy else {
        return Ok(OrderRule::Local(cpu));
    };
    match policy.home() {
        Some(home) => rule_by_mode(alloc, weights, policy, u32::from(home), turn_at(index)),
        None => rule_by_mode(alloc, weights, policy, cpu, turn_at(index)),
    }
}
