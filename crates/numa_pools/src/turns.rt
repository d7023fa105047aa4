//! Turns of nodes, in time by nodes and not by turns: first as many whole rounds as leave a turn
//! over, and then the last turns, of which no node has two.
ghost use Rattle.std.specs.Prelude.{◌≡◌, ◌==◌, ◌&&◌, ◌+◌, ◌-◌, ◌<◌, ◌≤◌, ◌^◌, ℕ, false, nat_lt};
ghost use Rattle.std.specs.Prelude.{if◌then◌else◌, slice_index, sum};
ghost use Rattle.numa_mask.specs.NodeSet.{has};
ghost use Rattle.numa_pools.specs.Turns.{around, ring, one_less_at, turns_of, after_turns};
ghost use Rattle.numa_pools.specs.Turns.{mark_after};
ghost use Rattle.numa_pools.specs.Rounds.{round, turns_within};

use crate::counts::{NODES, lower, sum_of, turns_within};
use numa_mask::NodeMask;

/// The first node of a set from the mark on, or else below it; 0 where there is none.
pub(crate) fn next_node(nodes: &NodeMask, mark: u32) -> u32
    requires { mark < 256 }
    ensures next { result ≡ slice_index (ring nodes.now mark) 0 }
    ensures within { result < 256 }
{
    for place in 0..256 {
        let node = (mark + place) % 256;
        if nodes.has(node as u8) {
            return node;
        }
    }
    0
}

/// Whether a node is next where no turns are left: it is one of the set.
fn is_next(nodes: &NodeMask, node: u32, left: u64) -> bool
    requires { node < 256 }
    ensures { result ≡ (left == 0 && has nodes.now node) }
{
    left == 0 && nodes.has(node as u8)
}

/// Whether a node takes a turn: it is one of the set, and has room.
fn takes(room: &[u64; NODES], nodes: &NodeMask, node: u32) -> bool
    requires { node < 256 }
    ensures { result ≡ (has nodes.now node && nat_lt 0 (slice_index room.now node)) }
{
    nodes.has(node as u8) && room[node as usize] > 0
}

/// Lets a node take a turn, if it is one of the set and has room; returns how many turns are left.
fn visit(room: &mut [u64; NODES], nodes: &NodeMask, node: u32, left: u64) -> u64
    requires node { node < 256 }
    requires left { (left == 0 && has nodes.now node) ≡ false }
    ensures room { room.new ≡ (if has nodes.now node && nat_lt 0 (slice_index room.old node)
        then one_less_at room.old node else room.old) }
    ensures left { result ≡ (if has nodes.now node && nat_lt 0 (slice_index room.old node)
        then left - 1 else left) }
{
    if !takes(room, nodes, node) {
        return left;
    }
    room[node as usize] -= 1;
    left - 1
}

/// Lets the nodes of a set take one turn each from the mark on, if they have room, until so many
/// did; returns the node that is next then, which is `first` where nobody is left.
fn last_round(room: &mut [u64; NODES], nodes: &NodeMask, mark: u32, first: u32, times: u64) -> u32
    requires mark { mark < 256 }
    requires first { first < 256 }
    ensures room { room.new ≡ (round nodes.now (around mark) first times room.old).room }
    ensures next { result ≡ (round nodes.now (around mark) first times room.old).next }
    ensures within { result < 256 }
{
    let mut left = times;
    for place in 0..256 {
        let node = (mark + place) % 256;
        if is_next(nodes, node, left) {
            return node;
        }
        left = visit(room, nodes, node, left);
    }
    first
}

/// Whether so many rounds are too few for so many turns.
fn are_few(room: &[u64; NODES], rounds: u64, times: u64) -> bool
    requires { sum room.now < 2 ^ 64 }
    ensures { result ≡ nat_lt (turns_within rounds room.now) times }
{
    turns_within(room, rounds) < times
}

/// One of two numbers.
fn either(test: bool, one: u64, other: u64) -> u64
    ensures { result ≡ (if test then one else other) }
{
    if test { one } else { other }
}

/// How many whole rounds nodes with so much room can take, so that of so many turns at least one is
/// left, and at most one for each node with room.
fn full_rounds(room: &[u64; NODES], times: u64) -> u64
    requires some { 0 < times }
    requires room { times ≤ sum room.now }
    requires fits { sum room.now < 2 ^ 64 }
    ensures left { turns_within result room.now < times }
    ensures most { times ≤ turns_within (result + 1) room.now }
{
    let mut low = 0;
    let mut high = times;
    while high - low > 1 {
        let middle = low + (high - low) / 2;
        let few = are_few(room, middle, times);
        low = either(few, middle, low);
        high = either(few, high, middle);
    }
    low
}

/// Lets the nodes of a set take so many turns from the mark on, as far as they have room; returns
/// the mark, which stays where there are no turns, and is the next node else.
pub(crate) fn take_turns(room: &mut [u64; NODES], nodes: &NodeMask, mark: u32, times: u64) -> u32
    requires mark { mark < 256 }
    requires outside { (node : ℕ) → has nodes.now node ≡ false → slice_index room.old node ≡ 0 }
    requires fits { sum room.old < 2 ^ 64 }
    ensures room { room.new
        ≡ (after_turns times (turns_of room.old (ring nodes.now mark))).room }
    ensures mark { result ≡ mark_after times mark
        (after_turns times (turns_of room.old (ring nodes.now mark))).ring }
    ensures within { result < 256 }
{
    if times == 0 {
        return mark;
    }
    let first = next_node(nodes, mark);
    let all = sum_of(room);
    if all == 0 {
        return first;
    }
    let times = times.min(all);
    let rounds = full_rounds(room, times);
    let taken = turns_within(room, rounds);
    lower(room, rounds);
    last_round(room, nodes, mark, first, times - taken)
}
