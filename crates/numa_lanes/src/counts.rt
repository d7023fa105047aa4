//! The number of pages of a span on each node.
ghost use Rattle.std.specs.Prelude.{◌≡◌, ℕ, ◌+◌, ◌*◌, ◌^◌, ◌<◌, ◌≤◌, length, slice_index};
ghost use Rattle.numa_lanes.specs.Spans.{node_count, IsBetween, Adds};

use crate::count::count_block;
use crate::ends::near_ends;
use crate::lanes::{LANES, ROUNDS, WORTH};

/// Adds to each node's count the pages of a span that are on it, page by page.
#[inline]
pub fn tally(span: &[u8], counts: &mut [u64; 256])
    requires { (node : ℕ) → node < 256 →
        slice_index counts.old node + node_count node span.now < 2 ^ 64 }
    ensures { Adds span.now counts.old counts.new }
{
    for entry in span {
        counts[usize::from(*entry)] += 1;
    }
}

/// Adds to each node's count the pages of a block that are on it, if they are all on nodes from
/// `least` to `greatest`: one pass over the block for each of these nodes.
fn add_between(block: &[u8], rounds: usize, least: u8, greatest: u8, counts: &mut [u64; 256])
    requires whole { length block.now ≡ 32 * rounds }
    requires rounds_fit { rounds ≤ 255 }
    requires ends { IsBetween least greatest block.now }
    requires room { (node : ℕ) → node < 256 →
        slice_index counts.old node + node_count node block.now < 2 ^ 64 }
    ensures { Adds block.now counts.old counts.new }
{
    for node in usize::from(least)..usize::from(greatest) + 1 {
        counts[node] += count_block(block, rounds, node as u8);
    }
}

/// Adds to each node's count the pages of a block that are on it.
fn add_block(block: &[u8], rounds: usize, counts: &mut [u64; 256])
    requires whole { length block.now ≡ 32 * rounds }
    requires some { 8 ≤ rounds }
    requires rounds_fit { rounds ≤ 255 }
    requires room { (node : ℕ) → node < 256 →
        slice_index counts.old node + node_count node block.now < 2 ^ 64 }
    ensures { Adds block.now counts.old counts.new }
{
    match near_ends(block, rounds) {
        Some((least, greatest)) => add_between(block, rounds, least, greatest, counts),
        None => tally(block, counts),
    }
}

/// Overwrites `counts` with the number of pages of a span on each node.
pub fn count_all(nodes: &[u8], counts: &mut [u64; 256])
    ensures { (node : ℕ) → node < 256 → slice_index counts.new node ≡ node_count node nodes.now }
{
    *counts = [0; 256];
    let mut rest = nodes;
    while rest.len() >= WORTH * LANES {
        let rounds = (rest.len() / LANES).min(ROUNDS);
        let (block, after) = rest.split_at(rounds * LANES);
        add_block(block, rounds, counts);
        rest = after;
    }
    tally(rest, counts);
}
