//! The number of pages of a span on one node.
ghost use Rattle.std.specs.Prelude.{◌≡◌, ℕ, ◌+◌, ◌*◌, ◌≤◌, ◌==◌, length};
ghost use Rattle.numa_lanes.specs.Spans.{node_count};

use crate::lanes::{LANES, ROUNDS, add_lanes, hits, sum_of_lanes};
use std::simd::prelude::*;

/// The number of pages of a block on the node. A block is at most 255 whole vectors of 32 pages:
/// each lane counts one page of each vector in a byte, which may be full after 255 vectors.
pub fn count_block(block: &[u8], rounds: usize, node: u8) -> u64
    requires whole { length block.now ≡ 32 * rounds }
    requires rounds_fit { rounds ≤ 255 }
    ensures { result ≡ node_count node block.now }
{
    let mut sums = u8x32::splat(0);
    for round in 0..rounds {
        sums = add_lanes(sums, hits(block, round * LANES, node), round);
    }
    sum_of_lanes(sums)
}

/// The number of pages of a span on the node.
pub fn count_node(nodes: &[u8], node: u8) -> u64
    ensures { result ≡ node_count node nodes.now }
{
    let mut total = 0u64;
    let mut rest = nodes;
    while rest.len() >= LANES {
        let rounds = (rest.len() / LANES).min(ROUNDS);
        let (block, after) = rest.split_at(rounds * LANES);
        total += count_block(block, rounds, node);
        rest = after;
    }
    total + rest.iter().filter(|entry| **entry == node).count() as u64
}
