//! The number of pages of a span on the nodes of a set.
ghost use Rattle.std.specs.Prelude.{◌≡◌, ◌*◌, ◌<◌, ◌≤◌, length};
ghost use Rattle.numa_lanes.specs.Spans.{set_count, IsBetween};

use crate::count::count_block;
use crate::ends::near_ends;
use crate::lanes::{LANES, ROUNDS, WORTH};
use numa_mask::NodeMask;

/// The count in a set, page by page.
fn count_pages_in(span: &[u8], set: &NodeMask) -> u64
    ensures { result ≡ set_count set.now span.now }
{
    let mut total = 0u64;
    for entry in span {
        total += u64::from(set.has(*entry));
    }
    total
}

/// The count in a set of a block whose pages are all on nodes from `least` to `greatest`: one pass
/// over the block for each of these that is in the set.
fn count_between_in(block: &[u8], rounds: usize, least: u8, greatest: u8, set: &NodeMask) -> u64
    requires whole { length block.now ≡ 32 * rounds }
    requires rounds_fit { rounds ≤ 255 }
    requires ends { IsBetween least greatest block.now }
    ensures { result ≡ set_count set.now block.now }
{
    let mut total = 0u64;
    for number in usize::from(least)..usize::from(greatest) + 1 {
        if set.has(number as u8) {
            total += count_block(block, rounds, number as u8);
        }
    }
    total
}

/// The count in a set over a block.
fn count_block_in(block: &[u8], rounds: usize, set: &NodeMask) -> u64
    requires whole { length block.now ≡ 32 * rounds }
    requires some { 8 ≤ rounds }
    requires rounds_fit { rounds ≤ 255 }
    ensures { result ≡ set_count set.now block.now }
{
    match near_ends(block, rounds) {
        Some((least, greatest)) => count_between_in(block, rounds, least, greatest, set),
        None => count_pages_in(block, set),
    }
}

/// The number of pages of a span on a node of the set.
pub fn count_in(nodes: &[u8], set: &NodeMask) -> u64
    ensures { result ≡ set_count set.now nodes.now }
{
    let mut total = 0u64;
    let mut rest = nodes;
    while rest.len() >= WORTH * LANES {
        let rounds = (rest.len() / LANES).min(ROUNDS);
        let (block, after) = rest.split_at(rounds * LANES);
        total += count_block_in(block, rounds, set);
        rest = after;
    }
    total + count_pages_in(rest, set)
}
