//! Vectors of 32 bytes, and the steps of a count on them.
ghost use Rattle.std.specs.Prelude.{◌≡◌, ℕ, ◌+◌, ◌<◌, ◌≤◌, ◌==◌, length};
ghost use Rattle.std.specs.Simd.Lanes.{sum_l, Each1, chunk};
ghost use Rattle.numa_lanes.specs.Spans.{node_count};

use std::simd::prelude::*;

/// The number of bytes in a vector.
pub(crate) const LANES: usize = 32;

/// The most vectors in a block: a byte counts to 255.
pub(crate) const ROUNDS: usize = 255;

/// The fewest vectors in a block: a shorter one is counted just as fast page by page.
pub(crate) const WORTH: usize = 32;

/// A vector with 1 where the block's entry from `at` on is the node, and 0 elsewhere.
#[inline(always)]
pub(crate) fn hits(block: &[u8], at: usize, node: u8) -> u8x32
    requires { at + 32 ≤ length block.now }
    ensures count { sum_l result ≡ node_count node (chunk at 32 block.now) }
    ensures ones { Each1 (λ hit. hit ≤ 1) result }
    ensures long { length result ≡ 32 }
{
    u8x32::from_slice(&block[at..])
        .simd_eq(u8x32::splat(node))
        .select(u8x32::splat(1), u8x32::splat(0))
}

/// Adds one vector of hits to the sums so far, which have at most `rounds` hits in each lane.
#[inline(always)]
pub(crate) fn add_lanes(sums: u8x32, hits: u8x32, rounds: usize) -> u8x32
    requires fits { rounds < 255 }
    requires sums_most { Each1 (λ sum. sum ≤ rounds) sums }
    requires hits_most { Each1 (λ hit. hit ≤ 1) hits }
    requires sums_long { length sums ≡ 32 }
    requires hits_long { length hits ≡ 32 }
    ensures sum { sum_l result ≡ sum_l sums + sum_l hits }
    ensures most { Each1 (λ sum. sum ≤ rounds + 1) result }
    ensures long { length result ≡ 32 }
{
    // Only the proof needs this bound of the sums.
    let _ = rounds;
    sums.strict_add(hits)
}

/// The sum of the lanes, widened first.
#[inline(always)]
pub(crate) fn sum_of_lanes(sums: u8x32) -> u64
    requires { length sums ≡ 32 }
    ensures { result ≡ sum_l sums }
{
    u64::from(sums.cast::<u16>().strict_reduce_sum())
}
