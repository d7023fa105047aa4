//! The least and the greatest node of a block.
ghost use Rattle.std.specs.Prelude.{◌≡◌, ℕ, ◌+◌, ◌*◌, ◌<◌, ◌≤◌, length};
ghost use Rattle.std.specs.Prelude.{slice_index, EachIndex, IfSome};
ghost use Rattle.numa_lanes.specs.Spans.{IsBetween};

use crate::lanes::LANES;
use std::simd::prelude::*;

/// The most neighbouring nodes of a block for which a vector pass for each node is faster than a
/// tally.
const NEAR: u8 = 12;

/// The number of vectors of a block that are looked at before the rest.
const FIRST: usize = 8;

/// The lanewise minimum of `lanes` and the block's entries from `at` on.
#[inline(always)]
fn lesser(lanes: u8x32, block: &[u8], at: usize) -> u8x32
    requires room { at + 32 ≤ length block.now }
    requires long { length lanes ≡ 32 }
    ensures lanes { (j : ℕ) → j < 32 → slice_index result j ≤ slice_index lanes j }
    ensures entries { (j : ℕ) → j < 32 → slice_index result j ≤ slice_index block.now (at + j) }
    ensures long { length result ≡ 32 }
{
    lanes.simd_min(u8x32::from_slice(&block[at..]))
}

/// The lanewise maximum of `lanes` and the block's entries from `at` on.
#[inline(always)]
fn greater(lanes: u8x32, block: &[u8], at: usize) -> u8x32
    requires room { at + 32 ≤ length block.now }
    requires long { length lanes ≡ 32 }
    ensures lanes { (j : ℕ) → j < 32 → slice_index lanes j ≤ slice_index result j }
    ensures entries { (j : ℕ) → j < 32 → slice_index block.now (at + j) ≤ slice_index result j }
    ensures long { length result ≡ 32 }
{
    lanes.simd_max(u8x32::from_slice(&block[at..]))
}

/// The least lane.
fn least_lane(lanes: u8x32) -> u8
    requires { length lanes ≡ 32 }
    ensures { EachIndex lanes (λ j. result ≤ slice_index lanes j) }
{
    let mut least = u8::MAX;
    for lane in lanes.to_array() {
        least = least.min(lane);
    }
    least
}

/// The greatest lane.
fn greatest_lane(lanes: u8x32) -> u8
    requires { length lanes ≡ 32 }
    ensures { EachIndex lanes (λ j. slice_index lanes j ≤ result) }
{
    let mut greatest = 0;
    for lane in lanes.to_array() {
        greatest = greatest.max(lane);
    }
    greatest
}

/// The least and the greatest node of a block of whole vectors.
fn ends(block: &[u8], rounds: usize) -> (u8, u8)
    requires { length block.now ≡ 32 * rounds }
    ensures { IsBetween result.0 result.1 block.now }
{
    let mut least = u8x32::splat(u8::MAX);
    let mut greatest = u8x32::splat(0);
    for round in 0..rounds {
        least = lesser(least, block, round * LANES);
        greatest = greater(greatest, block, round * LANES);
    }
    (least_lane(least), greatest_lane(greatest))
}

/// Whether four sampled entries of a block are already too far apart.
fn looks_wide(block: &[u8]) -> bool
    requires { 0 < length block.now }
{
    let len = block.len();
    [block[len / 3], block[len / 2], block[len - 1]]
        .iter()
        .any(|entry| entry.abs_diff(block[0]) >= NEAR)
}

/// Whether more than `NEAR` neighbouring nodes lie between these.
fn is_wide(least: u8, greatest: u8) -> bool {
    greatest.saturating_sub(least) >= NEAR
}

/// Whether the pages of the first vectors of a block are already too far apart.
fn begins_wide(block: &[u8]) -> bool
    requires { 256 ≤ length block.now }
{
    let (least, greatest) = ends(&block[..FIRST * LANES], FIRST);
    is_wide(least, greatest)
}

/// The least and the greatest node of a block of whole vectors, if they are close enough that a
/// vector pass for each node between them is faster than a tally. When it returns `None` is a
/// matter of speed, and no clause says it.
pub(crate) fn near_ends(block: &[u8], rounds: usize) -> Option<(u8, u8)>
    requires whole { length block.now ≡ 32 * rounds }
    requires some { 8 ≤ rounds }
    ensures { IfSome result (λ ends. IsBetween ends.0 ends.1 block.now) }
{
    if looks_wide(block) || begins_wide(block) {
        return None;
    }
    let (least, greatest) = ends(block, rounds);
    if is_wide(least, greatest) {
        None
    } else {
        Some((least, greatest))
    }
}
