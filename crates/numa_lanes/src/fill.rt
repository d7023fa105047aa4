//! Fills a span with one node.
ghost use Rattle.std.specs.Prelude.{◌≡◌, ℕ, ◌<◌, ◌≤◌, length, slice_index};
ghost use Rattle.numa_lanes.specs.Spans.{IsFilled};

use crate::lanes::LANES;
use std::simd::prelude::*;

/// The most vectors that are stored before the rest of a span goes to a plain loop. The compiler
/// turns that loop into a call of the C library's memset, which fills a long span faster than
/// vectors of this size, and a short one slower.
const FEW: usize = 8;

/// Fills the first whole vectors of a span with the node, and returns the number of pages written.
fn fill_vectors(node: u8, out: &mut [u8]) -> usize
    ensures within { result ≤ length out.new }
    ensures filled { (k : ℕ) → k < result → slice_index out.new k ≡ node }
{
    let lanes = u8x32::splat(node);
    let whole = (out.len() / LANES).min(FEW);
    for round in 0..whole {
        lanes.copy_to_slice(&mut out[round * LANES..]);
    }
    whole * LANES
}

/// Fills the span with the node: every entry becomes `node`.
pub fn fill_one(node: u8, out: &mut [u8])
    ensures { IsFilled node out.new }
{
    for page in fill_vectors(node, out)..out.len() {
        out[page] = node;
    }
}
