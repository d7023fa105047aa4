//! Fills a span with the nodes of a cycle in turn.
ghost use Rattle.std.specs.Prelude.{◌≡◌, ℕ, ◌+◌, ◌*◌, ◌%◌, ◌^◌, ◌<◌};
ghost use Rattle.std.specs.Prelude.{◌≤◌, length, slice_index, IfOk};
ghost use Rattle.numa_lanes.specs.Spans.{IsCycled};
ghost use Rattle.numa_lanes.specs.Turns.{IsTable};

use std::alloc::{AllocError, Global};
use std::marker::Model;
use std::simd::prelude::*;

/// The number of pages in a vector of a cycle's fill. It is wider than a vector of a count, since
/// each vector waits for the turn at which the one before it ended.
const WIDE: usize = 64;

/// A cycle of nodes that pages take in turn: a list with at least one entry that starts over after
/// its last.
///
/// The entries are kept with one vector's length of the turns that follow them, so that a vector
/// can be read from any place of the list.
#[derive(Drop)]
pub struct Cycle {
    len: usize,
    table: Vec<u8>,
}

impl Model for Cycle {
    ghost use Rattle.std.specs.Prelude.{List, ℕ, take};
    ghost use Rattle.numa_lanes.specs.Turns.{IsTable};

    ghost Value = { List ℕ };

    ghost view = { λ c. take c.len c.table.items };

    ghost invariant = { λ c. IsTable c.len c.table.items };
}

impl Cycle {
    /// The cycle of these entries, at least one.
    ///
    /// # Errors
    /// `AllocError`: there is no memory for a copy of the entries.
    pub fn new(alloc: Global, entries: &[u8]) -> Result<Cycle, AllocError>
        requires { 0 < length entries.now }
        ensures { IfOk result (λ cycle. cycle ≡ entries.now) }
    {
        let len = entries.len();
        let size = len + WIDE;
        let mut table = Vec::with_capacity(alloc, size)?;
        for turn in 0..size {
            table.push_reserved(entries[turn % len]);
        }
        Ok(Cycle { len, table })
    }

    /// Its entries.
    #[inline]
    pub fn nodes(&self) -> &[u8]
        ensures is { result.now ≡ self.now }
        ensures some { 0 < length result.now }
    {
        &self.table[..self.len]
    }

    /// The nodes of `count` turns, at most 64, from turn `start` on. Turn t has entry t modulo the
    /// cycle's length.
    #[inline]
    pub fn turns(&self, start: u64, count: usize) -> &[u8]
        requires { count ≤ 64 }
        ensures size { length result.now ≡ count }
        ensures nodes { IsCycled self.now start result.now }
    {
        let turn = (start % self.len as u64) as usize;
        &self.table[turn..turn + count]
    }
}

/// The turn `step` turns after `turn`, modulo the cycle's length.
#[inline(always)]
fn advance(turn: usize, step: usize, len: usize) -> usize
    requires turn { turn < len }
    requires step { step < len }
    requires small { len < 2 ^ 63 }
    ensures { result ≡ (turn + step) % len }
{
    let next = turn + step;
    if next >= len { next - len } else { next }
}

/// Fills the whole vectors of the span with the nodes of a table in turn, and returns the number of
/// pages written.
fn fill_vectors(table: &[u8], len: usize, start: usize, out: &mut [u8]) -> usize
    requires { IsTable len table.now }
    ensures within { result ≤ length out.new }
    ensures cycled { (k : ℕ) → k < result → slice_index out.new k
        ≡ slice_index table.now ((start + k) % len) }
{
    let step = WIDE % len;
    let whole = out.len() / WIDE;
    let mut turn = start % len;
    for round in 0..whole {
        u8x64::from_slice(&table[turn..]).copy_to_slice(&mut out[round * WIDE..]);
        turn = advance(turn, step, len);
    }
    whole * WIDE
}

/// Fills the span with the nodes of the cycle in turn, from turn `start` on, which is below 2^36.
/// Turn t has entry t modulo the cycle's length.
pub fn fill_cycle(cycle: &Cycle, start: u64, out: &mut [u8])
    requires { start < 2 ^ 36 }
    ensures { IsCycled cycle.now start out.new }
{
    if out.len() <= WIDE {
        out.copy_from_slice(cycle.turns(start, out.len()));
        return;
    }
    let len = cycle.len;
    let table = cycle.table.as_slice();
    let done = fill_vectors(table, len, start as usize, out);
    let mut turn = (start as usize + done) % len;
    for page in done..out.len() {
        out[page] = table[turn];
        turn = advance(turn, 1 % len, len);
    }
}
