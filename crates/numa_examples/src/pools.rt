//! Frames that many threads take at once.
ghost use Rattle.std.specs.Prelude.{◌≡◌, ◌<◌};
ghost use Rattle.std.specs.Thread.{IsSync};

use numa_pool::{PoolSeat, Pools};
use std::alloc::Global;
use std::thread::{Threads, join};

/// Takes frames of nodes 0 to 3 until none is left, beginning with one of them, and counts them.
fn take_from(pools: &Pools, seat: &mut PoolSeat, start: u8) -> u64
    requires { seat.old.table ≡ pools.now.table }
    ensures { seat.new.table ≡ seat.old.table }
{
    let mut count = 0u64;
    for step in 0..4u8 {
        let node = start.wrapping_add(step) % 4;
        for _ in 0..4096 {
            if pools.take(seat, node).is_none() {
                break;
            }
            count = count.wrapping_add(1);
        }
    }
    count
}

/// Takes frames of nodes 0 to 3 until none is left, by twice as many threads for each level, the
/// second of two beginning one node further on, and joins their seats: how many were taken.
#[cycle(taking)]
pub fn take_by<R: Threads + Sync>(
    rt: &R,
    alloc: Global,
    pools: &Pools,
    mut seat: PoolSeat,
    levels: u32,
    start: u8,
) -> (PoolSeat, u64)
    requires { seat.table ≡ pools.now.table }
    ensures { result.0.table ≡ pools.now.table }
{
    if levels > 0
        && let Ok(other) = pools.split(alloc, &mut seat)
    {
        let (mine, others) = join(
            rt,
            move || -> (PoolSeat, u64)
                requires { IsSync R.row × (0 < levels) × (seat.table ≡ pools.now.table) }
                ensures { result.0.table ≡ pools.entry.now.table }
            { take_by(rt, alloc, pools, seat, levels - 1, start) },
            move || -> (PoolSeat, u64)
                requires { IsSync R.row × (0 < levels) × (other.table ≡ pools.now.table) }
                ensures { result.0.table ≡ pools.entry.now.table }
            { take_by(rt, alloc, pools, other, levels - 1, start.wrapping_add(1)) },
        );
        let (mut seat, count) = mine;
        let (other, more) = others;
        pools.join(&mut seat, other);
        return (seat, count.wrapping_add(more));
    }
    let count = take_from(pools, &mut seat, start);
    (seat, count)
}
