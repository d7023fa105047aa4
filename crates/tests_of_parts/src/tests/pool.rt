//! What the end of pools counts, with a seat that wasn't joined and one that was; and many threads
//! at once.
ghost use Rattle.std.specs.Prelude.{◌≡◌};

use crate::tests::same::same;
use numa_examples::flat_machine;
use numa_examples::pools::take_by;
use numa_machine::Frame;
use numa_pool::{PoolSeat, Pools};
use std::alloc::Global;
use std::process::Abort;

/// The pools of a machine with these frames on its nodes.
fn open(rt: &impl Abort, alloc: Global, frames: &[u32]) -> (Pools, PoolSeat)
    ensures { result.1.table ≡ result.0.table }
{
    let machine = flat_machine(alloc, frames).expect(rt, "a machine");
    Pools::open(alloc, &machine).expect(rt, "memory")
}

/// How many frames of each of the first four nodes are taken at the end, and whether there was no
/// other seat.
fn closed(pools: Pools, seat: PoolSeat) -> ([u32; 4], bool)
    requires { seat.table ≡ pools.table }
{
    let closed = pools.close(seat);
    let taken = closed.taken;
    ([taken[0], taken[1], taken[2], taken[3]], closed.alone)
}

/// Frame 0 of node 1, which the second of two seats takes.
const SHARED: Frame = Frame { node: 1, number: 0 };

/// Two seats of pools with a frame on node 0 and two on node 1: the first has that of node 0, the
/// second one of node 1.
fn two_seats(rt: &impl Abort, alloc: Global) -> (Pools, PoolSeat, PoolSeat)
    ensures one { result.1.table ≡ result.0.table }
    ensures two { result.2.table ≡ result.0.table }
{
    let (pools, mut first) = open(rt, alloc, &[1, 2]);
    let mut second = pools.split(alloc, &mut first).expect(rt, "memory");
    let found = (pools.take(&mut first, 0), pools.take(&mut second, 1));
    let wanted = (Some(Frame { node: 0, number: 0 }), Some(SHARED));
    same(rt, &found, &wanted);
    (pools, first, second)
}

#[test]
fn joins_and_closes(rt: HostRuntime) {
    let (pools, mut first, second) = two_seats(&rt, rt.alloc());
    pools.join(&mut first, second);
    assert!(rt; first.holds(&SHARED));
    same(&rt, &closed(pools, first), &([1, 1, 0, 0], true));
}

#[test]
fn closes_beside_another_seat(rt: HostRuntime) {
    let (pools, first, _second) = two_seats(&rt, rt.alloc());
    same(&rt, &closed(pools, first), &([1, 1, 0, 0], false));
}

/// How many frames of four nodes the seat holds.
fn held(seat: &PoolSeat) -> u32 {
    let mut count = 0u32;
    for place in 0..16_384u32 {
        let frame = Frame {
            node: (place / 4_096) as u8,
            number: (place % 4_096) as u16,
        };
        count = count.wrapping_add(u32::from(seat.holds(&frame)));
    }
    count
}

/// As many frames are taken as there are, so none twice.
#[test]
fn eight_seats_take_each_frame_once(rt: HostRuntime) {
    let (pools, seat) = open(&rt, rt.alloc(), &[4_096; 4]);
    let (seat, count) = take_by(&rt, rt.alloc(), &pools, seat, 3, 0);
    same(&rt, &(count, held(&seat)), &(16_384, 16_384));
    same(&rt, &closed(pools, seat), &([4_096; 4], true));
}
