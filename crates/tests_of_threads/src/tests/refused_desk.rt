//! Desks of which one growth is refused, as in `refused`: a new one, and one that accepts.
use crate::tests::refused::mark;
use crate::tests::setting::{accept_both, desk_for, machine_of, map_one, publish_as, same};
use numa_machine::NoMemory;
use numa_publish::Desk;
use numa_requests::{Limits, Refusal};
use std::alloc::Global;
use std::process::Abort;
use std::sync::Wait;

/// A desk of two nodes with memory, for two readers.
fn new_desk(rt: &(impl Wait + Abort), alloc: Global) -> Result<Desk, NoMemory> {
    let machine = machine_of(rt, alloc, 8);
    let limits = Limits::new(64, 8, 1_000).expect(rt, "limits");
    mark(rt, alloc);
    let desk = Desk::new(alloc, machine, limits, 2);
    mark(rt, alloc);
    desk
}

/// Accepts two commands, publishes them, and ends the desk.
fn publish_and_end(rt: &(impl Wait + Abort), mut desk: Desk) {
    accept_both(rt, &mut desk);
    publish_as(rt, &mut desk, 2);
    desk.end();
}

#[test]
fn new(rt: HostRuntime) {
    match new_desk(&rt, rt.alloc()) {
        Ok(desk) => publish_and_end(&rt, desk),
        Err(_) => publish_and_end(&rt, desk_for(&rt, rt.alloc(), 2)),
    }
}

/// Accepts a map, with marks round it.
fn accept_marked(rt: &impl Abort, alloc: Global, desk: &mut Desk) -> Result<u64, Refusal> {
    mark(rt, alloc);
    let answer = desk.accept(&map_one());
    mark(rt, alloc);
    answer
}

/// The published version, how many commands are pending, and how many the desk's space has.
fn shown(desk: &Desk) -> (u64, usize, u64) {
    (desk.published(), desk.pending(), desk.space().version())
}

/// Accepts a map, with marks round it, and again where memory was refused.
fn accept_map(rt: &impl Abort, alloc: Global, desk: &mut Desk) {
    let first = accept_marked(rt, alloc, desk);
    if first.is_ok() {
        same(rt, &(first, shown(desk)), &(Ok(1), (0, 1, 1)));
    } else {
        same(
            rt,
            &(first, shown(desk)),
            &(Err(Refusal::NoMemory), (0, 0, 0)),
        );
        same(rt, &desk.accept(&map_one()), &Ok(1));
    }
}

#[test]
fn accept(rt: HostRuntime) {
    let mut desk = desk_for(&rt, rt.alloc(), 2);
    accept_map(&rt, rt.alloc(), &mut desk);
    publish_as(&rt, &mut desk, 1);
    desk.end();
}
