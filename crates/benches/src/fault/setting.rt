//! The machine, what its desk has published, and the requests of faults.
use numa_examples::{flat_machine, spec_of};
use numa_machine::{Machine, PageSize};
use numa_publish::Desk;
use numa_requests::{Command, Limits, Request};
use std::alloc::Global;

/// How many pages are mapped, from the first one on.
const PAGES: u64 = 65_536;

/// The first of them.
pub const FIRST: u64 = 65_536;

/// A machine of 16 nodes with 4,096 frames each, 20 apart.
pub fn machine_of(alloc: Global) -> Option<Machine> {
    flat_machine(alloc, &[4_096; 16])
}

/// Accepts the pages, and that task 1 has four nodes in turn.
fn accept_all(desk: &mut Desk) {
    let _ = desk.accept(&Command::Map {
        start: FIRST * 4_096,
        length: PAGES * 4_096,
        offset: 0,
        size: PageSize::Small,
    });
    if let Some(spec) = spec_of(3, &[0, 1, 2, 3]) {
        let _ = desk.accept(&Command::SetTask { task: 1, spec });
    }
}

/// A desk of that machine, which has published that.
pub fn desk_of(alloc: Global) -> Option<Desk> {
    let limits = Limits::new(65_536, 1_024, 4_294_967_295)?;
    let mut desk = Desk::new(alloc, machine_of(alloc)?, limits, 8).ok()?;
    accept_all(&mut desk);
    let _ = desk.publish();
    Some(desk)
}

/// The request of task 1 for the page at this place, cyclically.
pub fn request_of(place: u64) -> Request {
    Request {
        task: 1,
        page: FIRST + place % PAGES,
        cpu: 0,
    }
}
