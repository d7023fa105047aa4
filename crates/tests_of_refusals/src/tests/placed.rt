//! Placements that are recorded.
use crate::tests::same::{mark, same};
use numa_machine::Frame;
use numa_maps::{RecordRefusal, Resident};
use numa_requests::Placement;
use std::alloc::Global;
use std::process::Abort;

/// How many pages are placed: enough that the tree which keeps them has several levels.
const PAGES: u64 = 200;

/// The placement of a page: on node 1, in a frame by its number.
fn placed(page: u64) -> Placement {
    Placement {
        version: 3,
        task: 1,
        page,
        node: 1,
        frame: Frame {
            node: 1,
            number: (page % 4096) as u16,
        },
        rank: 0,
    }
}

/// How many of the pages are placed, and how many in their frame.
fn shown(resident: &Resident) -> (u64, u64) {
    let mut count = 0u64;
    let mut right = 0u64;
    for page in 0..PAGES {
        if let Some(found) = resident.at(page) {
            count = count.wrapping_add(1);
            right = right.wrapping_add(u64::from(*found == placed(page)));
        }
    }
    (count, right)
}

/// Records a page, and again if a growth was refused, which changed nothing.
fn record(rt: &impl Abort, resident: &mut Resident, page: u64) {
    let before = shown(resident);
    let Err(refusal) = resident.record(placed(page)) else {
        return;
    };
    same(rt, &shown(resident), &before);
    same(rt, &refusal, &RecordRefusal::NoMemory(placed(page)));
    same(rt, &resident.record(placed(page)), &Ok(()));
}

/// Records all pages between the marks.
fn record_all(rt: &impl Abort, alloc: Global, resident: &mut Resident) {
    mark(rt, alloc);
    for page in 0..PAGES {
        record(rt, resident, page);
    }
    mark(rt, alloc);
}

#[test]
fn pages(rt: HostRuntime) {
    let mut resident = Resident::new(rt.alloc());
    record_all(&rt, rt.alloc(), &mut resident);
    same(&rt, &shown(&resident), &(PAGES, PAGES));
    drop(resident);
}
