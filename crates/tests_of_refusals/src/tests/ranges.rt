//! Spans of a range map: mapped, given another value, unmapped.
ghost use Rattle.std.specs.Prelude.{◌≡◌, ◌<◌};

use crate::tests::same::{mark, same};
use crate::tests::shown::mixed;
use numa_ranges::{RangeError, RangeMap};
use std::alloc::Global;
use std::process::Abort;

/// How many spans there are: enough that chunks of ranges are cut.
const SPANS: u64 = 160;

/// What is done to the spans, in this order.
#[derive(Clone, Copy)]
enum Step {
    Map,
    Update,
    Unmap,
}

/// How many ranges there are, and what they hold.
fn shown(map: &RangeMap<u32>) -> (usize, u64) {
    let mut sum = 0u64;
    for range in map.iter() {
        sum = mixed(mixed(sum, range.first), range.pages);
        sum = mixed(mixed(sum, range.index), u64::from(range.value));
    }
    (map.len(), sum)
}

/// Gives the second half of a span's pages the value 9.
fn update(map: &mut RangeMap<u32>, first: u64) -> Result<(), RangeError>
    requires { first < 2560 }
{
    let nine = |_: &u32| -> u32
        ensures { result ≡ 9 }
    { 9 };
    map.update_span(first, 4, nine)
}

/// A step for one span of eight pages, 16 pages after the last one.
fn take(map: &mut RangeMap<u32>, step: Step, place: u64) -> Result<(), RangeError>
    requires { place < 160 }
{
    match step {
        Step::Map => map.map_span(place * 16, 8, place, 1),
        Step::Update => update(map, place * 16),
        Step::Unmap => map.unmap_span(place * 16 + 2, 1),
    }
}

/// The same, and again if a growth was refused, which changed nothing.
fn take_twice(rt: &impl Abort, map: &mut RangeMap<u32>, step: Step, place: u64)
    requires { place < 160 }
{
    let before = shown(map);
    let Err(fault) = take(map, step, place) else {
        return;
    };
    same(rt, &(fault, shown(map)), &(RangeError::NoMemory, before));
    same(rt, &take(map, step, place), &Ok(()));
}

/// A step for each span.
fn take_all(rt: &impl Abort, map: &mut RangeMap<u32>, step: Step) {
    for place in 0..SPANS {
        take_twice(rt, map, step, place);
    }
}

/// What a map shows after all steps: with the marks round them where `marked`.
fn filled(rt: &impl Abort, alloc: Global, marked: bool) -> (usize, u64) {
    let mut map = RangeMap::new(alloc, 65_536);
    if marked {
        mark(rt, alloc);
    }
    take_all(rt, &mut map, Step::Map);
    take_all(rt, &mut map, Step::Update);
    take_all(rt, &mut map, Step::Unmap);
    if marked {
        mark(rt, alloc);
    }
    let found = shown(&map);
    drop(map);
    found
}

#[test]
fn spans(rt: HostRuntime) {
    same(
        &rt,
        &filled(&rt, rt.alloc(), true),
        &filled(&rt, rt.alloc(), false),
    );
}
