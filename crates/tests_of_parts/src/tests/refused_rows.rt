//! Long lists and a copy, with one growth refused between two marks: what was there stays as it
//! was, and the same call with memory does what it does without a refusal.
//! tests/refused-growths/run-built plays each of these tests once for every growth between its
//! marks; run by itself, none is refused.
ghost use Rattle.std.specs.Prelude.{◌≡◌, length};

use crate::tests::same::same;
use numa_examples::{made, mark};
use numa_rows::SharedRows;
use std::alloc::Global;
use std::process::Abort;

/// The rows from 0 to 2,499, in chunks that a copy shares.
fn counted(rt: &impl Abort, alloc: Global) -> SharedRows<u32> {
    let mut rows = SharedRows::new(alloc);
    for row in 0..2_500u32 {
        rows.push(row).expect(rt, "memory");
    }
    rows
}

/// What row is wanted at a place: the place, unless three rows were put in that of rows 300 and
/// 301.
fn wanted_at(place: u32, is_put_in: bool) -> u32 {
    match place {
        300..=302 if is_put_in => place.wrapping_sub(293),
        303..=2_500 if is_put_in => place.wrapping_sub(1),
        _ => place,
    }
}

/// How many rows there are, and how many stand where they are wanted.
fn found_in(rows: &SharedRows<u32>, is_put_in: bool) -> (usize, u32) {
    let mut place = 0u32;
    let mut right = 0u32;
    for row in rows.iter() {
        right = right.wrapping_add(u32::from(*row == wanted_at(place, is_put_in)));
        place = place.wrapping_add(1);
    }
    (rows.len(), right)
}

/// The rows are those from 0 to 2,499.
fn expect_counted(rt: &impl Abort, rows: &SharedRows<u32>) {
    same(rt, &found_in(rows, false), &(2_500, 2_500));
}

#[test]
fn copy(rt: HostRuntime) {
    let rows = counted(&rt, rt.alloc());
    let copy = made(rt.alloc(), &|| rows.copy().ok()).expect(&rt, "a copy");
    expect_counted(&rt, &rows);
    expect_counted(&rt, &copy);
    drop(copy);
    drop(rows);
}

/// Puts three rows in the place of two, with marks round it, and again where memory was refused.
fn put_in(rt: &impl Abort, alloc: Global, rows: &mut SharedRows<u32>)
    requires { length rows.old ≡ 2500 }
{
    assert!(rt; mark(alloc));
    let first = rows.splice(300, 302, &[7, 8, 9]);
    assert!(rt; mark(alloc));
    if first.is_err() {
        expect_counted(rt, rows);
        rows.splice(300, 302, &[7, 8, 9]).expect(rt, "memory");
    }
}

#[test]
fn splice(rt: HostRuntime) {
    let mut rows = counted(&rt, rt.alloc());
    let copy = rows.copy().expect(&rt, "a copy");
    assert!(rt; rows.len() == 2_500);
    put_in(&rt, rt.alloc(), &mut rows);
    expect_counted(&rt, &copy);
    same(&rt, &found_in(&rows, true), &(2_501, 2_501));
    drop(copy);
    drop(rows);
}
