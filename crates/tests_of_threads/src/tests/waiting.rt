//! A publish waits for no view.
ghost use Rattle.std.specs.Prelude.{◌≡◌};

use crate::tests::setting::{desk_for, new_reader, prefer, publish_map, same, wait_until};
use numa_publish::{Desk, PlanReader, Receipt};
use std::process::Abort;
use std::sync::Wait;
use std::sync::atomic::{AtomicU64, Ordering};
use std::thread::{Threads, join};

/// What may go to another thread.
fn sent<T: Send>(value: T) -> T
    ensures { result ≡ value }
{
    value
}

/// What the two threads tell each other: that the view is held, and how many publishes returned
/// beside it.
#[derive(Drop)]
struct Flags {
    held: AtomicU64,
    published: AtomicU64,
}

/// Holds a view of version 1, which the reader has learnt, until two publishes have returned. The
/// version.
fn hold<R: Wait + Abort>(rt: &R, reader: PlanReader, receipt: Receipt, flags: &Flags) -> u64
    requires { receipt.desk ≡ reader.desk }
{
    let reader = reader.learn(&receipt);
    let view = sent(reader.enter().ok().expect(rt, "an entry"));
    flags.held.store(1, Ordering::SeqCst);
    wait_until(rt, &flags.published, 2);
    let version = view.version();
    view.leave();
    version
}

/// Publishes that task 1 prefers a node.
fn publish_one<R: Wait + Abort>(rt: &R, desk: &mut Desk, number: u8, flags: &Flags) {
    let _ = desk.accept(&prefer(rt, number));
    let _ = desk.publish();
    flags.published.fetch_add(1, Ordering::SeqCst);
}

/// Publishes twice beside the view: the version.
fn publish_twice<R: Wait + Abort>(rt: &R, desk: &mut Desk, flags: &Flags) -> u64 {
    wait_until(rt, &flags.held, 1);
    publish_one(rt, desk, 1, flags);
    publish_one(rt, desk, 0, flags);
    desk.published()
}

/// Publishes twice beside a view of the reader, to whose thread a receipt goes: the view's version,
/// and the last one.
fn hold_beside<R: Threads + Wait + Abort + Sync>(
    rt: &R,
    desk: &mut Desk,
    reader: PlanReader,
    receipt: Receipt,
) -> (u64, u64)
    requires { receipt.desk ≡ reader.desk }
{
    let flags = Flags {
        held: AtomicU64::new(0),
        published: AtomicU64::new(0),
    };
    let shared = &flags;
    join(
        rt,
        move || hold(rt, reader, receipt, shared),
        move || publish_twice(rt, desk, shared),
    )
}

#[test]
fn a_view_that_stays_for_two_publishes(rt: HostRuntime) {
    let mut desk = desk_for(&rt, rt.alloc(), 2);
    let receipt = publish_map(&rt, &mut desk, 1);
    let reader = new_reader(&rt, &mut desk);
    let found = hold_beside(&rt, &mut desk, reader, receipt);
    desk.end();
    same(&rt, &found, &(1, 3));
}
