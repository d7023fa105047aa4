//! The machine, the commands and the looks of the tests.
ghost use Rattle.std.specs.Prelude.{◌≡◌, ◌≤◌};

use numa_examples::{flat_machine, spec_of};
use numa_machine::{Machine, PageSize, PlaceRefusal};
use numa_publish::{Desk, PlanReader, Receipt};
use numa_requests::{Command, Limits};
use std::alloc::Global;
use std::fmt::Debug;
use std::process::Abort;
use std::sync::Wait;
use std::sync::atomic::{AtomicU64, Ordering};
use std::thread;

/// What was found is what is expected; else the test ends and prints both.
pub fn same<T: PartialEq + Debug>(rt: &impl Abort, found: &T, wanted: &T) {
    assert_eq!(rt; *found, *wanted);
}

/// Two nodes with `frames` frames each, at distance 20.
pub fn machine_of(rt: &impl Abort, alloc: Global, frames: u32) -> Machine {
    flat_machine(alloc, &[frames, frames]).expect(rt, "a machine")
}

/// The highest limits.
pub fn limits(rt: &impl Abort) -> Limits {
    Limits::new(65_536, 1_024, 4_294_967_295).expect(rt, "limits")
}

/// A desk of two nodes with `frames` frames each, for `readers` readers.
pub fn desk_of(rt: &(impl Wait + Abort), alloc: Global, frames: u32, readers: u32) -> Desk
    requires some { 1 ≤ readers }
    requires few { readers ≤ 64 }
{
    let machine = machine_of(rt, alloc, frames);
    Desk::new(alloc, machine, limits(rt), readers).expect(rt, "memory")
}

/// A desk of two nodes with 8 frames each.
pub fn desk_for(rt: &(impl Wait + Abort), alloc: Global, readers: u32) -> Desk
    requires some { 1 ≤ readers }
    requires few { readers ≤ 64 }
{
    desk_of(rt, alloc, 8, readers)
}

/// Maps `pages` pages from page 0x10 on.
pub fn map_of(pages: u64) -> Command {
    Command::Map {
        start: 0x10000,
        length: pages.wrapping_mul(4_096),
        offset: 0,
        size: PageSize::Small,
    }
}

/// Maps page 0x10.
pub fn map_one() -> Command {
    map_of(1)
}

/// Task 1 prefers a node.
pub fn prefer(rt: &impl Abort, number: u8) -> Command {
    Command::SetTask {
        task: 1,
        spec: spec_of(1, &[number]).expect(rt, "a policy"),
    }
}

/// Accepts a command, which must be the one with this version.
pub fn accept_as(rt: &impl Abort, desk: &mut Desk, command: &Command, version: u64)
    ensures { desk.new.desk ≡ desk.old.desk }
{
    same(rt, &desk.accept(command), &Ok(version));
}

/// Accepts two commands: a map, and `prefer:1` for task 1.
pub fn accept_both(rt: &impl Abort, desk: &mut Desk)
    ensures { desk.new.desk ≡ desk.old.desk }
{
    accept_as(rt, desk, &map_one(), 1);
    accept_as(rt, desk, &prefer(rt, 1), 2);
}

/// Publishes a map of `pages` pages, in version 1.
pub fn publish_map(rt: &(impl Wait + Abort), desk: &mut Desk, pages: u64) -> Receipt
    ensures { result.desk ≡ desk.new.desk }
{
    accept_as(rt, desk, &map_of(pages), 1);
    publish_as(rt, desk, 1)
}

/// A new reader.
pub fn new_reader(rt: &impl Abort, desk: &mut Desk) -> PlanReader
    ensures same { desk.new.desk ≡ desk.old.desk }
    ensures reader { result.desk ≡ desk.new.desk }
{
    desk.reader().expect(rt, "a place")
}

/// Publishes, which must give this version.
pub fn publish_as(rt: &(impl Wait + Abort), desk: &mut Desk, version: u64) -> Receipt
    ensures same { desk.new.desk ≡ desk.old.desk }
    ensures receipt { result.desk ≡ desk.new.desk }
{
    let receipt = desk.publish().expect(rt, "memory");
    same(rt, &receipt.version(), &version);
    receipt
}

/// Binds a page that isn't mapped.
pub fn bind_a_hole(rt: &impl Abort) -> Command {
    Command::Mbind {
        start: 0x20000,
        length: 0x1000,
        spec: spec_of(2, &[1]).expect(rt, "a policy"),
    }
}

/// What a look saw: the version, and the first and the last node of the list of task 1 for page
/// 0x10 on node 0.
pub type Seen = (u64, Result<(u8, u8), PlaceRefusal>);

/// Looks once. None is an `enter` that handed the reader back.
pub fn look(reader: PlanReader) -> (PlanReader, Option<Seen>)
    ensures { result.0.desk ≡ reader.desk }
{
    match reader.enter() {
        Ok(view) => {
            let version = view.version();
            let row = match view.fallback_list(1, 0x10, 0) {
                Ok(row) => Ok((row[0], row[row.len() - 1])),
                Err(refusal) => Err(refusal),
            };
            (view.leave(), Some((version, row)))
        }
        Err(reader) => (reader, None),
    }
}

/// Looks once, and must see this.
pub fn see(rt: &impl Abort, reader: PlanReader, want: Option<Seen>) -> PlanReader
    ensures { result.desk ≡ reader.desk }
{
    let (reader, seen) = look(reader);
    same(rt, &seen, &want);
    reader
}

/// Waits until the number is at least this. Another thread adds to it.
pub fn wait_until<R: Wait>(rt: &R, number: &AtomicU64, least: u64) {
    for _ in rt.forever() {
        if number.load(Ordering::SeqCst) >= least {
            return;
        }
        thread::yield_now();
    }
}
