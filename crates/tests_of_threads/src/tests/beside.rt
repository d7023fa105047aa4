//! Looks beside a thread that submits.
ghost use Rattle.std.specs.Prelude.{◌≡◌};

use crate::tests::setting::{Seen, desk_for, look, map_one, prefer, same, see, wait_until};
use numa_machine::PlaceRefusal;
use numa_publish::{Desk, DeskName, PlanReader, SharedDesk};
use numa_requests::Command;
use std::marker::Brand;
use std::process::Abort;
use std::sync::Wait;
use std::sync::atomic::{AtomicU64, Ordering};
use std::thread::{Threads, join};

/// How many commands are submitted.
const SUBMITS: u64 = 100;

/// How many looks there are at least.
const LOOKS: u64 = 1_000;

/// What the two threads tell each other: how many looks have ended, and that the last submit
/// returned.
#[derive(Drop)]
struct Progress {
    looks: AtomicU64,
    done: AtomicU64,
}

/// Whether the submitting thread waits at this version until a look saw it: at the first three, and
/// at each tenth.
fn is_awaited(version: u64) -> bool {
    version <= 3 || version % 10 == 0
}

/// How many versions it waits at: 1, 2, 3, 10, 20 and so on up to 100.
const AWAITED: u64 = 13;

/// Waits until a look that began after this call has ended: the first one that ends may have begun
/// before, so the second.
fn wait_for_a_look(rt: &impl Wait, progress: &Progress) {
    let ended = progress.looks.load(Ordering::SeqCst);
    wait_until(rt, &progress.looks, ended.saturating_add(2));
}

/// The command of this turn: the map, then `prefer:0` and `prefer:1` in turn.
fn command_of(rt: &impl Abort, turn: u64) -> Command {
    if turn == 0 {
        return map_one();
    }
    prefer(rt, if turn % 2 == 1 { 0 } else { 1 })
}

/// Submits the commands of all turns, and waits for a look at each version that is awaited. The
/// last version.
fn submit_all<K: DeskName>(
    rt: &(impl Wait + Abort),
    desk: &SharedDesk<K>,
    progress: &Progress,
) -> u64 {
    let mut last = 0;
    for turn in 0..SUBMITS {
        if let Ok(receipt) = desk.submit(rt, &command_of(rt, turn)) {
            last = receipt.version();
        }
        if is_awaited(last) {
            wait_for_a_look(rt, progress);
        }
    }
    progress.done.store(1, Ordering::SeqCst);
    last
}

/// What the looks of one reader were: how many wrong ones, no entry among them, how many different
/// versions, and the newest.
#[derive(Clone, Copy, Drop)]
struct LookCounts {
    wrong: u64,
    versions: u64,
    newest: u64,
}

/// What is seen of a version: version 0 maps nothing; version 1 and the even ones prefer node 0 or
/// nothing, the odd ones node 1.
fn meant(version: u64) -> Result<(u8, u8), PlaceRefusal> {
    if version == 0 {
        return Err(PlaceRefusal::Unmapped);
    }
    let first = if version == 1 || version % 2 == 0 {
        0
    } else {
        1
    };
    Ok((first, 1 - first))
}

impl LookCounts {
    /// Whether a look saw what its version means, and none before what was seen.
    fn is_right(&self, seen: Seen) -> bool {
        let (version, row) = seen;
        version >= self.newest && row == meant(version)
    }

    /// With one look more.
    fn and(self, seen: Option<Seen>) -> LookCounts {
        let Some(seen) = seen else {
            return LookCounts {
                wrong: self.wrong.saturating_add(1),
                ..self
            };
        };
        let wrong = if self.is_right(seen) { 0 } else { 1 };
        let new = if self.versions == 0 || seen.0 != self.newest {
            1
        } else {
            0
        };
        LookCounts {
            wrong: self.wrong.saturating_add(wrong),
            versions: self.versions.saturating_add(new),
            newest: seen.0,
        }
    }
}

/// Looks until the last submit has returned, and at least `LOOKS` times.
fn look_on(reader: PlanReader, progress: &Progress) -> (PlanReader, LookCounts) {
    let mut held = reader;
    let mut counts = LookCounts {
        wrong: 0,
        versions: 0,
        newest: 0,
    };
    for looks in 0..u64::MAX {
        if looks >= LOOKS && progress.done.load(Ordering::SeqCst) == 1 {
            break;
        }
        let (back, seen) = look(held);
        held = back;
        counts = counts.and(seen);
        progress.looks.fetch_add(1, Ordering::SeqCst);
    }
    (held, counts)
}

/// Looks beside the submits: the last version, and what the looks were. The reader has learnt
/// nothing, and sees each version that is awaited.
fn look_beside<K: DeskName + Send + Sync>(
    rt: &(impl Threads + Wait + Abort + Sync),
    lock: &SharedDesk<K>,
    reader: PlanReader,
) -> (u64, LookCounts) {
    let progress = Progress {
        looks: AtomicU64::new(0),
        done: AtomicU64::new(0),
    };
    let told = &progress;
    let ((reader, counts), last) = join(
        rt,
        move || look_on(reader, told),
        move || submit_all(rt, lock, told),
    );
    see(rt, reader, Some((SUBMITS, Ok((0, 1)))));
    (last, counts)
}

/// The same on a desk that is shared.
fn run<K: DeskName + Send + Sync>(rt: &(impl Threads + Wait + Abort + Sync), desk: Desk)
    requires desk { desk.desk ≡ K.desk }
    requires bounds { desk.bounds ≡ K.bounds }
{
    let shared = SharedDesk::<K>::new(desk);
    let reader = shared.reader(rt).expect(rt, "a place");
    let (last, counts) = look_beside(rt, &shared, reader);
    shared.into_desk().end();
    judge(rt, last, counts);
}

/// Looks at how it went.
fn judge(rt: &impl Abort, last: u64, counts: LookCounts) {
    same(rt, &(last, counts.wrong), &(SUBMITS, 0));
    assert!(rt;
        counts.versions >= AWAITED,
        "saw {} versions",
        counts.versions
    );
}

#[test]
fn a_second_thread(rt: HostRuntime) {
    let desk = desk_for(&rt, rt.alloc(), 2);
    run::<Brand>(&rt, desk);
}
