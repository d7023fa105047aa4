//! Calls of which one growth is refused. The program `tests/refused-growths/run-built` plays each
//! of these tests once for every growth between its two marks, under a library that refuses that
//! one; run by itself, none is refused.
ghost use Rattle.std.specs.Prelude.{◌≡◌};

use crate::tests::setting::{
    Seen, accept_both, bind_a_hole, desk_for, look, new_reader, prefer, same,
};
use numa_machine::PlaceRefusal;
use numa_publish::{Desk, DeskName, SharedDesk, SubmitRefusal};
use numa_requests::{Command, Refusal};
use std::alloc::Global;
use std::marker::Brand;
use std::process::Abort;
use std::sync::Wait;

/// What lies between two marks is what growths are refused of.
pub fn mark(rt: &impl Abort, alloc: Global) {
    assert!(rt; numa_examples::mark(alloc));
}

/// A desk with two commands pending: a map, and `prefer:1` for task 1.
fn desk_with_pending(rt: &(impl Wait + Abort), alloc: Global) -> Desk {
    let mut desk = desk_for(rt, alloc, 2);
    accept_both(rt, &mut desk);
    desk
}

/// What a new reader sees.
fn seen_on(rt: &impl Abort, desk: &mut Desk) -> Option<Seen> {
    let (_reader, seen) = look(new_reader(rt, desk));
    seen
}

/// The published version, how many commands are pending, and what a new reader sees.
type Shown = (u64, usize, Option<Seen>);

/// What a desk shows.
fn shown_by(rt: &impl Abort, desk: &mut Desk) -> Shown {
    let seen = seen_on(rt, desk);
    (desk.published(), desk.pending(), seen)
}

/// The version of a publish with memory, which ends the desk, and what a new reader sees of it.
fn last(rt: &(impl Wait + Abort), mut desk: Desk) -> (Option<u64>, Option<Seen>) {
    let later = desk.publish().ok().map(|receipt| receipt.version());
    let newest = seen_on(rt, &mut desk);
    desk.end();
    (later, newest)
}

/// What is shown before anything is published.
const NOTHING: Option<Seen> = Some((0, Err(PlaceRefusal::Unmapped)));

/// What the desk shows after a publish with one growth refused, and at the end.
fn judge(rt: &(impl Wait + Abort), mut desk: Desk, wanted: Shown, all: u64, row: (u8, u8)) {
    let left = shown_by(rt, &mut desk);
    same(rt, &left, &wanted);
    same(rt, &last(rt, desk), &(Some(all), Some((all, Ok(row)))));
}

/// A publish between two marks: its version.
fn published(rt: &(impl Wait + Abort), alloc: Global, desk: &mut Desk) -> Option<u64> {
    mark(rt, alloc);
    let answer = desk.publish();
    mark(rt, alloc);
    match answer {
        Ok(receipt) => Some(receipt.version()),
        Err(_) => None,
    }
}

#[test]
fn publish(rt: HostRuntime) {
    let mut desk = desk_with_pending(&rt, rt.alloc());
    let answer = published(&rt, rt.alloc(), &mut desk);
    let wanted = match answer {
        Some(_) => (2, 0, Some((2, Ok((1, 0))))),
        None => (0, 2, NOTHING),
    };
    same(&rt, &answer.unwrap_or(2), &2);
    judge(&rt, desk, wanted, 2, (1, 0));
}

/// What a submit is answered: its version, or what refuses it.
type Submitted = Result<u64, SubmitRefusal>;

/// Submits a command.
fn version_of<K: DeskName>(rt: &impl Wait, desk: &SharedDesk<K>, command: &Command) -> Submitted {
    match desk.submit(rt, command) {
        Ok(receipt) => Ok(receipt.version()),
        Err(refusal) => Err(refusal),
    }
}

/// Submits `prefer:0` between two marks, and then a command for a page that isn't mapped, to the
/// desk under a lock: both answers, and the desk.
fn submitted<K: DeskName>(
    rt: &(impl Wait + Abort),
    alloc: Global,
    desk: Desk,
) -> (Submitted, Submitted, Desk)
    requires desk { desk.desk ≡ K.desk }
    requires bounds { desk.bounds ≡ K.bounds }
{
    let shared = SharedDesk::<K>::new(desk);
    let (hole, command) = (bind_a_hole(rt), prefer(rt, 0));
    mark(rt, alloc);
    let answer = version_of(rt, &shared, &command);
    mark(rt, alloc);
    let refused = version_of(rt, &shared, &hole);
    (answer, refused, shared.into_desk())
}

/// What the desk shows after this answer, and the version and the list of the last publish.
fn meant(rt: &impl Abort, answer: Submitted) -> (Shown, u64, (u8, u8)) {
    match answer {
        Ok(3) => ((3, 0, Some((3, Ok((0, 1))))), 3, (0, 1)),
        Err(SubmitRefusal::Held(3)) => ((0, 3, NOTHING), 3, (0, 1)),
        _ => {
            same(rt, &answer, &Err(SubmitRefusal::Refused(Refusal::NoMemory)));
            ((0, 2, NOTHING), 2, (1, 0))
        }
    }
}

#[test]
fn submit(rt: HostRuntime) {
    let desk = desk_with_pending(&rt, rt.alloc());
    let (answer, refused, desk) = submitted::<Brand>(&rt, rt.alloc(), desk);
    same(&rt, &refused, &Err(SubmitRefusal::Refused(Refusal::Hole)));
    let (wanted, all, row) = meant(&rt, answer);
    judge(&rt, desk, wanted, all, row);
}
