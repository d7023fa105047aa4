//! Spans of which one growth is refused, as in `refused`; and calls that want no memory.
use crate::tests::one_frame::{desk, on, placed};
use crate::tests::placing::Placing;
use crate::tests::refused::mark;
use crate::tests::setting::same;
use numa_fault::SpanRefusal;
use numa_requests::Placement;
use std::alloc::Global;
use std::process::Abort;
use std::sync::Wait;

/// A span of three pages, of which two have frames: its answer, and whether both were placed.
type Asked = (Result<u64, SpanRefusal>, bool, bool);

/// Asks for it.
fn ask(alloc: Global, placing: &mut Placing, out: &mut Vec<Placement>) -> Asked {
    let answer = placing.span(alloc, 0, 16, 3, out);
    (
        answer,
        placing.owns(&placed(16, 0, 0)),
        placing.owns(&placed(17, 1, 1)),
    )
}

/// Asks with one growth refused.
fn ask_refused(
    rt: &impl Abort,
    alloc: Global,
    placing: &mut Placing,
    out: &mut Vec<Placement>,
) -> Asked {
    mark(rt, alloc);
    let asked = ask(alloc, placing, out);
    mark(rt, alloc);
    asked
}

/// Asks with one growth refused, and again if it was.
fn ask_till_answered(
    rt: &impl Abort,
    alloc: Global,
    placing: &mut Placing,
    out: &mut Vec<Placement>,
) {
    let mut asked = ask_refused(rt, alloc, placing, out);
    if asked == (Err(SpanRefusal::NoMemory), false, false) {
        same(rt, &out.as_slice(), &[placed(99, 1, 7)].as_slice());
        asked = ask(alloc, placing, out);
    }
    same(rt, &asked, &(Err(SpanRefusal::Exhausted(1, 2)), true, true));
}

/// A list with one placement, and no room for more.
fn with_one(rt: &impl Abort, alloc: Global) -> Vec<Placement> {
    let mut out = Vec::with_capacity(alloc, 1).expect(rt, "memory");
    out.push(placed(99, 1, 7)).expect(rt, "room");
    out
}

/// A span with a page that isn't mapped, and a page that is given up again, with no growth granted.
fn ask_without_memory(
    rt: &impl Abort,
    alloc: Global,
    placing: &mut Placing,
    out: &mut Vec<Placement>,
) {
    mark(rt, alloc);
    let span = placing.span(alloc, 0, 16, 4, out);
    let page = placing.fault(on(16));
    placing.release(placed(16, 0, 0));
    mark(rt, alloc);
    same(rt, &span, &Err(SpanRefusal::Unmapped(1)));
    same(rt, &page, &Ok(placed(16, 0, 0)));
}

/// Which of the two is asked for.
#[derive(Clone, Copy)]
enum Way {
    ThreePages,
    WithoutMemory,
}

/// What is in the list afterwards, and whether the worker has the frame of page 16.
fn asked(rt: &(impl Wait + Abort), alloc: Global, way: Way) -> (Vec<Placement>, bool) {
    let mut desk = desk(rt, alloc);
    let mut placing = Placing::open(rt, alloc, &mut desk);
    let mut out = with_one(rt, alloc);
    match way {
        Way::ThreePages => ask_till_answered(rt, alloc, &mut placing, &mut out),
        Way::WithoutMemory => ask_without_memory(rt, alloc, &mut placing, &mut out),
    }
    let owned = placing.owns(&placed(16, 0, 0));
    desk.end();
    drop(placing);
    (out, owned)
}

#[test]
fn three_pages(rt: HostRuntime) {
    let (out, owned) = asked(&rt, rt.alloc(), Way::ThreePages);
    let all = [placed(99, 1, 7), placed(16, 0, 0), placed(17, 1, 1)];
    same(&rt, &(out.as_slice(), owned), &(all.as_slice(), true));
}

#[test]
fn without_memory(rt: HostRuntime) {
    let (out, owned) = asked(&rt, rt.alloc(), Way::WithoutMemory);
    let all = [placed(99, 1, 7)];
    same(&rt, &(out.as_slice(), owned), &(all.as_slice(), false));
}
