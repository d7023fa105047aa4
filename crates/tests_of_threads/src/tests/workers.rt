//! A worker whose desk ends.
use crate::tests::one_frame::{desk, on, placed};
use crate::tests::placing::Placing;
use crate::tests::setting::same;
use numa_fault::{FaultRefusal, SpanRefusal};
use std::alloc::Global;
use std::process::Abort;

/// A span of one page, of which nothing is seen any more.
fn see_nothing(rt: &impl Abort, alloc: Global, placing: &mut Placing) {
    let mut out = Vec::new(alloc);
    let span = placing.span(alloc, 0, 16, 1, &mut out);
    same(rt, &(span, out.len()), &(Err(SpanRefusal::NoView), 0));
    assert!(rt; placing.owns(&placed(16, 0, 0)));
}

#[test]
fn after_the_end(rt: HostRuntime) {
    let mut desk = desk(&rt, rt.alloc());
    let mut placing = Placing::open(&rt, rt.alloc(), &mut desk);
    placing.serve(&rt, on(16), Ok(placed(16, 0, 0)));
    desk.end();
    placing.serve(&rt, on(17), Err(FaultRefusal::NoView));
    see_nothing(&rt, rt.alloc(), &mut placing);
    same(&rt, &placing.close(), &(1, 0, true));
}
