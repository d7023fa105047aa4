//! The spaces that are compiled.
use crate::many::{bind, eight_nodes, map, policy};
use numa_compile::PlannedSpace;
use numa_requests::{Command, Limits};
use std::alloc::Global;

/// Maps `ranges` ranges, with the policies in turn, and gives a task the first policy.
fn add_ranges(alloc: Global, space: &mut PlannedSpace, ranges: u64) -> Option<()> {
    for number in 0..ranges {
        let _ = space.apply(alloc, &map(number));
        let _ = space.apply(alloc, &bind(number, policy(number)?));
    }
    let spec = policy(0)?;
    let _ = space.apply(alloc, &Command::SetTask { task: 1, spec });
    Some(())
}

/// A space of `ranges` ranges with `POLICIES` distinct policies in turn, and a task with the first
/// of them. Its plan isn't made yet.
pub fn spread(alloc: Global, ranges: u64) -> Option<PlannedSpace> {
    let limits = Limits::new(65_536, 8, 1_000_000)?;
    let mut space = PlannedSpace::new(alloc, eight_nodes(alloc)?, limits);
    let _ = add_ranges(alloc, &mut space, ranges);
    Some(space)
}
