//! What a trace is replayed over.
use numa_compile::compile;
use numa_lines::RunFault;
use numa_machine::Machine;
use numa_plan::Plan;
use numa_space::Space;
use numa_subjects::{Halt, InGroup};
use numa_traces::{PageSpan, RangeTallies, TraceState, all_frames};
use std::alloc::{AllocError, Global};

/// A space, of which process of a host it is, and its plan.
#[derive(Clone, Copy)]
pub struct Planned<'a> {
    pub space: &'a Space,
    pub member: Option<InGroup>,
    pub plan: &'a Plan,
}

/// The plan of all accepted commands of a space.
///
/// # Errors
/// `Stopped`: out of memory.
pub fn plan_of(alloc: Global, space: &Space) -> Result<Plan, Halt> {
    match compile(alloc, space) {
        Ok(plan) => Ok(plan),
        Err(_) => Err(Halt::Stopped(RunFault::Memory)),
    }
}

/// The room of nodes, or their frames.
pub(crate) fn room_of(
    alloc: Global,
    machine: &Machine,
    room: Option<&[u64]>,
) -> Result<Vec<u64>, AllocError> {
    match room {
        Some(room) => Vec::from_slice(alloc, room),
        None => all_frames(alloc, machine),
    }
}

/// The ranges of a space, the lowest first.
pub(crate) fn spans_of(alloc: Global, space: &Space) -> Result<Vec<PageSpan>, AllocError> {
    let mut spans = Vec::new(alloc);
    for range in space.range_iter() {
        let (first, pages) = (range.first, range.pages);
        spans.push(PageSpan { first, pages })?;
    }
    Ok(spans)
}

/// The first page of each range of a space.
fn firsts_of(alloc: Global, space: &Space) -> Result<Vec<u64>, AllocError> {
    let mut firsts = Vec::new(alloc);
    for range in space.range_iter() {
        firsts.push(range.first)?;
    }
    Ok(firsts)
}

/// No accesses by the ranges of a space, if they are counted.
fn ranges_of(
    alloc: Global,
    space: &Space,
    is_counted: bool,
) -> Result<Option<RangeTallies>, AllocError> {
    if !is_counted {
        return Ok(None);
    }
    let firsts = firsts_of(alloc, space)?;
    Ok(Some(RangeTallies::new(alloc, firsts)))
}

/// What a trace has met before its first line in a space whose nodes have so much room, or so many
/// frames, by range too if that is wanted. Lines that name another process than this one are left
/// out; without one no line may name any.
///
/// # Errors
/// `Stopped`: out of memory.
pub fn state_of(
    alloc: Global,
    space: &Space,
    process: Option<u32>,
    room: Vec<u64>,
    by_range: bool,
) -> Result<TraceState, Halt> {
    match ranges_of(alloc, space, by_range) {
        Ok(ranges) => Ok(TraceState::new(alloc, process, room, ranges)),
        Err(lack) => {
            drop(room);
            Err(Halt::from(lack))
        }
    }
}
