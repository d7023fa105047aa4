//! The nodes of the pages of ranges, cycle by cycle, as JSON.

use crate::fault::ReportError;
use crate::sheet::fields::bytes;
use crate::sheet::largest::Largest;
use numa_machine::PlaceRefusal;
use numa_placed::period_in;
use numa_plan::Plan;
use numa_ranges::Run;
use numa_sheets::{Items, Object, Touch};
use numa_space::{RangeRecord, Space};
use std::alloc::Global;

/// The most pages of a cycle that is told.
const PAGES: usize = 4096;

/// Adds a node, and the number of pages in a row that have it.
fn push_run(items: &mut Items, node: u8, pages: u64) {
    let mut pair = Items::new(items.alloc());
    pair.push_number(u64::from(node));
    pair.push_number(pages);
    items.push_items(pair);
}

/// Adds the nodes of pages, each with the number of pages in a row that have it.
fn push_runs(items: &mut Items, nodes: &[u8]) {
    let Some(first) = nodes.first() else {
        return;
    };
    let mut node = *first;
    let mut pages = 0u64;
    for one in nodes {
        if *one != node {
            push_run(items, node, pages);
            node = *one;
            pages = 0;
        }
        pages = pages.saturating_add(1);
    }
    push_run(items, node, pages);
}

/// The object of a range, whose pages have these nodes in turn.
fn object_of(alloc: Global, first: u64, nodes: &[u8]) -> Object {
    let mut runs = Items::new(alloc);
    push_runs(&mut runs, nodes);
    let mut object = Object::new(alloc);
    object.put_number("start", bytes(first));
    object.put_number("pages", nodes.len() as u64);
    object.put_items("cycle", runs);
    object
}

/// Adds the nodes of a range's pages; nothing if they repeat after too many.
fn push_range(
    space: &Space,
    plan: &Plan,
    touch: Touch,
    range: &Run<RangeRecord>,
    items: &mut Items,
) -> Result<(), PlaceRefusal> {
    let policy = space.policy_at(touch.task, range.first);
    let period = period_in(space, &policy, range.index, range.pages);
    let pages = range.pages.min(period.max(1));
    if pages > PAGES as u64 {
        return Ok(());
    }
    let mut nodes = [0u8; PAGES];
    let own = &mut nodes[..pages as usize];
    plan.fill(touch.task, range.first, touch.cpu, own)?;
    items.push_object(object_of(items.alloc(), range.first, own));
    Ok(())
}

/// The nodes of the pages of each of these ranges, if the task touched them now, as a list of JSON
/// objects; nothing of a range whose pages' nodes repeat after more than 4,096. The plan is one of
/// the space.
///
/// # Errors
/// `Refused`: the machine lacks the faulting node, or the plan isn't one of the space. `Memory`:
/// out of memory.
pub fn cycles_text(
    alloc: Global,
    space: &Space,
    plan: &Plan,
    touch: Touch,
    shown: Largest,
) -> Result<Vec<u8>, ReportError> {
    let mut items = Items::new(alloc);
    let mut shown = shown;
    for range in space.range_iter() {
        if shown.takes(range.pages) {
            push_range(space, plan, touch, &range, &mut items)?;
        }
    }
    let value = items.made()?;
    Ok(value.to_vec(alloc)?)
}
