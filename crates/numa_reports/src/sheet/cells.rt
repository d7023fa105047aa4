//! The cells of a picture: the node of each of the first pages of each range.

ghost use Rattle.std.specs.Prelude.{◌+◌, ◌<◌, ◌^◌, IfErr};
ghost use Rattle.numa_plan.specs.Meaning.{RefusesSpan};
ghost use Rattle.numa_reports.specs.Failing.{FailsForNode};

use crate::absent::fill_there;
use crate::fault::ReportError;
use crate::filling::fill_few;
use crate::request::PredictionRequest;
use numa_machine::PlaceRefusal;
use numa_placed::{Placed, period_in};
use numa_ranges::Run;
use numa_sheets::{Touch, Written};
use numa_space::RangeRecord;
use std::alloc::Global;

/// The most pages of a range that have a cell.
pub(crate) const CELLS: usize = 64;

/// Puts the nodes of pages that are there in place of those to which they would go.
fn put_there(placed: &Placed, first: u64, nodes: &mut [u8]) {
    for k in 0..nodes.len() {
        if let Some(node) = placed.at(first.saturating_add(k as u64)).node() {
            nodes[k] = node;
        }
    }
}

/// Writes the nodes of the first [`CELLS`] pages of a range; places past its last page are 0, and
/// so are those of pages that find no free page. If free pages are counted, each page takes one.
fn put_cells(
    asked: PredictionRequest<'_>,
    range: &Run<RangeRecord>,
    free: &mut Option<[u64; 256]>,
    cells: &mut Written,
) -> Result<(), PlaceRefusal>
    requires { range.now.first + range.now.pages < 2 ^ 64 }
    ensures { IfErr result (RefusesSpan asked.entry.plan.now range.now.first range.now.pages
        asked.entry.touch.cpu) }
{
    let mut nodes = [0u8; CELLS];
    let pages = range.pages.min(CELLS as u64);
    let behind = range.first + pages;
    let Touch { task, cpu } = asked.touch;
    match free {
        Some(free) => {
            fill_few(asked, range.first, &mut nodes[..pages as usize], free)?;
            let policy = asked.space.policy_at(task, range.first);
            let period = period_in(asked.space, &policy, range.index, range.pages);
            let rest = range.pages - pages;
            fill_there(asked, behind, rest, period, free)?;
        }
        None => asked
            .plan
            .fill(task, range.first, cpu, &mut nodes[..pages as usize])?,
    }
    if let Some(placed) = asked.placed {
        put_there(placed, range.first, &mut nodes[..pages as usize]);
    }
    cells.put(&nodes);
    Ok(())
}

/// The nodes of the first pages of each range, as [`put_cells`] writes them, with these free pages,
/// if they are counted.
pub(crate) fn first_cells(
    alloc: Global,
    asked: PredictionRequest<'_>,
    free: Option<[u64; 256]>,
) -> Result<Vec<u8>, ReportError>
    ensures err { FailsForNode asked.entry.space.now asked.entry.plan.now
        asked.entry.touch.cpu result }
{
    let mut left = free;
    let mut cells = Written::new(alloc);
    for range in asked.space.range_iter() {
        put_cells(asked, &range, &mut left, &mut cells)?;
    }
    Ok(cells.take()?)
}
