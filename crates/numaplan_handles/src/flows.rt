//! What went where in the last move of a process, or of all processes of a host.
ghost use Rattle.std.specs.Prelude.{◌≡◌, ◌==◌, ◌++◌, ◌<◌, ℕ, IfOk, IsSomeAnd, MatchOption, None};
ghost use Rattle.std.specs.Prelude.{Ok, Option, Some, if◌then◌else◌, slice_index};
ghost use Rattle.numa_host_pages.specs.Homes.{HostLying};
ghost use Rattle.numa_host_pages.specs.Standing.{HostLies};
ghost use Rattle.numa_host_pages.specs.Summed.{both_pages, flow_told, sent_last, sum_in};
ghost use Rattle.numa_huge.specs.Moves.{HugeMemory};
ghost use Rattle.numa_huge.specs.Tallies.{HasTold, left_of, moved_of};
ghost use Rattle.numa_page_state.specs.Lying.{LastMove, Told};
ghost use Rattle.numa_page_state.specs.Sending.{flow_between};
ghost use Rattle.numa_page_state.specs.Standing.{LastAs, TellsOf};
ghost use Rattle.numa_placed.specs.Spots.{spot_at};
ghost use Rattle.numaplan_handles.specs.Hosted.{TellsSent, all_flows, flow_at, flows_from};
ghost use Rattle.numaplan_handles.specs.Hosted.{sent_with};

use numa_host_pages::HostPages;
use numa_huge::HugeLast;
use numa_machine::NoMemory;
use numa_page_state::between::flow_from;
use numa_page_state::{Departures, Last, Shift};
use numa_placed::Moved;
use std::alloc::Global;

/// Pages that went from one node to another.
#[repr(C)]
#[derive(Clone, Copy)]
pub struct Flow {
    /// The number of pages.
    pub pages: u64,
    /// The node on which they lay.
    pub from: u8,
    /// The node on which they came to lie.
    pub to: u8,
}

const _: () = prove!(size_of::<Flow>() == 16);

/// A move: how many pages went and from where to where, and how many had to and stayed.
#[derive(Drop)]
pub struct LastFlows {
    /// From which node how many pages went to which, in ascending order of both.
    pub flows: Vec<Flow>,
    /// How many pages went to another node.
    pub moved: u64,
    /// How many had to go and stayed.
    pub left: u64,
}

/// Adds pages that went from one node to another, if some did.
fn add_flow(flows: &mut Vec<Flow>, from: u8, to: u8, pages: u64) -> Result<(), NoMemory>
    ensures { IfOk result (λ done. flows.new.items ≡ flows.old.items ++ flow_at from to pages) }
{
    if pages == 0 {
        return Ok(());
    }
    match flows.push(Flow { pages, from, to }) {
        Ok(()) => Ok(()),
        Err(_) => Err(NoMemory),
    }
}

/// Adds where the pages of a node went.
fn add_from(flows: &mut Vec<Flow>, from: u8, went: &[u64; 256]) -> Result<(), NoMemory>
    ensures { IfOk result (λ done. flows.new.items
        ≡ flows.old.items ++ flows_from from (slice_index went.now)) }
{
    for to in 0..256usize {
        let Ok(()) = add_flow(flows, from, to as u8, went[to]) else {
            return Err(NoMemory);
        };
    }
    Ok(())
}

/// How many pages of a node went to each, where all go to one.
fn to_one(pages: u64, to: u8) -> [u64; 256]
    ensures { (k : ℕ) → k < 256
        → slice_index result k ≡ (if to == k then pages else 0) }
{
    let mut went = [0; 256];
    went[to as usize] = pages;
    went
}

/// Adds what went where in a move of pages by their nodes.
fn add_moved(flows: &mut Vec<Flow>, moved: &Moved) -> Result<(), NoMemory>
    ensures { (told : Told) → TellsOf moved.now told → IfOk result
        (λ done. flows.new.items ≡ flows.old.items ++ all_flows (flow_told told)) }
{
    for from in 0..256usize {
        let Ok(()) = add_from(flows, from as u8, &to_one(moved.from[from], moved.to[from])) else {
            return Err(NoMemory);
        };
    }
    Ok(())
}

/// Adds what went where by a policy.
fn add_departed(flows: &mut Vec<Flow>, gone: &Departures) -> Result<(), NoMemory>
    ensures { IfOk result (λ done. flows.new.items ≡ flows.old.items
        ++ all_flows (flow_between (spot_at gone.now.before) (spot_at gone.now.after))) }
{
    for from in 0..256usize {
        let Ok(()) = add_from(
            flows,
            from as u8,
            &flow_from(&gone.before, &gone.after, from as u8),
        ) else {
            return Err(NoMemory);
        };
    }
    Ok(())
}

/// Adds what went where in the last move of a host.
fn add_sums(flows: &mut Vec<Flow>, pages: &HostPages) -> Result<(), NoMemory>
    ensures { (at : HostLying) → HostLies pages.now at → IfOk result
        (λ done. flows.new.items ≡ flows.old.items ++ all_flows (sum_in at).flow) }
{
    for from in 0..256usize {
        let Ok(()) = add_from(flows, from as u8, &pages.flow_from(from as u8)) else {
            return Err(NoMemory);
        };
    }
    Ok(())
}

/// A move with its flows, once these were added.
fn with_flows(
    flows: Vec<Flow>,
    added: Result<(), NoMemory>,
    moved: u64,
    left: u64,
) -> Result<LastFlows, NoMemory>
    ensures { IfOk result (λ told. (added ≡ Ok tt) × (told.flows.items ≡ flows.items)
        × (told.moved ≡ moved) × (told.left ≡ left)) }
{
    match added {
        Ok(()) => Ok(LastFlows { flows, moved, left }),
        Err(lack) => {
            drop(flows);
            Err(lack)
        }
    }
}

/// What the last move of a process did to its pages of 4 KiB.
fn small_flows(alloc: Global, last: &Last) -> Result<LastFlows, NoMemory>
    ensures { (done : LastMove) → LastAs last.now done
        → IfOk result (TellsSent (sent_last done)) }
{
    let mut flows = Vec::new(alloc);
    match last {
        Last::Nodes(moved) => {
            let added = add_moved(&mut flows, moved);
            with_flows(flows, added, moved.moved, moved.left)
        }
        Last::Pages(gone) => {
            let added = add_departed(&mut flows, gone);
            with_flows(flows, added, gone.moved, gone.left)
        }
    }
}

// ---- with pages of 2 MiB

/// The pages of two lists by node, at most 2^64 - 1 each.
pub(crate) fn both_rows(one: [u64; 256], other: &[u64; 256]) -> [u64; 256]
    ensures { (node : ℕ) → node < 256 → slice_index result node
        ≡ both_pages (slice_index one node) (slice_index other.now node) }
{
    let mut sum = one;
    for node in 0..256usize {
        sum[node] = sum[node].saturating_add(other[node]);
    }
    sum
}

/// How many pages of 4 KiB went from a node to each.
fn small_row(last: &Last, from: u8) -> [u64; 256]
    ensures { (done : LastMove) → LastAs last.now done → (to : ℕ) → to < 256
        → slice_index result to ≡ (sent_last done).flow from to }
{
    match last {
        Last::Nodes(moved) => to_one(moved.from[from as usize], moved.to[from as usize]),
        Last::Pages(gone) => flow_from(&gone.before, &gone.after, from),
    }
}

/// Adds what went where in a move of pages of both sizes.
fn add_both(flows: &mut Vec<Flow>, last: &Last, huge: &HugeLast) -> Result<(), NoMemory>
    ensures { (done : LastMove) (memory : HugeMemory) → LastAs last.now done
        → HasTold huge.now memory.told → IfOk result (λ it. flows.new.items
        ≡ flows.old.items ++ all_flows (sent_with (Some memory) (sent_last done)).flow) }
{
    for from in 0..256usize {
        let row = both_rows(small_row(last, from as u8), &huge.flow_from(from as u8));
        let Ok(()) = add_from(flows, from as u8, &row) else {
            return Err(NoMemory);
        };
    }
    Ok(())
}

/// How many pages of both sizes a move took along, and left, by those of 4 KiB; at most 2^64 - 1
/// each.
fn shift_with(moved: u64, left: u64, huge: &HugeLast) -> Shift
    ensures moved { result.moved ≡ both_pages moved (moved_of huge.now) }
    ensures left { result.left ≡ both_pages left (left_of huge.now) }
{
    Shift {
        moved: moved.saturating_add(huge.moved()),
        left: left.saturating_add(huge.left()),
    }
}

/// The same of a move.
fn both_shifts(last: &Last, huge: &HugeLast) -> Shift
    ensures { (done : LastMove) → LastAs last.now done
        → (result.moved ≡ both_pages (sent_last done).moved (moved_of huge.now))
        × (result.left ≡ both_pages (sent_last done).left (left_of huge.now)) }
{
    match last {
        Last::Nodes(moved) => shift_with(moved.moved, moved.left, huge),
        Last::Pages(gone) => shift_with(gone.moved, gone.left, huge),
    }
}

/// What a move of pages of both sizes did.
fn both_flows(alloc: Global, last: &Last, huge: &HugeLast) -> Result<LastFlows, NoMemory>
    ensures { (done : LastMove) (memory : HugeMemory) → LastAs last.now done
        → HasTold huge.now memory.told
        → IfOk result (TellsSent (sent_with (Some memory) (sent_last done))) }
{
    let mut flows = Vec::new(alloc);
    let sum = both_shifts(last, huge);
    let added = add_both(&mut flows, last, huge);
    with_flows(flows, added, sum.moved, sum.left)
}

/// What the last move of a process did to pages of 4 KiB, and to those of 2 MiB, if it has any.
///
/// # Errors
/// `NoMemory`: out of memory.
pub(crate) fn flows_of(
    alloc: Global,
    last: &Last,
    huge: Option<&HugeLast>,
) -> Result<LastFlows, NoMemory>
    ensures { (done : LastMove) (memory : Option HugeMemory) → LastAs last.now done
        → MatchOption huge.entry (memory ≡ None)
        (λ it. IsSomeAnd memory (λ memory. HasTold it.now memory.told))
        → IfOk result (TellsSent (sent_with memory (sent_last done))) }
{
    match huge {
        Some(huge) => both_flows(alloc, last, huge),
        None => small_flows(alloc, last),
    }
}

/// What the last move of a host did, all its processes together.
///
/// # Errors
/// `NoMemory`: out of memory.
pub(crate) fn sums_of(alloc: Global, pages: &HostPages) -> Result<LastFlows, NoMemory>
    ensures { (at : HostLying) → HostLies pages.now at
        → IfOk result (TellsSent (sum_in at)) }
{
    let mut flows = Vec::new(alloc);
    let all = pages.last();
    let added = add_sums(&mut flows, pages);
    with_flows(flows, added, all.moved, all.left)
}
