//! What the last move of a host did, all its processes together.
ghost use Rattle.std.specs.Prelude.{◌≡◌, ◌==◌, ◌<◌, ◌≤◌, ℕ, List, Option, if◌then◌else◌};
ghost use Rattle.std.specs.Prelude.{slice_index};
ghost use Rattle.numa_page_state.specs.Lying.{LastMove, Lying};
ghost use Rattle.numa_page_state.specs.Standing.{LastAs};
ghost use Rattle.numa_host_pages.specs.Homes.{Home};
ghost use Rattle.numa_host_pages.specs.Standing.{AreHomes, Sits};
ghost use Rattle.numa_host_huge.specs.Sharing.{Sharing, memory_in};
ghost use Rattle.numa_host_huge.specs.Standing.{HugeLies};
ghost use Rattle.numa_host_pages.specs.Summed.{both_pages, huge_sent, huge_sum, most, sent_last};
ghost use Rattle.numa_host_pages.specs.Summed.{sent_of, sum_of};

use crate::member::Member;
use numa_host_huge::HostHuge;
use numa_page_state::between::flow_from;
use numa_page_state::{Last, PageState, Shift};

/// How many pages a move took along, and left.
fn counts_in(last: &Last) -> Shift
    ensures { (done : LastMove) → LastAs last.now done
        → (result.moved ≡ (sent_last done).moved) × (result.left ≡ (sent_last done).left) }
{
    match last {
        Last::Nodes(moved) => Shift {
            moved: moved.moved,
            left: moved.left,
        },
        Last::Pages(gone) => Shift {
            moved: gone.moved,
            left: gone.left,
        },
    }
}

/// How many pages the last move of a process took along, and left: none where it has none.
fn counts_of(pages: &Option<Box<PageState>>) -> Shift
    ensures { (lying : Option Lying) → Sits pages.now lying
        → (result.moved ≡ (sent_of lying).moved) × (result.left ≡ (sent_of lying).left) }
{
    match pages {
        None => Shift { moved: 0, left: 0 },
        Some(state) => counts_in(state.last()),
    }
}

/// How many pages the last move of the host took along, and left.
pub(crate) fn sum_of(members: &[Member]) -> Shift
    ensures { (homes : List Home) → AreHomes members.now homes
        → (result.moved ≡ (sum_of homes).moved) × (result.left ≡ (sum_of homes).left) }
{
    let Some((first, rest)) = members.split_first() else {
        return Shift { moved: 0, left: 0 };
    };
    let others = sum_of(rest);
    if !first.along {
        return others;
    }
    let own = counts_of(&first.pages);
    let moved = own.moved.saturating_add(others.moved);
    let left = own.left.saturating_add(others.left);
    Shift { moved, left }
}

/// Adds pages that went to a node.
fn add_pages(flow: &mut [u64; 256], node: u8, pages: u64)
    requires small { (to : ℕ) → to < 256 → slice_index flow.old to ≤ most }
    ensures { (to : ℕ) → to < 256 → slice_index flow.new to
        ≡ both_pages (if node == to then pages else 0) (slice_index flow.old to) }
{
    let at = node as usize;
    let sum = pages.saturating_add(flow[at]);
    flow[at] = sum;
}

/// Adds pages that went to each node.
pub(crate) fn add_row(flow: &mut [u64; 256], row: &[u64; 256])
    ensures { (to : ℕ) → to < 256 → slice_index flow.new to
        ≡ both_pages (slice_index row.now to) (slice_index flow.old to) }
{
    for node in 0..256usize {
        let sum = row[node].saturating_add(flow[node]);
        flow[node] = sum;
    }
}

/// Adds the pages that a move took from a node to each.
fn add_last(flow: &mut [u64; 256], last: &Last, from: u8)
    requires small { (to : ℕ) → to < 256 → slice_index flow.old to ≤ most }
    ensures sum { (done : LastMove) → LastAs last.now done → (to : ℕ) → to < 256
        → slice_index flow.new to
        ≡ both_pages ((sent_last done).flow from to) (slice_index flow.old to) }
    ensures small { (to : ℕ) → to < 256 → slice_index flow.new to ≤ most }
{
    match last {
        Last::Nodes(moved) => {
            let node = moved.to[from as usize];
            add_pages(flow, node, moved.from[from as usize]);
        }
        Last::Pages(gone) => add_row(flow, &flow_from(&gone.before, &gone.after, from)),
    }
}

/// Adds the pages that the last move of a process took from a node to each.
fn add_own(flow: &mut [u64; 256], pages: &Option<Box<PageState>>, from: u8)
    requires small { (to : ℕ) → to < 256 → slice_index flow.old to ≤ most }
    ensures sum { (lying : Option Lying) → Sits pages.now lying → (to : ℕ) → to < 256
        → slice_index flow.new to
        ≡ both_pages ((sent_of lying).flow from to) (slice_index flow.old to) }
    ensures small { (to : ℕ) → to < 256 → slice_index flow.new to ≤ most }
{
    match pages {
        None => {}
        Some(state) => add_last(flow, state.last(), from),
    }
}

/// Adds the pages that the last move of the host took from a node to each.
pub(crate) fn add_flows(members: &[Member], from: u8, flow: &mut [u64; 256])
    requires none { (to : ℕ) → to < 256 → slice_index flow.old to ≡ 0 }
    ensures sum { (homes : List Home) → AreHomes members.now homes → (to : ℕ) → to < 256
        → slice_index flow.new to ≡ (sum_of homes).flow from to }
    ensures small { (to : ℕ) → to < 256 → slice_index flow.new to ≤ most }
{
    let Some((first, rest)) = members.split_first() else {
        return;
    };
    add_flows(rest, from, flow);
    if !first.along {
        return;
    }
    add_own(flow, &first.pages, from);
}

// ---- pages of 2 MiB

/// Two moves together.
pub(crate) fn both(one: Shift, other: Shift) -> Shift
    ensures moved { result.moved ≡ both_pages one.moved other.moved }
    ensures left { result.left ≡ both_pages one.left other.left }
{
    Shift {
        moved: one.moved.saturating_add(other.moved),
        left: one.left.saturating_add(other.left),
    }
}

/// How many pages of 2 MiB the last move of a process took along, and left.
fn huge_counts(huge: &HostHuge, process: u32) -> Shift
    ensures { (at : Sharing) → HugeLies huge.now at
        → (result.moved ≡ (huge_sent (memory_in process at)).moved)
        × (result.left ≡ (huge_sent (memory_in process at)).left) }
{
    match huge.pages_of(process) {
        Some(kept) => Shift {
            moved: kept.last.moved(),
            left: kept.last.left(),
        },
        None => Shift { moved: 0, left: 0 },
    }
}

/// How many pages of 2 MiB the last move of the host took along, and left.
pub(crate) fn huge_sum(members: &[Member], huge: &HostHuge) -> Shift
    ensures { (homes : List Home) (at : Sharing) → AreHomes members.now homes
        → HugeLies huge.now at → (result.moved ≡ (huge_sum homes at).moved)
        × (result.left ≡ (huge_sum homes at).left) }
{
    let Some((first, rest)) = members.split_first() else {
        return Shift { moved: 0, left: 0 };
    };
    let others = huge_sum(rest, huge);
    if !first.along {
        return others;
    }
    both(huge_counts(huge, first.id), others)
}

/// How many pages of 2 MiB the last move of a process took from a node to each.
fn huge_row(huge: &HostHuge, process: u32, from: u8) -> [u64; 256]
    ensures { (at : Sharing) → HugeLies huge.now at → (to : ℕ) → to < 256
        → slice_index result to ≡ (huge_sent (memory_in process at)).flow from to }
{
    match huge.pages_of(process) {
        Some(kept) => kept.last.flow_from(from),
        None => [0; 256],
    }
}

/// How many pages of 2 MiB the last move of the host took from a node to each.
pub(crate) fn huge_flows(members: &[Member], huge: &HostHuge, from: u8) -> [u64; 256]
    ensures { (homes : List Home) (at : Sharing) → AreHomes members.now homes
        → HugeLies huge.now at → (to : ℕ) → to < 256
        → slice_index result to ≡ (huge_sum homes at).flow from to }
{
    let Some((first, rest)) = members.split_first() else {
        return [0; 256];
    };
    let mut flow = huge_flows(rest, huge, from);
    if !first.along {
        return flow;
    }
    add_row(&mut flow, &huge_row(huge, first.id, from));
    flow
}
