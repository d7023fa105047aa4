//! Where pages of a host's processes lie, and how many more each node takes, asked of a handle.
ghost use Rattle.std.specs.Prelude.{◌≡◌, ◌<◌, ◌≤◌, ◌^◌, ℕ, IfOk, IfSome, IsSomeAnd, MatchOption};
ghost use Rattle.std.specs.Prelude.{None, Option, slice_index};
ghost use Rattle.numa_host_pages.specs.Homes.{HostLying};
ghost use Rattle.numa_host_pages.specs.Standing.{HostLies};
ghost use Rattle.numa_host_script.specs.Hosts.{Hosting};
ghost use Rattle.numa_host_script.specs.Paging.{memory_at, pages_at};
ghost use Rattle.numa_host_script.specs.Standing.{RunsAs};
ghost use Rattle.numa_huge.specs.Huge.{huge_at};
ghost use Rattle.numa_huge.specs.Moves.{HugeMemory};
ghost use Rattle.numa_huge.specs.Tallies.{HasTold};
ghost use Rattle.numa_page_state.specs.Outcomes.{rooms_of};
ghost use Rattle.numa_pages.specs.Listing.{AreListed};
ghost use Rattle.numa_placed.specs.Spots.{spot_at};
ghost use Rattle.numa_placed.specs.declared.spot.Spot.{Spot};
ghost use Rattle.numa_placed.specs.declared.spot.Spot.TheVariants.{Nowhere};
ghost use Rattle.numaplan_handles.specs.Calls.{Asks};
ghost use Rattle.numaplan_handles.specs.Handles.{host_in};
ghost use Rattle.numaplan_handles.specs.Hosted.{HasRoomLeft, LieAt, LieOn, LieSo, LiesOn};
ghost use Rattle.numaplan_handles.specs.Hosted.{OfLying, OfPagesIn, TellsLast, TellsSum};
ghost use Rattle.numaplan_handles.specs.Hosted.{spots_with};

use crate::flows::{LastFlows, flows_of, sums_of};
use crate::handle::of_kept;
use crate::host_handle::{HostHandle, running_kept};
use crate::nodes_there::{node_there, write_nodes};
use numa_host_pages::HostPages;
use numa_host_script::RunningHost;
use numa_huge::{HugeLast, HugePlaces};
use numa_machine::NoMemory;
use numa_page_state::Last;
use numa_page_state::state::still;
use numa_pages::{PageRun, counts_with, list_runs};
use numa_placed::{Placed, lacks_node};
use numa_requests::PlacedRefusal;
use std::alloc::Global;

/// How many more pages a node takes, of those that a host's nodes take; 2^64 - 1 if it never fills.
fn room_on(pages: &HostPages, node: u8) -> u64
    ensures { (at : HostLying) → HostLies pages.now at → result ≡ rooms_of at.room node }
{
    match pages.rooms() {
        None => u64::MAX,
        Some(it) => it.at(node).unwrap_or(u64::MAX),
    }
}

/// How many more pages a node takes.
///
/// # Errors
/// `NoSuchNode`: the machine lacks the node, or it has no memory.
fn room_left(running: &RunningHost, node: u32) -> Result<u64, PlacedRefusal>
    ensures { (at : Hosting) → RunsAs running.now at → HasRoomLeft node result at }
{
    if lacks_node(running.host.machine(), node) {
        return Err(PlacedRefusal::NoSuchNode);
    }
    Ok(room_on(&running.pages, node as u8))
}

/// Where the pages of 4 KiB of a process lie, once one was touched or stated to lie somewhere.
fn placed_in(running: &RunningHost, process: u32) -> Option<&Placed>
    ensures { (at : Hosting) → RunsAs running.now at → MatchOption result
        ((page : ℕ) → (pages_at at process).spots page ≡ Nowhere)
        (λ it. (page : ℕ) → spot_at it.now page ≡ (pages_at at process).spots page) }
{
    match running.pages_there(process) {
        Some(state) => Some(state.placed()),
        None => None,
    }
}

/// Where those of 2 MiB lie, once it mapped some from the pools.
fn huge_in(running: &RunningHost, process: u32) -> Option<&HugePlaces>
    ensures { (at : Hosting) → RunsAs running.now at → MatchOption result
        (memory_at at process ≡ None) (λ it. IsSomeAnd (memory_at at process)
        (λ memory. huge_at it.now.runs ≡ memory.pages.spots)) }
{
    match running.huge_there(process) {
        Some(kept) => Some(&kept.places),
        None => None,
    }
}

/// The node on which a page of a process lies, if it lies on one.
fn node_in(running: &RunningHost, process: u32, page: u64) -> Option<Option<u8>>
    ensures { (at : Hosting) → RunsAs running.now at
        → OfPagesIn process (LiesOn page) result at }
{
    let Some(_) = running.host.process(process) else {
        return None;
    };
    let placed = placed_in(running, process);
    let huge = huge_in(running, process);
    Some(node_there(placed, huge, page))
}

/// Writes the node on which each of these pages of a process lies, or the mark for one that lies
/// nowhere, if there are as many places as pages; returns how many they are.
fn tell_nodes(
    running: &RunningHost,
    process: u32,
    numbers: &[u64],
    nowhere: u8,
    nodes: &mut [u8],
) -> Option<Result<usize, usize>>
    ensures told { (at : Hosting) → RunsAs running.now at
        → OfPagesIn process (LieAt numbers.now nowhere nodes.old nodes.new) result at }
    ensures none { result ≡ None → nodes.new ≡ nodes.old }
{
    let Some(_) = running.host.process(process) else {
        return None;
    };
    let count = numbers.len();
    if nodes.len() != count {
        return Some(Err(count));
    }
    let placed = placed_in(running, process);
    let huge = huge_in(running, process);
    write_nodes(placed, huge, numbers, nowhere, nodes);
    Some(Ok(count))
}

/// The number of pages of 4 KiB of a process that lie on each node.
fn small_counts(running: &RunningHost, process: u32) -> [u64; 256]
    ensures counts { (at : Hosting) → RunsAs running.now at
        → LieOn (pages_at at process) None result }
    ensures few { (node : ℕ) → node < 256 → slice_index result node ≤ 2 ^ 35 }
{
    match placed_in(running, process) {
        Some(placed) => placed.counts(),
        None => [0; 256],
    }
}

/// The number of pages of a process that lie on each node.
fn counts_in(running: &RunningHost, process: u32) -> Option<[u64; 256]>
    ensures { (at : Hosting) → RunsAs running.now at → OfPagesIn process LieOn result at }
{
    let Some(_) = running.host.process(process) else {
        return None;
    };
    let small = small_counts(running, process);
    match huge_in(running, process) {
        Some(huge) => Some(counts_with(&small, huge)),
        None => Some(small),
    }
}

/// The runs of pages that lie on one node, where none of 4 KiB lies anywhere.
///
/// # Errors
/// `NoMemory`: out of memory.
fn huge_runs(alloc: Global, huge: Option<&HugePlaces>) -> Result<Vec<PageRun>, NoMemory>
    ensures { (memory : Option HugeMemory) (spots : ℕ → Spot)
        → ((page : ℕ) → spots page ≡ Nowhere)
        → MatchOption huge.entry (memory ≡ None) (λ it. IsSomeAnd memory
        (λ memory. huge_at it.now.runs ≡ memory.pages.spots))
        → IfOk result (λ list. AreListed (spots_with memory spots) 0 list.items) }
{
    let Some(huge) = huge else {
        return Ok(Vec::new(alloc));
    };
    let placed = Placed::new(alloc)?;
    let listed = list_runs(alloc, &placed, Some(huge));
    drop(placed);
    match listed {
        Ok(list) => Ok(list),
        Err(_) => Err(NoMemory),
    }
}

/// The runs of pages that lie on one node.
///
/// # Errors
/// `NoMemory`: out of memory.
fn runs_there(
    alloc: Global,
    placed: Option<&Placed>,
    huge: Option<&HugePlaces>,
) -> Result<Vec<PageRun>, NoMemory>
    ensures { (memory : Option HugeMemory) (spots : ℕ → Spot)
        → MatchOption placed.entry ((p : ℕ) → spots p ≡ Nowhere)
        (λ it. (p : ℕ) → spot_at it.now p ≡ spots p)
        → MatchOption huge.entry (memory ≡ None) (λ it. IsSomeAnd memory
        (λ memory. huge_at it.now.runs ≡ memory.pages.spots))
        → IfOk result (λ list. AreListed (spots_with memory spots) 0 list.items) }
{
    let Some(placed) = placed else {
        return huge_runs(alloc, huge);
    };
    match list_runs(alloc, placed, huge) {
        Ok(list) => Ok(list),
        Err(_) => Err(NoMemory),
    }
}

/// The runs of pages of a process that lie on one node.
fn runs_in(
    running: &RunningHost,
    alloc: Global,
    process: u32,
) -> Option<Result<Vec<PageRun>, NoMemory>>
    ensures { (at : Hosting) → RunsAs running.now at → OfPagesIn process
        (λ lying memory answer. IfOk answer (λ list. LieSo lying memory list.items)) result at }
{
    let Some(_) = running.host.process(process) else {
        return None;
    };
    let placed = placed_in(running, process);
    let huge = huge_in(running, process);
    Some(runs_there(alloc, placed, huge))
}

/// What the last move did to the pages of 2 MiB of a process, once it mapped some from the pools.
fn last_huge(running: &RunningHost, process: u32) -> Option<&HugeLast>
    ensures { (at : Hosting) → RunsAs running.now at → MatchOption result
        (memory_at at process ≡ None) (λ it. IsSomeAnd (memory_at at process)
        (λ memory. HasTold it.now memory.told)) }
{
    match running.huge_there(process) {
        Some(kept) => Some(&kept.last),
        None => None,
    }
}

/// What the last move of a process did.
fn last_in(
    running: &RunningHost,
    alloc: Global,
    process: u32,
) -> Option<Result<LastFlows, NoMemory>>
    ensures { (at : Hosting) → RunsAs running.now at → OfPagesIn process
        (λ lying memory answer. IfOk answer (TellsLast lying memory)) result at }
{
    let Some(_) = running.host.process(process) else {
        return None;
    };
    let huge = last_huge(running, process);
    match running.pages_there(process) {
        Some(state) => Some(flows_of(alloc, state.last(), huge)),
        None => Some(flows_of(alloc, &Last::Nodes(still()), huge)),
    }
}

/// What the last move of the host did, all its processes together.
fn last_of_all(running: &RunningHost, alloc: Global) -> Result<LastFlows, NoMemory>
    ensures { (at : Hosting) → RunsAs running.now at
        → IfOk result (λ told. TellsSum told at) }
{
    sums_of(alloc, &running.pages)
}

impl HostHandle {
    /// How many more pages a node takes, whichever process they are of; 2^64 - 1 if it never fills.
    /// `None` if the handle is closed.
    ///
    /// # Errors
    /// In the `Some`, `NoSuchNode`: the machine lacks the node, or it has no memory.
    pub fn room(&mut self, alloc: Global, node: u32) -> Option<Result<u64, PlacedRefusal>>
        ensures { Asks (λ answer. OfLying (host_in self.old) (HasRoomLeft node answer))
            (host_in self.old) result (host_in self.new) }
    {
        of_kept!(self.handle, alloc, kept => room_left(running_kept(&kept), node))
    }

    /// The node on which a page of a process lies, if it lies on one; no answer if the process
    /// isn't there. `None` if the handle is closed.
    pub fn node_at(&mut self, alloc: Global, process: u32, page: u64) -> Option<Option<Option<u8>>>
        ensures { Asks (λ answer. OfLying (host_in self.old)
            (OfPagesIn process (LiesOn page) answer)) (host_in self.old) result
            (host_in self.new) }
    {
        of_kept!(self.handle, alloc, kept => node_in(running_kept(&kept), process, page))
    }

    /// Writes the node on which each of these pages of a process lies, and the mark `nowhere` for
    /// those that lie nowhere; returns how many they are. No answer if the process isn't there.
    /// `None` if the handle is closed.
    ///
    /// # Errors
    /// How many places there have to be: there aren't as many as pages. Then nothing has been
    /// written.
    pub fn nodes_of(
        &mut self,
        alloc: Global,
        process: u32,
        numbers: &[u64],
        nowhere: u8,
        nodes: &mut [u8],
    ) -> Option<Option<Result<usize, usize>>>
        ensures told { Asks (λ answer. OfLying (host_in self.old) (OfPagesIn process
            (LieAt numbers.now nowhere nodes.old nodes.new) answer)) (host_in self.old) result
            (host_in self.new) }
        ensures closed { host_in self.old ≡ None → nodes.new ≡ nodes.old }
        ensures none { IfSome result (λ answer. answer ≡ None → nodes.new ≡ nodes.old) }
    {
        of_kept!(self.handle, alloc, kept => {
            tell_nodes(running_kept(&kept), process, numbers, nowhere, nodes)
        })
    }

    /// The number of pages of 4 KiB of a process that lie on each node, of which one of 2 MiB is
    /// 512; no answer if the process isn't there. `None` if the handle is closed.
    pub fn page_counts(&mut self, alloc: Global, process: u32) -> Option<Option<[u64; 256]>>
        ensures { Asks (λ answer. OfLying (host_in self.old) (OfPagesIn process LieOn answer))
            (host_in self.old) result (host_in self.new) }
    {
        of_kept!(self.handle, alloc, kept => counts_in(running_kept(&kept), process))
    }

    /// The maximal runs of pages of a process that lie on one node, in ascending order; no answer
    /// if the process isn't there. `None` if the handle is closed.
    ///
    /// # Errors
    /// `NoMemory`: out of memory.
    pub fn page_runs(
        &mut self,
        alloc: Global,
        process: u32,
    ) -> Option<Option<Result<Vec<PageRun>, NoMemory>>>
        ensures { Asks (λ answer. OfLying (host_in self.old) (OfPagesIn process
            (λ lying memory told. IfOk told (λ list. LieSo lying memory list.items)) answer))
            (host_in self.old) result (host_in self.new) }
    {
        of_kept!(self.handle, alloc, kept => runs_in(running_kept(&kept), alloc, process))
    }

    /// What the last move of a process did; no answer if the process isn't there. `None` if the
    /// handle is closed.
    ///
    /// # Errors
    /// `NoMemory`: out of memory.
    pub fn last_move(
        &mut self,
        alloc: Global,
        process: u32,
    ) -> Option<Option<Result<LastFlows, NoMemory>>>
        ensures { Asks (λ answer. OfLying (host_in self.old) (OfPagesIn process
            (λ lying memory told. IfOk told (TellsLast lying memory)) answer)) (host_in self.old)
            result (host_in self.new) }
    {
        of_kept!(self.handle, alloc, kept => last_in(running_kept(&kept), alloc, process))
    }

    /// What the last move of the host did, all its processes together. `None` if the handle is
    /// closed.
    ///
    /// # Errors
    /// `NoMemory`: out of memory.
    pub fn last_move_of_all(&mut self, alloc: Global) -> Option<Result<LastFlows, NoMemory>>
        ensures { Asks (λ answer. OfLying (host_in self.old)
            (λ at. IfOk answer (λ told. TellsSum told at))) (host_in self.old) result
            (host_in self.new) }
    {
        of_kept!(self.handle, alloc, kept => last_of_all(running_kept(&kept), alloc))
    }
}
