//! Stating where pages of a host's processes lie, touching them first, and moving them, through a
//! handle.
ghost use Rattle.std.specs.Prelude.{◌≡◌, ◌<◌, ℕ, Option, slice_index, true};
ghost use Rattle.numa_host_pages.specs.Summed.{both_pages};
ghost use Rattle.numa_host_script.specs.Acting.{is_change};
ghost use Rattle.numa_host_script.specs.Hosts.{Hosting};
ghost use Rattle.numa_host_script.specs.Paging.{pages_at};
ghost use Rattle.numa_host_script.specs.Standing.{RunsAs};
ghost use Rattle.numa_huge.specs.Moves.{HugeArrival};
ghost use Rattle.numa_huge.specs.Tallies.{HaveArrived};
ghost use Rattle.numa_page_state.specs.Lying.{Arrival};
ghost use Rattle.numa_page_state.specs.Standing.{ArrivedAs};
ghost use Rattle.numaplan_handles.specs.Calls.{Calls};
ghost use Rattle.numaplan_handles.specs.Handles.{host_in};
ghost use Rattle.numaplan_handles.specs.Hosted.{Binds, ChangesPages, LetsFollow, LimitsAll};
ghost use Rattle.numaplan_handles.specs.Hosted.{CameWith, HasCome, TouchesIn};
ghost use Rattle.numaplan_handles.specs.Hosts.{OfRunning};

use crate::flows::both_rows;
use crate::handle::of_kept;
use crate::host_handle::HostHandle;
use crate::kept::Kept;
use numa_host_script::RunningHost;
use numa_huge::HugeArrived;
use numa_page_state::arrived::untouched;
use numa_page_state::{Arrived, Rebinding, Toucher};
use numa_requests::PlacedRefusal;
use numa_script::{BoundPages, PageLine, Reply};
use std::alloc::Global;

/// Changes where the pages of a process lie.
fn changed(running: &mut RunningHost, alloc: Global, process: u32, line: &PageLine) -> Option<Reply>
    requires change { is_change line.now ≡ true }
    ensures { ChangesPages process line.now running.old result running.new }
{
    running.change(alloc, process, line)
}

/// Sets a policy for a span of a process, by which pages are judged, or to which they go.
fn bound(
    running: &mut RunningHost,
    alloc: Global,
    process: u32,
    said: Rebinding,
    pages: &BoundPages,
) -> Reply
    ensures { Binds process said.start said.length said.spec pages.now running.old result
        running.new }
{
    running.bind(alloc, process, said.start, said.length, said.spec, pages)
}

/// Says how many more pages a node takes, whichever process they are of.
fn limited(running: &mut RunningHost, node: u32, pages: u64) -> Result<(), PlacedRefusal>
    ensures { LimitsAll node pages running.old result running.new }
{
    running.limit(node, pages)
}

/// Says whether pages follow the nodes that their process is allowed.
fn let_follow(running: &mut RunningHost, follows: bool)
    ensures { LetsFollow follows running.old result running.new }
{
    running.pages.set_follows(follows);
}

/// First touches of pages of both sizes, each counted once.
fn both_arrived(small: &Arrived, huge: &HugeArrived) -> Arrived
    ensures placed { result.placed ≡ both_pages small.now.placed huge.now.placed }
    ensures exhausted { result.exhausted ≡ both_pages small.now.exhausted huge.now.exhausted }
    ensures on { (node : ℕ) → node < 256 → slice_index result.on node
        ≡ both_pages (slice_index small.now.on node) (slice_index huge.now.on node) }
{
    Arrived {
        placed: small.placed.saturating_add(huge.placed),
        exhausted: small.exhausted.saturating_add(huge.exhausted),
        on: both_rows(small.on, &huge.on),
    }
}

/// What the last first touches of pages of 4 KiB of a process did.
fn small_arrived(running: &RunningHost, process: u32) -> Arrived
    ensures { (at : Hosting) → RunsAs running.now at
        → ArrivedAs result (pages_at at process).arrived }
{
    match running.pages_there(process) {
        Some(state) => *state.arrived(),
        None => untouched(),
    }
}

/// With those of pages of 2 MiB, if a span had some.
fn arrived_with(small: Arrived, huge: &Option<HugeArrived>) -> Arrived
    ensures { (arrival : Arrival) (told : Option HugeArrival) → ArrivedAs small arrival
        → HaveArrived huge.now told → CameWith told result arrival }
{
    match huge {
        Some(huge) => both_arrived(&small, huge),
        None => small,
    }
}

/// What the last first touches of a process did.
fn arrived_in(running: &RunningHost, process: u32) -> Arrived
    ensures { (at : Hosting) → RunsAs running.now at → HasCome process result at }
{
    let small = small_arrived(running, process);
    match running.huge_there(process) {
        Some(kept) => arrived_with(small, &kept.arrived),
        None => small,
    }
}

/// Touches each page of a span of a process for the first time, and returns what that did.
fn touched(
    running: &mut RunningHost,
    alloc: Global,
    process: u32,
    start: u64,
    length: u64,
    toucher: Toucher,
) -> Result<Arrived, Reply>
    ensures { TouchesIn process start length toucher.task toucher.cpu running.old result
        running.new }
{
    let Toucher { task, cpu } = toucher;
    let line = PageLine::Populate {
        start,
        length,
        task,
        cpu,
    };
    match running.change(alloc, process, &line) {
        Some(refusal) => Err(refusal),
        None => Ok(arrived_in(running, process)),
    }
}

impl HostHandle {
    /// Changes where pages of a process lie, as a line says: `at`, `migrate` or `move`. The reply
    /// is that of the line. `None` if the handle is closed.
    pub fn change(&mut self, alloc: Global, process: u32, line: &PageLine) -> Option<Option<Reply>>
        requires change { is_change line.now ≡ true }
        ensures { Calls (OfRunning (ChangesPages process line.now)) (host_in self.old) result
            (host_in self.new) }
    {
        of_kept!(self.handle, alloc, Kept::Host(running) => changed(running, alloc, process, line))
    }

    /// Touches each page of a span of a process for the first time, as a task on a CPU of node
    /// `cpu` does that writes to it, and returns how many pages went to a node, to which, and how
    /// many found no room. `None` if the handle is closed.
    ///
    /// # Errors
    /// In the `Some`, the reply that refuses `populate`.
    pub fn populate(
        &mut self,
        alloc: Global,
        process: u32,
        start: u64,
        length: u64,
        task: u32,
        cpu: u32,
    ) -> Option<Result<Arrived, Reply>>
        ensures { Calls (OfRunning (TouchesIn process start length task cpu)) (host_in self.old)
            result (host_in self.new) }
    {
        let toucher = Toucher { task, cpu };
        of_kept!(self.handle, alloc, Kept::Host(running) => {
            touched(running, alloc, process, start, length, toucher)
        })
    }

    /// Sets a policy for a span of a process, unless pages of it lie on other nodes than it asks
    /// for; or moves these, as far as there is room. The reply is that of `mbind .. strict` or `..
    /// move`. `None` if the handle is closed.
    pub fn bind(
        &mut self,
        alloc: Global,
        process: u32,
        said: Rebinding,
        pages: &BoundPages,
    ) -> Option<Reply>
        ensures { Calls (OfRunning (Binds process said.start said.length said.spec pages.now))
            (host_in self.old) result (host_in self.new) }
    {
        of_kept!(self.handle, alloc, Kept::Host(running) => {
            bound(running, alloc, process, said, pages)
        })
    }

    /// Says how many more pages a node takes, whichever process they are of; 2^64 - 1 if it never
    /// fills. `None` if the handle is closed.
    ///
    /// # Errors
    /// In the `Some`, as [`RunningHost::limit`].
    pub fn limit(
        &mut self,
        alloc: Global,
        node: u32,
        pages: u64,
    ) -> Option<Result<(), PlacedRefusal>>
        ensures { Calls (OfRunning (LimitsAll node pages)) (host_in self.old) result
            (host_in self.new) }
    {
        of_kept!(self.handle, alloc, Kept::Host(running) => limited(running, node, pages))
    }

    /// Says whether pages follow the nodes that their process is allowed. `None` if the handle is
    /// closed.
    pub fn set_follows(&mut self, alloc: Global, follows: bool) -> Option<()>
        ensures { Calls (OfRunning (LetsFollow follows)) (host_in self.old) result
            (host_in self.new) }
    {
        of_kept!(self.handle, alloc, Kept::Host(running) => let_follow(running, follows))
    }
}
