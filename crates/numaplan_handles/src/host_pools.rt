//! Pools of pages of 2 MiB that a host's processes share, spans that are mapped as such pages, and
//! first touches of single pages, through a handle.
ghost use Rattle.std.specs.Prelude.{◌≡◌};
ghost use Rattle.numa_host_script.specs.Hosts.{Hosting};
ghost use Rattle.numa_host_script.specs.Pooling.{pools_at};
ghost use Rattle.numa_host_script.specs.Standing.{RunsAs};
ghost use Rattle.numaplan_handles.specs.Calls.{Asks, Calls};
ghost use Rattle.numaplan_handles.specs.Handles.{host_in};
ghost use Rattle.numaplan_handles.specs.Hosted.{DoesHuge, DoesOwnHuge, OfLying};
ghost use Rattle.numaplan_handles.specs.Hosts.{OfRunning};

use crate::handle::of_kept;
use crate::host_handle::{HostHandle, running_kept};
use crate::kept::Kept;
use numa_host_script::RunningHost;
use numa_pools::Pools;
use numa_script::{HugeLine, Reply};
use std::alloc::Global;

/// Carries out a line about pools or pages of 2 MiB, or a first touch, for a process.
fn done(running: &mut RunningHost, alloc: Global, process: u32, line: &HugeLine) -> Option<Reply>
    ensures { DoesHuge process line.now running.old result running.new }
{
    running.huge(alloc, process, line)
}

/// The same for no process.
fn own_done(running: &mut RunningHost, line: &HugeLine) -> Option<Reply>
    ensures { DoesOwnHuge line.now running.old result running.new }
{
    running.own_huge(line)
}

/// The pools of a host.
fn pools_in(running: &RunningHost) -> Pools
    ensures { (at : Hosting) → RunsAs running.now at → result ≡ pools_at at }
{
    *running.pools()
}

impl HostHandle {
    /// The pools of pages of 2 MiB, which all processes share. `None` if the handle is closed.
    pub fn pools(&mut self, alloc: Global) -> Option<Pools>
        ensures { Asks (λ pools. OfLying (host_in self.old) (λ at. pools ≡ pools_at at))
            (host_in self.old) result (host_in self.new) }
    {
        of_kept!(self.handle, alloc, kept => pools_in(running_kept(&kept)))
    }

    /// Carries out a line about pools and pages of 2 MiB, or a first touch, that a process is told.
    /// The reply is that of the line; none where pools have so many pages now. `None` if the handle
    /// is closed.
    pub fn huge(&mut self, alloc: Global, process: u32, line: &HugeLine) -> Option<Option<Reply>>
        ensures { Calls (OfRunning (DoesHuge process line.now)) (host_in self.old) result
            (host_in self.new) }
    {
        of_kept!(self.handle, alloc, Kept::Host(running) => done(running, alloc, process, line))
    }

    /// The same of a line that no process is told: whoever resizes pools is allowed all nodes with
    /// memory. `None` if the handle is closed.
    pub fn own_huge(&mut self, alloc: Global, line: &HugeLine) -> Option<Option<Reply>>
        ensures { Calls (OfRunning (DoesOwnHuge line.now)) (host_in self.old) result
            (host_in self.new) }
    {
        of_kept!(self.handle, alloc, Kept::Host(running) => own_done(running, line))
    }
}
