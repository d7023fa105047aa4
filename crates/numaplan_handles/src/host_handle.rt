//! A handle of a host.
ghost use Rattle.std.specs.Prelude.{◌≡◌, None, OnErr, OnOk, Some, true};
ghost use Rattle.numaplan_handles.specs.Calls.{Asks, Calls, Keeps};
ghost use Rattle.numaplan_handles.specs.Hosts.{Commands, HasHostVersion, IsHostCopyOf, Obeys};
ghost use Rattle.numaplan_handles.specs.Hosts.{OfHost};
ghost use Rattle.numaplan_handles.specs.Kinds.{host_of, is_host};
ghost use Rattle.numaplan_handles.specs.Pages.{IsMade};
ghost use Rattle.numa_requests.specs.declared.host_command.HostCommand.{HostCommand};

use crate::handle::{Handle, of_kept};
use crate::kept::{Kept, kept_as};
use numa_host_script::RunningHost;
use numa_machine::NoMemory;
use numa_requests::HostCommand;
use numa_script::Reply;
use std::alloc::{AllocError, Global};

/// A host that a C caller keeps with the pages of its processes, or none.
#[repr(C)]
pub struct HostHandle {
    pub handle: Handle,
    ghost kind: { is_host handle.held.kept ≡ true },
}

/// Carries out a command of the host, and what it does to the pages of its processes.
fn commanded(running: &mut RunningHost, command: &HostCommand) -> Reply
    ensures { Commands command.now running.old result running.new }
{
    running.command(command)
}

/// The host that is kept, with the pages of its processes.
pub(crate) fn running_kept(kept: &Kept) -> &RunningHost
    requires host { is_host (Some kept.now) ≡ true }
    ensures host { host_of (Some kept.now) ≡ Some result.now }
{
    kept_as!(kept, Host)
}

impl HostHandle {
    ghost use Rattle.numaplan_handles.specs.Handles.{host_in};

    /// Puts a host into a closed handle.
    ///
    /// # Errors
    /// `AllocError`: out of memory; the host is dropped.
    pub fn open(&mut self, alloc: Global, running: RunningHost) -> Result<(), AllocError>
        requires closed { host_in self.old ≡ None }
        ensures { Keeps running result (host_in self.new) }
    {
        self.handle.keep(alloc, Kept::Host(running))
    }

    /// Carries out a command of the host, and what it does to the pages of its processes. The reply
    /// is that of the line that says the command. `None` if the handle is closed.
    pub fn obey(&mut self, alloc: Global, command: &HostCommand) -> Option<Reply>
        ensures { Calls (Obeys command.now) (host_in self.old) result (host_in self.new) }
    {
        of_kept!(self.handle, alloc, Kept::Host(running) => commanded(running, command))
    }

    /// The number of accepted commands. `None` if the handle is closed.
    pub fn version(&mut self, alloc: Global) -> Option<u64>
        ensures { Asks (λ version. OfHost (host_in self.old) (HasHostVersion version))
            (host_in self.old) result (host_in self.new) }
    {
        of_kept!(self.handle, alloc, kept => running_kept(&kept).host.version())
    }

    /// Puts a host that was made into a closed handle.
    fn keep(&mut self, alloc: Global, running: RunningHost) -> Result<(), NoMemory>
        requires closed { host_in self.old ≡ None }
        ensures ok { OnOk result (host_in self.new ≡ Some running) }
        ensures err { OnErr result (host_in self.new ≡ None) }
    {
        let Ok(()) = self.open(alloc, running) else {
            return Err(NoMemory);
        };
        Ok(())
    }

    /// Puts a copy of the host, with the pages of its processes, into another, closed handle. What
    /// is then done to one of the two doesn't affect the other. `None` if this handle is closed.
    ///
    /// # Errors
    /// `NoMemory`: out of memory.
    pub fn copy(&mut self, alloc: Global, other: &mut HostHandle) -> Option<Result<(), NoMemory>>
        requires closed { host_in other.old ≡ None }
        ensures same { host_in self.new ≡ host_in self.old }
        ensures copied { IsMade IsHostCopyOf (host_in self.old) result (host_in other.new) }
    {
        let kept = self.handle.take(alloc)?;
        let made = running_kept(&kept).copy(alloc);
        self.handle.put(kept);
        match made {
            Ok(running) => Some(other.keep(alloc, running)),
            Err(lack) => Some(Err(lack)),
        }
    }
}
