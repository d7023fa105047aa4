//! A host, and where the pages of its processes lie.
ghost use Rattle.std.specs.Prelude.{◌≡◌, IfOk, List, MatchOption, false, true};
ghost use Rattle.numa_host.specs.Processes.{commands_of, is_there, members_of};
ghost use Rattle.numa_host.specs.Standing.{HostStandsFor, IsSpaceOf};
ghost use Rattle.numa_requests.specs.declared.host_command.HostCommand.{HostCommand};

use numa_host::Host;
use numa_host::process::find;
use numa_host_pages::HostPages;
use numa_machine::NoMemory;
use numa_space::Space;
use std::alloc::Global;

/// A host, and where the pages of its processes lie.
pub struct RunningHost {
    pub host: Host,
    pub pages: HostPages,
}

// (By hand, so that it is proved here alone: what is derived is proved in each crate that drops.)
impl Drop for RunningHost {
    fn drop(self) {
        let RunningHost { host, pages } = self;
        drop(host);
        drop(pages);
    }
}

/// A host on the heap, with where the pages of its processes lie.
///
/// # Errors
/// `NoMemory`: there is no memory for it.
pub(crate) fn on_heap(
    alloc: Global,
    host: Host,
    pages: HostPages,
) -> Result<Box<RunningHost>, NoMemory>
    ensures { IfOk result (λ made. made.value ≡ record { host = host; pages = pages }) }
{
    match Box::new(alloc, RunningHost { host, pages }) {
        Ok(made) => Ok(made),
        Err(_) => Err(NoMemory),
    }
}

/// The space of a process, if it is there: of the host's machine, and within its limits.
pub(crate) fn space_of(host: &Host, process: u32) -> Option<&Space>
    ensures { (history : List HostCommand) → HostStandsFor host.now history
        → MatchOption result (is_there (members_of history) process ≡ false)
        (λ space. (is_there (members_of history) process ≡ true)
        × IsSpaceOf host.now.blank.machine host.now.blank.bounds
        (commands_of host.now.blank.machine history process) space.now) }
{
    match find(host.processes(), process) {
        Some(found) => Some(&found.space),
        None => None,
    }
}
