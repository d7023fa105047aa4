//! What a host with pages is told by calls: each does what the line that says it does.
ghost use Rattle.std.specs.Prelude.{◌≡◌, IfOk, IsSomeAnd, MatchOption, None, true};
ghost use Rattle.numa_host_pages.specs.Homes.{HostLying, empty_host, with_room};
ghost use Rattle.numa_host_pages.specs.Standing.{HostLies, LiesApart};
ghost use Rattle.numa_host_script.specs.Acting.{AppliesTo, IsCopyOf, IsUntouched, TellsHuge};
ghost use Rattle.numa_host_script.specs.Acting.{bound_to, changed_outcome, is_change, taken_by};
ghost use Rattle.numa_host_script.specs.Acting.{reply_taken, told_outcome};
ghost use Rattle.numa_host_script.specs.Hosts.{Hosting};
ghost use Rattle.numa_host_script.specs.Paging.{memory_at, pages_at};
ghost use Rattle.numa_host_script.specs.Pooling.{huge_outcome, own_huge_outcome, pools_at};
ghost use Rattle.numa_host_script.specs.Standing.{Changes, ComesTo, Replies, RunsAs};

use crate::binding::bind;
use crate::both::change_in;
use crate::paging::obeyed;
use crate::pooling::{huge_in, own_huge};
use crate::running::RunningHost;
use crate::taking::{HostTaken, obey_host};
use numa_host::Host;
use numa_host_pages::HostPages;
use numa_huge::HugePages;
use numa_machine::NoMemory;
use numa_mode::PolicySpec;
use numa_page_state::PageState;
use numa_pools::Pools;
use numa_requests::{HostCommand, PlacedRefusal};
use numa_script::{BoundPages, HugeLine, PageLine, Reply};
use std::alloc::Global;

/// The reply of a line that was taken, if it has one; the others show what is.
fn reply_taken(taken: &HostTaken) -> Option<Reply>
    ensures { result ≡ reply_taken taken.now }
{
    match taken {
        HostTaken::Reply(reply) => Some(*reply),
        _ => None,
    }
}

impl RunningHost {
    /// A host of whose processes no page lies anywhere; no node ever fills, and pages follow the
    /// allowed nodes.
    ///
    /// # Errors
    /// `NoMemory`: out of memory; the host is dropped.
    pub fn new(alloc: Global, host: Host) -> Result<RunningHost, NoMemory>
        ensures host { IfOk result (λ running. running.host ≡ host) }
        ensures pages { IfOk result (λ running. HostLies running.pages
            (empty_host host.blank.machine.memory)) }
    {
        let Ok(pages) = HostPages::new(alloc, host.machine()) else {
            drop(host);
            return Err(NoMemory);
        };
        Ok(RunningHost { host, pages })
    }

    /// Returns a copy. Later changes of one of the two don't affect the other.
    ///
    /// # Errors
    /// `NoMemory`: out of memory.
    pub fn copy(&self, alloc: Global) -> Result<RunningHost, NoMemory>
        ensures { IfOk result (IsCopyOf self.now) }
    {
        let Ok(pages) = self.pages.copy(alloc) else {
            return Err(NoMemory);
        };
        match self.host.copy() {
            Ok(host) => Ok(RunningHost { host, pages }),
            Err(_) => {
                drop(pages);
                Err(NoMemory)
            }
        }
    }

    /// Carries out a command, and what it does to pages: those that are unmapped lie nowhere any
    /// more, those of a process that ends give their room back, and where the allowed nodes of a
    /// process change, its pages follow. The reply is that of the line that says the command.
    pub fn command(&mut self, command: &HostCommand) -> Reply
        ensures host { AppliesTo self.old.host command.now result self.new.host }
        ensures runs { Replies self.old result self.new
            (λ lack at. told_outcome lack at command.now) }
    {
        match command {
            HostCommand::In { process, command } => obeyed(self, *process, command),
            _ => obey_host(self, command),
        }
    }

    /// Changes where the pages of a process lie, and returns the reply of the line. `populate` has
    /// one only where it is refused.
    pub fn change(&mut self, alloc: Global, process: u32, line: &PageLine) -> Option<Reply>
        requires change { is_change line.now ≡ true }
        ensures host { self.new.host ≡ self.old.host }
        ensures runs { Changes self.old result self.new process
            (λ lacked at. changed_outcome lacked at process line.now) }
    {
        change_in(self, alloc, process, line)
    }

    /// Sets a policy for a span of a process, unless pages lie on other nodes than it asks for, or
    /// moves these; returns the reply of the line.
    pub fn bind(
        &mut self,
        alloc: Global,
        process: u32,
        start: u64,
        length: u64,
        spec: PolicySpec,
        pages: &BoundPages,
    ) -> Reply
        ensures { Replies self.old result self.new
            (λ lack at. bound_to lack at process start length spec pages.now) }
    {
        bind(self, alloc, process, start, length, &Ok(spec), pages)
    }

    /// Carries out a line about pools and pages of 2 MiB, or a first touch, that a process is told,
    /// and returns its reply; none where pools have so many pages now.
    pub fn huge(&mut self, alloc: Global, process: u32, line: &HugeLine) -> Option<Reply>
        ensures { ComesTo self.old (taken_by result) self.new
            (λ lack at. huge_outcome lack.lacked at process line.now) }
    {
        let taken = huge_in(self, alloc, process, line);
        reply_taken(&taken)
    }

    /// The same of a line that no process is told: whoever resizes pools is allowed all nodes with
    /// memory.
    pub fn own_huge(&mut self, line: &HugeLine) -> Option<Reply>
        ensures { ComesTo self.old (taken_by result) self.new
            (λ lack at. own_huge_outcome at line.now) }
    {
        let taken = own_huge(self, line);
        reply_taken(&taken)
    }

    /// Says how many more pages a node takes from now on, whichever process they are of; 2^64 - 1
    /// if it never fills.
    ///
    /// # Errors
    /// `NoSuchNode`: the machine lacks the node, or it has no memory.
    pub fn limit(&mut self, node: u32, pages: u64) -> Result<(), PlacedRefusal>
        ensures host { self.new.host ≡ self.old.host }
        ensures pages { (at : HostLying) → HostLies self.old.pages at
            → (result ≡ (with_room self.old.host.blank.machine node pages at).0)
            × HostLies self.new.pages (with_room self.old.host.blank.machine node pages at).1 }
    {
        let machine = self.host.machine();
        self.pages.limit(machine, node, pages)
    }

    /// What is kept of the pages of a process, once one was touched or stated to lie somewhere.
    pub fn pages_there(&self, process: u32) -> Option<&PageState>
        ensures { (at : Hosting) → RunsAs self.now at → MatchOption result
            (IsUntouched at.lying (pages_at at process))
            (λ kept. LiesApart kept.now (pages_at at process)) }
    {
        self.pages.pages_of(process)
    }
    /// What is kept of the pages of 2 MiB of a process, once it mapped some that come from pools.
    pub fn huge_there(&self, process: u32) -> Option<&HugePages>
        ensures { (at : Hosting) → RunsAs self.now at
            → MatchOption result (memory_at at process ≡ None)
            (λ kept. IsSomeAnd (memory_at at process) (TellsHuge kept.now)) }
    {
        self.pages.huge.pages_of(process)
    }

    /// The pools of pages of 2 MiB, which all processes share.
    pub fn pools(&self) -> &Pools
        ensures { (at : Hosting) → RunsAs self.now at → result.now ≡ pools_at at }
    {
        self.pages.huge.pools()
    }
}
