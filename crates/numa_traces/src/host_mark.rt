//! Marks of a host, each of which closes a phase of its trace.
ghost use Rattle.std.specs.Prelude.{◌≡◌, IfOk, MatchOption, None};
ghost use Rattle.std.specs.Prelude.{Some, map};
ghost use Rattle.numa_traces.specs.Hosting.{counted_in, tallies_of};

use crate::host::HostReplay;
use crate::tallies::Tallies;
use std::alloc::{AllocError, Global};
use std::marker::Model;

/// A mark of a host: its text, and of each process the numbers of accesses by their routes up to
/// it.
#[derive(Drop)]
pub struct HostMark {
    text: Vec<u8>,
    processes: Vec<(u32, Tallies)>,
}

impl Model for HostMark {
    ghost use Rattle.numa_traces.specs.Hosting.{HostMarked};

    ghost Value = { HostMarked };

    ghost view = { λ a. record { text = a.text.items; processes = a.processes.items } };
}

/// What was counted of each process.
fn counted(alloc: Global, host: &HostReplay) -> Result<Vec<(u32, Tallies)>, AllocError>
    ensures { IfOk result (λ counted. counted.items ≡ map counted_in host.now.processes) }
{
    let mut counted = Vec::new(alloc);
    for (process, one) in host.iter() {
        let tallies = one.replay.tallies().copy()?;
        counted.push((*process, tallies))?;
    }
    Ok(counted)
}

/// What was counted of a process.
fn tallies_in(processes: &[(u32, Tallies)], process: u32) -> Option<&Tallies>
    ensures { MatchOption result (tallies_of processes.now process ≡ None)
        (λ tallies. tallies_of processes.now process ≡ Some tallies.now) }
{
    for (other, tallies) in processes {
        if *other == process {
            return Some(tallies);
        }
    }
    None
}

impl HostMark {
    /// A mark with this text, where this was met.
    ///
    /// # Errors
    /// `AllocError`: out of memory.
    pub(crate) fn new(alloc: Global, text: &[u8], host: &HostReplay) -> Result<HostMark, AllocError>
        ensures { IfOk result (λ mark. mark ≡ record {
          text = text.now;
          processes = map counted_in host.now.processes;
        }) }
    {
        let processes = counted(alloc, host)?;
        let Ok(text) = Vec::from_slice(alloc, text) else {
            drop(processes);
            return Err(AllocError);
        };
        Ok(HostMark { text, processes })
    }

    /// Its text.
    pub fn text(&self) -> &[u8]
        ensures { result.now ≡ self.now.text }
    {
        self.text.as_slice()
    }

    /// The numbers of accesses of a process by their routes up to it, if there is such a process.
    pub fn tallies(&self, process: u32) -> Option<&Tallies>
        ensures { MatchOption result (tallies_of self.now.processes process ≡ None)
            (λ tallies. tallies_of self.now.processes process ≡ Some tallies.now) }
    {
        tallies_in(self.processes.as_slice(), process)
    }

    /// The same of all processes, the lowest number first.
    pub(crate) fn all(&self, alloc: Global) -> Result<Vec<&Tallies>, AllocError> {
        let mut all = Vec::new(alloc);
        for (_, tallies) in &self.processes {
            all.push(tallies)?;
        }
        Ok(all)
    }
}
