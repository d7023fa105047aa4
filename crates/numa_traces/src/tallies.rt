//! The numbers of accesses by their routes.
ghost use Rattle.std.specs.Prelude.{◌≡◌, [], IfErr, IfOk, OnOk, OnErr, if◌then◌else◌};
ghost use Rattle.std.specs.Prelude.{◌==◌, length};
ghost use Rattle.numa_traces.specs.Tallies.{Counts, IsFull, IsRoomFault, are_unserved, tally_at};
ghost use Rattle.numa_traces.specs.declared.fault.ReplayError.TheVariants as fault;

use crate::fault::ReplayError;
use std::alloc::{AllocError, Global};
use std::collections::BTreeMap;
use std::collections::btree_map::Iter;
use std::marker::Model;

/// The number of accesses of one route, and of those among them that were a fault, which placed the
/// page or found no frame.
#[derive(Clone, Copy, Drop)]
pub struct AccessCounts {
    pub accesses: u64,
    pub faults: u64,
}

/// The route of an access: the task, the CPU's node, and the node of the page, `None` if the page
/// found no frame.
pub type Route = (u32, u32, Option<u8>);

/// The numbers of accesses by their routes.
#[derive(Drop)]
pub struct Tallies(BTreeMap<Route, AccessCounts>);

impl Model for Tallies {
    ghost use Rattle.numa_traces.specs.Tallies.{Tallied};

    ghost Value = { Tallied };

    ghost view = { λ a. a.0.entries };
}

/// The number of faults that an access is.
fn fault_count(is_fault: bool) -> u64
    ensures { result ≡ if is_fault then 1 else 0 }
{
    match is_fault {
        true => 1,
        false => 0,
    }
}

impl Tallies {
    /// No accesses. It doesn't allocate.
    pub fn new(alloc: Global) -> Tallies
        ensures { result ≡ [] }
    {
        Tallies(BTreeMap::new(alloc))
    }

    /// Returns a copy.
    ///
    /// # Errors
    /// `AllocError`: out of memory.
    pub fn copy(&self) -> Result<Tallies, AllocError>
        ensures { IfOk result (λ copy. copy ≡ self.now) }
    {
        let counts = self.0.clone()?;
        Ok(Tallies(counts))
    }

    /// Whether nothing was counted.
    pub fn is_empty(&self) -> bool
        ensures { result ≡ (length self.now == 0) }
    {
        self.0.len() == 0
    }

    /// Whether there is no route to a node: no access was served.
    pub fn are_unserved(&self) -> bool
        ensures { result ≡ are_unserved self.now }
    {
        for (route, _) in self.iter() {
            let (_, _, node) = *route;
            if let Some(_) = node {
                return false;
            }
        }
        true
    }

    /// The tally of a route.
    pub fn get(&self, route: Route) -> AccessCounts
        ensures { result ≡ tally_at self.now route }
    {
        match self.0.get(&route) {
            Some(tally) => *tally,
            None => AccessCounts {
                accesses: 0,
                faults: 0,
            },
        }
    }

    /// The routes of the accesses so far, each with its tally, ordered by task, then by the CPU's
    /// node, then by the page's.
    pub fn iter(&self) -> Iter<'_, Route, AccessCounts>
        ensures { result ≡ self.now }
    {
        self.0.iter()
    }

    /// Counts accesses of a route, the first of which is a fault or not.
    ///
    /// # Errors
    /// `TooMany`: a number would exceed 2^64 - 1; else `NoMemory`: out of memory. Then nothing has
    /// changed.
    pub fn add(&mut self, route: Route, count: u32, is_fault: bool) -> Result<(), ReplayError>
        ensures counts { OnOk result (Counts self.old route count is_fault self.new) }
        ensures err { IfErr result IsRoomFault }
        ensures full { IfErr result (λ why. why ≡ fault.TooMany
            → IsFull self.old route count is_fault) }
        ensures unchanged { OnErr result (self.new ≡ self.old) }
    {
        let tally = self.get(route);
        let Some(accesses) = tally.accesses.checked_add(u64::from(count)) else {
            return Err(ReplayError::TooMany);
        };
        let Some(faults) = tally.faults.checked_add(fault_count(is_fault)) else {
            return Err(ReplayError::TooMany);
        };
        if let Err(_) = self.0.insert(route, AccessCounts { accesses, faults }) {
            return Err(ReplayError::NoMemory);
        }
        Ok(())
    }
}
