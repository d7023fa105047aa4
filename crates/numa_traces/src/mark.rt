//! Marks, each of which closes a phase of a trace.
ghost use Rattle.std.specs.Prelude.{◌≡◌, ◌++◌, ◌∷◌, [], IfErr, IfOk, Ok, OnErr, OnOk};
ghost use Rattle.numa_traces.specs.Phases.{since};
ghost use Rattle.numa_traces.specs.declared.fault.ReplayError.TheVariants as fault;

use crate::fault::ReplayError;
use crate::tallies::{AccessCounts, Tallies};
use std::alloc::{AllocError, Global};
use std::marker::Model;

/// A mark: its text, and the numbers of accesses by their routes up to it.
#[derive(Drop)]
pub struct Mark {
    text: Vec<u8>,
    tallies: Tallies,
}

impl Model for Mark {
    ghost use Rattle.numa_traces.specs.Phases.{Marked};

    ghost Value = { Marked };

    ghost view = { λ a. record { text = a.text.items; tallies = a.tallies } };
}

/// What came to a route since it had other counts.
pub(crate) fn since(before: AccessCounts, after: AccessCounts) -> AccessCounts
    ensures { result ≡ since before after }
{
    AccessCounts {
        accesses: after.accesses.saturating_sub(before.accesses),
        faults: after.faults.saturating_sub(before.faults),
    }
}

impl Mark {
    /// A mark with this text, where this was counted.
    ///
    /// # Errors
    /// `AllocError`: out of memory.
    pub(crate) fn new(alloc: Global, text: &[u8], tallies: &Tallies) -> Result<Mark, AllocError>
        ensures { IfOk result (λ mark.
            mark ≡ record { text = text.now; tallies = tallies.now }) }
    {
        let tallies = tallies.copy()?;
        match Vec::from_slice(alloc, text) {
            Ok(text) => Ok(Mark { text, tallies }),
            Err(lack) => {
                drop(tallies);
                Err(lack)
            }
        }
    }

    /// Its text.
    pub fn text(&self) -> &[u8]
        ensures { result.now ≡ self.now.text }
    {
        self.text.as_slice()
    }

    /// The numbers of accesses by their routes up to it.
    pub fn tallies(&self) -> &Tallies
        ensures { result.now ≡ self.now.tallies }
    {
        &self.tallies
    }
}

/// Adds a mark behind others, if there was memory to make it.
///
/// # Errors
/// `NoMemory`: out of memory. Then nothing has changed.
pub(crate) fn close<T: Drop>(
    marks: &mut Vec<T>,
    made: Result<T, AllocError>,
) -> Result<(), ReplayError>
    ensures marks { OnOk result ((mark : T) × (made ≡ Ok mark)
        × (marks.new.items ≡ marks.old.items ++ (mark ∷ []))) }
    ensures err { IfErr result (λ why. why ≡ fault.NoMemory) }
    ensures unchanged { OnErr result (marks.new.items ≡ marks.old.items) }
{
    let Ok(mark) = made else {
        return Err(ReplayError::NoMemory);
    };
    match marks.push(mark) {
        Ok(()) => Ok(()),
        Err(_) => Err(ReplayError::NoMemory),
    }
}
