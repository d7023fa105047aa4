//! What the last move did.
ghost use Rattle.std.specs.Prelude.{◌≡◌, IfOk};

use numa_machine::NoMemory;
use numa_placed::{Moved, Placed};

/// What a policy did that pages went to: how many moved, how many had to and stayed; and where all
/// pages lay before, and lay after it.
#[derive(Drop)]
pub struct Departures {
    pub moved: u64,
    pub left: u64,
    pub before: Placed,
    pub after: Placed,
}

impl Departures {
    /// Returns a copy. Later changes of one of the two don't affect the other.
    ///
    /// # Errors
    /// `NoMemory`: there is no memory for it.
    pub fn copy(&self) -> Result<Departures, NoMemory>
        ensures { IfOk result (λ copy. copy ≡ self.now) }
    {
        let Ok(before) = self.before.copy() else {
            return Err(NoMemory);
        };
        let Ok(after) = self.after.copy() else {
            return Err(NoMemory);
        };
        Ok(Departures {
            moved: self.moved,
            left: self.left,
            before,
            after,
        })
    }
}

/// The last move: of pages that go by their node, or each by its own policy.
#[derive(Drop)]
pub enum Last {
    Nodes(Moved),
    Pages(Departures),
}

impl Last {
    /// Returns a copy. Later changes of one of the two don't affect the other.
    ///
    /// # Errors
    /// `NoMemory`: there is no memory for it.
    pub fn copy(&self) -> Result<Last, NoMemory>
        ensures { IfOk result (λ copy. copy ≡ self.now) }
    {
        match self {
            Last::Nodes(moved) => Ok(Last::Nodes(*moved)),
            Last::Pages(gone) => {
                let Ok(gone) = gone.copy() else {
                    return Err(NoMemory);
                };
                Ok(Last::Pages(gone))
            }
        }
    }
}

/// Keeps what a move did in the place of the one before.
pub(crate) fn keep(last: &mut Last, done: Last)
    ensures { last.new ≡ done }
{
    *last = done;
}
