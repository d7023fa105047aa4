//! Commands that a core carries out, or that are tried on a copy of it.
ghost use Rattle.std.specs.Prelude.{◌≡◌, IfErr, IfOk, OnErr};
ghost use Rattle.numa_core.specs.Standing.{setup_of};
ghost use Rattle.numa_space.specs.Steps.{LacksRoom};
ghost use Rattle.numa_pages.specs.Changes.{Accepted, Answers};
ghost use Rattle.numa_pages.specs.Trials.{IsTrialError};

use numa_core::Core;
use numa_requests::{Command, Refusal};

/// Why a command has no core after it.
#[derive(Clone, Copy)]
pub(crate) enum TrialError {
    /// The core refuses the command.
    Refused(Refusal),
    /// Out of memory for the copy.
    NoMemory,
}

/// Has a core carry out a command, and returns the number of accepted ones.
///
/// # Errors
/// As [`Core::accept`]. `NoMemory` comes only to a command that may need room.
pub(crate) fn carried_out(core: &mut Core, command: &Command) -> Result<u64, Refusal>
    ensures answers { Answers core.old command.now result core.new }
    ensures setup { setup_of core.new ≡ setup_of core.old }
    ensures room { IfErr result (LacksRoom command.now) }
    ensures unchanged { OnErr result (core.new ≡ core.old) }
{
    // Tells the proof that some execution leads to the core.
    let _ = core.published();
    match core.accept(command) {
        Ok(acceptance) => Ok(acceptance.version),
        Err(refusal) => Err(refusal),
    }
}

/// A copy of a core that has accepted a command.
///
/// # Errors
/// As [`TrialError`] says.
pub(crate) fn tried(core: &Core, command: &Command) -> Result<Core, TrialError>
    ensures core { IfOk result (λ after. Accepted core.now command.now after) }
    ensures setup { IfOk result (λ after. setup_of after ≡ setup_of core.now) }
    ensures err { IfErr result (IsTrialError core.now command.now) }
{
    let Ok(mut after) = core.copy() else {
        return Err(TrialError::NoMemory);
    };
    match after.accept(command) {
        Ok(_) => Ok(after),
        Err(refusal) => {
            let_go(after);
            Err(TrialError::Refused(refusal))
        }
    }
}

/// Drops a core, which takes many steps.
pub(crate) fn let_go(core: Core) {
    drop(core);
}
