//! Handles of scripts.
ghost use Rattle.std.specs.Prelude.{◌≡◌, Some, None, true, IfSome};
ghost use Rattle.std.specs.Prelude.{is_some, is_ok};
ghost use Rattle.numaplan_handles.specs.Calls.{Asks, Calls};
ghost use Rattle.numaplan_handles.specs.Dialogs.{IsFresh, ServesKept, CopiesKept};
ghost use Rattle.numaplan_handles.specs.Kinds.{CallsKept, dialog_of, is_script};

use crate::dialog::{Dialog, LineRefusal};
use crate::handle::Handle;
use crate::kept::Kept;
use numa_machine::Rules;
use std::alloc::{AllocError, Global};

/// A handle of a script that is given line by line.
#[repr(C)]
pub struct ScriptHandle {
    pub handle: Handle,
    ghost kind: { is_script handle.held.kept ≡ true },
}

/// Serves a line of the script.
fn line_kept(kept: &mut Kept, alloc: Global, line: &[u8]) -> Result<usize, LineRefusal>
    requires script { is_script (Some kept.old) ≡ true }
    ensures { CallsKept is_script dialog_of (ServesKept line.now) kept.old result kept.new }
{
    match kept {
        Kept::Script(dialog) => dialog.line(alloc, line),
        _ => unreachable!(),
    }
}

/// Copies the answer of the script.
fn copy_kept(kept: &Kept, room: &mut [u8]) -> Result<usize, usize>
    requires script { is_script (Some kept.now) ≡ true }
    ensures copies { CopiesKept (dialog_of (Some kept.now)) result room.old room.new }
{
    let Kept::Script(dialog) = kept else {
        unreachable!()
    };
    dialog.copy(room)
}

impl ScriptHandle {
    ghost use Rattle.numaplan_handles.specs.Handles.{dialog_in};

    /// Puts a script before its first line into a closed handle, with these rules unless a line
    /// says otherwise.
    ///
    /// # Errors
    /// `AllocError`: out of memory.
    pub fn open(&mut self, alloc: Global, rules: Rules) -> Result<(), AllocError>
        requires closed { dialog_in self.old ≡ None }
        ensures kept { is_some (dialog_in self.new) ≡ is_ok result }
        ensures fresh { IfSome (dialog_in self.new) (IsFresh rules) }
    {
        self.handle
            .keep(alloc, Kept::Script(Dialog::new(alloc, rules)))
    }

    /// Serves a line, keeps its answer, and returns the answer's length in bytes. `None` if the
    /// handle is closed.
    ///
    /// # Errors
    /// `NoMemory`: out of memory, and nothing has changed. `AnswerLost`: the line was served, but
    /// there was no memory for its answer, and none is kept.
    pub fn line(&mut self, alloc: Global, line: &[u8]) -> Option<Result<usize, LineRefusal>>
        ensures { Calls (ServesKept line.now) (dialog_in self.old) result (dialog_in self.new) }
    {
        let mut kept = self.handle.take(alloc)?;
        let answer = line_kept(&mut kept, alloc, line);
        self.handle.put(kept);
        Some(answer)
    }

    /// Copies the answer to the last line into `room`, and returns its length in bytes. `None` if
    /// the handle is closed.
    ///
    /// # Errors
    /// The answer's length, if it is longer than `room`.
    pub fn answer(&mut self, alloc: Global, room: &mut [u8]) -> Option<Result<usize, usize>>
        ensures copies { Asks (λ told. CopiesKept (dialog_in self.old) told room.old room.new)
            (dialog_in self.old) result (dialog_in self.new) }
        ensures closed { dialog_in self.old ≡ None → room.new ≡ room.old }
    {
        let kept = self.handle.take(alloc)?;
        let told = copy_kept(&kept, room);
        self.handle.put(kept);
        Some(told)
    }
}
