//! Telling worked scripts from others.
ghost use Rattle.std.specs.Prelude.{◌≡◌, ◌||◌};
ghost use Rattle.numa_lines.specs.Worked.{form_of, wants_answer};

use crate::fault::RunFault;
use crate::lines::{Lines, TakeLine};
use crate::reading::{READS, read_named};
use crate::worked::{LineForm, read_form};
use std::alloc::Global;
use std::io::Read;

/// Whether a line, without its line feed, holds an expected answer.
fn wants_answer(line: &[u8]) -> bool
    ensures { result ≡ wants_answer (form_of line.now) }
{
    match read_form(line) {
        LineForm::Script => false,
        LineForm::Answered(_) | LineForm::Answer => true,
    }
}

/// Looks for an expected answer.
#[derive(Drop)]
struct Seeking {
    is_found: bool,
}

impl TakeLine<()> for Seeking {
    fn take(&mut self, _: &str, _: u64, line: &[u8], _: &mut ()) -> Result<(), RunFault>
        ensures { self.new.is_found ≡ self.old.is_found || wants_answer (form_of line.now) }
    {
        if wants_answer(line) {
            self.is_found = true;
        }
        Ok(())
    }

    fn hand_over(&mut self, _: &mut ()) -> Result<(), RunFault> {
        Ok(())
    }
}

/// Reads a text to its end, and returns whether it is a worked script: one of its lines, by its
/// first 4,097 bytes, holds an expected answer.
///
/// # Errors
/// `Read`: a read failed, or more than 4,294,967,295 were needed. `Memory`: out of memory.
pub fn is_worked<R: Read + Drop>(alloc: Global, text: R) -> Result<bool, RunFault> {
    let Ok(mut lines) = Lines::new(alloc, Seeking { is_found: false }) else {
        return Err(RunFault::Memory);
    };
    let read = read_named("", text, READS, &mut lines, &mut ());
    let is_found = lines.taker.is_found;
    drop(lines);
    match read {
        Ok(_) => Ok(is_found),
        Err(why) => Err(why),
    }
}
