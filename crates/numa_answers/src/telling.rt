//! Answers that are reports, or why there are none.
ghost use Rattle.std.specs.Prelude.{◌≡◌, IfOk, IsOk, Ok, OnOk};

use crate::page::page_of;
use numa_host::Process;
use numa_lines::RunFault;
use numa_reports::{ByProcess, ReportError};
use numa_sheets::Format;
use numa_subjects::Halt;
use std::alloc::Global;

/// Why there is no report on a machine with `nodes` nodes.
fn halt_of(fault: ReportError, nodes: u32) -> Halt {
    match fault {
        ReportError::Refused(_) => Halt::NoNode(nodes),
        ReportError::Memory => Halt::Stopped(RunFault::Memory),
    }
}

/// What is reported of a machine with `nodes` nodes, or why there is nothing.
pub fn reported<T: Drop>(said: Result<T, ReportError>, nodes: u32) -> Result<T, Halt>
    ensures { IfOk result (λ text. said ≡ Ok text) }
{
    match said {
        Ok(text) => Ok(text),
        Err(fault) => Err(halt_of(fault, nodes)),
    }
}

/// Adds the answer about a process, if there is one.
pub fn add_answer(
    answers: &mut ByProcess,
    process: &Process,
    text: Result<Vec<u8>, Halt>,
) -> Result<(), Halt>
    ensures { OnOk result (IsOk text) }
{
    let text = match text {
        Ok(text) => text,
        Err(halt) => return Err(halt),
    };
    answers.add(process.id, process.group, text.as_slice());
    drop(text);
    Ok(())
}

/// An answer about all processes, which a page has as its data.
pub fn shown_as(alloc: Global, format: Format, kind: &str, text: Vec<u8>) -> Result<Vec<u8>, Halt> {
    let Format::Html(_) = format else {
        return Ok(text);
    };
    let page = page_of(alloc, kind, text.as_slice());
    drop(text);
    Ok(page?)
}
