//! Which pages of a core go to another node than those of another core.
ghost use Rattle.std.specs.Prelude.{◌≡◌, List, Result};
ghost use Rattle.numa_reports.specs.declared.differences.SpanMove.{SpanMove};
ghost use Rattle.numa_reports.specs.declared.fault.ReportError.{ReportError};
ghost use Rattle.numaplan_c.specs.Compared.{AskedBoth, IsListed, TellsMoves};
ghost use Rattle.numaplan_handles.specs.Handles.{core_in};
ghost use Rattle.numaplan_reports.specs.Compared.{Differs};

use crate::codes::Code;
use crate::predictions::fault_code;
use crate::texts::{copy_code, length_copied};
use numa_reports::SpanMove;
use numa_sheets::Touch;
use numaplan_handles::{CoreHandle, copy_items};
use numaplan_reports::diff_cores;
use std::alloc::Global;

/// Copies a list to the beginning of `room`, writes its length, and returns a code.
pub(crate) fn write_items<T: Copy>(items: &[T], room: &mut [T], count: &mut usize) -> u32
    ensures { IsListed items.now result room.old room.new count.new }
{
    let told = copy_items(items, room);
    *count = length_copied(told);
    copy_code(told)
}

/// Lists the pages that would go to another node in the second core than in the first.
#[unsafe(no_mangle)]
pub extern "C" fn np_core_diff(
    alloc: Global,
    before: &mut CoreHandle,
    after: &mut CoreHandle,
    task: u32,
    cpu: u32,
    room: &mut [SpanMove],
    count: &mut usize,
) -> u32
    ensures { AskedBoth (core_in before.old) (core_in after.old) (core_in before.new)
        (core_in after.new) result ((room.new ≡ room.old) × (count.new ≡ count.old))
        (λ one other. (answer : Result (List SpanMove) ReportError)
        × Differs (λ moves. moves) (core_in before.old) (core_in after.old) task cpu answer
        × TellsMoves answer result room.old room.new count.old count.new) }
{
    match diff_cores(alloc, before, after, Touch { task, cpu }) {
        None => Code::Closed as u32,
        Some(Ok(moves)) => {
            let code = write_items(moves.as_slice(), room, count);
            drop(moves);
            code
        }
        Some(Err(why)) => fault_code(why),
    }
}
