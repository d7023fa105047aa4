//! Where all mapped pages of a core would go.
ghost use Rattle.std.specs.Prelude.{◌≡◌, List, ℕ, Result};
ghost use Rattle.numa_reports.specs.declared.fault.ReportError.{ReportError};
ghost use Rattle.numaplan_c.specs.Border.{Asked};
ghost use Rattle.numaplan_c.specs.Predictions.{TellsCounts, fault_code};
ghost use Rattle.numaplan_handles.specs.Handles.{core_in};
ghost use Rattle.numaplan_reports.specs.Asked.{Fills, Predicts};

use crate::codes::{Code, place_code};
use crate::keeping::if_open;
use crate::plans::NpCounts;
use numa_reports::ReportError;
use numa_sheets::Touch;
use numaplan_handles::CoreHandle;
use numaplan_reports::{fill_core, predict_core};
use std::alloc::Global;

/// The code of a report that was refused.
pub(crate) fn fault_code(why: ReportError) -> u32
    ensures { result ≡ fault_code why }
{
    match why {
        ReportError::Refused(refusal) => place_code(refusal),
        ReportError::Memory => Code::NoMemory as u32,
    }
}

/// Writes a number for each node, if there is an answer.
fn tell_counts(answer: Result<[u64; 256], ReportError>, counts: &mut NpCounts) -> u32
    ensures { TellsCounts answer result counts.old.pages counts.new.pages }
{
    match answer {
        Ok(found) => {
            counts.pages = found;
            0
        }
        Err(why) => fault_code(why),
    }
}

/// Counts, for each node, the mapped pages that would go to it.
#[unsafe(no_mangle)]
pub extern "C" fn np_core_predict(
    alloc: Global,
    core: &mut CoreHandle,
    task: u32,
    cpu: u32,
    counts: &mut NpCounts,
) -> u32
    ensures { Asked (core_in core.old) (core_in core.new) result (counts.new ≡ counts.old)
        (λ kept. (answer : Result (List ℕ) ReportError)
        × Predicts (core_in core.old) task cpu answer
        × TellsCounts answer result counts.old.pages counts.new.pages) }
{
    if_open!(predict_core(alloc, core, Touch { task, cpu }), answer => tell_counts(answer, counts))
}

/// Takes the mapped pages out of the free pages of each node.
#[unsafe(no_mangle)]
pub extern "C" fn np_core_fill(
    alloc: Global,
    core: &mut CoreHandle,
    task: u32,
    cpu: u32,
    free: &mut NpCounts,
) -> u32
    ensures told { Asked (core_in core.old) (core_in core.new) result (free.new ≡ free.old)
        (λ kept. (answer : Result (List ℕ) ReportError)
        × Fills (core_in core.old) task cpu free.old.pages answer
        × TellsCounts answer result free.old.pages free.new.pages) }
{
    let answer = fill_core(alloc, core, Touch { task, cpu }, &free.pages);
    if_open!(answer, answer => tell_counts(answer, free))
}
