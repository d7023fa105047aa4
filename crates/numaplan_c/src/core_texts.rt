//! What the words of the program answer, over cores.
ghost use Rattle.std.specs.Prelude.{◌≡◌, true, is_some, IfErr};
ghost use Rattle.numaplan_c.specs.Compared.{AskedBoth};
ghost use Rattle.numaplan_c.specs.Reports.{Reported, ReportedOf, is_untold};
ghost use Rattle.numaplan_handles.specs.Handles.{core_in};

use crate::asking::free_by_node;
use crate::keeping::ensure_open;
use crate::reports::{NpFree, NpQuestion, NpReport, known_format, made, tell_made, touch_of};
use numa_sheets::Touch;
use numaplan_handles::CoreHandle;
use numaplan_reports::{
    Report, diff_cores_text, explain_core_text, predict_core_text, replay_core_text,
};
use std::alloc::{AllocError, Global};

/// The report on an open handle.
fn of_open(answer: Option<Result<Report, AllocError>>) -> Result<Report, u32>
    requires open { is_some answer ≡ true }
    ensures { IfErr result (λ code. is_untold code ≡ true) }
{
    match answer {
        Some(report) => made(report),
        None => unreachable!(),
    }
}

/// Writes a report on the core of a handle that was made, or returns why none was: `Closed` if the
/// handle is closed.
macro_rules! report_if_open {
    ($handle:expr, $text:expr, $report:expr => $made:expr) => {{
        ensure_open!($handle);
        tell_made($made, $text, $report)
    }};
}

/// Where all mapped pages of an open core would go.
fn predicted(
    alloc: Global,
    core: &mut CoreHandle,
    touch: Touch,
    format: u32,
    free: &[NpFree],
) -> Result<Report, u32>
    requires open { is_some (core_in core.old) ≡ true }
    ensures same { core_in core.new ≡ core_in core.old }
    ensures untold { IfErr result (λ code. is_untold code ≡ true) }
{
    let format = known_format(format)?;
    let free = free_by_node(alloc, free)?;
    let answer = predict_core_text(alloc, core, touch, format, free.as_slice());
    drop(free);
    of_open(answer)
}

/// Writes where all mapped pages of a core would go.
#[unsafe(no_mangle)]
pub extern "C" fn np_core_predict_text(
    alloc: Global,
    core: &mut CoreHandle,
    asked: &NpQuestion,
    free: &[NpFree],
    text: &mut [u8],
    report: &mut NpReport,
) -> u32
    ensures { ReportedOf (core_in core.old) (core_in core.new) result text.old text.new report.old
        report.new }
{
    report_if_open!(core, text, report => {
        predicted(alloc, core, touch_of(asked), asked.format, free)
    })
}

/// Which pages go to another node in the second of two open cores than in the first.
fn compared(
    alloc: Global,
    before: &mut CoreHandle,
    after: &mut CoreHandle,
    asked: &NpQuestion,
) -> Result<Report, u32>
    requires before { is_some (core_in before.old) ≡ true }
    requires after { is_some (core_in after.old) ≡ true }
    ensures before { core_in before.new ≡ core_in before.old }
    ensures after { core_in after.new ≡ core_in after.old }
    ensures untold { IfErr result (λ code. is_untold code ≡ true) }
{
    let format = known_format(asked.format)?;
    of_open(diff_cores_text(alloc, before, after, touch_of(asked), format))
}

/// Writes which pages would go to another node in the second core than in the first.
#[unsafe(no_mangle)]
pub extern "C" fn np_core_diff_text(
    alloc: Global,
    before: &mut CoreHandle,
    after: &mut CoreHandle,
    asked: &NpQuestion,
    text: &mut [u8],
    report: &mut NpReport,
) -> u32
    ensures { AskedBoth (core_in before.old) (core_in after.old) (core_in before.new)
        (core_in after.new) result ((text.new ≡ text.old) × (report.new ≡ report.old))
        (λ one other. Reported result text.old text.new report.old report.new) }
{
    ensure_open!(before);
    ensure_open!(after);
    tell_made(compared(alloc, before, after, asked), text, report)
}

/// Why a page of an open core goes where it goes.
fn explained(
    alloc: Global,
    core: &mut CoreHandle,
    asked: &NpQuestion,
    page: u64,
) -> Result<Report, u32>
    requires open { is_some (core_in core.old) ≡ true }
    ensures same { core_in core.new ≡ core_in core.old }
    ensures untold { IfErr result (λ code. is_untold code ≡ true) }
{
    let format = known_format(asked.format)?;
    of_open(explain_core_text(alloc, core, touch_of(asked), page, format))
}

/// Writes why a page of a core would go where it goes.
#[unsafe(no_mangle)]
pub extern "C" fn np_core_explain_text(
    alloc: Global,
    core: &mut CoreHandle,
    asked: &NpQuestion,
    page: u64,
    text: &mut [u8],
    report: &mut NpReport,
) -> u32
    ensures { ReportedOf (core_in core.old) (core_in core.new) result text.old text.new report.old
        report.new }
{
    report_if_open!(core, text, report => explained(alloc, core, asked, page))
}

/// What a trace meets on the machine of an open core.
fn replayed(alloc: Global, core: &mut CoreHandle, trace: &[u8], format: u32) -> Result<Report, u32>
    requires open { is_some (core_in core.old) ≡ true }
    ensures same { core_in core.new ≡ core_in core.old }
    ensures untold { IfErr result (λ code. is_untold code ≡ true) }
{
    let format = known_format(format)?;
    of_open(replay_core_text(alloc, core, trace, format))
}

/// Writes what a trace meets on the machine of a core.
#[unsafe(no_mangle)]
pub extern "C" fn np_core_replay_text(
    alloc: Global,
    core: &mut CoreHandle,
    trace: &[u8],
    asked: &NpQuestion,
    text: &mut [u8],
    report: &mut NpReport,
) -> u32
    ensures { ReportedOf (core_in core.old) (core_in core.new) result text.old text.new report.old
        report.new }
{
    report_if_open!(core, text, report => replayed(alloc, core, trace, asked.format))
}
