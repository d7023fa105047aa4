//! The words of the program, over cores that handles keep.
ghost use Rattle.std.specs.Prelude.{◌≡◌, [], IfOk, IfErr, Err, Ok, Some, ⊤, true};
ghost use Rattle.numaplan_handles.specs.Calls.{Asks};
ghost use Rattle.numaplan_handles.specs.Handles.{core_in};
ghost use Rattle.numaplan_handles.specs.Kinds.{is_core};
ghost use Rattle.numaplan_reports.specs.Compared.{AsksBoth};

use crate::asking::replay_of;
use crate::report::{Report, report_of};
use crate::sources::named;
use numa_questions::{explain_space, predict_space};
use numa_sheets::{Format, FreePages, Touch};
use numa_subjects::{Ended, Halt};
use numa_what_if::{diff_spaces, replay_space};
use numaplan_handles::{CoreHandle, Kept, core_kept, of_kept};
use std::alloc::{AllocError, Global};

/// A text as an answer without messages, or why there is none.
fn answer_of(alloc: Global, text: Result<Vec<u8>, Halt>) -> (Vec<u8>, Result<Ended, Halt>) {
    match text {
        Ok(text) => (text, Ok(Ended::Clean)),
        Err(halt) => (Vec::new(alloc), Err(halt)),
    }
}

/// The report of a text, if there is one.
fn report_by(alloc: Global, text: Result<Vec<u8>, Halt>) -> Result<Report, AllocError> {
    let (answer, ended) = answer_of(alloc, text);
    report_of(answer, Vec::new(alloc), ended)
}

/// Where all mapped pages of a core would go, as [`predict_space`] writes it, by all accepted
/// commands. `None` if the handle is closed.
///
/// # Errors
/// In the `Some`: `AllocError`, out of memory.
pub fn predict_core_text(
    alloc: Global,
    core: &mut CoreHandle,
    asked: Touch,
    format: Format,
    free: &[FreePages],
) -> Option<Result<Report, AllocError>>
    ensures { Asks (λ _. ⊤) (core_in core.old) result (core_in core.new) }
{
    of_kept!(core.handle, alloc, kept => {
        report_by(alloc, predict_space(alloc, core_kept(&kept).space(), asked, format, free))
    })
}

/// Why a page of a core would go where it goes, as [`explain_space`] writes it, by all accepted
/// commands. `None` if the handle is closed.
///
/// # Errors
/// In the `Some`: `AllocError`, out of memory.
pub fn explain_core_text(
    alloc: Global,
    core: &mut CoreHandle,
    asked: Touch,
    page: u64,
    format: Format,
) -> Option<Result<Report, AllocError>>
    ensures { Asks (λ _. ⊤) (core_in core.old) result (core_in core.new) }
{
    of_kept!(core.handle, alloc, kept => {
        report_by(alloc, explain_space(alloc, core_kept(&kept).space(), asked, page, format))
    })
}

/// What a trace meets on the machine of a core.
fn replay_kept(
    kept: &Kept,
    alloc: Global,
    trace: &[u8],
    format: Format,
) -> Result<Report, AllocError>
    requires core { is_core (Some kept.now) ≡ true }
{
    let traces = named(alloc, "trace", trace)?;
    let space = core_kept(kept).space();
    let (answer, ended) = answer_of(alloc, replay_space(alloc, space, traces, format));
    replay_of(alloc, answer, Vec::new(alloc), ended)
}

/// What a trace meets on the machine of a core, as [`replay_space`] writes it, by all accepted
/// commands. The message, if there is one, is about the line of the trace that can't be replayed.
/// `None` if the handle is closed.
///
/// # Errors
/// In the `Some`: `AllocError`, out of memory.
pub fn replay_core_text(
    alloc: Global,
    core: &mut CoreHandle,
    trace: &[u8],
    format: Format,
) -> Option<Result<Report, AllocError>>
    ensures { Asks (λ _. ⊤) (core_in core.old) result (core_in core.new) }
{
    of_kept!(core.handle, alloc, kept => replay_kept(&kept, alloc, trace, format))
}

/// Which pages would go to another node in the second core than in the first.
fn diff_kept(
    before: &Kept,
    after: &Kept,
    alloc: Global,
    asked: Touch,
    format: Format,
) -> Result<Report, AllocError>
    requires cores { (is_core (Some before.now) ≡ true) × (is_core (Some after.now) ≡ true) }
{
    let (one, other) = (core_kept(before), core_kept(after));
    let text = diff_spaces(alloc, one.space(), other.space(), asked, format);
    report_by(alloc, text)
}

/// Which pages would go to another node in the second core than in the first, as [`diff_spaces`]
/// writes it, by all accepted commands. `None` if a handle is closed.
///
/// # Errors
/// In the `Some`: `AllocError`, out of memory.
pub fn diff_cores_text(
    alloc: Global,
    before: &mut CoreHandle,
    after: &mut CoreHandle,
    asked: Touch,
    format: Format,
) -> Option<Result<Report, AllocError>>
    ensures { AsksBoth (λ _. ⊤) (core_in before.old) (core_in after.old) result
        (core_in before.new) (core_in after.new) }
{
    let one = before.handle.take(alloc)?;
    let Some(other) = after.handle.take(alloc) else {
        before.handle.put(one);
        return None;
    };
    let answer = diff_kept(&one, &other, alloc, asked, format);
    before.handle.put(one);
    after.handle.put(other);
    Some(answer)
}
