//! Which pages go to another node in one core than in another.
ghost use Rattle.std.specs.Prelude.{◌≡◌, Some, true};
ghost use Rattle.numaplan_handles.specs.Handles.{core_in};
ghost use Rattle.numaplan_handles.specs.Kinds.{core_of, is_core};
ghost use Rattle.numaplan_handles.specs.Steps.{Compiles};
ghost use Rattle.numaplan_reports.specs.Compared.{AsksBoth, Differs, IsCompared, IsPlanFor};

use numa_plan::Plan;
use numa_reports::{ReportError, SpanMove, all_moves};
use numa_sheets::Touch;
use numa_space::Space;
use numaplan_handles::{CoreHandle, Kept, compile_kept, core_kept};
use std::alloc::Global;

/// The moves between two spaces, each with its plan.
fn diff_planned(
    alloc: Global,
    before: &Space,
    old: &Plan,
    after: &Space,
    new: &Plan,
    touch: Touch,
) -> Result<Vec<SpanMove>, ReportError>
    requires old { IsPlanFor before.now old.now }
    requires new { IsPlanFor after.now new.now }
    ensures { IsCompared (λ moves. moves.items) before.now after.now touch.task touch.cpu result }
{
    all_moves(alloc, before, old, after, new, touch)
}

/// The moves between two cores, by the plans of their accepted commands.
fn diff_by(
    alloc: Global,
    before: &Kept,
    old: &Plan,
    after: &Kept,
    new: &Plan,
    touch: Touch,
) -> Result<Vec<SpanMove>, ReportError>
    requires cores { (is_core (Some before.now) ≡ true) × (is_core (Some after.now) ≡ true) }
    requires old { Compiles (core_of (Some before.now)) old.now }
    requires new { Compiles (core_of (Some after.now)) new.now }
    ensures { Differs (λ moves. moves.items) (core_of (Some before.now))
        (core_of (Some after.now)) touch.task touch.cpu result }
{
    let (one, other) = (core_kept(before), core_kept(after));
    diff_planned(alloc, one.space(), old, other.space(), new, touch)
}

/// The moves from a core with its plan to another core.
fn diff_to(
    alloc: Global,
    before: &Kept,
    old: &Plan,
    after: &mut Kept,
    touch: Touch,
) -> Result<Vec<SpanMove>, ReportError>
    requires cores { (is_core (Some before.now) ≡ true) × (is_core (Some after.old) ≡ true) }
    requires old { Compiles (core_of (Some before.now)) old.now }
    ensures same { after.new ≡ after.old }
    ensures differs { Differs (λ moves. moves.items) (core_of (Some before.now))
        (core_of (Some after.old)) touch.task touch.cpu result }
{
    let Ok(new) = compile_kept(after, alloc) else {
        return Err(ReportError::Memory);
    };
    let moves = diff_by(alloc, before, old, after, &new, touch);
    drop(new);
    moves
}

/// The moves between two cores.
fn diff_kept(
    alloc: Global,
    before: &mut Kept,
    after: &mut Kept,
    touch: Touch,
) -> Result<Vec<SpanMove>, ReportError>
    requires cores { (is_core (Some before.old) ≡ true) × (is_core (Some after.old) ≡ true) }
    ensures same { (before.new ≡ before.old) × (after.new ≡ after.old) }
    ensures differs { Differs (λ moves. moves.items) (core_of (Some before.old))
        (core_of (Some after.old)) touch.task touch.cpu result }
{
    let Ok(old) = compile_kept(before, alloc) else {
        return Err(ReportError::Memory);
    };
    let moves = diff_to(alloc, before, &old, after, touch);
    drop(old);
    moves
}

/// The pages that would go to another node in the second core than in the first, if the task
/// touched each of them now on a CPU of node `cpu`, by all accepted commands, as [`all_moves`]
/// tells them. `None` if a handle is closed.
///
/// # Errors
/// In the `Some`: `Refused(BadCpu)`, a machine has no node `cpu`; `Memory`, out of memory.
pub fn diff_cores(
    alloc: Global,
    before: &mut CoreHandle,
    after: &mut CoreHandle,
    touch: Touch,
) -> Option<Result<Vec<SpanMove>, ReportError>>
    ensures { AsksBoth (Differs (λ moves. moves.items) (core_in before.old) (core_in after.old)
        touch.task touch.cpu) (core_in before.old) (core_in after.old) result (core_in before.new)
        (core_in after.new) }
{
    let mut one = before.handle.take(alloc)?;
    let Some(mut other) = after.handle.take(alloc) else {
        before.handle.put(one);
        return None;
    };
    let answer = diff_kept(alloc, &mut one, &mut other, touch);
    before.handle.put(one);
    after.handle.put(other);
    Some(answer)
}
