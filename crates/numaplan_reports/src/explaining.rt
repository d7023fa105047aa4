//! Why a page of a core goes where it goes.
ghost use Rattle.std.specs.Prelude.{◌≡◌, Some, true};
ghost use Rattle.numaplan_handles.specs.Calls.{Asks};
ghost use Rattle.numaplan_handles.specs.Handles.{core_in};
ghost use Rattle.numaplan_handles.specs.Kinds.{core_of, is_core};
ghost use Rattle.numaplan_reports.specs.Asked.{Explains, IsExplained};

use numa_rules::{Explanation, ReasonError, explain};
use numa_sheets::Touch;
use numa_space::Space;
use numaplan_handles::{CoreHandle, Kept, core_kept, of_kept};
use std::alloc::Global;

/// Why a page of a space would go where it goes.
fn explain_space(
    alloc: Global,
    space: &Space,
    touch: Touch,
    page: u64,
) -> Result<Explanation, ReasonError>
    ensures { IsExplained space.now touch.task page touch.cpu result }
{
    explain(alloc, space, touch.task, page, touch.cpu)
}

/// The same for a core.
fn explain_kept(
    kept: &Kept,
    alloc: Global,
    touch: Touch,
    page: u64,
) -> Result<Explanation, ReasonError>
    requires core { is_core (Some kept.now) ≡ true }
    ensures { Explains (core_of (Some kept.now)) touch.task page touch.cpu result }
{
    explain_space(alloc, core_kept(kept).space(), touch, page)
}

/// Why a page would go where it goes, if the task touched it now on a CPU of node `cpu`, by all
/// accepted commands. `None` if the handle is closed.
///
/// # Errors
/// In the `Some`, as [`explain`].
pub fn explain_core(
    alloc: Global,
    core: &mut CoreHandle,
    touch: Touch,
    page: u64,
) -> Option<Result<Explanation, ReasonError>>
    ensures { Asks (λ answer. Explains (core_in core.old) touch.task page touch.cpu answer)
        (core_in core.old) result (core_in core.new) }
{
    of_kept!(core.handle, alloc, kept => explain_kept(&kept, alloc, touch, page))
}
