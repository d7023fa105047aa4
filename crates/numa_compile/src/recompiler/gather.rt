//! Gathering the runs for the ranges that a command of a span changed.
ghost use Rattle.std.specs.Prelude.{◌≡◌, ◌≤◌, false, true, OnOk, [], ◌∷◌, ◌++◌, length};
ghost use Rattle.std.specs.List.{slice_range};
ghost use Rattle.numa_ranges.specs.Windows.{begins_in};
ghost use Rattle.numa_space.specs.Policies.{where_live};
ghost use Rattle.numa_plan.specs.Slots.{policy_in};
ghost use Rattle.numa_compile.specs.Copies.{AreCopies, IsNumber};
ghost use Rattle.numa_compile.specs.Windows.{IsNumbered, KeepsOutside, NumbersInside};
ghost use Rattle.numa_compile.specs.declared.recompiler.window.Window.{Window};

use crate::recompiler::window::{Window, begins_inside, range_there};
use numa_machine::NoMemory;
use numa_plan::Plan;
use numa_ranges::Run;
use numa_space::{RangeRecord, Space};

/// The rule number of a range that begins outside the window's span: that of the run that has its
/// first page, which is the first or the last of the window.
pub(crate) fn number_before(plan: &Plan, window: &Window, range: &Run<RangeRecord>) -> Option<u32>
    requires numbered { IsNumbered plan.now range.now }
    ensures { IsNumber (policy_in plan.now.slots) (where_live range.now.value) result }
{
    let place = if range.first < window.first {
        window.from
    } else {
        window.to.saturating_sub(1)
    };
    let Some(number) = plan.number_near(range.first, place, window.near) else {
        unreachable!()
    };
    number
}

/// The rule number of a range of the window: the given one if it begins in the window's span.
fn number_in(
    plan: &Plan,
    window: &Window,
    range: &Run<RangeRecord>,
    given: Option<u32>,
) -> Option<u32>
    requires outside { begins_in window.now.first window.now.end range.now ≡ false
        → IsNumbered plan.now range.now }
    requires inside { begins_in window.now.first window.now.end range.now ≡ true
        → IsNumber (policy_in plan.now.slots) (where_live range.now.value) given }
    ensures { IsNumber (policy_in plan.now.slots) (where_live range.now.value) result }
{
    if begins_inside(range, window) {
        return given;
    }
    number_before(plan, window, range)
}

/// Appends the run of a range, with the number of its policy's rule.
pub(crate) fn push_run(
    runs: &mut Vec<Run<Option<u32>>>,
    range: &Run<RangeRecord>,
    number: Option<u32>,
) -> Result<(), NoMemory>
    ensures { OnOk result (runs.new.items ≡ runs.old.items ++ record {
      first = range.now.first;
      pages = range.now.pages;
      index = range.now.index;
      value = number;
    } ∷ []) }
{
    runs.push(Run {
        first: range.first,
        pages: range.pages,
        index: range.index,
        value: number,
    })?;
    Ok(())
}

/// Appends a run for each range of the window, with the given rule number for those that begin in
/// its span, and their previous number for the others.
///
/// # Errors
/// `NoMemory`: there is no memory for the runs.
pub(crate) fn gather_runs(
    plan: &Plan,
    space: &Space,
    window: &Window,
    given: Option<u32>,
    runs: &mut Vec<Run<Option<u32>>>,
) -> Result<(), NoMemory>
    requires none { runs.old.items ≡ [] }
    requires rises { window.now.from ≤ window.now.to_now }
    requires within { window.now.to_now ≤ length space.now.ranges }
    requires outside { KeepsOutside space.now plan.now window.now }
    requires inside { NumbersInside space.now plan.now window.now given }
    ensures { OnOk result (AreCopies (policy_in plan.now.slots)
        (slice_range space.now.ranges window.now.from window.now.to_now) runs.new.items) }
{
    for k in window.from..window.to_now {
        let range = range_there(space, k);
        let value = number_in(plan, window, &range, given);
        push_run(runs, &range, value)?;
    }
    Ok(())
}
