//! Finding the runs that have to be rewritten after a command of a span.
ghost use Rattle.std.specs.Prelude.{◌≡◌, ◌+◌, ◌-◌, ◌<◌, ◌≤◌, length, get_or, Option};
ghost use Rattle.numa_mode.specs.Policy.{PolicyRecord};
ghost use Rattle.numa_ranges.specs.Runs.{AreApart, AreMaximal};
ghost use Rattle.numa_ranges.specs.Windows.{IsWindow, begins_in, starts_in};
ghost use Rattle.numa_ranges.specs.declared.run.Run.{Run};
ghost use Rattle.numa_space.specs.declared.change.ChangedPages.{ChangedPages};
ghost use Rattle.numa_compile.specs.Recompiling.{met_by};
ghost use Rattle.numa_compile.specs.Windows.{IsBehindSpan, IsOpen};

use crate::compiler::survey;
use numa_plan::Plan;
use numa_ranges::Run;
use numa_space::{ChangedPages, RangeRecord, Space};

/// A span from its first page to the page after its last, and the runs that meet it or are adjacent
/// to it: from a place to the place after the last of them, and the place to which that last place
/// has moved among the ranges of the space. `near` is a guess at their chunk in the plan.
#[derive(Clone, Copy)]
pub(crate) struct Window {
    pub first: u64,
    pub end: u64,
    pub from: usize,
    pub to: usize,
    pub to_now: usize,
    pub near: usize,
}

/// Finds the window of changed pages, near the place of that change if it is there.
pub(crate) fn find_window(plan: &Plan, space: &Space, pages: &ChangedPages) -> Window
    requires { pages.now.first ≤ pages.now.end }
    ensures first { result.first ≡ pages.now.first }
    ensures end { result.end ≡ pages.now.end }
    ensures place { result.to_now ≡ length space.now.ranges
        - (length plan.now.runs - result.to) }
    ensures window { IsWindow plan.now.runs result.first result.end result.from result.to }
{
    let (from, to, near) = plan.window_near(pages.first, pages.end, pages.place);
    let behind = plan.run_count() - to;
    Window {
        first: pages.first,
        end: pages.end,
        from,
        to,
        to_now: space.ranges().saturating_sub(behind),
        near,
    }
}

/// The window of a command that maps nothing. It has at most two more ranges than runs that met the
/// span, and at most as many that begin in the span.
pub(crate) fn open_window(plan: &Plan, space: &Space, pages: &ChangedPages) -> Window
    requires behind { IsBehindSpan space.now plan.now pages.now }
    ensures first { result.first ≡ pages.now.first }
    ensures end { result.end ≡ pages.now.end }
    ensures open { IsOpen space.now plan.now result }
    ensures few { result.to_now - result.from ≤ met_by pages.now plan.now + 2 }
    ensures begun { starts_in result.first result.end space.now.ranges ≤ met_by pages.now plan.now }
{
    survey(space);
    find_window(plan, space, pages)
}

/// The range at a place; there is one.
pub(crate) fn range_there(space: &Space, place: usize) -> Run<RangeRecord>
    requires { place < length space.now.ranges }
    ensures there { (d : Run (Option PolicyRecord)) → get_or space.now.ranges place d ≡ result }
    ensures rising { AreApart 0 space.now.ranges }
    ensures maximal { AreMaximal space.now.ranges }
{
    let Some(range) = space.range_at(place) else {
        unreachable!()
    };
    range
}

/// Whether a range begins in the window's span.
pub(crate) fn begins_inside(range: &Run<RangeRecord>, window: &Window) -> bool
    ensures { result ≡ begins_in window.now.first window.now.end range.now }
{
    window.first <= range.first && range.first < window.end
}
