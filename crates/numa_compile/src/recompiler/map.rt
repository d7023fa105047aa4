//! The window of a span that is mapped.
ghost use Rattle.std.specs.Prelude.{◌≡◌, ◌-◌, ◌<◌, ◌≤◌, true, false, length, None};
ghost use Rattle.std.specs.Bool.{OnTrue, OnFalse};
ghost use Rattle.numa_ranges.specs.Runs.{end_of};
ghost use Rattle.numa_compile.specs.Windows.{BeginsBeside, BeginsInside, IsBehindMap, IsOpen};
ghost use Rattle.numa_compile.specs.Windows.{NumbersInside};
ghost use Rattle.numa_compile.specs.declared.recompiler.window.Window.{Window};

use crate::compiler::survey;
use crate::recompiler::window::{Window, find_window, range_there};
use numa_plan::Plan;
use numa_ranges::Run;
use numa_space::{ChangedPages, RangeRecord, Space};

/// Whether a range ends at a page or before it.
fn ends_by(range: &Run<RangeRecord>, page: u64) -> bool
    ensures ended { result ≡ true → end_of range.now ≤ page }
    ensures reaches { result ≡ false → page < end_of range.now }
{
    range.first <= page && range.pages <= page - range.first
}

/// Whether the window's first range ends where the span begins, so that it wasn't joined to the
/// span.
fn begins_beside(space: &Space, window: &Window) -> bool
    requires within { window.now.to_now ≤ length space.now.ranges }
    ensures beside { OnTrue result (BeginsBeside space.now window.now) }
    ensures inside { OnFalse result (BeginsInside space.now window.now) }
{
    if window.from >= window.to_now {
        return false;
    }
    ends_by(&range_there(space, window.from), window.first)
}

/// The window of a span that is mapped, without a first range that wasn't joined to it. It has at
/// most two ranges.
pub(crate) fn mapped_window(plan: &Plan, space: &Space, pages: &ChangedPages) -> Window
    requires behind { IsBehindMap space.now plan.now pages.now }
    ensures open { IsOpen space.now plan.now result }
    ensures inside { NumbersInside space.now plan.now result None }
    ensures few { result.to_now - result.from ≤ 2 }
{
    survey(space);
    let window = find_window(plan, space, pages);
    if begins_beside(space, &window) {
        return Window {
            from: window.from + 1,
            ..window
        };
    }
    window
}
