//! Editing runs: cut at the ends of a span, changed inside it.
ghost use Rattle.std.specs.Prelude.{◌≡◌, ◌+◌, ◌*◌, ◌<◌, ◌≤◌, ◌^◌, List, [], ◌∷◌, ◌++◌, length};
ghost use Rattle.std.specs.Prelude.{take, drop};
ghost use Rattle.std.specs.List.{slice_range};
ghost use Rattle.std.specs.Prelude.{Option, None, All};
ghost use Rattle.numa_rows.specs.Changes.{Makes};
ghost use Rattle.numa_ranges.specs.Runs.{AreApart};
ghost use Rattle.numa_ranges.specs.Edits.{IsInRange, part_within};
ghost use Rattle.numa_ranges.specs.Edits.{edit_of};
ghost use Rattle.numa_ranges.specs.Edited.{IsPlaced, edited_or_kept};
ghost use Rattle.numa_ranges.specs.Gathered.{AreGathered, Gathered};
ghost use Rattle.numa_ranges.specs.Numbered.{AreNumbered, run_of, runs_of};

use crate::edited_row::{EditedRow, value_of};
use crate::edited_rows::EditedRows;
use crate::exact::Exact;
use crate::pieces::Pieces;
use crate::range_iter::RangeIter;
use crate::row::Row;
use crate::run::Run;
use crate::runs::Runs;
use numa_rows::{Iter, Owned};
use std::alloc::Global;

/// Gathers the next `count` rows, with the pages inside the span edited.
#[inline]
pub(crate) fn gather_edited<T: Exact, F: Fn(&T) -> Option<T>>(
    rows: &mut EditedRows,
    rest: &mut Iter<'_, Row, Owned<Row>>,
    values: &[T],
    count: usize,
    first: u64,
    end: u64,
    edit: &F,
)
    requires callable { F.IsAlwaysCallable edit.now }
    requires closed { rows.old.closed.items ≡ [] }
    requires open_row { rows.old.open_row ≡ None }
    requires none { rows.old.count ≡ 0 }
    requires numbered { AreNumbered values.now rest.old }
    requires within { count ≤ length rest.old }
    requires len { count ≤ 2 ^ 32 }
    requires in_range { All IsInRange (take count (runs_of values.now rest.old)) }
    requires some { All (λ run. 0 < run.pages) (take count (runs_of values.now rest.old)) }
    ensures gathered { (change : T → Option T) → Makes F.Fn edit.now change
        → AreGathered T.eq change values.now rows.new
        (edit_of first end change (take count (runs_of values.now rest.old))) }
    ensures count { rows.new.count ≤ 3 * count }
{
    for k in 0..count {
        let Some(seen) = rest.next() else {
            unreachable!()
        };
        let row: Row = *seen;
        add_part(rows, values, row, 0, first, false, edit);
        add_part(rows, values, row, first, end, true, edit);
        add_part(rows, values, row, end, u64::MAX, false, edit);
    }
}

/// Gathers the runs from one rank to another, with a run inserted at a place between them. `near`
/// is a guess at the chunk of the first.
#[inline]
pub(crate) fn gather_with<T: Exact>(
    alloc: Global,
    runs: &Runs<T>,
    from: usize,
    place: usize,
    to: usize,
    run: Run<T>,
    near: usize,
) -> Pieces<T>
    requires apart { AreApart 0 runs.now }
    requires rises { from ≤ place }
    requires reaches { place ≤ to }
    requires within { to ≤ length runs.now }
    requires few { to ≤ from + 2 }
    requires run { IsInRange run }
    ensures gathered { Gathered T.eq result ((slice_range runs.now from place ++ run ∷ [])
        ++ slice_range runs.now place to) }
    ensures count { result.count ≤ 3 }
{
    let mut pieces = Pieces::new(alloc, to - from + 1);
    let mut rest = runs.iter_near(from, near);
    add_all(&mut pieces, &mut rest, place - from);
    pieces.add(run);
    add_all(&mut pieces, &mut rest, to - place);
    pieces
}

/// Adds the next `count` runs unchanged.
fn add_all<T: Exact>(pieces: &mut Pieces<T>, rest: &mut RangeIter<'_, T>, count: usize)
    requires within { count ≤ length rest.old }
    requires len { count ≤ 2 ^ 32 }
    requires in_range { All IsInRange (take count rest.old) }
    requires room { pieces.old.count < 2 ^ 60 }
    ensures gathered { (added : List (Run T)) → Gathered T.eq pieces.old added
        → Gathered T.eq pieces.new (added ++ take count rest.old) }
    ensures rest { rest.new ≡ drop count rest.old }
    ensures count { pieces.new.count ≤ pieces.old.count + count }
{
    for k in 0..count {
        let Some(run) = rest.next() else {
            unreachable!()
        };
        pieces.add(run);
    }
}

/// Adds the part of a row between two pages: as it is, or with the value that `edit` returns, if
/// any.
#[inline]
fn add_part<T: Exact, F: Fn(&T) -> Option<T>>(
    rows: &mut EditedRows,
    values: &[T],
    row: Row,
    first: u64,
    end: u64,
    is_edited: bool,
    edit: &F,
)
    requires callable { F.IsAlwaysCallable edit.now }
    requires placed { IsPlaced row.first row.pages row.index }
    requires room { rows.old.count < 2 ^ 63 }
    ensures gathered { (change : T → Option T) → Makes F.Fn edit.now change
        → (added : List (Run T)) (run : Run T) → run_of values.now row ≡ run ∷ []
        → AreGathered T.eq change values.now rows.old added
        → AreGathered T.eq change values.now rows.new
        (added ++ part_within first end (edited_or_kept change is_edited) run) }
    ensures count { rows.new.count ≤ rows.old.count + 1 }
{
    let start = first.max(row.first);
    let stop = end.min(row.first + row.pages);
    if start < stop {
        let made = EditedRow {
            first: start,
            pages: stop - start,
            index: row.index + (start - row.first),
            number: row.number,
            is_edited,
        };
        if let Some(_value) = value_of(values, &made, edit) {
            rows.add(values, made, edit);
        }
    }
}
