//! Joining runs in place.
ghost use Rattle.std.specs.Prelude.{◌≡◌, ◌<◌, length, slice_get, slice_set, slice_index_or, Some};
ghost use Rattle.std.specs.Prelude.{All, ◌∷◌, false, take};
ghost use Rattle.numa_ranges.specs.Edits.{IsInRange, maximal_runs};
ghost use Rattle.numa_ranges.specs.Numbered.{AreNumbered, run_of, runs_of};
ghost use Rattle.numa_ranges.specs.Runs.{AreMaximal};

use crate::exact::Exact;
use crate::range_iter::RangeIter;
use crate::row::{Row, with_value};
use crate::run::{Run, continues};
use numa_rows::{Owned, Rows};

/// Joins each run to the one before it if it continues that. It doesn't allocate. Where no run
/// does, nothing is written.
pub(crate) fn join_in_place<T: Exact>(rows: &mut Rows<Row, Owned<Row>>, values: &[T])
    requires numbered { AreNumbered values.now rows.old }
    requires in_range { All IsInRange (runs_of values.now rows.old) }
    ensures numbered { AreNumbered values.now rows.new }
    ensures joined { runs_of values.now rows.new ≡ maximal_runs T.eq (runs_of values.now rows.old) }
{
    if rows.is_empty() {
        return;
    }
    if !has_joint(rows, values) {
        return;
    }
    let mut from = 0;
    let mut into = 0;
    let first = run_at(rows, values, 0, &mut from);
    let mut last = first.0;
    let mut number = first.1;
    let mut kept = 0;
    for i in 1..rows.len() {
        let seen = run_at(rows, values, i, &mut from);
        let run = seen.0;
        if continues(&last, &run) {
            last = Run {
                first: last.first,
                pages: last.pages + run.pages,
                index: last.index,
                value: last.value,
            };
            continue;
        }
        put_run(rows, values, kept, last, number, &mut into);
        kept += 1;
        last = run;
        number = seen.1;
    }
    put_run(rows, values, kept, last, number, &mut into);
    keep_runs(rows, values, kept + 1);
}

/// Whether a run continues the one before it.
fn has_joint<T: Exact>(rows: &Rows<Row, Owned<Row>>, values: &[T]) -> bool
    requires numbered { AreNumbered values.now rows.now }
    requires in_range { All IsInRange (runs_of values.now rows.now) }
    ensures { result ≡ false → AreMaximal (runs_of values.now rows.now) }
{
    let mut runs = RangeIter::new(rows.iter(), values);
    let Some(first) = runs.next() else {
        return false;
    };
    joins_on(first, runs)
}

/// Whether one of the runs behind a first one continues the one before it.
fn joins_on<T: Exact>(first: Run<T>, runs: RangeIter<'_, T>) -> bool
    requires { All IsInRange (first ∷ runs) }
    ensures { result ≡ false → AreMaximal (first ∷ runs.entry) }
{
    let mut last = first;
    for run in runs {
        if continues(&last, &run) {
            return true;
        }
        last = run;
    }
    false
}

/// The run at a rank, and the number of its value. `near` is a guess at its chunk.
fn run_at<T: Exact>(
    rows: &Rows<Row, Owned<Row>>,
    values: &[T],
    rank: usize,
    near: &mut usize,
) -> (Run<T>, u32)
    requires numbered { AreNumbered values.now rows.now }
    requires within { rank < length rows.now }
    ensures run { (d : Run T) → result.0 ≡ slice_index_or (runs_of values.now rows.now) rank d }
    ensures number { slice_get values.now result.1 ≡ Some result.0.value }
{
    let row = *rows.get_near(rank, near);
    (with_value(values, row), row.number)
}

/// Replaces the run at a rank by one whose value has a number. `near` is a guess at its chunk.
fn put_run<T: Exact>(
    rows: &mut Rows<Row, Owned<Row>>,
    _values: &[T],
    rank: usize,
    run: Run<T>,
    number: u32,
    near: &mut usize,
)
    requires numbered { AreNumbered _values.now rows.old }
    requires within { rank < length rows.old }
    requires number { slice_get _values.now number ≡ Some run.value }
    ensures size { length rows.new ≡ length rows.old }
    ensures numbered { AreNumbered _values.now rows.new }
    ensures runs { runs_of _values.now rows.new
        ≡ slice_set (runs_of _values.now rows.old) rank run }
{
    let row = Row {
        first: run.first,
        pages: run.pages,
        index: run.index,
        number,
    };
    rows.put_near(rank, row, near);
}

/// Keeps the first `count` runs and removes the others.
fn keep_runs<T: Exact>(rows: &mut Rows<Row, Owned<Row>>, _values: &[T], count: usize)
    requires numbered { AreNumbered _values.now rows.old }
    ensures numbered { AreNumbered _values.now rows.new }
    ensures runs { runs_of _values.now rows.new ≡ take count (runs_of _values.now rows.old) }
{
    rows.truncate(count);
}
