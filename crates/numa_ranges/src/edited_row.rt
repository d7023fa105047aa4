//! Rows that an edit makes, before its new values have numbers.
ghost use Rattle.std.specs.Prelude.{◌≡◌, ◌+◌, Option, Some, IsTrue, ◌↔◌, true};
ghost use Rattle.numa_rows.specs.Changes.{Makes};
ghost use Rattle.numa_ranges.specs.Runs.{Continues};
ghost use Rattle.numa_ranges.specs.Edited.{IsPlaced, IsEditedRow, value_of_row};
ghost use Rattle.numa_ranges.specs.declared.run.Run.{Run};

use crate::exact::Exact;

/// A row of an edit: it has the value of its number, or what the edit returns for that value.
#[derive(Clone, Copy)]
pub(crate) struct EditedRow {
    pub(crate) first: u64,
    pub(crate) pages: u64,
    pub(crate) index: u64,
    pub(crate) number: u32,
    pub(crate) is_edited: bool,
}

/// The value of a row.
#[inline]
pub(crate) fn value_of<T: Exact, F: Fn(&T) -> Option<T>>(
    values: &[T],
    row: &EditedRow,
    edit: &F,
) -> Option<T>
    requires { F.IsAlwaysCallable edit.now }
    ensures { (change : T → Option T) → Makes F.Fn edit.now change
        → result ≡ value_of_row change values.now row.now }
{
    let Some(value) = values.get(row.number as usize) else {
        return None;
    };
    if row.is_edited {
        return edit(value);
    }
    Some(*value)
}

/// Whether two rows have one value. Numbers are compared first.
#[inline]
fn have_one_value<T: Exact, F: Fn(&T) -> Option<T>>(
    values: &[T],
    row: &EditedRow,
    next: &EditedRow,
    edit: &F,
) -> bool
    requires { F.IsAlwaysCallable edit.now }
    ensures { (change : T → Option T) → Makes F.Fn edit.now change → (value other : T)
        → value_of_row change values.now row.now ≡ Some value
        → value_of_row change values.now next.now ≡ Some other → IsTrue result ↔ (other ≡ value) }
{
    if row.number == next.number && row.is_edited == next.is_edited {
        return true;
    }
    let Some(value) = value_of(values, row, edit) else {
        return false;
    };
    let Some(other) = value_of(values, next, edit) else {
        return false;
    };
    value == other
}

/// Whether the second row continues the first.
#[inline]
pub(crate) fn row_continues<T: Exact, F: Fn(&T) -> Option<T>>(
    values: &[T],
    row: &EditedRow,
    next: &EditedRow,
    edit: &F,
) -> bool
    requires callable { F.IsAlwaysCallable edit.now }
    requires placed { IsPlaced row.now.first row.now.pages row.now.index }
    ensures beside { result ≡ true → (next.now.first ≡ row.now.first + row.now.pages)
        × (next.now.index ≡ row.now.index + row.now.pages) }
    ensures continues { (change : T → Option T) → Makes F.Fn edit.now change → (run other : Run T)
        → IsEditedRow change values.now row.now run
        → IsEditedRow change values.now next.now other → IsTrue result ↔ Continues run other }
{
    next.first == row.first + row.pages
        && next.index == row.index + row.pages
        && have_one_value(values, row, next, edit)
}
