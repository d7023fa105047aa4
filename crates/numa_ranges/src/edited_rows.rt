//! Gathering the rows of an edit, and joining them on the way.
ghost use Rattle.std.specs.Prelude.{◌≡◌, ◌+◌, ◌<◌, ◌≤◌, ◌^◌, [], length, IfOk, OnOk, Option, Some};
ghost use Rattle.std.specs.Prelude.{List, None};
ghost use Rattle.std.specs.Option.{ForSome};
ghost use Rattle.numa_rows.specs.Changes.{Makes};
ghost use Rattle.numa_ranges.specs.Edited.{IsRowPlaced, AreEditedRows, value_of_row};
ghost use Rattle.numa_ranges.specs.Numbered.{AreRowsOf, IsLonger};
ghost use Rattle.std.specs.Prelude.{slice_get, slice_index_or};
ghost use Rattle.numa_ranges.specs.declared.run.Run.{Run};

use crate::edited_row::{EditedRow, row_continues, value_of};
use crate::exact::Exact;
use crate::fault::RangeError;
use crate::list::{RowList, row_count, splice_rows};
use crate::row::Row;
use crate::values::Values;
use std::alloc::AllocError;

/// Rows that are added one by one, each joined to the one before if it continues that.
///
/// Without memory for them the rows are only counted.
#[derive(Drop)]
pub(crate) struct EditedRows {
    pub(crate) closed: Vec<EditedRow>,
    pub(crate) open_row: Option<EditedRow>,
    pub(crate) count: u64,
    pub(crate) is_refused: bool,
    ghost placed: { ForSome open_row IsRowPlaced },
}

impl EditedRows {
    ghost use Rattle.std.specs.Prelude.{◌≡◌, ◌+◌, ◌<◌, ◌≤◌, ◌^◌, List, [], ◌∷◌, ◌++◌, length, OnOk};
    ghost use Rattle.std.specs.Prelude.{OnErr, IfErr, false, if◌then◌else◌, nat_lt};
    ghost use Rattle.numa_ranges.specs.Edits.{maximal_runs};
    ghost use Rattle.numa_ranges.specs.Edited.{IsRowPlaced, IsEditedRow};
    ghost use Rattle.numa_ranges.specs.Gathered.{AreGathered};
    ghost use Rattle.numa_ranges.specs.Numbered.{AreNumbered, runs_of};
    ghost use Rattle.std.specs.List.{splice};
    ghost use Rattle.numa_ranges.specs.declared.fault.RangeError.TheVariants.{TooManyRanges};
    ghost use Rattle.numa_ranges.specs.declared.fault.RangeError.TheVariants.{NoMemory};

    /// No rows, with room for `room`, if there is memory for it; `closed` is a vector for them.
    pub(crate) fn new(mut closed: Vec<EditedRow>, room: usize) -> EditedRows
        ensures closed { result.closed.items ≡ [] }
        ensures open_row { result.open_row ≡ None }
        ensures count { result.count ≡ 0 }
    {
        closed.clear();
        // Without memory for the room each row asks for its own.
        let _ = closed.reserve(room);
        EditedRows {
            closed,
            open_row: None,
            count: 0,
            is_refused: false,
        }
    }

    /// Adds a row.
    pub(crate) fn add<T: Exact, F: Fn(&T) -> Option<T>>(
        &mut self,
        values: &[T],
        row: EditedRow,
        edit: &F,
    )
        requires callable { F.IsAlwaysCallable edit.now }
        requires placed { IsRowPlaced row }
        requires room { self.old.count < 2 ^ 63 }
        ensures gathered { (change : T → Option T) → Makes F.Fn edit.now change
            → (added : List (Run T)) (run : Run T) → IsEditedRow change values.now row run
            → AreGathered T.eq change values.now self.old added
            → AreGathered T.eq change values.now self.new (added ++ run ∷ []) }
        ensures count { self.new.count ≤ self.old.count + 1 }
    {
        let Some(last) = self.open_row else {
            self.open_row = Some(row);
            return;
        };
        if row_continues(values, &last, &row, edit) {
            self.open_row = Some(EditedRow {
                first: last.first,
                pages: last.pages + row.pages,
                index: last.index,
                number: last.number,
                is_edited: last.is_edited,
            });
        } else {
            self.close(last);
            self.open_row = Some(row);
        }
    }

    /// Closes the open row, so that everything that was added is among the closed ones.
    fn seal(&mut self)
        requires room { self.old.count < 2 ^ 63 }
        ensures sealed { self.new.open_row ≡ None }
        ensures none { self.old.open_row ≡ None → (self.new.count ≡ self.old.count)
            × (self.new.is_refused ≡ self.old.is_refused)
            × (self.new.closed.items ≡ self.old.closed.items) }
        ensures some { (row : EditedRow) → self.old.open_row ≡ Some row
            → (self.new.count ≡ self.old.count + 1) × (self.new.is_refused ≡ false
            → (self.old.is_refused ≡ false)
            × (self.new.closed.items ≡ self.old.closed.items ++ row ∷ [])) }
        ensures bound { self.new.count ≤ self.old.count + 1 }
    {
        if let Some(last) = self.open_row {
            self.close(last);
            self.open_row = None;
        }
    }

    /// Replaces a window of rows by the gathered ones, unless that makes too many; their new values
    /// get numbers. `near` is a guess at the chunk of the window, `numbered` a vector for the rows.
    pub(crate) fn put<T: Exact, F: Fn(&T) -> Option<T>>(
        &mut self,
        rows: &mut RowList,
        values: &mut Values<T>,
        numbered: &mut Vec<Row>,
        from: usize,
        to: usize,
        near: usize,
        edit: &F,
        limit: u32,
    ) -> Result<(), RangeError>
        requires numbered { AreNumbered values.old rows.old }
        requires window { (from ≤ to) × (to ≤ length rows.old) }
        requires room { self.old.count < 2 ^ 62 }
        requires callable { F.IsAlwaysCallable edit.now }
        requires gathered { (change : T → Option T) × ((added : List (Run T))
            × (Makes F.Fn edit.now change × AreGathered T.eq change values.old self.old added)) }
        ensures numbered { AreNumbered values.new rows.new }
        ensures ok { (change : T → Option T) → Makes F.Fn edit.now change → (added : List (Run T))
            → AreGathered T.eq change values.old self.old added
            → OnOk result ((runs_of values.new rows.new
            ≡ splice (runs_of values.old rows.old) from to (maximal_runs T.eq added))
            × (length (splice (runs_of values.old rows.old) from to (maximal_runs T.eq added))
            ≤ limit)) }
        ensures err { (change : T → Option T) → Makes F.Fn edit.now change → (added : List (Run T))
            → AreGathered T.eq change values.old self.old added
            → IfErr result (λ refusal. refusal ≡ (if nat_lt limit
            (length (splice (runs_of values.old rows.old) from to (maximal_runs T.eq added)))
            then TooManyRanges else NoMemory)) }
        ensures unchanged { OnErr result (runs_of values.new rows.new
            ≡ runs_of values.old rows.old) }
    {
        self.seal();
        let count = self.count;
        let others = row_count(rows) - (to - from);
        if others as u64 + count > u64::from(limit) {
            return Err(RangeError::TooManyRanges);
        }
        if self.is_refused {
            return Err(RangeError::NoMemory);
        }
        let Ok(()) = number_rows(numbered, values, &self.closed, edit) else {
            return Err(RangeError::NoMemory);
        };
        let Ok(()) = splice_rows(rows, from..to, numbered.as_slice(), near) else {
            return Err(RangeError::NoMemory);
        };
        Ok(())
    }

    /// Adds a row to the closed ones, or only counts it.
    fn close(&mut self, row: EditedRow)
        requires room { self.old.count < 2 ^ 63 }
        ensures open_row { self.new.open_row ≡ self.old.open_row }
        ensures count { self.new.count ≡ self.old.count + 1 }
        ensures closed { self.new.is_refused ≡ false → (self.old.is_refused ≡ false)
            × (self.new.closed.items ≡ self.old.closed.items ++ row ∷ []) }
    {
        self.count += 1;
        if !self.is_refused && self.closed.push(row).is_err() {
            self.is_refused = true;
        }
    }
}

/// Writes the rows with numbers for all values: those that the edit makes are added to `values`.
fn number_rows<T: Exact, F: Fn(&T) -> Option<T>>(
    rows: &mut Vec<Row>,
    values: &mut Values<T>,
    edited: &[EditedRow],
    edit: &F,
) -> Result<(), AllocError>
    requires { F.IsAlwaysCallable edit.now }
    ensures longer { IsLonger values.old values.new }
    ensures rows { (change : T → Option T) → Makes F.Fn edit.now change → (runs : List (Run T))
        → AreEditedRows change values.old edited.now runs
        → OnOk result (AreRowsOf values.new rows.new.items runs) }
{
    rows.clear();
    if let Err(refused) = rows.reserve(edited.len()) {
        return Err(refused);
    }
    for i in 0..edited.len() {
        let row = row_at(edited, i);
        let Ok(number) = number_of(values, &row, edit) else {
            return Err(AllocError);
        };
        rows.push_reserved(Row {
            first: row.first,
            pages: row.pages,
            index: row.index,
            number,
        });
    }
    Ok(())
}

/// The row at a place.
#[inline]
fn row_at(edited: &[EditedRow], place: usize) -> EditedRow
    requires { place < length edited.now }
    ensures { (d : EditedRow) → result ≡ slice_index_or edited.now place d }
{
    edited[place]
}

/// The number of a row's value, which is added if the edit makes it.
#[inline]
fn number_of<T: Exact, F: Fn(&T) -> Option<T>>(
    values: &mut Values<T>,
    row: &EditedRow,
    edit: &F,
) -> Result<u32, AllocError>
    requires { F.IsAlwaysCallable edit.now }
    ensures longer { IsLonger values.old values.new }
    ensures number { (change : T → Option T) → Makes F.Fn edit.now change → (value : T)
        → value_of_row change values.old row.now ≡ Some value
        → IfOk result (λ number. slice_get values.new number ≡ Some value) }
{
    if !row.is_edited {
        return Ok(row.number);
    }
    let Some(value) = value_of(values.items(), row, edit) else {
        return Ok(row.number);
    };
    values.add(value)
}
