//! The runs of a map, with numbers for their values.
ghost use Rattle.std.specs.Prelude.{◌≡◌, ◌==◌, ◌+◌, ◌<◌, ◌≤◌, ◌^◌, [], length, map, drop, All};
ghost use Rattle.std.specs.Prelude.{slice_index_or, IfSome, IfOk, OnOk, OnErr, IfErr, Option};
ghost use Rattle.std.specs.Prelude.{if◌then◌else◌, nat_lt};
ghost use Rattle.std.specs.List.{slice_range, splice};
ghost use Rattle.numa_rows.specs.Changes.{Makes};
ghost use Rattle.numa_ranges.specs.Runs.{AreApart, AreMaximal};
ghost use Rattle.numa_ranges.specs.Edits.{IsInRange, StartsAround, maximal_runs, with_new_value};
ghost use Rattle.numa_ranges.specs.Edits.{edit_of};
ghost use Rattle.numa_ranges.specs.declared.fault.RangeError.TheVariants.{TooManyRanges, NoMemory};
ghost use Rattle.numa_ranges.specs.Numbered.{AreRowsOf, IsLonger};

use crate::edit::gather_edited;
use crate::edited_row::EditedRow;
use crate::edited_rows::EditedRows;
use crate::even::{all_starts, starts_beside};
use crate::exact::Exact;
use crate::fault::RangeError;
use crate::join::join_in_place;
use crate::range_iter::RangeIter;
use crate::row::{Row, with_value};
use crate::run::Run;
use crate::values::Values;
use numa_rows::{Iter, Owned, Rows};
use std::alloc::{AllocError, Global};
use std::marker::Model;
use std::mem::replace;

/// The number of values beyond two for each run at which they are renumbered.
const SPARE: usize = 512;

/// The most rows for which a vector is kept from one edit to the next.
const KEPT: usize = 64;

/// A list of runs that is cheap to edit in the middle.
///
/// Values can be large, and an edit moves half a chunk of rows: so a row has the number of its
/// value, and the values are in a separate list.
#[derive(Drop)]
pub(crate) struct Runs<T> {
    rows: Rows<Row, Owned<Row>>,
    values: Values<T>,
    /// A vector for the rows of an edit, and one for those with numbers.
    edited: Vec<EditedRow>,
    numbered: Vec<Row>,
    alloc: Global,
}

impl<T> Model for Runs<T> {
    ghost use Rattle.std.specs.Prelude.{List};
    ghost use Rattle.numa_ranges.specs.declared.run.Run.{Run};
    ghost use Rattle.numa_ranges.specs.Numbered.{AreNumbered, runs_of};

    ghost Value = { List (Run T) };

    ghost view = { λ a. runs_of a.values a.rows };

    ghost invariant = { λ a. AreNumbered a.values a.rows };
}

impl<T: Exact> Runs<T> {
    /// No runs. It doesn't allocate.
    pub(crate) fn new(alloc: Global) -> Runs<T>
        ensures { result ≡ [] }
    {
        Runs {
            rows: Rows::new(alloc),
            values: Values::new(alloc),
            edited: Vec::new(alloc),
            numbered: Vec::new(alloc),
            alloc,
        }
    }

    /// Returns a copy.
    ///
    /// # Errors
    /// `AllocError`: out of memory.
    pub(crate) fn copy(&self) -> Result<Runs<T>, AllocError>
        ensures { IfOk result (λ copy. copy ≡ self.now) }
    {
        let Ok(rows) = self.rows.copy() else {
            return Err(AllocError);
        };
        let Ok(values) = self.values.copy(self.alloc) else {
            return Err(AllocError);
        };
        Ok(Runs {
            rows,
            values,
            edited: Vec::new(self.alloc),
            numbered: Vec::new(self.alloc),
            alloc: self.alloc,
        })
    }

    /// The number of runs.
    #[inline]
    pub(crate) fn len(&self) -> usize
        ensures len { result ≡ length self.now }
        ensures bound { result < 2 ^ 32 }
    {
        self.rows.len()
    }

    /// The run at a rank.
    #[inline]
    pub(crate) fn get(&self, rank: usize) -> Run<T>
        requires { rank < length self.now }
        ensures { (d : Run T) → result ≡ slice_index_or self.now rank d }
    {
        let row = *self.rows.get(rank);
        with_value(self.values.items(), row)
    }

    /// The run at a rank. `near` is a guess at its chunk.
    #[inline]
    pub(crate) fn get_near(&self, rank: usize, near: usize) -> Run<T>
        requires { rank < length self.now }
        ensures { (d : Run T) → result ≡ slice_index_or self.now rank d }
    {
        let mut chunk = near;
        let row = *self.rows.get_near(rank, &mut chunk);
        with_value(self.values.items(), row)
    }

    /// The number of runs that start at the page or before it.
    pub(crate) fn starts_up_to(&self, page: u64) -> usize
        requires { AreApart 0 self.now }
        ensures within { result ≤ length self.now }
        ensures parts { StartsAround self.now result page }
    {
        self.rows
            .partition_point(&mut |row: &Row| row.first <= page)
    }

    /// The number of runs that start at the page or before it. It looks at the last, then where
    /// they would be if they were spread evenly, and then searches from `chunk` on, which is
    /// afterwards where the search ended. Any number will do.
    pub(crate) fn starts_near(&self, page: u64, chunk: &mut usize) -> usize
        requires { AreApart 0 self.now }
        ensures within { result ≤ length self.now }
        ensures parts { StartsAround self.now result page }
    {
        if let Some(count) = all_starts(&self.rows, page, chunk) {
            return count;
        }
        if let Some(count) = starts_beside(&self.rows, page, chunk) {
            return count;
        }
        self.rows
            .partition_point_near(&|row: &Row| row.first <= page, chunk)
    }

    /// The runs in order.
    pub(crate) fn iter(&self) -> RangeIter<'_, T>
        ensures { result ≡ self.now }
    {
        RangeIter::new(self.rows.iter(), self.values.items())
    }

    /// The rows in order, and the values by number.
    #[inline]
    pub(crate) fn rows(&self) -> (Iter<'_, Row, Owned<Row>>, &[T])
        ensures { AreRowsOf result.1.now result.0 self.now }
    {
        (self.rows.iter(), self.values.items())
    }

    /// The runs from a rank on, in order. `near` is a guess at the chunk of the first.
    #[inline]
    pub(crate) fn iter_near(&self, rank: usize, near: usize) -> RangeIter<'_, T>
        requires { rank ≤ length self.now }
        ensures { result ≡ drop rank self.now }
    {
        RangeIter::new(self.rows.iter_near(rank, near), self.values.items())
    }

    /// Replaces the runs from one rank to another. `near` is a guess at the chunk of the first.
    /// Values that no run has any more stay until `tidy`.
    ///
    /// # Errors
    /// `AllocError`: out of memory. Then the runs haven't changed.
    pub(crate) fn splice_near(
        &mut self,
        from: usize,
        to: usize,
        near: usize,
        runs: &[Run<T>],
    ) -> Result<(), AllocError>
        requires { (from ≤ to) × (to ≤ length self.old) }
        ensures ok { OnOk result (self.new ≡ splice self.old from to runs.now) }
        ensures unchanged { OnErr result (self.new ≡ self.old) }
    {
        let Ok(rows) = numbered(self.alloc, &mut self.values, runs) else {
            return Err(AllocError);
        };
        if let Err(refused) = self.rows.splice_near(from, to, &rows, near) {
            return Err(refused);
        }
        Ok(())
    }

    /// Replaces the runs from one rank to another by what an edit of a span makes of them, joined,
    /// unless there would be more than `limit`. `near` is a guess at the chunk of the first. Values
    /// that no run has any more stay until `tidy`.
    ///
    /// # Errors
    /// The first that applies; the runs haven't changed: `TooManyRanges`; `NoMemory`.
    pub(crate) fn edit_near<F: Fn(&T) -> Option<T>>(
        &mut self,
        from: usize,
        to: usize,
        near: usize,
        first: u64,
        end: u64,
        edit: &F,
        limit: u32,
    ) -> Result<(), RangeError>
        requires window { (from ≤ to) × (to ≤ length self.old) }
        requires in_range { All IsInRange (slice_range self.old from to) }
        requires some { All (λ run. 0 < run.pages) (slice_range self.old from to) }
        requires callable { F.IsAlwaysCallable edit.now }
        requires function { (change : T → Option T) × Makes F.Fn edit.now change }
        ensures ok { (change : T → Option T) → Makes F.Fn edit.now change
            → OnOk result ((self.new ≡ splice self.old from to (maximal_runs T.eq
            (edit_of first end change (slice_range self.old from to))))
            × (length self.new ≤ limit)) }
        ensures err { (change : T → Option T) → Makes F.Fn edit.now change
            → IfErr result (λ refusal. refusal ≡ (if nat_lt limit (length (splice self.old from to
            (maximal_runs T.eq (edit_of first end change (slice_range self.old from to)))))
            then TooManyRanges else NoMemory)) }
        ensures unchanged { OnErr result (self.new ≡ self.old) }
    {
        // Tells the proof that there are fewer than 2^32 rows.
        let _ = self.rows.len();
        let closed = replace(&mut self.edited, Vec::new(self.alloc));
        let mut numbered = replace(&mut self.numbered, Vec::new(self.alloc));
        let mut rest = self.rows.iter_near(from, near);
        let values = self.values.items();
        let mut edited = EditedRows::new(closed, to - from + 2);
        gather_edited(&mut edited, &mut rest, values, to - from, first, end, edit);
        let outcome = edited.put(
            &mut self.rows,
            &mut self.values,
            &mut numbered,
            from,
            to,
            near,
            edit,
            limit,
        );
        let EditedRows { closed, .. } = edited;
        self.edited = kept(self.alloc, closed);
        self.numbered = kept(self.alloc, numbered);
        outcome
    }

    /// Renumbers the values if there are far more of them than runs. Without memory for that
    /// nothing changes.
    #[inline]
    pub(crate) fn tidy(&mut self)
        ensures { self.new ≡ self.old }
    {
        let most = 2 * self.rows.len() + SPARE;
        if self.values.items().len() > most {
            self.renumber();
        }
    }

    /// Renumbers the values, if there is memory for it. It is a separate function, so that edits
    /// that don't need it use no stack for it.
    #[inline(never)]
    fn renumber(&mut self)
        ensures { self.new ≡ self.old }
    {
        if let Some(fresh) = self.renumbered() {
            *self = fresh;
        }
    }

    /// The same runs without values that none of them has; `None` on out-of-memory.
    fn renumbered(&self) -> Option<Runs<T>>
        ensures { IfSome result (λ fresh. fresh ≡ self.now) }
    {
        let Ok(all) = gathered(self.alloc, self) else {
            return None;
        };
        let mut fresh = Runs::new(self.alloc);
        let Ok(()) = fresh.splice_near(0, 0, 0, &all) else {
            return None;
        };
        Some(fresh)
    }

    /// Replaces the value of each run by what `f` returns for it, and joins each run to the one
    /// before it if it continues that. Where all values stay different no runs can join, and the
    /// rows aren't looked at. It doesn't allocate and can't fail.
    pub(crate) fn update_all<F: Fn(&T) -> T>(&mut self, f: &F)
        requires callable { F.IsAlwaysCallable f.now }
        requires function { (change : T → T) × Makes F.Fn f.now change }
        requires apart { AreApart 0 self.old }
        requires maximal { AreMaximal self.old }
        ensures { (change : T → T) → Makes F.Fn f.now change
            → self.new ≡ maximal_runs T.eq (map (with_new_value change) self.old) }
    {
        self.values.change_all(f);
        if self.values.are_different() {
            return;
        }
        join_in_place(&mut self.rows, self.values.items());
    }
}

/// A vector that the next edit can use: this one, if it is small, so that edits of a few runs don't
/// allocate.
fn kept<X: Drop>(alloc: Global, items: Vec<X>) -> Vec<X> {
    if items.capacity() > KEPT {
        return Vec::new(alloc);
    }
    items
}

/// The rows of some runs, whose values are added to `values`.
fn numbered<T: Exact>(
    alloc: Global,
    values: &mut Values<T>,
    runs: &[Run<T>],
) -> Result<Vec<Row>, AllocError>
    ensures longer { IsLonger values.old values.new }
    ensures rows { IfOk result (λ rows. AreRowsOf values.new rows.items runs.now) }
{
    let Ok(mut rows) = Vec::with_capacity(alloc, runs.len()) else {
        return Err(AllocError);
    };
    for i in 0..runs.len() {
        let run = runs[i];
        let Ok(number) = values.add(run.value) else {
            return Err(AllocError);
        };
        rows.push_reserved(Row {
            first: run.first,
            pages: run.pages,
            index: run.index,
            number,
        });
    }
    Ok(rows)
}

/// All runs, in a new vector.
fn gathered<T: Exact>(alloc: Global, runs: &Runs<T>) -> Result<Vec<Run<T>>, AllocError>
    ensures { IfOk result (λ all. all.items ≡ runs.now) }
{
    let Ok(mut all) = Vec::with_capacity(alloc, runs.len()) else {
        return Err(AllocError);
    };
    for run in runs.iter() {
        all.push_reserved(run);
    }
    Ok(all)
}
