//! The ranges in order.
ghost use Rattle.std.specs.Prelude.{◌≡◌};
ghost use Rattle.std.specs.Iterator.{YieldsFirst, item_count};
ghost use Rattle.numa_ranges.specs.Numbered.{AreNumbered, runs_of};

use crate::exact::Exact;
use crate::row::{Row, with_value};
use crate::run::Run;
use numa_rows::{Iter, Owned};
use std::marker::Model;

/// An iterator over ranges, in ascending order.
#[derive(Drop)]
pub struct RangeIter<'a, T> {
    rows: Iter<'a, Row, Owned<Row>>,
    values: &'a [T],
}

impl<'a, T> Model for RangeIter<'a, T> {
    ghost use Rattle.std.specs.Prelude.{List};
    ghost use Rattle.numa_ranges.specs.declared.run.Run.{Run};
    ghost use Rattle.numa_ranges.specs.Numbered.{AreNumbered, runs_of};

    ghost Value = { List (Run T) };

    ghost view = { λ a. runs_of a.values.now a.rows };

    ghost invariant = { λ a. AreNumbered a.values.now a.rows };
}

impl<'a, T> RangeIter<'a, T> {
    /// The runs of some rows.
    #[inline]
    pub(crate) fn new(rows: Iter<'a, Row, Owned<Row>>, values: &'a [T]) -> RangeIter<'a, T>
        requires { AreNumbered values.now rows }
        ensures { result ≡ runs_of values.now rows.entry }
    {
        RangeIter { rows, values }
    }
}

impl<'a, T: Exact> Iterator for RangeIter<'a, T> {
    type Item = Run<T>;

    ghost next_gives = { YieldsFirst (λ runs. runs) };

    ghost remaining = { item_count (λ runs. runs) };

    #[inline]
    fn next(&mut self) -> Option<Run<T>> {
        let row = *self.rows.next()?;
        Some(with_value(self.values, row))
    }
}
