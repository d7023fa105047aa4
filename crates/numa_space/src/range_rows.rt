//! The ranges in order, with numbers in the place of their records.
ghost use Rattle.std.specs.Prelude.{◌≡◌};
ghost use Rattle.std.specs.Iterator.{YieldsFirstRef, item_count};

use numa_ranges::Row;
use numa_rows::{Iter, Owned};
use std::marker::Model;

/// The ranges that are left, from the front, each with the number of its record.
#[derive(Drop)]
pub struct RangeRows<'a> {
    rows: Iter<'a, Row, Owned<Row>>,
}

impl<'a> Model for RangeRows<'a> {
    ghost use Rattle.std.specs.Prelude.{List};
    ghost use Rattle.numa_ranges.specs.declared.row.Row.{Row};

    ghost Value = { List Row };

    ghost view = { λ a. a.rows };
}

impl<'a> RangeRows<'a> {
    /// The ranges that these rows have.
    #[inline]
    pub(crate) fn new(rows: Iter<'a, Row, Owned<Row>>) -> RangeRows<'a>
        ensures { result ≡ rows.entry }
    {
        RangeRows { rows }
    }
}

impl<'a> Iterator for RangeRows<'a> {
    type Item = &'a Row;

    ghost next_gives = { YieldsFirstRef (λ rows. rows) };

    ghost remaining = { item_count (λ rows. rows) };

    #[inline]
    fn next(&mut self) -> Option<&'a Row> {
        self.rows.next()
    }
}
