//! Copying rows over others.
ghost use Rattle.std.specs.Prelude.{◌≡◌, ◌+◌, ◌-◌, ◌≤◌, length, take, IfOk, OnOk, OnErr};
ghost use Rattle.std.specs.List.{splice};

use std::alloc::{AllocError, Global};

/// The least spare room of a new vector, in rows.
const MORE: usize = 8;

/// A vector of these rows, with room for `most` rows, and for at least a few more than these.
pub(crate) fn with_room<T: Copy + Drop>(
    alloc: Global,
    most: usize,
    rows: &[T],
) -> Result<Vec<T>, AllocError>
    ensures { IfOk result (λ items. items.items ≡ rows.now) }
{
    let room = rows.len().saturating_add(MORE).max(most);
    let Ok(mut items) = Vec::with_capacity(alloc, room) else {
        return Err(AllocError);
    };
    items.extend_from_slice(rows)?;
    Ok(items)
}

/// Replaces the rows from one place to another.
pub(crate) fn put_in<T: Copy + Drop>(
    items: &mut Vec<T>,
    from: usize,
    to: usize,
    rows: &[T],
) -> Result<(), AllocError>
    requires rises { from ≤ to }
    requires within { to ≤ length items.old.items }
    ensures ok { OnOk result (items.new.items ≡ splice items.old.items from to rows.now) }
    ensures unchanged { OnErr result (items.new.items ≡ items.old.items) }
{
    let len = items.len();
    let Some(size) = (len - (to - from)).checked_add(rows.len()) else {
        return Err(AllocError);
    };
    if len < size {
        if let Err(refused) = items.resize(size, rows[0]) {
            return Err(refused);
        }
    }
    put_among(items, len, from, to, rows);
    items.truncate(size);
    Ok(())
}

/// Replaces the items from one place to another, among the first `len`.
fn put_among<T: Copy + Drop>(items: &mut [T], len: usize, from: usize, to: usize, rows: &[T])
    requires rises { from ≤ to }
    requires within { to ≤ len }
    requires inside { len ≤ length items.old }
    requires fits { from + length rows.now + (len - to) ≤ length items.old }
    ensures room { length items.new ≡ length items.old }
    ensures rows { take (len - (to - from) + length rows.now) items.new
        ≡ splice (take len items.old) from to rows.now }
{
    if to != from + rows.len() {
        items.copy_within(to..len, from + rows.len());
    }
    items[from..from + rows.len()].copy_from_slice(rows);
}
