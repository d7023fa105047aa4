//! Objects in a row.
ghost use Rattle.std.specs.Prelude.{◌≡◌, ◌<◌, ◌≤◌, [], ◌∷◌, ◌++◌, length, slice_set, IfOk, IfSome};
ghost use Rattle.numa_objects.specs.Objects.{has_named, ranges_beside, ranges_in, slot_named};

use crate::object::Object;
use crate::shared_object::SharedObject;
use numa_machine::NoMemory;
use std::alloc::Global;

/// Whether an object has a name.
pub(crate) fn has_named(items: &[SharedObject], name: u32) -> bool
    ensures { result ≡ has_named name items.now }
{
    let Some((first, rest)) = items.split_first() else {
        return false;
    };
    if first.object().name() == name {
        return true;
    }
    has_named(rest, name)
}

/// The slot of the object of a name.
pub(crate) fn slot_named(items: &[SharedObject], name: u32) -> Option<usize>
    ensures slot { result ≡ slot_named name items.now }
    ensures within { IfSome result (λ slot. slot < length items.now) }
{
    let (first, rest) = items.split_first()?;
    if first.object().name() == name {
        return Some(0);
    }
    let slot = slot_named(rest, name)?;
    Some(slot + 1)
}

/// The number of ranges that objects have.
pub(crate) fn ranges_in(items: &[SharedObject]) -> u64
    requires { ranges_in items.now ≤ 65536 }
    ensures { result ≡ ranges_in items.now }
{
    let Some((first, rest)) = items.split_first() else {
        return 0;
    };
    first.object().ranges() + ranges_in(rest)
}

/// The number of ranges that objects have, without the one in a slot.
pub(crate) fn ranges_beside(items: &[SharedObject], slot: usize) -> u64
    requires { ranges_in items.now ≤ 65536 }
    ensures ranges { result ≡ ranges_beside slot items.now }
    ensures few { result ≤ 65536 }
{
    let Some((first, rest)) = items.split_first() else {
        return 0;
    };
    if slot == 0 {
        return ranges_in(rest);
    }
    first.object().ranges() + ranges_beside(rest, slot - 1)
}

/// The same objects, with room for one more.
///
/// # Errors
/// `NoMemory`: out of memory.
fn copies_of(alloc: Global, items: &[SharedObject]) -> Result<Vec<SharedObject>, NoMemory>
    requires { length items.now ≤ 1024 }
    ensures { IfOk result (λ copies. copies.items ≡ items.now) }
{
    let mut copies = Vec::with_capacity(alloc, items.len() + 1)?;
    for object in items {
        copies.push_reserved(object.share()?);
    }
    Ok(copies)
}

/// The objects and one more.
///
/// # Errors
/// `NoMemory`: out of memory.
pub(crate) fn table_with(
    alloc: Global,
    items: &[SharedObject],
    object: Object,
) -> Result<Vec<SharedObject>, NoMemory>
    requires { length items.now ≤ 1024 }
    ensures { IfOk result (λ table. table.items ≡ items.now ++ object ∷ []) }
{
    let shared = SharedObject::new(alloc, object)?;
    let mut table = copies_of(alloc, items)?;
    table.push(shared)?;
    Ok(table)
}

/// The objects with another in a slot.
///
/// # Errors
/// `NoMemory`: out of memory.
pub(crate) fn table_replaced(
    alloc: Global,
    items: &[SharedObject],
    slot: usize,
    object: Object,
) -> Result<Vec<SharedObject>, NoMemory>
    requires few { length items.now ≤ 1024 }
    requires slot { slot < length items.now }
    ensures { IfOk result (λ table. table.items ≡ slice_set items.now slot object) }
{
    let shared = SharedObject::new(alloc, object)?;
    let mut table = copies_of(alloc, items)?;
    table[slot] = shared;
    Ok(table)
}
