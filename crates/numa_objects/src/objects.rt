//! Objects.
ghost use Rattle.std.specs.Prelude.{◌≡◌, ◌+◌, ◌<◌, ◌≤◌, ◌^◌, ℕ, Option, List, [], ◌++◌, ◌∷◌};
ghost use Rattle.std.specs.Prelude.{length, slice_get, Some, IfOk, IfSome};
ghost use Rattle.std.specs.Option.{option_map};
ghost use Rattle.numa_objects.specs.Changes.{AreAdded, AreBound, AreOfObject, IsChanged};
ghost use Rattle.numa_objects.specs.Changes.{add_cause, bind_cause, identity};
ghost use Rattle.numa_objects.specs.Objects.{AreObjects, ObjectData, ranges_in, shared_policy};
ghost use Rattle.numa_objects.specs.Objects.{slot_named};
ghost use Rattle.numa_objects.specs.Spots.{index_at};

use crate::fault::ObjectFault;
use crate::object::{Object, PLACES};
use crate::shared_object::SharedObject;
use crate::spot::{index_at, is_shared, slot_of, turn_of};
use crate::table::{has_named, ranges_beside, ranges_in, slot_named, table_replaced, table_with};
use numa_machine::NoMemory;
use numa_mode::Record;
use std::alloc::Global;
use std::marker::Model;
use std::sync::Arc;

/// The most objects.
const MAX_OBJECTS: usize = 1_024;

/// The most ranges of places with a policy.
const MAX_RANGES: u64 = 65_536;

/// Objects, in the order in which they were made. The table isn't changed once it is made, so
/// whoever has the same objects can share it.
#[derive(Drop)]
pub struct Objects {
    table: Option<Arc<Vec<SharedObject>>>,
    alloc: Global,
}

impl Model for Objects {
    ghost use Rattle.std.specs.Prelude.{List};
    ghost use Rattle.numa_objects.specs.Objects.{ObjectData, AreObjects};
    ghost use Rattle.numa_objects.specs.Inside.{shown_of};

    ghost Value = { List ObjectData };

    ghost view = { shown_of };

    ghost invariant = { λ a. AreObjects (shown_of a) };
}

/// A table of objects.
///
/// # Errors
/// `NoMemory`: out of memory.
fn of(alloc: Global, items: Vec<SharedObject>) -> Result<Objects, NoMemory>
    requires { AreObjects items.items }
    ensures { IfOk result (λ objects. objects ≡ items.items) }
{
    let table = Arc::new(alloc, items)?;
    Ok(Objects {
        table: Some(table),
        alloc,
    })
}

impl Objects {
    /// No objects; it doesn't allocate. The allocator is kept for later changes.
    pub fn new(alloc: Global) -> Objects
        ensures { result ≡ [] }
    {
        Objects { table: None, alloc }
    }

    /// The same objects.
    ///
    /// # Errors
    /// `NoMemory`: the table has 2^63 owners.
    pub fn share(&self) -> Result<Objects, NoMemory>
        ensures { IfOk result (λ same. same ≡ self.now) }
    {
        match &self.table {
            None => Ok(Objects::new(self.alloc)),
            Some(table) => {
                let table = Arc::try_clone(table)?;
                Ok(Objects {
                    table: Some(table),
                    alloc: self.alloc,
                })
            }
        }
    }

    /// The objects in a row.
    fn items(&self) -> &[SharedObject]
        ensures items { result.now ≡ self.now }
        ensures kept { AreObjects self.now }
    {
        match &self.table {
            None => &[],
            Some(table) => {
                let items: &Vec<SharedObject> = table;
                items.as_slice()
            }
        }
    }

    /// The number of objects.
    pub fn len(&self) -> usize
        ensures len { result ≡ length self.now }
        ensures few { result ≤ 1024 }
    {
        self.items().len()
    }

    /// The number of ranges of places with one policy, in all objects.
    pub fn ranges(&self) -> u64
        ensures ranges { result ≡ ranges_in self.now }
        ensures few { result ≤ 65536 }
    {
        ranges_in(self.items())
    }

    /// The name of the object in a slot, and the number of its inode; `None` from `len` on.
    pub fn at(&self, slot: usize) -> Option<(u32, u64)>
        ensures { result ≡ option_map identity (slice_get self.now slot) }
    {
        let items = self.items();
        if slot >= items.len() {
            return None;
        }
        let object = items[slot].object();
        Some((object.name(), object.inode()))
    }

    /// The slot of the object of a name.
    pub fn slot_named(&self, name: u32) -> Option<usize>
        ensures { result ≡ slot_named name self.now }
    {
        slot_named(self.items(), name)
    }

    /// The index of the first place of the object in a slot.
    pub fn first_index(&self, slot: usize) -> u64
        requires { slot < length self.now }
        ensures { (object : ObjectData) → slice_get self.now slot ≡ Some object
            → result ≡ index_at slot object.inode }
    {
        let object = self.items()[slot].object();
        index_at(slot as u64, object.inode())
    }

    /// The policy of the page with an index, if it is one of an object whose place has a policy.
    pub fn policy_at(&self, index: u64) -> Option<Record>
        ensures { result ≡ shared_policy self.now index }
    {
        if !is_shared(index) {
            return None;
        }
        let items = self.items();
        let slot = slot_of(index);
        if slot >= items.len() as u64 {
            return None;
        }
        items[slot as usize].object().policy_in_turn(turn_of(index))
    }

    /// The policy of the page with an index of an object, if its place has one, and how many of
    /// `pages` pages from there on have the same.
    pub fn piece_at(&self, index: u64, pages: u64) -> (Option<Record>, u64)
        requires { AreOfObject self.now index pages }
        ensures some { 0 < result.1 }
        ensures few { result.1 ≤ pages }
        ensures same { (q : ℕ) → q < result.1 → shared_policy self.now (index + q) ≡ result.0 }
    {
        let items = self.items();
        let object = items[slot_of(index) as usize].object();
        object.piece_at(turn_of(index) - object.inode(), pages)
    }

    /// The objects with one more, all of whose places have a policy, if there is one.
    ///
    /// # Errors
    /// The first of these that applies: `ObjectExists`, `BadInode`, `TooManyObjects`,
    /// `TooManyRanges`, `NoMemory`.
    pub fn with_object(
        &self,
        name: u32,
        inode: u64,
        policy: &Option<Record>,
    ) -> Result<Objects, ObjectFault>
        ensures { IsChanged (add_cause self.now name inode policy.now) result
            (AreAdded self.now name inode policy.now) }
    {
        let items = self.items();
        if has_named(items, name) {
            return Err(ObjectFault::ObjectExists);
        }
        if inode >= PLACES {
            return Err(ObjectFault::BadInode);
        }
        if items.len() >= MAX_OBJECTS {
            return Err(ObjectFault::TooManyObjects);
        }
        if policy.is_some() && ranges_in(items) >= MAX_RANGES {
            return Err(ObjectFault::TooManyRanges);
        }
        let Ok(object) = Object::new(self.alloc, name, inode, policy) else {
            return Err(ObjectFault::NoMemory);
        };
        let Ok(table) = table_with(self.alloc, items, object) else {
            return Err(ObjectFault::NoMemory);
        };
        let Ok(objects) = of(self.alloc, table) else {
            return Err(ObjectFault::NoMemory);
        };
        Ok(objects)
    }

    /// The objects, but `pages` places of one, whose indexes begin with this one, have a policy, or
    /// none.
    ///
    /// # Errors
    /// The first of these that applies: `TooManyRanges`, `NoMemory`.
    pub fn bound(
        &self,
        index: u64,
        pages: u64,
        policy: &Option<Record>,
    ) -> Result<Objects, ObjectFault>
        requires { AreOfObject self.now index pages }
        ensures { IsChanged (bind_cause self.now index pages policy.now) result
            (AreBound self.now index pages policy.now) }
    {
        let items = self.items();
        let slot = slot_of(index) as usize;
        let object = items[slot].object();
        let place = turn_of(index) - object.inode();
        let beside = ranges_beside(items, slot);
        if beside + object.ranges_after(place, pages, policy) > MAX_RANGES {
            return Err(ObjectFault::TooManyRanges);
        }
        let Ok(changed) = object.bound(place, pages, policy) else {
            return Err(ObjectFault::NoMemory);
        };
        // Tells the proof how many ranges it has.
        let _ = changed.ranges();
        let Ok(table) = table_replaced(self.alloc, items, slot, changed) else {
            return Err(ObjectFault::NoMemory);
        };
        let Ok(objects) = of(self.alloc, table) else {
            return Err(ObjectFault::NoMemory);
        };
        Ok(objects)
    }
}
