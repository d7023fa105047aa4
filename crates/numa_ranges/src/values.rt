//! Numbered values.
ghost use Rattle.std.specs.Prelude.{◌≡◌, ◌<◌, ◌≤◌, ◌^◌, [], length, map, slice_get, Some, IfOk};
ghost use Rattle.std.specs.Prelude.{IfSome, OnErr, true, false};
ghost use Rattle.numa_rows.specs.Changes.{Makes};
ghost use Rattle.numa_ranges.specs.Numbered.{AreDifferent, IsLonger, IsNewAt};

use crate::exact::Exact;
use numa_rows::update_items;
use std::alloc::{AllocError, Global};
use std::marker::Model;

/// The number of values at which a list is too long.
const TOO_MANY: usize = 1 << 32;

/// The number of last values with which a new one is compared.
const COMPARED: usize = 16;

/// The number of values of which each is compared with each.
const FEW: usize = 64;

/// A list of values; the number of a value is its index.
///
/// An added value gets the number of an equal one if a quick look finds one: at the number last
/// used for its mark, or among the last few values. So one value can have several numbers, and a
/// number never changes its meaning.
#[derive(Drop)]
pub(crate) struct Values<T> {
    items: Vec<T>,
    recent: [u32; 256],
}

impl<T> Model for Values<T> {
    ghost use Rattle.std.specs.Prelude.{List, length, ◌≤◌, ◌^◌};

    ghost Value = { List T };

    ghost view = { λ a. a.items.items };

    ghost invariant = { λ a. length a.items.items ≤ 2 ^ 32 };
}

impl<T: Exact> Values<T> {
    /// No values. It doesn't allocate.
    pub(crate) fn new(alloc: Global) -> Values<T>
        ensures { result ≡ [] }
    {
        Values {
            items: Vec::new(alloc),
            recent: [0; 256],
        }
    }

    /// The values by number.
    pub(crate) fn items(&self) -> &[T]
        ensures { result.now ≡ self.now }
    {
        self.items.as_slice()
    }

    /// Returns a copy with the same numbers.
    pub(crate) fn copy(&self, alloc: Global) -> Result<Values<T>, AllocError>
        ensures { IfOk result (λ copy. copy ≡ self.now) }
    {
        let Ok(items) = Vec::from_slice(alloc, &self.items) else {
            return Err(AllocError);
        };
        Ok(Values {
            items,
            recent: self.recent,
        })
    }

    /// The number of a value, which is added unless a quick look finds an equal one.
    pub(crate) fn add(&mut self, value: T) -> Result<u32, AllocError>
        ensures number { IfOk result (λ number. slice_get self.new number ≡ Some value) }
        ensures longer { IsLonger self.old self.new }
        ensures unchanged { OnErr result (self.new ≡ self.old) }
    {
        let slot = (value.mark() % 256) as usize;
        if let Some(number) = self.found(self.recent[slot], value) {
            self.recent[slot] = number;
            return Ok(number);
        }
        let len = self.items.len();
        if len >= TOO_MANY {
            return Err(AllocError);
        }
        self.items.push(value)?;
        let number = len as u32;
        self.recent[slot] = number;
        Ok(number)
    }

    /// The number of an equal value, if the hinted number or one of the last few has it.
    fn found(&self, hint: u32, value: T) -> Option<u32>
        ensures { IfSome result (λ number. slice_get self.now number ≡ Some value) }
    {
        let len = self.items.len();
        if (hint as usize) < len && self.items[hint as usize] == value {
            return Some(hint);
        }
        for place in len.saturating_sub(COMPARED)..len {
            if self.items[place] == value {
                return Some(place as u32);
            }
        }
        None
    }

    /// Replaces each value by what `f` returns for it. It doesn't allocate and can't fail.
    pub(crate) fn change_all<F: Fn(&T) -> T>(&mut self, f: &F)
        requires { F.IsAlwaysCallable f.now }
        ensures size { length self.new ≡ length self.old }
        ensures made { (change : T → T) → Makes F.Fn f.now change → self.new ≡ map change self.old }
    {
        update_items(&mut self.items, f);
    }

    /// Whether the values are few, and no two of them are equal.
    pub(crate) fn are_different(&self) -> bool
        ensures { result ≡ true → AreDifferent self.now }
    {
        if self.items.len() > FEW {
            return false;
        }
        for place in 0..self.items.len() {
            if self.is_before(place) {
                return false;
            }
        }
        true
    }

    /// Whether a value before a place is equal to the one there.
    fn is_before(&self, place: usize) -> bool
        requires { place < length self.now }
        ensures { result ≡ false → IsNewAt self.now place }
    {
        for earlier in 0..place {
            if self.items[earlier] == self.items[place] {
                return true;
            }
        }
        false
    }
}
