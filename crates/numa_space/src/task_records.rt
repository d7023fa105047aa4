//! The records of tasks' policies, by number.
ghost use Rattle.std.specs.Prelude.{◌≡◌, ◌≢◌, ◌<◌, [], length, map, slice_get, slice_index_or};
ghost use Rattle.std.specs.Prelude.{Some, IfOk, IfSome, OnErr};
ghost use Rattle.numa_mode.specs.Policy.{record_after};
ghost use Rattle.numa_ranges.specs.Numbered.{IsLonger};
ghost use Rattle.numa_space.specs.Shared.{no_record};

use crate::range_record::RangeRecord;
use numa_machine::Rules;
use numa_mask::NodeMask;
use numa_mode::Record;
use numa_ranges::Exact;
use numa_rows::update_items;
use std::alloc::{AllocError, Global};
use std::marker::Model;

/// The number of records at which a list is too long.
const TOO_MANY: usize = 1 << 32;

/// The number of last records with which a new one is compared.
const COMPARED: usize = 16;

/// A list of records; the number of a record is its index.
///
/// An added record gets the number of an equal one if a quick look finds one: at the number last
/// used for its mark, or among the last few records. So one record can have several numbers.
#[derive(Drop)]
pub(crate) struct TaskRecords {
    items: Vec<Record>,
    recent: [u32; 64],
}

impl Model for TaskRecords {
    ghost use Rattle.std.specs.Prelude.{List, length, ◌≤◌, ◌^◌};
    ghost use Rattle.numa_mode.specs.Policy.{PolicyRecord};

    ghost Value = { List PolicyRecord };

    ghost view = { λ a. a.items.items };

    ghost invariant = { λ a. length a.items.items ≤ 2 ^ 32 };
}

impl TaskRecords {
    /// No records. It doesn't allocate.
    pub(crate) fn new(alloc: Global) -> TaskRecords
        ensures { result ≡ [] }
    {
        TaskRecords {
            items: Vec::new(alloc),
            recent: [0; 64],
        }
    }

    /// Returns a copy with the same numbers.
    pub(crate) fn copy(&self, alloc: Global) -> Result<TaskRecords, AllocError>
        ensures { IfOk result (λ copy. copy ≡ self.now) }
    {
        let items = Vec::from_slice(alloc, &self.items)?;
        Ok(TaskRecords {
            items,
            recent: self.recent,
        })
    }

    /// The number of records.
    pub(crate) fn len(&self) -> usize
        ensures { result ≡ length self.now }
    {
        self.items.len()
    }

    /// The record under a number.
    pub(crate) fn get(&self, number: u32) -> Record
        requires { number < length self.now }
        ensures { result ≡ slice_index_or self.now number no_record }
    {
        self.items[number as usize]
    }

    /// The number of a record, which is added unless a quick look finds an equal one.
    pub(crate) fn add(&mut self, policy: Record) -> Result<u32, AllocError>
        ensures number { IfOk result (λ number. slice_get self.new number ≡ Some policy) }
        ensures longer { IsLonger self.old self.new }
        ensures unchanged { OnErr result (self.new ≡ self.old) }
    {
        let slot = (RangeRecord::of(Some(policy)).mark() % 64) as usize;
        if let Some(number) = self.found(self.recent[slot], &policy) {
            self.recent[slot] = number;
            return Ok(number);
        }
        let number = self.append(policy)?;
        self.recent[slot] = number;
        Ok(number)
    }

    /// Adds a record behind the others; its number is returned.
    fn append(&mut self, policy: Record) -> Result<u32, AllocError>
        ensures number { IfOk result (λ number. slice_get self.new number ≡ Some policy) }
        ensures longer { IsLonger self.old self.new }
        ensures unchanged { OnErr result (self.new ≡ self.old) }
    {
        let len = self.items.len();
        if len >= TOO_MANY {
            return Err(AllocError);
        }
        self.items.push(policy)?;
        Ok(len as u32)
    }

    /// The number of an equal record, if the hinted number or one of the last few has it.
    fn found(&self, hint: u32, policy: &Record) -> Option<u32>
        ensures { IfSome result (λ number. slice_get self.now number ≡ Some policy.now) }
    {
        let len = self.items.len();
        if (hint as usize) < len && self.items[hint as usize] == *policy {
            return Some(hint);
        }
        for place in len.saturating_sub(COMPARED)..len {
            if self.items[place] == *policy {
                return Some(place as u32);
            }
        }
        None
    }

    /// Updates every record for a change of the allowed nodes; it doesn't allocate.
    pub(crate) fn rebind(&mut self, rules: Rules, old: &NodeMask, new: &NodeMask)
        requires some { new.now ≢ 0 }
        ensures { self.new ≡ map (λ policy. record_after rules policy old.now new.now) self.old }
    {
        let (from, to) = (*old, *new);
        let moved = |policy: &Record| -> Record
            requires { to ≢ 0 }
            ensures { result ≡ record_after rules policy.now from to }
        { policy.rebind(rules, &from, &to) };
        update_items(&mut self.items, &moved);
    }
}
