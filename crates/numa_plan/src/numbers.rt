//! The slots of policies' rules.
ghost use Rattle.std.specs.Prelude.{◌≡◌, Some, IfSome};
ghost use Rattle.std.specs.Bool.{OnTrue};
ghost use Rattle.numa_plan.specs.Slots.{policy_in};

use crate::slots::{Slot, policy_at};
use indexmap::IndexMap;
use numa_mode::Record;
use std::alloc::Global;
use std::marker::Model;

/// The slot numbers of policies, as far as there was memory to keep them. A number is checked
/// against the slots before it is used, so nothing depends on what it holds.
#[derive(Drop)]
pub(crate) struct Numbers {
    places: IndexMap<Record, u32>,
}

impl Model for Numbers {
    ghost Value = { Unit {0} };

    ghost view = { λ a. tt };
}

/// Whether a slot holds the rule of a policy.
fn is_for(slots: &[Slot], number: u32, policy: &Record) -> bool
    ensures { OnTrue result (policy_in slots.now number ≡ Some policy.now) }
{
    match policy_at(slots, number) {
        Some(held) => held.is_same(policy),
        None => false,
    }
}

impl Numbers {
    /// No numbers.
    pub(crate) fn new(alloc: Global) -> Numbers {
        Numbers {
            places: IndexMap::new(alloc),
        }
    }

    /// Keeps the number of a policy's slot, if there is memory for it.
    pub(crate) fn enter(&mut self, policy: Record, number: u32) {
        let _ = self.places.insert(policy, number);
    }

    /// Forgets the number of a policy's slot, if one is given.
    pub(crate) fn forget(&mut self, policy: Option<Record>) {
        if let Some(policy) = policy {
            let _ = self.places.swap_remove(&policy);
        }
    }

    /// Keeps the number of each taken slot.
    fn enter_all(&mut self, slots: &[Slot]) {
        for place in 0..slots.len() {
            let Ok(number) = u32::try_from(place) else {
                return;
            };
            if let Slot::Taken { kept, .. } = &slots[place] {
                self.enter(kept.policy(), number);
            }
        }
    }

    /// The number of the slot that holds a policy's rule, if it is known. If the table is empty, it
    /// is filled from all slots first.
    pub(crate) fn number_for(&mut self, slots: &[Slot], policy: &Record) -> Option<u32>
        ensures { IfSome result (λ number. policy_in slots.now number ≡ Some policy.now) }
    {
        if self.places.is_empty() {
            self.enter_all(slots);
        }
        let number = *self.places.get(policy)?;
        if is_for(slots, number, policy) {
            Some(number)
        } else {
            None
        }
    }
}
