//! An object.
ghost use Rattle.std.specs.Prelude.{◌≡◌, ◌+◌, ◌<◌, ◌≤◌, ◌^◌, ℕ, None, length, is_some, IfOk, OnOk};
ghost use Rattle.std.specs.Prelude.{if◌then◌else◌};
ghost use Rattle.numa_ranges.specs.Maps.{IsSpan, Shows};
ghost use Rattle.numa_ranges.specs.Runs.{page_at};
ghost use Rattle.numa_objects.specs.Changes.{bound_policy, identity, with_policy};
ghost use Rattle.numa_objects.specs.Objects.{IsObject, policy_in_turn, policy_of, ranges_by};

use crate::counting::{Cut, add_parts, add_span};
use crate::place_policy::PlacePolicy;
use crate::tally::Tally;
use numa_machine::NoMemory;
use numa_mode::Record;
use numa_ranges::RangeMap;
use std::alloc::Global;
use std::marker::Model;

/// The number of places of an object.
pub(crate) const PLACES: u64 = 1 << 35;

/// An object: its name, the number of its inode, and the policies of its places. All objects
/// together have a limit of ranges, not each.
#[derive(Drop)]
pub(crate) struct Object {
    name: u32,
    inode: u64,
    policies: RangeMap<PlacePolicy>,
}

impl Model for Object {
    ghost use Rattle.numa_objects.specs.Objects.{ObjectData, IsObject};

    ghost Value = { ObjectData };

    ghost view = { λ a. record { name = a.name; inode = a.inode; policies = a.policies.runs } };

    ghost invariant = { λ a.
        IsObject (record { name = a.name; inode = a.inode; policies = a.policies.runs }) };
}

/// Gives places that have no policy one, if there is one.
fn put(
    policies: &mut RangeMap<PlacePolicy>,
    first: u64,
    pages: u64,
    policy: &Option<Record>,
) -> Result<(), NoMemory>
    requires { IsSpan first pages }
    ensures { OnOk result (Shows policies.new.runs
        (with_policy first pages policy.now (page_at policies.old.runs))) }
{
    let Some(policy) = policy else {
        return Ok(());
    };
    let Ok(()) = policies.map_span(first, pages, first, PlacePolicy::of(*policy)) else {
        return Err(NoMemory);
    };
    Ok(())
}

impl Object {
    /// An object all of whose places have a policy, if there is one.
    ///
    /// # Errors
    /// `NoMemory`: there is no memory for the policy.
    pub(crate) fn new(
        alloc: Global,
        name: u32,
        inode: u64,
        policy: &Option<Record>,
    ) -> Result<Object, NoMemory>
        requires { inode < 2 ^ 35 }
        ensures identity { IfOk result (λ object. identity object ≡ (name, inode)) }
        ensures policies { IfOk result (λ object. (place : ℕ)
            → policy_of object place ≡ bound_policy 0 (2 ^ 35) policy.now (λ other. None) place) }
        ensures ranges { IfOk result (λ object. length object.policies
            ≡ (if is_some policy.now then 1 else 0)) }
        ensures kept { IfOk result IsObject }
    {
        let mut policies = RangeMap::new(alloc, u32::MAX);
        put(&mut policies, 0, PLACES, policy)?;
        // Tells the proof that no other ranges say the same of each place.
        let _ = policies.iter();
        Ok(Object {
            name,
            inode,
            policies,
        })
    }

    /// The name.
    pub(crate) fn name(&self) -> u32
        ensures { result ≡ self.now.name }
    {
        self.name
    }

    /// The number of the inode.
    pub(crate) fn inode(&self) -> u64
        ensures inode { result ≡ self.now.inode }
        ensures few { result < 2 ^ 35 }
    {
        self.inode
    }

    /// The number of ranges of places with one policy.
    pub(crate) fn ranges(&self) -> u64
        ensures ranges { result ≡ length self.now.policies }
        ensures count { result ≡ ranges_by (policy_of self.now) }
        ensures few { result < 2 ^ 32 }
    {
        self.policies.len() as u64
    }

    /// The policy of a place.
    pub(crate) fn policy_of(&self, place: u64) -> Option<Record>
        ensures { result ≡ policy_of self.now place }
    {
        match self.policies.at(place) {
            Some((_, value)) => Some(value.policy()),
            None => None,
        }
    }

    /// The policy of the page that has a turn; below the inode's number there is no place.
    pub(crate) fn policy_in_turn(&self, turn: u64) -> Option<Record>
        ensures { result ≡ policy_in_turn self.now turn }
    {
        if turn < self.inode {
            return None;
        }
        self.policy_of(turn - self.inode)
    }

    /// The policy of a place, if it has one, and how many of `pages` places from there on have the
    /// same.
    pub(crate) fn piece_at(&self, place: u64, pages: u64) -> (Option<Record>, u64)
        requires { IsSpan place pages }
        ensures some { 0 < result.1 }
        ensures few { result.1 ≤ pages }
        ensures same { (q : ℕ) → q < result.1 → policy_of self.now (place + q) ≡ result.0 }
    {
        for run in self.policies.iter_from(place) {
            let end = run.first + run.pages;
            if run.first > place {
                return (None, pages.min(run.first - place));
            }
            if end > place {
                return (Some(run.value.policy()), pages.min(end - place));
            }
        }
        (None, pages)
    }

    /// How many ranges the object would have, if the places of a span had this policy, or none.
    pub(crate) fn ranges_after(&self, first: u64, pages: u64, policy: &Option<Record>) -> u64
        requires { IsSpan first pages }
        ensures ranges { result
            ≡ ranges_by (bound_policy first pages policy.now (policy_of self.now)) }
        ensures few { result < 2 ^ 34 }
    {
        // Tells the proof how many ranges there are, and that they rise.
        let _ = self.policies.len();
        let _ = self.policies.iter();
        let mut tally = Tally::new();
        add_parts(&mut tally, &self.policies, Cut::Before(first));
        add_span(&mut tally, first, pages, policy);
        add_parts(&mut tally, &self.policies, Cut::From(first + pages));
        tally.total()
    }

    /// The same object, but the places of a span have this policy, or none.
    ///
    /// # Errors
    /// `NoMemory`: there is no memory for its policies.
    pub(crate) fn bound(
        &self,
        first: u64,
        pages: u64,
        policy: &Option<Record>,
    ) -> Result<Object, NoMemory>
        requires { IsSpan first pages }
        ensures identity { IfOk result (λ object. identity object ≡ identity self.now) }
        ensures policies { IfOk result (λ object. (place : ℕ) → policy_of object place
            ≡ bound_policy first pages policy.now (policy_of self.now) place) }
        ensures kept { IfOk result IsObject }
    {
        let mut policies = self.policies.copy()?;
        let Ok(()) = policies.unmap_span(first, pages) else {
            return Err(NoMemory);
        };
        put(&mut policies, first, pages, policy)?;
        Ok(Object {
            name: self.name,
            inode: self.inode,
            policies,
        })
    }
}
