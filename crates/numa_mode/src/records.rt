//! Policies in force.
ghost use Rattle.std.specs.Prelude.{◌≡◌, ◌≢◌, true, false, is_ok, is_some};
ghost use Rattle.std.specs.Prelude.{IfOk, IfSome, IsTrue, ◌↔◌};
ghost use Rattle.numa_mode.specs.Policy.{is_default, is_preferred, is_local, is_live};
ghost use Rattle.numa_mode.specs.Policy.{record_when_set, record_after, takes_home, with_home};
ghost use Rattle.numa_mode.specs.Policy.{for_object, policy_text, set_after, stays};
ghost use Rattle.numa_mode.specs.Within.{IsWithin, IsAtMostOne};

use crate::effects::{effect, effect_after};
use crate::modes::Mode;
use crate::specification::PolicySpec;
use arrayvec::ArrayString;
use numa_machine::Rules;
use numa_mask::{NodeMask, list_text};
use std::marker::Model;

/// A policy asks only for nodes that aren't allowed: `EINVAL` of set_mempolicy(2) and mbind(2).
#[derive(Clone, Copy, Debug, PartialEq, Eq)]
pub struct NodesNotAllowed;

/// A policy in force: its specification, its effective set, and the home node of its range, if one
/// was set.
///
/// Two records are equal if all parts are. That includes requested nodes that aren't allowed, and
/// whether it is the policy of places of a shared object.
#[derive(Clone, Copy, Debug, PartialEq, Eq, Hash)]
pub struct Record {
    spec: PolicySpec,
    effective: NodeMask,
    home: Option<u8>,
    of_object: bool,
}

impl Model for Record {
    ghost use Rattle.numa_mode.specs.Policy.{PolicyRecord, IsStanding};

    ghost Value = { PolicyRecord };

    ghost view = { λ a. record {
      spec = a.spec;
      effective = a.effective;
      home = a.home;
      of_object = a.of_object;
    } };

    ghost invariant = { λ a. IsStanding (record {
      spec = a.spec;
      effective = a.effective;
      home = a.home;
      of_object = a.of_object;
    }) };

    ghost inverse = { λ s. record {
      spec = s.spec;
      effective = s.effective;
      home = s.home;
      of_object = s.of_object;
    } };
}

impl Record {
    /// The record of a policy that is set while these nodes are allowed, without a home node. The
    /// policy isn't `Default`, which removes a record, and at least one node is allowed.
    ///
    /// # Errors
    /// `NodesNotAllowed`: the policy would have no node, and isn't `Local`.
    pub fn set(spec: PolicySpec, allowed: &NodeMask) -> Result<Record, NodesNotAllowed>
        requires policy { is_default spec ≡ false }
        requires some { allowed.now ≢ 0 }
        ensures set { IfOk result (λ r. r ≡ record_when_set spec allowed.now) }
        ensures live { is_ok result ≡ is_live (record_when_set spec allowed.now) }
        ensures within { IfOk result (λ r. IsWithin r.effective allowed.now) }
    {
        let record = Record {
            spec,
            effective: effect(&spec, allowed, allowed.weight()),
            home: None,
            of_object: false,
        };
        if record.is_live() {
            Ok(record)
        } else {
            Err(NodesNotAllowed)
        }
    }

    /// The record after the allowed nodes have changed from `old` to `new`: with a flag the
    /// effective set is derived again from the requested nodes, and without one the current nodes
    /// move, as the kernel's bitmap_remap moves bits. By the kernel's rules `Preferred` and
    /// `PreferredMany` stay as they are, and all of `new` replace a set that would be empty. The
    /// home node stays, allowed or not. The policy of places of a shared object never changes.
    ///
    /// `new` isn't empty.
    pub fn rebind(&self, rules: Rules, old: &NodeMask, new: &NodeMask) -> Record
        requires some { new.now ≢ 0 }
        ensures rebind { result ≡ record_after rules self.now old.now new.now }
        ensures within { self.now.of_object ≡ false → stays rules self.now.spec.mode ≡ false
            → IsWithin self.now.effective old.now → IsWithin result.effective new.now }
    {
        Record {
            spec: self.spec,
            effective: self.set_after(rules, old, new),
            home: self.home,
            of_object: self.of_object,
        }
    }

    /// The effective set after such a change.
    fn set_after(&self, rules: Rules, old: &NodeMask, new: &NodeMask) -> NodeMask
        requires some { new.now ≢ 0 }
        ensures after { result ≡ set_after rules self.now old.now new.now }
        ensures within { self.now.of_object ≡ false → stays rules self.now.spec.mode ≡ false
            → IsWithin self.now.effective old.now → IsWithin result new.now }
        ensures preferred { is_preferred self.now.spec ≡ true → IsAtMostOne result }
        ensures local { is_local self.now.spec ≡ true → result ≡ 0 }
    {
        if self.of_object {
            return self.effective;
        }
        let size = new.weight();
        effect_after(rules, &self.spec, &self.effective, old, new, size)
    }

    /// The policy as one of places of a shared object, where changes of the allowed nodes don't
    /// change it, and it has no home node.
    pub fn for_object(self) -> Record
        ensures { result ≡ for_object self }
    {
        Record {
            spec: self.spec,
            effective: self.effective,
            home: None,
            of_object: true,
        }
    }

    /// Whether it is the policy of places of a shared object.
    pub fn is_of_object(&self) -> bool
        ensures { result ≡ self.now.of_object }
    {
        self.of_object
    }

    /// Whether the policy is live: it has a node, or is `Local`, which needs none. If it isn't, the
    /// next scope's policy applies.
    pub fn is_live(&self) -> bool
        ensures { result ≡ is_live self.now }
    {
        !self.effective.is_empty() || self.spec.mode() == Mode::Local
    }

    /// The record with this home node, as set by set_mempolicy_home_node(2), instead of any other.
    /// `None` if the mode takes none: all but `Bind` and `PreferredMany`; and for the policy of
    /// places of a shared object. The node need not be allowed.
    pub fn with_home(self, node: u8) -> Option<Record>
        ensures takes { is_some result ≡ takes_home self }
        ensures home { IfSome result (λ r. r ≡ with_home self node) }
    {
        if self.of_object {
            return None;
        }
        match self.spec.mode() {
            Mode::Bind | Mode::PreferredMany => Some(Record {
                spec: self.spec,
                effective: self.effective,
                home: Some(node),
                of_object: false,
            }),
            _ => None,
        }
    }

    /// Whether both are equal: the same as `==`.
    pub fn is_same(&self, other: &Record) -> bool
        ensures { IsTrue result ↔ (self.now ≡ other.now) }
    {
        *self == *other
    }

    /// The home node, if one was set; always `None` for modes other than `Bind` and
    /// `PreferredMany`.
    pub fn home(&self) -> Option<u8>
        ensures home { result ≡ self.now.home }
        ensures takes { is_some result ≡ true → takes_home self.now ≡ true }
    {
        self.home
    }

    /// The specification, never `Default`.
    pub fn spec(&self) -> PolicySpec
        ensures spec { result ≡ self.now.spec }
        ensures policy { is_default result ≡ false }
    {
        self.spec
    }

    /// The effective set: at most one node for `Preferred`, none for `Local`.
    pub fn effective(&self) -> NodeMask
        ensures effective { result ≡ self.now.effective }
        ensures preferred { is_preferred self.now.spec ≡ true → IsAtMostOne result }
        ensures local { is_local self.now.spec ≡ true → result ≡ 0 }
    {
        self.effective
    }

    /// The policy as numa_maps shows it, `interleave=static:0,2-3`: the mode's name, the flag, and
    /// after a colon the effective set, if it isn't empty. The requested nodes and the home node
    /// aren't shown.
    pub fn policy_text(&self) -> ArrayString<1024>
        ensures { result.bytes ≡ policy_text self.now }
    {
        let mut text = ArrayString::new();
        text.push_str(self.spec().mode().text());
        text.push_str(self.spec().flag().text());
        let nodes = self.effective();
        if !nodes.is_empty() {
            text.push(':');
            text.push_str(list_text(&nodes).as_str());
        }
        text
    }
}
