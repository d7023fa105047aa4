//! Rules that plans share, with their policies.
ghost use Rattle.std.specs.Prelude.{◌≡◌, IfOk};

use crate::rule::Rule;
use numa_machine::NoMemory;
use numa_mode::Record;
use std::alloc::{AllocError, Global};
use std::marker::Model;
use std::sync::Arc;

/// A policy and its rule.
#[derive(Drop)]
struct RuleOfPolicy {
    policy: Record,
    rule: Rule,
}

/// A policy and its rule, which plans share, so that a copy of a plan needs no memory for them.
#[derive(Drop)]
pub struct SharedRule {
    shared: Arc<RuleOfPolicy>,
}

impl Model for SharedRule {
    ghost use Rattle.numa_plan.specs.Rows.{Kept};

    ghost Value = { Kept };

    ghost view = { λ a. record { policy = a.shared.value.policy; rule = a.shared.value.rule } };
}

impl SharedRule {
    /// A policy and its rule, to be shared.
    ///
    /// # Errors
    /// `NoMemory`: out of memory.
    pub fn new(alloc: Global, policy: Record, rule: Rule) -> Result<SharedRule, NoMemory>
        ensures { IfOk result (λ shared. shared ≡ record { policy = policy; rule = rule }) }
    {
        let shared = Arc::new(alloc, RuleOfPolicy { policy, rule })?;
        Ok(SharedRule { shared })
    }

    /// Another reference to the same policy and rule.
    pub(crate) fn share(&self) -> Result<SharedRule, AllocError>
        ensures { IfOk result (λ shared. shared ≡ self.now) }
    {
        let shared = Arc::try_clone(&self.shared)?;
        Ok(SharedRule { shared })
    }

    /// The rule.
    #[inline]
    pub(crate) fn rule(&self) -> &Rule
        ensures { result.now ≡ self.now.rule }
    {
        let shared: &RuleOfPolicy = &self.shared;
        &shared.rule
    }

    /// The policy that the rule is for.
    #[inline]
    pub(crate) fn policy(&self) -> Record
        ensures { result ≡ self.now.policy }
    {
        let shared: &RuleOfPolicy = &self.shared;
        shared.policy
    }
}

const _: () = prove!(size_of::<RuleOfPolicy>() == 168);
