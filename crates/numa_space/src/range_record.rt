//! The policy of a range of pages.
ghost use Rattle.std.specs.Prelude.{◌≡◌, ◌≢◌, Some};
ghost use Rattle.numa_space.specs.Steps.{policy_with_home, policy_after};
ghost use Rattle.numa_space.specs.Refusals.{takes_no_home};

use numa_machine::Rules;
use numa_mask::NodeMask;
use numa_mode::Record;
use numa_ranges::Exact;
use std::marker::Model;

/// 2^64 divided by the golden ratio: the top bits of a product with it depend on every bit of the
/// other factor.
const SPREAD: u64 = 0x9E37_79B9_7F4A_7C15;

/// The own policy of a range of pages, if it has one.
#[derive(Clone, Copy, Debug, PartialEq, Eq)]
pub struct RangeRecord {
    policy: Option<Record>,
}

impl Model for RangeRecord {
    ghost use Rattle.std.specs.Prelude.{Option};
    ghost use Rattle.numa_mode.specs.Policy.{PolicyRecord};

    ghost Value = { Option PolicyRecord };

    ghost view = { λ a. a.policy };

    ghost inverse = { λ policy. record { policy = policy } };
}

impl RangeRecord {
    /// A range with this own policy, or with none.
    pub(crate) fn of(policy: Option<Record>) -> RangeRecord
        ensures { result ≡ policy }
    {
        RangeRecord { policy }
    }

    /// The same with a home node, if the policy takes one.
    pub(crate) fn homed(&self, node: u8) -> RangeRecord
        ensures { result ≡ policy_with_home node self.now }
    {
        let policy = match self.policy {
            None => None,
            Some(policy) => Some(policy.with_home(node).unwrap_or(policy)),
        };
        RangeRecord { policy }
    }

    /// The same after a change of the allowed nodes.
    pub(crate) fn rebound(&self, rules: Rules, old: &NodeMask, new: &NodeMask) -> RangeRecord
        requires { new.now ≢ 0 }
        ensures { result ≡ policy_after rules old.now new.now self.now }
    {
        let policy = match &self.policy {
            None => None,
            Some(policy) => Some(policy.rebind(rules, old, new)),
        };
        RangeRecord { policy }
    }

    /// Whether the range has an own policy that takes no home node.
    pub(crate) fn takes_no_home(&self) -> bool
        ensures { result ≡ takes_no_home (Some (0, self.now)) }
    {
        match self.policy {
            None => false,
            Some(policy) => policy.with_home(0).is_none(),
        }
    }

    /// The own policy of the range.
    pub fn policy(&self) -> Option<Record>
        ensures { result ≡ self.now }
    {
        self.policy
    }
}

impl Exact for RangeRecord {
    ghost use Rattle.numa_space.specs.Exact.{range-exact};

    ghost exact = { range-exact };

    /// Policies with different modes, flags, effective sets or homes mostly have different marks.
    fn mark(&self) -> u64 {
        let Some(policy) = self.policy else {
            return 0;
        };
        let spec = policy.spec();
        let [a, b, c, d] = policy.effective().words();
        let nodes = a ^ b.rotate_left(16) ^ c.rotate_left(32) ^ d.rotate_left(48);
        let home = policy.home().map_or(0, |home| u64::from(home) + 1);
        let word = u64::from(spec.mode().word(spec.flags()));
        let mixed = nodes ^ home.rotate_left(24) ^ word.rotate_left(40);
        mixed.wrapping_mul(SPREAD) >> 56
    }
}
