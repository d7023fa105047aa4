//! The policy of a place.
use numa_mode::Record;
use numa_ranges::Exact;
use std::marker::Model;

/// 2^64 divided by the golden ratio: the top bits of a product with it depend on every bit of the
/// other factor.
const SPREAD: u64 = 0x9E37_79B9_7F4A_7C15;

/// The policy of a range of places.
#[derive(Clone, Copy, Debug, PartialEq, Eq)]
pub struct PlacePolicy {
    policy: Record,
}

impl Model for PlacePolicy {
    ghost use Rattle.numa_mode.specs.Policy.{PolicyRecord};

    ghost Value = { PolicyRecord };

    ghost view = { λ a. a.policy };

    ghost inverse = { λ policy. record { policy = policy } };
}

impl PlacePolicy {
    ghost use Rattle.std.specs.Prelude.{◌≡◌};

    /// Places with this policy.
    pub(crate) fn of(policy: Record) -> PlacePolicy
        ensures { result ≡ policy }
    {
        PlacePolicy { policy }
    }

    /// The policy.
    pub fn policy(&self) -> Record
        ensures { result ≡ self.now }
    {
        self.policy
    }
}

impl Exact for PlacePolicy {
    ghost use Rattle.numa_objects.specs.Exact.{policy-exact};

    ghost exact = { policy-exact };

    /// Policies with different modes, flags, effective sets or homes mostly have different marks.
    fn mark(&self) -> u64 {
        let spec = self.policy.spec();
        let [a, b, c, d] = self.policy.effective().words();
        let nodes = a ^ b.rotate_left(16) ^ c.rotate_left(32) ^ d.rotate_left(48);
        let home = self.policy.home().map_or(0, |home| u64::from(home) + 1);
        let word = u64::from(spec.mode().word(spec.flags()));
        let mixed = nodes ^ home.rotate_left(24) ^ word.rotate_left(40);
        mixed.wrapping_mul(SPREAD) >> 56
    }
}
