//! Values that are the same if they are equal.
ghost use Rattle.std.specs.Prelude.{true, ◌≡◌};

/// A value of a range: values that `==` calls equal are one and the same.
///
/// So two adjacent ranges with equal values can become one without losing either value.
pub trait Exact: Copy + Eq + Drop {
    /// A hash of the value: equal values should have one mark, different values different ones.
    /// Only speed depends on it.
    fn mark(&self) -> u64;

    ghost exact: { (a b : Self) → Self.PartialEq.eq a b ≡ true → a ≡ b };
}

impl Exact for u8 {
    ghost use Rattle.std.proofs.Common.{rules};

    ghost exact = { λ a b h. Prim.search rules };

    #[inline]
    fn mark(&self) -> u64 {
        u64::from(*self)
    }
}

impl Exact for u32 {
    ghost use Rattle.std.proofs.Common.{rules};

    ghost exact = { λ a b h. Prim.search rules };

    #[inline]
    fn mark(&self) -> u64 {
        u64::from(*self)
    }
}

impl Exact for u64 {
    ghost use Rattle.std.proofs.Common.{rules};

    ghost exact = { λ a b h. Prim.search rules };

    #[inline]
    fn mark(&self) -> u64 {
        *self
    }
}
