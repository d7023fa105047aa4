//! The two flags that a mode word can carry.
ghost use Rattle.std.specs.Prelude.{⊤, ◌≡◌, ◌==◌, [], ◌∷◌, codes};
ghost use Rattle.std.specs.Int.RustNames.{bit_and};
ghost use Rattle.std.specs.Int.{bit_at};
ghost use Rattle.numa_mode.specs.Flags.{bits_of, has_static, has_relative};

use bitflags::{Flag, Flags, bitflag_items};

/// The bits of a mode word that are flags: `MPOL_MODE_FLAGS`.
pub(crate) const MODE_FLAGS: u32 = 0xc000;

/// The flags of a mode word of set_mempolicy(2), with their bits there.
#[derive(Clone, Copy, PartialEq, Eq, Debug)]
pub struct PolicyFlags(u32);

bitflag_items! {
    impl PolicyFlags: u32 {
        const RELATIVE_NODES = 1 << 14;
        const STATIC_NODES = 1 << 15;
    }
}

impl Flags for PolicyFlags {
    type Bits = u32;

    ghost exact = { ⊤ };

    ghost table = { (codes "RELATIVE_NODES", 16384) ∷ (codes "STATIC_NODES", 32768) ∷ [] };

    ghost set_of = { λ p. p.0 };

    fn flags<'a>() -> &'a [Flag<PolicyFlags>] {
        PolicyFlags::FLAGS
    }

    fn bits(&self) -> u32
        ensures bits { result ≡ bits_of self.now }
    {
        self.0
    }

    fn from_bits_retain(bits: u32) -> PolicyFlags
        ensures bits { bits_of result ≡ bits }
    {
        PolicyFlags(bits)
    }
}

impl PolicyFlags {
    /// Whether the mask's nodes don't follow the allowed nodes: `MPOL_F_STATIC_NODES`.
    pub fn is_static(self) -> bool
        ensures { result ≡ has_static self }
    {
        self.contains(PolicyFlags::STATIC_NODES)
    }

    /// Whether the mask's nodes are ordinals among the allowed ones: `MPOL_F_RELATIVE_NODES`.
    pub fn is_relative(self) -> bool
        ensures { result ≡ has_relative self }
    {
        self.contains(PolicyFlags::RELATIVE_NODES)
    }

    /// The flags of a mode word, by `MPOL_MODE_FLAGS`.
    pub(crate) fn of_word(word: u32) -> PolicyFlags
        ensures bits { bits_of result ≡ bit_and word MODE_FLAGS }
        ensures is_static { has_static result ≡ (bit_at word 15 == 1) }
        ensures is_relative { has_relative result ≡ (bit_at word 14 == 1) }
    {
        PolicyFlags::from_bits_truncate(word)
    }
}
