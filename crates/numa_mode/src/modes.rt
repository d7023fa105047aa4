//! The modes, and the ways to read a mask.
ghost use Rattle.std.specs.Prelude.{◌≡◌, ◌≤◌, ℕ, length};
ghost use Rattle.numa_mode.specs.Flags.{has_static, has_relative};
ghost use Rattle.numa_mode.specs.Policy.{mode_numbered, mode_text, flag_text, word_of};
ghost use Rattle.numa_mode.specs.Policy.{raw_specification, specification_of};

use crate::flags::PolicyFlags;

/// A mode of set_mempolicy(2), in the order of its number there: `Default` is `MPOL_DEFAULT`, 0,
/// and `WeightedInterleave` is `MPOL_WEIGHTED_INTERLEAVE`, 6.
#[derive(Clone, Copy, Debug, PartialEq, Eq, Hash)]
pub enum Mode {
    /// No own policy.
    Default,
    /// One node is preferred to all others.
    Preferred,
    /// Only nodes of the set.
    Bind,
    /// The nodes of the set in turn, one page each.
    Interleave,
    /// The node of the CPU that first touches the page.
    Local,
    /// The nodes of the set are preferred to all others.
    PreferredMany,
    /// The nodes of the set in turn, as many pages each as the node's weight.
    WeightedInterleave,
}

/// The names of the modes in numa_maps, in order.
static MODE_TEXTS: [&str; 7] = [
    "default",
    "prefer",
    "bind",
    "interleave",
    "local",
    "prefer (many)",
    "weighted interleave",
];

impl Mode {
    /// The mode with this number.
    pub(crate) fn numbered(number: u32) -> Option<Mode>
        ensures { result ≡ mode_numbered number }
    {
        match number {
            0 => Some(Mode::Default),
            1 => Some(Mode::Preferred),
            2 => Some(Mode::Bind),
            3 => Some(Mode::Interleave),
            4 => Some(Mode::Local),
            5 => Some(Mode::PreferredMany),
            6 => Some(Mode::WeightedInterleave),
            _ => None,
        }
    }

    /// The name of the mode in numa_maps: see proc_pid_numa_maps(5).
    pub fn text(self) -> &'static str
        ensures text { result.now ≡ mode_text self }
        ensures short { length result.now ≤ 19 }
    {
        MODE_TEXTS[self as usize]
    }

    /// The mode word for this mode with these flags, as set_mempolicy(2) takes it. Other bits of
    /// `flags` are ignored.
    pub fn word(self, flags: PolicyFlags) -> u32
        ensures word { result ≡ word_of self (has_static flags) (has_relative flags) }

        // With any mask, the word means what the mode and the flags mean.
        ensures agrees { (mask : ℕ) → raw_specification result mask
            ≡ specification_of self (has_static flags) (has_relative flags) mask }
    {
        let static_bit = if flags.is_static() { 0x8000 } else { 0 };
        let relative_bit = if flags.is_relative() { 0x4000 } else { 0 };
        self as u32 + static_bit + relative_bit
    }
}

/// How a specification's nodes depend on the allowed nodes.
#[derive(Clone, Copy, Debug, PartialEq, Eq, Hash)]
pub enum NodeFlag {
    /// Node numbers that move with the allowed nodes.
    Plain,
    /// Node numbers that stay whatever the allowed nodes are: `MPOL_F_STATIC_NODES`.
    Static,
    /// Ordinals among the allowed nodes: `MPOL_F_RELATIVE_NODES`.
    Relative,
}

impl NodeFlag {
    /// The suffix of the mode's name in numa_maps, empty for `Plain`.
    pub fn text(self) -> &'static str
        ensures text { result.now ≡ flag_text self }
        ensures short { length result.now ≤ 9 }
    {
        match self {
            NodeFlag::Plain => "",
            NodeFlag::Static => "=static",
            NodeFlag::Relative => "=relative",
        }
    }
}
