//! Policies as they are requested.
ghost use Rattle.std.specs.Prelude.{◌≡◌};
ghost use Rattle.numa_mode.specs.Flags.{bits_of, has_static, has_relative};
ghost use Rattle.numa_mode.specs.Policy.{flag_bits, is_default, is_static, is_relative};
ghost use Rattle.numa_mode.specs.Policy.{raw_specification, specification_of};

use crate::flags::{MODE_FLAGS, PolicyFlags};
use crate::modes::{Mode, NodeFlag};
use bitflags::Flags;
use numa_mask::NodeMask;
use std::marker::Model;

/// Why a mode, flags and nodes make no specification: the first of these that applies.
/// set_mempolicy(2) returns `EINVAL` for each.
#[derive(Clone, Copy, Debug, PartialEq, Eq)]
pub enum SpecError {
    /// The mode word without the two flags isn't the number of a mode.
    UnknownMode,
    /// `STATIC_NODES` and `RELATIVE_NODES` together.
    BothFlags,
    /// Nodes for `Default` or `Local`.
    NodesForbidden,
    /// A flag for `Local`, or for `Preferred` without nodes, which is `Local` too.
    FlagsForbidden,
    /// No nodes for `Bind`, `Interleave`, `PreferredMany` or `WeightedInterleave`.
    NodesMissing,
}

/// A policy as it was requested: a mode, a flag that says how the nodes are read, and the nodes.
#[derive(Clone, Copy, Debug, PartialEq, Eq, Hash)]
pub struct PolicySpec {
    mode: Mode,
    flag: NodeFlag,
    mask: NodeMask,
}

impl Model for PolicySpec {
    ghost use Rattle.numa_mode.specs.Policy.{Specification, IsAccepted};

    ghost Value = { Specification };

    ghost view = { λ a. record { mode = a.mode; flag = a.flag; mask = a.mask } };

    ghost invariant = { λ a. IsAccepted (record { mode = a.mode; flag = a.flag; mask = a.mask }) };

    ghost inverse = { λ s. record { mode = s.mode; flag = s.flag; mask = s.mask } };
}

impl PolicySpec {
    /// The policy of a mode, flags and nodes, by the rules of set_mempolicy(2). `Default` drops a
    /// flag, `Preferred` without nodes becomes `Local`, and bits of `flags` other than the two are
    /// ignored. The mask may have nodes that a machine lacks.
    ///
    /// # Errors
    /// The first that applies of `BothFlags`, `NodesForbidden`, `FlagsForbidden`, `NodesMissing`,
    /// as [`SpecError`] says; never `UnknownMode`.
    pub fn new(mode: Mode, flags: PolicyFlags, mask: NodeMask) -> Result<PolicySpec, SpecError>
        ensures { result ≡ specification_of mode (has_static flags) (has_relative flags) mask }
    {
        let flag = match (flags.is_static(), flags.is_relative()) {
            (true, true) => return Err(SpecError::BothFlags),
            (true, false) => NodeFlag::Static,
            (false, true) => NodeFlag::Relative,
            (false, false) => NodeFlag::Plain,
        };
        PolicySpec::with_flag(mode, flag, mask)
    }

    /// The policy of a mode, at most one flag, and nodes.
    fn with_flag(mode: Mode, flag: NodeFlag, mask: NodeMask) -> Result<PolicySpec, SpecError>
        ensures { result ≡ specification_of mode (is_static flag) (is_relative flag) mask }
    {
        let is_empty = mask.is_empty();
        let has_flag = flag != NodeFlag::Plain;
        match mode {
            Mode::Default | Mode::Local if !is_empty => Err(SpecError::NodesForbidden),
            Mode::Local if has_flag => Err(SpecError::FlagsForbidden),
            Mode::Preferred if is_empty && has_flag => Err(SpecError::FlagsForbidden),
            Mode::Bind | Mode::Interleave | Mode::PreferredMany | Mode::WeightedInterleave
                if is_empty => { Err(SpecError::NodesMissing) }
            Mode::Default => Ok(PolicySpec {
                mode,
                flag: NodeFlag::Plain,
                mask,
            }),
            Mode::Preferred if is_empty => Ok(PolicySpec {
                mode: Mode::Local,
                flag,
                mask,
            }),
            _ => Ok(PolicySpec { mode, flag, mask }),
        }
    }

    /// The policy of a mode word of set_mempolicy(2) and nodes: `STATIC_NODES` is bit 15 of the
    /// word, `RELATIVE_NODES` bit 14, and the rest is the mode's number.
    ///
    /// # Errors
    /// `UnknownMode`: the number is above 6; otherwise as [`PolicySpec::new`].
    ///
    /// # Examples
    /// `INTERLEAVE` is 3, the number of `MPOL_INTERLEAVE`:
    ///
    /// ```
    /// let spec = PolicySpec::from_raw(INTERLEAVE, both).ok()?;
    /// ```
    pub fn from_raw(word: u32, mask: NodeMask) -> Result<PolicySpec, SpecError>
        ensures { result ≡ raw_specification word mask }
    {
        let flags = PolicyFlags::of_word(word);
        match Mode::numbered(word & !MODE_FLAGS) {
            Some(mode) => PolicySpec::new(mode, flags, mask),
            None => Err(SpecError::UnknownMode),
        }
    }

    /// The mode: `Local` if `Preferred` was requested without nodes.
    pub fn mode(&self) -> Mode
        ensures { result ≡ self.now.mode }
    {
        self.mode
    }

    /// Whether the mode is `Default`, which requests no policy.
    pub fn is_default(&self) -> bool
        ensures { result ≡ is_default self.now }
    {
        matches!(self.mode, Mode::Default)
    }

    /// How the nodes are read: `Plain` if there is no flag, as always for `Default` and `Local`.
    pub fn flag(&self) -> NodeFlag
        ensures { result ≡ self.now.flag }
    {
        self.flag
    }

    /// The flag as a set of at most one bit.
    pub fn flags(&self) -> PolicyFlags
        ensures flags { bits_of result ≡ flag_bits self.now.flag }

        // Its mode, flags and nodes make the same specification again.
        ensures accepted { specification_of self.now.mode (has_static result) (has_relative result)
            self.now.mask ≡ Ok self.now }
    {
        match self.flag {
            NodeFlag::Plain => PolicyFlags::empty(),
            NodeFlag::Static => PolicyFlags::STATIC_NODES,
            NodeFlag::Relative => PolicyFlags::RELATIVE_NODES,
        }
    }

    /// The requested nodes, allowed or not.
    pub fn mask(&self) -> NodeMask
        ensures { result ≡ self.now.mask }
    {
        self.mask
    }
}
