//! What `mpol=` asks for.
ghost use Rattle.std.specs.Prelude.{◌≡◌, ◌≢◌, MatchOption, None};
ghost use Rattle.numa_mode.specs.Policy.{is_default};
ghost use Rattle.numa_mount.specs.Mounts.{file_policy, mask_of, mount_specification, lists_wrong};
ghost use Rattle.numa_mount.specs.Mounts.{takes_turns, is_within};

use numa_mask::NodeMask;
use numa_mode::{Mode, PolicyFlags, PolicySpec, Record};

/// The nodes that a mount's policy names.
#[derive(Clone, Copy, Debug, PartialEq, Eq)]
pub enum MountNodes {
    /// It has no list.
    Unsaid,
    /// The list is one number.
    Number(NodeMask),
    /// It is another list.
    List(NodeMask),
}

/// A policy as a mount asks for it.
#[derive(Clone, Copy, Debug, PartialEq, Eq)]
pub struct Mount {
    pub mode: Mode,
    pub flags: PolicyFlags,
    pub nodes: MountNodes,
}

/// Whether a mode has its nodes take turns: then no list means all nodes with memory.
fn takes_turns(mode: Mode) -> bool
    ensures { result ≡ takes_turns mode }
{
    matches!(mode, Mode::Interleave | Mode::WeightedInterleave)
}

/// The nodes that are named; all with memory, where nodes take turns and there is no list.
fn mask_of(memory: &NodeMask, mode: Mode, nodes: &MountNodes) -> NodeMask
    ensures { result ≡ mask_of memory.now mode nodes.now }
{
    match nodes {
        MountNodes::Unsaid if takes_turns(mode) => *memory,
        MountNodes::Unsaid => NodeMask::empty(),
        MountNodes::Number(mask) => *mask,
        MountNodes::List(mask) => *mask,
    }
}

/// Whether there is a list where the mode takes none, or `Preferred` has more than one number.
fn lists_wrong(mode: Mode, nodes: &MountNodes) -> bool
    ensures { result ≡ lists_wrong mode nodes.now }
{
    match nodes {
        MountNodes::Unsaid => false,
        MountNodes::Number(_) => matches!(mode, Mode::Default | Mode::Local),
        MountNodes::List(_) => matches!(mode, Mode::Default | Mode::Local | Mode::Preferred),
    }
}

/// Whether each node of a set has memory.
fn is_within(mask: &NodeMask, memory: &NodeMask) -> bool
    ensures { result ≡ is_within mask.now memory.now }
{
    mask.and(memory) == *mask
}

impl Mount {
    /// The policy that is asked for, on a machine whose nodes with memory are these; `None` if
    /// mount(2) refuses it with `EINVAL`.
    pub fn specification(&self, memory: &NodeMask) -> Option<PolicySpec>
        ensures { result ≡ mount_specification memory.now self.now }
    {
        let mask = mask_of(memory, self.mode, &self.nodes);
        if lists_wrong(self.mode, &self.nodes) || !is_within(&mask, memory) {
            return None;
        }
        match PolicySpec::new(self.mode, self.flags, mask) {
            Ok(spec) => Some(spec),
            Err(_) => None,
        }
    }
}

/// The policy of a file whose mount asks for this, if the maker is allowed these nodes: `None`
/// without a policy, and where none of its nodes is left.
pub fn file_policy(spec: &PolicySpec, allowed: &NodeMask) -> Option<Record>
    requires { allowed.now ≢ 0 }
    ensures { result ≡ file_policy allowed.now spec.now }
{
    if spec.mode() == Mode::Default {
        return None;
    }
    match Record::set(*spec, allowed) {
        Ok(policy) => Some(policy),
        Err(_) => None,
    }
}
