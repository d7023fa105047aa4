//! The effective set of a policy.
ghost use Rattle.std.specs.Prelude.{◌≡◌, ◌≢◌, ◌<◌, false, true};
ghost use Rattle.numa_mask.specs.NodeSet.{weight_of};
ghost use Rattle.numa_mode.specs.Policy.{lowest, kept_nodes, given_nodes, effect_when_set};
ghost use Rattle.numa_mode.specs.Policy.{effect_by_flag, effect_after, stays, never_empty};
ghost use Rattle.numa_mode.specs.Policy.{is_preferred, is_local};
ghost use Rattle.numa_mode.specs.Within.{IsWithin, IsAtMostOne};

use crate::modes::{Mode, NodeFlag};
use crate::specification::PolicySpec;
use numa_machine::Rules;
use numa_mask::NodeMask;

/// The effective set of a policy that is set while these `size` nodes are allowed.
pub(crate) fn effect(spec: &PolicySpec, allowed: &NodeMask, size: u32) -> NodeMask
    requires size { size ≡ weight_of allowed.now }
    requires some { 0 < size }
    ensures effect { result ≡ effect_when_set spec.now allowed.now }
    ensures within { IsWithin result allowed.now }
{
    kept_by(spec.mode(), given(spec.flag(), &spec.mask(), allowed, size))
}

/// The nodes of a mask, as its flag has them read.
fn given(flag: NodeFlag, mask: &NodeMask, allowed: &NodeMask, size: u32) -> NodeMask
    requires size { size ≡ weight_of allowed.now }
    requires some { 0 < size }
    ensures given { result ≡ given_nodes flag mask.now allowed.now }
    ensures within { IsWithin result allowed.now }
{
    match flag {
        NodeFlag::Plain | NodeFlag::Static => mask.and(allowed),
        NodeFlag::Relative => mask.fold(size).onto(allowed),
    }
}

/// The part of these nodes that a mode keeps.
fn kept_by(mode: Mode, set: NodeMask) -> NodeMask
    ensures kept { result ≡ kept_nodes mode set }
    ensures within { IsWithin result set }
{
    match mode {
        Mode::Preferred => lowest_of(&set),
        Mode::Local => NodeMask::empty(),
        _ => set,
    }
}

/// The set of the lowest member.
fn lowest_of(set: &NodeMask) -> NodeMask
    ensures lowest { result ≡ lowest set.now }
    ensures within { IsWithin result set.now }
{
    let mut alone = NodeMask::empty();
    if let Some(node) = set.first() {
        alone.insert(node);
    }
    alone
}

/// The effective set after the allowed nodes have changed from `old` to the `size` nodes of `new`.
pub(crate) fn effect_after(
    rules: Rules,
    spec: &PolicySpec,
    set: &NodeMask,
    old: &NodeMask,
    new: &NodeMask,
    size: u32,
) -> NodeMask
    requires size { size ≡ weight_of new.now }
    requires some { 0 < size }
    ensures after { result ≡ effect_after rules spec.now set.now old.now new.now }
{
    if stays(rules, spec.mode()) {
        return *set;
    }
    let moved = moved(spec, set, old, new, size);
    never_empty(rules, moved, new)
}

/// The new nodes of a policy that follows the allowed nodes in the way of its flag.
fn moved(spec: &PolicySpec, set: &NodeMask, old: &NodeMask, new: &NodeMask, size: u32) -> NodeMask
    requires size { size ≡ weight_of new.now }
    requires some { 0 < size }
    ensures moved { result ≡ effect_by_flag spec.now.flag spec.now set.now old.now new.now }
{
    match spec.flag() {
        NodeFlag::Plain => set.remap(old, new),
        NodeFlag::Static | NodeFlag::Relative => effect(spec, new, size),
    }
}

/// Whether a policy keeps the nodes with which it was set.
fn stays(rules: Rules, mode: Mode) -> bool
    ensures { result ≡ stays rules mode }
{
    match rules {
        Rules::Document => false,
        Rules::Linux => match mode {
            Mode::Preferred | Mode::PreferredMany | Mode::Local => true,
            _ => false,
        },
    }
}

/// The nodes, or, by the kernel's rules, all allowed nodes if there are none.
fn never_empty(rules: Rules, set: NodeMask, allowed: &NodeMask) -> NodeMask
    ensures { result ≡ never_empty rules set allowed.now }
{
    match rules {
        Rules::Document => set,
        Rules::Linux => { if set.is_empty() { *allowed } else { set } }
    }
}
