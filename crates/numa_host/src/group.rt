//! The tree of the control groups.
ghost use Rattle.std.specs.Prelude.{◌≡◌, ◌==◌, ◌&&◌, is_some, map, false, nat_le};
ghost use Rattle.std.specs.List.{list_any};
ghost use Rattle.std.specs.Option.{option_map_or};
ghost use Rattle.numa_mask.specs.NodeSet.{members};
ghost use Rattle.numa_host.specs.declared.group.ControlGroup.{ControlGroup};
ghost use Rattle.numa_host.specs.Groups.{effective_mems, has_own_mems, is_group};
ghost use Rattle.numa_host.specs.Groups.{is_within, narrowed, with_mems};

use numa_mask::NodeMask;

/// A group below the root: its name, that of its parent, and its own list of nodes, if it has one.
#[derive(Clone, Copy, Debug, PartialEq, Eq, Drop)]
pub struct ControlGroup {
    pub name: u32,
    pub parent: u32,
    pub mems: Option<NodeMask>,
}

/// What a list of a group's own leaves of the parent's effective nodes; all of them where that is
/// nothing.
pub(crate) fn narrowed(mems: &Option<NodeMask>, above: NodeMask) -> NodeMask
    ensures { result ≡ narrowed mems.now above }
{
    let Some(own) = mems else {
        return above;
    };
    let left = own.and(&above);
    if left.is_empty() {
        return above;
    }
    left
}

/// The effective nodes of a group (`cpuset.mems.effective`).
pub fn effective(memory: NodeMask, groups: &[ControlGroup], name: u32) -> NodeMask
    ensures { result ≡ effective_mems memory groups.now name }
{
    let Some((group, older)) = groups.split_first() else {
        return memory;
    };
    if group.name == name {
        let above = effective(memory, older, group.parent);
        return narrowed(&group.mems, above);
    }
    effective(memory, older, name)
}

/// Whether a group below the root has this name.
fn has_name(groups: &[ControlGroup], name: u32) -> bool
    ensures { result ≡ list_any (λ (group : ControlGroup). group.name == name) groups.now }
{
    groups.iter().any(|group| group.name == name)
}

/// Whether there is such a group.
pub(crate) fn is_group(groups: &[ControlGroup], name: u32) -> bool
    ensures { result ≡ is_group groups.now name }
{
    name == 0 || has_name(groups, name)
}

/// Whether a group has a list of its own.
pub(crate) fn has_own_mems(groups: &[ControlGroup], name: u32) -> bool
    ensures { result ≡ has_own_mems groups.now name }
{
    groups
        .iter()
        .any(|group| group.name == name && group.mems.is_some())
}

/// Whether a group is this one or below it.
pub(crate) fn is_within(groups: &[ControlGroup], name: u32, above: u32) -> bool
    ensures { result ≡ is_within groups.now name above }
{
    let Some((group, older)) = groups.split_first() else {
        return name == above;
    };
    if group.name == name {
        return name == above || is_within(older, group.parent, above);
    }
    is_within(older, name, above)
}

/// The group with its own list of nodes, or with none, where it has this name.
fn with_mems(group: ControlGroup, name: u32, mems: &Option<NodeMask>) -> ControlGroup
    ensures { result ≡ with_mems name mems.now group }
{
    if group.name == name {
        return ControlGroup {
            name: group.name,
            parent: group.parent,
            mems: *mems,
        };
    }
    group
}

/// Gives the group of a name its own list of nodes, or takes it away.
pub(crate) fn set_mems(groups: &mut [ControlGroup], name: u32, mems: &Option<NodeMask>)
    ensures { groups.new ≡ map (with_mems name mems.now) groups.old }
{
    for group in groups.iter_mut() {
        *group = with_mems(*group, name, mems);
    }
}

/// Whether a set has a node of this number or above.
fn has_node_from(mask: &NodeMask, first: u32) -> bool
    ensures { result ≡ list_any (λ node. nat_le first node) (members mask.now) }
{
    mask.iter().any(|node| first <= u32::from(node.number()))
}

/// Whether a list names a node that the machine lacks.
pub(crate) fn names_beyond(mems: &Option<NodeMask>, nodes: u32) -> bool
    ensures { result ≡ option_map_or (λ mask. list_any (λ node. nat_le nodes node) (members mask))
        mems.now false }
{
    match mems {
        None => false,
        Some(mask) => has_node_from(mask, nodes),
    }
}
