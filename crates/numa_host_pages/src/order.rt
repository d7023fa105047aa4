//! The order in which the processes of a host are told of their nodes.
ghost use Rattle.std.specs.Prelude.{◌≡◌, ◌++◌, ◌∷◌, List, IfOk, OnOk, reverse};
ghost use Rattle.numa_host_pages.specs.Homes.{Home, HostLying};
ghost use Rattle.numa_host_pages.specs.Standing.{AreHomes, HostLies};
ghost use Rattle.numa_host_pages.specs.TopDown.{below_in, those_of, told_in, top_down};

use crate::member::Member;
use crate::pages::HostPages;
use numa_host::ControlGroup;
use std::alloc::{AllocError, Global};

/// Appends the processes of a group, as they came to it.
fn add_group(members: &[Member], group: u32, told: &mut Vec<u32>) -> Result<(), AllocError>
    ensures { (homes : List Home) → AreHomes members.now homes
        → OnOk result (told.new.items ≡ told.old.items ++ those_of group homes) }
{
    let Some((first, rest)) = members.split_first() else {
        return Ok(());
    };
    if first.group != group {
        return add_group(rest, group, told);
    }
    told.push(first.id)?;
    add_group(rest, group, told)
}

/// Appends the processes of the groups below one, from the top down.
fn add_below(
    groups: &[ControlGroup],
    name: u32,
    members: &[Member],
    told: &mut Vec<u32>,
) -> Result<(), AllocError>
    ensures { (homes : List Home) → AreHomes members.now homes → OnOk result (told.new.items
        ≡ told.old.items ++ told_in (below_in (reverse groups.now) name) homes) }
{
    let Some((group, newer)) = groups.split_last() else {
        return Ok(());
    };
    if group.parent != name {
        return add_below(newer, name, members, told);
    }
    add_group(members, group.name, told)?;
    add_below(newer, group.name, members, told)?;
    add_below(newer, name, members, told)
}

impl HostPages {
    /// The processes in the order in which pages follow their nodes: those of the root, whose nodes
    /// never change, then group by group from the top down, siblings as they were made, and in each
    /// group as they came to it. `groups` has the newest first.
    ///
    /// # Errors
    /// `AllocError`: out of memory.
    pub fn told_order(&self, alloc: Global, groups: &[ControlGroup]) -> Result<Vec<u32>, AllocError>
        ensures { (at : HostLying) → HostLies self.now at → IfOk result (λ told.
            told.items ≡ told_in (0 ∷ top_down groups.now) at.homes) }
    {
        let mut told = Vec::new(alloc);
        add_group(&self.members, 0, &mut told)?;
        add_below(groups, 0, &self.members, &mut told)?;
        Ok(told)
    }
}
