//! Rows of nodes, concatenated.
ghost use Rattle.std.specs.Prelude.{◌≡◌, ◌<◌, ◌++◌, OnOk, IfOk, All};
ghost use Rattle.std.specs.List.{range_with_len};
ghost use Rattle.numa_mask.specs.NodeSet.{members};
ghost use Rattle.numa_space.specs.Standing.{setting_in};
ghost use Rattle.numa_compile.specs.Rules.{row_from, rows_from};
ghost use Rattle.numa_compile.specs.declared.reach.Reach.TheVariants.{Only};

use crate::reach::Reach;
use arrayvec::ArrayVec;
use numa_machine::NoMemory;
use numa_mask::NodeMask;
use numa_space::Space;
use std::alloc::Global;

/// The nodes of the row for a fault on a node.
fn row_from(space: &Space, reach: &Reach, from: u32) -> ArrayVec<u8, 256>
    requires { from < space.now.machine.nodes }
    ensures { result.items ≡ row_from (setting_in space.now) reach.now from }
{
    match reach {
        Reach::Only(set) => space.nearest(set, from),
        Reach::First(set) => space.nearest_before_others(set, from),
    }
}

/// Appends the row for a fault on a node.
pub(crate) fn push_row(
    rows: &mut Vec<u8>,
    space: &Space,
    reach: &Reach,
    from: u32,
) -> Result<(), NoMemory>
    requires { from < space.now.machine.nodes }
    ensures { OnOk result (rows.new.items ≡ rows.old.items
        ++ row_from (setting_in space.now) reach.now from) }
{
    let row = row_from(space, reach, from);
    rows.extend_from_slice(row.as_slice())?;
    Ok(())
}

/// The rows for faults on each node of the machine, from node 0 on.
pub(crate) fn rows_by_node(alloc: Global, space: &Space, reach: &Reach) -> Result<Vec<u8>, NoMemory>
    ensures { IfOk result (λ rows. rows.items ≡ rows_from (setting_in space.now) reach.now
        (range_with_len 0 space.now.machine.nodes)) }
{
    let mut rows = Vec::new(alloc);
    for from in 0..space.machine().nodes() {
        push_row(&mut rows, space, reach, from)?;
    }
    Ok(rows)
}

/// The allowed nodes, the nearest to each member of a set first, from the lowest member on.
pub(crate) fn rows_by_member(
    alloc: Global,
    space: &Space,
    set: &NodeMask,
) -> Result<Vec<u8>, NoMemory>
    requires { All (λ node. node < space.now.machine.nodes) (members set.now) }
    ensures { IfOk result (λ rows. rows.items ≡ rows_from (setting_in space.now)
        (Only space.now.allowed) (members set.now)) }
{
    let near = Reach::Only(space.allowed());
    let mut rows = Vec::new(alloc);
    for node in set.iter() {
        push_row(&mut rows, space, &near, u32::from(node.number()))?;
    }
    Ok(rows)
}
