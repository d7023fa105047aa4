//! Cycles of turns.
ghost use Rattle.std.specs.Prelude.{◌≡◌, ◌≤◌, ◌++◌, length, replicate, OnOk, IfOk};
ghost use Rattle.std.specs.List.{range_with_len};
ghost use Rattle.numa_mask.specs.NodeSet.{members, weight_of};
ghost use Rattle.numa_machine.specs.Weights.{weight_at};
ghost use Rattle.numa_compile.specs.Rules.{places_from};

use numa_machine::{NoMemory, Weights};
use numa_mask::NodeMask;
use std::alloc::Global;

/// One turn for each of `count` places, from place 0 on.
pub(crate) fn equal_turns(alloc: Global, count: u32) -> Result<Vec<u8>, NoMemory>
    requires { count ≤ 256 }
    ensures { IfOk result (λ cycle. cycle.items ≡ range_with_len 0 count) }
{
    let mut cycle = Vec::new(alloc);
    for place in 0..count {
        cycle.push(place as u8)?;
    }
    Ok(cycle)
}

/// Appends `turns` turns of a place.
fn push_turns(cycle: &mut Vec<u8>, place: u8, turns: u32) -> Result<(), NoMemory>
    ensures { OnOk result (cycle.new.items ≡ cycle.old.items ++ replicate turns place) }
{
    for _ in 0..turns {
        cycle.push(place)?;
    }
    Ok(())
}

/// For each member of a set, in ascending order, as many turns as its weight, by the member's place
/// in the set; each has at least one.
pub(crate) fn weighted_turns(
    alloc: Global,
    weights: &Weights,
    set: &NodeMask,
) -> Result<Vec<u8>, NoMemory>
    ensures places { IfOk result (λ cycle. cycle.items
        ≡ places_from 0 (weight_at weights.now) (members set.now)) }
    ensures each { IfOk result (λ cycle. weight_of set.now ≤ length cycle.items) }
{
    let mut cycle = Vec::new(alloc);
    let mut place = 0u32;
    for node in set.iter() {
        let turns = weights.get(u32::from(node.number()));
        push_turns(&mut cycle, place as u8, turns)?;
        place += 1;
    }
    Ok(cycle)
}
