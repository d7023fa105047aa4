//! Policies in force, of ranges and of tasks, and the range of an address.
ghost use Rattle.std.specs.Prelude.{◌≡◌, Option, Some, None, List, slice_get};
ghost use Rattle.numa_core.specs.Standing.{CoreState};
ghost use Rattle.numaplan_handles.specs.Handles.{core_in};
ghost use Rattle.numaplan_handles.specs.Asked.{HasPlaceOf, HasTaskPolicy};
ghost use Rattle.numa_maps.specs.Listing.{AreRangesOf};
ghost use Rattle.numa_mask.specs.Words.{number_of};
ghost use Rattle.numa_mode.specs.Policy.{PolicyRecord};
ghost use Rattle.numa_space.specs.History.{page_of};
ghost use Rattle.numa_space.specs.Standing.{StandsFor};
ghost use Rattle.numa_requests.specs.declared.command.Command.{Command};
ghost use Rattle.numaplan_c.specs.Border.{Asked};
ghost use Rattle.numaplan_c.specs.Standing.{TellsPolicy, TellsRangePolicy, home_number};

use crate::codes::Code;
use crate::keeping::{if_open, tell_if_open};
use crate::nodes::NpNodes;
use numa_mask::NodeMask;
use numa_mode::Record;
use numa_requests::PAGE_BYTES;
use numaplan_handles::CoreHandle;
use std::alloc::Global;

/// A policy in force: its mode with its flag, its home node, the requested nodes, and the effective
/// set.
#[repr(C)]
#[derive(Clone, Copy)]
pub struct NpPolicy {
    pub mode: u32,
    pub home: u32,
    pub asked: NpNodes,
    pub nodes: NpNodes,
}

const _: () = prove!(size_of::<NpPolicy>() == 72);

/// The C struct of a set.
pub(crate) fn nodes_of(set: &NodeMask) -> NpNodes
    ensures { number_of result.words ≡ set.now }
{
    NpNodes { words: set.words() }
}

/// The number of a home node, 256 if there is none.
fn home_number(home: Option<u8>) -> u32
    ensures { result ≡ home_number home }
{
    match home {
        Some(node) => u32::from(node),
        None => 256,
    }
}

/// The C struct of a policy.
fn policy_told(policy: &Record) -> NpPolicy
    ensures { TellsPolicy (Some policy.now) result }
{
    let spec = policy.spec();
    NpPolicy {
        mode: spec.mode().word(spec.flags()),
        home: home_number(policy.home()),
        asked: nodes_of(&spec.mask()),
        nodes: nodes_of(&policy.effective()),
    }
}

/// The C struct of no policy.
fn none_told() -> NpPolicy
    ensures { TellsPolicy None result }
{
    let none = nodes_of(&NodeMask::empty());
    NpPolicy {
        mode: 0,
        home: 256,
        asked: none,
        nodes: none,
    }
}

/// The C struct of a policy, or of none.
pub(crate) fn told(policy: Option<Record>) -> NpPolicy
    ensures { TellsPolicy policy result }
{
    match policy {
        Some(policy) => policy_told(&policy),
        None => none_told(),
    }
}

/// Writes a policy, or that there is none.
pub(crate) fn tell_policy(found: Option<Record>, policy: &mut NpPolicy) -> u32
    ensures { (result ≡ 0) × TellsPolicy found policy.new }
{
    *policy = told(found);
    0
}

/// Returns the place of the range that has an address, or else of the next one.
#[unsafe(no_mangle)]
pub extern "C" fn np_core_range_at(
    alloc: Global,
    core: &mut CoreHandle,
    address: u64,
    index: &mut usize,
) -> u32
    ensures { Asked (core_in core.old) (core_in core.new) result (index.new ≡ index.old)
        (λ kept. (result ≡ 0) × HasPlaceOf (core_in core.old) (page_of address) index.new) }
{
    tell_if_open!(index, core.place_of(alloc, address / PAGE_BYTES))
}

/// Returns the own policy of the range at a place.
#[unsafe(no_mangle)]
pub extern "C" fn np_core_range_policy(
    alloc: Global,
    core: &mut CoreHandle,
    index: usize,
    policy: &mut NpPolicy,
) -> u32
    ensures told { Asked (core_in core.old) (core_in core.new) result (policy.new ≡ policy.old)
        (λ kept. TellsRangePolicy (slice_get kept.space.ranges index) result policy.old
        policy.new) }
    ensures meaning { (kept : CoreState) → core_in core.old ≡ Some kept →
        (history : List Command) → StandsFor kept.space history
        → AreRangesOf kept.space.machine history kept.space.ranges }
{
    if_open!(core.range(alloc, index), Code::NoRange, found => {
        tell_policy(found.value.policy(), policy)
    })
}

/// Returns the policy of a task.
#[unsafe(no_mangle)]
pub extern "C" fn np_core_task_policy(
    alloc: Global,
    core: &mut CoreHandle,
    task: u32,
    policy: &mut NpPolicy,
) -> u32
    ensures { Asked (core_in core.old) (core_in core.new) result (policy.new ≡ policy.old)
        (λ kept. (result ≡ 0) × ((found : Option PolicyRecord)
        × HasTaskPolicy (core_in core.old) task found × TellsPolicy found policy.new)) }
{
    if_open!(core.task_policy(alloc, task), found => tell_policy(found, policy))
}
