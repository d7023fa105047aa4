//! Questions to hosts: their versions, groups and processes, and what each of these answers.
ghost use Rattle.std.specs.Prelude.{◌≡◌, ◌≢◌, ℕ, Option, Some, None, Result, Ok, is_some, true};
ghost use Rattle.std.specs.Prelude.{IfSome};
ghost use Rattle.numa_host.specs.Processes.{Member};
ghost use Rattle.numa_host_script.specs.declared.running.RunningHost.{RunningHost};
ghost use Rattle.numa_host.specs.declared.group.ControlGroup.{ControlGroup};
ghost use Rattle.numa_machine.specs.declared.no_memory.NoMemory.{NoMemory};
ghost use Rattle.numa_mode.specs.Policy.{PolicyRecord};
ghost use Rattle.numa_plan.specs.Meaning.{PlanData};
ghost use Rattle.numa_ranges.specs.declared.run.Run.{Run};
ghost use Rattle.numaplan_handles.specs.Handles.{host_in, plan_in};
ghost use Rattle.numaplan_handles.specs.Hosts.{ChoosesBy, CountsRanges, FindsPolicy, FindsRange};
ghost use Rattle.numaplan_handles.specs.Hosts.{HasGroupAt, HasGroupNodes, HasGroups};
ghost use Rattle.numaplan_handles.specs.Hosts.{HasHostVersion, HasProcessAt, HasProcesses};
ghost use Rattle.numaplan_handles.specs.Hosts.{IsPlanned, OfHost, OfProcess};
ghost use Rattle.numaplan_handles.specs.declared.plan_view.ChoiceRefusal.{ChoiceRefusal};
ghost use Rattle.numaplan_c.specs.Border.{Asked, AskedInto, Opens};
ghost use Rattle.numaplan_c.specs.Hosts.{AnswersPlan, TellsChoice, TellsGroup, TellsGroupNodes};
ghost use Rattle.numaplan_c.specs.Hosts.{TellsNumber, TellsPolicyIn, TellsProcess, TellsRangeIn};
ghost use Rattle.numaplan_c.specs.Hosts.{flag_of};

use crate::codes::Code;
use crate::keeping::{ensure_closed, if_open, memory_code, tell_if_open};
use crate::nodes::NpNodes;
use crate::plans::tell_choice;
use crate::ranges::{NpRange, tell_range};
use crate::standing::{NpPolicy, nodes_of, tell_policy};
use numa_host::ControlGroup;
use numa_mask::NodeMask;
use numaplan_handles::{HostHandle, PlanHandle};
use std::alloc::Global;

/// A group: its number, that of its parent, 1 if it has a list of its own and else 0, and the nodes
/// of that list.
#[repr(C)]
#[derive(Clone, Copy)]
pub struct NpGroup {
    pub group: u32,
    pub parent: u32,
    pub has_mems: u64,
    pub mems: NpNodes,
}

const _: () = prove!(size_of::<NpGroup>() == 48);

/// A process: its number, and that of its group.
#[repr(C)]
#[derive(Clone, Copy)]
pub struct NpProcess {
    pub process: u32,
    pub group: u32,
}

const _: () = prove!(size_of::<NpProcess>() == 8);

/// Returns the number of accepted commands.
#[unsafe(no_mangle)]
pub extern "C" fn np_host_version(alloc: Global, host: &mut HostHandle, version: &mut u64) -> u32
    ensures { Asked (host_in host.old) (host_in host.new) result (version.new ≡ version.old)
        (λ kept. (result ≡ 0) × OfHost (host_in host.old) (HasHostVersion version.new)) }
{
    tell_if_open!(version, host.version(alloc))
}

/// Returns the number of groups below the root.
#[unsafe(no_mangle)]
pub extern "C" fn np_host_groups(alloc: Global, host: &mut HostHandle, count: &mut usize) -> u32
    ensures { Asked (host_in host.old) (host_in host.new) result (count.new ≡ count.old)
        (λ kept. (result ≡ 0) × OfHost (host_in host.old) (HasGroups count.new)) }
{
    tell_if_open!(count, host.groups(alloc))
}

/// 1 if there is a list, else 0.
fn flag_of(mems: &Option<NodeMask>) -> u64
    ensures { result ≡ flag_of mems.now }
{
    match mems {
        None => 0,
        Some(_) => 1,
    }
}

/// Writes a group.
fn tell_group(found: Option<ControlGroup>, group: &mut NpGroup) -> u32
    ensures { TellsGroup found result group.old group.new }
{
    let Some(found) = found else {
        return Code::NoSuchGroup as u32;
    };
    *group = NpGroup {
        group: found.name,
        parent: found.parent,
        has_mems: flag_of(&found.mems),
        mems: nodes_of(&found.mems.unwrap_or(NodeMask::empty())),
    };
    0
}

/// Returns the group at a place.
#[unsafe(no_mangle)]
pub extern "C" fn np_host_group(
    alloc: Global,
    host: &mut HostHandle,
    index: usize,
    group: &mut NpGroup,
) -> u32
    ensures { Asked (host_in host.old) (host_in host.new) result (group.new ≡ group.old)
        (λ kept. (found : Option ControlGroup) × OfHost (host_in host.old) (HasGroupAt index found)
        × TellsGroup found result group.old group.new) }
{
    if_open!(host.group(alloc, index), found => tell_group(found, group))
}

/// Writes the nodes of a group.
fn tell_group_nodes(found: Option<NodeMask>, nodes: &mut NpNodes) -> u32
    ensures { TellsGroupNodes found result nodes.old nodes.new }
{
    match found {
        None => Code::NoSuchGroup as u32,
        Some(found) => {
            nodes.words = found.words();
            0
        }
    }
}

/// Returns the effective nodes of a group.
#[unsafe(no_mangle)]
pub extern "C" fn np_host_group_nodes(
    alloc: Global,
    host: &mut HostHandle,
    group: u32,
    nodes: &mut NpNodes,
) -> u32
    ensures { Asked (host_in host.old) (host_in host.new) result (nodes.new ≡ nodes.old)
        (λ kept. (found : Option ℕ) × OfHost (host_in host.old) (HasGroupNodes group found)
        × TellsGroupNodes found result nodes.old nodes.new) }
{
    if_open!(host.group_nodes(alloc, group), found => tell_group_nodes(found, nodes))
}

/// Returns the number of processes.
#[unsafe(no_mangle)]
pub extern "C" fn np_host_processes(alloc: Global, host: &mut HostHandle, count: &mut usize) -> u32
    ensures { Asked (host_in host.old) (host_in host.new) result (count.new ≡ count.old)
        (λ kept. (result ≡ 0) × OfHost (host_in host.old) (HasProcesses count.new)) }
{
    tell_if_open!(count, host.processes(alloc))
}

/// Writes a process.
fn tell_process(found: Option<(u32, u32)>, process: &mut NpProcess) -> u32
    ensures { TellsProcess found result process.old process.new }
{
    let Some(found) = found else {
        return Code::NoSuchProcess as u32;
    };
    *process = NpProcess {
        process: found.0,
        group: found.1,
    };
    0
}

/// Returns the process at a place.
#[unsafe(no_mangle)]
pub extern "C" fn np_host_process(
    alloc: Global,
    host: &mut HostHandle,
    index: usize,
    process: &mut NpProcess,
) -> u32
    ensures { Asked (host_in host.old) (host_in host.new) result (process.new ≡ process.old)
        (λ kept. (found : Option Member) × OfHost (host_in host.old) (HasProcessAt index found)
        × TellsProcess found result process.old process.new) }
{
    if_open!(host.process(alloc, index), found => tell_process(found, process))
}

/// Returns the number of a process's ranges.
#[unsafe(no_mangle)]
pub extern "C" fn np_host_ranges(
    alloc: Global,
    host: &mut HostHandle,
    process: u32,
    count: &mut usize,
) -> u32
    ensures { Asked (host_in host.old) (host_in host.new) result (count.new ≡ count.old)
        (λ kept. (answer : Option ℕ)
        × OfHost (host_in host.old) (OfProcess process CountsRanges answer)
        × TellsNumber answer result count.old count.new) }
{
    tell_if_open!(count, host.ranges(alloc, process), Code::NoSuchProcess)
}

/// Returns the range of a process at a place, and its own policy as a word.
#[unsafe(no_mangle)]
pub extern "C" fn np_host_range(
    alloc: Global,
    host: &mut HostHandle,
    process: u32,
    index: usize,
    range: &mut NpRange,
    policy: &mut [u8],
    length: &mut usize,
) -> u32
    ensures { Asked (host_in host.old) (host_in host.new) result
        ((range.new ≡ range.old) × (policy.new ≡ policy.old) × (length.new ≡ length.old))
        (λ kept. (answer : Option (Option (Run (Option PolicyRecord))))
        × OfHost (host_in host.old) (OfProcess process (FindsRange index) answer)
        × TellsRangeIn answer result range.old range.new policy.old policy.new length.old
        length.new) }
{
    match host.range(alloc, process, index) {
        None => Code::Closed as u32,
        Some(None) => Code::NoSuchProcess as u32,
        Some(Some(None)) => Code::NoRange as u32,
        Some(Some(Some(found))) => tell_range(&found, range, policy, length),
    }
}

/// Returns the policy of a process's task.
#[unsafe(no_mangle)]
pub extern "C" fn np_host_task_policy(
    alloc: Global,
    host: &mut HostHandle,
    process: u32,
    task: u32,
    policy: &mut NpPolicy,
) -> u32
    ensures { Asked (host_in host.old) (host_in host.new) result (policy.new ≡ policy.old)
        (λ kept. (answer : Option (Option PolicyRecord))
        × OfHost (host_in host.old) (OfProcess process (FindsPolicy task) answer)
        × TellsPolicyIn answer result policy.old policy.new) }
{
    if_open!(host.task_policy(alloc, process, task), Code::NoSuchProcess, found => {
        tell_policy(found, policy)
    })
}

/// Copies the fallback list of a page of a process.
#[unsafe(no_mangle)]
pub extern "C" fn np_host_choice(
    alloc: Global,
    host: &mut HostHandle,
    process: u32,
    task: u32,
    page: u64,
    cpu: u32,
    nodes: &mut [u8],
    count: &mut usize,
) -> u32
    ensures told { AskedInto (host_in host.old) (host_in host.new) result nodes.old nodes.new
        count.old count.new (λ kept. (answer : Option (Result ℕ ChoiceRefusal))
        × OfHost (host_in host.old)
        (OfProcess process (ChoosesBy task page cpu nodes.old nodes.new) answer)
        × TellsChoice answer result count.old count.new) }
    ensures none { result ≡ 96 → nodes.new ≡ nodes.old }
{
    let answer = host.choose(alloc, process, task, page, cpu, nodes);
    if_open!(answer, Code::NoSuchProcess, answer => tell_choice(answer, count))
}

/// Opens a handle with the plan of a process.
#[unsafe(no_mangle)]
pub extern "C" fn np_host_compile(
    alloc: Global,
    host: &mut HostHandle,
    process: u32,
    plan: &mut PlanHandle,
) -> u32
    ensures same { host_in host.new ≡ host_in host.old }
    ensures opens { Opens (plan_in plan.old) result (plan_in plan.new) }
    ensures made { plan_in plan.old ≡ None → IfSome (plan_in plan.new) (λ made.
        OfHost (host_in host.old) (OfProcess process IsPlanned (Some (Ok made)))) }
    ensures open { is_some (plan_in plan.old) ≡ true → result ≡ 2 }
    ensures closed { plan_in plan.old ≡ None → host_in host.old ≡ None → result ≡ 1 }
    ensures answered { plan_in plan.old ≡ None → (kept : RunningHost) → host_in host.old ≡ Some kept
        → (answer : Option (Result PlanData NoMemory))
        × OfHost (host_in host.old) (OfProcess process IsPlanned answer)
        × AnswersPlan answer result }
{
    ensure_closed!(plan);
    match host.compile(alloc, process) {
        None => Code::Closed as u32,
        Some(None) => Code::NoSuchProcess as u32,
        Some(Some(Err(_))) => Code::NoMemory as u32,
        Some(Some(Ok(made))) => memory_code(plan.open(alloc, made)),
    }
}
