//! Commands of hosts: of groups, of processes, and what one process does.
ghost use Rattle.std.specs.Prelude.{None, Some};
ghost use Rattle.numa_requests.specs.declared.host_command.HostCommand.{HostCommand};
ghost use Rattle.numa_machine.specs.declared.page_size.PageSize.{PageSize};
ghost use Rattle.numa_mask.specs.Lists.{list_of};
ghost use Rattle.numa_mask.specs.Words.{number_of};
ghost use Rattle.numa_mode.specs.Policy.{raw_specification};
ghost use Rattle.numa_script.specs.Policies.{policy_of};
ghost use Rattle.numa_requests.specs.declared.command.Command.{Command};
ghost use Rattle.numaplan_c.specs.Bound.{home_of};
ghost use Rattle.numaplan_c.specs.Codes.{list_code, spec_code, word_code};
ghost use Rattle.numaplan_c.specs.Hosts.{HostAnswers, HostAnswersRead, reply_code};
ghost use Rattle.numaplan_handles.specs.Handles.{host_in};
ghost use Rattle.numa_script.specs.declared.page_line.PageLine.{PageLine};
ghost use Rattle.numaplan_c.specs.Hosted.{HugeDone, PagesChange};
ghost use Rattle.numa_script.specs.declared.huge_line.HugeLine.{HugeLine};

use crate::binding::{home_of, raw_spec};
use crate::codes::{list_code, spec_code, word_code};
use crate::host_codes::{reply_code, told_code};
use crate::host_pools::done;
use crate::keeping::{if_open, or_return};
use crate::nodes::NpNodes;
use numa_machine::PageSize;
use numa_mask::read_list;
use numa_requests::{Command, HostCommand};
use numa_script::policy::read_policy;
use numa_script::{HugeLine, PageLine};
use numaplan_handles::HostHandle;
use std::alloc::Global;

/// Carries out a command of the host in a handle, and returns the code of its result.
pub(crate) fn obey(alloc: Global, host: &mut HostHandle, command: HostCommand) -> u32
    ensures { HostAnswers (host_in host.old) command result (host_in host.new) }
{
    if_open!(host.obey(alloc, &command), answer => reply_code(&answer))
}

/// Carries out a command of one process.
macro_rules! tell {
    ($alloc:expr, $host:expr, $process:expr => $command:ident { $($field:ident),* }) => {{
        let command = Command::$command { $($field),* };
        obey($alloc, $host, HostCommand::In { process: $process, command })
    }};
}

/// Makes a group below another.
#[unsafe(no_mangle)]
pub extern "C" fn np_host_new_group(
    alloc: Global,
    host: &mut HostHandle,
    group: u32,
    parent: u32,
) -> u32
    ensures { HostAnswers (host_in host.old) (HostCommand.NewGroup group parent) result
        (host_in host.new) }
{
    obey(alloc, host, HostCommand::NewGroup { group, parent })
}

/// Gives a group its own list of nodes.
#[unsafe(no_mangle)]
pub extern "C" fn np_host_set_group_mems(
    alloc: Global,
    host: &mut HostHandle,
    group: u32,
    nodes: &[u8],
) -> u32
    ensures { HostAnswersRead (list_of nodes.now) list_code
        (λ mask. HostCommand.SetGroupMems group (Some mask)) (host_in host.old) result
        (host_in host.new) }
{
    let mask = or_return!(read_list(nodes), list_code);
    let command = HostCommand::SetGroupMems {
        group,
        mems: Some(mask),
    };
    obey(alloc, host, command)
}

/// Takes away a group's own list of nodes.
#[unsafe(no_mangle)]
pub extern "C" fn np_host_unset_group_mems(alloc: Global, host: &mut HostHandle, group: u32) -> u32
    ensures { HostAnswers (host_in host.old) (HostCommand.SetGroupMems group None) result
        (host_in host.new) }
{
    let command = HostCommand::SetGroupMems { group, mems: None };
    obey(alloc, host, command)
}

/// Makes an empty process in a group.
#[unsafe(no_mangle)]
pub extern "C" fn np_host_new_process(
    alloc: Global,
    host: &mut HostHandle,
    process: u32,
    group: u32,
) -> u32
    ensures { HostAnswers (host_in host.old) (HostCommand.NewProcess process group) result
        (host_in host.new) }
{
    obey(alloc, host, HostCommand::NewProcess { process, group })
}

/// Makes a process as a copy of another, whose task `task` has the policy of the other's `from`.
#[unsafe(no_mangle)]
pub extern "C" fn np_host_fork(
    alloc: Global,
    host: &mut HostHandle,
    parent: u32,
    child: u32,
    from: u32,
    task: u32,
) -> u32
    ensures { HostAnswers (host_in host.old) (HostCommand.Fork parent child from task) result
        (host_in host.new) }
{
    let command = HostCommand::Fork {
        parent,
        child,
        from,
        task,
    };
    obey(alloc, host, command)
}

/// Moves a process to another group.
#[unsafe(no_mangle)]
pub extern "C" fn np_host_attach(
    alloc: Global,
    host: &mut HostHandle,
    process: u32,
    group: u32,
) -> u32
    ensures { HostAnswers (host_in host.old) (HostCommand.Attach process group) result
        (host_in host.new) }
{
    obey(alloc, host, HostCommand::Attach { process, group })
}

/// Ends a process.
#[unsafe(no_mangle)]
pub extern "C" fn np_host_exit(alloc: Global, host: &mut HostHandle, process: u32) -> u32
    ensures { HostAnswers (host_in host.old) (HostCommand.Exit process) result (host_in host.new) }
{
    obey(alloc, host, HostCommand::Exit { process })
}

/// Sets the weight of a node, for every process.
#[unsafe(no_mangle)]
pub extern "C" fn np_host_set_weight(
    alloc: Global,
    host: &mut HostHandle,
    node: u32,
    weight: u32,
) -> u32
    ensures { HostAnswers (host_in host.old) (HostCommand.SetWeight node weight) result
        (host_in host.new) }
{
    obey(alloc, host, HostCommand::SetWeight { node, weight })
}

/// Maps a span of a process.
#[unsafe(no_mangle)]
pub extern "C" fn np_host_map(
    alloc: Global,
    host: &mut HostHandle,
    process: u32,
    start: u64,
    length: u64,
    offset: u64,
) -> u32
    ensures { HostAnswers (host_in host.old)
        (HostCommand.In process (Command.Map start length offset PageSize.Small)) result
        (host_in host.new) }
{
    let size = PageSize::Small;
    tell!(alloc, host, process => Map { start, length, offset, size })
}

/// Maps a span of a process as pages of 2 MiB.
#[unsafe(no_mangle)]
pub extern "C" fn np_host_map_huge(
    alloc: Global,
    host: &mut HostHandle,
    process: u32,
    start: u64,
    length: u64,
    offset: u64,
) -> u32
    ensures { HostAnswers (host_in host.old)
        (HostCommand.In process (Command.Map start length offset PageSize.Huge)) result
        (host_in host.new) }
{
    let size = PageSize::Huge;
    tell!(alloc, host, process => Map { start, length, offset, size })
}

/// Unmaps the pages of a process's span.
#[unsafe(no_mangle)]
pub extern "C" fn np_host_unmap(
    alloc: Global,
    host: &mut HostHandle,
    process: u32,
    start: u64,
    length: u64,
) -> u32
    ensures { HostAnswers (host_in host.old)
        (HostCommand.In process (Command.Unmap start length)) result (host_in host.new) }
{
    tell!(alloc, host, process => Unmap { start, length })
}

/// Sets the policy of a process's task.
#[unsafe(no_mangle)]
pub extern "C" fn np_host_set_task(
    alloc: Global,
    host: &mut HostHandle,
    process: u32,
    task: u32,
    policy: &[u8],
) -> u32
    ensures { HostAnswersRead (policy_of policy.now) word_code
        (λ spec. HostCommand.In process (Command.SetTask task spec)) (host_in host.old) result
        (host_in host.new) }
{
    let spec = or_return!(read_policy(policy), word_code);
    tell!(alloc, host, process => SetTask { task, spec })
}

/// The same by a mode word and a set of nodes.
#[unsafe(no_mangle)]
pub extern "C" fn np_host_set_task_by(
    alloc: Global,
    host: &mut HostHandle,
    process: u32,
    task: u32,
    mode: u32,
    nodes: &NpNodes,
) -> u32
    ensures { HostAnswersRead (raw_specification mode (number_of nodes.now.words)) spec_code
        (λ spec. HostCommand.In process (Command.SetTask task spec)) (host_in host.old) result
        (host_in host.new) }
{
    let spec = or_return!(raw_spec(mode, nodes), spec_code);
    tell!(alloc, host, process => SetTask { task, spec })
}

/// Gives a task of a process the policy of another, or removes its policy if the other has none.
#[unsafe(no_mangle)]
pub extern "C" fn np_host_inherit(
    alloc: Global,
    host: &mut HostHandle,
    process: u32,
    task: u32,
    from: u32,
) -> u32
    ensures { HostAnswers (host_in host.old)
        (HostCommand.In process (Command.Inherit task from)) result (host_in host.new) }
{
    tell!(alloc, host, process => Inherit { task, from })
}

/// Sets the home node of the policies of the pages of a process's span.
#[unsafe(no_mangle)]
pub extern "C" fn np_host_set_home(
    alloc: Global,
    host: &mut HostHandle,
    process: u32,
    start: u64,
    length: u64,
    node: u32,
) -> u32
    ensures { HostAnswers (host_in host.old)
        (HostCommand.In process (Command.SetHome start length node)) result (host_in host.new) }
{
    tell!(alloc, host, process => SetHome { start, length, node })
}

/// The same by set_mempolicy_home_node(2)'s own words.
#[unsafe(no_mangle)]
pub extern "C" fn np_host_home_by(
    alloc: Global,
    host: &mut HostHandle,
    process: u32,
    start: u64,
    length: u64,
    node: u64,
    flags: u64,
) -> u32
    ensures { HostAnswersRead (home_of node flags) spec_code
        (λ home. HostCommand.In process (Command.SetHome start length home)) (host_in host.old)
        result (host_in host.new) }
{
    let node = or_return!(home_of(node, flags), spec_code);
    tell!(alloc, host, process => SetHome { start, length, node })
}

/// States that the mapped pages of a span of a process lie on a node.
#[unsafe(no_mangle)]
pub extern "C" fn np_host_place(
    alloc: Global,
    host: &mut HostHandle,
    process: u32,
    start: u64,
    length: u64,
    node: u32,
) -> u32
    ensures { PagesChange process (PageLine.At start length node) host.old result host.new }
{
    if_open!(host.change(alloc, process, &PageLine::At { start, length, node }), told => {
        told_code(&told)
    })
}

/// Maps a span of a process as pages of 2 MiB, which its task reserves or doesn't.
#[unsafe(no_mangle)]
pub extern "C" fn np_host_map_huge_for(
    alloc: Global,
    host: &mut HostHandle,
    process: u32,
    start: u64,
    length: u64,
    offset: u64,
    task: u32,
    reserve: bool,
) -> u32
    ensures { HugeDone process (HugeLine.Map start length offset task reserve) host.old result
        host.new }
{
    let line = HugeLine::Map {
        start,
        length,
        offset,
        task,
        reserves: reserve,
    };
    done(alloc, host, process, &line)
}
