//! Questions to a handle of a host: its groups, its processes, and what each of these answers.
ghost use Rattle.std.specs.Prelude.{◌≡◌, ◌≤◌, ◌^◌, None, Some, IfOk, IfSome, List, length};
ghost use Rattle.std.specs.Prelude.{slice_get, true};
ghost use Rattle.numa_compile.specs.Standing.{PlanStandsFor};
ghost use Rattle.numa_host.specs.Standing.{HostStandsFor, member_of};
ghost use Rattle.numa_requests.specs.declared.host_command.HostCommand.{HostCommand};
ghost use Rattle.numa_ranges.specs.Runs.{end_of};
ghost use Rattle.numa_space.specs.Standing.{StandsFor};
ghost use Rattle.numa_requests.specs.declared.command.Command.{Command};
ghost use Rattle.numaplan_handles.specs.Calls.{Asks};
ghost use Rattle.numaplan_handles.specs.Handles.{host_in};
ghost use Rattle.numaplan_handles.specs.Hosts.{ChoosesBy, CountsRanges, FindsPolicy, FindsRange};
ghost use Rattle.numaplan_handles.specs.Hosts.{HasGroupAt, HasGroupNodes, HasGroups, HasProcessAt};
ghost use Rattle.numaplan_handles.specs.Hosts.{HasHostRules, HasProcesses, IsPlanned, OfHost};
ghost use Rattle.numaplan_handles.specs.Hosts.{OfProcess};

use crate::core_questions::range_of;
use crate::handle::of_kept;
use crate::host_handle::{HostHandle, running_kept};
use crate::plan_view::ChoiceRefusal;
use crate::room::copy_items;
use numa_compile::compile;
use numa_host::{ControlGroup, Host};
use numa_machine::{NoMemory, Rules};
use numa_mask::NodeMask;
use numa_mode::Record;
use numa_plan::Plan;
use numa_ranges::Run;
use numa_requests::Request;
use numa_space::{RangeRecord, Space};
use std::alloc::Global;

/// The group at a place, the newest being at 0.
fn group_at(host: &Host, place: usize) -> Option<ControlGroup>
    ensures { (history : List HostCommand) → HostStandsFor host.now history
        → HasGroupAt place result host.now history }
{
    host.groups().get(place).copied()
}

/// The number of the process at a place, the first born being at 0, and that of its group.
fn process_at(host: &Host, place: usize) -> Option<(u32, u32)>
    ensures { (history : List HostCommand) → HostStandsFor host.now history
        → HasProcessAt place result host.now history }
{
    let process = host.processes().get(place)?;
    Some((process.id, process.group))
}

/// The number of processes.
fn process_count(host: &Host) -> usize
    ensures { (history : List HostCommand) → HostStandsFor host.now history
        → HasProcesses result host.now history }
{
    host.processes().len()
}

/// The number of ranges of a process.
fn ranges_in(host: &Host, process: u32) -> Option<usize>
    ensures { (history : List HostCommand) → HostStandsFor host.now history
        → OfProcess process CountsRanges result host.now history }
{
    let space = host.process(process)?;
    Some(space.ranges())
}

/// The range of a process at a place.
fn range_in(host: &Host, process: u32, place: usize) -> Option<Option<Run<RangeRecord>>>
    ensures range { (history : List HostCommand) → HostStandsFor host.now history
        → OfProcess process (FindsRange place) result host.now history }
    ensures end { IfSome result (λ found. IfSome found (λ range. end_of range ≤ 2 ^ 35)) }
{
    let space = host.process(process)?;
    Some(range_of(space, place))
}

/// The policy of a process's task.
fn policy_in(host: &Host, process: u32, task: u32) -> Option<Option<Record>>
    ensures { (history : List HostCommand) → HostStandsFor host.now history
        → OfProcess process (FindsPolicy task) result host.now history }
{
    let space = host.process(process)?;
    Some(space.task_policy(task))
}

/// The plan of a process.
fn plan_in_process(host: &Host, alloc: Global, process: u32) -> Option<Result<Plan, NoMemory>>
    ensures { (history : List HostCommand) → HostStandsFor host.now history
        → OfProcess process IsPlanned result host.now history }
{
    let space = host.process(process)?;
    let answer = compile(alloc, space);
    Some(answer)
}

/// Copies the list of a page.
fn choose_at(space: &Space, asked: Request, nodes: &mut [u8]) -> Result<usize, ChoiceRefusal>
    ensures { (commands : List Command) → StandsFor space.now commands
        → ChoosesBy asked.task asked.page asked.cpu nodes.old nodes.new space.now.machine commands
        result }
{
    let list = match space.list_at(asked.task, asked.page, asked.cpu) {
        Ok(list) => list,
        Err(refusal) => return Err(ChoiceRefusal::Place(refusal)),
    };
    copy_items(list.as_slice(), nodes).map_err(ChoiceRefusal::TooShort)
}

/// Copies the list of a page of a process.
fn choose_in(
    host: &Host,
    process: u32,
    asked: Request,
    nodes: &mut [u8],
) -> Option<Result<usize, ChoiceRefusal>>
    ensures chooses { (history : List HostCommand) → HostStandsFor host.now history
        → OfProcess process (ChoosesBy asked.task asked.page asked.cpu nodes.old nodes.new) result
        host.now history }
    ensures none { result ≡ None → nodes.new ≡ nodes.old }
{
    let space = host.process(process)?;
    Some(choose_at(space, asked, nodes))
}

impl HostHandle {
    /// The rules by which the host goes. `None` if the handle is closed.
    pub fn rules(&mut self, alloc: Global) -> Option<Rules>
        ensures { Asks (HasHostRules (host_in self.old)) (host_in self.old) result
            (host_in self.new) }
    {
        of_kept!(self.handle, alloc, kept => running_kept(&kept).host.machine().rules())
    }

    /// The number of groups below the root. `None` if the handle is closed.
    pub fn groups(&mut self, alloc: Global) -> Option<usize>
        ensures { Asks (λ count. OfHost (host_in self.old) (HasGroups count)) (host_in self.old)
            result (host_in self.new) }
    {
        of_kept!(self.handle, alloc, kept => running_kept(&kept).host.groups().len())
    }

    /// The group at a place, the newest being at 0, or no group. `None` if the handle is closed.
    pub fn group(&mut self, alloc: Global, place: usize) -> Option<Option<ControlGroup>>
        ensures { Asks (λ found. OfHost (host_in self.old) (HasGroupAt place found))
            (host_in self.old) result (host_in self.new) }
    {
        of_kept!(self.handle, alloc, kept => group_at(&running_kept(&kept).host, place))
    }

    /// The effective nodes of a group, or none if it isn't there. `None` if the handle is closed.
    pub fn group_nodes(&mut self, alloc: Global, name: u32) -> Option<Option<NodeMask>>
        ensures { Asks (λ found. OfHost (host_in self.old) (HasGroupNodes name found))
            (host_in self.old) result (host_in self.new) }
    {
        of_kept!(self.handle, alloc, kept => running_kept(&kept).host.group_nodes(name))
    }

    /// The number of processes. `None` if the handle is closed.
    pub fn processes(&mut self, alloc: Global) -> Option<usize>
        ensures { Asks (λ count. OfHost (host_in self.old) (HasProcesses count)) (host_in self.old)
            result (host_in self.new) }
    {
        of_kept!(self.handle, alloc, kept => process_count(&running_kept(&kept).host))
    }

    /// The process at a place, the first born being at 0, and its group, or none. `None` if the
    /// handle is closed.
    pub fn process(&mut self, alloc: Global, place: usize) -> Option<Option<(u32, u32)>>
        ensures { Asks (λ found. OfHost (host_in self.old) (HasProcessAt place found))
            (host_in self.old) result (host_in self.new) }
    {
        of_kept!(self.handle, alloc, kept => process_at(&running_kept(&kept).host, place))
    }

    /// The number of a process's ranges, or none if the process isn't there. `None` if the handle
    /// is closed.
    pub fn ranges(&mut self, alloc: Global, process: u32) -> Option<Option<usize>>
        ensures { Asks (λ answer. OfHost (host_in self.old)
            (OfProcess process CountsRanges answer)) (host_in self.old) result (host_in self.new) }
    {
        of_kept!(self.handle, alloc, kept => ranges_in(&running_kept(&kept).host, process))
    }

    /// The range of a process at a place, counted from 0 in ascending order, or no range; no answer
    /// if the process isn't there. `None` if the handle is closed.
    pub fn range(
        &mut self,
        alloc: Global,
        process: u32,
        place: usize,
    ) -> Option<Option<Option<Run<RangeRecord>>>>
        ensures range { Asks (λ answer. OfHost (host_in self.old)
            (OfProcess process (FindsRange place) answer)) (host_in self.old) result
            (host_in self.new) }
        ensures end { IfSome result (λ answer. IfSome answer (λ found. IfSome found
            (λ range. end_of range ≤ 2 ^ 35))) }
    {
        of_kept!(self.handle, alloc, kept => range_in(&running_kept(&kept).host, process, place))
    }

    /// The policy of a process's task, or no policy; no answer if the process isn't there. `None`
    /// if the handle is closed.
    pub fn task_policy(
        &mut self,
        alloc: Global,
        process: u32,
        task: u32,
    ) -> Option<Option<Option<Record>>>
        ensures { Asks (λ answer. OfHost (host_in self.old)
            (OfProcess process (FindsPolicy task) answer)) (host_in self.old) result
            (host_in self.new) }
    {
        of_kept!(self.handle, alloc, kept => policy_in(&running_kept(&kept).host, process, task))
    }

    /// The plan of all that a process has accepted; no answer if the process isn't there. `None` if
    /// the handle is closed.
    ///
    /// # Errors
    /// `NoMemory`: there is no memory for the plan.
    pub fn compile(&mut self, alloc: Global, process: u32) -> Option<Option<Result<Plan, NoMemory>>>
        ensures { Asks (λ answer. OfHost (host_in self.old) (OfProcess process IsPlanned answer))
            (host_in self.old) result (host_in self.new) }
    {
        of_kept!(self.handle, alloc, kept => {
            plan_in_process(&running_kept(&kept).host, alloc, process)
        })
    }

    /// Copies the fallback list of a page of a process, and returns the number of nodes; no answer
    /// if the process isn't there. `None` if the handle is closed.
    ///
    /// # Errors
    /// As [`Space::list_at`], and `TooShort`: there is no room for the list.
    pub fn choose(
        &mut self,
        alloc: Global,
        process: u32,
        task: u32,
        page: u64,
        cpu: u32,
        nodes: &mut [u8],
    ) -> Option<Option<Result<usize, ChoiceRefusal>>>
        ensures chooses { Asks (λ answer. OfHost (host_in self.old)
            (OfProcess process (ChoosesBy task page cpu nodes.old nodes.new) answer))
            (host_in self.old) result (host_in self.new) }
        ensures closed { host_in self.old ≡ None → nodes.new ≡ nodes.old }
        ensures none { IfSome result (λ answer. answer ≡ None → nodes.new ≡ nodes.old) }
    {
        let asked = Request { task, page, cpu };
        of_kept!(self.handle, alloc, kept => {
            choose_in(&running_kept(&kept).host, process, asked, nodes)
        })
    }
}
