//! Explaining why a page goes where it goes.
ghost use Rattle.std.specs.Prelude.{◌≡◌, List, IfOk, IfErr};
ghost use Rattle.numa_space.specs.Standing.{StandsFor, place_refusal_of};
ghost use Rattle.numa_requests.specs.declared.command.Command.{Command};
ghost use Rattle.numa_rules.specs.Explained.{IsExplanation, IsRefusedBy};

use crate::fault::ReasonError;
use crate::place::range_of;
use crate::rule::{OrderRule, rule_for};
use crate::scope::{Scope, scope_of};
use arrayvec::ArrayVec;
use numa_mask::NodeMask;
use numa_mode::Record;
use numa_ranges::Run;
use numa_space::{RangeRecord, Space};
use std::alloc::Global;

/// Why memory for a page is looked for on these nodes, in this order, when a task faults on it.
#[derive(Drop)]
pub struct Explanation {
    /// The task that touches the page.
    pub task: u32,
    /// The page: its address divided by 4,096.
    pub page: u64,
    /// The node of the CPU on which the task runs.
    pub cpu: u32,
    /// The range that has the page, with its own policy, if it has one.
    pub range: Run<RangeRecord>,
    /// The page's index, by which nodes take turns.
    pub index: u64,
    /// The task's policy, if it has one.
    pub task_policy: Option<Record>,
    /// The scope whose policy applies.
    pub scope: Scope,
    /// The policy that applies; `None` is local allocation.
    pub policy: Option<Record>,
    /// The nodes on which memory may be placed.
    pub allowed: NodeMask,
    /// The rule that puts the nodes in order.
    pub rule: OrderRule,
    /// The nodes in order.
    pub nodes: ArrayVec<u8, 256>,
}

/// The own policy of a range.
pub(crate) fn own_policy(range: &Run<RangeRecord>) -> Option<Record>
    ensures { result ≡ range.now.value }
{
    range.value.policy()
}

/// Why memory for a page is looked for on its nodes, if the task touched it now.
///
/// # Errors
/// The first that applies: `Refused(BadCpu)`, the machine lacks the node; `Refused(Unmapped)`, the
/// page isn't mapped; `NoMemory`, there is no memory for the cycle of weighted interleave.
pub fn explain(
    alloc: Global,
    space: &Space,
    task: u32,
    page: u64,
    cpu: u32,
) -> Result<Explanation, ReasonError>
    ensures ok { (history : List Command) → StandsFor space.now history
        → IfOk result (IsExplanation space.now.machine history task page cpu) }
    ensures err { (history : List Command) → StandsFor space.now history
        → IfErr result (IsRefusedBy (place_refusal_of space.now.machine history page cpu)) }
{
    let nodes = match space.list_at(task, page, cpu) {
        Ok(nodes) => nodes,
        Err(refusal) => return Err(ReasonError::Refused(refusal)),
    };
    let Some(found) = range_of(space, page) else {
        unreachable!()
    };
    let range = &found;
    let index = range.index + (page - range.first);
    let task_policy = space.task_policy(task);
    let scope = scope_of(&own_policy(range), &task_policy);
    let policy = space.policy_at(task, page);
    let Ok(rule) = rule_for(alloc, space.weights(), &policy, cpu, index) else {
        return Err(ReasonError::NoMemory);
    };
    Ok(Explanation {
        task,
        page,
        cpu,
        range: *range,
        index,
        task_policy,
        scope,
        policy,
        allowed: space.allowed(),
        rule,
        nodes,
    })
}
