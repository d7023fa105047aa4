//! A page by the other rules.
ghost use Rattle.std.specs.Prelude.{◌≡◌, List, MatchOption};
ghost use Rattle.numa_space.specs.Standing.{StandsFor};
ghost use Rattle.numa_requests.specs.declared.command.Command.{Command};
ghost use Rattle.numa_rules.specs.Others.{IsByOther, IsSameThere, nodes_in, other_rules, set_for};

use arrayvec::ArrayVec;
use numa_machine::Rules;
use numa_mask::NodeMask;
use numa_mode::Record;
use numa_space::Space;

/// The other set of rules.
pub fn other_rules(rules: Rules) -> Rules
    ensures { result ≡ other_rules rules }
{
    match rules {
        Rules::Document => Rules::Linux,
        Rules::Linux => Rules::Document,
    }
}

/// A page by the other rules: where memory for it is looked for when a task faults on it.
#[derive(Drop)]
pub struct ByOther {
    /// The policy that serves the fault; `None` is local allocation.
    pub policy: Option<Record>,
    /// The nodes in order; none if the page isn't mapped.
    pub nodes: ArrayVec<u8, 256>,
}

/// The nodes on which memory for a page is looked for; none if the question is refused.
fn nodes_in(space: &Space, task: u32, page: u64, cpu: u32) -> ArrayVec<u8, 256>
    ensures { (history : List Command) → StandsFor space.now history
        → result.items ≡ nodes_in space.now.machine history task page cpu }
{
    match space.list_at(task, page, cpu) {
        Ok(nodes) => nodes,
        Err(_) => ArrayVec::new(),
    }
}

/// The nodes of a policy; none without a policy.
fn set_for(policy: &Option<Record>) -> NodeMask
    ensures { result ≡ set_for policy.now }
{
    match policy {
        Some(policy) => policy.effective(),
        None => NodeMask::empty(),
    }
}

/// How another space, to which a script led by the other rules, serves a task's fault at a page on
/// node `cpu`, if that differs from this space: by another list, or a policy with other nodes.
pub fn by_other_rules(
    space: &Space,
    other: &Space,
    task: u32,
    page: u64,
    cpu: u32,
) -> Option<ByOther>
    ensures { (history others : List Command) → StandsFor space.now history
        → StandsFor other.now others
        → MatchOption result
        (IsSameThere space.now.machine history other.now.machine others task page cpu)
        (IsByOther space.now.machine history other.now.machine others task page cpu) }
{
    let nodes = nodes_in(other, task, page, cpu);
    let policy = other.policy_at(task, page);
    let here = nodes_in(space, task, page, cpu);
    let served = space.policy_at(task, page);
    if here.as_slice() != nodes.as_slice() {
        return Some(ByOther { policy, nodes });
    }
    if set_for(&served) != set_for(&policy) {
        return Some(ByOther { policy, nodes });
    }
    None
}
