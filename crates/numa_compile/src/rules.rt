//! The rule of each policy.
ghost use Rattle.std.specs.Prelude.{◌≡◌, ◌≢◌, ℕ, ◌<◌, ◌≤◌, ◌%◌, true, Some, None, IfOk, All};
ghost use Rattle.std.specs.Prelude.{length, slice_index, unwrap_or};
ghost use Rattle.std.specs.Option.{ForSome};
ghost use Rattle.numa_mask.specs.NodeSet.{both, has, members, weight_of};
ghost use Rattle.numa_machine.specs.Sizes.{turn_at};
ghost use Rattle.numa_machine.specs.Weights.{interleave_node, weight_at, weighted_node};
ghost use Rattle.numa_mode.specs.Policy.{is_live};
ghost use Rattle.numa_space.specs.Lists.{before_others, near};
ghost use Rattle.numa_space.specs.Standing.{setting_in, IsInForce};
ghost use Rattle.numa_compile.specs.Rules.{row_from, set_in, width_in, GivesRows, IsRuleOf};
ghost use Rattle.numa_compile.specs.Rules.{IsFilled, IsReady};
ghost use Rattle.numa_compile.specs.declared.reach.Reach.TheVariants.{Only, First};

use crate::reach::Reach;
use crate::rows::{push_row, rows_by_member, rows_by_node};
use crate::turns::{equal_turns, weighted_turns};
use numa_machine::NoMemory;
use numa_mask::NodeMask;
use numa_mode::{Mode, Record};
use numa_plan::Rule;
use numa_space::Space;
use std::alloc::Global;

/// The number of nodes of each row.
fn width(space: &Space, reach: &Reach) -> u32
    ensures { result ≡ width_in (setting_in space.now) reach.now }
{
    match reach {
        Reach::Only(set) => set.weight(),
        Reach::First(_) => space.allowed().weight(),
    }
}

/// A rule with a row for each faulting node.
fn faulting_rule(alloc: Global, space: &Space, reach: Reach) -> Result<Rule, NoMemory>
    requires ready { IsReady space.now }
    requires some { IsFilled reach }
    requires allowed { both (set_in reach) space.now.allowed ≡ set_in reach }
    ensures { IfOk result (λ rule. GivesRows space.now.machine.nodes rule
        (λ cpu index. row_from (setting_in space.now) reach cpu)) }
{
    let rows = rows_by_node(alloc, space, &reach)?;
    Ok(Rule::faulting(width(space, &reach), rows))
}

/// A rule with one row, whichever node a fault is on.
fn fixed_rule(alloc: Global, space: &Space, reach: Reach, from: u32) -> Result<Rule, NoMemory>
    requires ready { IsReady space.now }
    requires some { IsFilled reach }
    requires allowed { both (set_in reach) space.now.allowed ≡ set_in reach }
    requires from { from < space.now.machine.nodes }
    ensures { IfOk result (λ rule. GivesRows space.now.machine.nodes rule
        (λ cpu index. row_from (setting_in space.now) reach from)) }
{
    let mut row = Vec::new(alloc);
    push_row(&mut row, space, &reach, from)?;
    Ok(Rule::fixed(row))
}

/// A rule in which the home node, if there is one, replaces the faulting node.
fn rule_by_home(
    alloc: Global,
    space: &Space,
    reach: Reach,
    home: Option<u8>,
) -> Result<Rule, NoMemory>
    requires ready { IsReady space.now }
    requires some { IsFilled reach }
    requires allowed { both (set_in reach) space.now.allowed ≡ set_in reach }
    requires home { ForSome home (λ node. node < space.now.machine.nodes) }
    ensures { IfOk result (λ rule. GivesRows space.now.machine.nodes rule
        (λ cpu index. row_from (setting_in space.now) reach (unwrap_or home cpu))) }
{
    match home {
        Some(home) => fixed_rule(alloc, space, reach, u32::from(home)),
        None => faulting_rule(alloc, space, reach),
    }
}

/// A rule by which the members of a set take turns, in the order of a cycle of their places.
fn turns_rule(
    alloc: Global,
    space: &Space,
    set: &NodeMask,
    cycle: Vec<u8>,
) -> Result<Rule, NoMemory>
    requires ready { IsReady space.now }
    requires some { set.now ≢ 0 }
    requires memory { both set.now space.now.machine.memory ≡ set.now }
    requires cycle { 0 < length cycle.items }
    requires places { All (λ place. place < weight_of set.now) cycle.items }
    ensures { IfOk result (λ rule. GivesRows space.now.machine.nodes rule (λ cpu index.
        near (setting_in space.now) (slice_index (members set.now)
        (slice_index cycle.items (turn_at index % length cycle.items))))) }
{
    let rows = rows_by_member(alloc, space, set)?;
    let rule = Rule::turns(alloc, space.allowed().weight(), rows, cycle)?;
    Ok(rule)
}

/// The rule of interleave over a set.
fn interleave_rule(alloc: Global, space: &Space, set: &NodeMask) -> Result<Rule, NoMemory>
    requires ready { IsReady space.now }
    requires some { set.now ≢ 0 }
    requires memory { both set.now space.now.machine.memory ≡ set.now }
    ensures { IfOk result (λ rule. GivesRows space.now.machine.nodes rule
        (λ cpu index. near (setting_in space.now) (interleave_node set.now (turn_at index)))) }
{
    let cycle = equal_turns(alloc, set.weight())?;
    turns_rule(alloc, space, set, cycle)
}

/// The rule of weighted interleave over a set.
fn weighted_rule(alloc: Global, space: &Space, set: &NodeMask) -> Result<Rule, NoMemory>
    requires ready { IsReady space.now }
    requires some { set.now ≢ 0 }
    requires memory { both set.now space.now.machine.memory ≡ set.now }
    ensures { IfOk result (λ rule. GivesRows space.now.machine.nodes rule
        (λ cpu index. near (setting_in space.now)
        (weighted_node (weight_at space.now.weights) set.now (turn_at index)))) }
{
    let cycle = weighted_turns(alloc, space.weights(), set)?;
    turns_rule(alloc, space, set, cycle)
}

/// The lowest node of a set.
fn first_node(set: &NodeMask) -> u8
    requires { set.now ≢ 0 }
    ensures node { result ≡ slice_index (members set.now) 0 }
    ensures member { has set.now result ≡ true }
{
    set.first().map_or(0, |node| node.number())
}

/// The rule of preferred: the allowed nodes, the nearest to the set's node first.
fn preferred_rule(alloc: Global, space: &Space, set: &NodeMask) -> Result<Rule, NoMemory>
    requires ready { IsReady space.now }
    requires some { set.now ≢ 0 }
    requires memory { both set.now space.now.machine.memory ≡ set.now }
    ensures { IfOk result (λ rule. GivesRows space.now.machine.nodes rule
        (λ cpu index. near (setting_in space.now) (slice_index (members set.now) 0))) }
{
    let node = u32::from(first_node(set));
    fixed_rule(alloc, space, Reach::Only(space.allowed()), node)
}

/// The rule of preferred-many: the allowed nodes of its set before the other allowed nodes.
fn many_rule(alloc: Global, space: &Space, policy: &Record) -> Result<Rule, NoMemory>
    requires ready { IsReady space.now }
    requires home { ForSome policy.now.home (λ node. node < space.now.machine.nodes) }
    ensures { IfOk result (λ rule. GivesRows space.now.machine.nodes rule
        (λ cpu index. before_others (setting_in space.now)
        (both policy.now.effective space.now.allowed) (unwrap_or policy.now.home cpu))) }
{
    let set = policy.effective();
    let first = set.and(&space.allowed());
    rule_by_home(alloc, space, Reach::First(first), policy.home())
}

/// The rule of local allocation: the allowed nodes, the nearest to the faulting node first.
pub(crate) fn local_rule(alloc: Global, space: &Space) -> Result<Rule, NoMemory>
    requires { IsReady space.now }
    ensures { IfOk result (λ rule. IsRuleOf (setting_in space.now) rule None) }
{
    faulting_rule(alloc, space, Reach::Only(space.allowed()))
}

/// The rule of a policy that is in force and live.
pub(crate) fn rule_of(alloc: Global, space: &Space, policy: &Record) -> Result<Rule, NoMemory>
    requires ready { IsReady space.now }
    requires in_force { IsInForce space.now.machine space.now.allowed policy.now }
    requires live { is_live policy.now ≡ true }
    ensures { IfOk result (λ rule. IsRuleOf (setting_in space.now) rule (Some policy.now)) }
{
    let set = policy.effective();
    let near = Reach::Only(space.allowed());
    match policy.spec().mode() {
        Mode::Default => rule_by_home(alloc, space, near, policy.home()),
        Mode::Local => rule_by_home(alloc, space, near, policy.home()),
        Mode::Preferred => preferred_rule(alloc, space, &set),
        Mode::Bind => {
            let keeps = space.usable(&set);
            rule_by_home(alloc, space, Reach::Only(keeps), policy.home())
        }
        Mode::PreferredMany => many_rule(alloc, space, policy),
        Mode::Interleave => interleave_rule(alloc, space, &set),
        Mode::WeightedInterleave => weighted_rule(alloc, space, &set),
    }
}
