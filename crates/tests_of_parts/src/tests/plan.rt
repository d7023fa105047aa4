//! That a policy finds its rule in a plan, and how small the parts of plans are.
use crate::tests::same::same;
use numa_compile::compile_commands;
use numa_examples::ShortCommand::{Map, Mbind, Task};
use numa_examples::{ShortCommand, commands_of, flat_machine, limits};
use numa_mode::Record;
use numa_plan::{Plan, Rule, Steps};
use numa_ranges::Run;
use std::alloc::Global;
use std::process::Abort;

/// Ten pages, of which three are bound to node 2; task 1 takes turns among four nodes.
static TEN_PAGES: [ShortCommand<'static>; 3] = [
    Map(0x10000, 0xa000, 0),
    Task(1, 3, &[0, 1, 2, 3]),
    Mbind(0x13000, 0x3000, 2, &[2]),
];

/// The plan of those commands on four nodes, 20 apart: with two rules.
fn ten_pages(rt: &impl Abort, alloc: Global) -> Plan {
    let machine = flat_machine(alloc, &[8, 8, 8, 8]).expect(rt, "a machine");
    let commands = commands_of(alloc, &TEN_PAGES).expect(rt, "commands");
    compile_commands(alloc, machine, limits(), &commands).expect(rt, "a plan")
}

/// The number that is found for the policy of a rule.
fn found_for(rt: &impl Abort, plan: &mut Plan, number: u32) -> Option<u32> {
    let policy = plan.policy_of(number).expect(rt, "a policy");
    plan.number_for_policy(&policy)
}

/// Each of the two rules of a plan is found by its policy.
fn expect_found(rt: &impl Abort, plan: &mut Plan) {
    let found = (
        plan.rule_count(),
        found_for(rt, plan, 0),
        found_for(rt, plan, 1),
    );
    same(rt, &found, &(2, Some(0), Some(1)));
}

/// So are those of a copy, whose table is empty at first.
fn expect_copied(rt: &impl Abort, alloc: Global, plan: &Plan) {
    let mut copy = plan.copy(alloc).expect(rt, "a copy");
    expect_found(rt, &mut copy);
    drop(copy);
}

#[test]
fn a_policy_finds_its_rule(rt: HostRuntime) {
    let mut plan = ten_pages(&rt, rt.alloc());
    expect_copied(&rt, rt.alloc(), &plan);
    expect_found(&rt, &mut plan);
    expect_copied(&rt, rt.alloc(), &plan);
    drop(plan);
}

#[test]
fn runs_and_rules_are_small(rt: HostRuntime) {
    // With 80 bytes for its policy, 16 for its slot, 8 for the count of the plans that share it and
    // the 64 that a cycle of first nodes has beside its entries, a rule has 256 beside its rows and
    // its cycles.
    let found = (
        size_of::<Run<Option<u32>>>(),
        size_of::<Steps>(),
        size_of::<Rule>(),
        size_of::<Record>(),
    );
    same(&rt, &found, &(32, 0, 88, 80));
}
