//! Plans: built from a space, copied, and given room. Their edits by each command are tested in
//! tests_of_parts, and their own calls in edits.rt.
use crate::tests::same::{mark, same};
use crate::tests::spaces::COMMANDS;
use numa_compile::compile;
use numa_examples::{commands_of, flat_space};
use numa_plan::Plan;
use numa_space::Space;
use std::alloc::Global;
use std::process::Abort;

/// A space after the commands.
fn space_for(rt: &impl Abort, alloc: Global) -> Space {
    let commands = commands_of(alloc, &COMMANDS).expect(rt, "commands");
    let mut space = flat_space(alloc, 4).expect(rt, "a space");
    same(rt, &space.apply_all(&commands), &Ok(()));
    drop(commands);
    space
}

/// What a plan shows: its version, and how many runs, rules and slots it has.
fn shown(plan: &Plan) -> (u64, usize, usize, usize) {
    (
        plan.version(),
        plan.run_count(),
        plan.rule_count(),
        plan.slot_count(),
    )
}

/// Makes a plan between the marks, and again if a growth was refused.
fn made(rt: &impl Abort, alloc: Global, space: &Space) -> Plan {
    mark(rt, alloc);
    let first = compile(alloc, space);
    mark(rt, alloc);
    match first {
        Ok(plan) => plan,
        Err(_) => compile(alloc, space).expect(rt, "memory"),
    }
}

#[test]
fn building(rt: HostRuntime) {
    let space = space_for(&rt, rt.alloc());
    let plan = made(&rt, rt.alloc(), &space);
    let other = compile(rt.alloc(), &space).expect(&rt, "memory");
    same(&rt, &shown(&plan), &shown(&other));
    drop(other);
    drop(plan);
    drop(space);
}

/// Copies a plan, and makes room for rules in the copy, between the marks, and again if a growth
/// was refused.
fn copied(rt: &impl Abort, alloc: Global, plan: &Plan) -> Plan {
    mark(rt, alloc);
    let first = plan.copy(alloc);
    let mut copy = match first {
        Ok(copy) => copy,
        Err(_) => plan.copy(alloc).expect(rt, "memory"),
    };
    if copy.reserve(100).is_err() {
        same(rt, &shown(&copy), &shown(plan));
        assert!(rt; copy.reserve(100).is_ok());
    }
    mark(rt, alloc);
    copy
}

#[test]
fn copies(rt: HostRuntime) {
    let space = space_for(&rt, rt.alloc());
    let plan = compile(rt.alloc(), &space).expect(&rt, "a plan");
    let copy = copied(&rt, rt.alloc(), &plan);
    same(&rt, &shown(&copy), &shown(&plan));
    drop(copy);
    drop(plan);
    drop(space);
}
