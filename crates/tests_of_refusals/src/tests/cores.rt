//! Events of a core: commands, publications, and workers' steps, which want no memory.
use crate::tests::same::{mark, same};
use crate::tests::shown::summed;
use crate::tests::spaces::COMMANDS;
use numa_core::Core;
use numa_examples::{commands_of, flat_machine, limits};
use numa_machine::Frame;
use numa_requests::{Command, CoreRefusal, Event, Refusal, Request};
use std::alloc::Global;
use std::process::Abort;

/// A core of four nodes with two workers.
fn core_for(rt: &impl Abort, alloc: Global) -> Core {
    let machine = flat_machine(alloc, &[8, 8, 8, 8]).expect(rt, "a machine");
    Core::new(alloc, machine, limits(), 2).expect(rt, "a core")
}

/// What a core shows: its space, the published version, and the runs and rules of that plan.
fn all_shown(core: &Core) -> (u64, u64, usize, usize) {
    let plan = core.plan();
    (
        summed(core.space()),
        core.published(),
        plan.run_count(),
        plan.rule_count(),
    )
}

/// Whether a refusal is for want of memory.
fn is_lack(refusal: CoreRefusal) -> bool {
    refusal == CoreRefusal::NoMemory || refusal == CoreRefusal::Command(Refusal::NoMemory)
}

/// An event: 0 if it isn't refused, 1 if it is for lack of memory, else 2.
fn cause_of(core: &mut Core, event: &Event) -> u32 {
    match core.step(*event) {
        Ok(_) => 0,
        Err(refusal) if is_lack(refusal) => 1,
        Err(_) => 2,
    }
}

/// An event, and again if a growth was refused, which changed nothing.
fn step(rt: &impl Abort, core: &mut Core, event: &Event) {
    let before = all_shown(core);
    let cause = cause_of(core, event);
    if cause == 0 {
        return;
    }
    same(rt, &(cause, all_shown(core)), &(1, before));
    same(rt, &cause_of(core, event), &0);
}

/// Accepts a command, has the plan made that answers questions, and publishes.
fn accept(rt: &impl Abort, core: &mut Core, command: &Command) {
    step(rt, core, &Event::Accept(*command));
    if core.prepare().is_err() {
        assert!(rt; core.prepare().is_ok());
    }
    step(rt, core, &Event::Publish);
}

/// Worker 0 searches for a frame for page 0x10 of task 2, and gives it back.
fn frame_search(rt: &impl Abort, core: &mut Core) {
    let request = Request {
        task: 2,
        page: 0x10,
        cpu: 0,
    };
    step(rt, core, &Event::Begin(0, request));
    step(rt, core, &Event::Look(0, 0));
    step(rt, core, &Event::Try(0, Frame { node: 1, number: 3 }));
    step(rt, core, &Event::Give(0, Frame { node: 1, number: 3 }));
}

/// Accepts each command and publishes it at once, and has a frame found and given back.
fn step_all(rt: &impl Abort, core: &mut Core, commands: &[Command]) {
    for command in commands {
        accept(rt, core, command);
    }
    frame_search(rt, core);
}

/// Accepts all commands, and then publishes them together.
fn publish_all(rt: &impl Abort, core: &mut Core, commands: &[Command]) {
    for command in commands {
        step(rt, core, &Event::Accept(*command));
    }
    step(rt, core, &Event::Publish);
}

/// All commands between the marks, published together or one by one.
fn carry_out(rt: &impl Abort, alloc: Global, together: bool) {
    let commands = commands_of(alloc, &COMMANDS).expect(rt, "commands");
    let mut core = core_for(rt, alloc);
    mark(rt, alloc);
    if together {
        publish_all(rt, &mut core, &commands);
    } else {
        step_all(rt, &mut core, &commands);
    }
    mark(rt, alloc);
    same(rt, &(core.published(), core.space().version()), &(18, 18));
    drop(core);
    drop(commands);
}

#[test]
fn events(rt: HostRuntime) {
    carry_out(&rt, rt.alloc(), false);
}

#[test]
fn commands_together(rt: HostRuntime) {
    carry_out(&rt, rt.alloc(), true);
}

/// Copies a core between the marks, and again if a growth was refused.
fn copy_of(rt: &impl Abort, alloc: Global, core: &Core) -> Core {
    mark(rt, alloc);
    let first = core.copy();
    mark(rt, alloc);
    match first {
        Ok(copy) => copy,
        Err(_) => core.copy().expect(rt, "memory"),
    }
}

#[test]
fn copies(rt: HostRuntime) {
    let commands = commands_of(rt.alloc(), &COMMANDS).expect(&rt, "commands");
    let mut core = core_for(&rt, rt.alloc());
    for command in &commands {
        accept(&rt, &mut core, command);
    }
    let copy = copy_of(&rt, rt.alloc(), &core);
    same(&rt, &all_shown(&copy), &all_shown(&core));
    drop(copy);
    drop(core);
    drop(commands);
}
