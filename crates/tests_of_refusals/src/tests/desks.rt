//! The calls of a desk as numa_refinement hands them on.
use crate::tests::same::{mark, same};
use crate::tests::shown::summed;
use crate::tests::spaces::COMMANDS;
use numa_examples::{commands_of, flat_machine, limits};
use numa_machine::{Machine, NoMemory};
use numa_publish::Desk;
use numa_refinement::desk;
use numa_requests::{Command, Refusal};
use std::alloc::Global;
use std::process::Abort;
use std::sync::Wait;

/// A machine of four nodes.
fn machine_for(rt: &impl Abort, alloc: Global) -> Machine {
    flat_machine(alloc, &[8, 8, 8, 8]).expect(rt, "a machine")
}

/// A desk of that machine for two readers.
fn open(rt: &(impl Wait + Abort), alloc: Global) -> Result<Desk, NoMemory> {
    desk::open(alloc, machine_for(rt, alloc), limits(), 2)
}

/// What a desk shows: its space, the published version, and how many commands are pending.
fn all_shown(desk: &Desk) -> (u64, u64, usize) {
    (summed(desk.space()), desk.published(), desk.pending())
}

/// Accepts a command, and again if a growth was refused, which changed nothing.
fn accept(rt: &impl Abort, desk: &mut Desk, command: &Command) {
    let before = all_shown(desk);
    let Err(refusal) = desk::accept(desk, command) else {
        return;
    };
    same(
        rt,
        &(refusal, all_shown(desk)),
        &(Refusal::NoMemory, before),
    );
    assert!(rt; desk::accept(desk, command).is_ok());
}

/// Publishes, and again if a growth was refused, which changed nothing.
fn publish(rt: &(impl Wait + Abort), desk: &mut Desk) {
    let before = all_shown(desk);
    if desk::publish(desk).is_ok() {
        return;
    }
    same(rt, &all_shown(desk), &before);
    assert!(rt; desk::publish(desk).is_ok());
}

/// Accepts and publishes each command between the marks.
fn serve_all(rt: &(impl Wait + Abort), alloc: Global, desk: &mut Desk, commands: &[Command]) {
    mark(rt, alloc);
    for command in commands {
        accept(rt, desk, command);
        publish(rt, desk);
    }
    mark(rt, alloc);
}

#[test]
fn calls(rt: HostRuntime) {
    let commands = commands_of(rt.alloc(), &COMMANDS).expect(&rt, "commands");
    let mut desk = open(&rt, rt.alloc()).expect(&rt, "a desk");
    serve_all(&rt, rt.alloc(), &mut desk, &commands);
    let found = (desk.published(), desk.pending());
    desk.end();
    same(&rt, &found, &(18, 0));
    drop(commands);
}

/// Opens a desk between the marks, and again if a growth was refused; what it shows.
fn opened(rt: &(impl Wait + Abort), alloc: Global) -> (u64, usize) {
    let machine = machine_for(rt, alloc);
    mark(rt, alloc);
    let first = desk::open(alloc, machine, limits(), 2);
    mark(rt, alloc);
    let desk = match first {
        Ok(desk) => desk,
        Err(_) => open(rt, alloc).expect(rt, "a desk"),
    };
    let found = (desk.published(), desk.pending());
    desk.end();
    found
}

#[test]
fn opening(rt: HostRuntime) {
    same(&rt, &opened(&rt, rt.alloc()), &(0, 0));
}
