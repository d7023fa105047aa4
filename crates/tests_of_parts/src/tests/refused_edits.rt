//! Edits of a plan by each of the seven commands, with one growth refused: the plan stays as its
//! copy, and the same edit with memory gives what compiling anew does.
//! tests/refused-growths/run-built plays each of these tests once for every growth between its
//! marks; run by itself, none is refused.
use crate::tests::recompiling::follow;
use crate::tests::same::same;
use numa_compile::compile;
use numa_examples::ShortCommand::{Home, Map, Mbind, Mems, Task, Unmap, Weight};
use numa_examples::{ShortCommand, command_of, commands_of, flat_space};
use numa_space::Space;
use std::alloc::Global;
use std::process::Abort;

/// Six pages by weights, two of them on node 1, and a task's policy.
static POLICIES: [ShortCommand<'static>; 4] = [
    Map(0x10000, 0x6000, 0),
    Mbind(0x10000, 0x6000, 6, &[0, 1, 2]),
    Mbind(0x12000, 0x2000, 2, &[1]),
    Task(1, 3, &[2, 3]),
];

/// A space of four nodes after those commands.
fn policies(rt: &impl Abort, alloc: Global) -> Space {
    let commands = commands_of(alloc, &POLICIES).expect(rt, "commands");
    let mut space = flat_space(alloc, 4).expect(rt, "a space");
    same(rt, &space.apply_all(&commands), &Ok(()));
    space
}

/// Edits the plan of those policies by a command.
fn edit_by(rt: &impl Abort, alloc: Global, asked: &ShortCommand) {
    let command = command_of(asked).expect(rt, "a command");
    let mut space = policies(rt, alloc);
    let mut plan = compile(alloc, &space).expect(rt, "a plan");
    let accepted = follow(rt, alloc, &mut space, &mut plan, &command);
    drop(plan);
    drop(space);
    assert!(rt; accepted);
}

#[test]
fn map(rt: HostRuntime) {
    edit_by(&rt, rt.alloc(), &Map(0x20000, 0x1000, 0));
}

#[test]
fn unmap(rt: HostRuntime) {
    edit_by(&rt, rt.alloc(), &Unmap(0x11000, 0x2000));
}

#[test]
fn mbind(rt: HostRuntime) {
    edit_by(&rt, rt.alloc(), &Mbind(0x11000, 0x2000, 3, &[0, 3]));
}

#[test]
fn home(rt: HostRuntime) {
    edit_by(&rt, rt.alloc(), &Home(0x12000, 0x1000, 2));
}

#[test]
fn task(rt: HostRuntime) {
    edit_by(&rt, rt.alloc(), &Task(1, 2, &[3]));
}

#[test]
fn weight(rt: HostRuntime) {
    edit_by(&rt, rt.alloc(), &Weight(1, 5));
}

#[test]
fn mems(rt: HostRuntime) {
    edit_by(&rt, rt.alloc(), &Mems(&[1, 3]));
}
