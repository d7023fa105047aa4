//! Commands to a space.
use crate::tests::same::{mark, same};
use crate::tests::shown::shown;
use numa_examples::ShortCommand::{Home, Map, Mbind, Mems, Task, Unmap, Weight};
use numa_examples::{ShortCommand, commands_of, flat_space};
use numa_requests::{Command, Refusal};
use numa_space::Space;
use std::alloc::Global;
use std::process::Abort;

/// Each kind of command, some of which split ranges, with more policies than a first growth holds.
pub static COMMANDS: [ShortCommand<'static>; 18] = [
    Map(0x10000, 0x20000, 0),
    Mbind(0x12000, 0x2000, 2, &[1]),
    Mbind(0x15000, 0x1000, 3, &[0, 1, 2]),
    Mbind(0x18000, 0x2000, 5, &[2, 3]),
    Mbind(0x1c000, 0x1000, 6, &[0, 3]),
    Mbind(0x1e000, 0x1000, 1, &[3]),
    Task(1, 3, &[2, 3]),
    Task(2, 2, &[0]),
    Task(3, 1, &[1]),
    Task(4, 5, &[0, 1]),
    Task(5, 6, &[1, 2]),
    Home(0x12000, 0x1000, 3),
    Home(0x18000, 0x1000, 0),
    Weight(2, 5),
    Unmap(0x13000, 0x1000),
    Map(0x40000, 0x1000, 7),
    Mems(&[1, 3]),
    Mbind(0x12000, 0x1000, 0, &[]),
];

/// Carries out a command, and again if a growth was refused, which changed nothing.
fn apply(rt: &impl Abort, space: &mut Space, command: &Command) {
    let before = shown(space);
    let Err(refusal) = space.apply(command) else {
        return;
    };
    same(rt, &(refusal, shown(space)), &(Refusal::NoMemory, before));
    same(rt, &space.apply(command).is_ok(), &true);
}

/// Carries out the commands between the marks.
fn apply_all(rt: &impl Abort, alloc: Global, space: &mut Space, commands: &[Command]) {
    mark(rt, alloc);
    for command in commands {
        apply(rt, space, command);
    }
    mark(rt, alloc);
}

/// What the commands come to with all growths granted.
fn expect_all(rt: &impl Abort, alloc: Global, space: &Space, commands: &[Command]) {
    let mut other = flat_space(alloc, 4).expect(rt, "a space");
    same(rt, &other.apply_all(commands), &Ok(()));
    same(rt, &shown(space), &shown(&other));
    drop(other);
}

#[test]
fn commands(rt: HostRuntime) {
    let commands = commands_of(rt.alloc(), &COMMANDS).expect(&rt, "commands");
    let mut space = flat_space(rt.alloc(), 4).expect(&rt, "a space");
    apply_all(&rt, rt.alloc(), &mut space, &commands);
    expect_all(&rt, rt.alloc(), &space, &commands);
    drop(space);
    drop(commands);
}
