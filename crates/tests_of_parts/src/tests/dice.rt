//! Random commands, the same for the same seed.
ghost use Rattle.std.specs.Prelude.{◌<◌};

use numa_examples::ShortCommand::{Home, Map, Mbind, Mems, Task, Unmap, Weight};
use numa_examples::{command_of, machine_of};
use numa_machine::Machine;
use numa_requests::{Command, Limits};
use numa_space::Space;
use std::alloc::Global;

/// How many commands a history has.
pub const COMMANDS: u32 = 500;

/// How many of them a space accepts at least.
pub const ACCEPTED: u32 = 100;

/// What the histories begin with.
pub const SEEDS: [u64; 2] = [20_021_001, 88_172_645_463_325_252];

/// The distances of four nodes.
const DISTANCES: [u8; 16] = [
    10, 15, 20, 40, 15, 10, 30, 20, 20, 30, 10, 15, 40, 20, 15, 10,
];

/// A machine of these four nodes.
fn rough_machine(alloc: Global) -> Option<Machine> {
    machine_of(alloc, 4, &[0, 1, 2, 3], &DISTANCES)
}

/// Limits that are seldom met.
fn rough_limits() -> Option<Limits> {
    Limits::new(32, 4, COMMANDS)
}

/// A space of this machine.
pub fn rough_space(alloc: Global) -> Option<Space> {
    Some(Space::new(alloc, rough_machine(alloc)?, rough_limits()?))
}

/// Sets of four nodes that policies ask for; a machine of four has no node 5.
const SETS: [&[u8]; 8] = [
    &[0, 1, 2, 3],
    &[0],
    &[1, 3],
    &[2, 3],
    &[0, 1, 2],
    &[3],
    &[],
    &[1, 5],
];

/// The flags of policies; most have none.
const FLAGS: [u32; 4] = [0, 0, 0x8000, 0x4000];

/// A generator of numbers by three shifts.
#[derive(Drop)]
pub struct Dice {
    state: u64,
}

impl Dice {
    /// One that begins with this number, which isn't 0.
    pub fn new(seed: u64) -> Dice {
        Dice { state: seed }
    }

    /// A number below 2^32.
    fn roll(&mut self) -> u32 {
        let mut state = self.state;
        state ^= state << 13;
        state ^= state >> 7;
        state ^= state << 17;
        self.state = state;
        (state % 4_294_967_296) as u32
    }

    /// The place of one of the first 48 pages from 16 on.
    fn page(&mut self) -> u64
        ensures { result < 64 }
    {
        16 + u64::from(self.roll() % 48)
    }

    /// The bytes of up to 11 pages.
    fn length(&mut self) -> u64 {
        u64::from(self.roll() % 12) * 4_096
    }

    /// A mode word.
    fn word(&mut self) -> u32 {
        let mode = self.roll() % 7;
        mode | FLAGS[(self.roll() % 4) as usize]
    }

    /// Some nodes.
    fn nodes(&mut self) -> &'static [u8] {
        SETS[(self.roll() % 8) as usize]
    }

    /// A command of a span.
    fn span_command(&mut self) -> Option<Command> {
        let page = self.page();
        let start = page * 4_096;
        let length = self.length();
        match self.roll() % 8 {
            0 | 1 => command_of(&Map(start, length, page)),
            2 => command_of(&Map(start, length, 7)),
            3 => command_of(&Unmap(start, length)),
            4 => command_of(&Home(start, length, self.roll() % 5)),
            _ => command_of(&Mbind(start, length, self.word(), self.nodes())),
        }
    }

    /// A command, some of which a space refuses; None where a policy isn't one.
    pub fn command(&mut self) -> Option<Command> {
        match self.roll() % 40 {
            0 => command_of(&Mems(self.nodes())),
            1 | 2 | 3 => command_of(&Weight(self.roll() % 5, self.roll() % 5)),
            4..=9 => command_of(&Task(self.roll() % 6, self.word(), self.nodes())),
            _ => self.span_command(),
        }
    }
}
