//! The plans that are asked.
use crate::many::{RANGES, bind, eight_nodes, map, spec_of_bits};
use numa_compile::{compile, compile_commands};
use numa_machine::PageSize;
use numa_mode::PolicySpec;
use numa_plan::Plan;
use numa_requests::{Command, Limits};
use numa_space::Space;
use std::alloc::Global;

/// Weights 3, 2, 1 and 2 of four nodes.
pub const WEIGHED: [u8; 8] = [0, 0, 0, 1, 1, 2, 3, 3];

/// The commands that give the nodes these weights.
const WEIGHTS: [Command; 3] = [
    Command::SetWeight { node: 0, weight: 3 },
    Command::SetWeight { node: 1, weight: 2 },
    Command::SetWeight { node: 3, weight: 2 },
];

/// Limits that no plan reaches.
fn limits() -> Option<Limits> {
    Limits::new(65_536, 8, 1_000_000)
}

/// Maps the ranges, each with this policy.
fn add_ranges(space: &mut Space, spec: PolicySpec) {
    for number in 0..RANGES {
        let _ = space.apply(&map(number));
        let _ = space.apply(&bind(number, spec));
    }
}

/// The space of the large plan.
fn spread_space(alloc: Global) -> Option<Space> {
    let spec = spec_of_bits(6, 15)?;
    let mut space = Space::new(alloc, eight_nodes(alloc)?, limits()?);
    let _ = space.apply_all(&WEIGHTS);
    add_ranges(&mut space, spec);
    Some(space)
}

/// A plan of `RANGES` runs of 3 pages, each followed by a hole of one page; page p has the index p.
/// Four nodes take turns on them, by their weights.
pub fn spread(alloc: Global) -> Option<Plan> {
    let space = spread_space(alloc)?;
    let plan = compile(alloc, &space).ok();
    drop(space);
    plan
}

/// A plan of one run of all 2^35 pages, of which page p has the index p. Task 1 has four nodes in
/// turn, by their weights.
pub fn whole(alloc: Global) -> Option<Plan> {
    let commands = [
        WEIGHTS[0],
        WEIGHTS[1],
        WEIGHTS[2],
        Command::Map {
            start: 0,
            length: 0x8000_0000_0000,
            offset: 0,
            size: PageSize::Small,
        },
        Command::SetTask {
            task: 1,
            spec: spec_of_bits(6, 15)?,
        },
    ];
    compile_commands(alloc, eight_nodes(alloc)?, limits()?, &commands).ok()
}
