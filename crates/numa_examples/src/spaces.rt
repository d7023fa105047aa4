//! Spaces.
ghost use Rattle.std.specs.Prelude.{◌≡◌};

use crate::machines::flat_machine;
use numa_requests::Limits;
use numa_space::Space;
use std::alloc::Global;

/// Limits of 64 ranges, 8 task policies and 1,000 commands.
pub fn limits() -> Limits
    ensures { result ≡ record { max_ranges = 64; max_tasks = 8; max_commands = 1000 } }
{
    let Some(limits) = Limits::new(64, 8, 1_000) else {
        unreachable!();
    };
    limits
}

/// A space of a machine with `nodes` nodes, at most ten, at distance 20 and with 8 frames each.
pub fn flat_space(alloc: Global, nodes: usize) -> Option<Space> {
    let frames = [8; 10];
    let machine = flat_machine(alloc, frames.get(..nodes)?)?;
    Some(Space::new(alloc, machine, limits()))
}
