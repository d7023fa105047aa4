//! A first program: to which nodes do the pages of an interleaved mapping go?
#![tactic(auto)]

use numa_compile::compile_commands;
use numa_machine::{Machine, PageSize};
use numa_mask::read_list;
use numa_mode::PolicySpec;
use numa_plan::Plan;
use numa_requests::{Command, Limits};
use std::alloc::Global;
use std::io;

/// MPOL_INTERLEAVE (set_mempolicy(2)).
const INTERLEAVE: u32 = 3;

/// The plan of a machine with two nodes, on which task 1 interleaves over both and four pages at
/// 0x10000 are mapped. Private anonymous memory has the offset START / 4096.
fn plan_of_four_pages(alloc: Global) -> Option<Plan> {
    let both = read_list(b"0-1").ok()?;
    let machine = Machine::new(alloc, 2, both, &[10, 20, 20, 10], &[0, 0]).ok()?;
    let limits = Limits::new(64, 8, 1_000)?;
    let spec = PolicySpec::from_raw(INTERLEAVE, both).ok()?;
    let (start, length, offset) = (0x10000, 0x4000, 0x10);
    let commands = [
        Command::Map {
            start,
            length,
            offset,
            size: PageSize::Small,
        },
        Command::SetTask { task: 1, spec },
    ];
    compile_commands(alloc, machine, limits, &commands).ok()
}

/// Prints the node of each page.
fn print_pages(rt: &impl Print, plan: &Plan) -> io::Result<()> {
    for page in 0x10..0x14u64 {
        match plan.fallback_list(1, page, 0) {
            Ok(nodes) => println!(rt; "page {page}: node {}", nodes[0])?,
            Err(_) => println!(rt; "page {page}: not mapped")?,
        }
    }
    Ok(())
}

/// Prints them by a plan of its own.
pub fn print_nodes(rt: &impl Print, alloc: Global) -> io::Result<()> {
    let Some(plan) = plan_of_four_pages(alloc) else {
        return println!(rt; "out of memory");
    };
    let done = print_pages(rt, &plan);
    drop(plan);
    done
}
