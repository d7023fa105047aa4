//! Commands, short enough for a table. A policy is given by its mode word, which is that of
//! set_mempolicy(2): 0 is DEFAULT, 1 PREFERRED, 2 BIND, 3 INTERLEAVE, 4 LOCAL, 5 PREFERRED_MANY, 6
//! WEIGHTED_INTERLEAVE, and one of these with 0x8000 has STATIC_NODES, with 0x4000 RELATIVE_NODES.
use crate::sets::set_of;
use numa_machine::PageSize;
use numa_mode::PolicySpec;
use numa_requests::Command;
use std::alloc::Global;

/// A command. Policies are a mode word and nodes.
#[derive(Clone, Copy)]
pub enum ShortCommand<'a> {
    /// Start, length and offset.
    Map(u64, u64, u64),
    /// Start and length.
    Unmap(u64, u64),
    /// Start, length and the policy.
    Mbind(u64, u64, u32, &'a [u8]),
    /// The task and its policy.
    Task(u32, u32, &'a [u8]),
    /// Start, length and the node.
    Home(u64, u64, u32),
    /// The node and its weight.
    Weight(u32, u32),
    /// The allowed nodes.
    Mems(&'a [u8]),
}

use ShortCommand::{Home, Map, Mbind, Mems, Task, Unmap, Weight};

/// The specification of a mode word and nodes; None where there is none.
pub fn spec_of(word: u32, nodes: &[u8]) -> Option<PolicySpec> {
    PolicySpec::from_raw(word, set_of(nodes)).ok()
}

/// The command; None where its policy isn't one.
pub fn command_of(asked: &ShortCommand) -> Option<Command> {
    Some(match *asked {
        Map(start, length, offset) => Command::Map {
            start,
            length,
            offset,
            size: PageSize::Small,
        },
        Unmap(start, length) => Command::Unmap { start, length },
        Mbind(start, length, word, nodes) => Command::Mbind {
            start,
            length,
            spec: spec_of(word, nodes)?,
        },
        Task(task, word, nodes) => Command::SetTask {
            task,
            spec: spec_of(word, nodes)?,
        },
        Home(start, length, node) => Command::SetHome {
            start,
            length,
            node,
        },
        Weight(node, weight) => Command::SetWeight { node, weight },
        Mems(nodes) => Command::SetMems {
            mask: set_of(nodes),
        },
    })
}

/// The commands; None where a policy isn't one, or where memory was refused.
pub fn commands_of(alloc: Global, asked: &[ShortCommand]) -> Option<Vec<Command>> {
    let mut commands = Vec::new(alloc);
    for one in asked {
        commands.push(command_of(one)?).ok()?;
    }
    Some(commands)
}
