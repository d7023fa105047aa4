//! How long what users feel takes: answers of a plan, commands on many ranges, a plan's making and
//! its edits, looks at what a desk has published, page faults. Without arguments it prints
//! checksums of what the calls answer, the same in each run. With `measure` it prints figures, each
//! a ratio to a baseline in the same run, of all parts or of the one that is named: `measure plan`.
#![tactic(auto)]

mod compile;
mod fault;
mod figures;
mod first;
mod many;
mod plan;
mod publish;
mod space;
mod wanted;

use crate::wanted::{Wanted, read_wanted};
use std::alloc::Global;
use std::io;
use std::rt::Clock;

/// What is measured together.
#[derive(Clone, Copy)]
enum Topic {
    First,
    Plan,
    Space,
    Compile,
    Publish,
    Fault,
}

impl Topic {
    fn name(self) -> &'static str {
        match self {
            Topic::First => "first",
            Topic::Plan => "plan",
            Topic::Space => "space",
            Topic::Compile => "compile",
            Topic::Publish => "publish",
            Topic::Fault => "fault",
        }
    }
}

/// Prints a part's figures, or checksums of what its calls answer. Of the first program nothing is
/// measured.
fn print_part<R: Print + Clock>(
    rt: &R,
    alloc: Global,
    part: Topic,
    measures: bool,
) -> io::Result<()> {
    match part {
        Topic::First if measures => Ok(()),
        Topic::First => first::print_nodes(rt, alloc),
        Topic::Plan => plan::print(rt, alloc, measures),
        Topic::Space => space::print(rt, alloc, measures),
        Topic::Compile => compile::print(rt, alloc, measures),
        Topic::Publish => publish::print(rt, alloc, measures),
        Topic::Fault => fault::print(rt, alloc, measures),
    }
}

/// Prints the figures of the part that is named, of all where the name is empty, or, where none is
/// wanted, the checksums of each.
fn print_parts<R: Print + Clock>(rt: &R, alloc: Global, wanted: Option<&str>) -> io::Result<()> {
    for part in [
        Topic::First,
        Topic::Plan,
        Topic::Space,
        Topic::Compile,
        Topic::Publish,
        Topic::Fault,
    ] {
        let name = part.name();
        match wanted {
            None => println!(rt; "== {name}")?,
            Some(wanted) if wanted.is_empty() || wanted == name => {}
            Some(_) => continue,
        }
        print_part(rt, alloc, part, wanted.is_some())?;
    }
    Ok(())
}

fn main(rt: HostRuntime) -> io::Result<()> {
    match read_wanted(&rt, "benches [measure [plan|space|compile|publish|fault]]")? {
        Wanted::Checksums => print_parts(&rt, rt.alloc(), None),
        Wanted::Figures(part) => print_parts(&rt, rt.alloc(), Some(part.as_str())),
        Wanted::Nothing => Ok(()),
    }
}
