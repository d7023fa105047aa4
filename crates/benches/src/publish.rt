//! Looks at what a desk has published, and commands that are accepted and published.
mod looks;
mod spaces;

use crate::compile::compile_into;
use crate::figures::{Figure, Subject, Timed, print as print_figures};
use crate::many::{RANGES, lists_of};
use crate::publish::looks::{choices, looks};
use crate::publish::spaces::{bind_middle, desk_of};
use numa_plan::Plan;
use numa_publish::{Desk, PlanReader};
use std::alloc::Global;
use std::io;
use std::rt::Clock;

/// How many looks are timed at once.
const LOOKS: u64 = 20_000;

/// How many commands are published one after another.
const COMMANDS: u64 = 100;

/// A desk, a reader of it, a plan of its space, and one more.
#[derive(Drop)]
struct Published<'a> {
    alloc: Global,
    reader: Option<PlanReader>,
    asked: Option<Plan>,
    plan: Option<Plan>,
    desk: &'a mut Desk,
}

/// What is timed.
enum Call {
    /// An entry, a page's list, and the leave.
    Look,
    /// A page's list of the plan.
    Ask,
    /// A compile of the desk's space.
    Compile,
    /// Commands that are accepted and published.
    Publish,
}

static FIGURES: [Figure<Call>; 2] = [(Call::Look, Call::Ask), (Call::Compile, Call::Publish)];

impl<R: Print> Subject<R> for Published<'_> {
    type Call = Call;

    fn checksums(&mut self, rt: &R) -> io::Result<()> {
        let versions = look(&mut self.reader, 10);
        let lists = ask(&mut self.reader, 100_000);
        println!(rt; "ten looks: {versions}, lists of 100,000 pages: {lists}")
    }

    fn make(&mut self, _rt: &R, call: &Call) -> u64 {
        match call {
            Call::Look => ask(&mut self.reader, LOOKS),
            Call::Ask => lists_in(&self.asked),
            Call::Compile => compile_into(self.alloc, self.desk.space(), &mut self.plan),
            Call::Publish => publish_each(self.desk),
        }
    }

    fn settle(&mut self) {
        drop(self.plan.take());
    }
}

impl Timed for Call {
    fn told(&self) -> (&'static str, u64) {
        match self {
            Call::Look => ("enter, choice and leave", LOOKS),
            Call::Ask => ("Plan::choice", LOOKS),
            Call::Compile => ("compile", 1),
            Call::Publish => ("accept and publish, command after command", COMMANDS),
        }
    }
}

/// The sum of how long the lists of the plan are that a round finds.
fn lists_in(plan: &Option<Plan>) -> u64 {
    match plan {
        Some(plan) => lists_of(plan, LOOKS),
        None => 0,
    }
}

/// Looks through the reader, which stays; the sum of the versions.
fn look(place: &mut Option<PlanReader>, count: u64) -> u64 {
    let Some(reader) = place.take() else {
        return 0;
    };
    let (reader, sum) = looks(reader, count);
    *place = Some(reader);
    sum
}

/// Asks through the reader, which stays; the sum of how long the lists are.
fn ask(place: &mut Option<PlanReader>, count: u64) -> u64 {
    let Some(reader) = place.take() else {
        return 0;
    };
    let (reader, sum) = choices(reader, count);
    *place = Some(reader);
    sum
}

/// Accepts commands, and publishes each; the sum of the versions.
fn publish_each(desk: &mut Desk) -> u64 {
    let mut sum = 0u64;
    for number in 0..COMMANDS {
        bind_middle(desk, number);
        if let Ok(receipt) = desk.publish() {
            sum = sum.wrapping_add(receipt.version());
        }
    }
    sum
}

/// What is timed at this desk.
fn published_at(alloc: Global, desk: &mut Desk) -> Published<'_> {
    let reader = desk.reader().ok();
    let mut asked = None;
    compile_into(alloc, desk.space(), &mut asked);
    Published {
        alloc,
        reader,
        asked,
        plan: None,
        desk,
    }
}

/// Prints what a reader sees, or how long looks and publishes take.
pub fn print<R: Print + Clock>(rt: &R, alloc: Global, measures: bool) -> io::Result<()> {
    // (a policy for the middle page makes three ranges of one)
    let ranges = if measures { RANGES - 2 } else { RANGES };
    let Some(mut desk) = desk_of(alloc, ranges) else {
        return println!(rt; "no memory");
    };
    let published = published_at(alloc, &mut desk);
    let done = print_figures(rt, Some(published), measures, &FIGURES);
    desk.end();
    done
}
