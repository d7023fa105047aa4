//! The plan of a space of many ranges: its making, its edits, its copy, and a text of all of it.
mod spaces;

use crate::compile::spaces::spread;
use crate::figures::{Figure, Subject, Timed, print as print_figures, put};
use crate::many::{FlatRow, POLICIES, RANGES, bind_page, choices, policy, rows_of, spec_of_bits};
use numa_compile::{PlannedSpace, compile};
use numa_plan::Plan;
use numa_reports::prediction_text;
use numa_requests::Command;
use numa_sheets::Format;
use numa_space::Space;
use std::alloc::{AllocError, Global};
use std::collections::HashMap;
use std::io;
use std::rt::Clock;

/// How many commands, or copies of a plan, are timed at once.
const TURNS: u64 = 200;

/// Two policies in turn for the middle page of the middle range.
type Turns = [Command; 2];

/// Policies that other ranges have too.
fn common() -> Option<Turns> {
    let middle = RANGES / 2;
    Some([
        bind_page(middle, policy(middle + 1)?),
        bind_page(middle, policy(middle + 2)?),
    ])
}

/// Policies that no other range has, so that a rule is made for each and dropped after it.
fn own() -> Option<Turns> {
    let middle = RANGES / 2;
    Some([
        bind_page(middle, spec_of_bits(3, 7)?),
        bind_page(middle, spec_of_bits(5, 7)?),
    ])
}

/// Prints the checksums of a plan.
fn print_plan(rt: &impl Print, plan: &Plan) -> io::Result<()> {
    let runs = plan.run_count();
    let version = plan.version();
    println!(rt; "{runs} runs, version {version}")?;
    for cpu in 0..3 {
        let sum = choices(plan, cpu);
        println!(rt; "choice of each page on node {cpu}: {sum}")?;
    }
    Ok(())
}

/// Prints the checksums of the plan of a space.
fn print_compiled(rt: &impl Print, alloc: Global, space: &Space) -> io::Result<()> {
    let Ok(plan) = compile(alloc, space) else {
        return println!(rt; "no memory");
    };
    let done = print_plan(rt, &plan);
    drop(plan);
    done
}

/// Puts the plan of the space there; how many runs it has.
pub fn compile_into(alloc: Global, space: &Space, plan: &mut Option<Plan>) -> u64 {
    put(plan, compile(alloc, space).ok());
    runs_of(plan)
}

/// A space that keeps its plan, one more plan, and as many rows as there are ranges.
#[derive(Drop)]
struct Planned {
    alloc: Global,
    common: Turns,
    own: Turns,
    rows: Vec<FlatRow>,
    copies: Vec<FlatRow>,
    plan: Option<Plan>,
    space: PlannedSpace,
}

enum Call {
    /// A compile of the space.
    Compile,
    /// A plain copy of the rows, with a look-up in a map for each.
    PlainCopy,
    /// Commands that give the middle page a policy that other ranges have.
    Bind,
    /// Commands that give it one of its own.
    BindOwn,
    /// Copies of the plan.
    Copy,
    /// A text of where all pages of the space would go.
    Predict,
}

impl<R: Print> Subject<R> for Planned {
    type Call = Call;

    fn checksums(&mut self, rt: &R) -> io::Result<()> {
        print_compiled(rt, self.alloc, self.space.space())
    }

    fn make(&mut self, _rt: &R, call: &Call) -> u64 {
        let alloc = self.alloc;
        match call {
            Call::Compile => compile_into(alloc, self.space.space(), &mut self.plan),
            Call::PlainCopy => copy_into(alloc, &self.rows, &mut self.copies),
            Call::Bind => edit(alloc, &mut self.space, &self.common),
            Call::BindOwn => edit(alloc, &mut self.space, &self.own),
            Call::Copy => copy_all(alloc, &mut self.space, &mut self.plan),
            Call::Predict => predicted(alloc, &self.space),
        }
    }

    fn settle(&mut self) {
        drop(self.plan.take());
        put(&mut self.copies, Vec::new(self.alloc));
    }
}

impl Timed for Call {
    fn told(&self) -> (&'static str, u64) {
        match self {
            Call::Compile => ("compile", 1),
            Call::PlainCopy => ("a plain copy with a look-up in a map for each range", 1),
            Call::Bind => ("an mbind that edits its plan", TURNS),
            Call::BindOwn => ("an mbind with a rule of its own", TURNS),
            Call::Copy => ("a copy of its plan", TURNS),
            Call::Predict => ("predict as text", 1),
        }
    }
}

/// How many runs a plan has.
fn runs_of(plan: &Option<Plan>) -> u64 {
    match plan {
        Some(plan) => plan.run_count() as u64,
        None => 0,
    }
}

/// Carries out commands; how many were accepted.
fn edit(alloc: Global, space: &mut PlannedSpace, turns: &Turns) -> u64 {
    let mut accepted = 0u64;
    for i in 0..TURNS {
        if space.apply(alloc, &turns[(i % 2) as usize]).is_ok() {
            accepted = accepted.wrapping_add(1);
        }
    }
    accepted
}

/// Copies the space's plan, each copy in the place of the one before; how many runs all have.
fn copy_all(alloc: Global, space: &mut PlannedSpace, plan: &mut Option<Plan>) -> u64 {
    let mut runs = 0u64;
    for _ in 0..TURNS {
        put(plan, space.plan_copy(alloc).ok());
        runs = runs.wrapping_add(runs_of(plan));
    }
    runs
}

/// Writes the text; how many bytes it has.
fn predicted(alloc: Global, space: &PlannedSpace) -> u64 {
    let Some(plan) = space.plan() else {
        return 0;
    };
    match prediction_text(alloc, space.space(), plan, 1, 0, Format::Text) {
        Ok(text) => text.len() as u64,
        Err(_) => 0,
    }
}

/// The number of a policy, a new one if it has none.
fn number_of(numbers: &mut HashMap<u64, u64>, policy: u64) -> Result<u64, AllocError> {
    if let Some(number) = numbers.get(&policy) {
        return Ok(*number);
    }
    let number = numbers.len() as u64;
    match numbers.insert(policy, number) {
        Ok(_) => Ok(number),
        Err(_) => Err(AllocError),
    }
}

/// Copies the rows, each with the number of its policy in the place of the policy; how many.
fn copy_into(alloc: Global, rows: &[FlatRow], copies: &mut Vec<FlatRow>) -> u64 {
    let mut numbers: HashMap<u64, u64> = HashMap::new(alloc);
    for row in rows {
        if let Ok(number) = number_of(&mut numbers, row[3]) {
            let _ = copies.push([row[0], row[1], row[2], number]);
        }
    }
    copies.len() as u64
}

static FIGURES: [Figure<Call>; 5] = [
    (Call::Compile, Call::PlainCopy),
    (Call::Compile, Call::Bind),
    (Call::Compile, Call::BindOwn),
    (Call::Compile, Call::Copy),
    (Call::Predict, Call::Compile),
];

/// A space of `ranges` ranges, whose plan is made.
fn planned_of(alloc: Global, ranges: u64) -> Option<Planned> {
    let (common, own) = (common()?, own()?);
    let rows = rows_of(alloc, POLICIES).ok()?;
    let mut space = spread(alloc, ranges)?;
    let _ = space.prepare(alloc);
    Some(Planned {
        alloc,
        common,
        own,
        rows,
        copies: Vec::new(alloc),
        plan: None,
        space,
    })
}

/// Prints what the plan answers, or how long its making, its edits and its copy take.
pub fn print<R: Print + Clock>(rt: &R, alloc: Global, measures: bool) -> io::Result<()> {
    // (a policy for the middle page makes three ranges of one)
    let ranges = if measures { RANGES - 2 } else { RANGES };
    print_figures(rt, planned_of(alloc, ranges), measures, &FIGURES)
}
