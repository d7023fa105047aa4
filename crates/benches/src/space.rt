//! Commands on a space of many ranges: a policy that splits one of them, and other allowed nodes.
use crate::figures::{Figure, Subject, Timed, print as print_figures};
use crate::many::{bind, bind_page, eight_nodes, map, mixed, nodes_of, spec_of_bits};
use numa_mode::PolicySpec;
use numa_ranges::Run;
use numa_requests::{Command, Limits};
use numa_space::{RangeRecord, Space};
use std::alloc::{AllocError, Global};
use std::hint::black_box;
use std::io;
use std::mem::size_of;
use std::rt::Clock;

/// The number of ranges.
const RANGES: u64 = 65_000;

/// How many words a range takes.
const RANGE_WORDS: usize = size_of::<Run<RangeRecord>>() / 8;

/// A row of a plain vector, as large as a range.
type Row = [u64; RANGE_WORDS];

/// The middle range, of which the middle page is set apart.
const MIDDLE: u64 = 32_500;

/// The bits of the nodes from 4 up to 7.
const UPPER: u8 = 240;

/// Two commands, the second of which undoes the first.
type Turns = [Command; 2];

/// A policy of its own for the middle page, and that of all others.
fn splits() -> Option<Turns> {
    Some([
        bind_page(MIDDLE, spec_of_bits(2, 192)?),
        bind_page(MIDDLE, spec_of_bits(3, 255)?),
    ])
}

/// The command that allows the nodes of these bits.
fn allowing(bits: u8) -> Command {
    Command::SetMems {
        mask: nodes_of(bits),
    }
}

/// Four nodes of eight, and all.
fn allowances() -> Turns {
    [allowing(UPPER), allowing(255)]
}

/// Maps all ranges and gives each the policy.
fn spread(space: &mut Space, spec: PolicySpec) {
    for number in 0..RANGES {
        let _ = space.apply(&map(number));
        let _ = space.apply(&bind(number, spec));
    }
}

/// A space of all ranges on a machine of 8 nodes, each range interleaved over all.
fn space_of(alloc: Global) -> Option<Space> {
    let limits = Limits::new(65_536, 8, 1_000_000)?;
    let spec = spec_of_bits(3, 255)?;
    let mut space = Space::new(alloc, eight_nodes(alloc)?, limits);
    spread(&mut space, spec);
    Some(space)
}

/// What a range's policy adds to a checksum.
fn word_of(value: &RangeRecord) -> u64 {
    match value.policy() {
        None => 0,
        Some(policy) => {
            let nodes = policy.effective();
            let first = match nodes.first() {
                Some(node) => u64::from(node.number()),
                None => 0,
            };
            u64::from(nodes.weight()) * 256 + first
        }
    }
}

/// A number that nearly any other list of ranges would change.
fn checksum(space: &Space) -> u64 {
    let mut sum = 0u64;
    for range in space.range_iter() {
        sum = mixed(sum, range.first);
        sum = mixed(sum, range.pages);
        sum = mixed(sum, range.index);
        sum = mixed(sum, word_of(&range.value));
    }
    sum
}

fn tell(rt: &impl Print, what: &str, space: &Space) -> io::Result<()> {
    let version = space.version();
    let ranges = space.ranges();
    let sum = checksum(space);
    println!(rt; "{what}: version {version}, {ranges} ranges, checksum {sum}")
}

/// Prints what commands leave.
fn print_left(rt: &impl Print, space: &mut Space, splits: &Turns) -> io::Result<()> {
    tell(rt, "spread", space)?;
    let allowances = allowances();
    for (command, what) in [
        (splits[0], "one page set apart"),
        (splits[1], "and joined back"),
        (allowances[0], "four nodes taken away"),
        (allowances[1], "and given back"),
    ] {
        let _ = space.apply(&command);
        tell(rt, what, space)?;
    }
    Ok(())
}

/// A space of all ranges, and as many rows as large as ranges.
#[derive(Drop)]
struct Large {
    splits: Turns,
    rows: Vec<Row>,
    space: Space,
}

/// Calls in twos, the second of which undoes the first.
enum Call {
    /// A policy for the middle page, and that of all others.
    Split,
    /// Four nodes of eight, and all.
    Allow,
    /// A row put into the middle of the vector, and taken out.
    Move,
}

static FIGURES: [Figure<Call>; 2] = [(Call::Split, Call::Move), (Call::Allow, Call::Move)];

impl<R: Print> Subject<R> for Large {
    type Call = Call;

    fn checksums(&mut self, rt: &R) -> io::Result<()> {
        print_left(rt, &mut self.space, &self.splits)
    }

    fn make(&mut self, _rt: &R, call: &Call) -> u64 {
        match call {
            Call::Split => accepted(&mut self.space, &self.splits),
            Call::Allow => accepted(&mut self.space, &allowances()),
            Call::Move => moved(&mut self.rows),
        }
    }

    fn settle(&mut self) {}
}

impl Timed for Call {
    fn told(&self) -> (&'static str, u64) {
        match self {
            Call::Split => ("Mbind of a middle page", 2),
            Call::Allow => ("SetMems", 2),
            Call::Move => ("a move of half the vector", 2),
        }
    }
}

/// Carries out both commands; how many were accepted.
fn accepted(space: &mut Space, turns: &Turns) -> u64 {
    let mut count = 0u64;
    for command in turns {
        if space.apply(command).is_ok() {
            count = count.wrapping_add(1);
        }
    }
    count
}

/// Moves half of the rows one place up and down again.
fn moved(rows: &mut Vec<Row>) -> u64 {
    let middle = rows.len() / 2;
    if black_box(rows.insert(middle, [0; RANGE_WORDS])).is_ok() {
        black_box(rows.remove(middle));
    }
    middle as u64
}

/// As many rows as there are ranges.
fn rows_of(alloc: Global) -> Result<Vec<Row>, AllocError> {
    let mut rows = Vec::new(alloc);
    for i in 0..RANGES {
        rows.push([i; RANGE_WORDS])?;
    }
    Ok(rows)
}

fn large_of(alloc: Global) -> Option<Large> {
    let splits = splits()?;
    let rows = rows_of(alloc).ok()?;
    let space = space_of(alloc)?;
    Some(Large {
        splits,
        rows,
        space,
    })
}

/// Prints what commands leave, or how long they take.
pub fn print<R: Print + Clock>(rt: &R, alloc: Global, measures: bool) -> io::Result<()> {
    print_figures(rt, large_of(alloc), measures, &FIGURES)
}
