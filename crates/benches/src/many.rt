//! Many ranges of 3 pages, each followed by a hole of one page: as commands that make them, and as
//! rows of a plain vector, which figures compare with.
ghost use Rattle.std.specs.Prelude.{◌<◌, ◌^◌};

use numa_examples::flat_machine;
use numa_machine::{Machine, PageSize};
use numa_mask::{NodeId, NodeMask};
use numa_mode::PolicySpec;
use numa_plan::{Plan, Steps};
use numa_requests::Command;
use std::alloc::{AllocError, Global};
use std::hint::black_box;

/// How many ranges the largest measurements have.
pub const RANGES: u64 = 65_536;

/// How many distinct policies `policy` gives.
pub const POLICIES: u64 = 16;

/// How many look-ups a round of a measurement has.
pub const ROUND: u64 = 100_000;

/// How many bytes a range has.
const RANGE: u64 = 12_288;

/// The distance in bytes between the beginnings of two ranges.
const STEP: u64 = 16_384;

/// A row of a plain vector, as large as a range with a value of 8 bytes: first page, pages, index
/// and value.
pub type FlatRow = [u64; 4];

/// A machine of 8 nodes, 20 apart.
pub fn eight_nodes(alloc: Global) -> Option<Machine> {
    flat_machine(alloc, &[64; 8])
}

/// The set of the nodes whose bits of a number are 1, of nodes 0 to 7.
pub fn nodes_of(bits: u8) -> NodeMask {
    let mut set = NodeMask::empty();
    for number in 0..8u8 {
        if (bits >> number) & 1 == 1
            && let Some(node) = NodeId::new(number)
        {
            set.insert(node);
        }
    }
    set
}

/// A policy of this mode word for the nodes of these bits, if there is such a policy.
pub fn spec_of_bits(word: u32, bits: u8) -> Option<PolicySpec> {
    PolicySpec::from_raw(word, nodes_of(bits)).ok()
}

/// The policy of this number: bind for the nodes of the bits of the number and one.
pub fn policy(number: u64) -> Option<PolicySpec> {
    spec_of_bits(2, (number % POLICIES) as u8 + 1)
}

/// The command that maps the range of this number, of which page p has the index p.
pub fn map(number: u64) -> Command {
    let start = number.wrapping_mul(STEP);
    Command::Map {
        start,
        length: RANGE,
        offset: start / 4_096,
        size: PageSize::Small,
    }
}

/// The command that gives it a policy.
pub fn bind(number: u64, spec: PolicySpec) -> Command {
    Command::Mbind {
        start: number.wrapping_mul(STEP),
        length: RANGE,
        spec,
    }
}

/// The command that gives its middle page a policy.
pub fn bind_page(number: u64, spec: PolicySpec) -> Command {
    Command::Mbind {
        start: number.wrapping_mul(STEP).wrapping_add(4_096),
        length: 4_096,
        spec,
    }
}

/// The page that look-up `i` of a round asks for: the pages jump over all ranges and holes.
pub fn page_of(i: u64) -> u64 {
    i.wrapping_mul(40_503) % (4 * RANGES)
}

/// The ranges as rows, with `values` values in turn.
pub fn rows_of(alloc: Global, values: u64) -> Result<Vec<FlatRow>, AllocError>
    requires { 0 < values }
{
    let mut rows = Vec::new(alloc);
    for place in 0..RANGES {
        rows.push([4 * place, 3, 4 * place, place % values])?;
    }
    Ok(rows)
}

/// The sum of the lengths of the lists that `count` look-ups of a plan find.
pub fn lists_of(plan: &Plan, count: u64) -> u64 {
    let mut sum = 0u64;
    for i in 0..count {
        if let Ok(row) = plan.choice(1, black_box(page_of(i)), 3, &mut Steps::new()) {
            sum = sum.wrapping_add(row.len() as u64);
        }
    }
    sum
}

/// The sum of the places that a round of std's partition point finds in such rows.
pub fn places_in(rows: &[FlatRow]) -> u64 {
    let mut sum = 0u64;
    for i in 0..ROUND {
        let page = black_box(page_of(i));
        sum = sum.wrapping_add(rows.partition_point(|row| row[0] <= page) as u64);
    }
    sum
}

/// The sum so far with one number more, which nearly any other list of numbers would change.
pub fn mixed(sum: u64, number: u64) -> u64 {
    sum.wrapping_mul(6_364_136_223_846_793_005)
        .wrapping_add(number)
}

/// The sum so far with a list more.
fn mixed_list(mut sum: u64, list: &[u8]) -> u64 {
    for node in list {
        sum = mixed(sum, u64::from(*node));
    }
    sum
}

/// What `choice` answers task 1 for every page of the ranges and holes.
pub fn choices(plan: &Plan, cpu: u32) -> u64 {
    let mut sum = 0u64;
    for page in 0..262_145u64 {
        sum = match plan.choice(1, page, cpu, &mut Steps::new()) {
            Ok(row) => mixed_list(mixed(sum, 1), row),
            Err(_) => mixed(sum, 2),
        };
    }
    sum
}
