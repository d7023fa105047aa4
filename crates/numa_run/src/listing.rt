//! `maps`, where pages were stated to lie somewhere.
ghost use Rattle.std.specs.Prelude.{◌≡◌, ◌+◌, ◌<◌, ◌≤◌, ◌^◌, ℕ, MatchOption, slice_index};
ghost use Rattle.numa_lines.specs.Written.{Said};
ghost use Rattle.numa_placed.specs.Shifts.{sum_below};
ghost use Rattle.numa_huge.specs.Huge.{places_of};
ghost use Rattle.numa_huge.specs.Moves.{HugeMemory};
ghost use Rattle.numa_run.specs.Listings.{either_line, either_lines, huge_range_line, stated_in};
ghost use Rattle.numa_run.specs.Listings.{there_line, there_lines};
ghost use Rattle.numa_page_state.specs.Standing.{LieThere};
ghost use Rattle.numa_placed.specs.declared.spot.Spot.{Spot};
ghost use Rattle.numa_placed.specs.declared.spot.Spot.TheVariants.{Nowhere};
ghost use Rattle.numa_ranges.specs.Runs.{end_of};
ghost use Rattle.numa_space.specs.Standing.{policy_in};

use numa_huge::HugePlaces;
use numa_lines::Watched;
use numa_machine::is_part;
use numa_maps::{Resident, say_counted, say_huge};
use numa_page_state::{PageState, add, huge_span};
use numa_ranges::Run;
use numa_space::{RangeRecord, Space};
use std::io::Write;

/// The number of stated pages of a range on each node.
fn stated_in(pages: Option<&PageState>, range: &Run<RangeRecord>) -> [u64; 256]
    requires { end_of range.now ≤ 2 ^ 35 }
    ensures counts { (spots : ℕ → Spot) → MatchOption pages.entry
        ((page : ℕ) → spots page ≡ Nowhere) (λ kept. LieThere kept.now spots)
        → (node : ℕ) → node < 256
        → slice_index result node ≡ stated_in spots range.now node }
    ensures few { (node : ℕ) → node < 256 → slice_index result node ≤ 2 ^ 35 }
{
    match pages {
        None => [0; 256],
        Some(kept) => kept.placed().counts_in(range.first, range.pages),
    }
}

/// The sum of the pages on all nodes.
fn total(pages: &[u64; 256]) -> u64
    requires { (node : ℕ) → node < 256 → slice_index pages.now node ≤ 2 ^ 35 }
    ensures sum { result ≡ sum_below 256 (slice_index pages.now) }
    ensures few { result < 2 ^ 44 }
{
    let mut total = 0;
    for node in 0..256usize {
        total += pages[node];
    }
    total
}

/// Writes the line of a range.
fn say_range<W: Write>(
    space: &Space,
    task: u32,
    resident: &Resident,
    pages: Option<&PageState>,
    range: &Run<RangeRecord>,
    output: &mut Watched<W>,
)
    requires { end_of range.now ≤ 2 ^ 35 }
    ensures { (spots : ℕ → Spot) → MatchOption pages.entry ((page : ℕ) → spots page ≡ Nowhere)
        (λ kept. LieThere kept.now spots) → Said W.contents output.old output.new
        (there_line (policy_in space.now task range.now.first) resident.now spots range.now) }
{
    let stated = stated_in(pages, range);
    let held = resident.count_in(range);
    let more = total(&stated);
    let by_node = resident.pages_by_node(range);
    let both = add(by_node, &stated);
    let policy = space.policy_at(task, range.first);
    say_counted(policy, range.first, held as u64 + more, &both, output);
}

/// Writes the line of a range of pages of 2 MiB.
fn say_huge_range<W: Write>(
    space: &Space,
    task: u32,
    huge: &HugePlaces,
    range: &Run<RangeRecord>,
    output: &mut Watched<W>,
)
    requires { end_of range.now ≤ 2 ^ 35 }
    ensures { (memory : HugeMemory) → places_of huge.now ≡ memory.pages
        → Said W.contents output.old output.new (huge_range_line
        (policy_in space.now task range.now.first) memory range.now) }
{
    let span = huge_span(range.first, range.pages);
    let counts = huge.counts_in(span.first, span.pages);
    let policy = space.policy_at(task, range.first);
    say_huge(policy, range.first, total(&counts.on), &counts.on, output);
}

/// Writes the line of a range of pages of either size.
fn say_either<W: Write>(
    space: &Space,
    task: u32,
    resident: &Resident,
    pages: Option<&PageState>,
    huge: &HugePlaces,
    range: &Run<RangeRecord>,
    output: &mut Watched<W>,
)
    requires { end_of range.now ≤ 2 ^ 35 }
    ensures { (spots : ℕ → Spot) (memory : HugeMemory) → MatchOption pages.entry
        ((page : ℕ) → spots page ≡ Nowhere) (λ kept. LieThere kept.now spots)
        → places_of huge.now ≡ memory.pages
        → Said W.contents output.old output.new (either_line memory
        (policy_in space.now task range.now.first) resident.now spots range.now) }
{
    if is_part(range.index) {
        say_huge_range(space, task, huge, range, output);
        return;
    }
    say_range(space, task, resident, pages, range, output);
}

/// Writes a line for each range of the space, in ascending order.
pub fn say_there<W: Write>(
    space: &Space,
    task: u32,
    resident: &Resident,
    pages: Option<&PageState>,
    output: &mut Watched<W>,
)
    ensures { (spots : ℕ → Spot) → MatchOption pages.entry ((page : ℕ) → spots page ≡ Nowhere)
        (λ kept. LieThere kept.now spots) → Said W.contents output.old output.new
        (there_lines (policy_in space.now task) resident.now spots space.now.ranges) }
{
    for range in space.range_iter() {
        say_range(space, task, resident, pages, &range, output);
    }
}

/// Writes a line for each range of the space, of pages of either size.
pub fn say_each<W: Write>(
    space: &Space,
    task: u32,
    resident: &Resident,
    pages: Option<&PageState>,
    huge: &HugePlaces,
    output: &mut Watched<W>,
)
    ensures { (spots : ℕ → Spot) (memory : HugeMemory) → MatchOption pages.entry
        ((page : ℕ) → spots page ≡ Nowhere) (λ kept. LieThere kept.now spots)
        → places_of huge.now ≡ memory.pages → Said W.contents output.old output.new
        (either_lines (policy_in space.now task) resident.now spots memory space.now.ranges) }
{
    for range in space.range_iter() {
        say_either(space, task, resident, pages, huge, &range, output);
    }
}
