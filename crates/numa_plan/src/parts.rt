//! Pages of both sizes that take the nodes of a cycle in turn: each page has a turn, and the parts
//! of a page of 2 MiB have its own.
ghost use Rattle.std.specs.Prelude.{◌≡◌, ℕ, ◌+◌, ◌%◌, ◌<◌, ◌≤◌, ◌^◌, length, true};
ghost use Rattle.std.specs.Prelude.{EachIndex, slice_index};
ghost use Rattle.numa_machine.specs.Sizes.{is_part, shared_turn, turn_at};
ghost use Rattle.numa_plan.specs.Rules.{pages_on};
ghost use Rattle.numa_plan.specs.Tally.{Adds, HasRoom};

use crate::tally::{Tally, add_places, add_turns};
use numa_lanes::{Cycle, fill_cycle, fill_one};
use numa_machine::{is_part, is_shared, parts_left, shared_turn, turn_at};

/// The end of the indexes of pages of 4 KiB.
const SMALL_END: u64 = 1 << 36;

/// The end of those of parts of pages of 2 MiB.
const HUGE_END: u64 = 1 << 37;

/// The number of parts of a page of 2 MiB.
const PARTS: u64 = 512;

/// The node whose turn an index has.
#[inline(always)]
pub(crate) fn node_at(cycle: &Cycle, index: u64) -> u8
    ensures { result ≡ slice_index cycle.now (turn_at index % length cycle.now) }
{
    cycle.turns(turn_at(index), 1)[0]
}

/// Writes the node of each of the pages with the indexes from this one on.
#[inline(always)]
pub(crate) fn fill_turns(cycle: &Cycle, index: u64, out: &mut [u8])
    requires { index < 2 ^ 48 }
    ensures { EachIndex out.new (λ k. slice_index out.new k
        ≡ slice_index cycle.now (turn_at (index + k) % length cycle.now)) }
{
    if index + (out.len() as u64) < SMALL_END {
        fill_cycle(cycle, index, out);
    } else {
        fill_others(cycle, index, out);
    }
}

/// Writes the same for pages that aren't all of 4 KiB, or are of shared objects.
#[inline(never)]
fn fill_others(cycle: &Cycle, index: u64, out: &mut [u8])
    requires { index < 2 ^ 48 }
    ensures { EachIndex out.new (λ k. slice_index out.new k
        ≡ slice_index cycle.now (turn_at (index + k) % length cycle.now)) }
{
    if is_of_one_object(index, out.len() as u64) {
        fill_cycle(cycle, shared_turn(index), out);
    } else {
        fill_parts(cycle, index, out);
    }
}

/// Whether so many indexes from this one on are those of pages of one shared object.
fn is_of_one_object(index: u64, pages: u64) -> bool
    ensures { result ≡ true → (2 ^ 37 ≤ index) × (shared_turn index + pages ≤ 2 ^ 36) }
{
    is_shared(index) && pages <= SMALL_END - shared_turn(index)
}

/// Writes the same, all parts of a page at once.
fn fill_parts(cycle: &Cycle, index: u64, out: &mut [u8])
    requires { index < 2 ^ 48 }
    ensures { EachIndex out.new (λ k. slice_index out.new k
        ≡ slice_index cycle.now (turn_at (index + k) % length cycle.now)) }
{
    let mut done = 0usize;
    while done < out.len() {
        let at = index + done as u64;
        let count = parts_left(at).min((out.len() - done) as u64) as usize;
        fill_one(node_at(cycle, at), &mut out[done..done + count]);
        done += count;
    }
}

/// Adds to each node's count the pages that are on it, of `pages` pages with the indexes from
/// `index` on.
#[inline(always)]
pub(crate) fn count_turns(cycle: &Cycle, index: u64, pages: u64, counts: &mut Tally)
    requires last { index + pages ≤ 2 ^ 48 }
    requires room { HasRoom counts.old (λ _. pages) }
    ensures { Adds counts.old counts.new (pages_on cycle.now index pages) }
{
    if index + pages <= SMALL_END {
        add_turns(cycle, index, pages, counts);
    } else {
        count_others(cycle, index, pages, counts);
    }
}

/// Adds the same for pages that aren't all of 4 KiB, or are of shared objects.
#[inline(never)]
fn count_others(cycle: &Cycle, index: u64, pages: u64, counts: &mut Tally)
    requires last { index + pages ≤ 2 ^ 48 }
    requires room { HasRoom counts.old (λ _. pages) }
    ensures { Adds counts.old counts.new (pages_on cycle.now index pages) }
{
    if is_of_one_object(index, pages) {
        add_turns(cycle, shared_turn(index), pages, counts);
    } else if is_part(index) && index + pages <= HUGE_END {
        add_part_rounds(cycle, index, pages, counts);
    } else {
        add_parts(cycle, index, pages, counts);
    }
}

/// Adds the same for parts of pages of 2 MiB: whole rounds by multiplication, and the rest page by
/// page.
fn add_part_rounds(cycle: &Cycle, index: u64, pages: u64, counts: &mut Tally)
    requires part { is_part index ≡ true }
    requires last { index + pages ≤ 2 ^ 37 }
    requires room { HasRoom counts.old (λ _. pages) }
    ensures { Adds counts.old counts.new (pages_on cycle.now index pages) }
{
    let nodes = cycle.nodes();
    let length = nodes.len() as u64;
    let times = pages / PARTS / length;
    add_places(nodes, times * PARTS, counts);
    let done = times * length * PARTS;
    add_parts(cycle, index + done, pages - done, counts);
}

/// Adds the same page by page, all parts of a page at once.
fn add_parts(cycle: &Cycle, index: u64, pages: u64, counts: &mut Tally)
    requires last { index + pages ≤ 2 ^ 48 }
    requires room { HasRoom counts.old (λ _. pages) }
    ensures { Adds counts.old counts.new (pages_on cycle.now index pages) }
{
    let mut done = 0u64;
    while done < pages {
        let at = index + done;
        let count = parts_left(at).min(pages - done);
        counts[usize::from(node_at(cycle, at))] += count;
        done += count;
    }
}
