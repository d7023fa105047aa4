//! Which pages go to another node.
ghost use Rattle.std.specs.Prelude.{◌≡◌, ◌-◌, ◌≤◌, ◌<◌, ◌==◌, ◌&&◌, ℕ, List, length, slice_index};
ghost use Rattle.std.specs.Prelude.{IfErr, IfOk, OnOk, nat_lt, if◌then◌else◌};
ghost use Rattle.numa_compile.specs.Standing.{PlanStandsFor};
ghost use Rattle.numa_machine.specs.Machine.{Hardware};
ghost use Rattle.numa_requests.specs.declared.command.Command.{Command};
ghost use Rattle.numa_reports.specs.Failing.{RefusesEither};
ghost use Rattle.numa_reports.specs.Moved.{AddsMoves, HasRoomFor};
ghost use Rattle.numa_reports.specs.Moved.{meant_moves, pairs, planned_moves};

use crate::outlook::PageSpan;
use numa_machine::PlaceRefusal;
use numa_plan::Plan;
use numa_sheets::{Touch, Watch};
use std::alloc::{AllocError, Global};

/// The number of pages that are looked at together.
pub(crate) const BLOCK: usize = 4096;

/// The number of entries of a table.
pub(crate) const ENTRIES: usize = 65_536;

/// A touch of pages that go by one plan before, and by another after.
#[derive(Clone, Copy)]
pub(crate) struct Change<'a> {
    pub(crate) before: &'a Plan,
    pub(crate) after: &'a Plan,
    pub(crate) touch: Touch,
}

/// Adds one page from a node to another.
fn add_pair(table: &mut Vec<u64>, from: u8, to: u8)
    requires { HasRoomFor table.old.items 1 }
    ensures entries { length table.new.items ≡ 65536 }
    ensures pair { AddsMoves table.old.items table.new.items
        (λ a b. if (from == a) && (to == b) then 1 else 0) }
{
    table[usize::from(from) * 256 + usize::from(to)] += 1;
}

/// Adds a page for each place: from its node in the first list to that in the second.
fn add_pairs(table: &mut Vec<u64>, before: &[u8], after: &[u8])
    requires same { length after.now ≡ length before.now }
    requires room { HasRoomFor table.old.items (length before.now) }
    ensures entries { length table.new.items ≡ 65536 }
    ensures pairs { AddsMoves table.old.items table.new.items (pairs before.now after.now) }
{
    for k in 0..before.len() {
        add_pair(table, before[k], after[k]);
    }
}

/// Adds the pages of a span that fits both lists: from their node by one plan to that by the other.
fn add_filled(
    change: Change<'_>,
    first: u64,
    old: &mut [u8],
    new: &mut [u8],
    table: &mut Vec<u64>,
) -> Result<(), PlaceRefusal>
    requires same { length new.old ≡ length old.old }
    requires room { HasRoomFor table.old.items (length old.old) }
    ensures ok { OnOk result (AddsMoves table.old.items table.new.items
        (planned_moves change.entry.before.now change.entry.after.now change.entry.touch.task
        first (length old.old) change.entry.touch.cpu)) }
    ensures entries { length table.new.items ≡ 65536 }
    ensures err { IfErr result (RefusesEither change.entry.before.now change.entry.after.now
        first (length old.old) change.entry.touch.cpu) }
{
    let Touch { task, cpu } = change.touch;
    change.before.fill(task, first, cpu, old)?;
    change.after.fill(task, first, cpu, new)?;
    add_pairs(table, old, new);
    Ok(())
}

/// Adds the pages of a block.
fn add_block(
    change: Change<'_>,
    first: u64,
    pages: usize,
    table: &mut Vec<u64>,
) -> Result<(), PlaceRefusal>
    requires few { pages ≤ 4096 }
    requires room { HasRoomFor table.old.items pages }
    ensures ok { OnOk result (AddsMoves table.old.items table.new.items
        (planned_moves change.entry.before.now change.entry.after.now change.entry.touch.task
        first pages change.entry.touch.cpu)) }
    ensures entries { length table.new.items ≡ 65536 }
    ensures err { IfErr result (RefusesEither change.entry.before.now change.entry.after.now
        first pages change.entry.touch.cpu) }
{
    let mut old = [0u8; BLOCK];
    let mut new = [0u8; BLOCK];
    add_filled(change, first, &mut old[..pages], &mut new[..pages], table)
}

/// Adds the pages of a span, block by block.
pub(crate) fn add_moves<W: Watch>(
    change: Change<'_>,
    span: PageSpan,
    table: &mut Vec<u64>,
    watch: &mut W,
) -> Result<(), PlaceRefusal>
    requires known { change.touch.cpu < change.before.now.nodes }
    requires room { HasRoomFor table.old.items span.pages }
    ensures ok { (machine : Hardware) (old new : List Command)
        → PlanStandsFor machine change.entry.before.now old
        → PlanStandsFor machine change.entry.after.now new
        → change.entry.touch.cpu < machine.nodes
        → OnOk result (AddsMoves table.old.items table.new.items (meant_moves machine old new
        change.entry.touch.task span.first span.pages change.entry.touch.cpu)) }
    ensures planned { OnOk result (AddsMoves table.old.items table.new.items
        (planned_moves change.entry.before.now change.entry.after.now change.entry.touch.task
        span.first span.pages change.entry.touch.cpu)) }
    ensures entries { length table.new.items ≡ 65536 }
    ensures left { (left : ℕ) → HasRoomFor table.old.items left → span.pages ≤ left
        → OnOk result (HasRoomFor table.new.items (left - span.pages)) }
    ensures err { IfErr result (RefusesEither change.entry.before.now change.entry.after.now
        span.first span.pages change.entry.touch.cpu) }
{
    let PageSpan { first, pages } = span;
    // Tells the proof that no run has a page above the last that can be mapped.
    let _ = change.before.run_count();
    let Some(end) = first.checked_add(pages) else {
        return Err(PlaceRefusal::Unmapped);
    };
    let mut page = first;
    while page < end {
        let part = (end - page).min(BLOCK as u64);
        add_block(change, page, part as usize, table)?;
        page += part;
        watch.pass(part);
    }
    Ok(())
}

/// Whether a plan has the node.
pub(crate) fn has_node(plan: &Plan, node: u32) -> bool
    ensures { result ≡ nat_lt node plan.now.nodes }
{
    plan.fill(0, 0, node, &mut []).is_ok()
}

/// A table without pages.
pub(crate) fn empty_table(alloc: Global, entries: usize) -> Result<Vec<u64>, AllocError>
    ensures entries { IfOk result (λ table. length table.items ≡ entries) }
    ensures empty { IfOk result (λ table. (k : ℕ) → k < entries → slice_index table.items k ≡ 0) }
{
    vec![in alloc; 0; entries]
}
