//! Rules: rows of nodes, and which of them applies to a page.
ghost use Rattle.std.specs.Prelude.{◌≡◌, ℕ, ◌+◌, ◌*◌, ◌<◌, ◌^◌, ◌==◌, length};
ghost use Rattle.std.specs.Prelude.{◌≤◌, slice_index, EachIndex, IfOk};
ghost use Rattle.numa_ranges.specs.Counts.{count_pages};
ghost use Rattle.numa_plan.specs.Tally.{Adds, HasRoom};
ghost use Rattle.numa_plan.specs.Rows.{row_number, row_of, first_of, HasRow};
ghost use Rattle.numa_plan.specs.Rows.{Faulting, Fixed, InTurns};
ghost use Rattle.numa_plan.specs.Turns.{cycle_of};

use crate::parts::{count_turns, fill_turns, node_at};
use crate::rows::{first_cycle, row_at};
use crate::tally::Tally;
use numa_lanes::{Cycle, fill_one};
use numa_machine::{NoMemory, round_of, turn_at};
use std::alloc::Global;
use std::marker::Model;

/// Which row applies, and the rows, of `width` nodes each, concatenated.
#[derive(Drop)]
enum Body {
    /// The row of the faulting node.
    Faulting {
        width: u32,
        rows: Vec<u8>,
    },
    /// The only row.
    Fixed {
        rows: Vec<u8>,
    },
    /// The row whose number is in the cycle at the page's turn modulo the cycle's length. `firsts`
    /// has the first node of the row at each place of the cycle.
    Turns {
        width: u32,
        rows: Vec<u8>,
        cycle: Vec<u8>,
        firsts: Cycle,
    },
}

/// Rows of nodes, and a key that says which of them applies to a page.
#[derive(Drop)]
pub struct Rule {
    body: Body,
}

impl Model for Rule {
    ghost use Rattle.numa_plan.specs.Rows.{RuleData};

    ghost Value = { RuleData };

    ghost use Rattle.numa_plan.specs.Rules.{data_of, IsRule};

    ghost view = { λ a. data_of a.body };

    ghost invariant = { λ a. IsRule a.body };
}

impl Rule {
    /// A rule with a row for each faulting node, from node 0 on: `rows` is their concatenation,
    /// `width` nodes each.
    pub fn faulting(width: u32, rows: Vec<u8>) -> Rule
        ensures { result ≡ record { key = Faulting; width = width; rows = rows.items } }
    {
        Rule {
            body: Body::Faulting { width, rows },
        }
    }

    /// A rule with one row.
    pub fn fixed(row: Vec<u8>) -> Rule
        ensures { result ≡ record { key = Fixed; width = length row.items; rows = row.items } }
    {
        Rule {
            body: Body::Fixed { rows: row },
        }
    }

    /// A rule whose rows apply in turns: a page that has turn i gets the row whose number is entry
    /// i modulo the length of `cycle`. `rows` is the concatenation of the rows, `width` nodes each.
    ///
    /// # Errors
    /// `NoMemory`: there is no memory for the first nodes of the rows, which are kept in the order
    /// of the cycle.
    pub fn turns(alloc: Global, width: u32, rows: Vec<u8>, cycle: Vec<u8>) -> Result<Rule, NoMemory>
        requires { 0 < length cycle.items }
        ensures { IfOk result (λ rule. rule
            ≡ record { key = InTurns cycle.items; width = width; rows = rows.items }) }
    {
        let firsts = first_cycle(alloc, width, &rows, &cycle)?;
        Ok(Rule {
            body: Body::Turns {
                width,
                rows,
                cycle,
                firsts,
            },
        })
    }

    /// Returns a copy.
    pub(crate) fn copy(&self, alloc: Global) -> Result<Rule, NoMemory>
        ensures { IfOk result (λ copy. copy ≡ self.now) }
    {
        match &self.body {
            Body::Faulting { width, rows } => {
                let rows = Vec::from_slice(alloc, rows)?;
                Ok(Rule::faulting(*width, rows))
            }
            Body::Fixed { rows } => {
                let rows = Vec::from_slice(alloc, rows)?;
                Ok(Rule::fixed(rows))
            }
            Body::Turns {
                width,
                rows,
                cycle,
                ..
            } => {
                let rows = Vec::from_slice(alloc, rows)?;
                let cycle = Vec::from_slice(alloc, cycle)?;
                Rule::turns(alloc, *width, rows, cycle)
            }
        }
    }

    /// The row for a page with this index, for a fault on this node.
    pub(crate) fn row(&self, cpu: u32, index: u64) -> &[u8]
        requires { HasRow self.now (row_number self.now cpu index) }
        ensures is { result.now ≡ row_of self.now cpu index }
        ensures sized { (0 < length result.now) × (length result.now ≤ 256) }
    {
        match &self.body {
            Body::Faulting { width, rows } => row_at(rows, *width, cpu as usize),
            Body::Fixed { rows } => rows,
            Body::Turns {
                width,
                rows,
                cycle,
                ..
            } => {
                let turn = (turn_at(index) % cycle.len() as u64) as usize;
                row_at(rows, *width, usize::from(cycle[turn]))
            }
        }
    }

    /// The number of pages after which the rows come again, for `pages` pages with the indexes from
    /// `index` on: of pages of 4 KiB the length of the cycle, or 1.
    pub(crate) fn cycle_len(&self, index: u64, pages: u64) -> u64
        ensures { result ≡ cycle_of self.now index pages }
    {
        match &self.body {
            Body::Turns { cycle, .. } => round_of(cycle.len() as u64, index, pages),
            Body::Faulting { .. } => 1,
            Body::Fixed { .. } => 1,
        }
    }

    /// The first node of the row for an index, for a fault on this node.
    #[inline(always)]
    pub(crate) fn first(&self, cpu: u32, index: u64) -> u8
        requires { (k : ℕ) → HasRow self.now (row_number self.now cpu k) }
        ensures { result ≡ first_of self.now cpu index }
    {
        match &self.body {
            Body::Turns { firsts, .. } => node_at(firsts, index),
            Body::Faulting { .. } => self.row(cpu, index)[0],
            Body::Fixed { .. } => self.row(cpu, index)[0],
        }
    }

    /// Writes the first node of the row for each of the indexes from this one on.
    pub(crate) fn fill(&self, cpu: u32, index: u64, out: &mut [u8])
        requires rows { (k : ℕ) → HasRow self.now (row_number self.now cpu k) }
        requires index { index < 2 ^ 48 }
        ensures { EachIndex out.new (λ k.
            slice_index out.new k ≡ first_of self.now cpu (index + k)) }
    {
        match &self.body {
            Body::Turns { firsts, .. } => fill_turns(firsts, index, out),
            Body::Faulting { .. } => fill_one(self.row(cpu, index)[0], out),
            Body::Fixed { .. } => fill_one(self.row(cpu, index)[0], out),
        }
    }

    /// Adds to each node's count the pages whose row begins with the node, for `pages` pages with
    /// the indexes from `index` on.
    pub(crate) fn count(&self, cpu: u32, index: u64, pages: u64, counts: &mut Tally)
        requires rows { (k : ℕ) → HasRow self.now (row_number self.now cpu k) }
        requires last { index + pages ≤ 2 ^ 48 }
        requires room { HasRoom counts.old (λ _. pages) }
        ensures { Adds counts.old counts.new (λ node.
            count_pages (λ k. first_of self.now cpu k == node) index pages) }
    {
        match &self.body {
            Body::Turns { firsts, .. } => count_turns(firsts, index, pages, counts),
            Body::Faulting { .. } => counts[usize::from(self.row(cpu, index)[0])] += pages,
            Body::Fixed { .. } => counts[usize::from(self.row(cpu, index)[0])] += pages,
        }
    }
}
