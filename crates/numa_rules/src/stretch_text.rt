//! By which rule a stretch of pages goes, as text.
use crate::explanation::Explanation;
use crate::reason_text::{is_kernel_order, put_policy, put_sets};
use crate::rule::OrderRule;
use crate::text::Text;
use numa_machine::{Machine, is_part, turn_at};
use numa_requests::PAGE_BYTES;
use std::alloc::AllocError;

/// Writes the addresses of a stretch: of its first byte, and behind its last.
fn put_addresses(text: &mut Text, first: u64, pages: u64) {
    text.put_hex("stretch ", first.saturating_mul(PAGE_BYTES));
    let end = first.saturating_add(pages);
    text.put_hex("-", end.saturating_mul(PAGE_BYTES));
}

/// Writes the first line: the pages of the stretch, and their indexes. Those of 2 MiB are counted
/// in parts of 4 KiB, which have the index of their page.
fn put_pages(text: &mut Text, said: &Explanation, pages: u64) {
    let last = said.index.saturating_add(pages.saturating_sub(1));
    put_addresses(text, said.page, pages);
    let form = if is_part(said.index) {
        ": $ pages of 4 KiB, parts of those of 2 MiB with the indexes $ to $"
    } else {
        ": $ pages with the indexes $ to $"
    };
    text.put_form(form, &[pages, turn_at(said.index), turn_at(last)]);
}

/// Writes by which node's order nodes are sorted; `None` is the node whose turn it is.
fn put_order(text: &mut Text, machine: &Machine, from: Option<u64>) {
    let is_kernel = is_kernel_order(machine);
    text.put(if is_kernel {
        ", in the kernel's order of "
    } else {
        ", the nearest to "
    });
    match from {
        Some(node) => text.put_number("node ", node),
        None => text.put("it"),
    }
    if !is_kernel {
        text.put(" first");
    }
    text.put("\n");
}

/// Writes the rule, without the order of the nodes, and returns by which node's order they are
/// sorted.
fn put_rule(text: &mut Text, rule: OrderRule) -> Option<u64> {
    text.put("\nrule: ");
    match rule {
        OrderRule::Local(from) => {
            text.put("the allowed nodes");
            Some(from as u64)
        }
        OrderRule::Bind(from) => {
            text.put("the effective nodes alone");
            Some(from as u64)
        }
        OrderRule::PreferredMany(from) => {
            text.put("the effective nodes, and behind them the other allowed ones");
            Some(from as u64)
        }
        OrderRule::Preferred(node) => {
            text.put_number("node ", node as u64);
            text.put(", and behind it the other allowed nodes");
            Some(node as u64)
        }
        OrderRule::Interleave(turn) => {
            let form = "the effective node at place index mod $, and behind it the other allowed \
nodes";
            text.put_form(form, &[turn.members]);
            None
        }
        OrderRule::WeightedInterleave(block) => {
            let form = "the effective node that has turn index mod $, each as many as its weight, \
and behind it the other allowed nodes";
            text.put_form(form, &[block.total]);
            None
        }
    }
}

/// Appends by which rule a stretch of pages goes, in four lines: the pages with their indexes, the
/// policy that applies, the sets of nodes, and the rule. The explanation is that of the first page,
/// and the machine that of its space; the pages lie in the range of the first.
///
/// # Errors
/// `AllocError`: out of memory. A part may have been appended.
pub fn say_stretch(
    text: &mut Vec<u8>,
    machine: &Machine,
    said: &Explanation,
    pages: u64,
) -> Result<(), AllocError> {
    let mut written = Text::of(text);
    put_pages(&mut written, said, pages);
    put_policy(&mut written, said);
    put_sets(&mut written, said);
    let from = put_rule(&mut written, said.rule);
    put_order(&mut written, machine, from);
    written.end(text)
}

/// Appends a line for a stretch of pages that aren't mapped.
///
/// # Errors
/// `AllocError`: out of memory. A part may have been appended.
pub fn say_unmapped(text: &mut Vec<u8>, first: u64, pages: u64) -> Result<(), AllocError> {
    let mut written = Text::of(text);
    put_addresses(&mut written, first, pages);
    written.put_number(": ", pages);
    written.put(" pages that aren't mapped\n");
    written.end(text)
}
