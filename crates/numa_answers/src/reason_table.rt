//! The nodes of a machine as a table of a picture, a column each: which sets have a node, how far
//! it is, and as which number it is asked for a page.

use numa_machine::Machine;
use numa_mask::{NodeId, NodeMask};
use numa_rules::Explanation;
use numa_sheets::{Rectangle, Written, put_node, put_rectangle};

/// The most nodes of a table, and of each part of it.
const NODES: u32 = 64;

const ACROSS: u32 = 16;

/// The first column of pixels of the nodes, the pixels from one to the next, those of a cell, and
/// of a row.
const LEFT: u64 = 160;

const STEP: u64 = 46;

const WIDE: u64 = 42;

const HIGH: u64 = 18;

const ROW: u64 = 22;

/// The colours of a cell of a member, and of another.
const MEMBER: &str = "#555555";

const OTHER: &str = "#ffffff";

/// The distance of a node of a machine from another, if it has both.
pub(crate) fn distance_of(machine: &Machine, from: u32, node: u32) -> Option<u64> {
    if from >= machine.nodes() || node >= machine.nodes() {
        return None;
    }
    Some(u64::from(machine.distance(from, node)))
}

/// A row of a part of the table: nodes side by side, from a first on, at a row of pixels.
#[derive(Clone, Copy)]
struct Row {
    first: u32,
    behind: u32,
    top: u64,
}

impl Row {
    /// The row below it.
    fn next(self) -> Row {
        Row {
            top: self.top.saturating_add(ROW),
            ..self
        }
    }

    /// The cell of a node.
    fn cell(&self, node: u32) -> Rectangle {
        let column = u64::from(node.saturating_sub(self.first));
        Rectangle {
            left: column.saturating_mul(STEP).saturating_add(LEFT),
            top: self.top,
            width: WIDE,
            height: HIGH,
        }
    }

    /// Writes what the row shows.
    fn put_name(&self, text: &mut Written, name: &[u8]) {
        text.put_form(b"<text x=\"16\" y=\"$\">", &[self.top.saturating_add(13)]);
        text.put(name);
        text.put(b"</text>\n");
    }

    /// Writes a number in a node's cell, or a line, if there is none.
    fn put_number(&self, text: &mut Written, node: u32, number: Option<u64>) {
        let cell = self.cell(node);
        text.put_form(
            b"<text x=\"$\" y=\"$\" text-anchor=\"middle\">",
            &[
                cell.left.saturating_add(WIDE / 2),
                cell.top.saturating_add(13),
            ],
        );
        match number {
            Some(number) => text.put_number(number),
            None => text.put(b"-"),
        }
        text.put(b"</text>");
    }

    /// Draws the nodes.
    fn put_nodes(&self, text: &mut Written) -> Row {
        self.put_name(text, b"node");
        for node in self.first..self.behind {
            put_node(text, self.cell(node), u64::from(node));
        }
        text.put(b"\n");
        self.next()
    }

    /// Draws which nodes a set has.
    fn put_set(&self, text: &mut Written, name: &[u8], set: &NodeMask) -> Row {
        self.put_name(text, name);
        for node in self.first..self.behind {
            let is_member = set.has((node % 256) as u8);
            put_rectangle(
                text,
                self.cell(node),
                if is_member { MEMBER } else { OTHER },
            );
        }
        text.put(b"\n");
        self.next()
    }

    /// Writes how far the nodes are from one.
    fn put_distances(&self, text: &mut Written, machine: &Machine, from: u32) -> Row {
        self.put_name(text, b"distance");
        for node in self.first..self.behind {
            self.put_number(text, node, distance_of(machine, from, node));
        }
        text.put(b"\n");
        self.next()
    }

    /// Writes as which number the nodes are asked.
    fn put_ranks(&self, text: &mut Written, order: &[u8]) -> Row {
        self.put_name(text, b"asked as number");
        for node in self.first..self.behind {
            self.put_number(text, node, rank_of(order, node));
        }
        text.put(b"\n");
        self.next()
    }
}

/// The place of a node in an order, from 1.
pub(crate) fn rank_of(order: &[u8], node: u32) -> Option<u64> {
    let mut rank = 1u64;
    for one in order {
        if u32::from(*one) == node {
            return Some(rank);
        }
        rank = rank.saturating_add(1);
    }
    None
}

/// The set of one node.
fn set_of(node: u32) -> NodeMask {
    let mut set = NodeMask::empty();
    if let Some(node) = NodeId::new((node % 256) as u8) {
        set.insert(node);
    }
    set
}

/// Draws the sets: of the nodes with memory, those allowed, and those of the policy.
fn put_sets(text: &mut Written, machine: &Machine, said: &Explanation, row: Row) -> Row {
    let row = row.put_set(text, b"has memory", &machine.memory());
    let row = row.put_set(text, b"allowed", &said.allowed);
    let Some(policy) = &said.policy else {
        return row;
    };
    let row = row.put_set(text, b"asked for", &policy.spec().mask());
    row.put_set(text, b"effective", &policy.effective())
}

/// Draws a part of the table, and returns at which row of pixels it ends.
fn put_part(text: &mut Written, machine: &Machine, said: &Explanation, from: u32, row: Row) -> u64 {
    let row = row.put_nodes(text);
    let row = put_sets(text, machine, said, row);
    let row = row.put_set(text, b"the task's CPU", &set_of(said.cpu));
    let row = row.put_distances(text, machine, from);
    let row = row.put_ranks(text, said.nodes.as_slice());
    row.next().top
}

/// Writes at a row of pixels how many nodes aren't drawn, if there are such.
fn put_others(text: &mut Written, others: u32, top: u64) {
    if others > 0 {
        text.put_form(
            b"<text x=\"16\" y=\"$\">and $ more nodes</text>\n",
            &[top, u64::from(others)],
        );
    }
}

/// Draws the machine's nodes from a row of pixels on, with their distances from one, and returns at
/// which row that ends. Of many nodes the first are drawn.
pub(crate) fn put_table(
    text: &mut Written,
    machine: &Machine,
    said: &Explanation,
    from: u32,
    top: u64,
) -> u64 {
    let nodes = machine.nodes().min(NODES);
    let mut end = top.saturating_add(8);
    text.put(b"<g class=\"nodes\">\n");
    for part in 0..nodes.saturating_add(ACROSS - 1) / ACROSS {
        let first = part.saturating_mul(ACROSS);
        let row = Row {
            first,
            behind: first.saturating_add(ACROSS).min(nodes),
            top: end,
        };
        end = put_part(text, machine, said, from, row);
    }
    put_others(text, machine.nodes().saturating_sub(nodes), end);
    text.put(b"</g>\n");
    end.saturating_add(8)
}
