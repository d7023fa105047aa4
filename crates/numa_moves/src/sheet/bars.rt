//! The bars of a picture: where pages lie before a line, and below it after.

use crate::sums::MoveSum;
use numa_sheets::{Rectangle, Written, put_frame, put_hatched, put_node, share};

/// The rows of pixels of a bar, and the first of each.
const HIGH: u64 = 16;

const BEFORE: u64 = 16;

const AFTER: u64 = 40;

/// What becomes of some pages of a node.
#[derive(Clone, Copy)]
pub(crate) enum Fate {
    /// They go to another node.
    Moves(u8),
    /// They need not go.
    Stays,
    /// They are to go, and find no room.
    LacksRoom,
}

impl Fate {
    /// The node on which pages of a node lie then.
    pub(crate) fn node(self, from: u8) -> u8 {
        match self {
            Fate::Moves(to) => to,
            _ => from,
        }
    }

    /// How many pages of a node have this fate.
    pub(crate) fn pages(self, sum: &MoveSum, from: u8) -> u64 {
        let place = from as usize;
        match self {
            Fate::Moves(_) => sum.gone[place],
            Fate::Stays => sum.stays[place],
            Fate::LacksRoom => sum.lacking[place],
        }
    }
}

/// What may become of the pages of a node, by the nodes on which they lie then.
pub(crate) fn fates_of(sum: &MoveSum, node: u8) -> [Fate; 3] {
    let to = sum.to[node as usize];
    if to < node {
        return [Fate::Moves(to), Fate::Stays, Fate::LacksRoom];
    }
    [Fate::Stays, Fate::LacksRoom, Fate::Moves(to)]
}

/// Writes what becomes of pages, as a title that is shown where the mouse points.
pub(crate) fn put_title(text: &mut Written, from: u8, fate: Fate, pages: u64) {
    text.put_form(b"<title>node $", &[u64::from(from)]);
    match fate {
        Fate::Moves(to) => text.put_form(b" to node $", &[u64::from(to)]),
        Fate::Stays => text.put(b", which need not go"),
        Fate::LacksRoom => text.put(b", which find no room"),
    }
    text.put(b": ");
    text.put_amount(pages);
    text.put(b"</title>");
}

/// Draws pages of a node in both bars, from a column on, as wide as this.
fn put_both(text: &mut Written, from: u8, fate: Fate, columns: (u64, u64), pages: u64) {
    let upper = Rectangle {
        left: columns.0,
        top: BEFORE,
        width: columns.1,
        height: HIGH,
    };
    text.put(b"<g>");
    put_title(text, from, fate, pages);
    put_node(text, upper, u64::from(from));
    let lower = Rectangle {
        top: AFTER,
        ..upper
    };
    put_node(text, lower, u64::from(fate.node(from)));
    match fate {
        Fate::Moves(_) => {
            let height = AFTER + HIGH - BEFORE;
            put_frame(text, Rectangle { height, ..upper }, b"moved");
        }
        Fate::LacksRoom => {
            let (top, height) = (BEFORE + HIGH, AFTER - BEFORE - HIGH);
            let between = Rectangle {
                top,
                height,
                ..upper
            };
            put_hatched(text, between);
        }
        Fate::Stays => (),
    }
    text.put(b"</g>");
}

/// Draws the pages of a node in bars of a width, of which `before` pages are drawn; returns how
/// many are then.
fn put_from(text: &mut Written, sum: &MoveSum, node: u8, width: u64, before: u64) -> u64 {
    let mut done = before;
    for fate in fates_of(sum, node) {
        let pages = fate.pages(sum, node);
        if pages > 0 {
            let left = share(width, done, sum.placed);
            done = done.saturating_add(pages);
            let behind = share(width, done, sum.placed);
            put_both(text, node, fate, (left, behind.saturating_sub(left)), pages);
        }
    }
    done
}

/// Draws pages in two bars of a width, by the nodes that they lie on.
pub(crate) fn put_bars(text: &mut Written, sum: &MoveSum, nodes: u32, width: u64) {
    let mut done = 0u64;
    for node in 0..nodes.min(256) {
        done = put_from(text, sum, node as u8, width, done);
    }
}
