//! Why a page goes where it goes, as a picture: SVG 1.1, which browsers show.
//!
//! Above stand the nodes in the order in which they are asked for room, each over its distance, and
//! below them the turns, if nodes take turns. Then come the machine's nodes as a table, and the
//! text of the explanation.

use crate::about::put_wrapped;
use crate::about_forms::{height_of_rows, put_rows};
use crate::reason_table::{distance_of, put_table, rank_of};
use numa_machine::{Machine, turn_at};
use numa_mask::{NodeMask, Parts};
use numa_requests::PAGE_BYTES;
use numa_rules::{Explanation, OrderRule};
use numa_sheets::{Rectangle, Written, put_frame, put_node, share};
use numa_space::Space;
use std::alloc::{AllocError, Global};

/// The first column of pixels, the first row behind the title, and the pixels of a strip of turns.
const LEFT: u64 = 16;

const TOP: u64 = 68;

const STRIP: u64 = 888;

/// The nodes that stand side by side, the pixels from one to the next, and those of a row of them.
const ACROSS: u64 = 16;

const STEP: u64 = 56;

const ORDER_ROWS: u64 = 56;

/// The pixels of a node's box.
const WIDE: u64 = 40;

const HIGH: u64 = 28;

/// The rows of pixels of the strip of turns, and the most columns of one turn.
const TURN_ROWS: u64 = 80;

const TURN: u64 = 56;

/// The node by whose order all are sorted.
pub(crate) fn around(rule: OrderRule) -> u32 {
    match rule {
        OrderRule::Local(from) => from,
        OrderRule::Preferred(node) => u32::from(node),
        OrderRule::Bind(from) => from,
        OrderRule::PreferredMany(from) => from,
        OrderRule::Interleave(turn) => u32::from(turn.node),
        OrderRule::WeightedInterleave(turn) => u32::from(turn.node),
    }
}

/// Writes the title, and how the order is to be read; with `lies` where the page lies.
fn put_title(text: &mut Written, said: &Explanation, lies: Option<u8>) {
    text.put(b"<text x=\"16\" y=\"24\" font-size=\"14\">Where page ");
    text.put_address(said.page.saturating_mul(PAGE_BYTES));
    text.put_form(
        b" of task $ goes, touched on node $: the first of these nodes with room</text>\n",
        &[u64::from(said.task), u64::from(said.cpu)],
    );
    text.put_form(
        b"<text x=\"16\" y=\"44\" fill=\"#555555\">Below each node is its distance from node $",
        &[u64::from(around(said.rule))],
    );
    if let Some(node) = lies {
        text.put_form(b". The page lies on node $, which ", &[u64::from(node)]);
        let rank = rank_of(said.nodes.as_slice(), u32::from(node));
        text.put(if rank.is_some() {
            b"has a thick frame".as_slice()
        } else {
            b"isn't one of them"
        });
    }
    text.put(b"</text>\n");
}

/// The box of a place in the order.
fn box_of(place: u64) -> Rectangle {
    let (column, row) = (place % ACROSS, place / ACROSS);
    Rectangle {
        left: column.saturating_mul(STEP).saturating_add(LEFT),
        top: row.saturating_mul(ORDER_ROWS).saturating_add(TOP),
        width: WIDE,
        height: HIGH,
    }
}

/// Draws an arrow to a box.
fn put_arrow(text: &mut Written, place: Rectangle) {
    text.put_form(
        b"<path d=\"M$,$ l11,0 m-4,-4 l4,4 l-4,4\" fill=\"none\" stroke=\"#333333\"/>",
        &[
            place.left.saturating_sub(14),
            place.top.saturating_add(HIGH / 2),
        ],
    );
}

/// Writes a node's distance below its box.
fn put_below(text: &mut Written, place: Rectangle, distance: u64) {
    text.put_form(
        b"<text x=\"$\" y=\"$\" font-size=\"10\" text-anchor=\"middle\">$</text>",
        &[
            place.left.saturating_add(WIDE / 2),
            place.top.saturating_add(HIGH + 12),
            distance,
        ],
    );
}

/// Draws the node of a place in the order.
fn put_step(
    text: &mut Written,
    machine: &Machine,
    from: u32,
    node: u8,
    place: u64,
    lies: Option<u8>,
) {
    let spot = box_of(place);
    text.put_form(
        b"<g class=\"step\"><title>node $ is asked as number $</title>",
        &[u64::from(node), place.saturating_add(1)],
    );
    if place > 0 {
        put_arrow(text, spot);
    }
    put_node(text, spot, u64::from(node));
    if lies == Some(node) {
        put_frame(text, spot, b"lies");
    }
    if let Some(distance) = distance_of(machine, from, u32::from(node)) {
        put_below(text, spot, distance);
    }
    text.put(b"</g>\n");
}

/// Draws the nodes in order, and returns at which row of pixels that ends.
fn put_order(text: &mut Written, machine: &Machine, said: &Explanation, lies: Option<u8>) -> u64 {
    let from = around(said.rule);
    let mut place = 0u64;
    for node in said.nodes.as_slice() {
        put_step(text, machine, from, *node, place, lies);
        place = place.saturating_add(1);
    }
    box_of(place.saturating_add(ACROSS - 1)).top
}

/// The turn of a page: its place among how many, and whether nodes have as many as their weights.
#[derive(Clone, Copy)]
struct Turns {
    place: u64,
    total: u64,
    is_weighted: bool,
}

/// The turn of a page, if nodes take turns.
fn turns_of(rule: OrderRule) -> Option<Turns> {
    match rule {
        OrderRule::Interleave(turn) => Some(Turns {
            place: turn.place,
            total: turn.members,
            is_weighted: false,
        }),
        OrderRule::WeightedInterleave(turn) => Some(Turns {
            place: turn.place,
            total: turn.total,
            is_weighted: true,
        }),
        _ => None,
    }
}

/// The columns of pixels of the strip of turns.
fn strip_of(turns: Turns) -> u64 {
    turns.total.saturating_mul(TURN).min(STRIP)
}

/// Draws a node's turns, behind so many.
fn put_turn(text: &mut Written, turns: Turns, before: u64, count: u64, node: u8, top: u64) {
    let strip = strip_of(turns);
    let left = share(strip, before, turns.total);
    let behind = share(strip, before.saturating_add(count), turns.total);
    let place = Rectangle {
        left: left.saturating_add(LEFT),
        top,
        width: behind.saturating_sub(left),
        height: HIGH,
    };
    text.put_form(
        b"<g class=\"turn\"><title>node $ has $ of $ turns</title>",
        &[u64::from(node), count, turns.total],
    );
    put_node(text, place, u64::from(node));
    text.put(b"</g>\n");
}

/// Draws the turns of the nodes of a set, at a row of pixels.
fn put_members(text: &mut Written, space: &Space, turns: Turns, set: &NodeMask, top: u64) {
    let mut before = 0u64;
    for member in set.iter() {
        let node = member.number();
        let count = if turns.is_weighted {
            u64::from(space.weights().get(u32::from(node)))
        } else {
            1
        };
        put_turn(text, turns, before, count, node, top);
        before = before.saturating_add(count);
    }
}

/// Marks the page's turn, from a row of pixels on.
fn put_mark(text: &mut Written, turns: Turns, top: u64) {
    let middle = turns.place.saturating_mul(2).saturating_add(1);
    let column = share(strip_of(turns), middle, turns.total.saturating_mul(2));
    text.put_form(
        b"<path class=\"page\" d=\"M$,$ l6,9 l-12,0 z\" fill=\"#000000\"/>\n",
        &[column.saturating_add(LEFT), top],
    );
}

/// Draws whose turn it is, if nodes take turns, from a row of pixels on; returns at which it ends.
fn put_turns(text: &mut Written, space: &Space, said: &Explanation, top: u64) -> u64 {
    let (Some(turns), Some(policy)) = (turns_of(said.rule), &said.policy) else {
        return top;
    };
    text.put_form(
        b"<text x=\"16\" y=\"$\">The page has index $, and $ mod $ = $: the turn with the mark\
        </text>\n",
        &[
            top.saturating_add(16),
            turn_at(said.index),
            turn_at(said.index),
            turns.total,
            turns.place,
        ],
    );
    let strip = top.saturating_add(26);
    put_members(text, space, turns, &policy.effective(), strip);
    put_mark(text, turns, strip.saturating_add(HIGH + 2));
    top.saturating_add(TURN_ROWS)
}

/// The lines of an explanation as rows of text.
fn rows_of(alloc: Global, words: &[u8]) -> Result<Vec<u8>, AllocError> {
    let mut rows = Written::new(alloc);
    for line in Parts::new(words.strip_suffix(b"\n").unwrap_or(words), b'\n') {
        put_wrapped(&mut rows, 0, line, b"  ");
    }
    rows.take()
}

/// What stands below the title, and at which row of pixels it ends.
fn body_of(
    alloc: Global,
    space: &Space,
    said: &Explanation,
    lies: Option<u8>,
    rows: &[u8],
) -> Result<(Vec<u8>, u64), AllocError> {
    let mut text = Written::new(alloc);
    let machine = space.machine();
    let order_end = put_order(&mut text, machine, said, lies);
    let turns_end = put_turns(&mut text, space, said, order_end);
    let table_end = put_table(&mut text, machine, said, around(said.rule), turns_end);
    put_rows(&mut text, b"words", rows, table_end);
    let body = text.take()?;
    Ok((body, table_end.saturating_add(height_of_rows(rows))))
}

/// The picture of an explanation with this text; `lies` is the node on which the page lies, if it
/// is there.
///
/// # Errors
/// `AllocError`: out of memory.
pub(crate) fn picture_of(
    alloc: Global,
    space: &Space,
    said: &Explanation,
    lies: Option<u8>,
    words: &[u8],
) -> Result<Vec<u8>, AllocError> {
    let rows = rows_of(alloc, words)?;
    let made = body_of(alloc, space, said, lies, rows.as_slice());
    drop(rows);
    let (body, height) = made?;
    let mut text = Written::new(alloc);
    text.begin_picture(height);
    put_title(&mut text, said, lies);
    text.put(body.as_slice());
    drop(body);
    text.put(b"</svg>\n");
    text.take()
}
