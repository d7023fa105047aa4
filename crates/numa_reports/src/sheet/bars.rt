//! The bars of pictures: pages one by one, or by node.

use crate::sheet::fields::{PlacedPages, bytes};
use crate::sheet::nodes::NodePages;
use numa_sheets::{Rectangle, Written, put_hatched, put_node as put_box, share};

/// Draws a part of a bar in the colour of a node, with its number. Its title, which tells more
/// where the mouse points, was written before it.
pub(crate) fn put_part(text: &mut Written, place: Rectangle, node: u64) {
    put_box(text, place, node);
    text.put(b"</g>");
}

/// Draws the page of an address.
fn put_page(text: &mut Written, place: Rectangle, address: u64, node: u64) {
    text.put(b"<g><title>");
    text.put_address(address);
    text.put_form(b": node $</title>", &[node]);
    put_part(text, place, node);
}

/// Draws a cell for each page, from the address of the first on.
pub(crate) fn put_pages(text: &mut Written, whole: Rectangle, start: u64, nodes: &[u8]) {
    let count = nodes.len() as u64;
    let mut page = 0u64;
    for node in nodes {
        let left = share(whole.width, page, count);
        let behind = share(whole.width, page.saturating_add(1), count);
        let place = Rectangle {
            left: whole.left.saturating_add(left),
            width: behind.saturating_sub(left),
            ..whole
        };
        put_page(text, place, start.saturating_add(bytes(page)), *node as u64);
        page = page.saturating_add(1);
    }
}

/// Draws the pages of a node, of a bar with `all` pages of which `before` are drawn.
fn put_node(text: &mut Written, whole: Rectangle, before: u64, all: u64, one: NodePages) {
    let left = share(whole.width, before, all);
    let behind = share(whole.width, before.saturating_add(one.pages), all);
    let place = Rectangle {
        left: whole.left.saturating_add(left),
        width: behind.saturating_sub(left),
        ..whole
    };
    text.put_form(b"<g><title>node $: ", &[one.node]);
    text.put_amount(one.pages);
    text.put(b"</title>");
    put_part(text, place, one.node);
}

/// Draws the pages by node, and behind them those that find no free page.
pub(crate) fn put_nodes(text: &mut Written, whole: Rectangle, placed: PlacedPages<'_>) {
    let lacking = placed.lacking().unwrap_or(0);
    let all = placed.pages.saturating_add(lacking);
    let mut before = 0u64;
    for one in placed.nodes {
        put_node(text, whole, before, all, *one);
        before = before.saturating_add(one.pages);
    }
    if lacking == 0 {
        return;
    }
    let left = share(whole.width, before, all);
    let place = Rectangle {
        left: whole.left.saturating_add(left),
        width: whole.width.saturating_sub(left),
        ..whole
    };
    text.put(b"<g class=\"exhausted\"><title>no free page: ");
    text.put_amount(lacking);
    text.put(b"</title>");
    put_hatched(text, place);
    text.put(b"</g>");
}
