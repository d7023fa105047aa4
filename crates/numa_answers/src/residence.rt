//! Where a page lies that is there, and how it comes there, as text or JSON.
use numa_mask::{NodeId, NodeMask, list_text};
use numa_reports::Coming;
use numa_requests::PAGE_BYTES;
use numa_rules::Text;
use numa_sheets::{Items, Object};
use numa_subjects::PagePlace;
use std::alloc::Global;

/// A page that is there: where it lies, and how it comes to that node.
#[derive(Clone, Copy)]
pub struct Residence<'a> {
    pub place: PagePlace,
    pub comings: &'a [Coming],
}

/// Writes the line that says where a page lies.
pub(crate) fn put_lies(text: &mut Text, page: u64, place: PagePlace) {
    text.put_hex("page ", page.saturating_mul(PAGE_BYTES));
    text.put_number(" is resident on node ", u64::from(place.node));
    if let Some(frame) = place.frame {
        text.put_number(", in frame ", u64::from(frame));
    }
    text.put("\n");
}

/// Whether the same nodes have to be full.
fn is_alike(one: &Option<NodeMask>, other: &Option<NodeMask>) -> bool {
    match (one, other) {
        (Some(one), Some(other)) => one == other,
        (None, None) => true,
        _ => false,
    }
}

/// The nodes from which a page comes with the same nodes full.
fn nodes_alike(comings: &[Coming], full: &Option<NodeMask>) -> NodeMask {
    let mut nodes = NodeMask::empty();
    for coming in comings {
        if let (true, Some(node)) = (is_alike(&coming.full, full), NodeId::new(coming.cpu)) {
            nodes.insert(node);
        }
    }
    nodes
}

/// Whether none of some has the same nodes full.
fn is_new(before: &[Coming], full: &Option<NodeMask>) -> bool {
    !before.iter().any(|one| is_alike(&one.full, full))
}

/// Writes words and a set of nodes.
fn put_nodes(text: &mut Text, words: &str, nodes: &NodeMask) {
    text.put(words);
    text.put(if nodes.weight() == 1 {
        " node "
    } else {
        " nodes "
    });
    text.put(list_text(nodes).as_str());
}

/// Writes how a page comes from some nodes.
fn put_coming(text: &mut Text, full: &Option<NodeMask>, nodes: &NodeMask) {
    match full {
        None => text.put("never"),
        Some(full) if full.is_empty() => text.put("first"),
        Some(full) => {
            put_nodes(text, "with", full);
            text.put(" full");
        }
    }
    put_nodes(text, " for a task on", nodes);
}

/// Writes the line that says how a page comes to a node.
pub(crate) fn put_comings(text: &mut Text, node: u8, comings: &[Coming]) {
    text.put_number("node ", u64::from(node));
    let mut words = ": ";
    for place in 0..comings.len() {
        let full = &comings[place].full;
        if is_new(&comings[..place], full) {
            text.put(words);
            put_coming(text, full, &nodes_alike(comings, full));
            words = "; ";
        }
    }
    text.put("\n");
}

/// The members of a set.
fn items_of(alloc: Global, set: &NodeMask) -> Items {
    let mut items = Items::new(alloc);
    for node in set.iter() {
        items.push_number(u64::from(node.number()));
    }
    items
}

/// From which nodes a page comes, and with which nodes full.
fn comings_of(alloc: Global, comings: &[Coming]) -> Items {
    let mut items = Items::new(alloc);
    for coming in comings {
        let mut object = Object::new(alloc);
        object.put_number("cpu", u64::from(coming.cpu));
        if let Some(full) = &coming.full {
            object.put_items("full", items_of(alloc, full));
        }
        items.push_object(object);
    }
    items
}

/// Adds where a page lies, and how it comes there.
pub(crate) fn put_residence(alloc: Global, object: &mut Object, residence: Residence<'_>) {
    let Residence { place, comings } = residence;
    let mut inner = Object::new(alloc);
    inner.put_number("node", u64::from(place.node));
    if let Some(frame) = place.frame {
        inner.put_number("frame", u64::from(frame));
    }
    inner.put_items("comings", comings_of(alloc, comings));
    object.put_object("resident", inner);
}
