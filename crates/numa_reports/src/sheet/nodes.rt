//! Nodes, each with its pages.

use numa_sheets::Written;
use std::alloc::AllocError;

/// A number of pages of a node.
#[derive(Clone, Copy)]
pub(crate) struct NodePages {
    pub(crate) node: u64,
    pub(crate) pages: u64,
}

/// Replaces a list by the nodes that have pages, in ascending order.
pub(crate) fn list_nodes(nodes: &mut Vec<NodePages>, counts: &[u64]) -> Result<(), AllocError> {
    nodes.clear();
    for node in 0..counts.len() {
        let pages = counts[node];
        if pages > 0 {
            nodes.push(NodePages {
                node: node as u64,
                pages,
            })?;
        }
    }
    Ok(())
}

/// Writes each node with its pages.
pub(crate) fn put_nodes(text: &mut Written, nodes: &[NodePages]) {
    for one in nodes {
        text.put(b" N");
        text.put_number(one.node);
        text.put(b"=");
        text.put_number(one.pages);
    }
}
