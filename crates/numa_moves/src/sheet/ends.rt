//! How many pages lie on each node before a line, and after it.

use crate::sums::{MoveSum, add};

/// The pages of each node before and after.
#[derive(Clone, Copy)]
pub(crate) struct Ends {
    pub(crate) nodes: u32,
    pub(crate) before: [u64; 256],
    pub(crate) after: [u64; 256],
}

/// The number of nodes with pages.
pub(crate) fn nodes_with(counts: &[u64; 256]) -> u64 {
    let mut count = 0u64;
    for pages in counts {
        if *pages > 0 {
            count = count.saturating_add(1);
        }
    }
    count
}

impl Ends {
    /// Adds the pages that lie on a node before.
    fn add(&mut self, sum: &MoveSum, node: u8) {
        let stayed = sum.stayed(node);
        let gone = sum.gone[node as usize];
        add(&mut self.before, node, stayed);
        add(&mut self.before, node, gone);
        add(&mut self.after, node, stayed);
        add(&mut self.after, sum.to[node as usize], gone);
    }

    /// The pages of a sum, on a machine with so many nodes.
    pub(crate) fn of(sum: &MoveSum, nodes: u32) -> Ends {
        let mut ends = Ends {
            nodes: nodes.min(256),
            before: [0; 256],
            after: [0; 256],
        };
        for node in 0..ends.nodes.min(256) {
            ends.add(sum, node as u8);
        }
        ends
    }
}
