//! How many pages go from each node to each other.

/// The pages that go from each node to each, those of them that were reported already, and the
/// number of nodes.
#[derive(Clone, Copy)]
pub(crate) struct NodeMoves<'a> {
    table: &'a [u64],
    told: &'a [u64],
    pub(crate) nodes: u32,
}

impl<'a> NodeMoves<'a> {
    /// Without those that were reported.
    pub(crate) fn new(table: &'a [u64], told: &'a [u64], nodes: u32) -> NodeMoves<'a> {
        NodeMoves { table, told, nodes }
    }

    /// All of them.
    pub(crate) fn all(table: &'a [u64], nodes: u32) -> NodeMoves<'a> {
        NodeMoves::new(table, &[], nodes)
    }

    /// The number of pages that go from a node to another.
    pub(crate) fn between(&self, from: u32, to: u32) -> u64 {
        let place = from as usize * 256 + to as usize;
        let Some(pages) = self.table.get(place) else {
            return 0;
        };
        match self.told.get(place) {
            Some(before) => pages.saturating_sub(*before),
            None => *pages,
        }
    }

    /// The number of pages that go from a node to another one.
    fn moved_from(&self, from: u32) -> u64 {
        let mut sum = 0u64;
        for to in 0..self.nodes {
            if from != to {
                sum = sum.saturating_add(self.between(from, to));
            }
        }
        sum
    }

    /// The number of pages that go to another node.
    pub(crate) fn moved(&self) -> u64 {
        let mut sum = 0u64;
        for from in 0..self.nodes {
            sum = sum.saturating_add(self.moved_from(from));
        }
        sum
    }
}
