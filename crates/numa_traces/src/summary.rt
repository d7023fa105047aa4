//! Sums of the accesses of a task, or of all.
use crate::mean::mean_of;
use crate::tallies::AccessCounts;

/// The accesses of a task, or of all.
#[derive(Drop)]
pub(crate) struct Summary {
    /// The number of accesses.
    pub(crate) accesses: u64,
    /// The number that went to a page on each node.
    pub(crate) nodes: [u64; 256],
    /// The number that went to a page at each distance from the CPU's node.
    pub(crate) distances: [u64; 256],
    /// The number of faults that placed a page.
    pub(crate) placed: u64,
    /// The number of faults that found no frame.
    pub(crate) exhausted: u64,
    /// The number of accesses that therefore went nowhere.
    pub(crate) unserved: u64,
}

impl Summary {
    /// No accesses.
    pub(crate) fn new() -> Summary {
        Summary {
            accesses: 0,
            nodes: [0; 256],
            distances: [0; 256],
            placed: 0,
            exhausted: 0,
            unserved: 0,
        }
    }

    /// Adds accesses to pages on a node at a distance, or to pages that found no frame.
    pub(crate) fn add(&mut self, place: Option<(u8, u8)>, tally: &AccessCounts) {
        self.accesses = self.accesses.saturating_add(tally.accesses);
        let Some((node, distance)) = place else {
            self.unserved = self.unserved.saturating_add(tally.accesses);
            self.exhausted = self.exhausted.saturating_add(tally.faults);
            return;
        };
        let (node, far) = (node as usize, distance as usize);
        self.nodes[node] = self.nodes[node].saturating_add(tally.accesses);
        self.distances[far] = self.distances[far].saturating_add(tally.accesses);
        self.placed = self.placed.saturating_add(tally.faults);
    }

    /// The mean distance of the accesses that went to a page, in thousandths; `None` without any.
    pub(crate) fn mean(&self) -> Option<u64> {
        mean_of(&self.distances)
    }
}
