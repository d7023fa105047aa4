//! Where a page lies.
ghost use Rattle.std.specs.Prelude.{◌≡◌};
ghost use Rattle.numa_placed.specs.Spots.{node_of};

use numa_ranges::Exact;

/// Where a page lies.
#[derive(Clone, Copy, Debug, PartialEq, Eq)]
pub enum Spot {
    /// On no node.
    Nowhere,
    /// On this node, as was stated, until it is stated to lie elsewhere, moved or forgotten.
    Stated(u8),
}

impl Spot {
    /// The node on which the page lies, if it lies on one.
    pub fn node(self) -> Option<u8>
        ensures { result ≡ node_of self }
    {
        match self {
            Spot::Nowhere => None,
            Spot::Stated(node) => Some(node),
        }
    }
}

impl Exact for Spot {
    ghost use Rattle.numa_placed.specs.Exact.{spot-exact};

    ghost exact = { spot-exact };

    /// Different nodes have different marks.
    fn mark(&self) -> u64 {
        match *self {
            Spot::Nowhere => 255,
            Spot::Stated(node) => u64::from(node),
        }
    }
}
