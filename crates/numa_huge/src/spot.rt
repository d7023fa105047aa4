//! What is known of a page of 2 MiB.
ghost use Rattle.std.specs.Prelude.{◌≡◌, Some};
ghost use Rattle.numa_huge.specs.Huge.{fresh_spot, has_reserved, node_of};

use numa_ranges::Exact;

/// What is known of a page of 2 MiB that is mapped.
#[derive(Clone, Copy, Debug, PartialEq, Eq)]
pub enum HugeSpot {
    /// It wasn't touched yet, and no page is reserved for it.
    Bare,
    /// It wasn't touched yet, and a free page is reserved for it.
    Reserved,
    /// It lies on this node.
    On(u8),
}

impl HugeSpot {
    /// A page that was mapped, with a reservation or without one.
    pub fn fresh(reserves: bool) -> HugeSpot
        ensures { result ≡ fresh_spot reserves }
    {
        if reserves {
            return HugeSpot::Reserved;
        }
        HugeSpot::Bare
    }

    /// The node on which the page lies, if it lies on one.
    pub fn node(self) -> Option<u8>
        ensures { result ≡ node_of (Some self) }
    {
        match self {
            HugeSpot::Bare => None,
            HugeSpot::Reserved => None,
            HugeSpot::On(node) => Some(node),
        }
    }

    /// Whether a free page is reserved for it.
    pub fn is_reserved(self) -> bool
        ensures { result ≡ has_reserved (Some self) }
    {
        match self {
            HugeSpot::Bare => false,
            HugeSpot::Reserved => true,
            HugeSpot::On(_) => false,
        }
    }
}

impl Exact for HugeSpot {
    ghost use Rattle.numa_huge.specs.Exact.{spot-exact};

    ghost exact = { spot-exact };

    /// Different nodes have different marks.
    fn mark(&self) -> u64 {
        match *self {
            HugeSpot::Bare => 256,
            HugeSpot::Reserved => 257,
            HugeSpot::On(node) => node as u64,
        }
    }
}
