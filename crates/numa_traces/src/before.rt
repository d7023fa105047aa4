//! Where pages lie before a trace.
ghost use Rattle.std.specs.Prelude.{◌≡◌};
ghost use Rattle.numa_traces.specs.Resting.{lies_in, lies_where, stated_in};

use numa_maps::Resident;
use numa_placed::{Placed, Spot};

/// Pages that lie somewhere before a trace: those that keep a frame, and those that were stated to
/// lie on a node, if any were. They stay there, and take nothing of the room that is left.
#[derive(Clone, Copy)]
pub struct Before<'a> {
    pub resident: &'a Resident,
    pub placed: Option<&'a Placed>,
}

impl Before<'_> {
    /// Where a page was stated to lie.
    fn stated(&self, page: u64) -> Spot
        ensures { result ≡ stated_in self.now page }
    {
        match self.placed {
            Some(placed) => placed.at(page),
            None => Spot::Nowhere,
        }
    }

    /// The node on which a page lies.
    fn node_of(&self, page: u64) -> Option<u8>
        ensures { result ≡ lies_in self.now page }
    {
        if let Some(placement) = self.resident.at(page) {
            return Some(placement.node);
        }
        self.stated(page).node()
    }
}

/// The node on which a page lies, where some may lie anywhere.
pub(crate) fn lies_where(before: &Option<Before<'_>>, page: u64) -> Option<u8>
    ensures { result ≡ lies_where before.now page }
{
    match before {
        Some(before) => before.node_of(page),
        None => None,
    }
}
