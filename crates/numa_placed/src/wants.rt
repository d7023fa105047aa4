//! Which pages are to go.
ghost use Rattle.std.specs.Prelude.{◌≡◌, ◌<◌, ◌≤◌, ◌^◌, ℕ, IfSome, false};
ghost use Rattle.numa_placed.specs.Binds.{is_absent, wants_of};
ghost use Rattle.numa_placed.specs.Turns.{IsNamed, turn_node};
ghost use Rattle.numa_placed.specs.declared.spot.Spot.TheVariants.{Nowhere, Stated};

use crate::astray::is_astray;
use crate::spot::Spot;
use crate::turn::{Turn, turn_node};
use numa_maps::Resident;
use numa_mask::NodeMask;

/// Which pages are to go, by where they lie.
#[derive(Clone, Copy)]
pub(crate) enum Wants<'a> {
    /// Those that lie on a node that isn't in the list.
    Astray(&'a NodeMask),
    /// Those that lie nowhere, but those that keep a frame.
    Absent(&'a Resident),
}

/// Whether a page is nowhere: it keeps no frame either.
fn is_absent(page: u64, spot: Spot, resident: &Resident) -> bool
    ensures { result ≡ is_absent resident.now page spot }
{
    match spot {
        Spot::Nowhere => resident.at(page).is_none(),
        Spot::Stated(_) => false,
    }
}

impl<'a> Wants<'a> {
    /// Whether a page that lies here is to go.
    pub(crate) fn takes(&self, page: u64, spot: Spot) -> bool
        ensures { result ≡ wants_of self.now page spot }
    {
        match *self {
            Wants::Astray(list) => is_astray(spot, list),
            Wants::Absent(resident) => is_absent(page, spot, resident),
        }
    }

    /// Whether any page that lies here may be to go.
    pub(crate) fn may_take(&self, spot: Spot) -> bool
        ensures { result ≡ false → (page : ℕ) → wants_of self.now page spot ≡ false }
    {
        match *self {
            Wants::Astray(list) => is_astray(spot, list),
            Wants::Absent(_) => spot.node().is_none(),
        }
    }

    /// Whether any page that lies on a node without a frame may be to go.
    fn may_take_placed(&self) -> bool
        ensures { result ≡ false → (page node : ℕ)
            → wants_of self.now page (Stated node) ≡ false }
    {
        match *self {
            Wants::Astray(_) => true,
            Wants::Absent(_) => false,
        }
    }

    /// The first of the pages from one on up to another, which lie by a cycle, that may be to go:
    /// the end, if none is.
    pub(crate) fn first_in_turn(&self, nodes: &[u8], turn: Turn, page: u64, to: u64) -> u64
        requires named { IsNamed nodes.now turn }
        requires rises { page ≤ to }
        requires within { to ≤ 2 ^ 35 }
        ensures rises { page ≤ result }
        ensures within { result ≤ to }
        ensures stay { (p : ℕ) → page ≤ p → p < result
            → wants_of self.now p (Stated (turn_node nodes.now turn p)) ≡ false }
    {
        if !self.may_take_placed() {
            return to;
        }
        for passed in 0..u64::from(turn.count) {
            if page + passed >= to {
                return to;
            }
            let node = turn_node(nodes, turn, page + passed);
            if self.may_take(Spot::Stated(node)) {
                return page + passed;
            }
        }
        to
    }

    /// The record of the pages that keep frames, where all others that lie here are to go, and
    /// these lie nowhere.
    pub(crate) fn absent(&self, spot: Spot) -> Option<&'a Resident>
        ensures nowhere { IfSome result (λ resident. spot ≡ Nowhere) }
        ensures wants { IfSome result (λ resident. (page : ℕ)
            → wants_of self.now page spot ≡ is_absent resident.now page spot) }
    {
        let Wants::Absent(resident) = *self else {
            return None;
        };
        match spot {
            Spot::Nowhere => Some(resident),
            Spot::Stated(_) => None,
        }
    }
}
