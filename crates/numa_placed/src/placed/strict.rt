//! Lists of nodes on which pages have to lie.
ghost use Rattle.std.specs.Prelude.{◌≡◌, MatchResult, None, Some};
ghost use Rattle.numa_ranges.specs.Runs.{page_at};
ghost use Rattle.numa_placed.specs.Astray.{strict_cause, strict_cause_by};
ghost use Rattle.numa_placed.specs.Spots.{spot_at};

use crate::areas::judged_pages;
use crate::astray::judge_places;
use crate::placed::Placed;
use crate::spans::{span_by, span_of};
use numa_mask::NodeMask;
use numa_requests::PlacedRefusal;
use numa_space::Space;

impl Placed {
    /// Refuses to set a policy of this list for a span where pages lie on other nodes, as mbind(2)
    /// does with MPOL_MF_STRICT. Pages that lie nowhere don't count. Of `DEFAULT`, `LOCAL` and
    /// `PREFERRED` without nodes the list is empty. Start and length are in bytes.
    ///
    /// # Errors
    /// The first of these that applies: `Unaligned`, `OutOfSpace`, `Astray`, as [`PlacedRefusal`]
    /// says.
    pub fn judge_strict(
        &self,
        start: u64,
        length: u64,
        list: &NodeMask,
    ) -> Result<(), PlacedRefusal>
        ensures { MatchResult result
            (λ done. strict_cause (spot_at self.now) start length list.now ≡ None)
            (λ refusal. strict_cause (spot_at self.now) start length list.now ≡ Some refusal) }
    {
        let (first, pages) = span_of(start, length)?;
        judge_places(&self.places, first, pages, list)
    }

    /// Refuses it as `judge_strict` does, but looks only at the pages that are judged by the rules
    /// of the space's machine before a hole in the span is told
    /// ([`judged_pages`](crate::judged_pages)).
    ///
    /// # Errors
    /// As those of `judge_strict`.
    pub fn judge_strict_by(
        &self,
        space: &Space,
        start: u64,
        length: u64,
        list: &NodeMask,
    ) -> Result<(), PlacedRefusal>
        ensures { MatchResult result
            (λ done. strict_cause_by space.now.machine.rules (page_at space.now.ranges)
            (spot_at self.now) start length list.now ≡ None)
            (λ refusal. strict_cause_by space.now.machine.rules (page_at space.now.ranges)
            (spot_at self.now) start length list.now ≡ Some refusal) }
    {
        let (first, pages) = span_by(space.machine().rules(), start, length)?;
        let judged = judged_pages(space, first, pages);
        judge_places(&self.places, first, judged, list)
    }
}
