//! Pages that lie on other nodes than those of a list.
ghost use Rattle.std.specs.Prelude.{◌≡◌, ◌+◌, ◌<◌, ◌^◌, IfNone, IfSome, MatchResult, None, Some, ℕ};
ghost use Rattle.std.specs.Prelude.{false, slice_index, true};
ghost use Rattle.numa_ranges.specs.Maps.{any_page};
ghost use Rattle.numa_placed.specs.Astray.{astray_cause, is_astray, is_other};
ghost use Rattle.numa_placed.specs.Turns.{AreKept, spots_of};

use crate::places::{Places, count_places};
use crate::spot::Spot;
use numa_mask::NodeMask;
use numa_requests::PlacedRefusal;

/// Whether a page lies on a node that isn't in the list.
pub(crate) fn is_astray(spot: Spot, list: &NodeMask) -> bool
    ensures { result ≡ is_astray list.now spot }
{
    match spot {
        Spot::Nowhere => false,
        Spot::Stated(node) => !list.has(node),
    }
}

/// Whether a node isn't in the list, and has pages.
fn is_other(list: &NodeMask, counts: &[u64; 256], node: u8) -> bool
    ensures { result ≡ is_other list.now (slice_index counts.now) node }
{
    !list.has(node) && 0 < counts[node as usize]
}

/// A node that isn't in the list, and has pages.
pub fn other_node(list: &NodeMask, counts: &[u64; 256]) -> Option<u8>
    ensures some { IfSome result (λ node. is_other list.now (slice_index counts.now) node ≡ true) }
    ensures none { IfNone result ((node : ℕ) → node < 256
        → is_other list.now (slice_index counts.now) node ≡ false) }
{
    for node in 0..256usize {
        let node = node as u8;
        if is_other(list, counts, node) {
            return Some(node);
        }
    }
    None
}

/// Whether some page of a span lies on a node that isn't in the list: by the nodes on which pages
/// of the span lie.
fn has_astray(places: &Places, first: u64, pages: u64, list: &NodeMask) -> bool
    requires kept { AreKept places.now }
    requires fits { first + pages < 2 ^ 64 }
    ensures { result ≡ any_page (λ page. is_astray list.now (spots_of places.now page)) first
        pages }
{
    // Tells the proof that no page from 2^35 on lies anywhere.
    let _ = places.map.iter();
    let end = (first + pages).min(1 << 35);
    if first >= end {
        return false;
    }
    let counts = count_places(places, first, end - first);
    match other_node(list, &counts) {
        Some(_node) => true,
        None => false,
    }
}

/// Refuses a list if some page of a span lies on a node that isn't in it.
pub(crate) fn judge_places(
    places: &Places,
    first: u64,
    pages: u64,
    list: &NodeMask,
) -> Result<(), PlacedRefusal>
    requires kept { AreKept places.now }
    requires fits { first + pages < 2 ^ 64 }
    ensures { MatchResult result
        (λ done. astray_cause (spots_of places.now) first pages list.now ≡ None)
        (λ cause. astray_cause (spots_of places.now) first pages list.now ≡ Some cause) }
{
    if has_astray(places, first, pages, list) {
        return Err(PlacedRefusal::Astray);
    }
    Ok(())
}
