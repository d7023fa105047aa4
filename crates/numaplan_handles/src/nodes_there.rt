//! On which nodes the pages of an array lie.
ghost use Rattle.std.specs.Prelude.{◌≡◌, ◌<◌, ℕ, IsSomeAnd, MatchOption, None, Option, length};
ghost use Rattle.std.specs.Prelude.{slice_index};
ghost use Rattle.numa_huge.specs.Huge.{huge_at};
ghost use Rattle.numa_huge.specs.Moves.{HugeMemory};
ghost use Rattle.numa_placed.specs.Spots.{node_of, spot_at};
ghost use Rattle.numa_placed.specs.declared.spot.Spot.{Spot};
ghost use Rattle.numa_placed.specs.declared.spot.Spot.TheVariants.{Nowhere};
ghost use Rattle.numaplan_handles.specs.Hosted.{spots_with};
ghost use Rattle.numaplan_handles.specs.Pages.{IsNodeOr};

use numa_huge::HugePlaces;
use numa_placed::Placed;

/// The parts of 4 KiB of a page of 2 MiB.
const PARTS: u64 = 512;

/// The node on which a page of 4 KiB lies, if it lies on one; where nothing is kept, none does.
fn small_node(placed: Option<&Placed>, page: u64) -> Option<u8>
    ensures { (spots : ℕ → Spot) → MatchOption placed.entry ((p : ℕ) → spots p ≡ Nowhere)
        (λ it. (p : ℕ) → spot_at it.now p ≡ spots p) → result ≡ node_of (spots page) }
{
    match placed {
        Some(placed) => placed.at(page).node(),
        None => None,
    }
}

/// The same, or the node of the page of 2 MiB of which it is a part.
pub(crate) fn node_there(
    placed: Option<&Placed>,
    huge: Option<&HugePlaces>,
    page: u64,
) -> Option<u8>
    ensures { (spots : ℕ → Spot) (memory : Option HugeMemory)
        → MatchOption placed.entry ((p : ℕ) → spots p ≡ Nowhere)
        (λ it. (p : ℕ) → spot_at it.now p ≡ spots p)
        → MatchOption huge.entry (memory ≡ None) (λ it. IsSomeAnd memory
        (λ memory. huge_at it.now.runs ≡ memory.pages.spots))
        → result ≡ node_of (spots_with memory spots page) }
{
    let Some(places) = huge else {
        return small_node(placed, page);
    };
    match places.at(page / PARTS) {
        Some(spot) => spot.node(),
        None => small_node(placed, page),
    }
}

/// Writes the node on which each of these pages lies, or the mark for one that lies nowhere.
pub(crate) fn write_nodes(
    placed: Option<&Placed>,
    huge: Option<&HugePlaces>,
    numbers: &[u64],
    nowhere: u8,
    nodes: &mut [u8],
)
    requires { length numbers.now ≡ length nodes.old }
    ensures long { length nodes.new ≡ length nodes.old }
    ensures nodes { (spots : ℕ → Spot) (memory : Option HugeMemory) (k : ℕ)
        → MatchOption placed.entry ((p : ℕ) → spots p ≡ Nowhere)
        (λ it. (p : ℕ) → spot_at it.now p ≡ spots p)
        → MatchOption huge.entry (memory ≡ None) (λ it. IsSomeAnd memory
        (λ memory. huge_at it.now.runs ≡ memory.pages.spots)) → k < length numbers.now
        → IsNodeOr nowhere (spots_with memory spots) (slice_index numbers.now k)
        (slice_index nodes.new k) }
{
    for place in 0..numbers.len() {
        nodes[place] = node_there(placed, huge, numbers[place]).unwrap_or(nowhere);
    }
}
