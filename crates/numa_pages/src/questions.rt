//! What is read from where pages lie, of both sizes.
ghost use Rattle.std.specs.Prelude.{◌≡◌, ◌≢◌, ◌+◌, ◌*◌, ◌<◌, ◌≤◌, ◌^◌, ℕ, MatchOption, None};
ghost use Rattle.std.specs.Prelude.{Option, Some, slice_index};
ghost use Rattle.numa_placed.specs.Spots.{node_of, spot_at};
ghost use Rattle.numa_huge.specs.Huge.{node_of as huge_node, on_node, pages_of, places_of};
ghost use Rattle.numa_page_state.specs.Huge.{spot_of};
ghost use Rattle.numa_placed.specs.Shifts.{AreRooms};
ghost use Rattle.numa_page_state.specs.Outcomes.{rooms_of};
ghost use Rattle.numa_page_state.specs.Standing.{IsLastShift};
ghost use Rattle.numa_pages.specs.Changes.{IsLast, may_fill, shift_of};
ghost use Rattle.numa_pages.specs.Sizes.{both_on, both_spots};

use numa_huge::{HugeArrived, HugePlaces, HugeSpot};
use numa_page_state::{Arrived, Last, PageState, Shift, add};
use numa_placed::{Moved, Placed, Rooms, Spot, Stay};

/// The parts of 4 KiB of a page of 2 MiB.
const PARTS: u64 = 512;

/// The number of pages of 2 MiB below address 2^47.
const MOST_HUGE: u64 = 1 << 26;

/// The number of pages of 4 KiB below it.
const MOST_SMALL: u64 = 1 << 35;

/// How many more pages a node takes.
pub(crate) fn room_at(rooms: Option<&Rooms>, node: u8) -> u64
    ensures { (room : Option (ℕ → ℕ)) → MatchOption rooms.entry (room ≡ None)
        (λ it. (given : ℕ → ℕ) × (room ≡ Some given) × AreRooms it.now given)
        → result ≡ rooms_of room node }
{
    match rooms {
        None => u64::MAX,
        Some(it) => it.at(node).unwrap_or(u64::MAX),
    }
}

/// Whether a node may fill: none does before a room is said.
pub(crate) fn may_fill(state: &PageState) -> bool
    ensures { result ≡ may_fill state.now }
{
    match state.rooms() {
        None => false,
        Some(_) => true,
    }
}

/// What went where in the last move, of which so many pages are told.
pub(crate) fn last_moved(state: &PageState, _shift: Shift) -> Moved
    requires { IsLastShift state.now.last _shift }
    ensures last { IsLast state.now result }
    ensures shift { shift_of result ≡ _shift }
{
    let Last::Nodes(moved) = state.last() else {
        unreachable!()
    };
    *moved
}

/// The parts of 4 KiB of so many pages of 2 MiB on each node.
fn parts_on(pages: [u64; 256]) -> [u64; 256]
    requires { (node : ℕ) → node < 256 → slice_index pages node ≤ 2 ^ 35 }
    ensures { (node : ℕ) → node < 256 → slice_index result node ≡ 512 * slice_index pages node }
{
    let mut parts = pages;
    for node in 0..256usize {
        parts[node] *= PARTS;
    }
    parts
}

/// The node on which a page lies: one of 4 KiB, or the one of 2 MiB of which it is a part.
pub(crate) fn node_of(placed: &Placed, huge: &HugePlaces, page: u64) -> Option<u8>
    ensures { result ≡ node_of (both_spots (places_of huge.now) (spot_at placed.now) page) }
{
    match huge.at(page / PARTS) {
        Some(spot) => spot.node(),
        None => placed.at(page).node(),
    }
}

/// The number of pages of 4 KiB on each node, of which one of 2 MiB is 512, where so many have
/// 4 KiB.
pub fn counts_with(small: &[u64; 256], huge: &HugePlaces) -> [u64; 256]
    requires { (node : ℕ) → node < 256 → slice_index small.now node ≤ 2 ^ 35 }
    ensures { (node : ℕ) → node < 256 → slice_index result node
        ≡ 512 * pages_of (on_node node) (places_of huge.now).spots + slice_index small.now node }
{
    let large = huge.counts_in(0, MOST_HUGE);
    add(parts_on(large.on), small)
}

/// The number of pages of 4 KiB on each node, of which one of 2 MiB is 512.
pub(crate) fn counts_of(placed: &Placed, huge: &HugePlaces) -> [u64; 256]
    ensures { (node : ℕ) → node < 256 → slice_index result node
        ≡ both_on (places_of huge.now) (spot_at placed.now) node }
{
    counts_with(&placed.counts(), huge)
}

/// Where a page of 2 MiB lies, as those of 4 KiB.
fn spot_of(spot: HugeSpot) -> Spot
    ensures { result ≡ spot_of (huge_node (Some spot)) }
{
    match spot.node() {
        Some(node) => Spot::Stated(node),
        None => Spot::Nowhere,
    }
}

/// Where a page lies, and the end of some from it on that lie there.
fn some_stay(placed: &Placed, huge: &HugePlaces, page: u64) -> Stay
    requires near { page < 2 ^ 35 }
    ensures spot { result.spot ≡ both_spots (places_of huge.now) (spot_at placed.now) page }
    ensures end { (page < result.end) × (result.end ≤ 2 ^ 35) }
    ensures alike { (p : ℕ) → page ≤ p → p < result.end
        → both_spots (places_of huge.now) (spot_at placed.now) p ≡ result.spot }
{
    let of = page / PARTS;
    if let Some(spot) = huge.at(of) {
        return Stay {
            spot: spot_of(spot),
            end: (of + 1) * PARTS,
        };
    }
    let stay = placed.stay_at(page);
    let next = huge.next_mapped(of + 1, MOST_HUGE) * PARTS;
    Stay {
        spot: stay.spot,
        end: stay.end.min(next),
    }
}

/// Where a page lies, and up to where those behind it lie there too.
pub(crate) fn stay_of(placed: &Placed, huge: &HugePlaces, page: u64) -> Stay
    requires near { page < 2 ^ 35 }
    ensures spot { result.spot ≡ both_spots (places_of huge.now) (spot_at placed.now) page }
    ensures rises { page < result.end }
    ensures within { result.end ≤ 2 ^ 35 }
    ensures alike { (p : ℕ) → page ≤ p → p < result.end
        → both_spots (places_of huge.now) (spot_at placed.now) p ≡ result.spot }
    ensures ends { result.end < 2 ^ 35
        → both_spots (places_of huge.now) (spot_at placed.now) result.end ≢ result.spot }
{
    let first = some_stay(placed, huge, page);
    let spot = first.spot;
    let mut end = first.end;
    while end < MOST_SMALL {
        let next = some_stay(placed, huge, end);
        if next.spot != spot {
            return Stay { spot, end };
        }
        end = next.end;
    }
    Stay { spot, end }
}

/// What a move did to pages of both sizes, each counted once.
pub(crate) fn sum_of(small: &Moved, huge: &Moved) -> Moved
    requires moved { small.now.moved ≤ 2 ^ 62 }
    requires huge_moved { huge.now.moved ≤ 2 ^ 62 }
    requires from { (node : ℕ) → node < 256 → slice_index small.now.from node ≤ 2 ^ 62 }
    requires huge_from { (node : ℕ) → node < 256 → slice_index huge.now.from node ≤ 2 ^ 35 }
    ensures moved { result.moved ≡ small.now.moved + huge.now.moved }
    ensures left { result.left ≡ small.now.left }
    ensures from { (node : ℕ) → node < 256 → slice_index result.from node
        ≡ slice_index small.now.from node + slice_index huge.now.from node }
    ensures to { result.to ≡ small.now.to }
{
    Moved {
        moved: small.moved + huge.moved,
        left: small.left,
        from: add(small.from, &huge.from),
        to: small.to,
    }
}

/// What first touches did to pages of both sizes, each counted once.
pub(crate) fn arrived_in(small: &Arrived, huge: &HugeArrived) -> Arrived
    requires placed { small.now.placed ≤ 2 ^ 62 }
    requires exhausted { small.now.exhausted ≤ 2 ^ 62 }
    requires on { (node : ℕ) → node < 256 → slice_index small.now.on node ≤ 2 ^ 62 }
    requires huge_placed { huge.now.placed ≤ 2 ^ 35 }
    requires huge_exhausted { huge.now.exhausted ≤ 2 ^ 35 }
    requires huge_on { (node : ℕ) → node < 256 → slice_index huge.now.on node ≤ 2 ^ 35 }
    ensures placed { result.placed ≡ small.now.placed + huge.now.placed }
    ensures exhausted { result.exhausted ≡ small.now.exhausted + huge.now.exhausted }
    ensures on { (node : ℕ) → node < 256 → slice_index result.on node
        ≡ slice_index small.now.on node + slice_index huge.now.on node }
{
    Arrived {
        placed: small.placed + huge.placed,
        exhausted: small.exhausted + huge.exhausted,
        on: add(small.on, &huge.on),
    }
}
