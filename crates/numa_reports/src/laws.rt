//! Laws about the definitions that the contracts of this crate cite. The functions do nothing: what
//! each one ensures is a law.
ghost use Rattle.std.specs.Prelude.{◌≡◌, ◌≢◌, ◌+◌, ◌-◌, ◌<◌, ◌≤◌, ◌^◌, ℕ, List, Some};
ghost use Rattle.std.specs.Prelude.{slice_index};
ghost use Rattle.numa_placed.specs.Binds.{bound_spots, first_with_room, room_before};
ghost use Rattle.numa_placed.specs.Shifts.{endless};
ghost use Rattle.numa_placed.specs.Spots.{is_on, pages_within};
ghost use Rattle.numa_placed.specs.declared.spot.Spot.{Spot};
ghost use Rattle.numa_reports.specs.Comings.{AreFull, set_before};
ghost use Rattle.numa_reports.specs.Filled.{first_free, free_behind};
ghost use Rattle.numa_reports.specs.Lying.{absent_nodes, touched};

/// A prediction with free pages is what first touches of all pages make of as much room: each page
/// goes to the same node, and as many pages are free of a node then as it has room, where it has
/// any limit. Of each span as many pages lie on a node then as a prediction counts: those that are
/// there, and as many as it has fewer free.
pub fn free_pages_are_rooms()
    ensures nodes { (nodes : ℕ → List ℕ) (spots : ℕ → Spot) (free : List ℕ) (page : ℕ)
        → page ≤ 2 ^ 35
        → first_free (free_behind (absent_nodes spots nodes) free 0 page) (nodes page)
        ≡ first_with_room (room_before (touched nodes) spots (slice_index free) page)
        (nodes page) }
    ensures left { (nodes : ℕ → List ℕ) (spots : ℕ → Spot) (free : List ℕ) (node : ℕ)
        → slice_index free node < endless
        → slice_index (free_behind (absent_nodes spots nodes) free 0 (2 ^ 35)) node
        ≡ room_before (touched nodes) spots (slice_index free) (2 ^ 35) node }
    ensures counts { (nodes : ℕ → List ℕ) (spots : ℕ → Spot) (free : List ℕ)
        (node first pages : ℕ) → first + pages ≤ 2 ^ 35
        → pages_within (is_on node) (bound_spots (touched nodes) spots (slice_index free)) first
        pages ≡ pages_within (is_on node) spots first pages
        + (slice_index (free_behind (absent_nodes spots nodes) free 0 first) node
        - slice_index (free_behind (absent_nodes spots nodes) free 0 (first + pages)) node) }
{}

/// A page comes to a node of its list exactly where those before it are full and the node itself
/// isn't.
pub fn pages_come_where_nodes_fill()
    ensures comes { (nodes : List ℕ) (node set : ℕ) (room : ℕ → ℕ)
        → set_before node nodes 0 ≡ Some set → AreFull set room → room node ≢ 0
        → first_with_room room nodes ≡ Some node }
    ensures needs { (nodes : List ℕ) (node : ℕ) (room : ℕ → ℕ)
        → first_with_room room nodes ≡ Some node
        → (room node ≢ 0) × (set : ℕ) × (set_before node nodes 0 ≡ Some set)
        × AreFull set room }
{}
