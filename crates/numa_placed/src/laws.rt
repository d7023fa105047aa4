//! Laws about the definitions that the contracts of this crate cite. The functions do nothing: what
//! each one ensures is a law.
ghost use Rattle.std.specs.Prelude.{◌≡◌, ◌≢◌, ◌+◌, ◌-◌, ◌<◌, ◌≤◌, ◌^◌, ℕ, true, false, not};
ghost use Rattle.std.specs.Prelude.{None, Some, is_some, slice_get};
ghost use Rattle.numa_mask.specs.NodeSet.{has, weight_of};
ghost use Rattle.numa_machine.specs.declared.rules.Rules.TheVariants.{Linux};
ghost use Rattle.numa_ranges.specs.Counts.{is_start};
ghost use Rattle.numa_ranges.specs.Maps.{any_page};
ghost use Rattle.numa_space.specs.Refusals.{PageMap};
ghost use Rattle.numa_space.specs.Same.{same_record};
ghost use Rattle.numa_placed.specs.Astray.{is_astray, judged_pages};
ghost use Rattle.numa_ranges.specs.Runs.{in_pages, page_at};
ghost use Rattle.numa_space.specs.Standing.{SpaceState};
ghost use Rattle.numa_maps.specs.Residents.{Kept, placed_at};
ghost use Rattle.numa_placed.specs.Binds.{Asked, bound_spots, first_with_room, goals, nodes_in};
ghost use Rattle.numa_placed.specs.Binds.{room_before, touched_in};
ghost use Rattle.numa_placed.specs.Moves.{moved_node, moved_spot};
ghost use Rattle.numa_placed.specs.Shifts.{endless, is_short, rooms_between, shifted, stated_on};
ghost use Rattle.numa_placed.specs.Spots.{is_placed, pages_where, run_count};
ghost use Rattle.numa_placed.specs.declared.spot.Spot.{Spot};
ghost use Rattle.numa_placed.specs.declared.spot.Spot.TheVariants.{Nowhere, Stated};

/// Pages go from the old set to the new one. Those of a node that the new set has stay where they
/// are unless the sets have as many nodes; those of a node that the old set lacks stay too, and
/// where the two sets are one, all do.
pub fn moved_nodes()
    ensures into { (old new node : ℕ) → has old node ≡ true → new ≢ 0 → new < 2 ^ 256
        → has new (moved_node old new node) ≡ true }
    ensures stays { (old new node : ℕ) → weight_of old ≢ weight_of new → has new node ≡ true
        → moved_node old new node ≡ node }
    ensures outside { (old new node : ℕ) → has old node ≡ false → moved_node old new node ≡ node }
    ensures same { (set node : ℕ) → node < 256 → moved_node set set node ≡ node }
{}

/// A move keeps the number of pages that lie somewhere, and never makes more runs of them.
pub fn moves_keep_pages()
    ensures pages { (old new : ℕ → Spot) (go : ℕ → ℕ)
        → ((page : ℕ) → new page ≡ moved_spot go (old page))
        → pages_where is_placed new ≡ pages_where is_placed old }
    ensures runs { (old new : ℕ → Spot) (go : ℕ → ℕ)
        → ((page : ℕ) → new page ≡ moved_spot go (old page))
        → run_count new ≤ run_count old }
{}

/// A move as far as there is room loses no page either, and pages of a node that the new set has
/// stay unless the sets have as many nodes.
pub fn moves_within_rooms()
    ensures pages { (spots : ℕ → Spot) (old new : ℕ) (room : ℕ → ℕ)
        → pages_where is_placed (shifted spots old new room) ≡ pages_where is_placed spots }
    ensures stays { (spots : ℕ → Spot) (old new : ℕ) (room : ℕ → ℕ) (page node : ℕ)
        → weight_of old ≢ weight_of new → has new node ≡ true → spots page ≡ Stated node
        → shifted spots old new room page ≡ Stated node }
{}

/// A policy's list loses no page by moving them, and those that lie on its nodes stay. Where no
/// node fills, each of the others goes to the first node of its own list.
pub fn bindings_keep_pages()
    ensures pages { (asked : Asked) (spots : ℕ → Spot) (room : ℕ → ℕ)
        → ((page : ℕ) → asked.wants page Nowhere ≡ false)
        → pages_where is_placed (bound_spots asked spots room) ≡ pages_where is_placed spots }
    ensures stays { (asked : Asked) (spots : ℕ → Spot) (room : ℕ → ℕ) (page : ℕ)
        → asked.wants page (spots page) ≡ false
        → bound_spots asked spots room page ≡ spots page }
    ensures endless { (asked : Asked) (spots : ℕ → Spot) (page : ℕ)
        → goals asked spots (λ node. endless) page ≡ slice_get (asked.nodes page) 0 }
{}

/// A page that a task touches first is nowhere and keeps no frame, and goes to the first node of
/// its own list that has room by then; where no node has, it stays nowhere. Where no node fills,
/// that is the first node of its list.
pub fn touches_place_pages()
    ensures placed { (space : SpaceState) (kept : Kept) (first pages task cpu page node : ℕ)
        (spots : ℕ → Spot) (room : ℕ → ℕ) → in_pages first pages page ≡ true
        → spots page ≡ Nowhere → placed_at kept page ≡ None
        → first_with_room (room_before (touched_in space kept first pages task cpu) spots room page)
        (nodes_in space task cpu page) ≡ Some node
        → bound_spots (touched_in space kept first pages task cpu) spots room page ≡ Stated node }
    ensures stays { (space : SpaceState) (kept : Kept) (first pages task cpu page : ℕ)
        (spots : ℕ → Spot) (room : ℕ → ℕ)
        → is_placed (spots page) ≡ true → bound_spots (touched_in space kept first pages task cpu)
        spots room page ≡ spots page }
    ensures mapped { (space : SpaceState) (kept : Kept) (first pages task cpu page : ℕ)
        (spots : ℕ → Spot) (room : ℕ → ℕ) → page_at space.ranges page ≡ None
        → bound_spots (touched_in space kept first pages task cpu) spots room page ≡ spots page }
    ensures endless { (space : SpaceState) (kept : Kept) (first pages task cpu page : ℕ)
        (spots : ℕ → Spot) → goals (touched_in space kept first pages task cpu) spots
        (λ node. endless) page ≡ slice_get (nodes_in space task cpu page) 0 }
{}

/// Between two moments at which its room was stated, the room of a node that fills and its pages
/// without a frame stay as many together: by stating and forgetting where pages lie, by first
/// touches, and by moves of pages by their policy.
pub fn rooms_keep_pace()
    ensures stated { (room : ℕ → ℕ) (before after : ℕ → Spot) (node : ℕ)
        → room node + stated_on before node < endless
        → is_short room before after node ≡ false
        → rooms_between room before after node + stated_on after node
        ≡ room node + stated_on before node }
    ensures walked { (asked : Asked) (spots : ℕ → Spot) (room : ℕ → ℕ) (node : ℕ)
        → room node + 2 ^ 35 < endless
        → room_before asked spots room (2 ^ 35) node
        + stated_on (bound_spots asked spots room) node ≡ room node + stated_on spots node }
{}

/// The kernel judges all pages of a span without a hole, as the documents do. Else it judges those,
/// all mapped, before the last page in front of the hole where a range begins; none, if no range
/// begins there behind the span's first page.
pub fn judged_before_a_hole()
    ensures whole { (map : PageMap) (first n : ℕ)
        → any_page (λ page. not (is_some (map page))) first n ≡ false
        → judged_pages Linux map first n ≡ n }
    ensures mapped { (map : PageMap) (first n page : ℕ) → first ≤ page
        → page < first + judged_pages Linux map first n → is_some (map page) ≡ true }
    ensures starts { (map : PageMap) (first n : ℕ) → 0 < judged_pages Linux map first n
        → judged_pages Linux map first n < n
        → is_start same_record map (first + judged_pages Linux map first n) ≡ true }
    ensures last { (map : PageMap) (first n page : ℕ) → judged_pages Linux map first n < n
        → first + judged_pages Linux map first n < page → page < first + n
        → any_page (λ p. not (is_some (map p))) first (page + 1 - first) ≡ false
        → is_start same_record map page ≡ false }
{}
