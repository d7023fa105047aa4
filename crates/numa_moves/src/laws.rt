//! Laws about the definitions that the contracts of this crate cite. The functions do nothing: what
//! each one ensures is a law.
ghost use Rattle.std.specs.Prelude.{◌≡◌, ℕ, List, None, Some, false, true};
ghost use Rattle.numa_mask.specs.NodeSet.{both};
ghost use Rattle.numa_maps.specs.Residents.{Kept};
ghost use Rattle.numa_page_state.specs.Lying.{Ground, Lying, motion};
ghost use Rattle.numa_page_state.specs.Outcomes.{Lack, followed, lack_in, migrate_outcome};
ghost use Rattle.numa_placed.specs.Refusals.{migrate_cause};
ghost use Rattle.numa_placed.specs.Shifts.{stated_on};
ghost use Rattle.numa_placed.specs.declared.spot.Spot.{Spot};
ghost use Rattle.numa_reports.specs.declared.outlook.PageSpan.{PageSpan};
ghost use Rattle.numa_moves.specs.Moving.{HaveAll, moves_of, page_moves, shift_by};
ghost use Rattle.numa_moves.specs.Shares.{pages_on, shares_over, stated_in};

/// Where spans have all pages, their shares have as many on each node; and what becomes of the
/// shares is what becomes of the pages: of each span as many go from each node as `numa_placed`
/// moves of its pages.
pub fn shares_are_pages()
    ensures counted { (spots : ℕ → Spot) (nodes : ℕ) (spans : List PageSpan) (node : ℕ)
        → HaveAll spots nodes spans
        → pages_on (shares_over (stated_in spots) nodes spans) node ≡ stated_on spots node }
    ensures moved { (spots : ℕ → Spot) (nodes : ℕ) (spans : List PageSpan) (old new : ℕ)
        (room : ℕ → ℕ) → HaveAll spots nodes spans
        → moves_of (shares_over (stated_in spots) nodes spans) old new room
        ≡ page_moves spots old new room nodes spans }
{}

/// Once a script says a room, a line does to its pages what is told of their shares: as many go
/// from each node, to the same node, and the rooms behind are the same. So it is with `migrate`,
/// and with nodes that pages follow, unless something stands against it.
pub fn shares_go_as_pages()
    ensures gone { (spots : ℕ → Spot) (nodes : ℕ) (spans : List PageSpan) (old new : ℕ)
        (room : ℕ → ℕ) → HaveAll spots nodes spans
        → (motion (Some room) spots old new).told.from
        ≡ (shift_by (shares_over (stated_in spots) nodes spans) old new room).gone }
    ensures migrated { (lack : Lack) (basis : Ground) (from to : ℕ) (nodes : ℕ)
        (spans : List PageSpan) (at : Lying) (room : ℕ → ℕ) → HaveAll at.spots nodes spans
        → at.room ≡ Some room → migrate_cause basis.allowed to ≡ None
        → lack_in at.room lack (motion at.room at.spots from (both to basis.allowed)).spots ≡ None
        → (migrate_outcome lack basis from to at).1.room
        ≡ Some (shift_by (shares_over (stated_in at.spots) nodes spans) from
        (both to basis.allowed) room).room }
    ensures followed { (lack : Lack) (kept : Kept) (old new : ℕ) (nodes : ℕ)
        (spans : List PageSpan) (at : Lying) (room : ℕ → ℕ) → HaveAll at.spots nodes spans
        → at.room ≡ Some room → at.follows ≡ true
        → lack_in at.room lack (motion at.room at.spots old new).spots ≡ None
        → (followed lack old new kept at).room
        ≡ Some (shift_by (shares_over (stated_in at.spots) nodes spans) old new room).room }
{}
