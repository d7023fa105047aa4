//! Laws about the definitions that the contracts of this crate cite. The functions do nothing: what
//! each one ensures is a law.
ghost use Rattle.std.specs.Prelude.{◌≡◌, ◌&&◌, ℕ, Bool, None, Option, Some, false, true, is_some};
ghost use Rattle.std.specs.Prelude.{not};
ghost use Rattle.numa_maps.specs.Residents.{Kept, placed_at};
ghost use Rattle.numa_placed.specs.Binds.{first_with_room, room_before};
ghost use Rattle.numa_placed.specs.Spots.{is_placed};
ghost use Rattle.numa_placed.specs.declared.spot.Spot.{Spot};
ghost use Rattle.numa_placed.specs.declared.spot.Spot.TheVariants.{Nowhere, Stated};
ghost use Rattle.numa_ranges.specs.Runs.{in_pages};
ghost use Rattle.numa_space.specs.History.{page_count, page_of};
ghost use Rattle.numa_page_state.specs.Lying.{AreMapped, Ground, Lying, Process};
ghost use Rattle.numa_page_state.specs.Outcomes.{Lack, along_outcome, at_outcome, followed};
ghost use Rattle.numa_page_state.specs.Outcomes.{forgotten, migrate_outcome, move_outcome};
ghost use Rattle.numa_page_state.specs.Outcomes.{rooms_of};
ghost use Rattle.numa_page_state.specs.Sending.{asked_of, with_sent};
ghost use Rattle.numa_page_state.specs.Touching.{populate_outcome, touch_cause, touched_by};
ghost use Rattle.numa_page_state.specs.declared.sending.Rebinding.{Rebinding};
ghost use Rattle.numa_page_state.specs.declared.sending.Toucher.{Toucher};

/// A page of the span that is nowhere when a task touches it goes to the first node of its
/// fallback list that has room by then; where none has, it stays nowhere. Pages that are there, in
/// a frame or without, stay where they are.
pub fn touches_place_pages()
    ensures placed { (lack : Lack) (basis : Ground) (start bytes task cpu page node : ℕ)
        (at : Lying) → touch_cause lack basis start bytes task cpu at ≡ None
        → in_pages (page_of start) (page_count bytes) page ≡ true → at.spots page ≡ Nowhere
        → placed_at basis.kept page ≡ None
        → first_with_room (room_before (touched_by basis start bytes task cpu) at.spots
        (rooms_of at.room) page) (basis.lists task cpu page) ≡ Some node
        → (populate_outcome lack basis start bytes task cpu at).1.spots page ≡ Stated node }
    ensures exhausted { (lack : Lack) (basis : Ground) (start bytes task cpu page : ℕ)
        (at : Lying) → first_with_room (room_before (touched_by basis start bytes task cpu) at.spots
        (rooms_of at.room) page) (basis.lists task cpu page) ≡ None
        → (populate_outcome lack basis start bytes task cpu at).1.spots page ≡ at.spots page }
    ensures stays { (lack : Lack) (basis : Ground) (start bytes task cpu page : ℕ) (at : Lying)
        → is_placed (at.spots page) ≡ true
        → (populate_outcome lack basis start bytes task cpu at).1.spots page ≡ at.spots page }
    ensures framed { (lack : Lack) (basis : Ground) (start bytes task cpu page : ℕ) (at : Lying)
        → is_some (placed_at basis.kept page) ≡ true
        → (populate_outcome lack basis start bytes task cpu at).1.spots page ≡ at.spots page }
{}

/// Pages without a frame lie only where they are mapped: every change keeps that so, and once a
/// span is unmapped nothing is stated any more of its pages.
pub fn pages_are_mapped()
    ensures stated { (lack : Lack) (basis : Ground) (start bytes node : ℕ) (at : Lying)
        → AreMapped basis.mapped at.spots
        → AreMapped basis.mapped (at_outcome lack basis start bytes node at).1.spots }
    ensures touched { (lack : Lack) (basis : Ground) (start bytes task cpu : ℕ) (at : Lying)
        → AreMapped basis.mapped at.spots
        → AreMapped basis.mapped (populate_outcome lack basis start bytes task cpu at).1.spots }
    ensures moved { (lack : Lack) (basis : Ground) (address node : ℕ) (at : Lying)
        → AreMapped basis.mapped at.spots
        → AreMapped basis.mapped (move_outcome lack basis address node at).1.spots }
    ensures migrated { (lack : Lack) (basis : Ground) (from to : ℕ) (at : Lying)
        → AreMapped basis.mapped at.spots
        → AreMapped basis.mapped (migrate_outcome lack basis from to at).1.spots }
    ensures along { (lack : Lack) (kept : Kept) (mapped : ℕ → Bool) (old new : ℕ) (at : Lying)
        → AreMapped mapped at.spots
        → AreMapped mapped (along_outcome lack kept old new at).1.spots }
    ensures followed { (lack : Lack) (kept : Kept) (mapped : ℕ → Bool) (old new : ℕ)
        (at : Lying) → AreMapped mapped at.spots
        → AreMapped mapped (followed lack old new kept at).spots }
    ensures sent { (process : Process) (said : Rebinding) (toucher : Toucher) (mapped : ℕ → Bool)
        (at : Lying) → AreMapped mapped at.spots
        → AreMapped mapped (with_sent process.kept (asked_of process said toucher) at).spots }
    ensures unmapped { (mapped : ℕ → Bool) (start bytes : ℕ) (spots : ℕ → Spot)
        → AreMapped mapped spots
        → AreMapped (λ page. not (in_pages (page_of start) (page_count bytes) page) && mapped page)
        (forgotten start bytes spots) }
{}
