//! Laws of the definitions that contracts cite. The functions do nothing: what each one ensures is
//! a law.
ghost use Rattle.std.specs.Prelude.{◌≡◌, ◌≢◌, ℕ, ◌+◌, ◌*◌, ◌<◌, ◌≤◌, List, [], ◌∷◌};
ghost use Rattle.std.specs.Prelude.{◌++◌, length};
ghost use Rattle.std.specs.Prelude.{Option, Some};
ghost use Rattle.std.specs.Prelude.{Result, Ok, Err, slice_get, slice_index_or, ◌↔◌};
ghost use Rattle.std.specs.Option.{ForSome};
ghost use Rattle.numa_requests.specs.declared.placement.Placement.{Placement};
ghost use Rattle.numa_requests.specs.declared.request.Request.{Request};
ghost use Rattle.numa_machine.specs.Machine.{Hardware};
ghost use Rattle.numa_pool.specs.Frames.{Holds};
ghost use Rattle.numa_pool.specs.Order.{AreAllSeats};
ghost use Rattle.numa_pool.specs.Seats.{SeatView};
ghost use Rattle.numa_pool.specs.declared.view.Past.{Past};
ghost use Rattle.numa_publish.specs.Batches.{Extends};
ghost use Rattle.numa_requests.specs.declared.command.Command.{Command};
ghost use Rattle.numa_machine.specs.declared.refusal.PlaceRefusal.{PlaceRefusal};
ghost use Rattle.numa_fault.specs.Crew.{column, AreApart, HaveNoPast, IsCrew, IsFirstCrew, Serves};
ghost use Rattle.numa_fault.specs.Crew.{ServesEach, pasts_by};
ghost use Rattle.numa_fault.specs.Fault.{Faults, FindsNone, Places, list_of, refusal_of};
ghost use Rattle.numa_fault.specs.Migration.{Migrates};
ghost use Rattle.numa_fault.specs.Span.{FaultsOnSpan, IsRefused};
ghost use Rattle.numa_fault.specs.Told.{FoundTaken, refusal_told, span_refusal_told, version_told};
ghost use Rattle.numa_fault.specs.Told.{IsSeenBetween, version_at};
ghost use Rattle.numa_fault.specs.Worker.{Parts, WorkerState};
ghost use Rattle.numa_fault.specs.declared.answer.Answer.{Answer};
ghost use Rattle.numa_fault.specs.declared.refusal.FaultRefusal.{FaultRefusal};
ghost use Rattle.numa_fault.specs.declared.refusal.MigrateRefusal.{MigrateRefusal};
ghost use Rattle.numa_fault.specs.declared.refusal.SpanRefusal.{SpanRefusal};
ghost use Rattle.numa_fault.specs.declared.span.Span.{Span};

/// The answer of a fault is determined but for the frames that it finds free. It enters once. It is
/// `NoView` exactly if that entry was refused; else it is the page's refusal exactly as the history
/// that it sees has it, with the version of that history.
pub fn answers_are_exact()
    ensures enters { (frames : List ℕ) (request : Request) (before after : Parts)
        (answer : Result Placement FaultRefusal) → Faults frames request before after answer
        → after.reader.enters ≡ before.reader.enters + 1 }
    ensures no_view { (frames : List ℕ) (request : Request) (before after : Parts)
        (answer : Result Placement FaultRefusal) → Faults frames request before after answer
        → (answer ≡ Err FaultRefusal.NoView)
        ↔ (after.reader.refused ≡ before.reader.refused + 1) }
    ensures refusal { (frames : List ℕ) (request : Request) (before after : Parts)
        (answer : Result Placement FaultRefusal) → Faults frames request before after answer
        → answer ≢ Err FaultRefusal.NoView
        → refusal_of after.reader.desk.machine after.reader.history request
        ≡ refusal_told answer }
    ensures version { (frames : List ℕ) (request : Request) (before after : Parts)
        (answer : Result Placement FaultRefusal) → Faults frames request before after answer
        → ForSome (version_told answer) (λ version. version ≡ length after.reader.history) }
{}

/// The same for a span: one entry, `NoView` exactly if it was refused, and else `BadCpu` and
/// `Unmapped` exactly if the history that it sees refuses the span. Only frames and memory are left
/// to chance.
pub fn spans_are_exact()
    ensures enters { (frames : List ℕ) (span : Span) (before after : Parts)
        (old new : List Placement) (answer : Result ℕ SpanRefusal)
        → FaultsOnSpan frames span before after old new answer
        → after.reader.enters ≡ before.reader.enters + 1 }
    ensures no_view { (frames : List ℕ) (span : Span) (before after : Parts)
        (old new : List Placement) (answer : Result ℕ SpanRefusal)
        → FaultsOnSpan frames span before after old new answer
        → (answer ≡ Err SpanRefusal.NoView)
        ↔ (after.reader.refused ≡ before.reader.refused + 1) }
    ensures refusal { (frames : List ℕ) (span : Span) (before after : Parts)
        (old new : List Placement) (answer : Result ℕ SpanRefusal)
        → FaultsOnSpan frames span before after old new answer
        → answer ≢ Err SpanRefusal.NoView → (refusal : PlaceRefusal)
        → (span_refusal_told answer ≡ Some refusal)
        ↔ IsRefused after.reader.desk.machine after.reader.history span refusal }
{}

/// If a page was placed, each frame of each earlier node of its list was found taken in the walk
/// for this page, and if no frame was found each frame of each node of the list was. Frames found
/// for another page don't count.
pub fn a_win_means()
    ensures won { (frames : List ℕ) (machine : Hardware) (history : List Command)
        (request : Request) (placement : Placement) (before after : SeatView)
        → Places frames machine history request placement before after
        → FoundTaken frames (list_of machine history request) placement.rank before after }
    ensures none { (frames : List ℕ) (machine : Hardware) (history : List Command)
        (request : Request) (version : ℕ) (before after : SeatView)
        → FindsNone frames machine history request version before after
        → FoundTaken frames (list_of machine history request)
        (length (list_of machine history request)) before after }
{}

/// If a page wasn't moved for want of a frame, each frame of the node was found taken in the walk
/// for it. If it was, the seat holds the new frame, and no longer the one that the page had.
pub fn a_migration_means()
    ensures exhausted { (frames : List ℕ) (node : ℕ) (placement back : Placement)
        (before after : SeatView) → Migrates frames node placement before after
        (Err (MigrateRefusal.Exhausted back)) → FoundTaken frames (node ∷ []) 1 before after }
    ensures gained { (frames : List ℕ) (node : ℕ) (placement moved : Placement)
        (before after : SeatView) → Migrates frames node placement before after (Ok moved)
        → Holds after.held moved.frame }
    ensures given_up { (frames : List ℕ) (node : ℕ) (placement moved : Placement)
        (before after : SeatView) → Migrates frames node placement before after (Ok moved)
        → Holds before.held placement.frame → ¬ (Holds after.held placement.frame) }
{}

/// What a worker sees only grows, and the versions in its answers never decrease. The history of
/// such a version extends what was seen before, and what is seen later extends it; so do the
/// versions published up to it.
pub fn versions_never_fall()
    ensures grows { (frames : List ℕ) (requests : List Request) (before after : Parts)
        (answers : List Answer) → Serves frames requests before after answers
        → Extends before.reader.history after.reader.history }
    ensures spans { (frames : List ℕ) (span : Span) (before after : Parts)
        (old new : List Placement) (answer : Result ℕ SpanRefusal)
        → FaultsOnSpan frames span before after old new answer
        → Extends before.reader.history after.reader.history }
    ensures versions { (frames : List ℕ) (requests : List Request) (before after : Parts)
        (answers : List Answer) → Serves frames requests before after answers
        → (i j v w : ℕ) → i ≤ j → version_at answers i ≡ Some v → version_at answers j ≡ Some w
        → v ≤ w }
    ensures seen { (frames : List ℕ) (requests : List Request) (before after : Parts)
        (answers : List Answer) → Serves frames requests before after answers
        → (i v : ℕ) → version_at answers i ≡ Some v
        → (history : List Command) × (length history ≡ v)
        × Extends before.reader.history history × Extends history after.reader.history }
    ensures published { (frames : List ℕ) (requests : List Request) (before after : Parts)
        (answers : List Answer) → Serves frames requests before after answers
        → (i v : ℕ) → version_at answers i ≡ Some v → (history : List Command)
        × ((versions : List ℕ) × IsSeenBetween before.reader after.reader v history versions) }
{}

/// Entry j of column w, of K columns of a list, is entry w + j K of the list.
pub fn columns_take_turns()
    ensures requests { (count w j : ℕ) (requests : List Request) → 0 < count
        → slice_get (column count w requests) j ≡ slice_get requests (w + j * count) }
    ensures answers { (count w j : ℕ) (answers : List Answer) → 0 < count
        → slice_get (column count w answers) j ≡ slice_get answers (w + j * count) }
{}

/// No frame is placed twice among the answers of a crew, since no frame belongs to two of its
/// workers, as [`Crew::join`](crate::Crew::join) tells.
pub fn crews_place_apart()
    ensures { (frames : List ℕ) (requests : List Request) (old new : List WorkerState)
        (answers : List Answer) → IsCrew (length old) → length new ≡ length old
        → ServesEach frames requests old new answers
        → AreApart new → (i j : ℕ) (p q : Placement) → i < j
        → slice_get answers i ≡ Some (Answer.Placed p)
        → slice_get answers j ≡ Some (Answer.Placed q) → p.frame ≢ q.frame }
{}

/// A crew that has the first seat of some pools and all that were split off it has all seats that
/// there ever were, so that the order that the end of the pools tells has no other seat's steps.
pub fn a_first_crew_has_all_seats()
    ensures no_past { (frames : List ℕ) (requests : List Request) (old new : List WorkerState)
        (answers : List Answer) → IsFirstCrew old → length new ≡ length old
        → ServesEach frames requests old new answers → HaveNoPast new }
    ensures all { (frames : List ℕ) (requests : List Request) (old new : List WorkerState)
        (answers : List Answer) → IsFirstCrew old → length new ≡ length old
        → ServesEach frames requests old new answers
        → (its : Past) (others : List Past) → others ++ its ∷ [] ≡ pasts_by new
        → AreAllSeats (its ∷ others) }
{}
