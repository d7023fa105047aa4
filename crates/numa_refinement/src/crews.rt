//! A crew is an execution of the core. The functions do nothing: what each one ensures is a law.
ghost use Rattle.std.specs.Prelude.{ℕ, ◌<◌, ◌≤◌, List, [], ◌∷◌, ◌++◌, length, slice_index};
ghost use Rattle.numa_core.specs.Executions.{IsExecution};
ghost use Rattle.numa_core.specs.World.{Setup};
ghost use Rattle.numa_fault.specs.Crew.{AreWithin, IsEnded, IsFirstCrew};
ghost use Rattle.numa_fault.specs.Worker.{WorkerState};
ghost use Rattle.numa_fault.specs.declared.answer.Answer.{Answer};
ghost use Rattle.numa_pool.specs.Order.{AreAllSeats, AreDifferent, IsLedTo};
ghost use Rattle.numa_pool.specs.declared.view.Past.{Past};
ghost use Rattle.numa_publish.specs.Shown.{DeskState};
ghost use Rattle.numa_requests.specs.declared.event.Event.{Event};
ghost use Rattle.numa_requests.specs.declared.request.Request.{Request};
ghost use Rattle.numa_refinement.specs.Crews.{AreAnswered, AreDesks, AreOf, IsRun, calls_at};
ghost use Rattle.numa_refinement.specs.Crews.{first_words, seats_in};
ghost use Rattle.numa_refinement.specs.Interleaved.{Calls};
ghost use Rattle.numa_refinement.specs.Moves.{opened};
ghost use Rattle.numa_refinement.specs.Plays.{Done, IsPlay, NoneRefused, execution_of};

/// A crew that was run to its end (`Crew::run_to_end`, or `Crew::run` and `Crew::end`), with the
/// first seat of the pools and all that were split off it, was an execution of the core, in which
/// nothing is refused, each placement of its answers is won by its worker, and each list that one
/// tells exhausted is exhausted there. The commands and publications of its desk stand first: those
/// calls, of a new desk, up to a receipt that shows all that the workers saw. The core has as many
/// workers as there were seats, or more.
pub fn a_crew_run_to_its_end_is_an_execution()
    ensures { (s : Setup) → ((n : ℕ) → slice_index s.machine.frames n ≤ 4096) → 0 < s.workers
        → (requests : List Request) (old : List WorkerState) (answers : List Answer)
        (taken : List ℕ) → (ended : IsEnded s.machine.frames requests old answers taken)
        → IsFirstCrew old → AreOf s.machine old
        → seats_in ended ≤ s.workers → (events : List Event) → AreDesks events
        → (desk : DeskState) → Calls s (calls_at (opened (first_words ended)) events) desk
        → AreWithin desk.published desk.versions ended.after
        → (seats : List ℕ) × AreDifferent seats × ((done : List Done)
        × IsPlay s (opened (first_words ended)) done × IsExecution s (execution_of s done)
        × NoneRefused (execution_of s done)
        × AreAnswered s (execution_of s done) seats requests answers (length old)) }
{}

/// A crew, whose workers' seats were joined, and with whose joined seat the pools ended, was an
/// execution of the core, in which nothing is refused and each answer is its worker's, as above:
/// where the end of the pools tells the order of all steps, and the crew's seats are all that there
/// ever were. The commands and publications of its desk stand first, as above
/// (`Crew::are_within`).
pub fn a_crew_is_an_execution()
    ensures { (s : Setup) → ((n : ℕ) → slice_index s.machine.frames n ≤ 4096) → 0 < s.workers
        → (requests : List Request) (old new : List WorkerState) (answers : List Answer)
        (its : Past) (others : List Past) (words : List ℕ)
        → IsRun s requests old new answers (others ++ its ∷ [])
        → (order : IsLedTo s.machine.frames (its ∷ others) words)
        → AreAllSeats (its ∷ others)
        → order.count ≤ s.workers → (events : List Event) → AreDesks events
        → (desk : DeskState) → Calls s (calls_at (opened order.first) events) desk
        → AreWithin desk.published desk.versions new
        → (seats : List ℕ) × AreDifferent seats × ((done : List Done)
        × IsPlay s (opened order.first) done × IsExecution s (execution_of s done)
        × NoneRefused (execution_of s done)
        × AreAnswered s (execution_of s done) seats requests answers (length old)) }
{}
