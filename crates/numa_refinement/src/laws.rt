//! Laws that relate desks and fault workers to the core's world. The functions do nothing: what
//! each one ensures is a law.
ghost use Rattle.std.specs.Prelude.{◌≡◌, ◌≢◌, ℕ, ◌<◌, ◌≤◌, true, None, Some, Ok, Err, List};
ghost use Rattle.std.specs.Prelude.{[], ◌∷◌, ◌++◌, length, slice_get, slice_index, Result};
ghost use Rattle.numa_core.specs.Executions.{CoreStep, IsExecution, worker_of, world_of};
ghost use Rattle.numa_core.specs.Steps.{answer_of};
ghost use Rattle.numa_core.specs.World.{Setup, World, frame_search_of, is_published};
ghost use Rattle.numa_core.specs.World.{newest_published, opening, owner_of};
ghost use Rattle.numa_requests.specs.declared.event.CoreRefusal.{CoreRefusal};
ghost use Rattle.numa_requests.specs.declared.event.Event.{Event};
ghost use Rattle.numa_requests.specs.declared.event.CoreReply.{CoreReply};
ghost use Rattle.numa_fault.specs.Crew.{Serves};
ghost use Rattle.numa_fault.specs.Fault.{Faults, IsServed, list_of, refusal_of};
ghost use Rattle.numa_fault.specs.Migration.{Migrates};
ghost use Rattle.numa_fault.specs.Span.{FaultsOnSpan};
ghost use Rattle.numa_fault.specs.Told.{version_at};
ghost use Rattle.numa_fault.specs.Worker.{Parts};
ghost use Rattle.numa_fault.specs.declared.answer.Answer.{Answer};
ghost use Rattle.numa_fault.specs.declared.refusal.FaultRefusal.{FaultRefusal};
ghost use Rattle.numa_fault.specs.declared.refusal.MigrateRefusal.{MigrateRefusal};
ghost use Rattle.numa_fault.specs.declared.refusal.SpanRefusal.{SpanRefusal};
ghost use Rattle.numa_fault.specs.declared.span.Span.{Span};
ghost use Rattle.numa_pool.specs.Seats.{SeatView};
ghost use Rattle.numa_publish.specs.Batches.{Extends};
ghost use Rattle.numa_publish.specs.Shown.{DeskState, ReaderState, ReceiptState, Refuses};
ghost use Rattle.numa_publish.specs.Shown.{ViewState};
ghost use Rattle.numa_publish.specs.Shown.{accepted_commands};
ghost use Rattle.numa_requests.specs.declared.command.Command.{Command};
ghost use Rattle.numa_requests.specs.declared.placement.Placement.{Placement};
ghost use Rattle.numa_requests.specs.declared.refusal.Refusal.{Refusal};
ghost use Rattle.numa_requests.specs.declared.request.Request.{Request};
ghost use Rattle.numa_refinement.specs.FrameSearches.{IsFrameSearch, IsNodeSearch, Turn};
ghost use Rattle.numa_refinement.specs.WalkSteps.{MayBegin, MaySeek};
ghost use Rattle.numa_refinement.specs.Moves.{PoolState};
ghost use Rattle.numa_refinement.specs.Plays.{Done, IsPlay, execution_of, since_of};
ghost use Rattle.numa_refinement.specs.Desks.{Accepts, IsDeskOf, IsNew, LeadsTo, Publishes};
ghost use Rattle.numa_refinement.specs.Faults.{Falls, IsReady, LeavesLast, begun_world, last_world};
ghost use Rattle.numa_refinement.specs.Interleaved.{Calls, HaveNoBegin, begins, seeks};
ghost use Rattle.numa_refinement.specs.Interleaved.{turns_in};
ghost use Rattle.numa_refinement.specs.Migrations.{FallsOn, SearchesAndGives};
ghost use Rattle.numa_refinement.specs.LegalSteps.{HasPublished, IsPublishedIn};
ghost use Rattle.numa_refinement.specs.LegalSteps.{after_core_step, core_step_of};
ghost use Rattle.numa_refinement.specs.Tie.{IsTied};

/// A new desk is that of the opening world. A command that it accepts is the world's Accept, and a
/// publish of something pending is the world's Publish, each a legal step with the same number as
/// its answer. A refusal with a cause is the world's refusal of the Accept, and out of memory for a
/// publish is one that the world allows. With nothing pending a publish changes nothing: it is no
/// step, and a Publish would lead to a world that isn't the desk's.
pub fn a_desk_is_the_worlds()
    ensures opens { (s : Setup) (desk : DeskState) → IsNew s.machine s.bounds desk
        → IsDeskOf s opening desk }
    ensures accepts { (s : Setup) (world : World) (before after : DeskState) (command : Command)
        (version : ℕ) → IsDeskOf s world before → Accepts before command version after
        → LeadsTo s world (core_step_of (Event.Accept command) (Ok (CoreReply.Accepted version)))
        after }
    ensures refuses { (s : Setup) (world : World) (desk : DeskState) (command : Command)
        (refusal : Refusal) → IsDeskOf s world desk → Refuses desk command refusal
        → refusal ≢ Refusal.NoMemory
        → LeadsTo s world
        (core_step_of (Event.Accept command) (Err (CoreRefusal.Command refusal))) desk }
    ensures publishes { (s : Setup) (world : World) (before after : DeskState)
        → IsDeskOf s world before → Publishes before after → before.pending ≢ []
        → LeadsTo s world
        (core_step_of Event.Publish (Ok (CoreReply.Published
        (length (accepted_commands before))))) after }
    ensures unpublished { (s : Setup) (world : World) (desk : DeskState) → IsDeskOf s world desk
        → LeadsTo s world (core_step_of Event.Publish (Err CoreRefusal.NoMemory)) desk }
    ensures idle { (before after : DeskState) → Publishes before after → before.pending ≡ []
        → after ≡ before }
    ensures no_core_step { (s : Setup) (world : World) (desk : DeskState) (version : ℕ)
        → IsDeskOf s world desk
        → LeadsTo s world (core_step_of Event.Publish (Ok (CoreReply.Published version))) desk → ⊥ }
{}

/// The steps of workers leave the desk the world's; and what an execution led to, the desk's next
/// step leads on.
pub fn a_desk_stays_the_worlds()
    ensures workers { (s : Setup) (world : World) (desk : DeskState) (m : CoreStep) (w : ℕ)
        → IsDeskOf s world desk → worker_of m.event ≡ Some w
        → IsDeskOf s (after_core_step s world m) desk }
    ensures executions { (s : Setup) (past : List CoreStep) (desk : DeskState) (m : CoreStep)
        → IsExecution s past → LeadsTo s (world_of s past) m desk
        → IsExecution s (m ∷ past) × IsDeskOf s (world_of s (m ∷ past)) desk }
{}

/// What a desk has published is published in its world, and stays so at every step. So is what a
/// view shows, which the desk had published at some time; what a reader has seen, if it learns a
/// receipt of the same version; and what an earlier version shows than one of which the world has
/// published everything.
pub fn what_is_published_stays()
    ensures desk { (s : Setup) (world : World) (desk : DeskState) → IsDeskOf s world desk
        → IsPublishedIn world desk.published }
    ensures view { (s : Setup) (world : World) (desk : DeskState) (view : ViewState)
        → IsDeskOf s world desk → Extends view.history desk.published
        → Extends view.versions desk.versions
        → slice_get view.versions 0 ≡ Some (length view.history)
        → IsPublishedIn world view.history }
    ensures receipt { (world : World) (reader learnt : ReaderState) (receipt : ReceiptState)
        → Extends reader.history learnt.history → Extends receipt.history learnt.history
        → length reader.history ≡ length receipt.history → IsPublishedIn world receipt.history
        → IsPublishedIn world reader.history }
    ensures earlier { (world : World) (history longer : List Command) (versions more : List ℕ)
        → HasPublished world longer more → Extends history longer → Extends versions more
        → slice_get versions 0 ≡ Some (length history) → IsPublishedIn world history }
    ensures lasts { (s : Setup) (world : World) (m : CoreStep) (history : List Command)
        (versions : List ℕ) → HasPublished world history versions
        → HasPublished (after_core_step s world m) history versions }
    ensures stays { (s : Setup) (world : World) (m : CoreStep) (history : List Command)
        → IsPublishedIn world history
        → IsPublishedIn (after_core_step s world m) history }
{}

/// Each answer of a fault worker that tells a version tells one that is published, by commands
/// which extend all that its reader had seen or learnt before, in each world that has published all
/// that the worker has seen since: `desk::compare_worker` gives that of the desk's world. So a
/// placement needs no receipt of its version.
pub fn answers_are_of_published_versions()
    ensures one { (world : World) (frames : List ℕ) (request : Request) (before after : Parts)
        (answer : Result Placement FaultRefusal) → Faults frames request before after answer
        → answer ≢ Err FaultRefusal.NoView
        → HasPublished world after.reader.history after.reader.versions
        → Extends before.reader.history after.reader.history
        × IsPublishedIn world after.reader.history }
    ensures each { (world : World) (frames : List ℕ) (requests : List Request)
        (before after : Parts) (answers : List Answer)
        → Serves frames requests before after answers
        → HasPublished world after.reader.history after.reader.versions
        → (i v : ℕ) → version_at answers i ≡ Some v → (history : List Command)
        × (length history ≡ v) × Extends before.reader.history history
        × Extends history world.history × IsPublishedIn world history }
    ensures span { (world : World) (frames : List ℕ) (span : Span) (before after : Parts)
        (old new : List Placement) (answer : Result ℕ SpanRefusal)
        → FaultsOnSpan frames span before after old new answer
        → answer ≢ Err SpanRefusal.NoView
        → HasPublished world after.reader.history after.reader.versions
        → Extends before.reader.history after.reader.history
        × IsPublishedIn world after.reader.history }
{}

/// What others do between the steps of a worker: no step of the desk, and none of another
/// worker, changes the worker; and the desk's steps leave the world tied to the pools.
pub fn others_leave_a_worker()
    ensures desk { (s : Setup) (world : World) (m : CoreStep) (w : ℕ) → worker_of m.event ≡ None
        → (after_core_step s world m).worker w ≡ world.worker w }
    ensures workers { (s : Setup) (world : World) (m : CoreStep) (v w : ℕ)
        → worker_of m.event ≡ Some v → v ≢ w
        → (after_core_step s world m).worker w ≡ world.worker w }
    ensures tied { (s : Setup) (world : World) (m : CoreStep) (state : PoolState)
        → worker_of m.event ≡ None → IsTied s world state
        → IsTied s (after_core_step s world m) state }
{}

/// A worker that is ready for the history that a fault sees may begin with it: the core refuses its
/// Begin at that version exactly as the fault is refused, and otherwise the Begin has exactly the
/// page's list.
pub fn a_fault_begins()
    ensures bad_cpu { (s : Setup) (w : ℕ) (history : List Command) (request : Request)
        (before after : SeatView) (first : World) → IsReady s w history first
        → IsServed s.machine.frames s.machine history request before after
        (Err FaultRefusal.BadCpu)
        → answer_of s first (length history) (Event.Begin w request) ≡ Err CoreRefusal.BadCpu }
    ensures unmapped { (s : Setup) (w : ℕ) (history : List Command) (request : Request)
        (before after : SeatView) (first : World) (version : ℕ) → IsReady s w history first
        → IsServed s.machine.frames s.machine history request before after
        (Err (FaultRefusal.Unmapped version))
        → answer_of s first version (Event.Begin w request) ≡ Err (CoreRefusal.Unmapped version) }
    ensures list { (s : Setup) (w : ℕ) (history : List Command) (request : Request) (first : World)
        → IsReady s w history first → refusal_of s.machine history request ≡ None
        → MayBegin s first w (length history) request (list_of s.machine history request) }
{}

/// A fault is a frame search of the core. If it answers `Exhausted` or a placement, its Begin and
/// the steps that its seat gained, the oldest first, are steps of the core's world, none is
/// refused, the reply to each but the last is Still, and the last reply is Exhausted with this
/// version, or Won with this placement, whose frame is the worker's then. Each step may fall in any
/// world that is tied to the pools, whatever other threads did before it, as long as the worker's
/// frame search is as its step before had left it.
pub fn a_fault_is_a_frame_search()
    ensures exhausted { (s : Setup) (w : ℕ) (history : List Command) (request : Request)
        (first : World) (before after : SeatView) (turns : List Turn) (version : ℕ)
        → Falls s w history request first before after turns
        → IsServed s.machine.frames s.machine history request before after
        (Err (FaultRefusal.Exhausted version))
        → IsFrameSearch s w first version request (CoreReply.Exhausted version) turns }
    ensures won { (s : Setup) (w : ℕ) (history : List Command) (request : Request)
        (first : World) (before after : SeatView) (turns : List Turn) (placement : Placement)
        → Falls s w history request first before after turns
        → IsServed s.machine.frames s.machine history request before after (Ok placement)
        → IsFrameSearch s w first placement.version request (CoreReply.Won placement) turns }
    ensures owned { (s : Setup) (w : ℕ) (history : List Command) (request : Request)
        (first : World) (before after : SeatView) (turns : List Turn) (placement : Placement)
        → Falls s w history request first before after turns
        → IsServed s.machine.frames s.machine history request before after (Ok placement)
        → owner_of (last_world s w history request first turns) placement.frame ≡ Some w }
{}

/// After a frame search the worker is idle, and its last version is that of its fault. So it is
/// ready again, for that history or a longer published one: each page that a span places, all by
/// one history, is such a frame search, and so is the next fault.
pub fn a_fault_leaves_its_worker_ready()
    ensures exhausted { (s : Setup) (w : ℕ) (history longer : List Command) (request : Request)
        (first next : World) (before after : SeatView) (turns : List Turn) (version : ℕ)
        → Falls s w history request first before after turns
        → IsServed s.machine.frames s.machine history request before after
        (Err (FaultRefusal.Exhausted version))
        → LeavesLast s w (begun_world s w history request first) turns
        → next.worker w ≡ (last_world s w history request first turns).worker w
        → IsPublishedIn next longer → length history ≤ length longer → IsReady s w longer next }
    ensures won { (s : Setup) (w : ℕ) (history longer : List Command) (request : Request)
        (first next : World) (before after : SeatView) (turns : List Turn) (placement : Placement)
        → Falls s w history request first before after turns
        → IsServed s.machine.frames s.machine history request before after (Ok placement)
        → LeavesLast s w (begun_world s w history request first) turns
        → next.worker w ≡ (last_world s w history request first turns).worker w
        → IsPublishedIn next longer → length history ≤ length longer → IsReady s w longer next }
{}

/// A migration to a node is a search and a Give of the core, whatever lists requests have. Its
/// worker seeks the node by a Seek. If it answers `Exhausted`, the steps that its seat gained are a
/// search of that node that is answered Full. If it moves the page, all of them but the newest are
/// a search that is answered Found with the new frame, which is the worker's then; and the newest
/// is a Give of the old frame, which is answered Given. If it answers `NoSuchNode`, the Seek is
/// refused for that.
pub fn a_migration_is_a_search_and_a_give()
    ensures exhausted { (s : Setup) (w version node : ℕ) (first : World)
        (before after : SeatView) (turns : List Turn) (placement back : Placement)
        → FallsOn s w version node first before after turns
        → Migrates s.machine.frames node placement before after
        (Err (MigrateRefusal.Exhausted back))
        → IsNodeSearch s w first version node CoreReply.Full turns }
    ensures moved { (s : Setup) (w version node : ℕ) (first : World)
        (before after : SeatView) (turns : List Turn) (placement moved : Placement)
        → FallsOn s w version node first before after turns
        → Migrates s.machine.frames node placement before after (Ok moved)
        → SearchesAndGives s w version node first placement.frame moved.frame turns }
    ensures refused { (s : Setup) (w version node : ℕ) (first : World)
        (before after : SeatView) (placement back : Placement)
        → w < s.workers → frame_search_of first w ≡ None
        → Migrates s.machine.frames node placement before after
        (Err (MigrateRefusal.NoSuchNode back))
        → answer_of s first version (Event.Seek w node) ≡ Err CoreRefusal.NoSuchNode }
{}

/// This holds in every interleaving: if worker w was ready and began with the history that a fault
/// saw, and neither began nor sought anything since, the steps of its seat since then, each in the
/// world and the pools that it found, are a fault as it falls. No other step changed the worker's
/// version. And it was ready, if the history is published in a later world of the interleaving, as
/// `desk::compare` and `desk::compare_worker` tell afterwards.
pub fn faults_of_an_interleaving_fall()
    ensures falls { (s : Setup) (w : ℕ) → ((n : ℕ) → slice_index s.machine.frames n ≤ 4096)
        → (first pools : PoolState) (done later : List Done) (history : List Command)
        (request : Request)
        → IsPlay s first (later ++ begins w (length history) request pools ∷ done)
        → HaveNoBegin w later → IsReady s w history (world_of s (execution_of s done))
        → (before after : SeatView)
        → after.log ≡ since_of s (later ++ begins w (length history) request pools ∷ done) w
        ++ before.log
        → Falls s w history request (world_of s (execution_of s done)) before after
        (turns_in s w first later (begins w (length history) request pools ∷ done)) }
    ensures last { (s : Setup) (w : ℕ) → ((n : ℕ) → slice_index s.machine.frames n ≤ 4096)
        → (first pools : PoolState) (done later : List Done) (history : List Command)
        (request : Request)
        → IsPlay s first (later ++ begins w (length history) request pools ∷ done)
        → HaveNoBegin w later → IsReady s w history (world_of s (execution_of s done))
        → LeavesLast s w (begun_world s w history request (world_of s (execution_of s done)))
        (turns_in s w first later (begins w (length history) request pools ∷ done)) }
    ensures ready { (s : Setup) → ((n : ℕ) → slice_index s.machine.frames n ≤ 4096)
        → 0 < s.workers → (first : PoolState) (w : ℕ) (pools : PoolState) (done later : List Done)
        (history : List Command) (request : Request)
        → IsPlay s first (later ++ begins w (length history) request pools ∷ done)
        → IsPublishedIn (world_of s
        (execution_of s (later ++ begins w (length history) request pools ∷ done))) history
        → IsReady s w history (world_of s (execution_of s done)) }
{}

/// A migration falls so in every interleaving, if its worker seeks the node there, and begins or
/// seeks nothing else before it is over. A worker that isn't busy may always seek a node that has
/// frames, at the newest published version.
pub fn migrations_of_an_interleaving_fall()
    ensures falls { (s : Setup) (w : ℕ) → ((n : ℕ) → slice_index s.machine.frames n ≤ 4096)
        → (first pools : PoolState) (done later : List Done) (version node : ℕ)
        → IsPlay s first (later ++ seeks w version node pools ∷ done)
        → HaveNoBegin w later → (before after : SeatView)
        → after.log ≡ since_of s (later ++ seeks w version node pools ∷ done) w ++ before.log
        → FallsOn s w version node (world_of s (execution_of s done)) before after
        (turns_in s w first later (seeks w version node pools ∷ done)) }
    ensures may { (s : Setup) (past : List CoreStep) (w node : ℕ) → IsExecution s past
        → w < s.workers → frame_search_of (world_of s past) w ≡ None
        → 0 < slice_index s.machine.frames node
        → MaySeek s (world_of s past) w (newest_published (world_of s past)) node }
{}

/// And there is a desk in every interleaving: a new one, after calls that are its commands and
/// publications, is the world's. What was published at some time of an interleaving is published
/// at each later one: so a worker may begin by what it saw of the desk. And what is published at a
/// later time was so wherever its number had been published.
pub fn desks_of_an_interleaving()
    ensures desk { (s : Setup) → ((n : ℕ) → slice_index s.machine.frames n ≤ 4096)
        → 0 < s.workers → (first : PoolState) (done : List Done) (desk : DeskState)
        → IsPlay s first done → Calls s done desk
        → IsDeskOf s (world_of s (execution_of s done)) desk }
    ensures stays { (s : Setup) (done later : List Done) (history : List Command)
        → IsPublishedIn (world_of s (execution_of s done)) history
        → IsPublishedIn (world_of s (execution_of s (later ++ done))) history }
    ensures was { (s : Setup) → ((n : ℕ) → slice_index s.machine.frames n ≤ 4096)
        → 0 < s.workers → (first : PoolState) (done later : List Done) (history : List Command)
        → IsPlay s first (later ++ done)
        → IsPublishedIn (world_of s (execution_of s (later ++ done))) history
        → is_published (world_of s (execution_of s done)) (length history) ≡ true
        → IsPublishedIn (world_of s (execution_of s done)) history }
{}
