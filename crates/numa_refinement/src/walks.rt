//! Laws that relate the pools' walks to the core's frame searches. The functions do nothing: what
//! each one ensures is a law.
ghost use Rattle.std.specs.Prelude.{◌≡◌, ℕ, ◌+◌, ◌*◌, ◌<◌, ◌≤◌, true, List, [], ◌∷◌, length};
ghost use Rattle.std.specs.Prelude.{slice_index, slice_set, Option, Some, None};
ghost use mathlib.Core.Option.{some};
ghost use lib.ListN.{get_elem?};
ghost use Rattle.numa_core.specs.Executions.{CoreStep, IsExhausted, IsExecution, IsFull};
ghost use Rattle.numa_core.specs.Executions.{IsRightFrame};
ghost use Rattle.numa_core.specs.Executions.{IsRightPlacement, world_of};
ghost use Rattle.numa_core.specs.Steps.{effect_of, goes_on, going_on, over_by, won_by};
ghost use Rattle.numa_core.specs.Steps.{put, with_owner};
ghost use Rattle.numa_core.specs.World.{Setup, World, FrameSearch, opening, frame_search_of};
ghost use Rattle.numa_core.specs.World.{frame_search_after_look};
ghost use Rattle.numa_core.specs.World.{may_look, may_try, frame_search_past, owner_of};
ghost use Rattle.numa_requests.specs.declared.event.Event.{Event};
ghost use Rattle.numa_requests.specs.declared.event.CoreReply.{CoreReply};
ghost use Rattle.numa_machine.specs.declared.frame.Frame.{Frame};
ghost use Rattle.numa_pool.specs.Frames.{Holds};
ghost use Rattle.numa_pool.specs.Rule.{PoolRule};
ghost use Rattle.numa_pool.specs.Steps.{after_try, after_give};
ghost use Rattle.numa_pool.specs.Walk.{IsCurrent, IsNext, IsWalk, AllFull};
ghost use Rattle.numa_pool.specs.declared.view.Entry.{Entry};
ghost use Rattle.numa_pool.specs.declared.view.View.{View};
ghost use Rattle.numa_requests.specs.declared.placement.Placement.{Placement};
ghost use Rattle.numa_requests.specs.declared.request.Request.{Request};
ghost use Rattle.numa_core.specs.World.{fresh};
ghost use Rattle.numa_refinement.specs.FrameSearches.{IsFrameSearch, TakesTurns, TellsOfPage, Turn};
ghost use Rattle.numa_refinement.specs.FrameSearches.{steps_of, world_left};
ghost use Rattle.numa_refinement.specs.WalkSteps.{IsCoreStep, MayBegin, WalksOn, event_of, told};
ghost use Rattle.numa_refinement.specs.WalkSteps.{world_after_handover};
ghost use Rattle.numa_refinement.specs.Moves.{PoolState, IsOpening, Joins, Makes, SeatHolds};
ghost use Rattle.numa_refinement.specs.Moves.{Splits};
ghost use Rattle.numa_refinement.specs.Plays.{Done, IsPlay, NoneRefused, by_seat};
ghost use Rattle.numa_refinement.specs.Plays.{pools_of, execution_of, since_of};
ghost use Rattle.numa_refinement.specs.Tie.{HasMet, HaveMet, IsAt, IsTied, OwnsWhatIsHeld, noted};

/// If a frame search has met what a walk's steps found taken, the walk's current node is the frame
/// search's, and what the walk may do next the frame search may do. A frame search with a current
/// node goes on; if each listed node is full it is over.
pub fn walks_are_frame_searches()
    ensures current { (s : Setup) (frame_search : FrameSearch) (es : List Entry) (n : ℕ)
        → HasMet frame_search es
        → IsCurrent s.machine.frames es frame_search.nodes n → IsAt s frame_search n }
    ensures goes_on { (s : Setup) (frame_search : FrameSearch) (es : List Entry) (n : ℕ)
        → HasMet frame_search es
        → IsCurrent s.machine.frames es frame_search.nodes n
        → (goes_on s frame_search ≡ CoreReply.Still)
        × (going_on s frame_search ≡ Some frame_search) }
    ensures ended { (s : Setup) (frame_search : FrameSearch) (es : List Entry)
        → HasMet frame_search es
        → AllFull s.machine.frames es frame_search.nodes
        → (goes_on s frame_search ≡ over_by frame_search)
        × (going_on s frame_search ≡ None) }
    ensures may_look { (s : Setup) (frame_search : FrameSearch) (es : List Entry) (n w : ℕ)
        → HasMet frame_search es
        → IsCurrent s.machine.frames es frame_search.nodes n
        → 64 * w < slice_index s.machine.frames n
        → may_look s frame_search w ≡ true }
    ensures may_try { (s : Setup) (frame_search : FrameSearch) (es : List Entry) (f : Frame)
        → HasMet frame_search es
        → IsNext s.machine.frames es frame_search.nodes f → may_try s frame_search f ≡ true }
{}

/// What a frame search meets is what the walk's steps find taken. Under the pools' rule a load of a
/// word of the current node finds taken what a Look at it finds with an owner, and a lost try meets
/// the frame that a lost Try meets.
pub fn steps_meet_alike()
    ensures load { (s : Setup) (world : World) (words : List ℕ) (views : List View)
        (frame_search : FrameSearch)
        (es : List Entry) (n w : ℕ) → PoolRule s.machine.frames words views
        → OwnsWhatIsHeld world views → HasMet frame_search es
        → w < 64 → IsCurrent s.machine.frames es frame_search.nodes n
        → HasMet (frame_search_after_look s world w frame_search)
        (Entry.Load n w (slice_index words (64 * n + w)) ∷ es) }
    ensures lost { (frame_search : FrameSearch) (es : List Entry) (f : Frame)
        → HasMet frame_search es
        → HasMet (frame_search_past f frame_search) (Entry.Lost f ∷ es) }
{}

/// Each frame's owner stays the seat that holds it: a try that won makes the seat the owner of a
/// frame that had none, and a return by its holder leaves it without one.
pub fn owners_stay_holders()
    ensures won { (world : World) (views : List View) (id : ℕ) (v : View) (f : Frame)
        → get_elem? views id ≡ some v → OwnsWhatIsHeld world views → owner_of world f ≡ None
        → OwnsWhatIsHeld (with_owner world f (Some id)) (slice_set views id (after_try v f true)) }
    ensures gave { (world : World) (frames words : List ℕ) (views : List View) (id : ℕ) (v : View)
        (f : Frame) → PoolRule frames words views
        → get_elem? views id ≡ some v → OwnsWhatIsHeld world views → Holds v.held f
        → OwnsWhatIsHeld (with_owner world f None) (slice_set views id (after_give v f)) }
{}

/// A step makes an execution one longer, and leads to the world that the core's law says.
pub fn core_steps_make_executions()
    ensures { (s : Setup) (past : List CoreStep) (version : ℕ) (event : Event) (reply : CoreReply)
        → IsExecution s past → IsCoreStep s (world_of s past) version event reply
        → IsExecution s (told version event reply ∷ past)
        × (world_of s (told version event reply ∷ past)
        ≡ effect_of s (world_of s past) version event) }
{}

/// A load of a word of the current node, by a seat whose worker is searching, is a Look of that
/// worker.
pub fn load_is_a_look()
    ensures { (s : Setup) (world : World) (since : ℕ → List Entry) (old new : PoolState)
        (id version n w x : ℕ) (frame_search : FrameSearch)
        → WalksOn s world since id frame_search (Entry.Load n w x) old new
        → IsCoreStep s world version (Event.Look id w)
        (goes_on s (frame_search_after_look s world w frame_search)) }
{}

/// A try of a frame that may come next is a Try of the worker, and is answered as the seat found
/// the bit: it wins the frame, or goes on without it.
pub fn try_is_a_try()
    ensures won { (s : Setup) (world : World) (since : ℕ → List Entry) (old new : PoolState)
        (id version : ℕ) (f : Frame) (frame_search : FrameSearch)
        → WalksOn s world since id frame_search (Entry.Won f) old new
        → IsCoreStep s world version (Event.Try id f)
        (won_by s frame_search f) }
    ensures lost { (s : Setup) (world : World) (since : ℕ → List Entry) (old new : PoolState)
        (id version : ℕ) (f : Frame) (frame_search : FrameSearch)
        → WalksOn s world since id frame_search (Entry.Lost f) old new
        → IsCoreStep s world version (Event.Try id f)
        (goes_on s (frame_search_past f frame_search)) }
{}

/// After a load or a try the world is tied to the pools as before, and each frame search has met
/// what the steps found taken.
pub fn walks_keep_the_tie()
    ensures tied { (s : Setup) (world : World) (since : ℕ → List Entry) (old new : PoolState)
        (id version : ℕ) (e : Entry) (frame_search : FrameSearch)
        → WalksOn s world since id frame_search e old new
        → IsTied s (effect_of s world version (event_of id e)) new }
    ensures met { (s : Setup) (world : World) (since : ℕ → List Entry) (old new : PoolState)
        (id version : ℕ) (e : Entry) (frame_search : FrameSearch)
        → WalksOn s world since id frame_search e old new
        → HaveMet (effect_of s world version (event_of id e)) (noted since id e) }
{}

/// If its worker is idle, a return of a frame that the seat holds is a Give.
pub fn return_is_a_give()
    ensures core_step { (s : Setup) (world : World) (old new : PoolState) (id version : ℕ)
        (f : Frame)
        → IsTied s world old → frame_search_of world id ≡ None → Makes (Entry.Gave f) id old new
        → IsCoreStep s world version (Event.Give id f) CoreReply.Given }
    ensures tied { (s : Setup) (world : World) (old new : PoolState) (id version : ℕ) (f : Frame)
        → IsTied s world old → frame_search_of world id ≡ None → Makes (Entry.Gave f) id old new
        → IsTied s (effect_of s world version (Event.Give id f)) new }
    ensures met { (s : Setup) (world : World) (since : ℕ → List Entry) (id version : ℕ) (f : Frame)
        → frame_search_of world id ≡ None → HaveMet world since
        → HaveMet (effect_of s world version (Event.Give id f)) (noted since id (Entry.Gave f)) }
{}

/// A walk starts at a Begin of its seat's worker, which the pools take no step for: the frame
/// search has the list of the version that it takes, and has met nothing.
pub fn begin_starts_a_walk()
    ensures core_step { (s : Setup) (world : World) (id version : ℕ) (request : Request)
        (nodes : List ℕ) → MayBegin s world id version request nodes
        → IsCoreStep s world version (Event.Begin id request)
        (goes_on s (fresh (Some request) version nodes)) }
    ensures frame_search { (s : Setup) (world : World) (id version : ℕ) (request : Request)
        (nodes : List ℕ)
        → MayBegin s world id version request nodes
        → frame_search_of (effect_of s world version (Event.Begin id request)) id
        ≡ going_on s (fresh (Some request) version nodes) }
    ensures tied { (s : Setup) (world : World) (state : PoolState) (id version : ℕ)
        (request : Request) → IsTied s world state
        → IsTied s (effect_of s world version (Event.Begin id request)) state }
    ensures met { (s : Setup) (world : World) (since : ℕ → List Entry) (id version : ℕ)
        (request : Request) → HaveMet world since
        → HaveMet (effect_of s world version (Event.Begin id request)) (put since id []) }
{}

/// Pools that are opened are tied to the opening world. A split changes nothing there. A join moves
/// the second seat's frames to the first. No event of the core does that, so if there are any, the
/// world is no longer tied.
pub fn seats_come_and_go()
    ensures opening { (s : Setup) (state : PoolState)
        → ((n : ℕ) → slice_index s.machine.frames n ≤ 4096) → 0 < s.workers
        → IsOpening s.machine.frames state → IsTied s opening state }
    ensures split { (s : Setup) (world : World) (old new : PoolState) (id : ℕ) → IsTied s world old
        → length old.views < s.workers → Splits id old new → IsTied s world new }
    ensures join { (s : Setup) (world : World) (old new : PoolState) (id other : ℕ)
        → IsTied s world old → Joins id other old new
        → IsTied s (world_after_handover world other id) new }
    ensures ended { (s : Setup) (world : World) (old new : PoolState) (id other : ℕ) (f : Frame)
        → IsTied s world old → Joins id other old new → SeatHolds f other old
        → ¬ (IsTied s world new) }
    ensures no_event { (s : Setup) (world : World) (version n k id other : ℕ) (event : Event)
        → world.owner n k ≡ Some other
        → (effect_of s world version event).owner n k ≡ Some id → id ≡ other }
{}

/// A walk of a seat over a list of nodes is a frame search of its worker, where the Begin takes a
/// version whose list for the request that is: the walk's steps are its Looks and Tries, none is
/// refused, and the last reply tells what the walk found. Then the worker is idle.
pub fn a_walk_is_a_frame_search()
    ensures frame_search { (s : Setup) (first : World) (id version : ℕ) (request : Request)
        (nodes : List ℕ)
        (found : Option Frame) (turns : List Turn) → MayBegin s first id version request nodes
        → TakesTurns s id (effect_of s first version (Event.Begin id request)) turns
        → IsWalk s.machine.frames nodes found (steps_of turns)
        → (reply : CoreReply) × TellsOfPage version request nodes found reply
        × IsFrameSearch s id first version request reply turns }
    ensures idle { (s : Setup) (first : World) (id version : ℕ) (request : Request) (nodes : List ℕ)
        (found : Option Frame) (turns : List Turn) → MayBegin s first id version request nodes
        → TakesTurns s id (effect_of s first version (Event.Begin id request)) turns
        → IsWalk s.machine.frames nodes found (steps_of turns)
        → frame_search_of
        (world_left s id (effect_of s first version (Event.Begin id request)) turns) id ≡ None }
{}

/// Every interleaving of steps of the seats, in which each seat walks the lists that its worker
/// begins, is an execution of the core in which nothing is refused, whatever commands, publications
/// and Begins come in between. After each deed each frame's owner is the seat that holds it, and
/// each frame search has met what its seat's steps found taken.
pub fn interleavings_are_executions()
    ensures { (s : Setup) (first : PoolState) (done : List Done)
        → ((n : ℕ) → slice_index s.machine.frames n ≤ 4096) → 0 < s.workers → IsPlay s first done
        → IsExecution s (execution_of s done) × NoneRefused (execution_of s done)
        × IsTied s (world_of s (execution_of s done)) (pools_of s first done)
        × HaveMet (world_of s (execution_of s done)) (since_of s done) }
{}

/// In every such interleaving each frame that a seat wins is placed right for the core, and a walk
/// that leaves each listed node full is exhausted there: the frame lies on the node at its rank of
/// the list of the version that the worker took, and each frame of each earlier node, or of each
/// node, was found with an owner since that Begin. Where the worker seeks a node, for no request,
/// the frame is right for that. Whoever wins a frame is searching, for a request or for a node.
pub fn interleavings_place_right()
    ensures searches { (s : Setup) (first pools : PoolState) (done : List Done) (id : ℕ) (f : Frame)
        → IsPlay s first (by_seat id (Entry.Won f) pools ∷ done)
        → (frame_search : FrameSearch)
        × (frame_search_of (world_of s (execution_of s done)) id ≡ Some frame_search) }
    ensures won { (s : Setup) (first pools : PoolState) (done : List Done) (id : ℕ) (f : Frame)
        → ((n : ℕ) → slice_index s.machine.frames n ≤ 4096) → 0 < s.workers
        → IsPlay s first (by_seat id (Entry.Won f) pools ∷ done)
        → (frame_search : FrameSearch)
        → frame_search_of (world_of s (execution_of s done)) id ≡ Some frame_search
        → (request : Request) → frame_search.request ≡ Some request
        → (placement : Placement) × (placement.frame ≡ f)
        × IsRightPlacement s id placement (execution_of s done) }
    ensures found { (s : Setup) (first pools : PoolState) (done : List Done) (id : ℕ) (f : Frame)
        → ((n : ℕ) → slice_index s.machine.frames n ≤ 4096) → 0 < s.workers
        → IsPlay s first (by_seat id (Entry.Won f) pools ∷ done)
        → (frame_search : FrameSearch)
        → frame_search_of (world_of s (execution_of s done)) id ≡ Some frame_search
        → frame_search.request ≡ None → IsRightFrame s id f (execution_of s done) }
    ensures exhausted { (s : Setup) (first pools : PoolState) (done : List Done) (id : ℕ)
        (e : Entry) (frame_search : FrameSearch) → ((n : ℕ) → slice_index s.machine.frames n ≤ 4096)
        → 0 < s.workers → IsPlay s first (by_seat id e pools ∷ done)
        → frame_search_of (world_of s (execution_of s done)) id ≡ Some frame_search
        → (request : Request) → frame_search.request ≡ Some request
        → AllFull s.machine.frames (e ∷ since_of s done id) frame_search.nodes
        → IsExhausted s id frame_search.version (execution_of s (by_seat id e pools ∷ done)) }
    ensures full { (s : Setup) (first pools : PoolState) (done : List Done) (id : ℕ)
        (e : Entry) (frame_search : FrameSearch) → ((n : ℕ) → slice_index s.machine.frames n ≤ 4096)
        → 0 < s.workers → IsPlay s first (by_seat id e pools ∷ done)
        → frame_search_of (world_of s (execution_of s done)) id ≡ Some frame_search
        → frame_search.request ≡ None
        → AllFull s.machine.frames (e ∷ since_of s done id) frame_search.nodes
        → IsFull s id (execution_of s (by_seat id e pools ∷ done)) }
{}
