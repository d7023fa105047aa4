//! Laws of the definitions that contracts cite. The functions do nothing: what each one ensures is
//! a law.
ghost use Rattle.std.specs.Prelude.{◌≡◌, ℕ, ◌<◌, ◌≤◌, Bool, true, false, List, [], ◌∷◌};
ghost use Rattle.std.specs.Prelude.{◌++◌};
ghost use Rattle.std.specs.Prelude.{length, slice_index, slice_get, Option, Some, None};
ghost use Rattle.numa_pool.specs.Frames.{with_found, gained_each, IsOnce};
ghost use Rattle.numa_pool.specs.Order.{AreAllSeats, IsByThese, IsLedTo};
ghost use Rattle.numa_pool.specs.Rule.{PoolRule, Counted};
ghost use Rattle.numa_pool.specs.Seats.{Closes};
ghost use Rattle.numa_pool.specs.Walk.{met, won_in, IsWalk, WalksInOrder, WalksEach};
ghost use Rattle.numa_pool.specs.Walk.{IsDistinct, LoadsOnce, TriesOnce};
ghost use Rattle.numa_pool.specs.declared.view.Entry.{Entry};
ghost use Rattle.numa_pool.specs.declared.view.Past.{Past};
ghost use Rattle.numa_pool.specs.declared.view.View.{View};
ghost use Rattle.numa_machine.specs.declared.frame.Frame.{Frame};

/// The counts that each step keeps imply the rule of the pools: a bit is set exactly if a seat
/// holds its frame, no two seats hold one frame, and the bits past a node's frames are clear.
pub fn counts_keep_the_rule()
    ensures { (frames words : List ℕ) (views : List View)
        → ((n : ℕ) → slice_index frames n ≤ 4096) → Counted frames words views
        → PoolRule frames words views }
{}

/// A walk tries no frame twice.
pub fn walk_is_sparing()
    ensures { (frames nodes : List ℕ) (found : Option Frame) (es : List Entry)
        → IsWalk frames nodes found es → TriesOnce es }
{}

/// Walks of the nodes of a list in order, up to the first that won a frame, are a walk of the list,
/// if no node is in it twice; and no word is loaded twice.
pub fn walks_compose()
    ensures { (frames nodes : List ℕ) (found : Option Frame) (es : List Entry)
        → IsDistinct nodes → WalksInOrder frames nodes found es
        → IsWalk frames nodes found es × LoadsOnce es }
{}

/// A walk that found a frame won that one only, and a walk that found none won none.
pub fn walk_wins_what_it_found()
    ensures { (frames nodes : List ℕ) (found : Option Frame) (es : List Entry)
        → IsWalk frames nodes found es → won_in es ≡ with_found found [] }
{}

/// A walk that won a frame found each frame of each earlier node taken at one of its steps: a load
/// that found the bit set, or a try that was lost. The frame itself belongs to its node, and wasn't
/// found taken before.
pub fn win_means()
    ensures listed { (frames nodes : List ℕ) (frame : Frame) (es : List Entry)
        → IsWalk frames nodes (Some frame) es
        → (rank : ℕ) × (slice_get nodes rank ≡ Some frame.node)
        × ((i k : ℕ) → i < rank → k < slice_index frames (slice_index nodes i)
        → met es (slice_index nodes i) k ≡ true) }
    ensures earlier { (frames nodes : List ℕ) (frame : Frame) (es : List Entry) (rank : ℕ)
        → IsDistinct nodes → IsWalk frames nodes (Some frame) es
        → slice_get nodes rank ≡ Some frame.node
        → (i k : ℕ) → i < rank → k < slice_index frames (slice_index nodes i)
        → met es (slice_index nodes i) k ≡ true }
    ensures frame { (frames nodes : List ℕ) (frame : Frame) (es : List Entry)
        → IsWalk frames nodes (Some frame) es
        → (frame.number < slice_index frames frame.node)
        × (met es frame.node frame.number ≡ false) }
{}

/// A walk that won no frame found each frame of each listed node taken at one of its steps.
pub fn exhaustion_means()
    ensures { (frames nodes : List ℕ) (es : List Entry) → IsWalk frames nodes None es
        → (i k : ℕ) → i < length nodes → k < slice_index frames (slice_index nodes i)
        → met es (slice_index nodes i) k ≡ true }
{}

/// Sequences of walks: one walk is a sequence, two sequences make one, and what a sequence won is
/// what its walks found.
pub fn walks_follow()
    ensures one { (frames nodes : List ℕ) (found : Option Frame) (es : List Entry)
        → IsWalk frames nodes found es → LoadsOnce es
        → WalksEach frames (nodes ∷ []) (found ∷ []) es }
    ensures more { (frames : List ℕ) (rows others : List (List ℕ))
        (found more : List (Option Frame))
        (es later : List Entry)
        → WalksEach frames rows found es → WalksEach frames others more later
        → WalksEach frames (rows ++ others) (found ++ more) (later ++ es) }
    ensures won { (frames : List ℕ) (rows : List (List ℕ)) (found : List (Option Frame))
        (es : List Entry) (held : List Frame)
        → WalksEach frames rows found es → won_in es ++ held ≡ gained_each found held }
{}

/// At the end of the pools no frame is held twice. So no frame belonged to two of the seats that
/// were joined into the one that the pools ended with.
pub fn the_end_tells_frames_apart()
    ensures { (frames : List ℕ) (held : List Frame) (taken : List ℕ) (alone : Bool)
        → Closes frames held taken alone → IsOnce held }
{}

/// If all seats that there ever were were joined into the one that the pools ended with, the order
/// that the end tells has the steps of no other seat.
pub fn all_seats_made_all_steps()
    ensures { (frames : List ℕ) (pasts : List Past) (words : List ℕ)
        → (order : IsLedTo frames pasts words) → AreAllSeats pasts
        → IsByThese order.seats order.deeds.made }
{}
