//! Laws of every execution of the core. The functions do nothing: what each one ensures is a law.
ghost use Rattle.std.specs.Prelude.{◌≡◌, ◌≢◌, ℕ, ◌^◌, ◌<◌, ◌≤◌, true, Ok, Some};
ghost use Rattle.std.specs.Prelude.{List, ◌∷◌, ◌++◌, length, count_by};
ghost use Rattle.std.specs.List.{list_any};
ghost use Rattle.numa_mask.specs.NodeSet.{has};
ghost use Rattle.numa_space.specs.Policies.{allowed_nodes};
ghost use Rattle.numa_space.specs.Standing.{IsAccepted, IsNodeList};
ghost use Rattle.numa_core.specs.World.{Setup, first_commands, is_published};
ghost use Rattle.numa_core.specs.World.{list_at, newest_published};
ghost use Rattle.numa_core.specs.Standing.{CoreState, CoreStandsFor, ShowsWorld, setup_of};
ghost use Rattle.numa_requests.specs.declared.request.Request.{Request};
ghost use Rattle.numa_core.specs.Executions.{CoreStep, accepts, world_of, next_core_step};
ghost use Rattle.numa_core.specs.Executions.{IsExecution};
ghost use Rattle.numa_core.specs.Executions.{IsRightPlacement, IsExhausted, IsRightFrame, IsFull};
ghost use Rattle.numa_core.specs.Executions.{IsWin, worker_of};
ghost use Rattle.numa_core.specs.Executions.{gives_back, version_told};
ghost use Rattle.numa_requests.specs.declared.event.Event.{Event};
ghost use Rattle.numa_requests.specs.declared.event.CoreReply.{CoreReply};
ghost use Rattle.numa_machine.specs.declared.frame.Frame.{Frame};
ghost use Rattle.numa_requests.specs.declared.placement.Placement.{Placement};

/// In every execution, for any machine, limits and number of workers: each Won replies to a Try of
/// its frame, and its placement is right; at each Exhausted the worker has found every frame of its
/// list with an owner; each Found replies to a Try of its frame, which belongs to the node that the
/// worker seeks; at each Full the worker has found every frame of that node with an owner; between
/// two Won or Found of one frame the first winner gives the frame back; and the versions in the Won
/// and Exhausted of one worker never decrease.
pub fn every_execution()
    ensures right { (s : Setup) (later earlier : List CoreStep) (m : CoreStep)
        (placement : Placement) →
        IsExecution s (later ++ m ∷ earlier) → m.answer ≡ Ok (CoreReply.Won placement) →
        (w : ℕ) × (m.event ≡ Event.Try w placement.frame) × IsRightPlacement s w placement earlier }
    ensures exhausted { (s : Setup) (later earlier : List CoreStep) (m : CoreStep) (version : ℕ) →
        IsExecution s (later ++ m ∷ earlier) → m.answer ≡ Ok (CoreReply.Exhausted version) →
        (w : ℕ) × (worker_of m.event ≡ Some w) × IsExhausted s w version (m ∷ earlier) }
    ensures found { (s : Setup) (later earlier : List CoreStep) (m : CoreStep) (frame : Frame) →
        IsExecution s (later ++ m ∷ earlier) → m.answer ≡ Ok (CoreReply.Found frame) →
        (w : ℕ) × (m.event ≡ Event.Try w frame) × IsRightFrame s w frame earlier }
    ensures full { (s : Setup) (later earlier : List CoreStep) (m : CoreStep) →
        IsExecution s (later ++ m ∷ earlier) → m.answer ≡ Ok CoreReply.Full →
        (w : ℕ) × (worker_of m.event ≡ Some w) × IsFull s w (m ∷ earlier) }
    ensures given_back { (s : Setup) (later between earlier : List CoreStep)
        (first second : CoreStep) (v w : ℕ) (frame : Frame) →
        IsExecution s (later ++ second ∷ (between ++ first ∷ earlier)) → IsWin v frame first →
        IsWin w frame second →
        list_any (gives_back v frame) between ≡ true }
    ensures never_falls { (s : Setup) (later between earlier : List CoreStep)
        (old new : CoreStep) (w a b : ℕ) →
        IsExecution s (later ++ new ∷ (between ++ old ∷ earlier)) → worker_of old.event ≡ Some w →
        worker_of new.event ≡ Some w →
        version_told old.answer ≡ Some a → version_told new.answer ≡ Some b → a ≤ b }
{}

/// No execution comes to a standstill: with ample memory it can continue with any event, where a
/// Begin or a Seek takes the newest published version. No published version is above that one.
pub fn every_execution_goes_on()
    ensures goes_on { (s : Setup) (past : List CoreStep) (event : Event) → IsExecution s past →
        IsExecution s (next_core_step s past event ∷ past) }
    ensures newest { (s : Setup) (past : List CoreStep) (version : ℕ) → IsExecution s past →
        is_published (world_of s past) version ≡ true
        → version ≤ newest_published (world_of s past) }
{}

/// The commands of every execution: none of them had a cause against it when it came, and they are
/// as many as the Ok replies to Accept. A published version means the same commands for ever, and
/// the newest version never decreases.
pub fn every_execution_has_commands()
    ensures accepted { (s : Setup) (past : List CoreStep) → IsExecution s past →
        IsAccepted s.machine s.bounds (world_of s past).history }
    ensures counted { (s : Setup) (past : List CoreStep) → length (world_of s past).history
        ≡ count_by accepts past }
    ensures same { (s : Setup) (later earlier : List CoreStep) (version : ℕ) →
        IsExecution s (later ++ earlier) →
        is_published (world_of s earlier) version ≡ true →
        first_commands version (world_of s (later ++ earlier)).history
        ≡ first_commands version (world_of s earlier).history }
    ensures rises { (s : Setup) (later earlier : List CoreStep) → IsExecution s (later ++ earlier) →
        newest_published (world_of s earlier) ≤ newest_published (world_of s (later ++ earlier)) }
{}

/// On a machine with memory, each fallback list of a version of an execution isn't empty, has no
/// node twice, and has only nodes that are allowed at that version; so the node of each won frame
/// is allowed.
pub fn every_list()
    ensures sound { (s : Setup) (past : List CoreStep) (version : ℕ) (request : Request)
        (nodes : List ℕ) →
        s.machine.memory ≢ 0 → s.machine.memory < 2 ^ 256 → IsExecution s past →
        list_at s.machine (world_of s past).history version request ≡ Some nodes →
        IsNodeList (allowed_nodes s.machine (first_commands version (world_of s past).history))
        nodes }
    ensures allowed { (s : Setup) (later earlier : List CoreStep) (m : CoreStep)
        (placement : Placement) →
        s.machine.memory ≢ 0 → s.machine.memory < 2 ^ 256 → IsExecution s (later ++ m ∷ earlier) →
        m.answer ≡ Ok (CoreReply.Won placement) →
        has (allowed_nodes s.machine
        (first_commands placement.version (world_of s earlier).history)) placement.node ≡ true }
{}

/// A core that shows the world of an execution stands for it. It follows that the newest published
/// version is of accepted commands, and that no worker took a newer one.
pub fn every_core()
    ensures stands { (past : List CoreStep) (core : CoreState) → IsExecution (setup_of core) past →
        ShowsWorld core (world_of (setup_of core) past) →
        CoreStandsFor core (world_of (setup_of core) past) }
{}
