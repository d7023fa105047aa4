//! Laws about the definitions that the contracts of this crate cite. The functions do nothing: what
//! each one ensures is a law.
ghost use Rattle.std.specs.Prelude.{◌≡◌, ℕ, Bool, true, false, Some, None, [], List};
ghost use Rattle.numa_host.specs.Processes.{commands_of, is_there, members_of};
ghost use Rattle.numa_page_state.specs.Outcomes.{Lack};
ghost use Rattle.numa_run.specs.Answers.{State, after, answer_of, own_line};
ghost use Rattle.numa_run.specs.Judged.{fault_of};
ghost use Rattle.numa_run.specs.Replies.{outcome_of};
ghost use Rattle.numa_script.specs.declared.line.Line.{Line};
ghost use Rattle.numa_script.specs.declared.line.Question.{Question};
ghost use Rattle.numa_script.specs.declared.line.ScriptLine.{ScriptLine};
ghost use Rattle.numa_huge.specs.Moves.{HugeMemory};
ghost use Rattle.numa_host_huge.specs.Sharing.{home_of};
ghost use Rattle.numa_host_pages.specs.Homes.{HostLying, with_huge};
ghost use Rattle.numa_host_script.specs.Paging.{memory_at, pages_at};
ghost use Rattle.numa_host_script.specs.Judged.{host_fault};
ghost use Rattle.numa_host_script.specs.Sessions.{Hosting, HostLack, Single, in_outcome, is_begin};
ghost use Rattle.numa_host_script.specs.Sessions.{session_after, session_answer};
ghost use Rattle.numa_host_script.specs.Standing.{told};

use numa_script::{Line, Question};

/// Until a line `host` comes, each line is answered as in a script of one process, and leads to the
/// same state.
pub fn without_host()
    ensures { (lack : HostLack) (state : State) (said : ScriptLine) → is_begin said ≡ false
        → (session_answer lack (Single state) said ≡ answer_of lack.lacked state (own_line said))
        × (session_after lack (Single state) said
        ≡ Single (after lack.lacked state (own_line said))) }
{}

/// A process answers a question, and `maps`, as a script does that has accepted its commands, has
/// placed no page in a frame, and whose pages of both sizes lie where those of the process do.
pub fn process_answers()
    ensures asked { (lacked : Lack) (at : Hosting) (process : ℕ) (state : State)
        (question : Question) → state.machine ≡ Some at.machine
        → state.world.history ≡ commands_of at.machine at.history process
        → is_there (members_of at.history) process ≡ true
        → (in_outcome lacked at process (Line.Question question)).answer
        ≡ (outcome_of lacked state (Line.Question question)).answer }
    ensures listed { (lacked : Lack) (at : Hosting) (process : ℕ) (state : State) (task : ℕ)
        → state.machine ≡ Some at.machine
        → state.world.history ≡ commands_of at.machine at.history process
        → state.resident ≡ [] → state.lying.spots ≡ (pages_at at process).spots
        → state.bounds ≡ at.bounds → state.huge ≡ memory_at at process
        → is_there (members_of at.history) process ≡ true
        → (in_outcome lacked at process (Line.Maps task)).answer
        ≡ (outcome_of lacked state (Line.Maps task)).answer }
{}

/// A question of a process is judged as by a script that has accepted its commands.
pub fn process_judged()
    ensures { (lack : HostLack) (at : Hosting) (process : ℕ) (state : State)
        (question : Question) → state.machine ≡ Some at.machine
        → state.world.history ≡ commands_of at.machine at.history process
        → is_there (members_of at.history) process ≡ true
        → host_fault lack at (told process (Line.Question question))
        ≡ fault_of lack.lacked state (Line.Question question) }
{}

/// What a process does changes its own pages of 2 MiB, and those of no other.
pub fn others_keep()
    ensures { (process other : ℕ) (memory : HugeMemory) (at : HostLying) → (other ≡ process → ⊥)
        → home_of other (with_huge process memory at).huge.homes ≡ home_of other at.huge.homes }
{}
