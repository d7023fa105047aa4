//! What kind of line a script is told, and which lines of one process have no place in a host.
ghost use Rattle.std.specs.Prelude.{◌≡◌, IfSome, MatchOption, Some, true, false};
ghost use Rattle.numa_host_script.specs.Sessions.{bounds_after, is_begin, is_fresh};
ghost use Rattle.numa_host_script.specs.Taking.{misplaced_reply, shown_by};
ghost use Rattle.numa_run.specs.Answers.{State};
ghost use Rattle.numa_run.specs.Scripts.{ScriptStandsFor};
ghost use Rattle.numa_script.specs.Lines.{alone};

use numa_machine::Machine;
use numa_requests::Limits;
use numa_run::{Script, Taken};
use numa_script::{Line, Question, Reply, ScriptLine};

/// Whether a line is `host`.
#[inline(always)]
pub(crate) fn is_begin(said: &ScriptLine<'_>) -> bool
    ensures { result ≡ is_begin said.now }
{
    if let Some(_) = said.process {
        return false;
    }
    match &said.line {
        Line::Host => true,
        _ => false,
    }
}

/// The question of a line that names no process.
#[inline(always)]
pub(crate) fn plain_question(said: &ScriptLine<'_>) -> Option<Question>
    ensures { IfSome result (λ asked. said.now ≡ alone (Line.Question asked)) }
{
    if let Some(_) = said.process {
        return None;
    }
    match &said.line {
        Line::Question(question) => Some(*question),
        _ => None,
    }
}

/// The machine of a script, if it is ready, no command is accepted yet, and no page of 2 MiB is
/// kept.
pub(crate) fn fresh_machine(script: &Script) -> Option<&Machine>
    ensures { (state : State) → ScriptStandsFor script.now state → MatchOption result
        (is_fresh state ≡ false) (λ machine. (state.machine ≡ Some machine.now)
        × (is_fresh state ≡ true)) }
{
    let core = script.core()?;
    if core.space().version() > 0 {
        return None;
    }
    if script.keeps_huge() {
        return None;
    }
    Some(core.space().machine())
}

/// The limits after a line of one process.
pub(crate) fn limits_after(script: &Script, limits: Limits, line: &Line<'_>) -> Limits
    ensures { (state : State) → ScriptStandsFor script.now state
        → result ≡ bounds_after state.machine limits line.now }
{
    if let Some(_) = script.core() {
        return limits;
    }
    let Line::Limits {
        ranges,
        tasks,
        commands,
    } = line
    else {
        return limits;
    };
    match Limits::new(*ranges, *tasks, *commands) {
        Some(given) => given,
        None => limits,
    }
}

/// The reply to what was taken of a line of one process, where there is a host; none where the host
/// tells its rooms, its pools, or what its last move did.
pub(crate) fn misplaced(taken: Taken) -> Option<Reply>
    ensures { result ≡ misplaced_reply taken }
{
    match taken {
        Taken::Reply(reply) => Some(reply),
        Taken::Question(_) => Some(Reply::BadState),
        Taken::Maps(_) => Some(Reply::BadState),
        Taken::Moved => None,
        Taken::Rooms => None,
        Taken::Arrived => Some(Reply::BadState),
        Taken::Pools => None,
    }
}

/// What a host shows of its pages: what its last move did, its pools, or its rooms.
#[derive(Clone, Copy)]
pub(crate) enum Shows {
    Move,
    Pools,
    Rooms,
}

/// Which of these a line of one process asks for, where it has no reply.
#[inline(always)]
pub(crate) fn shown_by(taken: &Taken) -> Shows
    ensures { result ≡ shown_by taken.now }
{
    match taken {
        Taken::Moved => Shows::Move,
        Taken::Pools => Shows::Pools,
        _ => Shows::Rooms,
    }
}
