//! Issues of a desk, and how its board comes to show them.
ghost use Rattle.std.specs.Prelude.{◌≡◌, ◌≤◌, ◌<◌, ◌∷◌, ◌++◌, [], length, reverse, IfOk, OnErr};
ghost use Rattle.std.specs.Arc.{arc_value};
ghost use Rattle.numa_space.specs.Standing.{StandsFor};
ghost use Rattle.numa_publish.specs.Batches.{history_of};
ghost use Rattle.numa_publish.specs.Boards.{desk_told, notice_of};
ghost use Rattle.numa_publish.specs.Kept.{IsIssueOf, IsNextNotice, IsNoticeOf};

use crate::board::{Board, Showing, Turn};
use crate::ghosts::{About, History};
use crate::issue::{Issue, Mark, Shown};
use crate::log::{Front, Log};
use numa_compile::PlannedSpace;
use numa_machine::NoMemory;
use numa_requests::Command;
use std::alloc::Global;
use std::sync::Arc;

/// The issue of this space: its plan stands for this prefix of the log and the commands that wait.
fn issued(
    alloc: Global,
    space: &mut PlannedSpace,
    pending: &Vec<Command>,
    front: &Front,
) -> Result<Arc<Issue>, NoMemory>
    requires { StandsFor space.old (reverse pending.now.items ++ history_of front.now.log) }
    ensures same { space.new ≡ space.old }
    ensures issue { IfOk result (λ a. IsIssueOf space.old
        (reverse pending.now.items ++ history_of front.now.log) (arc_value a)) }
{
    let Ok(plan) = space.plan_copy(alloc) else {
        return Err(NoMemory);
    };
    let accepted = space.space();
    // Tells the proof that the plan has one run for each range of the history.
    let _ = accepted.ranges();
    let issue = Issue {
        plan,
        machine: About::of(accepted.machine()),
        history: History::of(pending, front),
    };
    Arc::new(alloc, issue).ok().ok_or(NoMemory)
}

/// What follows the log, twice: the issue of all accepted commands, of which the log then has the
/// pending ones too. Nothing that wants memory comes after the step of the log.
fn next_shown(
    alloc: Global,
    space: &mut PlannedSpace,
    log: &mut Log,
    pending: &Vec<Command>,
) -> Result<(Shown, Shown), NoMemory>
    requires stands { StandsFor space.old
        (reverse pending.now.items ++ history_of log.old.seen.log) }
    requires some { 0 < length pending.now.items }
    ensures space { space.new ≡ space.old }
    ensures next { IfOk result (λ s. IsNextNotice space.old log.old.seen.log
        log.old.seen.book pending.now.items (notice_of s.0) log.new.seen.log log.new.seen.book) }
    ensures alike { IfOk result (λ s. notice_of s.1 ≡ notice_of s.0) }
    ensures unchanged { OnErr result (log.new.seen ≡ log.old.seen) }
{
    let Ok(issue) = issued(alloc, space, pending, &log.seen) else {
        return Err(NoMemory);
    };
    let Ok(other) = Arc::try_clone(&issue) else {
        return Err(NoMemory);
    };
    // Nobody else adds to the log, so it always succeeds, which no proof can see.
    if !log.add(pending, space.space().version()) {
        return Err(NoMemory);
    }
    let first = Shown {
        issue,
        front: log.seen.again(),
    };
    let second = Shown {
        issue: other,
        front: log.seen.again(),
    };
    Ok((first, second))
}

/// Shows all accepted commands at the board, as the newest version: its number, and the desk's own
/// share of it.
pub(crate) fn show_next(
    alloc: Global,
    showing: &Showing,
    space: &mut PlannedSpace,
    log: &mut Log,
    pending: &Vec<Command>,
) -> Result<(Turn, Shown), NoMemory>
    requires stands { StandsFor space.old
        (reverse pending.now.items ++ history_of log.old.seen.log) }
    requires some { 0 < length pending.now.items }
    requires here { (arc_value showing.now.board).mark
        ≡ record { book = log.old.seen.book; machine = space.old.machine } }
    ensures space { space.new ≡ space.old }
    ensures next { IfOk result (λ s. IsNextNotice space.old log.old.seen.log
        log.old.seen.book pending.now.items (notice_of s.1) log.new.seen.log log.new.seen.book) }
    ensures turned { IfOk result (λ s. s.0.front ≡ s.1.front) }
    ensures unchanged { OnErr result (log.new.seen ≡ log.old.seen) }
{
    let board: &Board = &showing.board;
    let Some(vacancy) = board.vacancy() else {
        return Err(NoMemory);
    };
    let Ok((next, share)) = next_shown(alloc, space, log, pending) else {
        vacancy.leave();
        return Err(NoMemory);
    };
    let filled = vacancy.fill(next);
    Ok((board.turn_to(filled, showing.turn.number()), share))
}

/// A board for `readers` readers that shows version 0, the issue of a space in which nothing is
/// accepted, and the desk's own share of that.
pub(crate) fn opened(
    alloc: Global,
    space: &mut PlannedSpace,
    start: &Front,
    readers: usize,
) -> Result<(Showing, Shown), NoMemory>
    requires few { readers ≤ 64 }
    requires stands { StandsFor space.old (history_of start.now.log) }
    ensures space { space.new ≡ space.old }
    ensures shown { IfOk result (λ o. IsNoticeOf space.old start.now.log start.now.book
        (notice_of o.1)) }
    ensures here { IfOk result (λ o. (arc_value o.0.board).mark ≡ desk_told o.1) }
    ensures turned { IfOk result (λ o. o.0.turn.front ≡ o.1.front) }
{
    let none = Vec::new(alloc);
    let Ok(issue) = issued(alloc, space, &none, start) else {
        return Err(NoMemory);
    };
    let mine = Shown {
        issue,
        front: start.again(),
    };
    let Ok(first) = mine.again() else {
        return Err(NoMemory);
    };
    let mark = Mark::of(start, space.space().machine());
    let Ok(board) = Board::new(alloc, mark, readers) else {
        return Err(NoMemory);
    };
    let Some(vacancy) = board.vacancy() else {
        return Err(NoMemory);
    };
    let filled = vacancy.fill(first);
    let turn = board.turn_to(filled, 0);
    let Some(board) = Arc::new(alloc, board).ok() else {
        return Err(NoMemory);
    };
    Ok((Showing { board, turn }, mine))
}

/// Lets go of the versions that nobody else has.
pub(crate) fn let_go(spent: &mut Vec<Shown>) {
    spent.retain(|shown| Arc::strong_count(&shown.issue) > 1);
}
