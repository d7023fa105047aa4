//! Carrying out the lines of a host.
ghost use Rattle.std.specs.Prelude.{◌≡◌, Ok, Option};
ghost use Rattle.numa_host_script.specs.Acting.{AppliesTo};
ghost use Rattle.numa_host_script.specs.Sessions.{command_outcome, given_outcome, host_command_of};
ghost use Rattle.numa_host_script.specs.Sessions.{own_where, plain_reply};
ghost use Rattle.numa_script.specs.Lines.{alone};
ghost use Rattle.numa_host_script.specs.Standing.{Replies, Takes, told};
ghost use Rattle.numa_run.specs.Replies.{bind_nothing};

use crate::binding::bind;
use crate::paging::{give, own_page, pages_in};
use crate::pooling::{huge_in, own_huge};
use crate::running::RunningHost;
use numa_host_pages::obey;
use numa_requests::{Command, HostCommand};
use numa_run::Taken;
use numa_script::commands::empty_bind;
use numa_script::{Line, Question, Reply, ScriptLine, WordError};
use std::alloc::Global;

/// What a line came to: it has been carried out, or its answer shows what is.
#[derive(Drop)]
pub enum HostTaken {
    /// A line of a script of one process.
    Own(Taken),
    /// A reply; the line has been carried out.
    Reply(Reply),
    /// A question of a process, whose answer is still to be written.
    Asked { process: u32, question: Question },
    /// The ranges of a process are still to be listed, for a task.
    Listed { process: u32, task: u32 },
    /// What the last move of a process did is still to be told.
    Moved(u32),
    /// What the last move of the host did, all its processes together, is still to be told.
    MovedAll,
    /// How many more pages nodes take is still to be told.
    Rooms,
    /// What the pools of pages of 2 MiB have is still to be told.
    Pools,
    /// Pages of a process were touched, and what came of it is still to be told.
    Arrived(u32),
}

/// Carries out a command of the host.
pub(crate) fn obey_host(running: &mut RunningHost, command: &HostCommand) -> Reply
    ensures host { AppliesTo running.old.host command.now result running.new.host }
    ensures runs { Replies running.old result running.new
        (λ lack at. command_outcome lack at command.now) }
{
    match obey(&mut running.host, &mut running.pages, command) {
        Ok(()) => Reply::Accepted(running.host.version()),
        Err(refusal) => Reply::HostRefused(refusal),
    }
}

/// Carries out an `mbind` of length 0 whose mode, flag and nodes are refused together.
fn bind_nothing(running: &mut RunningHost, process: u32, start: u64, fault: WordError) -> Reply
    ensures { Replies running.old result running.new (λ lack at. given_outcome lack.lacked at
        process (bind_nothing at.machine.rules start fault)) }
{
    if running.host.machine().rules().is_linux() {
        return give(running, process, Ok(empty_bind(start)));
    }
    give(running, process, Err(fault))
}

/// Carries out a line of a process.
fn take_in(running: &mut RunningHost, alloc: Global, process: u32, line: &Line<'_>) -> HostTaken
    ensures { Takes running.old (told process line.now) result running.new }
{
    match line {
        Line::Command(said) => HostTaken::Reply(give(running, process, *said)),
        Line::EmptyBind { start, fault } => {
            HostTaken::Reply(bind_nothing(running, process, *start, *fault))
        }
        Line::Question(question) => HostTaken::Asked {
            process,
            question: *question,
        },
        Line::Maps(task) => HostTaken::Listed {
            process,
            task: *task,
        },
        Line::Pages(said) => pages_in(running, alloc, process, said),
        Line::Bind {
            start,
            length,
            policy,
            pages,
        } => HostTaken::Reply(bind(running, alloc, process, *start, *length, policy, pages)),
        Line::Huge(said) => huge_in(running, alloc, process, said),
        _ => HostTaken::Reply(Reply::BadState),
    }
}

/// The command of the host that a line says, or what is wrong with its list.
fn host_command_of(line: &Line<'_>) -> Option<Result<HostCommand, WordError>>
    ensures { result ≡ host_command_of line.now }
{
    match line {
        Line::HostCommand(said) => Some(*said),
        Line::Command(Ok(Command::SetWeight { node, weight })) => {
            Some(Ok(HostCommand::SetWeight {
                node: *node,
                weight: *weight,
            }))
        }
        _ => None,
    }
}

/// The reply to a line of one process that the host is told.
fn plain_reply(line: &Line<'_>) -> Reply
    ensures { result ≡ plain_reply line.now }
{
    match line {
        Line::Silent => Reply::Silent,
        Line::Malformed => Reply::BadWords,
        _ => Reply::BadState,
    }
}

/// Carries out a line that names no process and isn't about pages or pools.
fn reply_own(running: &mut RunningHost, line: &Line<'_>) -> Reply
    ensures { Replies running.old result running.new
        (λ lack at. own_where (host_command_of line.now) lack at line.now) }
{
    match host_command_of(line) {
        Some(Ok(command)) => obey_host(running, &command),
        Some(Err(fault)) => Reply::BadWord(fault),
        None => plain_reply(line),
    }
}

/// Carries out a line that names no process.
fn take_own(running: &mut RunningHost, line: &Line<'_>) -> HostTaken
    ensures { Takes running.old (alone line.now) result running.new }
{
    match line {
        Line::Pages(said) => match said {
            Ok(shown) => own_page(running, shown),
            Err(_) => HostTaken::Reply(reply_own(running, line)),
        },
        Line::Huge(said) => own_huge(running, said),
        _ => HostTaken::Reply(reply_own(running, line)),
    }
}

/// Carries out a line.
#[inline(never)]
pub(crate) fn take(running: &mut RunningHost, alloc: Global, said: &ScriptLine<'_>) -> HostTaken
    ensures { Takes running.old said.now result running.new }
{
    match said.process {
        Some(process) => take_in(running, alloc, process, &said.line),
        None => take_own(running, &said.line),
    }
}
