//! Lines about pages in a host.
ghost use Rattle.std.specs.Prelude.{◌≡◌, ℕ, IfErr, IfSome, IsSome, None, Ok, Some, true};
ghost use Rattle.numa_host_pages.specs.Homes.{HostLying, given_back, pages_in, pages_lent};
ghost use Rattle.numa_host_pages.specs.Standing.{HostLies};
ghost use Rattle.numa_host_script.specs.Acting.{AppliesTo, IsLackOf};
ghost use Rattle.numa_host_script.specs.Paging.{given_outcome, obeyed};
ghost use Rattle.numa_host_huge.specs.Kept.{spots_in};
ghost use Rattle.numa_host_huge.specs.Standing.{CanBe};
ghost use Rattle.numa_huge.specs.Huge.{has_huge, places_of};
ghost use Rattle.numa_page_state.specs.Huge.{huge_count, huge_first};
ghost use Rattle.numa_space.specs.History.{page_count, page_of};
ghost use Rattle.numa_host_script.specs.Paging.{pages_reply, small_unmap, unmap_outcome};
ghost use Rattle.numa_host_script.specs.Standing.{Answers, ForgetsIn, Replies, Takes};
ghost use Rattle.numa_host_script.specs.Standing.{UnmapsBoth, told};
ghost use Rattle.numa_page_state.specs.Lying.{with_spots};
ghost use Rattle.numa_placed.specs.Spots.{spot_at};
ghost use Rattle.numa_placed.specs.declared.spot.Spot.{Spot};
ghost use Rattle.numa_requests.specs.declared.command.Command.{Command};
ghost use Rattle.numa_requests.specs.declared.host_command.HostCommand.{HostCommand};
ghost use Rattle.numa_script.specs.Lines.{alone};

use crate::both::change_in;
use crate::running::RunningHost;
use crate::taking::HostTaken;
use numa_host::Host;
use numa_host_pages::HostPages;
use numa_huge::HugePlaces;
use numa_mask::ListFault;
use numa_page_state::PageState;
use numa_page_state::binding::page_count;
use numa_placed::Placed;
use numa_requests::{Command, HostCommand, HostRefusal, PAGE_BYTES, PlacedRefusal};
use numa_run::paging::page_reply;
use numa_script::{Line, PageLine, Reply, WordError};
use std::alloc::Global;

/// Carries out a line about pages that a process is told. What `moved` and a `populate` that isn't
/// refused tell is still to be written.
fn page_in(running: &mut RunningHost, alloc: Global, process: u32, line: &PageLine) -> HostTaken
    ensures { Takes running.old (told process (Line.Pages (Ok line.now))) result running.new }
{
    match line {
        PageLine::Room { .. } => HostTaken::Reply(Reply::BadWords),
        PageLine::Rooms => HostTaken::Reply(Reply::BadWords),
        PageLine::MemoryMigrate(_) => HostTaken::Reply(Reply::BadWords),
        PageLine::Moved => HostTaken::Moved(process),
        _ => match change_in(running, alloc, process, line) {
            Some(reply) => HostTaken::Reply(reply),
            None => HostTaken::Arrived(process),
        },
    }
}

/// The same, or tells what is wrong with its list.
pub(crate) fn pages_in(
    running: &mut RunningHost,
    alloc: Global,
    process: u32,
    said: &Result<PageLine, ListFault>,
) -> HostTaken
    ensures { Takes running.old (told process (Line.Pages said.now)) result running.new }
{
    match said {
        Ok(line) => page_in(running, alloc, process, line),
        Err(fault) => HostTaken::Reply(Reply::BadWord(WordError::List(*fault))),
    }
}

/// Carries out a line about pages that no process is told. What `room` alone and `moved` tell is
/// still to be written.
pub(crate) fn own_page(running: &mut RunningHost, line: &PageLine) -> HostTaken
    ensures { Takes running.old (alone (Line.Pages (Ok line.now))) result running.new }
{
    match line {
        PageLine::Room { node, pages } => {
            let machine = running.host.machine();
            HostTaken::Reply(page_reply(Reply::RoomOk, running.pages.limit(machine, *node, *pages)))
        }
        PageLine::Rooms => HostTaken::Rooms,
        PageLine::Moved => HostTaken::MovedAll,
        PageLine::MemoryMigrate(follows) => {
            running.pages.set_follows(*follows);
            HostTaken::Reply(Reply::MemoryMigrateOk)
        }
        _ => HostTaken::Reply(Reply::BadState),
    }
}

/// Why pages stand against a command; where memory lacks, it is the command that lacks it.
pub(crate) fn pages_reply(refusal: PlacedRefusal) -> Reply
    ensures { result ≡ pages_reply refusal }
{
    match refusal {
        PlacedRefusal::NoMemory => Reply::HostRefused(HostRefusal::NoMemory),
        _ => Reply::PlacedRefused(refusal),
    }
}

/// Carries out a command of a process that leaves its pages where they lie.
pub(crate) fn obey_in(host: &mut Host, process: u32, command: &Command) -> Reply
    ensures { Answers host.old (HostCommand.In process command.now) result host.new }
{
    let said = HostCommand::In {
        process,
        command: *command,
    };
    match host.apply(&said) {
        Ok(()) => Reply::Accepted(host.version()),
        Err(refusal) => Reply::HostRefused(refusal),
    }
}

/// The pages of a process without those of a span, if some of the span were stated to lie
/// somewhere.
///
/// # Errors
/// `TooManyRuns`, `NoMemory`: as [`PageState::without_span`] says.
fn without_span(
    pages: &HostPages,
    process: u32,
    start: u64,
    length: u64,
) -> Result<Option<Placed>, PlacedRefusal>
    ensures forgets { (at : HostLying) → HostLies pages.now at → ForgetsIn
        (pages_in process at.homes) (pages_lent process at).spots start length result }
    ensures lack { IfErr result (IsLackOf length) }
{
    match pages.pages_of(process) {
        Some(state) => state.without_span(start, length),
        None => Ok(None),
    }
}

/// The pages of a process lie so from now on; one that left a node gave its room back.
fn replace(pages: &mut HostPages, process: u32, after: Placed)
    ensures { (at : HostLying) (spots : ℕ → Spot) → HostLies pages.old at
        → IsSome (pages_in process at.homes) → ((page : ℕ) → spot_at after page ≡ spots page)
        → HostLies pages.new (given_back process (with_spots spots (pages_lent process at)) at) }
{
    let Some(mut state) = pages.lend(process) else {
        drop(after);
        return;
    };
    state.replace(after);
    pages.give_back(process, state);
}

/// Unmaps pages of a process, none of which has 2 MiB; if the host accepts that, nothing is stated
/// of them any more.
fn unmap_small(running: &mut RunningHost, process: u32, start: u64, length: u64) -> Reply
    ensures host { AppliesTo running.old.host (HostCommand.In process (Command.Unmap start length))
        result running.new.host }
    ensures runs { Replies running.old result running.new (λ lack at. small_unmap lack.lacked at
        process start length) }
{
    let command = Command::Unmap { start, length };
    let forgotten = match without_span(&running.pages, process, start, length) {
        Ok(forgotten) => forgotten,
        Err(refusal) => return pages_reply(refusal),
    };
    let Some(after) = forgotten else {
        return obey_in(&mut running.host, process, &command);
    };
    let said = HostCommand::In { process, command };
    match running.host.apply(&said) {
        Ok(()) => {
            replace(&mut running.pages, process, after);
            Reply::Accepted(running.host.version())
        }
        Err(refusal) => {
            drop(after);
            Reply::HostRefused(refusal)
        }
    }
}

/// Pages of 4 KiB of a process lie so from now on, where they lie elsewhere than before.
fn replace_if(pages: &mut HostPages, process: u32, after: Option<Placed>)
    ensures none { after ≡ None → pages.new ≡ pages.old }
    ensures some { IfSome after (λ after. (at : HostLying) (spots : ℕ → Spot)
        → HostLies pages.old at → IsSome (pages_in process at.homes)
        → ((page : ℕ) → spot_at after page ≡ spots page)
        → HostLies pages.new (given_back process (with_spots spots (pages_lent process at)) at)) }
{
    if let Some(laid) = after {
        replace(pages, process, laid);
    }
}

/// Unmaps pages of a process, where they are so then, if the host accepts that.
fn unmap_both(
    running: &mut RunningHost,
    process: u32,
    start: u64,
    length: u64,
    small: Option<Placed>,
    huge: HugePlaces,
) -> Reply
    requires { CanBe process running.old.pages.huge huge }
    ensures host { AppliesTo running.old.host (HostCommand.In process (Command.Unmap start length))
        result running.new.host }
    ensures runs { UnmapsBoth running.old result running.new process start length small
        (places_of huge) }
{
    // Tells the proof that its runs aren't too many.
    let _ = huge.runs();
    let command = Command::Unmap { start, length };
    match running.host.apply(&HostCommand::In { process, command }) {
        Ok(()) => {
            running.pages.huge.settle(process, huge);
            replace_if(&mut running.pages, process, small);
            Reply::Accepted(running.host.version())
        }
        Err(refusal) => {
            drop(small);
            drop(huge);
            Reply::HostRefused(refusal)
        }
    }
}

/// Unmaps pages of a process, of which some have 2 MiB: these become free, or their reservations
/// are given back.
fn unmap_huge(running: &mut RunningHost, process: u32, start: u64, length: u64) -> Reply
    requires { has_huge (spots_in process running.old.pages.huge.sharers)
        (huge_first (page_of start)) (huge_count (page_of start) (page_count length)) ≡ true }
    ensures host { AppliesTo running.old.host (HostCommand.In process (Command.Unmap start length))
        result running.new.host }
    ensures runs { Replies running.old result running.new (λ lack at. unmap_outcome lack.lacked at
        process start length) }
{
    let huge = match running.pages.huge.unmapped(process, start, length) {
        Ok(huge) => huge,
        Err(why) => return pages_reply(why),
    };
    // Tells the proof that its runs aren't too many.
    let _ = huge.runs();
    let small = match without_span(&running.pages, process, start, length) {
        Ok(small) => small,
        Err(why) => {
            drop(huge);
            return pages_reply(why);
        }
    };
    unmap_both(running, process, start, length, small, huge)
}

/// Unmaps pages of a process.
fn unmap(running: &mut RunningHost, process: u32, start: u64, length: u64) -> Reply
    ensures host { AppliesTo running.old.host (HostCommand.In process (Command.Unmap start length))
        result running.new.host }
    ensures runs { Replies running.old result running.new (λ lack at. unmap_outcome lack.lacked at
        process start length) }
{
    let pages = page_count(length);
    if running
        .pages
        .huge
        .has_huge_in(process, start / PAGE_BYTES, pages)
    {
        return unmap_huge(running, process, start, length);
    }
    unmap_small(running, process, start, length)
}

/// Carries out a command of a process.
pub(crate) fn obeyed(running: &mut RunningHost, process: u32, command: &Command) -> Reply
    ensures host { AppliesTo running.old.host (HostCommand.In process command.now) result
        running.new.host }
    ensures runs { Replies running.old result running.new (λ lack at. obeyed lack.lacked at process
        command.now) }
{
    match command {
        Command::Unmap { start, length } => unmap(running, process, *start, *length),
        _ => obey_in(&mut running.host, process, command),
    }
}

/// Carries out a command of a process, or tells what is wrong with its words.
pub(crate) fn give(
    running: &mut RunningHost,
    process: u32,
    said: Result<Command, WordError>,
) -> Reply
    ensures { Replies running.old result running.new (λ lack at. given_outcome lack.lacked at
        process said) }
{
    match said {
        Ok(command) => obeyed(running, process, &command),
        Err(fault) => Reply::BadWord(fault),
    }
}
