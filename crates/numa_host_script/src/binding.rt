//! `mbind` of a process of a host with words behind its policy.
ghost use Rattle.std.specs.Prelude.{◌≡◌, [], List, None, is_some, true};
ghost use Rattle.numa_host_pages.specs.Homes.{HostLying, memory_of, pages_lent};
ghost use Rattle.numa_host_huge.specs.Kept.{place_in};
ghost use Rattle.numa_host_huge.specs.Standing.{CanBe};
ghost use Rattle.numa_host_pages.specs.Standing.{HostLies};
ghost use Rattle.numa_host_script.specs.Hosts.{Hosting};
ghost use Rattle.numa_host_script.specs.Paging.{bound_outcome, judged_by, moved_by, own_cause};
ghost use Rattle.numa_host_script.specs.Paging.{sent_unless, takes_more};
ghost use Rattle.numa_host_script.specs.Standing.{Replies, RepliesThere, RunsAs};
ghost use Rattle.numa_host_script.specs.Standing.{SendsFound, SendsIn, SettlesIn};
ghost use Rattle.numa_page_state.specs.Lying.{process_in};
ghost use Rattle.numa_page_state.specs.Sending.{command_of, rebinding_in};
ghost use Rattle.numa_page_state.specs.Strict.{has_astray, strict_binding_in};
ghost use Rattle.numa_requests.specs.declared.command.Command.{Command};
ghost use Rattle.numa_run.specs.Obeying.{any_astray, bound_command};
ghost use Rattle.numa_space.specs.Standing.{StandsFor};

use crate::lending::{give_back, lend};
use crate::paging::{obey_in, pages_reply};
use crate::running::{RunningHost, space_of};
use numa_host::Host;
use numa_host_huge::HostHuge;
use numa_host_pages::HostPages;
use numa_huge::{Flows, HugePlaces};
use numa_maps::Resident;
use numa_mode::PolicySpec;
use numa_page_state::{
    Binding, PageState, Rebinding, Sending, is_late_in, rebinding_in, sent, settle,
    strict_binding_in, tells_left,
};
use numa_requests::{Command, HostCommand, PlacedRefusal};
use numa_run::binding::{bound_command, toucher_of};
use numa_script::{BoundPages, MoveWords, Reply, WordError};
use numa_space::Space;
use std::alloc::Global;

/// Whether a page of 4 KiB of a process that is judged lies on another node than those of a list.
fn small_astray(
    alloc: Global,
    pages: &HostPages,
    space: &Space,
    process: u32,
    binding: &Binding,
) -> bool
    ensures { (at : HostLying) (history : List Command) → HostLies pages.now at
        → StandsFor space.now history → result ≡ has_astray (process_in space.now history [])
        (pages_lent process at).spots binding.now }
{
    let resident = Resident::new(alloc);
    match pages.pages_of(process) {
        Some(state) => state.has_astray(space, &resident, binding),
        None => false,
    }
}

/// Whether a page of either size does.
fn has_astray(
    alloc: Global,
    pages: &HostPages,
    space: &Space,
    process: u32,
    binding: &Binding,
) -> bool
    ensures { (at : HostLying) (history : List Command) → HostLies pages.now at
        → StandsFor space.now history → result ≡ any_astray (memory_of process at)
        (process_in space.now history []) (pages_lent process at).spots binding.now }
{
    if small_astray(alloc, pages, space, process, binding) {
        return true;
    }
    pages.huge.has_astray(process, space, binding)
}

/// Sets a policy of a process, unless a page of its span lies on another node than those of its
/// list.
fn bind_strictly(running: &mut RunningHost, alloc: Global, process: u32, command: &Command) -> Reply
    ensures { RepliesThere running.old result running.new process (λ lack at. judged_by
        (strict_binding_in command.now) lack.lacked at process command.now) }
{
    let Some(binding) = strict_binding_in(command) else {
        return obey_in(&mut running.host, process, command);
    };
    let Some(space) = space_of(&running.host, process) else {
        return obey_in(&mut running.host, process, command);
    };
    if !has_astray(alloc, &running.pages, space, process, &binding) {
        return obey_in(&mut running.host, process, command);
    }
    let Ok(late) = is_late_in(alloc, space, command) else {
        return pages_reply(PlacedRefusal::NoMemory);
    };
    if late {
        return pages_reply(PlacedRefusal::Astray);
    }
    obey_in(&mut running.host, process, command)
}

/// Sets a policy of a process, to which pages go that have been found to go, where those of 2 MiB
/// are so then.
fn settle_both(
    host: &mut Host,
    huge: &mut HostHuge,
    process: u32,
    said: &Rebinding,
    words: &MoveWords,
    state: &mut PageState,
    sent: Sending,
    places: HugePlaces,
    flows: Flows,
) -> Result<Reply, Reply>
    requires { CanBe process huge.old places }
    ensures { SettlesIn host.old huge.old state.old result host.new huge.new state.new process
        said.now words.now sent places flows }
{
    let command = Command::Mbind {
        start: said.start,
        length: said.length,
        spec: said.spec,
    };
    let Ok(()) = host.apply(&HostCommand::In { process, command }) else {
        drop(sent);
        drop(places);
        drop(flows);
        return Err(pages_reply(PlacedRefusal::NoMemory));
    };
    let moved = sent.moved.saturating_add(flows.moved());
    let left = sent.left.saturating_add(flows.left);
    let late = tells_left(words.strict, &said.spec, left);
    settle(state, sent);
    huge.settle_sent(process, places, flows);
    Ok(Reply::Sent {
        version: host.version(),
        moved,
        left,
        late,
    })
}

/// Sets a policy of a process, to which pages go that have been found to go, and those of 2 MiB.
fn send_both(
    host: &mut Host,
    huge: &mut HostHuge,
    process: u32,
    said: &Rebinding,
    words: &MoveWords,
    state: &mut PageState,
    sent: Sending,
) -> Result<Reply, Reply>
    requires { is_some (place_in process huge.old.sharers) ≡ true }
    ensures { SendsFound host.old huge.old state.old result host.new huge.new state.new process
        said.now words.now sent }
{
    let Some(space) = space_of(host, process) else {
        drop(sent);
        return Err(pages_reply(PlacedRefusal::NoMemory));
    };
    match huge.sent(process, space, said, toucher_of(words)) {
        Ok(Some(done)) => {
            let (places, flows) = done;
            settle_both(host, huge, process, said, words, state, sent, places, flows)
        }
        Ok(None) => {
            drop(sent);
            Err(pages_reply(PlacedRefusal::NoMemory))
        }
        Err(_) => {
            drop(sent);
            Err(pages_reply(PlacedRefusal::NoMemory))
        }
    }
}

/// Sets a policy of a process, to which its pages go. The reply is an error where they don't, and
/// are as they were.
fn send_with(
    host: &mut Host,
    huge: &mut HostHuge,
    alloc: Global,
    process: u32,
    said: &Rebinding,
    words: &MoveWords,
    state: &mut PageState,
) -> Result<Reply, Reply>
    ensures { SendsIn host.old huge.old state.old result host.new huge.new state.new process
        said.now words.now }
{
    let command = Command::Mbind {
        start: said.start,
        length: said.length,
        spec: said.spec,
    };
    let Some(space) = space_of(host, process) else {
        return Err(obey_in(host, process, &command));
    };
    let resident = Resident::new(alloc);
    let sent = match sent(alloc, space, &resident, state, said, toucher_of(words)) {
        Ok(Some(sent)) => sent,
        Ok(None) => return Err(obey_in(host, process, &command)),
        Err(refusal) => return Err(pages_reply(refusal)),
    };
    if huge.is_sharer(process) {
        return send_both(host, huge, process, said, words, state, sent);
    }
    let Ok(()) = host.apply(&HostCommand::In { process, command }) else {
        drop(sent);
        return Err(pages_reply(PlacedRefusal::NoMemory));
    };
    let moved = sent.moved;
    let left = sent.left;
    let late = tells_left(words.strict, &said.spec, left);
    settle(state, sent);
    Ok(Reply::Sent {
        version: host.version(),
        moved,
        left,
        late,
    })
}

/// Sets a policy of a process, to which its pages go. The first pages of a process are kept only if
/// the policy was set.
fn send(
    running: &mut RunningHost,
    alloc: Global,
    process: u32,
    said: &Rebinding,
    words: &MoveWords,
) -> Reply
    ensures { RepliesThere running.old result running.new process (λ lack at. sent_unless
        lack.lacked (own_cause at process (command_of said.now)) at process said.now words.now) }
{
    let Ok(mut lent) = lend(&mut running.pages, alloc, process) else {
        return pages_reply(PlacedRefusal::NoMemory);
    };
    let told = send_with(
        &mut running.host,
        &mut running.pages.huge,
        alloc,
        process,
        said,
        words,
        &mut lent.state,
    );
    give_back(&mut running.pages, process, lent, told.is_err());
    match told {
        Ok(reply) => {
            running.pages.take_along(process);
            reply
        }
        Err(reply) => reply,
    }
}

/// Sets a policy of a process, and moves the pages of its span that lie on other nodes than those
/// of its list.
fn bind_moving(
    running: &mut RunningHost,
    alloc: Global,
    process: u32,
    command: &Command,
    words: &MoveWords,
) -> Reply
    ensures { RepliesThere running.old result running.new process (λ lack at. moved_by
        (rebinding_in command.now) lack.lacked at process command.now words.now) }
{
    match rebinding_in(command) {
        Some(said) => send(running, alloc, process, &said, words),
        None => obey_in(&mut running.host, process, command),
    }
}

/// Whether a process is there, and the host takes more commands.
pub(crate) fn takes_more(running: &RunningHost, process: u32) -> bool
    ensures { (at : Hosting) → RunsAs running.now at → result ≡ takes_more at process }
{
    let Some(_) = running.host.process(process) else {
        return false;
    };
    let spent = running.host.version() >= u64::from(running.host.limits().max_commands());
    !spent
}

/// Carries out an `mbind` of a process that judges or moves pages.
#[inline(never)]
pub(crate) fn bind(
    running: &mut RunningHost,
    alloc: Global,
    process: u32,
    start: u64,
    length: u64,
    policy: &Result<PolicySpec, WordError>,
    pages: &BoundPages,
) -> Reply
    ensures { Replies running.old result running.new (λ lack at. bound_outcome lack.lacked at
        process pages.now (bound_command at.machine.rules start length policy.now)) }
{
    let rules = running.host.machine().rules();
    let command = match bound_command(rules, start, length, policy) {
        Ok(command) => command,
        Err(fault) => return Reply::BadWord(fault),
    };
    if !takes_more(running, process) {
        return obey_in(&mut running.host, process, &command);
    }
    match pages {
        BoundPages::Strict => bind_strictly(running, alloc, process, &command),
        BoundPages::Move(words) => bind_moving(running, alloc, process, &command, words),
    }
}
