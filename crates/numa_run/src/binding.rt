//! `mbind` with words behind its policy.
ghost use Rattle.std.specs.Prelude.{◌≡◌, IsSome, List, Option, is_some, true};
ghost use Rattle.numa_run.specs.HugeLines.{memory_on};
ghost use Rattle.numa_run.specs.Obeying.{any_astray, bound_command, bound_outcome, judged_by};
ghost use Rattle.numa_run.specs.Obeying.{moved_by, sent_unless, toucher_of};
ghost use Rattle.numa_requests.specs.declared.command.Command.{Command};
ghost use Rattle.numa_huge.specs.Moves.{HugeMemory, HugeWalk};
ghost use Rattle.numa_huge.specs.Tallies.{IsMemory, IsWalk, StandsForHuge};
ghost use Rattle.numa_page_state.specs.Huge.{huge_walk};
ghost use Rattle.numa_page_state.specs.Lying.{Lying, process_in};
ghost use Rattle.numa_page_state.specs.Sending.{command_of, rebinding_in};
ghost use Rattle.numa_page_state.specs.Standing.{Lies};
ghost use Rattle.numa_space.specs.Refusals.{refusal_of};
ghost use Rattle.numa_space.specs.Standing.{StandsFor};
ghost use Rattle.numa_page_state.specs.Strict.{strict_binding_in};
ghost use Rattle.numa_run.specs.Standing.{IsFound, RunsAs, Serves, ServesIn};
ghost use Rattle.numa_run.specs.States.{State, process_on};

use crate::obeying::command_reply;
use crate::running::Running;
use numa_huge::{Flows, HugeLast, HugePages, HugePlaces};
use numa_machine::Rules;
use numa_maps::Resident;
use numa_mode::PolicySpec;
use numa_page_state::huge::{huge_astray, huge_sent_from};
use numa_page_state::{
    Binding, PageState, Rebinding, Sending, Toucher, has_astray, is_late_in, rebinding_in,
    sent_from, settled, strict_binding_in, tells_left,
};
use numa_requests::{Command, PlacedRefusal};
use numa_script::commands::empty_bind;
use numa_script::policy::waits_for_pages;
use numa_script::{BoundPages, MoveWords, Reply, WordError};
use numa_space::Space;
use std::alloc::Global;

/// The command of an `mbind`, given without the words behind its policy.
pub fn bound_command(
    rules: Rules,
    start: u64,
    length: u64,
    policy: &Result<PolicySpec, WordError>,
) -> Result<Command, WordError>
    ensures { result ≡ bound_command rules start length policy.now }
{
    match policy {
        Ok(spec) => Ok(Command::Mbind {
            start,
            length,
            spec: *spec,
        }),
        Err(fault) => {
            if length == 0 && waits_for_pages(*fault) && rules.is_linux() {
                return Ok(empty_bind(start));
            }
            Err(*fault)
        }
    }
}

/// By whose faults the words have pages find their nodes.
pub fn toucher_of(words: &MoveWords) -> Toucher
    ensures { result ≡ toucher_of words.now }
{
    Toucher {
        task: words.task,
        cpu: words.cpu,
    }
}

/// Whether a page of either size of a span that is judged lies on another node than those of a
/// list.
fn any_astray(
    space: &Space,
    resident: &Resident,
    pages: &Option<PageState>,
    huge: &Option<HugePages>,
    said: &Binding,
) -> bool
    ensures { (lying : Lying) (memory : Option HugeMemory) (history : List Command)
        → Lies pages.now lying → StandsForHuge huge.now memory → StandsFor space.now history
        → result ≡ any_astray memory (process_in space.now history resident.now) lying.spots
        said.now }
{
    if has_astray(space, resident, pages, said) {
        return true;
    }
    match huge {
        Some(kept) => huge_astray(space, &kept.places, said),
        None => false,
    }
}

/// The pages of 2 MiB went so, and the last move tells of it.
fn settle_huge(huge: &mut HugePages, places: HugePlaces, flows: Flows)
    ensures { (memory : HugeMemory) (walk : HugeWalk) → IsMemory huge.old memory
        → IsWalk walk places flows
        → IsMemory huge.new (record memory { pages = walk.huge; told = walk.told }) }
{
    huge.settle(places);
    drop(std::mem::replace(&mut huge.last, HugeLast::Pages(flows)));
}

impl Running {
    /// Sets a policy, unless a page of its span lies on another node than those of its list.
    fn bind_strictly(&mut self, alloc: Global, command: &Command) -> Reply
        ensures { Serves self.old result self.new (λ lack machine state. judged_by
            (strict_binding_in command.now) lack machine state command.now) }
    {
        let Some(binding) = strict_binding_in(command) else {
            return self.accept(command);
        };
        let space = self.core.space();
        if !any_astray(space, &self.resident, &self.pages, &self.huge, &binding) {
            return self.accept(command);
        }
        let Ok(late) = is_late_in(alloc, space, command) else {
            return command_reply(PlacedRefusal::NoMemory);
        };
        if late {
            return command_reply(PlacedRefusal::Astray);
        }
        self.accept(command)
    }

    /// Sets a policy, to which pages go that have been found to go.
    fn send(&mut self, alloc: Global, said: &Rebinding, words: &MoveWords) -> Reply
        ensures { Serves self.old result self.new (λ lack machine state. sent_unless lack
            (refusal_of machine state.bounds state.world.history (command_of said.now)) machine
            state said.now words.now) }
    {
        let command = Command::Mbind {
            start: said.start,
            length: said.length,
            spec: said.spec,
        };
        let space = self.core.space();
        let toucher = toucher_of(words);
        let sent = match sent_from(alloc, space, &self.resident, &mut self.pages, said, toucher) {
            Ok(Some(sent)) => sent,
            Ok(None) => return self.accept(&command),
            Err(refusal) => return command_reply(refusal),
        };
        if self.huge.is_some() {
            return self.send_both(alloc, said, words, sent);
        }
        let Ok(acceptance) = self.core.accept(&command) else {
            drop(sent);
            return command_reply(PlacedRefusal::NoMemory);
        };
        let moved = sent.moved;
        let left = sent.left;
        let late = tells_left(words.strict, &said.spec, left);
        settled(&mut self.pages, sent);
        Reply::Sent {
            version: acceptance.version,
            moved,
            left,
            late,
        }
    }

    /// Sets a policy, to which pages go that have been found to go, and those of 2 MiB.
    fn send_both(
        &mut self,
        alloc: Global,
        said: &Rebinding,
        words: &MoveWords,
        sent: Sending,
    ) -> Reply
        requires huge { is_some self.old.huge ≡ true }
        requires pages { IsSome self.old.pages }
        ensures { (state : State) → RunsAs self.old state
            → IsFound self.old.core.space.machine state said.now words.now sent
            → ServesIn self.old result self.new (λ lack machine state. sent_unless lack
            (refusal_of machine state.bounds state.world.history (command_of said.now)) machine
            state said.now words.now) state }
    {
        let Some(kept) = &self.huge else {
            unreachable!()
        };
        let space = self.core.space();
        let toucher = toucher_of(words);
        match huge_sent_from(alloc, space, &kept.places, said, toucher) {
            Ok(Some(done)) => {
                let (places, flows) = done;
                self.settle_both(said, words, sent, places, flows)
            }
            Ok(None) => {
                drop(sent);
                command_reply(PlacedRefusal::NoMemory)
            }
            Err(_) => {
                drop(sent);
                command_reply(PlacedRefusal::NoMemory)
            }
        }
    }

    /// Sets it, where pages are so then.
    fn settle_both(
        &mut self,
        said: &Rebinding,
        words: &MoveWords,
        sent: Sending,
        places: HugePlaces,
        flows: Flows,
    ) -> Reply
        requires huge { is_some self.old.huge ≡ true }
        requires pages { IsSome self.old.pages }
        ensures { (state : State) → RunsAs self.old state
            → IsFound self.old.core.space.machine state said.now words.now sent
            → IsWalk (huge_walk (process_on self.old.core.space.machine state) said.now
            (toucher_of words.now) (memory_on self.old.core.space.machine state)) places flows
            → ServesIn self.old result self.new (λ lack machine state. sent_unless lack
            (refusal_of machine state.bounds state.world.history (command_of said.now)) machine
            state said.now words.now) state }
    {
        let command = Command::Mbind {
            start: said.start,
            length: said.length,
            spec: said.spec,
        };
        let Some(kept) = &mut self.huge else {
            unreachable!()
        };
        let Ok(acceptance) = self.core.accept(&command) else {
            drop(sent);
            drop(places);
            drop(flows);
            return command_reply(PlacedRefusal::NoMemory);
        };
        // Tells the proof that few pages keep frames.
        let _ = self.resident.iter();
        let moved = sent.moved.saturating_add(flows.moved());
        let left = sent.left.saturating_add(flows.left);
        let late = tells_left(words.strict, &said.spec, left);
        settled(&mut self.pages, sent);
        settle_huge(kept, places, flows);
        Reply::Sent {
            version: acceptance.version,
            moved,
            left,
            late,
        }
    }

    /// Sets a policy, and moves the pages of its span that lie on other nodes than those of its
    /// list.
    fn bind_moving(&mut self, alloc: Global, command: &Command, words: &MoveWords) -> Reply
        ensures { Serves self.old result self.new (λ lack machine state. moved_by
            (rebinding_in command.now) lack machine state command.now words.now) }
    {
        match rebinding_in(command) {
            Some(said) => self.send(alloc, &said, words),
            None => self.accept(command),
        }
    }

    /// Carries out an `mbind` that judges or moves pages.
    #[inline(never)]
    pub(crate) fn bind(
        &mut self,
        alloc: Global,
        start: u64,
        length: u64,
        policy: &Result<PolicySpec, WordError>,
        pages: &BoundPages,
    ) -> Reply
        ensures { Serves self.old result self.new (λ lack machine state. bound_outcome lack
            machine state pages.now (bound_command machine.rules start length policy.now)) }
    {
        let rules = self.core.space().machine().rules();
        let command = match bound_command(rules, start, length, policy) {
            Ok(command) => command,
            Err(fault) => return Reply::BadWord(fault),
        };
        match pages {
            BoundPages::Strict => self.bind_strictly(alloc, &command),
            BoundPages::Move(words) => self.bind_moving(alloc, &command, words),
        }
    }
}
