//! Commands of a running machine.
ghost use Rattle.std.specs.Prelude.{◌≡◌, IfSome, None, Ok, Option, is_some, true};
ghost use Rattle.std.specs.Option.{option_map};
ghost use Rattle.numa_huge.specs.Moves.{HugeMemory};
ghost use Rattle.numa_huge.specs.Tallies.{StandsForHuge};
ghost use Rattle.numa_page_state.specs.Huge.{has_huge_in, huge_followed};
ghost use Rattle.numa_page_state.specs.Standing.{Forgets, Replaces};
ghost use Rattle.numa_space.specs.History.{page_count, page_of};
ghost use Rattle.numa_core.specs.Steps.{accept_answer, version_of};
ghost use Rattle.numa_requests.specs.declared.command.Command.TheVariants.{SetMems, Unmap};
ghost use Rattle.numa_run.specs.Obeying.{accepted_outcome, command_reply, mems_outcome, obeyed};
ghost use Rattle.numa_run.specs.Obeying.{huge_unmap, small_unmap, unmap_outcome};
ghost use Rattle.numa_run.specs.HugeLines.{memory_on};
ghost use Rattle.numa_run.specs.Standing.{IsWithout, RunsAs, Serves, ServesIn};
ghost use Rattle.numa_run.specs.States.{State};
ghost use Rattle.numa_script.specs.Replies.{reply_to};

use crate::running::Running;
use numa_core::Acceptance;
use numa_huge::{HugePages, HugePlaces};
use numa_mask::NodeMask;
use numa_page_state::PageState;
use numa_page_state::binding::page_count;
use numa_page_state::forgetting::{replace, without_span};
use numa_page_state::huge::{follow_huge, follows_in, has_huge_in, huge_without};
use numa_page_state::state::follow_where;
use numa_placed::Placed;
use numa_requests::{Command, CoreRefusal, PAGE_BYTES, PlacedRefusal, Refusal};
use numa_script::Reply;

/// The reply to a command, from the core's answer.
pub(crate) fn accept_reply(answer: Result<Acceptance, Refusal>) -> Reply
    ensures { result ≡ reply_to (accept_answer (version_of answer)) }
{
    match answer {
        Ok(acceptance) => Reply::Accepted(acceptance.version),
        Err(refusal) => Reply::Refused(CoreRefusal::Command(refusal)),
    }
}

/// Why pages stand against a command; where memory lacks, it is the command that lacks it.
pub(crate) fn command_reply(refusal: PlacedRefusal) -> Reply
    ensures { result ≡ command_reply refusal }
{
    match refusal {
        PlacedRefusal::NoMemory => Reply::Refused(CoreRefusal::Command(Refusal::NoMemory)),
        _ => Reply::PlacedRefused(refusal),
    }
}

/// Pages of 2 MiB leave one set of nodes for another, if they are to, where any are kept.
fn follow_if(huge: &mut Option<HugePages>, follows: bool, old: &NodeMask, new: &NodeMask)
    ensures { (memory : Option HugeMemory) → StandsForHuge huge.old memory
        → StandsForHuge huge.new (option_map (huge_followed follows old.now new.now) memory) }
{
    if let Some(kept) = huge {
        follow_huge(kept, follows, old, new);
    }
}

/// Pages of 4 KiB lie so from now on, where they lie elsewhere than before.
fn replace_if(pages: &mut Option<PageState>, after: Option<Placed>)
    ensures none { after ≡ None → pages.new ≡ pages.old }
    ensures some { IfSome after (λ laid. Replaces pages.old laid pages.new) }
{
    if let Some(laid) = after {
        replace(pages, laid);
    }
}

impl Running {
    /// Carries out a command, as the core takes it.
    #[inline(always)]
    pub(crate) fn accept(&mut self, command: &Command) -> Reply
        ensures { Serves self.old result self.new (λ lack machine state.
            accepted_outcome lack machine state command.now) }
    {
        accept_reply(self.core.accept(command))
    }

    /// Changes the allowed nodes; if the core accepts that, pages follow them.
    #[inline(never)]
    fn mems(&mut self, mask: NodeMask) -> Reply
        ensures { Serves self.old result self.new (λ lack machine state.
            mems_outcome lack machine state mask) }
    {
        let old = self.core.space().allowed();
        let answer = self.core.accept(&Command::SetMems { mask });
        if answer.is_err() {
            return accept_reply(answer);
        }
        let new = self.core.space().allowed();
        let follows = follows_in(&self.pages);
        follow_where(&mut self.pages, &old, &new, Some(&self.resident));
        follow_if(&mut self.huge, follows, &old, &new);
        accept_reply(answer)
    }

    /// Unmaps the pages of a span.
    #[inline(never)]
    fn unmap(&mut self, start: u64, length: u64) -> Reply
        ensures { Serves self.old result self.new (λ lack machine state.
            unmap_outcome lack machine state start length) }
    {
        if has_huge_in(&self.huge, start / PAGE_BYTES, page_count(length)) {
            return self.unmap_huge(start, length);
        }
        self.unmap_small(start, length)
    }

    /// Unmaps the pages of a span in which some have 2 MiB: these become free, or their
    /// reservations are given back.
    fn unmap_huge(&mut self, start: u64, length: u64) -> Reply
        requires { (memory : Option HugeMemory) → StandsForHuge self.old.huge memory
            → has_huge_in memory (page_of start) (page_count length) ≡ true }
        ensures { Serves self.old result self.new (λ lack machine state.
            unmap_outcome lack machine state start length) }
    {
        let Some(kept) = &self.huge else {
            unreachable!()
        };
        let huge = match huge_without(&kept.places, start, length) {
            Ok(huge) => huge,
            Err(why) => return command_reply(why),
        };
        // Tells the proof that its runs aren't too many.
        let _ = huge.runs();
        let small = match without_span(&self.pages, start, length) {
            Ok(small) => small,
            Err(why) => {
                drop(huge);
                return command_reply(why);
            }
        };
        self.unmap_both(start, length, small, huge)
    }

    /// Unmaps them, where pages lie so then.
    fn unmap_both(
        &mut self,
        start: u64,
        length: u64,
        small: Option<Placed>,
        huge: HugePlaces,
    ) -> Reply
        requires { is_some self.old.huge ≡ true }
        ensures { (state : State) → RunsAs self.old state
            → Forgets self.old.pages start length (Ok small)
            → IsWithout start length self.old.core.space.machine state huge
            → ServesIn self.old result self.new (λ lack machine state. huge_unmap lack machine
            state start length (memory_on machine state)) state }
    {
        // Tells the proof that its runs aren't too many.
        let _ = huge.runs();
        let Some(kept) = &mut self.huge else {
            unreachable!()
        };
        let answer = self.core.accept(&Command::Unmap { start, length });
        if answer.is_err() {
            drop(small);
            drop(huge);
            return accept_reply(answer);
        }
        replace_if(&mut self.pages, small);
        kept.settle(huge);
        accept_reply(answer)
    }

    /// Unmaps the pages of a span; if the core accepts that, nothing is stated of them any more.
    fn unmap_small(&mut self, start: u64, length: u64) -> Reply
        ensures { Serves self.old result self.new (λ lack machine state.
            small_unmap lack machine state start length) }
    {
        let command = Command::Unmap { start, length };
        let forgotten = match without_span(&self.pages, start, length) {
            Ok(forgotten) => forgotten,
            Err(refusal) => return command_reply(refusal),
        };
        let Some(after) = forgotten else {
            return self.accept(&command);
        };
        let answer = self.core.accept(&command);
        if answer.is_err() {
            drop(after);
            return accept_reply(answer);
        }
        replace(&mut self.pages, after);
        accept_reply(answer)
    }

    /// Carries out a command.
    #[inline(always)]
    pub(crate) fn obey(&mut self, command: &Command) -> Reply
        ensures { Serves self.old result self.new (λ lack machine state.
            obeyed lack machine state command.now) }
    {
        match command {
            Command::SetMems { mask } => self.mems(*mask),
            Command::Unmap { start, length } => self.unmap(*start, *length),
            _ => accept_reply(self.core.accept(command)),
        }
    }
}
