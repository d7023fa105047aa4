//! Commands of a core, and what they do to its pages.
ghost use Rattle.std.specs.Prelude.{◌≡◌, ◌||◌, IfOk, IfSome, List, None, Ok, OnErr, Option, Some};
ghost use Rattle.std.specs.Prelude.{Result, false, true};
ghost use Rattle.numa_placed.specs.Laid.{Laid};
ghost use Rattle.numa_requests.specs.declared.command.Command.{Command};
ghost use Rattle.numa_space.specs.Standing.{StandsFor};
ghost use Rattle.numa_huge.specs.Huge.{HugePlaced, places_of};
ghost use Rattle.numa_page_state.specs.Lying.{Lying};
ghost use Rattle.numa_page_state.specs.Standing.{Forgets, LiesAs, Replaces};
ghost use Rattle.numa_page_state.specs.Strict.{strict_binding_in};
ghost use Rattle.numa_pages.specs.Changes.{Accepts, BindsStrictly, huge_in, huge_so, lies_astray};
ghost use Rattle.numa_pages.specs.Changes.{lying_after, process_of, stands_astray, unmaps};
ghost use Rattle.numa_pages.specs.Sizes.{LeavesHuge, any_astray};

use crate::pages::Pages;
use crate::refusal::ChangeRefusal;
use crate::trial::carried_out;
use numa_huge::HugePlaces;
use numa_machine::NoMemory;
use numa_maps::Resident;
use numa_mode::PolicySpec;
use numa_page_state::binding::page_count;
use numa_page_state::huge::{huge_astray, huge_without};
use numa_page_state::{Binding, PageState, huge_span, is_late_in, strict_binding_in};
use numa_placed::Placed;
use numa_requests::{Command, PAGE_BYTES, PlacedRefusal};
use std::mem::replace;

/// Pages of 4 KiB lie so from now on, where they lie elsewhere than before.
fn settle_small(state: &mut PageState, after: Option<Placed>)
    ensures none { after ≡ None → state.new ≡ state.old }
    ensures some { IfSome after (λ (laid : Laid).
        Replaces (Some state.old) laid (Some state.new)) }
{
    if let Some(laid) = after {
        state.replace(laid);
    }
}

/// Pages of 2 MiB are so from now on, where they are otherwise than before.
fn settle_huge(huge: &mut HugePlaces, after: Option<HugePlaces>)
    ensures none { after ≡ None → huge.new ≡ huge.old }
    ensures some { IfSome after (λ (it : HugePlaced). huge.new ≡ it) }
{
    if let Some(it) = after {
        drop(replace(huge, it));
    }
}

/// The pages of 2 MiB once a span was unmapped, if it has some.
///
/// # Errors
/// As [`HugePlaces::unmapped`].
fn left_huge(
    huge: &HugePlaces,
    start: u64,
    length: u64,
) -> Result<Option<HugePlaces>, PlacedRefusal>
    ensures { LeavesHuge (places_of huge.now) start length result }
{
    let span = huge_span(start / PAGE_BYTES, page_count(length));
    if !huge.has_huge(span.first, span.pages) {
        return Ok(None);
    }
    match huge_without(huge, start, length) {
        Ok(after) => {
            // Tells the proof that its runs aren't too many.
            let _ = after.runs();
            Ok(Some(after))
        }
        Err(why) => Err(why),
    }
}

impl Pages {
    /// Carries out a command, and returns the number of accepted ones. Of pages that are unmapped
    /// nothing is stated any more, and they give back the room that they took; those of 2 MiB
    /// become free, or their reservations are given back. All others lie where they lay.
    ///
    /// # Errors
    /// Nothing has changed. `OfPages`: what is known of the unmapped pages can't be taken away, as
    /// [`HugePlaces::unmapped`], then [`Placed::forget`]; this comes before every cause of the
    /// core. `OfSpace`: as [`Core::accept`](numa_core::Core::accept). Memory lacks only for a
    /// command that may need room: never for a weight, the allowed nodes, a task's `DEFAULT`, or an
    /// unmap, a policy or a home of 0 bytes.
    pub fn accept(&mut self, command: &Command) -> Result<u64, ChangeRefusal>
        ensures { Accepts command.now self.old result self.new }
    {
        match *command {
            Command::Unmap { start, length } => self.unmap(start, length),
            _ => self.obey(command),
        }
    }

    /// Carries out a command other than `Unmap`.
    fn obey(&mut self, command: &Command) -> Result<u64, ChangeRefusal>
        requires { unmaps command.now ≡ false }
        ensures { Accepts command.now self.old result self.new }
    {
        self.pass(command)
    }

    /// Carries out a command that no page stands against, and that changes none.
    fn pass(&mut self, command: &Command) -> Result<u64, ChangeRefusal>
        requires lies { (lying : Lying) → LiesAs self.old.state lying
            → lying_after command.now lying ≡ lying }
        requires huge { huge_so command.now (huge_in self.old) ≡ huge_in self.old }
        ensures { Accepts command.now self.old result self.new }
    {
        match carried_out(&mut self.core, command) {
            Ok(version) => Ok(version),
            Err(refusal) => Err(ChangeRefusal::OfSpace(refusal)),
        }
    }

    /// Unmaps the pages of a span, where `small` is where those of 4 KiB lie then, and `huge` is
    /// what is kept of those of 2 MiB, each if it changes.
    fn unmap_by(
        &mut self,
        start: u64,
        length: u64,
        small: Option<Placed>,
        huge: Option<HugePlaces>,
    ) -> Result<u64, ChangeRefusal>
        requires small { Forgets (Some self.old.state) start length (Ok small) }
        requires huge { LeavesHuge (huge_in self.old) start length (Ok huge) }
        ensures { Accepts (Command.Unmap start length) self.old result self.new }
    {
        match carried_out(&mut self.core, &Command::Unmap { start, length }) {
            Ok(version) => {
                settle_small(&mut self.state, small);
                settle_huge(&mut self.huge, huge);
                Ok(version)
            }
            Err(refusal) => {
                drop(small);
                drop(huge);
                Err(ChangeRefusal::OfSpace(refusal))
            }
        }
    }

    /// Unmaps the pages of a span.
    fn unmap(&mut self, start: u64, length: u64) -> Result<u64, ChangeRefusal>
        ensures { Accepts (Command.Unmap start length) self.old result self.new }
    {
        let huge = match left_huge(&self.huge, start, length) {
            Ok(huge) => huge,
            Err(cause) => return Err(ChangeRefusal::OfPages(cause)),
        };
        match self.state.without_span(start, length) {
            Ok(small) => self.unmap_by(start, length, small, huge),
            Err(cause) => {
                drop(huge);
                Err(ChangeRefusal::OfPages(cause))
            }
        }
    }

    /// Whether a page of either size of a span that is judged lies on another node than those of a
    /// list.
    fn strays(&self, said: &Binding) -> bool
        ensures { (history : List Command) (lying : Lying) → StandsFor self.now.core.space history
            → LiesAs self.now.state lying → result ≡ any_astray (process_of self.now history)
            (huge_in self.now) lying.spots said.now }
    {
        let space = self.core.space();
        let none = Resident::new(self.alloc);
        if self.state.has_astray(space, &none, said) {
            return true;
        }
        huge_astray(space, &self.huge, said)
    }

    /// Whether pages stand against a policy: one lies astray, and nothing that comes before them
    /// does.
    ///
    /// # Errors
    /// `NoMemory`: one lies astray, and there is no memory for a copy of the space, on which the
    /// command is tried.
    fn stands_astray(&self, command: &Command) -> Result<bool, NoMemory>
        ensures ok { IfOk result (λ stands. (history : List Command) (lying : Lying)
            → StandsFor self.now.core.space history → LiesAs self.now.state lying → stands
            ≡ stands_astray (strict_binding_in command.now) (process_of self.now history)
            command.now (huge_in self.now) lying) }
        ensures astray { OnErr result ((history : List Command) (lying : Lying)
            → StandsFor self.now.core.space history → LiesAs self.now.state lying → lies_astray
            (strict_binding_in command.now) (process_of self.now history) (huge_in self.now)
            lying.spots ≡ true) }
    {
        let Some(binding) = strict_binding_in(command) else {
            return Ok(false);
        };
        if !self.strays(&binding) {
            return Ok(false);
        }
        match is_late_in(self.alloc, self.core.space(), command) {
            Ok(late) => Ok(late),
            Err(lack) => Err(lack),
        }
    }

    /// Sets the policy of a span's pages, unless one of them lies on a node that isn't in the
    /// policy's list as it was asked for: mbind(2) with MPOL_MF_STRICT. `DEFAULT` asks for no list,
    /// and then pages aren't looked at. Returns the number of accepted commands. No page moves.
    ///
    /// # Errors
    /// Nothing has changed. `OfSpace`: as [`Core::accept`](numa_core::Core::accept). `OfPages`:
    /// `Astray`, a page lies on another node, and nothing else stands against the command but
    /// `TooManyRanges` and `NoMemory`, which come behind it, and by the kernel's rules `Hole`: they
    /// look at the pages before the range that ends at the first hole (`judged_pages`). `NoMemory`:
    /// a page lies on another node, and there is no memory for a copy. Memory never lacks for 0
    /// bytes.
    pub fn bind_strictly(
        &mut self,
        start: u64,
        length: u64,
        spec: PolicySpec,
    ) -> Result<u64, ChangeRefusal>
        ensures { BindsStrictly start length spec self.old result self.new }
    {
        let command = Command::Mbind {
            start,
            length,
            spec,
        };
        // Tells the proof that some execution leads to the core.
        let _ = self.core.published();
        let Ok(stands) = self.stands_astray(&command) else {
            return Err(ChangeRefusal::NoMemory);
        };
        if stands {
            return Err(ChangeRefusal::OfPages(PlacedRefusal::Astray));
        }
        match carried_out(&mut self.core, &command) {
            Ok(version) => Ok(version),
            Err(refusal) => Err(ChangeRefusal::OfSpace(refusal)),
        }
    }
}
