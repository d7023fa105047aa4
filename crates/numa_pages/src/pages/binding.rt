//! Policies to which pages move.
ghost use Rattle.std.specs.Prelude.{◌≡◌, List, Ok, Some, is_some, true};
ghost use Rattle.numa_requests.specs.declared.command.Command.{Command};
ghost use Rattle.numa_space.specs.Refusals.{refusal_of};
ghost use Rattle.numa_space.specs.Standing.{StandsFor};
ghost use Rattle.numa_huge.specs.Tallies.{IsWalk};
ghost use Rattle.numa_page_state.specs.Lying.{Lying};
ghost use Rattle.numa_page_state.specs.Sending.{command_of};
ghost use Rattle.numa_page_state.specs.Standing.{LiesAs, Sends};
ghost use Rattle.numa_pages.specs.Changes.{BindsBy, BindsMoving, process_of, walk_of};

use crate::binding::{Rebound, bound_of, command_of, late_errno};
use crate::pages::Pages;
use crate::refusal::{ChangeRefusal, lack_told};
use numa_huge::{Flows, HugePlaces};
use numa_maps::Resident;
use numa_mode::PolicySpec;
use numa_page_state::huge::huge_sent_from;
use numa_page_state::{Rebinding, Sending, Toucher, sent, settle};
use std::mem::replace;

impl Pages {
    /// Sets the policy of a span's pages, and moves those that lie on nodes that aren't in the
    /// policy's list as it was asked for: mbind(2) with MPOL_MF_MOVE. The lowest goes first, each
    /// to the first node with room of its own list, as a fault of the task on node `cpu` would put
    /// it; of these, one that finds no room stays. One of 2 MiB goes to the first with a free page
    /// that isn't reserved, else to the first. With `strict` (MPOL_MF_STRICT too) that is told
    /// by an error number. `DEFAULT` asks for no list: then each page is moved, and `strict` is
    /// dropped.
    ///
    /// # Errors
    /// Nothing has changed. `OfSpace`: as [`Core::accept`](numa_core::Core::accept). `OfPages`:
    /// `TooManyRuns`, as [`Placed::bind_astray`](numa_placed::Placed::bind_astray). `NoMemory`: out
    /// of memory for copies, which it makes in any case, or too many runs of pages of 2 MiB.
    pub fn bind_moving(
        &mut self,
        start: u64,
        length: u64,
        spec: PolicySpec,
        strict: bool,
        task: u32,
        cpu: u32,
    ) -> Result<Rebound, ChangeRefusal>
        ensures { BindsMoving start length spec strict task cpu self.old result self.new }
    {
        let said = Rebinding {
            start,
            length,
            spec,
        };
        let toucher = Toucher { task, cpu };
        let none = Resident::new(self.alloc);
        let space = self.core.space();
        match sent(self.alloc, space, &none, &self.state, &said, toucher) {
            Ok(Some(sent)) => self.bind_both(said, toucher, strict, sent),
            Ok(None) => self.refuse(said, toucher, strict),
            Err(cause) => Err(lack_told(cause)),
        }
    }

    /// Sets a policy, and the pages of 4 KiB go that have been found to go, and those of 2 MiB.
    fn bind_both(
        &mut self,
        said: Rebinding,
        toucher: Toucher,
        strict: bool,
        sent: Sending,
    ) -> Result<Rebound, ChangeRefusal>
        requires { (history : List Command) (lying : Lying) → StandsFor self.old.core.space history
            → LiesAs self.old.state lying
            → Sends (process_of self.old history) said toucher lying (Ok (Some sent)) }
        ensures { BindsBy (record { said = said; toucher = toucher }) strict self.old result
            self.new }
    {
        let space = self.core.space();
        match huge_sent_from(self.alloc, space, &self.huge, &said, toucher) {
            Ok(Some(done)) => {
                let (places, flows) = done;
                self.rebind(said, toucher, strict, sent, places, flows)
            }
            Ok(None) => {
                drop(sent);
                Err(ChangeRefusal::NoMemory)
            }
            Err(_) => {
                drop(sent);
                Err(ChangeRefusal::NoMemory)
            }
        }
    }

    /// Sets a policy, and the pages go that have been found to go.
    fn rebind(
        &mut self,
        said: Rebinding,
        _toucher: Toucher,
        strict: bool,
        sent: Sending,
        places: HugePlaces,
        flows: Flows,
    ) -> Result<Rebound, ChangeRefusal>
        requires small { (history : List Command) (lying : Lying)
            → StandsFor self.old.core.space history → LiesAs self.old.state lying
            → Sends (process_of self.old history) said _toucher lying (Ok (Some sent)) }
        requires huge { (history : List Command) → StandsFor self.old.core.space history
            → IsWalk (walk_of self.old history (record { said = said; toucher = _toucher })) places
            flows }
        ensures { BindsBy (record { said = said; toucher = _toucher }) strict self.old result
            self.new }
    {
        match self.core.accept(&command_of(&said)) {
            Ok(_) => {
                let bound = bound_of(&sent, &flows);
                let errno = late_errno(strict, &said.spec, bound.left);
                settle(&mut self.state, sent);
                drop(replace(&mut self.huge, places));
                drop(flows);
                Ok(Rebound { bound, errno })
            }
            Err(refusal) => {
                drop(sent);
                drop(places);
                drop(flows);
                Err(ChangeRefusal::OfSpace(refusal))
            }
        }
    }

    /// Refuses a policy that something stands against, for the core's cause.
    fn refuse(
        &mut self,
        said: Rebinding,
        _toucher: Toucher,
        _strict: bool,
    ) -> Result<Rebound, ChangeRefusal>
        requires { (history : List Command) (lying : Lying) → StandsFor self.old.core.space history
            → LiesAs self.old.state lying → is_some (refusal_of self.old.core.space.machine
            self.old.core.space.bounds history (command_of said)) ≡ true }
        ensures { BindsBy (record { said = said; toucher = _toucher }) _strict self.old result
            self.new }
    {
        // Tells the proof that some execution leads to the core.
        let _ = self.core.published();
        match self.core.accept(&command_of(&said)) {
            Ok(_) => unreachable!(),
            Err(refusal) => Err(ChangeRefusal::OfSpace(refusal)),
        }
    }
}
