//! Moves of pages.
ghost use Rattle.std.specs.Prelude.{◌≡◌, false, is_some, true};
ghost use Rattle.numa_core.specs.Standing.{setup_of};
ghost use Rattle.numa_requests.specs.declared.command.Command.{Command};
ghost use Rattle.numa_huge.specs.Huge.{huge_at};
ghost use Rattle.numa_page_state.specs.Huge.{huge_page};
ghost use Rattle.numa_pages.specs.Changes.{Accepted, Migrates, MovesMems, MovesPage, may_fill};

use crate::pages::Pages;
use crate::questions::{last_moved, may_fill, sum_of};
use crate::refusal::ChangeRefusal;
use crate::trial::{TrialError, carried_out, let_go, tried};
use numa_core::Core;
use numa_maps::Resident;
use numa_mask::NodeMask;
use numa_page_state::PageState;
use numa_page_state::huge::{huge_goes, is_huge_in};
use numa_placed::Moved;
use numa_requests::{Command, MoveRefusal, PlacedRefusal};
use std::mem::replace;

impl Pages {
    /// Changes the nodes on which memory may be placed, and moves the pages with them, as far as
    /// there is room: as a kernel does for a control group (cpuset.mems of cgroups(7);
    /// cpuset.memory_migrate of cpusets(7)). Those of 2 MiB lack no room. Returns what went where,
    /// each page counted once, whatever its size.
    ///
    /// # Errors
    /// Nothing has changed. `OfSpace`: as [`Core::accept`](numa_core::Core::accept). `OfPages`:
    /// `TooManyRuns` or `NoMemory`, as [`PageState::move_along`]. `NoMemory`: out of memory for a
    /// copy. Where no node may fill, since no room was said, it takes no memory.
    pub fn move_mems(&mut self, mask: NodeMask) -> Result<Moved, ChangeRefusal>
        ensures { MovesMems mask self.old result self.new }
    {
        if may_fill(&self.state) {
            return self.move_within(mask);
        }
        self.move_freely(mask)
    }

    /// Changes the allowed nodes, and moves the pages, where no node may fill: both in place.
    fn move_freely(&mut self, mask: NodeMask) -> Result<Moved, ChangeRefusal>
        requires { may_fill self.old.state ≡ false }
        ensures { MovesMems mask self.old result self.new }
    {
        let old = self.core.space().allowed();
        match carried_out(&mut self.core, &Command::SetMems { mask }) {
            Ok(_) => {
                let new = self.core.space().allowed();
                let none = Resident::new(self.alloc);
                match self.state.move_along(&old, &new, &none) {
                    Ok(shift) => {
                        let small = last_moved(&self.state, shift);
                        let huge = self.huge.follow(&old, &new);
                        Ok(sum_of(&small, &huge))
                    }
                    Err(_) => unreachable!(),
                }
            }
            Err(refusal) => Err(ChangeRefusal::OfSpace(refusal)),
        }
    }

    /// Changes the allowed nodes, and moves the pages as far as there is room.
    fn move_within(&mut self, mask: NodeMask) -> Result<Moved, ChangeRefusal>
        requires { may_fill self.old.state ≡ true }
        ensures { MovesMems mask self.old result self.new }
    {
        match tried(&self.core, &Command::SetMems { mask }) {
            Ok(after) => self.follow(mask, after),
            Err(TrialError::Refused(refusal)) => Err(ChangeRefusal::OfSpace(refusal)),
            Err(TrialError::NoMemory) => Err(ChangeRefusal::NoMemory),
        }
    }

    /// Moves the pages to the allowed nodes of the core that is to take the old one's place.
    fn follow(&mut self, _mask: NodeMask, after: Core) -> Result<Moved, ChangeRefusal>
        requires accepted { Accepted self.old.core (Command.SetMems _mask) after }
        requires setup { setup_of after ≡ setup_of self.old.core }
        requires fills { may_fill self.old.state ≡ true }
        ensures { MovesMems _mask self.old result self.new }
    {
        let old = self.core.space().allowed();
        let new = after.space().allowed();
        let none = Resident::new(self.alloc);
        match self.state.move_along(&old, &new, &none) {
            Ok(shift) => {
                let_go(replace(&mut self.core, after));
                let small = last_moved(&self.state, shift);
                let huge = self.huge.follow(&old, &new);
                Ok(sum_of(&small, &huge))
            }
            Err(cause) => {
                let_go(after);
                Err(ChangeRefusal::OfPages(cause))
            }
        }
    }

    /// Moves pages from one set of nodes to the allowed nodes of another, as far as there is room:
    /// migrate_pages(2). Those of 2 MiB lack no room. Returns what went where, each page counted
    /// once, whatever its size.
    ///
    /// # Errors
    /// As [`Placed::migrate_within`](numa_placed::Placed::migrate_within). Where no node may fill
    /// it takes no memory.
    pub fn migrate(&mut self, from: &NodeMask, to: &NodeMask) -> Result<Moved, PlacedRefusal>
        ensures { Migrates from.now to.now self.old result self.new }
    {
        let none = Resident::new(self.alloc);
        match self.state.migrate(self.core.space(), &none, from, to) {
            Ok(shift) => {
                let small = last_moved(&self.state, shift);
                let targets = to.and(&self.core.space().allowed());
                let huge = self.huge.follow(from, &targets);
                Ok(sum_of(&small, &huge))
            }
            Err(cause) => Err(cause),
        }
    }

    /// Moves a page to a node, if it has room: move_pages(2). A page that lies there stays. The
    /// address is any byte's of the page. One of 2 MiB goes whole, and lacks no room.
    ///
    /// # Errors
    /// As [`Placed::move_page_within`](numa_placed::Placed::move_page_within). A page that lies
    /// there already may want memory too.
    pub fn move_page(&mut self, address: u64, node: u32) -> Result<(), MoveRefusal>
        ensures { MovesPage address node self.old result self.new }
    {
        if is_huge_in(&self.huge, address) {
            return self.move_huge(address, node);
        }
        self.move_small(address, node)
    }

    /// Moves the page of an address, which has 2 MiB.
    fn move_huge(&mut self, address: u64, node: u32) -> Result<(), MoveRefusal>
        requires { is_some (huge_at self.old.huge.runs (huge_page address)) ≡ true }
        ensures { MovesPage address node self.old result self.new }
    {
        if let Err(why) = huge_goes(&mut self.huge, self.core.space(), address, node) {
            return Err(why);
        }
        Ok(())
    }

    /// Moves the page of an address, which has 4 KiB.
    fn move_small(&mut self, address: u64, node: u32) -> Result<(), MoveRefusal>
        requires { is_some (huge_at self.old.huge.runs (huge_page address)) ≡ false }
        ensures { MovesPage address node self.old result self.new }
    {
        let none = Resident::new(self.alloc);
        self.state
            .move_page(self.core.space(), &none, address, node)
    }
}
