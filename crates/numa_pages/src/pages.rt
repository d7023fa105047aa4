//! A core, and where its pages of both sizes lie.
ghost use Rattle.std.specs.Prelude.{◌≡◌, ◌<◌, ℕ, IfErr, IfOk, false, slice_index, true};
ghost use Rattle.numa_placed.specs.Refusals.{lacks_node};
ghost use Rattle.numa_placed.specs.Spots.{node_of, spot_at};
ghost use Rattle.numa_requests.specs.declared.page_refusal.PlacedRefusal.TheVariants.{NoSuchNode};
ghost use Rattle.numa_huge.specs.Huge.{no_huge, places_of};
ghost use Rattle.numa_page_state.specs.Lying.{Lying, nothing};
ghost use Rattle.numa_page_state.specs.Outcomes.{rooms_of};
ghost use Rattle.numa_page_state.specs.Standing.{LiesAs};
ghost use Rattle.numa_pages.specs.Changes.{Limits, huge_in};
ghost use Rattle.numa_pages.specs.Sizes.{both_on, both_spots};

mod binding;
mod commands;
mod moving;
mod pooling;
mod touching;

use crate::questions::{counts_of, node_of, room_at};
use crate::trial::let_go;
use numa_core::Core;
use numa_huge::HugePlaces;
use numa_machine::NoMemory;
use numa_page_state::PageState;
use numa_placed::{Placed, lacks_node};
use numa_pools::Pools;
use numa_requests::PlacedRefusal;
use std::alloc::Global;
use std::marker::Model;

/// A core, where its pages lie, and the pools that its pages of 2 MiB come from. None keeps a
/// frame: no worker of this core places any.
#[derive(Drop)]
pub struct Pages {
    alloc: Global,
    core: Core,
    state: PageState,
    huge: HugePlaces,
}

impl Model for Pages {
    ghost use Rattle.numa_pages.specs.Changes.{PagesState};

    ghost Value = { PagesState };

    ghost view = { λ a. record { core = a.core; state = a.state; huge = a.huge } };
}

impl Pages {
    /// A core of whose pages nothing is stated yet, nodes that never fill, and pools without a
    /// page. Pages of 2 MiB that the core has already come from no pool: each is 512 pages here.
    ///
    /// # Errors
    /// `NoMemory`: out of memory; the core is dropped.
    pub fn new(alloc: Global, core: Core) -> Result<Pages, NoMemory>
        ensures core { IfOk result (λ pages. pages.core ≡ core) }
        ensures state { IfOk result (λ pages. LiesAs pages.state nothing) }
        ensures huge { IfOk result (λ pages. huge_in pages ≡ no_huge core.space.machine.memory) }
    {
        let huge = HugePlaces::new(alloc, core.space().machine());
        match PageState::new(alloc) {
            Ok(state) => Ok(Pages {
                alloc,
                core,
                state,
                huge,
            }),
            Err(lack) => {
                drop(huge);
                let_go(core);
                Err(lack)
            }
        }
    }

    /// Returns a copy. Later changes of one of the two don't affect the other.
    ///
    /// # Errors
    /// `NoMemory`: out of memory.
    pub fn copy(&self, alloc: Global) -> Result<Pages, NoMemory>
        ensures { IfOk result (λ copy. copy ≡ self.now) }
    {
        let state = self.state.copy()?;
        let huge = self.huge.copy()?;
        match self.core.copy() {
            Ok(core) => Ok(Pages {
                alloc,
                core,
                state,
                huge,
            }),
            Err(lack) => Err(lack),
        }
    }

    /// The core.
    pub fn core(&self) -> &Core
        ensures { result.now ≡ self.now.core }
    {
        &self.core
    }

    /// Where its pages of 4 KiB lie.
    pub fn placed(&self) -> &Placed
        ensures { result.now ≡ self.now.state.placed }
    {
        self.state.placed()
    }

    /// The pools of pages of 2 MiB.
    pub fn pools(&self) -> &Pools
        ensures { result.now ≡ self.now.huge.pools }
    {
        self.huge.pools()
    }

    /// Its pages of 2 MiB, with the pools that they come from.
    pub fn huge(&self) -> &HugePlaces
        ensures { result.now ≡ self.now.huge }
    {
        &self.huge
    }

    /// The node on which a page lies, if it lies on one: a page of 4 KiB, or the one of 2 MiB of
    /// which it is a part.
    pub fn node_at(&self, page: u64) -> Option<u8>
        ensures { result ≡ node_of (both_spots (huge_in self.now) (spot_at self.now.state.placed)
            page) }
    {
        node_of(self.state.placed(), &self.huge, page)
    }

    /// The number of pages of 4 KiB that lie on each node, of which a page of 2 MiB is 512.
    pub fn counts(&self) -> [u64; 256]
        ensures { (node : ℕ) → node < 256 → slice_index result node
            ≡ both_on (huge_in self.now) (spot_at self.now.state.placed) node }
    {
        counts_of(self.state.placed(), &self.huge)
    }

    /// How many more pages of 4 KiB a node takes, 2^64 - 1 if it never fills.
    ///
    /// # Errors
    /// `NoSuchNode`: the machine lacks the node, or it has no memory.
    pub fn room(&self, node: u32) -> Result<u64, PlacedRefusal>
        ensures room { IfOk result (λ pages. (lacks_node self.now.core.space.machine node ≡ false)
            × ((lying : Lying) → LiesAs self.now.state lying
            → pages ≡ rooms_of lying.room node)) }
        ensures err { IfErr result (λ cause. (cause ≡ NoSuchNode)
            × (lacks_node self.now.core.space.machine node ≡ true)) }
    {
        if lacks_node(self.core.space().machine(), node) {
            return Err(PlacedRefusal::NoSuchNode);
        }
        Ok(room_at(self.state.rooms(), node as u8))
    }

    /// Says how many more pages of 4 KiB find room on a node from now on; 2^64 - 1 if it never
    /// fills. A page that comes to it takes one, whoever brings it there, and one that leaves gives
    /// it back.
    ///
    /// # Errors
    /// `NoSuchNode`: the machine lacks the node, or it has no memory.
    pub fn limit(&mut self, node: u32, pages: u64) -> Result<(), PlacedRefusal>
        ensures { Limits node pages self.old result self.new }
    {
        self.state.limit(self.core.space(), node, pages)
    }
}
