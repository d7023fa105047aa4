//! Pools of pages of 2 MiB, and spans that are mapped as such pages.
ghost use Rattle.std.specs.Prelude.{◌≡◌, ◌≤◌, false, true};
ghost use Rattle.numa_pools.specs.Pools.{unreserved};
ghost use Rattle.numa_huge.specs.Huge.{fits, places_of};
ghost use Rattle.numa_page_state.specs.Pooling.{mapped_first, mapped_pages};
ghost use Rattle.numa_pages.specs.Changes.{huge_in};
ghost use Rattle.numa_pages.specs.PoolCalls.{Lacking, MapsHuge, Resizes, ResizesFor, ResizesNode};
ghost use Rattle.numa_pages.specs.Sizes.{with_mapping};

use crate::mapping::{HugeMapping, command_of};
use crate::pages::Pages;
use crate::refusal::ChangeRefusal;
use crate::trial::carried_out;
use numa_huge::HugePlaces;
use numa_machine::PageSize;
use numa_mask::NodeMask;
use numa_page_state::is_late_in;
use numa_page_state::pooling::{
    lacks_if, mapped_pages, mapping_nodes, pool_refusal, resize_node, resizing_nodes,
};
use numa_requests::HugeRefusal;
use std::mem::replace;

/// The most pages that a call says.
const MOST_PAGES: u64 = (1 << 63) - 1;

impl Pages {
    /// Makes the pools of all nodes with memory have so many pages together that aren't surplus, as
    /// a write to nr_hugepages does: surplus pages stay from then on, then fresh ones come in turn,
    /// on allowed nodes alone. Free ones go in turn, never below what is used or reserved; what is
    /// still too many becomes surplus.
    pub fn resize(&mut self, pages: u64)
        ensures { Resizes self.old.core.space.machine.memory pages self.old self.new }
    {
        let memory = self.core.space().machine().memory();
        self.resize_all(&memory, pages);
    }

    /// Makes the pools of these nodes have so many pages together.
    fn resize_all(&mut self, nodes: &NodeMask, pages: u64)
        ensures { Resizes nodes.now pages self.old self.new }
    {
        let allowed = self.core.space().allowed();
        self.huge.resize(nodes, &allowed, pages);
    }

    /// Makes the pool of a node have so many pages that aren't surplus, as a write to the node's
    /// own nr_hugepages does. From 2^63 on it is 2^63 - 1.
    ///
    /// # Errors
    /// Nothing has changed: `NoSuchNode`, the machine lacks the node; `Unsure`, the node or the
    /// others together have more surplus pages than pages, where Linux takes all the node's memory.
    pub fn resize_node(&mut self, node: u32, pages: u64) -> Result<(), HugeRefusal>
        ensures { ResizesNode node pages self.old result self.new }
    {
        let space = self.core.space();
        let nodes = space.machine().nodes();
        let allowed = space.allowed();
        let said = pages.min(MOST_PAGES);
        match resize_node(&mut self.huge, nodes, node, &allowed, said) {
            Ok(()) => Ok(()),
            Err(why) => Err(pool_refusal(why)),
        }
    }

    /// Makes the pools of the nodes of a task's policy have so many pages together, as a write to
    /// nr_hugepages_mempolicy by a task on a CPU of node `cpu` does: that node's own if the policy
    /// is `LOCAL`, those of all nodes with memory if there is none.
    ///
    /// # Errors
    /// `BadCpu`: the machine has no such node; nothing has changed.
    pub fn resize_for(&mut self, pages: u64, task: u32, cpu: u32) -> Result<(), HugeRefusal>
        ensures { ResizesFor pages task cpu self.old result self.new }
    {
        let space = self.core.space();
        if cpu >= space.machine().nodes() {
            return Err(HugeRefusal::BadCpu);
        }
        let nodes = resizing_nodes(space.task_policy(task), &space.machine().memory(), cpu);
        self.resize_all(&nodes, pages);
        Ok(())
    }

    /// Maps a span as pages of 2 MiB, as many as its length takes (mmap(2), MAP_HUGETLB), which its
    /// task reserves or doesn't (MAP_NORESERVE), and returns the number of accepted commands. Those
    /// that are reserved come from the nodes that are allowed, and if the task's policy is `BIND`,
    /// from its nodes among them.
    ///
    /// # Errors
    /// `OfHuge`: `NoHugePages`, it finds too few pages, and nothing stands against the command but
    /// `TooManyRanges` and `NoMemory`, which come behind it; then as many free surplus pages end as
    /// it had reserved. Else nothing has changed. `OfPages`: `TooManyRuns`, `NoMemory`, as
    /// [`HugePlaces::mapped`]; this comes before every cause of the core. `OfSpace`: as
    /// [`Core::accept`](numa_core::Core::accept). `NoMemory`: it finds too few pages, and there is
    /// no memory for a copy of the space, on which the command is tried.
    pub fn map_huge(&mut self, said: &HugeMapping) -> Result<u64, ChangeRefusal>
        ensures { MapsHuge said.now self.old result self.new }
    {
        let pages = mapped_pages(said.length);
        let space = self.core.space();
        let nodes = mapping_nodes(space.task_policy(said.task), &space.allowed());
        if lacks_if(self.huge.pools(), said.reserves, pages, &nodes) {
            return self.lack_pages(said, pages);
        }
        self.map_fitting(said, pages)
    }

    /// A mapping finds too few pages: what refuses the command before the limits is told, else
    /// that.
    fn lack_pages(&mut self, said: &HugeMapping, pages: u64) -> Result<u64, ChangeRefusal>
        requires lacks { Lacking true said.now self.old }
        requires pages { pages ≡ mapped_pages said.now.length }
        ensures { MapsHuge said.now self.old result self.new }
    {
        let command = command_of(said);
        // Tells the proof that some execution leads to the core.
        let _ = self.core.published();
        let Ok(late) = is_late_in(self.alloc, self.core.space(), &command) else {
            return Err(ChangeRefusal::NoMemory);
        };
        if late {
            self.huge.refuse(pages);
            return Err(ChangeRefusal::OfHuge(HugeRefusal::NoHugePages));
        }
        match self.core.accept(&command) {
            Ok(_) => unreachable!(),
            Err(refusal) => Err(ChangeRefusal::OfSpace(refusal)),
        }
    }

    /// Maps a span, for whose pages there are enough where it reserves them.
    fn map_fitting(&mut self, said: &HugeMapping, pages: u64) -> Result<u64, ChangeRefusal>
        requires enough { Lacking false said.now self.old }
        requires room { said.now.reserves ≡ true → pages ≤ unreserved self.old.huge.pools }
        requires pages { pages ≡ mapped_pages said.now.length }
        ensures { MapsHuge said.now self.old result self.new }
    {
        let first = said.start / PageSize::Huge.bytes();
        if !self.huge.fits(first, pages) {
            return self.map_plain(said);
        }
        match self.huge.mapped(first, pages, said.reserves) {
            Ok(after) => self.map_by(said, after),
            Err(why) => Err(ChangeRefusal::OfPages(why)),
        }
    }

    /// Maps a span that its pages can't be, so that the core refuses it.
    fn map_plain(&mut self, said: &HugeMapping) -> Result<u64, ChangeRefusal>
        requires enough { Lacking false said.now self.old }
        requires fits { fits (huge_in self.old).spots (mapped_first said.now.start)
            (mapped_pages said.now.length) ≡ false }
        ensures { MapsHuge said.now self.old result self.new }
    {
        let version = match carried_out(&mut self.core, &command_of(said)) {
            Ok(version) => version,
            Err(refusal) => return Err(ChangeRefusal::OfSpace(refusal)),
        };
        Ok(version)
    }

    /// Maps a span, where `after` is what is kept of pages of 2 MiB then.
    fn map_by(&mut self, said: &HugeMapping, after: HugePlaces) -> Result<u64, ChangeRefusal>
        requires enough { Lacking false said.now self.old }
        requires after { places_of after ≡ with_mapping said.now.start said.now.length
            said.now.reserves (huge_in self.old) }
        ensures { MapsHuge said.now self.old result self.new }
    {
        match carried_out(&mut self.core, &command_of(said)) {
            Ok(version) => {
                drop(replace(&mut self.huge, after));
                Ok(version)
            }
            Err(refusal) => {
                drop(after);
                Err(ChangeRefusal::OfSpace(refusal))
            }
        }
    }
}
