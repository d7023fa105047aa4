//! Stating where pages lie, touching them first, moving them, and the pools of pages of 2 MiB,
//! through a handle.
ghost use Rattle.numa_pages.specs.Changes.{BindsMoving, BindsStrictly, Faults, Limits, Migrates};
ghost use Rattle.numa_pages.specs.Changes.{MovesMems, MovesPage, Places, Touches};
ghost use Rattle.numa_pages.specs.PoolCalls.{MapsHuge, ResizesAll, ResizesFor, ResizesNode};
ghost use Rattle.numaplan_handles.specs.PageCalls.{CallsPages};

use crate::handle::of_kept;
use crate::kept::Kept;
use crate::pages_handle::PagesHandle;
use numa_mask::NodeMask;
use numa_mode::PolicySpec;
use numa_page_state::{Arrived, Rebinding, Toucher};
use numa_pages::{ChangeRefusal, HugeMapping, Rebound};
use numa_placed::Moved;
use numa_requests::{HugeRefusal, MoveRefusal, PlacedRefusal};
use std::alloc::Global;

impl PagesHandle {
    /// States that the mapped pages of a span lie on a node. `None` if the handle is closed.
    ///
    /// # Errors
    /// In the `Some`, as [`Pages::place`](numa_pages::Pages::place).
    pub fn place(
        &mut self,
        alloc: Global,
        start: u64,
        length: u64,
        node: u32,
    ) -> Option<Result<(), ChangeRefusal>>
        ensures { CallsPages (Places start length node) self.old result self.new }
    {
        of_kept!(self.handle, alloc, Kept::Pages(pages) => pages.place(start, length, node))
    }

    /// Touches each page of a span for the first time, as a task on a CPU of node `cpu` does that
    /// writes to it, and returns how many pages went to a node, to which, and how many found no
    /// room, each counted once, whatever its size. `None` if the handle is closed.
    ///
    /// # Errors
    /// In the `Some`, as [`Pages::populate`](numa_pages::Pages::populate).
    pub fn populate(
        &mut self,
        alloc: Global,
        start: u64,
        length: u64,
        task: u32,
        cpu: u32,
    ) -> Option<Result<Arrived, PlacedRefusal>>
        ensures { CallsPages (Touches start length task cpu) self.old result self.new }
    {
        of_kept!(self.handle, alloc, Kept::Pages(pages) => {
            pages.populate(start, length, task, cpu)
        })
    }

    /// Says how many more pages a node takes; 2^64 - 1 if it never fills. `None` if the handle is
    /// closed.
    ///
    /// # Errors
    /// In the `Some`, as [`Pages::limit`](numa_pages::Pages::limit).
    pub fn limit(
        &mut self,
        alloc: Global,
        node: u32,
        room: u64,
    ) -> Option<Result<(), PlacedRefusal>>
        ensures { CallsPages (Limits node room) self.old result self.new }
    {
        of_kept!(self.handle, alloc, Kept::Pages(pages) => pages.limit(node, room))
    }

    /// Moves pages from one set of nodes to the allowed nodes of another, as far as there is room,
    /// and returns what went where. `None` if the handle is closed.
    ///
    /// # Errors
    /// In the `Some`, as [`Pages::migrate`](numa_pages::Pages::migrate).
    pub fn migrate(
        &mut self,
        alloc: Global,
        from: &NodeMask,
        to: &NodeMask,
    ) -> Option<Result<Moved, PlacedRefusal>>
        ensures { CallsPages (Migrates from.now to.now) self.old result self.new }
    {
        of_kept!(self.handle, alloc, Kept::Pages(pages) => pages.migrate(from, to))
    }

    /// Moves the page of an address to a node, if it has room. `None` if the handle is closed.
    ///
    /// # Errors
    /// In the `Some`, as [`Pages::move_page`](numa_pages::Pages::move_page).
    pub fn move_page(
        &mut self,
        alloc: Global,
        address: u64,
        node: u32,
    ) -> Option<Result<(), MoveRefusal>>
        ensures { CallsPages (MovesPage address node) self.old result self.new }
    {
        of_kept!(self.handle, alloc, Kept::Pages(pages) => pages.move_page(address, node))
    }

    /// Sets a policy for a span, unless a page of it lies on another node than the policy asks for.
    /// `None` if the handle is closed.
    ///
    /// # Errors
    /// In the `Some`, as [`Pages::bind_strictly`](numa_pages::Pages::bind_strictly).
    pub fn bind_strictly(
        &mut self,
        alloc: Global,
        start: u64,
        length: u64,
        spec: PolicySpec,
    ) -> Option<Result<u64, ChangeRefusal>>
        ensures { CallsPages (BindsStrictly start length spec) self.old result self.new }
    {
        of_kept!(self.handle, alloc, Kept::Pages(pages) => {
            pages.bind_strictly(start, length, spec)
        })
    }

    /// Sets a policy for a span, moves the pages that lie on other nodes than it asks for, as far
    /// as there is room, and returns how many went. `None` if the handle is closed.
    ///
    /// # Errors
    /// In the `Some`, as [`Pages::bind_moving`](numa_pages::Pages::bind_moving).
    pub fn bind_moving(
        &mut self,
        alloc: Global,
        said: Rebinding,
        strict: bool,
        toucher: Toucher,
    ) -> Option<Result<Rebound, ChangeRefusal>>
        ensures { CallsPages (BindsMoving said.start said.length said.spec strict toucher.task
            toucher.cpu) self.old result self.new }
    {
        let Rebinding {
            start,
            length,
            spec,
        } = said;
        let Toucher { task, cpu } = toucher;
        of_kept!(self.handle, alloc, Kept::Pages(pages) => {
            pages.bind_moving(start, length, spec, strict, task, cpu)
        })
    }

    /// Changes the nodes on which memory may be placed, moves the pages with them, as far as there
    /// is room, and returns what went where. `None` if the handle is closed.
    ///
    /// # Errors
    /// In the `Some`, as [`Pages::move_mems`](numa_pages::Pages::move_mems).
    pub fn move_mems(
        &mut self,
        alloc: Global,
        mask: NodeMask,
    ) -> Option<Result<Moved, ChangeRefusal>>
        ensures { CallsPages (MovesMems mask) self.old result self.new }
    {
        of_kept!(self.handle, alloc, Kept::Pages(pages) => pages.move_mems(mask))
    }

    /// Makes the pools of all nodes with memory have so many pages together that aren't surplus.
    /// `None` if the handle is closed.
    pub fn resize(&mut self, alloc: Global, pages: u64) -> Option<()>
        ensures { CallsPages (ResizesAll pages) self.old result self.new }
    {
        of_kept!(self.handle, alloc, Kept::Pages(it) => it.resize(pages))
    }

    /// Makes the pool of a node have so many pages that aren't surplus. `None` if the handle is
    /// closed.
    ///
    /// # Errors
    /// In the `Some`, as [`Pages::resize_node`](numa_pages::Pages::resize_node).
    pub fn resize_node(
        &mut self,
        alloc: Global,
        node: u32,
        pages: u64,
    ) -> Option<Result<(), HugeRefusal>>
        ensures { CallsPages (ResizesNode node pages) self.old result self.new }
    {
        of_kept!(self.handle, alloc, Kept::Pages(it) => it.resize_node(node, pages))
    }

    /// Makes the pools of the nodes of a task's policy have so many pages together, for a task on a
    /// CPU of node `cpu`. `None` if the handle is closed.
    ///
    /// # Errors
    /// In the `Some`, as [`Pages::resize_for`](numa_pages::Pages::resize_for).
    pub fn resize_for(
        &mut self,
        alloc: Global,
        pages: u64,
        task: u32,
        cpu: u32,
    ) -> Option<Result<(), HugeRefusal>>
        ensures { CallsPages (ResizesFor pages task cpu) self.old result self.new }
    {
        of_kept!(self.handle, alloc, Kept::Pages(it) => it.resize_for(pages, task, cpu))
    }

    /// Maps a span as pages of 2 MiB, which its task reserves or doesn't. `None` if the handle is
    /// closed.
    ///
    /// # Errors
    /// In the `Some`, as [`Pages::map_huge`](numa_pages::Pages::map_huge).
    pub fn map_huge(
        &mut self,
        alloc: Global,
        said: &HugeMapping,
    ) -> Option<Result<u64, ChangeRefusal>>
        ensures { CallsPages (MapsHuge said.now) self.old result self.new }
    {
        of_kept!(self.handle, alloc, Kept::Pages(it) => it.map_huge(said))
    }

    /// Touches the page of an address for the first time, and returns the node where it lies then.
    /// `None` if the handle is closed.
    ///
    /// # Errors
    /// In the `Some`, as [`Pages::fault`](numa_pages::Pages::fault).
    pub fn fault(
        &mut self,
        alloc: Global,
        task: u32,
        address: u64,
        cpu: u32,
    ) -> Option<Result<u8, HugeRefusal>>
        ensures { CallsPages (Faults task address cpu) self.old result self.new }
    {
        of_kept!(self.handle, alloc, Kept::Pages(it) => it.fault(task, address, cpu))
    }
}
