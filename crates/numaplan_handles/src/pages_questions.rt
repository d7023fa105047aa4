//! Questions to a handle of a core with its pages.
ghost use Rattle.std.specs.Prelude.{◌≡◌, ◌<◌, ℕ, EachIndex, IfOk, length, slice_index};
ghost use Rattle.numaplan_handles.specs.Calls.{Asks};
ghost use Rattle.numaplan_handles.specs.Handles.{pages_in};
ghost use Rattle.numaplan_handles.specs.Pages.{HasCounts, HasNode, HasNodes, HasRoom, HasRuns};
ghost use Rattle.numaplan_handles.specs.Pages.{IsNodeOr, TellsOf, spots_in};

use crate::handle::of_kept;
use crate::pages_handle::{PagesHandle, pages_kept};
use numa_machine::{NoMemory, Rules};
use numa_pages::{PageRun, Pages, list_runs};
use numa_pools::Pools;
use numa_requests::PlacedRefusal;
use std::alloc::Global;

/// The runs of pages that lie on one node.
fn runs_of(alloc: Global, pages: &Pages) -> Result<Vec<PageRun>, NoMemory>
    ensures { IfOk result (λ list. HasRuns list.items pages.now) }
{
    match list_runs(alloc, pages.placed(), Some(pages.huge())) {
        Ok(list) => Ok(list),
        Err(_) => Err(NoMemory),
    }
}

/// Writes the node on which each of these pages lies, or the mark for one that lies nowhere.
fn write_each(pages: &Pages, numbers: &[u64], nowhere: u8, nodes: &mut [u8])
    requires { length numbers.now ≡ length nodes.old }
    ensures long { length nodes.new ≡ length nodes.old }
    ensures nodes { (k : ℕ) → k < length numbers.now → IsNodeOr nowhere (spots_in pages.now)
        (slice_index numbers.now k) (slice_index nodes.new k) }
{
    for place in 0..numbers.len() {
        nodes[place] = pages.node_at(numbers[place]).unwrap_or(nowhere);
    }
}

/// The same, if there are as many places as pages; returns how many they are.
fn tell_nodes(pages: &Pages, numbers: &[u64], nowhere: u8, nodes: &mut [u8]) -> Result<usize, usize>
    ensures { HasNodes numbers.now nowhere result nodes.old nodes.new pages.now }
{
    let count = numbers.len();
    if nodes.len() != count {
        return Err(count);
    }
    write_each(pages, numbers, nowhere, nodes);
    Ok(count)
}

impl PagesHandle {
    /// The number of accepted commands. `None` if the handle is closed.
    pub fn version(&mut self, alloc: Global) -> Option<u64>
        ensures { Asks (λ version. TellsOf (λ pages. version ≡ pages.core.space.version)
            (pages_in self.old)) (pages_in self.old) result (pages_in self.new) }
    {
        of_kept!(self.handle, alloc, kept => pages_kept(&kept).core().space().version())
    }

    /// The rules by which the core goes. `None` if the handle is closed.
    pub fn rules(&mut self, alloc: Global) -> Option<Rules>
        ensures { Asks (λ rules. TellsOf (λ pages. rules ≡ pages.core.space.machine.rules)
            (pages_in self.old)) (pages_in self.old) result (pages_in self.new) }
    {
        of_kept!(self.handle, alloc, kept => pages_kept(&kept).core().space().machine().rules())
    }

    /// The node on which a page lies, if it lies on one. `None` if the handle is closed.
    pub fn node_at(&mut self, alloc: Global, page: u64) -> Option<Option<u8>>
        ensures { Asks (λ found. TellsOf (HasNode page found) (pages_in self.old))
            (pages_in self.old) result (pages_in self.new) }
    {
        of_kept!(self.handle, alloc, kept => pages_kept(&kept).node_at(page))
    }

    /// Writes the node on which each of these pages lies, and the mark `nowhere` for those that lie
    /// nowhere; returns how many they are. `None` if the handle is closed.
    ///
    /// # Errors
    /// How many places there have to be: there aren't as many as pages. Then nothing has been
    /// written.
    pub fn nodes_of(
        &mut self,
        alloc: Global,
        numbers: &[u64],
        nowhere: u8,
        nodes: &mut [u8],
    ) -> Option<Result<usize, usize>>
        ensures told { Asks (λ answer. TellsOf (HasNodes numbers.now nowhere answer nodes.old
            nodes.new) (pages_in self.old)) (pages_in self.old) result (pages_in self.new) }
        ensures closed { pages_in self.old ≡ None → nodes.new ≡ nodes.old }
    {
        of_kept!(self.handle, alloc, kept => tell_nodes(pages_kept(&kept), numbers, nowhere, nodes))
    }

    /// The number of pages of 4 KiB that lie on each node, of which one of 2 MiB is 512. `None` if
    /// the handle is closed.
    pub fn counts(&mut self, alloc: Global) -> Option<[u64; 256]>
        ensures { Asks (λ counts. TellsOf (HasCounts counts) (pages_in self.old))
            (pages_in self.old) result (pages_in self.new) }
    {
        of_kept!(self.handle, alloc, kept => pages_kept(&kept).counts())
    }

    /// The maximal runs of pages that lie on one node, in ascending order. `None` if the handle is
    /// closed.
    ///
    /// # Errors
    /// `NoMemory`: out of memory.
    pub fn runs(&mut self, alloc: Global) -> Option<Result<Vec<PageRun>, NoMemory>>
        ensures { Asks (λ answer. IfOk answer (λ list. TellsOf (HasRuns list.items)
            (pages_in self.old))) (pages_in self.old) result (pages_in self.new) }
    {
        of_kept!(self.handle, alloc, kept => runs_of(alloc, pages_kept(&kept)))
    }

    /// The pools of pages of 2 MiB. `None` if the handle is closed.
    pub fn pools(&mut self, alloc: Global) -> Option<Pools>
        ensures { Asks (λ pools. TellsOf (λ pages. pools ≡ pages.huge.pools) (pages_in self.old))
            (pages_in self.old) result (pages_in self.new) }
    {
        of_kept!(self.handle, alloc, kept => *pages_kept(&kept).pools())
    }

    /// How many more pages of 4 KiB a node takes, 2^64 - 1 if it never fills. `None` if the handle
    /// is closed.
    ///
    /// # Errors
    /// In the `Some`, as [`Pages::room`](numa_pages::Pages::room).
    pub fn room(&mut self, alloc: Global, node: u32) -> Option<Result<u64, PlacedRefusal>>
        ensures { Asks (λ answer. TellsOf (HasRoom node answer) (pages_in self.old))
            (pages_in self.old) result (pages_in self.new) }
    {
        of_kept!(self.handle, alloc, kept => pages_kept(&kept).room(node))
    }
}
