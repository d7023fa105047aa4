//! Pages that are stated to lie on nodes, or touched first.
ghost use Rattle.std.specs.Prelude.{◌≡◌, Err, Ok, false, is_some, true};
ghost use Rattle.std.specs.Prelude.{List};
ghost use Rattle.numa_requests.specs.declared.command.Command.{Command};
ghost use Rattle.numa_space.specs.History.{page_of};
ghost use Rattle.numa_space.specs.Standing.{StandsFor, place_refusal_of};
ghost use Rattle.numa_huge.specs.Huge.{huge_at};
ghost use Rattle.numa_page_state.specs.Huge.{huge_page};
ghost use Rattle.numa_pages.specs.Changes.{Faults, Places, Touches, ground_of, huge_in};
ghost use Rattle.numa_pages.specs.Sizes.{has_huge_among};

use crate::pages::Pages;
use crate::questions::arrived_in;
use crate::refusal::{ChangeRefusal, fault_told, state_told};
use numa_maps::Resident;
use numa_page_state::binding::page_count;
use numa_page_state::huge::{huge_fault, huge_populated, is_huge_in};
use numa_page_state::pooling::place_cause;
use numa_page_state::{Arrived, Toucher, huge_span};
use numa_requests::{HugeRefusal, PAGE_BYTES, PlacedRefusal};
use std::mem::replace;

impl Pages {
    /// Whether a page of a span, in bytes, has 2 MiB.
    fn has_huge(&self, start: u64, length: u64) -> bool
        ensures { result ≡ has_huge_among (huge_in self.now) start length }
    {
        let span = huge_span(start / PAGE_BYTES, page_count(length));
        self.huge.has_huge(span.first, span.pages)
    }

    /// States that the mapped pages of a span lie on a node, as far as it has room for those that
    /// come to it: they take its room, and give back that of the nodes which they leave. Start and
    /// length are in bytes.
    ///
    /// # Errors
    /// Nothing has changed. `OfHuge`: `NotSupported`, a page of the span has 2 MiB. `OfPages`: as
    /// [`Placed::state_within`](numa_placed::Placed::state_within): `NoRoom`, more pages would come
    /// to the node than find room. Of 0 bytes it takes no memory.
    pub fn place(&mut self, start: u64, length: u64, node: u32) -> Result<(), ChangeRefusal>
        ensures { Places start length node self.old result self.new }
    {
        if self.has_huge(start, length) {
            return Err(ChangeRefusal::OfHuge(HugeRefusal::NotSupported));
        }
        let none = Resident::new(self.alloc);
        state_told(self.state.at(self.core.space(), &none, start, length, node))
    }

    /// Touches each page of a span for the first time, as a task on a CPU of node `cpu` does that
    /// writes to it (madvise(2), MADV_POPULATE_WRITE): the lowest page first, each that is nowhere
    /// goes to the first node of its fallback list that has room by then, and takes one; one of
    /// 2 MiB, to the first with a free page. Pages that are there already are passed over; a page
    /// that finds no room stays nowhere, and the next go on. Start and length are in bytes. Returns
    /// what it did, where each page counts once, whatever its size.
    ///
    /// # Errors
    /// As [`Placed::populate`](numa_placed::Placed::populate). A copy of the runs takes memory even
    /// where all pages are there.
    pub fn populate(
        &mut self,
        start: u64,
        length: u64,
        task: u32,
        cpu: u32,
    ) -> Result<Arrived, PlacedRefusal>
        ensures { Touches start length task cpu self.old result self.new }
    {
        if self.has_huge(start, length) {
            return self.populate_both(start, length, Toucher { task, cpu });
        }
        let none = Resident::new(self.alloc);
        let space = self.core.space();
        match self.state.populate(space, &none, start, length, task, cpu) {
            Ok(()) => Ok(*self.state.arrived()),
            Err(why) => Err(why),
        }
    }

    /// Touches the pages of a span, some of which have 2 MiB: each size by its own supply.
    fn populate_both(
        &mut self,
        start: u64,
        length: u64,
        toucher: Toucher,
    ) -> Result<Arrived, PlacedRefusal>
        requires { has_huge_among (huge_in self.old) start length ≡ true }
        ensures { Touches start length toucher.task toucher.cpu self.old result self.new }
    {
        let Toucher { task, cpu } = toucher;
        let none = Resident::new(self.alloc);
        let space = self.core.space();
        let Ok(touched) = huge_populated(space, &self.huge, start, length, task, cpu) else {
            return Err(PlacedRefusal::NoMemory);
        };
        let (places, huge) = touched;
        match self
            .state
            .populate_beside(space, &none, &self.huge, start, length, task, cpu)
        {
            Ok(()) => {
                drop(replace(&mut self.huge, places));
                Ok(arrived_in(self.state.arrived(), &huge))
            }
            Err(why) => {
                drop(places);
                Err(why)
            }
        }
    }

    /// Touches the page of an address, in bytes, for the first time, as a task on a CPU of node
    /// `cpu` does that writes to it, and returns the node where it lies then, also if it was there
    /// before.
    ///
    /// # Errors
    /// The first of these that applies; nothing has changed: `BadCpu`, the machine has no such
    /// node; `Unmapped`; `Exhausted`, no node has room for the page of 4 KiB, or `Killed`, none
    /// gives that of 2 MiB (SIGBUS); `TooManyRuns`, `NoMemory`.
    pub fn fault(&mut self, task: u32, address: u64, cpu: u32) -> Result<u8, HugeRefusal>
        ensures { Faults task address cpu self.old result self.new }
    {
        let list = match self.core.space().list_at(task, address / PAGE_BYTES, cpu) {
            Ok(list) => list,
            Err(why) => return Err(place_cause(why)),
        };
        if is_huge_in(&self.huge, address) {
            return fault_told(
                HugeRefusal::Killed,
                huge_fault(&mut self.huge, address, &list),
            );
        }
        let none = Resident::new(self.alloc);
        let done = self
            .state
            .fault(self.core.space(), &none, task, address, cpu);
        fault_told(HugeRefusal::Exhausted, done)
    }
}
