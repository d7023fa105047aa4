//! Lines about pages of 2 MiB, and about first touches, of a running machine.
ghost use Rattle.std.specs.Prelude.{◌≡◌, ◌≤◌, ◌<◌, ◌^◌, IsSomeAnd, OnErr, OnOk, is_some, true};
ghost use Rattle.std.specs.Result.{result_err};
ghost use Rattle.numa_huge.specs.Huge.{huge_at};
ghost use Rattle.numa_page_state.specs.Huge.{HugeFaults, huge_page};
ghost use Rattle.numa_space.specs.History.{page_of};
ghost use Rattle.numa_space.specs.Standing.{place_refusal_of};
ghost use Rattle.numa_pools.specs.Pools.{refusing, unreserved};
ghost use Rattle.numa_pools.specs.Resize.{node_refusal, resized, resized_node};
ghost use Rattle.numa_run.specs.HugeLines.{begins, begun_on, begun_outcome, fault_reply};
ghost use Rattle.numa_run.specs.HugeLines.{fault_unless, fitting_outcome, lacking_outcome};
ghost use Rattle.numa_run.specs.HugeLines.{map_outcome, pools_on, resize_for_outcome};
ghost use Rattle.numa_run.specs.HugeLines.{resize_outcome, resize_unless, small_fault_outcome};
ghost use Rattle.numa_run.specs.Standing.{ComesTo, RunsAs, Serves, Takes};
ghost use Rattle.numa_script.specs.declared.line.Line.{Line};

use crate::obeying::{accept_reply, command_reply};
use crate::running::{Running, Taken};
use numa_huge::HugePages;
use numa_machine::PageSize;
use numa_mask::NodeMask;
use numa_page_state::huge::{huge_fault, is_huge_at};
use numa_page_state::is_late_in;
use numa_page_state::pooling::{
    fault_cause, lacks_if, mapped_pages, mapping_nodes, place_cause, pool_refusal, resize_node,
    resizing_nodes,
};
use numa_page_state::state::begins_starved;
use numa_pools::PoolRefusal;
use numa_requests::{Command, HugeRefusal, PAGE_BYTES, PlacedRefusal};
use numa_script::{HugeLine, Reply};
use std::alloc::Global;

/// The most pages that a line says.
pub const MOST_PAGES: u64 = (1 << 63) - 1;

/// The reply to `fault`; where no node gives the page, this is told.
pub fn fault_reply(none: HugeRefusal, done: Result<Option<u8>, PlacedRefusal>) -> Reply
    ensures { result ≡ fault_reply none done }
{
    match done {
        Ok(Some(node)) => Reply::MovedTo(node as u32),
        Ok(None) => Reply::HugeRefused(none),
        Err(why) => Reply::HugeRefused(fault_cause(why)),
    }
}

/// Makes the pools of these nodes have so many pages in all.
fn resize_kept(kept: &mut HugePages, nodes: &NodeMask, allowed: &NodeMask, pages: u64)
    ensures rest { kept.new ≡ record kept.old { places = kept.new.places } }
    ensures pools { kept.new.places.pools
        ≡ resized nodes.now allowed.now pages kept.old.places.pools }
    ensures runs { kept.new.places.runs ≡ kept.old.places.runs }
{
    kept.places.resize(nodes, allowed, pages);
}

/// Makes the pool of a node have so many pages.
///
/// # Errors
/// As [`Pools::resize_node`](numa_pools::Pools::resize_node). Then nothing has changed.
fn resize_node_kept(
    kept: &mut HugePages,
    nodes: u32,
    node: u32,
    allowed: &NodeMask,
    pages: u64,
) -> Result<(), PoolRefusal>
    requires nodes { nodes ≤ 256 }
    requires pages { pages < 2 ^ 63 }
    ensures rest { kept.new ≡ record kept.old { places = kept.new.places } }
    ensures refusal { result_err result ≡ node_refusal nodes kept.old.places.pools node pages }
    ensures resized { OnOk result (kept.new.places.pools
        ≡ resized_node node allowed.now pages kept.old.places.pools) }
    ensures unchanged { OnErr result (kept.new ≡ kept.old) }
    ensures runs { kept.new.places.runs ≡ kept.old.places.runs }
{
    resize_node(&mut kept.places, nodes, node, allowed, pages)
}

/// A mapping found too few pages.
fn refuse_kept(kept: &mut HugePages, pages: u64)
    ensures rest { kept.new ≡ record kept.old { places = kept.new.places } }
    ensures pools { kept.new.places.pools ≡ refusing kept.old.places.pools pages }
    ensures runs { kept.new.places.runs ≡ kept.old.places.runs }
{
    kept.places.refuse(pages);
}

/// Touches the page of 2 MiB of an address.
///
/// # Errors
/// As [`HugePlaces::fault`](numa_huge::HugePlaces::fault).
fn fault_kept(kept: &mut HugePages, address: u64, nodes: &[u8]) -> Result<Option<u8>, PlacedRefusal>
    requires { is_some (huge_at kept.old.places.runs (huge_page address)) ≡ true }
    ensures rest { kept.new ≡ record kept.old { places = kept.new.places } }
    ensures faults { HugeFaults kept.old.places result kept.new.places (huge_page address)
        nodes.now }
{
    huge_fault(&mut kept.places, address, nodes)
}

/// Whether a line begins to keep pages of 2 MiB: all but `pool` alone and `fault` do.
fn begins(said: &HugeLine) -> bool
    ensures { result ≡ begins said.now }
{
    match said {
        HugeLine::Pools => false,
        HugeLine::Fault { .. } => false,
        _ => true,
    }
}

impl Running {
    /// Begins to keep pages of 2 MiB, if none are kept yet.
    fn begin_huge(&mut self, alloc: Global)
        ensures runs { (state : _) → RunsAs self.old state
            → RunsAs self.new (begun_on self.old.core.space.machine state) }
        ensures begun { is_some self.new.huge ≡ true }
        ensures core { self.new.core ≡ self.old.core }
    {
        if let Some(_) = &self.huge {
            return;
        }
        let begun = HugePages::new(alloc, self.core.space().machine());
        self.huge = Some(begun);
    }

    /// Makes the pools of these nodes have so many pages in all.
    fn resize(&mut self, nodes: &NodeMask, pages: u64) -> Taken
        requires { is_some self.old.huge ≡ true }
        ensures { ComesTo self.old result self.new (λ lack machine state.
            resize_outcome machine nodes.now pages state) }
    {
        let allowed = self.core.space().allowed();
        let Some(kept) = &mut self.huge else {
            unreachable!()
        };
        resize_kept(kept, nodes, &allowed, pages);
        Taken::Pools
    }

    /// Makes the pool of a node have so many pages.
    fn resize_node(&mut self, node: u32, pages: u64) -> Taken
        requires kept { is_some self.old.huge ≡ true }
        requires pages { pages < 2 ^ 63 }
        ensures { ComesTo self.old result self.new (λ lack machine state. resize_unless
            (node_refusal machine.nodes (pools_on machine state) node pages) machine node pages
            state) }
    {
        let space = self.core.space();
        let nodes = space.machine().nodes();
        let allowed = space.allowed();
        let Some(kept) = &mut self.huge else {
            unreachable!()
        };
        match resize_node_kept(kept, nodes, node, &allowed, pages) {
            Ok(()) => Taken::Pools,
            Err(why) => Taken::Reply(Reply::HugeRefused(pool_refusal(why))),
        }
    }

    /// Makes the pools of the nodes of a task's policy have so many pages in all.
    fn resize_for(&mut self, pages: u64, task: u32, cpu: u32) -> Taken
        requires { is_some self.old.huge ≡ true }
        ensures { ComesTo self.old result self.new (λ lack machine state.
            resize_for_outcome machine pages task cpu state) }
    {
        let space = self.core.space();
        if cpu >= space.machine().nodes() {
            return Taken::Reply(Reply::HugeRefused(HugeRefusal::BadCpu));
        }
        let nodes = resizing_nodes(space.task_policy(task), &space.machine().memory(), cpu);
        self.resize(&nodes, pages)
    }

    /// A mapping finds too few pages: what refuses the command before the limits is told, else
    /// that.
    fn lack_pages(&mut self, alloc: Global, pages: u64, command: &Command) -> Reply
        requires { is_some self.old.huge ≡ true }
        ensures { Serves self.old result self.new (λ lack machine state.
            lacking_outcome lack machine pages state command.now) }
    {
        let Ok(late) = is_late_in(alloc, self.core.space(), command) else {
            return command_reply(PlacedRefusal::NoMemory);
        };
        if !late {
            return self.accept(command);
        }
        let Some(kept) = &mut self.huge else {
            unreachable!()
        };
        refuse_kept(kept, pages);
        Reply::HugeRefused(HugeRefusal::NoHugePages)
    }

    /// Maps a span, for whose pages there are enough where it reserves them.
    fn map_fitting(&mut self, first: u64, pages: u64, reserves: bool, command: &Command) -> Reply
        requires { IsSomeAnd self.old.huge (λ kept.
            reserves ≡ true → pages ≤ unreserved kept.places.pools) }
        ensures { Serves self.old result self.new (λ lack machine state.
            fitting_outcome lack machine first pages reserves state command.now) }
    {
        let Some(kept) = &self.huge else {
            unreachable!()
        };
        if !kept.places.fits(first, pages) {
            return self.accept(command);
        }
        let after = match kept.places.mapped_runs(first, pages, reserves) {
            Ok(after) => after,
            Err(why) => return command_reply(why),
        };
        let answer = self.core.accept(command);
        if answer.is_err() {
            drop(after);
            return accept_reply(answer);
        }
        let Some(kept) = &mut self.huge else {
            unreachable!()
        };
        kept.map_by(after, pages, reserves);
        accept_reply(answer)
    }

    /// Maps a span as pages of 2 MiB, which its task reserves or doesn't.
    fn map_huge(
        &mut self,
        alloc: Global,
        start: u64,
        length: u64,
        offset: u64,
        task: u32,
        reserves: bool,
    ) -> Reply
        requires { is_some self.old.huge ≡ true }
        ensures { Serves self.old result self.new (λ lack machine state.
            map_outcome lack machine start length offset task reserves state) }
    {
        let command = Command::Map {
            start,
            length,
            offset,
            size: PageSize::Huge,
        };
        let pages = mapped_pages(length);
        let space = self.core.space();
        let nodes = mapping_nodes(space.task_policy(task), &space.allowed());
        let Some(kept) = &self.huge else {
            unreachable!()
        };
        if lacks_if(kept.places.pools(), reserves, pages, &nodes) {
            return self.lack_pages(alloc, pages, &command);
        }
        self.map_fitting(start / PageSize::Huge.bytes(), pages, reserves, &command)
    }

    /// Touches the page of an address, which has 4 KiB.
    fn fault_small(&mut self, alloc: Global, task: u32, address: u64, cpu: u32) -> Reply
        ensures { Serves self.old result self.new (λ lack machine state.
            small_fault_outcome lack machine task address cpu state) }
    {
        if begins_starved(alloc, &mut self.pages) {
            return Reply::HugeRefused(HugeRefusal::NoMemory);
        }
        let Some(kept) = &mut self.pages else {
            unreachable!()
        };
        let done = kept.fault(self.core.space(), &self.resident, task, address, cpu);
        fault_reply(HugeRefusal::Exhausted, done)
    }

    /// Touches the page of an address.
    fn fault(&mut self, alloc: Global, task: u32, address: u64, cpu: u32) -> Reply
        ensures { Serves self.old result self.new (λ lack machine state. fault_unless
            (place_refusal_of machine state.world.history (page_of address) cpu) lack machine task
            address cpu state) }
    {
        let list = match self.core.space().list_at(task, address / PAGE_BYTES, cpu) {
            Ok(list) => list,
            Err(why) => return Reply::HugeRefused(place_cause(why)),
        };
        if !is_huge_at(&self.huge, address) {
            return self.fault_small(alloc, task, address, cpu);
        }
        let Some(kept) = &mut self.huge else {
            unreachable!()
        };
        fault_reply(HugeRefusal::Killed, fault_kept(kept, address, &list))
    }

    /// Carries out such a line. What the pools have then is still to be written, where that is the
    /// answer.
    #[inline(never)]
    pub(crate) fn huge(&mut self, alloc: Global, said: &HugeLine) -> Taken
        ensures { Takes self.old (Line.Huge said.now) result self.new }
    {
        if !begins(said) {
            return self.huge_begun(alloc, said);
        }
        self.begin_huge(alloc);
        self.huge_begun(alloc, said)
    }

    /// Carries out a line, where pages of 2 MiB are kept if it begins to keep some.
    fn huge_begun(&mut self, alloc: Global, said: &HugeLine) -> Taken
        requires { begins said.now ≡ true → is_some self.old.huge ≡ true }
        ensures { ComesTo self.old result self.new (λ lack machine state.
            begun_outcome lack machine state said.now) }
    {
        match said {
            HugeLine::Pools => Taken::Pools,
            HugeLine::Resize(pages) => {
                let memory = self.core.space().machine().memory();
                self.resize(&memory, *pages)
            }
            HugeLine::ResizeNode { node, pages } => {
                self.resize_node(*node, (*pages).min(MOST_PAGES))
            }
            HugeLine::ResizeFor { pages, task, cpu } => self.resize_for(*pages, *task, *cpu),
            HugeLine::Map {
                start,
                length,
                offset,
                task,
                reserves,
            } => Taken::Reply(self.map_huge(alloc, *start, *length, *offset, *task, *reserves)),
            HugeLine::Fault { task, address, cpu } => {
                Taken::Reply(self.fault(alloc, *task, *address, *cpu))
            }
        }
    }
}
