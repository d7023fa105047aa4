//! Lines about pools and pages of 2 MiB in a host.
ghost use Rattle.std.specs.Prelude.{◌≡◌, ◌≤◌, [], Err, Some, true};
ghost use Rattle.numa_huge.specs.Huge.{places_of};
ghost use Rattle.numa_host_huge.specs.Standing.{CanBegin};
ghost use Rattle.numa_host_pages.specs.Homes.{HostLying, lent};
ghost use Rattle.numa_host_pages.specs.Standing.{HostLies};
ghost use Rattle.numa_host_script.specs.Pooling.{fitting_outcome, huge_outcome, lacking_outcome};
ghost use Rattle.numa_host_script.specs.Pooling.{map_outcome, own_huge_outcome};
ghost use Rattle.numa_host_script.specs.Pooling.{resize_node_outcome, resize_outcome};
ghost use Rattle.numa_host_script.specs.Pooling.{small_faulted};
ghost use Rattle.numa_host_script.specs.Standing.{ComesTo, FaultsSo, MapsMade, Replies};
ghost use Rattle.numa_host_script.specs.Standing.{RepliesThere};
ghost use Rattle.numa_page_state.specs.Lying.{ground_in};
ghost use Rattle.numa_page_state.specs.Outcomes.{Lack};
ghost use Rattle.numa_pools.specs.Pools.{unreserved};
ghost use Rattle.numa_script.specs.declared.huge_line.HugeLine.{HugeLine};

use crate::binding::takes_more;
use crate::lending::{give_back, lacks_memory, lend};
use crate::paging::{obey_in, pages_reply};
use crate::running::{RunningHost, space_of};
use crate::taking::HostTaken;
use numa_host_pages::HostPages;
use numa_huge::HugePages;
use numa_machine::PageSize;
use numa_maps::Resident;
use numa_mask::{NodeId, NodeMask};
use numa_page_state::is_late_in;
use numa_page_state::pooling::{
    lacks_if, mapped_pages, mapping_nodes, place_cause, pool_refusal, resizing_nodes,
};
use numa_requests::{Command, HostCommand, HostRefusal, HugeRefusal, PAGE_BYTES, PlacedRefusal};
use numa_run::huge::{MOST_PAGES, fault_reply};
use numa_script::{HugeLine, Reply};
use numa_space::Space;
use std::alloc::Global;

// ---- pools

/// Makes the pools of these nodes have so many pages in all.
fn resize(running: &mut RunningHost, nodes: &NodeMask, allowed: &NodeMask, pages: u64) -> HostTaken
    ensures { ComesTo running.old result running.new
        (λ lack at. resize_outcome nodes.now allowed.now pages at) }
{
    running.pages.huge.resize(nodes, allowed, pages);
    HostTaken::Pools
}

/// Makes the pool of a node have so many pages.
fn resize_node(running: &mut RunningHost, node: u32, allowed: &NodeMask, pages: u64) -> HostTaken
    ensures { ComesTo running.old result running.new
        (λ lack at. resize_node_outcome node allowed.now pages at) }
{
    let nodes = running.host.machine().nodes();
    if node >= nodes {
        return HostTaken::Reply(Reply::HugeRefused(HugeRefusal::NoSuchNode));
    }
    let Some(node) = NodeId::new(node as u8) else {
        unreachable!()
    };
    match running
        .pages
        .huge
        .resize_node(nodes, node, allowed, pages.min(MOST_PAGES))
    {
        Ok(()) => HostTaken::Pools,
        Err(why) => HostTaken::Reply(Reply::HugeRefused(pool_refusal(why))),
    }
}

/// Makes the pools of the nodes of a task's policy have so many pages in all.
fn resize_for(running: &mut RunningHost, process: u32, pages: u64, task: u32, cpu: u32) -> HostTaken
    ensures { ComesTo running.old result running.new (λ lack at.
        huge_outcome lack.lacked at process (HugeLine.ResizeFor pages task cpu)) }
{
    let Some(space) = space_of(&running.host, process) else {
        return HostTaken::Reply(Reply::HostRefused(HostRefusal::NoSuchProcess));
    };
    if cpu >= space.machine().nodes() {
        return HostTaken::Reply(Reply::HugeRefused(HugeRefusal::BadCpu));
    }
    let memory = space.machine().memory();
    let nodes = resizing_nodes(space.task_policy(task), &memory, cpu);
    let allowed = space.allowed();
    resize(running, &nodes, &allowed, pages)
}

// ---- mappings

/// A mapping of a process finds too few pages: what refuses the command before the limits is told,
/// else that.
fn lack_pages(
    running: &mut RunningHost,
    alloc: Global,
    process: u32,
    pages: u64,
    command: &Command,
) -> Reply
    ensures { RepliesThere running.old result running.new process
        (λ lack at. lacking_outcome lack.lacked at process pages command.now) }
{
    let Some(space) = space_of(&running.host, process) else {
        return obey_in(&mut running.host, process, command);
    };
    let Ok(late) = is_late_in(alloc, space, command) else {
        return pages_reply(PlacedRefusal::NoMemory);
    };
    if !late {
        return obey_in(&mut running.host, process, command);
    }
    running.pages.huge.refuse(pages);
    Reply::HugeRefused(HugeRefusal::NoHugePages)
}

/// Maps a span, whose pages were prepared, if the host accepts that.
fn map_made(
    running: &mut RunningHost,
    process: u32,
    command: &Command,
    made: Box<HugePages>,
) -> Reply
    requires { CanBegin process running.old.pages.huge made.value }
    ensures { MapsMade running.old result running.new process command.now
        (places_of made.value.places) }
{
    let said = HostCommand::In {
        process,
        command: *command,
    };
    match running.host.apply(&said) {
        Ok(()) => {
            running.pages.huge.settle_mapped(process, made);
            Reply::Accepted(running.host.version())
        }
        Err(refusal) => {
            drop(made);
            Reply::HostRefused(refusal)
        }
    }
}

/// Maps a span of a process, for whose pages there are enough where it reserves them.
fn map_fitting(
    running: &mut RunningHost,
    process: u32,
    first: u64,
    pages: u64,
    reserves: bool,
    command: &Command,
) -> Reply
    requires { reserves ≡ true → pages ≤ unreserved running.old.pages.huge.pools }
    ensures { RepliesThere running.old result running.new process
        (λ lack at. fitting_outcome lack.lacked at process first pages reserves command.now) }
{
    if !running.pages.huge.fits(process, first, pages) {
        return obey_in(&mut running.host, process, command);
    }
    match running.pages.huge.mapped(process, first, pages, reserves) {
        Ok(made) => {
            // Tells the proof that its runs aren't too many.
            let _ = made.places.runs();
            map_made(running, process, command, made)
        }
        Err(why) => pages_reply(why),
    }
}

/// Maps a span of a process as pages of 2 MiB, which its task reserves or doesn't.
fn map(
    running: &mut RunningHost,
    alloc: Global,
    process: u32,
    start: u64,
    length: u64,
    offset: u64,
    task: u32,
    reserves: bool,
) -> Reply
    ensures { Replies running.old result running.new (λ lack at.
        map_outcome lack.lacked at process start length offset task reserves) }
{
    let command = Command::Map {
        start,
        length,
        offset,
        size: PageSize::Huge,
    };
    if !takes_more(running, process) {
        return obey_in(&mut running.host, process, &command);
    }
    let Some(space) = space_of(&running.host, process) else {
        return obey_in(&mut running.host, process, &command);
    };
    let pages = mapped_pages(length);
    let nodes = mapping_nodes(space.task_policy(task), &space.allowed());
    if lacks_if(running.pages.huge.pools(), reserves, pages, &nodes) {
        return lack_pages(running, alloc, process, pages, &command);
    }
    let first = start / PageSize::Huge.bytes();
    map_fitting(running, process, first, pages, reserves, &command)
}

// ---- first touches

/// A task on a CPU of node `cpu` writes to the page of an address, in bytes.
#[derive(Clone, Copy)]
struct Touch {
    task: u32,
    address: u64,
    cpu: u32,
}

/// Touches a page of 4 KiB of a process.
fn fault_small(
    pages: &mut HostPages,
    alloc: Global,
    process: u32,
    space: &Space,
    touch: &Touch,
) -> Reply
    ensures { (at : HostLying) → HostLies pages.old at → (lacked : Lack)
        × FaultsSo (small_faulted lacked (ground_in space.now []) process touch.now.task
        touch.now.address touch.now.cpu at) result pages.new }
{
    let Ok(mut lent) = lend(pages, alloc, process) else {
        return Reply::HugeRefused(HugeRefusal::NoMemory);
    };
    let resident = Resident::new(alloc);
    let done = lent
        .state
        .fault(space, &resident, touch.task, touch.address, touch.cpu);
    give_back(pages, process, lent, lacks_memory(&done));
    fault_reply(HugeRefusal::Exhausted, done)
}

/// Touches the page of an address of a process.
fn fault(running: &mut RunningHost, alloc: Global, process: u32, touch: &Touch) -> Reply
    ensures { Replies running.old result running.new (λ lack at. huge_outcome lack.lacked at
        process (HugeLine.Fault touch.now.task touch.now.address touch.now.cpu)) }
{
    let Some(space) = space_of(&running.host, process) else {
        return Reply::HostRefused(HostRefusal::NoSuchProcess);
    };
    let list = match space.list_at(touch.task, touch.address / PAGE_BYTES, touch.cpu) {
        Ok(list) => list,
        Err(why) => return Reply::HugeRefused(place_cause(why)),
    };
    if !running.pages.huge.is_huge_at(process, touch.address) {
        return fault_small(&mut running.pages, alloc, process, space, touch);
    }
    let given = running.pages.huge.fault(process, touch.address, &list);
    fault_reply(HugeRefusal::Killed, given)
}

// ---- all of them

/// Makes pools have so many pages, as a process does.
fn resize_in(running: &mut RunningHost, process: u32, pages: u64) -> HostTaken
    ensures { ComesTo running.old result running.new (λ lack at.
        huge_outcome lack.lacked at process (HugeLine.Resize pages)) }
{
    let Some(space) = space_of(&running.host, process) else {
        return HostTaken::Reply(Reply::HostRefused(HostRefusal::NoSuchProcess));
    };
    let memory = space.machine().memory();
    let allowed = space.allowed();
    resize(running, &memory, &allowed, pages)
}

/// Makes the pool of a node have so many pages, as a process does.
fn resize_node_in(running: &mut RunningHost, process: u32, node: u32, pages: u64) -> HostTaken
    ensures { ComesTo running.old result running.new (λ lack at.
        huge_outcome lack.lacked at process (HugeLine.ResizeNode node pages)) }
{
    let Some(space) = space_of(&running.host, process) else {
        return HostTaken::Reply(Reply::HostRefused(HostRefusal::NoSuchProcess));
    };
    let allowed = space.allowed();
    resize_node(running, node, &allowed, pages)
}

/// Carries out such a line that a process is told. What the pools have then is still to be written,
/// where that is the answer.
#[inline(never)]
pub(crate) fn huge_in(
    running: &mut RunningHost,
    alloc: Global,
    process: u32,
    said: &HugeLine,
) -> HostTaken
    ensures { ComesTo running.old result running.new
        (λ lack at. huge_outcome lack.lacked at process said.now) }
{
    match said {
        HugeLine::Pools => HostTaken::Reply(Reply::BadWords),
        HugeLine::Resize(pages) => resize_in(running, process, *pages),
        HugeLine::ResizeNode { node, pages } => resize_node_in(running, process, *node, *pages),
        HugeLine::ResizeFor { pages, task, cpu } => {
            resize_for(running, process, *pages, *task, *cpu)
        }
        HugeLine::Map {
            start,
            length,
            offset,
            task,
            reserves,
        } => HostTaken::Reply(map(
            running, alloc, process, *start, *length, *offset, *task, *reserves,
        )),
        HugeLine::Fault { task, address, cpu } => {
            let touch = Touch {
                task: *task,
                address: *address,
                cpu: *cpu,
            };
            HostTaken::Reply(fault(running, alloc, process, &touch))
        }
    }
}

/// Carries out such a line that no process is told.
#[inline(never)]
pub(crate) fn own_huge(running: &mut RunningHost, said: &HugeLine) -> HostTaken
    ensures { ComesTo running.old result running.new (λ lack at. own_huge_outcome at said.now) }
{
    let memory = running.host.machine().memory();
    match said {
        HugeLine::Pools => HostTaken::Pools,
        HugeLine::Resize(pages) => resize(running, &memory, &memory, *pages),
        HugeLine::ResizeNode { node, pages } => resize_node(running, *node, &memory, *pages),
        _ => HostTaken::Reply(Reply::BadState),
    }
}
