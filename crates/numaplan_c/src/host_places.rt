//! Where pages of a host's processes lie, what their last moves did, and how many more each node
//! takes.
ghost use Rattle.std.specs.Prelude.{◌≡◌, IfOk, List, Ok, Option, Result, Some, Vec, ℕ};
ghost use Rattle.std.specs.Global.{Global};
ghost use Rattle.numa_machine.specs.declared.no_memory.NoMemory.{NoMemory};
ghost use Rattle.numa_pages.specs.declared.listing.PageRun.{PageRun};
ghost use Rattle.numa_requests.specs.declared.page_refusal.PlacedRefusal.{PlacedRefusal};
ghost use Rattle.numa_space.specs.History.{page_of};
ghost use Rattle.numaplan_c.specs.Border.{Asked};
ghost use Rattle.numaplan_c.specs.Compared.{IsListed};
ghost use Rattle.numaplan_c.specs.Hosted.{AskedMoves, TellsCountsIn, TellsLastIn, TellsNodeIn};
ghost use Rattle.numaplan_c.specs.Hosted.{TellsRunsIn, told_nodes_code};
ghost use Rattle.numaplan_c.specs.Placed.{TellsRoom};
ghost use Rattle.numaplan_handles.specs.Handles.{host_in};
ghost use Rattle.numaplan_handles.specs.Hosted.{HasRoomLeft, LieAt, LieOn, LieSo, LiesOn, OfLying};
ghost use Rattle.numaplan_handles.specs.Hosted.{OfPagesIn, TellsLast, TellsSum};
ghost use Rattle.numaplan_handles.specs.declared.flows.LastFlows.{LastFlows};

use crate::codes::Code;
use crate::differences::write_items;
use crate::keeping::if_open;
use crate::moves::NpBound;
use crate::placed_codes::placed_code;
use crate::plans::NpCounts;
use crate::texts::copy_code;
use numa_machine::NoMemory;
use numa_pages::PageRun;
use numa_requests::PAGE_BYTES;
use numaplan_handles::{Flow, HostHandle, LastFlows};
use std::alloc::Global;

/// Returns how many more pages a node takes, whichever process they are of.
#[unsafe(no_mangle)]
pub extern "C" fn np_host_room(
    alloc: Global,
    host: &mut HostHandle,
    node: u32,
    room: &mut u64,
) -> u32
    ensures { Asked (host_in host.old) (host_in host.new) result (room.new ≡ room.old)
        (λ kept. (answer : Result ℕ PlacedRefusal)
        × OfLying (host_in host.old) (HasRoomLeft node answer)
        × TellsRoom answer result room.old room.new) }
{
    if_open!(host.room(alloc, node), answer => match answer {
        Ok(found) => {
            *room = found;
            0
        }
        Err(cause) => placed_code(cause),
    })
}

/// Returns the node on which the page of an address of a process lies.
#[unsafe(no_mangle)]
pub extern "C" fn np_host_node(
    alloc: Global,
    host: &mut HostHandle,
    process: u32,
    address: u64,
    node: &mut u32,
) -> u32
    ensures { Asked (host_in host.old) (host_in host.new) result (node.new ≡ node.old)
        (λ kept. (answer : Option (Option ℕ)) × OfLying (host_in host.old)
        (OfPagesIn process (LiesOn (page_of address)) answer)
        × TellsNodeIn answer result node.old node.new) }
{
    match host.node_at(alloc, process, address / PAGE_BYTES) {
        None => Code::Closed as u32,
        Some(None) => Code::NoSuchProcess as u32,
        Some(Some(None)) => Code::NotPlaced as u32,
        Some(Some(Some(found))) => {
            *node = u32::from(found);
            0
        }
    }
}

/// Writes the node on which each of some pages of a process lies, or a mark.
#[unsafe(no_mangle)]
pub extern "C" fn np_host_nodes(
    alloc: Global,
    host: &mut HostHandle,
    process: u32,
    numbers: &[u64],
    nodes: &mut [u8],
    nowhere: u8,
) -> u32
    ensures told { Asked (host_in host.old) (host_in host.new) result (nodes.new ≡ nodes.old)
        (λ kept. (answer : Option (Result ℕ ℕ)) × (result ≡ told_nodes_code answer)
        × OfLying (host_in host.old) (OfPagesIn process
        (LieAt numbers.now nowhere nodes.old nodes.new) answer)) }
    ensures none { result ≡ 96 → nodes.new ≡ nodes.old }
{
    let answer = host.nodes_of(alloc, process, numbers, nowhere, nodes);
    if_open!(answer, Code::NoSuchProcess, told => copy_code(told))
}

/// Counts, for each node, the pages of a process that lie on it.
#[unsafe(no_mangle)]
pub extern "C" fn np_host_counts(
    alloc: Global,
    host: &mut HostHandle,
    process: u32,
    counts: &mut NpCounts,
) -> u32
    ensures { Asked (host_in host.old) (host_in host.new) result (counts.new ≡ counts.old)
        (λ kept. (answer : Option (List ℕ)) × OfLying (host_in host.old)
        (OfPagesIn process LieOn answer)
        × TellsCountsIn answer result counts.old.pages counts.new.pages) }
{
    if_open!(host.page_counts(alloc, process), Code::NoSuchProcess, found => {
        counts.pages = found;
        0
    })
}

/// Copies a list that is then dropped.
fn tell_list<T: Copy>(list: Vec<T>, room: &mut [T], count: &mut usize) -> u32
    ensures { IsListed list.items result room.old room.new count.new }
{
    let code = write_items(list.as_slice(), room, count);
    drop(list);
    code
}

/// Lists the runs of pages of a process that lie on one node.
#[unsafe(no_mangle)]
pub extern "C" fn np_host_runs(
    alloc: Global,
    host: &mut HostHandle,
    process: u32,
    room: &mut [PageRun],
    count: &mut usize,
) -> u32
    ensures { Asked (host_in host.old) (host_in host.new) result
        ((room.new ≡ room.old) × (count.new ≡ count.old))
        (λ kept. (answer : Option (Result (Vec PageRun Global) NoMemory))
        × OfLying (host_in host.old) (OfPagesIn process
        (λ lying memory told. IfOk told (λ list. LieSo lying memory list.items)) answer)
        × TellsRunsIn answer result room.old room.new count.old count.new) }
{
    if_open!(host.page_runs(alloc, process), Code::NoSuchProcess, answer => match answer {
        Ok(runs) => tell_list(runs, room, count),
        Err(NoMemory) => Code::NoMemory as u32,
    })
}

/// Writes what a move did.
fn tell_last(last: LastFlows, flows: &mut [Flow], count: &mut usize, bound: &mut NpBound) -> u32
    ensures { TellsLastIn (Some (Ok last)) result flows.old flows.new count.old count.new bound.old
        bound.new }
{
    let LastFlows {
        flows: list,
        moved,
        left,
    } = last;
    let code = tell_list(list, flows, count);
    *bound = NpBound {
        moved,
        left,
        error: 0,
    };
    code
}

/// Lists from where to where pages of a process went in its last move.
#[unsafe(no_mangle)]
pub extern "C" fn np_host_moves(
    alloc: Global,
    host: &mut HostHandle,
    process: u32,
    flows: &mut [Flow],
    count: &mut usize,
    bound: &mut NpBound,
) -> u32
    ensures { AskedMoves host.old host.new result flows.old flows.new count.old count.new bound.old
        bound.new (λ kept. (answer : Option (Result LastFlows NoMemory))
        × OfLying (host_in host.old) (OfPagesIn process
        (λ lying memory told. IfOk told (TellsLast lying memory)) answer)
        × TellsLastIn answer result flows.old flows.new count.old count.new bound.old
        bound.new) }
{
    if_open!(host.last_move(alloc, process), Code::NoSuchProcess, answer => match answer {
        Ok(last) => tell_last(last, flows, count, bound),
        Err(NoMemory) => Code::NoMemory as u32,
    })
}

/// Lists from where to where pages went in the last move of a host, all its processes together.
#[unsafe(no_mangle)]
pub extern "C" fn np_host_moves_of_all(
    alloc: Global,
    host: &mut HostHandle,
    flows: &mut [Flow],
    count: &mut usize,
    bound: &mut NpBound,
) -> u32
    ensures { AskedMoves host.old host.new result flows.old flows.new count.old count.new bound.old
        bound.new (λ kept. (answer : Result LastFlows NoMemory) × OfLying (host_in host.old)
        (λ at. IfOk answer (λ told. TellsSum told at))
        × TellsLastIn (Some answer) result flows.old flows.new count.old count.new bound.old
        bound.new) }
{
    if_open!(host.last_move_of_all(alloc), answer => match answer {
        Ok(last) => tell_last(last, flows, count, bound),
        Err(NoMemory) => Code::NoMemory as u32,
    })
}
