//! Pools of pages of 2 MiB that a host's processes share, spans that are mapped as such pages, and
//! first touches of single pages.
ghost use Rattle.std.specs.Prelude.{◌≡◌};
ghost use Rattle.numa_host_script.specs.Pooling.{pools_at};
ghost use Rattle.numa_pools.specs.Pools.{PoolCounts};
ghost use Rattle.numa_script.specs.declared.huge_line.HugeLine.{HugeLine};
ghost use Rattle.numaplan_c.specs.Border.{Asked};
ghost use Rattle.numaplan_c.specs.Hosted.{HostFault, HugeDone, OwnHugeDone, TellsReached};
ghost use Rattle.numaplan_c.specs.Placed.{HasPools};
ghost use Rattle.numaplan_handles.specs.Handles.{host_in};
ghost use Rattle.numaplan_handles.specs.Hosted.{OfLying};

use crate::host_codes::told_code;
use crate::keeping::if_open;
use crate::moves::{NpHugePools, pools_told};
use numa_script::{HugeLine, Reply};
use numaplan_handles::HostHandle;
use std::alloc::Global;

/// Returns what the pools have, which all processes share.
#[unsafe(no_mangle)]
pub extern "C" fn np_host_pools(
    alloc: Global,
    host: &mut HostHandle,
    pools: &mut NpHugePools,
) -> u32
    ensures { Asked (host_in host.old) (host_in host.new) result (pools.new ≡ pools.old)
        (λ kept. (result ≡ 0) × (found : PoolCounts)
        × OfLying (host_in host.old) (λ at. found ≡ pools_at at) × HasPools pools.new found) }
{
    if_open!(host.pools(alloc), found => {
        *pools = pools_told(&found);
        0
    })
}

/// Carries out a line about pools or pages of 2 MiB for a process.
pub(crate) fn done(alloc: Global, host: &mut HostHandle, process: u32, line: &HugeLine) -> u32
    ensures { HugeDone process line.now host.old result host.new }
{
    if_open!(host.huge(alloc, process, line), told => told_code(&told))
}

/// The same for no process.
fn own_done(alloc: Global, host: &mut HostHandle, line: &HugeLine) -> u32
    ensures { OwnHugeDone line.now host.old result host.new }
{
    if_open!(host.own_huge(alloc, line), told => told_code(&told))
}

/// Makes the pools of all nodes with memory have so many pages together.
#[unsafe(no_mangle)]
pub extern "C" fn np_host_pool(alloc: Global, host: &mut HostHandle, count: u64) -> u32
    ensures { OwnHugeDone (HugeLine.Resize count) host.old result host.new }
{
    own_done(alloc, host, &HugeLine::Resize(count))
}

/// Makes the pool of a node have so many pages.
#[unsafe(no_mangle)]
pub extern "C" fn np_host_pool_node(
    alloc: Global,
    host: &mut HostHandle,
    node: u32,
    count: u64,
) -> u32
    ensures { OwnHugeDone (HugeLine.ResizeNode node count) host.old result host.new }
{
    let line = HugeLine::ResizeNode { node, pages: count };
    own_done(alloc, host, &line)
}

/// Makes the pools of all nodes with memory have so many pages together, as a process does.
#[unsafe(no_mangle)]
pub extern "C" fn np_host_pool_in(
    alloc: Global,
    host: &mut HostHandle,
    process: u32,
    count: u64,
) -> u32
    ensures { HugeDone process (HugeLine.Resize count) host.old result host.new }
{
    done(alloc, host, process, &HugeLine::Resize(count))
}

/// Makes the pool of a node have so many pages, as a process does.
#[unsafe(no_mangle)]
pub extern "C" fn np_host_pool_node_in(
    alloc: Global,
    host: &mut HostHandle,
    process: u32,
    node: u32,
    count: u64,
) -> u32
    ensures { HugeDone process (HugeLine.ResizeNode node count) host.old result host.new }
{
    let line = HugeLine::ResizeNode { node, pages: count };
    done(alloc, host, process, &line)
}

/// Makes the pools of the nodes of the policy of a task of a process have so many pages together.
#[unsafe(no_mangle)]
pub extern "C" fn np_host_pool_for(
    alloc: Global,
    host: &mut HostHandle,
    process: u32,
    count: u64,
    task: u32,
    cpu: u32,
) -> u32
    ensures { HugeDone process (HugeLine.ResizeFor count task cpu) host.old result host.new }
{
    let line = HugeLine::ResizeFor {
        pages: count,
        task,
        cpu,
    };
    done(alloc, host, process, &line)
}

/// Writes the node where a page lies that was touched, if a reply tells it.
fn tell_reached(told: &Option<Reply>, node: &mut u32)
    ensures { TellsReached node.old node.new told.now }
{
    if let Some(Reply::MovedTo(found)) = told {
        *node = *found;
    }
}

/// Touches the page of an address of a process for the first time, and returns the node where it
/// lies then.
#[unsafe(no_mangle)]
pub extern "C" fn np_host_fault(
    alloc: Global,
    host: &mut HostHandle,
    process: u32,
    task: u32,
    address: u64,
    cpu: u32,
    node: &mut u32,
) -> u32
    ensures { HostFault process task address cpu host.old result host.new node.old node.new }
{
    let line = HugeLine::Fault { task, address, cpu };
    if_open!(host.huge(alloc, process, &line), told => {
        tell_reached(&told, node);
        told_code(&told)
    })
}
