//! Writing how many pages of 2 MiB the pools have.
ghost use Rattle.std.specs.Prelude.{◌≡◌, [], if◌then◌else◌};
ghost use Rattle.numa_lines.specs.Written.{Said};
ghost use Rattle.numa_mask.specs.NodeSet.{has};
ghost use Rattle.numa_pools.specs.Pools.{free_at, surplus_at, total_at};
ghost use Rattle.numa_run.specs.PoolTexts.{pool_text, pools_line, pools_text, surplus_text};

use crate::moved::say_number;
use numa_lines::Watched;
use numa_pools::Pools;
use std::io::Write;

/// Writes how many pages are surplus, if some are.
fn say_surplus<W: Write>(output: &mut Watched<W>, pages: u64)
    ensures { Said W.contents output.old output.new (surplus_text pages) }
{
    if pages > 0 {
        say_number(output, b"+", pages);
    }
}

/// Writes the pool of a node: the free pages, all, and the surplus ones.
fn say_pool<W: Write>(output: &mut Watched<W>, node: usize, free: u64, total: u64, surplus: u64)
    ensures { Said W.contents output.old output.new (pool_text node free total surplus) }
{
    say_number(output, b" N", node as u64);
    say_number(output, b"=", free);
    say_number(output, b"/", total);
    say_surplus(output, surplus);
}

/// Writes the pool of a node, if the node has memory.
fn say_pool_of<W: Write>(output: &mut Watched<W>, pools: &Pools, node: u8)
    ensures { Said W.contents output.old output.new (if has pools.now.memory node
        then pool_text node (free_at pools.now node) (total_at pools.now node)
        (surplus_at pools.now node) else []) }
{
    if pools.memory().has(node) {
        let free = pools.free(node);
        let total = pools.total(node);
        let surplus = pools.surplus(node);
        say_pool(output, node as usize, free, total, surplus);
    }
}

/// Writes the pool of each node with memory.
fn say_each_pool<W: Write>(output: &mut Watched<W>, pools: &Pools)
    ensures { Said W.contents output.old output.new (pools_text pools.now) }
{
    for node in 0..256usize {
        say_pool_of(output, pools, node as u8);
    }
}

/// Writes how many pages the pools have, as a line: `pool N0=3/3 N1=2/2 reserved 0`.
pub fn say_pools<W: Write>(output: &mut Watched<W>, pools: &Pools)
    ensures { Said W.contents output.old output.new (pools_line pools.now) }
{
    output.say(b"pool");
    say_each_pool(output, pools);
    say_number(output, b" reserved ", pools.reserved());
    output.say(b"\n");
}
