//! Where pages lie.
ghost use Rattle.std.specs.Prelude.{◌≡◌, IfOk, List, Result, ℕ};
ghost use Rattle.numa_machine.specs.declared.no_memory.NoMemory.{NoMemory};
ghost use Rattle.numa_pages.specs.declared.listing.PageRun.{PageRun};
ghost use Rattle.numa_placed.specs.Spots.{node_of};
ghost use Rattle.numa_requests.specs.declared.page_refusal.PlacedRefusal.{PlacedRefusal};
ghost use Rattle.numa_space.specs.History.{page_of};
ghost use Rattle.numaplan_c.specs.Border.{Asked, AskedInto};
ghost use Rattle.numaplan_c.specs.Placed.{TellsNode, TellsRoom, TellsRuns};
ghost use Rattle.numaplan_handles.specs.Handles.{pages_in};
ghost use Rattle.numaplan_c.specs.Texts.{copy_code};
ghost use Rattle.numaplan_handles.specs.Pages.{HasCounts, HasNodes, HasRoom, HasRuns, spots_in};

use crate::codes::Code;
use crate::differences::write_items;
use crate::keeping::if_open;
use crate::placed_codes::placed_code;
use crate::plans::NpCounts;
use crate::texts::copy_code;
use numa_pages::PageRun;
use numa_requests::PAGE_BYTES;
use numaplan_handles::PagesHandle;
use std::alloc::Global;

/// Returns the node on which the page of an address lies.
#[unsafe(no_mangle)]
pub extern "C" fn np_pages_node(
    alloc: Global,
    pages: &mut PagesHandle,
    address: u64,
    node: &mut u32,
) -> u32
    ensures { Asked (pages_in pages.old) (pages_in pages.new) result (node.new ≡ node.old)
        (λ kept. TellsNode (node_of (spots_in kept (page_of address))) result node.old node.new) }
{
    if_open!(pages.node_at(alloc, address / PAGE_BYTES), Code::NotPlaced, found => {
        *node = u32::from(found);
        0
    })
}

/// Writes the node on which each of some pages lies, or a mark.
#[unsafe(no_mangle)]
pub extern "C" fn np_pages_nodes(
    alloc: Global,
    pages: &mut PagesHandle,
    numbers: &[u64],
    nodes: &mut [u8],
    nowhere: u8,
) -> u32
    ensures { Asked (pages_in pages.old) (pages_in pages.new) result (nodes.new ≡ nodes.old)
        (λ kept. (told : Result ℕ ℕ) × (result ≡ copy_code told)
        × HasNodes numbers.now nowhere told nodes.old nodes.new kept) }
{
    if_open!(pages.nodes_of(alloc, numbers, nowhere, nodes), told => copy_code(told))
}

/// Counts, for each node, the pages of 4 KiB that lie on it, of which one of 2 MiB is 512.
#[unsafe(no_mangle)]
pub extern "C" fn np_pages_counts(
    alloc: Global,
    pages: &mut PagesHandle,
    counts: &mut NpCounts,
) -> u32
    ensures { Asked (pages_in pages.old) (pages_in pages.new) result (counts.new ≡ counts.old)
        (λ kept. (result ≡ 0) × HasCounts counts.new.pages kept) }
{
    if_open!(pages.counts(alloc), found => {
        counts.pages = found;
        0
    })
}

/// Lists the runs of pages that lie on one node.
#[unsafe(no_mangle)]
pub extern "C" fn np_pages_runs(
    alloc: Global,
    pages: &mut PagesHandle,
    room: &mut [PageRun],
    count: &mut usize,
) -> u32
    ensures { AskedInto (pages_in pages.old) (pages_in pages.new) result room.old room.new count.old
        count.new (λ kept. (answer : Result (List PageRun) NoMemory)
        × IfOk answer (λ runs. HasRuns runs kept)
        × TellsRuns answer result room.old room.new count.old count.new) }
{
    if_open!(pages.runs(alloc), answer => match answer {
        Ok(runs) => {
            let code = write_items(runs.as_slice(), room, count);
            drop(runs);
            code
        }
        Err(_) => Code::NoMemory as u32,
    })
}

/// Returns how many more pages a node takes.
#[unsafe(no_mangle)]
pub extern "C" fn np_pages_room(
    alloc: Global,
    pages: &mut PagesHandle,
    node: u32,
    room: &mut u64,
) -> u32
    ensures { Asked (pages_in pages.old) (pages_in pages.new) result (room.new ≡ room.old)
        (λ kept. (answer : Result ℕ PlacedRefusal) × HasRoom node answer kept
        × TellsRoom answer result room.old room.new) }
{
    if_open!(pages.room(alloc, node), answer => match answer {
        Ok(found) => {
            *room = found;
            0
        }
        Err(cause) => placed_code(cause),
    })
}
