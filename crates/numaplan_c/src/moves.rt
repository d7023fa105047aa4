//! Where pages lie: touching them first, moving them, how many more each node takes, and the pools
//! that those of 2 MiB come from; of a core, and of a host's processes.
ghost use Rattle.std.specs.Prelude.{◌≡◌, MatchResult};
ghost use Rattle.numa_mask.specs.Lists.{list_of};
ghost use Rattle.numa_pages.specs.Changes.{Limits, Migrates, MovesMems, MovesPage};
ghost use Rattle.numaplan_c.specs.Codes.{list_code};
ghost use Rattle.numaplan_c.specs.Placed.{HasPools, PagesAnswer, PagesFault, PagesMove, PagesSet};
ghost use Rattle.numaplan_c.specs.Placed.{PagesTell, PagesTouch, TellsArrived, TellsMoved};
ghost use Rattle.numaplan_c.specs.Placed.{TellsTouched, always, change_code, done_code, huge_code};
ghost use Rattle.numaplan_c.specs.Placed.{move_code, placed_code};
ghost use Rattle.numaplan_handles.specs.Handles.{host_in, pages_in};
ghost use Rattle.numa_script.specs.declared.page_line.PageLine.{PageLine};
ghost use Rattle.numaplan_c.specs.Hosted.{HostDoes, HostMigrate, HostTouch, PagesChange};
ghost use Rattle.numaplan_c.specs.Hosted.{TellsShift};
ghost use Rattle.numaplan_handles.specs.Hosted.{LetsFollow, LimitsAll};
ghost use Rattle.numa_pages.specs.PoolCalls.{ResizesAll, ResizesFor, ResizesNode};
ghost use Rattle.numaplan_c.specs.Border.{Asked};

use crate::codes::list_code;
use crate::host_codes::{done_code, told_code};
use crate::keeping::{if_open, or_return};
use crate::placed_codes::{changed_code, held_code, moved_code, set_code};
use numa_mask::{NodeMask, read_list};
use numa_page_state::Arrived;
use numa_placed::Moved;
use numa_pools::Pools;
use numa_requests::HugeRefusal;
use numa_script::{PageLine, Reply};
use numaplan_handles::{HostHandle, PagesHandle};
use std::alloc::Global;

/// What a move did: how many pages went, how many had a node to go to and stayed, how many went
/// from each node, and to which node those of each go.
#[repr(C)]
#[derive(Clone, Copy)]
pub struct NpMoves {
    pub moved: u64,
    pub left: u64,
    pub from: [u64; 256],
    pub to: [u8; 256],
}

const _: () = prove!(size_of::<NpMoves>() == 2320);

/// What moving pages to where a policy puts them did: how many went, how many had to go and stayed,
/// and the error number that mbind(2) answers all the same.
#[repr(C)]
#[derive(Clone, Copy)]
pub struct NpBound {
    pub moved: u64,
    pub left: u64,
    pub error: u32,
}

const _: () = prove!(size_of::<NpBound>() == 24);

/// What first touches of a span did: how many pages went to a node, how many found no room, and how
/// many went to each node.
#[repr(C)]
#[derive(Clone, Copy)]
pub struct NpArrived {
    pub placed: u64,
    pub exhausted: u64,
    pub nodes: [u64; 256],
}

const _: () = prove!(size_of::<NpArrived>() == 2064);

/// Writes what first touches of a span did, if they weren't refused.
pub(crate) fn tell_arrived<E>(answer: &Result<Arrived, E>, arrived: &mut NpArrived)
    ensures { TellsArrived arrived.old arrived.new answer.now }
{
    if let Ok(done) = answer {
        *arrived = NpArrived {
            placed: done.placed,
            exhausted: done.exhausted,
            nodes: done.on,
        };
    }
}

/// Writes what a move did, if it wasn't refused.
fn tell<E>(answer: &Result<Moved, E>, moves: &mut NpMoves)
    ensures { TellsMoved moves.old moves.new answer.now }
{
    if let Ok(moved) = answer {
        *moves = NpMoves {
            moved: moved.moved,
            left: moved.left,
            from: moved.from,
            to: moved.to,
        };
    }
}

/// Touches each page of a span for the first time, as a task does that writes to it.
#[unsafe(no_mangle)]
pub extern "C" fn np_pages_populate(
    alloc: Global,
    pages: &mut PagesHandle,
    start: u64,
    length: u64,
    task: u32,
    cpu: u32,
    arrived: &mut NpArrived,
) -> u32
    ensures { PagesTouch start length task cpu pages.old result pages.new arrived.old arrived.new }
{
    if_open!(pages.populate(alloc, start, length, task, cpu), answer => {
        tell_arrived(&answer, arrived);
        set_code(answer)
    })
}

/// Says how many more pages a node takes.
#[unsafe(no_mangle)]
pub extern "C" fn np_pages_set_room(
    alloc: Global,
    pages: &mut PagesHandle,
    node: u32,
    room: u64,
) -> u32
    ensures { PagesSet (Limits node room) pages.old result pages.new }
{
    if_open!(pages.limit(alloc, node, room), answer => set_code(answer))
}

/// Moves the page of an address to a node.
#[unsafe(no_mangle)]
pub extern "C" fn np_pages_move(
    alloc: Global,
    pages: &mut PagesHandle,
    address: u64,
    node: u32,
) -> u32
    ensures { PagesAnswer move_code (MovesPage address node) pages.old result pages.new }
{
    if_open!(pages.move_page(alloc, address, node), answer => moved_code(answer))
}

/// Moves pages from one set of nodes to the allowed nodes of another.
fn migrate(
    alloc: Global,
    pages: &mut PagesHandle,
    from: &NodeMask,
    to: &NodeMask,
    moves: &mut NpMoves,
) -> u32
    ensures { PagesMove placed_code (Migrates from.now to.now) pages.old result pages.new moves.old
        moves.new }
{
    if_open!(pages.migrate(alloc, from, to), answer => {
        tell(&answer, moves);
        set_code(answer)
    })
}

/// Moves pages from the nodes of one list to the allowed nodes of another.
#[unsafe(no_mangle)]
pub extern "C" fn np_pages_migrate(
    alloc: Global,
    pages: &mut PagesHandle,
    from: &[u8],
    to: &[u8],
    moves: &mut NpMoves,
) -> u32
    ensures { MatchResult (list_of from.now) (λ old. MatchResult (list_of to.now)
        (λ new. PagesMove placed_code (Migrates old new) pages.old result pages.new moves.old
        moves.new)
        (λ fault. (result ≡ list_code fault) × (pages_in pages.new ≡ pages_in pages.old)
        × (moves.new ≡ moves.old)))
        (λ fault. (result ≡ list_code fault) × (pages_in pages.new ≡ pages_in pages.old)
        × (moves.new ≡ moves.old)) }
{
    let old = or_return!(read_list(from), list_code);
    let new = or_return!(read_list(to), list_code);
    migrate(alloc, pages, &old, &new, moves)
}

/// Changes the allowed nodes, and moves the pages with them.
fn follow(alloc: Global, pages: &mut PagesHandle, mask: NodeMask, moves: &mut NpMoves) -> u32
    ensures { PagesMove change_code (MovesMems mask) pages.old result pages.new moves.old
        moves.new }
{
    if_open!(pages.move_mems(alloc, mask), answer => {
        tell(&answer, moves);
        changed_code(answer)
    })
}

/// Sets the nodes on which memory may be placed, and moves the pages with them.
#[unsafe(no_mangle)]
pub extern "C" fn np_pages_move_mems(
    alloc: Global,
    pages: &mut PagesHandle,
    nodes: &[u8],
    moves: &mut NpMoves,
) -> u32
    ensures { MatchResult (list_of nodes.now) (λ mask. PagesMove change_code (MovesMems mask)
        pages.old result pages.new moves.old moves.new)
        (λ fault. (result ≡ list_code fault) × (pages_in pages.new ≡ pages_in pages.old)
        × (moves.new ≡ moves.old)) }
{
    let mask = or_return!(read_list(nodes), list_code);
    follow(alloc, pages, mask, moves)
}

// ---- pools of pages of 2 MiB

/// What the pools have: by node how many pages there are, how many of these are free and how many
/// surplus, and how many free ones are reserved.
#[repr(C)]
#[derive(Clone, Copy)]
pub struct NpHugePools {
    pub total: [u64; 256],
    pub free: [u64; 256],
    pub surplus: [u64; 256],
    pub reserved: u64,
}

const _: () = prove!(size_of::<NpHugePools>() == 6152);

/// What pools have, as C is told it.
pub(crate) fn pools_told(found: &Pools) -> NpHugePools
    ensures { HasPools result found.now }
{
    NpHugePools {
        total: found.totals(),
        free: found.all_free(),
        surplus: found.surpluses(),
        reserved: found.reserved(),
    }
}

/// Returns what the pools have.
#[unsafe(no_mangle)]
pub extern "C" fn np_pages_pools(
    alloc: Global,
    pages: &mut PagesHandle,
    pools: &mut NpHugePools,
) -> u32
    ensures { Asked (pages_in pages.old) (pages_in pages.new) result (pools.new ≡ pools.old)
        (λ kept. (result ≡ 0) × HasPools pools.new kept.huge.pools) }
{
    if_open!(pages.pools(alloc), found => {
        *pools = pools_told(&found);
        0
    })
}

/// Makes the pools of all nodes with memory have so many pages together.
#[unsafe(no_mangle)]
pub extern "C" fn np_pages_pool(alloc: Global, pages: &mut PagesHandle, count: u64) -> u32
    ensures { PagesTell always (λ answer. Unit {0}) (Unit {0}) (ResizesAll count) pages.old result
        pages.new }
{
    if_open!(pages.resize(alloc, count), _done => 0)
}

/// Makes the pool of a node have so many pages.
#[unsafe(no_mangle)]
pub extern "C" fn np_pages_pool_node(
    alloc: Global,
    pages: &mut PagesHandle,
    node: u32,
    count: u64,
) -> u32
    ensures { PagesAnswer huge_code (ResizesNode node count) pages.old result pages.new }
{
    if_open!(pages.resize_node(alloc, node, count), answer => held_code(answer))
}

/// Makes the pools of the nodes of a task's policy have so many pages together.
#[unsafe(no_mangle)]
pub extern "C" fn np_pages_pool_for(
    alloc: Global,
    pages: &mut PagesHandle,
    count: u64,
    task: u32,
    cpu: u32,
) -> u32
    ensures { PagesAnswer huge_code (ResizesFor count task cpu) pages.old result pages.new }
{
    if_open!(pages.resize_for(alloc, count, task, cpu), answer => held_code(answer))
}

/// Writes the node where a page lies that was touched, if it lies on one.
fn tell_touched(answer: &Result<u8, HugeRefusal>, node: &mut u32)
    ensures { TellsTouched node.old node.new answer.now }
{
    if let Ok(found) = answer {
        *node = u32::from(*found);
    }
}

/// Touches the page of an address for the first time, and returns the node where it lies then.
#[unsafe(no_mangle)]
pub extern "C" fn np_pages_fault(
    alloc: Global,
    pages: &mut PagesHandle,
    task: u32,
    address: u64,
    cpu: u32,
    node: &mut u32,
) -> u32
    ensures { PagesFault task address cpu pages.old result pages.new node.old node.new }
{
    if_open!(pages.fault(alloc, task, address, cpu), answer => {
        tell_touched(&answer, node);
        held_code(answer)
    })
}

// ---- of processes of a host

/// Says how many more pages a node takes, whichever process they are of.
#[unsafe(no_mangle)]
pub extern "C" fn np_host_set_room(
    alloc: Global,
    host: &mut HostHandle,
    node: u32,
    room: u64,
) -> u32
    ensures { HostDoes (done_code placed_code) (LimitsAll node room) host.old result host.new }
{
    if_open!(host.limit(alloc, node, room), answer => set_code(answer))
}

/// Says whether pages follow the nodes that their process is allowed.
#[unsafe(no_mangle)]
pub extern "C" fn np_host_set_follows(alloc: Global, host: &mut HostHandle, follows: bool) -> u32
    ensures { HostDoes (λ done. 0) (LetsFollow follows) host.old result host.new }
{
    if_open!(host.set_follows(alloc, follows), _ => 0)
}

/// Touches each page of a span of a process for the first time, as a task does that writes to it.
#[unsafe(no_mangle)]
pub extern "C" fn np_host_populate(
    alloc: Global,
    host: &mut HostHandle,
    process: u32,
    start: u64,
    length: u64,
    task: u32,
    cpu: u32,
    arrived: &mut NpArrived,
) -> u32
    ensures { HostTouch process start length task cpu host.old result host.new arrived.old
        arrived.new }
{
    if_open!(host.populate(alloc, process, start, length, task, cpu), answer => {
        tell_arrived(&answer, arrived);
        done_code(&answer)
    })
}

/// Moves the page of an address of a process to a node.
#[unsafe(no_mangle)]
pub extern "C" fn np_host_move(
    alloc: Global,
    host: &mut HostHandle,
    process: u32,
    address: u64,
    node: u32,
) -> u32
    ensures { PagesChange process (PageLine.Move address node) host.old result host.new }
{
    let line = PageLine::Move { address, node };
    if_open!(host.change(alloc, process, &line), told => told_code(&told))
}

/// Writes how many pages moved and stayed, if a reply tells it.
fn tell_shift(told: &Option<Reply>, bound: &mut NpBound)
    ensures { TellsShift bound.old bound.new told.now }
{
    if let Some(Reply::Moved { moved, left }) = told {
        *bound = NpBound {
            moved: *moved,
            left: *left,
            error: 0,
        };
    }
}

/// Moves pages of a process from one set of nodes to the allowed nodes of another.
fn migrate_in(
    alloc: Global,
    host: &mut HostHandle,
    process: u32,
    from: &NodeMask,
    to: &NodeMask,
    bound: &mut NpBound,
) -> u32
    ensures { HostMigrate process from.now to.now host.old result host.new bound.old bound.new }
{
    let line = PageLine::Migrate {
        from: *from,
        to: *to,
    };
    if_open!(host.change(alloc, process, &line), told => {
        tell_shift(&told, bound);
        told_code(&told)
    })
}

/// Moves pages of a process from the nodes of one list to the allowed nodes of another.
#[unsafe(no_mangle)]
pub extern "C" fn np_host_migrate(
    alloc: Global,
    host: &mut HostHandle,
    process: u32,
    from: &[u8],
    to: &[u8],
    bound: &mut NpBound,
) -> u32
    ensures { MatchResult (list_of from.now) (λ old. MatchResult (list_of to.now)
        (λ new. HostMigrate process old new host.old result host.new bound.old bound.new)
        (λ fault. (result ≡ list_code fault) × (host_in host.new ≡ host_in host.old)
        × (bound.new ≡ bound.old)))
        (λ fault. (result ≡ list_code fault) × (host_in host.new ≡ host_in host.old)
        × (bound.new ≡ bound.old)) }
{
    let old = or_return!(read_list(from), list_code);
    let new = or_return!(read_list(to), list_code);
    migrate_in(alloc, host, process, &old, &new, bound)
}
