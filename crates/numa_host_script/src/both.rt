//! Lines that change where the pages of a process of a host lie, of which some may have 2 MiB.
ghost use Rattle.std.specs.Prelude.{◌≡◌, ◌≢◌, ℕ, [], Err, None, Some, false, is_some, true};
ghost use Rattle.numa_host.specs.Processes.{is_there, members_of};
ghost use Rattle.numa_host_pages.specs.Homes.{HostLying, lent};
ghost use Rattle.numa_host_pages.specs.Standing.{HostLies};
ghost use Rattle.numa_host_script.specs.Paging.{along_if, is_move, page_where, pages_changed};
ghost use Rattle.numa_host_script.specs.Paging.{small_where, tells_move, told_by};
ghost use Rattle.numa_run.specs.PageLines.{lack_reply, shift_told};
ghost use Rattle.numa_run.specs.Replies.{Replied};
ghost use Rattle.numa_host_script.specs.Standing.{Changes, ChangesPages, PopulatesBoth};
ghost use Rattle.numa_host_script.specs.Standing.{PopulatesIn};
ghost use Rattle.numa_page_state.specs.Huge.{huge_count, huge_first, huge_page};
ghost use Rattle.numa_page_state.specs.Lying.{ground_in};
ghost use Rattle.numa_huge.specs.Huge.{has_huge};
ghost use Rattle.numa_host_huge.specs.Kept.{spots_in};
ghost use Rattle.numa_script.specs.declared.page_line.PageLine.{PageLine};
ghost use Rattle.numa_space.specs.History.{page_count, page_of};

use crate::lending::{give_back, lacks_memory, lend};
use crate::running::{RunningHost, space_of};
use numa_host_huge::HostHuge;
use numa_host_pages::HostPages;
use numa_maps::Resident;
use numa_mask::NodeMask;
use numa_page_state::PageState;
use numa_page_state::binding::page_count;
use numa_requests::{HostRefusal, HugeRefusal, MoveRefusal, PAGE_BYTES, PlacedRefusal};
use numa_run::paging::{change, lack_reply};
use numa_script::{PageLine, Reply};
use numa_space::Space;
use std::alloc::Global;

// ---- pages of 4 KiB alone

/// Whether the reply to a line is that there is no memory for it.
fn tells_lack(line: &PageLine, told: &Option<Reply>) -> bool
    ensures lack { result ≡ true → told.now ≡ Some (lack_reply line.now) }
    ensures other { result ≡ false → told.now ≢ Some (lack_reply line.now) }
{
    match line {
        PageLine::Move { .. } => { matches!(told, Some(Reply::MoveRefused(MoveRefusal::NoMemory))) }
        _ => matches!(told, Some(Reply::PlacedRefused(PlacedRefusal::NoMemory))),
    }
}

/// Changes where the pages of a process lie, by its space. What `populate` did is no reply.
fn change_pages(
    pages: &mut HostPages,
    alloc: Global,
    process: u32,
    space: &Space,
    line: &PageLine,
) -> Option<Reply>
    requires moved { line.now ≢ PageLine.Moved }
    requires rooms { line.now ≢ PageLine.Rooms }
    ensures { ChangesPages pages.old result pages.new (λ lacked at.
        pages_changed lacked (ground_in space.now []) process line.now at) }
{
    let Ok(mut lent) = lend(pages, alloc, process) else {
        return Some(lack_reply(line));
    };
    let resident = Resident::new(alloc);
    let told = change(&mut lent.state, space, &resident, line);
    give_back(pages, process, lent, tells_lack(line, &told));
    told
}

/// Whether a reply tells what moved.
fn is_move(reply: &Reply) -> bool
    ensures { result ≡ is_move reply.now }
{
    match reply {
        Reply::Moved { .. } => true,
        Reply::MovedTo(_) => true,
        _ => false,
    }
}

/// Whether a line is answered so.
fn tells_move(told: &Option<Reply>) -> bool
    ensures { result ≡ tells_move told.now }
{
    match told {
        None => false,
        Some(reply) => is_move(reply),
    }
}

/// Once a line was answered so, the host's last move is that of the process, if it was one.
fn take_along(pages: &mut HostPages, process: u32, told: &Option<Reply>)
    ensures { (at : HostLying) → HostLies pages.old at
        → HostLies pages.new (along_if (tells_move told.now) process at) }
{
    if !tells_move(told) {
        return;
    }
    pages.take_along(process);
}

/// Carries out a line that changes where the pages of 4 KiB of a process lie.
fn change_small(
    running: &mut RunningHost,
    alloc: Global,
    process: u32,
    line: &PageLine,
) -> Option<Reply>
    requires moved { line.now ≢ PageLine.Moved }
    requires rooms { line.now ≢ PageLine.Rooms }
    ensures host { running.new.host ≡ running.old.host }
    ensures runs { Changes running.old result running.new process (λ lacked at. small_where
        (is_there (members_of at.history) process) lacked at process line.now) }
{
    let Some(space) = space_of(&running.host, process) else {
        return Some(Reply::HostRefused(HostRefusal::NoSuchProcess));
    };
    let told = change_pages(&mut running.pages, alloc, process, space, line);
    take_along(&mut running.pages, process, &told);
    told
}

// ---- pages of both sizes

/// What `populate` says: start and length are in bytes.
#[derive(Clone, Copy)]
struct Populating {
    start: u64,
    length: u64,
    task: u32,
    cpu: u32,
}

/// States that pages of a span of a process lie on a node, of which none may have 2 MiB.
fn state_in(
    running: &mut RunningHost,
    alloc: Global,
    process: u32,
    start: u64,
    length: u64,
    node: u32,
) -> Option<Reply>
    ensures host { running.new.host ≡ running.old.host }
    ensures runs { Changes running.old result running.new process (λ lacked at. page_where
        (is_there (members_of at.history) process) lacked at process
        (PageLine.At start length node)) }
{
    let Some(_) = space_of(&running.host, process) else {
        return Some(Reply::HostRefused(HostRefusal::NoSuchProcess));
    };
    let pages = page_count(length);
    if running
        .pages
        .huge
        .has_huge_in(process, start / PAGE_BYTES, pages)
    {
        return Some(Reply::HugeRefused(HugeRefusal::NotSupported));
    }
    let line = PageLine::At {
        start,
        length,
        node,
    };
    change_small(running, alloc, process, &line)
}

/// How many pages moved and how many were left, if a reply tells of that.
fn shift_in(reply: &Reply) -> Option<(u64, u64)>
    ensures { result ≡ shift_told (Replied reply.now) }
{
    match reply {
        Reply::Moved { moved, left } => Some((*moved, *left)),
        _ => None,
    }
}

/// The same of a line's reply, if it has one.
fn shift_of(told: &Option<Reply>) -> Option<(u64, u64)>
    ensures { (version process : ℕ) (at : HostLying)
        → result ≡ shift_told (told_by told.now version process at) }
{
    match told {
        None => None,
        Some(reply) => shift_in(reply),
    }
}

/// Pages of both sizes of a process leave the nodes of one list for the allowed nodes of another.
fn migrate_in(
    running: &mut RunningHost,
    alloc: Global,
    process: u32,
    from: &NodeMask,
    to: &NodeMask,
) -> Option<Reply>
    ensures host { running.new.host ≡ running.old.host }
    ensures runs { Changes running.old result running.new process (λ lacked at. page_where
        (is_there (members_of at.history) process) lacked at process
        (PageLine.Migrate from.now to.now)) }
{
    let Some(space) = space_of(&running.host, process) else {
        return Some(Reply::HostRefused(HostRefusal::NoSuchProcess));
    };
    let targets = to.and(&space.allowed());
    let line = PageLine::Migrate {
        from: *from,
        to: *to,
    };
    let told = change_small(running, alloc, process, &line);
    let Some(shift) = shift_of(&told) else {
        return told;
    };
    running.pages.huge.follow(process, true, from, &targets);
    let more = running.pages.huge.moved(process);
    let all = shift.0.saturating_add(more);
    Some(Reply::Moved {
        moved: all,
        left: shift.1,
    })
}

/// Moves the page of an address of a process, which has 2 MiB, to a node.
fn move_huge(running: &mut RunningHost, process: u32, address: u64, node: u32) -> Option<Reply>
    requires { is_some (spots_in process running.old.pages.huge.sharers (huge_page address))
        ≡ true }
    ensures host { running.new.host ≡ running.old.host }
    ensures runs { Changes running.old result running.new process (λ lacked at. page_where
        (is_there (members_of at.history) process) lacked at process
        (PageLine.Move address node)) }
{
    let Some(space) = space_of(&running.host, process) else {
        return Some(Reply::HostRefused(HostRefusal::NoSuchProcess));
    };
    match running.pages.huge.move_page(process, space, address, node) {
        Ok(()) => {
            running.pages.rest(process);
            running.pages.take_along(process);
            Some(Reply::MovedTo(node))
        }
        Err(why) => Some(Reply::MoveRefused(why)),
    }
}

/// Moves the page of an address of a process to a node.
fn move_in(
    running: &mut RunningHost,
    alloc: Global,
    process: u32,
    address: u64,
    node: u32,
) -> Option<Reply>
    ensures host { running.new.host ≡ running.old.host }
    ensures runs { Changes running.old result running.new process (λ lacked at. page_where
        (is_there (members_of at.history) process) lacked at process
        (PageLine.Move address node)) }
{
    if running.pages.huge.is_huge_at(process, address) {
        return move_huge(running, process, address, node);
    }
    let told = change_small(running, alloc, process, &PageLine::Move { address, node });
    if !tells_move(&told) {
        return told;
    }
    running.pages.huge.rest(process);
    told
}

/// Touches pages of both sizes of a process, each by its own supply.
fn touch_both(
    huge: &mut HostHuge,
    alloc: Global,
    process: u32,
    space: &Space,
    said: &Populating,
    state: &mut PageState,
) -> Result<(), PlacedRefusal>
    requires { has_huge (spots_in process huge.old.sharers) (huge_first (page_of said.now.start))
        (huge_count (page_of said.now.start) (page_count said.now.length)) ≡ true }
    ensures { PopulatesBoth huge.old state.old result huge.new state.new process
        (ground_in space.now []) said.now.start said.now.length said.now.task said.now.cpu }
{
    let touched = match huge.populated(
        process,
        space,
        said.start,
        said.length,
        said.task,
        said.cpu,
    ) {
        Ok(touched) => touched,
        Err(_) => return Err(PlacedRefusal::NoMemory),
    };
    let (places, arrived) = touched;
    let Some(kept) = huge.pages_of(process) else {
        drop(places);
        return Err(PlacedRefusal::NoMemory);
    };
    let resident = Resident::new(alloc);
    match state.populate_beside(
        space,
        &resident,
        &kept.places,
        said.start,
        said.length,
        said.task,
        said.cpu,
    ) {
        Ok(()) => {
            huge.settle_touched(process, places, arrived);
            Ok(())
        }
        Err(why) => {
            drop(places);
            Err(why)
        }
    }
}

/// Touches pages of both sizes of a process.
fn populate_pages(
    pages: &mut HostPages,
    alloc: Global,
    process: u32,
    space: &Space,
    said: &Populating,
) -> Result<(), PlacedRefusal>
    requires { has_huge (spots_in process pages.old.huge.sharers)
        (huge_first (page_of said.now.start))
        (huge_count (page_of said.now.start) (page_count said.now.length)) ≡ true }
    ensures { (at : HostLying) → HostLies pages.old at → PopulatesIn at process
        (ground_in space.now []) said.now.start said.now.length said.now.task said.now.cpu result
        pages.new }
{
    let Ok(mut lent) = lend(pages, alloc, process) else {
        return Err(PlacedRefusal::NoMemory);
    };
    let count = page_count(said.length);
    if !pages
        .huge
        .has_huge_in(process, said.start / PAGE_BYTES, count)
    {
        // (This can't be: what is lent leaves them as they are.)
        drop(lent);
        return Err(PlacedRefusal::NoMemory);
    }
    let done = touch_both(
        &mut pages.huge,
        alloc,
        process,
        space,
        said,
        &mut lent.state,
    );
    give_back(pages, process, lent, lacks_memory(&done));
    done
}

/// Touches the pages of a span of a process, of which some have 2 MiB.
fn populate_both(
    running: &mut RunningHost,
    alloc: Global,
    process: u32,
    said: &Populating,
) -> Option<Reply>
    requires { has_huge (spots_in process running.old.pages.huge.sharers)
        (huge_first (page_of said.now.start))
        (huge_count (page_of said.now.start) (page_count said.now.length)) ≡ true }
    ensures host { running.new.host ≡ running.old.host }
    ensures runs { Changes running.old result running.new process (λ lacked at. page_where
        (is_there (members_of at.history) process) lacked at process
        (PageLine.Populate said.now.start said.now.length said.now.task said.now.cpu)) }
{
    let Some(space) = space_of(&running.host, process) else {
        return Some(Reply::HostRefused(HostRefusal::NoSuchProcess));
    };
    match populate_pages(&mut running.pages, alloc, process, space, said) {
        Ok(()) => None,
        Err(why) => Some(Reply::PlacedRefused(why)),
    }
}

/// Touches the pages of a span of a process.
fn populate_in(
    running: &mut RunningHost,
    alloc: Global,
    process: u32,
    said: &Populating,
) -> Option<Reply>
    ensures host { running.new.host ≡ running.old.host }
    ensures runs { Changes running.old result running.new process (λ lacked at. page_where
        (is_there (members_of at.history) process) lacked at process
        (PageLine.Populate said.now.start said.now.length said.now.task said.now.cpu)) }
{
    let pages = page_count(said.length);
    if running
        .pages
        .huge
        .has_huge_in(process, said.start / PAGE_BYTES, pages)
    {
        return populate_both(running, alloc, process, said);
    }
    let Some(_) = space_of(&running.host, process) else {
        return Some(Reply::HostRefused(HostRefusal::NoSuchProcess));
    };
    running.pages.huge.forget_arrived(process);
    let line = PageLine::Populate {
        start: said.start,
        length: said.length,
        task: said.task,
        cpu: said.cpu,
    };
    change_small(running, alloc, process, &line)
}

/// Carries out a line that changes where the pages of a process lie, which has some of 2 MiB.
fn change_both(
    running: &mut RunningHost,
    alloc: Global,
    process: u32,
    line: &PageLine,
) -> Option<Reply>
    requires moved { line.now ≢ PageLine.Moved }
    requires rooms { line.now ≢ PageLine.Rooms }
    ensures host { running.new.host ≡ running.old.host }
    ensures runs { Changes running.old result running.new process (λ lacked at. page_where
        (is_there (members_of at.history) process) lacked at process line.now) }
{
    match line {
        PageLine::At {
            start,
            length,
            node,
        } => state_in(running, alloc, process, *start, *length, *node),
        PageLine::Migrate { from, to } => migrate_in(running, alloc, process, from, to),
        PageLine::Move { address, node } => move_in(running, alloc, process, *address, *node),
        PageLine::Populate {
            start,
            length,
            task,
            cpu,
        } => {
            let said = Populating {
                start: *start,
                length: *length,
                task: *task,
                cpu: *cpu,
            };
            populate_in(running, alloc, process, &said)
        }
        _ => change_small(running, alloc, process, line),
    }
}

/// Carries out a line that changes where the pages of a process lie.
pub(crate) fn change_in(
    running: &mut RunningHost,
    alloc: Global,
    process: u32,
    line: &PageLine,
) -> Option<Reply>
    requires moved { line.now ≢ PageLine.Moved }
    requires rooms { line.now ≢ PageLine.Rooms }
    ensures host { running.new.host ≡ running.old.host }
    ensures runs { Changes running.old result running.new process (λ lacked at. page_where
        (is_there (members_of at.history) process) lacked at process line.now) }
{
    if running.pages.huge.is_sharer(process) {
        return change_both(running, alloc, process, line);
    }
    change_small(running, alloc, process, line)
}
