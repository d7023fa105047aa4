//! What accesses of a trace have placed so far, stated to a running script.
ghost use Rattle.std.specs.Prelude.{◌≡◌, ◌≤◌, None, OnOk, length, take};
ghost use Rattle.numa_host_script.specs.Sessions.{Session};
ghost use Rattle.numa_host_script.specs.Taking.{SessionStandsFor};
ghost use Rattle.numa_play.specs.Deeds.{IsRoom, SaysRoom, StatesPage, StatesPages};
ghost use Rattle.numa_play.specs.Deeds.{address_of, told_to};
ghost use Rattle.numa_script.specs.declared.page_line.PageLine.TheVariants as page_line;

use crate::landing::{address_of, end_of, lies_now};
use numa_host_script::HostScript;
use numa_script::{Line, PageLine, ScriptLine};
use numa_traces::{Memory, ReplayError};
use std::alloc::Global;

/// The line `room` of a node.
fn room_of(node: u32, pages: u64) -> ScriptLine<'static>
    ensures { result ≡ told_to None (page_line.Room node pages) }
{
    ScriptLine {
        process: None,
        line: Line::Pages(Ok(PageLine::Room { node, pages })),
    }
}

/// The line `at` of a page.
fn at_of(process: Option<u32>, page: u64, node: u8) -> ScriptLine<'static>
    ensures { result ≡ told_to process (page_line.At (address_of page) 4096 node) }
{
    ScriptLine {
        process,
        line: Line::Pages(Ok(PageLine::At {
            start: address_of(page),
            length: 4096,
            node: u32::from(node),
        })),
    }
}

/// Says for how many more pages a node has room. What is refused says nothing.
///
/// # Errors
/// `NoMemory`: out of memory.
fn say_room(
    alloc: Global,
    script: &mut HostScript,
    node: u32,
    pages: u64,
) -> Result<(), ReplayError>
    ensures { (session : Session) → SessionStandsFor script.old session → OnOk result
        ((then : Session) × SessionStandsFor script.new then × SaysRoom node pages session then) }
{
    let Some(reply) = script.judge(alloc, &room_of(node, pages)) else {
        return Ok(());
    };
    if reply.lacks_memory() {
        return Err(ReplayError::NoMemory);
    }
    Ok(())
}

/// The same of each node, from node 0 on.
///
/// # Errors
/// `NoMemory`: out of memory.
fn say_each(alloc: Global, script: &mut HostScript, room: &[u64]) -> Result<(), ReplayError>
    requires { length room.now ≤ 256 }
    ensures { (session : Session) → SessionStandsFor script.old session → OnOk result
        ((then : Session) × SessionStandsFor script.new then × IsRoom 0 room.now session then) }
{
    let mut node = 0u32;
    for pages in room {
        if let Err(why) = say_room(alloc, script, node, *pages) {
            return Err(why);
        }
        node += 1;
    }
    Ok(())
}

/// The same of the first 256 nodes.
///
/// # Errors
/// `NoMemory`: out of memory.
pub(crate) fn say_rooms(
    alloc: Global,
    script: &mut HostScript,
    room: &[u64],
) -> Result<(), ReplayError>
    ensures { (session : Session) → SessionStandsFor script.old session → OnOk result
        ((then : Session) × SessionStandsFor script.new then
        × IsRoom 0 (take 256 room.now) session then) }
{
    let few = room.len().min(256);
    say_each(alloc, script, &room[..few])
}

/// States where a page of an access lies that lies nowhere yet.
///
/// # Errors
/// `TooManyRuns` or `NoMemory`.
fn state_page(
    alloc: Global,
    script: &mut HostScript,
    process: Option<u32>,
    page: u64,
    node: u8,
) -> Result<(), ReplayError>
    ensures { (session : Session) → SessionStandsFor script.old session → OnOk result
        ((then : Session) × SessionStandsFor script.new then
        × StatesPage process (page, node) session then) }
{
    if let Some(_) = lies_now(script, process, page) {
        return Ok(());
    }
    match script.judge(alloc, &at_of(process, page, node)) {
        Some(reply) => Err(end_of(reply)),
        None => Ok(()),
    }
}

/// States where the pages of accesses lie, the lowest first.
///
/// # Errors
/// `TooManyRuns` or `NoMemory`. Then some are stated.
pub(crate) fn state_pages(
    alloc: Global,
    script: &mut HostScript,
    process: Option<u32>,
    memory: &Memory,
) -> Result<(), ReplayError>
    ensures { (session : Session) → SessionStandsFor script.old session → OnOk result
        ((then : Session) × SessionStandsFor script.new then
        × StatesPages process memory.now.pages session then) }
{
    for (page, node) in memory.pages() {
        if let Err(why) = state_page(alloc, script, process, *page, *node) {
            return Err(why);
        }
    }
    Ok(())
}
