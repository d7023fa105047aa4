//! The processes of a host, with their pages.
ghost use Rattle.std.specs.Prelude.{◌≡◌, ◌==◌, ◌<◌, ◌≤◌, List, [], ◌∷◌, ◌++◌, MatchOption};
ghost use Rattle.std.specs.Prelude.{IfOk, None, OnOk, Option, Some, filter, length, not};
ghost use Rattle.std.specs.Prelude.{vec_capacity};
ghost use Rattle.numa_page_state.specs.Lying.{Lying};
ghost use Rattle.numa_page_state.specs.Standing.{HaveRoom};
ghost use Rattle.numa_host_pages.specs.Homes.{Home, Room, along_homes, pages_in, room_without};
ghost use Rattle.numa_host_pages.specs.Homes.{still_homes, with_pages};
ghost use Rattle.numa_host_pages.specs.Standing.{AreHomes, IsHome, LiesApart, Sits};

use numa_machine::NoMemory;
use numa_mask::NodeMask;
use numa_page_state::PageState;
use numa_placed::Rooms;
use std::alloc::Global;

/// A process: its number, its group, the nodes that it is allowed, its pages, once one was touched
/// or said to lie somewhere, and whether the host's last move was of them.
#[derive(Drop)]
pub(crate) struct Member {
    pub(crate) id: u32,
    pub(crate) group: u32,
    pub(crate) allowed: NodeMask,
    pub(crate) pages: Option<Box<PageState>>,
    pub(crate) along: bool,
}

/// Takes the pages of a process out, if it has any.
pub(crate) fn take_pages(members: &mut [Member], process: u32) -> Option<Box<PageState>>
    ensures { (homes : List Home) → AreHomes members.old homes
        → Sits result (pages_in process homes)
        × AreHomes members.new (with_pages process None homes) }
{
    let Some((first, rest)) = members.split_first_mut() else {
        return None;
    };
    if first.id == process {
        return first.pages.take();
    }
    take_pages(rest, process)
}

/// Puts pages in the place of those of a process.
pub(crate) fn put_pages(members: &mut [Member], process: u32, pages: Option<Box<PageState>>)
    ensures { (homes : List Home) (lying : Option Lying) → AreHomes members.old homes
        → Sits pages lying → AreHomes members.new (with_pages process lying homes) }
{
    let Some((first, rest)) = members.split_first_mut() else {
        drop(pages);
        return;
    };
    if first.id == process {
        drop(std::mem::replace(&mut first.pages, pages));
        return;
    }
    put_pages(rest, process, pages);
}

/// The pages of a process, if it has any.
pub(crate) fn pages_of(members: &[Member], process: u32) -> Option<&PageState>
    ensures { (homes : List Home) → AreHomes members.now homes
        → MatchOption result (pages_in process homes ≡ None) (λ state. (lying : Lying)
        × (pages_in process homes ≡ Some lying) × LiesApart state.now lying) }
{
    let (first, rest) = members.split_first()?;
    if first.id == process {
        return first.pages.as_deref();
    }
    pages_of(rest, process)
}

/// The host's last move is of no process.
pub(crate) fn still_all(members: &mut [Member])
    ensures { (homes : List Home) → AreHomes members.old homes
        → AreHomes members.new (still_homes homes) }
{
    let Some((first, rest)) = members.split_first_mut() else {
        return;
    };
    first.along = false;
    still_all(rest);
}

/// The host's last move is of one process.
pub(crate) fn take_along(members: &mut [Member], process: u32)
    ensures { (homes : List Home) → AreHomes members.old homes
        → AreHomes members.new (along_homes process homes) }
{
    let Some((first, rest)) = members.split_first_mut() else {
        return;
    };
    first.along = first.id == process;
    take_along(rest, process);
}

/// The rooms once pages are gone.
pub(crate) fn rooms_without(pages: Option<Box<PageState>>, rooms: &Option<Rooms>) -> Option<Rooms>
    ensures { (lying : Option Lying) (room : Room) → Sits pages lying → HaveRoom rooms.now room
        → HaveRoom result (room_without room lying) }
{
    let Some(mut state) = pages else {
        return *rooms;
    };
    state.lend(rooms, false);
    let left = state.rooms_without();
    drop(state);
    left
}

/// A process comes behind all others, where there is room for it.
pub(crate) fn add(members: &mut Vec<Member>, member: Member)
    ensures added { (homes : List Home) (home : Home) → AreHomes members.old.items homes
        → IsHome member home → length homes < 4096 → 4096 ≤ vec_capacity members.old
        → AreHomes members.new.items (homes ++ home ∷ []) }
    ensures room { vec_capacity members.old ≤ vec_capacity members.new }
{
    let _ = members.push(member);
}

/// Takes a process away.
pub(crate) fn remove(members: &mut Vec<Member>, process: u32)
    ensures items { members.new.items ≡ filter (λ (m : Member). not (m.id == process))
        members.old.items }
    ensures room { vec_capacity members.new ≡ vec_capacity members.old }
{
    members.retain(|member| member.id != process);
}

/// Pages on the heap.
///
/// # Errors
/// `NoMemory`: there is no memory for them.
pub(crate) fn boxed(alloc: Global, state: PageState) -> Result<Box<PageState>, NoMemory>
    ensures { IfOk result (λ kept. kept.value ≡ state) }
{
    match Box::new(alloc, state) {
        Ok(kept) => Ok(kept),
        Err(_) => Err(NoMemory),
    }
}

/// A copy of pages, if there are any.
///
/// # Errors
/// `NoMemory`: there is no memory for it.
fn pages_again(
    alloc: Global,
    pages: &Option<Box<PageState>>,
) -> Result<Option<Box<PageState>>, NoMemory>
    ensures { IfOk result (λ copy. (lying : Option Lying) → Sits pages.now lying
        → Sits copy lying) }
{
    let Some(kept) = pages.as_deref() else {
        return Ok(None);
    };
    let Ok(state) = kept.copy() else {
        return Err(NoMemory);
    };
    match boxed(alloc, state) {
        Ok(copy) => Ok(Some(copy)),
        Err(lack) => Err(lack),
    }
}

/// A copy of a process with its pages.
///
/// # Errors
/// `NoMemory`: there is no memory for it.
fn member_again(alloc: Global, member: &Member) -> Result<Member, NoMemory>
    ensures { IfOk result (λ copy. (home : Home) → IsHome member.now home → IsHome copy home) }
{
    match pages_again(alloc, &member.pages) {
        Ok(pages) => Ok(Member {
            id: member.id,
            group: member.group,
            allowed: member.allowed,
            pages,
            along: member.along,
        }),
        Err(lack) => Err(lack),
    }
}

/// Puts copies of processes with their pages behind those that are there already.
///
/// # Errors
/// `NoMemory`: there is no memory for one of them.
pub(crate) fn add_again(
    alloc: Global,
    members: &[Member],
    copies: &mut Vec<Member>,
) -> Result<(), NoMemory>
    ensures added { (before homes : List Home) → AreHomes copies.old.items before
        → AreHomes members.now homes
        → OnOk result (AreHomes copies.new.items (before ++ homes)) }
    ensures room { vec_capacity copies.old ≤ vec_capacity copies.new }
{
    let Some((first, rest)) = members.split_first() else {
        return Ok(());
    };
    let Ok(copy) = member_again(alloc, first) else {
        return Err(NoMemory);
    };
    let Ok(()) = copies.push(copy) else {
        return Err(NoMemory);
    };
    add_again(alloc, rest, copies)
}
