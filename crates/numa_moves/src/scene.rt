//! What is told of, and where its pages lie.
ghost use Rattle.std.specs.Prelude.{◌≡◌, ◌<◌, ℕ, IfOk, MatchOption, Some, length};
ghost use Rattle.std.specs.Prelude.{slice_get};
ghost use Rattle.numa_host_pages.specs.Homes.{HostLying};
ghost use Rattle.numa_host_pages.specs.Standing.{HostLies};
ghost use Rattle.numa_page_state.specs.Lying.{Lying};
ghost use Rattle.numa_page_state.specs.Outcomes.{rooms_of};
ghost use Rattle.numa_page_state.specs.Standing.{LieThere, LiesAs};
ghost use Rattle.numa_placed.specs.Shifts.{AreRooms};
ghost use Rattle.numa_placed.specs.Spots.{spot_at};
ghost use Rattle.numa_placed.specs.declared.spot.Spot.TheVariants.{Nowhere};
ghost use Rattle.numa_moves.specs.Held.{Before, IsLeft, allowed_in, processes_in, rooms_in};
ghost use Rattle.numa_moves.specs.Held.{spots_in, told_of};

use numa_host::Host;
use numa_host::process::find;
use numa_host_pages::HostPages;
use numa_mask::NodeMask;
use numa_page_state::PageState;
use numa_placed::{Placed, Rooms};
use numa_space::Space;
use std::alloc::{AllocError, Global};

/// What is told of.
#[derive(Clone, Copy)]
pub enum Scene<'a> {
    /// The space of a script, and its pages, once a line says where one lies.
    Own(&'a Space, Option<&'a PageState>),
    /// All processes of a host, and their pages.
    Each(&'a Host, &'a HostPages),
}

/// One process of what is told of; number 0 where there is one space.
#[derive(Clone, Copy)]
pub(crate) struct Member<'a> {
    pub(crate) scene: Scene<'a>,
    pub(crate) process: u32,
    pub(crate) space: &'a Space,
}

impl<'a> Scene<'a> {
    /// How many processes are told of.
    pub(crate) fn members(&self) -> usize
        ensures { result ≡ length (processes_in self.now) }
    {
        match self {
            Scene::Own(..) => 1,
            Scene::Each(host, _) => host.processes().len(),
        }
    }

    /// One of the processes, in the order in which they were made.
    pub(crate) fn member(&self, place: usize) -> Member<'a>
        requires { place < length (processes_in self.now) }
        ensures told { slice_get (processes_in self.now) place ≡ Some (told_of result) }
        ensures scene { result.scene ≡ self.now }
    {
        let scene = *self;
        match scene {
            Scene::Own(space, _) => Member {
                scene,
                process: 0,
                space,
            },
            Scene::Each(host, _) => {
                let process = &host.processes()[place];
                Member {
                    scene,
                    process: process.id,
                    space: &process.space,
                }
            }
        }
    }
}

impl Scene<'_> {
    /// The number of nodes of the machine.
    pub fn nodes(&self) -> u32 {
        match self {
            Scene::Own(space, _) => space.machine().nodes(),
            Scene::Each(host, _) => host.machine().nodes(),
        }
    }

    /// Whether it is a host.
    pub fn is_each(&self) -> bool {
        matches!(self, Scene::Each(..))
    }

    /// The nodes that a process is allowed, if it is there.
    pub(crate) fn allowed(&self, process: u32) -> Option<NodeMask>
        ensures { result ≡ allowed_in self.now process }
    {
        match self {
            Scene::Own(space, _) => Some(space.allowed()),
            Scene::Each(host, _) => {
                let found = find(host.processes(), process)?;
                Some(found.space.allowed())
            }
        }
    }
}

/// How many more pages each node takes by the pages of one process.
fn rooms_of_one(pages: &PageState) -> Rooms
    ensures { (at : Lying) → LiesAs pages.now at → AreRooms result (rooms_of at.room) }
{
    match pages.rooms() {
        Some(rooms) => *rooms,
        None => Rooms::endless(),
    }
}

/// How many more pages each node takes by the pages of a host.
fn rooms_of_host(pages: &HostPages) -> Rooms
    ensures { (at : HostLying) → HostLies pages.now at → AreRooms result (rooms_of at.room) }
{
    match pages.rooms() {
        Some(rooms) => *rooms,
        None => Rooms::endless(),
    }
}

impl<'a> Scene<'a> {
    /// The pages of a process, if it has any.
    fn pages(&self, process: u32) -> Option<&'a PageState>
        ensures { (before : Before) → IsLeft self.now before → MatchOption result
            ((page : ℕ) → spots_in before process page ≡ Nowhere)
            (λ pages. LieThere pages.now (spots_in before process)) }
    {
        match self {
            Scene::Own(_, pages) => *pages,
            Scene::Each(_, pages) => pages.pages_of(process),
        }
    }

    /// How many more pages each node takes, of whichever process.
    pub(crate) fn rooms(&self) -> Rooms
        ensures { (before : Before) → IsLeft self.now before
            → AreRooms result (rooms_in before) }
    {
        match self {
            Scene::Own(_, Some(pages)) => rooms_of_one(pages),
            Scene::Own(_, None) => Rooms::endless(),
            Scene::Each(_, pages) => rooms_of_host(pages),
        }
    }
}

/// Where the pages of a process lie, but those that keep frames.
pub(crate) fn placed_of(alloc: Global, member: Member<'_>) -> Result<Placed, AllocError>
    ensures { (before : Before) → IsLeft member.entry.scene before
        → IfOk result (λ placed. (page : ℕ) → spot_at placed page
        ≡ spots_in before member.entry.process page) }
{
    let placed = match member.scene.pages(member.process) {
        Some(pages) => pages.placed().copy(),
        None => Placed::new(alloc),
    };
    match placed {
        Ok(placed) => Ok(placed),
        Err(_) => Err(AllocError),
    }
}

/// Appends where the pages of a process lie, if it is asked for.
fn add_asked(
    alloc: Global,
    member: Member<'_>,
    process: Option<u32>,
    all: &mut Vec<Placed>,
) -> Result<(), AllocError> {
    if process.unwrap_or(member.process) != member.process {
        return Ok(());
    }
    let placed = placed_of(alloc, member)?;
    all.push(placed)?;
    Ok(())
}

/// Appends where the pages lie of the one space, or of each process in the order in which they were
/// made, or of one alone; those that keep frames aren't among them.
///
/// # Errors
/// `AllocError`: out of memory.
pub fn add_placed(
    alloc: Global,
    scene: Scene<'_>,
    process: Option<u32>,
    all: &mut Vec<Placed>,
) -> Result<(), AllocError> {
    for place in 0..scene.members() {
        add_asked(alloc, scene.member(place), process, all)?;
    }
    Ok(())
}
