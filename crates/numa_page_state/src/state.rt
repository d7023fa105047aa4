//! Where the pages of a process lie.
ghost use Rattle.std.specs.Prelude.{◌≡◌, ◌==◌, ◌<◌, ℕ, Bool, Err, IfErr, IfOk, None, Option};
ghost use Rattle.std.specs.Prelude.{if◌then◌else◌, is_some, true, false, [], IsSomeAnd};
ghost use Rattle.std.specs.Prelude.{MatchOption, OnErr, Some};
ghost use Rattle.numa_mask.specs.NodeSet.{both};
ghost use Rattle.numa_maps.specs.Residents.{Kept};
ghost use Rattle.numa_placed.specs.Refusals.{LacksForBytes, migrate_cause};
ghost use Rattle.numa_ranges.specs.Runs.{page_at};
ghost use Rattle.numa_placed.specs.Shifts.{AreRooms};
ghost use Rattle.numa_placed.specs.Spots.{is_placed, spot_at};
ghost use Rattle.numa_page_state.specs.Lying.{Lying, ground_in, nothing, still};
ghost use Rattle.numa_page_state.specs.Outcomes.{Lack, along_outcome, at_outcome, followed};
ghost use Rattle.numa_page_state.specs.Outcomes.{held_cause, held_move_unless};
ghost use Rattle.numa_page_state.specs.Outcomes.{migrate_outcome, move_cause_by, move_outcome};
ghost use Rattle.numa_page_state.specs.Outcomes.{move_unless, room_outcome, rooms_of, told_of};
ghost use Rattle.numa_page_state.specs.Standing.{DoesAs, HaveRoom, IsLastShift, LastAs};
ghost use Rattle.numa_page_state.specs.Standing.{Lies, LiesAs};
ghost use Rattle.numa_page_state.specs.Standing.{Migrates, MovesPage, States, TellsOf};

use crate::arrived::{Arrived, untouched};
use crate::frames::{follow_telling, judge_held, with_held};
use crate::last::{Last, keep};
use crate::shift::Shift;
use numa_machine::NoMemory;
use numa_maps::Resident;
use numa_mask::NodeMask;
use numa_placed::{Moved, Placed, Rooms, Spot, lacks_node};
use numa_requests::{MoveRefusal, PAGE_BYTES, PlacedRefusal};
use numa_space::Space;
use std::alloc::Global;

/// Where pages lie, how many more each node takes, whether pages follow the allowed nodes, and what
/// the last move and the last first touches did.
#[derive(Drop)]
pub struct PageState {
    pub(crate) placed: Placed,
    pub(crate) rooms: Option<Rooms>,
    pub(crate) follows: bool,
    pub(crate) last: Last,
    pub(crate) arrived: Arrived,
}

/// A move of nothing.
pub fn still() -> Moved
    ensures { TellsOf result still }
{
    Moved {
        moved: 0,
        left: 0,
        from: [0; 256],
        to: [0; 256],
    }
}

/// What is told of a page that went from a node to another.
fn told_from(node: u8, from: u8) -> Moved
    ensures { TellsOf result (told_of node (Spot.Stated from)) }
{
    if from == node {
        return still();
    }
    let mut gone = [0; 256];
    gone[from as usize] = 1;
    Moved {
        moved: 1,
        left: 0,
        from: gone,
        to: [node; 256],
    }
}

/// What is told of a page that lay here and moved to a node.
fn told_at(node: u8, spot: Spot) -> Moved
    ensures { TellsOf result (told_of node spot) }
{
    match spot {
        Spot::Nowhere => still(),
        Spot::Stated(from) => told_from(node, from),
    }
}

/// What is told of a page that lay here and moved to a node.
fn told_of(node: u32, spot: Spot) -> Moved
    ensures { node < 256 → TellsOf result (told_of node spot) }
{
    if node >= 256 {
        return still();
    }
    told_at(node as u8, spot)
}

/// The rooms; without any no node fills.
pub(crate) fn rooms_of(rooms: &Option<Rooms>) -> Rooms
    ensures { (room : Option (ℕ → ℕ)) → HaveRoom rooms.now room → AreRooms result (rooms_of room) }
{
    match rooms {
        None => Rooms::endless(),
        Some(have) => *have,
    }
}

/// The rooms, with one more said.
pub(crate) fn limited(rooms: &Option<Rooms>, node: u8, pages: u64) -> Rooms
    ensures { (room : Option (ℕ → ℕ)) → HaveRoom rooms.now room
        → AreRooms result (λ other. if other == node then pages else rooms_of room other) }
{
    let mut limited = rooms_of(rooms);
    limited.limit(node, pages);
    limited
}

/// The mapped pages of a span lie on a node, as far as there is room.
fn state(
    placed: &mut Placed,
    rooms: &mut Option<Rooms>,
    space: &Space,
    resident: &Resident,
    start: u64,
    length: u64,
    node: u32,
) -> Result<(), PlacedRefusal>
    ensures states { States placed.old rooms.old (ground_in space.now resident.now) start length
        node result placed.new rooms.new }
    ensures room { IfErr result (LacksForBytes length) }
{
    match rooms {
        None => placed.state_beside(space, start, length, node, resident),
        Some(have) => placed.state_within(space, start, length, node, resident, have),
    }
}

/// Pages leave a set of nodes for the allowed nodes of another, as far as there is room.
fn migrate(
    placed: &mut Placed,
    rooms: &mut Option<Rooms>,
    space: &Space,
    from: &NodeMask,
    to: &NodeMask,
) -> Result<Moved, PlacedRefusal>
    ensures { Migrates placed.old rooms.old from.now (both to.now space.now.allowed)
        (migrate_cause space.now.allowed to.now) result placed.new rooms.new }
{
    match rooms {
        None => placed.migrate(space, from, to),
        Some(have) => placed.migrate_within(space, from, to, have),
    }
}

/// Pages follow the allowed nodes, as far as there is room.
fn follow(
    placed: &mut Placed,
    rooms: &mut Option<Rooms>,
    old: &NodeMask,
    new: &NodeMask,
) -> Result<Moved, PlacedRefusal>
    ensures { Migrates placed.old rooms.old old.now new.now None result placed.new rooms.new }
{
    match rooms {
        None => Ok(placed.follow(old, new)),
        Some(have) => placed.follow_within(old, new, have),
    }
}

/// A page goes to a node, if there is room.
fn move_page(
    placed: &mut Placed,
    rooms: &mut Option<Rooms>,
    space: &Space,
    page: u64,
    node: u32,
) -> Result<(), MoveRefusal>
    ensures { MovesPage placed.old rooms.old (ground_in space.now []) page node result placed.new
        rooms.new }
{
    // Tells the proof that the machine has few nodes.
    let _ = space.machine().nodes();
    match rooms {
        None => placed.move_page(space, page, node),
        Some(have) => placed.move_page_within(space, page, node, have),
    }
}

impl PageState {
    /// Pages that all lie nowhere.
    ///
    /// # Errors
    /// `NoMemory`: there is no memory for it.
    pub fn new(alloc: Global) -> Result<PageState, NoMemory>
        ensures { IfOk result (λ state. LiesAs state nothing) }
    {
        let Ok(placed) = Placed::new(alloc) else {
            return Err(NoMemory);
        };
        let last = Last::Nodes(still());
        Ok(PageState {
            placed,
            rooms: None,
            follows: false,
            last,
            arrived: untouched(),
        })
    }

    /// Returns a copy. Later changes of one of the two don't affect the other.
    ///
    /// # Errors
    /// `NoMemory`: there is no memory for it.
    pub fn copy(&self) -> Result<PageState, NoMemory>
        ensures { IfOk result (λ copy. copy ≡ self.now) }
    {
        let placed = self.placed.copy()?;
        match self.last.copy() {
            Ok(last) => Ok(PageState {
                placed,
                rooms: self.rooms,
                follows: self.follows,
                last,
                arrived: self.arrived,
            }),
            Err(lack) => Err(lack),
        }
    }

    /// The mapped pages of a span lie on a node, but those that keep a frame. Those that come to it
    /// take its room, once a line says one, and give back that of the nodes which they leave.
    ///
    /// # Errors
    /// As [`Placed::state_within`].
    pub fn at(
        &mut self,
        space: &Space,
        resident: &Resident,
        start: u64,
        length: u64,
        node: u32,
    ) -> Result<(), PlacedRefusal>
        ensures does { DoesAs self.old result self.new (Err PlacedRefusal.NoMemory) (λ lack at.
            at_outcome lack (ground_in space.now resident.now) start length node at) }
        ensures room { IfErr result (LacksForBytes length) }
        ensures unchanged { OnErr result (self.new ≡ self.old) }
    {
        state(
            &mut self.placed,
            &mut self.rooms,
            space,
            resident,
            start,
            length,
            node,
        )
    }

    /// Says how many more pages a node takes from now on; 2^64 - 1 if it never fills.
    ///
    /// # Errors
    /// `NoSuchNode`: the machine lacks the node, or it has no memory.
    pub fn limit(&mut self, space: &Space, node: u32, pages: u64) -> Result<(), PlacedRefusal>
        ensures does { DoesAs self.old result self.new (Err PlacedRefusal.NoMemory) (λ lack at.
            room_outcome space.now.machine node pages at) }
        ensures unchanged { OnErr result (self.new ≡ self.old) }
    {
        if lacks_node(space.machine(), node) {
            return Err(PlacedRefusal::NoSuchNode);
        }
        self.rooms = Some(limited(&self.rooms, node as u8, pages));
        Ok(())
    }

    /// Says whether pages follow the allowed nodes (cpuset.memory_migrate of cpusets(7)).
    pub fn set_follows(&mut self, follows: bool)
        ensures { (lying : Lying) → LiesAs self.old lying
            → LiesAs self.new (record lying { follows = follows }) }
    {
        self.follows = follows;
    }

    /// Moves pages that lie on nodes of one set to the allowed nodes of another, as far as there is
    /// room: migrate_pages(2). Pages that keep a frame stay, and are counted among those left.
    ///
    /// # Errors
    /// As [`Placed::migrate_within`].
    pub fn migrate(
        &mut self,
        space: &Space,
        resident: &Resident,
        from: &NodeMask,
        to: &NodeMask,
    ) -> Result<Shift, PlacedRefusal>
        ensures does { DoesAs self.old result self.new (Err PlacedRefusal.NoMemory) (λ lack at.
            migrate_outcome lack (ground_in space.now resident.now) from.now to.now at) }
        ensures last { IfOk result (IsLastShift self.new.last) }
        ensures unchanged { OnErr result (self.new ≡ self.old) }
    {
        let moved = migrate(&mut self.placed, &mut self.rooms, space, from, to)?;
        let done = with_held(moved, Some(resident));
        let moved = done.moved;
        let left = done.left;
        keep(&mut self.last, Last::Nodes(done));
        Ok(Shift { moved, left })
    }

    /// A page that keeps a frame stays there, and has moved if its node is the one asked for.
    fn stay(&mut self, space: &Space, page: u64, node: u32, from: u8) -> Result<(), MoveRefusal>
        ensures does { DoesAs self.old result self.new (Err MoveRefusal.NoMemory) (λ lack at.
            held_move_unless (held_cause (ground_in space.now []) page node from) at) }
        ensures unchanged { OnErr result (self.new ≡ self.old) }
    {
        judge_held(space, page, node, from)?;
        keep(&mut self.last, Last::Nodes(still()));
        Ok(())
    }

    /// Moves a page to a node, if it has room: move_pages(2). A page that lies there stays, and so
    /// does one that keeps a frame. The address is any byte's of the page.
    ///
    /// # Errors
    /// As [`Placed::move_page_within`].
    pub fn move_page(
        &mut self,
        space: &Space,
        resident: &Resident,
        address: u64,
        node: u32,
    ) -> Result<(), MoveRefusal>
        ensures does { DoesAs self.old result self.new (Err MoveRefusal.NoMemory) (λ lack at.
            move_outcome lack (ground_in space.now resident.now) address node at) }
        ensures unchanged { OnErr result (self.new ≡ self.old) }
    {
        let page = address / PAGE_BYTES;
        match resident.at(page) {
            Some(placement) => self.stay(space, page, node, placement.node),
            None => self.send(space, page, node),
        }
    }

    /// A page that keeps no frame goes to a node.
    fn send(&mut self, space: &Space, page: u64, node: u32) -> Result<(), MoveRefusal>
        ensures does { DoesAs self.old result self.new (Err MoveRefusal.NoMemory) (λ lack at.
            move_unless (move_cause_by lack (ground_in space.now []) page node at) page node
            at) }
        ensures unchanged { OnErr result (self.new ≡ self.old) }
    {
        let spot = self.placed.at(page);
        move_page(&mut self.placed, &mut self.rooms, space, page, node)?;
        keep(&mut self.last, Last::Nodes(told_of(node, spot)));
        Ok(())
    }

    /// Where the pages without a frame lie.
    pub fn placed(&self) -> &Placed
        ensures lies { (lying : Lying) → LiesAs self.now lying
            → (page : ℕ) → spot_at result.now page ≡ lying.spots page }
        ensures same { result.now ≡ self.now.placed }
    {
        &self.placed
    }

    /// How many more pages each node takes, once that was said of one: before, no node fills.
    pub fn rooms(&self) -> Option<&Rooms>
        ensures { (lying : Lying) → LiesAs self.now lying → MatchOption result (lying.room ≡ None)
            (λ rooms. (room : ℕ → ℕ) × (lying.room ≡ Some room) × AreRooms rooms.now room) }
    {
        self.rooms.as_ref()
    }

    /// What the last move did.
    pub fn last(&self) -> &Last
        ensures lies { (lying : Lying) → LiesAs self.now lying → LastAs result.now lying.last }
        ensures same { result.now ≡ self.now.last }
    {
        &self.last
    }

    /// Pages that lie on nodes of one set go to those of another, as far as there is room, whether
    /// or not they are to follow. Pages that keep a frame stay, and are counted among those left.
    ///
    /// # Errors
    /// As [`Placed::follow_within`].
    pub fn move_along(
        &mut self,
        old: &NodeMask,
        new: &NodeMask,
        resident: &Resident,
    ) -> Result<Shift, PlacedRefusal>
        ensures does { DoesAs self.old result self.new (Err PlacedRefusal.NoMemory) (λ lack at.
            along_outcome lack resident.now old.now new.now at) }
        ensures last { IfOk result (IsLastShift self.new.last) }
        ensures unchanged { OnErr result (self.new ≡ self.old) }
    {
        let moved = follow(&mut self.placed, &mut self.rooms, old, new)?;
        let done = with_held(moved, Some(resident));
        let moved = done.moved;
        let left = done.left;
        keep(&mut self.last, Last::Nodes(done));
        Ok(Shift { moved, left })
    }

    /// Pages follow the allowed nodes, if they are to; where they lack runs or memory, they stay.
    pub fn follow(&mut self, old: &NodeMask, new: &NodeMask, resident: Option<&Resident>)
        ensures { (lying : Lying) (kept : Kept) → LiesAs self.old lying → MatchOption resident.entry
            (kept ≡ []) (λ held. held.now ≡ kept)
            → (lack : Lack) × LiesAs self.new (followed lack old.now new.now kept lying) }
    {
        if !self.follows {
            keep(&mut self.last, Last::Nodes(still()));
            return;
        }
        follow_telling(
            &mut self.placed,
            &mut self.rooms,
            &mut self.last,
            old,
            new,
            resident,
        );
    }
}

/// Begins to keep where pages lie, if nothing is kept yet. Returns whether memory ran out.
pub fn begins_starved(alloc: Global, state: &mut Option<PageState>) -> bool
    ensures starved { result ≡ true → (state.new ≡ state.old) × (state.old ≡ None) }
    ensures kept { result ≡ false → IsSomeAnd state.new (λ kept. (lying : Lying)
        → Lies state.old lying → LiesAs kept lying) }
{
    if let Some(_) = state {
        return false;
    }
    match PageState::new(alloc) {
        Ok(begun) => {
            *state = Some(begun);
            false
        }
        Err(_) => true,
    }
}

/// Whether a page lies somewhere.
pub fn is_there(state: &Option<PageState>, page: u64) -> bool
    ensures { (lying : Lying) → Lies state.now lying → result ≡ is_placed (lying.spots page) }
{
    let Some(kept) = state else {
        return false;
    };
    kept.placed.at(page).node().is_some()
}

/// Pages follow the allowed nodes, where any are kept.
pub fn follow_where(
    state: &mut Option<PageState>,
    old: &NodeMask,
    new: &NodeMask,
    resident: Option<&Resident>,
)
    ensures { (lying : Lying) (kept : Kept) → Lies state.old lying → MatchOption resident.entry
        (kept ≡ []) (λ held. held.now ≡ kept)
        → (lack : Lack) × Lies state.new (followed lack old.now new.now kept lying) }
{
    if let Some(kept) = state {
        kept.follow(old, new, resident);
    }
}
