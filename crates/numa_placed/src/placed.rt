//! Where pages lie.
ghost use Rattle.std.specs.Prelude.{◌≡◌, ◌≢◌, ◌≤◌, ◌<◌, ◌+◌, ◌^◌, ℕ, OnOk, OnErr, IfOk, IfErr};
ghost use Rattle.std.specs.Prelude.{Some, None, is_some, slice_index};
ghost use Rattle.numa_mask.specs.NodeSet.{both};
ghost use Rattle.numa_ranges.specs.Maps.{IsSpan};
ghost use Rattle.numa_ranges.specs.Runs.{page_at};
ghost use Rattle.numa_space.specs.History.{page_of, page_count};
ghost use Rattle.numa_placed.specs.Binds.{IsBound, asked_of, bound_spots};
ghost use Rattle.numa_placed.specs.Moves.{IsMove, moved_node};
ghost use Rattle.numa_placed.specs.Refusals.{IsLack, IsRefusal, IsMoveRefusal, LacksForBytes};
ghost use Rattle.numa_placed.specs.Refusals.{state_cause, span_cause, migrate_cause, move_cause};
ghost use Rattle.numa_placed.specs.Spots.{is_on, pages_where, pages_within, spot_at};
ghost use Rattle.numa_placed.specs.Spots.{stated_beside};
ghost use Rattle.numa_placed.specs.Spots.{changed_spots, stated_spots, stated_spot, forgotten_spot};
ghost use Rattle.numa_placed.specs.Shifts.{AreRooms, IsShift, first_of, room_cause, room_moved};
ghost use Rattle.numa_placed.specs.Shifts.{shifted};
ghost use Rattle.numa_placed.specs.declared.spot.Spot.TheVariants.{Nowhere};

use crate::bind::FaultingTask;
use crate::bound::Bound;
use crate::change::{Change, SpanChange};
use crate::edit::{copy_places, edit_places};
use crate::filling::fill_places;
use crate::judge::{judge_move, judge_room, move_outcome};
use crate::moved::Moved;
use crate::places::{Places, count_each, count_places, spot_of};
use crate::rooms::Rooms;
use crate::shift::shift_places;
use crate::spans::{span_of, state_others, state_span, stated_span};
use crate::spot::Spot;
use crate::stay::{Stay, alike_in, stay_of};
use crate::touched::touch_span;
use crate::turn::Slot;
use crate::wants::Wants;
use numa_machine::NoMemory;
use numa_maps::Resident;
use numa_mask::NodeMask;
use numa_ranges::RangeMap;
use numa_requests::{MoveRefusal, PlacedRefusal};
use numa_space::Space;
use std::alloc::Global;
use std::marker::Model;

mod strict;
mod within;

/// Where each page lies.
#[derive(Drop)]
pub struct Placed {
    places: Places,
}

impl Model for Placed {
    ghost use Rattle.numa_placed.specs.Laid.{Laid};
    ghost use Rattle.numa_placed.specs.Stored.{IsStored};

    ghost Value = { Laid };

    ghost view = { λ a. record { runs = a.places.map.runs; nodes = a.places.nodes.items } };

    ghost invariant = { λ a. IsStored a.places };
}

impl Placed {
    /// Pages that all lie nowhere.
    ///
    /// # Errors
    /// `NoMemory`: there is no memory for their run.
    pub fn new(alloc: Global) -> Result<Placed, NoMemory>
        ensures { IfOk result (λ placed. (page : ℕ) → spot_at placed page ≡ Nowhere) }
    {
        let mut map = RangeMap::new(alloc, u32::MAX);
        let Ok(()) = map.map_span(0, 1 << 35, 0, Slot::Lies(Spot::Nowhere)) else {
            return Err(NoMemory);
        };
        let nodes = Vec::new(alloc);
        Ok(Placed {
            places: Places { map, nodes },
        })
    }

    /// Returns a copy. Later changes of one of the two don't affect the other.
    ///
    /// # Errors
    /// `NoMemory`: there is no memory for the copy's runs.
    pub fn copy(&self) -> Result<Placed, NoMemory>
        ensures { IfOk result (λ copy. copy ≡ self.now) }
    {
        let Ok(places) = copy_places(&self.places) else {
            return Err(NoMemory);
        };
        Ok(Placed { places })
    }

    /// Where a page lies, by a binary search. A page from 2^35 on lies nowhere.
    pub fn at(&self, page: u64) -> Spot
        ensures { result ≡ spot_at self.now page }
    {
        spot_of(&self.places, page)
    }

    /// Where a page lies, and up to where those behind it lie there too: the maximal runs of pages
    /// that lie alike are found by this, each from the end of the one before.
    pub fn stay_at(&self, page: u64) -> Stay
        requires near { page < 2 ^ 35 }
        ensures spot { result.spot ≡ spot_at self.now page }
        ensures rises { page < result.end }
        ensures within { result.end ≤ 2 ^ 35 }
        ensures alike { (p : ℕ) → page ≤ p → p < result.end → spot_at self.now p ≡ result.spot }
        ensures ends { result.end < 2 ^ 35 → spot_at self.now result.end ≢ result.spot }
    {
        stay_of(&self.places, page)
    }

    /// The end of some pages from one on that lie where they lie in another: the page itself, if it
    /// doesn't. Pages that one policy placed in turn are passed over together, however many they
    /// are.
    pub fn alike_with(&self, other: &Placed, page: u64) -> u64
        requires near { page < 2 ^ 35 }
        ensures rises { page ≤ result }
        ensures within { result ≤ 2 ^ 35 }
        ensures alike { (p : ℕ) → page ≤ p → p < result
            → spot_at self.now p ≡ spot_at other.now p }
        ensures ends { result ≡ page → spot_at self.now page ≢ spot_at other.now page }
    {
        alike_in(&self.places, &other.places, page)
    }

    /// The number of pages that lie on each node.
    pub fn counts(&self) -> [u64; 256]
        ensures { (node : ℕ) → node < 256
            → slice_index result node ≡ pages_where (is_on node) (spot_at self.now) }
    {
        count_each(&self.places)
    }

    /// The number of pages that lie on each node, of the `pages` pages from `first` on.
    pub fn counts_in(&self, first: u64, pages: u64) -> [u64; 256]
        requires { first + pages ≤ 2 ^ 35 }
        ensures { (node : ℕ) → node < 256
            → slice_index result node ≡ pages_within (is_on node) (spot_at self.now) first pages }
    {
        count_places(&self.places, first, pages)
    }

    /// States that the mapped pages of a span lie on a node. Start and length are in bytes, as
    /// those of a command to a space.
    ///
    /// # Errors
    /// The first of these that applies; nothing has changed: `Unaligned`, `OutOfSpace`,
    /// `NoSuchNode`, `TooManyRuns`, `NoMemory`, as [`PlacedRefusal`] says. Near the limit,
    /// `NoMemory` can come before `TooManyRuns`; it never comes to a span of 0 bytes.
    pub fn state(
        &mut self,
        space: &Space,
        start: u64,
        length: u64,
        node: u32,
    ) -> Result<(), PlacedRefusal>
        ensures accepted { OnOk result
            (state_cause space.now.machine start length node ≡ None) }
        ensures ok { OnOk result ((page : ℕ) → spot_at self.new page
            ≡ stated_spots (λ p. is_some (page_at space.now.ranges p)) (page_of start)
            (page_count length) node (spot_at self.old) page) }
        ensures err { IfErr result (IsRefusal (state_cause space.now.machine start length node)
            (stated_spots (λ p. is_some (page_at space.now.ranges p)) (page_of start)
            (page_count length) node (spot_at self.old))) }
        ensures room { IfErr result (LacksForBytes length) }
        ensures unchanged { OnErr result (self.new ≡ self.old) }
    {
        let said = stated_span(space, start, length, node)?;
        if said.pages == 0 {
            return Ok(());
        }
        state_span(&mut self.places, space, said)
    }

    /// States it, as `state` does, but of no page that keeps a frame: of such pages of the span
    /// nothing is stated afterwards.
    ///
    /// # Errors
    /// As those of `state`; nothing has changed.
    pub fn state_beside(
        &mut self,
        space: &Space,
        start: u64,
        length: u64,
        node: u32,
        resident: &Resident,
    ) -> Result<(), PlacedRefusal>
        ensures accepted { OnOk result
            (state_cause space.now.machine start length node ≡ None) }
        ensures ok { OnOk result ((page : ℕ) → spot_at self.new page
            ≡ stated_beside (λ p. is_some (page_at space.now.ranges p)) resident.now
            (page_of start) (page_count length) node (spot_at self.old) page) }
        ensures err { IfErr result (IsRefusal (state_cause space.now.machine start length node)
            (stated_beside (λ p. is_some (page_at space.now.ranges p)) resident.now
            (page_of start) (page_count length) node (spot_at self.old))) }
        ensures room { IfErr result (LacksForBytes length) }
        ensures unchanged { OnErr result (self.new ≡ self.old) }
    {
        let said = stated_span(space, start, length, node)?;
        if said.pages == 0 {
            return Ok(());
        }
        state_others(&mut self.places, space, said, resident)
    }

    /// States that the `pages` pages from `first` on lie on a node, mapped or not: the caller
    /// knows.
    ///
    /// # Errors
    /// `TooManyRuns`, `NoMemory`, as [`PlacedRefusal`] says; nothing has changed.
    pub fn set(&mut self, first: u64, pages: u64, node: u8) -> Result<(), PlacedRefusal>
        requires { IsSpan first pages }
        ensures ok { OnOk result ((page : ℕ) → spot_at self.new page
            ≡ changed_spots first pages (stated_spot node) (spot_at self.old) page) }
        ensures err { IfErr result (IsLack
            (changed_spots first pages (stated_spot node) (spot_at self.old))) }
        ensures unchanged { OnErr result (self.new ≡ self.old) }
    {
        let change = SpanChange {
            first,
            pages,
            change: Change::State(node),
        };
        edit_places(&mut self.places, change)
    }

    /// Takes away what was stated of the pages of a span, as is done when they are unmapped.
    ///
    /// # Errors
    /// The first of these that applies; nothing has changed: `Unaligned`, `OutOfSpace`,
    /// `TooManyRuns`, `NoMemory`, as [`PlacedRefusal`] says. Near the limit, `NoMemory` can come
    /// before `TooManyRuns`.
    pub fn forget(&mut self, start: u64, length: u64) -> Result<(), PlacedRefusal>
        ensures accepted { OnOk result (span_cause start length ≡ None) }
        ensures ok { OnOk result ((page : ℕ) → spot_at self.new page
            ≡ changed_spots (page_of start) (page_count length) forgotten_spot (spot_at self.old)
            page) }
        ensures err { IfErr result (IsRefusal (span_cause start length)
            (changed_spots (page_of start) (page_count length) forgotten_spot
            (spot_at self.old))) }
        ensures unchanged { OnErr result (self.new ≡ self.old) }
    {
        let (first, pages) = span_of(start, length)?;
        if pages == 0 {
            return Ok(());
        }
        let change = SpanChange {
            first,
            pages,
            change: Change::Forget,
        };
        edit_places(&mut self.places, change)
    }

    /// Moves the pages of a span that lie on other nodes than those of a list, as mbind(2) does
    /// with MPOL_MF_MOVE once the policy of the span is set: the lowest page first, each to the
    /// first node of its own list in the space that has room by then, as a fault of the task on
    /// node `cpu` would put it. A page that isn't mapped finds no room, nor does any if the machine
    /// has no node `cpu`. Start and length are in bytes.
    ///
    /// # Errors
    /// The first of these that applies; nothing has changed: `Unaligned`, `OutOfSpace`,
    /// `TooManyRuns`, `NoMemory`, as [`PlacedRefusal`] says. `NoMemory` can come before
    /// `TooManyRuns`.
    pub fn bind_astray(
        &mut self,
        space: &Space,
        start: u64,
        length: u64,
        list: &NodeMask,
        task: u32,
        cpu: u32,
        rooms: &mut Rooms,
    ) -> Result<Bound, PlacedRefusal>
        ensures accepted { OnOk result (span_cause start length ≡ None) }
        ensures ok { (room : ℕ → ℕ) → AreRooms rooms.old room → IfOk result (IsBound
            (asked_of space.now start length list.now task cpu) (spot_at self.old) room
            (spot_at self.new) rooms.new) }
        ensures err { (room : ℕ → ℕ) → AreRooms rooms.old room → IfErr result (IsRefusal
            (span_cause start length) (bound_spots
            (asked_of space.now start length list.now task cpu) (spot_at self.old) room)) }
        ensures unchanged { OnErr result (self.new ≡ self.old) }
        ensures rooms { OnErr result (rooms.new ≡ rooms.old) }
    {
        let (first, pages) = span_of(start, length)?;
        let touch = FaultingTask { task, cpu };
        touch_span(
            &mut self.places,
            space,
            first,
            pages,
            &Wants::Astray(list),
            touch,
            rooms,
        )
    }

    /// Moves a page to a node, as move_pages(2) does. A page that lies there stays.
    ///
    /// # Errors
    /// The first of these that applies; nothing has changed: `NoSuchNode`, `NodesNotAllowed`,
    /// `Unmapped`, `NotPlaced`, `NoRoom`, `TooManyRuns`, `NoMemory`, as [`MoveRefusal`] says.
    pub fn move_page(&mut self, space: &Space, page: u64, node: u32) -> Result<(), MoveRefusal>
        ensures accepted { OnOk result (move_cause space.now.machine space.now.allowed node
            (is_some (page_at space.now.ranges page)) (spot_at self.old page) ≡ None) }
        ensures ok { OnOk result ((other : ℕ) → spot_at self.new other
            ≡ changed_spots page 1 (stated_spot node) (spot_at self.old) other) }
        ensures err { IfErr result (IsMoveRefusal (move_cause space.now.machine space.now.allowed
            node (is_some (page_at space.now.ranges page)) (spot_at self.old page))
            (changed_spots page 1 (stated_spot node) (spot_at self.old))) }
        ensures unchanged { OnErr result (self.new ≡ self.old) }
    {
        judge_move(space, page, node, self.at(page))?;
        let change = SpanChange {
            first: page,
            pages: 1,
            change: Change::State(node as u8),
        };
        let outcome = edit_places(&mut self.places, change);
        move_outcome(outcome)
    }

    /// Moves pages as Linux does when the allowed nodes change from one set to another and their
    /// memory is to migrate: those of each node to its [`moved_node`](crate::moved_node). It
    /// doesn't allocate and can't fail.
    pub fn follow(&mut self, old: &NodeMask, new: &NodeMask) -> Moved
        ensures { IsMove (spot_at self.old) (moved_node old.now new.now) (spot_at self.new)
            result }
    {
        shift_places(&mut self.places, old, new)
    }

    /// Moves pages from one set of nodes to the allowed nodes of another, as migrate_pages(2) does.
    /// It doesn't allocate.
    ///
    /// # Errors
    /// `NodesNotAllowed`: no node of `to` is allowed. Then nothing has changed.
    pub fn migrate(
        &mut self,
        space: &Space,
        from: &NodeMask,
        to: &NodeMask,
    ) -> Result<Moved, PlacedRefusal>
        ensures ok { IfOk result (λ moved. (migrate_cause space.now.allowed to.now ≡ None)
            × IsMove (spot_at self.old) (moved_node from.now (both to.now space.now.allowed))
            (spot_at self.new) moved) }
        ensures err { IfErr result (λ refusal. migrate_cause space.now.allowed to.now
            ≡ Some refusal) }
        ensures unchanged { OnErr result (self.new ≡ self.old) }
    {
        let targets = to.and(&space.allowed());
        if targets.is_empty() {
            return Err(PlacedRefusal::NodesNotAllowed);
        }
        Ok(self.follow(from, &targets))
    }

    /// Moves pages as `follow` does, as far as there is room.
    ///
    /// # Errors
    /// Nothing has changed: `TooManyRuns`, `NoMemory`, as [`PlacedRefusal`] says. `NoMemory` can
    /// come before `TooManyRuns`.
    pub fn follow_within(
        &mut self,
        old: &NodeMask,
        new: &NodeMask,
        rooms: &mut Rooms,
    ) -> Result<Moved, PlacedRefusal>
        ensures ok { (room : ℕ → ℕ) → AreRooms rooms.old room → IfOk result (IsShift
            (spot_at self.old) old.now new.now room (spot_at self.new) rooms.new) }
        ensures err { (room : ℕ → ℕ) → AreRooms rooms.old room → IfErr result (IsLack
            (shifted (spot_at self.old) old.now new.now room)) }
        ensures unchanged { OnErr result (self.new ≡ self.old) }
        ensures rooms { OnErr result (rooms.new ≡ rooms.old) }
    {
        fill_places(&mut self.places, old, new, rooms)
    }

    /// Moves pages as `migrate` does, as far as there is room.
    ///
    /// # Errors
    /// The first of these that applies; nothing has changed: `NodesNotAllowed`, `TooManyRuns`,
    /// `NoMemory`, as [`PlacedRefusal`] says. `NoMemory` can come before `TooManyRuns`.
    pub fn migrate_within(
        &mut self,
        space: &Space,
        from: &NodeMask,
        to: &NodeMask,
        rooms: &mut Rooms,
    ) -> Result<Moved, PlacedRefusal>
        ensures accepted { OnOk result (migrate_cause space.now.allowed to.now ≡ None) }
        ensures ok { (room : ℕ → ℕ) → AreRooms rooms.old room → IfOk result (IsShift
            (spot_at self.old) from.now (both to.now space.now.allowed) room (spot_at self.new)
            rooms.new) }
        ensures err { (room : ℕ → ℕ) → AreRooms rooms.old room → IfErr result (IsRefusal
            (migrate_cause space.now.allowed to.now) (shifted (spot_at self.old) from.now
            (both to.now space.now.allowed) room)) }
        ensures unchanged { OnErr result (self.new ≡ self.old) }
        ensures rooms { OnErr result (rooms.new ≡ rooms.old) }
    {
        let targets = to.and(&space.allowed());
        if targets.is_empty() {
            return Err(PlacedRefusal::NodesNotAllowed);
        }
        self.follow_within(from, &targets, rooms)
    }

    /// Moves a page to a node, as `move_page` does, if the node has room for it.
    ///
    /// # Errors
    /// The first of these that applies; nothing has changed: `NoSuchNode`, `NodesNotAllowed`,
    /// `Unmapped`, `NotPlaced`, `NoRoom`, `TooManyRuns`, `NoMemory`, as [`MoveRefusal`] says.
    pub fn move_page_within(
        &mut self,
        space: &Space,
        page: u64,
        node: u32,
        rooms: &mut Rooms,
    ) -> Result<(), MoveRefusal>
        ensures accepted { (room : ℕ → ℕ) → AreRooms rooms.old room → OnOk result (first_of
            (move_cause space.now.machine space.now.allowed node (is_some
            (page_at space.now.ranges page)) (spot_at self.old page))
            (room_cause room node (spot_at self.old page)) ≡ None) }
        ensures ok { OnOk result ((other : ℕ) → spot_at self.new other
            ≡ changed_spots page 1 (stated_spot node) (spot_at self.old) other) }
        ensures taken { (room : ℕ → ℕ) → AreRooms rooms.old room → OnOk result
            (AreRooms rooms.new (room_moved room node (spot_at self.old page))) }
        ensures err { (room : ℕ → ℕ) → AreRooms rooms.old room → IfErr result (IsMoveRefusal
            (first_of (move_cause space.now.machine space.now.allowed node (is_some
            (page_at space.now.ranges page)) (spot_at self.old page))
            (room_cause room node (spot_at self.old page)))
            (changed_spots page 1 (stated_spot node) (spot_at self.old))) }
        ensures unchanged { OnErr result (self.new ≡ self.old) }
        ensures rooms { OnErr result (rooms.new ≡ rooms.old) }
    {
        let spot = self.at(page);
        judge_move(space, page, node, spot)?;
        judge_room(rooms, node as u8, spot)?;
        let change = SpanChange {
            first: page,
            pages: 1,
            change: Change::State(node as u8),
        };
        let outcome = edit_places(&mut self.places, change);
        if let Err(refusal) = move_outcome(outcome) {
            return Err(refusal);
        }
        rooms.pass_one(spot, node as u8);
        Ok(())
    }
}
