//! Where the pages of processes lie, and what becomes of them.
ghost use Rattle.std.specs.Prelude.{◌≡◌, ◌<◌, ◌^◌, ◌++◌, ◌∷◌, ℕ, [], IfOk, OnOk, map};
ghost use Rattle.numa_placed.specs.Shifts.{AreRooms};
ghost use Rattle.numa_moves.specs.Held.{Before, IsAsLeft, IsLeft, arranged, held_by, held_from};
ghost use Rattle.numa_moves.specs.Held.{held_in, limited_by, order_in, processes_in, rooms_in};
ghost use Rattle.numa_moves.specs.Held.{shares_at, spots_in, told_of};
ghost use Rattle.numa_moves.specs.Moving.{AreCounted, AreLeft, Follows, IsSame, IsStep, IsTold};
ghost use Rattle.numa_moves.specs.Moving.{Sends, migrates_to, moves_of, nodes_after, nodes_by};
ghost use Rattle.numa_moves.specs.Moving.{nodes_in, shares_behind, shift_by};
ghost use Rattle.numa_moves.specs.Shares.{pages_on};
ghost use Rattle.numa_moves.specs.declared.holding.Holding.{Holding};

use crate::arranging::arrange;
use crate::moving::{ShareMove, moves_within, shares_behind};
use crate::scene::{Member, Scene, placed_of};
use crate::share::Share;
use crate::shares::{stated_shares, touched_shares};
use numa_compile::compile;
use numa_mask::NodeMask;
use numa_placed::Rooms;
use numa_reports::ReportError;
use numa_sheets::{FreePages, Touch};
use numa_space::Space;
use std::alloc::{AllocError, Global};
use std::mem::replace;

/// Where the pages of a process lie, and the nodes that it is allowed.
#[derive(Drop)]
pub struct Holding {
    /// The process; 0 for one space.
    pub process: u32,
    /// How many of the processes were made before it.
    pub made: usize,
    /// The nodes that it is allowed.
    pub allowed: NodeMask,
    /// The pages of each range.
    pub shares: Vec<Share>,
}

/// What became of the pages of a process.
#[derive(Drop)]
pub struct HoldingMoves {
    /// The process; 0 for one space.
    pub process: u32,
    /// How many of the processes were made before it.
    pub made: usize,
    /// What became of each share.
    pub moves: Vec<ShareMove>,
}

/// How pages came to lie where they do.
#[derive(Clone, Copy)]
pub enum Origin {
    /// A task touched each, while every node had room.
    Touched(Touch),
    /// Scripts have left them so.
    Left,
}

/// Where pages of a space lie that were all touched while every node had room.
fn touched(alloc: Global, space: &Space, touch: Touch) -> Result<Vec<Share>, ReportError> {
    let Ok(plan) = compile(alloc, space) else {
        return Err(ReportError::Memory);
    };
    let shares = touched_shares(alloc, space, &plan, touch);
    drop(plan);
    shares
}

/// Where pages of a process lie, as scripts have left them.
fn stated(alloc: Global, member: Member<'_>) -> Result<Vec<Share>, AllocError>
    ensures { (before : Before) → IsLeft member.entry.scene before
        → IfOk result (λ shares. shares.items
        ≡ shares_at member.entry.space.now (spots_in before member.entry.process)) }
{
    let placed = placed_of(alloc, member)?;
    let shares = stated_shares(alloc, member.space, &placed);
    drop(placed);
    shares
}

/// Where pages of a process lie.
fn shares_by(alloc: Global, member: Member<'_>, origin: Origin) -> Result<Vec<Share>, ReportError>
    ensures { (before : Before) → IsLeft member.entry.scene before → IsAsLeft origin
        → IfOk result (λ shares. shares.items
        ≡ shares_at member.entry.space.now (spots_in before member.entry.process)) }
{
    match origin {
        Origin::Touched(touch) => touched(alloc, member.space, touch),
        Origin::Left => match stated(alloc, member) {
            Ok(shares) => Ok(shares),
            Err(_) => Err(ReportError::Memory),
        },
    }
}

/// Appends what a process holds, before which so many were made.
fn add_one(
    alloc: Global,
    member: Member<'_>,
    made: usize,
    origin: Origin,
    holdings: &mut Vec<Holding>,
) -> Result<(), ReportError>
    ensures { (before : Before) → IsLeft member.entry.scene before → IsAsLeft origin
        → OnOk result (map held_in holdings.new.items
        ≡ map held_in holdings.old.items ++ held_by before made (told_of member.entry) ∷ []) }
{
    let shares = shares_by(alloc, member, origin)?;
    let holding = Holding {
        process: member.process,
        made,
        allowed: member.space.allowed(),
        shares,
    };
    match holdings.push(holding) {
        Ok(()) => Ok(()),
        Err(_) => Err(ReportError::Memory),
    }
}

/// Appends what the one space holds, or each process of a host, in the order in which they were
/// made.
fn add_all(
    alloc: Global,
    scene: Scene<'_>,
    origin: Origin,
    holdings: &mut Vec<Holding>,
) -> Result<(), ReportError>
    ensures { (before : Before) → IsLeft scene.entry before → IsAsLeft origin
        → OnOk result (map held_in holdings.new.items ≡ map held_in holdings.old.items
        ++ held_from before 0 (processes_in scene.entry)) }
{
    for place in 0..scene.members() {
        add_one(alloc, scene.member(place), place, origin, holdings)?;
    }
    Ok(())
}

/// How many more pages each node takes: as scripts leave them, or all that come where a task
/// touches pages.
fn rooms_by(scene: Scene<'_>, origin: Origin) -> Rooms
    ensures { (before : Before) → IsLeft scene.entry before → IsAsLeft origin
        → AreRooms result (rooms_in before) }
{
    match origin {
        Origin::Touched(_) => Rooms::endless(),
        Origin::Left => scene.rooms(),
    }
}

/// Moves pages of a process from one set of nodes to another, and notes where they lie then.
fn move_pages(
    alloc: Global,
    holding: &mut Holding,
    old: &NodeMask,
    new: &NodeMask,
    rooms: &mut Rooms,
) -> Result<HoldingMoves, AllocError>
    ensures moves { (room : ℕ → ℕ) → AreRooms rooms.old room
        → ((node : ℕ) → pages_on holding.old.shares.items node < 2 ^ 64)
        → IfOk result (λ told. told.moves.items
        ≡ moves_of holding.old.shares.items old.now new.now room) }
    ensures named { IfOk result (IsTold holding.old) }
    ensures same { OnOk result (IsSame holding.old holding.new) }
    ensures behind { IfOk result (λ told.
        holding.new.shares.items ≡ shares_behind told.moves.items) }
    ensures rooms { (room : ℕ → ℕ) → AreRooms rooms.old room
        → ((node : ℕ) → pages_on holding.old.shares.items node < 2 ^ 64)
        → OnOk result
        (AreRooms rooms.new (shift_by holding.old.shares.items old.now new.now room).room) }
    ensures nodes { OnOk result (holding.new.allowed ≡ holding.old.allowed) }
{
    let moves = moves_within(alloc, holding.shares.as_slice(), old, new, rooms)?;
    let behind = shares_behind(alloc, moves.as_slice())?;
    drop(replace(&mut holding.shares, behind));
    Ok(HoldingMoves {
        process: holding.process,
        made: holding.made,
        moves,
    })
}

/// What a line does to pages.
#[derive(Clone, Copy)]
enum Act<'a> {
    /// Those of each process follow the nodes that it is allowed.
    Follow(Scene<'a>),
    /// Those of one process go from one set of nodes to the allowed nodes of another.
    Migrate(u32, &'a NodeMask, &'a NodeMask),
    /// Nothing.
    Stay,
}

/// Does to the pages of a process what a line does.
fn act_on(
    alloc: Global,
    holding: &mut Holding,
    act: Act<'_>,
    rooms: &mut Rooms,
) -> Result<HoldingMoves, AllocError>
    ensures moves { (from to : Holding → ℕ) (room : ℕ → ℕ) → Sends act.entry from to
        → AreRooms rooms.old room
        → ((node : ℕ) → pages_on holding.old.shares.items node < 2 ^ 64)
        → IfOk result (λ told. told.moves.items
        ≡ moves_of holding.old.shares.items (from holding.old) (to holding.old) room) }
    ensures named { IfOk result (IsTold holding.old) }
    ensures same { OnOk result (IsSame holding.old holding.new) }
    ensures behind { IfOk result (λ told.
        holding.new.shares.items ≡ shares_behind told.moves.items) }
    ensures rooms { (from to : Holding → ℕ) (room : ℕ → ℕ) → Sends act.entry from to
        → AreRooms rooms.old room
        → ((node : ℕ) → pages_on holding.old.shares.items node < 2 ^ 64)
        → OnOk result (AreRooms rooms.new
        (shift_by holding.old.shares.items (from holding.old) (to holding.old) room).room) }
    ensures nodes { OnOk result (holding.new.allowed ≡ nodes_by act.entry holding.old) }
{
    let nodes = holding.allowed;
    match act {
        Act::Follow(scene) => {
            let new = scene.allowed(holding.process).unwrap_or(nodes);
            let told = move_pages(alloc, holding, &nodes, &new, rooms)?;
            holding.allowed = new;
            Ok(told)
        }
        Act::Migrate(process, from, to) if process == holding.process => {
            move_pages(alloc, holding, from, &to.and(&nodes), rooms)
        }
        Act::Migrate(_, from, _) => move_pages(alloc, holding, from, from, rooms),
        Act::Stay => move_pages(alloc, holding, &nodes, &nodes, rooms),
    }
}

/// What a line did to the pages of all processes.
#[derive(Drop)]
pub struct Step {
    /// By process, what became of its pages.
    pub told: Vec<HoldingMoves>,
    /// How many more pages each node takes then.
    pub rooms: Rooms,
}

/// Does to the pages of each process what a line does, one process after the other.
fn act_on_each(
    alloc: Global,
    holdings: &mut [Holding],
    act: Act<'_>,
    rooms: &mut Rooms,
) -> Result<Step, AllocError>
    ensures does { (from to : Holding → ℕ) (room : ℕ → ℕ) → Sends act.entry from to
        → AreRooms rooms.old room → AreCounted holdings.old
        → IfOk result (IsStep from to holdings.old room) }
    ensures left { IfOk result (AreLeft holdings.new) }
    ensures rooms { IfOk result (λ step. step.rooms ≡ rooms.new) }
    ensures nodes { OnOk result
        (map nodes_in holdings.new ≡ map (nodes_by act.entry) holdings.old) }
{
    let mut told = Vec::new(alloc);
    for holding in holdings.iter_mut() {
        let moves = act_on(alloc, holding, act, rooms)?;
        told.push(moves)?;
    }
    let rooms = *rooms;
    Ok(Step { told, rooms })
}

/// Where the pages of all processes lie, and how many more pages each node takes.
#[derive(Drop)]
pub struct Holdings {
    list: Vec<Holding>,
    rooms: Rooms,
}

/// Says that named nodes take so many more pages.
fn limit_all(rooms: &mut Rooms, free: &[FreePages])
    ensures { (room : ℕ → ℕ) → AreRooms rooms.old room
        → AreRooms rooms.new (limited_by free.now room) }
{
    for one in free {
        rooms.limit(one.node, one.pages);
    }
}

impl Holdings {
    /// Where pages lie before the first line. Named nodes take so many more, the others as many as
    /// scripts leave them; if a task touches the pages, any number.
    ///
    /// # Errors
    /// `Refused(BadCpu)`: the machine lacks the node on which a task touches pages. `Memory`: out
    /// of memory.
    pub fn new(
        alloc: Global,
        scene: Scene<'_>,
        origin: Origin,
        free: &[FreePages],
    ) -> Result<Holdings, ReportError>
        ensures held { (before : Before) → IsLeft scene.entry before → IsAsLeft origin
            → IfOk result (λ holdings. map held_in holdings.list.items
            ≡ held_from before 0 (processes_in scene.entry)) }
        ensures rooms { (before : Before) → IsLeft scene.entry before → IsAsLeft origin
            → IfOk result (λ holdings. AreRooms holdings.rooms
            (limited_by free.now (rooms_in before))) }
    {
        let mut list = Vec::new(alloc);
        match add_all(alloc, scene, origin, &mut list) {
            Ok(()) => {
                let mut rooms = rooms_by(scene, origin);
                limit_all(&mut rooms, free);
                Ok(Holdings { list, rooms })
            }
            Err(fault) => {
                drop(list);
                Err(fault)
            }
        }
    }

    /// Moves the pages of each process whose allowed nodes have changed, of one after the other.
    fn follow_each(&mut self, alloc: Global, scene: Scene<'_>) -> Result<Step, AllocError>
        ensures does { (from to : Holding → ℕ) (room : ℕ → ℕ) → Follows scene.entry from to
            → AreRooms self.old.rooms room → AreCounted self.old.list.items
            → IfOk result (IsStep from to self.old.list.items room) }
        ensures left { IfOk result (AreLeft self.new.list.items) }
        ensures rooms { IfOk result (λ step. step.rooms ≡ self.new.rooms) }
        ensures nodes { OnOk result (map nodes_in self.new.list.items
            ≡ map (nodes_after scene.entry) self.old.list.items) }
    {
        let act = Act::Follow(scene);
        act_on_each(alloc, self.list.as_mut_slice(), act, &mut self.rooms)
    }

    /// Moves the pages of each process whose allowed nodes have changed, as a control group with
    /// memory that migrates does: of one process after the other, in the order in which a host
    /// tells them of their nodes.
    ///
    /// # Errors
    /// `AllocError`: out of memory.
    pub fn follow(&mut self, alloc: Global, scene: Scene<'_>) -> Result<Step, AllocError>
        ensures does { (before : Before) (from to : Holding → ℕ) (room : ℕ → ℕ)
            → IsLeft scene.entry before → Follows scene.entry from to
            → AreRooms self.old.rooms room → AreCounted self.old.list.items
            → IfOk result (IsStep from to
            (arranged (order_in scene.entry before) self.old.list.items) room) }
        ensures left { IfOk result (AreLeft self.new.list.items) }
        ensures rooms { IfOk result (λ step. step.rooms ≡ self.new.rooms) }
        ensures nodes { (before : Before) → IsLeft scene.entry before → OnOk result
            (map nodes_in self.new.list.items ≡ map (nodes_after scene.entry)
            (arranged (order_in scene.entry before) self.old.list.items)) }
    {
        arrange(alloc, scene, &mut self.list)?;
        self.follow_each(alloc, scene)
    }

    /// Moves the pages of a process from one set of nodes to the allowed nodes of another, as
    /// migrate_pages(2) does; nothing if none is allowed, or there is no such process.
    ///
    /// # Errors
    /// `AllocError`: out of memory.
    pub fn migrate(
        &mut self,
        alloc: Global,
        process: u32,
        from: &NodeMask,
        to: &NodeMask,
    ) -> Result<Step, AllocError>
        ensures does { (room : ℕ → ℕ) → AreRooms self.old.rooms room
            → AreCounted self.old.list.items
            → IfOk result (IsStep (λ holding. from.now) (migrates_to process from.now to.now)
            self.old.list.items room) }
        ensures left { IfOk result (AreLeft self.new.list.items) }
        ensures rooms { IfOk result (λ step. step.rooms ≡ self.new.rooms) }
        ensures nodes { OnOk result
            (map nodes_in self.new.list.items ≡ map nodes_in self.old.list.items) }
    {
        let act = Act::Migrate(process, from, to);
        act_on_each(alloc, self.list.as_mut_slice(), act, &mut self.rooms)
    }

    /// A line that moves nothing.
    ///
    /// # Errors
    /// `AllocError`: out of memory.
    pub fn stay(&mut self, alloc: Global) -> Result<Step, AllocError>
        ensures does { (room : ℕ → ℕ) → AreRooms self.old.rooms room
            → AreCounted self.old.list.items
            → IfOk result (IsStep (λ holding. holding.allowed) (λ holding. holding.allowed)
            self.old.list.items room) }
        ensures left { IfOk result (AreLeft self.new.list.items) }
        ensures rooms { IfOk result (λ step. step.rooms ≡ self.new.rooms) }
        ensures nodes { OnOk result
            (map nodes_in self.new.list.items ≡ map nodes_in self.old.list.items) }
    {
        act_on_each(alloc, self.list.as_mut_slice(), Act::Stay, &mut self.rooms)
    }

    /// How many more pages each node takes.
    pub fn rooms(&self) -> &Rooms
        ensures { result.now ≡ self.now.rooms }
    {
        &self.rooms
    }

    /// The nodes that a process is allowed, if it is there.
    pub fn allowed(&self, process: u32) -> Option<NodeMask> {
        for holding in &self.list {
            if holding.process == process {
                return Some(holding.allowed);
            }
        }
        None
    }
}
