//! The state of a core, and its steps.
ghost use Rattle.std.specs.Prelude.{◌≡◌, ℕ, ◌<◌, ◌≤◌, IfOk, OnErr, List, None, Option, Some};
ghost use Rattle.std.specs.Prelude.{length, slice_get, true, vec_len};
ghost use Rattle.std.specs.List.{AllZip};
ghost use Rattle.numa_core.specs.World.{World, opening};
ghost use Rattle.numa_core.specs.Steps.{put_frame};
ghost use Rattle.numa_core.specs.Standing.{CoreStandsFor, frames_before, owner_at, place_in};
ghost use Rattle.numa_core.specs.Standing.{setup_of};
ghost use Rattle.numa_core.specs.Kept.{core_state, IsKept, Performs};
ghost use Rattle.numa_core.specs.Hints.{AreTaken, IsLow};
ghost use Rattle.numa_core.specs.Seats.{SeatFits, IsSeatCopy};
ghost use Rattle.numa_core.specs.Touching.{touch_answer, touch_world};
ghost use Rattle.numa_core.specs.declared.seat.WorkerSeat.{WorkerSeat};
ghost use Rattle.numa_requests.specs.declared.event.Event.{Event};

use crate::free_frames::{Known, first_free, known_copy, none_taken};
use crate::judging::{row_for, seated};
use crate::places::Places;
use crate::seat::WorkerSeat;
use crate::tables::none_owned;
use crate::unpublished::Unpublished;
use numa_compile::{PlannedSpace, compile};
use numa_machine::{Frame, Machine, NoMemory};
use numa_plan::Plan;
use numa_requests::{CoreRefusal, CoreReply, Limits, Placement, Request};
use std::alloc::Global;
use std::mem::replace;

/// The space of all accepted commands with its working plan, the plan of those that are published,
/// the commands that aren't, the workers' seats, the owner of each frame, and what is known of the
/// owners.
#[derive(Drop)]
pub(crate) struct State {
    pub alloc: Global,
    pub space: PlannedSpace,
    pub plan: Plan,
    pub unpublished: Unpublished,
    pub places: Places,
    pub seats: Vec<WorkerSeat>,
    pub owners: Vec<Option<u8>>,
    pub taken: Known,
}

/// As many idle seats as workers.
fn idle_seats(alloc: Global, places: &Places, workers: u32) -> Result<Vec<WorkerSeat>, NoMemory>
    ensures count { IfOk result (λ seats. vec_len seats ≡ workers) }
    ensures idle { IfOk result (λ seats. (w : ℕ) (seat : WorkerSeat) → slice_get seats.items w
        ≡ Some seat → (seat.job ≡ None) × SeatFits places.now seat) }
{
    let mut seats = Vec::new(alloc);
    for _ in 0..workers {
        let seat = WorkerSeat::new(alloc, places)?;
        seats.push(seat)?;
    }
    Ok(seats)
}

/// Copies of these seats.
fn seat_copies(alloc: Global, seats: &[WorkerSeat]) -> Result<Vec<WorkerSeat>, NoMemory>
    ensures { IfOk result (λ others. AllZip IsSeatCopy seats.now others.items) }
{
    let mut others = Vec::with_capacity(alloc, seats.len())?;
    for seat in seats {
        others.push(seat.copy(alloc)?)?;
    }
    Ok(others)
}

/// The places of a machine's frames, as many idle seats as workers, no owner of any frame, and that
/// no frame is known to be owned.
fn idle_parts(
    alloc: Global,
    machine: &Machine,
    workers: u32,
) -> Result<(Places, Vec<WorkerSeat>, Vec<Option<u8>>, Known), NoMemory>
    ensures places { IfOk result (λ parts. parts.0 ≡ machine.now.frames) }
    ensures count { IfOk result (λ parts. vec_len parts.1 ≡ workers) }
    ensures idle { IfOk result (λ parts. (w : ℕ) (seat : WorkerSeat) → slice_get parts.1.items w
        ≡ Some seat → (seat.job ≡ None) × SeatFits parts.0 seat) }
    ensures owners { IfOk result (λ parts. (p : ℕ) → owner_at parts.2.items (Some p) ≡ None) }
    ensures len { IfOk result (λ parts. vec_len parts.2 ≡ frames_before parts.0 (length parts.0)) }
    ensures taken { IfOk result (λ parts. (owners : List (Option ℕ))
        → AreTaken parts.0 owners parts.3) }
{
    let places = Places::new(alloc, machine)?;
    let owners = none_owned(alloc, places.total())?;
    let taken = none_taken(alloc, &places)?;
    let seats = idle_seats(alloc, &places, workers)?;
    Ok((places, seats, owners, taken))
}

/// Whether a plan is that of all accepted commands: no plan of fewer has as many.
fn is_newest(plan: &Plan, space: &PlannedSpace) -> bool
    ensures { result ≡ true → plan.now.version ≡ space.now.version }
{
    plan.version() == space.space().version()
}

impl State {
    /// A core with nothing mapped, version 0 published, each worker idle and no frame owned.
    pub(crate) fn new(
        alloc: Global,
        machine: Machine,
        limits: Limits,
        workers: u32,
    ) -> Result<State, NoMemory>
        requires few { workers ≤ 16 }
        ensures kept { IfOk result IsKept }
        ensures opens { IfOk result (λ state. CoreStandsFor (core_state state) opening) }
        ensures setup { IfOk result (λ state. setup_of (core_state state)
            ≡ record { machine = machine; bounds = limits; workers = workers }) }
    {
        let space = PlannedSpace::new(alloc, machine, limits);
        let Ok(plan) = compile(alloc, space.space()) else {
            drop(space);
            return Err(NoMemory);
        };
        let Ok(parts) = idle_parts(alloc, space.space().machine(), workers) else {
            drop(space);
            drop(plan);
            return Err(NoMemory);
        };
        let (places, seats, owners, taken) = parts;
        Ok(State {
            alloc,
            space,
            plan,
            unpublished: Unpublished::Nothing,
            places,
            seats,
            owners,
            taken,
        })
    }

    /// Copies of the places of the frames, the seats, the owners, and what is known of them.
    fn part_copies(&self) -> Result<(Places, Vec<WorkerSeat>, Vec<Option<u8>>, Known), NoMemory>
        ensures places { IfOk result (λ parts. parts.0 ≡ self.now.space.machine.frames) }
        ensures seats { IfOk result (λ parts. AllZip IsSeatCopy self.now.seats.items
            parts.1.items) }
        ensures owners { IfOk result (λ parts. (parts.2.items ≡ self.now.owners.items)
            × (vec_len parts.2 ≡ vec_len self.now.owners)) }
        ensures taken { IfOk result (λ parts.
            (parts.3.lowest.items ≡ self.now.taken.lowest.items)
            × (parts.3.marks.items ≡ self.now.taken.marks.items)
            × (vec_len parts.3.marks ≡ vec_len self.now.taken.marks)) }
    {
        let places = Places::new(self.alloc, self.space.space().machine())?;
        let owners = Vec::from_slice(self.alloc, &self.owners)?;
        let taken = known_copy(self.alloc, &self.taken)?;
        let seats = seat_copies(self.alloc, &self.seats)?;
        Ok((places, seats, owners, taken))
    }

    /// Returns a copy.
    pub(crate) fn copy(&self) -> Result<State, NoMemory>
        requires kept { IsKept self.now }
        ensures kept { IfOk result IsKept }
        ensures shown { IfOk result (λ copy. core_state copy ≡ core_state self.now) }
    {
        let Ok(space) = self.space.copy(self.alloc) else {
            return Err(NoMemory);
        };
        let Ok(plan) = self.plan.copy(self.alloc) else {
            drop(space);
            return Err(NoMemory);
        };
        let Ok(parts) = self.part_copies() else {
            drop(space);
            drop(plan);
            return Err(NoMemory);
        };
        let (places, seats, owners, taken) = parts;
        Ok(State {
            alloc: self.alloc,
            space,
            plan,
            unpublished: self.unpublished,
            places,
            seats,
            owners,
            taken,
        })
    }

    /// Publishes all accepted commands.
    pub(crate) fn publish(&mut self) -> Result<CoreReply, CoreRefusal>
        requires kept { IsKept self.old }
        ensures { Performs self.old Event.Publish result self.new }
    {
        if is_newest(&self.plan, &self.space) {
            return Ok(CoreReply::Published(self.plan.version()));
        }
        if self
            .unpublished
            .catch_up(self.alloc, &mut self.plan, &self.space)
        {
            self.unpublished = Unpublished::Nothing;
            return Ok(CoreReply::Published(self.plan.version()));
        }
        let Ok(plan) = self.space.plan_copy(self.alloc) else {
            return Err(CoreRefusal::NoMemory);
        };
        drop(replace(&mut self.plan, plan));
        self.unpublished = Unpublished::Nothing;
        Ok(CoreReply::Published(self.plan.version()))
    }

    /// A worker takes the newest published version, and its list for the request.
    pub(crate) fn begin(&mut self, worker: u32, request: Request) -> Result<CoreReply, CoreRefusal>
        requires kept { IsKept self.old }
        ensures { Performs self.old (Event.Begin worker request) result self.new }
    {
        let row = row_for(&self.plan, &self.seats, worker, request)?;
        let version = self.plan.version();
        Ok(self.seats[worker as usize].begin(&self.places, Some(request), version, row))
    }

    /// A worker takes the newest published version, and looks for a frame of a node.
    pub(crate) fn seek(&mut self, worker: u32, node: u8) -> Result<CoreReply, CoreRefusal>
        requires kept { IsKept self.old }
        ensures { Performs self.old (Event.Seek worker node) result self.new }
    {
        seated(&self.seats, worker)?;
        let seat = &self.seats[worker as usize];
        if seat.job.is_some() {
            return Err(CoreRefusal::Busy);
        }
        if self.places.frames(node) == 0 {
            return Err(CoreRefusal::NoSuchNode);
        }
        let newest = self.plan.version();
        Ok(self.seats[worker as usize].begin(&self.places, None, newest, &[node]))
    }

    /// A worker looks at a word of its current node.
    pub(crate) fn look(&mut self, worker: u32, word: u32) -> Result<CoreReply, CoreRefusal>
        requires kept { IsKept self.old }
        ensures { Performs self.old (Event.Look worker word) result self.new }
    {
        seated(&self.seats, worker)?;
        self.seats[worker as usize].look(&self.places, &self.owners, word)
    }

    /// A worker tries a frame of its current node.
    pub(crate) fn attempt(&mut self, worker: u32, frame: Frame) -> Result<CoreReply, CoreRefusal>
        requires kept { IsKept self.old }
        ensures { Performs self.old (Event.Try worker frame) result self.new }
    {
        seated(&self.seats, worker)?;
        let Some(place) = self.places.place(frame.node, frame.number) else {
            return Err(self.seats[worker as usize].no_try());
        };
        if self.owners[place as usize].is_some() {
            return self.seats[worker as usize].attempt(&self.places, true, frame, place);
        }
        let reply = match self.seats[worker as usize].attempt(&self.places, false, frame, place) {
            Ok(reply) => reply,
            Err(refusal) => return Err(refusal),
        };
        self.owners[place as usize] = Some(worker as u8);
        Ok(reply)
    }

    /// A worker gives a frame back.
    pub(crate) fn give(&mut self, worker: u32, frame: Frame) -> Result<CoreReply, CoreRefusal>
        requires kept { IsKept self.old }
        ensures { Performs self.old (Event.Give worker frame) result self.new }
    {
        seated(&self.seats, worker)?;
        let seat = &self.seats[worker as usize];
        if seat.job.is_some() {
            return Err(CoreRefusal::Busy);
        }
        let Some(place) = self.places.place(frame.node, frame.number) else {
            return Err(CoreRefusal::NotOwned);
        };
        let Some(owner) = self.owners[place as usize] else {
            return Err(CoreRefusal::NotOwned);
        };
        if owner as u32 != worker {
            return Err(CoreRefusal::NotOwned);
        }
        self.owners[place as usize] = None;
        self.taken.lower(frame, place);
        Ok(CoreReply::Given)
    }

    /// A touch of a page by a worker.
    pub(crate) fn touch(&mut self, worker: u32, request: Request) -> Result<CoreReply, CoreRefusal>
        requires kept { IsKept self.old }
        ensures kept { IsKept self.new }
        ensures touches { (world : World) → CoreStandsFor (core_state self.old) world →
            (result ≡ touch_answer (setup_of (core_state self.old)) world worker request)
            × CoreStandsFor (core_state self.new) (touch_world (setup_of (core_state self.old))
            world worker request) }
        ensures unchanged { OnErr result (core_state self.new ≡ core_state self.old) }
        ensures setup { setup_of (core_state self.new) ≡ setup_of (core_state self.old) }
    {
        let row = row_for(&self.plan, &self.seats, worker, request)?;
        let found = first_free(&self.places, &self.owners, &self.taken, row);
        let newest = self.plan.version();
        let Some(spot) = found else {
            return Ok(CoreReply::Exhausted(newest));
        };
        let frame = spot.frame;
        self.own(frame, worker);
        Ok(CoreReply::Won(Placement {
            version: newest,
            task: request.task,
            page: request.page,
            node: frame.node,
            frame,
            rank: spot.rank,
        }))
    }

    /// Makes a worker the owner of a frame. Each lower frame of its node has an owner.
    fn own(&mut self, frame: Frame, worker: u32)
        requires kept { IsKept self.old }
        requires some { worker < vec_len self.old.seats }
        requires low { IsLow self.old.places self.old.owners.items frame }
        ensures kept { IsKept self.new }
        ensures owner { (n k : ℕ) → owner_at self.new.owners.items (place_in self.old.places n k)
            ≡ put_frame (λ n k. owner_at self.old.owners.items (place_in self.old.places n k))
            frame (Some worker) n k }
        ensures others { self.new
            ≡ record self.old { owners = self.new.owners; taken = self.new.taken } }
    {
        let Some(place) = self.places.place(frame.node, frame.number) else {
            unreachable!()
        };
        self.owners[place as usize] = Some(worker as u8);
        self.taken.raise(frame, place);
    }
}
