//! Crews: several workers at once, each in its own thread.
ghost use Rattle.std.specs.Prelude.{◌≡◌, ℕ, ◌+◌, ◌/◌, ◌<◌, ◌≤◌, [], ◌∷◌, ◌++◌, length};
ghost use Rattle.std.specs.Prelude.{reverse, IsSome, ◌↔◌};
ghost use Rattle.std.specs.Prelude.{slice_index_or, IsTrue, IfOk, IfErr, IfSome, OnOk, OnErr};
ghost use Rattle.std.specs.List.{All};
ghost use Rattle.numa_fault.specs.Crew.{column, AreApart, AreAtEnd, ArePlacedApart, AreWithin};
ghost use Rattle.numa_fault.specs.Crew.{CrewRefuses, IsCrew};
ghost use Rattle.numa_fault.specs.Crew.{EnlistsOne, IsEnded, IsFirstCrew, IsJoined};
ghost use Rattle.numa_pool.specs.Steps.{no_other};
ghost use Rattle.numa_fault.specs.Crew.{SameParts, Serves, ServesEach};
ghost use Rattle.numa_fault.specs.Worker.{parts_of, KeepsNothing};
ghost use Rattle.numa_fault.specs.declared.worker.FaultWorker.{FaultWorker};
ghost use Rattle.numa_publish.specs.Shown.{DeskIdentity};
ghost use Rattle.numa_publish.specs.declared.reader.PlanReader.{PlanReader};

use crate::answer::Answer;
use crate::gathering::{gather, give_back, make_room};
use crate::serving::serve;
use crate::worker::FaultWorker;
use numa_machine::NoMemory;
use numa_pool::{Closed, PoolSeat, Pools};
use numa_publish::{PlanReader, Receipt};
use numa_requests::Request;
use std::alloc::Global;
use std::thread;
use std::thread::Threads;

/// Called before and after each fault of a crew, by the thread that serves it. The threads share
/// it.
pub trait Gate {
    /// Called once before the fault for request number `request` of the list, from 0.
    fn before(&self, request: usize);

    /// Called once after it.
    fn after(&self, request: usize);
}

/// Why a crew didn't run. No frame was taken, and no worker entered.
#[derive(Clone, Copy, PartialEq, Eq, Debug, Drop)]
pub enum CrewRefusal {
    /// There is no worker, or there are more than 16.
    NoWorkers,
    /// Out of memory for the answers.
    NoMemory,
}

/// Several workers at once.
pub struct Crew;

impl Crew {
    /// Serves the requests, each worker in its own thread (if the system starts none, in another
    /// thread): of K workers, worker w serves requests w, w + K, w + 2 K, .., in this order. Answer
    /// i is that to request i. All memory is allocated before a thread starts. The pools must be
    /// those of each seat. It returns after all calls of the gate have returned.
    ///
    /// # Errors
    /// `NoWorkers`: there are 0 workers or more than 16; `NoMemory`: out of memory.
    pub fn run<R: Threads + Sync, G: Gate + Sync>(
        rt: &R,
        alloc: Global,
        workers: &mut [FaultWorker],
        pools: &Pools,
        requests: &[Request],
        gate: &G,
    ) -> Result<Vec<Answer>, CrewRefusal>
        requires { All (λ (w : FaultWorker). w.seat.table ≡ pools.now.table) workers.old }
        ensures tables { All (λ (w : FaultWorker). w.seat.table ≡ pools.now.table) workers.new }
        ensures crew { OnOk result (IsCrew (length workers.old)) }
        ensures all { IfOk result (λ answers. length answers.items ≡ length requests.now) }
        ensures each { IfOk result (λ answers.
            ServesEach pools.now.frames requests.now workers.old workers.new answers.items) }
        ensures refusal { IfErr result (λ refusal. CrewRefuses (length workers.old) refusal) }
        ensures same { OnErr result (SameParts workers.old workers.new) }
        ensures rooms { All KeepsNothing workers.old → All KeepsNothing workers.new }
    {
        let count = workers.len();
        if count == 0 || count > 16 {
            return Err(CrewRefusal::NoWorkers);
        }
        let Ok(mut answers) = Vec::with_capacity(alloc, requests.len()) else {
            return Err(CrewRefusal::NoMemory);
        };
        let Ok(()) = make_room(alloc, workers, requests.len() / count + 1) else {
            give_back(workers);
            return Err(CrewRefusal::NoMemory);
        };
        serve_all(rt, workers, pools, requests, gate);
        gather(workers, requests.len(), &mut answers);
        give_back(workers);
        Ok(answers)
    }
}

impl Crew {
    /// Joins the seats of workers. No frame belonged to two of them. The frames are the seat's now,
    /// and their logs are among what it tells. `None` without workers. It doesn't allocate.
    pub fn join(pools: &Pools, workers: Vec<FaultWorker>) -> Option<PoolSeat>
        requires { All (λ (w : FaultWorker). w.seat.table ≡ pools.now.table) workers.items }
        ensures apart { AreApart workers.items }
        ensures some { IsSome result ↔ (0 < length workers.items) }
        ensures seat { IfSome result (λ seat. (seat.table ≡ pools.now.table)
            × IsJoined workers.items seat) }
    {
        let mut workers = workers;
        let Some(last) = workers.pop() else {
            return None;
        };
        let (_, mut seat) = last.into_parts();
        while let Some(worker) = workers.pop() {
            let (_, other) = worker.into_parts();
            pools.join(&mut seat, other);
        }
        Some(seat)
    }

    /// Workers with these readers: the last one has the first seat of the pools, and each other one
    /// has a seat that is split off it. Of no readers there are no workers.
    ///
    /// # Errors
    /// `NoMemory`: out of memory for the workers or for a seat.
    pub fn enlist(
        alloc: Global,
        pools: &Pools,
        seat: PoolSeat,
        readers: Vec<PlanReader>,
    ) -> Result<Vec<FaultWorker>, NoMemory>
        requires { (seat.table ≡ pools.now.table) × (seat.log ≡ []) × (seat.unlogged ≡ no_other) }
        ensures seats { IfOk result (λ workers. IsFirstCrew workers.items
            × All (λ (w : FaultWorker). w.seat.table ≡ pools.now.table) workers.items) }
        ensures number { IfOk result (λ workers. length workers.items ≡ length readers.items) }
        ensures desks { (desk : DeskIdentity)
            → All (λ (r : PlanReader). r.desk ≡ desk) readers.items
            → IfOk result (λ workers.
            All (λ (w : FaultWorker). w.reader.desk ≡ desk) workers.items) }
    {
        let mut readers = readers;
        let mut first = seat;
        let mut workers = Vec::new(alloc);
        let Some(last) = readers.pop() else {
            return Ok(workers);
        };
        while let Some(reader) = readers.pop() {
            enlist_one(alloc, pools, &mut first, reader, &mut workers)?;
        }
        enlist_last(last, first, &mut workers)?;
        Ok(workers)
    }

    /// Whether the receipt, of the workers' desk, shows all that they have seen.
    pub fn are_within(workers: &[FaultWorker], receipt: &Receipt) -> bool
        requires { All (λ (w : FaultWorker). w.reader.desk ≡ receipt.now.desk) workers.now }
        ensures is { IsTrue result ↔ All (λ (w : FaultWorker).
            length w.reader.history ≤ length receipt.now.history) workers.now }
        ensures within { IsTrue result
            → AreWithin receipt.now.history receipt.now.versions workers.now }
    {
        for w in 0..workers.len() {
            if !workers[w].is_within(receipt) {
                return false;
            }
        }
        true
    }

    /// Ends a crew that has run: joins its seats, and ends the pools. The steps of all seats have
    /// one order, of which the steps of the crew's seats are parts. Tells also whether the receipt,
    /// of the workers' desk, shows all that they have seen. `None` without workers.
    pub fn end(pools: Pools, workers: Vec<FaultWorker>, receipt: &Receipt) -> Option<(Closed, bool)>
        requires tables { All (λ (w : FaultWorker). w.seat.table ≡ pools.table) workers.items }
        requires desk { All (λ (w : FaultWorker). w.reader.desk ≡ receipt.now.desk)
            workers.items }
        ensures apart { AreApart workers.items }
        ensures some { IsSome result ↔ (0 < length workers.items) }
        ensures end { IfSome result (λ r. AreAtEnd pools.frames workers.items r.0.taken) }
        ensures within { IfSome result (λ r. IsTrue r.1
            → AreWithin receipt.now.history receipt.now.versions workers.items) }
    {
        let within = Crew::are_within(&workers, receipt);
        let Some(seat) = Crew::join(&pools, workers) else {
            return None;
        };
        Some((pools.close(seat), within))
    }

    /// Lets a crew serve the requests (`run`), and ends it (`end`). No two answers place one frame.
    ///
    /// # Errors
    /// Those of `run`.
    pub fn run_to_end<R: Threads + Sync, G: Gate + Sync>(
        rt: &R,
        alloc: Global,
        workers: Vec<FaultWorker>,
        pools: Pools,
        requests: &[Request],
        gate: &G,
        receipt: &Receipt,
    ) -> Result<(Vec<Answer>, Closed, bool), CrewRefusal>
        requires tables { All (λ (w : FaultWorker). w.seat.table ≡ pools.table) workers.items }
        requires desk { All (λ (w : FaultWorker). w.reader.desk ≡ receipt.now.desk)
            workers.items }
        ensures refusal { IfErr result (λ refusal. CrewRefuses (length workers.items) refusal) }
        ensures apart { IfOk result (λ r. ArePlacedApart r.0.items) }
        ensures end { IfOk result (λ r.
            (ended : IsEnded pools.frames requests.now workers.items r.0.items r.1.taken)
            × (IsTrue r.2 → AreWithin receipt.now.history receipt.now.versions ended.after)) }
    {
        let mut workers = workers;
        let answers = Crew::run(rt, alloc, &mut workers, &pools, requests, gate)?;
        let Some((closed, within)) = Crew::end(pools, workers, receipt) else {
            unreachable!()
        };
        Ok((answers, closed, within))
    }
}

/// Adds a worker with this reader and a seat that is split off the first one.
fn enlist_one(
    alloc: Global,
    pools: &Pools,
    first: &mut PoolSeat,
    reader: PlanReader,
    workers: &mut Vec<FaultWorker>,
) -> Result<(), NoMemory>
    requires { first.old.table ≡ pools.now.table }
    ensures table { first.new.table ≡ first.old.table }
    ensures one { OnOk result
        (EnlistsOne reader workers.old.items workers.new.items first.old first.new) }
{
    let seat = pools.split(alloc, first)?;
    let Ok(()) = workers.push(FaultWorker::new(reader, seat)) else {
        return Err(NoMemory);
    };
    Ok(())
}

/// Adds the worker with the first seat.
fn enlist_last(
    reader: PlanReader,
    first: PoolSeat,
    workers: &mut Vec<FaultWorker>,
) -> Result<(), NoMemory>
    ensures { OnOk result (workers.new.items ≡ workers.old.items
        ++ record { reader = reader; seat = first; kept = []; room = 0 } ∷ []) }
{
    let Ok(()) = workers.push(FaultWorker::new(reader, first)) else {
        return Err(NoMemory);
    };
    Ok(())
}

/// Each worker serves its requests in its own thread, and keeps their answers, the last one first.
/// It has room for its share of them and at most one more.
fn serve_all<R: Threads + Sync, G: Gate + Sync>(
    rt: &R,
    workers: &mut [FaultWorker],
    pools: &Pools,
    requests: &[Request],
    gate: &G,
)
    requires crew { IsCrew (length workers.old) }
    requires ready { All (λ (w : FaultWorker). (w.seat.table ≡ pools.now.table) × (w.kept ≡ [])
        × (w.room ≡ length requests.now / length workers.old + 1)) workers.old }
    ensures tables { All (λ (w : FaultWorker). w.seat.table ≡ pools.now.table) workers.new }
    ensures each { (w : ℕ) (d : FaultWorker) → w < length workers.old
        → Serves pools.now.frames (column (length workers.old) w requests.now)
        (parts_of (slice_index_or workers.old w d))
        (parts_of (slice_index_or workers.new w d))
        (reverse (slice_index_or workers.new w d).kept) }
{
    let count = workers.len();
    thread::for_each_mut(
        rt,
        workers,
        16,
        &|w, worker: &mut FaultWorker|
            requires { (0 < count) × (count ≤ 16)
                × (worker.old.seat.table ≡ pools.now.table) × (worker.old.kept ≡ [])
                × (length requests.now / count + 1 ≤ worker.old.room) }
            ensures { (worker.new.seat.table ≡ pools.entry.now.table)
                × Serves pools.entry.now.frames (column count w requests.entry.now)
                (parts_of worker.old) (parts_of worker.new) (reverse worker.new.kept) }
        {
            serve(worker, pools, requests, gate, w, count);
        },
    );
}
