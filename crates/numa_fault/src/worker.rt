//! Fault workers.
ghost use Rattle.std.specs.Prelude.{◌≡◌, [], ◌∷◌, ◌++◌, ◌<◌, ◌≤◌, length, reverse, IsTrue};
ghost use Rattle.std.specs.Prelude.{MatchOption, vec_capacity, ◌↔◌};
ghost use Rattle.numa_fault.specs.Fault.{Faults};
ghost use Rattle.numa_fault.specs.Migration.{Migrates};
ghost use Rattle.numa_fault.specs.Span.{FaultsOnSpan};
ghost use Rattle.numa_fault.specs.Worker.{parts_of, KeepsNothing};
ghost use Rattle.numa_pool.specs.Frames.{Holds, without};
ghost use Rattle.numa_publish.specs.Batches.{Extends};
ghost use Rattle.numa_pool.specs.declared.view.Entry.TheVariants.{Gave};

use crate::answer::Answer;
use crate::migration::migrate_by;
use crate::placing::fault_by;
use crate::refusal::{FaultRefusal, MigrateRefusal, SpanRefusal};
use crate::span::{Span, fault_span_by};
use numa_pool::{PoolSeat, Pools};
use numa_publish::{PlanReader, Receipt};
use numa_requests::{Placement, Request};
use std::alloc::Global;
use std::marker::Model;
use std::mem;

/// One thread's worker for page faults: a reader of published plans, and a seat at the pools.
/// Contracts see both, and so also the number of the reader's enters, and each step of the seat.
#[derive(Drop)]
pub struct FaultWorker {
    // A view has it while a fault is served.
    reader: Option<PlanReader>,
    seat: PoolSeat,
    // While a crew runs: the answers that aren't gathered yet.
    kept: Option<Vec<Answer>>,
}

impl Model for FaultWorker {
    ghost use Rattle.std.specs.Prelude.{IsSome, [], vec_capacity};
    ghost use Rattle.std.specs.Option.{option_map_or};
    ghost use Rattle.numa_fault.specs.Worker.{WorkerState, shown_by};

    ghost Value = { WorkerState };

    ghost view = { λ w. record {
      reader = shown_by w.reader;
      seat = w.seat;
      kept = option_map_or (λ v. v.items) w.kept [];
      room = option_map_or (λ v. vec_capacity v) w.kept 0;
    } };

    ghost invariant = { λ w. IsSome w.reader };
}

impl FaultWorker {
    /// A worker with this reader and this seat.
    pub fn new(reader: PlanReader, seat: PoolSeat) -> FaultWorker
        ensures { result ≡ record { reader = reader; seat = seat; kept = []; room = 0 } }
    {
        FaultWorker {
            reader: Some(reader),
            seat,
            kept: None,
        }
    }

    /// The reader and the seat.
    pub fn into_parts(self) -> (PlanReader, PoolSeat)
        ensures { (result.0 ≡ self.reader) × (result.1 ≡ self.seat) }
    {
        let FaultWorker {
            reader,
            seat,
            kept: _,
        } = self;
        let Some(reader) = reader else { unreachable!() };
        (reader, seat)
    }

    /// Places one page: enters once, and takes a frame of the first node of the page's list that
    /// has one, by the published plan that it sees. It doesn't block or allocate. The pools must be
    /// those of the seat.
    ///
    /// # Errors
    /// The first that applies: `NoView`, the reader couldn't enter, which may happen spuriously;
    /// `BadCpu`, the machine has no such node; `Unmapped` and `Exhausted`, with the plan's version.
    /// Then no frame is taken.
    // Inlined, so that its result doesn't pass through memory, on which each atomic step would
    // wait.
    ///
    /// # Examples
    /// Places a page, and gives its frame up again:
    ///
    /// ```
    /// let Ok(placement) = worker.fault(pools, request) else {
    ///     return 0;
    /// };
    /// worker.release(pools, placement);
    /// ```
    #[inline(always)]
    pub fn fault(&mut self, pools: &Pools, request: Request) -> Result<Placement, FaultRefusal>
        requires { self.old.seat.table ≡ pools.now.table }
        ensures fault { Faults pools.now.frames request
            (parts_of self.old) (parts_of self.new) result }
        ensures table { self.new.seat.table ≡ self.old.seat.table }
        ensures kept { (self.new.kept ≡ self.old.kept) × (self.new.room ≡ self.old.room) }
    {
        let Some(reader) = self.reader.take() else {
            unreachable!()
        };
        let (reader, answer) = fault_by(reader, pools, &mut self.seat, request);
        // The replaced value is `None`; forgetting it avoids a check for something to drop.
        mem::forget(self.reader.replace(reader));
        answer
    }

    /// Places `pages` pages from page `first` on, which the task touches from CPUs of node `cpu`:
    /// enters once, and places all pages by this one plan. Their placements are appended in the
    /// order of the pages. Returns the plan's version. It doesn't block. The pools must be those of
    /// the seat.
    ///
    /// # Errors
    /// The first that applies: `NoView`, the reader couldn't enter; `BadCpu`, the machine has no
    /// node `cpu`; `Unmapped`, a page isn't mapped; `NoMemory`, out of memory: then no frame is
    /// taken. `Exhausted`: no frame was found for some page, and the pages before it are placed.
    /// The span is checked before any memory is allocated.
    pub fn fault_span(
        &mut self,
        alloc: Global,
        pools: &Pools,
        task: u32,
        first: u64,
        pages: usize,
        cpu: u32,
        out: &mut Vec<Placement>,
    ) -> Result<u64, SpanRefusal>
        requires { self.old.seat.table ≡ pools.now.table }
        ensures fault { FaultsOnSpan pools.now.frames
            (record { task = task; first = first; pages = pages; cpu = cpu })
            (parts_of self.old) (parts_of self.new) out.old.items out.new.items result }
        ensures table { self.new.seat.table ≡ self.old.seat.table }
        ensures kept { (self.new.kept ≡ self.old.kept) × (self.new.room ≡ self.old.room) }
    {
        let Some(reader) = self.reader.take() else {
            unreachable!()
        };
        let span = Span {
            task,
            first,
            pages,
            cpu,
        };
        let (reader, answer) = fault_span_by(reader, alloc, pools, &mut self.seat, span, out);
        self.reader = Some(reader);
        answer
    }

    /// What the worker has seen and what a receipt of its desk shows are of one log: if the worker
    /// has seen no later version, what it saw was published before what the receipt shows. It does
    /// nothing at run time.
    pub fn compare(&self, receipt: &Receipt)
        requires { receipt.now.desk ≡ self.now.reader.desk }
        ensures { length self.now.reader.history ≤ length receipt.now.history
            → Extends self.now.reader.history receipt.now.history
            × Extends self.now.reader.versions receipt.now.versions }
    {
        let Some(reader) = &self.reader else {
            unreachable!()
        };
        reader.compare(receipt);
    }

    /// Whether the receipt, of the worker's desk, shows all that the worker has seen.
    pub fn is_within(&self, receipt: &Receipt) -> bool
        requires { receipt.now.desk ≡ self.now.reader.desk }
        ensures is { IsTrue result ↔ length self.now.reader.history ≤ length receipt.now.history }
        ensures extends { IsTrue result
            → Extends self.now.reader.history receipt.now.history
            × Extends self.now.reader.versions receipt.now.versions }
    {
        let Some(reader) = &self.reader else {
            unreachable!()
        };
        reader.compare(receipt);
        reader.is_within(receipt)
    }

    /// Whether the worker's seat holds the frame of the placement.
    pub fn owns(&self, placement: &Placement) -> bool
        ensures { IsTrue result ↔ Holds self.now.seat.held placement.now.frame }
    {
        self.seat.holds(&placement.frame)
    }

    /// Gives up the frame of the placement, and no other. The worker's seat must hold it (`owns`).
    pub fn release(&mut self, pools: &Pools, placement: Placement)
        requires table { self.old.seat.table ≡ pools.now.table }
        requires owned { Holds self.old.seat.held placement.frame }
        ensures reader { self.new.reader ≡ self.old.reader }
        ensures table { self.new.seat.table ≡ self.old.seat.table }
        ensures held { self.new.seat.held
            ≡ without placement.frame.node placement.frame.number self.old.seat.held }
        ensures step { self.new.seat.log ≡ Gave placement.frame ∷ self.old.seat.log }
        ensures no_other { self.new.seat.unlogged ≡ self.old.seat.unlogged }
        ensures kept { (self.new.kept ≡ self.old.kept) × (self.new.room ≡ self.old.room) }
    {
        pools.give(&mut self.seat, placement.frame);
    }

    /// Moves a page to a node: takes a frame of the node, and then gives up the frame that the page
    /// had. The placement that it returns has the version, the rank, the task and the page of the
    /// one before. A page that lies on the node gets another frame of it. It doesn't block or
    /// allocate. The pools must be those of the seat, which must hold the frame (`owns`).
    ///
    /// # Errors
    /// The first that applies, with the placement, whose page stays where it is: `NoSuchNode`, the
    /// machine lacks the node or the node has no frames; `Exhausted`, each of its frames was found
    /// taken.
    pub fn migrate(
        &mut self,
        pools: &Pools,
        placement: Placement,
        node: u8,
    ) -> Result<Placement, MigrateRefusal>
        requires table { self.old.seat.table ≡ pools.now.table }
        requires owned { Holds self.old.seat.held placement.frame }
        ensures migration { Migrates pools.now.frames node placement self.old.seat self.new.seat
            result }
        ensures reader { self.new.reader ≡ self.old.reader }
        ensures table { self.new.seat.table ≡ self.old.seat.table }
        ensures kept { (self.new.kept ≡ self.old.kept) × (self.new.room ≡ self.old.room) }
    {
        migrate_by(pools, &mut self.seat, placement, node)
    }

    /// Keeps answers from now on, as many as there is room for.
    pub(crate) fn keep(&mut self, answers: Vec<Answer>)
        requires { answers.items ≡ [] }
        ensures same { parts_of self.new ≡ parts_of self.old }
        ensures room { (self.new.kept ≡ []) × (self.new.room ≡ vec_capacity answers) }
    {
        self.kept = Some(answers);
    }

    /// Keeps one more answer.
    pub(crate) fn note(&mut self, answer: Answer)
        requires { length self.old.kept < self.old.room }
        ensures same { parts_of self.new ≡ parts_of self.old }
        ensures kept { self.new.kept ≡ self.old.kept ++ answer ∷ [] }
        ensures room { self.old.room ≤ self.new.room }
    {
        let Some(answers) = &mut self.kept else {
            unreachable!()
        };
        let Ok(()) = answers.push(answer) else {
            unreachable!()
        };
    }

    /// Reverses the answers, so that the first one is handed out first.
    pub(crate) fn turn_round(&mut self)
        ensures same { parts_of self.new ≡ parts_of self.old }
        ensures kept { self.new.kept ≡ reverse self.old.kept }
    {
        if let Some(answers) = &mut self.kept {
            answers.reverse();
        }
    }

    /// Hands out the last answer.
    pub(crate) fn hand_out(&mut self) -> Option<Answer>
        ensures same { parts_of self.new ≡ parts_of self.old }
        ensures kept { MatchOption result ((self.old.kept ≡ []) × (self.new.kept ≡ []))
            (λ answer. self.old.kept ≡ self.new.kept ++ answer ∷ []) }
    {
        match &mut self.kept {
            Some(answers) => answers.pop(),
            None => None,
        }
    }

    /// Swaps all answers with an empty list.
    pub(crate) fn hand_over(&mut self, answers: &mut Vec<Answer>)
        requires { answers.old.items ≡ [] }
        ensures same { parts_of self.new ≡ parts_of self.old }
        ensures all { answers.new.items ≡ reverse self.old.kept }
    {
        if let Some(kept) = &mut self.kept {
            kept.reverse();
            mem::swap(kept, answers);
        }
    }

    /// Keeps no more answers, and frees their room.
    pub(crate) fn keep_nothing(&mut self)
        ensures same { parts_of self.new ≡ parts_of self.old }
        ensures nothing { KeepsNothing self.new }
    {
        self.kept = None;
    }
}
