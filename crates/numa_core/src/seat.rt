//! The state of a worker: its search, the list that it took and the frames that it met.
ghost use Rattle.std.specs.Prelude.{◌≡◌, ℕ, ◌*◌, ◌<◌, ◌≤◌, true, false, not, None, Some, IfOk};
ghost use Rattle.std.specs.Prelude.{IfErr, IfSome, OnOk, OnErr, MatchOption, is_some, length};
ghost use Rattle.std.specs.Prelude.{vec_len};
ghost use Rattle.std.specs.Prelude.{slice_index};
ghost use Rattle.std.specs.Option.{option_map_or};
ghost use Rattle.numa_core.specs.World.{Setup, World, fresh};
ghost use Rattle.numa_core.specs.Steps.{goes_on, going_on};
ghost use Rattle.numa_core.specs.Standing.{frames_before, owner_at, place_in, is_met, met_at};
ghost use Rattle.numa_core.specs.Standing.{frame_search_in};
ghost use Rattle.numa_core.specs.Seats.{busy_at, busy_of, seat_frame_search, HasRoom};
ghost use Rattle.numa_requests.specs.declared.event.CoreReply.{CoreReply};
ghost use Rattle.numa_core.specs.Seats.{IsPassed};
ghost use Rattle.numa_core.specs.Seats.{IsCursor, IsAllMet, IsSeatCopy};
ghost use Rattle.numa_core.specs.Seats.{SeatFits, SeatLooks, SeatTries};
ghost use Rattle.numa_core.specs.declared.seat.OngoingSearch.{OngoingSearch};

use crate::places::Places;
use crate::tables::{clear, is_met, meet, meet_owned, none_met};
use arrayvec::ArrayVec;
use numa_machine::Frame;
use numa_requests::{CoreRefusal, CoreReply, Placement, Request};
use std::alloc::{AllocError, Global};

/// A place in a list of nodes, from 0, and the number of a frame of the node there.
#[derive(Clone, Copy)]
pub(crate) struct Cursor {
    pub rank: u32,
    pub next: u32,
}

/// The search of a busy worker: its request, or none where it seeks a frame of one node, the
/// version that it took, and its cursor, the lowest unmet frame of its current node.
#[derive(Clone, Copy)]
pub(crate) struct OngoingSearch {
    pub request: Option<Request>,
    pub version: u64,
    pub at: Cursor,
}

/// A worker, with room for a list and for a bit for each frame of the machine.
#[derive(Drop)]
pub(crate) struct WorkerSeat {
    pub job: Option<OngoingSearch>,
    pub nodes: ArrayVec<u8, 256>,
    pub met: Vec<u64>,
}

/// The lowest unmet frame of a node from this number on.
fn first_unmet(places: &Places, met: &Vec<u64>, node: u8, from: u32) -> Option<u32>
    requires { HasRoom places.now (vec_len met.now) }
    ensures some { IfSome result (λ next. (from ≤ next) × (next < slice_index places.now node)
        × (met_at places.now met.now.items node next ≡ false)
        × ((k : ℕ) → from ≤ k → k < next → met_at places.now met.now.items node k ≡ true)) }
    ensures none { (k : ℕ) → result ≡ None → from ≤ k → k < slice_index places.now node →
        met_at places.now met.now.items node k ≡ true }
{
    places.lowest(
        node,
        from,
        |place|
            requires { place < 64 * vec_len met.now }
            ensures { result ≡ not (is_met met.entry.now.items (Some place)) }
        { !is_met(met, place) },
    )
}

/// The lowest unmet frame of the first listed node with one; everything before `from` is met.
fn first_from(places: &Places, nodes: &[u8], met: &Vec<u64>, from: Cursor) -> Option<Cursor>
    requires room { HasRoom places.now (vec_len met.now) }
    requires few { length nodes.now ≤ 256 }
    requires passed { IsPassed places.now nodes.now met.now.items from.rank from.next }
    ensures { MatchOption result (IsAllMet places.now nodes.now met.now.items) (λ at.
        IsCursor places.now nodes.now met.now.items at.rank at.next) }
{
    let mut next = from.next;
    for rank in from.rank as usize..nodes.len() {
        let found = first_unmet(places, met, nodes[rank], next);
        if let Some(next) = found {
            return Some(Cursor {
                rank: rank as u32,
                next,
            });
        }
        next = 0;
    }
    None
}

/// Replaces the nodes by those of the row.
fn take_row(nodes: &mut ArrayVec<u8, 256>, row: &[u8])
    requires { length row.now ≤ 256 }
    ensures { nodes.new.items ≡ row.now }
{
    nodes.clear();
    let Ok(()) = nodes.try_extend_from_slice(row) else {
        unreachable!()
    };
}

/// What ends a search that wins no frame.
fn over_by(job: OngoingSearch) -> CoreReply
    ensures { result ≡ option_map_or (λ request. CoreReply.Exhausted job.version) job.request
        CoreReply.Full }
{
    match job.request {
        Some(_) => CoreReply::Exhausted(job.version),
        None => CoreReply::Full,
    }
}

/// What a search is answered that wins the frame.
fn won_by(job: OngoingSearch, frame: Frame) -> CoreReply
    ensures { result ≡ option_map_or (λ request. CoreReply.Won (record {
      version = job.version;
      task = request.task;
      page = request.page;
      node = frame.node;
      frame = frame;
      rank = job.at.rank;
    })) job.request (CoreReply.Found frame) }
{
    match job.request {
        Some(request) => CoreReply::Won(Placement {
            version: job.version,
            task: request.task,
            page: request.page,
            node: frame.node,
            frame,
            rank: job.at.rank,
        }),
        None => CoreReply::Found(frame),
    }
}

impl WorkerSeat {
    /// An idle worker, with room for these frames.
    pub(crate) fn new(alloc: Global, places: &Places) -> Result<WorkerSeat, AllocError>
        ensures idle { IfOk result (λ seat. seat.job ≡ None) }
        ensures fits { IfOk result (λ seat. SeatFits places.now seat) }
    {
        let met = none_met(alloc, places.total())?;
        Ok(WorkerSeat {
            job: None,
            nodes: ArrayVec::new(),
            met,
        })
    }

    /// Returns a copy, with room for as many frames.
    pub(crate) fn copy(&self, alloc: Global) -> Result<WorkerSeat, AllocError>
        ensures { IfOk result (IsSeatCopy self.now) }
    {
        let mut nodes = ArrayVec::new();
        take_row(&mut nodes, self.nodes.as_slice());
        let met = Vec::from_slice(alloc, &self.met)?;
        Ok(WorkerSeat {
            job: self.job,
            nodes,
            met,
        })
    }

    /// Goes on with the search if a listed node has an unmet frame, else becomes idle. Everything
    /// before the search's cursor is met.
    fn settle(&mut self, places: &Places, job: OngoingSearch) -> CoreReply
        requires room { HasRoom places.now (vec_len self.old.met) }
        requires passed { IsPassed places.now self.old.nodes.items self.old.met.items
            job.at.rank job.at.next }
        ensures reply { (s : Setup) → places.now ≡ s.machine.frames →
            result ≡ goes_on s (frame_search_in places.now
            (busy_at job self.old.nodes.items self.old.met.items)) }
        ensures frame_search { (s : Setup) → places.now ≡ s.machine.frames
            → seat_frame_search places.now self.new
            ≡ going_on s (frame_search_in places.now
            (busy_at job self.old.nodes.items self.old.met.items)) }
        ensures fits { SeatFits places.now self.new }
    {
        let Some(at) = first_from(places, self.nodes.as_slice(), &self.met, job.at) else {
            self.job = None;
            return over_by(job);
        };
        self.job = Some(OngoingSearch {
            request: job.request,
            version: job.version,
            at,
        });
        CoreReply::Still
    }

    /// Takes the version and the list for a request, or for none the node that is sought.
    pub(crate) fn begin(
        &mut self,
        places: &Places,
        request: Option<Request>,
        version: u64,
        row: &[u8],
    ) -> CoreReply
        requires few { length row.now ≤ 256 }
        requires fits { SeatFits places.now self.old }
        ensures reply { (s : Setup) → places.now ≡ s.machine.frames →
            result ≡ goes_on s (fresh request version row.now) }
        ensures frame_search { (s : Setup) → places.now ≡ s.machine.frames
            → seat_frame_search places.now self.new
            ≡ going_on s (fresh request version row.now) }
        ensures fits { SeatFits places.now self.new }
    {
        take_row(&mut self.nodes, row);
        clear(&mut self.met);
        let at = Cursor { rank: 0, next: 0 };
        self.settle(
            places,
            OngoingSearch {
                request,
                version,
                at,
            },
        )
    }

    /// The worker's search, and its current node.
    ///
    /// # Errors
    /// `Idle`: it has no search.
    fn current(&self) -> Result<(OngoingSearch, u8), CoreRefusal>
        requires listed { (job : OngoingSearch) → self.now.job ≡ Some job →
            job.at.rank < length self.now.nodes.items }
        ensures busy { IfOk result (λ at. (self.now.job ≡ Some at.0)
            × (at.1 ≡ slice_index self.now.nodes.items at.0.at.rank)) }
        ensures idle { IfErr result (λ refusal. (refusal ≡ CoreRefusal.Idle)
            × (self.now.job ≡ None)) }
    {
        let Some(job) = self.job else {
            return Err(CoreRefusal::Idle);
        };
        Ok((job, self.nodes.as_slice()[job.at.rank as usize]))
    }

    /// Looks at a word of the current node.
    pub(crate) fn look(
        &mut self,
        places: &Places,
        owners: &Vec<Option<u8>>,
        word: u32,
    ) -> Result<CoreReply, CoreRefusal>
        requires owners { vec_len owners.now ≡ frames_before places.now (length places.now) }
        requires fits { SeatFits places.now self.old }
        ensures looks { (s : Setup) (world : World) → places.now ≡ s.machine.frames →
            ((n k : ℕ) → world.owner n k ≡ owner_at owners.now.items (place_in places.now n k)) →
            SeatLooks places.now s world word self.old result self.new }
        ensures unchanged { OnErr result (self.new ≡ self.old) }
        ensures fits { SeatFits places.now self.new }
    {
        let (job, node) = self.current()?;
        let frames = places.frames(node);
        if word >= 64 || 64 * word >= frames {
            return Err(CoreRefusal::BadTry);
        }
        let first = places.first(node);
        let end = frames.min(64 * word + 64);
        meet_owned(&mut self.met, owners, first + 64 * word, first + end);
        Ok(self.settle(places, job))
    }

    /// The refusal of a Try of a frame that the machine lacks.
    pub(crate) fn no_try(&self) -> CoreRefusal
        ensures { MatchOption self.now.job (result ≡ CoreRefusal.Idle) (λ job. result
            ≡ CoreRefusal.BadTry) }
    {
        if self.job.is_none() {
            return CoreRefusal::Idle;
        }
        CoreRefusal::BadTry
    }

    /// Tries the frame at a place; `owned` says whether it has an owner.
    pub(crate) fn attempt(
        &mut self,
        places: &Places,
        owned: bool,
        frame: Frame,
        place: u32,
    ) -> Result<CoreReply, CoreRefusal>
        requires place { place_in places.now frame.node frame.number ≡ Some place }
        requires within { place < frames_before places.now (length places.now) }
        requires fits { SeatFits places.now self.old }
        ensures tries { (s : Setup) → places.now ≡ s.machine.frames →
            SeatTries places.now s owned frame self.old result self.new }
        ensures unchanged { OnErr result (self.new ≡ self.old) }
        ensures fits { SeatFits places.now self.new }
    {
        let (job, node) = self.current()?;
        if node != frame.node {
            return Err(CoreRefusal::BadTry);
        }
        if is_met(&self.met, place) {
            return Err(CoreRefusal::BadTry);
        }
        if owned {
            meet(&mut self.met, place);
            return Ok(self.settle(places, job));
        }
        self.job = None;
        Ok(won_by(job, frame))
    }
}
