//! Running machines.
ghost use Rattle.std.specs.Prelude.{◌≡◌, Bool, List, [], None, Option, Some, true, false, length};
ghost use Rattle.std.specs.Prelude.{IfOk, MatchResult};
ghost use Rattle.numa_lines.specs.Written.{Said};
ghost use Rattle.numa_core.specs.Standing.{setup_of};
ghost use Rattle.numa_space.specs.Standing.{StandsFor};
ghost use Rattle.numa_requests.specs.declared.command.Command.{Command};
ghost use Rattle.numa_run.specs.Answers.{State};
ghost use Rattle.numa_run.specs.Judged.{question_cause};
ghost use Rattle.numa_run.specs.Questions.{question_text};
ghost use Rattle.numa_run.specs.Listings.{both_listing};
ghost use Rattle.numa_placed.specs.Shifts.{AreRooms};
ghost use Rattle.numa_huge.specs.Moves.{HugeMemory};
ghost use Rattle.numa_huge.specs.Tallies.{StandsForHuge};
ghost use Rattle.numa_page_state.specs.Huge.{has_huge_in};
ghost use Rattle.numa_page_state.specs.Lying.{Arrival, Lying};
ghost use Rattle.numa_page_state.specs.Outcomes.{Lack, is_starved, rooms_of};
ghost use Rattle.numa_page_state.specs.Standing.{ArrivedAs, Lies};
ghost use Rattle.numa_run.specs.ArrivedTexts.{arrival_with, rooms_line};
ghost use Rattle.numa_run.specs.HugeLines.{pools_on};
ghost use Rattle.numa_run.specs.MovedTexts.{both_line};
ghost use Rattle.numa_run.specs.Obeying.{bind_nothing, command_outcome};
ghost use Rattle.numa_run.specs.PageLines.{arrived_text, work_served};
ghost use Rattle.numa_run.specs.PoolTexts.{pools_line};
ghost use Rattle.numa_run.specs.Standing.{Does, RunsAs, Serves, Takes};
ghost use Rattle.numa_run.specs.States.{process_on};
ghost use Rattle.numa_run.specs.Work.{kept_outcome, release_outcome, touch_outcome, won_by};
ghost use Rattle.numa_script.specs.Replies.{reply_to};

use crate::arrived::{say_arrived, say_both_arrived, say_rooms};
use crate::judging::{cause_at, refusal_by_plan};
use crate::listing::{say_each, say_there};
use crate::moved::{say_both, say_small};
use crate::pools::say_pools;
use crate::questions::{fault_at, say_by_plan, say_place_in};
use numa_core::Core;
use numa_huge::HugePages;
use numa_lines::Watched;
use numa_machine::NoMemory;
use numa_maps::{RecordRefusal, Resident};
use numa_page_state::arrived::untouched;
use numa_page_state::huge::has_huge_in;
use numa_page_state::state::is_there;
use numa_page_state::{Arrived, PageState};
use numa_placed::Rooms;
use numa_pools::Pools;
use numa_requests::{CoreRefusal, CoreReply, Event, HugeRefusal, Placement, Request};
use numa_script::commands::empty_bind;
use numa_script::tell::{say_ranges, say_starved};
use numa_script::{Line, Question, Reply, Win, WordError, Work};
use std::alloc::Global;
use std::io::Write;

/// The placement that was won, or the reply if none was.
fn won_by(answer: Result<CoreReply, CoreRefusal>) -> Result<Placement, Reply>
    ensures { MatchResult result (λ placement. won_by answer ≡ Some placement)
        (λ reply. (won_by answer ≡ None) × (reply ≡ reply_to answer)) }
{
    let reply = Reply::to_event(&answer);
    match answer {
        Ok(done) => match done {
            CoreReply::Won(placement) => Ok(placement),
            _ => Err(reply),
        },
        Err(_) => Err(reply),
    }
}

/// Makes the plan of all accepted commands, if there is memory for it. It is a separate function,
/// so that a question about a machine with a plan uses no stack for it.
#[cold]
#[inline(never)]
fn make_plan(core: &mut Core)
    ensures { core.new ≡ core.old }
{
    let _ = core.prepare();
}

/// Makes that plan, if there is none.
#[inline(always)]
fn prepare(core: &mut Core)
    ensures { core.new ≡ core.old }
{
    if core.accepted_plan().is_none() {
        make_plan(core);
    }
}

/// Answers `place` by the space, if that costs less than making the plan. Returns whether it did.
fn answered_by_space<W: Write>(core: &mut Core, question: Question, output: &mut Watched<W>) -> bool
    ensures same { core.new ≡ core.old }
    ensures answer { result ≡ true → (history : List Command) → StandsFor core.old.space history
        → Said W.contents output.old output.new
        (question_text false core.old.space.machine history question) }
    ensures unsaid { result ≡ false → output.new ≡ output.old }
{
    let Question::Place { task, address, cpu } = question else {
        return false;
    };
    if !core.answers_without_plan() {
        return false;
    }
    say_place_in(core.space(), fault_at(task, address, cpu), output);
    true
}

/// How many more pages each node takes.
fn rooms_in(pages: &Option<PageState>) -> Rooms
    ensures { (lying : Lying) → Lies pages.now lying → AreRooms result (rooms_of lying.room) }
{
    let Some(kept) = pages else {
        return Rooms::endless();
    };
    match kept.rooms() {
        Some(rooms) => *rooms,
        None => Rooms::endless(),
    }
}

/// What the last first touches did to pages of 4 KiB.
fn arrived_in(pages: &Option<PageState>) -> Arrived
    ensures { (lying : Lying) → Lies pages.now lying → ArrivedAs result lying.arrived }
{
    match pages {
        Some(kept) => *kept.arrived(),
        None => untouched(),
    }
}

/// Writes what the last first touches did to pages of both sizes, if a span had some of 2 MiB.
fn say_arrivals<W: Write>(
    output: &mut Watched<W>,
    version: u64,
    done: &Arrived,
    huge: &Option<HugePages>,
)
    ensures { (arrival : Arrival) (memory : Option HugeMemory) → ArrivedAs done.now arrival
        → StandsForHuge huge.now memory
        → Said W.contents output.old output.new (arrival_with memory version arrival) }
{
    match huge {
        Some(kept) => match &kept.arrived {
            Some(arrived) => say_both_arrived(output, version, done, arrived),
            None => say_arrived(output, version, done),
        },
        None => say_arrived(output, version, done),
    }
}

/// The number of pages of 4 KiB below address 2^47.
const MOST_SMALL: u64 = 1 << 35;

/// Whether a page of 4 KiB is a part of one of 2 MiB.
fn is_huge_part(huge: &Option<HugePages>, page: u64) -> bool
    ensures { (memory : Option HugeMemory) → StandsForHuge huge.now memory
        → result ≡ has_huge_in memory page 1 }
{
    if page >= MOST_SMALL {
        return false;
    }
    has_huge_in(huge, page, 1)
}

/// What a line came to: it has been carried out, or its answer shows what is.
#[derive(Drop)]
pub enum Taken {
    /// A reply; the line has been carried out.
    Reply(Reply),
    /// A question, whose answer is still to be written.
    Question(Question),
    /// The ranges are still to be listed, for a task.
    Maps(u32),
    /// What the last move did is still to be told.
    Moved,
    /// How many more pages nodes take is still to be told.
    Rooms,
    /// Pages were touched, and what came of it is still to be told.
    Arrived,
    /// What the pools of pages of 2 MiB have is still to be told.
    Pools,
}

/// A running machine: its core, which keeps the plan that answers questions, the placed pages, and
/// where other pages lie, once a line says so.
#[derive(Drop)]
pub(crate) struct Running {
    pub core: Core,
    pub resident: Resident,
    pub pages: Option<PageState>,
    pub huge: Option<HugePages>,
}

impl Running {
    /// A machine with no page placed.
    fn new(alloc: Global, core: Core) -> Running
        ensures core { result.core ≡ core }
        ensures resident { result.resident ≡ [] }
        ensures pages { result.pages ≡ None }
        ensures huge { result.huge ≡ None }
    {
        Running {
            core,
            resident: Resident::new(alloc),
            pages: None,
            huge: None,
        }
    }

    /// The same, on the heap.
    ///
    /// # Errors
    /// `NoMemory`: there is no memory for it.
    pub fn ready(alloc: Global, core: Core) -> Result<Box<Running>, NoMemory>
        ensures core { IfOk result (λ made. made.value.core ≡ core) }
        ensures resident { IfOk result (λ made. made.value.resident ≡ []) }
        ensures pages { IfOk result (λ made. made.value.pages ≡ None) }
        ensures huge { IfOk result (λ made. made.value.huge ≡ None) }
    {
        match Box::new(alloc, Running::new(alloc, core)) {
            Ok(made) => Ok(made),
            Err(_) => Err(NoMemory),
        }
    }

    /// Records a placement that a worker won, unless its page has one or there is no memory for it:
    /// then its frame is given back.
    fn keep(&mut self, worker: u32, placement: Placement) -> Reply
        ensures { Does self.old result self.new (λ lack state.
            kept_outcome lack (setup_of self.old.core) state.world state.resident worker
            placement) }
    {
        let win = Win::of(&placement);
        let frame = placement.frame;
        match self.resident.record(placement) {
            Ok(()) => Reply::Won(win),
            Err(RecordRefusal::Taken(_)) => {
                let _ = self.core.step(Event::Give(worker, frame));
                Reply::Back(frame)
            }
            Err(RecordRefusal::NoMemory(_)) => {
                let _ = self.core.step(Event::Give(worker, frame));
                Reply::Refused(CoreRefusal::NoMemory)
            }
        }
    }

    /// A worker finds a frame for a page, and the page keeps it.
    fn touch(&mut self, worker: u32, request: Request) -> Reply
        ensures { Does self.old result self.new (λ lack state.
            touch_outcome lack (setup_of self.old.core) state.world state.resident worker
            request) }
    {
        match won_by(self.core.touch(worker, request)) {
            Ok(placement) => self.keep(worker, placement),
            Err(reply) => reply,
        }
    }

    /// A worker gives back the frame of a page. If it may not, the page keeps it.
    fn release(&mut self, worker: u32, page: u64) -> Reply
        ensures { Does self.old result self.new (λ lack state.
            release_outcome lack (setup_of self.old.core) state.world state.resident worker
            page) }
    {
        let Some(placement) = self.resident.at(page) else {
            return Reply::Refused(CoreRefusal::NotOwned);
        };
        let frame = placement.frame;
        let answer = self.core.step(Event::Give(worker, frame));
        if answer.is_err() {
            return Reply::to_event(&answer);
        }
        let _ = self.resident.remove(page);
        Reply::to_event(&answer)
    }

    /// Carries out a line of workers. A page that is there isn't touched for the first time.
    pub fn work(&mut self, work: Work) -> Reply
        ensures { Serves self.old result self.new (λ lack machine state.
            work_served lack machine state work) }
    {
        match work {
            Work::Event(event) => {
                let answer = self.core.step(event);
                Reply::to_event(&answer)
            }
            Work::Touch(worker, request) => {
                if is_huge_part(&self.huge, request.page) {
                    return Reply::HugeRefused(HugeRefusal::NotSupported);
                }
                if is_there(&self.pages, request.page) {
                    return Reply::Placed;
                }
                self.touch(worker, request)
            }
            Work::Release(worker, page) => self.release(worker, page),
        }
    }

    /// Answers a question. Returns whether memory ran out; then the answer says so.
    pub fn answer<W: Write>(
        &mut self,
        alloc: Global,
        question: Question,
        output: &mut Watched<W>,
    ) -> bool
        ensures answer { (state : State) → RunsAs self.old state → RunsAs self.new state
            × Said W.contents output.old output.new (question_text result
            self.old.core.space.machine state.world.history question) }
        ensures ranges { question ≡ Question.Ranges → result ≡ false }
    {
        if let Question::Ranges = question {
            let ranges = self.core.space().ranges() as u64;
            say_ranges(output, ranges);
            return false;
        }
        if answered_by_space(&mut self.core, question, output) {
            return false;
        }
        // On out-of-memory there may be no plan to ask.
        prepare(&mut self.core);
        let Some(plan) = self.core.accepted_plan() else {
            say_starved(output);
            return true;
        };
        say_by_plan(alloc, plan, question, output)
    }

    /// Lists the ranges, with their policies for a task, the placed pages and those that are there.
    #[inline(never)]
    pub fn list<W: Write>(&self, task: u32, output: &mut Watched<W>)
        ensures { (state : State) → RunsAs self.now state
            → Said W.contents output.old output.new (both_listing
            (process_on self.now.core.space.machine state) state.lying.spots state.huge task) }
    {
        let space = self.core.space();
        // Tells the proof that the ranges are in ascending order and maximal.
        let _ = space.range_iter();
        let pages = self.pages.as_ref();
        match &self.huge {
            Some(huge) => say_each(space, task, &self.resident, pages, &huge.places, output),
            None => say_there(space, task, &self.resident, pages, output),
        }
    }

    /// Writes what the last move did.
    #[inline(never)]
    pub fn tell_last<W: Write>(&self, output: &mut Watched<W>)
        ensures { (state : State) → RunsAs self.now state
            → Said W.contents output.old output.new
            (both_line (length state.world.history) state.lying.last state.huge) }
    {
        let version = self.core.space().version();
        match &self.huge {
            Some(huge) => say_both(output, version, &self.pages, &huge.last),
            None => say_small(output, version, &self.pages),
        }
    }

    /// Writes how many pages of 2 MiB the pools have.
    #[inline(never)]
    pub fn tell_pools<W: Write>(&self, output: &mut Watched<W>)
        ensures { (state : State) → RunsAs self.now state
            → Said W.contents output.old output.new
            (pools_line (pools_on self.now.core.space.machine state)) }
    {
        match &self.huge {
            Some(kept) => say_pools(output, kept.places.pools()),
            None => say_pools(output, &Pools::new(self.core.space().machine())),
        }
    }

    /// Writes how many more pages nodes take.
    #[inline(never)]
    pub fn tell_rooms<W: Write>(&self, output: &mut Watched<W>)
        ensures { (state : State) → RunsAs self.now state
            → Said W.contents output.old output.new (rooms_line (rooms_of state.lying.room)) }
    {
        say_rooms(output, &rooms_in(&self.pages));
    }

    /// Writes what the last first touches did.
    #[inline(never)]
    pub fn tell_arrived<W: Write>(&self, output: &mut Watched<W>)
        ensures { (state : State) → RunsAs self.now state
            → Said W.contents output.old output.new (arrived_text state) }
    {
        let version = self.core.space().version();
        let done = arrived_in(&self.pages);
        say_arrivals(output, version, &done, &self.huge);
    }

    /// Carries out an `mbind` of length 0 whose mode, flag and nodes are refused together.
    fn bind_nothing(&mut self, start: u64, fault: WordError) -> Reply
        ensures { Serves self.old result self.new (λ lack machine state.
            command_outcome lack machine state (bind_nothing machine.rules start fault)) }
    {
        if self.core.space().machine().rules().is_linux() {
            return self.accept(&empty_bind(start));
        }
        Reply::BadWord(fault)
    }

    /// Carries out a line. The answer to a question, `maps`, `moved`, `room` alone or a `populate`
    /// that isn't refused is still to be written.
    #[inline(always)]
    pub fn take(&mut self, alloc: Global, line: &Line<'_>) -> Taken
        ensures { Takes self.old line.now result self.new }
    {
        match line {
            Line::Silent => Taken::Reply(Reply::Silent),
            Line::Malformed => Taken::Reply(Reply::BadWords),
            Line::Limits { .. } => Taken::Reply(Reply::BadState),
            Line::Rules(_) => Taken::Reply(Reply::BadState),
            Line::Cpus(_) => Taken::Reply(Reply::BadState),
            Line::Machine(_) => Taken::Reply(Reply::BadState),
            Line::Command(said) => match said {
                Ok(command) => Taken::Reply(self.obey(command)),
                Err(fault) => Taken::Reply(Reply::BadWord(*fault)),
            },
            Line::EmptyBind { start, fault } => Taken::Reply(self.bind_nothing(*start, *fault)),
            Line::Work(work) => Taken::Reply(self.work(*work)),
            Line::Question(question) => Taken::Question(*question),
            Line::Maps(task) => Taken::Maps(*task),
            Line::Pages(said) => match said {
                Ok(line) => self.page(alloc, line),
                Err(fault) => Taken::Reply(Reply::BadWord(WordError::List(*fault))),
            },
            Line::Bind {
                start,
                length,
                policy,
                pages,
            } => Taken::Reply(self.bind(alloc, *start, *length, policy, pages)),
            Line::Huge(said) => self.huge(alloc, said),
            Line::Host => Taken::Reply(Reply::BadWords),
            Line::HostCommand(_) => Taken::Reply(Reply::BadWords),
        }
    }

    /// The first cause that refuses a question.
    pub fn question_cause(&mut self, question: Question) -> Option<CoreRefusal>
        ensures { (state : State) → RunsAs self.old state → (lack : Lack) × RunsAs self.new state
            × (result ≡ question_cause (is_starved lack) self.old.core.space.machine
            state.world.history
            question) }
    {
        if let Question::Ranges = question {
            return None;
        }
        // On out-of-memory there may be no plan.
        prepare(&mut self.core);
        let Some(plan) = self.core.accepted_plan() else {
            return Some(CoreRefusal::NoMemory);
        };
        match refusal_by_plan(plan, question) {
            None => None,
            Some(refusal) => Some(cause_at(plan.version(), refusal)),
        }
    }
}
