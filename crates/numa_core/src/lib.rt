//! A simulation of workers, step by step: commands, published versions, and workers that look for
//! frames. It has no threads: an interleaving is a list of events.
#![tactic(auto)]

ghost use Rattle.std.specs.Prelude.{◌≡◌, ℕ, ◌≤◌, List, [], ◌∷◌, ◌++◌, IfOk, IfSome};
ghost use Rattle.std.specs.Prelude.{OnErr};
ghost use Rattle.numa_space.specs.Changed.{IsChange};
ghost use Rattle.numa_space.specs.Standing.{StandsFor};
ghost use Rattle.numa_compile.specs.Standing.{IsPlanOf, PlanStandsFor};
ghost use Rattle.numa_core.specs.World.{World, first_commands, newest_published};
ghost use Rattle.numa_core.specs.Steps.{IsAnswer, accept_answer, version_of, world_after};
ghost use Rattle.numa_core.specs.Executions.{CoreStep};
ghost use Rattle.numa_core.specs.Standing.{CoreState, CoreStandsFor, HasPast};
ghost use Rattle.numa_core.specs.Standing.{LeadsTo, core_step_after, setup_of};
ghost use Rattle.numa_core.specs.Touching.{result_of_touch, IsTouch};

pub mod acceptance;
mod free_frames;
mod judging;
pub mod laws;
mod places;
mod seat;
mod state;
mod tables;
mod unpublished;

pub use crate::acceptance::Acceptance;
pub use crate::judging::cause_at;
use crate::state::State;
use numa_machine::{Machine, NoMemory};
use numa_plan::Plan;
use numa_requests::{Command, CoreRefusal, CoreReply, Event, Limits, Refusal, Request};
use numa_space::Space;
use std::alloc::Global;
use std::marker::Model;

/// Commands, published versions, and workers that look for frames. Nothing runs by itself: each
/// event is one call of `step`.
pub struct Core {
    pub(crate) state: State,
}

// (By hand, so that it is proved here alone: a derived one is proved in each crate that drops.)
impl Drop for Core {
    fn drop(self) {
        let Core { state } = self;
        drop(state);
    }
}

impl Model for Core {
    ghost use Rattle.numa_core.specs.Standing.{CoreState, HasPast};
    ghost use Rattle.numa_core.specs.Kept.{core_state, IsKept};

    ghost Value = { CoreState };

    ghost view = { λ a. core_state a.state };

    ghost invariant = { λ a. IsKept a.state × HasPast (core_state a.state) };
}

impl Core {
    /// A core of this machine, with these limits and `workers` workers, numbered from 0. Nothing is
    /// accepted, version 0 is published, each worker is idle and no frame is owned.
    ///
    /// It allocates all memory that Begin, Seek, Look, Try and Give ever use: two bytes and a bit
    /// for each frame of the machine, and for each worker 256 bytes and one bit for each frame.
    ///
    /// # Errors
    /// `NoMemory`: out of memory.
    ///
    /// # Examples
    /// A core of four nodes with two workers:
    ///
    /// ```
    /// let machine = flat_machine(alloc, &[8, 8, 8, 8]).expect(rt, "a machine");
    /// Core::new(alloc, machine, limits(), 2).expect(rt, "a core")
    /// ```
    pub fn new(
        alloc: Global,
        machine: Machine,
        limits: Limits,
        workers: u32,
    ) -> Result<Core, NoMemory>
        requires some { 1 ≤ workers }
        requires few { workers ≤ 16 }
        ensures opens { IfOk result (λ core. LeadsTo [] core) }
        ensures setup { IfOk result (λ core. setup_of core
            ≡ record { machine = machine; bounds = limits; workers = workers }) }
    {
        let state = State::new(alloc, machine, limits, workers)?;
        Ok(Core { state })
    }

    /// Returns a copy, which stands for the same worlds, and to which the same executions lead. An
    /// event of one of the two doesn't affect the other, so a caller can try events on a copy.
    ///
    /// # Errors
    /// `NoMemory`: there is no memory for the copy's space, plans, workers and owners.
    pub fn copy(&self) -> Result<Core, NoMemory>
        ensures same { IfOk result (λ copy. copy ≡ self.now) }
        ensures stands { (world : World) → CoreStandsFor self.now world →
            IfOk result (λ copy. CoreStandsFor copy world) }
        ensures executions { (past : List CoreStep) → LeadsTo past self.now →
            IfOk result (λ copy. LeadsTo past copy) }
    {
        let state = self.state.copy()?;
        Ok(Core { state })
    }

    /// Carries out an event and returns its reply. A Begin or a Seek takes the newest published
    /// version. A refused event changes nothing.
    ///
    /// # Errors
    /// - Accept: `Command`, with the cause.
    /// - Publish: `NoMemory`.
    /// - Begin: the first that applies of `NoSuchWorker`; `Busy`; `BadCpu`, the machine lacks the
    ///   faulting node; `Unmapped`, with the version in which the page isn't mapped.
    /// - Seek: the first that applies of `NoSuchWorker`; `Busy`; `NoSuchNode`, the machine lacks
    ///   the node, or the node has no frames.
    /// - Look and Try: the first that applies of `NoSuchWorker`; `Idle`; `BadTry`, the current node
    ///   lacks the word, or the frame isn't one of its unmet frames.
    /// - Give: the first that applies of `NoSuchWorker`; `Busy`; `NotOwned`, the frame isn't the
    ///   worker's.
    pub fn step(&mut self, event: Event) -> Result<CoreReply, CoreRefusal>
        ensures answer { (world : World) → CoreStandsFor self.old world →
            IsAnswer (setup_of self.old) world (newest_published world) event result
            × CoreStandsFor self.new (world_after (setup_of self.old) world (newest_published world)
            event result) }
        ensures executions { (past : List CoreStep) → LeadsTo past self.old →
            LeadsTo (core_step_after (setup_of self.old) past event result ∷ past) self.new }
        ensures unchanged { OnErr result (self.new ≡ self.old) }
        ensures setup { setup_of self.new ≡ setup_of self.old }
    {
        match event {
            Event::Accept(command) => match self.accept(&command) {
                Ok(acceptance) => Ok(CoreReply::Accepted(acceptance.version)),
                Err(refusal) => Err(CoreRefusal::Command(refusal)),
            },
            Event::Publish => self.state.publish(),
            Event::Begin(worker, request) => self.state.begin(worker, request),
            Event::Seek(worker, node) => self.state.seek(worker, node),
            Event::Look(worker, word) => self.state.look(worker, word),
            Event::Try(worker, frame) => self.state.attempt(worker, frame),
            Event::Give(worker, frame) => self.state.give(worker, frame),
        }
    }

    /// Carries out a command, as the event Accept, and returns the version after it and what it
    /// changed. A refused command changes nothing.
    ///
    /// # Errors
    /// As [`Space::apply`].
    #[inline(never)]
    pub fn accept(&mut self, command: &Command) -> Result<Acceptance, Refusal>
        ensures answer { (world : World) → CoreStandsFor self.old world →
            IsAnswer (setup_of self.old) world (newest_published world)
            (Event.Accept command.now) (accept_answer (version_of result))
            × CoreStandsFor self.new (world_after (setup_of self.old) world (newest_published world)
            (Event.Accept command.now) (accept_answer (version_of result))) }
        ensures change { IfOk result (λ acceptance. IsChange self.old.space command.now
            acceptance.change) }
        ensures executions { (past : List CoreStep) → LeadsTo past self.old →
            LeadsTo (core_step_after (setup_of self.old) past (Event.Accept command.now)
            (accept_answer (version_of result)) ∷ past) self.new }
        ensures unchanged { OnErr result (self.new ≡ self.old) }
        ensures setup { setup_of self.new ≡ setup_of self.old }
    {
        let answer = self.state.space.apply(self.state.alloc, command);
        match &answer {
            Ok(change) => {
                self.state.unpublished.note(change);
                let version = self.state.space.space().version();
                Ok(Acceptance {
                    version,
                    change: *change,
                })
            }
            Err(refusal) => Err(*refusal),
        }
    }

    /// A touch of a page by a worker: a Begin of the request, and then, while the worker is busy,
    /// Trys of the lowest frame of its current node that it hasn't met. Returns the reply to the
    /// last of these events; the worker is idle afterwards.
    ///
    /// # Errors
    /// As for a Begin: the first that applies of `NoSuchWorker`, `Busy`, `BadCpu` and `Unmapped`.
    pub fn touch(&mut self, worker: u32, request: Request) -> Result<CoreReply, CoreRefusal>
        ensures answer { (world : World) → CoreStandsFor self.old world →
            (result ≡ (result_of_touch (setup_of self.old) world worker request).answer)
            × CoreStandsFor self.new
            (result_of_touch (setup_of self.old) world worker request).world }
        ensures executions { (past : List CoreStep) → LeadsTo past self.old
            → (core_steps : List CoreStep)
            × IsTouch worker request result core_steps × LeadsTo (core_steps ++ past) self.new }
        ensures unchanged { OnErr result (self.new ≡ self.old) }
        ensures setup { setup_of self.new ≡ setup_of self.old }
    {
        self.state.touch(worker, request)
    }

    /// The space of all accepted commands.
    pub fn space(&self) -> &Space
        ensures space { result.now ≡ self.now.space }
        ensures meaning { (world : World) → CoreStandsFor self.now world →
            StandsFor result.now world.history }
    {
        self.state.space.space()
    }

    /// Whether a question about one page is best answered by [`Core::space`], since the plan of all
    /// accepted commands would have to be made, which only costs less from some number of questions
    /// on (`PlannedSpace::answers_without_plan`). Each call that returns `true` counts as one. The
    /// list is the same (`Space::list_at`).
    pub fn answers_without_plan(&mut self) -> bool
        ensures { self.new ≡ self.old }
    {
        self.state.space.answers_without_plan()
    }

    /// Makes the plan of all accepted commands, which [`Core::accepted_plan`] lends, if there is
    /// none.
    ///
    /// # Errors
    /// `NoMemory`: there is no memory for the plan.
    pub fn prepare(&mut self) -> Result<(), NoMemory>
        ensures { self.new ≡ self.old }
    {
        self.state.space.prepare(self.state.alloc)
    }

    /// The plan of all accepted commands. The first `prepare` or Publish makes it, and each later
    /// command edits it in place. `None` before that, and after a change of the allowed nodes or a
    /// command for whose edit there was no memory; then `prepare` makes it again.
    pub fn accepted_plan(&self) -> Option<&Plan>
        ensures plan { IfSome result (λ plan. IsPlanOf self.now.space plan.now) }
        ensures meaning { (world : World) → CoreStandsFor self.now world → IfSome result
            (λ plan. PlanStandsFor self.now.space.machine plan.now world.history) }
    {
        self.state.space.plan()
    }

    /// The newest published version: a number of commands. Some execution leads to every core.
    pub fn published(&self) -> u64
        ensures published { result ≡ self.now.plan.version }
        ensures meaning { (world : World) → CoreStandsFor self.now world →
            result ≡ newest_published world }
        ensures past { HasPast self.now }
    {
        self.state.plan.version()
    }

    /// The plan of the published commands, which a Begin and a touch use.
    pub fn plan(&self) -> &Plan
        ensures plan { result.now ≡ self.now.plan }
        ensures meaning { (world : World) → CoreStandsFor self.now world →
            PlanStandsFor self.now.space.machine result.now
            (first_commands (newest_published world) world.history) }
    {
        &self.state.plan
    }
}
