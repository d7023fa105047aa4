//! A space that keeps its plan.
ghost use Rattle.std.specs.Prelude.{◌≡◌, ℕ, ◌<◌, None, IfOk};
ghost use Rattle.std.specs.Prelude.{IfSome, List, [], Some, true};
ghost use Rattle.std.specs.Option.{ForSome};
ghost use Rattle.numa_space.specs.Changed.{IsChange};
ghost use Rattle.numa_requests.specs.declared.command.Command.{Command};
ghost use Rattle.numa_space.specs.Standing.{StandsFor, IsNodeList};
ghost use Rattle.numa_space.specs.Steps.{IsApplied};
ghost use Rattle.numa_plan.specs.Meaning.{planned_list};
ghost use Rattle.numa_compile.specs.Follows.{Follows, LacksChange};
ghost use Rattle.numa_compile.specs.Standing.{IsPlanOf, PlanStandsFor};

use crate::compiler::{compile, survey};
use crate::recompiler::recompile;
use numa_machine::{Machine, NoMemory};
use numa_plan::{Plan, Steps};
use numa_requests::{Command, Limits, Refusal};
use numa_space::{Change, Space};
use std::alloc::Global;
use std::marker::Model;
use std::mem;

/// A space, and its plan after the first request for it. From then on each accepted command edits
/// the plan in place, so that later requests cost nothing. Contracts see only the space.
///
/// After two kinds of commands the plan is dropped until the next request: one for whose edit there
/// was no memory, and a change of the allowed nodes, which changes every list. After such a change
/// the first questions about single pages cost less if the space answers them
/// ([`PlannedSpace::answers_without_plan`]).
pub struct PlannedSpace {
    space: Space,
    plan: Option<Plan>,
    asked: usize,
}

// (By hand, so that it is proved here alone: a derived one is proved in each crate that drops.)
impl Drop for PlannedSpace {
    fn drop(self) {
        let PlannedSpace {
            space,
            plan,
            asked: _,
        } = self;
        drop(space);
        drop(plan);
    }
}

impl Model for PlannedSpace {
    ghost use Rattle.std.specs.Option.{ForSome};
    ghost use Rattle.numa_space.specs.Standing.{SpaceState};
    ghost use Rattle.numa_compile.specs.Follows.{Follows};

    ghost Value = { SpaceState };

    ghost view = { λ p. p.space };

    ghost invariant = { λ p. ForSome p.plan (Follows p.space) };
}

/// A copy of a plan, if there is one.
///
/// # Errors
/// `NoMemory`: out of memory.
fn copy_of(alloc: Global, plan: &Option<Plan>) -> Result<Option<Plan>, NoMemory>
    ensures { IfOk result (λ copy. copy ≡ plan.now) }
{
    match plan {
        Some(plan) => Ok(Some(plan.copy(alloc)?)),
        None => Ok(None),
    }
}

/// Edits a plan for the last change of its space, and returns whether there was memory for it.
fn edited(alloc: Global, plan: &mut Plan, space: &Space, change: &Change) -> bool
    requires lacks { LacksChange space.now change.now plan.old }
    ensures follows { result ≡ true → Follows space.now plan.new }
{
    recompile(alloc, plan, space, change, &mut Steps::new()).is_ok()
}

/// Keeps a plan that follows its space, and drops another.
fn keep_if(plan: &mut Option<Plan>, space: &Space, follows: bool)
    requires { follows ≡ true → ForSome plan.old (Follows space.now) }
    ensures { ForSome plan.new (Follows space.now) }
{
    if !follows {
        drop(plan.take());
    }
}

/// Edits a plan, if there is one, for the last change of its space, or drops it.
fn follow(alloc: Global, plan: &mut Option<Plan>, space: &Space, change: &Change)
    requires { ForSome plan.old (LacksChange space.now change.now) }
    ensures { ForSome plan.new (Follows space.now) }
{
    if let Change::Allowed { .. } = change {
        drop(plan.take());
        return;
    }
    let Some(kept) = plan else {
        return;
    };
    let follows = edited(alloc, kept, space, change);
    keep_if(plan, space, follows);
}

/// The number of questions that were answered without a plan, after a change: one of the
/// allowed nodes begins the count again. (Before the first one it is too large to answer so.)
fn asked_after(asked: usize, change: &Change) -> usize {
    match change {
        Change::Allowed { .. } => 0,
        _ => asked,
    }
}

/// Whether one question more is better answered by the space than by a new plan. A plan costs a
/// step for each range and task, an answer of the space some sixteen steps more than one of a plan.
fn is_worth_asking(space: &Space, asked: usize) -> bool {
    asked < space.ranges().saturating_add(space.task_count()) / 16
}

/// Makes the plan of a space, if there is none.
///
/// # Errors
/// `NoMemory`: there is no memory for the plan.
fn prepare(alloc: Global, plan: &mut Option<Plan>, space: &Space) -> Result<(), NoMemory>
    requires { ForSome plan.old (Follows space.now) }
    ensures { ForSome plan.new (Follows space.now) }
{
    if plan.is_none() {
        let made = compile_anew(alloc, space)?;
        mem::forget(plan.replace(made));
    }
    Ok(())
}

/// A copy of the plan that is there.
///
/// # Errors
/// `NoMemory`: out of memory, or there is no plan.
fn copy_there(alloc: Global, plan: &Option<Plan>) -> Result<Plan, NoMemory>
    ensures { IfOk result (λ copy. plan.now ≡ Some copy) }
{
    match plan {
        Some(plan) => plan.copy(alloc),
        None => Err(NoMemory),
    }
}

/// A copy of the plan of a space, which is made first if there is none.
///
/// # Errors
/// `NoMemory`: there is no memory for the plan or its copy.
fn made_copy(alloc: Global, plan: &mut Option<Plan>, space: &Space) -> Result<Plan, NoMemory>
    requires { ForSome plan.old (Follows space.now) }
    ensures plan { ForSome plan.new (Follows space.now) }
    ensures copy { IfOk result (Follows space.now) }
{
    prepare(alloc, plan, space)?;
    copy_there(alloc, plan)
}

/// The plan of a space. It is a separate function, so that a question about a space with a plan
/// uses no stack for it.
#[inline(never)]
fn compile_anew(alloc: Global, space: &Space) -> Result<Plan, NoMemory>
    ensures { IfOk result (λ plan. Follows space.now plan) }
{
    compile(alloc, space)
}

impl PlannedSpace {
    /// A space of this machine in which nothing is accepted, without a plan.
    pub fn new(alloc: Global, machine: Machine, limits: Limits) -> PlannedSpace
        ensures stands { StandsFor result [] }
        ensures machine { result.machine ≡ machine }
        ensures bounds { result.bounds ≡ limits }
    {
        PlannedSpace {
            space: Space::new(alloc, machine, limits),
            plan: None,
            asked: usize::MAX,
        }
    }

    /// Returns a copy, with a copy of the plan if there is one (`Space::copy`, `Plan::copy`).
    ///
    /// # Errors
    /// `NoMemory`: as `Space::copy` and `Plan::copy`.
    pub fn copy(&self, alloc: Global) -> Result<PlannedSpace, NoMemory>
        ensures { IfOk result (λ copy. copy ≡ self.now) }
    {
        let space = self.space.copy(alloc)?;
        let Ok(plan) = copy_of(alloc, &self.plan) else {
            drop(space);
            return Err(NoMemory);
        };
        Ok(PlannedSpace {
            space,
            plan,
            asked: self.asked,
        })
    }

    /// The space of all accepted commands.
    pub fn space(&self) -> &Space
        ensures { result.now ≡ self.now }
    {
        &self.space
    }

    /// Carries out a command, or refuses it, as `Space::apply`, and returns what it changed. Lack
    /// of memory for the plan refuses nothing: then the plan is dropped.
    ///
    /// # Errors
    /// As `Space::apply`: the first cause that applies. Then nothing has changed.
    #[inline(always)]
    pub fn apply(&mut self, alloc: Global, command: &Command) -> Result<Change, Refusal>
        ensures applied { IsApplied self.old command.now result self.new }
        ensures change { IfOk result (IsChange self.old command.now) }
    {
        let answer = self.space.apply(command);
        if let Ok(change) = &answer {
            self.asked = asked_after(self.asked, change);
            follow(alloc, &mut self.plan, &self.space, change);
        }
        answer
    }

    /// Whether a question about one page is best answered by the space (`Space::list_at`), whose
    /// list is the same as the plan's: there is no plan, and since it was dropped, fewer questions
    /// than a sixteenth of the ranges and tasks were answered so. Each call that returns `true`
    /// counts as one. Nothing else depends on the count. It doesn't allocate.
    pub fn answers_without_plan(&mut self) -> bool
        ensures { self.new ≡ self.old }
    {
        if self.plan.is_some() || !is_worth_asking(&self.space, self.asked) {
            return false;
        }
        self.asked = self.asked.saturating_add(1);
        true
    }

    /// Makes the plan of the space, if there is none.
    ///
    /// # Errors
    /// `NoMemory`: there is no memory for the plan.
    pub fn prepare(&mut self, alloc: Global) -> Result<(), NoMemory>
        ensures { self.new ≡ self.old }
    {
        prepare(alloc, &mut self.plan, &self.space)
    }

    /// The plan of the space, as by [`compile`]; `None` before the first successful `prepare` or
    /// `plan_copy`, and after it was dropped. Its version is the number of commands that the space
    /// has accepted.
    pub fn plan(&self) -> Option<&Plan>
        ensures stands { (history : List Command) → StandsFor self.now history
            → IfSome result (λ plan. PlanStandsFor self.now.machine plan.now history) }
        ensures plan { IfSome result (λ plan. IsPlanOf self.now plan.now) }
        ensures follows { IfSome result (λ plan. Follows self.now plan.now) }
        ensures sound { IfSome result (λ plan. (task page cpu : ℕ) → cpu < plan.now.nodes
            → ForSome (planned_list plan.now task page cpu) (IsNodeList self.now.allowed)) }
    {
        survey(&self.space);
        match &self.plan {
            Some(plan) => Some(plan),
            None => None,
        }
    }

    /// A copy of the plan of the space, which later commands don't change.
    ///
    /// # Errors
    /// `NoMemory`: there is no memory for the plan or its copy.
    pub fn plan_copy(&mut self, alloc: Global) -> Result<Plan, NoMemory>
        ensures same { self.new ≡ self.old }
        ensures stands { (history : List Command) → StandsFor self.old history
            → IfOk result (λ plan. PlanStandsFor self.old.machine plan history) }
        ensures plan { IfOk result (λ plan. IsPlanOf self.old plan) }
        ensures follows { IfOk result (λ plan. Follows self.old plan) }
        ensures sound { IfOk result (λ plan. (task page cpu : ℕ) → cpu < plan.nodes
            → ForSome (planned_list plan task page cpu) (IsNodeList self.old.allowed)) }
    {
        survey(&self.space);
        made_copy(alloc, &mut self.plan, &self.space)
    }
}
