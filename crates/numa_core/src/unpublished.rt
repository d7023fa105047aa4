//! The changes that aren't published.
ghost use Rattle.std.specs.Prelude.{◌≡◌, List};
ghost use Rattle.std.specs.Bool.{OnTrue, OnFalse};
ghost use Rattle.numa_space.specs.Changed.{IsChange};
ghost use Rattle.numa_requests.specs.declared.command.Command.{Command};
ghost use Rattle.numa_space.specs.Standing.{SpaceState, StandsFor};
ghost use Rattle.numa_space.specs.Steps.{IsStep};
ghost use Rattle.numa_plan.specs.Meaning.{PlanData};
ghost use Rattle.numa_compile.specs.Follows.{Follows};
ghost use Rattle.numa_compile.specs.Standing.{PlanStandsFor};
ghost use Rattle.numa_core.specs.Published.{IsBehindBy};

use numa_compile::{PlannedSpace, recompile};
use numa_plan::{Plan, Steps};
use numa_space::Change;
use std::alloc::Global;

/// What accepted commands changed that aren't published.
#[derive(Clone, Copy)]
pub(crate) enum Unpublished {
    /// There is no such command.
    Nothing,
    /// There is one alone, which changed this.
    One(Change),
    /// There may be any.
    Several,
}

impl Unpublished {
    /// Notes what one more accepted command changed. A change of the allowed nodes, for which a
    /// plan is made anew, counts as several.
    pub(crate) fn note(&mut self, change: &Change)
        ensures { (before after : SpaceState) (command : Command) (plan : PlanData)
            → IsBehindBy self.old before plan → IsStep before command after
            → IsChange before command change.now → IsBehindBy self.new after plan }
    {
        if let Unpublished::Several = self {
            return;
        }
        let Unpublished::Nothing = self else {
            *self = Unpublished::Several;
            return;
        };
        *self = match change {
            Change::Allowed { .. } => Unpublished::Several,
            _ => Unpublished::One(*change),
        };
    }

    /// Edits the published plan for the only change that isn't published, if there is only one and
    /// memory for the edit, and returns whether it did. Else the plan hasn't changed.
    pub(crate) fn catch_up(self, alloc: Global, plan: &mut Plan, space: &PlannedSpace) -> bool
        requires behind { IsBehindBy self space.now plan.old }
        ensures follows { OnTrue result (Follows space.now plan.new) }
        ensures stands { (history : List Command) → StandsFor space.now history
            → OnTrue result (PlanStandsFor space.now.machine plan.new history) }
        ensures unchanged { OnFalse result (plan.new ≡ plan.old) }
    {
        let Unpublished::One(change) = self else {
            return false;
        };
        let Ok(()) = recompile(alloc, plan, space.space(), &change, &mut Steps::new()) else {
            return false;
        };
        true
    }
}
