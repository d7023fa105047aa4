//! Published plans with their histories.
ghost use Rattle.std.specs.Prelude.{◌≡◌, ℕ, ◌<◌, length, IfOk};
ghost use Rattle.std.specs.Option.{ForSome};
ghost use Rattle.std.specs.Arc.{arc_value};
ghost use Rattle.numa_plan.specs.Meaning.{planned_list};
ghost use Rattle.numa_space.specs.Policies.{allowed_nodes};
ghost use Rattle.numa_space.specs.Refusals.{range_count_of};
ghost use Rattle.numa_space.specs.Standing.{IsNodeList};
ghost use Rattle.numa_compile.specs.Standing.{PlanStandsFor};
ghost use Rattle.numa_publish.specs.Batches.{history_of};

use crate::ghosts::{About, History};
use crate::log::Front;
use counted_slot::Fits;
use numa_machine::Machine;
use numa_plan::Plan;
use std::alloc::AllocError;
use std::marker::Model;
use std::sync::Arc;

/// A plan; and, without bytes, its machine and the history for which it stands.
#[derive(Drop)]
pub struct Issue {
    pub plan: Plan,
    pub machine: About,
    pub history: History,
    pub ghost stands: { PlanStandsFor machine plan history },
    pub ghost ranges: { length plan.runs ≡ range_count_of machine history },
    pub ghost sound: { (task page cpu : ℕ) → cpu < plan.nodes →
        ForSome (planned_list plan task page cpu) (IsNodeList (allowed_nodes machine history)) },
}

/// What an issue and the prefix of the log for which it stands tell of the desk. No value of it is
/// made.
pub struct Notice {
    pub machine: About,
    pub front: Front,
}

/// Which desk it is. It has no bytes.
#[derive(Drop)]
pub struct Mark {
    front: Front,
    machine: About,
}

impl Model for Mark {
    ghost use Rattle.numa_publish.specs.Shown.{DeskIdentity};

    ghost Value = { DeskIdentity };

    ghost view = { λ m. record { book = m.front.book; machine = m.machine } };
}

impl Mark {
    /// The desk of this machine whose log this is.
    pub fn of(front: &Front, machine: &Machine) -> Mark
        ensures { result ≡ record { book = front.now.book; machine = machine.now } }
    {
        Mark {
            front: front.again(),
            machine: About::of(machine),
        }
    }
}

/// What readers see: an issue, and, without bytes, the prefix of the log for which it stands. Each
/// who sees it has a share of the issue.
#[derive(Drop)]
pub struct Shown {
    pub issue: Arc<Issue>,
    pub front: Front,
    pub ghost whole: { history_of front.log ≡ (arc_value issue).history },
}

impl Fits for Shown {
    ghost use Rattle.std.specs.Prelude.{◌≡◌};
    ghost use Rattle.numa_publish.specs.Boards.{desk_told};

    type Tag = Mark;

    ghost fits = { λ desk shown. desk_told shown ≡ desk };
}

impl Shown {
    ghost use Rattle.numa_publish.specs.Boards.{notice_of};

    /// The same once more.
    pub fn again(&self) -> Result<Shown, AllocError>
        ensures { IfOk result (λ s. notice_of s ≡ notice_of self.now) }
    {
        let issue = Arc::try_clone(&self.issue)?;
        Ok(Shown {
            issue,
            front: self.front.again(),
        })
    }
}
