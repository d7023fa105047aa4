//! Requests for predictions, and for differences.
ghost use Rattle.std.specs.Prelude.{◌≡◌};

use crate::outlook::Outlook;
use numa_placed::Placed;
use numa_plan::Plan;
use numa_sheets::{Format, FreePages, Touch};
use numa_space::Space;

/// A request: where the pages of a space go by a plan of it, if they are touched so and named nodes
/// have these free pages, and others never run out. Those that are there stay where they lie, and
/// take none.
#[derive(Clone, Copy)]
pub struct PredictionRequest<'a> {
    pub space: &'a Space,
    pub plan: &'a Plan,
    pub placed: Option<&'a Placed>,
    pub touch: Touch,
    pub free: &'a [FreePages],
}

impl<'a> PredictionRequest<'a> {
    /// A request where no page is there and no node is named.
    pub fn of(space: &'a Space, plan: &'a Plan, touch: Touch) -> PredictionRequest<'a>
        ensures space { result.space.now ≡ space.now }
        ensures plan { result.plan.now ≡ plan.now }
        ensures touch { result.touch ≡ touch }
    {
        PredictionRequest {
            space,
            plan,
            placed: None,
            touch,
            free: &[],
        }
    }
}

/// A request: which pages go to another node of so many, if they are touched so in the state after
/// a change instead of that before it.
#[derive(Clone, Copy)]
pub struct DifferenceRequest<'a> {
    pub before: &'a Outlook,
    pub after: &'a Outlook,
    /// The number of nodes of the machine.
    pub nodes: u32,
    pub touch: Touch,
    /// How the answer is written.
    pub format: Format,
}
