//! Compiled plans, from which readers get the fallback list of any page.
//!
//! A [`Plan`] has the fallback list of any page, for any task and any faulting node, without the
//! space from which it was made. It keeps runs of pages, each with the number of its rule or none,
//! rules in numbered slots, each with its policy, the number of a rule for some tasks, and one
//! local rule. A [`Rule`] has rows of nodes, and a key that says which row applies.
//!
//! [`Plan::choice`] lends the list of a page. [`Plan::fill`] and [`Plan::counts`] handle a whole
//! span, run by run: the first node of each page's list, and the number of pages for which each
//! node is the first. [`Plan::fill_marked`] and [`Plan::nodes_of`] do so for a span with holes and
//! for pages in whatever order, with a mark for those that no run has. [`Plan::turns_at`] says of a
//! run after how many of its pages their lists come again. None of the six allocates.
//!
//! `specs/Meaning.antt` defines the meaning of a plan's data, `specs/Rows.antt` a rule's rows, and
//! `specs/Building.antt` the effects of the building calls.
#![tactic(auto)]

mod guess;
mod looks;
mod numbers;
mod parts;
mod plan;
mod rows;
mod rule;
mod runs;
mod search;
mod shared_rule;
mod slots;
mod spread;
mod steps;
mod tally;
mod task_numbers;
mod tell;

pub use plan::{ListAnswer, PageTurns, Plan};
pub use rule::Rule;
pub use shared_rule::SharedRule;
pub use steps::Steps;
pub use tally::Tally;
