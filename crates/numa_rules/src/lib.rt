//! The rules by which a page gets its node: which of them serves a page, and where those of Linux's
//! documents and of its running kernel differ.
//!
//! [`explain`] returns the range that has a page, the policy that applies there, and the rule that
//! orders the nodes, as a value that is defined by the history of accepted commands, and
//! [`say_explanation`] writes them in six lines. ("NUMA Memory Policy", scope and components of
//! memory policies) [`say_stretch`] writes in four by which rule a stretch of pages goes, and
//! [`give_fields`] gives each field with its name.
//!
//! [`otherwise_of`] returns what a kernel does differently with a command that a space judges by
//! the documents, and [`say_hint`] writes it; [`by_other_rules`] returns where a script that is
//! played by the other rules leads for a page, and [`say_by_other`] writes that. docs/KERNEL.md has
//! the table on which both are based.
#![tactic(auto)]

mod explanation;
mod fault;
mod fields;
mod hint_text;
pub mod laws;
mod otherwise;
mod page;
mod parted;
mod place;
mod reason_text;
mod rule;
mod scope;
mod span;
mod stretch_text;
mod text;

pub use explanation::{Explanation, explain};
pub use fault::ReasonError;
pub use fields::{TakeField, give_fields};
pub use hint_text::{say_by_other, say_hint, say_otherwise};
pub use otherwise::{Otherwise, otherwise_of, otherwise_of_empty_bind};
pub use page::{ByOther, by_other_rules, other_rules};
pub use parted::{Owner, Parted};
pub use place::range_of;
pub use reason_text::say_explanation;
pub use rule::{OrderRule, Turn, WeightedTurn};
pub use scope::Scope;
pub use stretch_text::{say_stretch, say_unmapped};
pub use text::Text;
