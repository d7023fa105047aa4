//! What stands beside the ranges of an answer: the names of areas, and at a terminal bars.
//!
//! Scripts name areas by comments ([`Areas`]), and [`named`] puts the names into an answer of any
//! format. [`barred`] puts a bar before each line of pages by node.
#![tactic(auto)]

mod areas;
mod bars;
mod counts;
mod naming;
mod objects;
mod paint;
mod pictures;
mod ranges;
mod texts;

pub use areas::{Area, Areas, Span};
pub use bars::barred;
pub use naming::named;
pub use paint::Paint;
