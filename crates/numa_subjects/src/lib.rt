//! What answers after scripts are about, on which of their lines they are based, and why there is
//! none.
//!
//! Other commands than `check` answer by the accepted lines, and return in [`Ended`] whether there
//! were others, or in [`Halt`] why there is no answer. [`tells_fault`] recognizes the answers of
//! malformed and refused lines.
#![tactic(auto)]

mod added;
mod ended;
mod faults;
mod halt;
mod page_place;
mod sizes;
mod subject;

pub use added::Added;
pub use ended::{Ended, Twin};
pub use faults::tells_fault;
pub use halt::{Halt, NOTHING_SERVED};
pub use page_place::PagePlace;
pub use sizes::maps_huge;
pub use subject::{InGroup, Subject, differ, host_in, member, nodes_with, space_in};
