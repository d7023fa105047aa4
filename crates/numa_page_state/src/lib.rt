//! Where the pages of a process lie that no worker placed in a frame: stated to lie there, or moved
//! since, or gone to a node at a task's first touch; how many more pages each node takes; whether
//! pages follow the allowed nodes; and what the last move and the last first touches did
//! (migrate_pages(2), move_pages(2), mbind(2), cpusets(7), madvise(2) MADV_POPULATE_WRITE).
//!
//! The state stands beside a space, which says which pages are mapped and by which policies, and
//! beside the pages that keep frames, which stay in every move. It is kept once a change wants it:
//! before, `None` stands for pages that all lie nowhere, and nodes that never fill.
#![tactic(auto)]

pub mod arrived;
mod beside;
pub mod between;
pub mod binding;
mod counts;
pub mod forgetting;
mod frames;
pub mod huge;
pub mod last;
pub mod laws;
pub mod lending;
pub mod pooling;
pub mod sending;
mod shift;
pub mod state;
mod staying;
pub mod touching;

pub use arrived::Arrived;
pub use binding::{Binding, has_astray, is_late_in, strict_binding_in};
pub use counts::add;
pub use huge::{HugeSpan, huge_span};
pub use last::{Departures, Last};
pub use sending::{
    Rebinding, Sending, Toucher, rebinding_in, sent, sent_from, settle, settled, tells_left,
};
pub use shift::Shift;
pub use state::PageState;
