//! Replaying traces of accesses: where each page is placed when it is first touched, and how many
//! accesses go where.
//!
//! A [`Memory`] has the frames of a machine and the pages in them. A [`Replay`] takes the accesses
//! of a trace in order: the first touch of a page places it on the first node of its list that has
//! a frame left, and later accesses go there, whichever task makes them. A [`HostReplay`] has the
//! processes of a host, each with a plan and pages of its own, on frames that all share.
//! A [`TraceState`] takes the lines of one process, and keeps a [`Mark`] for each that closes a
//! phase; a [`PlanReplay`] has the plan by which it does. [`read_by`] reads a trace from a reader.
#![tactic(auto)]

mod access;
mod before;
mod fault;
mod form;
mod host;
mod host_mark;
mod host_reading;
pub mod laws;
mod mark;
mod mean;
mod memory;
mod moments;
mod placed;
mod plan_reading;
mod process;
mod range_parts;
mod range_report;
mod ranges;
mod reading;
mod records;
mod replay;
mod report;
mod room;
mod routes;
mod summary;
mod tallies;
mod telling;
mod trace_state;
mod whole;

pub use access::{Access, TraceLine, do_in, mark_in, read_access};
pub use before::Before;
pub use fault::{AccessError, ReplayError};
pub use form::ReplayForm;
pub use host::HostReplay;
pub use host_mark::HostMark;
pub use host_reading::HostTrace;
pub use mark::Mark;
pub use memory::{Memory, all_frames};
pub use moments::{Moment, moments_in, moments_of, moments_of_all};
pub use placed::placed_text;
pub use plan_reading::PlanReplay;
pub use process::ProcessReplay;
pub use range_parts::{PageSpan, RangesMet};
pub use ranges::RangeTallies;
pub use reading::{ReplayLine, Replaying, read_by};
pub use replay::Replay;
pub use report::{report_text, total_text};
pub use room::{has_frames, room_before};
pub use routes::{RouteCounts, routes_of};
pub use tallies::{AccessCounts, Route, Tallies};
pub use trace_state::{TraceState, TraceStep};
pub use whole::replay_all;
