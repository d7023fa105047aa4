//! Workers that serve page faults, and move pages between nodes. Each sees the published plans
//! through its own reader and takes page frames through its own seat, so that workers in different
//! threads share no lock and never block each other. A crew is several workers at once, each in a
//! thread.
#![tactic(auto)]

pub mod answer;
pub mod crew;
mod gathering;
pub mod laws;
mod migration;
mod page;
mod placing;
pub mod refusal;
mod serving;
pub mod span;
pub mod worker;

pub use answer::Answer;
pub use crew::{Crew, CrewRefusal, Gate};
pub use refusal::{FaultRefusal, MigrateRefusal, SpanRefusal};
pub use worker::FaultWorker;
