//! Publishing versions of plans. One desk accepts commands and publishes plans; up to 64 readers,
//! in any thread, look at the latest published plan without blocking and without allocating.
//!
//! A reader enters and gets a view of the plan that is published then, of which it has a share: so
//! nobody waits for it, and a look that finds nothing new is one load. A publish shows the new plan
//! at a place where no reader is, and waits for nobody either.
#![tactic(auto)]

mod batch;
mod board;
pub mod desk;
mod ghosts;
mod issue;
pub mod laws;
mod log;
mod past;
mod publishing;
pub mod reader;
pub mod receipt;
pub mod shared;
mod taker;
pub mod view;

pub use desk::{Desk, NoReader};
pub use reader::PlanReader;
pub use receipt::Receipt;
pub use shared::{DeskName, SharedDesk, SubmitRefusal};
pub use taker::LookRefusal;
pub use view::PlanView;
