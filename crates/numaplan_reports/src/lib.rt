//! Reports for C callers: what the words of the program answer, over texts in memory, and the same
//! questions about the core that a handle keeps, answered as values.
//!
//! [`check`], [`predict`], [`predict_at`], [`moves`], [`diff`], [`explain`], [`explain_at`] and
//! [`replay`] play a script, and are one call of numa_play, numa_words or numa_what_if each.
//! [`predict_core`], [`fill_core`], [`explain_core`], [`diff_cores`] and [`replay_core`] ask a
//! core, and are one call of numa_reports, numa_rules or numa_traces on its space and the plan of
//! its accepted commands.
//! [`predict_core_text`], [`diff_cores_text`], [`explain_core_text`] and [`replay_core_text`]
//! answer as the words do, of cores.
#![tactic(auto)]

mod asking;
mod differing;
mod explaining;
mod filling;
mod lines;
mod placing;
mod predicting;
mod replaying;
mod report;
mod sources;
mod texts;

pub use asking::{check, diff, explain, predict, replay};
pub use differing::diff_cores;
pub use explaining::explain_core;
pub use filling::fill_core;
pub use placing::{Origin, explain_at, moves, predict_at};
pub use predicting::predict_core;
pub use replaying::replay_core;
pub use report::Report;
pub use sources::ScriptText;
pub use texts::{diff_cores_text, explain_core_text, predict_core_text, replay_core_text};
