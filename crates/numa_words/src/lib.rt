//! What the program's commands answer after scripts: where pages would go (`predict`), why
//! (`explain`), what a change of a script would make of them (`diff`), what a trace of accesses
//! meets (`replay`), and what becomes of those that are there (`moves`).
//!
//! [`answer_after`] plays scripts, and answers a question about the state that they lead to;
//! numa_questions and numa_what_if answer the same about a space, without scripts. Pages that are
//! there lie as scripts left them, and then as lines `at` of further texts state it
//! ([`play_there`]): [`answer_there`] tells what becomes of them, where others would go, and where
//! one lies.
#![tactic(auto)]

mod asking;
mod deeds;
mod differing;
mod explaining;
mod first_touches;
mod moving;
mod placing;
mod pooling;
mod replaying;
mod there;
mod touching;

pub use asking::{Question, answer_after, prediction_there};
pub use differing::play_added;
pub use explaining::{ExplainAsked, explanation};
pub use moving::{Answer, MovesAsked, Playing, moves_of};
pub use placing::{QuestionThere, answer_there};
pub use replaying::{Traced, replay};
pub use there::{LineFaults, Played, Reading, play_there, stated_in};
