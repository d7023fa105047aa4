//! What a command shows beside its answer: how far it is, how it ends, and files written anew.
#![tactic(auto)]

mod answering;
mod asking;
mod endings;
mod lacking;
mod noticing;
mod progress;
mod rewriting;

pub use answering::Answering;
pub use asking::{Asking, Question};
pub use endings::{
    StandardError, answered, ended, fail, fail_to_write, status_of, stop_quietly, tell_fault,
};
pub use lacking::{Heeding, Lack, Noting};
pub use noticing::{Notice, noticed_by};
pub use progress::{Paced, PacedPages, with_progress};
pub use rewriting::{RewriteFault, rewrite_all};
