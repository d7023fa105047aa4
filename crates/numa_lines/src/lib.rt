//! Lines in, bytes out: reads texts and cuts them into lines, has a server answer each, and writes
//! the answers; worked scripts, which hold the expected answers; several readers read as one. What
//! a line says is no concern of this crate.
#![tactic(auto)]

mod answer;
mod buffer;
pub mod counts;
pub mod echo;
pub mod expect;
pub mod fault;
pub mod joined;
pub mod lines;
pub mod reading;
pub mod run;
pub mod seeking;
pub mod serve;
mod served;
pub mod watched;
pub mod worked;

pub use counts::Counts;
pub use echo::{Echo, say_echo};
pub use expect::{Expect, Respond};
pub use fault::RunFault;
pub use joined::Joined;
pub use lines::{Lines, TakeLine};
pub use reading::{TakeText, read_all};
pub use run::serve_script;
pub use seeking::is_worked;
pub use serve::Serve;
pub use watched::Watched;
pub use worked::{HEAD, LineForm, read_form};
