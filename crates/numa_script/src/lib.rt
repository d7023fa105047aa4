//! The script language: parsing lines, and writing answers.
#![tactic(auto)]

pub mod commands;
mod host_line;
pub mod huge_line;
pub mod keyword;
pub mod line;
pub mod machine;
pub mod malformed;
pub mod names;
mod nodes;
pub mod number;
pub mod page_line;
pub mod parameter;
pub mod parts;
pub mod policy;
mod reading;
pub mod reply;
mod rules;
mod short;
mod table;
pub mod tell;
mod words;
pub mod work;

pub use huge_line::{HugeLine, HugeWords};
pub use line::{Line, MachineLine, Question, ScriptLine};
pub use malformed::{Cause, Malformed, why_malformed};
pub use page_line::{BoundPages, MoveWords, PageLine};
pub use parameter::{Form, Misfit, Parameter};
pub use policy::WordError;
pub use reply::{Reply, Win};
pub use work::Work;
