//! The command line of the program: its subcommands, their help, and the job of a command line.
//!
//! [`job`] parses a command line. Each subcommand has a file of its own, with its help and its
//! arguments. A [`Job`] is a value; the program does it. Here too are opened the files, folders and
//! standard input that a command line names, and the writer that notes whether its reader has gone.
#![tactic(auto)]

mod command;
mod files;
mod folders;
mod found;
mod jobs;
mod output;
mod program;
mod sizes;
mod usage;
mod words;

pub use command::job;
pub use files::{Source, Texts, open_all, open_with_typed, without_names};
pub use folders::open_worked;
pub use jobs::{Job, JobFault, PageQuestion, ScriptJob};
pub use output::{Outlet, Output};
pub use words::address::address;
