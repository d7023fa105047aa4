//! Playing scripts to their end, and telling what is wrong with their lines.
//!
//! Every line of the language is played (`numa_host_script`). Scripts may be a host's: then an
//! answer is about one process, or about each and all together ([`subject_of`]). Lines about pages
//! that are there change no other answer: these are about first touches.
//!
//! Malformed and refused lines are skipped, and what is wrong with each is reported. [`judge`]
//! passes a line to a running script and returns what is wrong with it, if its answer is an error
//! or a refusal. [`check`] does only that of whole scripts. [`touches`] and [`page_meant`] say
//! which touches and which page are asked for, by what lines name, and [`page_places`] where that
//! page lies.
#![tactic(auto)]

mod findings;
mod foremost;
mod found_objects;
mod handing;
mod huge;
mod judging;
mod landing;
mod named;
mod places;
mod playing;
mod question;
mod touching;
mod tracing;
mod twin;

pub use findings::{Findings, Look, PLAIN};
pub use huge::{HugeCount, remark_on};
pub use judging::judge;
pub use named::TasksNamed;
pub use places::page_places;
pub use playing::{Scripts, check, plain_by, play};
pub use question::{answer, other_subject, subject_of};
pub use touching::{page_meant, touches};
