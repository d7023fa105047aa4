//! Diagnosis: what is wrong with a line.
//!
//! [`finding_in`] and [`finding_in_host`] return what is wrong with a line whose answer is an error
//! or a refusal (`judge` of numa_play finds such lines). [`say_finding`] says that in a few words,
//! with what to do, and [`say_line`] in a line with its position.
//!
//! By the documents' rules, [`hint_of`] returns what a running kernel would do differently with a
//! line, [`hint_in`] with one of a host, and [`say_hint_line`] writes it.
#![tactic(auto)]

mod bad_words;
mod details;
mod finding;
mod finding_text;
mod hint;
mod host_details;
mod host_text;
mod page_text;
mod pages;
mod words;

pub use finding::{Detail, Finding, finding_in, finding_in_host};
pub use finding_text::{
    BINARY, LineAt, say_binary, say_finding, say_hint_line, say_line, say_unjudged,
};
pub use hint::{HostHint, hint_in, hint_of};
