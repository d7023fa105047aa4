//! Answers that programs read and people look at: JSON, tests, and pages for a browser.
//!
//! [`Answers`] writes the answers of scripts as lines of JSON. [`Comparing`] compares worked
//! scripts with theirs in other ways than [`numa_lines::Expect`], and writes them anew.
//! [`stretches_of`] tells by which rules pages go, and [`page_of`] makes a page to explore.
//! [`text_of`] says why a page goes where it goes, and how a page that is there comes where it
//! lies, or what the pools have for it ([`Pooled`]), and [`shown`] gives that a form.
//! [`with_pools`] adds to a prediction where pages of 2 MiB come from, and [`told_of`] to a picture
//! or a page what it is of.
//! [`reported`] and [`add_answer`] go on with a report, or with why there is none.
#![tactic(auto)]

mod about;
mod about_forms;
mod answers;
mod compared;
mod comparing;
mod page;
mod page_head;
mod page_script;
mod page_table;
mod pooled;
mod reason_picture;
mod reason_table;
mod reasons;
mod residence;
mod stretches;
mod telling;
mod told_tests;
mod versions;

pub use about::{About, told_of};
pub use answers::Answers;
pub use comparing::{Comparing, Comparison, Updated};
pub use page::{PageData, page_of, shared_answer, view_text};
pub use page_head::begin_page;
pub use pooled::{FromPools, Pooled, with_pools};
pub use reasons::{Whereabouts, put_fields, shown, text_of};
pub use residence::Residence;
pub use stretches::{PageInterval, stretches_of};
pub use telling::{add_answer, reported, shown_as};
