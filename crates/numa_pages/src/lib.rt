//! A core whose pages are there: a core, where its pages lie, how many more pages each node takes,
//! and the pools that its pages of 2 MiB come from, kept together.
//!
//! Pages are stated to lie on nodes, or put there by a task's first touches (madvise(2),
//! MADV_POPULATE_WRITE), and go where Linux moves them: when the allowed nodes change (cpusets(7)),
//! by migrate_pages(2), by move_pages(2) and by mbind(2). Each change of the core goes through
//! [`Pages`], so that what is told of the pages is always of the core as it is: of a page that was
//! unmapped nothing is stated any more, and a move asks the allowed nodes of all accepted commands.
//!
//! Pages of 2 MiB are those that were mapped here as such ([`Pages::map_huge`]): they come from the
//! pools, and come and move whole. Each size has its own supply. What lies where is said in pages
//! of 4 KiB, of which one of 2 MiB is 512; what moves or comes counts once, whatever its size.
//!
//! A change of both happens in both or in neither. Frames that workers of the core take are apart:
//! no page lies in one here.
#![tactic(auto)]

mod binding;
mod listing;
mod mapping;
pub mod pages;
mod questions;
mod refusal;
mod trial;

pub use binding::Rebound;
pub use listing::{PageRun, list_runs};
pub use mapping::HugeMapping;
pub use pages::Pages;
pub use questions::counts_with;
pub use refusal::ChangeRefusal;
