//! Blocks of pages: what one first touch takes where transparent huge pages are enabled.
//!
//! A block of order n is 2^n pages of 4 KiB in a row, the first of which has a number that 2^n
//! divides. A first touch takes the page that is touched (order 0), or a whole block around it of
//! 16 KiB (order 2) to 2 MiB (order 9). This crate says which orders are tried, the greatest first,
//! on which nodes each, and by which index. It keeps nothing: callers tell the settings, the area
//! with the page, the pages around that nobody touched, and the policy that counts.
//!
//! **Settings** ([`BlockSettings`]) are those of a machine: which orders may be taken, and when
//! memory of other nodes may be looked for. **Advice** ([`Advice`]) is an area's (madvise(2)).
//!
//! **An area** ([`Area`]) is what Linux's virtual memory area is: pages in a row with consecutive
//! indexes, one policy and one advice. A block lies within one area.
//!
//! **A gap** ([`Gap`]) is the pages in a row around a page that nobody touched; a block that is
//! taken lies within it.
//!
//! What is left out: memory that is free but not in one piece, what is put together later
//! (khugepaged), and what is split again.
#![tactic(auto)]

pub mod area;
pub mod gap;
pub mod lists;
pub mod orders;
pub mod settings;
mod units;

pub use area::{Advised, Area};
pub use gap::Gap;
pub use settings::{Advice, BlockSettings, Enabled, SizeEnabled};
