//! Vector kernels over spans of pages.
//!
//! A span is a slice of bytes with one entry a page: the number of the node that the page is on.
//! `fill_one` and `fill_cycle` fill a span with one node or with the nodes of a cycle in turn;
//! `count_node`, `count_all` and `count_in` count the pages on a node, on each node, and on the
//! nodes of a set, and `tally` adds the pages of a short span to counts. Each call is exact for
//! every length. Only `Cycle::new` allocates.
//!
//! The kernels work on vectors of 32 bytes (of 64 for a cycle), and finish a partial vector entry
//! by entry. Counts are kept in bytes for a block, as many vectors as can't overflow a byte, and
//! then added to 64-bit sums.
#![tactic(auto)]

pub mod count;
pub mod counts;
mod ends;
pub mod fill;
mod lanes;
pub mod turns;
pub mod within;

pub use count::{count_block, count_node};
pub use counts::{count_all, tally};
pub use fill::fill_one;
pub use turns::{Cycle, fill_cycle};
pub use within::count_in;
