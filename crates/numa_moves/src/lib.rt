//! What becomes of pages that are there, when the nodes change that they may lie on or people
//! migrate them.
//!
//! The pages of a range that lie on one node are a [`Share`]: which of them are where is no matter,
//! since moves take the lowest pages of each node first. Shares are counted from where pages are
//! stated to lie, or from where a task would touch them ([`stated_shares`], [`touched_shares`]).
//! [`moves_within`] says what becomes of each, as `numa_placed` moves pages: `page_moves` of
//! [`laws`] says that it is what becomes of the pages. [`Holdings`] has the shares of a process, or
//! of all processes of a host, whose pages move in the order of `numa_host_pages`, and
//! [`moves_text`] tells of their moves.
#![tactic(auto)]

mod arranging;
mod counting;
mod holding;
pub mod laws;
mod move_line;
mod moving;
mod scene;
mod share;
mod shares;
mod sheet;
mod sums;

pub use holding::{Holding, HoldingMoves, Holdings, Origin, Step};
pub use move_line::{AtLine, MoveLine, read_at, read_move};
pub use moving::{ShareMove, moves_within, pages_by_node, shares_behind};
pub use scene::{Scene, add_placed};
pub use share::Share;
pub use shares::{stated_shares, touched_shares};
pub use sheet::{Asked, moves_text};
