//! Pages of 2 MiB of a process: which are mapped, for which a page of the pools is reserved, and on
//! which node each lies that was touched.
//!
//! A page has the number of its first address, counted in pages of 2 MiB. Pages that are mapped are
//! either untouched, with a reservation or without one, or lie on a node ([`HugeSpot`]). They come
//! from the pools ([`Pools`](numa_pools::Pools)), which [`HugePlaces`] keeps beside them: so many
//! pages of a node are used as lie there, and so many are reserved as say so.
//!
//! **Mappings** reserve their pages, or don't (`mapped`). What is unmapped becomes free, and
//! reservations are given back (`unmapped`).
//!
//! **First touches.** The first node of the page's list that has a free page gives it (`fault`,
//! `populated`).
//!
//! **Moves.** A page goes whole: a free page of its new node serves, or one of the total changes
//! nodes. Moves never lack room (`follow`, `move_page`, `sent`).
//!
//! **Processes** share pools: they are lent to one that acts (`lend`), and taken back (`pools`).
//! A child has the pages of its parent, untouched (`inherited`); those of one that ends become free
//! (`pools_without`).
//!
//! **Runs.** Pages in a row of which the same is known are one run, of which there may be
//! 1,048,576.
#![tactic(auto)]

pub mod arrived;
pub mod counts;
pub mod last;
pub mod pages;
pub mod places;
pub mod spot;

pub use arrived::HugeArrived;
pub use counts::Counts;
pub use last::{Flows, HugeLast, HugeMove};
pub use pages::HugePages;
pub use places::HugePlaces;
pub use spot::HugeSpot;
