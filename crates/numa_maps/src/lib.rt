//! The listing of a space's ranges and the pages placed in them, as numa_maps shows it (numa(7)).
#![tactic(auto)]

pub mod counted;
mod hex;
pub mod laws;
mod line;
pub mod listing;
pub mod resident;

pub use counted::{say_counted, say_huge};
pub use listing::{WriteFault, say_maps, write_maps};
pub use resident::{RecordRefusal, Resident};
