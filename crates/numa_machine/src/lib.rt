//! The machine on which memory is placed: its nodes, the distances between them, their frames, the
//! weights by which nodes take turns, and the sizes of pages. `NoMemory` and `PlaceRefusal`, which
//! the crates above return, are defined here too.
#![tactic(auto)]

mod description;
mod distance_orders;
pub mod fallback;
pub mod fault;
pub mod frame;
mod kernel_orders;
pub mod laws;
pub mod machine;
pub mod no_memory;
mod orders;
pub mod page_size;
pub mod refusal;
pub mod rules;
pub mod weights;

pub use fallback::Fallback;
pub use fault::{MachineFault, WeightError};
pub use frame::Frame;
pub use machine::Machine;
pub use no_memory::NoMemory;
pub use page_size::{
    PageSize, is_inside, is_part, is_shared, parts_left, round_of, shared_turn, turn_at,
};
pub use refusal::PlaceRefusal;
pub use rules::Rules;
pub use weights::Weights;
