//! Shared objects: memory that several mappings, of one process or of several, have in common (a
//! memfd, a file in tmpfs, a System V segment, shared anonymous memory), and the policies of their
//! places ("NUMA Memory Policy", shared policies).
//!
//! **Objects and places.** An object has a name, which is a number, and the number of its inode. A
//! place is a page in it, counted from 0. Objects are numbered as they are made, from 0 on: that is
//! an object's slot. None ever ends.
//!
//! **Indexes.** A page of an object has an index of its own region, from 2^37 on, which says the
//! slot, and INODE plus the place. The latter is the page's turn: by it nodes that take turns are
//! chosen, as Linux does, whoever maps the object and wherever.
//!
//! **Policies.** A place has the policy that was last given to it, or none; then that of the task
//! counts. A policy's nodes stay as they were when it was set, whatever a process is allowed later.
//!
//! **Values.** A call that changes something returns other objects, and leaves those that it was
//! asked of: so a caller can go back, and processes that share objects keep one table.
//!
//! There are at most 1,024 objects, and 65,536 ranges of places in all of them with one policy
//! each.
#![tactic(auto)]

mod counting;
pub mod fault;
mod object;
pub mod objects;
pub mod place_policy;
mod shared_object;
pub mod spot;
mod table;
mod tally;

pub use fault::ObjectFault;
pub use objects::Objects;
pub use place_policy::PlacePolicy;
pub use spot::{is_shared, turn_of};
