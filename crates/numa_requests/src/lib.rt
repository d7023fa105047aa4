//! What is asked of a space of pages and of a core, and what comes back.
//!
//! Users change a space by commands, each within limits and each accepted or refused for the first
//! cause that applies, in the order of `Refusal`; numa_space judges them. A page fault is a
//! `Request`, and its result a `Placement`. An `Event` is one atomic step of a core: a command, a
//! publication, or a worker's step towards a frame; numa_core takes them. A host of processes obeys
//! a `HostCommand` or gives a `HostRefusal` (numa_host); calls about pages that are there give a
//! `PlacedRefusal` or a `MoveRefusal` (numa_placed), those about pages of 2 MiB a `HugeRefusal`.
//!
//! They are plain types: whoever reads or writes them, as a script does, needs no space.
#![tactic(auto)]

pub mod command;
pub mod event;
pub mod host_command;
pub mod host_refusal;
pub mod limits;
pub mod page_refusal;
pub mod placement;
pub mod refusal;
pub mod request;

pub use command::{Command, PAGE_BYTES};
pub use event::{CoreRefusal, CoreReply, Event};
pub use host_command::HostCommand;
pub use host_refusal::{HostErrno, HostRefusal};
pub use limits::Limits;
pub use page_refusal::{HugeRefusal, MoveRefusal, PlacedRefusal};
pub use placement::Placement;
pub use refusal::{Errno, Refusal};
pub use request::Request;
