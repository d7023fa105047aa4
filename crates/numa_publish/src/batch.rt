//! Entries of the log of accepted commands.
use numa_requests::Command;
use std::collections::LinkedList;

/// Commands that were logged together, the newest first. No value of it is made.
pub struct Batch {
    pub commands: LinkedList<Command>,
}
