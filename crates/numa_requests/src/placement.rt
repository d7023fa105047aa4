//! The result of a fault.
use numa_machine::Frame;

/// Where a page of a task was placed: the version of the published policy that decided it, the node
/// and its frame, and the rank, which is the node's place in the page's list of nodes, from 0. It
/// represents the frame, so it is moved and never copied.
#[derive(PartialEq, Eq, Debug, Drop)]
pub struct Placement {
    pub version: u64,
    pub task: u32,
    pub page: u64,
    pub node: u8,
    pub frame: Frame,
    pub rank: u32,
}
