//! Page faults.

/// A page fault: the task that touched the page, the number of the page (its address divided by
/// 4,096), and the node of the processor that the task ran on.
#[derive(Clone, Copy, PartialEq, Eq, Debug, Drop)]
pub struct Request {
    pub task: u32,
    pub page: u64,
    pub cpu: u32,
}
