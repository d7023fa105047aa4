//! A machine of two nodes with one frame each, 20 apart, and a desk on which pages 16 to 18 are
//! mapped. No task has a policy, so each list for a fault on node 0 is 0 1.
use crate::tests::setting::{desk_of, publish_map};
use numa_machine::Frame;
use numa_publish::Desk;
use numa_requests::{Placement, Request};
use std::alloc::Global;
use std::process::Abort;
use std::sync::Wait;

/// A desk for two readers, at version 1.
pub fn desk(rt: &(impl Wait + Abort), alloc: Global) -> Desk {
    let mut desk = desk_of(rt, alloc, 1, 2);
    publish_map(rt, &mut desk, 3);
    desk
}

/// A fault of task 1 on node 0.
pub fn on(page: u64) -> Request {
    Request {
        task: 1,
        page,
        cpu: 0,
    }
}

/// The answer of a fault that gets the only frame of this node, at this rank.
pub fn placed(page: u64, node: u8, rank: u32) -> Placement {
    Placement {
        version: 1,
        task: 1,
        page,
        node,
        frame: Frame { node, number: 0 },
        rank,
    }
}
