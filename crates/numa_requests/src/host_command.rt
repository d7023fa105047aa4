//! The commands that a host obeys.
use crate::command::Command;
use numa_mask::NodeMask;

/// What a user asks of a host. The root of the groups is 0.
#[derive(Clone, Copy, Debug, PartialEq, Eq)]
pub enum HostCommand {
    /// Makes a group below another, without a list of its own (cgroups(7), mkdir).
    NewGroup {
        group: u32,
        parent: u32,
    },
    /// Gives a group its own list of nodes, or takes it away (`cpuset.mems`). Each process whose
    /// group's effective nodes change is allowed the new ones, and its policies follow.
    SetGroupMems {
        group: u32,
        mems: Option<NodeMask>,
    },
    /// An empty process in a group.
    NewProcess {
        process: u32,
        group: u32,
    },
    /// Ends a process.
    Exit {
        process: u32,
    },
    /// Moves a process to another group (`cgroup.procs`); its policies follow.
    Attach {
        process: u32,
        group: u32,
    },
    /// A copy of a process in the same group, whose task `task` begins with the policy that `from`
    /// has in the parent (fork(2)).
    Fork {
        parent: u32,
        child: u32,
        from: u32,
        task: u32,
    },
    /// A command of one process; no change of the allowed nodes or of weights.
    In {
        process: u32,
        command: Command,
    },
    /// Gives a node its weight, for every process (sysfs, "weighted_interleave").
    SetWeight {
        node: u32,
        weight: u32,
    },
}
