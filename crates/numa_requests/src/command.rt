//! The commands to a space.
use numa_machine::PageSize;
use numa_mask::NodeMask;
use numa_mode::PolicySpec;

/// The size of a page in bytes, in which pages are numbered.
pub const PAGE_BYTES: u64 = 4096;

/// A command to a space. Starts and lengths are in bytes; a span is the pages of 4,096 bytes from
/// page `start / 4096` on, as many as the length rounded up to whole pages. Offsets are in pages.
#[derive(Clone, Copy, Debug, PartialEq, Eq)]
pub enum Command {
    /// Maps a span of unmapped pages, as pages of this size; the first has the index
    /// `size.index(offset)` (mmap(2)). The length is rounded up to whole pages of that size.
    Map {
        start: u64,
        length: u64,
        offset: u64,
        size: PageSize,
    },
    /// Unmaps the mapped pages of a span (munmap(2)).
    Unmap {
        start: u64,
        length: u64,
    },
    /// Sets the policy of a span's pages; DEFAULT removes it (mbind(2)).
    Mbind {
        start: u64,
        length: u64,
        spec: PolicySpec,
    },
    /// Sets the policy of a task; DEFAULT removes it (set_mempolicy(2)).
    SetTask {
        task: u32,
        spec: PolicySpec,
    },
    /// Gives a task the policy that another has, as a new thread or process begins with that of the
    /// one that made it (fork(2), clone(2)); if the other has none, removes its policy.
    Inherit {
        task: u32,
        from: u32,
    },
    /// Sets the home node of the policies of a span's pages (set_mempolicy_home_node(2)).
    SetHome {
        start: u64,
        length: u64,
        node: u32,
    },
    /// Sets the weight of a node for weighted interleaving (sysfs, "weighted_interleave").
    SetWeight {
        node: u32,
        weight: u32,
    },
    /// Sets the nodes on which memory may be placed (cpuset.mems of cpusets(7)).
    SetMems {
        mask: NodeMask,
    },
}
