//! What an accepted command changed.
use numa_mask::NodeMask;
use numa_mode::Record;

/// The pages of a command's span, at least one: from `first` up to `end`, which is excluded. By the
/// kernel's rules `end` may be above page 2^35, from which on no page is mapped.
/// `place` is a guess at the place of their ranges in ascending order, on which only speed depends.
#[derive(Clone, Copy, Debug)]
pub struct ChangedPages {
    pub first: u64,
    pub end: u64,
    pub place: usize,
}

/// What an accepted command changed beside the version, so that a plan can be edited for it alone.
#[derive(Clone, Copy, Debug)]
pub enum Change {
    /// Nothing: the command's span has no page.
    Nothing,
    /// These pages were mapped, without an own policy.
    Mapped {
        pages: ChangedPages,
    },
    /// These pages were unmapped, as far as they were mapped.
    Unmapped {
        pages: ChangedPages,
    },
    /// The own policy of these pages, as far as they are mapped, is now this one; `None`: they have
    /// none.
    Bound {
        pages: ChangedPages,
        policy: Option<Record>,
    },
    /// The own policies of these pages that take a home node have this one now.
    Homed {
        pages: ChangedPages,
        node: u32,
    },
    /// The policy of a task is now this one; `None`: it has none.
    TaskSet {
        task: u32,
        policy: Option<Record>,
    },
    /// The weight of a node is now this one.
    Weighed {
        node: u32,
        weight: u32,
    },
    /// Memory may be placed on these nodes now, and every policy has followed.
    Allowed {
        nodes: NodeMask,
    },
}
