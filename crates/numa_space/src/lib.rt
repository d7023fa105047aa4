//! A space of pages and the memory policies of its ranges and tasks, which commands change.
//!
//! A space belongs to one machine. Users change it by commands, each accepted or refused, and ask
//! it on which nodes memory for a page is looked for, in which order. Its answers follow from the
//! list of the accepted commands alone, the history: no rule below depends on how the space keeps
//! its ranges.
//!
//! **Spans and pages.** A page is 4,096 bytes. A span is given in bytes by a start and a length,
//! and has the pages from `start / 4096` on, as many as the length rounded up. A page is mapped if
//! the last command that mapped, unmapped or bound it didn't unmap it. (mmap(2), munmap(2),
//! mbind(2))
//!
//! **Indexes.** The pages of a mapping have consecutive indexes from the mapping's offset on, and a
//! page keeps its index when adjacent pages are unmapped or bound. Where nodes take turns, the
//! index chooses the node, not the address.
//!
//! **Sizes.** A mapping has pages of 4 KiB or, from a pool (hugetlb), of 2 MiB. Spans, pages and
//! indexes are counted in 4 KiB either way; a page of 2 MiB is 512 parts in a row, whose indexes
//! begin at 2^36. A page takes one turn: all its parts go to one node, and the next page to the
//! next. No command changes a part alone.
//!
//! **Allowed nodes.** Memory comes from allowed nodes only: the nodes with memory of the last
//! change of the allowed nodes, or all nodes with memory before any change. (cpusets(7),
//! `cpuset.mems`)
//!
//! **Effective sets.** A policy requests nodes; those that it uses are its effective set. With
//! STATIC_NODES they are the requested nodes that are allowed now. With RELATIVE_NODES the
//! requested numbers are ordinals among the nodes that are allowed now, folded if they pass the
//! last one. With neither they are the requested nodes that were allowed when the policy was set,
//! and at each later change of the allowed nodes they move to the nodes with the same ordinals; so
//! nodes that a smaller set between two larger ones took away don't come back. (set_mempolicy(2);
//! "NUMA Memory Policy", policies and cpusets)
//!
//! **Scopes.** A page's range can have a policy, and a task can. A policy is live if its effective
//! set has a node, or its mode is LOCAL. A fault is served by the range's policy if it is live,
//! else by the task's if it is live, else by none, which is local allocation. ("NUMA Memory
//! Policy", scope of memory policies)
//!
//! **DEFAULT** is no policy: it removes the range's or the task's, so that the next scope applies.
//!
//! **LOCAL** takes memory from the allowed nodes, the nearest to the faulting node first.
//!
//! **PREFERRED** has one node, the lowest of its set, and takes memory from the allowed nodes, the
//! nearest to that node first.
//!
//! **BIND** takes memory only from its nodes, the nearest to the faulting node first.
//!
//! **PREFERRED_MANY** takes memory from its nodes, the nearest first, and then from the other
//! allowed nodes, the nearest first.
//!
//! **INTERLEAVE** spreads pages over its nodes in turn: a page goes to the node whose ordinal in
//! the set is the page's index modulo the set's weight. If that node is full, the allowed nodes
//! nearest to it follow.
//!
//! **WEIGHTED_INTERLEAVE** does so by blocks: in each round of as many indexes as its nodes' total
//! weight, each node in ascending order has as many indexes as its weight.
//!
//! **Weights.** A node's weight is 1 until a command sets another, from 1 to 255. (sysfs,
//! `/sys/kernel/mm/mempolicy/weighted_interleave`)
//!
//! **Homes.** A range's BIND or PREFERRED_MANY can have a home node, from which distances are
//! measured instead of from the faulting node. The last command that set one for the page counts,
//! and a policy that is set later begins without one. Other modes take none, and pages without an
//! own policy are skipped. (set_mempolicy_home_node(2))
//!
//! **Ranges.** A range is a maximal run of mapped pages with consecutive indexes and the same own
//! policy: mode, flag, requested nodes, effective set and home. Ranges split and join as they must,
//! and their number is limited. (mbind(2): Linux splits and merges its areas)
//!
//! **Refusals.** A command is refused for the first cause that applies, in the order of `Refusal`,
//! and then changes nothing. Out of memory is the last cause, and the only one that the history
//! doesn't decide. Mbind and Unmap of no bytes change only the version; so does SetHome of no
//! bytes, if the machine has its node.
//!
//! **Requests.** Commands, refusals, limits, faults and the events of a core are numa_requests';
//! the space itself handles no fault and no event.
#![tactic(auto)]

pub mod change;
mod choice;
pub mod laws;
mod page_ranges;
pub mod range_record;
mod range_rows;
pub mod space;
mod task_policies;
mod task_records;

pub use change::{Change, ChangedPages};
pub use range_record::RangeRecord;
pub use range_rows::RangeRows;
pub use space::Space;
