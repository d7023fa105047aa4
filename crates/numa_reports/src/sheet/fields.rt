//! The fields of a prediction.

use crate::sheet::nodes::NodePages;
use numa_requests::PAGE_BYTES;

/// The pages of 4 KiB of one of 2 MiB.
const PARTS: u64 = 512;

/// The size of this many pages in bytes, which is also the address of page number `pages`. The
/// pages of a space end below 2^47 bytes.
pub(crate) fn bytes(pages: u64) -> u64 {
    pages.saturating_mul(PAGE_BYTES)
}

/// The size of a page in KiB, as a word.
pub(crate) fn kilobytes(is_huge: bool) -> &'static str {
    if is_huge { "2048" } else { "4" }
}

/// Pages by node.
#[derive(Clone, Copy)]
pub(crate) struct PlacedPages<'a> {
    /// Each node that gets pages, in ascending order.
    pub(crate) nodes: &'a [NodePages],
    /// The number of pages of all nodes.
    pub(crate) pages: u64,
    /// The number of pages that find no free page; `None` if free pages aren't counted, and none
    /// lacks.
    pub(crate) exhausted: Option<u64>,
}

/// The total number of pages of all nodes.
fn sum(nodes: &[NodePages]) -> u64 {
    let mut sum = 0u64;
    for one in nodes {
        sum = sum.saturating_add(one.pages);
    }
    sum
}

/// `pages` mapped pages, of which these nodes get some. Those that find no free page are counted if
/// there are some, and where free pages are counted, which `fills` says.
pub(crate) fn placed_of(nodes: &[NodePages], pages: u64, fills: bool) -> PlacedPages<'_> {
    let found = sum(nodes);
    let lacking = pages.saturating_sub(found);
    PlacedPages {
        nodes,
        pages: found,
        exhausted: if fills || lacking > 0 {
            Some(lacking)
        } else {
            None
        },
    }
}

/// Whether each count is one of whole pages of 2 MiB. (Where parts of them take free pages of
/// 4 KiB, it may not be.)
pub(crate) fn are_whole(nodes: &[NodePages]) -> bool {
    for one in nodes {
        if one.pages % PARTS != 0 {
            return false;
        }
    }
    true
}

/// Counts the same pages in such of 2 MiB, `pages` in all.
pub(crate) fn count_whole(nodes: &mut [NodePages], pages: u64) -> u64 {
    for k in 0..nodes.len() {
        let one = nodes[k];
        nodes[k] = NodePages {
            pages: one.pages / PARTS,
            ..one
        };
    }
    pages / PARTS
}

impl PlacedPages<'_> {
    /// The number of pages that find no free page; `None` if it is 0.
    pub(crate) fn lacking(&self) -> Option<u64> {
        match self.exhausted {
            Some(0) => None,
            exhausted => exhausted,
        }
    }
}

/// The row of a range.
#[derive(Clone, Copy)]
pub(crate) struct RangeRow<'a> {
    /// The address of its first byte.
    pub(crate) start: u64,
    /// The address after its last byte.
    pub(crate) end: u64,
    /// The policy as numa_maps shows it.
    pub(crate) policy: &'a str,
    /// Whether its pages are counted as such of 2 MiB.
    pub(crate) is_huge: bool,
    pub(crate) placed: PlacedPages<'a>,
}
