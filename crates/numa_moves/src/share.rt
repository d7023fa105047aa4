//! Pages of a span that lie on one node.
ghost use Rattle.std.specs.Prelude.{◌≡◌, ◌≤◌, ◌++◌, OnOk, slice_index};
ghost use Rattle.numa_moves.specs.Shares.{share_by, shares_within};

use numa_reports::PageSpan;
use std::alloc::AllocError;

/// So many pages of a span that lie on one node.
#[derive(Clone, Copy)]
pub struct Share {
    /// The span, of which other pages may lie on other nodes.
    pub span: PageSpan,
    /// The node.
    pub node: u8,
    /// The number of pages of the span that lie on it.
    pub there: u64,
}

/// Appends so many pages of a span on a node, if there are any.
pub(crate) fn push_share(
    shares: &mut Vec<Share>,
    span: PageSpan,
    node: u8,
    there: u64,
) -> Result<(), AllocError>
    ensures { OnOk result (shares.new.items ≡ shares.old.items ++ share_by span node there) }
{
    if there == 0 {
        return Ok(());
    }
    shares.push(Share { span, node, there })?;
    Ok(())
}

/// Appends the pages of a span on each of so many nodes.
pub(crate) fn push_within(
    shares: &mut Vec<Share>,
    span: PageSpan,
    counts: &[u64; 256],
    nodes: u32,
) -> Result<(), AllocError>
    requires few { nodes ≤ 256 }
    ensures { OnOk result (shares.new.items
        ≡ shares.old.items ++ shares_within (slice_index counts.now) span nodes) }
{
    for node in 0..nodes {
        push_share(shares, span, node as u8, counts[node as usize])?;
    }
    Ok(())
}
