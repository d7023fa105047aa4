//! Counting the pages of a span by the nodes that they lie on.
ghost use Rattle.std.specs.Prelude.{◌≡◌, ◌+◌, ◌<◌, ◌≤◌, ◌^◌, ℕ, slice_index};
ghost use Rattle.numa_placed.specs.Spots.{spot_at};
ghost use Rattle.numa_moves.specs.Shares.{stated_in};

use numa_placed::Placed;
use numa_reports::PageSpan;

/// The number of pages of a span that are stated to lie on each node.
pub(crate) fn count_in(placed: &Placed, span: PageSpan) -> [u64; 256]
    requires within { span.first + span.pages ≤ 2 ^ 35 }
    ensures { (node : ℕ) → node < 256
        → slice_index result node ≡ stated_in (spot_at placed.now) span node }
{
    placed.counts_in(span.first, span.pages)
}
