//! A law on the counts of the listing.
ghost use Rattle.std.specs.Prelude.{◌≡◌, ℕ, Option, is_some, length};
ghost use Rattle.numa_maps.specs.Listing.{is_on, pages_on, placed_in};
ghost use Rattle.numa_maps.specs.Residents.{IsRising, Kept, placed_at};
ghost use Rattle.numa_mode.specs.Policy.{PolicyRecord};
ghost use Rattle.numa_ranges.specs.Counts.{count_pages};
ghost use Rattle.numa_ranges.specs.declared.run.Run.{Run};

/// The counts of a range's line are counts of its pages: of those with a placement, and of those
/// with one on a node.
pub fn counts_are_of_pages()
    ensures placed { (kept : Kept) (range : Run (Option PolicyRecord)) → IsRising kept
        → length (placed_in kept range)
        ≡ count_pages (λ page. is_some (placed_at kept page)) range.first range.pages }
    ensures on_node { (kept : Kept) (range : Run (Option PolicyRecord)) (node : ℕ)
        → IsRising kept → pages_on (placed_in kept range) node
        ≡ count_pages (λ page. is_on node (placed_at kept page)) range.first range.pages }
{}
