//! Counts of pages by node.
ghost use Rattle.std.specs.Prelude.{◌≡◌, ◌+◌, ◌<◌, ◌≤◌, ◌^◌, ℕ, slice_index};

/// The pages on each node of two lists.
pub fn add(held: [u64; 256], stated: &[u64; 256]) -> [u64; 256]
    requires held { (node : ℕ) → node < 256 → slice_index held node < 2 ^ 63 }
    requires stated { (node : ℕ) → node < 256 → slice_index stated.now node ≤ 2 ^ 35 }
    ensures { (node : ℕ) → node < 256
        → slice_index result node ≡ slice_index held node + slice_index stated.now node }
{
    let mut pages = held;
    for node in 0..256usize {
        pages[node] += stated[node];
    }
    pages
}
