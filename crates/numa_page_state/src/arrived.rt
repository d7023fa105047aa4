//! What first touches of a span did.
ghost use Rattle.std.specs.Prelude.{◌≡◌, ◌-◌, ◌<◌, ℕ, slice_index};
ghost use Rattle.numa_page_state.specs.Lying.{untouched};
ghost use Rattle.numa_page_state.specs.Standing.{ArrivedAs};

/// What a task's first touches of the pages of a span did.
#[derive(Clone, Copy, Drop)]
pub struct Arrived {
    /// The number of pages that went to a node.
    pub placed: u64,
    /// The number of pages that found no room.
    pub exhausted: u64,
    /// By node, the number of pages that went there.
    pub on: [u64; 256],
}

/// No page was touched.
pub fn untouched() -> Arrived
    ensures { ArrivedAs result untouched }
{
    Arrived {
        placed: 0,
        exhausted: 0,
        on: [0; 256],
    }
}

/// By node, how many more pages lie there than before.
pub(crate) fn more(before: &[u64; 256], after: [u64; 256]) -> [u64; 256]
    ensures { (node : ℕ) → node < 256
        → slice_index result node ≡ slice_index after node - slice_index before.now node }
{
    let mut came = after;
    for node in 0..256usize {
        came[node] = came[node].saturating_sub(before[node]);
    }
    came
}
