//! A plain count, the baseline of the kernels.

/// How many pages of a span lie on each node.
#[inline(never)]
pub fn tallied(span: &[u8]) -> [u64; 256] {
    let mut counts = [0u64; 256];
    for entry in span {
        let place = usize::from(*entry);
        counts[place] = counts[place].wrapping_add(1);
    }
    counts
}
