//! A seat's private bit for each frame.
ghost use Rattle.std.specs.Prelude.{ℕ, ◌+◌, ◌-◌, ◌*◌, ◌/◌, ◌<◌, ◌≤◌, min, max, length};
ghost use Rattle.std.specs.Prelude.{IsTrue, ◌↔◌, ◌≡◌, IfOk, slice_index};
ghost use Rattle.numa_pool.specs.Frames.{bit_in, one_if, is_frame};

use numa_machine::Frame;
use std::alloc::{AllocError, Global};

/// `words` words in which no bit is set.
pub(crate) fn blank(alloc: Global, words: usize) -> Result<Vec<u64>, AllocError>
    ensures { IfOk result (λ v. (length v.items ≡ words) × ((i : ℕ) → slice_index v.items i ≡ 0)) }
{
    let bits = Vec::from_elem(alloc, 0u64, words)?;
    Ok(bits)
}

/// Sets the bit of the frame.
pub(crate) fn mark(bits: &mut Vec<u64>, frame: Frame)
    requires { (64 * frame.node + 64 ≤ length bits.old.items) × (frame.number < 4096) }
    ensures same_length { length bits.new.items ≡ length bits.old.items }
    ensures bits { (n k : ℕ) → k < 4096
        → bit_in bits.new.items n k
        ≡ max (bit_in bits.old.items n k) (one_if (is_frame frame n k)) }
{
    bits[64 * frame.node as usize + frame.number as usize / 64] |= 1u64 << (frame.number % 64);
}

/// Clears the bit of the frame.
pub(crate) fn unmark(bits: &mut Vec<u64>, frame: Frame)
    requires { (64 * frame.node + 64 ≤ length bits.old.items) × (frame.number < 4096) }
    ensures same_length { length bits.new.items ≡ length bits.old.items }
    ensures bits { (n k : ℕ) → k < 4096
        → bit_in bits.new.items n k
        ≡ min (bit_in bits.old.items n k) (1 - one_if (is_frame frame n k)) }
{
    bits[64 * frame.node as usize + frame.number as usize / 64] &= !(1u64 << (frame.number % 64));
}

/// Whether the bit of the frame is set.
pub(crate) fn is_marked(bits: &[u64], frame: Frame) -> bool
    requires { 64 * frame.node + frame.number / 64 < length bits.now }
    ensures { IsTrue result ↔ (bit_in bits.now frame.node frame.number ≡ 1) }
{
    (bits[64 * frame.node as usize + frame.number as usize / 64] >> (frame.number % 64)) & 1 == 1
}

/// Sets each bit that is set in `other`.
pub(crate) fn add_marks(bits: &mut Vec<u64>, other: &[u64])
    requires { length bits.old.items ≡ length other.now }
    ensures same_length { length bits.new.items ≡ length bits.old.items }
    ensures bits { (n k : ℕ)
        → bit_in bits.new.items n k ≡ max (bit_in bits.old.items n k) (bit_in other.now n k) }
{
    for i in 0..other.len() {
        bits[i] |= other[i];
    }
}
