//! Tables indexed by place: a bit for each frame, and owners.
ghost use Rattle.std.specs.Prelude.{◌≡◌, ℕ, ◌+◌, ◌*◌, ◌<◌, ◌≤◌, ◌==◌, ◌&&◌, ◌||◌, false, None};
ghost use Rattle.std.specs.Prelude.{Some, IfOk, is_some, length, not, true, vec_len};
ghost use Rattle.std.specs.Prelude.{nat_le, nat_lt};
ghost use Rattle.numa_core.specs.Standing.{is_met, owner_at};

use std::alloc::{AllocError, Global};

/// Whether the frame at a place is met.
pub(crate) fn is_met(met: &Vec<u64>, place: u32) -> bool
    requires { place < 64 * vec_len met.now }
    ensures { result ≡ is_met met.now.items (Some place) }
{
    (met[place as usize / 64] >> (place % 64)) & 1 == 1
}

/// Marks the frame at a place as met.
pub(crate) fn meet(met: &mut Vec<u64>, place: u32)
    requires { place < 64 * vec_len met.old }
    ensures met { (p : ℕ) → is_met met.new.items (Some p)
        ≡ ((p == place) || is_met met.old.items (Some p)) }
    ensures len { vec_len met.new ≡ vec_len met.old }
{
    met[place as usize / 64] |= 1u64 << (place % 64);
}

/// Clears the mark of the frame at a place.
pub(crate) fn forget(met: &mut Vec<u64>, place: u32)
    requires { place < 64 * vec_len met.old }
    ensures met { (p : ℕ) → is_met met.new.items (Some p)
        ≡ (not (p == place) && is_met met.old.items (Some p)) }
    ensures len { vec_len met.new ≡ vec_len met.old }
{
    met[place as usize / 64] &= !(1u64 << (place % 64));
}

/// How many frames from a place on are marked one after another, as far as the place's word tells.
pub(crate) fn marked_from(met: &Vec<u64>, place: u32) -> u32
    requires { place < 64 * vec_len met.now }
    ensures marked { (p : ℕ) → place ≤ p → p < place + result
        → is_met met.now.items (Some p) ≡ true }
    ensures few { result ≤ 64 }
{
    (met[place as usize / 64] >> (place % 64)).trailing_ones()
}

/// Marks the frame at a place as met if it is owned.
fn meet_if(met: &mut Vec<u64>, place: u32, owned: bool)
    requires { place < 64 * vec_len met.old }
    ensures met { (p : ℕ) → is_met met.new.items (Some p)
        ≡ (((p == place) && owned) || is_met met.old.items (Some p)) }
    ensures len { vec_len met.new ≡ vec_len met.old }
{
    if owned {
        meet(met, place);
    }
}

/// Marks each owned frame from place `start` to `end` as met.
pub(crate) fn meet_owned(met: &mut Vec<u64>, owners: &Vec<Option<u8>>, start: u32, end: u32)
    requires order { start ≤ end }
    requires room { end ≤ 64 * vec_len met.old }
    requires owners { end ≤ vec_len owners.now }
    ensures met { (p : ℕ) → is_met met.new.items (Some p)
        ≡ (((nat_le start p && nat_lt p end) && is_some (owner_at owners.now.items (Some p)))
        || is_met met.old.items (Some p)) }
    ensures len { vec_len met.new ≡ vec_len met.old }
{
    for place in start..end {
        meet_if(met, place, owners[place as usize].is_some());
    }
}

/// Clears all marks.
pub(crate) fn clear(met: &mut Vec<u64>)
    ensures met { (p : ℕ) → is_met met.new.items (Some p) ≡ false }
    ensures len { vec_len met.new ≡ vec_len met.old }
{
    for word in met.iter_mut() {
        *word = 0;
    }
}

/// Words for `total` frames, none of them met.
pub(crate) fn none_met(alloc: Global, total: u32) -> Result<Vec<u64>, AllocError>
    ensures { IfOk result (λ met. total ≤ 64 * vec_len met) }
{
    vec![in alloc; 0; (total as usize + 63) / 64]
}

/// A table of `total` frames, none of them owned.
pub(crate) fn none_owned(alloc: Global, total: u32) -> Result<Vec<Option<u8>>, AllocError>
    ensures owners { IfOk result (λ owners. (p : ℕ) → owner_at owners.items (Some p) ≡ None) }
    ensures len { IfOk result (λ owners. vec_len owners ≡ total) }
{
    vec![in alloc; None; total as usize]
}
