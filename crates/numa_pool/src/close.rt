//! Counting the taken frames at the end.
ghost use Rattle.std.specs.Prelude.{◌≡◌, ℕ, ◌+◌, ◌*◌, ◌<◌, ◌≤◌, List};
ghost use Rattle.std.specs.Prelude.{length, slice_index, IsTrue, ◌↔◌, ◌∷◌};
ghost use Rattle.std.specs.Int.{bit_at};
ghost use Rattle.std.specs.Mem.Slots.{slots_items, slots_len, IsFull};
ghost use Rattle.numa_pool.specs.Frames.{bit_in, set_below};
ghost use Rattle.numa_pool.specs.Order.{HaveOrder};
ghost use Rattle.numa_pool.specs.Seats.{Closes, IsShaped, Marks};
ghost use Rattle.numa_pool.specs.Steps.{past_of};

use crate::closed::Closed;
use crate::steps::{FrameWords, Rest, Token, close};

/// Whether the bit is set.
fn is_set(word: u64, bit: usize) -> bool
    requires { bit < 64 }
    ensures { IsTrue result ↔ (bit_at word bit ≡ 1) }
{
    (word >> bit) & 1 == 1
}

/// Whether the frame is taken.
fn is_taken(rest: &Rest, node: usize, k: usize) -> bool
    requires { IsFull rest.now.words × (64 * node + 64 ≤ slots_len rest.now.words)
        × (slots_len rest.now.words ≤ 16384) × (k < 4096) }
    ensures { IsTrue result ↔ (bit_in (slots_items rest.now.words) node k ≡ 1) }
{
    is_set(rest.word(64 * node + k / 64), k % 64)
}

/// The number of taken frames among the first of a node.
fn count_node(rest: &Rest, node: usize, frames: usize) -> u32
    requires { IsFull rest.now.words × (64 * node + 64 ≤ slots_len rest.now.words)
        × (slots_len rest.now.words ≤ 16384) × (frames ≤ 4096) }
    ensures { result ≡ set_below (slots_items rest.now.words) node frames }
{
    let mut count = 0;
    for k in 0..frames {
        if is_taken(rest, node, k) {
            count += 1;
        }
    }
    count
}

/// Whether each taken frame of a node is marked.
fn is_all_marked(rest: &Rest, bits: &[u64], node: usize, frames: usize) -> bool
    requires { IsFull rest.now.words × (64 * node + 64 ≤ slots_len rest.now.words)
        × (slots_len rest.now.words ≤ 16384) × (frames ≤ 4096)
        × (length bits.now ≡ slots_len rest.now.words) }
    ensures { IsTrue result ↔ ((k : ℕ) → k < frames
        → bit_in (slots_items rest.now.words) node k ≡ 1 → bit_in bits.now node k ≡ 1) }
{
    for k in 0..frames {
        if is_taken(rest, node, k) && !is_set(bits[64 * node + k / 64], k % 64) {
            return false;
        }
    }
    true
}

/// Whether each taken frame is marked.
fn is_alone(rest: &Rest, bits: &[u64], frames: &[u32]) -> bool
    requires { IsFull rest.now.words × (slots_len rest.now.words ≡ 64 * length frames.now)
        × (length frames.now ≤ 256) × (length bits.now ≡ slots_len rest.now.words)
        × ((n : ℕ) → slice_index frames.now n ≤ 4096) }
    ensures { IsTrue result ↔ ((n k : ℕ) → n < length frames.now → k < slice_index frames.now n
        → bit_in (slots_items rest.now.words) n k ≡ 1 → bit_in bits.now n k ≡ 1) }
{
    for node in 0..frames.len() {
        if !is_all_marked(rest, bits, node, frames[node] as usize) {
            return false;
        }
    }
    true
}

/// The number of taken frames of each node.
fn count_all(rest: &Rest, frames: &[u32]) -> [u32; 256]
    requires { IsFull rest.now.words × (slots_len rest.now.words ≡ 64 * length frames.now)
        × (length frames.now ≤ 256) × ((n : ℕ) → slice_index frames.now n ≤ 4096) }
    ensures { (n : ℕ)
        → slice_index result n ≡ set_below (slots_items rest.now.words)
        n (slice_index frames.now n) }
{
    let mut taken = [0; 256];
    for node in 0..frames.len() {
        taken[node] = count_node(rest, node, frames[node] as usize);
    }
    taken
}

/// Counts the taken frames, and frees the words.
pub(crate) fn counted(words: FrameWords, token: Token, bits: &[u64], frames: &[u32]) -> Closed
    requires shape { (token.table ≡ words.table) × (words.frames ≡ frames.now)
        × IsShaped words.table frames.now }
    requires marks { Marks words.table.words bits.now token.view.held }
    ensures end { Closes frames.now token.view.held result.taken result.alone }
    ensures order { HaveOrder frames.now
        (past_of token.view.log token.view.unlogged ∷ token.view.unlogged.past) result.taken }
{
    let rest = close(words, token);
    let taken = count_all(&rest, frames);
    let alone = is_alone(&rest, bits, frames);
    rest.free();
    Closed { taken, alone }
}
