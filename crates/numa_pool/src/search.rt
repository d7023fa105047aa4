//! The search for a free frame of a node.
ghost use Rattle.std.specs.Prelude.{◌≡◌, ℕ, ◌+◌, ◌*◌, ◌<◌, ◌≤◌, ◌∷◌, [], List, length};
ghost use Rattle.std.specs.Prelude.{slice_index, MatchOption, IfSome, ◌++◌, ◌⊎◌};
ghost use Rattle.numa_pool.specs.Frames.{frame_of, times, with_found};
ghost use Rattle.numa_pool.specs.Seats.{IsShaped};
ghost use Rattle.numa_pool.specs.Walk.{IsWalk, LoadsOnce, TriesOnce};
ghost use Rattle.numa_pool.specs.Search.{Reached, SearchedWord};
ghost use Rattle.numa_pool.specs.declared.view.Entry.{Entry};

use crate::steps::{FrameWords, Token, attempt, look};
use numa_machine::Frame;

/// Takes a free frame of a word in which the node has `limit` frames.
fn take_word(
    words: &FrameWords,
    token: &mut Token,
    node: usize,
    word: usize,
    limit: usize,
) -> Option<usize>
    requires shape { (token.old.table ≡ words.now.table)
        × IsShaped words.now.table words.now.frames }
    requires word { (node < length words.now.frames) × (word < 64) × (0 < limit) × (limit ≤ 64)
        × (64 * word + limit ≤ slice_index words.now.frames node)
        × ((64 * word + limit ≡ slice_index words.now.frames node) ⊎ (limit ≡ 64)) }
    ensures same { (token.new.table ≡ token.old.table)
        × (token.new.view.unlogged ≡ token.old.view.unlogged) }
    ensures held { MatchOption result (token.new.view.held ≡ token.old.view.held)
        (λ bit. (bit < limit)
        × (token.new.view.held ≡ frame_of node (64 * word + bit) ∷ token.old.view.held)
        × (times node (64 * word + bit) token.old.view.held ≡ 0)) }
    ensures steps { (base : List Entry)
        → Reached words.now.frames node word base token.old.view.log
        → SearchedWord words.now.frames node word result base token.new.view.log }
{
    // The bits found set so far, by the load or by a lost try.
    let mut taken = look(words, token, node, word);
    while taken != u64::MAX {
        let bit = taken.trailing_ones() as usize;
        if bit >= limit {
            return None;
        }
        if attempt(words, token, node, word, bit) {
            return Some(bit);
        }
        taken |= 1u64 << bit;
    }
    None
}

/// Takes a free frame of the node.
pub(crate) fn take_frame(
    words: &FrameWords,
    token: &mut Token,
    node: u8,
    frames: usize,
) -> Option<Frame>
    requires shape { (token.old.table ≡ words.now.table)
        × IsShaped words.now.table words.now.frames }
    requires frames { (node < length words.now.frames)
        × (frames ≡ slice_index words.now.frames node) }
    ensures same { (token.new.table ≡ token.old.table)
        × (token.new.view.unlogged ≡ token.old.view.unlogged) }
    ensures held { token.new.view.held ≡ with_found result token.old.view.held }
    ensures found { IfSome result (λ f. (f.node ≡ node) × (f.number < frames)
        × (times f.node f.number token.old.view.held ≡ 0)) }
    ensures walk { (es : List Entry) × (token.new.view.log ≡ es ++ token.old.view.log)
        × IsWalk words.now.frames (node ∷ []) result es × LoadsOnce es × TriesOnce es }
{
    for word in 0..frames.div_ceil(64) {
        let limit = (frames - 64 * word).min(64);
        if let Some(bit) = take_word(words, token, node as usize, word, limit) {
            let number = (64 * word + bit) as u16;
            return Some(Frame { node, number });
        }
    }
    None
}
