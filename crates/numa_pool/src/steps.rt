//! The frame words of the pools, and every step on them.
//!
//! There are eight kinds of step and no other: the opening, a split of seats, a join and a check
//! (each a load), a load of a frame word, a fetch_or of one bit that finds it clear or finds it
//! set, and a fetch_and of all bits but one.
//!
//! The words and the right to step on them are two types whose fields are private to this file. So
//! the functions below are all that the rest of the crate, or a crate above it, can do to them.
//! Each makes one atomic step and records it for contracts: a load, a try and a return in the log
//! of the seat, a split, a join and a check in its count of the others. The rule says that the
//! steps of all logs have one order, which leads to the words.
ghost use Rattle.std.specs.Prelude.{◌≡◌, ℕ, ◌+◌, ◌*◌, ◌<◌, ◌≤◌, [], ◌∷◌, true};
ghost use Rattle.std.specs.Prelude.{length, slice_index, IfOk};
ghost use Rattle.std.specs.Mem.Slots.{slots_items, slots_len, IsFull};
ghost use Rattle.numa_pool.specs.Frames.{frame_of, times, bit_in, IsOnce};
ghost use Rattle.numa_pool.specs.Order.{IsLedTo};
ghost use Rattle.numa_pool.specs.Seats.{IsShaped, IsLast};
ghost use Rattle.numa_pool.specs.Steps.{newcomer, with_entry, after_try, after_give};
ghost use Rattle.numa_pool.specs.Steps.{after_split, after_join, after_check, newborn, past_of};
ghost use Rattle.numa_pool.specs.declared.view.Entry.TheVariants.{Load};

use crate::view::View;
use atomic_table::{Join, Play, Seat, Split, Table, TableRule};
use std::alloc::{AllocError, Global};
use std::marker::Model;

/// A bit is set exactly if one seat holds its frame: the rule, kept as counts. And the steps of
/// all seats have an order, which leads to the words.
struct CountedRule;

impl TableRule<Option<()>, View, Vec<u32>> for CountedRule {
    ghost use Rattle.numa_pool.specs.Order.{Kept};
    ghost use Rattle.numa_pool.specs.Steps.{newcomer};

    ghost holds = { λ frames s. Kept frames.items s.words s.views };

    ghost first = { λ _. newcomer };
}

/// The frame words, with their memory.
#[derive(Drop)]
pub(crate) struct FrameWords {
    table: Table<Option<()>, View, Vec<u32>, CountedRule, Global>,
}

impl Model for FrameWords {
    ghost use Rattle.numa_pool.specs.Seats.{PoolsView, IsShaped};

    ghost Value = { PoolsView };

    ghost view = { λ w. record {
      table = w.table.shared.table_id;
      frames = w.table.shared.key.items;
    } };

    ghost invariant = { λ w. IsShaped w.table.shared.table_id w.table.shared.key.items };
}

/// The right to step on the words. It has no bytes.
#[derive(Drop)]
pub(crate) struct Token {
    seat: Seat<Option<()>, View>,
}

impl Model for Token {
    ghost use Rattle.std.specs.Prelude.{◌≡◌, [], false};
    ghost use Rattle.numa_pool.specs.Seats.{TokenView};

    ghost Value = { TokenView };

    ghost view = { λ t. record { table = t.seat.table_id; view = t.seat.me.0 } };

    ghost invariant = { λ t. (t.seat.me.1 ≡ []) × (t.seat.me.0.gone ≡ false) };
}

/// The words after the last thread that could step on them.
pub(crate) type Rest = atomic_table::Closed<Option<()>, Global>;

/// The words of nodes with these numbers of frames, with no bit set.
pub(crate) fn opening(
    alloc: Global,
    bits: &[u64],
    frames: &Vec<u32>,
) -> Result<(FrameWords, Token), AllocError>
    requires nodes { (0 < length frames.now.items) × (length frames.now.items ≤ 256)
        × ((n : ℕ) → slice_index frames.now.items n ≤ 4096) }
    requires bits { (length bits.now ≡ 64 * length frames.now.items)
        × ((i : ℕ) → slice_index bits.now i ≡ 0) }
    ensures words { IfOk result (λ opened. (opened.0.frames ≡ frames.now.items)
        × IsShaped opened.0.table opened.0.frames) }
    ensures token { IfOk result (λ opened. (opened.1.table ≡ opened.0.table)
        × (opened.1.view ≡ newcomer)) }
{
    let (table, seat) = Table::vacant(alloc, bits, 0, frames)?;
    Ok((FrameWords { table }, Token { seat }))
}

/// A load of a frame word.
struct LoadWord;

impl Play<Option<()>, View> for LoadWord {
    ghost use Rattle.numa_pool.specs.Steps.{IsLook};

    ghost then = { IsLook };
}

/// Loads a word of a node.
pub(crate) fn look(words: &FrameWords, token: &mut Token, node: usize, word: usize) -> u64
    requires table { token.old.table ≡ words.now.table }
    requires word { (node < length words.now.frames) × (word < 64) }
    ensures { (token.new.table ≡ token.old.table)
        × (token.new.view ≡ with_entry token.old.view (Load node word result)) }
{
    let board = &words.table.shared;
    board.load::<LoadWord>(&mut token.seat, 64 * node + word)
}

/// A fetch_or of one bit.
struct SetBit;

impl Play<Option<()>, View> for SetBit {
    ghost use Rattle.numa_pool.specs.Steps.{IsAttempt};

    ghost then = { IsAttempt };
}

/// Sets the bit of a frame, and returns whether it was clear.
pub(crate) fn attempt(
    words: &FrameWords,
    token: &mut Token,
    node: usize,
    word: usize,
    bit: usize,
) -> bool
    requires table { token.old.table ≡ words.now.table }
    requires place { (node < length words.now.frames) × (word < 64) × (bit < 64)
        × (64 * word + bit < slice_index words.now.frames node) }
    ensures step { (token.new.table ≡ token.old.table)
        × (token.new.view ≡ after_try token.old.view (frame_of node (64 * word + bit)) result) }
    ensures free { result ≡ true → times node (64 * word + bit) token.old.view.held ≡ 0 }
{
    let board = &words.table.shared;
    let found = board.fetch_or::<SetBit>(&mut token.seat, 64 * node + word, 1u64 << bit);
    (found >> bit) & 1 == 0
}

/// A fetch_and of all bits but one.
struct ClearBit;

impl Play<Option<()>, View> for ClearBit {
    ghost use Rattle.numa_pool.specs.Steps.{IsReturn};

    ghost then = { IsReturn };
}

/// Clears the bit of a frame that the seat holds.
pub(crate) fn clear(words: &FrameWords, token: &mut Token, node: usize, word: usize, bit: usize)
    requires table { token.old.table ≡ words.now.table }
    requires place { (node < length words.now.frames) × (word < 64) × (bit < 64) }
    requires held { 0 < times node (64 * word + bit) token.old.view.held }
    ensures { (token.new.table ≡ token.old.table)
        × (token.new.view ≡ after_give token.old.view (frame_of node (64 * word + bit))) }
{
    let board = &words.table.shared;
    board.fetch_and::<ClearBit>(&mut token.seat, 64 * node + word, !(1u64 << bit));
}

/// A new seat, which holds nothing.
struct NewSeat;

impl Split<View> for NewSeat {
    ghost use Rattle.numa_pool.specs.Steps.{after_split, newborn};

    ghost left = { after_split };

    ghost right = { newborn };
}

/// A new seat, which holds nothing.
pub(crate) fn another(words: &FrameWords, token: &mut Token) -> Token
    requires { token.old.table ≡ words.now.table }
    ensures same { (token.new.table ≡ token.old.table)
        × (token.new.view ≡ after_split token.old.view) }
    ensures fresh { (result.table ≡ token.old.table) × (result.view ≡ newborn token.old.view) }
{
    let board = &words.table.shared;
    let seat = board.split_seat::<NewSeat>(&mut token.seat);
    Token { seat }
}

/// The first seat takes over the frames of the second.
struct JoinSeats;

impl Join<View> for JoinSeats {
    ghost use Rattle.numa_pool.specs.Steps.{spent, after_join};

    ghost both = { after_join };

    ghost spent = { spent };
}

/// The first seat takes over the frames of the second.
pub(crate) fn pour(words: &FrameWords, token: &mut Token, other: Token)
    requires { (token.old.table ≡ words.now.table) × (other.table ≡ words.now.table) }
    ensures { (token.new.table ≡ token.old.table)
        × (token.new.view ≡ after_join token.old.view other.view) }
{
    let Token { seat } = other;
    let board = &words.table.shared;
    board.join_seat::<JoinSeats>(&mut token.seat, seat);
}

/// A load that tells that the seat holds no frame twice.
struct CheckOnce;

impl Play<Option<()>, View> for CheckOnce {
    ghost use Rattle.numa_pool.specs.Steps.{IsCheck};

    ghost then = { IsCheck };
}

/// A load that tells that the seat holds no frame twice.
pub(crate) fn check(words: &FrameWords, token: &mut Token)
    requires { token.old.table ≡ words.now.table }
    ensures same { (token.new.table ≡ token.old.table)
        × (token.new.view ≡ after_check token.old.view) }
    ensures once { IsOnce token.old.view.held }
{
    let board = &words.table.shared;
    board.load::<CheckOnce>(&mut token.seat, 0);
}

/// The final words, with what the rule says of them.
pub(crate) fn close(words: FrameWords, token: Token) -> Rest
    requires { token.table ≡ words.table }
    ensures words { IsFull result.words × (slots_len result.words ≡ 64 * length words.frames)
        × (slots_len result.slots ≡ 0) }
    ensures last { IsLast words.frames token.view.held (slots_items result.words) }
    ensures held { (n k : ℕ) → 0 < times n k token.view.held
        → (k < slice_index words.frames n) × (bit_in (slots_items result.words) n k ≡ 1) }
    ensures order { IsLedTo words.frames
        (past_of token.view.log token.view.unlogged ∷ token.view.unlogged.past)
        (slots_items result.words) }
{
    let FrameWords { table } = words;
    let Token { seat } = token;
    table.close_with(seat)
}
