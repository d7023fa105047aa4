//! Short texts, written from the last byte to the first: a number's digits come in that order, so
//! that none is moved.
ghost use Rattle.std.specs.Prelude.{◌≡◌, ◌+◌, ◌≤◌, ◌++◌, [], decimal, drop, length};

use itoa::write_digits;
use std::marker::Model;

/// Writes the digits of a number so that they end at a place, and returns where they start.
#[inline(always)]
fn write_number(number: u64, bytes: &mut [u8], end: usize) -> usize
    requires room { length (decimal number) ≤ end }
    requires within { end ≤ length bytes.old }
    ensures start { result + length (decimal number) ≡ end }
    ensures written { drop result bytes.new ≡ decimal number ++ drop end bytes.old }
{
    if number < 10 {
        bytes[end - 1] = b'0' + number as u8;
        return end - 1;
    }
    write_digits(number, bytes, end)
}

/// A text of at most `ROOM` bytes as far as it is written: its last part. All its room is zeroed
/// first, so a small one costs less.
#[derive(Drop)]
pub(crate) struct ShortText<const ROOM: usize> {
    bytes: [u8; ROOM],
    start: usize,
}

impl<const ROOM: usize> Model for ShortText<ROOM> {
    ghost use Rattle.std.specs.Prelude.{◌≡◌, ℕ, List, ◌≤◌, drop, length};

    ghost Value = { List ℕ };

    ghost view = { λ t. drop t.start t.bytes };

    ghost invariant = { λ t. (t.start ≤ ROOM) × (length t.bytes ≡ ROOM) };
}

impl<const ROOM: usize> ShortText<ROOM> {
    /// The empty text.
    #[inline(always)]
    pub(crate) fn new() -> ShortText<ROOM>
        ensures { result ≡ [] }
    {
        ShortText {
            bytes: [0; ROOM],
            start: ROOM,
        }
    }

    /// The text.
    #[inline(always)]
    pub(crate) fn bytes(&self) -> &[u8]
        ensures { result.now ≡ self.now }
    {
        let all = &self.bytes[..];
        &all[self.start..]
    }

    /// Puts a part before the text.
    #[inline(always)]
    pub(crate) fn put(&mut self, part: &[u8])
        requires { length part.now + length self.old ≤ ROOM }
        ensures { self.new ≡ part.now ++ self.old }
    {
        let start = self.start - part.len();
        let all = &mut self.bytes[..];
        all[start..self.start].copy_from_slice(part);
        self.start = start;
    }

    /// Puts a number before the text.
    #[inline(always)]
    pub(crate) fn put_number(&mut self, number: u64)
        requires { length self.old + 20 ≤ ROOM }
        ensures text { self.new ≡ decimal number ++ self.old }
        ensures short { length self.new ≤ length self.old + 20 }
    {
        self.start = write_number(number, &mut self.bytes, self.start);
    }

    /// Puts the number of a node before the text.
    #[inline(always)]
    pub(crate) fn put_node(&mut self, node: u8)
        requires { length self.old + 3 ≤ ROOM }
        ensures text { self.new ≡ decimal node ++ self.old }
        ensures short { length self.new ≤ length self.old + 3 }
    {
        self.start = write_number(u64::from(node), &mut self.bytes, self.start);
    }
}
