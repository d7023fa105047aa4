//! The parts of a text between separators of one byte.
ghost use Rattle.std.specs.Prelude.{◌≡◌, ℕ, ◌==◌, [], ◌∷◌, List, MatchOption, position};
ghost use Rattle.std.specs.Iterator.{YieldsFirstRef, item_count};
ghost use Rattle.numa_mask.specs.Parts.{parts_of};

use std::marker::Model;

/// The first position of a byte. This loop stays a separate function: inside a larger loop the
/// compiler would store that loop's variables again for each byte.
#[inline(never)]
pub fn first_place(text: &[u8], byte: u8) -> Option<usize>
    ensures { result ≡ position (λ b. b == byte) text.now }
{
    text.iter().position(|other| *other == byte)
}

/// The text before the first separator, and the text after it.
#[tactic(auto, using(crate::proofs::Splits::cut_at, crate::proofs::Splits::cut_nowhere))]
fn cut(text: &[u8], separator: u8) -> Option<(&[u8], &[u8])>
    ensures { MatchOption result (parts_of separator text.now ≡ text.now ∷ [])
        (λ parts. parts_of separator text.now ≡ parts.0.now ∷ parts_of separator parts.1.now) }
{
    let end = first_place(text, separator)?;
    Some((&text[..end], &text[end + 1..]))
}

/// An iterator over the parts of a text, from the front.
#[derive(Drop)]
pub struct Parts<'a> {
    rest: &'a [u8],
    separator: u8,
    ended: bool,
}

impl<'a> Model for Parts<'a> {
    ghost use Rattle.std.specs.Prelude.{ℕ, List, if◌then◌else◌, []};
    ghost use Rattle.numa_mask.specs.Parts.{parts_of};

    ghost Value = { List (List ℕ) };

    ghost view = { λ p. if p.ended then [] else parts_of p.separator p.rest.now };
}

impl<'a> Parts<'a> {
    /// The parts of a text between separators. There is at least one: a text without a separator is
    /// one part.
    pub fn new(text: &'a [u8], separator: u8) -> Parts<'a>
        ensures { result ≡ parts_of separator text.now }
    {
        Parts {
            rest: text,
            separator,
            ended: false,
        }
    }

    /// The remaining part, if exactly one remains.
    pub fn only(mut self) -> Option<&'a [u8]>
        ensures { MatchOption result
            ((part : List ℕ) → self.entry ≡ (part ∷ []) → ⊥)
            (λ part. self.entry ≡ (part.now ∷ [])) }
    {
        let part = self.next()?;
        match self.next() {
            None => Some(part),
            Some(_) => None,
        }
    }
}

impl<'a> Iterator for Parts<'a> {
    type Item = &'a [u8];

    ghost next_gives = { YieldsFirstRef (λ p. p) };

    ghost remaining = { item_count (λ p. p) };

    fn next(&mut self) -> Option<&'a [u8]> {
        if self.ended {
            return None;
        }
        match cut(self.rest, self.separator) {
            Some((part, rest)) => {
                self.rest = rest;
                Some(part)
            }
            None => {
                self.ended = true;
                Some(self.rest)
            }
        }
    }
}
