//! The words of a line. Where its spaces stand is found once, for all of a short line, by vectors;
//! in a longer line each word is sought by itself.
ghost use Rattle.std.specs.Prelude.{◌≡◌, ℕ, ◌+◌, ◌-◌, ◌*◌, ◌≤◌, ◌==◌, [], ◌∷◌, List, length};
ghost use Rattle.std.specs.Prelude.{drop, position, IfSome, MatchOption, Some};
ghost use Rattle.std.specs.Iterator.{YieldsFirstRef, item_count};
ghost use Rattle.numa_script.specs.Parts.{words_of};
ghost use Rattle.numa_script.specs.Words.{Marks, MarksFrom, any_empty};

use numa_mask::parts::first_place;
use std::marker::Model;
use std::simd::prelude::*;

/// The spaces among as many bytes as there are lanes.
#[inline(always)]
fn spaces_of<const LANES: usize>(line: &[u8], at: usize) -> u64
    requires some { at + LANES ≤ length line.now }
    requires lanes { LANES ≤ 32 }
    ensures { MarksFrom line.now at LANES result }
{
    Simd::<u8, LANES>::from_slice(&line[at..])
        .simd_eq(Simd::splat(b' '))
        .to_bitmask()
}

/// The spaces of a line that two vectors cover, of which the second ends where the line does.
#[inline(always)]
fn joined(line: &[u8], lanes: usize, front: u64, back: u64) -> u64
    requires some { lanes ≤ length line.now }
    requires few { length line.now ≤ 2 * lanes }
    requires lanes { lanes ≤ 32 }
    requires front { MarksFrom line.now 0 lanes front }
    requires back { MarksFrom line.now (length line.now - lanes) lanes back }
    ensures { Marks line.now result }
{
    front | back << (line.len() - lanes)
}

/// The spaces of a line that two vectors of so many lanes cover.
#[inline(always)]
fn spaces_by<const LANES: usize>(line: &[u8]) -> u64
    requires some { LANES ≤ length line.now }
    requires few { length line.now ≤ 2 * LANES }
    requires lanes { LANES ≤ 32 }
    ensures { Marks line.now result }
{
    let front = spaces_of::<LANES>(line, 0);
    let back = spaces_of::<LANES>(line, line.len() - LANES);
    joined(line, LANES, front, back)
}

/// The spaces of a line of 8 to 64 bytes.
#[inline(always)]
fn spaces(line: &[u8]) -> Option<u64>
    ensures { IfSome result (λ marks. Marks line.now marks) }
{
    let len = line.len();
    if len < 8 || len > 64 {
        return None;
    }
    if len <= 16 {
        return Some(spaces_by::<8>(line));
    }
    if len <= 32 {
        return Some(spaces_by::<16>(line));
    }
    Some(spaces_by::<32>(line))
}

/// The first of the spaces.
#[inline(always)]
fn first_mark(text: &[u8], marks: u64) -> Option<usize>
    requires { Marks text.now marks }
    ensures { result ≡ position (λ b. b == 32) text.now }
{
    // Only the proof needs the text.
    let _ = text;
    if marks == 0 {
        return None;
    }
    Some(marks.trailing_zeros() as usize)
}

/// The first space of a text.
#[inline(always)]
fn first_space(text: &[u8], marks: Option<u64>) -> Option<usize>
    requires { IfSome marks (λ marks. Marks text.now marks) }
    ensures { result ≡ position (λ b. b == 32) text.now }
{
    match marks {
        Some(marks) => first_mark(text, marks),
        None => first_place(text, b' '),
    }
}

/// The spaces behind the first.
#[inline(always)]
fn later_marks(text: &[u8], marks: u64, end: usize) -> u64
    requires marks { Marks text.now marks }
    requires space { position (λ b. b == 32) text.now ≡ Some end }
    ensures { Marks (drop (end + 1) text.now) result }
{
    // Only the proof needs the text.
    let _ = text;
    marks >> end >> 1
}

/// The spaces behind the first, if they are known.
#[inline(always)]
fn later(text: &[u8], marks: Option<u64>, end: usize) -> Option<u64>
    requires marks { IfSome marks (λ marks. Marks text.now marks) }
    requires space { position (λ b. b == 32) text.now ≡ Some end }
    ensures { IfSome result (λ marks. Marks (drop (end + 1) text.now) marks) }
{
    match marks {
        Some(marks) => Some(later_marks(text, marks, end)),
        None => None,
    }
}

/// The word before the first space, and the text behind it with its spaces.
#[inline(always)]
#[tactic(auto, using(numa_mask::proofs::Splits::cut_nowhere))]
fn cut(text: &[u8], marks: Option<u64>) -> Option<(&[u8], &[u8], Option<u64>)>
    requires { IfSome marks (λ marks. Marks text.now marks) }
    ensures words { MatchOption result (words_of text.now ≡ text.now ∷ [])
        (λ cut. words_of text.now ≡ cut.0.now ∷ words_of cut.1.now) }
    ensures kept { IfSome result (λ cut. IfSome cut.2 (λ marks. Marks cut.1.now marks)) }
{
    let end = first_space(text, marks)?;
    let later = later(text, marks, end);
    Some((&text[..end], &text[end + 1..], later))
}

/// Whether one of the words of a text is empty: there are two spaces in a row, or one at an end.
#[inline(always)]
fn has_gap(text: &[u8], marks: u64) -> bool
    requires { Marks text.now marks }
    ensures { result ≡ any_empty (words_of text.now) }
{
    if text.is_empty() {
        return true;
    }
    if text[text.len() - 1] == b' ' {
        return true;
    }
    if marks & 1 == 1 {
        return true;
    }
    marks & marks >> 1 != 0
}

/// The words of a line, from the front. Between two spaces in a row is an empty word.
#[derive(Drop)]
pub struct Words<'a> {
    rest: &'a [u8],
    marks: Option<u64>,
    ended: bool,
}

impl<'a> Model for Words<'a> {
    ghost use Rattle.std.specs.Prelude.{ℕ, List, if◌then◌else◌, [], IfSome};
    ghost use Rattle.numa_script.specs.Parts.{words_of};
    ghost use Rattle.numa_script.specs.Words.{Marks};

    ghost Value = { List (List ℕ) };

    ghost view = { λ w. if w.ended then [] else words_of w.rest.now };

    ghost invariant = { λ w. IfSome w.marks (λ marks. Marks w.rest.now marks) };
}

impl<'a> Words<'a> {
    /// The words of a line, of which there is at least one.
    #[inline(always)]
    pub fn new(line: &'a [u8]) -> Words<'a>
        ensures { result ≡ words_of line.now }
    {
        Words {
            rest: line,
            marks: spaces(line),
            ended: false,
        }
    }

    /// Whether one of the words is empty.
    #[inline(always)]
    pub(crate) fn has_empty(&self) -> bool
        ensures { result ≡ any_empty self.now }
    {
        if self.ended {
            return false;
        }
        match self.marks {
            Some(marks) => has_gap(self.rest, marks),
            None => has_empty_word(self.rest),
        }
    }

    /// The remaining word, if exactly one remains.
    #[inline(always)]
    pub fn only(mut self) -> Option<&'a [u8]>
        ensures { MatchOption result
            ((word : List ℕ) → self.entry ≡ (word ∷ []) → ⊥)
            (λ word. self.entry ≡ (word.now ∷ [])) }
    {
        let word = self.next();
        match self.next() {
            None => word,
            Some(_) => None,
        }
    }
}

impl<'a> Iterator for Words<'a> {
    type Item = &'a [u8];

    ghost next_gives = { YieldsFirstRef (λ w. w) };

    ghost remaining = { item_count (λ w. w) };

    #[inline(always)]
    fn next(&mut self) -> Option<&'a [u8]> {
        if self.ended {
            return None;
        }
        match cut(self.rest, self.marks) {
            Some((word, rest, marks)) => {
                self.rest = rest;
                self.marks = marks;
                Some(word)
            }
            None => {
                self.ended = true;
                Some(self.rest)
            }
        }
    }
}

/// Whether one of the words of a line is empty, where each is sought by itself.
#[inline(never)]
fn has_empty_word(line: &[u8]) -> bool
    ensures { result ≡ any_empty (words_of line.now) }
{
    for word in Words::new(line) {
        if word.is_empty() {
            return true;
        }
    }
    false
}
