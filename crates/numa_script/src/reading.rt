//! Reading a fixed number of words as numbers.
ghost use Rattle.std.specs.Prelude.{◌≡◌, ℕ, List, Option};
ghost use Rattle.numa_script.specs.Numbers.{number_of, small_of};
ghost use Rattle.numa_script.specs.Present.{two_of, three_of, four_of, two_words, three_words};
ghost use Rattle.numa_script.specs.Present.{four_words};
ghost use Rattle.std.specs.Option.{option_map};

use crate::number::{number, small};
use crate::words::Words;

/// A number type.
pub(crate) trait Number: Copy {
    ghost of_word: { List ℕ → Option Self };

    /// Reads a number that fits the type.
    fn of(word: &[u8]) -> Option<Self>
        ensures { result ≡ of_word word.now };
}

impl Number for u32 {
    ghost of_word = { small_of };

    fn of(word: &[u8]) -> Option<u32> {
        small(word)
    }
}

impl Number for u64 {
    ghost of_word = { number_of };

    fn of(word: &[u8]) -> Option<u64> {
        number(word)
    }
}

/// The words, if they are two.
#[inline(always)]
pub(crate) fn two_words<'a>(mut words: Words<'a>) -> Option<(&'a [u8], &'a [u8])>
    ensures { option_map (λ v. (v.0.now, v.1.now)) result ≡ two_words words.entry }
{
    let first = words.next()?;
    let second = words.only()?;
    Some((first, second))
}

/// The words, if they are three.
#[inline(always)]
pub(crate) fn three_words<'a>(mut words: Words<'a>) -> Option<(&'a [u8], &'a [u8], &'a [u8])>
    ensures { option_map (λ v. (v.0.now, v.1.now, v.2.now)) result ≡ three_words words.entry }
{
    let first = words.next()?;
    let second = words.next()?;
    let third = words.only()?;
    Some((first, second, third))
}

/// The words, if they are four.
#[inline(always)]
pub(crate) fn four_words<'a>(
    mut words: Words<'a>,
) -> Option<(&'a [u8], &'a [u8], &'a [u8], &'a [u8])>
    ensures { option_map (λ v. (v.0.now, v.1.now, v.2.now, v.3.now)) result
        ≡ four_words words.entry }
{
    let first = words.next()?;
    let second = words.next()?;
    let third = words.next()?;
    let fourth = words.only()?;
    Some((first, second, third, fourth))
}

/// The numbers of the words, if they are two.
#[inline(always)]
pub(crate) fn two<A: Number, B: Number>(words: Words) -> Option<(A, B)>
    ensures { result ≡ two_of A.of_word B.of_word words.entry }
{
    let (first, second) = two_words(words)?;
    Some((A::of(first)?, B::of(second)?))
}

/// The numbers of the words, if they are three.
#[inline(always)]
pub(crate) fn three<A: Number, B: Number, C: Number>(words: Words) -> Option<(A, B, C)>
    ensures { result ≡ three_of A.of_word B.of_word C.of_word words.entry }
{
    let (first, second, third) = three_words(words)?;
    Some((A::of(first)?, B::of(second)?, C::of(third)?))
}

/// The numbers of the words, if they are four.
#[inline(always)]
pub(crate) fn four<A: Number, B: Number, C: Number, D: Number>(words: Words) -> Option<(A, B, C, D)>
    ensures { result ≡ four_of A.of_word B.of_word C.of_word D.of_word words.entry }
{
    let (first, second, third, fourth) = four_words(words)?;
    Some((A::of(first)?, B::of(second)?, C::of(third)?, D::of(fourth)?))
}
