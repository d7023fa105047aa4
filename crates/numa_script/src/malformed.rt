//! Why a line is malformed.
ghost use Rattle.std.specs.Prelude.{◌≡◌, ℕ, ◌+◌, ◌<◌, ◌≤◌, ◌^◌, length, drop, is_some, position};
ghost use Rattle.std.specs.Prelude.{take, Some};
ghost use Rattle.numa_script.specs.Causes.{empty_else, empty_word, fault_behind, fault_of};
ghost use Rattle.numa_script.specs.Causes.{first_misfit, in_fault, is_malformed, is_stray};
ghost use Rattle.numa_script.specs.Causes.{skipped, spare_space, told_fault};
ghost use Rattle.numa_script.specs.Causes.{stray_else, width_of, words_fault};
ghost use Rattle.numa_script.specs.Lines.{keyword_of, line_of};
ghost use Rattle.numa_script.specs.Parts.{words_of};

use crate::keyword::{Keyword, read_keyword};
use crate::line::{LIMIT, is_silent_line, is_told};
use crate::parameter::{Misfit, Parameter, read_misfit, wanted};
use crate::parts::words;
use numa_mask::Parts;

/// What is wrong with a malformed line.
#[derive(Clone, Copy, PartialEq, Eq)]
pub enum Cause {
    /// It has more than 4,096 bytes.
    TooLong,
    /// It has a byte that is neither a space nor a printable ASCII character, such as a tab or the
    /// carriage return of a DOS line end.
    StrayByte(u8),
    /// It begins with a space.
    LeadingSpace,
    /// It ends with a space.
    TrailingSpace,
    /// It has two spaces in a row.
    TwoSpaces,
    /// Its first word, or the first that a process is told, isn't a keyword.
    UnknownWord,
    /// A process is told no line of this keyword.
    NotTold(Keyword),
    /// There are too few words after the first.
    TooFewWords(Keyword),
    /// There are too many words after the first.
    TooManyWords(Keyword),
    /// A word isn't of the form that it must have.
    BadWord(Keyword, Parameter, Misfit),
}

/// What is wrong with a line, and the column at which it begins, in bytes from 1.
#[derive(Clone, Copy, PartialEq, Eq)]
pub struct Malformed {
    pub cause: Cause,
    pub column: usize,
}

/// The number of words.
fn count_of(words: Parts) -> usize
    requires { width_of words < 2 ^ 32 }
    ensures { result ≡ length words.entry }
{
    words.count()
}

/// The number of bytes of the first `count` words, or of all if there are fewer, each with the
/// space after it.
fn width_of(mut words: Parts, count: usize) -> usize
    requires { width_of words < 2 ^ 32 }
    ensures { result ≡ width_of (take count words.entry) }
{
    let mut width = 0;
    let mut left = count;
    while left > 0 {
        let Some(word) = words.next() else {
            return width;
        };
        width += word.len() + 1;
        left -= 1;
    }
    width
}

/// The first word that isn't of its form; the first of the words begins at the column.
fn first_misfit(
    keyword: Keyword,
    parameters: &[Parameter],
    column: usize,
    mut words: Parts,
) -> Option<Malformed>
    requires { column + width_of words < 2 ^ 32 }
    ensures { result ≡ first_misfit keyword parameters.now column words.entry }
{
    let mut column = column;
    for parameter in parameters {
        let Some(word) = words.next() else {
            return None;
        };
        if let Some(misfit) = read_misfit(parameter.form(), word) {
            let cause = Cause::BadWord(keyword, *parameter, misfit);
            return Some(Malformed { cause, column });
        }
        column += word.len() + 1;
    }
    None
}

/// The words after the first, or after the three of which the last is what a process is told.
fn words_behind(line: &[u8], told: bool) -> Parts<'_>
    ensures { result ≡ drop (skipped told) (words_of line.now) }
{
    let mut words = words(line);
    let _ = words.next();
    if told {
        let _ = words.next();
        let _ = words.next();
    }
    words
}

/// What is wrong with the words after a keyword; the first of them begins at the column.
fn fault_behind(keyword: Keyword, column: usize, told: bool, line: &[u8]) -> Option<Malformed>
    requires { column + width_of (drop (skipped told) (words_of line.now)) < 2 ^ 32 }
    ensures { result ≡ fault_behind keyword column (drop (skipped told) (words_of line.now)) }
{
    let wanted = wanted(keyword, words_behind(line, told));
    let count = count_of(words_behind(line, told));
    if count == wanted.len() {
        return first_misfit(keyword, wanted, column, words_behind(line, told));
    }
    let column = column + width_of(words_behind(line, told), wanted.len());
    if count < wanted.len() {
        let cause = Cause::TooFewWords(keyword);
        return Some(Malformed { cause, column });
    }
    let cause = Cause::TooManyWords(keyword);
    Some(Malformed { cause, column })
}

/// What is wrong with what a process is told, whose first word begins at the column.
fn told_fault(first: &[u8], column: usize, line: &[u8]) -> Option<Malformed>
    requires { column + length first.now + 1 + width_of (drop 3 (words_of line.now)) < 2 ^ 32 }
    ensures { result ≡ told_fault (keyword_of first.now) column first.now
        (drop 3 (words_of line.now)) }
{
    let Some(keyword) = read_keyword(first) else {
        return Some(Malformed {
            cause: Cause::UnknownWord,
            column,
        });
    };
    if !is_told(keyword) {
        let cause = Cause::NotTold(keyword);
        return Some(Malformed { cause, column });
    }
    fault_behind(keyword, column + first.len() + 1, true, line)
}

/// How a line `in P LINE` lacks words, of which the last ends before the column.
fn too_few_told(column: usize) -> Option<Malformed>
    ensures { result ≡ Some (record { cause = Cause.TooFewWords Keyword.In; column = column }) }
{
    let cause = Cause::TooFewWords(Keyword::In);
    Some(Malformed { cause, column })
}

/// What is wrong with the words after `in`, the first of which begins at the column.
fn in_fault(column: usize, line: &[u8]) -> Option<Malformed>
    requires { column + width_of (drop 1 (words_of line.now)) < 2 ^ 32 }
    ensures { result ≡ in_fault column (drop 1 (words_of line.now)) }
{
    let mut words = words_behind(line, false);
    let Some(process) = words.next() else {
        return too_few_told(column);
    };
    let Some(first) = words.next() else {
        return too_few_told(column + process.len() + 1);
    };
    if let Some(misfit) = read_misfit(Parameter::Process.form(), process) {
        let cause = Cause::BadWord(Keyword::In, Parameter::Process, misfit);
        return Some(Malformed { cause, column });
    }
    told_fault(first, column + process.len() + 1, line)
}

/// What is wrong with the words of a line that has no empty word.
fn words_fault(line: &[u8]) -> Option<Malformed>
    requires { length line.now ≤ 4096 }
    ensures { result ≡ words_fault (words_of line.now) }
{
    let Some(first) = words(line).next() else {
        unreachable!()
    };
    let Some(keyword) = read_keyword(first) else {
        return Some(Malformed {
            cause: Cause::UnknownWord,
            column: 1,
        });
    };
    if keyword.is_in() {
        return in_fault(first.len() + 2, line);
    }
    fault_behind(keyword, first.len() + 2, false, line)
}

/// The position of the first empty word.
fn empty_word(line: &[u8]) -> Option<usize>
    requires { length line.now ≤ 4096 }
    ensures { result ≡ empty_word 1 (words_of line.now) }
{
    let mut column = 1;
    for word in words(line) {
        if word.is_empty() {
            return Some(column);
        }
        column += word.len() + 1;
    }
    None
}

/// What an empty word at the column means in a line of `size` bytes.
fn spare_space(size: usize, column: usize) -> Cause
    ensures { result ≡ spare_space size column }
{
    if column == 1 {
        Cause::LeadingSpace
    } else if column > size {
        Cause::TrailingSpace
    } else {
        Cause::TwoSpaces
    }
}

/// What is wrong with the spaces or the words of a line.
fn written_fault(line: &[u8]) -> Option<Malformed>
    requires { length line.now ≤ 4096 }
    ensures { result ≡ empty_else (length line.now) (empty_word 1 (words_of line.now))
        (words_fault (words_of line.now)) }
{
    if let Some(column) = empty_word(line) {
        let cause = spare_space(line.len(), column);
        return Some(Malformed { cause, column });
    }
    words_fault(line)
}

/// Whether a byte is neither a space nor a printable ASCII character.
fn is_stray(byte: u8) -> bool
    ensures { result ≡ is_stray byte }
{
    byte < 32 || byte > 126
}

/// The position of the first such byte.
fn first_stray(line: &[u8]) -> Option<usize>
    ensures { result ≡ position is_stray line.now }
{
    line.iter().position(|byte| is_stray(*byte))
}

/// What is wrong with a malformed line: a stray byte takes precedence.
fn with_stray(line: &[u8], fault: Malformed) -> Malformed
    requires { length line.now ≤ 4096 }
    ensures { result ≡ stray_else line.now (position is_stray line.now) fault }
{
    let Some(place) = first_stray(line) else {
        return fault;
    };
    Malformed {
        cause: Cause::StrayByte(line[place]),
        column: place + 1,
    }
}

/// Why a line, without its line feed, is malformed, and where; `None` if it isn't. Of several
/// causes it is the first in the order of [`Cause`], and of several bad words the first. A line of
/// more than 4,096 bytes may be cut after the 4,097th.
pub fn why_malformed(line: &[u8]) -> Option<Malformed>
    ensures fault { result ≡ fault_of line.now }
    ensures malformed { is_some result ≡ is_malformed (line_of line.now).line }
{
    if is_silent_line(line) {
        return None;
    }
    if line.len() > LIMIT {
        return Some(Malformed {
            cause: Cause::TooLong,
            column: LIMIT + 1,
        });
    }
    let fault = written_fault(line)?;
    Some(with_stray(line, fault))
}
