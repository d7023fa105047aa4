//! Why lines are answered `bad words`.
use crate::finding::Detail;
use numa_script::keyword::{Keyword, read_keyword};
use numa_script::parts::words;
use numa_script::{Cause, Malformed, why_malformed};

/// The place of the word after the policy of an `mbind` and the offset of a `map`, from 0.
const AFTER_THREE: u32 = 4;

/// The place of what a process is told, in a line `in P LINE`.
const TOLD: u32 = 2;

/// The word with a place, from 0.
fn word_at(line: &[u8], place: u32) -> Option<&[u8]> {
    let mut left = place;
    for word in words(line) {
        if left == 0 {
            return Some(word);
        }
        left -= 1;
    }
    None
}

/// Whether a line begins with a word that only a host's script has, once it is one.
fn is_of_a_host(line: &[u8]) -> bool {
    let Some(first) = word_at(line, 0) else {
        return false;
    };
    match read_keyword(first) {
        Some(Keyword::Group | Keyword::GroupMems | Keyword::Process | Keyword::Exit) => true,
        Some(Keyword::Attach | Keyword::Fork | Keyword::In) => true,
        _ => false,
    }
}

/// Whether it is the words that are wrong, and not the bytes or the spaces.
fn is_of_words(cause: Cause) -> bool {
    match cause {
        Cause::UnknownWord | Cause::NotTold(_) | Cause::BadWord(..) => true,
        Cause::TooFewWords(_) | Cause::TooManyWords(_) => true,
        _ => false,
    }
}

/// Whether a word after the policy of an `mbind` says what becomes of pages.
fn is_of_pages(word: &[u8]) -> bool {
    if word == b"strict".as_slice() {
        return true;
    }
    word == b"move".as_slice()
}

/// The keyword whose words are wrong.
pub(crate) fn keyword_of(cause: Cause) -> Option<Keyword> {
    match cause {
        Cause::TooFewWords(keyword) => Some(keyword),
        Cause::TooManyWords(keyword) => Some(keyword),
        Cause::BadWord(keyword, ..) => Some(keyword),
        _ => None,
    }
}

/// Whether the words of an `mbind` or a `map` don't fit what follows its policy or its offset.
fn is_of_more(line: &[u8], cause: Cause) -> bool {
    let Some(keyword) = keyword_of(cause) else {
        return false;
    };
    let place = match word_at(line, 0) {
        Some(word) if word == b"in".as_slice() => AFTER_THREE + TOLD,
        _ => AFTER_THREE,
    };
    let Some(word) = word_at(line, place) else {
        return false;
    };
    match keyword {
        Keyword::Mbind => is_of_pages(word),
        Keyword::Map => word == b"huge".as_slice(),
        _ => false,
    }
}

/// Why a line is malformed.
fn malformed_detail(line: &[u8], malformed: Malformed) -> Detail {
    if is_of_more(line, malformed.cause) {
        return Detail::MalformedMore(malformed);
    }
    Detail::Malformed(malformed)
}

/// Why a line of a script of one process is answered so. What isn't malformed is a host's.
pub(crate) fn plain_words(line: &[u8]) -> Detail {
    match why_malformed(line) {
        None => Detail::NoHost,
        Some(malformed) if is_of_words(malformed.cause) && is_of_a_host(line) => Detail::NoHost,
        Some(malformed) => malformed_detail(line, malformed),
    }
}

/// Why a line is answered so whose words are as they must be: what the pools have isn't a process's
/// to tell.
fn untold_detail(line: &[u8]) -> Detail {
    let Some(word) = word_at(line, TOLD) else {
        return Detail::None;
    };
    let Some(Keyword::Pool) = read_keyword(word) else {
        return Detail::None;
    };
    let column = line.len().saturating_sub(word.len()).saturating_add(1);
    let cause = Cause::NotTold(Keyword::Pool);
    Detail::Malformed(Malformed { cause, column })
}

/// Why a line of a host's script is answered so.
pub(crate) fn host_words(line: &[u8]) -> Detail {
    match why_malformed(line) {
        None => untold_detail(line),
        Some(malformed) => malformed_detail(line, malformed),
    }
}
