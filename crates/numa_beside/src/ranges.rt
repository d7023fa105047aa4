//! Ranges of addresses in answers, `7f1230000000-7f1230021000` or one page's address alone, and the
//! headings of processes.

use numa_requests::PAGE_BYTES;

/// The fewest and the most digits of an address.
const DIGITS: usize = 8;

const MOST: usize = 16;

/// A range of addresses at the start of a text.
#[derive(Clone, Copy)]
pub(crate) struct Range {
    pub(crate) start: u64,
    pub(crate) end: u64,
    /// The bytes of the text that it takes.
    pub(crate) length: usize,
}

/// The value of a hexadecimal digit as answers have it.
fn digit_of(byte: u8) -> Option<u64> {
    match byte {
        b'0'..=b'9' => Some(u64::from(byte).saturating_sub(48)),
        b'a'..=b'f' => Some(u64::from(byte).saturating_sub(87)),
        _ => None,
    }
}

/// The address with which a text begins, and how many digits it has, if these are enough.
fn address_in(text: &[u8], fewest: usize) -> Option<(u64, usize)> {
    let mut value = 0u64;
    let mut digits = 0usize;
    for byte in text {
        let Some(digit) = digit_of(*byte) else {
            break;
        };
        if digits == MOST {
            return None;
        }
        value = value << 4 | digit;
        digits = digits.saturating_add(1);
    }
    if digits < fewest {
        return None;
    }
    Some((value, digits))
}

/// Whether a word ends where a text begins.
fn is_end(text: &[u8]) -> bool {
    match text.first() {
        Some(byte) => *byte == b' ',
        None => true,
    }
}

/// The page at an address, whose digits come before the rest of a text.
fn page_at(start: u64, digits: usize, rest: &[u8]) -> Option<Range> {
    if !is_end(rest) {
        return None;
    }
    Some(Range {
        start,
        end: start.saturating_add(PAGE_BYTES),
        length: digits,
    })
}

/// The range with which a text begins, if it begins with one: with two addresses, or with one of a
/// page, and a space behind them or nothing.
pub(crate) fn range_in(text: &[u8]) -> Option<Range> {
    let (start, digits) = address_in(text, DIGITS)?;
    let rest = text.get(digits..)?;
    let Some(behind) = rest.strip_prefix(b"-") else {
        return page_at(start, digits, rest);
    };
    let (end, more) = address_in(behind, DIGITS)?;
    if !is_end(behind.get(more..)?) {
        return None;
    }
    Some(Range {
        start,
        end,
        length: digits.saturating_add(more).saturating_add(1),
    })
}

/// The page that a line of an explanation is about, if it says its nodes.
fn page_in(line: &[u8]) -> Option<Range> {
    let text = line.strip_prefix(b"page 0x")?;
    let (start, digits) = address_in(text, 1)?;
    if !text.get(digits..)?.starts_with(b" of task ") {
        return None;
    }
    Some(Range {
        start,
        end: start.saturating_add(PAGE_BYTES),
        length: digits,
    })
}

/// The pages that a line of an explanation is about, if it begins a stretch.
fn stretch_in(line: &[u8]) -> Option<Range> {
    let text = line.strip_prefix(b"stretch 0x")?;
    let (start, digits) = address_in(text, 1)?;
    let behind = text.get(digits..)?.strip_prefix(b"-0x")?;
    let (end, more) = address_in(behind, 1)?;
    Some(Range {
        start,
        end,
        length: digits.saturating_add(more).saturating_add(3),
    })
}

/// The range that a line of a text is about: with which it begins, or which it explains.
pub(crate) fn range_of(line: &[u8]) -> Option<Range> {
    match range_in(line) {
        Some(range) => Some(range),
        None => page_in(line).or(stretch_in(line)),
    }
}

/// The number with which a text begins, if it begins with a digit.
pub(crate) fn number_in(text: &[u8]) -> Option<u64> {
    let mut number = None;
    for byte in text {
        let digit = match byte {
            b'0'..=b'9' => u64::from(*byte).saturating_sub(48),
            _ => break,
        };
        number = Some(
            number
                .unwrap_or(0u64)
                .saturating_mul(10)
                .saturating_add(digit),
        );
    }
    number
}

/// The process of a heading, `process 3` or `process 3, group 5`, if a text begins with one.
pub(crate) fn process_in(text: &[u8]) -> Option<u32> {
    let number = number_in(text.strip_prefix(b"process ")?)?;
    u32::try_from(number).ok()
}
