//! Reading numbers from words of a script.
ghost use Rattle.std.specs.Prelude.{◌≡◌, ℕ, ◌+◌, ◌*◌, ◌^◌, ◌<◌, ◌≤◌, List, MatchOption, IfSome};
ghost use Rattle.std.specs.Prelude.{[], ◌∷◌, length};
ghost use Rattle.numa_script.specs.Numbers.{digit_of, in_64_bits, numeral_of, number_of, small_of};
ghost use Rattle.numa_script.specs.Numbers.{item_of, page_of, node_of, frame_number_of};
ghost use Rattle.numa_script.specs.Numbers.{few_of, below, IsNumber};

use numa_requests::PAGE_BYTES;

/// The most hexadecimal digits of a number.
const HEXADECIMAL_DIGITS: usize = 16;

/// The most decimal digits that always fit.
const SAFE_DIGITS: usize = 19;

/// The value of a digit in the radix.
#[tactic(auto, unfolding(crate::specs::Numbers::digit_of))]
fn digit_in(byte: u8, radix: u32) -> Option<u32>
    requires low { 2 ≤ radix }
    requires high { radix ≤ 36 }
    ensures { result ≡ digit_of radix byte }
{
    let digit = match byte {
        b'0'..=b'9' => byte - b'0',
        b'A'..=b'Z' => byte - b'A' + 10,
        b'a'..=b'z' => byte - b'a' + 10,
        _ => return None,
    };
    let digit = u32::from(digit);
    if digit < radix { Some(digit) } else { None }
}

/// The value of a hexadecimal digit.
#[inline(always)]
#[tactic(auto, unfolding(crate::specs::Numbers::digit_of))]
fn hexadecimal_digit(byte: u8) -> Option<u32>
    ensures { result ≡ digit_of 16 byte }
{
    let digit = match byte {
        b'0'..=b'9' => byte - b'0',
        b'a'..=b'f' => byte - b'a' + 10,
        b'A'..=b'F' => byte - b'A' + 10,
        _ => return None,
    };
    Some(u32::from(digit))
}

/// The number with one more digit, if it fits.
#[tactic(auto, unfolding(crate::specs::Numbers::in_64_bits))]
fn with_digit(value: u64, radix: u32, digit: u32) -> Option<u64>
    ensures { result ≡ in_64_bits (value * radix + digit) }
{
    value
        .checked_mul(u64::from(radix))?
        .checked_add(u64::from(digit))
}

/// The value of 1 to `most` digits in the radix, if it fits.
#[tactic(auto, using(crate::proofs::Numerals::numeral_steps))]
fn numeral(digits: &[u8], radix: u32, most: usize) -> Option<u64>
    requires low { 2 ≤ radix }
    requires high { radix ≤ 36 }
    ensures { result ≡ numeral_of radix most digits.now }
{
    if digits.is_empty() || digits.len() > most {
        return None;
    }
    let mut value = 0u64;
    for byte in digits {
        let digit = digit_in(*byte, radix)?;
        value = with_digit(value, radix, digit)?;
    }
    Some(value)
}

/// The value of 1 to 16 hexadecimal digits. It always fits.
#[tactic(auto, using(crate::proofs::Numerals::numeral_steps))]
fn hexadecimal(digits: &[u8]) -> Option<u64>
    ensures { result ≡ numeral_of 16 16 digits.now }
{
    if digits.is_empty() || digits.len() > HEXADECIMAL_DIGITS {
        return None;
    }
    let mut value = 0u64;
    for byte in digits {
        let digit = hexadecimal_digit(*byte)?;
        value = value * 16 + u64::from(digit);
    }
    Some(value)
}

/// The value of 1 to 19 decimal digits. It always fits.
#[tactic(auto, using(crate::proofs::Numerals::numeral_steps))]
fn short_decimal(digits: &[u8]) -> Option<u64>
    requires { length digits.now ≤ 19 }
    ensures { result ≡ numeral_of 10 20 digits.now }
{
    if digits.is_empty() {
        return None;
    }
    let mut value = 0u64;
    for byte in digits {
        let digit = digit_in(*byte, 10)?;
        value = value * 10 + u64::from(digit);
    }
    Some(value)
}

/// The value of 1 to 20 decimal digits, if it fits.
#[inline(always)]
fn decimal(digits: &[u8]) -> Option<u64>
    ensures { result ≡ numeral_of 10 20 digits.now }
{
    if digits.len() <= SAFE_DIGITS {
        return short_decimal(digits);
    }
    numeral(digits, 10, 20)
}

/// The value of a decimal digit.
#[inline(always)]
#[tactic(auto, using(crate::proofs::Numerals::one_digit_is))]
fn one_digit(byte: u8) -> Option<u64>
    ensures { result ≡ number_of (byte ∷ []) }
{
    match digit_in(byte, 10) {
        Some(digit) => Some(u64::from(digit)),
        None => None,
    }
}

/// Reads a number: `0x` and 1 to 16 hexadecimal digits, or 1 to 20 decimal digits that fit 64 bits.
#[tactic(auto, using(crate::proofs::Numerals::number_steps))]
pub fn number(word: &[u8]) -> Option<u64>
    ensures value { result ≡ number_of word.now }
    ensures grammar { MatchOption result
        ((n : ℕ) → IsNumber word.now n → ⊥) (λ n. IsNumber word.now n) }
{
    if let [byte] = word {
        return one_digit(*byte);
    }
    match word.strip_prefix(b"0x") {
        Some(digits) => hexadecimal(digits),
        None => decimal(word),
    }
}

/// Reads a number below 2^32.
pub fn small(word: &[u8]) -> Option<u32>
    ensures { result ≡ small_of word.now }
{
    u32::try_from(number(word)?).ok()
}

/// Reads an item of a list of numbers: 1 to 10 decimal digits, below 2^32.
pub fn small_item(item: &[u8]) -> Option<u32>
    ensures { result ≡ item_of item.now }
{
    u32::try_from(numeral(item, 10, 10)?).ok()
}

/// Reads an item of a distance table: 1 to 10 decimal digits, at most 255.
pub fn distance(item: &[u8]) -> Option<u8>
    ensures { result ≡ below 256 (item_of item.now) }
{
    u8::try_from(small_item(item)?).ok()
}

/// Reads an address in bytes, and returns its page: the address divided by 4,096.
pub fn page(word: &[u8]) -> Option<u64>
    ensures { result ≡ page_of word.now }
{
    let address = number(word)?;
    Some(address / PAGE_BYTES)
}

/// Reads the number of a node, below 256.
pub fn node(word: &[u8]) -> Option<u8>
    ensures { result ≡ node_of word.now }
{
    u8::try_from(number(word)?).ok()
}

/// Reads the number of a frame of a node, below 65,536.
pub fn frame_number(word: &[u8]) -> Option<u16>
    ensures { result ≡ frame_number_of word.now }
{
    u16::try_from(number(word)?).ok()
}

/// A number of pages of a span, if it is at most 65,536.
pub(crate) fn few_pages(pages: u64) -> Option<u32>
    ensures { result ≡ few_of pages }
{
    if pages > 65536 {
        return None;
    }
    u32::try_from(pages).ok()
}
