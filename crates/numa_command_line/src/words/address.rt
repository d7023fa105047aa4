//! The address of a page, as it is typed or as answers print it.
ghost use Rattle.std.specs.Prelude.{◌≡◌, ◌++◌, IfOk, codes};
ghost use Rattle.std.specs.Char.{is_digit};
ghost use Rattle.std.specs.List.{list_all};
ghost use Rattle.numa_script.specs.Numbers.{number_of};
ghost use Rattle.numa_command_line.specs.Values.{address_of, is_hexadecimal, sure};

use numa_script::number::number;
use numa_sheets::AddressAsked;
use std::alloc::{AllocError, Global};

/// The fewest digits of an address in an answer.
const PRINTED_DIGITS: usize = 8;

/// Whether a text has decimal digits alone.
fn has_digits_alone(text: &[u8]) -> bool
    ensures { result ≡ list_all (λ c. is_digit c 10) text.now }
{
    text.iter().all(|byte| byte.is_ascii_digit())
}

/// Whether digits without `0x` are hexadecimal for sure: one is a letter, or they are eight or more
/// of which the first is 0, as answers print addresses.
fn is_hexadecimal(text: &[u8]) -> bool
    ensures { result ≡ is_hexadecimal text.now }
{
    !has_digits_alone(text) || text.len() >= PRINTED_DIGITS && text.starts_with(b"0")
}

/// The number that digits write in hexadecimal.
fn by_hexadecimal(alloc: Global, digits: &[u8]) -> Result<Option<u64>, AllocError>
    ensures { IfOk result (λ read. read ≡ number_of (codes "0x" ++ digits.now)) }
{
    let mut word = Vec::from_slice(alloc, b"0x")?;
    word.extend_from_slice(digits)?;
    Ok(number(word.as_slice()))
}

/// An address that can be read in one way.
fn sure(read: Option<u64>) -> Option<AddressAsked>
    ensures { result ≡ sure read }
{
    match read {
        Some(value) => Some(AddressAsked {
            value,
            hexadecimal: None,
        }),
        None => None,
    }
}

/// Reads an address in bytes: hexadecimal behind `0x`, with a letter, or as eight digits or more of
/// which the first is 0. Other digits are decimal, or may be hexadecimal.
///
/// # Errors
/// `AllocError`: out of memory.
pub fn address(alloc: Global, text: &[u8]) -> Result<Option<AddressAsked>, AllocError>
    ensures { IfOk result (λ read. read ≡ address_of text.now) }
{
    if text.starts_with(b"0x") {
        return Ok(sure(number(text)));
    }
    let hexadecimal = by_hexadecimal(alloc, text)?;
    if is_hexadecimal(text) {
        return Ok(sure(hexadecimal));
    }
    match number(text) {
        Some(value) => Ok(Some(AddressAsked { value, hexadecimal })),
        None => Ok(None),
    }
}
