//! Numbers of pages in options.
ghost use Rattle.std.specs.Prelude.{◌≡◌, ◌*◌};
ghost use Rattle.numa_command_line.specs.Values.{pages_in, unit_of, whole_pages};

use numa_requests::PAGE_BYTES;
use numa_script::number::number;

/// The bytes of the unit with this letter: a power of 1,024.
fn unit_of(letter: u8) -> Option<u64>
    ensures { result ≡ unit_of letter }
{
    match letter {
        b'K' | b'k' => Some(1 << 10),
        b'M' | b'm' => Some(1 << 20),
        b'G' | b'g' => Some(1 << 30),
        b'T' | b't' => Some(1 << 40),
        _ => None,
    }
}

/// The pages of `count` units of bytes, if they are whole pages.
fn units_as_pages(count: u64, unit: u64) -> Option<u64>
    ensures { result ≡ whole_pages (count * unit) }
{
    match count.checked_mul(unit) {
        Some(bytes) if bytes.is_multiple_of(PAGE_BYTES) => Some(bytes / PAGE_BYTES),
        _ => None,
    }
}

/// Reads a number of pages: a plain number, or a number with K, M, G or T, in units of 1,024,
/// 1,024^2, 1,024^3 or 1,024^4 bytes, which must be whole pages of 4,096 bytes.
pub(crate) fn pages_of(text: &[u8]) -> Option<u64>
    ensures { result ≡ pages_in text.now }
{
    let Some(last) = text.last() else {
        return None;
    };
    match unit_of(*last) {
        None => number(text),
        Some(unit) => units_as_pages(number(&text[..text.len() - 1])?, unit),
    }
}
