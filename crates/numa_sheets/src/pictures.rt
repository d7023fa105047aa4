//! Reading pictures that are written.

use numa_mask::Parts;

/// A number of decimal digits.
fn number_of(digits: &[u8]) -> u64 {
    let mut number = 0u64;
    for digit in digits {
        let value = u64::from(digit.saturating_sub(b'0'));
        number = number.saturating_mul(10).saturating_add(value);
    }
    number
}

/// The rows of pixels of a picture, by its first attribute `height`.
pub fn height_of(picture: &[u8]) -> u64 {
    let mut is_height = false;
    for word in Parts::new(picture, b'"') {
        if is_height {
            return number_of(word);
        }
        is_height = word == b" height=".as_slice();
    }
    0
}
