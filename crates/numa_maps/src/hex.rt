//! Numbers in hexadecimal.
ghost use Rattle.std.specs.Prelude.{◌≡◌, ℕ, ◌+◌, ◌-◌, ◌<◌, ◌≤◌, ◌++◌, [], ◌∷◌, length, false};
ghost use Rattle.std.specs.Fmt.{digit_glyph};
ghost use Rattle.arrayvec.specs.ArrayString.{array_string_len};
ghost use Rattle.numa_maps.specs.Listing.{hex_text};

use crate::line::LineText;

/// Appends a hexadecimal digit, in lower case.
fn push_digit(text: &mut LineText, digit: u8)
    requires digit { digit < 16 }
    requires room { array_string_len text.old + 1 ≤ 8192 }
    ensures { text.new.bytes ≡ text.old.bytes ++ digit_glyph false digit ∷ [] }
{
    let letter = if digit < 10 {
        b'0' + digit
    } else {
        b'a' + (digit - 10)
    };
    text.push(char::from(letter));
}

/// Appends a number in hexadecimal, with leading zeros to at least `least` digits.
pub(crate) fn push_hex(text: &mut LineText, number: u64, least: u32)
    requires { array_string_len text.old + length (hex_text least number) ≤ 8192 }
    ensures { text.new.bytes ≡ text.old.bytes ++ hex_text least number }
{
    let last = (number % 16) as u8;
    if number < 16 && least <= 1 {
        push_digit(text, last);
        return;
    }
    push_hex(text, number / 16, least.saturating_sub(1));
    push_digit(text, last);
}
